//! `Machine`: nine tasks, and the activities of all drivers on them. An activity goes on statement by statement, in the unit of its driver.
ghost use Rattle.std.specs.Prelude.{◌≡◌, ℕ, ◌≤◌, ◌<◌, All, IfOk, IsTrue, None, Some, length, map, option_copied, slice_get};
ghost use Rattle.byte_memory.specs.Tested.{Memory as MemoryValue};
ghost use Rattle.checked_tree.specs.Numbers.{is_value};
ghost use Rattle.checked_tree.specs.Step as step;
ghost use Rattle.safe_code.specs.Runnable.{IsRunnable};
ghost use Rattle.driver_machine.specs.Machines.{Belongs, Drops, IsTask, OthersStay, Starts, activity_in, dropped, owner_after, owner_at, owner_in};
ghost use Rattle.driver_machine.specs.Tasks.{ComesTo};

use crate::busy::Busy;
use crate::step_out::StepOut;
use crate::task::Task;
use arrayvec::ArrayVec;
use byte_memory::Tested;
use checked_tree::{Answer, CheckedUnit};
use safe_code::{SafeDriver, each_function_is_runnable};
use sd_base::limits::{LOCALS, TASKS};
use sd_base::{Memory, Who};
use std::alloc::Global;
use std::marker::Model;

/// How many tasks there are: 0 to 8.
const ROWS: usize = TASKS as usize + 1;

/// The machine: tasks 1 to 8, and task 0 for handlers. A contract sees the list of the tasks, of which `owner_in`, `activity_in` and `Belongs` speak.
///
/// All memory is taken by `new`.
#[derive(Drop)]
pub struct Machine {
    tasks: Vec<Task>,
    /// The arguments of the call that a step makes.
    arguments: ArrayVec<i64, LOCALS>,
}

impl Model for Machine {
    ghost use Rattle.std.specs.Prelude.{List};
    ghost use Rattle.std.specs.Coded.{codes};
    ghost use Rattle.driver_machine.specs.declared.task.Task.{Task as Row};
    ghost use Rattle.driver_machine.specs.contracts.task.Task as row;

    ghost Value = { List Row };

    ghost coded = { Prim.hlevel (codes, row.the_row.coded) };

    ghost use Rattle.driver_machine.specs.Machines.{IsMachine};

    ghost view = { λ m. m.tasks.items };

    ghost invariant = { λ m. IsMachine m.tasks.items m.arguments.items };
}

/// The task with this number.
fn row(tasks: &[Task], at: usize) -> Option<&Task>
    ensures { option_copied result ≡ slice_get tasks.now at }
{
    tasks.get(at)
}

/// The driver whose activity a task has, None where it has none.
fn owner_of_row(tasks: &[Task], at: usize) -> Option<u8>
    ensures { result ≡ owner_in tasks.now at }
{
    match row(tasks, at) {
        Some(task) => task.owner(),
        None => None,
    }
}

/// The line at which the activity of a task stands.
fn line_of_row(tasks: &[Task], at: usize, unit: &CheckedUnit) -> u32
    requires tasks { All IsTask tasks.now }
    requires within { at < length tasks.now }
    requires belongs { Belongs unit.now tasks.now at }
    ensures { result ≡ step.line (activity_in unit.now tasks.now at) }
{
    let task = &tasks[at];
    task.line(unit)
}

/// A step of the activity of a task.
fn step_row(
    tasks: &mut [Task],
    at: usize,
    unit: &CheckedUnit,
    memory: &mut Tested,
    arguments: &mut ArrayVec<i64, LOCALS>,
) -> StepOut
    requires tasks { All IsTask tasks.old }
    requires within { at < length tasks.old }
    requires belongs { Belongs unit.now tasks.old at }
    requires words { All (λ z. IsTrue (is_value z)) arguments.old.items }
    requires runnable { All IsRunnable unit.now.functions }
    ensures comes { ComesTo (step.step unit.now (activity_in unit.now tasks.old at) memory.old)
        (activity_in unit.now tasks.old at) memory.old result (activity_in unit.now tasks.new at) memory.new }
    ensures belongs { Belongs unit.now tasks.new at }
    ensures owner { owner_in tasks.new at ≡ owner_after result (owner_in tasks.old at) }
    ensures others { OthersStay at tasks.old tasks.new }
    ensures tasks { All IsTask tasks.new }
    ensures length { length tasks.new ≡ length tasks.old }
    ensures words { All (λ z. IsTrue (is_value z)) arguments.new.items }
{
    let task = &mut tasks[at];
    task.step(unit, memory, arguments)
}

/// The activity of a task goes on behind its kernel call.
fn answer_row(tasks: &mut [Task], at: usize, unit: &CheckedUnit, reply: Answer)
    requires tasks { All IsTask tasks.old }
    requires within { at < length tasks.old }
    requires belongs { Belongs unit.now tasks.old at }
    ensures answered { activity_in unit.now tasks.new at ≡ step.answered (activity_in unit.now tasks.old at) reply }
    ensures belongs { Belongs unit.now tasks.new at }
    ensures owner { owner_in tasks.new at ≡ owner_in tasks.old at }
    ensures others { OthersStay at tasks.old tasks.new }
    ensures tasks { All IsTask tasks.new }
    ensures length { length tasks.new ≡ length tasks.old }
{
    let task = &mut tasks[at];
    task.answer(unit, reply);
}

/// A task takes a call from outside.
fn start_row(
    tasks: &mut [Task],
    at: usize,
    owner: u8,
    unit: &CheckedUnit,
    function: u32,
    arguments: &[i32],
) -> Result<(), Busy>
    requires tasks { All IsTask tasks.old }
    requires within { at < length tasks.old }
    requires function { function < length unit.now.functions }
    requires few { length arguments.now ≤ 128 }
    requires runnable { All IsRunnable unit.now.functions }
    ensures starts { Starts unit.now owner at function arguments.now tasks.old result tasks.new }
    ensures others { OthersStay at tasks.old tasks.new }
    ensures tasks { All IsTask tasks.new }
    ensures length { length tasks.new ≡ length tasks.old }
{
    let task = &mut tasks[at];
    task.start(owner, unit, function, arguments)
}

/// Takes the activities of an owner away.
fn drop_rows(tasks: &mut [Task], owner: u8)
    ensures { tasks.new ≡ map (dropped owner) tasks.old }
{
    for task in tasks.iter_mut() {
        task.drop_of(owner);
    }
}

/// Nine tasks without an activity.
fn new_rows(alloc: Global) -> Result<Vec<Task>, Memory>
    ensures nine { IfOk result (λ tasks. length tasks.items ≡ 9) }
    ensures each { IfOk result (λ tasks. All IsTask tasks.items) }
    ensures idle { IfOk result (λ tasks. All (λ t. t.live ≡ 0) tasks.items) }
{
    let mut tasks = Vec::with_capacity(alloc, ROWS)?;
    for _ in 0..ROWS {
        let task = Task::new(alloc)?;
        tasks.push(task)?;
    }
    Ok(tasks)
}

impl Machine {
    /// A machine without an activity: nine tasks of 64 frames. Refuses only where memory is wanting.
    pub fn new(alloc: Global) -> Result<Machine, Memory>
        ensures { IfOk result (λ machine. (task : ℕ) → owner_in machine task ≡ None) }
    {
        let tasks = new_rows(alloc)?;
        Ok(Machine {
            tasks,
            arguments: ArrayVec::new(),
        })
    }

    /// Starts an activity on a task: a call of the function with this number, each argument converted to the type of its parameter.
    ///
    /// `Busy` exactly where the task has a live activity; then nothing changes.
    pub fn start(
        &mut self,
        who: Who,
        driver: &SafeDriver,
        function: u32,
        arguments: &[i32],
    ) -> Result<(), Busy>
        requires task { who.task ≤ 8 }
        requires function { function < length driver.now.unit.functions }
        requires arguments { length arguments.now ≤ 128 }
        ensures starts { Starts driver.now.unit who.owner who.task function arguments.now self.old result self.new }
        ensures others { OthersStay who.task self.old self.new }
    {
        each_function_is_runnable();
        start_row(
            self.tasks.as_mut_slice(),
            usize::from(who.task),
            who.owner,
            driver.unit(),
            function,
            arguments,
        )
    }

    /// The driver whose activity a task has; None exactly where it has none.
    pub fn live(&self, task: u8) -> Option<u8>
        ensures { result ≡ owner_in self.now task }
    {
        owner_of_row(self.tasks.as_slice(), usize::from(task))
    }

    /// The line of the statement that is next in the top frame of a task, which belongs to the driver; 0 where the task has no activity.
    pub fn line(&self, task: u8, driver: &SafeDriver) -> u32
        requires task { task ≤ 8 }
        requires belongs { Belongs driver.now.unit self.now task }
        ensures { result ≡ step.line (activity_in driver.now.unit self.now task) }
    {
        line_of_row(self.tasks.as_slice(), usize::from(task), driver.unit())
    }

    /// A step of the activity of a task, which belongs to the driver: one statement, with all its checks.
    pub fn step(&mut self, task: u8, driver: &SafeDriver, memory: &mut Tested) -> StepOut
        requires task { task ≤ 8 }
        requires belongs { Belongs driver.now.unit self.old task }
        ensures comes { ComesTo (step.step driver.now.unit (activity_in driver.now.unit self.old task) memory.old)
            (activity_in driver.now.unit self.old task) memory.old result (activity_in driver.now.unit self.new task) memory.new }
        ensures belongs { Belongs driver.now.unit self.new task }
        ensures owner { owner_in self.new task ≡ owner_after result (owner_in self.old task) }
        ensures others { OthersStay task self.old self.new }
    {
        each_function_is_runnable();
        step_row(
            self.tasks.as_mut_slice(),
            usize::from(task),
            driver.unit(),
            memory,
            &mut self.arguments,
        )
    }

    /// Ends the kernel call at which the activity of a task waits, with the kernel's answer in the local that takes it.
    pub fn answer(&mut self, task: u8, driver: &SafeDriver, reply: Answer)
        requires task { task ≤ 8 }
        requires belongs { Belongs driver.now.unit self.old task }
        ensures answered { activity_in driver.now.unit self.new task ≡ step.answered (activity_in driver.now.unit self.old task) reply }
        ensures belongs { Belongs driver.now.unit self.new task }
        ensures owner { owner_in self.new task ≡ owner_in self.old task }
        ensures others { OthersStay task self.old self.new }
    {
        answer_row(
            self.tasks.as_mut_slice(),
            usize::from(task),
            driver.unit(),
            reply,
        );
    }

    /// Leaves the kernel call at which the activity of a task waits to be tried again.
    pub fn stay(&mut self, _task: u8)
        ensures { self.new ≡ self.old }
    {}

    /// Takes away all activities of an owner, and no other.
    pub fn drop_owner(&mut self, owner: u8)
        ensures { Drops owner self.old self.new }
    {
        drop_rows(self.tasks.as_mut_slice(), owner);
    }
}
