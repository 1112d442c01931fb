//! A step of a task: a statement of its activity, and what it comes to.
ghost use Rattle.std.specs.Prelude.{◌≡◌, ◌<◌, ◌≤◌, ℕ, List, Option, Some, None, not, ◌&&◌, is_some, length, slice_set, slice_index_or};
ghost use Rattle.checked_tree.specs.Step as tree;
ghost use Rattle.driver_host.specs.Hosting.{cleared, Reads};
ghost use Rattle.driver_machine.specs.Machines.{Belongs, OthersStay, activity_in, owner_after, owner_in};
ghost use Rattle.driver_machine.specs.Tasks.{ComesTo};
ghost use Rattle.world.specs.Standing.{units_of, driver_at, here, IsGood, Leads};
ghost use Rattle.world.specs.Stepped.{left_by, IsSomewhere, Steps};
ghost use Rattle.world_core.specs.Failing.{fails, strays};
ghost use Rattle.world_core.specs.Stepping as stepping;
ghost use Rattle.world_core.specs.Stepping.{acts, step, runs_to_end};
ghost use Rattle.world_core.specs.WorldState.{is_over};

use crate::drivers::Drivers;
use crate::live::Live;
use byte_memory::Tested;
use driver_host::{Host, run_changes};
use driver_machine::{Machine, StepOut};
use run_report::{Item, Report};
use safe_code::SafeDriver;
use sd_base::{FailKind, Who};
use sd_outside::Sink;

/// A step of the activity of a task, which is the driver's, over the memory at a place.
fn step_machine(
    machine: &mut Machine,
    memories: &mut [Tested],
    task: u8,
    driver: &SafeDriver,
    place: usize,
) -> StepOut
    requires task { task ≤ 8 }
    requires belongs { Belongs driver.now.unit machine.old task }
    requires place { place < length memories.old }
    ensures comes { ComesTo (tree.step driver.now.unit (activity_in driver.now.unit machine.old task) (slice_index_or memories.old place cleared))
        (activity_in driver.now.unit machine.old task) (slice_index_or memories.old place cleared) result
        (activity_in driver.now.unit machine.new task) (slice_index_or memories.new place cleared) }
    ensures belongs { Belongs driver.now.unit machine.new task }
    ensures owner { owner_in machine.new task ≡ owner_after result (owner_in machine.old task) }
    ensures others { OthersStay task machine.old machine.new }
    ensures memories { memories.new ≡ slice_set memories.old place (slice_index_or memories.new place cleared) }
{
    let memory = &mut memories[place];
    machine.step(task, driver, memory)
}

/// By what an activity fails that ends: it holds a lock, or its mask.
fn left_held(host: &Host, who: Who) -> Option<FailKind>
    requires owner { who.owner ≤ 4 }
    requires task { who.task ≤ 8 }
    ensures { Reads host.now (λ h. result ≡ stepping.left_held h who) }
{
    if host.holds_lock(who) {
        return Some(FailKind::Held);
    }
    if host.holds_mask(who) {
        return Some(FailKind::Masked);
    }
    None
}

/// The line of an activity that ends.
fn done_item(who: Who, value: Option<i64>) -> Item
    ensures { result ≡ stepping.done_item who value }
{
    match value {
        None => Item::Done { who },
        Some(value) => Item::Answered { who, value },
    }
}

impl Live {
    /// A step of a driver fails: it is taken back, which is printed.
    pub fn fail<K: Sink>(
        &mut self,
        drivers: &Drivers,
        report: &mut Report,
        sink: &mut K,
        who: Who,
        kind: FailKind,
        line: u32,
    )
        requires driver { 0 < who.owner }
        requires owner { who.owner ≤ 4 }
        ensures { Leads (units_of drivers.now.list.items) (here self.old report.old (K.written sink.old) (K.faults sink.old))
            (here self.new report.new (K.written sink.new) (K.faults sink.new)) (fails who kind line) }
    {
        let item = Item::Failed { who, kind, line };
        self.ground.say(report, sink, &item);
        self.machine.drop_owner(who.owner);
        self.ground.fail(report, sink, drivers, who.owner);
    }

    /// A step has no meaning: the run ends, which is printed.
    pub fn stray<K: Sink>(
        &mut self,
        drivers: &Drivers,
        report: &mut Report,
        sink: &mut K,
        who: Who,
        line: u32,
    )
        ensures { Leads (units_of drivers.now.list.items) (here self.old report.old (K.written sink.old) (K.faults sink.old))
            (here self.new report.new (K.written sink.new) (K.faults sink.new)) (strays who line) }
    {
        let item = Item::Wild { who, line };
        self.ground.say(report, sink, &item);
        run_changes::go_astray(&mut self.ground.run);
    }

    /// The end of an activity by a return at this line: it fails where it holds a lock, or its mask; else what it gives is printed. The
    /// machine has its task free already.
    fn end_activity<K: Sink>(
        &mut self,
        drivers: &Drivers,
        report: &mut Report,
        sink: &mut K,
        who: Who,
        line: u32,
        value: Option<i64>,
    )
        requires driver { 0 < who.owner }
        requires owner { who.owner ≤ 4 }
        requires task { who.task ≤ 8 }
        requires idle { owner_in self.old.machine who.task ≡ None }
        ensures { Leads (units_of drivers.now.list.items) (here self.old report.old (K.written sink.old) (K.faults sink.old))
            (here self.new report.new (K.written sink.new) (K.faults sink.new)) (left_by who line (StepOut.Ended value)) }
    {
        match left_held(&self.ground.host, who) {
            Some(kind) => self.fail(drivers, report, sink, who, kind, line),
            None => {
                let item = done_item(who, value);
                self.ground.say(report, sink, &item);
            }
        }
    }

    /// A step of the machine, in the driver's memory.
    fn step_activity(&mut self, drivers: &Drivers, driver: &SafeDriver, who: Who) -> StepOut
        requires task { who.task ≤ 8 }
        requires driver { driver_at drivers.now.list.items who.owner ≡ Some driver.now }
        requires live { owner_in self.old.machine who.task ≡ Some who.owner }
        requires good { IsSomewhere (units_of drivers.now.list.items) self.old }
        ensures steps { (kept : List ℕ) (written : Option (List ℕ)) (faults : ℕ) → Steps (units_of drivers.now.list.items) (here self.old kept written faults)
            (here self.new kept written faults) who (tree.line (activity_in driver.now.unit self.old.machine who.task)) result }
        ensures owner { owner_in self.new.machine who.task ≡ owner_after result (Some who.owner) }
    {
        let place = usize::from(who.owner) - 1;
        step_machine(
            &mut self.machine,
            self.ground.host.memories.as_mut_slice(),
            who.task,
            driver,
            place,
        )
    }

    /// What is left to be done of a step with this answer of the machine.
    fn go_on<K: Sink>(
        &mut self,
        drivers: &Drivers,
        report: &mut Report,
        sink: &mut K,
        driver: &SafeDriver,
        who: Who,
        line: u32,
        answer: StepOut,
    )
        requires task { who.task ≤ 8 }
        requires driver { driver_at drivers.now.list.items who.owner ≡ Some driver.now }
        requires owner { owner_in self.old.machine who.task ≡ owner_after answer (Some who.owner) }
        requires some { 0 < who.owner }
        requires few { who.owner ≤ 4 }
        requires good { IsGood (units_of drivers.now.list.items) (here self.old report.old (K.written sink.old) (K.faults sink.old)) }
        ensures { Leads (units_of drivers.now.list.items) (here self.old report.old (K.written sink.old) (K.faults sink.old))
            (here self.new report.new (K.written sink.new) (K.faults sink.new)) (left_by who line answer) }
    {
        match answer {
            StepOut::Went => {}
            StepOut::Wants(call) => self.ask(drivers, report, sink, driver, who, line, &call),
            StepOut::Ended(value) => self.end_activity(drivers, report, sink, who, line, value),
            StepOut::Failed(at, kind) => self.fail(drivers, report, sink, who, kind, at),
            StepOut::Wild(at) => self.stray(drivers, report, sink, who, at),
        }
    }

    /// The next statement of the activity of a task, or one try of a lock. A task without an activity does nothing.
    fn act<K: Sink>(&mut self, drivers: &Drivers, report: &mut Report, sink: &mut K, task: u8)
        requires task { task ≤ 8 }
        requires good { IsGood (units_of drivers.now.list.items) (here self.old report.old (K.written sink.old) (K.faults sink.old)) }
        ensures { Leads (units_of drivers.now.list.items) (here self.old report.old (K.written sink.old) (K.faults sink.old))
            (here self.new report.new (K.written sink.new) (K.faults sink.new)) (acts task) }
    {
        let Some(owner) = self.machine.live(task) else {
            return;
        };
        let Some(driver) = drivers.get(owner) else {
            return;
        };
        let who = Who { owner, task };
        let line = self.machine.line(task, driver);
        let answer = self.step_activity(drivers, driver, who);
        self.go_on(drivers, report, sink, driver, who, line, answer);
    }

    /// A step of a task. Where none is left the run stops; a step that fails counts too.
    pub fn step<K: Sink>(&mut self, drivers: &Drivers, report: &mut Report, sink: &mut K, task: u8)
        requires task { task ≤ 8 }
        requires good { IsGood (units_of drivers.now.list.items) (here self.old report.old (K.written sink.old) (K.faults sink.old)) }
        ensures { Leads (units_of drivers.now.list.items) (here self.old report.old (K.written sink.old) (K.faults sink.old))
            (here self.new report.new (K.written sink.new) (K.faults sink.new)) (step task) }
    {
        if run_changes::is_spent(&self.ground.run) {
            run_changes::stop(&mut self.ground.run);
            return;
        }
        run_changes::take_one(&mut self.ground.run);
        self.act(drivers, report, sink, task);
    }

    /// Whether the run goes on, and the task has an activity.
    fn goes_on(&self, task: u8) -> bool
        ensures { result ≡ not (is_over self.now.ground.run) && is_some (owner_in self.now.machine task) }
    {
        if run_changes::is_over(&self.ground.run) {
            return false;
        }
        self.machine.live(task).is_some()
    }

    /// The task runs to its end, its failure or the bound.
    pub fn run_to_end<K: Sink>(
        &mut self,
        drivers: &Drivers,
        report: &mut Report,
        sink: &mut K,
        task: u8,
    )
        requires task { task ≤ 8 }
        requires good { IsGood (units_of drivers.now.list.items) (here self.old report.old (K.written sink.old) (K.faults sink.old)) }
        ensures { Leads (units_of drivers.now.list.items) (here self.old report.old (K.written sink.old) (K.faults sink.old))
            (here self.new report.new (K.written sink.new) (K.faults sink.new)) (runs_to_end task) }
    {
        let turns = u64::from(self.ground.run.left) + 1;
        for _turn in 0..turns {
            if !self.goes_on(task) {
                return;
            }
            self.step(drivers, report, sink, task);
        }
    }
}
