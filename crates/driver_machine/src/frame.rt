//! `Frame`: a live call of a function. Its own form is a matter of this module and of those below it; the tasks above know a frame by the frame of the definition
//! that it stands for, and by the calls `enter`, `line`, `step`, `resume` and `answer`.
ghost use Rattle.std.specs.Prelude.{◌≡◌, ◌≤◌, ◌-◌, ◌++◌, All, IfOk, IfSome, IsTrue, Some, length, option_copied, pos, replicate, slice_get};
ghost use Rattle.checked_tree.specs.Step.{entered, first_locals, line_at};
ghost use Rattle.checked_tree.specs.Numbers.{is_value};
ghost use Rattle.driver_machine.specs.Acts.{HasValue, state};
ghost use Rattle.driver_machine.specs.Frames.{FrameSteps};
ghost use Rattle.driver_machine.specs.Paths.{IsReady, todo_at};
ghost use Rattle.driver_machine.specs.Results.{Answers, Resumes};
ghost use Rattle.safe_code.specs.Runnable.{IsRunnable};
ghost use Rattle.driver_machine.specs.Standing.{AskerGoesOn, CallerGoesOn, IsStanding, TopSteps, result_of, standing};

use crate::actions::act;
use crate::position::Position;
use crate::results::{take_answer, take_result};
use crate::statements::{line_of, target_of};
use crate::turn::Turn;
use arrayvec::ArrayVec;
use byte_memory::Tested;
use checked_tree::{Answer, CheckedFn, CheckedStmt, CheckedUnit, Scalar, Stop};
use sd_base::limits::LOCALS;

/// A live call of a function.
#[derive(Drop)]
pub struct Frame {
    /// The number of the function.
    pub function: u32,
    /// The values of its slots, each of 32 bits.
    pub locals: ArrayVec<i64, LOCALS>,
    pub position: Position,
}

/// Puts these values into the first slots, and 0 into each slot behind them.
fn put_first_slots(locals: &mut ArrayVec<i64, LOCALS>, values: &[i64], slots: usize)
    requires words { All (λ z. IsTrue (is_value z)) values.now }
    requires values { length values.now ≤ 128 }
    requires slots { slots ≤ 128 }
    ensures locals { locals.new.items ≡ values.now ++ replicate (slots - length values.now) (pos 0) }
    ensures words { All (λ z. IsTrue (is_value z)) locals.new.items }
{
    locals.clear();
    for value in values {
        locals.push(*value);
    }
    for _ in 0..slots.saturating_sub(values.len()) {
        locals.push(0);
    }
}

/// The line of the statement at a position, 0 where there is none.
fn line_in(body: &[CheckedStmt], position: &Position) -> u32
    requires ready { IsReady body.now position.now.path.items position.now.at }
    ensures { result ≡ line_at (todo_at body.now position.now.path.items position.now.at) }
{
    match position.current(body) {
        Some(statement) => line_of(statement),
        None => 0,
    }
}

/// The function with this number.
pub fn function_of(unit: &CheckedUnit, number: u32) -> Option<&CheckedFn>
    ensures { option_copied result ≡ slice_get unit.now.functions number }
{
    unit.functions.get(number as usize)
}

impl Frame {
    /// A frame that no call has entered yet.
    pub fn new() -> Frame {
        Frame {
            function: 0,
            locals: ArrayVec::new(),
            position: Position::start(&[]),
        }
    }

    /// Becomes the first frame of a call of a function of the unit: the arguments in its first slots, 0 in each other, and the whole body to do.
    pub fn enter(&mut self, unit: &CheckedUnit, number: u32, f: &CheckedFn, values: &[i64])
        requires function { slice_get unit.now.functions number ≡ Some f.now }
        requires words { All (λ z. IsTrue (is_value z)) values.now }
        requires values { length values.now ≤ 128 }
        requires slots { length f.now.slots ≤ 128 }
        ensures entered { standing unit.now self.new ≡ entered number values.now f.now }
        ensures stands { IsStanding unit.now self.new }
    {
        self.function = number;
        put_first_slots(&mut self.locals, values, f.slots.len());
        self.position.restart(f.body.as_slice());
    }

    /// The line of the statement that the frame does next, 0 where it has nothing to do.
    #[tactic(auto, unfolding(crate::specs::Standing::standing))]
    pub fn line(&self, unit: &CheckedUnit) -> u32
        requires { IsStanding unit.now self.now }
        ensures { result ≡ line_at (standing unit.now self.now).todo }
    {
        match function_of(unit, self.function) {
            Some(f) => line_in(f.body.as_slice(), &self.position),
            None => 0,
        }
    }

    /// The type of what its function gives back.
    #[tactic(auto, unfolding(crate::specs::Standing::standing))]
    pub fn result_type(&self, unit: &CheckedUnit) -> Scalar
        ensures { result ≡ result_of (slice_get unit.now.functions (standing unit.now self.now).function) }
    {
        match function_of(unit, self.function) {
            Some(f) => f.result,
            None => Scalar::Void,
        }
    }

    /// Does the statement at which the frame stands. A call, a kernel call and a return leave the frame where it is: what becomes of them is for the activity.
    /// Where the statement stops, nothing changes. Of a call, the arguments are left in `arguments`.
    pub fn step(
        &mut self,
        unit: &CheckedUnit,
        memory: &mut Tested,
        arguments: &mut ArrayVec<i64, LOCALS>,
    ) -> Result<Turn, Stop>
        requires stands { IsStanding unit.now self.old }
        requires runnable { All IsRunnable unit.now.functions }
        ensures steps { TopSteps unit.now (standing unit.now self.old) memory.old result (standing unit.now self.new) memory.new arguments.new.items }
        ensures stands { IsStanding unit.now self.new }
        ensures arguments { All (λ z. IsTrue (is_value z)) arguments.old.items → All (λ z. IsTrue (is_value z)) arguments.new.items }
        ensures range { IfOk result HasValue }
    {
        match function_of(unit, self.function) {
            Some(f) => self.step_in(f, memory, arguments),
            None => Err(Stop::Wild),
        }
    }

    /// Goes on behind the call at which it waits, with the result of a function of this result type in the local that takes it. Where the result has no place, nothing
    /// changes.
    pub fn resume(
        &mut self,
        unit: &CheckedUnit,
        scalar: Scalar,
        value: Option<i64>,
    ) -> Result<(), Stop>
        requires stands { IsStanding unit.now self.old }
        requires value { IfSome value (λ z. IsTrue (is_value z)) }
        ensures resumes { CallerGoesOn scalar value (standing unit.now self.old) result (standing unit.now self.new) }
        ensures stands { IsStanding unit.now self.new }
    {
        match function_of(unit, self.function) {
            Some(f) => self.resume_in(f, scalar, value),
            None => Err(Stop::Wild),
        }
    }

    /// Goes on behind the kernel call at which it waits, with the answer in the local that takes it.
    pub fn answer(&mut self, unit: &CheckedUnit, reply: Answer)
        requires stands { IsStanding unit.now self.old }
        ensures answers { AskerGoesOn reply (standing unit.now self.old) (standing unit.now self.new) }
        ensures stands { IsStanding unit.now self.new }
    {
        match function_of(unit, self.function) {
            Some(f) => self.answer_in(f, reply),
            None => {}
        }
    }

    /// `step` in its function: the statement is done, and the frame moves on as it says.
    fn step_in(
        &mut self,
        f: &CheckedFn,
        memory: &mut Tested,
        arguments: &mut ArrayVec<i64, LOCALS>,
    ) -> Result<Turn, Stop>
        requires words { All (λ z. IsTrue (is_value z)) self.old.locals.items }
        requires ready { IsReady f.now.body self.old.position.path.items self.old.position.at }
        requires runnable { IsRunnable f.now }
        ensures step { FrameSteps f.now (state self.old.locals.items memory.old) (todo_at f.now.body self.old.position.path.items self.old.position.at)
            result (state self.new.locals.items memory.new) (todo_at f.now.body self.new.position.path.items self.new.position.at) arguments.new.items }
        ensures function { self.new.function ≡ self.old.function }
        ensures ready { IsReady f.now.body self.new.position.path.items self.new.position.at }
        ensures words { All (λ z. IsTrue (is_value z)) self.new.locals.items }
        ensures arguments { All (λ z. IsTrue (is_value z)) arguments.old.items → All (λ z. IsTrue (is_value z)) arguments.new.items }
        ensures range { IfOk result HasValue }
    {
        let body = f.body.as_slice();
        let Some(statement) = self.position.current(body) else {
            return Err(Stop::Wild);
        };
        let turn = act(f, self.locals.as_mut_slice(), memory, arguments, statement)?;
        match turn {
            Turn::On => self.position.go_on(body),
            Turn::Into(holds) => self.position.turn_into(body, holds),
            Turn::Calls(_) => {}
            Turn::Asks(_) => {}
            Turn::Returns(_) => {}
        }
        Ok(turn)
    }

    /// `resume` in its function.
    fn resume_in(&mut self, f: &CheckedFn, scalar: Scalar, value: Option<i64>) -> Result<(), Stop>
        requires words { All (λ z. IsTrue (is_value z)) self.old.locals.items }
        requires value { IfSome value (λ z. IsTrue (is_value z)) }
        requires ready { IsReady f.now.body self.old.position.path.items self.old.position.at }
        ensures resumes { Resumes scalar value self.old.locals.items (todo_at f.now.body self.old.position.path.items self.old.position.at)
            result self.new.locals.items (todo_at f.now.body self.new.position.path.items self.new.position.at) }
        ensures function { self.new.function ≡ self.old.function }
        ensures ready { IsReady f.now.body self.new.position.path.items self.new.position.at }
        ensures words { All (λ z. IsTrue (is_value z)) self.new.locals.items }
    {
        let statements = f.body.as_slice();
        let Some(statement) = self.position.current(statements) else {
            return Err(Stop::Wild);
        };
        take_result(
            self.locals.as_mut_slice(),
            scalar,
            target_of(statement),
            value,
        )?;
        self.position.go_on(statements);
        Ok(())
    }

    /// `answer` in its function.
    fn answer_in(&mut self, f: &CheckedFn, reply: Answer)
        requires words { All (λ z. IsTrue (is_value z)) self.old.locals.items }
        requires ready { IsReady f.now.body self.old.position.path.items self.old.position.at }
        ensures answers { Answers reply self.old.locals.items (todo_at f.now.body self.old.position.path.items self.old.position.at)
            self.new.locals.items (todo_at f.now.body self.new.position.path.items self.new.position.at) }
        ensures function { self.new.function ≡ self.old.function }
        ensures ready { IsReady f.now.body self.new.position.path.items self.new.position.at }
        ensures words { All (λ z. IsTrue (is_value z)) self.new.locals.items }
    {
        let body = f.body.as_slice();
        let Some(statement) = self.position.current(body) else {
            return;
        };
        take_answer(self.locals.as_mut_slice(), target_of(statement), reply);
        self.position.go_on(body);
    }
}
