//! `Task`: the frames of one task, and a step of its activity. A frame is known here by its five calls alone.
ghost use Rattle.std.specs.Prelude.{◌≡◌, ℕ, ◌≤◌, ◌<◌, ◌+◌, true, All, IfOk, IfSome, IsTrue, Some, length, slice_get};
ghost use Rattle.byte_memory.specs.Tested.{Memory as MemoryValue};
ghost use Rattle.checked_tree.specs.Numbers.{is_value};
ghost use Rattle.checked_tree.specs.Step as step;
ghost use Rattle.safe_code.specs.Runnable.{IsRunnable};
ghost use Rattle.driver_machine.specs.Machines.{BelongsTo, IsTask, TaskStarts, activity_of, dropped, owner_after, owner_by, owner_of};
ghost use Rattle.driver_machine.specs.Tasks as spec;
ghost use Rattle.driver_machine.specs.Acts.{HasValue};
ghost use Rattle.driver_machine.specs.Rows.{OneAnswers, OneResumes, OneSteps, line_of_frame, result_of_frame};
ghost use Rattle.driver_machine.specs.Tasks.{AreStanding, ComesTo, StandsAt, activity};
ghost use Rattle.driver_machine.specs.Waiting.{are_waiting};

use crate::busy::Busy;
use crate::frame::{Frame, function_of};
use crate::parameters::converted_arguments;
use crate::step_out::StepOut;
use crate::turn::Turn;
use arrayvec::ArrayVec;
use byte_memory::Tested;
use checked_tree::{Answer, CheckedFn, CheckedUnit, Scalar, Stop};
use sd_base::limits::{FRAMES, LOCALS};
use sd_base::{FailKind, Memory};
use std::alloc::Global;

/// The frames of a task, taken once, and whose activity it has.
#[derive(Drop)]
pub struct Task {
    /// Its frames, the lowest first.
    pub frames: Vec<Frame>,
    /// How many of them are live: those of its activity.
    pub live: usize,
    /// The driver whose activity it has.
    pub owner: u8,
}

/// The statement at which a frame of a row stands, done.
fn step_frame(
    frames: &mut [Frame],
    at: usize,
    unit: &CheckedUnit,
    memory: &mut Tested,
    arguments: &mut ArrayVec<i64, LOCALS>,
) -> Result<Turn, Stop>
    requires below { at < length frames.old }
    requires stands { StandsAt unit.now (slice_get frames.old at) }
    requires runnable { All IsRunnable unit.now.functions }
    ensures steps { OneSteps unit.now frames.old at memory.old result frames.new memory.new arguments.new.items }
    ensures length { length frames.new ≡ length frames.old }
    ensures words { All (λ z. IsTrue (is_value z)) arguments.old.items → All (λ z. IsTrue (is_value z)) arguments.new.items }
    ensures range { IfOk result HasValue }
{
    let frame = &mut frames[at];
    frame.step(unit, memory, arguments)
}

/// A frame of a row goes on behind the call at which it waits.
fn resume_frame(
    frames: &mut [Frame],
    at: usize,
    unit: &CheckedUnit,
    scalar: Scalar,
    value: Option<i64>,
) -> Result<(), Stop>
    requires below { at < length frames.old }
    requires stands { StandsAt unit.now (slice_get frames.old at) }
    requires value { IfSome value (λ z. IsTrue (is_value z)) }
    ensures resumes { OneResumes unit.now frames.old at scalar value result frames.new }
    ensures length { length frames.new ≡ length frames.old }
{
    let frame = &mut frames[at];
    frame.resume(unit, scalar, value)
}

/// A frame of a row goes on behind the kernel call at which it waits.
fn answer_frame(frames: &mut [Frame], at: usize, unit: &CheckedUnit, reply: Answer)
    requires below { at < length frames.old }
    requires stands { StandsAt unit.now (slice_get frames.old at) }
    ensures answers { OneAnswers unit.now frames.old at reply frames.new }
    ensures length { length frames.new ≡ length frames.old }
{
    let frame = &mut frames[at];
    frame.answer(unit, reply);
}

/// The line at which a frame of a row stands.
fn line_in(frames: &[Frame], at: usize, unit: &CheckedUnit) -> u32
    requires below { at < length frames.now }
    requires stands { StandsAt unit.now (slice_get frames.now at) }
    ensures { result ≡ line_of_frame unit.now (slice_get frames.now at) }
{
    let frame = &frames[at];
    frame.line(unit)
}

/// The type of what the function of a frame of a row gives back.
fn result_in(frames: &[Frame], at: usize, unit: &CheckedUnit) -> Scalar
    requires below { at < length frames.now }
    ensures { result ≡ result_of_frame unit.now (slice_get frames.now at) }
{
    let frame = &frames[at];
    frame.result_type(unit)
}

/// What a step that stopped at this line comes to.
fn stopped(stop: Stop, line: u32) -> StepOut
    ensures { result ≡ spec.stopped stop line }
{
    match stop {
        Stop::Failed(at, kind) => StepOut::Failed(at, kind),
        Stop::Wild => StepOut::Wild(line),
    }
}

/// A call of a function by the top frame: one more frame, of at most 64. `line` is that of the call.
fn call(
    frames: &mut [Frame],
    live: &mut usize,
    unit: &CheckedUnit,
    line: u32,
    number: u32,
    values: &[i64],
) -> StepOut
    requires room { length frames.old ≡ 64 }
    requires few { live.old ≤ 64 }
    requires stand { AreStanding unit.now frames.old live.old }
    requires line { line ≡ step.line (activity unit.now frames.old live.old) }
    requires words { All (λ z. IsTrue (is_value z)) values.now }
    requires values { length values.now ≤ 128 }
    requires runnable { All IsRunnable unit.now.functions }
    ensures comes { (m : MemoryValue) → ComesTo (step.called line number values.now (slice_get unit.now.functions number) (activity unit.now frames.old live.old) m)
        (activity unit.now frames.old live.old) m result (activity unit.now frames.new live.new) m }
    ensures stand { AreStanding unit.now frames.new live.new }
    ensures room { length frames.new ≡ 64 }
    ensures few { live.new ≤ 64 }
{
    let Some(f) = function_of(unit, number) else {
        return StepOut::Wild(line);
    };
    if *live >= FRAMES {
        return StepOut::Failed(line, FailKind::Stack);
    }
    frames[*live].enter(unit, number, f, values);
    *live += 1;
    StepOut::Went
}

/// The top frame gives back this value of this type: the frame below it goes on behind its call, or the activity is at its end. `line` is that of the return, and `top`
/// the place of the top frame.
fn give_back(
    frames: &mut [Frame],
    live: &mut usize,
    unit: &CheckedUnit,
    top: usize,
    line: u32,
    scalar: Scalar,
    value: Option<i64>,
) -> StepOut
    requires room { length frames.old ≡ 64 }
    requires few { live.old ≤ 64 }
    requires top { live.old ≡ top + 1 }
    requires stand { AreStanding unit.now frames.old live.old }
    requires line { line ≡ step.line (activity unit.now frames.old live.old) }
    requires value { IfSome value (λ z. IsTrue (is_value z)) }
    ensures comes { (m : MemoryValue) → ComesTo (step.returned scalar (activity unit.now frames.old top) m value)
        (activity unit.now frames.old live.old) m result (activity unit.now frames.new live.new) m }
    ensures stand { AreStanding unit.now frames.new live.new }
    ensures room { length frames.new ≡ 64 }
    ensures few { live.new ≤ 64 }
{
    if top == 0 {
        *live = 0;
        return StepOut::Ended(value);
    }
    match resume_frame(frames, top - 1, unit, scalar, value) {
        Ok(()) => {
            *live = top;
            StepOut::Went
        }
        Err(stop) => stopped(stop, line),
    }
}

/// A step of the activity whose top frame is at this place.
fn step_at(
    frames: &mut [Frame],
    live: &mut usize,
    top: usize,
    unit: &CheckedUnit,
    memory: &mut Tested,
    arguments: &mut ArrayVec<i64, LOCALS>,
) -> StepOut
    requires room { length frames.old ≡ 64 }
    requires few { live.old ≤ 64 }
    requires top { live.old ≡ top + 1 }
    requires stand { AreStanding unit.now frames.old live.old }
    requires words { All (λ z. IsTrue (is_value z)) arguments.old.items }
    requires runnable { All IsRunnable unit.now.functions }
    ensures comes { ComesTo (step.step unit.now (activity unit.now frames.old live.old) memory.old)
        (activity unit.now frames.old live.old) memory.old result (activity unit.now frames.new live.new) memory.new }
    ensures stand { AreStanding unit.now frames.new live.new }
    ensures words { All (λ z. IsTrue (is_value z)) arguments.new.items }
    ensures room { length frames.new ≡ 64 }
    ensures few { live.new ≤ 64 }
{
    let line = line_in(frames, top, unit);
    let scalar = result_in(frames, top, unit);
    match step_frame(frames, top, unit, memory, arguments) {
        Ok(Turn::On) => StepOut::Went,
        Ok(Turn::Into(_)) => StepOut::Went,
        Ok(Turn::Calls(number)) => call(frames, live, unit, line, number, arguments.as_slice()),
        Ok(Turn::Asks(call)) => StepOut::Wants(call),
        Ok(Turn::Returns(value)) => give_back(frames, live, unit, top, line, scalar, value),
        Err(stop) => stopped(stop, line),
    }
}

/// A step of the activity of these frames.
fn step_of(
    frames: &mut [Frame],
    live: &mut usize,
    unit: &CheckedUnit,
    memory: &mut Tested,
    arguments: &mut ArrayVec<i64, LOCALS>,
) -> StepOut
    requires room { length frames.old ≡ 64 }
    requires few { live.old ≤ 64 }
    requires stand { AreStanding unit.now frames.old live.old }
    requires wait { are_waiting (activity unit.now frames.old live.old) ≡ true }
    requires words { All (λ z. IsTrue (is_value z)) arguments.old.items }
    requires runnable { All IsRunnable unit.now.functions }
    ensures comes { ComesTo (step.step unit.now (activity unit.now frames.old live.old) memory.old)
        (activity unit.now frames.old live.old) memory.old result (activity unit.now frames.new live.new) memory.new }
    ensures stand { AreStanding unit.now frames.new live.new }
    ensures wait { are_waiting (activity unit.now frames.new live.new) ≡ true }
    ensures owner { (owner : ℕ) → owner_by live.new owner ≡ owner_after result (owner_by live.old owner) }
    ensures words { All (λ z. IsTrue (is_value z)) arguments.new.items }
    ensures room { length frames.new ≡ 64 }
    ensures few { live.new ≤ 64 }
{
    let Some(top) = live.checked_sub(1) else {
        return StepOut::Wild(0);
    };
    step_at(frames, live, top, unit, memory, arguments)
}

/// The line at which the activity of these frames stands, 0 where none is live.
fn line_at(frames: &[Frame], live: usize, unit: &CheckedUnit) -> u32
    requires room { length frames.now ≡ 64 }
    requires few { live ≤ 64 }
    requires stand { AreStanding unit.now frames.now live }
    ensures { result ≡ step.line (activity unit.now frames.now live) }
{
    if live == 0 {
        return 0;
    }
    line_in(frames, live - 1, unit)
}

/// The top frame goes on behind the kernel call at which it waits, with the answer in the local that takes it.
fn answer_at(frames: &mut [Frame], live: usize, unit: &CheckedUnit, reply: Answer)
    requires room { length frames.old ≡ 64 }
    requires few { live ≤ 64 }
    requires stand { AreStanding unit.now frames.old live }
    requires wait { are_waiting (activity unit.now frames.old live) ≡ true }
    ensures answered { activity unit.now frames.new live ≡ step.answered (activity unit.now frames.old live) reply }
    ensures stand { AreStanding unit.now frames.new live }
    ensures wait { are_waiting (activity unit.now frames.new live) ≡ true }
    ensures room { length frames.new ≡ 64 }
{
    if live == 0 {
        return;
    }
    answer_frame(frames, live - 1, unit, reply);
}

/// The function with this number, which is one of the unit.
fn the_function(unit: &CheckedUnit, number: u32) -> &CheckedFn
    requires { number < length unit.now.functions }
    ensures { Some result.now ≡ slice_get unit.now.functions number }
{
    &unit.functions.as_slice()[number as usize]
}

/// The first frame of a call from outside, each argument converted to the type of its parameter.
fn start_at(frames: &mut [Frame], unit: &CheckedUnit, number: u32, arguments: &[i32])
    requires room { length frames.old ≡ 64 }
    requires function { number < length unit.now.functions }
    requires few { length arguments.now ≤ 128 }
    requires runnable { All IsRunnable unit.now.functions }
    ensures started { Some (activity unit.now frames.new 1) ≡ step.started unit.now number arguments.now }
    ensures stand { AreStanding unit.now frames.new 1 }
    ensures wait { are_waiting (activity unit.now frames.new 1) ≡ true }
    ensures room { length frames.new ≡ 64 }
{
    let f = the_function(unit, number);
    let values = converted_arguments(arguments, &f.slots);
    let frame = &mut frames[0];
    frame.enter(unit, number, f, values.as_slice());
}

/// Frames that no call has entered yet.
fn new_frames(alloc: Global) -> Result<Vec<Frame>, Memory>
    ensures { IfOk result (λ frames. length frames.items ≡ 64) }
{
    let mut frames = Vec::with_capacity(alloc, FRAMES)?;
    for _ in 0..FRAMES {
        frames.push(Frame::new())?;
    }
    Ok(frames)
}

impl Task {
    /// A task without an activity, with all its frames.
    pub fn new(alloc: Global) -> Result<Task, Memory>
        ensures task { IfOk result IsTask }
        ensures idle { IfOk result (λ task. task.live ≡ 0) }
    {
        let frames = new_frames(alloc)?;
        Ok(Task {
            frames,
            live: 0,
            owner: 0,
        })
    }

    /// The driver whose activity it has, None where it has none.
    pub fn owner(&self) -> Option<u8>
        ensures { result ≡ owner_of self.now }
    {
        if self.live == 0 {
            None
        } else {
            Some(self.owner)
        }
    }

    /// The line at which its activity stands.
    pub fn line(&self, unit: &CheckedUnit) -> u32
        requires task { IsTask self.now }
        requires belongs { BelongsTo unit.now self.now }
        ensures { result ≡ step.line (activity_of unit.now self.now) }
    {
        line_at(self.frames.as_slice(), self.live, unit)
    }

    /// Takes a call from outside, where it has no activity.
    pub fn start(
        &mut self,
        owner: u8,
        unit: &CheckedUnit,
        number: u32,
        arguments: &[i32],
    ) -> Result<(), Busy>
        requires task { IsTask self.old }
        requires function { number < length unit.now.functions }
        requires few { length arguments.now ≤ 128 }
        requires runnable { All IsRunnable unit.now.functions }
        ensures starts { TaskStarts unit.now owner number arguments.now self.old result self.new }
        ensures task { IsTask self.new }
    {
        if self.live != 0 {
            return Err(Busy);
        }
        start_at(self.frames.as_mut_slice(), unit, number, arguments);
        self.live = 1;
        self.owner = owner;
        Ok(())
    }

    /// A step of its activity, in the unit of its driver: one statement of the top frame, with all its checks.
    pub fn step(
        &mut self,
        unit: &CheckedUnit,
        memory: &mut Tested,
        arguments: &mut ArrayVec<i64, LOCALS>,
    ) -> StepOut
        requires task { IsTask self.old }
        requires belongs { BelongsTo unit.now self.old }
        requires words { All (λ z. IsTrue (is_value z)) arguments.old.items }
        requires runnable { All IsRunnable unit.now.functions }
        ensures comes { ComesTo (step.step unit.now (activity_of unit.now self.old) memory.old)
            (activity_of unit.now self.old) memory.old result (activity_of unit.now self.new) memory.new }
        ensures task { IsTask self.new }
        ensures belongs { BelongsTo unit.now self.new }
        ensures owner { owner_of self.new ≡ owner_after result (owner_of self.old) }
        ensures words { All (λ z. IsTrue (is_value z)) arguments.new.items }
    {
        step_of(
            self.frames.as_mut_slice(),
            &mut self.live,
            unit,
            memory,
            arguments,
        )
    }

    /// Goes on behind the kernel call at which it waits, with the answer.
    pub fn answer(&mut self, unit: &CheckedUnit, reply: Answer)
        requires task { IsTask self.old }
        requires belongs { BelongsTo unit.now self.old }
        ensures answered { activity_of unit.now self.new ≡ step.answered (activity_of unit.now self.old) reply }
        ensures task { IsTask self.new }
        ensures belongs { BelongsTo unit.now self.new }
        ensures owner { owner_of self.new ≡ owner_of self.old }
    {
        answer_at(self.frames.as_mut_slice(), self.live, unit, reply);
    }

    /// Lets go of its activity, if that is one of this driver.
    pub fn drop_of(&mut self, owner: u8)
        ensures { self.new ≡ dropped owner self.old }
    {
        if self.owner == owner {
            self.live = 0;
        }
    }
}
