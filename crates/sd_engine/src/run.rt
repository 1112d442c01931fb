//! `run`: drivers run under a scenario.
ghost use Rattle.std.specs.Prelude.{◌≡◌, ◌≢◌, ◌≤◌, length, map};
ghost use Rattle.sd_engine.specs.Running.{AreDrivers, AreShort, IsRun};
ghost use Rattle.sd_engine.specs.Serve.{IsAfterTexts, IsWritten, RunAnswers, Writes, status_when, told_of};
ghost use Rattle.sd_outside.specs.Counts.{Rose};
ghost use Rattle.world.specs.Runs.{IsPlayable};

use crate::front::{FrontRefusal, accept_all};
use crate::printing::{print_refusal, write_item};
use crate::status::Status;
use run_report::Item;
use safe_code::SafeDriver;
use scenario::{Scenario, ScenarioRefusal, read_scenario};
use sd_outside::Sink;
use std::alloc::Global;
use world::{RunFault, run_scenario};

/// Serves a run whose texts are read: names the first driver's text that is refused, or the line with which the scenario has no reading,
/// or runs the drivers for at most so many steps.
pub fn run_texts<K: Sink>(
    alloc: Global,
    steps: u32,
    scenario: &[u8],
    texts: &[Vec<u8>],
    sink: &mut K,
) -> Status
    requires short { AreShort (map (λ text. text.items) texts.now) }
    requires few { length texts.now ≤ 4 }
    ensures possible { IsAfterTexts result }
    ensures write_fault { result ≡ Status.WriteFault → Rose (K.faults sink.old) (K.faults sink.new) }
    ensures writes { result ≢ Status.WriteFault → K.faults sink.new ≡ K.faults sink.old }
    ensures nothing { result ≡ Status.OutOfMemory → K.written sink.new ≡ K.written sink.old }
    ensures output { Writes result → IsWritten (RunAnswers steps scenario.now (map (λ text. text.items) texts.now)) (K.written sink.old)
        (K.written sink.new) result }
{
    match accept_all(alloc, texts) {
        Ok(drivers) => run_drivers(alloc, steps, scenario, texts, drivers, sink),
        Err(FrontRefusal::Text(refused)) => {
            match print_refusal(sink, refused.driver, refused.line, refused.cause) {
                Ok(()) => Status::Refused,
                Err(_) => Status::WriteFault,
            }
        }
        Err(FrontRefusal::Memory) => Status::OutOfMemory,
    }
}

/// Serves a run whose drivers are accepted.
fn run_drivers<K: Sink>(
    alloc: Global,
    steps: u32,
    scenario: &[u8],
    texts: &[Vec<u8>],
    drivers: Vec<SafeDriver>,
    sink: &mut K,
) -> Status
    requires drivers { AreDrivers 1 (map (λ text. text.items) texts.now) drivers.items }
    requires few { length texts.now ≤ 4 }
    ensures possible { IsAfterTexts result }
    ensures write_fault { result ≡ Status.WriteFault → Rose (K.faults sink.old) (K.faults sink.new) }
    ensures writes { result ≢ Status.WriteFault → K.faults sink.new ≡ K.faults sink.old }
    ensures nothing { result ≡ Status.OutOfMemory → K.written sink.new ≡ K.written sink.old }
    ensures output { Writes result → IsWritten (RunAnswers steps scenario.now (map (λ text. text.items) texts.now)) (K.written sink.old)
        (K.written sink.new) result }
{
    match read_scenario(alloc, scenario, count_of(texts)) {
        Ok(plan) => run_plan(alloc, steps, &plan, drivers, sink),
        Err(refusal) => match told_item(refusal) {
            Some(item) => match write_item(sink, item) {
                Ok(()) => Status::BadScenario,
                Err(_) => Status::WriteFault,
            },
            None => Status::OutOfMemory,
        },
    }
}

/// How many texts there are.
fn count_of(texts: &[Vec<u8>]) -> u8
    requires { length texts.now ≤ 4 }
    ensures { result ≡ length texts.now }
{
    texts.len() as u8
}

/// How a scenario that has no reading is told; want of memory is not.
fn told_item(refusal: ScenarioRefusal) -> Option<Item>
    ensures { result ≡ told_of refusal }
{
    match refusal {
        ScenarioRefusal::NoLine(line) => Some(Item::Unread { line }),
        ScenarioRefusal::Limit(line, _) => Some(Item::PastLimit { line }),
        ScenarioRefusal::Memory => None,
    }
}

/// Runs drivers under a scenario that was read for so many, for at most so many steps. All memory is taken before the first line is
/// written.
fn run_plan<K: Sink>(
    alloc: Global,
    steps: u32,
    plan: &Scenario,
    drivers: Vec<SafeDriver>,
    sink: &mut K,
) -> Status
    requires few { length drivers.items ≤ 4 }
    requires plays { IsPlayable (length drivers.items) plan.now }
    ensures write_fault { result ≡ Status.WriteFault → Rose (K.faults sink.old) (K.faults sink.new) }
    ensures writes { result ≢ Status.WriteFault → K.faults sink.new ≡ K.faults sink.old }
    ensures runs { IsRun drivers.items plan.now steps (K.written sink.old) (K.written sink.new) result }
{
    match run_scenario(alloc, drivers, plan, steps, sink) {
        Ok(ended) => status_after(ended.failed),
        Err(RunFault::Write) => Status::WriteFault,
        Err(RunFault::Memory) => Status::OutOfMemory,
    }
}

/// The status of a run that is written whole, by whether a driver has failed in it.
fn status_after(has_failed: bool) -> Status
    ensures { result ≡ status_when has_failed }
{
    if has_failed {
        Status::DriverFailed
    } else {
        Status::Done
    }
}
