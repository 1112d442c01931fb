//! `World`: a run, from its first event to its last line.
ghost use Rattle.std.specs.Prelude.{◌≡◌, ℤ, ◌^◌, ◌+◌, ◌<◌, ◌≤◌, IfOk, List, length};
ghost use Rattle.scenario.specs.Fits.{IsFit, AllFit, AnswersFollow};
ghost use Rattle.world.specs.Runs.{tells, CarriesOut, IsBegun, IsOpen, IsPlayable, NamesAnswers, given_by, room_of};
ghost use Rattle.world_core.specs.Events as core;
ghost use Rattle.world_core.specs.WorldState as state;

use crate::drivers::Drivers;
use crate::live::Live;
use driver_host::{Ground, Host, run_changes};
use driver_machine::Machine;
use kernel_tables::Kernel;
use run_report::{Item, Report};
use safe_code::SafeDriver;
use scenario::{Event, Scenario};
use sd_base::Memory;
use sd_outside::Sink;
use std::alloc::Global;

/// A run: the drivers, `d1` first, all that changes, and the bound on steps.
///
/// `begin` takes all memory; no other call takes any.
#[derive(Drop)]
pub struct World {
    pub drivers: Drivers,
    pub live: Live,
    pub bound: u32,
}

/// How many may hold one line in a scenario of this version: 1, and 4 in version 2.
fn share_of(version: u8) -> u8
    ensures { result ≡ state.share_of version }
{
    if version == 2 { 4 } else { 1 }
}

/// The last line: `bound N` where the bound stopped the run, else `end N`, after so many steps.
fn last_item(is_stopped: bool, steps: u32) -> Item
    ensures { result ≡ core.end_item is_stopped steps }
{
    if is_stopped {
        Item::Bound { steps }
    } else {
        Item::End { steps }
    }
}

impl World {
    /// A run of these drivers before its first event, under a scenario of this version with these answers. Refused only for want of memory.
    pub fn begin(
        alloc: Global,
        drivers: Vec<SafeDriver>,
        version: u8,
        answers: &[i32],
        bound: u32,
    ) -> Result<World, Memory>
        requires few { length drivers.items ≤ 4 }
        requires answers { length answers.now < 2 ^ 32 }
        ensures { IfOk result (λ world. IsBegun world drivers.items version answers.now bound) }
    {
        let host = Host::new(
            alloc,
            share_of(version),
            drivers.len(),
            answers.len() as u32,
        )?;
        let machine = Machine::new(alloc)?;
        let ground = Ground {
            run: run_changes::first_run(bound),
            host,
            is_silent: false,
        };
        Ok(World {
            drivers: Drivers { list: drivers },
            live: Live { ground, machine },
            bound,
        })
    }

    /// An event of the scenario with these answers. Where the run is over it does nothing.
    pub fn event<K: Sink>(
        &mut self,
        report: &mut Report,
        sink: &mut K,
        answers: &[i32],
        event: &Event,
    )
        requires opens { IsOpen self.old (tells self.old report.old (K.written sink.old) (K.faults sink.old)) }
        requires fits { IsFit 2 4 event.now }
        requires names { NamesAnswers (length answers.now) event.now }
        requires room { given_by event.now ≤ room_of self.old }
        ensures carries { CarriesOut answers.now self.old self.new (tells self.old report.old (K.written sink.old) (K.faults sink.old))
            (tells self.new report.new (K.written sink.new) (K.faults sink.new)) (core.event event.now) }
        ensures opens { IsOpen self.new (tells self.new report.new (K.written sink.new) (K.faults sink.new)) }
        ensures room { room_of self.old ≤ room_of self.new + given_by event.now }
    {
        self.live
            .happen(&self.drivers, report, sink, answers, event);
    }

    /// All these events, in order; they give all answers of the scenario.
    fn events<K: Sink>(
        &mut self,
        report: &mut Report,
        sink: &mut K,
        answers: &[i32],
        events: &[Event],
    )
        requires opens { IsOpen self.old (tells self.old report.old (K.written sink.old) (K.faults sink.old)) }
        requires fits { AllFit 2 4 events.now }
        requires follows { AnswersFollow 0 events.now (length answers.now) }
        requires room { length answers.now ≤ room_of self.old }
        ensures { CarriesOut answers.now self.old self.new (tells self.old report.old (K.written sink.old) (K.faults sink.old))
            (tells self.new report.new (K.written sink.new) (K.faults sink.new)) (core.events events.now) }
    {
        for event in events {
            self.event(report, sink, answers, event);
        }
    }

    /// The last line of a run.
    pub fn end<K: Sink>(&mut self, report: &mut Report, sink: &mut K)
        ensures { (answers : List ℤ) → CarriesOut answers self.old self.new
            (tells self.old report.old (K.written sink.old) (K.faults sink.old))
            (tells self.new report.new (K.written sink.new) (K.faults sink.new)) core.ends }
    {
        let steps = self.bound.saturating_sub(self.live.ground.run.left);
        let item = last_item(self.live.ground.run.is_stopped, steps);
        self.live.ground.say(report, sink, &item);
    }

    /// All events of a scenario that was read for so many drivers, and the last line.
    pub fn run<K: Sink>(&mut self, report: &mut Report, sink: &mut K, scenario: &Scenario)
        requires opens { IsOpen self.old (tells self.old report.old (K.written sink.old) (K.faults sink.old)) }
        requires plays { IsPlayable (length self.old.drivers.list.items) scenario.now }
        requires room { length scenario.now.answers.items ≤ room_of self.old }
        ensures { CarriesOut scenario.now.answers.items self.old self.new
            (tells self.old report.old (K.written sink.old) (K.faults sink.old))
            (tells self.new report.new (K.written sink.new) (K.faults sink.new)) (core.whole scenario.now.events.items) }
    {
        self.events(
            report,
            sink,
            scenario.answers.as_slice(),
            scenario.events.as_slice(),
        );
        self.end(report, sink);
    }

    /// Whether a step was needed when none was left.
    pub fn stopped(&self) -> bool
        ensures { result ≡ self.now.live.ground.run.is_stopped }
    {
        self.live.ground.run.is_stopped
    }

    /// Whether a driver has failed, or a step had no meaning.
    pub fn failed(&self) -> bool
        ensures { result ≡ self.now.live.ground.run.has_failed }
    {
        self.live.ground.run.has_failed
    }

    /// Whether a write has failed.
    pub fn is_silent(&self) -> bool
        ensures { result ≡ self.now.live.ground.is_silent }
    {
        self.live.ground.is_silent
    }

    /// The kernel's tables.
    pub fn tables(&self) -> &Kernel
        ensures { result.now ≡ self.now.live.ground.host.kernel.kernel }
    {
        self.live.ground.host.tables()
    }
}
