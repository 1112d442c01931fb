//! A whole run: the events of a scenario over its drivers, and every line written.
ghost use Rattle.std.specs.Prelude.{◌≡◌, ◌≤◌, [], IfErr, IfOk, OnOk, length};
ghost use Rattle.sd_outside.specs.Sink.{more};
ghost use Rattle.world.specs.Runs.{tells, IsOpen, IsPlayable, room_of, run_text};
ghost use Rattle.world.specs.WholeRuns.{Closes, Faults, IsEnded, Played};

use crate::world::World;
use run_report::Report;
use safe_code::SafeDriver;
use scenario::Scenario;
use sd_outside::Sink;
use std::alloc::Global;

/// How a run that is written whole has ended.
#[derive(Clone, Copy, Debug, PartialEq, Eq)]
pub struct Ended {
    /// A driver has failed, or a step had no meaning.
    pub failed: bool,
    /// The bound stopped it.
    pub stopped: bool,
}

/// Why a run is not written whole.
#[derive(Clone, Copy, Debug, PartialEq, Eq)]
pub enum RunFault {
    /// Memory was wanting before the first event.
    Memory,
    /// A write failed.
    Write,
}

/// Writes what is still kept of a run, and tells how the run has ended.
fn close<K: Sink>(world: &World, report: &mut Report, sink: &mut K) -> Result<Ended, RunFault>
    ensures { Closes world.now (tells world.now report.old (K.written sink.old) (K.faults sink.old)) result (K.written sink.new)
        (K.faults sink.new) }
{
    if world.is_silent() {
        return Err(RunFault::Write);
    }
    match report.close(sink) {
        Ok(_unit) => Ok(Ended {
            failed: world.failed(),
            stopped: world.stopped(),
        }),
        Err(_fault) => Err(RunFault::Write),
    }
}

/// All events of a scenario and the last line, and every line written.
fn play<K: Sink>(world: World, scenario: &Scenario, sink: &mut K) -> Result<Ended, RunFault>
    requires opens { IsOpen world (tells world [] (K.written sink.old) (K.faults sink.old)) }
    requires plays { IsPlayable (length world.drivers.list.items) scenario.now }
    requires room { length scenario.now.answers.items ≤ room_of world }
    ensures { Played world scenario.now (K.written sink.old) (K.faults sink.old) result (K.written sink.new) (K.faults sink.new) }
{
    let mut world = world;
    let mut report = Report::new();
    world.run(&mut report, sink, scenario);
    close(&world, &mut report, sink)
}

/// Runs these drivers, `d1` first, under a scenario that was read for so many, with this bound on steps, and writes every line.
///
/// `Memory`: nothing is written. `Write`: a front part of the lines is. All memory is taken before the first event.
pub fn run_scenario<K: Sink>(
    alloc: Global,
    drivers: Vec<SafeDriver>,
    scenario: &Scenario,
    bound: u32,
    sink: &mut K,
) -> Result<Ended, RunFault>
    requires few { length drivers.items ≤ 4 }
    requires plays { IsPlayable (length drivers.items) scenario.now }
    ensures written { OnOk result (K.written sink.new ≡ more (K.written sink.old) (run_text drivers.items scenario.now bound)) }
    ensures calm { OnOk result (K.faults sink.new ≡ K.faults sink.old) }
    ensures ended { IfOk result (λ ended. IsEnded drivers.items scenario.now bound ended) }
    ensures fault { IfErr result (λ fault. Faults (run_text drivers.items scenario.now bound) (K.written sink.old) (K.faults sink.old) fault
        (K.written sink.new) (K.faults sink.new)) }
{
    match World::begin(
        alloc,
        drivers,
        scenario.version,
        scenario.answers.as_slice(),
        bound,
    ) {
        Ok(world) => play(world, scenario, sink),
        Err(_wanting) => Err(RunFault::Memory),
    }
}
