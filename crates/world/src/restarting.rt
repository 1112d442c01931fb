//! Automatic restarts, at the end of each event.
ghost use Rattle.std.specs.Prelude.{◌≡◌, ◌<◌, ◌≤◌, MatchOption, length, true, false};
ghost use Rattle.world.specs.Ready.{IsReady, some_due, first_due, AreDueSet, NextDriver};
ghost use Rattle.world.specs.Standing.{units_of, here, Leads};
ghost use Rattle.world_core.specs.WorldState.{driver_of};
ghost use Rattle.world_core.specs.Restarting.{restarts_left, restarts_driver, restarts};

use crate::drivers::Drivers;
use crate::live::Live;
use driver_host::run_changes;
use run_report::Report;
use sd_outside::Sink;
use world_core::{DriverState, RunState};

/// How often a driver may still be started anew by itself.
fn restarts_of(driver: &DriverState) -> u8
    ensures { result ≡ driver.now.restarts }
{
    driver.restarts
}

/// How often these drivers may still be started anew by themselves, all together.
fn restarts_left(drivers: &[DriverState]) -> u32
    requires { length drivers.now ≡ 4 }
    ensures { result ≡ restarts_left drivers.now }
{
    u32::from(restarts_of(&drivers[0]))
        + u32::from(restarts_of(&drivers[1]))
        + u32::from(restarts_of(&drivers[2]))
        + u32::from(restarts_of(&drivers[3]))
}

/// The driver of least number that is due to be started anew.
fn least_due(drivers: &[DriverState]) -> Option<u8>
    requires { length drivers.now ≡ 4 }
    ensures { MatchOption result (some_due drivers.now ≡ false)
        (λ driver. (some_due drivers.now ≡ true) × (driver ≡ first_due drivers.now) × (driver ≤ 4)) }
{
    for place in 0..4u8 {
        if drivers[usize::from(place)].is_due {
            return Some(place + 1);
        }
    }
    None
}

/// The driver that is started anew next, where the run goes on.
fn next_driver(run: &RunState) -> Option<u8>
    ensures { NextDriver run.now result }
{
    if run_changes::is_over(run) {
        return None;
    }
    least_due(&run.drivers)
}

impl Live {
    /// A driver that is due is started anew on the task of its last load; then delivery.
    fn restart_driver<K: Sink>(
        &mut self,
        drivers: &Drivers,
        report: &mut Report,
        sink: &mut K,
        driver: u8,
    )
        requires ready { IsReady (units_of drivers.now.list.items) (here self.old report.old (K.written sink.old) (K.faults sink.old)) }
        requires some { 1 ≤ (driver_of self.old.ground.run driver).task }
        requires few { (driver_of self.old.ground.run driver).task ≤ 8 }
        ensures { Leads (units_of drivers.now.list.items) (here self.old report.old (K.written sink.old) (K.faults sink.old))
            (here self.new report.new (K.written sink.new) (K.faults sink.new)) (restarts_driver self.old.ground.run driver) }
    {
        let state = run_changes::driver(&self.ground.run, driver);
        run_changes::use_restart(&mut self.ground.run, driver);
        self.restart(drivers, report, sink, driver, state.task);
        self.deliver(drivers, report, sink);
    }

    /// While a driver is due, the one of least number is started anew.
    pub fn restart_all<K: Sink>(&mut self, drivers: &Drivers, report: &mut Report, sink: &mut K)
        requires ready { IsReady (units_of drivers.now.list.items) (here self.old report.old (K.written sink.old) (K.faults sink.old)) }
        requires due { AreDueSet self.old.ground.run }
        ensures { Leads (units_of drivers.now.list.items) (here self.old report.old (K.written sink.old) (K.faults sink.old))
            (here self.new report.new (K.written sink.new) (K.faults sink.new)) restarts }
    {
        let turns = restarts_left(&self.ground.run.drivers);
        for _turn in 0..turns {
            match next_driver(&self.ground.run) {
                None => return,
                Some(driver) => self.restart_driver(drivers, report, sink, driver),
            }
        }
    }
}
