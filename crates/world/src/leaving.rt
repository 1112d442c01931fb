//! `unload dK`: a driver leaves.
ghost use Rattle.std.specs.Prelude.{◌≡◌, ◌<◌, ◌≤◌, true, false, Some, MatchOption, ℕ};
ghost use Rattle.driver_machine.specs.Machines.{owner_in, Drops};
ghost use Rattle.world.specs.Orders.{is_by};
ghost use Rattle.world.specs.Standing.{units_of, here, Leads};
ghost use Rattle.world_core.specs.Loading as loading;
ghost use Rattle.world_core.specs.Script.{say, both};
ghost use Rattle.world_core.specs.Failing.{takes_back};

use crate::drivers::Drivers;
use crate::live::Live;
use crate::obstacles::unload_obstacle;
use driver_host::run_changes;
use driver_machine::Machine;
use run_report::{Item, Order, Report};
use sd_outside::Sink;

/// Whether a task has an activity of this driver.
fn is_of(machine: &Machine, task: u8, owner: u8) -> bool
    ensures { result ≡ is_by owner (owner_in machine.now task) }
{
    match machine.live(task) {
        Some(found) => found == owner,
        None => false,
    }
}

/// A task with an activity of this driver, if there is one.
fn busy_task(machine: &Machine, owner: u8) -> Option<u8>
    ensures { MatchOption result ((task : ℕ) → task < 9 → is_by owner (owner_in machine.now task) ≡ false)
        (λ task. is_by owner (owner_in machine.now task) ≡ true) }
{
    for task in 0..9u8 {
        if is_of(machine, task, owner) {
            return Some(task);
        }
    }
    None
}

impl Live {
    /// A driver leaves, and what it holds is taken back, which is printed.
    fn take_away<K: Sink>(
        &mut self,
        drivers: &Drivers,
        report: &mut Report,
        sink: &mut K,
        driver: u8,
    )
        requires some { 0 < driver }
        requires driver { driver ≤ 4 }
        ensures { Leads (units_of drivers.now.list.items) (here self.old report.old (K.written sink.old) (K.faults sink.old))
            (here self.new report.new (K.written sink.new) (K.faults sink.new))
            (both (say (Item.Unloaded driver)) (takes_back driver (loading.driver_unloaded driver))) }
    {
        let item = Item::Unloaded { driver };
        self.ground.say(report, sink, &item);
        self.machine.drop_owner(driver);
        self.ground.unload(report, sink, drivers, driver);
    }

    /// `unload dK`.
    pub fn unload<K: Sink>(
        &mut self,
        drivers: &Drivers,
        report: &mut Report,
        sink: &mut K,
        driver: u8,
    )
        requires some { 0 < driver }
        requires driver { driver ≤ 4 }
        ensures { Leads (units_of drivers.now.list.items) (here self.old report.old (K.written sink.old) (K.faults sink.old))
            (here self.new report.new (K.written sink.new) (K.faults sink.new)) (loading.unload driver) }
    {
        let state = run_changes::driver(&self.ground.run, driver);
        let busy = busy_task(&self.machine, driver);
        match unload_obstacle(state.standing, busy.is_some()) {
            Some(why) => self.decline(drivers, report, sink, driver, Order::Unload, why),
            None => self.take_away(drivers, report, sink, driver),
        }
    }
}
