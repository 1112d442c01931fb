//! Orders: drivers are loaded, started anew and taken away, and their functions are called.
ghost use Rattle.std.specs.Prelude.{◌≡◌, ◌≢◌, ℕ, ◌<◌, ◌≤◌, None, Some, length, is_some, take};
ghost use Rattle.driver_machine.specs.Machines.{owner_in};
ghost use Rattle.world.specs.Going.{Changes};
ghost use Rattle.world.specs.Standing.{units_of, unit_at, here, IsGood, Leads};
ghost use Rattle.world.specs.Orders.{init_in};
ghost use Rattle.world_core.specs.Loading as loading;
ghost use Rattle.world_core.specs.Script.{say, on_run, by_plan, both};
ghost use Rattle.world_core.specs.WorldState.{driver_of};

use crate::drivers::Drivers;
use crate::live::Live;
use crate::obstacles::{init_of, load_obstacle, restart_obstacle};
use driver_host::run_changes;
use driver_machine::Machine;
use run_report::{Item, Obstacle, Order, Report};
use sd_outside::Sink;

/// The number of the `init` of the driver with this number, if there is one.
fn init_in(drivers: &Drivers, driver: u8) -> Option<u32>
    ensures { result ≡ init_in (units_of drivers.now.list.items) driver }
{
    match drivers.get(driver) {
        None => None,
        Some(found) => init_of(found),
    }
}

/// Whether a task has an activity.
pub fn is_busy(machine: &Machine, task: u8) -> bool
    ensures { result ≡ is_some (owner_in machine.now task) }
{
    machine.live(task).is_some()
}

impl Live {
    /// An order is not carried out, which is printed.
    pub fn decline<K: Sink>(
        &mut self,
        drivers: &Drivers,
        report: &mut Report,
        sink: &mut K,
        driver: u8,
        order: Order,
        why: Obstacle,
    )
        ensures { Leads (units_of drivers.now.list.items) (here self.old report.old (K.written sink.old) (K.faults sink.old))
            (here self.new report.new (K.written sink.new) (K.faults sink.new)) (say (Item.Declined driver order why)) }
    {
        let item = Item::Declined { driver, order, why };
        self.ground.say(report, sink, &item);
    }

    /// A driver's `init` begins on a task that has no activity.
    pub fn begin_init(&mut self, drivers: &Drivers, driver: u8, task: u8)
        requires task { task ≤ 8 }
        requires idle { owner_in self.old.machine task ≡ None }
        ensures { Changes (units_of drivers.now.list.items) self.old self.new
            (by_plan (λ plan. loading.begins_init plan driver task (init_in (units_of drivers.now.list.items) driver))) }
    {
        match init_in(drivers, driver) {
            None => {}
            Some(function) => self.begin(drivers, task, driver, function, &[]),
        }
    }

    /// A driver is loaded: what was said of it first, then its load state.
    fn load_driver<K: Sink>(
        &mut self,
        drivers: &Drivers,
        report: &mut Report,
        sink: &mut K,
        driver: u8,
        task: u8,
        restarts: u8,
    )
        requires good { IsGood (units_of drivers.now.list.items) (here self.old report.old (K.written sink.old) (K.faults sink.old)) }
        requires task { task ≤ 8 }
        requires idle { owner_in self.old.machine task ≡ None }
        ensures { Leads (units_of drivers.now.list.items) (here self.old report.old (K.written sink.old) (K.faults sink.old))
            (here self.new report.new (K.written sink.new) (K.faults sink.new))
            (by_plan (λ plan. both (on_run (loading.driver_loaded driver task restarts)) (both (loading.loads plan driver task)
            (say (Item.Loaded driver))))) }
    {
        run_changes::load(&mut self.ground.run, driver, task, restarts);
        self.begin_load(drivers, driver, task);
        let item = Item::Loaded { driver };
        self.ground.say(report, sink, &item);
    }

    /// A failed driver is loaded anew.
    fn restart_driver_on<K: Sink>(
        &mut self,
        drivers: &Drivers,
        report: &mut Report,
        sink: &mut K,
        driver: u8,
        task: u8,
    )
        requires good { IsGood (units_of drivers.now.list.items) (here self.old report.old (K.written sink.old) (K.faults sink.old)) }
        requires task { task ≤ 8 }
        requires idle { owner_in self.old.machine task ≡ None }
        ensures { Leads (units_of drivers.now.list.items) (here self.old report.old (K.written sink.old) (K.faults sink.old))
            (here self.new report.new (K.written sink.new) (K.faults sink.new))
            (by_plan (λ plan. both (on_run (loading.driver_restarted driver)) (both (loading.loads plan driver task)
            (say (Item.Restarted driver))))) }
    {
        run_changes::restart(&mut self.ground.run, driver);
        self.begin_load(drivers, driver, task);
        let item = Item::Restarted { driver };
        self.ground.say(report, sink, &item);
    }

    /// `load dK T`, `load dK T restarts N`.
    pub fn load<K: Sink>(
        &mut self,
        drivers: &Drivers,
        report: &mut Report,
        sink: &mut K,
        driver: u8,
        task: u8,
        restarts: u8,
    )
        requires good { IsGood (units_of drivers.now.list.items) (here self.old report.old (K.written sink.old) (K.faults sink.old)) }
        requires task { task ≤ 8 }
        ensures { Leads (units_of drivers.now.list.items) (here self.old report.old (K.written sink.old) (K.faults sink.old))
            (here self.new report.new (K.written sink.new) (K.faults sink.new)) (loading.load driver task restarts) }
    {
        let state = run_changes::driver(&self.ground.run, driver);
        let init = init_in(drivers, driver);
        let busy = is_busy(&self.machine, task);
        match load_obstacle(state.standing, init, busy) {
            Some(why) => self.decline(drivers, report, sink, driver, Order::Load, why),
            None => self.load_driver(drivers, report, sink, driver, task, restarts),
        }
    }

    /// `restart dK T`.
    pub fn restart<K: Sink>(
        &mut self,
        drivers: &Drivers,
        report: &mut Report,
        sink: &mut K,
        driver: u8,
        task: u8,
    )
        requires some { 0 < task }
        requires task { task ≤ 8 }
        requires good { IsGood (units_of drivers.now.list.items) (here self.old report.old (K.written sink.old) (K.faults sink.old)) }
        ensures { Leads (units_of drivers.now.list.items) (here self.old report.old (K.written sink.old) (K.faults sink.old))
            (here self.new report.new (K.written sink.new) (K.faults sink.new)) (loading.restart driver task) }
    {
        let state = run_changes::driver(&self.ground.run, driver);
        let busy = is_busy(&self.machine, task);
        match restart_obstacle(state.standing, busy) {
            Some(why) => self.decline(drivers, report, sink, driver, Order::Restart, why),
            None => self.restart_driver_on(drivers, report, sink, driver, task),
        }
    }
}
