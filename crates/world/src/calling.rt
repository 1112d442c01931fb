//! `call dK T NAME V*`: a function of a driver begins on a task.
ghost use Rattle.std.specs.Prelude.{◌≡◌, ◌≤◌, None, Some, length, negsuc};
ghost use Rattle.driver_machine.specs.Machines.{owner_in};
ghost use Rattle.world.specs.Standing.{units_of, unit_at, here, Leads};
ghost use Rattle.world_core.specs.Loading as loading;
ghost use Rattle.world_core.specs.Script as script;
ghost use Rattle.world_core.specs.Script.{by_plan};

use crate::drivers::Drivers;
use crate::live::Live;
use crate::loading::is_busy;
use crate::obstacles::{call_obstacle, fits_values};
use driver_host::run_changes;
use run_report::{Item, Order, Report};
use sd_base::{Name, Who};
use sd_outside::Sink;
use world_core::Standing;

/// The number of a driver's function with this name, if it has one.
fn function_in(drivers: &Drivers, driver: u8, name: &Name) -> Option<u32>
    ensures { result ≡ loading.function_named name.now (unit_at (units_of drivers.now.list.items) driver) }
{
    match drivers.get(driver) {
        None => None,
        Some(found) => found.function(name),
    }
}

/// Whether so many values fit a driver's function, if there is one.
fn fits_in(drivers: &Drivers, driver: u8, function: Option<u32>, values: usize) -> bool
    ensures { result ≡ loading.fits_values (unit_at (units_of drivers.now.list.items) driver) function values }
{
    match drivers.get(driver) {
        None => false,
        Some(found) => fits_values(found.unit(), function, values),
    }
}

impl Live {
    /// What is printed of a call of a failed driver.
    fn say_failed<K: Sink>(
        &mut self,
        drivers: &Drivers,
        report: &mut Report,
        sink: &mut K,
        driver: u8,
        task: u8,
    )
        ensures { Leads (units_of drivers.now.list.items) (here self.old report.old (K.written sink.old) (K.faults sink.old))
            (here self.new report.new (K.written sink.new) (K.faults sink.new))
            (script.say (Item.Answered (record { owner = driver; task = task }) (negsuc 4))) }
    {
        let item = Item::Answered {
            who: Who {
                owner: driver,
                task,
            },
            value: -5,
        };
        self.ground.say(report, sink, &item);
    }

    /// A call that meets no obstacle: a failed driver answers -5 (EIO), and else the function begins.
    fn make_call<K: Sink>(
        &mut self,
        drivers: &Drivers,
        report: &mut Report,
        sink: &mut K,
        driver: u8,
        task: u8,
        values: &[i32],
        standing: Standing,
        function: Option<u32>,
    )
        requires task { task ≤ 8 }
        requires idle { standing ≡ Standing.Loaded → owner_in self.old.machine task ≡ None }
        requires few { length values.now ≤ 128 }
        ensures { Leads (units_of drivers.now.list.items) (here self.old report.old (K.written sink.old) (K.faults sink.old))
            (here self.new report.new (K.written sink.new) (K.faults sink.new))
            (by_plan (λ plan. loading.calls plan driver task values.now standing function)) }
    {
        match standing {
            Standing::Failed => self.say_failed(drivers, report, sink, driver, task),
            Standing::Absent => {}
            Standing::Loaded => match function {
                None => {}
                Some(number) => self.begin(drivers, task, driver, number, values),
            },
        }
    }

    /// `call dK T NAME V*`.
    pub fn call<K: Sink>(
        &mut self,
        drivers: &Drivers,
        report: &mut Report,
        sink: &mut K,
        driver: u8,
        task: u8,
        name: &Name,
        values: &[i32],
    )
        requires task { task ≤ 8 }
        requires few { length values.now ≤ 128 }
        ensures { Leads (units_of drivers.now.list.items) (here self.old report.old (K.written sink.old) (K.faults sink.old))
            (here self.new report.new (K.written sink.new) (K.faults sink.new)) (loading.call driver task name.now values.now) }
    {
        let state = run_changes::driver(&self.ground.run, driver);
        let function = function_in(drivers, driver, name);
        let fits = fits_in(drivers, driver, function, values.len());
        let busy = is_busy(&self.machine, task);
        match call_obstacle(state.standing, function, fits, busy) {
            Some(why) => self.decline(drivers, report, sink, driver, Order::Call, why),
            None => self.make_call(
                drivers,
                report,
                sink,
                driver,
                task,
                values,
                state.standing,
                function,
            ),
        }
    }
}
