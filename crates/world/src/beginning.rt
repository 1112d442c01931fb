//! A function of a driver begins on a task: a call from outside, or a handler.
ghost use Rattle.std.specs.Prelude.{◌≡◌, ◌≤◌, None, length};
ghost use Rattle.driver_machine.specs.Machines.{owner_in};
ghost use Rattle.world.specs.Begun.{Begins};
ghost use Rattle.world.specs.Going.{Changes};
ghost use Rattle.world.specs.Standing.{units_of};
ghost use Rattle.world_core.specs.Handling.{begun};
ghost use Rattle.world_core.specs.Script.{by_plan, on_tasks};

use crate::drivers::Drivers;
use crate::live::Live;
use driver_machine::Machine;
use safe_code::SafeDriver;
use sd_base::Who;

/// A function of a driver begins on a task that has no activity, if the driver has a function with this number.
fn start(machine: &mut Machine, driver: &SafeDriver, who: Who, function: u32, values: &[i32])
    requires task { who.task ≤ 8 }
    requires idle { owner_in machine.old who.task ≡ None }
    requires few { length values.now ≤ 128 }
    ensures { Begins driver.now.unit who.task who.owner function values.now machine.old machine.new }
{
    if driver.unit().functions.len() <= function as usize {
        return;
    }
    match machine.start(who, driver, function, values) {
        Ok(_unit) => {}
        Err(_busy) => {}
    }
}

impl Live {
    /// A function of a driver begins on a task that has no activity, with each argument converted to its parameter's type. Where the driver has
    /// no function with this number, or there is no such driver, nothing begins.
    pub fn begin(&mut self, drivers: &Drivers, task: u8, owner: u8, function: u32, values: &[i32])
        requires task { task ≤ 8 }
        requires idle { owner_in self.old.machine task ≡ None }
        requires few { length values.now ≤ 128 }
        ensures { Changes (units_of drivers.now.list.items) self.old self.new
            (by_plan (λ plan. on_tasks (begun plan task owner function values.now))) }
    {
        match drivers.get(owner) {
            None => {}
            Some(driver) => start(
                &mut self.machine,
                driver,
                Who { owner, task },
                function,
                values,
            ),
        }
    }
}
