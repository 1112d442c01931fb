//! A handler: a function of a driver that runs whole on task 0, between two steps of tasks.
ghost use Rattle.std.specs.Prelude.{◌≡◌, []};
ghost use Rattle.std.specs.Prelude.{◌∷◌};
ghost use Rattle.std.specs.Prelude.{false};
ghost use Rattle.world.specs.Calm.{IsCalm};
ghost use Rattle.world.specs.Standing.{units_of, here, Leads};
ghost use Rattle.world_core.specs.Handling.{handles};
ghost use Rattle.world_core.specs.WorldState.{is_over};

use crate::drivers::Drivers;
use crate::live::Live;
use run_report::Report;
use sd_outside::Sink;

impl Live {
    /// Runs a handler with its argument to its end, its failure or the bound. Nothing runs for the kernel, which has no function.
    pub fn handle<K: Sink>(
        &mut self,
        drivers: &Drivers,
        report: &mut Report,
        sink: &mut K,
        owner: u8,
        function: u32,
        argument: i32,
    )
        requires calm { IsCalm (units_of drivers.now.list.items) (here self.old report.old (K.written sink.old) (K.faults sink.old)) }
        requires goes { is_over self.old.ground.run ≡ false }
        ensures { Leads (units_of drivers.now.list.items) (here self.old report.old (K.written sink.old) (K.faults sink.old))
            (here self.new report.new (K.written sink.new) (K.faults sink.new)) (handles owner function argument) }
    {
        self.begin(drivers, 0, owner, function, &[argument]);
        self.run_to_end(drivers, report, sink, 0);
    }
}
