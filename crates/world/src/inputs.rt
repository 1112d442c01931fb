//! `answer P V*`, `kernel ..`, `show`.
ghost use Rattle.std.specs.Prelude.{◌≡◌, ◌≤◌, length};
ghost use Rattle.world.specs.Going.{Changes};
ghost use Rattle.world.specs.Standing.{units_of, here, Leads};
ghost use Rattle.world_core.specs.Inputs.{answered, kernel};
ghost use Rattle.world_core.specs.Script.{on_devices};
ghost use Rattle.world_core.specs.Showing.{show};

use crate::drivers::Drivers;
use crate::live::Live;
use run_report::Report;
use scenario::KernelEvent;
use sd_outside::Sink;

impl Live {
    /// `answer P V*`: the values are put behind the port's answers; there is room for them.
    pub fn answer(&mut self, drivers: &Drivers, port: u16, values: &[i32])
        requires { length values.now ≤ self.old.ground.host.devices.room }
        ensures { Changes (units_of drivers.now.list.items) self.old self.new (on_devices (answered port values.now)) }
    {
        self.ground.host.answer(port, values);
    }

    /// `kernel ..`: the kernel itself changes its tables, or is refused, and the reply is printed.
    pub fn ask_of_kernel<K: Sink>(
        &mut self,
        drivers: &Drivers,
        report: &mut Report,
        sink: &mut K,
        event: &KernelEvent,
    )
        ensures { Leads (units_of drivers.now.list.items) (here self.old report.old (K.written sink.old) (K.faults sink.old))
            (here self.new report.new (K.written sink.new) (K.faults sink.new)) (kernel event.now) }
    {
        self.ground.kernel(report, sink, event);
    }

    /// `show`: the tables are printed.
    pub fn show<K: Sink>(&mut self, drivers: &Drivers, report: &mut Report, sink: &mut K)
        ensures { Leads (units_of drivers.now.list.items) (here self.old report.old (K.written sink.old) (K.faults sink.old))
            (here self.new report.new (K.written sink.new) (K.faults sink.new)) show }
    {
        self.ground.show(report, sink, drivers);
    }
}
