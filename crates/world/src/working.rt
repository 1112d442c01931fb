//! `work N`: items of the work queue run.
ghost use Rattle.std.specs.Prelude.{◌≡◌, ◌<◌, ◌≤◌, false};
ghost use Rattle.world.specs.Ready.{IsReady, NextWork};
ghost use Rattle.world.specs.Standing.{units_of, here, Leads};
ghost use Rattle.world_core.specs.Inputs.{works, work};
ghost use Rattle.world_core.specs.WorldState.{is_over};

use crate::drivers::Drivers;
use crate::live::Live;
use driver_host::{Ground, run_changes};
use run_report::{Item, Report};
use sd_base::Update;
use sd_outside::Sink;
use share_table::Work;

/// The item at the front of the work queue, if there is one and the run goes on.
fn next_work(ground: &Ground) -> Option<Work>
    ensures { NextWork ground.now result }
{
    if run_changes::is_over(&ground.run) {
        return None;
    }
    ground.host.front()
}

impl Live {
    /// The front of the work queue is taken, and its handler runs with its argument.
    fn work_on<K: Sink>(&mut self, drivers: &Drivers, report: &mut Report, sink: &mut K, item: Work)
        requires ready { IsReady (units_of drivers.now.list.items) (here self.old report.old (K.written sink.old) (K.faults sink.old)) }
        requires goes { is_over self.old.ground.run ≡ false }
        requires driver { 0 < item.owner }
        requires owner { item.owner ≤ 4 }
        ensures { Leads (units_of drivers.now.list.items) (here self.old report.old (K.written sink.old) (K.faults sink.old))
            (here self.new report.new (K.written sink.new) (K.faults sink.new)) (works item) }
    {
        let _taken = self.ground.host.update(item.owner, Update::Taken);
        let line = Item::Work { driver: item.owner };
        self.ground.say(report, sink, &line);
        self.handle(drivers, report, sink, item.owner, item.handler, item.arg);
        self.deliver(drivers, report, sink);
    }

    /// `work N`: so many items of the work queue run, while there is one.
    pub fn work<K: Sink>(&mut self, drivers: &Drivers, report: &mut Report, sink: &mut K, n: u32)
        requires ready { IsReady (units_of drivers.now.list.items) (here self.old report.old (K.written sink.old) (K.faults sink.old)) }
        ensures { Leads (units_of drivers.now.list.items) (here self.old report.old (K.written sink.old) (K.faults sink.old))
            (here self.new report.new (K.written sink.new) (K.faults sink.new)) (work n) }
    {
        for _turn in 0..n {
            match next_work(&self.ground) {
                None => return,
                Some(item) => self.work_on(drivers, report, sink, item),
            }
        }
    }
}
