//! `run T N` and `finish T`.
ghost use Rattle.std.specs.Prelude.{◌≡◌, ◌≢◌, ◌≤◌, ◌<◌};
ghost use Rattle.world.specs.Ready.{IsReady, MayGoOn};
ghost use Rattle.world.specs.Standing.{units_of, here, Leads};
ghost use Rattle.world_core.specs.Tasks.{round, rounds, run, finish};

use crate::drivers::Drivers;
use crate::live::Live;
use driver_host::run_changes;
use run_report::{Item, Report};
use sd_outside::Sink;

impl Live {
    /// Whether the run goes on, and the task has an activity that has met no lock of another.
    fn may_go_on(&self, task: u8) -> bool
        ensures { MayGoOn self.now task result }
    {
        if run_changes::is_over(&self.ground.run) {
            return false;
        }
        if self.ground.run.is_blocked {
            return false;
        }
        self.machine.live(task).is_some()
    }

    /// A step of the task, then delivery.
    fn round<K: Sink>(&mut self, drivers: &Drivers, report: &mut Report, sink: &mut K, task: u8)
        requires some { 0 < task }
        requires task { task ≤ 8 }
        requires ready { IsReady (units_of drivers.now.list.items) (here self.old report.old (K.written sink.old) (K.faults sink.old)) }
        ensures { Leads (units_of drivers.now.list.items) (here self.old report.old (K.written sink.old) (K.faults sink.old))
            (here self.new report.new (K.written sink.new) (K.faults sink.new)) (round task) }
    {
        self.step(drivers, report, sink, task);
        self.deliver(drivers, report, sink);
    }

    /// Steps of the task, until so many were taken, its activity ended, is blocked or gone.
    fn rounds<K: Sink>(
        &mut self,
        drivers: &Drivers,
        report: &mut Report,
        sink: &mut K,
        task: u8,
        n: u64,
    )
        requires some { 0 < task }
        requires task { task ≤ 8 }
        requires ready { IsReady (units_of drivers.now.list.items) (here self.old report.old (K.written sink.old) (K.faults sink.old)) }
        ensures { Leads (units_of drivers.now.list.items) (here self.old report.old (K.written sink.old) (K.faults sink.old))
            (here self.new report.new (K.written sink.new) (K.faults sink.new)) (rounds task n) }
    {
        run_changes::unblock(&mut self.ground.run);
        for _turn in 0..n {
            if !self.may_go_on(task) {
                return;
            }
            self.round(drivers, report, sink, task);
        }
    }

    /// `run T N`: the task takes so many steps at most. A task without an activity prints `tT idle`.
    pub fn run<K: Sink>(
        &mut self,
        drivers: &Drivers,
        report: &mut Report,
        sink: &mut K,
        task: u8,
        n: u64,
    )
        requires some { 0 < task }
        requires task { task ≤ 8 }
        requires ready { IsReady (units_of drivers.now.list.items) (here self.old report.old (K.written sink.old) (K.faults sink.old)) }
        ensures { Leads (units_of drivers.now.list.items) (here self.old report.old (K.written sink.old) (K.faults sink.old))
            (here self.new report.new (K.written sink.new) (K.faults sink.new)) (run task n) }
    {
        match self.machine.live(task) {
            None => {
                let item = Item::Idle { task };
                self.ground.say(report, sink, &item);
            }
            Some(_owner) => self.rounds(drivers, report, sink, task, n),
        }
    }

    /// `finish T`: the task runs until its activity ended, is blocked or gone.
    pub fn finish<K: Sink>(
        &mut self,
        drivers: &Drivers,
        report: &mut Report,
        sink: &mut K,
        task: u8,
    )
        requires some { 0 < task }
        requires task { task ≤ 8 }
        requires ready { IsReady (units_of drivers.now.list.items) (here self.old report.old (K.written sink.old) (K.faults sink.old)) }
        ensures { Leads (units_of drivers.now.list.items) (here self.old report.old (K.written sink.old) (K.faults sink.old))
            (here self.new report.new (K.written sink.new) (K.faults sink.new)) (finish task) }
    {
        let turns = u64::from(self.ground.run.left) + 1;
        self.run(drivers, report, sink, task, turns);
    }
}
