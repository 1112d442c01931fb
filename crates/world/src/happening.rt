//! An event: what its line does, then the lines that wait, then the drivers that are due to be started anew.
ghost use Rattle.std.specs.Prelude.{◌≡◌, ◌+◌, ◌≤◌, drop, length, take};
ghost use Rattle.scenario.specs.Fits.{IsFit};
ghost use Rattle.world.specs.Happening.{takes_from, happens_from};
ghost use Rattle.world.specs.Ready.{IsReady, AreDueSet};
ghost use Rattle.world.specs.Runs.{NamesAnswers, given_by};
ghost use Rattle.world.specs.Standing.{units_of, here, Leads};

use crate::drivers::Drivers;
use crate::live::Live;
use driver_host::run_changes;
use run_report::Report;
use scenario::Event;
use sd_outside::Sink;

/// So many values from this place on.
fn named_values(answers: &[i32], first: u32, n: u32) -> &[i32]
    requires { first + n ≤ length answers.now }
    ensures { result.now ≡ take n (drop first answers.now) }
{
    let rest = &answers[first as usize..];
    &rest[..n as usize]
}

impl Live {
    /// What the line of an event does; an `answer` line gives some of these answers.
    fn take<K: Sink>(
        &mut self,
        drivers: &Drivers,
        report: &mut Report,
        sink: &mut K,
        answers: &[i32],
        event: &Event,
    )
        requires ready { IsReady (units_of drivers.now.list.items) (here self.old report.old (K.written sink.old) (K.faults sink.old)) }
        requires fits { IsFit 2 4 event.now }
        requires names { NamesAnswers (length answers.now) event.now }
        requires room { given_by event.now ≤ self.old.ground.host.devices.room }
        ensures { Leads (units_of drivers.now.list.items) (here self.old report.old (K.written sink.old) (K.faults sink.old))
            (here self.new report.new (K.written sink.new) (K.faults sink.new)) (takes_from answers.now event.now) }
    {
        match event {
            Event::Load {
                driver,
                task,
                restarts,
            } => self.load(drivers, report, sink, *driver, *task, *restarts),
            Event::Restart { driver, task } => self.restart(drivers, report, sink, *driver, *task),
            Event::Unload { driver } => self.unload(drivers, report, sink, *driver),
            Event::Call {
                driver,
                task,
                name,
                args,
                n,
            } => {
                let values = &args[..usize::from(*n)];
                self.call(drivers, report, sink, *driver, *task, name, values);
            }
            Event::Run { task, n } => self.run(drivers, report, sink, *task, u64::from(*n)),
            Event::Finish { task } => self.finish(drivers, report, sink, *task),
            Event::Irq { line } => self.irq(drivers, report, sink, *line),
            Event::Tick { n } => self.tick(drivers, report, sink, *n),
            Event::Work { n } => self.work(drivers, report, sink, *n),
            Event::Answer { port, first, n } => self.answer(
                drivers,
                *port,
                named_values(answers, *first, *n),
            ),
            Event::Kernel(asked) => self.ask_of_kernel(drivers, report, sink, asked),
            Event::Show => self.show(drivers, report, sink),
        }
    }

    /// An event. Where the run is over it does nothing.
    pub fn happen<K: Sink>(
        &mut self,
        drivers: &Drivers,
        report: &mut Report,
        sink: &mut K,
        answers: &[i32],
        event: &Event,
    )
        requires ready { IsReady (units_of drivers.now.list.items) (here self.old report.old (K.written sink.old) (K.faults sink.old)) }
        requires due { AreDueSet self.old.ground.run }
        requires fits { IsFit 2 4 event.now }
        requires names { NamesAnswers (length answers.now) event.now }
        requires room { given_by event.now ≤ self.old.ground.host.devices.room }
        ensures { Leads (units_of drivers.now.list.items) (here self.old report.old (K.written sink.old) (K.faults sink.old))
            (here self.new report.new (K.written sink.new) (K.faults sink.new)) (happens_from answers.now event.now) }
    {
        if run_changes::is_over(&self.ground.run) {
            return;
        }
        self.take(drivers, report, sink, answers, event);
        self.deliver(drivers, report, sink);
        self.restart_all(drivers, report, sink);
    }
}
