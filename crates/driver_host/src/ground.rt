//! What the world keeps beside the drivers' activities: how the run stands, what the drivers run upon, and whether a write has failed.
ghost use Rattle.std.specs.Prelude.{◌≡◌, ℕ, ◌<◌, ◌≤◌, List, length};
ghost use Rattle.world_core.specs.Failing.{takes_back, driver_fails};
ghost use Rattle.driver_host.specs.Grounds.{Carries, told, undone_items};
ghost use Rattle.world_core.specs.Inputs.{answered, kernel, kernel_update, kernel_reply as reply_to};
ghost use Rattle.world_core.specs.Loading.{driver_unloaded};
ghost use Rattle.driver_host.specs.Printing.{Out};
ghost use Rattle.world_core.specs.Script as script;
ghost use Rattle.world_core.specs.Showing.{show};

use crate::host::Host;
use crate::printing::{say, say_tables, say_undone};
use crate::run_changes;
use run_report::{Functions, Item, Report};
use scenario::KernelEvent;
use sd_base::{Refusal, Update};
use sd_outside::Sink;
use world_core::RunState;

/// What the world keeps beside the drivers' activities.
#[derive(Drop)]
pub struct Ground {
    pub run: RunState,
    pub host: Host,
    /// Whether a write has failed. Nothing is written from then on.
    pub is_silent: bool,
}

/// What the kernel itself asks for; a line of it has no handler.
pub fn kernel_update(event: &KernelEvent) -> Update
    ensures { result ≡ kernel_update event.now }
{
    match *event {
        KernelEvent::Line(line) => Update::Line { line, handler: 0 },
        KernelEvent::FreeLine(line) => Update::FreeLine { line },
        KernelEvent::Param(key, value) => Update::Param { key, value },
        KernelEvent::ClearParam(key) => Update::ClearParam { key },
        KernelEvent::Hold(domain) => Update::Hold { domain },
        KernelEvent::DropHold(domain) => Update::DropHold { domain },
        KernelEvent::Lock(lock) => Update::Lock { lock, task: 0 },
        KernelEvent::Unlock(lock) => Update::Unlock { lock, task: 0 },
    }
}

/// What the kernel is replied: 0, -16 where another holds it, -28 where the kernel has as many as it may, else -22.
pub fn kernel_reply(refusal: Option<Refusal>) -> i32
    ensures { result ≡ reply_to refusal }
{
    match refusal {
        None => 0,
        Some(Refusal::Busy) => -16,
        Some(Refusal::HeldBy(_)) => -16,
        Some(Refusal::Full) => -28,
        Some(_) => -22,
    }
}

impl Ground {
    /// Prints an item.
    pub fn say<K: Sink>(&mut self, report: &mut Report, sink: &mut K, item: &Item)
        ensures { (names : ℕ → ℕ → List ℕ) → Carries self.old self.new (told self.old report.old (K.written sink.old) (K.faults sink.old))
            (told self.new report.new (K.written sink.new) (K.faults sink.new)) names (script.say item.now) }
    {
        say(&mut self.is_silent, report, sink, item);
    }

    /// Prints the kernel's tables.
    pub fn show<K: Sink, F: Functions>(&mut self, report: &mut Report, sink: &mut K, functions: &F)
        ensures { Carries self.old self.new (told self.old report.old (K.written sink.old) (K.faults sink.old))
            (told self.new report.new (K.written sink.new) (K.faults sink.new)) (F.names functions.now) show }
    {
        say_tables(
            &mut self.is_silent,
            report,
            sink,
            self.host.tables(),
            functions,
        );
    }

    /// Makes an update of the kernel itself, or refuses it, and prints the reply.
    pub fn kernel<K: Sink>(&mut self, report: &mut Report, sink: &mut K, event: &KernelEvent)
        ensures { (names : ℕ → ℕ → List ℕ) → Carries self.old self.new (told self.old report.old (K.written sink.old) (K.faults sink.old))
            (told self.new report.new (K.written sink.new) (K.faults sink.new)) names (kernel event.now) }
    {
        let refusal = self.host.update(0, kernel_update(event));
        let item = Item::Reply {
            value: kernel_reply(refusal),
        };
        self.say(report, sink, &item);
    }

    /// Prints what was taken back last of a driver, and the tables.
    fn say_taken_back<K: Sink, F: Functions>(
        &mut self,
        report: &mut Report,
        sink: &mut K,
        functions: &F,
        owner: u8,
    )
        ensures { Carries self.old self.new (told self.old report.old (K.written sink.old) (K.faults sink.old))
            (told self.new report.new (K.written sink.new) (K.faults sink.new)) (F.names functions.now)
            (script.both (script.says (undone_items (F.names functions.now) owner self.old.host.kernel.undone)) show) }
    {
        say_undone(
            &mut self.is_silent,
            report,
            sink,
            owner,
            self.host.undone(),
            functions,
        );
        self.show(report, sink, functions);
    }

    /// A step of the driver has failed: all that it has is taken back, which is printed.
    pub fn fail<K: Sink, F: Functions>(
        &mut self,
        report: &mut Report,
        sink: &mut K,
        functions: &F,
        owner: u8,
    )
        requires driver { 0 < owner }
        requires owner { owner ≤ 4 }
        ensures { Carries self.old self.new (told self.old report.old (K.written sink.old) (K.faults sink.old))
            (told self.new report.new (K.written sink.new) (K.faults sink.new)) (F.names functions.now)
            (takes_back owner (driver_fails owner)) }
    {
        self.host.take_back(owner);
        run_changes::fail(&mut self.run, owner);
        self.say_taken_back(report, sink, functions, owner);
    }

    /// The driver leaves: all that it has is taken back, which is printed.
    pub fn unload<K: Sink, F: Functions>(
        &mut self,
        report: &mut Report,
        sink: &mut K,
        functions: &F,
        owner: u8,
    )
        requires driver { 0 < owner }
        requires owner { owner ≤ 4 }
        ensures { Carries self.old self.new (told self.old report.old (K.written sink.old) (K.faults sink.old))
            (told self.new report.new (K.written sink.new) (K.faults sink.new)) (F.names functions.now)
            (takes_back owner (driver_unloaded owner)) }
    {
        self.host.take_back(owner);
        run_changes::unload(&mut self.run, owner);
        self.say_taken_back(report, sink, functions, owner);
    }

    /// Gives a port these answers; there is room for them.
    pub fn answer(&mut self, port: u16, values: &[i32])
        requires { length values.now ≤ self.old.host.devices.room }
        ensures { (o : Out) (names : ℕ → ℕ → List ℕ) → Carries self.old self.new o o names (script.on_devices (answered port values.now)) }
    {
        self.host.answer(port, values);
    }
}
