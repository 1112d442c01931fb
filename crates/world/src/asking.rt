//! A kernel call of an activity: it is served by the host, told and answered.
ghost use Rattle.std.specs.Prelude.{◌≡◌, ◌<◌, ◌≤◌, ◌++◌, Some, length, slice_index_or, slice_set};
ghost use Rattle.driver_host.specs.Hosting.{cleared};
ghost use Rattle.driver_machine.specs.Machines.{owner_in};
ghost use Rattle.world.specs.Asking.{HasMemory};
ghost use Rattle.world.specs.Serving.{ServesCaller};
ghost use Rattle.world.specs.Standing.{driver_at, here, units_of, IsGood, Leads};
ghost use Rattle.world_core.specs.Calling as calling;
ghost use Rattle.world_core.specs.Calling.{asks};
ghost use Rattle.wrappers.specs.InStep.{spanned};

use crate::drivers::Drivers;
use crate::live::Live;
use byte_memory::Tested;
use checked_tree::{Answer, KernelCall};
use driver_host::{Host, run_changes};
use run_report::{Excerpt, Item, Report};
use safe_code::SafeDriver;
use sd_base::{Fat, Who};
use sd_outside::Sink;
use wrappers::{CallOut, Saying, serve_call};

/// Grants what a pointer to a new block spans in the memory at a place; null spans nothing.
fn grant_spanned(memories: &mut [Tested], place: usize, pointer: Fat)
    requires place { place < length memories.old }
    requires room { pointer.lo < pointer.hi → length (slice_index_or memories.old place cleared).granted < 4096 }
    requires within { pointer.lo < pointer.hi → pointer.hi ≤ length (slice_index_or memories.old place cleared).bytes }
    ensures { memories.new ≡ slice_set memories.old place
        (record (slice_index_or memories.old place cleared) { granted = (slice_index_or memories.old place cleared).granted ++ spanned pointer }) }
{
    if pointer.lo < pointer.hi {
        let memory = &mut memories[place];
        memory.grant(pointer.lo, pointer.hi - pointer.lo);
    }
}

/// Serves a kernel call of a driver. A block that it gets is granted in the driver's memory.
fn call_kernel(host: &mut Host, who: Who, call: &KernelCall) -> CallOut
    requires task { who.task ≤ 8 }
    requires known { HasMemory host.old who.owner }
    ensures { ServesCaller host.old who call.now result host.new }
{
    let place = usize::from(who.owner) - 1;
    let out = serve_call(
        &mut host.kernel,
        &host.memories.as_slice()[place],
        &mut host.devices,
        who,
        call,
    );
    if let CallOut::Pointer(pointer) = out {
        grant_spanned(host.memories.as_mut_slice(), place, pointer);
    }
    out
}

/// The line of what a call says.
fn said_item(who: Who, saying: &Saying) -> Item
    ensures { result ≡ calling.said_item who saying.now }
{
    match *saying {
        Saying::Print(value) => Item::Print { who, value },
        Saying::Text(text) => {
            let bytes = text.bytes;
            Item::Text {
                who,
                text: Excerpt {
                    bytes,
                    len: text.len,
                    more: text.more,
                },
            }
        }
        Saying::Out(port, value) => Item::Out { who, port, value },
    }
}

impl Live {
    /// Serves the kernel call at which an activity stands, at this line, tells of it, and answers.
    pub fn ask<K: Sink>(
        &mut self,
        drivers: &Drivers,
        report: &mut Report,
        sink: &mut K,
        driver: &SafeDriver,
        who: Who,
        line: u32,
        call: &KernelCall,
    )
        requires task { who.task ≤ 8 }
        requires driver { driver_at drivers.now.list.items who.owner ≡ Some driver.now }
        requires live { owner_in self.old.machine who.task ≡ Some who.owner }
        requires good { IsGood (units_of drivers.now.list.items) (here self.old report.old (K.written sink.old) (K.faults sink.old)) }
        ensures { Leads (units_of drivers.now.list.items) (here self.old report.old (K.written sink.old) (K.faults sink.old))
            (here self.new report.new (K.written sink.new) (K.faults sink.new)) (asks who line call.now) }
    {
        match call_kernel(&mut self.ground.host, who, call) {
            CallOut::Reply(value) => self.machine.answer(who.task, driver, Answer::Number(value)),
            CallOut::Pointer(pointer) => self
                .machine
                .answer(who.task, driver, Answer::Pointer(pointer)),
            CallOut::Said(saying) => {
                let item = said_item(who, &saying);
                self.ground.say(report, sink, &item);
                self.machine.answer(who.task, driver, Answer::Number(0));
            }
            CallOut::Blocked(lock) => {
                let item = Item::Blocked { who, lock };
                self.ground.say(report, sink, &item);
                run_changes::block(&mut self.ground.run);
                self.machine.stay(who.task);
            }
            CallOut::Fail(kind) => self.fail(drivers, report, sink, who, kind, line),
            CallOut::Wild => self.stray(drivers, report, sink, who, line),
        }
    }
}
