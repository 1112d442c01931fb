//! `serve_call`: each kernel call, handed to the function of its row.
ghost use Rattle.std.specs.Prelude.{◌≡◌, ◌<◌, ◌≤◌, ◌^◌, length};
ghost use Rattle.wrappers.specs.Rows as row;
ghost use Rattle.wrappers.specs.Serving.{ServesCall, ServesRow, TakesAnswer, IsStop};

use crate::arguments::{int_at, number_at};
use crate::blocks::{kalloc, kfree};
use crate::claims::{
    add_device, clear_param, del_device, free_line, get_param, release_ports, request_line,
    request_ports, set_param,
};
use crate::contexts::may_call;
use crate::locks::{lock, unlock};
use crate::masks::{mask, unmask};
use crate::ports::{port_in, port_out};
use crate::printing::prints;
use crate::shares::{drop_hold, hold, queue_work};
use crate::timers::{del_timer, now, set_timer};
use crate::{CallOut, Saying};
use byte_memory::Tested;
use checked_tree::{KernelCall, KernelName};
use device_model::Devices;
use sd_base::{FailKind, Who};
use update_tracker::Tracked;

/// Hands a call to the function of its row, with its numbers as `int`s.
fn by_row(
    kernel: &mut Tracked,
    memory: &Tested,
    devices: &mut Devices,
    who: Who,
    call: &KernelCall,
    first: i32,
    second: i32,
    third: i32,
) -> CallOut
    requires driver { 0 < who.owner }
    requires owner { who.owner ≤ 4 }
    requires task { who.task ≤ 8 }
    requires clock { kernel.old.kernel.now ≤ 2000000000 }
    requires memory { length memory.now.bytes < 2 ^ 32 }
    ensures serves { ServesRow kernel.old who.owner (λ share h. row.row_of call.now.name share h memory.now devices.old who call.now first second third) result kernel.new }
    ensures takes { TakesAnswer kernel.old (λ h. row.port_by call.now.name h who first) devices.old devices.new }
    ensures stopped { IsStop result ((kernel.new ≡ kernel.old) × (devices.new ≡ devices.old)) }
    ensures share { kernel.new.kernel.claims.share ≡ kernel.old.kernel.claims.share }
    ensures undone { kernel.new.undone ≡ kernel.old.undone }
{
    match call.name {
        KernelName::Printd => CallOut::Said(Saying::Print(first)),
        KernelName::Prints => prints(memory, call.pointer.value),
        KernelName::Kalloc => kalloc(kernel, who.owner, call.elem, call.size, number_at(call, 0)),
        KernelName::Kfree => kfree(kernel, who.owner, call.pointer.value),
        KernelName::RequestLine => request_line(kernel, who.owner, first, call.function),
        KernelName::FreeLine => free_line(kernel, who.owner, first),
        KernelName::RequestPorts => request_ports(kernel, who.owner, first, second),
        KernelName::ReleasePorts => release_ports(kernel, who.owner, first, second),
        KernelName::PortIn => port_in(kernel, devices, who.owner, first),
        KernelName::PortOut => port_out(kernel, devices, who.owner, first, second),
        KernelName::AddDevice => add_device(kernel, who.owner, first),
        KernelName::DelDevice => del_device(kernel, who.owner, first),
        KernelName::SetParam => set_param(kernel, who.owner, first, second),
        KernelName::ClearParam => clear_param(kernel, who.owner, first),
        KernelName::GetParam => get_param(kernel, first),
        KernelName::SetTimer => set_timer(kernel, who.owner, first, second, call.function, third),
        KernelName::DelTimer => del_timer(kernel, who.owner, first),
        KernelName::Now => now(kernel),
        KernelName::Lock => lock(kernel, who, first),
        KernelName::Unlock => unlock(kernel, who, first),
        KernelName::Mask => mask(kernel, who),
        KernelName::Unmask => unmask(kernel, who),
        KernelName::Hold => hold(kernel, who.owner, first),
        KernelName::DropHold => drop_hold(kernel, who.owner, first),
        KernelName::QueueWork => queue_work(kernel, who.owner, call.function, first),
    }
}

/// Serves a kernel call of a driver's task, or of its handler, whose task is 0.
///
/// The answer is what the table of kernel calls says of every lawful history for which the kernel stands, and the kernel then stands for
/// the history with the update that the call makes, if it makes one. A call that waits, fails or has no meaning changes nothing. Arguments
/// are taken as an `int`, modulo 2^32; the number of elements of a `kalloc` as it is. It takes no memory.
pub fn serve_call(
    kernel: &mut Tracked,
    memory: &Tested,
    devices: &mut Devices,
    who: Who,
    call: &KernelCall,
) -> CallOut
    requires driver { 0 < who.owner }
    requires owner { who.owner ≤ 4 }
    requires task { who.task ≤ 8 }
    requires clock { kernel.old.kernel.now ≤ 2000000000 }
    requires memory { length memory.now.bytes < 2 ^ 32 }
    ensures serves { ServesCall kernel.old memory.now devices.old who call.now result kernel.new }
    ensures takes { TakesAnswer kernel.old (λ h. row.port_taken h who call.now) devices.old devices.new }
    ensures stopped { IsStop result ((kernel.new ≡ kernel.old) × (devices.new ≡ devices.old)) }
    ensures share { kernel.new.kernel.claims.share ≡ kernel.old.kernel.claims.share }
    ensures undone { kernel.new.undone ≡ kernel.old.undone }
{
    if !may_call(call.name, who.task) {
        return CallOut::Fail(FailKind::Context);
    }
    let first = int_at(call, 0);
    let second = int_at(call, 1);
    let third = int_at(call, 2);
    by_row(kernel, memory, devices, who, call, first, second, third)
}
