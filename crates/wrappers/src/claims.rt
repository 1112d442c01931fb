//! Calls that claim lines, ports, devices and parameters, and that give them back.
ghost use Rattle.std.specs.Prelude.{◌≡◌, ◌<◌, ◌≤◌};
ghost use Rattle.claim_table.specs.ClaimPart.{values_of};
ghost use Rattle.update_tracker.specs.Tracking.{OfEachHistory};
ghost use Rattle.wrappers.specs.Rows as row;
ghost use Rattle.wrappers.specs.Serving.{IsStop, ReadsRow, ServesRow};

use crate::CallOut;
use crate::replies::{BAD, made};
use sd_base::limits::PARAMETER_NUMBERS;
use sd_base::{Update, number_below};
use update_tracker::Tracked;

/// `request_line(l, h)`: the line is the caller's, and its handler serves it.
pub fn request_line(kernel: &mut Tracked, owner: u8, line: i32, handler: u32) -> CallOut
    requires driver { 0 < owner }
    requires owner { owner ≤ 4 }
    ensures serves { ServesRow kernel.old owner (λ share h. row.request_line share h owner line handler) result kernel.new }
    ensures share { kernel.new.kernel.claims.share ≡ kernel.old.kernel.claims.share }
    ensures undone { kernel.new.undone ≡ kernel.old.undone }
    ensures stopped { IsStop result (kernel.new ≡ kernel.old) }
{
    made(kernel, owner, Update::Line { line, handler })
}

/// `free_line(l)`: the caller's line is given back.
pub fn free_line(kernel: &mut Tracked, owner: u8, line: i32) -> CallOut
    requires driver { 0 < owner }
    requires owner { owner ≤ 4 }
    ensures serves { ServesRow kernel.old owner (λ share h. row.free_line h owner line) result kernel.new }
    ensures share { kernel.new.kernel.claims.share ≡ kernel.old.kernel.claims.share }
    ensures undone { kernel.new.undone ≡ kernel.old.undone }
    ensures stopped { IsStop result (kernel.new ≡ kernel.old) }
{
    made(kernel, owner, Update::FreeLine { line })
}

/// `request_ports(b, n)`: the n ports from b are the caller's.
pub fn request_ports(kernel: &mut Tracked, owner: u8, base: i32, n: i32) -> CallOut
    requires driver { 0 < owner }
    requires owner { owner ≤ 4 }
    ensures serves { ServesRow kernel.old owner (λ share h. row.request_ports h owner base n) result kernel.new }
    ensures share { kernel.new.kernel.claims.share ≡ kernel.old.kernel.claims.share }
    ensures undone { kernel.new.undone ≡ kernel.old.undone }
    ensures stopped { IsStop result (kernel.new ≡ kernel.old) }
{
    made(kernel, owner, Update::Ports { base, n })
}

/// `release_ports(b, n)`: the caller's range is given back.
pub fn release_ports(kernel: &mut Tracked, owner: u8, base: i32, n: i32) -> CallOut
    requires driver { 0 < owner }
    requires owner { owner ≤ 4 }
    ensures serves { ServesRow kernel.old owner (λ share h. row.release_ports h owner base n) result kernel.new }
    ensures share { kernel.new.kernel.claims.share ≡ kernel.old.kernel.claims.share }
    ensures undone { kernel.new.undone ≡ kernel.old.undone }
    ensures stopped { IsStop result (kernel.new ≡ kernel.old) }
{
    made(kernel, owner, Update::DropPorts { base, n })
}

/// `add_device(i)`: the device is the caller's.
pub fn add_device(kernel: &mut Tracked, owner: u8, id: i32) -> CallOut
    requires driver { 0 < owner }
    requires owner { owner ≤ 4 }
    ensures serves { ServesRow kernel.old owner (λ share h. row.add_device h owner id) result kernel.new }
    ensures share { kernel.new.kernel.claims.share ≡ kernel.old.kernel.claims.share }
    ensures undone { kernel.new.undone ≡ kernel.old.undone }
    ensures stopped { IsStop result (kernel.new ≡ kernel.old) }
{
    made(kernel, owner, Update::Device { id })
}

/// `del_device(i)`: the caller's device is given back.
pub fn del_device(kernel: &mut Tracked, owner: u8, id: i32) -> CallOut
    requires driver { 0 < owner }
    requires owner { owner ≤ 4 }
    ensures serves { ServesRow kernel.old owner (λ share h. row.del_device h owner id) result kernel.new }
    ensures share { kernel.new.kernel.claims.share ≡ kernel.old.kernel.claims.share }
    ensures undone { kernel.new.undone ≡ kernel.old.undone }
    ensures stopped { IsStop result (kernel.new ≡ kernel.old) }
{
    made(kernel, owner, Update::DelDevice { id })
}

/// `set_param(k, v)`: the caller's value of the parameter is v.
pub fn set_param(kernel: &mut Tracked, owner: u8, key: i32, value: i32) -> CallOut
    requires driver { 0 < owner }
    requires owner { owner ≤ 4 }
    ensures serves { ServesRow kernel.old owner (λ share h. row.set_param h owner key value) result kernel.new }
    ensures share { kernel.new.kernel.claims.share ≡ kernel.old.kernel.claims.share }
    ensures undone { kernel.new.undone ≡ kernel.old.undone }
    ensures stopped { IsStop result (kernel.new ≡ kernel.old) }
{
    made(kernel, owner, Update::Param { key, value })
}

/// `clear_param(k)`: the caller's value of the parameter is taken away.
pub fn clear_param(kernel: &mut Tracked, owner: u8, key: i32) -> CallOut
    requires driver { 0 < owner }
    requires owner { owner ≤ 4 }
    ensures serves { ServesRow kernel.old owner (λ share h. row.clear_param h owner key) result kernel.new }
    ensures share { kernel.new.kernel.claims.share ≡ kernel.old.kernel.claims.share }
    ensures undone { kernel.new.undone ≡ kernel.old.undone }
    ensures stopped { IsStop result (kernel.new ≡ kernel.old) }
{
    made(kernel, owner, Update::ClearParam { key })
}

/// The value of a parameter that was set last of those that are live, or 0.
fn latest(kernel: &Tracked, key: i32) -> i32
    ensures { OfEachHistory kernel.now (λ h. result ≡ row.first_or_zero (values_of h key)) }
{
    kernel.kernel().claims.get_param(key).unwrap_or(0)
}

/// `get_param(k)`: the value that was set last of those that are live, or 0.
pub fn get_param(kernel: &Tracked, key: i32) -> CallOut
    ensures { ReadsRow kernel.now (λ h. row.get_param h key) result }
{
    let Some(_number) = number_below(key, PARAMETER_NUMBERS) else {
        return CallOut::Reply(BAD);
    };
    CallOut::Reply(latest(kernel, key))
}
