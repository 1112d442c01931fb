//! Calls that read and write ports.
ghost use Rattle.std.specs.Prelude.{◌≡◌};
ghost use Rattle.device_model.specs.Scripted.{answers_of, oldest_or_zero, without_oldest};
ghost use Rattle.sd_base.specs.Numbers.{number_of};
ghost use Rattle.wrappers.specs.Rows as row;
ghost use Rattle.wrappers.specs.Serving.{ReadsRow, ReadsPort, TakesAnswer, IsStop};

use crate::{CallOut, Saying};
use device_model::Devices;
use sd_base::FailKind;
use update_tracker::Tracked;

/// The number of a port, from 0 to 65,535.
fn port_number(port: i32) -> Option<u16>
    ensures { result ≡ number_of 65536 port }
{
    if port < 0 || port > 65_535 {
        return None;
    }
    Some(port as u16)
}

/// The number of a port, where the owner holds it.
fn held_port(kernel: &Tracked, owner: u8, port: i32) -> Option<u16>
    ensures { ReadsPort kernel.now owner port result }
{
    if !kernel.kernel().claims.has_port(owner, port) {
        return None;
    }
    port_number(port)
}

/// The oldest answer of a port, which is taken, or 0 where it has none.
fn oldest(devices: &mut Devices, port: u16) -> i32
    ensures value { result ≡ oldest_or_zero (answers_of devices.old port) }
    ensures taken { devices.new ≡ without_oldest port devices.old }
{
    devices.port_in(port)
}

/// `port_in(p)`: the oldest answer of the caller's port, which is taken, or 0.
pub fn port_in(kernel: &Tracked, devices: &mut Devices, owner: u8, port: i32) -> CallOut
    ensures reads { ReadsRow kernel.now (λ h. row.port_in h devices.old owner port) result }
    ensures devices { TakesAnswer kernel.now (λ h. row.port_of h owner port) devices.old devices.new }
    ensures stopped { IsStop result (devices.new ≡ devices.old) }
{
    match held_port(kernel, owner, port) {
        None => CallOut::Fail(FailKind::Port),
        Some(number) => CallOut::Reply(oldest(devices, number)),
    }
}

/// `port_out(p, v)`: what is written to the caller's port is printed.
pub fn port_out(kernel: &Tracked, devices: &mut Devices, owner: u8, port: i32, v: i32) -> CallOut
    ensures reads { ReadsRow kernel.now (λ h. row.port_out h owner port v) result }
    ensures devices { devices.new ≡ devices.old }
{
    match held_port(kernel, owner, port) {
        None => CallOut::Fail(FailKind::Port),
        Some(number) => {
            devices.port_out(number, v);
            CallOut::Said(Saying::Out(number, v))
        }
    }
}
