//! Calls that read the clock and that set timers.
ghost use Rattle.std.specs.Prelude.{◌≡◌, ◌+◌, ◌<◌, ◌≤◌, nat_abs, true};
ghost use Rattle.wrappers.specs.Rows as row;
ghost use Rattle.wrappers.specs.Serving.{IsStop, ReadsRow, ServesRow};

use crate::CallOut;
use crate::replies::{BAD, made};
use sd_base::Update;
use update_tracker::Tracked;

/// The greatest distance at which a timer is set.
const FARTHEST: i32 = 1_000_000;

/// Whether a timer may be set at this distance.
fn is_distance(distance: i32) -> bool
    ensures { result ≡ row.is_distance distance }
{
    1 <= distance && distance <= FARTHEST
}

/// The moment at this distance from the clock.
fn due_at(now: u32, distance: i32) -> u32
    requires now { now ≤ 2000000000 }
    requires distance { row.is_distance distance ≡ true }
    ensures { result ≡ now + nat_abs distance }
{
    now + distance.unsigned_abs()
}

/// `set_timer(i, d, h, a)`: at the clock plus d the handler is to run with this argument.
pub fn set_timer(
    kernel: &mut Tracked,
    owner: u8,
    id: i32,
    distance: i32,
    handler: u32,
    arg: i32,
) -> CallOut
    requires driver { 0 < owner }
    requires owner { owner ≤ 4 }
    requires clock { kernel.old.kernel.now ≤ 2000000000 }
    ensures serves { ServesRow kernel.old owner (λ share h. row.set_timer h owner id distance handler arg) result kernel.new }
    ensures share { kernel.new.kernel.claims.share ≡ kernel.old.kernel.claims.share }
    ensures undone { kernel.new.undone ≡ kernel.old.undone }
    ensures stopped { IsStop result (kernel.new ≡ kernel.old) }
{
    if !is_distance(distance) {
        return CallOut::Reply(BAD);
    }
    let due = due_at(kernel.kernel().now, distance);
    made(
        kernel,
        owner,
        Update::Timer {
            id,
            due,
            handler,
            arg,
        },
    )
}

/// `del_timer(i)`: the caller's timer is stopped.
pub fn del_timer(kernel: &mut Tracked, owner: u8, id: i32) -> CallOut
    requires driver { 0 < owner }
    requires owner { owner ≤ 4 }
    ensures serves { ServesRow kernel.old owner (λ share h. row.del_timer h owner id) result kernel.new }
    ensures share { kernel.new.kernel.claims.share ≡ kernel.old.kernel.claims.share }
    ensures undone { kernel.new.undone ≡ kernel.old.undone }
    ensures stopped { IsStop result (kernel.new ≡ kernel.old) }
{
    made(kernel, owner, Update::DelTimer { id })
}

/// `now()`: the clock.
pub fn now(kernel: &Tracked) -> CallOut
    requires { kernel.now.kernel.now ≤ 2000000000 }
    ensures { ReadsRow kernel.now (λ h. row.now h) result }
{
    CallOut::Reply(kernel.kernel().now as i32)
}
