//! Calls that hold power domains and that queue work.
ghost use Rattle.std.specs.Prelude.{◌≡◌, ◌<◌, ◌≤◌};
ghost use Rattle.wrappers.specs.Rows as row;
ghost use Rattle.wrappers.specs.Serving.{IsStop, ServesRow};

use crate::CallOut;
use crate::replies::made;
use sd_base::Update;
use update_tracker::Tracked;

/// `hold(d)`: one more hold of the caller on the domain.
pub fn hold(kernel: &mut Tracked, owner: u8, domain: i32) -> CallOut
    requires driver { 0 < owner }
    requires owner { owner ≤ 4 }
    ensures serves { ServesRow kernel.old owner (λ share h. row.hold h owner domain) result kernel.new }
    ensures share { kernel.new.kernel.claims.share ≡ kernel.old.kernel.claims.share }
    ensures undone { kernel.new.undone ≡ kernel.old.undone }
    ensures stopped { IsStop result (kernel.new ≡ kernel.old) }
{
    made(kernel, owner, Update::Hold { domain })
}

/// `drop_hold(d)`: the caller's latest hold on the domain is let go.
pub fn drop_hold(kernel: &mut Tracked, owner: u8, domain: i32) -> CallOut
    requires driver { 0 < owner }
    requires owner { owner ≤ 4 }
    ensures serves { ServesRow kernel.old owner (λ share h. row.drop_hold h owner domain) result kernel.new }
    ensures share { kernel.new.kernel.claims.share ≡ kernel.old.kernel.claims.share }
    ensures undone { kernel.new.undone ≡ kernel.old.undone }
    ensures stopped { IsStop result (kernel.new ≡ kernel.old) }
{
    made(kernel, owner, Update::DropHold { domain })
}

/// `queue_work(h, a)`: the handler is to run with this argument.
pub fn queue_work(kernel: &mut Tracked, owner: u8, handler: u32, arg: i32) -> CallOut
    requires driver { 0 < owner }
    requires owner { owner ≤ 4 }
    ensures serves { ServesRow kernel.old owner (λ share h. row.queue_work h owner handler arg) result kernel.new }
    ensures share { kernel.new.kernel.claims.share ≡ kernel.old.kernel.claims.share }
    ensures undone { kernel.new.undone ≡ kernel.old.undone }
    ensures stopped { IsStop result (kernel.new ≡ kernel.old) }
{
    made(kernel, owner, Update::Work { handler, arg })
}
