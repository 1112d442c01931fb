//! Calls by which a task holds interrupts off, and lets them in again.
ghost use Rattle.std.specs.Prelude.{◌≡◌, ◌<◌, ◌≤◌};
ghost use Rattle.wrappers.specs.Rows as row;
ghost use Rattle.wrappers.specs.Serving.{ServesRow, IsStop};

use crate::CallOut;
use sd_base::{FailKind, Update, Who};
use update_tracker::Tracked;

/// `mask()`, of a task: the activity holds interrupts off.
pub fn mask(kernel: &mut Tracked, who: Who) -> CallOut
    requires driver { 0 < who.owner }
    requires owner { who.owner ≤ 4 }
    requires task { who.task ≤ 8 }
    ensures serves { ServesRow kernel.old who.owner (λ share h. row.mask h who) result kernel.new }
    ensures share { kernel.new.kernel.claims.share ≡ kernel.old.kernel.claims.share }
    ensures undone { kernel.new.undone ≡ kernel.old.undone }
    ensures stopped { IsStop result (kernel.new ≡ kernel.old) }
{
    match kernel.update(who.owner, Update::Mask { task: who.task }) {
        Ok(_) => CallOut::Reply(0),
        Err(_) => CallOut::Fail(FailKind::Relock),
    }
}

/// `unmask()`, of a task: the activity lets interrupts in again.
pub fn unmask(kernel: &mut Tracked, who: Who) -> CallOut
    requires driver { 0 < who.owner }
    requires owner { who.owner ≤ 4 }
    requires task { who.task ≤ 8 }
    ensures serves { ServesRow kernel.old who.owner (λ share h. row.unmask h who) result kernel.new }
    ensures share { kernel.new.kernel.claims.share ≡ kernel.old.kernel.claims.share }
    ensures undone { kernel.new.undone ≡ kernel.old.undone }
    ensures stopped { IsStop result (kernel.new ≡ kernel.old) }
{
    match kernel.update(who.owner, Update::Unmask { task: who.task }) {
        Ok(_) => CallOut::Reply(0),
        Err(_) => CallOut::Fail(FailKind::Unheld),
    }
}
