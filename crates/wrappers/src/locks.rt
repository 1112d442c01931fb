//! Calls that take locks and let go of them.
ghost use Rattle.std.specs.Prelude.{◌≡◌, ◌<◌, ◌≤◌};
ghost use Rattle.wrappers.specs.Replies as replies;
ghost use Rattle.wrappers.specs.Rows as row;
ghost use Rattle.wrappers.specs.Serving.{ServesRow, IsStop};

use crate::CallOut;
use sd_base::limits::LOCKS;
use sd_base::{FailKind, Refusal, Update, Who, number_below};
use update_tracker::Tracked;

/// The locks, numbered from 0.
const LOCK_NUMBERS: u16 = LOCKS as u16;

/// What a caller of `lock` meets at a lock that this activity holds.
fn held(who: Who, lock: i32, holder: Who) -> CallOut
    ensures { result ≡ row.held who lock holder }
{
    if holder == who {
        CallOut::Fail(FailKind::Relock)
    } else {
        CallOut::Blocked(lock)
    }
}

/// What a refusal to take a lock comes to.
fn not_taken(who: Who, lock: i32, refusal: Refusal) -> CallOut
    ensures { result ≡ replies.not_taken who lock refusal }
{
    match refusal {
        Refusal::HeldBy(holder) => held(who, lock, holder),
        _ => CallOut::Fail(FailKind::Lock),
    }
}

/// What a refusal to let go of a lock comes to.
fn not_let_go(refusal: Refusal) -> CallOut
    ensures { result ≡ replies.not_let_go refusal }
{
    match refusal {
        Refusal::Unheld => CallOut::Fail(FailKind::Unheld),
        _ => CallOut::Fail(FailKind::Lock),
    }
}

/// `lock(k)`, of a task: the activity takes the lock, or waits where another holds it.
pub fn lock(kernel: &mut Tracked, who: Who, lock: i32) -> CallOut
    requires driver { 0 < who.owner }
    requires owner { who.owner ≤ 4 }
    requires task { who.task ≤ 8 }
    ensures serves { ServesRow kernel.old who.owner (λ share h. row.lock h who lock) result kernel.new }
    ensures share { kernel.new.kernel.claims.share ≡ kernel.old.kernel.claims.share }
    ensures undone { kernel.new.undone ≡ kernel.old.undone }
    ensures stopped { IsStop result (kernel.new ≡ kernel.old) }
{
    let Some(_number) = number_below(lock, LOCK_NUMBERS) else {
        return CallOut::Fail(FailKind::Lock);
    };
    if kernel.kernel().shares.holds_mask(who) {
        return CallOut::Fail(FailKind::Masked);
    }
    match kernel.update(
        who.owner,
        Update::Lock {
            lock,
            task: who.task,
        },
    ) {
        Ok(_) => CallOut::Reply(0),
        Err(refusal) => not_taken(who, lock, refusal),
    }
}

/// `unlock(k)`, of a task: the activity lets go of the lock.
pub fn unlock(kernel: &mut Tracked, who: Who, lock: i32) -> CallOut
    requires driver { 0 < who.owner }
    requires owner { who.owner ≤ 4 }
    requires task { who.task ≤ 8 }
    ensures serves { ServesRow kernel.old who.owner (λ share h. row.unlock h who lock) result kernel.new }
    ensures share { kernel.new.kernel.claims.share ≡ kernel.old.kernel.claims.share }
    ensures undone { kernel.new.undone ≡ kernel.old.undone }
    ensures stopped { IsStop result (kernel.new ≡ kernel.old) }
{
    match kernel.update(
        who.owner,
        Update::Unlock {
            lock,
            task: who.task,
        },
    ) {
        Ok(_) => CallOut::Reply(0),
        Err(refusal) => not_let_go(refusal),
    }
}
