//! What the tracker's answer to an update comes to, where it is a number that the driver gets.
ghost use Rattle.std.specs.Prelude.{◌≡◌, true};
ghost use Rattle.sd_base.specs.Allowed.{is_proper, refusal};
ghost use Rattle.wrappers.specs.Serving.{IsStop, ServesRow};
ghost use Rattle.wrappers.specs.Replies.{number_for, by_refusal};

use crate::CallOut;
use sd_base::{Refusal, Update};
use update_tracker::{Reply, Tracked};

/// -22, the number of `EINVAL` in Linux: a number is out of range, or the caller has not what it names.
pub const BAD: i32 = -22;
/// -16, the number of `EBUSY` in Linux: it is held.
const BUSY: i32 = -16;
/// -28, the number of `ENOSPC` in Linux: the caller has as many as it may have.
const FULL: i32 = -28;

/// The number of a refusal. Those that are not answered by a number of their own count as bad.
fn number_of(refusal: Refusal) -> i32
    ensures { result ≡ number_for refusal }
{
    match refusal {
        Refusal::Busy => BUSY,
        Refusal::Full => FULL,
        _ => BAD,
    }
}

/// Makes an owner's update, and gives the number of its refusal, or 0.
pub fn made(kernel: &mut Tracked, owner: u8, update: Update) -> CallOut
    requires { is_proper owner update ≡ true }
    ensures serves { ServesRow kernel.old owner (λ share h. by_refusal update (refusal share h owner update)) result kernel.new }
    ensures share { kernel.new.kernel.claims.share ≡ kernel.old.kernel.claims.share }
    ensures undone { kernel.new.undone ≡ kernel.old.undone }
    ensures stopped { IsStop result (kernel.new ≡ kernel.old) }
{
    match kernel.update(owner, update) {
        Ok(_) => CallOut::Reply(0),
        Err(refusal) => CallOut::Reply(number_of(refusal)),
    }
}
