//! What the answers of the tables come to, as answers to updates.
ghost use Rattle.std.specs.Prelude.{◌≡◌, cond, Some, None};
ghost use Rattle.sd_base.specs.declared.history.Refusal.TheVariants.{Busy, Unheld as NotHeld};
ghost use Rattle.claim_table.specs.ClaimPart.{refused_as};
ghost use Rattle.grant_table.specs.GrantPart.{not_released};
ghost use Rattle.share_table.specs.Answers.{refusal_of_share};
ghost use Rattle.share_table.specs.Locks.{refusal_of_lock, refusal_of_unlock};
ghost use Rattle.timer_table.specs.Table.{refusal_of};
ghost use Rattle.update_tracker.specs.declared.undo.Reply.TheVariants.{Done as IsDone};
ghost use Rattle.update_tracker.specs.Answered.{unless, based};

use crate::undo::Reply;
use claim_table::ClaimRefusal;
use grant_table::ReleaseRefusal;
use sd_base::Refusal;
use share_table::{LockOut, ShareRefusal, UnlockOut};
use timer_table::TimerRefusal;

/// Of a grant: the block's base, or that there is no room.
pub fn of_grant(answer: Option<u32>) -> Result<Reply, Refusal>
    ensures { result ≡ based answer }
{
    match answer {
        Some(base) => Ok(Reply::Base(base)),
        None => Err(Refusal::NoRoom),
    }
}

/// Of a release.
pub fn of_release(answer: Result<(), ReleaseRefusal>) -> Result<Reply, Refusal>
    ensures { result ≡ unless (not_released answer) IsDone }
{
    match answer {
        Ok(()) => Ok(Reply::Done),
        Err(ReleaseRefusal::NotBlock) => Err(Refusal::NotBlock),
        Err(ReleaseRefusal::Freed) => Err(Refusal::Freed),
    }
}

/// Of a claim, or of what gives one back.
pub fn of_claim(answer: Result<(), ClaimRefusal>) -> Result<Reply, Refusal>
    ensures { result ≡ unless (refused_as answer) IsDone }
{
    match answer {
        Ok(()) => Ok(Reply::Done),
        Err(ClaimRefusal::Busy) => Err(Refusal::Busy),
        Err(ClaimRefusal::Bad) => Err(Refusal::Bad),
        Err(ClaimRefusal::Full) => Err(Refusal::Full),
    }
}

/// Of a timer that is set or goes.
pub fn of_timer(answer: Result<(), TimerRefusal>) -> Result<Reply, Refusal>
    ensures { result ≡ unless (refusal_of answer) IsDone }
{
    match answer {
        Ok(()) => Ok(Reply::Done),
        Err(TimerRefusal::Bad) => Err(Refusal::Bad),
        Err(TimerRefusal::Full) => Err(Refusal::Full),
    }
}

/// Of a hold that comes or goes, or of an item of work.
pub fn of_share(answer: Result<(), ShareRefusal>) -> Result<Reply, Refusal>
    ensures { result ≡ unless (refusal_of_share answer) IsDone }
{
    match answer {
        Ok(()) => Ok(Reply::Done),
        Err(ShareRefusal::Bad) => Err(Refusal::Bad),
        Err(ShareRefusal::Full) => Err(Refusal::Full),
    }
}

/// Of a try to take a lock.
pub fn of_lock(answer: LockOut) -> Result<Reply, Refusal>
    ensures { result ≡ unless (refusal_of_lock answer) IsDone }
{
    match answer {
        LockOut::Locked => Ok(Reply::Done),
        LockOut::HeldBy(who) => Err(Refusal::HeldBy(who)),
        LockOut::Bad => Err(Refusal::Bad),
    }
}

/// Of a try to let go of a lock.
pub fn of_unlock(answer: UnlockOut) -> Result<Reply, Refusal>
    ensures { result ≡ unless (refusal_of_unlock answer) IsDone }
{
    match answer {
        UnlockOut::Ok => Ok(Reply::Done),
        UnlockOut::Unheld => Err(Refusal::Unheld),
        UnlockOut::Bad => Err(Refusal::Bad),
    }
}

/// Of a mask, which is false where the activity holds it already.
pub fn of_mask(answer: bool) -> Result<Reply, Refusal>
    ensures { result ≡ unless (cond answer None (Some Busy)) IsDone }
{
    if answer {
        Ok(Reply::Done)
    } else {
        Err(Refusal::Busy)
    }
}

/// Of an unmask, which is false where the activity does not hold the mask.
pub fn of_unmask(answer: bool) -> Result<Reply, Refusal>
    ensures { result ≡ unless (cond answer None (Some NotHeld)) IsDone }
{
    if answer {
        Ok(Reply::Done)
    } else {
        Err(Refusal::Unheld)
    }
}
