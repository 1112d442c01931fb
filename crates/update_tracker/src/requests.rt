//! Each update, asked of its table.
ghost use Rattle.std.specs.Prelude.{◌≡◌, ◌≤◌, true, OnErr};
ghost use Rattle.sd_base.specs.declared.history.Update.TheVariants.{Taken, Clock};
ghost use Rattle.sd_base.specs.Allowed.{is_proper};
ghost use Rattle.sd_base.specs.Part.{Serves};
ghost use Rattle.share_table.specs.Table.{HoldsShares};
ghost use Rattle.update_tracker.specs.declared.undo.Reply.TheVariants.{Done as IsDone};
ghost use Rattle.update_tracker.specs.Answered.{unless, refused, ServesKernel};

use crate::answers::{
    of_claim, of_grant, of_lock, of_mask, of_release, of_share, of_timer, of_unlock, of_unmask,
};
use crate::undo::Reply;
use kernel_tables::Kernel;
use sd_base::{Refusal, Update, Who};
use share_table::Shares;

/// Takes the front of the queue, where it is the owner's.
fn take(shares: &mut Shares, owner: u8) -> Result<Reply, Refusal>
    ensures serves { Serves HoldsShares shares.old owner Taken (refused result) shares.new }
    ensures done { result ≡ unless (refused result) IsDone }
    ensures err { OnErr result (shares.new ≡ shares.old) }
{
    let Some(work) = shares.front() else {
        return Err(Refusal::Bad);
    };
    if work.owner != owner {
        return Err(Refusal::Bad);
    }
    let _ = shares.take_work();
    Ok(Reply::Done)
}

/// Sets the clock, which does not go back.
fn set_clock(kernel: &mut Kernel, owner: u8, now: u32) -> Result<Reply, Refusal>
    ensures serves { ServesKernel kernel.old owner (Clock now) result kernel.new }
    ensures share { kernel.new.claims.share ≡ kernel.old.claims.share }
    ensures err { OnErr result (kernel.new ≡ kernel.old) }
{
    if now < kernel.now {
        return Err(Refusal::Bad);
    }
    kernel.now = now;
    Ok(Reply::Done)
}

/// Asks an owner's update of the kernel. What is refused changes nothing.
pub fn ask(kernel: &mut Kernel, owner: u8, update: Update) -> Result<Reply, Refusal>
    requires owner { owner ≤ 4 }
    requires proper { is_proper owner update ≡ true }
    ensures serves { ServesKernel kernel.old owner update result kernel.new }
    ensures share { kernel.new.claims.share ≡ kernel.old.claims.share }
    ensures err { OnErr result (kernel.new ≡ kernel.old) }
{
    match update {
        Update::Grant { layout, n, image } => {
            of_grant(kernel.grants.grant(owner, layout, n, image))
        }
        Update::Free { base } => of_release(kernel.grants.release(owner, base)),
        Update::Line { line, handler } => of_claim(kernel.claims.claim_line(owner, line, handler)),
        Update::FreeLine { line } => of_claim(kernel.claims.free_line(owner, line)),
        Update::Ports { base, n } => of_claim(kernel.claims.claim_ports(owner, base, n)),
        Update::DropPorts { base, n } => of_claim(kernel.claims.drop_ports(owner, base, n)),
        Update::Device { id } => of_claim(kernel.claims.add_device(owner, id)),
        Update::DelDevice { id } => of_claim(kernel.claims.del_device(owner, id)),
        Update::Param { key, value } => of_claim(kernel.claims.set_param(owner, key, value)),
        Update::ClearParam { key } => of_claim(kernel.claims.clear_param(owner, key)),
        Update::Timer {
            id,
            due,
            handler,
            arg,
        } => of_timer(kernel.timers.set_timer(owner, id, due, handler, arg)),
        Update::DelTimer { id } => of_timer(kernel.timers.del_timer(owner, id)),
        Update::Fired { id } => of_timer(kernel.timers.del_timer(owner, id)),
        Update::Lock { lock, task } => of_lock(kernel.shares.lock(Who { owner, task }, lock)),
        Update::Unlock { lock, task } => of_unlock(kernel.shares.unlock(Who { owner, task }, lock)),
        Update::Hold { domain } => of_share(kernel.shares.hold(owner, domain)),
        Update::DropHold { domain } => of_share(kernel.shares.drop_hold(owner, domain)),
        Update::Work { handler, arg } => of_share(kernel.shares.queue_work(owner, handler, arg)),
        Update::Taken => take(&mut kernel.shares, owner),
        Update::Mask { task } => of_mask(kernel.shares.mask(Who { owner, task })),
        Update::Unmask { task } => of_unmask(kernel.shares.unmask(Who { owner, task })),
        Update::Clock { now } => set_clock(kernel, owner, now),
    }
}
