//! The table of what activities share.
ghost use Rattle.std.specs.Prelude.{◌≡◌, ◌+◌, ◌<◌, ◌≤◌, ◌≢◌, [], true, false, cond, length, slice_get, count_by, IfOk, OnErr, None, Some, List};
ghost use Rattle.std.specs.List.{list_any, find};
ghost use Rattle.sd_base.specs.declared.history.Refusal.TheVariants.{Busy, Unheld as NotHeld};
ghost use Rattle.sd_base.specs.declared.history.Update.TheVariants.{Lock, Unlock, Hold, DropHold, Mask, Unmask, Work as Queues};
ghost use Rattle.sd_base.specs.History.{lock_key, mask_key, hold_key, work_key, has_key, is_of, live_of};
ghost use Rattle.sd_base.specs.Allowed.{is_lock, is_proper};
ghost use Rattle.sd_base.specs.Part.{Serves, Loses};
ghost use Rattle.share_table.specs.Answers.{refusal_of_share};
ghost use Rattle.share_table.specs.Locks.{lock_at, holder_of, refusal_of_lock, refusal_of_unlock, has_holder, takes_lock};
ghost use Rattle.share_table.specs.Masks.{mask_at, any_held, is_mask};
ghost use Rattle.share_table.specs.Holds.{holds_at, held_by_all};
ghost use Rattle.share_table.specs.Queue.{is_owned};
ghost use Rattle.share_table.specs.Table.{HoldsShares, TakesFront, OfEachHistory, queue_of};

use crate::answers::{LockOut, ShareRefusal, UnlockOut};
use crate::holds::Holds;
use crate::locks::Locks;
use crate::masks::Masks;
use crate::queue::{Queue, Work};
use sd_base::{Memory, Steps, Who};
use std::alloc::Global;
use std::marker::Model;
use std::sync::ledger::Ledger;

/// Locks, masks, power holds and queued work of all owners.
#[derive(Drop)]
pub struct Shares {
    locks: Locks,
    masks: Masks,
    holds: Holds,
    work: Queue,
}

impl Model for Shares {
    ghost use Rattle.share_table.specs.Rows.{ShareRows};

    ghost Value = { ShareRows };

    ghost view = { λ s. record { locks = s.locks; masks = s.masks; holds = s.holds; work = s.work } };
}

impl Shares {
    /// Nothing is held and nothing waits.
    pub fn new(alloc: Global) -> Result<Shares, Memory>
        ensures { IfOk result (λ shares. HoldsShares shares []) }
    {
        Ok(Shares {
            locks: Locks::new(),
            masks: Masks::new(),
            holds: Holds::new(),
            work: Queue::new(alloc)?,
        })
    }

    /// Takes a lock for an activity, where no activity holds it.
    pub fn lock(&mut self, who: Who, k: i32) -> LockOut
        requires { is_proper who.owner (Lock k who.task) ≡ true }
        ensures serves { Serves HoldsShares self.old who.owner (Lock k who.task) (refusal_of_lock result) self.new }
        ensures kept { refusal_of_lock result ≢ None → self.new ≡ self.old }
    {
        self.locks.lock(who, k)
    }

    /// Lets go of a lock that the activity holds.
    pub fn unlock(&mut self, who: Who, k: i32) -> UnlockOut
        requires { is_proper who.owner (Unlock k who.task) ≡ true }
        ensures serves { Serves HoldsShares self.old who.owner (Unlock k who.task) (refusal_of_unlock result) self.new }
        ensures kept { refusal_of_unlock result ≢ None → self.new ≡ self.old }
    {
        self.locks.unlock(who, k)
    }

    /// One more hold of an owner on a power domain. `Bad` where there is no such domain; `Full` where the owner has 8 on it.
    pub fn hold(&mut self, owner: u8, domain: i32) -> Result<(), ShareRefusal>
        requires { owner ≤ 4 }
        ensures serves { Serves HoldsShares self.old owner (Hold domain) (refusal_of_share result) self.new }
        ensures err { OnErr result (self.new ≡ self.old) }
    {
        self.holds.hold(owner, domain)
    }

    /// Lets an owner's latest hold on a domain go. `Bad` where it has none.
    pub fn drop_hold(&mut self, owner: u8, domain: i32) -> Result<(), ShareRefusal>
        requires { owner ≤ 4 }
        ensures serves { Serves HoldsShares self.old owner (DropHold domain) (refusal_of_share result) self.new }
        ensures err { OnErr result (self.new ≡ self.old) }
    {
        self.holds.drop_hold(owner, domain)
    }

    /// Puts an item at the end of the queue. `Full` where the owner has 64 in it.
    pub fn queue_work(&mut self, owner: u8, handler: u32, arg: i32) -> Result<(), ShareRefusal>
        requires driver { 0 < owner }
        requires owner { owner ≤ 4 }
        ensures serves { Serves HoldsShares self.old owner (Queues handler arg) (refusal_of_share result) self.new }
        ensures err { OnErr result (self.new ≡ self.old) }
    {
        self.work.put(Work {
            owner,
            handler,
            arg,
        })
    }

    /// Takes the front of the queue. None where it is empty.
    pub fn take_work(&mut self) -> Option<Work>
        ensures { TakesFront self.old result self.new }
    {
        self.work.take()
    }

    /// Holds interrupts off for an activity; false where it does so already.
    pub fn mask(&mut self, who: Who) -> bool
        requires { is_proper who.owner (Mask who.task) ≡ true }
        ensures serves { Serves HoldsShares self.old who.owner (Mask who.task) (cond result None (Some Busy)) self.new }
        ensures kept { result ≡ false → self.new ≡ self.old }
    {
        self.masks.mask(who)
    }

    /// Lets interrupts in again for an activity; false where it does not hold them off.
    pub fn unmask(&mut self, who: Who) -> bool
        requires { is_proper who.owner (Unmask who.task) ≡ true }
        ensures serves { Serves HoldsShares self.old who.owner (Unmask who.task) (cond result None (Some NotHeld)) self.new }
        ensures kept { result ≡ false → self.new ≡ self.old }
    {
        self.masks.unmask(who)
    }

    /// Whether any activity holds interrupts off.
    pub fn masked(&self) -> bool
        ensures value { result ≡ any_held self.now.masks }
        ensures reads { OfEachHistory self.now (λ h. result ≡ list_any is_mask (live_of h)) }
    {
        self.masks.any()
    }

    /// The activity that holds a lock. None where nobody does, or there is no such lock.
    pub fn lock_holder(&self, k: i32) -> Option<Who>
        ensures value { result ≡ lock_at self.now.locks k }
        ensures reads { OfEachHistory self.now (λ h. result ≡ holder_of (find (is_lock k) (live_of h))) }
    {
        self.locks.holder(k)
    }

    /// Whether the activity holds any lock.
    pub fn holds_lock(&self, who: Who) -> bool
        ensures value { result ≡ has_holder who self.now.locks }
        ensures reads { OfEachHistory self.now (λ h. result ≡ list_any (takes_lock who) (live_of h)) }
    {
        self.locks.any_of(who)
    }

    /// Whether the activity holds interrupts off.
    pub fn holds_mask(&self, who: Who) -> bool
        requires owner { who.owner ≤ 4 }
        requires task { who.task ≤ 8 }
        ensures value { result ≡ mask_at self.now.masks who.owner who.task }
        ensures reads { OfEachHistory self.now (λ h. result ≡ list_any (is_of who.owner (mask_key who.task)) (live_of h)) }
    {
        self.masks.holds(who)
    }

    /// The holds of all owners on a domain, 0 where there is no such domain.
    pub fn domain_holds(&self, domain: i32) -> u32
        ensures value { result ≡ held_by_all self.now.holds domain }
        ensures reads { OfEachHistory self.now (λ h. result ≡ count_by (has_key (hold_key domain)) (live_of h)) }
    {
        self.holds.held(domain)
    }

    /// The front of the queue. None where it is empty.
    pub fn front(&self) -> Option<Work>
        ensures value { result ≡ slice_get self.now.work 0 }
        ensures reads { OfEachHistory self.now (λ h. result ≡ slice_get (queue_of h) 0) }
    {
        self.work.get(0)
    }

    /// The item of the queue at this place, counted from 0 at the front. None past the last.
    pub fn queued(&self, place: u32) -> Option<Work>
        ensures { result ≡ slice_get self.now.work place }
    {
        self.work.get(place as usize)
    }

    /// How many items wait in the queue.
    pub fn waiting(&self) -> u32
        ensures { result ≡ length self.now.work }
    {
        self.work.len() as u32
    }

    /// Takes away what an activity's taking of a lock put here.
    pub fn remove_lock<L: Ledger>(&mut self, who: Who, k: i32, steps: &mut Steps<L>)
        requires { lock_at self.old.locks k ≡ Some who }
        ensures removed { Loses HoldsShares self.old who.owner (lock_key k who.task) self.new }
        ensures steps { steps.new ≡ steps.old + 1 }
    {
        self.locks.remove(who, k);
        steps.tick();
    }

    /// Takes away what an activity's mask put here.
    pub fn remove_mask<L: Ledger>(&mut self, who: Who, steps: &mut Steps<L>)
        requires owner { who.owner ≤ 4 }
        requires task { who.task ≤ 8 }
        requires held { mask_at self.old.masks who.owner who.task ≡ true }
        ensures removed { Loses HoldsShares self.old who.owner (mask_key who.task) self.new }
        ensures steps { steps.new ≡ steps.old + 1 }
    {
        self.masks.remove(who);
        steps.tick();
    }

    /// Takes away what one hold of an owner put here.
    pub fn remove_hold<L: Ledger>(&mut self, owner: u8, domain: i32, steps: &mut Steps<L>)
        requires owner { owner ≤ 4 }
        requires held { 0 < holds_at self.old.holds owner domain }
        ensures removed { Loses HoldsShares self.old owner (hold_key domain) self.new }
        ensures steps { steps.new ≡ steps.old + 1 }
    {
        self.holds.remove(owner, domain);
        steps.tick();
    }

    /// Takes an owner's newest item out of the queue, one step for each item that waits.
    pub fn remove_work<L: Ledger>(&mut self, owner: u8, steps: &mut Steps<L>)
        requires { list_any (is_owned owner) self.old.work ≡ true }
        ensures removed { Loses HoldsShares self.old owner work_key self.new }
        ensures steps { steps.new ≡ steps.old + length self.old.work }
        ensures few { steps.new ≤ steps.old + 256 }
    {
        self.work.remove_newest(owner, steps);
    }
}
