//! The locks, each with the activity that holds it.
ghost use Rattle.std.specs.Prelude.{◌≡◌, ◌≢◌, [], None, Some};
ghost use Rattle.sd_base.specs.declared.history.Update.TheVariants.{Lock, Unlock};
ghost use Rattle.sd_base.specs.History.{lock_key};
ghost use Rattle.sd_base.specs.Selection.{passes};
ghost use Rattle.sd_base.specs.Part.{Serves, Loses};
ghost use Rattle.share_table.specs.Locks.{HoldsLocks, lock_at, refusal_of_lock, refusal_of_unlock, has_holder, is_who};

use crate::answers::{LockOut, UnlockOut};
use sd_base::limits::LOCKS;
use sd_base::{Who, number_below};
use std::marker::Model;

/// The 64 locks.
#[derive(Drop)]
pub struct Locks {
    holders: [Option<Who>; LOCKS as usize],
}

impl Model for Locks {
    ghost use Rattle.std.specs.Prelude.{◌≡◌, List, Option, length};
    ghost use Rattle.sd_base.specs.declared.actors.Who.{Who};

    ghost Value = { List (Option Who) };

    ghost view = { λ l. l.holders };

    ghost invariant = { λ l. length l.holders ≡ 64 };
}

impl Locks {
    /// All free.
    pub fn new() -> Locks
        ensures { HoldsLocks result [] }
    {
        Locks {
            holders: [None; LOCKS as usize],
        }
    }

    /// Takes a free lock for an activity.
    pub fn lock(&mut self, who: Who, k: i32) -> LockOut
        ensures serves { Serves HoldsLocks self.old who.owner (Lock k who.task) (refusal_of_lock result) self.new }
        ensures kept { refusal_of_lock result ≢ None → self.new ≡ self.old }
    {
        let Some(place) = number_below(k, LOCKS as u16) else {
            return LockOut::Bad;
        };
        let place = usize::from(place);
        if let Some(holder) = self.holders[place] {
            return LockOut::HeldBy(holder);
        }
        self.holders[place] = Some(who);
        LockOut::Locked
    }

    /// Lets go of a lock that the activity holds.
    pub fn unlock(&mut self, who: Who, k: i32) -> UnlockOut
        ensures serves { Serves HoldsLocks self.old who.owner (Unlock k who.task) (refusal_of_unlock result) self.new }
        ensures kept { refusal_of_unlock result ≢ None → self.new ≡ self.old }
    {
        let Some(place) = number_below(k, LOCKS as u16) else {
            return UnlockOut::Bad;
        };
        let place = usize::from(place);
        if !is_held_by(&self.holders[place], who) {
            return UnlockOut::Unheld;
        }
        self.holders[place] = None;
        UnlockOut::Ok
    }

    /// The activity that holds a lock.
    pub fn holder(&self, k: i32) -> Option<Who>
        ensures { result ≡ lock_at self.now k }
    {
        let holders = &self.holders;
        let Some(place) = number_below(k, LOCKS as u16) else {
            return None;
        };
        holders[usize::from(place)]
    }

    /// Whether the activity holds any lock.
    pub fn any_of(&self, who: Who) -> bool
        ensures { result ≡ has_holder who self.now }
    {
        self.holders.iter().any(|holder| is_held_by(holder, who))
    }

    /// Takes away what the activity's taking of the lock put here.
    pub fn remove(&mut self, who: Who, k: i32)
        requires { lock_at self.old k ≡ Some who }
        ensures { Loses HoldsLocks self.old who.owner (lock_key k who.task) self.new }
    {
        if let Some(place) = number_below(k, LOCKS as u16) {
            self.holders[usize::from(place)] = None;
        }
    }
}

/// Whether this activity holds a lock with that holder.
fn is_held_by(holder: &Option<Who>, who: Who) -> bool
    ensures { result ≡ passes (is_who who) holder.now }
{
    match holder {
        Some(by) => by.owner == who.owner && by.task == who.task,
        None => false,
    }
}
