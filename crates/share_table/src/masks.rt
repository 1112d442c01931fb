//! The masks of interrupt lines, one for each activity.
ghost use Rattle.std.specs.Prelude.{◌≡◌, ◌≤◌, false, true, [], cond, None, Some};
ghost use Rattle.sd_base.specs.declared.history.Refusal.TheVariants.{Busy, Unheld};
ghost use Rattle.sd_base.specs.declared.history.Update.TheVariants.{Mask, Unmask};
ghost use Rattle.sd_base.specs.History.{mask_key};
ghost use Rattle.sd_base.specs.Part.{Serves, Loses};
ghost use Rattle.share_table.specs.Masks.{HoldsMasks, mask_at, any_held};

use sd_base::Who;
use sd_base::limits::{OWNERS, TASKS};
use std::marker::Model;

/// How many activities an owner has: 8 tasks, and its handlers.
const ACTIVITIES: usize = TASKS as usize + 1;

/// The masks of 5 owners with 9 activities each.
#[derive(Drop)]
pub struct Masks {
    held: [bool; OWNERS * ACTIVITIES],
}

impl Model for Masks {
    ghost use Rattle.std.specs.Prelude.{◌≡◌, List, Bool, length};

    ghost Value = { List Bool };

    ghost view = { λ m. m.held };

    ghost invariant = { λ m. length m.held ≡ 45 };
}

impl Masks {
    /// None held.
    pub fn new() -> Masks
        ensures { HoldsMasks result [] }
    {
        Masks {
            held: [false; OWNERS * ACTIVITIES],
        }
    }

    /// Holds interrupts off for an activity; false where it does so already.
    pub fn mask(&mut self, who: Who) -> bool
        requires owner { who.owner ≤ 4 }
        requires task { who.task ≤ 8 }
        ensures serves { Serves HoldsMasks self.old who.owner (Mask who.task) (cond result None (Some Busy)) self.new }
        ensures kept { result ≡ false → self.new ≡ self.old }
    {
        let place = usize::from(who.owner) * ACTIVITIES + usize::from(who.task);
        if self.held[place] {
            return false;
        }
        self.held[place] = true;
        true
    }

    /// Lets interrupts in again for an activity; false where it does not hold them off.
    pub fn unmask(&mut self, who: Who) -> bool
        requires owner { who.owner ≤ 4 }
        requires task { who.task ≤ 8 }
        ensures serves { Serves HoldsMasks self.old who.owner (Unmask who.task) (cond result None (Some Unheld)) self.new }
        ensures kept { result ≡ false → self.new ≡ self.old }
    {
        let place = usize::from(who.owner) * ACTIVITIES + usize::from(who.task);
        if !self.held[place] {
            return false;
        }
        self.held[place] = false;
        true
    }

    /// Whether the activity holds interrupts off.
    pub fn holds(&self, who: Who) -> bool
        requires owner { who.owner ≤ 4 }
        requires task { who.task ≤ 8 }
        ensures { result ≡ mask_at self.now who.owner who.task }
    {
        self.held[usize::from(who.owner) * ACTIVITIES + usize::from(who.task)]
    }

    /// Whether any activity does.
    pub fn any(&self) -> bool
        ensures { result ≡ any_held self.now }
    {
        self.held.iter().any(|held| *held)
    }

    /// Takes away what the activity's mask put here.
    pub fn remove(&mut self, who: Who)
        requires owner { who.owner ≤ 4 }
        requires task { who.task ≤ 8 }
        ensures { Loses HoldsMasks self.old who.owner (mask_key who.task) self.new }
    {
        self.held[usize::from(who.owner) * ACTIVITIES + usize::from(who.task)] = false;
    }
}
