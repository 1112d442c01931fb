//! The holds on power domains, counted for each owner by itself.
ghost use Rattle.std.specs.Prelude.{◌≡◌, ◌<◌, ◌≤◌, [], length, OnErr};
ghost use Rattle.sd_base.specs.declared.history.Update.TheVariants.{Hold, DropHold};
ghost use Rattle.sd_base.specs.History.{hold_key};
ghost use Rattle.sd_base.specs.Part.{Serves, Loses};
ghost use Rattle.share_table.specs.Answers.{refusal_of_share};
ghost use Rattle.share_table.specs.Holds.{HoldsHolds, holds_at, held_by_all};

use crate::answers::ShareRefusal;
use sd_base::limits::{DOMAINS, HOLDS, OWNERS};
use sd_base::number_below;
use std::marker::Model;

/// How many domains there are.
const PLACES: usize = DOMAINS as usize;

/// How many holds one owner may have on one domain.
const MOST: u8 = HOLDS as u8;

/// The counts of 5 owners on 64 domains each.
#[derive(Drop)]
pub struct Holds {
    counts: [u8; OWNERS * PLACES],
}

impl Model for Holds {
    ghost use Rattle.std.specs.Prelude.{List, ℕ};
    ghost use Rattle.share_table.specs.Holds.{IsCounts};

    ghost Value = { List ℕ };

    ghost view = { λ h. h.counts };

    ghost invariant = { λ h. IsCounts h.counts };
}

impl Holds {
    /// No hold.
    pub fn new() -> Holds
        ensures { HoldsHolds result [] }
    {
        Holds {
            counts: [0; OWNERS * PLACES],
        }
    }

    /// One more hold of an owner on a domain.
    pub fn hold(&mut self, owner: u8, domain: i32) -> Result<(), ShareRefusal>
        requires { owner ≤ 4 }
        ensures serves { Serves HoldsHolds self.old owner (Hold domain) (refusal_of_share result) self.new }
        ensures err { OnErr result (self.new ≡ self.old) }
    {
        let Some(domain) = number_below(domain, DOMAINS as u16) else {
            return Err(ShareRefusal::Bad);
        };
        let place = usize::from(owner) * PLACES + usize::from(domain);
        let count = self.counts[place];
        if count >= MOST {
            return Err(ShareRefusal::Full);
        }
        self.counts[place] = count + 1;
        Ok(())
    }

    /// The owner's latest hold on a domain is let go.
    pub fn drop_hold(&mut self, owner: u8, domain: i32) -> Result<(), ShareRefusal>
        requires { owner ≤ 4 }
        ensures serves { Serves HoldsHolds self.old owner (DropHold domain) (refusal_of_share result) self.new }
        ensures err { OnErr result (self.new ≡ self.old) }
    {
        let Some(domain) = number_below(domain, DOMAINS as u16) else {
            return Err(ShareRefusal::Bad);
        };
        let place = usize::from(owner) * PLACES + usize::from(domain);
        let count = self.counts[place];
        if count == 0 {
            return Err(ShareRefusal::Bad);
        }
        self.counts[place] = count - 1;
        Ok(())
    }

    /// The holds of all owners on a domain.
    pub fn held(&self, domain: i32) -> u32
        ensures value { result ≡ held_by_all self.now domain }
        ensures places { length self.now ≡ 320 }
    {
        let counts = &self.counts;
        let Some(domain) = number_below(domain, DOMAINS as u16) else {
            return 0;
        };
        let domain = usize::from(domain);
        u32::from(counts[domain])
            + u32::from(counts[PLACES + domain])
            + u32::from(counts[2 * PLACES + domain])
            + u32::from(counts[3 * PLACES + domain])
            + u32::from(counts[4 * PLACES + domain])
    }

    /// Takes away what one hold of the owner put here.
    pub fn remove(&mut self, owner: u8, domain: i32)
        requires owner { owner ≤ 4 }
        requires held { 0 < holds_at self.old owner domain }
        ensures { Loses HoldsHolds self.old owner (hold_key domain) self.new }
    {
        if let Some(domain) = number_below(domain, DOMAINS as u16) {
            let place = usize::from(owner) * PLACES + usize::from(domain);
            let count = self.counts[place];
            self.counts[place] = count - 1;
        }
    }
}
