//! Ranges of ports.
ghost use Rattle.std.specs.Prelude.{◌≡◌, ◌<◌, ◌≤◌, [], false, length, IfOk};
ghost use Rattle.std.specs.List.{list_any, filter};
ghost use Rattle.claim_table.specs.Ordered.{insert_claim};
ghost use Rattle.claim_table.specs.ClaimRows.{is_wide, is_not_range_claim};

use crate::Claim;
use crate::rows::Rows;
use sd_base::Memory;
use std::alloc::Global;
use std::marker::Model;

/// Ranges in the order of their first ports, none with more ports than there are.
#[derive(Drop)]
pub struct Ranges {
    rows: Rows<u32>,
}

impl Model for Ranges {
    ghost use Rattle.std.specs.Prelude.{List, ℕ, ◌≡◌, false};
    ghost use Rattle.std.specs.List.{list_any};
    ghost use Rattle.claim_table.specs.declared.claim.Claim.{Claim};
    ghost use Rattle.claim_table.specs.ClaimRows.{is_wide};

    ghost Value = { List (Claim ℕ) };

    ghost view = { λ r. r.rows };

    ghost invariant = { λ r. list_any is_wide r.rows ≡ false };
}

impl Ranges {
    /// No range, with room for all that there can ever be.
    pub fn new(alloc: Global) -> Result<Ranges, Memory>
        ensures { IfOk result (λ ranges. ranges ≡ []) }
    {
        Ok(Ranges {
            rows: Rows::new(alloc)?,
        })
    }

    /// The ranges, in order.
    pub fn as_slice(&self) -> &[Claim<u32>]
        ensures value { result.now ≡ self.now }
        ensures narrow { list_any is_wide self.now ≡ false }
    {
        self.rows.as_slice()
    }

    /// Puts a range behind all that begin where it does or before.
    pub fn insert(&mut self, claim: Claim<u32>)
        requires room { length self.old < 256 }
        requires narrow { claim.detail ≤ 65536 }
        ensures { self.new ≡ insert_claim claim self.old }
    {
        self.rows.insert(claim);
    }

    /// Takes away this owner's range of exactly these ports.
    pub fn drop_range(&mut self, owner: u8, base: u16, n: u32)
        ensures { self.new ≡ filter (is_not_range_claim owner base n) self.old }
    {
        self.rows.drop_range(owner, base, n);
    }
}
