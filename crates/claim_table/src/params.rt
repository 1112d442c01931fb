//! The values of parameters, and of each parameter the one that was set last.
ghost use Rattle.std.specs.Prelude.{◌≡◌, ◌<◌, [], length, IfOk};
ghost use Rattle.std.specs.List.{filter};
ghost use Rattle.claim_table.specs.Ordered.{is_not_claim, insert_claim, last_of_each};

use crate::Claim;
use crate::rows::Rows;
use sd_base::Memory;
use std::alloc::Global;
use std::marker::Model;

/// Values in the order of their keys, those of one key in the order in which they were set.
#[derive(Drop)]
pub struct Params {
    values: Rows<i32>,
    // Of each key the value that was set last, so that it is found by its place among the keys.
    latest: Rows<i32>,
}

impl Model for Params {
    ghost use Rattle.std.specs.Prelude.{List, ℤ, ◌≡◌, ◌≤◌, length};
    ghost use Rattle.claim_table.specs.declared.claim.Claim.{Claim};
    ghost use Rattle.claim_table.specs.Ordered.{last_of_each};

    ghost Value = { List (Claim ℤ) };

    ghost view = { λ p. p.values };

    ghost invariant = { λ p. (length p.values ≤ 256) × (p.latest ≡ last_of_each p.values) };
}

impl Params {
    /// No values, with room for all that there can ever be.
    pub fn new(alloc: Global) -> Result<Params, Memory>
        ensures { IfOk result (λ params. params ≡ []) }
    {
        Ok(Params {
            values: Rows::new(alloc)?,
            latest: Rows::new(alloc)?,
        })
    }

    /// The values, in order.
    pub fn as_slice(&self) -> &[Claim<i32>]
        ensures { result.now ≡ self.now }
    {
        self.values.as_slice()
    }

    /// Of each key the value that was set last, by the keys.
    pub fn latest(&self) -> &[Claim<i32>]
        ensures { result.now ≡ last_of_each self.now }
    {
        self.latest.as_slice()
    }

    /// Puts a value behind all that have its key or a smaller one.
    pub fn insert(&mut self, claim: Claim<i32>)
        requires { length self.old < 256 }
        ensures { self.new ≡ insert_claim claim self.old }
    {
        self.values.insert(claim);
        self.latest.take_latest(&self.values);
    }

    /// Takes away this owner's value of this key.
    pub fn drop_claim(&mut self, owner: u8, number: u16)
        ensures { self.new ≡ filter (is_not_claim owner number) self.old }
    {
        self.values.drop_claim(owner, number);
        self.latest.take_latest(&self.values);
    }
}
