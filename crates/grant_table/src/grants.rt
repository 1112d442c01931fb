//! The table of blocks of all owners.
ghost use Rattle.std.specs.Prelude.{◌≡◌, ◌+◌, ◌-◌, ◌≤◌, true, ◌++◌, [], ◌∷◌, length, take, set, get_or, replicate, IfOk, IfSome, IfNone, OnOk, OnErr};
ghost use Rattle.sd_base.specs.declared.history.BlockState.TheVariants.{Live, Freed};
ghost use Rattle.sd_base.specs.declared.history.Update.TheVariants.{Grant, Free};
ghost use Rattle.sd_base.specs.History.{block_key, free_key};
ghost use Rattle.sd_base.specs.Blocks.{first_state, next_base, granted};
ghost use Rattle.sd_base.specs.Part.{Serves, Loses};
ghost use Rattle.grant_table.specs.BlockRows.{base_for, block_row_of, release_answer, with_state_of, is_freed_at, ends_with};
ghost use Rattle.grant_table.specs.GrantPart.{HoldsGrants, no_room, not_released, OfEachHistory};

use crate::blocks::{BlockRow, Blocks, ReleaseRefusal};
use sd_base::limits::OWNERS;
use sd_base::{BlockState, Layout, Memory, Steps};
use std::alloc::Global;
use std::marker::Model;
use std::sync::ledger::Ledger;

/// The blocks of each owner, from the kernel, which is 0, to the driver 4.
#[derive(Drop)]
pub struct Grants {
    owners: [Blocks; OWNERS],
}

impl Model for Grants {
    ghost use Rattle.std.specs.Prelude.{◌≡◌, List, length};
    ghost use Rattle.grant_table.specs.declared.blocks.BlockRow.{BlockRow};

    ghost Value = { List (List BlockRow) };

    ghost view = { λ a. a.owners };

    ghost invariant = { λ a. length a.owners ≡ 5 };
}

/// What a new block is used for.
fn state_of(image: bool) -> BlockState
    ensures { result ≡ first_state image }
{
    if image {
        BlockState::Image
    } else {
        BlockState::Live
    }
}

impl Grants {
    /// A table of no blocks. All memory that it ever takes is taken here.
    pub fn new(alloc: Global) -> Result<Grants, Memory>
        ensures { IfOk result (λ grants. grants ≡ replicate 5 []) }
    {
        Ok(Grants {
            owners: [
                Blocks::new(alloc)?,
                Blocks::new(alloc)?,
                Blocks::new(alloc)?,
                Blocks::new(alloc)?,
                Blocks::new(alloc)?,
            ],
        })
    }

    /// The blocks of an owner, by their bases.
    pub fn blocks(&self, owner: u8) -> &[BlockRow]
        requires { owner ≤ 4 }
        ensures { result.now ≡ get_or self.now owner [] }
    {
        let blocks = &self.owners[usize::from(owner)];
        blocks.as_slice()
    }

    /// Grants an owner a block of `n` elements, and gives its base: the end of the owner's last block, at least 16, rounded up
    /// to a multiple of 16. `image` says that the block is part of the load image.
    ///
    /// None where `n` is less than 1, the owner has 4,096 blocks, or the block would end past 1,048,576.
    pub fn grant(&mut self, owner: u8, layout: Layout, n: i64, image: bool) -> Option<u32>
        requires owner { owner ≤ 4 }
        requires size { 1 ≤ layout.size }
        ensures answer { result ≡ base_for (get_or self.old owner []) layout.size n }
        ensures some { IfSome result (λ base. self.new ≡ set self.old owner (get_or self.old owner [] ++ block_row_of base layout.size n (first_state image) ∷ [])) }
        ensures none { IfNone result (self.new ≡ self.old) }
        ensures base { IfSome result (λ base. OfEachHistory self.old (λ h. base ≡ next_base (granted h owner))) }
        ensures serves { Serves HoldsGrants self.old owner (Grant layout n image) (no_room result) self.new }
    {
        let state = state_of(image);
        let blocks = &mut self.owners[usize::from(owner)];
        blocks.grant(layout.size, n, state)
    }

    /// Marks the owner's block with this base as given back. It stays granted.
    ///
    /// NotBlock where no block that the owner allocated has this base, a block of the load image included; Freed where it was
    /// given back before.
    pub fn release(&mut self, owner: u8, base: u32) -> Result<(), ReleaseRefusal>
        requires { owner ≤ 4 }
        ensures answer { result ≡ release_answer base (get_or self.old owner []) }
        ensures ok { OnOk result (self.new ≡ set self.old owner (with_state_of base Freed (get_or self.old owner []))) }
        ensures err { OnErr result (self.new ≡ self.old) }
        ensures serves { Serves HoldsGrants self.old owner (Free base) (not_released result) self.new }
    {
        let blocks = &mut self.owners[usize::from(owner)];
        blocks.release(base)
    }

    /// Takes away the owner's last block, which has this base.
    pub fn remove_block<L: Ledger>(&mut self, owner: u8, base: u32, steps: &mut Steps<L>)
        requires owner { owner ≤ 4 }
        requires last { ends_with base (get_or self.old owner []) ≡ true }
        ensures removed { self.new ≡ set self.old owner (take (length (get_or self.old owner []) - 1) (get_or self.old owner [])) }
        ensures loses { Loses HoldsGrants self.old owner block_key self.new }
        ensures steps { steps.new ≡ steps.old + 1 }
    {
        let blocks = &mut self.owners[usize::from(owner)];
        blocks.pop();
        steps.tick();
    }

    /// Makes the owner's block with this base, which was given back, live again.
    pub fn remove_free<L: Ledger>(&mut self, owner: u8, base: u32, steps: &mut Steps<L>)
        requires owner { owner ≤ 4 }
        requires freed { is_freed_at base (get_or self.old owner []) ≡ true }
        ensures removed { self.new ≡ set self.old owner (with_state_of base Live (get_or self.old owner [])) }
        ensures loses { Loses HoldsGrants self.old owner (free_key base) self.new }
        ensures steps { steps.new ≡ steps.old + 1 }
    {
        let blocks = &mut self.owners[usize::from(owner)];
        blocks.revive(base);
        steps.tick();
    }
}
