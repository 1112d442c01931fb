//! The blocks of one owner, by their bases, in storage that is taken when they are made.
ghost use Rattle.std.specs.Prelude.{◌≡◌, ◌-◌, ◌≤◌, ◌++◌, [], ◌∷◌, length, take, IfOk, IfSome, IfNone, OnOk, OnErr};
ghost use Rattle.sd_base.specs.declared.history.BlockState.TheVariants.{Live, Freed};
ghost use Rattle.grant_table.specs.BlockRows.{next_base_of, base_for, block_row_of, row_has_base, FindsPlace, release_answer, with_state_of};

use sd_base::limits::{ARENA_BYTES, BLOCKS, NULL_BYTES};
use sd_base::{BlockState, Memory};
use std::alloc::Global;
use std::marker::Model;

/// A block: where it begins in its owner's arena, how many bytes it has, and what it is used for.
#[derive(Clone, Copy, PartialEq, Eq, Debug)]
pub struct BlockRow {
    /// The address of its first byte, a multiple of 16.
    pub base: u32,
    /// Its bytes.
    pub size: u32,
    /// What it is used for.
    pub state: BlockState,
}

/// Why a block is not given back.
#[derive(Clone, Copy, PartialEq, Eq, Debug)]
pub enum ReleaseRefusal {
    /// No block that the owner allocated has this base.
    NotBlock,
    /// It was given back before.
    Freed,
}

/// The blocks of one owner, by their bases.
#[derive(Drop)]
pub struct Blocks {
    rows: Vec<BlockRow>,
}

impl Model for Blocks {
    ghost use Rattle.std.specs.Prelude.{List, ◌≤◌, length, vec_capacity};
    ghost use Rattle.grant_table.specs.declared.blocks.BlockRow.{BlockRow};
    ghost use Rattle.grant_table.specs.BlockRows.{IsArena};

    ghost Value = { List BlockRow };

    ghost view = { λ a. a.rows.items };

    ghost invariant = { λ a. (4096 ≤ vec_capacity a.rows) × (length a.rows.items ≤ 4096) × IsArena 16 a.rows.items };
}

impl Blocks {
    /// No blocks, with room for all that an owner may have.
    pub fn new(alloc: Global) -> Result<Blocks, Memory>
        ensures { IfOk result (λ blocks. blocks ≡ []) }
    {
        let rows = Vec::with_capacity(alloc, BLOCKS)?;
        Ok(Blocks { rows })
    }

    /// The blocks, by their bases.
    pub fn as_slice(&self) -> &[BlockRow]
        ensures { result.now ≡ self.now }
    {
        self.rows.as_slice()
    }

    /// The base of the next block: the end of the last one, at least 16, rounded up to a multiple of 16.
    fn next_base(&self) -> u32
        ensures base { result ≡ next_base_of 16 self.now }
        ensures fits { result ≤ 1048576 }
    {
        let len = self.rows.len();
        if len == 0 {
            return NULL_BYTES;
        }
        let last = self.rows[len - 1];
        (last.base + last.size + 15) / 16 * 16
    }

    /// Puts a block of `n` elements of `size` bytes behind all others, and gives its base.
    ///
    /// None where there is no element, the owner has 4,096 blocks, or the block would end past the arena.
    pub fn grant(&mut self, size: u32, n: i64, state: BlockState) -> Option<u32>
        requires { 1 ≤ size }
        ensures answer { result ≡ base_for self.old size n }
        ensures some { IfSome result (λ base. self.new ≡ self.old ++ block_row_of base size n state ∷ []) }
        ensures none { IfNone result (self.new ≡ self.old) }
    {
        if n < 1 || self.rows.len() >= BLOCKS {
            return None;
        }
        let base = self.next_base();
        let bytes = u128::from(n as u64) * u128::from(size);
        if u128::from(base) + bytes > u128::from(ARENA_BYTES) {
            return None;
        }
        self.rows.push_reserved(BlockRow {
            base,
            size: bytes as u32,
            state,
        });
        Some(base)
    }

    /// The place of the block with this base, if there is one.
    fn place_of(&self, base: u32) -> Option<usize>
        ensures { FindsPlace (row_has_base base) self.now result }
    {
        let place = self.rows.as_slice().partition_point(|b| b.base < base);
        if place == self.rows.len() {
            return None;
        }
        if self.rows[place].base != base {
            return None;
        }
        Some(place)
    }

    /// Gives back the block with this base. It stays granted.
    ///
    /// NotBlock where no block that was allocated has this base, Freed where it was given back before.
    pub fn release(&mut self, base: u32) -> Result<(), ReleaseRefusal>
        ensures answer { result ≡ release_answer base self.old }
        ensures ok { OnOk result (self.new ≡ with_state_of base Freed self.old) }
        ensures err { OnErr result (self.new ≡ self.old) }
    {
        let Some(place) = self.place_of(base) else {
            return Err(ReleaseRefusal::NotBlock);
        };
        let row = self.rows[place];
        match row.state {
            BlockState::Image => Err(ReleaseRefusal::NotBlock),
            BlockState::Freed => Err(ReleaseRefusal::Freed),
            BlockState::Live => {
                self.rows[place] = BlockRow {
                    state: BlockState::Freed,
                    ..row
                };
                Ok(())
            }
        }
    }

    /// Makes the block with this base live again.
    pub fn revive(&mut self, base: u32)
        ensures { self.new ≡ with_state_of base Live self.old }
    {
        let Some(place) = self.place_of(base) else {
            return;
        };
        let row = self.rows[place];
        self.rows[place] = BlockRow {
            state: BlockState::Live,
            ..row
        };
    }

    /// Takes away the last block.
    pub fn pop(&mut self)
        ensures { self.new ≡ take (length self.old - 1) self.old }
    {
        let _ = self.rows.pop();
    }
}
