//! What was taken back last, in storage that is taken when it is made.
ghost use Rattle.std.specs.Prelude.{◌≡◌, ◌<◌, [], ◌∷◌, ◌++◌, length, IfOk};

use crate::net_log::{BLOCK_ROOM, NOTE_ROOM};
use crate::undo::Undo;
use sd_base::Memory;
use std::alloc::Global;
use std::marker::Model;

/// The entries that one owner's net list can have.
const ROOM: usize = BLOCK_ROOM + NOTE_ROOM;

/// The items of one owner's net list, from its newest.
#[derive(Drop)]
pub struct Undone {
    items: Vec<Undo>,
}

impl Model for Undone {
    ghost use Rattle.std.specs.Prelude.{◌≤◌, List, vec_capacity};
    ghost use Rattle.update_tracker.specs.declared.undo.Undo.{Undo};

    ghost Value = { List Undo };

    ghost view = { λ a. a.items.items };

    ghost invariant = { λ a. 9065 ≤ vec_capacity a.items };
}

impl Undone {
    /// Nothing. There is room for all that an owner can have live.
    pub fn new(alloc: Global) -> Result<Undone, Memory>
        ensures { IfOk result (λ undone. undone ≡ []) }
    {
        let items = Vec::with_capacity(alloc, ROOM)?;
        Ok(Undone { items })
    }

    /// Forgets all of it.
    pub fn clear(&mut self)
        ensures { self.new ≡ [] }
    {
        self.items.clear();
    }

    /// Puts an item behind the others.
    pub fn push(&mut self, item: Undo)
        requires { length self.old < 9065 }
        ensures { self.new ≡ self.old ++ item ∷ [] }
    {
        self.items.push_reserved(item);
    }

    /// The items.
    pub fn as_slice(&self) -> &[Undo]
        ensures { result.now ≡ self.now }
    {
        self.items.as_slice()
    }
}
