//! `LocalTable`: the slots of a function by name, and the hidden slots of its automatic pointers.
ghost use Rattle.std.specs.Prelude.{◌≡◌, ◌+◌, ◌<◌, ◌^◌, ◌++◌, [], ◌∷◌, length, IfSome, OnOk, OnErr};
ghost use Rattle.c_tree.specs.Slots.{slot_named, hidden_slot};
ghost use Rattle.dep_infer.specs.Found.{NotesFirst, IsPair};

use indexmap::IndexMap;
use sd_base::{Memory, Name};
use sqlite_items::Items;
use std::alloc::Global;
use std::marker::Model;

/// The parameters and locals of a function, each in its slot.
#[derive(Drop)]
pub struct LocalTable {
    /// By slot.
    names: Vec<Name>,
    /// Each name with its first slot.
    first: IndexMap<Name, u32>,
    /// By slot: the first of its two hidden slots, if it has any.
    hidden: Items<Option<u32>>,
}

impl Model for LocalTable {
    ghost use Rattle.c_tree.specs.Slots.{Locals};
    ghost use Rattle.dep_infer.specs.Found.{FindsFirst, ArePairs};

    ghost Value = { Locals };

    ghost view = { λ t. record { names = t.names.items; hidden = t.hidden } };

    ghost invariant = { λ t. FindsFirst t.first.entries t.names.items × ArePairs t.hidden };
}

impl LocalTable {
    /// A table with no slots.
    pub(crate) fn new(alloc: Global) -> LocalTable
        ensures { result ≡ record { names = []; hidden = [] } }
    {
        LocalTable {
            names: Vec::new(alloc),
            first: IndexMap::new(alloc),
            hidden: Items::new(alloc),
        }
    }

    /// The slot of a parameter or local: the first that has this name. None where none has it.
    #[tactic(auto, unfolding(c_tree::specs::Slots::slot_named))]
    pub fn slot(&self, name: &Name) -> Option<u32>
        ensures { result ≡ slot_named self.now name.now }
    {
        self.first.get(name).copied()
    }

    /// The first of the two hidden slots of a slot. None where the slot has none.
    #[tactic(auto, unfolding(c_tree::specs::Slots::hidden_slot))]
    pub fn hidden(&self, slot: u32) -> Option<u32>
        ensures slot { result ≡ hidden_slot self.now slot }
        ensures second { IfSome result (λ first. first + 1 < 2 ^ 32) }
    {
        self.hidden.get(slot as usize).copied().flatten()
    }

    /// The next slot: its name, and the first of its two hidden slots, if it has any.
    #[tactic(auto, using(crate::proofs::Pairs::pairs_push))]
    pub(crate) fn declare(&mut self, name: &Name, hidden: Option<u32>) -> Result<(), Memory>
        requires room { length self.old.names < 2 ^ 32 }
        requires pair { IsPair hidden }
        ensures { OnOk result (self.new ≡ record { names = self.old.names ++ name.now ∷ []; hidden = self.old.hidden ++ hidden ∷ [] }) }
    {
        self.hidden.push(hidden)?;
        self.names.reserve(1)?;
        let slot = self.names.len() as u32;
        note_first(&mut self.first, name, slot)?;
        self.names.push_reserved(*name);
        Ok(())
    }
}

/// Notes the number of a name, a slot or a function, unless the name has one already. The only refusal is want of memory.
pub fn note_first(first: &mut IndexMap<Name, u32>, name: &Name, slot: u32) -> Result<(), Memory>
    ensures ok { OnOk result (NotesFirst first.old.entries name.now slot first.new.entries) }
    ensures err { OnErr result (first.new.entries ≡ first.old.entries) }
{
    if !first.contains_key(name) {
        first.insert(*name, slot)?;
    }
    Ok(())
}
