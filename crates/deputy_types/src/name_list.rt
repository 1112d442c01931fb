//! `NameList`: distinct names, numbered in the order in which they came.
ghost use Rattle.std.specs.Prelude.{◌≡◌, [], OnOk, bytes_eq, length};
ghost use Rattle.std.specs.List.{list_any};
ghost use Rattle.deputy_types.specs.Found.{with_name};
ghost use Rattle.deputy_types.specs.Types.{struct_number};

use indexmap::IndexSet;
use sd_base::{Memory, Name};
use std::alloc::Global;
use std::marker::Model;

/// Distinct names by number, less than 2^32 of them. It is seen as their list.
#[derive(Drop)]
pub struct NameList {
    keys: IndexSet<Name>,
}

impl Model for NameList {
    ghost use Rattle.std.specs.Prelude.{ℕ, List, ◌<◌, ◌^◌, length};

    ghost Value = { List (List ℕ) };

    ghost view = { λ n. n.keys.keys };

    ghost invariant = { λ n. length n.keys.keys < 2 ^ 32 };
}

impl NameList {
    /// No names.
    pub fn new(alloc: Global) -> NameList
        ensures { result ≡ [] }
    {
        NameList {
            keys: IndexSet::new(alloc),
        }
    }

    /// The number of a name. None where it is not there.
    pub fn number(&self, name: &Name) -> Option<u32>
        ensures { result ≡ struct_number self.now name.now }
    {
        match self.keys.get_index_of(name) {
            Some(k) => Some(k as u32),
            None => None,
        }
    }

    /// Whether a name is there.
    pub fn has(&self, name: &Name) -> bool
        ensures { result ≡ list_any (bytes_eq name.now) self.now }
    {
        self.keys.contains(name)
    }

    /// How many there are.
    pub fn len(&self) -> usize
        ensures { result ≡ length self.now }
    {
        self.keys.len()
    }

    /// Adds a name behind the others, if it is new.
    #[tactic(auto, unfolding(crate::specs::Found::with_name))]
    pub fn add(&mut self, name: &Name) -> Result<(), Memory>
        ensures { OnOk result (self.new ≡ with_name self.old name.now) }
    {
        if self.keys.contains(name) {
            return Ok(());
        }
        if self.keys.len() < u32::MAX as usize {
            self.keys.insert(*name)?;
        }
        Ok(())
    }
}
