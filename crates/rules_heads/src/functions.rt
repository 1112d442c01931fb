//! `Functions`: the functions of a text with bodies, by number and by name.
ghost use Rattle.std.specs.Prelude.{◌≡◌, ◌<◌, ◌^◌, ◌++◌, [], ◌∷◌, length, slice_get, option_copied, OnOk};
ghost use Rattle.deputy_rules.specs.Calls.{function_number};

use dep_infer::note_first;
use deputy_rules::Signature;
use indexmap::IndexMap;
use sd_base::{Memory, Name};
use sqlite_items::at;
use std::alloc::Global;
use std::marker::Model;

/// The functions of a text with bodies, in text order. It is seen as the list of what a call sees of each.
#[derive(Drop)]
pub struct Functions {
    signatures: Vec<Signature>,
    /// Each name with the number of the first function that has it.
    first: IndexMap<Name, u32>,
}

impl Model for Functions {
    ghost use Rattle.std.specs.Prelude.{List, map};
    ghost use Rattle.deputy_rules.specs.declared.signature.Signature.{Signature as Spec};
    ghost use Rattle.dep_infer.specs.Found.{FindsFirst};
    ghost use Rattle.rules_heads.specs.Names.{function_names};

    ghost Value = { List Spec };

    ghost view = { λ f. f.signatures.items };

    ghost invariant = { λ f. FindsFirst f.first.entries (function_names f.signatures.items) };
}

impl Functions {
    /// No functions.
    pub(crate) fn new(alloc: Global) -> Functions
        ensures { result ≡ [] }
    {
        Functions {
            signatures: Vec::new(alloc),
            first: IndexMap::new(alloc),
        }
    }

    /// The number of the function with this name; of two with one name that of the first. None where there is none.
    pub fn number(&self, name: &Name) -> Option<u32>
        ensures { result ≡ function_number self.now name.now }
    {
        self.first.get(name).copied()
    }

    /// The function with this number. None where there is none.
    pub fn get(&self, number: u32) -> Option<&Signature>
        ensures { option_copied result ≡ slice_get self.now number }
    {
        at(self.signatures.as_slice(), number as usize)
    }

    /// Adds a function behind the others. The only refusal is want of memory.
    pub(crate) fn declare(&mut self, signature: Signature) -> Result<(), Memory>
        requires { length self.old < 2 ^ 32 }
        ensures { OnOk result (self.new ≡ self.old ++ signature ∷ []) }
    {
        self.signatures.reserve(1)?;
        let number = self.signatures.len() as u32;
        note_first(&mut self.first, &signature.name, number)?;
        self.signatures.push_reserved(signature);
        Ok(())
    }
}
