//! `ElementList`: the types of elements by number.
ghost use Rattle.std.specs.List.{All};
ghost use Rattle.std.specs.Prelude.{◌≡◌, [], ◌∷◌, IfOk, IfSome, OnOk, option_copied, slice_get, length};
ghost use Rattle.deputy_types.specs.declared.element.Element.TheVariants.{Int};
ghost use Rattle.checked_tree.specs.declared.shapes.Scalar.TheVariants.{U8};
ghost use Rattle.deputy_types.specs.Found.{with_element};
ghost use Rattle.deputy_types.specs.Keys.{IsKey};
ghost use Rattle.deputy_types.specs.Types.{element_number};

use crate::Element;
use checked_tree::Scalar;
use indexmap::IndexSet;
use sd_base::Memory;
use std::alloc::Global;
use std::marker::Model;

/// Distinct types of elements by number, less than 2^32 of them, each one that a text can write. It is seen as their list.
#[derive(Drop)]
pub struct ElementList {
    keys: IndexSet<Element>,
}

impl Model for ElementList {
    ghost use Rattle.std.specs.List.{All};
    ghost use Rattle.std.specs.Prelude.{ℕ, List, ◌<◌, ◌^◌, length};
    ghost use Rattle.deputy_types.specs.Keys.{IsKey};
    ghost use Rattle.deputy_types.specs.declared.element.Element.{Element};

    ghost Value = { List Element };

    ghost view = { λ n. n.keys.keys };

    ghost invariant = { λ n. (length n.keys.keys < 2 ^ 32) × All IsKey n.keys.keys };
}

impl ElementList {
    /// `char` alone.
    pub fn new(alloc: Global) -> Result<ElementList, Memory>
        ensures { IfOk result (λ l. l ≡ Int U8 ∷ []) }
    {
        let mut keys = IndexSet::new(alloc);
        keys.insert(Element::Int(Scalar::U8))?;
        Ok(ElementList { keys })
    }

    /// The number of a type. None where it is not there.
    pub fn number(&self, key: &Element) -> Option<u32>
        ensures { result ≡ element_number self.now key.now }
    {
        match self.keys.get_index_of(key) {
            Some(k) => Some(k as u32),
            None => None,
        }
    }

    /// The type with this number. None where there is none.
    #[tactic(auto, using(crate::proofs::KeyCounts::key_at))]
    pub fn get(&self, n: u32) -> Option<Element>
        ensures value { result ≡ slice_get self.now n }
        ensures key { IfSome result IsKey }
    {
        self.keys.get_index(n as usize).copied()
    }

    /// The types, by number.
    pub fn keys(&self) -> &[Element]
        ensures value { result.now ≡ self.now }
        ensures keys { All IsKey result.now }
    {
        self.keys.as_slice()
    }

    /// How many there are.
    pub fn len(&self) -> usize
        ensures { result ≡ length self.now }
    {
        self.keys.len()
    }

    /// Adds a type behind the others, if it is new.
    #[tactic(auto, unfolding(crate::specs::Found::with_element))]
    pub fn add(&mut self, key: Element) -> Result<(), Memory>
        requires { IsKey key }
        ensures { OnOk result (self.new ≡ with_element self.old key) }
    {
        if self.keys.contains(&key) {
            return Ok(());
        }
        if self.keys.len() < u32::MAX as usize {
            self.keys.insert(key)?;
        }
        Ok(())
    }
}
