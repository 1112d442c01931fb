//! `Context`: where an expression stands, and what is looked up there.
ghost use Rattle.std.specs.Prelude.{◌≡◌, option_copied};
ghost use Rattle.deputy_rules.specs.Context.{slot_shape};
ghost use Rattle.deputy_rules.specs.Values as values;

use checked_tree::Shape;
use dep_infer::LocalTable;
use deputy_types::{Element, TypeTable, key_extent};
use sqlite_items::Items;
use std::marker::Model;

/// Where an expression stands: the types of its text, and its function's slots. A contract sees the record of the definitions.
#[derive(Drop)]
pub struct Context<'a> {
    /// The types, globals and strings of the text.
    pub types: &'a TypeTable,
    /// The parameters and locals, and their hidden slots.
    pub locals: &'a LocalTable,
    /// By slot: its shape, where its declaration is derived.
    pub slots: &'a Items<Option<Shape>>,
    /// The line of the statement.
    pub line: u32,
    /// How many checks the function has before the statement.
    pub first: usize,
}

impl<'a> Model for Context<'a> {
    ghost use Rattle.std.specs.Prelude.{◌<◌, ◌^◌};
    ghost use Rattle.deputy_rules.specs.Context.{Context as Spec};

    ghost Value = { Spec };

    ghost view = { λ c. record { table = c.types.now; locals = c.locals.now; slots = c.slots.now; line = c.line; first = c.first } };

    ghost invariant = { λ c. c.first < 2 ^ 63 };
}

impl<'a> Context<'a> {
    /// The bytes of a type.
    pub fn size_of(&self, key: Element) -> u32
        ensures { result ≡ values.size_of self.now key }
    {
        key_extent(self.types.extents(), &key).bytes
    }

    /// The shape of a slot. None where there is none, or its declaration is not derived.
    pub fn slot_shape(&self, slot: u32) -> Option<&Shape>
        ensures { option_copied result ≡ slot_shape self.now slot }
    {
        match self.slots.get(slot as usize) {
            Some(Some(shape)) => Some(shape),
            Some(None) => None,
            None => None,
        }
    }
}
