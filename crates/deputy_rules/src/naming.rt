//! `Naming`: what the names in an annotation stand for.
use checked_tree::{CheckedExpr, Sum};
use sqlite_items::{Boxed, Items};

/// Where the names of an annotation are read.
#[derive(Debug, Drop)]
pub enum Names {
    /// In the function: each is a slot.
    OfSlots,
    /// In this struct place, of the struct with this number: each is a member.
    OfStruct(Boxed<CheckedExpr>, u32),
    /// At a call: each parameter is its converted argument.
    OfArguments(Items<Sum>),
}

/// A new value for one name.
#[derive(Debug, Drop)]
pub struct Change {
    /// Its slot or its member.
    pub name: u32,
    pub value: Sum,
}

/// The names, one of them with a new value where there is a change.
#[derive(Debug, Drop)]
pub struct Naming {
    pub names: Names,
    pub change: Option<Change>,
}
