//! `Declared`: the declarations of a text so far.
use crate::{Extent, GlobalShape, NameList};
use sqlite_items::Items;

/// The declarations so far.
#[derive(Drop)]
pub struct Declared {
    /// The extents of the structs.
    pub extents: Items<Extent>,
    /// The names of globals, functions and prototypes.
    pub taken: NameList,
    /// The names of the globals.
    pub names: NameList,
    pub globals: Items<GlobalShape>,
    /// How many functions have bodies.
    pub bodies: u32,
    /// For each string the line of its function.
    pub lines: Items<u32>,
}
