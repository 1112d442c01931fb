//! `Structs`: the structs of a text, laid out when the extents of all are known.
use crate::StructNames;
use checked_tree::StructShape;
use sqlite_items::Items;

/// The structs, laid out when the extents of all are known.
#[derive(Drop)]
pub struct Structs {
    pub shapes: Items<StructShape>,
    pub names: Items<StructNames>,
}
