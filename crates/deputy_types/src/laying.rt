//! A struct while it is laid out, and when it was.
use crate::{Extent, NameList, Siblings, StructNames, Types};
use checked_tree::{Member, StructShape, UnionShape};
use sqlite_items::Items;

/// What a struct's fields are read with.
#[derive(Clone, Copy)]
pub struct Scope<'a> {
    /// The types of the text.
    pub types: &'a Types,
    /// The extents of the structs by number.
    pub extents: &'a [Extent],
    /// The struct's own number.
    pub number: u32,
    /// Its fields and arms, as an annotation can name them.
    pub siblings: &'a Siblings,
}

/// A struct so far.
#[derive(Drop)]
pub struct Laying {
    pub members: Items<Member>,
    pub unions: Items<UnionShape>,
    /// The names of the unions by number.
    pub names: NameList,
    /// The bytes up to the end of the last field.
    pub end: u32,
    /// The greatest alignment of a field; 1 where there is none.
    pub align: u32,
    /// How many fields there are; a union counts as one.
    pub fields: u32,
}

/// The arms of a union so far.
#[derive(Drop)]
pub struct Arms {
    /// The members of the struct, these arms last.
    pub members: Items<Member>,
    /// The number of the tag; none before the first arm.
    pub tag: Option<u32>,
    /// The value of the tag under which each arm is used.
    pub values: Items<i64>,
}

/// A struct that was laid out.
#[derive(Drop)]
pub struct Laid {
    pub shape: StructShape,
    pub extent: Extent,
    pub names: StructNames,
}
