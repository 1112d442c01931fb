//! What an annotation can name: the members of a struct, or the parameters and locals of a function.
use sd_base::Name;

/// What an annotation can make of a sibling that it names.
#[derive(Clone, Copy, PartialEq, Eq, Debug)]
pub enum Role {
    /// An integer, no array and no tag: a number of elements.
    Integer,
    /// An integer, no array, whose value says which arm of a union is used.
    Tag,
    /// A pointer that is no array and not `nullterm`, with the number of its element: an end of a `bound`.
    Pointer(u32),
    /// Nothing.
    Other,
}

/// What a last star without annotation is.
#[derive(Clone, Copy, PartialEq, Eq, Debug)]
pub enum Unannotated {
    /// `safe`.
    Safe,
    /// Bounded by two hidden slots: a local.
    Hidden,
}

/// A name among siblings. Arms of different unions, and a field and an arm, may have the same name.
#[derive(Clone, Copy, PartialEq, Eq, Hash, Debug)]
pub struct MemberName {
    /// For an arm, the number of its union.
    pub part: Option<u32>,
    pub name: Name,
}
