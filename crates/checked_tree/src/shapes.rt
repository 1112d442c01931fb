//! `Shape` and its parts: how integers, pointers and structs lie in memory and in the slots of a function.
use sqlite_items::Items;

/// A type of which one value is a number: the integer types, and a pointer whose annotation is constant.
#[derive(Clone, Copy, PartialEq, Eq, Hash, Debug)]
pub enum Scalar {
    /// No value: the result of a `void` function.
    Void,
    /// `char` and `unsigned char`.
    U8,
    /// `signed char`.
    I8,
    /// `unsigned short`.
    U16,
    /// `short`.
    I16,
    /// `int` and `long`.
    I32,
    /// `unsigned` and `unsigned long`.
    U32,
    /// A pointer of 4 bytes.
    Pointer {
        /// How many bytes its constant annotation lets it reach from where it points: 0 for `sentinel` and `nullterm`, and where it plays no part.
        size: u32,
    },
}

/// One side of a pointer's bounds, over whole numbers: a pointer, and a sum in bytes.
#[derive(Debug, Drop)]
pub struct Edge {
    /// The sibling pointer that the sum begins with, or none where it is the pointer itself. Siblings are members of the struct, or slots of
    /// the function.
    pub base: Option<u32>,
    /// Siblings with the numbers that their values are multiplied by.
    pub terms: Items<(i64, u32)>,
    /// The constant.
    pub bytes: i64,
}

/// What bounds a pointer.
#[derive(Debug, Drop)]
pub enum Bounds {
    /// Two hidden slots: an unannotated local.
    Hidden,
    /// The end of a block of text, whose last byte stays 0.
    Nullterm,
    /// From the first edge up to the second, and without it.
    Within { lo: Edge, hi: Edge },
}

/// What a slot, a member or an element holds.
#[derive(Debug, Drop)]
pub enum Shape {
    /// An integer.
    Int(Scalar),
    /// A pointer to elements of the type with this number.
    Pointer { elem: u32, bounds: Bounds },
    /// The struct with this number.
    Struct(u32),
    /// An address that bounds a pointer: a hidden slot.
    Address,
}

/// A field of a struct, or an arm of one of its unions.
#[derive(Debug, Drop)]
pub struct Member {
    /// Bytes from the start of the struct.
    pub offset: u32,
    /// How many elements: 1 where it is no array.
    pub count: u32,
    pub shape: Shape,
    /// For an arm, its union and the value of the tag under which it is used.
    pub arm: Option<(u32, i64)>,
}

/// A union of a struct.
#[derive(Clone, Copy, Debug)]
pub struct UnionShape {
    /// Bytes from the start of the struct.
    pub offset: u32,
    /// Bytes of the union.
    pub size: u32,
    /// The member that is its tag.
    pub tag: u32,
}

/// A struct: its fields that are no union and the arms of its unions, in text order.
#[derive(Debug, Drop)]
pub struct StructShape {
    /// Bytes of one struct.
    pub size: u32,
    pub members: Items<Member>,
    pub unions: Items<UnionShape>,
}
