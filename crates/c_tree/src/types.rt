//! Type names: a base and a list of stars, each with its annotation.

use crate::Suffix;
use sd_base::Name;
use sqlite_items::Items;

/// A written number: its value and what stands after its digits.
#[derive(Clone, Copy, PartialEq, Eq, Debug)]
pub struct Number {
    pub value: u32,
    pub suffix: Suffix,
}

/// What a type name begins with (C99, 6.7.2), as written.
///
/// `long` is the same type as `int`, `unsigned long` as `unsigned`, plain `char` as `unsigned char`.
#[derive(Clone, Copy, PartialEq, Eq, Debug)]
pub enum Base {
    Char,
    SignedChar,
    UnsignedChar,
    Short,
    UnsignedShort,
    Int,
    Long,
    Unsigned,
    UnsignedInt,
    UnsignedLong,
    /// `struct` and its name.
    Struct(Name),
}

/// A term of a sum in an annotation.
#[derive(Clone, Copy, PartialEq, Eq, Debug)]
pub enum Term {
    Number(Number),
    Name(Name),
    /// A number times a name.
    Product(Number, Name),
}

/// A term with the sign before it.
#[derive(Clone, Copy, PartialEq, Eq, Debug)]
pub struct SignedTerm {
    /// Whether `-` stands before the term.
    pub negative: bool,
    pub term: Term,
}

/// A sum of one or more terms, as `-1 + 2*n`. A first term that is not negative has no sign.
#[derive(Drop)]
pub struct Sum {
    pub terms: Items<SignedTerm>,
}

/// An end of a `bound`: a pointer's name, with a term added or taken away.
#[derive(Clone, Copy, PartialEq, Eq, Debug)]
pub struct Addr {
    pub pointer: Name,
    pub offset: Option<SignedTerm>,
}

/// What a star says of its pointer's bounds (the dependent types of Deputy, ESOP 2007).
#[derive(Drop)]
pub enum Annotation {
    /// `safe`: null, or one element.
    Safe,
    /// `sentinel`: compared and never followed.
    Sentinel,
    /// `nullterm`: elements up to the first that is 0.
    Nullterm,
    /// `count(n)`: n elements.
    Count(Sum),
    /// `bound(lo, hi)`: the elements from lo to hi.
    Bound(Addr, Addr),
}

/// A `*` and the annotation after it.
#[derive(Drop)]
pub struct Star {
    pub annotation: Option<Annotation>,
}

/// A type name: the base, and the stars from the innermost to the pointer's own.
#[derive(Drop)]
pub struct TypeName {
    pub base: Base,
    pub stars: Items<Star>,
}
