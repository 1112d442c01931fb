//! `Derived`: what a rule makes of an expression: a value with its type, or a place.
ghost use Rattle.std.specs.Prelude.{◌≡◌};

use checked_tree::{CheckedExpr, Scalar, Sum};
use deputy_types::Element;
use sqlite_items::Boxed;
use std::alloc::AllocError;

/// How an integer expression is written, and so what it is in a check.
#[derive(Clone, Copy, PartialEq, Eq, Debug)]
pub enum Written {
    /// A number; `plain` where it has no suffix. In a check it is a constant.
    Number { value: u32, plain: bool },
    /// A character, a `sizeof` or the negative of a number: in a check a constant.
    Constant(i64),
    /// Anything else: in a check an expression as a whole.
    Other,
}

/// An integer expression.
#[derive(Debug, Drop)]
pub struct Whole {
    pub form: Boxed<CheckedExpr>,
    /// Its type: of a local or a place the declared one, of anything else `int` or `unsigned`.
    pub scalar: Scalar,
    pub written: Written,
}

/// A pointer expression.
#[derive(Debug, Drop)]
pub struct Pointed {
    pub form: Boxed<CheckedExpr>,
    /// What it points to.
    pub elem: Element,
    pub nullterm: bool,
    /// Whether it is never null: an array, an address, a string or a pointer sum.
    pub sure: bool,
    /// Its value.
    pub at: Sum,
    /// Its bounds; of a nullterm pointer its value.
    pub low: Sum,
    pub high: Sum,
}

/// The value of an expression.
#[derive(Debug, Drop)]
pub enum Value {
    Int(Whole),
    Pointer(Pointed),
    /// `(void *)0`, which is no pointer expression until a pointer is wanted.
    Null,
}

/// Where the type of a place is declared.
#[derive(Clone, Copy, PartialEq, Eq, Debug)]
pub enum Source {
    /// A global that is no array, or an element of this type.
    Element(Element),
    /// A byte through a nullterm pointer.
    Text,
    /// A field, or an arm of a union, that is no array: its struct and its number among the members.
    Member(u32, u32),
}

/// A place in memory.
#[derive(Debug, Drop)]
pub struct Place {
    pub form: Boxed<CheckedExpr>,
    /// Its address.
    pub at: Sum,
    pub source: Source,
}

/// An array in memory.
#[derive(Debug, Drop)]
pub struct ArrayPlace {
    pub form: Boxed<CheckedExpr>,
    /// Its address.
    pub at: Sum,
    /// The type of its elements.
    pub elem: Element,
    /// How many elements it has.
    pub count: u32,
}

/// A union in memory.
#[derive(Debug, Drop)]
pub struct UnionPlace {
    /// The struct place in which it stands.
    pub container: Boxed<CheckedExpr>,
    /// The address of that struct.
    pub at: Sum,
    pub structure: u32,
    /// The number of the union in its struct.
    pub part: u32,
}

/// An arm of a union, as it is looked up.
#[derive(Clone, Copy, PartialEq, Eq, Debug)]
pub struct FoundArm {
    /// Its number among the members of its struct.
    pub number: u32,
    /// Bytes from the start of the struct.
    pub offset: u32,
    /// The value of the tag under which it is used.
    pub constant: i64,
    /// Where the tag lies in the struct, and its type.
    pub tag_offset: u32,
    pub tag_scalar: Scalar,
}

/// What a rule makes of an expression. A place is not read until its value is wanted.
#[derive(Debug, Drop)]
pub enum Derived {
    Value(Value),
    /// A parameter or local, by its slot.
    Local(u32),
    Place(Place),
    Array(ArrayPlace),
    Union(UnionPlace),
}

/// Why a rule gives nothing.
#[derive(Clone, Copy, PartialEq, Eq, Debug)]
pub enum DerivingRefusal {
    /// No rule derives the expression.
    NoRule,
    /// Memory is wanting.
    Memory,
}

impl From<AllocError> for DerivingRefusal {
    ghost use Rattle.deputy_rules.specs.declared.derived.DerivingRefusal.TheVariants.{Memory};

    ghost from_gives = { λ _ e. e ≡ Memory };

    fn from(_: AllocError) -> DerivingRefusal {
        DerivingRefusal::Memory
    }
}
