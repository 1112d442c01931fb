//! `Element`: a type of elements as a small key, by which equal types are one.
use checked_tree::Scalar;

/// A type that elements can have. Two types are equal where their keys are (Deputy's types, ESOP 2007).
///
/// The element of a pointer is the number of its own key in the list of elements.
#[derive(Clone, Copy, PartialEq, Eq, Hash, Debug)]
pub enum Element {
    /// An integer type.
    Int(Scalar),
    /// The struct with this number.
    Struct(u32),
    /// A pointer that is compared and never followed: `sentinel`.
    Sentinel(u32),
    /// A pointer to text: `nullterm`.
    Nullterm(u32),
    /// A pointer to so many elements: `count`, and `safe` for one.
    Count(u32, i64),
}
