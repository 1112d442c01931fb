//! `Handed` and `Passed`: what is assigned, passed or returned, as the type that takes it reads it.
use checked_tree::{CheckedExpr, Part, Scalar, Sum};
use sqlite_items::Boxed;

/// A pointer expression or the null constant, where a pointer is wanted.
#[derive(Debug, Drop)]
pub struct Handed {
    pub form: Boxed<CheckedExpr>,
    /// Whether it is the null constant.
    pub null: bool,
    /// Its value, and its bounds. The null constant has the value and the bounds 0.
    pub at: Sum,
    pub low: Sum,
    pub high: Sum,
}

/// An argument of a call, as its parameter takes it.
#[derive(Debug, Drop)]
pub enum Passed {
    /// An integer: the type to which it is converted, its form before, and its value after.
    Int {
        scalar: Scalar,
        form: Boxed<CheckedExpr>,
        side: Part,
    },
    Pointer(Handed),
}
