//! `Sum`: a sum over expressions, as the bounds of a pointer are written, before its expressions have numbers.
use crate::CheckedExpr;
use sqlite_items::{Boxed, Items};

/// A summand: a number or the value of an expression, and the number that it is multiplied by.
#[derive(Debug, Drop)]
pub enum Part {
    /// A number: `times` times `value`.
    Constant {
        times: i64,
        value: i64,
    },
    /// An expression: `times` times its value. It is a bare form, without the numbers of its checks.
    Atom {
        times: i64,
        atom: Boxed<CheckedExpr>,
    },
}

/// A sum over expressions, over whole numbers: that of its parts, and 0 where it has none. The parts are kept as they were written, and
/// nothing is added up.
#[derive(Debug, Drop)]
pub struct Sum {
    pub parts: Items<Part>,
}
