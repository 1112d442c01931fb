//! `Family`: the binary operators by the rules that they have.
use checked_tree::{Arithmetic, Comparison, Logic};

/// The binary operators by the rules that they have.
#[derive(Clone, Copy, PartialEq, Eq, Debug)]
pub enum Family {
    /// `+`, of integers, or of a pointer and an integer.
    Add,
    /// `-`, of integers, or of a pointer and an integer.
    Subtract,
    /// `* & | ^`.
    Plain(Arithmetic),
    /// `<< >>`.
    Shift(Arithmetic),
    /// `/ %`.
    Divide(Arithmetic),
    /// `< > <= >=`.
    Order(Comparison),
    /// `== !=`.
    Equality(Comparison),
    /// `&& ||`.
    Logic(Logic),
}
