//! `CheckedStmt`: a statement whose types were checked.
use crate::{CheckedExpr, KernelName, Scalar, Sum};
use sqlite_items::{Boxed, Items};

/// A pointer with the sums that bound it where it is not null.
#[derive(Debug, Drop)]
pub struct PointerOperand {
    pub value: Boxed<CheckedExpr>,
    pub low: Sum,
    pub high: Sum,
}

/// A number that is handed over, and the type that it is converted to.
#[derive(Debug, Drop)]
pub struct Argument {
    pub scalar: Scalar,
    pub value: Boxed<CheckedExpr>,
}

/// The local that takes the result of a call.
#[derive(Clone, Copy, PartialEq, Eq, Debug)]
pub enum Target {
    /// An integer local, to whose type the result is converted.
    Int { slot: u32, scalar: Scalar },
    /// A nullterm pointer.
    Nullterm { slot: u32 },
    /// A pointer whose bounds lie in two hidden slots, the first of them this one.
    Automatic { slot: u32, hidden: u32 },
}

/// A checked statement. `line` is that of its first word.
///
/// `checks` are the numbers of its own run-time checks, in the order in which they are tested: after those of its expressions, which are
/// evaluated left to right, the right side of an assignment first.
#[derive(Debug, Drop)]
pub enum CheckedStmt {
    /// `;`
    Empty {
        line: u32,
    },
    /// `l = e` for an integer local, or a pointer local whose bounds its annotation gives.
    Assign {
        line: u32,
        slot: u32,
        scalar: Scalar,
        value: Boxed<CheckedExpr>,
        checks: Items<usize>,
    },
    /// `l = e` for a pointer local whose bounds lie in two hidden slots, the first of them this one. Its own checks are those of the
    /// pointers that it bounds.
    AssignAutomatic {
        line: u32,
        slot: u32,
        hidden: u32,
        value: PointerOperand,
        checks: Items<usize>,
    },
    /// `l = e` for a place of this type.
    Store {
        line: u32,
        scalar: Scalar,
        place: Boxed<CheckedExpr>,
        value: Boxed<CheckedExpr>,
        checks: Items<usize>,
    },
    /// `zero(l)`: the `size` bytes of the place become 0.
    Zero {
        line: u32,
        place: Boxed<CheckedExpr>,
        size: u32,
    },
    /// `f(..)` and `x = f(..)`, with the function's number.
    Call {
        line: u32,
        target: Option<Target>,
        function: u32,
        arguments: Items<Argument>,
        checks: Items<usize>,
    },
    /// A kernel call: its numbers, its pointer, and its handler, element and size, 0 where it has none.
    Kernel {
        line: u32,
        target: Option<Target>,
        name: KernelName,
        arguments: Items<Argument>,
        pointer: Option<PointerOperand>,
        function: u32,
        elem: u32,
        size: u32,
    },
    /// `return` and `return e`.
    Return {
        line: u32,
        value: Option<Argument>,
        checks: Items<usize>,
    },
    /// `if`, with its branches.
    If {
        line: u32,
        test: Boxed<CheckedExpr>,
        holds: Items<CheckedStmt>,
        fails: Items<CheckedStmt>,
    },
    /// `while`, with its body.
    While {
        line: u32,
        test: Boxed<CheckedExpr>,
        body: Items<CheckedStmt>,
    },
}
