//! `CheckedExpr`: an expression whose types were checked.
use crate::Scalar;
use sqlite_items::{Boxed, Items};

/// The operators that compute a number from one other.
#[derive(Clone, Copy, PartialEq, Eq, Debug)]
pub enum Unary {
    /// `+e`: the number in its promoted type.
    Plus,
    /// `-e` in the promoted type.
    Negative,
    /// `~e` in the promoted type.
    Complement,
    /// `!e`: 1 where the number is 0, and else 0.
    Not,
    /// `(T)e`, and a converted value: modulo 2^bits of the type.
    Cast,
}

/// The binary operators that compute a number from two.
#[derive(Clone, Copy, PartialEq, Eq, Debug)]
pub enum Arithmetic {
    Add,
    Subtract,
    Multiply,
    /// Toward zero (C99 6.5.5). The least `int` divided by -1 is the least `int`.
    Divide,
    /// What the division leaves. The remainder of the least `int` by -1 is 0.
    Remainder,
    And,
    Or,
    Xor,
    /// By the right number modulo 32.
    ShiftLeft,
    /// By the right number modulo 32; of a negative number arithmetic.
    ShiftRight,
}

/// The operators that compare two numbers, and give 0 or 1.
#[derive(Clone, Copy, PartialEq, Eq, Debug)]
pub enum Comparison {
    Less,
    LessEqual,
    Greater,
    GreaterEqual,
    Equal,
    NotEqual,
}

/// The operators that need their right side only after one value of their left side, and give 0 or 1.
#[derive(Clone, Copy, PartialEq, Eq, Debug)]
pub enum Logic {
    And,
    Or,
}

/// How a pointer and a number of elements are written in a sum.
#[derive(Clone, Copy, PartialEq, Eq, Debug)]
pub enum PointerSum {
    /// `e + i`
    PointerPlus,
    /// `i + e`
    PlusPointer,
    /// `e - i`
    PointerMinus,
}

/// A checked expression. Each form gives one number: an integer, the address that a pointer holds, or, for the forms of a place, the
/// address of the place.
///
/// `checks` are the numbers of a form's own run-time checks, in the order in which they are tested: after its parts, before its value.
#[derive(Debug, Drop)]
pub enum CheckedExpr {
    /// A constant: a number, the negative of a number, a character or a `sizeof`, with its type after promotion. `-3` is the constant -3, `-5u`
    /// is 4294967291; the negative of anything else, as `-'a'`, is a `Unary`.
    Number {
        value: i64,
        scalar: Scalar,
    },
    /// The null pointer.
    Null,
    /// The value of a local or parameter, or of a hidden bound.
    Local {
        slot: u32,
    },
    /// The place of a global, or the first byte of a string.
    Block {
        base: u32,
    },
    /// The place `*e`, and of a nullterm `e` also `e[0]`.
    Through {
        pointer: Boxed<CheckedExpr>,
        checks: Items<usize>,
    },
    /// The place `e[i]` of an element of `size` bytes.
    Element {
        pointer: Boxed<CheckedExpr>,
        index: Boxed<CheckedExpr>,
        size: u32,
        checks: Items<usize>,
    },
    /// The place of a field, an arm or a union of a struct place.
    Field {
        place: Boxed<CheckedExpr>,
        offset: u32,
        checks: Items<usize>,
    },
    /// The value of a place of this type.
    Load {
        scalar: Scalar,
        place: Boxed<CheckedExpr>,
    },
    /// The address of a place, or of an array's first element.
    AddressOf {
        place: Boxed<CheckedExpr>,
    },
    /// A pointer that is moved by a number of elements of `size` bytes.
    Moved {
        sum: PointerSum,
        pointer: Boxed<CheckedExpr>,
        by: Boxed<CheckedExpr>,
        size: u32,
        checks: Items<usize>,
    },
    /// A number from one other: in this type, or converted to it.
    Unary {
        op: Unary,
        scalar: Scalar,
        of: Boxed<CheckedExpr>,
    },
    /// A number of this type, to which both sides are converted; of a shift the left side alone.
    Binary {
        op: Arithmetic,
        scalar: Scalar,
        left: Boxed<CheckedExpr>,
        right: Boxed<CheckedExpr>,
        checks: Items<usize>,
    },
    /// 0 or 1, where both sides are converted to this type; two pointers are compared as they are.
    Compare {
        op: Comparison,
        scalar: Scalar,
        left: Boxed<CheckedExpr>,
        right: Boxed<CheckedExpr>,
    },
    /// 0 or 1. The right side and its checks only where the left side leaves it open.
    Logical {
        op: Logic,
        left: Boxed<CheckedExpr>,
        right: Boxed<CheckedExpr>,
    },
}
