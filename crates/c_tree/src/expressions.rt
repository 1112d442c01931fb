//! Expressions, one variant for each form of the grammar (C99, 6.5).

use crate::{Number, TypeName};
use sd_base::Name;
use sqlite_items::{Boxed, Items};

/// The operators before an operand (C99, 6.5.3).
#[derive(Clone, Copy, PartialEq, Eq, Debug)]
pub enum Unary {
    /// `-`
    Minus,
    /// `~`
    Complement,
    /// `!`
    Not,
    /// `+`
    Plus,
    /// `*`
    Dereference,
    /// `&`
    Address,
}

/// The operators between two operands (C99, 6.5.5 to 6.5.14), weakest first.
#[derive(Clone, Copy, PartialEq, Eq, Debug)]
pub enum Binary {
    /// `||`
    LogicalOr,
    /// `&&`
    LogicalAnd,
    /// `|`
    BitOr,
    /// `^`
    BitXor,
    /// `&`
    BitAnd,
    /// `==`
    Equal,
    /// `!=`
    NotEqual,
    /// `<`
    Less,
    /// `>`
    Greater,
    /// `<=`
    LessEqual,
    /// `>=`
    GreaterEqual,
    /// `<<`
    ShiftLeft,
    /// `>>`
    ShiftRight,
    /// `+`
    Add,
    /// `-`
    Subtract,
    /// `*`
    Multiply,
    /// `/`
    Divide,
    /// `%`
    Remainder,
}

/// An expression as it is written. It determines its words, so parentheses are kept.
#[cycle(expression)]
#[derive(Drop)]
pub enum Expr {
    Number(Number),
    /// A character constant by its byte.
    Character(u8),
    /// A string: its bytes, and its number among the strings of the text, counted from 0.
    String(Items<u8>, u32),
    Name(Name),
    /// An expression in parentheses.
    Grouped(Boxed<Expr>),
    /// `(void *)0`.
    Null,
    Unary(Unary, Boxed<Expr>),
    Binary(Binary, Boxed<Expr>, Boxed<Expr>),
    /// `(T)e`.
    Cast(TypeName, Boxed<Expr>),
    /// `sizeof(T)`.
    Sizeof(TypeName),
    /// `e.f`.
    Field(Boxed<Expr>, Name),
    /// `e->f`.
    Arrow(Boxed<Expr>, Name),
    /// `e[i]`.
    Index(Boxed<Expr>, Boxed<Expr>),
}
