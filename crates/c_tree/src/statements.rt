//! Statements and bodies (C99, 6.8), each with the line of its first word.

use crate::{Expr, TypeName};
use sd_base::Name;
use sqlite_items::{Boxed, Items};

/// What a simple statement does.
#[derive(Drop)]
pub enum Action {
    /// `l = e;`
    Assign(Boxed<Expr>, Boxed<Expr>),
    /// `f(..);` or `x = f(..);`: the name on the left, if there is one, the function and the
    /// arguments.
    Call(Option<Name>, Name, Items<Expr>),
    /// `x = kalloc(T, e);`
    Kalloc(Name, TypeName, Boxed<Expr>),
    /// `kfree(e);`
    Kfree(Boxed<Expr>),
    /// `zero(l);`
    Zero(Boxed<Expr>),
    /// `return;` or `return e;`
    Return(Option<Boxed<Expr>>),
    /// `;`
    Empty,
}

/// A statement that has no body.
#[derive(Drop)]
pub struct Simple {
    /// The line of its first word.
    pub line: u32,
    pub action: Action,
}

/// A statement.
#[cycle(statement)]
#[derive(Drop)]
pub enum Stmt {
    Simple(Simple),
    /// `if`: its line, the test, and the bodies of both ways.
    If(u32, Boxed<Expr>, Body, Option<Body>),
    /// `while`: its line, the test and the body.
    While(u32, Boxed<Expr>, Body),
}

/// What `if`, `else` and `while` hold.
#[cycle(statement)]
#[derive(Drop)]
pub enum Body {
    /// Statements in braces.
    Block(Items<Stmt>),
    Single(Simple),
}
