//! The words and the trees of the C profile: what the reader makes of a driver text.
//!
//! `Word` and `Token` are the words with their lines, `Keyword` and `Sign` the closed families of
//! reserved words and signs, `LimitKind` the limits that a text is refused by. `TypeName`, `Expr`, `Stmt` and `Unit` are
//! the trees of types, expressions, statements and whole texts.
#![tactic(auto)]

mod expressions;
mod items;
mod keywords;
mod limits;
mod signs;
mod statements;
mod types;
mod words;

pub use expressions::{Binary, Expr, Unary};
pub use items::{
    Arm, Const, Declaration, Field, Function, GlobalItem, Head, Item, Local, Param, ResultBase,
    StructItem, Unit,
};
pub use keywords::Keyword;
pub use limits::LimitKind;
pub use signs::Sign;
pub use statements::{Action, Body, Simple, Stmt};
pub use types::{Addr, Annotation, Base, Number, SignedTerm, Star, Sum, Term, TypeName};
pub use words::{Suffix, Token, Word};
