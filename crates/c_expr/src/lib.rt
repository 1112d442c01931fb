//! The reader of expressions: the longest expression that begins at a word.
//!
//! `read_expr` is what other crates call. The readers of type names and of the parts of expressions serve the reader of
//! declarations too.
#![tactic(auto)]

mod bases;
mod expressions;
mod laws;
mod look;
mod members;
mod operators;
mod reader;
mod refusal;
mod singles;
mod sums;
mod type_names;

pub use bases::base_at;
pub use expressions::{closed, row, unary};
pub use laws::{determines_words, one_expression, stands_before_any_words};
pub use look::{after_keyword, after_sign, first_word, keyword_at, name_at, number_at};
pub use reader::read_expr;
pub use refusal::ExpressionRefusal;
pub use type_names::{stars_at, type_in_parens, type_name_at};
