//! The rules of statements: what each statement of a driver text derives, and the run-time checks that it asks for, numbered; with them whole texts.
#![tactic(auto)]

mod actions;
mod alone;
mod arguments;
mod assign;
mod calls;
mod handlers;
mod kernel;
mod stmts;
mod unit;

pub use alone::check_expr;
pub use unit::check_unit;
