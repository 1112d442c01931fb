//! The rules of expressions: what each expression of a driver text derives, and the run-time checks that it asks for.
#![tactic(auto)]

mod binary;
mod expressions;
mod places;
mod pointers;
mod unary;

pub use expressions::{derive, expression};
