//! The reader of declarations and whole texts: the items that the words of a driver text spell.
//!
//! `read_unit` is what other crates call. The readers of statements and of each kind of item serve it.
#![tactic(auto)]

mod actions;
mod arguments;
mod beginnings;
mod constants;
mod declarations;
mod functions;
mod items;
mod laws;
mod lines;
mod params;
mod reader;
mod refusal;
mod statements;
mod structs;

pub use laws::{one_item, one_statement, one_unit, some_unit};
pub use reader::read_unit;
pub use refusal::UnitRefusal;
