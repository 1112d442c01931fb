//! The rules of assignments: what a type makes of an expression that it is handed, and the checks of all whose types name what is assigned.
#![tactic(auto)]

mod assign;
mod changes;
mod convert;
mod store;

pub use assign::assign_to;
pub use convert::{converted_side, handed, handed_over, null, null_number};
