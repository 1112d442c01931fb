//! The slots of a function, with hidden slots for the bounds of its automatic pointers.
#![tactic(auto)]

mod bounds;
mod table;

pub use bounds::{auto_bounds, is_automatic};
pub use table::{LocalTable, note_first};
