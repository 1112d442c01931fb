//! What the rules of assignments ask for: the checks of a coercion, of a tag and of a terminator, and which local may take a result or a block.
#![tactic(auto)]

mod coercion;
mod members;
mod tags;
mod targets;
mod terminators;

pub use coercion::{Fit, coerce, coerce_counted, coerce_to};
pub use members::members_of;
pub use tags::tag_change;
pub use targets::{call_target, kalloc_target};
pub use terminators::ask_terminator;
