//! The kernel's tables in step with a history of accepted updates, and what recovery from a failed driver stands on: of
//! each owner a log of its updates that none of its later ones ended.
#![tactic(auto)]

mod answers;
mod laws;
mod net_log;
mod proper;
mod requests;
mod tracked;
mod undo;
mod undoing;
mod undone;

pub use laws::{net_lists_after_one_more_entry, net_lists_are_short, nothing_is_left_of_an_owner};
pub use proper::is_proper;
pub use sd_base::{Refusal, Update};
pub use tracked::Tracked;
pub use undo::{Reply, Undo};
