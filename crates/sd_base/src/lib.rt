//! The small types and the limits that every crate of SafeDrive shares: bounded names, printed lines,
//! who acts, fat pointers, and the kinds of checks and failures.
#![tactic(auto)]

mod actors;
mod history;
mod kinds;
mod laws;
pub mod limits;
mod line;
mod name;
mod numbers;
mod steps;

pub use actors::{Fat, Who};
pub use history::{BlockState, Layout, Refusal, Update};
pub use kinds::{CheckKind, FailKind};
pub use laws::{others_history_is_lawful, others_net_lists_stay};
pub use line::Line;
pub use name::Name;
pub use numbers::number_below;
pub use steps::Steps;

/// Want of memory: the one refusal that any call that allocates may give, and that no clause ties to a cause.
pub type Memory = std::alloc::AllocError;
