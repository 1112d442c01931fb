//! The timers that owners have set, by owner and id, and the one to fire next.
#![tactic(auto)]

mod edits;
mod fired;
mod places;
mod refusal;
mod rows;
mod timers;

pub use fired::Fired;
pub use refusal::TimerRefusal;
pub use timers::Timers;
