//! What activities share: locks, masks of interrupt lines, holds on power domains, and the work queue.
#![tactic(auto)]

mod answers;
mod holds;
mod locks;
mod masks;
mod queue;
mod shares;

pub use answers::{LockOut, ShareRefusal, UnlockOut};
pub use queue::Work;
pub use shares::Shares;
