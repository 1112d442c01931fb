//! The kernel's tables together: the blocks, claims, timers and shares of all owners, and the clock.
//!
//! A `Kernel` stands for a history of accepted updates where each table holds its part of it.
#![tactic(auto)]

mod kernel;
mod row;
mod rows;

pub use kernel::Kernel;
pub use row::Row;
pub use sd_base::BlockState;
