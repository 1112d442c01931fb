//! The blocks of memory that the modelled kernel grants to each owner.
//!
//! `Grants` answers each call by the rule that a plain history of accepted updates gives, and then holds the part of the
//! history with the update. No block is ever granted again: what is given back stays granted.
#![tactic(auto)]

mod blocks;
mod grants;

pub use blocks::{BlockRow, ReleaseRefusal};
pub use grants::Grants;
pub use sd_base::{BlockState, Layout};
