//! Who claims interrupt lines, ports, devices and parameters of the modelled kernel.
//!
//! `Claims` answers each call by the rule that a plain history of accepted updates gives, and then holds the part of the
//! history with the update.
#![tactic(auto)]

mod claim;
mod claims;
mod params;
mod ranges;
mod rows;

pub use claim::Claim;
pub use claims::{ClaimRefusal, Claims, Holder};
