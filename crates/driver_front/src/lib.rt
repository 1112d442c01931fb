//! The front of SafeDrive: what becomes of a driver text, accepted as a checked unit or refused with its line and cause.
#![tactic(auto)]

mod acceptance;
mod causes;
mod laws;
mod reading;
mod reason;
mod refusal;

pub use acceptance::accept;
pub use causes::Cause;
pub use laws::{no_text_is_refused_for_a_check, one_verdict};
pub use reading::read_driver;
pub use reason::Reason;
pub use refusal::DriverRefusal;
