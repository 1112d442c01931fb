//! The top of SafeDrive: the words of a command come in, texts are read from a shelf, the run's lines go out to a
//! sink, and the status comes back.
#![tactic(auto)]

mod check;
mod front;
mod printing;
mod run;
mod status;
mod texts;
mod top_call;

pub use status::Status;
pub use top_call::serve;
