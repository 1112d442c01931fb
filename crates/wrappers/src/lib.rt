//! The kernel calls of drivers: one call that serves each of the 25 over the tracked tables, a driver's memory and the scripted devices.
//!
//! `serve_call` answers what the table of kernel calls says of the plain history for which the tables stand (`specs/Rows.antt`), and the
//! tables then stand for the history with the update that was made, if one was.
#![tactic(auto)]

mod arguments;
mod blocks;
mod call_out;
mod claims;
mod contexts;
mod laws;
mod locks;
mod masks;
mod ports;
mod printing;
mod replies;
mod serve;
mod shares;
mod timers;

pub use call_out::{CallOut, Saying, TextBytes};
pub use contexts::{Contexts, contexts_of, may_call};
pub use laws::calls_are_in_step;
pub use serve::serve_call;
