//! The words of the command line: what they ask for. `clap` reads them, behind the tests that it does not make.
#![tactic(auto)]

mod asking;
mod commands;
mod handing;
mod line;
mod words;

pub use commands::{Command, WordsFault};
pub use words::read_words;
