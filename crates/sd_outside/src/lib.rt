//! The outside as SafeDrive sees it: a shelf that texts are read from and a sink that output is written to,
//! with what each call does to what is left, what was written and the counts of faults, and the calls that read a
//! whole text and write a whole piece.
#![tactic(auto)]

mod calm;
mod edge;
mod memory_shelf;
mod memory_sink;
mod read;
mod shelf;
mod sink;
mod texts;
mod write;

pub use calm::{CalmShelf, CalmSink};
pub use edge::{FileShelf, OutSink};
pub use memory_shelf::MemShelf;
pub use memory_sink::MemSink;
pub use read::{TextFault, read_text};
pub use shelf::Shelf;
pub use sink::Sink;
pub use write::{WriteFault, write_all};

/// A read or a write that did not happen. The shelf or the sink has counted it among its faults.
#[derive(Clone, Copy, PartialEq, Eq, Debug)]
pub struct Failed;
