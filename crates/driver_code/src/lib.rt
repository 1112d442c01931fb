//! Flat code: the instructions to which the functions of a driver are lowered, and what they mean.
//!
//! `specs` gives an instruction its meaning over a stack of whole numbers, the locals and the memory, says how a running goes on and where
//! it stops, and what it is that a code simulates its function. `list` is the line of an instruction.
#![tactic(auto)]

mod instr;
mod listing;

pub use instr::{Awaited, Code, Instr};
pub use listing::list;
