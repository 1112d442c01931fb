//! Memory as a list of bytes, little endian.
//!
//! [`Arena`] is one allocation whose bytes are read and written through raw pointers. None of its calls but `new` tests a
//! range, refuses or takes memory: that the range lies in the arena is the condition of the call, which its caller proves.
//!
//! [`Tested`] stands between a machine that still meets accesses outside what it was granted and the arena: an arena with
//! the list of its granted ranges, and `inside`, the test that such a machine makes first.
#![tactic(auto)]

pub mod arena;
pub mod laws;
mod raw_bytes;
pub mod tested;

pub use arena::Arena;
pub use tested::{GrantedRange, Tested};
