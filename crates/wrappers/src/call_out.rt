//! `CallOut`: what a kernel call comes to.
use sd_base::{FailKind, Fat};

/// The bytes of a text that is printed.
#[derive(Clone, Copy, PartialEq, Eq, Debug)]
pub struct TextBytes {
    /// The first bytes of the text, at most 32, and zeros behind them.
    pub bytes: [u8; 32],
    /// How many they are, from 0 to 32.
    pub len: u8,
    /// Whether the text goes on behind them.
    pub more: bool,
}

/// What a kernel call prints.
#[derive(Clone, Copy, PartialEq, Eq, Debug)]
pub enum Saying {
    /// A number, of `printd`.
    Print(i32),
    /// A text, of `prints`.
    Text(TextBytes),
    /// What is written to a port, from 0 to 65,535, by `port_out`.
    Out(u16, i32),
}

/// What a kernel call comes to.
#[derive(Clone, Copy, PartialEq, Eq, Debug)]
pub enum CallOut {
    /// The call is done. A number that the driver gets, 0 where the call gives none back; -22, -16 and -28 are refusals.
    Reply(i32),
    /// `kalloc` gives a pointer to a new block, or null.
    Pointer(Fat),
    /// The call is done, gives nothing back, and something is printed.
    Said(Saying),
    /// The caller has to wait for this lock, from 0 to 63. Nothing has changed.
    Blocked(i32),
    /// The step of the driver fails. Nothing has changed.
    Fail(FailKind),
    /// The call has no meaning: it would read a byte of which the driver was granted none. Nothing has changed.
    Wild,
}
