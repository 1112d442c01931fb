//! `Turn`: where control turns after a statement.
use checked_tree::KernelCall;

/// Where control turns after a statement.
#[derive(Clone, Copy, PartialEq, Eq, Debug)]
pub enum Turn {
    /// To the next statement.
    On,
    /// Into the part that a test picks: of an `if` its first branch where the test holds, of a `while` then its body.
    Into(bool),
    /// Into the function with this number, with the arguments that were collected.
    Calls(u32),
    /// To the kernel, for an answer.
    Asks(KernelCall),
    /// Back to the caller, with this result.
    Returns(Option<i64>),
}
