//! `Reason`: where and why a driver text is refused.

use crate::Cause;

/// Where and why a driver text is refused.
#[derive(Clone, Copy, PartialEq, Eq, Debug)]
pub struct Reason {
    /// The line, counted from 1.
    pub line: u32,
    pub cause: Cause,
}
