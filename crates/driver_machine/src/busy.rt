//! `Busy`: why a task takes no call from outside.

/// The task has a live activity.
#[derive(Clone, Copy, PartialEq, Eq, Debug)]
pub struct Busy;
