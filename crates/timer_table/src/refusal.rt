//! Why a timer is not set or stopped.

/// Why a timer is not set or stopped.
#[derive(Clone, Copy, PartialEq, Eq, Debug)]
pub enum TimerRefusal {
    /// The id is not from 0 to 255, or the owner has no such live timer to stop.
    Bad,
    /// The owner has 64 live timers, and this is none of them.
    Full,
}
