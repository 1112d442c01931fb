//! What the calls of the table answer.

use sd_base::Who;

/// What a try to take a lock comes to.
#[derive(Clone, Copy, PartialEq, Eq, Debug)]
pub enum LockOut {
    /// The activity holds it now.
    Locked,
    /// This activity holds it, perhaps the one that asks.
    HeldBy(Who),
    /// The number is not from 0 to 63.
    Bad,
}

/// What a try to let go of a lock comes to.
#[derive(Clone, Copy, PartialEq, Eq, Debug)]
pub enum UnlockOut {
    /// It is free now.
    Ok,
    /// The activity does not hold it.
    Unheld,
    /// The number is not from 0 to 63.
    Bad,
}

/// Why a hold or an item of work is refused.
#[derive(Clone, Copy, PartialEq, Eq, Debug)]
pub enum ShareRefusal {
    /// The domain is not from 0 to 63, or the owner has no hold on it to let go.
    Bad,
    /// The owner has 8 holds on the domain, or 64 items in the queue.
    Full,
}
