//! What a run-time check tests, and how a driver can fail.

/// What a run-time check of a driver tests. The names are printed as written here.
#[derive(Clone, Copy, PartialEq, Eq, Debug)]
pub enum CheckKind {
    /// A pointer that is used is not null.
    Null,
    /// An address lies within the bounds of its pointer.
    Bound,
    /// A pointer stands at a whole number of elements past its low bound.
    Align,
    /// The end of a null-terminated string is neither passed nor overwritten.
    Term,
    /// The tag of a union names the arm that is used.
    Tag,
    /// An assignment leaves every type that names the assigned place true (after Hoare's axiom of assignment).
    Change,
    /// A divisor is not 0.
    Div,
}

/// How a step of a driver fails. The names are printed as written here; a check by the name of its kind.
#[derive(Clone, Copy, PartialEq, Eq, Debug)]
pub enum FailKind {
    /// A run-time check does not hold.
    Check(CheckKind),
    /// A call would make more than 64 live frames.
    Stack,
    /// `kfree` of what is no live block of the driver.
    Free,
    /// A port is used that lies in no range of the driver.
    Port,
    /// The number of a lock is not 0 to 63.
    Lock,
    /// A lock or a mask is taken that the activity holds already.
    Relock,
    /// A lock or a mask is given back that the activity does not hold.
    Unheld,
    /// An activity ends and still holds a lock.
    Held,
    /// A lock is taken, or an activity ends, while it holds the mask.
    Masked,
    /// A call that only tasks may make is made by a handler.
    Context,
}
