//! What an owner's live updates put into the tables, as it is taken back.

/// What one live update of an owner put into the tables.
#[derive(Clone, Copy, PartialEq, Eq, Debug)]
pub enum Undo {
    /// The block with this base.
    Block(u32),
    /// That the block with this base was given back.
    Free(u32),
    /// An interrupt line.
    Line(i32),
    /// The second number of ports from the first.
    Ports(i32, i32),
    /// A device.
    Device(i32),
    /// The owner's value of a parameter.
    Param(i32),
    /// The owner's timer with this id.
    Timer(i32),
    /// A lock that an activity of the owner holds.
    Lock(i32),
    /// The mask of the owner's task.
    Mask(u8),
    /// One hold on a power domain.
    Hold(i32),
    /// An item of the work queue: its handler and its argument.
    Work(u32, i32),
}

/// A live update that is neither a grant nor a release.
#[derive(Clone, Copy, PartialEq, Eq, Debug)]
pub struct Note {
    /// What it put into the tables.
    pub item: Undo,
    /// How many live grants and releases of the owner are older.
    pub after: u32,
}

/// What an accepted update is answered.
#[derive(Clone, Copy, PartialEq, Eq, Debug)]
pub enum Reply {
    /// It is done.
    Done,
    /// The base of the block that was granted.
    Base(u32),
}
