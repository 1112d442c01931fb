//! What the kernel's history is made of: the updates of its tables, and the reasons for which one is refused.

use crate::Who;

/// What a granted block is an array of.
#[derive(Clone, Copy, PartialEq, Eq, Debug)]
pub struct Layout {
    /// The number of the element's type among the driver's element types.
    pub elem: u32,
    /// The bytes of one element, at least 1.
    pub size: u32,
    /// Whether the block is text that a zero byte ends.
    pub nullterm: bool,
}

/// What a granted block is used for.
#[derive(Clone, Copy, PartialEq, Eq, Debug, Default)]
pub enum BlockState {
    /// Part of the load image, which cannot be given back.
    Image,
    /// Allocated, and not given back.
    #[default]
    Live,
    /// Given back. It stays granted, and its bytes are never granted again.
    Freed,
}

/// A change of the kernel's tables that an owner asks for.
#[derive(Clone, Copy, PartialEq, Eq, Debug)]
pub enum Update {
    /// A block of `n` elements.
    Grant {
        layout: Layout,
        n: i64,
        image: bool,
    },
    /// A block is given back. It stays granted.
    Free {
        base: u32,
    },
    /// An interrupt line, from 0 to 63, with its handler.
    Line {
        line: i32,
        handler: u32,
    },
    /// A line is given back.
    FreeLine {
        line: i32,
    },
    /// The `n` ports from `base`, all from 0 to 65,535.
    Ports {
        base: i32,
        n: i32,
    },
    /// Exactly this range of ports is given back.
    DropPorts {
        base: i32,
        n: i32,
    },
    /// A device, from 0 to 1,023.
    Device {
        id: i32,
    },
    /// A device is given back.
    DelDevice {
        id: i32,
    },
    /// The owner's value of a parameter, from 0 to 255, in place of the one that it had.
    Param {
        key: i32,
        value: i32,
    },
    /// The owner's value of a parameter is taken away.
    ClearParam {
        key: i32,
    },
    /// The owner's timer, from 0 to 255, in place of the one that it had.
    Timer {
        id: i32,
        due: u32,
        handler: u32,
        arg: i32,
    },
    /// A live timer is stopped.
    DelTimer {
        id: i32,
    },
    /// A live timer came due.
    Fired {
        id: i32,
    },
    /// A lock, from 0 to 63, for the owner's task.
    Lock {
        lock: i32,
        task: u8,
    },
    /// The owner's task lets go of a lock.
    Unlock {
        lock: i32,
        task: u8,
    },
    /// One more hold on a power domain, from 0 to 63.
    Hold {
        domain: i32,
    },
    /// The latest hold on a domain is let go.
    DropHold {
        domain: i32,
    },
    /// An item at the end of the work queue.
    Work {
        handler: u32,
        arg: i32,
    },
    /// The front of the work queue, which is the owner's, is taken.
    Taken,
    /// The owner's task holds interrupts off.
    Mask {
        task: u8,
    },
    /// The owner's task lets interrupts in again.
    Unmask {
        task: u8,
    },
    /// The clock is now at this moment.
    Clock {
        now: u32,
    },
}

/// Why an update is refused.
#[derive(Clone, Copy, PartialEq, Eq, Debug)]
pub enum Refusal {
    /// It is held already: a line, a port, a device, or the activity's mask.
    Busy,
    /// The number is out of range, or the owner has nothing that the update could end, or the clock would go back.
    Bad,
    /// The owner has as many of the kind as it may have.
    Full,
    /// The lock is held, by this activity.
    HeldBy(Who),
    /// The owner has no allocated block with this base.
    NotBlock,
    /// The block was given back before.
    Freed,
    /// The activity does not hold the lock or the mask.
    Unheld,
    /// The owner has as many blocks as it may have, or the block does not fit its arena, or has no element.
    NoRoom,
}
