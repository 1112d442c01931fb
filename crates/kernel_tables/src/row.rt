//! The rows that the tables print as.

use sd_base::{BlockState, Who};

/// A row of the tables. Owners are 0, the kernel, and 1 to 4, the drivers.
#[derive(Clone, Copy, PartialEq, Eq, Debug)]
pub enum Row {
    /// A granted block: its first byte's address in the owner's arena, its bytes, and what it is used for.
    Block {
        owner: u8,
        base: u32,
        size: u32,
        state: BlockState,
    },
    /// An interrupt line, from 0 to 63, with its owner and the function that serves it.
    Line {
        line: i32,
        owner: u8,
        handler: u32,
    },
    /// A range of `n` ports, all from 0 to 65,535.
    Ports {
        base: i32,
        n: i32,
        owner: u8,
    },
    /// A device, from 0 to 1,023.
    Device {
        id: i32,
        owner: u8,
    },
    /// A parameter, from 0 to 255, with the value that was set last and the owner that set it.
    Param {
        key: i32,
        value: i32,
        owner: u8,
    },
    /// A live timer: when it fires, the function that it calls then, and what the function is given.
    Timer {
        owner: u8,
        id: i32,
        due: u32,
        handler: u32,
        arg: i32,
    },
    /// A lock, from 0 to 63, with the activity that holds it.
    Lock {
        lock: i32,
        who: Who,
    },
    /// An activity that holds interrupts off.
    Mask {
        who: Who,
    },
    /// A power domain, from 0 to 63, with the holds of all owners on it, at least one.
    Hold {
        domain: i32,
        n: u32,
    },
    /// An item of the work queue: the function that is called, and what it is given.
    Work {
        owner: u8,
        handler: u32,
        arg: i32,
    },
    /// The clock.
    Clock {
        now: u32,
    },
}

/// What rows have at a place that is counted from 0.
#[derive(Clone, Copy, PartialEq, Eq, Debug)]
pub(crate) enum Found {
    /// The row there.
    At(Row),
    /// No row: the place lies so far past the last one.
    Past(u32),
}
