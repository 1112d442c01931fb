//! What the world keeps of a run itself, beside the kernel's tables, the drivers' activities and their memory.

/// How a driver stands.
#[derive(Clone, Copy, PartialEq, Eq, Debug)]
pub enum Standing {
    /// It is not loaded.
    Absent,
    /// It is loaded, and has not failed since.
    Loaded,
    /// A step of it has failed. It holds nothing, has no activity, and its memory is all 0.
    Failed,
}

/// What the world keeps of a driver.
#[derive(Clone, Copy, PartialEq, Eq, Debug)]
pub struct DriverState {
    pub standing: Standing,
    /// The task of its last load, from 1 to 8, on which it is started anew after a failure; 0 before the first load.
    pub task: u8,
    /// How often it may still be started anew by itself, from 0 to 100.
    pub restarts: u8,
    /// Whether it has failed and is to be started anew at the end of the event.
    pub is_due: bool,
}

/// What the world keeps of the run.
#[derive(Clone, Copy, PartialEq, Eq, Debug)]
pub struct RunState {
    /// The drivers, `d1` first.
    pub drivers: [DriverState; 4],
    /// Of each interrupt line, from 0 to 63, whether it was raised and not served yet.
    pub waiting: [bool; 64],
    /// How many steps may still be taken.
    pub left: u32,
    /// Whether the task that runs has met a lock that another activity holds.
    pub is_blocked: bool,
    /// Whether a step was needed when none was left.
    pub is_stopped: bool,
    /// Whether a step had no meaning: it would reach memory that was not granted.
    pub is_astray: bool,
    /// Whether a driver has failed, or a step had no meaning.
    pub has_failed: bool,
}
