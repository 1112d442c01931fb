//! `Live`: all of a world that changes.
use driver_host::Ground;
use driver_machine::Machine;

/// All of a world that changes: what drivers run upon, and their activities.
#[derive(Drop)]
pub struct Live {
    pub ground: Ground,
    pub machine: Machine,
}
