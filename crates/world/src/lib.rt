//! The world that carries the events of a scenario out: what its definition says of each event is done over the kernel's tables, the machine
//! and the devices.
#![tactic(auto)]

mod asking;
mod beginning;
mod calling;
mod clock;
mod delivering;
mod drivers;
mod handling;
mod happening;
mod image;
mod inputs;
mod leaving;
mod live;
mod loading;
mod obstacles;
mod restarting;
mod stepping;
mod tasks;
mod whole_run;
mod working;
mod world;

pub use drivers::Drivers;
pub use live::Live;
pub use whole_run::{Ended, RunFault, run_scenario};
pub use world::World;
