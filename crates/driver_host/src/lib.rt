//! What drivers run upon: the kernel's tables, the memory of each driver, the devices, how the run stands, and what is told of it.
//!
//! `Host` stands for a lawful history of the kernel, the bytes of each driver's memory with the blocks that this history grants, and the
//! answers that wait at ports (`specs/Hosting.antt`). `Ground` stands for all of a world but its activities (`specs/Grounds.antt`), and each
//! of its calls carries out a script of the world's definition.
#![tactic(auto)]

mod ground;
mod host;
mod printing;
pub mod run_changes;

pub use ground::{Ground, kernel_reply, kernel_update};
pub use host::Host;
