//! `KernelArguments`: what a kernel call hands over.
use checked_tree::{Argument, PointerOperand};
use sqlite_items::Items;

/// What a kernel call hands over.
#[derive(Debug, Drop)]
pub struct KernelArguments {
    /// The integers, in order.
    pub numbers: Items<Argument>,
    pub pointer: Option<PointerOperand>,
    /// The number of the handler among the functions; 0 where there is none.
    pub handler: u32,
}
