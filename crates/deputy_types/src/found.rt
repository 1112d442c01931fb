//! `Found`: what is found in a text, in its order.
use crate::ElementList;
use sqlite_items::Items;

/// What was found: the types of elements, the strings, and how many strings stand before the end of each function.
#[derive(Drop)]
pub struct Found {
    pub elements: ElementList,
    pub strings: Items<Items<u8>>,
    pub ends: Items<usize>,
}
