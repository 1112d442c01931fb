//! `Types`: the names of the structs and the types of elements, by number.
use crate::{ElementList, NameList};

/// The names of the structs by their numbers, and the types of elements by theirs.
#[derive(Drop)]
pub struct Types {
    pub structs: NameList,
    pub elements: ElementList,
}
