//! `StructNames`: what is looked up of a struct by name or by member, beside its shape.
use crate::{Element, MemberList, NameList};
use sqlite_items::Items;

/// The names of a struct's members and of its unions, by number, and what the shapes of its members do not tell.
#[derive(Drop)]
pub struct StructNames {
    pub members: MemberList,
    pub unions: NameList,
    /// By member: whether it is an array, also one of 1 element.
    pub arrays: Items<bool>,
    /// By member: its type, of an array that of an element, where its annotation is constant. It need not be in the list of elements.
    pub keys: Items<Option<Element>>,
}
