//! `GlobalShape`: a global as it was declared, before it has a place in the load image.

/// A global.
#[derive(Clone, Copy, PartialEq, Eq, Debug)]
pub struct GlobalShape {
    /// The line of its first word.
    pub line: u32,
    /// The number of its element's type.
    pub elem: u32,
    /// How many elements: 1 where it is no array.
    pub count: u32,
    /// The bytes of one element.
    pub size: u32,
    /// Whether it is an array.
    pub array: bool,
    /// What it holds at first; 0 where nothing is written.
    pub value: i64,
}
