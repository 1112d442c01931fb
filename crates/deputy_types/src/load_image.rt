//! `Image`: the load image of a text, while it is made.
use checked_tree::ImageBlock;
use sqlite_items::Items;

/// A load image so far.
#[derive(Drop)]
pub struct Image {
    pub blocks: Items<ImageBlock>,
    /// The end of the last block, at most 524,288; the bytes 0 to 15 are never granted.
    pub end: u32,
}
