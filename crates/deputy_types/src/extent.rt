//! `Extent`: the bytes of a type and its alignment.

/// How much room a type takes. A struct has at most 65,536 bytes, and its alignment is 1, 2 or 4.
#[derive(Clone, Copy, PartialEq, Eq, Debug)]
pub struct Extent {
    /// Its bytes.
    pub bytes: u32,
    /// Its address is a multiple of this.
    pub align: u32,
}
