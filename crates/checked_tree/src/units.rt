//! `CheckedUnit`: a driver text that the rules derive, with its functions, its load image and the shapes of its types.
use crate::{Check, CheckedExpr, CheckedStmt, Scalar, Shape, StructShape};
use sd_base::Name;
use sqlite_items::Items;

/// A checked function.
#[derive(Debug, Drop)]
pub struct CheckedFn {
    pub name: Name,
    /// How many of its slots are parameters: the first ones.
    pub params: u32,
    /// Parameters, locals, then two hidden slots for each unannotated local pointer, each in text order.
    pub slots: Items<Shape>,
    pub result: Scalar,
    /// The expressions that its checks are sums of, bare, in the order of their first use. Equal expressions have one number.
    pub atoms: Items<CheckedExpr>,
    /// Its checks, by their numbers.
    pub checks: Items<Check>,
    pub body: Items<CheckedStmt>,
}

/// A block of the load image: a global, or the bytes of a string with a 0 behind them.
#[derive(Debug, Drop)]
pub struct ImageBlock {
    /// The address of its first byte.
    pub base: u32,
    /// Its bytes in number: `count` times the element's size.
    pub size: u32,
    /// The number of its element's type.
    pub elem: u32,
    pub count: u32,
    pub nullterm: bool,
    pub bytes: Items<u8>,
}

/// A checked driver text.
#[derive(Debug, Drop)]
pub struct CheckedUnit {
    /// The functions with bodies, in text order.
    pub functions: Items<CheckedFn>,
    pub image: Items<ImageBlock>,
    /// The structs, in text order.
    pub structs: Items<StructShape>,
    /// The types of elements: `char` first, then the others in the order in which they first end in the text.
    pub elems: Items<Shape>,
}
