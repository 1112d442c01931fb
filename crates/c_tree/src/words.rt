//! `Word`, the words of a driver text, and `Token`, a word with its line.

use crate::{Keyword, Sign};
use sd_base::Name;
use sqlite_items::Items;

/// What stands after the digits of a number: at most one of `u U` and one of `l L`, in either order
/// (C99, 6.4.4.1).
#[derive(Clone, Copy, PartialEq, Eq, Debug)]
pub enum Suffix {
    /// No suffix.
    Plain,
    /// `u` or `U`.
    Unsigned,
    /// `l` or `L`.
    Long,
    /// Both.
    UnsignedLong,
}

/// A word of a driver text (C99, 6.4).
#[derive(Drop)]
pub enum Word {
    /// A name that is not reserved, of at most 63 bytes.
    Name(Name),
    /// A reserved word.
    Keyword(Keyword),
    /// A decimal, octal or hexadecimal number by its value, and its suffix.
    Number(u32, Suffix),
    /// A character constant by the byte that it stands for.
    Character(u8),
    /// A string by the bytes that it stands for, without the 0 at their end, and its number among
    /// the strings of the text, counted from 0.
    String(Items<u8>, u32),
    /// A sign.
    Sign(Sign),
}

/// A word and the line on which it begins, counted from 1.
#[derive(Drop)]
pub struct Token {
    pub word: Word,
    pub line: u32,
}
