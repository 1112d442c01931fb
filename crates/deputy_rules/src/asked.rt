//! `Asked`: a run-time check that a rule asks for, before its expressions have numbers.
use checked_tree::{Part, Sum};
use sd_base::CheckKind;

/// What a check tests, its sides apart as the rules write them. A `Part` here is an integer, with the factor 1.
#[derive(Debug, Drop)]
pub enum AskedCond {
    /// The left sum is at most the right one.
    Le {
        left: Sum,
        right: Sum,
    },
    /// The left sum is at most the right one, or the guard is 0.
    Guarded {
        left: Sum,
        right: Sum,
        guard: Sum,
    },
    /// The value lies a multiple of the size past the low bound, or the guard is 0.
    Aligned {
        value: Sum,
        low: Sum,
        size: u32,
        guard: Sum,
    },
    /// The number is not 0.
    NonZero(Part),
    /// The number is this one.
    Equal(Part, i64),
    /// The byte at the address is not 0, or the new byte is 0 where there is one.
    Term {
        at: Sum,
        new: Option<Part>,
    },
    /// The tag keeps its value, or the `size` bytes at the address are all 0.
    Kept {
        old: Part,
        new: Part,
        at: Sum,
        size: u32,
    },
}

/// A check that is asked for. Its number is that of its place, behind the checks that the function has already.
#[derive(Debug, Drop)]
pub struct Asked {
    /// The line of its statement.
    pub line: u32,
    pub kind: CheckKind,
    pub cond: AskedCond,
}
