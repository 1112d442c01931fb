//! `Check`: a run-time check, and its condition over the atoms of its function.
use dep_expr::{Ineq, Lin};
use sd_base::CheckKind;

/// What a check tests. Each linear form is over the numbers of the function's atoms, in merged form.
#[derive(Debug, Drop)]
pub enum Cond {
    /// The inequality holds, or its guard is 0.
    Le(Ineq),
    /// The gap is a multiple of the size, or the guard is 0.
    Aligned {
        gap: Lin,
        size: u32,
        guard: Lin,
    },
    /// The number is not 0.
    NonZero(Lin),
    /// The number is this one.
    Equal(Lin, i64),
    /// The byte at the address is not 0, or the new byte is 0 where there is one.
    Term {
        at: Lin,
        new: Option<Lin>,
    },
    /// The tag keeps its value, or the `size` bytes at the address are all 0.
    Kept {
        tag: Lin,
        new: Lin,
        at: Lin,
        size: u32,
    },
}

/// A run-time check.
#[derive(Debug, Drop)]
pub struct Check {
    /// Its number in the function, counted from 1 in text order.
    pub id: usize,
    /// The line of its statement.
    pub line: u32,
    pub kind: CheckKind,
    pub cond: Cond,
}
