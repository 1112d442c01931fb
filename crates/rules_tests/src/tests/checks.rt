//! Checks as text. An inequality is written by its left side, which is at most 0; a guard stands behind a bar.
use super::forms::{put, write_form};
use checked_tree::{Check, CheckedExpr, CheckedFn, Cond};
use dep_expr::Lin;
use std::fmt::Write;

/// What a function's atoms are called: its slots and its atoms by number.
#[derive(Clone, Copy)]
pub struct Atoms<'a> {
    pub names: &'a [String],
    pub forms: &'a [CheckedExpr],
}

/// An atom with what it is multiplied by.
fn write_term(out: &mut String, atoms: &Atoms<'_>, is_first: bool, times: i64, atom: usize) {
    if times < 0 {
        put(out, "-");
    } else if !is_first {
        put(out, "+");
    }
    if times.unsigned_abs() != 1 {
        let _ = write!(out, "{}*", times.unsigned_abs());
    }
    match atoms.forms.get(atom) {
        Some(form) => write_form(out, atoms.names, form),
        None => {
            let _ = write!(out, "atom {atom}");
        }
    }
}

/// A linear form, its atoms in the order of their numbers.
fn write_lin(out: &mut String, atoms: &Atoms<'_>, lin: &Lin) {
    let mut is_first = true;
    for (times, atom) in lin.terms() {
        write_term(out, atoms, is_first, *times, *atom);
        is_first = false;
    }
    let constant = lin.constant();
    if is_first {
        let _ = write!(out, "{constant}");
    } else if constant > 0 {
        let _ = write!(out, "+{constant}");
    } else if constant < 0 {
        let _ = write!(out, "{constant}");
    }
}

fn write_cond(out: &mut String, atoms: &Atoms<'_>, cond: &Cond) {
    match cond {
        Cond::Le(inequality) => {
            write_lin(out, atoms, &inequality.left);
            if let Some(guard) = &inequality.guard {
                put(out, " | ");
                write_lin(out, atoms, guard);
            }
        }
        Cond::Aligned { gap, size, guard } => {
            write_lin(out, atoms, gap);
            let _ = write!(out, " by {size} | ");
            write_lin(out, atoms, guard);
        }
        Cond::NonZero(number) => {
            write_lin(out, atoms, number);
            put(out, " not 0");
        }
        Cond::Equal(number, value) => {
            write_lin(out, atoms, number);
            let _ = write!(out, " is {value}");
        }
        Cond::Term { at, new } => {
            put(out, "at ");
            write_lin(out, atoms, at);
            if let Some(byte) = new {
                put(out, " new ");
                write_lin(out, atoms, byte);
            }
        }
        Cond::Kept { tag, new, at, size } => {
            put(out, "old ");
            write_lin(out, atoms, tag);
            put(out, " new ");
            write_lin(out, atoms, new);
            put(out, " at ");
            write_lin(out, atoms, at);
            let _ = write!(out, " bytes {size}");
        }
    }
}

/// A check: its kind and its condition.
fn write_check(out: &mut String, atoms: &Atoms<'_>, check: &Check) {
    let _ = write!(out, "{:?} ", check.kind);
    write_cond(out, atoms, &check.cond);
}

/// The checks of a function, each on a line of its own with two spaces before it. The number of a check stands there only where it is not its place counted
/// from 1, and its line only where it is not this one.
pub fn write_checks(out: &mut String, names: &[String], function: &CheckedFn, line: u32) {
    let atoms = Atoms {
        names,
        forms: function.atoms.as_slice(),
    };
    let mut number = 1;
    for check in function.checks.as_slice() {
        put(out, "  ");
        if check.id != number {
            let _ = write!(out, "#{} ", check.id);
        }
        if check.line != line {
            let _ = write!(out, "{} ", check.line);
        }
        write_check(out, &atoms, check);
        put(out, "\n");
        number = number.saturating_add(1);
    }
}
