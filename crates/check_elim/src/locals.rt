//! Inequalities over locals: whether one reads memory, and the slots that it speaks of.
ghost use Rattle.std.specs.Prelude.{◌≡◌, ◌++◌, IfOk, OnOk, Option, Some, None, not, slice_get, option_copied};
ghost use Rattle.std.specs.List.{list_all, flat_map};
ghost use Rattle.checked_tree.specs.Redundant as spec;
ghost use Rattle.checked_tree.specs.Redundant.{atom_slots, slots_read, guard_terms};
ghost use Rattle.check_elim.specs.Tables.{reads_none, slots_in};

use checked_tree::{CheckedExpr, CheckedFn};
use dep_expr::Ineq;
use sqlite_items::at;
use std::alloc::{AllocError, Global};

/// Whether an expression reads memory somewhere.
#[tactic(auto, unfolding(checked_tree::specs::Redundant::reads_memory))]
fn reads_memory(e: &CheckedExpr) -> bool
    ensures { result ≡ spec.reads_memory e.now }
{
    match e {
        CheckedExpr::Number {
            value: _,
            scalar: _,
        } => false,
        CheckedExpr::Null => false,
        CheckedExpr::Local { slot: _ } => false,
        CheckedExpr::Block { base: _ } => false,
        CheckedExpr::Through { pointer, checks: _ } => reads_memory(pointer.get()),
        CheckedExpr::Element {
            pointer,
            index,
            size: _,
            checks: _,
        } => reads_memory(pointer.get()) || reads_memory(index.get()),
        CheckedExpr::Field {
            place,
            offset: _,
            checks: _,
        } => reads_memory(place.get()),
        CheckedExpr::Load {
            scalar: _,
            place: _,
        } => true,
        CheckedExpr::AddressOf { place } => reads_memory(place.get()),
        CheckedExpr::Moved {
            sum: _,
            pointer,
            by,
            size: _,
            checks: _,
        } => reads_memory(pointer.get()) || reads_memory(by.get()),
        CheckedExpr::Unary {
            op: _,
            scalar: _,
            of,
        } => reads_memory(of.get()),
        CheckedExpr::Binary {
            op: _,
            scalar: _,
            left,
            right,
            checks: _,
        } => reads_memory(left.get()) || reads_memory(right.get()),
        CheckedExpr::Compare {
            op: _,
            scalar: _,
            left,
            right,
        } => reads_memory(left.get()) || reads_memory(right.get()),
        CheckedExpr::Logical { op: _, left, right } => reads_memory(left.get())
            || reads_memory(right.get()),
    }
}

/// Appends the slots that an expression reads. The only refusal is want of memory.
#[tactic(auto, unfolding(checked_tree::specs::Redundant::slots_read))]
fn add_slots(e: &CheckedExpr, slots: &mut Vec<u32>) -> Result<(), AllocError>
    ensures { OnOk result (slots.new.items ≡ slots.old.items ++ slots_read e.now) }
{
    match e {
        CheckedExpr::Number {
            value: _,
            scalar: _,
        } => Ok(()),
        CheckedExpr::Null => Ok(()),
        CheckedExpr::Local { slot } => {
            slots.push(*slot)?;
            Ok(())
        }
        CheckedExpr::Block { base: _ } => Ok(()),
        CheckedExpr::Through { pointer, checks: _ } => add_slots(pointer.get(), slots),
        CheckedExpr::Element {
            pointer,
            index,
            size: _,
            checks: _,
        } => {
            add_slots(pointer.get(), slots)?;
            add_slots(index.get(), slots)
        }
        CheckedExpr::Field {
            place,
            offset: _,
            checks: _,
        } => add_slots(place.get(), slots),
        CheckedExpr::Load { scalar: _, place } => add_slots(place.get(), slots),
        CheckedExpr::AddressOf { place } => add_slots(place.get(), slots),
        CheckedExpr::Moved {
            sum: _,
            pointer,
            by,
            size: _,
            checks: _,
        } => {
            add_slots(pointer.get(), slots)?;
            add_slots(by.get(), slots)
        }
        CheckedExpr::Unary {
            op: _,
            scalar: _,
            of,
        } => add_slots(of.get(), slots),
        CheckedExpr::Binary {
            op: _,
            scalar: _,
            left,
            right,
            checks: _,
        } => {
            add_slots(left.get(), slots)?;
            add_slots(right.get(), slots)
        }
        CheckedExpr::Compare {
            op: _,
            scalar: _,
            left,
            right,
        } => {
            add_slots(left.get(), slots)?;
            add_slots(right.get(), slots)
        }
        CheckedExpr::Logical { op: _, left, right } => {
            add_slots(left.get(), slots)?;
            add_slots(right.get(), slots)
        }
    }
}

/// Whether an atom is there and reads no memory.
fn is_pure(f: &CheckedFn, atom: usize) -> bool
    ensures { result ≡ not (spec.atom_reads_memory (slice_get f.now.atoms atom)) }
{
    match at(f.atoms.as_slice(), atom) {
        None => false,
        Some(e) => !reads_memory(e),
    }
}

/// Whether no atom of these terms reads memory.
fn are_pure(f: &CheckedFn, terms: &[(i64, usize)]) -> bool
    ensures { result ≡ list_all (reads_none f.now) terms.now }
{
    for term in terms {
        if !is_pure(f, term.1) {
            return false;
        }
    }
    true
}

/// Whether an inequality speaks of locals alone: no atom of it or of its guard reads memory.
#[tactic(auto, unfolding(checked_tree::specs::Redundant::is_over_locals))]
pub(crate) fn is_over_locals(f: &CheckedFn, i: &Ineq) -> bool
    ensures { result ≡ spec.is_over_locals f.now i.now }
{
    match &i.guard {
        None => are_pure(f, i.left.terms()),
        Some(guard) => are_pure(f, i.left.terms()) && are_pure(f, guard.terms()),
    }
}

/// Appends the slots of an atom. The only refusal is want of memory.
fn add_atom_slots(f: &CheckedFn, atom: usize, slots: &mut Vec<u32>) -> Result<(), AllocError>
    ensures { OnOk result (slots.new.items ≡ slots.old.items ++ atom_slots (slice_get f.now.atoms atom)) }
{
    match at(f.atoms.as_slice(), atom) {
        None => Ok(()),
        Some(e) => add_slots(e, slots),
    }
}

/// Appends the slots of these terms. The only refusal is want of memory.
fn add_term_slots(
    f: &CheckedFn,
    terms: &[(i64, usize)],
    slots: &mut Vec<u32>,
) -> Result<(), AllocError>
    ensures { OnOk result (slots.new.items ≡ slots.old.items ++ flat_map (slots_in f.now) terms.now) }
{
    for term in terms {
        add_atom_slots(f, term.1, slots)?;
    }
    Ok(())
}

/// The slots of an inequality and of its guard. The only refusal is want of memory.
#[tactic(auto, unfolding(checked_tree::specs::Redundant::slots_of))]
pub(crate) fn slots_of(alloc: Global, f: &CheckedFn, i: &Ineq) -> Result<Vec<u32>, AllocError>
    ensures { IfOk result (λ slots. slots.items ≡ spec.slots_of f.now i.now) }
{
    let mut slots = Vec::new(alloc);
    add_term_slots(f, i.left.terms(), &mut slots)?;
    if let Some(guard) = &i.guard {
        add_term_slots(f, guard.terms(), &mut slots)?;
    }
    Ok(slots)
}
