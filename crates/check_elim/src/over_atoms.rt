//! What an edge tells over slots, as an inequality over the atoms of a function.
ghost use Rattle.std.specs.Prelude.{◌≡◌, ◌<◌, ◌^◌, ◌++◌, IfOk, OnOk, unsigned_abs, option_map, Some, None, drop};
ghost use Rattle.check_elim.specs.Light.{IsLight, renamed_form};
ghost use Rattle.checked_tree.specs.Redundant.{fact_over_atoms, terms_over_atoms, atom_of_slot, local_slot, is_slot};
ghost use Rattle.checked_tree.specs.declared.expressions.CheckedExpr.{out-CheckedExpr};

use checked_tree::{CheckedExpr, CheckedFn};
use dep_expr::{Ineq, Lin};
use std::alloc::{AllocError, Global};

/// Whether an expression is the local in a slot.
fn is_local(e: &CheckedExpr, slot: usize) -> bool
    ensures { result ≡ is_slot slot (local_slot (out-CheckedExpr e.now)) }
{
    match e {
        CheckedExpr::Local { slot: own } => *own as usize == slot,
        CheckedExpr::Number {
            value: _,
            scalar: _,
        } => false,
        CheckedExpr::Null => false,
        CheckedExpr::Block { base: _ } => false,
        CheckedExpr::Through {
            pointer: _,
            checks: _,
        } => false,
        CheckedExpr::Element {
            pointer: _,
            index: _,
            size: _,
            checks: _,
        } => false,
        CheckedExpr::Field {
            place: _,
            offset: _,
            checks: _,
        } => false,
        CheckedExpr::Load {
            scalar: _,
            place: _,
        } => false,
        CheckedExpr::AddressOf { place: _ } => false,
        CheckedExpr::Moved {
            sum: _,
            pointer: _,
            by: _,
            size: _,
            checks: _,
        } => false,
        CheckedExpr::Unary {
            op: _,
            scalar: _,
            of: _,
        } => false,
        CheckedExpr::Binary {
            op: _,
            scalar: _,
            left: _,
            right: _,
            checks: _,
        } => false,
        CheckedExpr::Compare {
            op: _,
            scalar: _,
            left: _,
            right: _,
        } => false,
        CheckedExpr::Logical {
            op: _,
            left: _,
            right: _,
        } => false,
    }
}

/// The number of the atom that is the local in a slot, if there is one.
fn atom(f: &CheckedFn, slot: usize) -> Option<usize>
    ensures { result ≡ atom_of_slot f.now slot }
{
    let atoms = f.atoms.as_slice();
    for number in 0..atoms.len() {
        if is_local(&atoms[number], slot) {
            return Some(number);
        }
    }
    None
}

/// A form over slots as one over atoms, where each slot is an atom. The only refusal is want of memory.
fn renamed(alloc: Global, f: &CheckedFn, over_slots: &Lin) -> Result<Option<Lin>, AllocError>
    ensures { IfOk result (λ form. form ≡ renamed_form over_slots.now.constant (terms_over_atoms f.now over_slots.now.terms)) }
{
    let mut form = Lin::number(alloc, over_slots.constant());
    let terms = over_slots.terms();
    for term in terms {
        let (by, slot) = *term;
        let Some(number) = atom(f, slot) else {
            return Ok(None);
        };
        form.add_atom(by, number)?;
    }
    Ok(Some(form))
}

/// A fact over slots as an inequality over atoms, as inequalities are compared. A fact of which some local is no atom is none. The only
/// refusal is want of memory.
#[tactic(auto, unfolding(crate::specs::Light::IsLight))]
pub(crate) fn over_atoms(
    alloc: Global,
    f: &CheckedFn,
    form: &Lin,
) -> Result<Option<Ineq>, AllocError>
    requires { IsLight form.now }
    ensures { IfOk result (λ fact. fact ≡ fact_over_atoms f.now form.now) }
{
    let merged = form.merged()?;
    let form = renamed(alloc, f, &merged)?;
    match form {
        None => Ok(None),
        Some(sum) => Ok(Some(Ineq {
            left: sum.norm()?,
            guard: None,
        })),
    }
}
