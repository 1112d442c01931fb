//! What a check tests, over the numbers of atoms.
ghost use Rattle.deputy_rules.specs.Numbering as spec;
ghost use Rattle.deputy_rules.specs.Numbering.{Leaves};
ghost use Rattle.std.specs.Prelude.{option_copied};

use crate::Atoms;
use crate::forming::{difference, single, whole};
use checked_tree::{Cond, Part, Sum};
use dep_expr::Ineq;
use deputy_rules::{AskedCond, DerivingRefusal};
use std::alloc::Global;

/// The left sum is at most the right one.
#[tactic(auto, unfolding(deputy_rules::specs::Numbering::at_most))]
fn at_most(
    alloc: Global,
    atoms: &mut Atoms,
    left: &Sum,
    right: &Sum,
) -> Result<Cond, DerivingRefusal>
    ensures { Leaves (spec.at_most left.now right.now atoms.old) result atoms.new }
{
    let left = difference(alloc, atoms, left, right)?;
    Ok(Cond::Le(Ineq { left, guard: None }))
}

/// The left sum is at most the right one, or the guard is 0.
#[tactic(auto, unfolding(deputy_rules::specs::Numbering::guarded))]
fn guarded(
    alloc: Global,
    atoms: &mut Atoms,
    left: &Sum,
    right: &Sum,
    guard: &Sum,
) -> Result<Cond, DerivingRefusal>
    ensures { Leaves (spec.guarded left.now right.now guard.now atoms.old) result atoms.new }
{
    let left = difference(alloc, atoms, left, right)?;
    let guard = whole(alloc, atoms, guard)?;
    Ok(Cond::Le(Ineq {
        left,
        guard: Some(guard),
    }))
}

/// The value lies a multiple of the size past the low bound, or the guard is 0.
#[tactic(auto, unfolding(deputy_rules::specs::Numbering::aligned))]
fn aligned(
    alloc: Global,
    atoms: &mut Atoms,
    value: &Sum,
    low: &Sum,
    size: u32,
    guard: &Sum,
) -> Result<Cond, DerivingRefusal>
    ensures { Leaves (spec.aligned value.now low.now size guard.now atoms.old) result atoms.new }
{
    let gap = difference(alloc, atoms, value, low)?;
    let guard = whole(alloc, atoms, guard)?;
    Ok(Cond::Aligned { gap, size, guard })
}

/// The byte at the address is not 0, or the new byte is 0 where there is one.
#[tactic(auto, unfolding(deputy_rules::specs::Numbering::term))]
fn term(
    alloc: Global,
    atoms: &mut Atoms,
    at: &Sum,
    new: Option<&Part>,
) -> Result<Cond, DerivingRefusal>
    ensures { Leaves (spec.term at.now (option_copied new.entry) atoms.old) result atoms.new }
{
    let at = whole(alloc, atoms, at)?;
    match new {
        None => Ok(Cond::Term { at, new: None }),
        Some(new) => {
            let new = single(alloc, atoms, new)?;
            Ok(Cond::Term { at, new: Some(new) })
        }
    }
}

/// The tag keeps its value, or the `size` bytes at the address are all 0. The new value is numbered first.
#[tactic(auto, unfolding(deputy_rules::specs::Numbering::kept))]
fn kept(
    alloc: Global,
    atoms: &mut Atoms,
    old: &Part,
    new: &Part,
    at: &Sum,
    size: u32,
) -> Result<Cond, DerivingRefusal>
    ensures { Leaves (spec.kept old.now new.now at.now size atoms.old) result atoms.new }
{
    let new = single(alloc, atoms, new)?;
    let tag = single(alloc, atoms, old)?;
    let at = whole(alloc, atoms, at)?;
    Ok(Cond::Kept { tag, new, at, size })
}

/// The number is not 0.
#[tactic(auto, unfolding(deputy_rules::specs::Numbering::non_zero))]
fn non_zero(alloc: Global, atoms: &mut Atoms, part: &Part) -> Result<Cond, DerivingRefusal>
    ensures { Leaves (spec.non_zero part.now atoms.old) result atoms.new }
{
    let number = single(alloc, atoms, part)?;
    Ok(Cond::NonZero(number))
}

/// The number is this one.
#[tactic(auto, unfolding(deputy_rules::specs::Numbering::equal))]
fn equal(alloc: Global, atoms: &mut Atoms, part: &Part, z: i64) -> Result<Cond, DerivingRefusal>
    ensures { Leaves (spec.equal part.now z atoms.old) result atoms.new }
{
    let number = single(alloc, atoms, part)?;
    Ok(Cond::Equal(number, z))
}

/// What a check tests, over the numbers of atoms. `NoRule` where one of its forms is not light.
#[tactic(auto, unfolding(deputy_rules::specs::Numbering::conditioned))]
pub(crate) fn condition(
    alloc: Global,
    atoms: &mut Atoms,
    asked: &AskedCond,
) -> Result<Cond, DerivingRefusal>
    ensures { Leaves (spec.conditioned asked.now atoms.old) result atoms.new }
{
    match asked {
        AskedCond::Le { left, right } => at_most(alloc, atoms, left, right),
        AskedCond::Guarded { left, right, guard } => guarded(alloc, atoms, left, right, guard),
        AskedCond::Aligned {
            value,
            low,
            size,
            guard,
        } => aligned(alloc, atoms, value, low, *size, guard),
        AskedCond::NonZero(part) => non_zero(alloc, atoms, part),
        AskedCond::Equal(part, z) => equal(alloc, atoms, part, *z),
        AskedCond::Term { at, new } => term(alloc, atoms, at, new.as_ref()),
        AskedCond::Kept { old, new, at, size } => kept(alloc, atoms, old, new, at, *size),
    }
}
