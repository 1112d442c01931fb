//! Sums over expressions: parts are listed as they are written, and nothing is added up. The only refusal is want of memory.
ghost use Rattle.std.specs.Prelude.{◌≡◌, map, IfOk};
ghost use Rattle.deputy_rules.specs.Pointers as pointers;
ghost use Rattle.deputy_rules.specs.Sums as spec;

use crate::copies::boxed_copy;
use checked_tree::{CheckedExpr, Part, Sum, bare};
use deputy_rules::{Whole, Written};
use sqlite_items::{Boxed, Items};
use std::alloc::{AllocError, Global};

/// A number, once.
pub fn constant_part(value: i64) -> Part
    ensures { result ≡ spec.constant_part value }
{
    Part::Constant { times: 1, value }
}

/// An expression, once.
pub fn atom_part(alloc: Global, e: &CheckedExpr) -> Result<Part, AllocError>
    ensures { IfOk result (λ p. p ≡ spec.atom_part e.now) }
{
    let atom = Boxed::new(alloc, bare(alloc, e)?)?;
    Ok(Part::Atom { times: 1, atom })
}

/// The sum of one part.
pub fn sum_of(alloc: Global, part: Part) -> Result<Sum, AllocError>
    ensures { IfOk result (λ s. s ≡ spec.sum_of part) }
{
    let mut parts = Items::new(alloc);
    parts.push(part)?;
    Ok(Sum { parts })
}

/// A number, as a sum.
pub fn constant(alloc: Global, value: i64) -> Result<Sum, AllocError>
    ensures { IfOk result (λ s. s ≡ spec.constant value) }
{
    sum_of(alloc, constant_part(value))
}

/// An expression, as a sum.
pub fn atom(alloc: Global, e: &CheckedExpr) -> Result<Sum, AllocError>
    ensures { IfOk result (λ s. s ≡ spec.atom e.now) }
{
    sum_of(alloc, atom_part(alloc, e)?)
}

/// The sum of two.
pub fn plus(a: Sum, b: Sum) -> Result<Sum, AllocError>
    ensures { IfOk result (λ s. s ≡ spec.plus a b) }
{
    let mut parts = a.parts;
    parts.append(b.parts)?;
    Ok(Sum { parts })
}

/// One part more.
pub fn with_part(a: Sum, part: Part) -> Result<Sum, AllocError>
    ensures { IfOk result (λ s. s ≡ spec.with_part a part) }
{
    let mut parts = a.parts;
    parts.push(part)?;
    Ok(Sum { parts })
}

/// So many bytes beyond.
pub fn beyond(a: Sum, bytes: i64) -> Result<Sum, AllocError>
    ensures { IfOk result (λ s. s ≡ spec.beyond a bytes) }
{
    with_part(a, constant_part(bytes))
}

/// A part that stands once, so many times.
pub fn times(n: i64, part: Part) -> Part
    ensures { result ≡ spec.times n part }
{
    match part {
        Part::Constant { times: _, value } => Part::Constant { times: n, value },
        Part::Atom { times: _, atom } => Part::Atom { times: n, atom },
    }
}

/// A sum whose parts stand once, so many times.
#[tactic(auto, unfolding(deputy_rules::specs::Sums::scaled))]
pub fn scaled(alloc: Global, n: i64, a: &Sum) -> Result<Sum, AllocError>
    ensures { IfOk result (λ s. s ≡ spec.scaled n a.now) }
{
    let parts = scaled_parts(alloc, n, a.parts.as_slice())?;
    Ok(Sum { parts })
}

/// Copies of parts that stand once, so many times.
fn scaled_parts(alloc: Global, n: i64, parts: &[Part]) -> Result<Items<Part>, AllocError>
    ensures { IfOk result (λ multiples. multiples ≡ map (spec.times n) parts.now) }
{
    let mut multiples = Items::new(alloc);
    for part in parts {
        multiples.push(scaled_part(alloc, n, part)?)?;
    }
    Ok(multiples)
}

/// A copy of a part that stands once, so many times.
fn scaled_part(alloc: Global, n: i64, part: &Part) -> Result<Part, AllocError>
    ensures { IfOk result (λ p. p ≡ spec.times n part.now) }
{
    match part {
        Part::Constant { times: _, value } => Ok(Part::Constant {
            times: n,
            value: *value,
        }),
        Part::Atom { times: _, atom } => {
            let atom = boxed_copy(alloc, atom.get())?;
            Ok(Part::Atom { times: n, atom })
        }
    }
}

/// The constant that an integer expression is in a check, if it is one.
pub fn constant_of(written: Written) -> Option<i64>
    ensures { result ≡ spec.constant_of written }
{
    match written {
        Written::Number { value, plain: _ } => Some(i64::from(value)),
        Written::Constant(z) => Some(z),
        Written::Other => None,
    }
}

/// A constant, or else the expression as a whole.
fn side_by(alloc: Global, constant: Option<i64>, e: &CheckedExpr) -> Result<Part, AllocError>
    ensures { IfOk result (λ p. p ≡ spec.side_by constant e.now) }
{
    match constant {
        Some(z) => Ok(constant_part(z)),
        None => atom_part(alloc, e),
    }
}

/// An integer expression in a check: a constant, or one atom as a whole.
#[tactic(auto, unfolding(deputy_rules::specs::Sums::side))]
pub fn side(alloc: Global, w: &Whole) -> Result<Part, AllocError>
    ensures { IfOk result (λ p. p ≡ spec.side w.now) }
{
    side_by(alloc, constant_of(w.written), w.form.get())
}

/// Whether an integer expression is the number n, written as such and without suffix.
pub fn is_written(n: u32, written: Written) -> bool
    ensures { result ≡ pointers.is_written n written }
{
    match written {
        Written::Number { value, plain } => plain && value == n,
        Written::Constant(_) => false,
        Written::Other => false,
    }
}
