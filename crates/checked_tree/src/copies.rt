//! Copies of expressions, parts and sums.
ghost use Rattle.std.specs.Prelude.{◌≡◌, IfOk};

use crate::{CheckedExpr, Part, Sum};
use sqlite_items::{Boxed, Items};
use std::alloc::{AllocError, Global};

/// A copy of an expression, with the numbers of its checks. The only refusal is want of memory.
pub fn copied(alloc: Global, e: &CheckedExpr) -> Result<CheckedExpr, AllocError>
    ensures { IfOk result (λ form. form ≡ e.now) }
{
    match e {
        CheckedExpr::Number { value, scalar } => Ok(CheckedExpr::Number {
            value: *value,
            scalar: *scalar,
        }),
        CheckedExpr::Null => Ok(CheckedExpr::Null),
        CheckedExpr::Local { slot } => Ok(CheckedExpr::Local { slot: *slot }),
        CheckedExpr::Block { base } => Ok(CheckedExpr::Block { base: *base }),
        CheckedExpr::Through { pointer, checks } => {
            let pointer = Boxed::new(alloc, copied(alloc, pointer.get())?)?;
            let checks = Items::from_slice(alloc, checks.as_slice())?;
            Ok(CheckedExpr::Through { pointer, checks })
        }
        CheckedExpr::Element {
            pointer,
            index,
            size,
            checks,
        } => {
            let pointer = Boxed::new(alloc, copied(alloc, pointer.get())?)?;
            let index = Boxed::new(alloc, copied(alloc, index.get())?)?;
            let checks = Items::from_slice(alloc, checks.as_slice())?;
            Ok(CheckedExpr::Element {
                pointer,
                index,
                size: *size,
                checks,
            })
        }
        CheckedExpr::Field {
            place,
            offset,
            checks,
        } => {
            let place = Boxed::new(alloc, copied(alloc, place.get())?)?;
            let checks = Items::from_slice(alloc, checks.as_slice())?;
            Ok(CheckedExpr::Field {
                place,
                offset: *offset,
                checks,
            })
        }
        CheckedExpr::Load { scalar, place } => {
            let place = Boxed::new(alloc, copied(alloc, place.get())?)?;
            Ok(CheckedExpr::Load {
                scalar: *scalar,
                place,
            })
        }
        CheckedExpr::AddressOf { place } => {
            let place = Boxed::new(alloc, copied(alloc, place.get())?)?;
            Ok(CheckedExpr::AddressOf { place })
        }
        CheckedExpr::Moved {
            sum,
            pointer,
            by,
            size,
            checks,
        } => {
            let pointer = Boxed::new(alloc, copied(alloc, pointer.get())?)?;
            let by = Boxed::new(alloc, copied(alloc, by.get())?)?;
            let checks = Items::from_slice(alloc, checks.as_slice())?;
            Ok(CheckedExpr::Moved {
                sum: *sum,
                pointer,
                by,
                size: *size,
                checks,
            })
        }
        CheckedExpr::Unary { op, scalar, of } => {
            let of = Boxed::new(alloc, copied(alloc, of.get())?)?;
            Ok(CheckedExpr::Unary {
                op: *op,
                scalar: *scalar,
                of,
            })
        }
        CheckedExpr::Binary {
            op,
            scalar,
            left,
            right,
            checks,
        } => {
            let left = Boxed::new(alloc, copied(alloc, left.get())?)?;
            let right = Boxed::new(alloc, copied(alloc, right.get())?)?;
            let checks = Items::from_slice(alloc, checks.as_slice())?;
            Ok(CheckedExpr::Binary {
                op: *op,
                scalar: *scalar,
                left,
                right,
                checks,
            })
        }
        CheckedExpr::Compare {
            op,
            scalar,
            left,
            right,
        } => {
            let left = Boxed::new(alloc, copied(alloc, left.get())?)?;
            let right = Boxed::new(alloc, copied(alloc, right.get())?)?;
            Ok(CheckedExpr::Compare {
                op: *op,
                scalar: *scalar,
                left,
                right,
            })
        }
        CheckedExpr::Logical { op, left, right } => {
            let left = Boxed::new(alloc, copied(alloc, left.get())?)?;
            let right = Boxed::new(alloc, copied(alloc, right.get())?)?;
            Ok(CheckedExpr::Logical {
                op: *op,
                left,
                right,
            })
        }
    }
}

/// A copy of a part. The only refusal is want of memory.
pub fn copied_part(alloc: Global, part: &Part) -> Result<Part, AllocError>
    ensures { IfOk result (λ p. p ≡ part.now) }
{
    match part {
        Part::Constant { times, value } => Ok(Part::Constant {
            times: *times,
            value: *value,
        }),
        Part::Atom { times, atom } => {
            let atom = Boxed::new(alloc, copied(alloc, atom.get())?)?;
            Ok(Part::Atom {
                times: *times,
                atom,
            })
        }
    }
}

/// A copy of a sum. The only refusal is want of memory.
pub fn copied_sum(alloc: Global, sum: &Sum) -> Result<Sum, AllocError>
    ensures { IfOk result (λ s. s ≡ sum.now) }
{
    let parts = copied_parts(alloc, sum.parts.as_slice())?;
    Ok(Sum { parts })
}

/// Copies of parts, in order.
fn copied_parts(alloc: Global, parts: &[Part]) -> Result<Items<Part>, AllocError>
    ensures { IfOk result (λ copies. copies ≡ parts.now) }
{
    let mut copies = Items::new(alloc);
    for part in parts {
        copies.push(copied_part(alloc, part)?)?;
    }
    Ok(copies)
}
