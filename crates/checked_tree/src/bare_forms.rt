//! `bare`: a copy of an expression without the numbers of its checks.
ghost use Rattle.std.specs.Prelude.{◌≡◌, IfOk};
ghost use Rattle.checked_tree.specs.Bare.{bare};

use crate::CheckedExpr;
use sqlite_items::{Boxed, Items};
use std::alloc::{AllocError, Global};

/// A copy without the numbers of checks. Two expressions are equal where their bare forms are. The only refusal is want of memory.
#[tactic(auto, unfolding(crate::specs::Bare::bare))]
pub fn bare(alloc: Global, e: &CheckedExpr) -> Result<CheckedExpr, AllocError>
    ensures { IfOk result (λ form. form ≡ bare e.now) }
{
    match e {
        CheckedExpr::Number { value, scalar } => Ok(CheckedExpr::Number {
            value: *value,
            scalar: *scalar,
        }),
        CheckedExpr::Null => Ok(CheckedExpr::Null),
        CheckedExpr::Local { slot } => Ok(CheckedExpr::Local { slot: *slot }),
        CheckedExpr::Block { base } => Ok(CheckedExpr::Block { base: *base }),
        CheckedExpr::Through { pointer, checks: _ } => {
            let pointer = Boxed::new(alloc, bare(alloc, pointer.get())?)?;
            Ok(CheckedExpr::Through {
                pointer,
                checks: Items::new(alloc),
            })
        }
        CheckedExpr::Element {
            pointer,
            index,
            size,
            checks: _,
        } => {
            let pointer = Boxed::new(alloc, bare(alloc, pointer.get())?)?;
            let index = Boxed::new(alloc, bare(alloc, index.get())?)?;
            Ok(CheckedExpr::Element {
                pointer,
                index,
                size: *size,
                checks: Items::new(alloc),
            })
        }
        CheckedExpr::Field {
            place,
            offset,
            checks: _,
        } => {
            let place = Boxed::new(alloc, bare(alloc, place.get())?)?;
            Ok(CheckedExpr::Field {
                place,
                offset: *offset,
                checks: Items::new(alloc),
            })
        }
        CheckedExpr::Load { scalar, place } => {
            let place = Boxed::new(alloc, bare(alloc, place.get())?)?;
            Ok(CheckedExpr::Load {
                scalar: *scalar,
                place,
            })
        }
        CheckedExpr::AddressOf { place } => {
            let place = Boxed::new(alloc, bare(alloc, place.get())?)?;
            Ok(CheckedExpr::AddressOf { place })
        }
        CheckedExpr::Moved {
            sum,
            pointer,
            by,
            size,
            checks: _,
        } => {
            let pointer = Boxed::new(alloc, bare(alloc, pointer.get())?)?;
            let by = Boxed::new(alloc, bare(alloc, by.get())?)?;
            Ok(CheckedExpr::Moved {
                sum: *sum,
                pointer,
                by,
                size: *size,
                checks: Items::new(alloc),
            })
        }
        CheckedExpr::Unary { op, scalar, of } => {
            let of = Boxed::new(alloc, bare(alloc, of.get())?)?;
            Ok(CheckedExpr::Unary {
                op: *op,
                scalar: *scalar,
                of,
            })
        }
        CheckedExpr::Binary {
            op,
            scalar,
            left,
            right,
            checks: _,
        } => {
            let left = Boxed::new(alloc, bare(alloc, left.get())?)?;
            let right = Boxed::new(alloc, bare(alloc, right.get())?)?;
            Ok(CheckedExpr::Binary {
                op: *op,
                scalar: *scalar,
                left,
                right,
                checks: Items::new(alloc),
            })
        }
        CheckedExpr::Compare {
            op,
            scalar,
            left,
            right,
        } => {
            let left = Boxed::new(alloc, bare(alloc, left.get())?)?;
            let right = Boxed::new(alloc, bare(alloc, right.get())?)?;
            Ok(CheckedExpr::Compare {
                op: *op,
                scalar: *scalar,
                left,
                right,
            })
        }
        CheckedExpr::Logical { op, left, right } => {
            let left = Boxed::new(alloc, bare(alloc, left.get())?)?;
            let right = Boxed::new(alloc, bare(alloc, right.get())?)?;
            Ok(CheckedExpr::Logical {
                op: *op,
                left,
                right,
            })
        }
    }
}
