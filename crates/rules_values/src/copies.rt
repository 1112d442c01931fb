//! Copies of expressions.
ghost use Rattle.std.specs.Prelude.{◌≡◌, IfOk};

use checked_tree::{CheckedExpr, copied};
use sqlite_items::Boxed;
use std::alloc::{AllocError, Global};

/// A copy of an expression in a box of its own. The only refusal is want of memory.
pub fn boxed_copy(alloc: Global, e: &CheckedExpr) -> Result<Boxed<CheckedExpr>, AllocError>
    ensures { IfOk result (λ form. form ≡ e.now) }
{
    Boxed::new(alloc, copied(alloc, e)?)
}
