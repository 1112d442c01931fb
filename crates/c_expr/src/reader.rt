//! `read_expr`: the longest expression that begins at a word.
ghost use Rattle.std.specs.Prelude.{◌≡◌, ℕ, ◌<◌, ◌≤◌, ◌⊎◌, length, slice_range, Err, IfOk, IfErr};
ghost use Rattle.c_tree.specs.declared.expressions.Expr.{Expr};
ghost use Rattle.c_tree.specs.Bytes.{Text};
ghost use Rattle.c_tree.specs.Division.{IsDivision};
ghost use Rattle.c_tree.specs.ExpressionGrammar.{IsExpr};
ghost use Rattle.c_tree.specs.Short.{IsShortExpr};

use crate::ExpressionRefusal;
use crate::expressions::row;
use c_tree::{Expr, Token};
use std::alloc::Global;

/// The longest expression that begins at the word `at` of a divided text, and the place after it.
///
/// Refused with `NoExpr(at)` exactly where no expression begins there, and with `Memory` where memory is wanting.
pub fn read_expr(
    alloc: Global,
    words: &[Token],
    at: usize,
) -> Result<(Expr, usize), ExpressionRefusal>
    requires place { at ≤ length words.now }
    requires divided { (text : Text) × IsDivision text words.now }
    ensures found { IfOk result (λ a. IsExpr (slice_range words.now at a.1) a.0) }
    ensures within { IfOk result (λ a. (at < a.1) × (a.1 ≤ length words.now)) }
    ensures longest { IfOk result (λ a. (n : ℕ) (x : Expr) → n ≤ length words.now → IsExpr (slice_range words.now at n) x → (n < a.1) ⊎ ((n ≡ a.1) × (x ≡ a.0))) }
    ensures none { (place : ℕ) → result ≡ Err (ExpressionRefusal.NoExpr place) → (place ≡ at) × ((n : ℕ) (x : Expr) → n ≤ length words.now → IsExpr (slice_range words.now at n) x → ⊥) }
    ensures short { IfOk result (λ a. IsShortExpr a.0) }
    ensures refusals { IfErr result (λ refusal. (refusal ≡ ExpressionRefusal.NoExpr at) ⊎ (refusal ≡ ExpressionRefusal.Memory)) }
{
    let (_, from) = words.split_at(at);
    let Some((found, rest)) = row(alloc, 0, from)? else {
        return Err(ExpressionRefusal::NoExpr(at));
    };
    Ok((found.into_inner(), words.len() - rest.len()))
}
