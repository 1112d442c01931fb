//! The operators before one operand.
ghost use Rattle.deputy_rules.specs.Deriving.{Derives};
ghost use Rattle.deputy_rules.specs.Operators as spec;

use crate::places::followed;
use crate::pointers::address_of;
use c_tree::Unary;
use deputy_rules::{Asked, Derived, DerivingRefusal};
use rules_values::{Context, minus, not_of, on_integer, pointer_of};
use sqlite_items::Items;
use std::alloc::Global;

/// `*e`.
#[tactic(auto, unfolding(deputy_rules::specs::Deriving::bind))]
fn dereferenced(
    alloc: Global,
    ctx: &Context<'_>,
    of: Derived,
    asked: &mut Items<Asked>,
) -> Result<Derived, DerivingRefusal>
    ensures { Derives (spec.dereferenced ctx.now of asked.old) result asked.new }
{
    let pointer = pointer_of(alloc, ctx, of)?;
    followed(alloc, ctx, pointer, asked)
}

/// The operators before an operand.
#[tactic(auto, unfolding(deputy_rules::specs::Operators::unary))]
pub fn unary(
    alloc: Global,
    ctx: &Context<'_>,
    op: Unary,
    of: Derived,
    asked: &mut Items<Asked>,
) -> Result<Derived, DerivingRefusal>
    ensures { Derives (spec.unary ctx.now op of asked.old) result asked.new }
{
    match op {
        Unary::Minus => minus(alloc, ctx, of),
        Unary::Complement => on_integer(alloc, ctx, checked_tree::Unary::Complement, of),
        Unary::Not => not_of(alloc, ctx, of),
        Unary::Plus => on_integer(alloc, ctx, checked_tree::Unary::Plus, of),
        Unary::Dereference => dereferenced(alloc, ctx, of, asked),
        Unary::Address => address_of(alloc, ctx, of),
    }
}
