//! `l = e`: both sides in turn, then the assignment to what l derives.
ghost use Rattle.deputy_rules.specs.Assignment as spec;
ghost use Rattle.deputy_rules.specs.Deriving.{Derives};
ghost use Rattle.rules_assign.specs.AreFewSlots.{AreFewSlots};

use c_tree::Expr;
use checked_tree::CheckedStmt;
use deputy_rules::{Asked, DerivingRefusal};
use rules_assign::assign_to;
use rules_expr::derive;
use rules_values::Context;
use sqlite_items::Items;
use std::alloc::Global;

/// `l = e`: the checks of e, those of l's place, that a terminator stays, the coercion of e to l's type with the present values of the names, the coercion of each
/// sibling whose type names l, and that a tag's union is clear. No rule where l is no integer or pointer local or place, or e has no such type.
#[tactic(auto, unfolding(deputy_rules::specs::Deriving::bind, deputy_rules::specs::Assignment::assign))]
pub(crate) fn assign(
    alloc: Global,
    ctx: &Context<'_>,
    l: &Expr,
    e: &Expr,
    asked: &mut Items<Asked>,
) -> Result<CheckedStmt, DerivingRefusal>
    requires { AreFewSlots ctx.now.table ctx.now.slots }
    ensures { Derives (spec.assign ctx.now l.now e.now asked.old) result asked.new }
{
    let value = derive(alloc, ctx, e, asked)?;
    let target = derive(alloc, ctx, l, asked)?;
    assign_to(alloc, ctx, value, target, asked)
}
