//! `check_expr`: an expression by itself, with its checks numbered.
ghost use Rattle.std.specs.Prelude.{◌<◌, ◌^◌};
ghost use Rattle.check_numbering.specs.Building.{numbers_of};
ghost use Rattle.check_numbering.specs.Outcome.{Checks};
ghost use Rattle.check_numbering.specs.Placed.{placed};
ghost use Rattle.deputy_rules.specs.Deriving.{Derives};
ghost use Rattle.deputy_rules.specs.Expressions as spec;
ghost use Rattle.deputy_rules.specs.Statements.{expression_alone};

use c_tree::Expr;
use check_numbering::{Build, RuleRefusal, at_line, number_checks};
use checked_tree::CheckedExpr;
use deputy_rules::{Asked, DerivingRefusal};
use rules_expr::expression;
use rules_values::Context;
use sqlite_items::{Boxed, Items};
use std::alloc::Global;

/// An expression by itself, behind so many checks.
fn expression_at(
    alloc: Global,
    ctx: &Context<'_>,
    first: usize,
    e: &Expr,
    own: &mut Items<Asked>,
) -> Result<Boxed<CheckedExpr>, DerivingRefusal>
    requires { first < 2 ^ 63 }
    ensures { Derives (spec.expression (placed ctx.now ctx.now.line first) e.now own.old) result own.new }
{
    let here = Context {
        types: ctx.types,
        locals: ctx.locals,
        slots: ctx.slots,
        line: ctx.line,
        first,
    };
    expression(alloc, &here, e, own)
}

/// The checked form of an expression by itself, with the checks that it asks for, numbered behind those of the function, whatever number of checks the context
/// tells.
///
/// `NoRule` on the line of the context exactly where no rule derives the expression; it says the same of a check whose linear forms are not light.
pub fn check_expr(
    alloc: Global,
    ctx: &Context<'_>,
    e: &Expr,
    out: &mut Build,
) -> Result<Boxed<CheckedExpr>, RuleRefusal>
    ensures { Checks (expression_alone ctx.now e.now (numbers_of out.old)) result (numbers_of out.new) }
{
    let mut own = Items::new(alloc);
    match expression_at(alloc, ctx, out.checks.as_slice().len(), e, &mut own) {
        Ok(form) => match number_checks(alloc, &mut out.atoms, &mut out.checks, own.as_slice()) {
            Ok(()) => Ok(form),
            Err(refusal) => Err(at_line(ctx.line, refusal)),
        },
        Err(refusal) => Err(at_line(ctx.line, refusal)),
    }
}
