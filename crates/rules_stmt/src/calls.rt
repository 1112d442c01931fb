//! Calls of functions: `f(..)` and `x = f(..)`.
ghost use Rattle.std.specs.Prelude.{[], map, option_copied};
ghost use Rattle.checked_tree.specs.declared.statements.CheckedStmt.TheVariants as statement;
ghost use Rattle.deputy_rules.specs.Calls as spec;
ghost use Rattle.deputy_rules.specs.Deriving.{Derives, bind, pure};

use crate::arguments::{coerce_each, of_arguments, pass_each, passed_arguments};
use c_tree::Expr;
use checked_tree::{CheckedStmt, Target};
use deputy_rules::{Asked, DerivingRefusal, Passed, Signature};
use rules_coerce::call_target;
use rules_heads::Functions;
use rules_values::Context;
use sd_base::Name;
use sqlite_items::Items;
use std::alloc::Global;

/// A call of the function with this number, whose arguments are derived.
#[tactic(auto, unfolding(deputy_rules::specs::Deriving::bind))]
fn call_passed(
    alloc: Global,
    ctx: &Context<'_>,
    target: Option<Target>,
    number: u32,
    f: &Signature,
    args: &[Passed],
    asked: &mut Items<Asked>,
) -> Result<CheckedStmt, DerivingRefusal>
    ensures { Derives
        (bind (spec.coerce_each ctx.now (spec.of_arguments args.now) f.now.params args.now [])
        (λ ids. pure (statement.Call ctx.now.line target number (map spec.passed_argument args.now) ids)) asked.old)
        result asked.new }
{
    let naming = of_arguments(alloc, args)?;
    let checks = coerce_each(alloc, ctx, &naming, f.params.as_slice(), args, asked)?;
    let arguments = passed_arguments(alloc, args)?;
    Ok(CheckedStmt::Call {
        line: ctx.line,
        target,
        function: number,
        arguments,
        checks,
    })
}

/// A call of the function with this number.
#[tactic(auto, unfolding(deputy_rules::specs::Deriving::bind, deputy_rules::specs::Calls::call_function))]
fn call_function(
    alloc: Global,
    ctx: &Context<'_>,
    number: u32,
    f: &Signature,
    x: Option<&Name>,
    args: &[Expr],
    asked: &mut Items<Asked>,
) -> Result<CheckedStmt, DerivingRefusal>
    ensures { Derives (spec.call_function ctx.now number f.now (option_copied x.entry) args.now asked.old) result asked.new }
{
    match call_target(ctx, f.result.as_ref(), x) {
        Some(target) => {
            let passed = pass_each(alloc, ctx, f.params.as_slice(), args, asked)?;
            call_passed(alloc, ctx, target, number, f, passed.as_slice(), asked)
        }
        None => Err(DerivingRefusal::NoRule),
    }
}

/// A call of the function with this number, if there is one.
#[tactic(auto, unfolding(deputy_rules::specs::Deriving::bind, deputy_rules::specs::Calls::call_numbered))]
fn call_numbered(
    alloc: Global,
    ctx: &Context<'_>,
    functions: &Functions,
    number: u32,
    x: Option<&Name>,
    args: &[Expr],
    asked: &mut Items<Asked>,
) -> Result<CheckedStmt, DerivingRefusal>
    ensures { Derives (spec.call_numbered ctx.now functions.now number (option_copied x.entry) args.now asked.old) result asked.new }
{
    match functions.get(number) {
        Some(f) => call_function(alloc, ctx, number, f, x, args, asked),
        None => Err(DerivingRefusal::NoRule),
    }
}

/// A call of the function with this name: each name of a parameter stands for its converted argument. No rule where there is no such function with a body, an
/// argument is too many or too few or has no such type, or x may not take the result.
#[tactic(auto, unfolding(deputy_rules::specs::Deriving::bind, deputy_rules::specs::Calls::call_named))]
pub(crate) fn call_named(
    alloc: Global,
    ctx: &Context<'_>,
    functions: &Functions,
    name: &Name,
    x: Option<&Name>,
    args: &[Expr],
    asked: &mut Items<Asked>,
) -> Result<CheckedStmt, DerivingRefusal>
    ensures { Derives (spec.call_named ctx.now functions.now name.now (option_copied x.entry) args.now asked.old) result asked.new }
{
    match functions.number(name) {
        Some(number) => call_numbered(alloc, ctx, functions, number, x, args, asked),
        None => Err(DerivingRefusal::NoRule),
    }
}
