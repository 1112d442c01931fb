//! Statements and bodies: each with its checks, behind those of the function so far; and the line of the first that no rule derives.
ghost use Rattle.std.specs.Prelude.{◌≡◌, ◌<◌, ◌^◌, [], map};
ghost use Rattle.checked_tree.specs.declared.statements.CheckedStmt.TheVariants as statement;
ghost use Rattle.deputy_rules.specs.Checking.{in_turn};
ghost use Rattle.deputy_rules.specs.Deriving.{Derives};
ghost use Rattle.deputy_rules.specs.Statements as spec;
ghost use Rattle.rules_assign.specs.AreFewSlots.{AreFewSlots};
ghost use Rattle.check_numbering.specs.Building.{numbers_of};
ghost use Rattle.check_numbering.specs.Outcome.{Checks};
ghost use Rattle.check_numbering.specs.Placed.{placed};

use crate::actions::{Home, act, controlling};
use c_tree::{Action, Body, Expr, Simple, Stmt};
use check_numbering::{Build, RuleRefusal, at_line, number_checks};
use checked_tree::{CheckedExpr, CheckedStmt};
use deputy_rules::{Asked, DerivingRefusal};
use rules_values::Context;
use sqlite_items::{Boxed, Items};
use std::alloc::Global;

/// A simple statement on this line, behind so many checks.
fn act_at(
    alloc: Global,
    ctx: &Context<'_>,
    line: u32,
    first: usize,
    home: &Home<'_>,
    action: &Action,
    own: &mut Items<Asked>,
) -> Result<CheckedStmt, DerivingRefusal>
    requires fits { AreFewSlots ctx.now.table ctx.now.slots }
    requires first { first < 2 ^ 63 }
    ensures { Derives (spec.act (placed ctx.now line first) home.now action.now own.old) result own.new }
{
    let here = Context {
        types: ctx.types,
        locals: ctx.locals,
        slots: ctx.slots,
        line,
        first,
    };
    act(alloc, &here, home, action, own)
}

/// The controlling expression of an `if` or `while` on this line, behind so many checks.
fn controlling_at(
    alloc: Global,
    ctx: &Context<'_>,
    line: u32,
    first: usize,
    e: &Expr,
    own: &mut Items<Asked>,
) -> Result<Boxed<CheckedExpr>, DerivingRefusal>
    requires { first < 2 ^ 63 }
    ensures { Derives (spec.controlling (placed ctx.now line first) e.now own.old) result own.new }
{
    let here = Context {
        types: ctx.types,
        locals: ctx.locals,
        slots: ctx.slots,
        line,
        first,
    };
    controlling(alloc, &here, e, own)
}

/// A simple statement, whose checks stand behind those of the function.
fn simple(
    alloc: Global,
    ctx: &Context<'_>,
    home: &Home<'_>,
    s: &Simple,
    build: &mut Build,
) -> Result<CheckedStmt, RuleRefusal>
    requires { AreFewSlots ctx.now.table ctx.now.slots }
    ensures { Checks (spec.simple ctx.now home.now s.now (numbers_of build.old)) result (numbers_of build.new) }
{
    let mut own = Items::new(alloc);
    match act_at(
        alloc,
        ctx,
        s.line,
        build.checks.as_slice().len(),
        home,
        &s.action,
        &mut own,
    ) {
        Ok(stmt) => match number_checks(
            alloc,
            &mut build.atoms,
            &mut build.checks,
            own.as_slice(),
        ) {
            Ok(()) => Ok(stmt),
            Err(refusal) => Err(at_line(s.line, refusal)),
        },
        Err(refusal) => Err(at_line(s.line, refusal)),
    }
}

/// The controlling expression of an `if` or `while` on this line, whose checks stand behind those of the function.
fn condition(
    alloc: Global,
    ctx: &Context<'_>,
    line: u32,
    e: &Expr,
    build: &mut Build,
) -> Result<Boxed<CheckedExpr>, RuleRefusal>
    ensures { Checks (spec.condition ctx.now line e.now (numbers_of build.old)) result (numbers_of build.new) }
{
    let mut own = Items::new(alloc);
    match controlling_at(alloc, ctx, line, build.checks.as_slice().len(), e, &mut own) {
        Ok(form) => match number_checks(
            alloc,
            &mut build.atoms,
            &mut build.checks,
            own.as_slice(),
        ) {
            Ok(()) => Ok(form),
            Err(refusal) => Err(at_line(line, refusal)),
        },
        Err(refusal) => Err(at_line(line, refusal)),
    }
}

/// A body that is one simple statement.
#[tactic(auto, unfolding(deputy_rules::specs::Checking::afterwards, deputy_rules::specs::Statements::single))]
fn single(
    alloc: Global,
    ctx: &Context<'_>,
    home: &Home<'_>,
    s: &Simple,
    build: &mut Build,
) -> Result<Items<CheckedStmt>, RuleRefusal>
    requires { AreFewSlots ctx.now.table ctx.now.slots }
    ensures { Checks (spec.single ctx.now home.now s.now (numbers_of build.old)) result (numbers_of build.new) }
{
    let mut body = Items::new(alloc);
    body.push(simple(alloc, ctx, home, s, build)?)?;
    Ok(body)
}

/// The form of an `if`.
fn if_form(
    line: u32,
    test: Boxed<CheckedExpr>,
    holds: Items<CheckedStmt>,
    fails: Items<CheckedStmt>,
) -> CheckedStmt
    ensures { result ≡ statement.If line test holds fails }
{
    CheckedStmt::If {
        line,
        test,
        holds,
        fails,
    }
}

/// A statement.
#[cycle(statement)]
#[tactic(auto, unfolding(deputy_rules::specs::Statements::check_statement, deputy_rules::specs::Statements::check_body, deputy_rules::specs::Checking::afterwards))]
fn check_statement(
    alloc: Global,
    ctx: &Context<'_>,
    home: &Home<'_>,
    statement: &Stmt,
    build: &mut Build,
) -> Result<CheckedStmt, RuleRefusal>
    requires { AreFewSlots ctx.now.table ctx.now.slots }
    ensures { Checks (spec.check_statement ctx.now home.now statement.now (numbers_of build.old)) result (numbers_of build.new) }
{
    match statement {
        Stmt::Simple(s) => simple(alloc, ctx, home, s, build),
        Stmt::If(line, e, a, b) => {
            let test = condition(alloc, ctx, *line, e.get(), build)?;
            let holds = check_body(alloc, ctx, home, a, build)?;
            match b {
                Some(body) => {
                    let fails = check_body(alloc, ctx, home, body, build)?;
                    Ok(if_form(*line, test, holds, fails))
                }
                None => Ok(if_form(*line, test, holds, Items::new(alloc))),
            }
        }
        Stmt::While(line, e, a) => {
            let test = condition(alloc, ctx, *line, e.get(), build)?;
            let body = check_body(alloc, ctx, home, a, build)?;
            Ok(CheckedStmt::While {
                line: *line,
                test,
                body,
            })
        }
    }
}

/// A body.
#[cycle(statement)]
#[tactic(auto, using(crate::proofs::StatementEquations::at_block), unfolding(deputy_rules::specs::Statements::check_statement, deputy_rules::specs::Statements::check_body))]
fn check_body(
    alloc: Global,
    ctx: &Context<'_>,
    home: &Home<'_>,
    body: &Body,
    build: &mut Build,
) -> Result<Items<CheckedStmt>, RuleRefusal>
    requires { AreFewSlots ctx.now.table ctx.now.slots }
    ensures { Checks (spec.check_body ctx.now home.now body.now (numbers_of build.old)) result (numbers_of build.new) }
{
    match body {
        Body::Block(list) => check_each(alloc, ctx, home, list.as_slice(), build),
        Body::Single(s) => single(alloc, ctx, home, s, build),
    }
}

/// Statements in turn. `NoRule` with the line of the first that no rule derives.
#[cycle(statement)]
#[tactic(auto, unfolding(deputy_rules::specs::Checking::afterwards))]
pub(crate) fn check_each(
    alloc: Global,
    ctx: &Context<'_>,
    home: &Home<'_>,
    list: &[Stmt],
    build: &mut Build,
) -> Result<Items<CheckedStmt>, RuleRefusal>
    requires { AreFewSlots ctx.now.table ctx.now.slots }
    ensures { Checks (in_turn (map (spec.check_statement ctx.now home.now) list.now) [] (numbers_of build.old)) result (numbers_of build.new) }
{
    let mut done = Items::new(alloc);
    for statement in list {
        done.push(check_statement(alloc, ctx, home, statement, build)?)?;
    }
    Ok(done)
}
