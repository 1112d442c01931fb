//! Simple statements, and the controlling expressions of `if` and `while`.
ghost use Rattle.std.specs.Prelude.{◌≡◌, Some, IfOk};
ghost use Rattle.checked_tree.specs.declared.statements.CheckedStmt.TheVariants as statement;
ghost use Rattle.deputy_rules.specs.Calls as calls;
ghost use Rattle.deputy_rules.specs.Deriving.{Derives, Yields, bind, pure};
ghost use Rattle.deputy_types.specs.Options.{and_then};
ghost use Rattle.deputy_rules.specs.Statements as spec;
ghost use Rattle.deputy_rules.specs.Values as values;
ghost use Rattle.deputy_rules.specs.Values.{value_of as value_in};
ghost use Rattle.rules_assign.specs.AreFewSlots.{AreFewSlots};

use crate::arguments::{coerce_value, pass, passed_argument};
use crate::assign::assign;
use crate::kernel::{call, kalloc, kfree};
use c_tree::{Action, Expr};
use checked_tree::{CheckedExpr, CheckedStmt, Shape};
use deputy_rules::{Asked, Derived, DerivingRefusal, Passed, Returned, UnionPlace, Value};
use rules_expr::derive;
use rules_heads::Functions;
use rules_values::{Context, field_form, of_slots, value_of};
use sqlite_items::{Boxed, Items};
use std::alloc::{AllocError, Global};
use std::marker::Model;

/// Where a body stands.
#[derive(Drop)]
pub(crate) struct Home<'a> {
    /// The functions of the text.
    pub functions: &'a Functions,
    /// The result of its own function.
    pub returned: &'a Returned,
}

impl<'a> Model for Home<'a> {
    ghost use Rattle.deputy_rules.specs.Statements.{Home as Spec};

    ghost Value = { Spec };

    ghost view = { λ h. record { functions = h.functions.now; result = h.returned.now } };
}

/// All bytes of a union place become 0. The only refusal is want of memory.
fn clear(
    alloc: Global,
    ctx: &Context<'_>,
    place: UnionPlace,
    offset: u32,
    size: u32,
) -> Result<CheckedStmt, AllocError>
    ensures { IfOk result (λ s. s ≡ spec.clear ctx.now place offset size) }
{
    let place = field_form(alloc, place.container, offset, Items::new(alloc))?;
    Ok(CheckedStmt::Zero {
        line: ctx.line,
        place,
        size,
    })
}

/// `zero(l)` for what was derived.
#[tactic(auto, unfolding(deputy_rules::specs::Deriving::bind, deputy_rules::specs::Statements::zero_of))]
fn zero_of(
    alloc: Global,
    ctx: &Context<'_>,
    derived: Derived,
    asked: &mut Items<Asked>,
) -> Result<CheckedStmt, DerivingRefusal>
    ensures { Derives (spec.zero_of ctx.now derived asked.old) result asked.new }
{
    match derived {
        Derived::Union(place) => match ctx.types.union_shape(place.structure, place.part) {
            Some(union) => Ok(clear(alloc, ctx, place, union.offset, union.size)?),
            None => Err(DerivingRefusal::NoRule),
        },
        Derived::Local(_) => Err(DerivingRefusal::NoRule),
        Derived::Place(_) => Err(DerivingRefusal::NoRule),
        Derived::Value(_) => Err(DerivingRefusal::NoRule),
        Derived::Array(_) => Err(DerivingRefusal::NoRule),
    }
}

/// `zero(l)`. No rule where l is no union place.
#[tactic(auto, unfolding(deputy_rules::specs::Deriving::bind, deputy_rules::specs::Statements::zero))]
fn zero(
    alloc: Global,
    ctx: &Context<'_>,
    l: &Expr,
    asked: &mut Items<Asked>,
) -> Result<CheckedStmt, DerivingRefusal>
    ensures { Derives (spec.zero ctx.now l.now asked.old) result asked.new }
{
    let derived = derive(alloc, ctx, l, asked)?;
    zero_of(alloc, ctx, derived, asked)
}

/// The value of a `return` that is passed, with the coercion to the result's type.
#[tactic(auto, unfolding(deputy_rules::specs::Deriving::bind))]
fn return_passed(
    alloc: Global,
    ctx: &Context<'_>,
    shape: &Shape,
    passed: &Passed,
    asked: &mut Items<Asked>,
) -> Result<CheckedStmt, DerivingRefusal>
    ensures { Derives
        (bind (calls.coerce_value ctx.now values.of_slots shape.now passed.now)
        (λ ids. pure (statement.Return ctx.now.line (Some (calls.passed_argument passed.now)) ids)) asked.old)
        result asked.new }
{
    let checks = coerce_value(alloc, ctx, &of_slots(), shape, passed, asked)?;
    let argument = passed_argument(alloc, passed)?;
    Ok(CheckedStmt::Return {
        line: ctx.line,
        value: Some(argument),
        checks,
    })
}

/// The value of a `return`, with the conversion or coercion to the result's type.
#[tactic(auto, unfolding(deputy_rules::specs::Deriving::bind, deputy_rules::specs::Statements::return_value))]
fn return_value(
    alloc: Global,
    ctx: &Context<'_>,
    shape: &Shape,
    e: &Expr,
    asked: &mut Items<Asked>,
) -> Result<CheckedStmt, DerivingRefusal>
    ensures { Derives (spec.return_value ctx.now shape.now e.now asked.old) result asked.new }
{
    let derived = derive(alloc, ctx, e, asked)?;
    let passed = pass(alloc, ctx, shape, derived)?;
    return_passed(alloc, ctx, shape, &passed, asked)
}

/// `return` alone stands in a `void` function, and with a value in any other.
#[tactic(auto, unfolding(deputy_rules::specs::Statements::return_from))]
fn return_from(
    alloc: Global,
    ctx: &Context<'_>,
    returned: &Returned,
    e: &Option<Boxed<Expr>>,
    asked: &mut Items<Asked>,
) -> Result<CheckedStmt, DerivingRefusal>
    ensures { Derives (spec.return_from ctx.now returned.now e.now asked.old) result asked.new }
{
    match returned {
        Returned::Nothing => match e {
            Some(_) => Err(DerivingRefusal::NoRule),
            None => Ok(CheckedStmt::Return {
                line: ctx.line,
                value: None,
                checks: Items::new(alloc),
            }),
        },
        Returned::Value(shape) => match e {
            Some(value) => return_value(alloc, ctx, shape, value.get(), asked),
            None => Err(DerivingRefusal::NoRule),
        },
    }
}

/// A simple statement. No rule where none derives it.
#[tactic(auto, unfolding(deputy_rules::specs::Statements::act))]
pub(crate) fn act(
    alloc: Global,
    ctx: &Context<'_>,
    home: &Home<'_>,
    action: &Action,
    asked: &mut Items<Asked>,
) -> Result<CheckedStmt, DerivingRefusal>
    requires { AreFewSlots ctx.now.table ctx.now.slots }
    ensures { Derives (spec.act ctx.now home.now action.now asked.old) result asked.new }
{
    match action {
        Action::Assign(l, e) => assign(alloc, ctx, l.get(), e.get(), asked),
        Action::Call(x, name, args) => {
            call(
                alloc,
                ctx,
                home.functions,
                x.as_ref(),
                name,
                args.as_slice(),
                asked,
            )
        }
        Action::Kalloc(x, type_name, e) => kalloc(alloc, ctx, x, type_name, e.get(), asked),
        Action::Kfree(e) => kfree(alloc, ctx, e.get(), asked),
        Action::Zero(l) => zero(alloc, ctx, l.get(), asked),
        Action::Return(e) => return_from(alloc, ctx, home.returned, e, asked),
        Action::Empty => Ok(CheckedStmt::Empty { line: ctx.line }),
    }
}

/// The form of an integer or pointer expression that is tested.
fn test_form(value: Value) -> Result<Boxed<CheckedExpr>, DerivingRefusal>
    ensures { Yields (spec.test_form value) result }
{
    match value {
        Value::Int(w) => Ok(w.form),
        Value::Pointer(p) => Ok(p.form),
        Value::Null => Err(DerivingRefusal::NoRule),
    }
}

/// The same of what was derived.
fn tested(
    alloc: Global,
    ctx: &Context<'_>,
    derived: Derived,
) -> Result<Boxed<CheckedExpr>, DerivingRefusal>
    ensures { Yields (and_then (value_in ctx.now derived) spec.test_form) result }
{
    let value = value_of(alloc, ctx, derived)?;
    test_form(value)
}

/// The controlling expression of an `if` or `while` (C99 6.8.4). No rule where it is no integer or pointer expression.
#[tactic(auto, unfolding(deputy_rules::specs::Deriving::bind, deputy_rules::specs::Statements::controlling))]
pub(crate) fn controlling(
    alloc: Global,
    ctx: &Context<'_>,
    e: &Expr,
    asked: &mut Items<Asked>,
) -> Result<Boxed<CheckedExpr>, DerivingRefusal>
    ensures { Derives (spec.controlling ctx.now e.now asked.old) result asked.new }
{
    let derived = derive(alloc, ctx, e, asked)?;
    tested(alloc, ctx, derived)
}
