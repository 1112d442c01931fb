//! The derivation of an expression: one arm for each form, its parts first, left to right.
ghost use Rattle.std.specs.Prelude.{◌≡◌};
ghost use Rattle.deputy_rules.specs.Deriving.{Derives, Yields};
ghost use Rattle.deputy_rules.specs.Expressions as spec;

use crate::binary::binary;
use crate::places::{followed, named};
use crate::pointers::{indexed_by, string};
use crate::unary::unary;
use c_tree::{Expr, TypeName};
use checked_tree::CheckedExpr;
use deputy_rules::{Asked, Derived, DerivingRefusal, Value};
use rules_values::{
    Context, cast, character, dotted, integer_of, number, pointer_of, size_constant, value_of,
};
use sd_base::Name;
use sqlite_items::{Boxed, Items};
use std::alloc::Global;

/// `sizeof(T)`.
#[tactic(auto, unfolding(deputy_rules::specs::Expressions::size_of_type))]
fn size_of_type(
    alloc: Global,
    ctx: &Context<'_>,
    name: &TypeName,
) -> Result<Derived, DerivingRefusal>
    ensures { Yields (spec.size_of_type ctx.now name.now) result }
{
    match ctx.types.size(name) {
        Some(size) => Ok(size_constant(alloc, size)?),
        None => Err(DerivingRefusal::NoRule),
    }
}

/// `e->f`, as `(*e).f`.
#[tactic(auto, unfolding(deputy_rules::specs::Deriving::bind, deputy_rules::specs::Expressions::arrow))]
fn arrow(
    alloc: Global,
    ctx: &Context<'_>,
    of: Derived,
    name: &Name,
    asked: &mut Items<Asked>,
) -> Result<Derived, DerivingRefusal>
    ensures { Derives (spec.arrow ctx.now of name.now asked.old) result asked.new }
{
    let pointer = pointer_of(alloc, ctx, of)?;
    let place = followed(alloc, ctx, pointer, asked)?;
    dotted(alloc, ctx, place, name, asked)
}

/// `e[i]`.
#[tactic(auto, unfolding(deputy_rules::specs::Deriving::bind, deputy_rules::specs::Expressions::subscript))]
fn subscript(
    alloc: Global,
    ctx: &Context<'_>,
    of: Derived,
    index: Derived,
    asked: &mut Items<Asked>,
) -> Result<Derived, DerivingRefusal>
    ensures { Derives (spec.subscript ctx.now of index asked.old) result asked.new }
{
    let pointer = pointer_of(alloc, ctx, of)?;
    let index = integer_of(alloc, ctx, index)?;
    indexed_by(alloc, ctx, pointer, index, asked)
}

/// What an expression derives, and the checks that it asks for behind those so far.
#[tactic(auto, unfolding(deputy_rules::specs::Deriving::bind, deputy_rules::specs::Expressions::derive))]
pub fn derive(
    alloc: Global,
    ctx: &Context<'_>,
    e: &Expr,
    asked: &mut Items<Asked>,
) -> Result<Derived, DerivingRefusal>
    ensures { Derives (spec.derive ctx.now e.now asked.old) result asked.new }
{
    match e {
        Expr::Number(n) => Ok(number(alloc, *n)?),
        Expr::Character(c) => Ok(character(alloc, *c)?),
        Expr::String(_, k) => string(alloc, ctx, *k),
        Expr::Name(name) => named(alloc, ctx, name),
        Expr::Grouped(a) => derive(alloc, ctx, a.get(), asked),
        Expr::Null => Ok(Derived::Value(Value::Null)),
        Expr::Unary(op, a) => {
            let of = derive(alloc, ctx, a.get(), asked)?;
            unary(alloc, ctx, *op, of, asked)
        }
        Expr::Binary(op, a, b) => {
            let left = derive(alloc, ctx, a.get(), asked)?;
            let right = derive(alloc, ctx, b.get(), asked)?;
            binary(alloc, ctx, *op, left, right, asked)
        }
        Expr::Cast(name, a) => {
            let of = derive(alloc, ctx, a.get(), asked)?;
            cast(alloc, ctx, name, of)
        }
        Expr::Sizeof(name) => size_of_type(alloc, ctx, name),
        Expr::Field(a, name) => {
            let of = derive(alloc, ctx, a.get(), asked)?;
            dotted(alloc, ctx, of, name, asked)
        }
        Expr::Arrow(a, name) => {
            let of = derive(alloc, ctx, a.get(), asked)?;
            arrow(alloc, ctx, of, name, asked)
        }
        Expr::Index(a, b) => {
            let of = derive(alloc, ctx, a.get(), asked)?;
            let index = derive(alloc, ctx, b.get(), asked)?;
            subscript(alloc, ctx, of, index, asked)
        }
    }
}

/// The checked form of a value; `(void *)0` has none until a pointer is wanted.
fn form_of(value: Value) -> Result<Boxed<CheckedExpr>, DerivingRefusal>
    ensures { Yields (spec.form_of value) result }
{
    match value {
        Value::Int(found) => Ok(found.form),
        Value::Pointer(found) => Ok(found.form),
        Value::Null => Err(DerivingRefusal::NoRule),
    }
}

/// An expression by itself: the checked form of its value.
#[tactic(auto, unfolding(deputy_rules::specs::Deriving::bind, deputy_rules::specs::Expressions::expression))]
pub fn expression(
    alloc: Global,
    ctx: &Context<'_>,
    e: &Expr,
    asked: &mut Items<Asked>,
) -> Result<Boxed<CheckedExpr>, DerivingRefusal>
    ensures { Derives (spec.expression ctx.now e.now asked.old) result asked.new }
{
    let derived = derive(alloc, ctx, e, asked)?;
    form_of(value_of(alloc, ctx, derived)?)
}
