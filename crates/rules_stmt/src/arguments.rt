//! The arguments of a call: each as its parameter takes it, and the coercions to the parameters' types.
ghost use Rattle.std.specs.Prelude.{◌≡◌, [], map, IfOk};
ghost use Rattle.deputy_rules.specs.Calls as spec;
ghost use Rattle.deputy_rules.specs.Deriving.{Derives, Yields};
ghost use Rattle.deputy_types.specs.Options.{and_then};
ghost use Rattle.checked_tree.specs.declared.shapes.Shape.TheVariants as shaped;

use c_tree::Expr;
use checked_tree::{Argument, Bounds, Scalar, Shape, Sum, copied_part, copied_sum};
use deputy_rules::{Asked, Derived, DerivingRefusal, Handed, Names, Naming, Passed};
use rules_assign::{converted_side, handed};
use rules_coerce::coerce_to;
use rules_expr::derive;
use rules_values::{Context, Ids, boxed_copy, integer_of, is_nullterm, sum_of};
use sqlite_items::Items;
use std::alloc::{AllocError, Global};

/// An integer argument.
#[tactic(auto, unfolding(deputy_rules::specs::Calls::pass))]
fn pass_integer(
    alloc: Global,
    ctx: &Context<'_>,
    scalar: Scalar,
    value: Derived,
) -> Result<Passed, DerivingRefusal>
    ensures { Yields (spec.pass ctx.now (shaped.Int scalar) value) result }
{
    let w = integer_of(alloc, ctx, value)?;
    let side = converted_side(alloc, scalar, &w)?;
    Ok(Passed::Int {
        scalar,
        form: w.form,
        side,
    })
}

/// A pointer argument.
#[tactic(auto, unfolding(deputy_rules::specs::Calls::pass))]
fn pass_pointer(
    alloc: Global,
    ctx: &Context<'_>,
    elem: u32,
    bounds: &Bounds,
    value: Derived,
) -> Result<Passed, DerivingRefusal>
    ensures { Yields (spec.pass ctx.now (shaped.Pointer elem bounds.now) value) result }
{
    match ctx.types.element_at(elem) {
        Some(key) => {
            let h = handed(alloc, ctx, key, is_nullterm(bounds), value)?;
            Ok(Passed::Pointer(h))
        }
        None => Err(DerivingRefusal::NoRule),
    }
}

/// What was derived, as a parameter of this shape takes it. No rule where it has no such type.
#[tactic(auto, unfolding(deputy_rules::specs::Calls::pass))]
pub(crate) fn pass(
    alloc: Global,
    ctx: &Context<'_>,
    shape: &Shape,
    value: Derived,
) -> Result<Passed, DerivingRefusal>
    ensures { Yields (spec.pass ctx.now shape.now value) result }
{
    match shape {
        Shape::Int(scalar) => pass_integer(alloc, ctx, *scalar, value),
        Shape::Pointer { elem, bounds } => pass_pointer(alloc, ctx, *elem, bounds, value),
        Shape::Struct(_) => Err(DerivingRefusal::NoRule),
        Shape::Address => Err(DerivingRefusal::NoRule),
    }
}

/// The same, where the parameter's type is derived.
fn pass_to(
    alloc: Global,
    ctx: &Context<'_>,
    shape: &Option<Shape>,
    value: Derived,
) -> Result<Passed, DerivingRefusal>
    ensures { Yields (and_then shape.now (λ y. spec.pass ctx.now y value)) result }
{
    match shape {
        Some(found) => pass(alloc, ctx, found, value),
        None => Err(DerivingRefusal::NoRule),
    }
}

/// One argument.
#[tactic(auto, unfolding(deputy_rules::specs::Deriving::bind, deputy_rules::specs::Calls::pass_one))]
fn pass_one(
    alloc: Global,
    ctx: &Context<'_>,
    shape: &Option<Shape>,
    e: &Expr,
    asked: &mut Items<Asked>,
) -> Result<Passed, DerivingRefusal>
    ensures { Derives (spec.pass_one ctx.now shape.now e.now asked.old) result asked.new }
{
    let value = derive(alloc, ctx, e, asked)?;
    pass_to(alloc, ctx, shape, value)
}

/// The arguments from left to right, one for each parameter. No rule where there are more or fewer.
#[tactic(auto, unfolding(deputy_rules::specs::Deriving::bind))]
pub(crate) fn pass_each(
    alloc: Global,
    ctx: &Context<'_>,
    params: &[Option<Shape>],
    args: &[Expr],
    asked: &mut Items<Asked>,
) -> Result<Items<Passed>, DerivingRefusal>
    ensures { Derives (spec.pass_each ctx.now params.now args.now [] asked.old) result asked.new }
{
    let mut done = Items::new(alloc);
    let mut rest = params;
    for e in args {
        match rest {
            [shape, more @ ..] => {
                done.push(pass_one(alloc, ctx, shape, e, asked)?)?;
                rest = more;
            }
            [] => return Err(DerivingRefusal::NoRule),
        }
    }
    match rest {
        [] => Ok(done),
        [_, ..] => Err(DerivingRefusal::NoRule),
    }
}

/// The value of an argument after its conversion. The only refusal is want of memory.
fn passed_sum(alloc: Global, passed: &Passed) -> Result<Sum, AllocError>
    ensures { IfOk result (λ s. s ≡ spec.passed_sum passed.now) }
{
    match passed {
        Passed::Int {
            scalar: _,
            form: _,
            side,
        } => sum_of(alloc, copied_part(alloc, side)?),
        Passed::Pointer(h) => copied_sum(alloc, &h.at),
    }
}

/// The values of the arguments.
fn passed_sums(alloc: Global, args: &[Passed]) -> Result<Items<Sum>, AllocError>
    ensures { IfOk result (λ sums. sums ≡ map spec.passed_sum args.now) }
{
    let mut sums = Items::new(alloc);
    for arg in args {
        sums.push(passed_sum(alloc, arg)?)?;
    }
    Ok(sums)
}

/// Each name of a parameter stands for its converted argument. The only refusal is want of memory.
pub(crate) fn of_arguments(alloc: Global, args: &[Passed]) -> Result<Naming, AllocError>
    ensures { IfOk result (λ n. n ≡ spec.of_arguments args.now) }
{
    let names = Names::OfArguments(passed_sums(alloc, args)?);
    Ok(Naming {
        names,
        change: None,
    })
}

/// The number that is handed over. The only refusal is want of memory.
pub(crate) fn passed_argument(alloc: Global, passed: &Passed) -> Result<Argument, AllocError>
    ensures { IfOk result (λ a. a ≡ spec.passed_argument passed.now) }
{
    match passed {
        Passed::Int {
            scalar,
            form,
            side: _,
        } => Ok(Argument {
            scalar: *scalar,
            value: boxed_copy(alloc, form.get())?,
        }),
        Passed::Pointer(h) => Ok(Argument {
            scalar: Scalar::Pointer { size: 0 },
            value: boxed_copy(alloc, h.form.get())?,
        }),
    }
}

/// The numbers that are handed over. The only refusal is want of memory.
pub(crate) fn passed_arguments(
    alloc: Global,
    args: &[Passed],
) -> Result<Items<Argument>, AllocError>
    ensures { IfOk result (λ arguments. arguments ≡ map spec.passed_argument args.now) }
{
    let mut arguments = Items::new(alloc);
    for arg in args {
        arguments.push(passed_argument(alloc, arg)?)?;
    }
    Ok(arguments)
}

/// Asks for the coercion of a pointer that is handed to this type.
#[tactic(auto, unfolding(deputy_rules::specs::Deriving::bind))]
fn coerce_shape(
    alloc: Global,
    ctx: &Context<'_>,
    naming: &Naming,
    shape: &Shape,
    h: &Handed,
    asked: &mut Items<Asked>,
) -> Result<Ids, DerivingRefusal>
    ensures { Derives (spec.coerce_shape ctx.now naming.now shape.now h.now asked.old) result asked.new }
{
    match shape {
        Shape::Pointer { elem, bounds } => match ctx.types.element_at(*elem) {
            Some(key) => coerce_to(alloc, ctx, naming, key, bounds, h, asked),
            None => Err(DerivingRefusal::NoRule),
        },
        Shape::Int(_) => Ok(Items::new(alloc)),
        Shape::Struct(_) => Ok(Items::new(alloc)),
        Shape::Address => Ok(Items::new(alloc)),
    }
}

/// Asks for the coercion of a value that is handed to this type. An integer needs no check.
#[tactic(auto, unfolding(deputy_rules::specs::Calls::coerce_value))]
pub(crate) fn coerce_value(
    alloc: Global,
    ctx: &Context<'_>,
    naming: &Naming,
    shape: &Shape,
    passed: &Passed,
    asked: &mut Items<Asked>,
) -> Result<Ids, DerivingRefusal>
    ensures { Derives (spec.coerce_value ctx.now naming.now shape.now passed.now asked.old) result asked.new }
{
    match passed {
        Passed::Int {
            scalar: _,
            form: _,
            side: _,
        } => Ok(Items::new(alloc)),
        Passed::Pointer(h) => coerce_shape(alloc, ctx, naming, shape, h, asked),
    }
}

/// The same, where the parameter's type is derived.
fn coerce_passed(
    alloc: Global,
    ctx: &Context<'_>,
    naming: &Naming,
    shape: &Option<Shape>,
    passed: &Passed,
    asked: &mut Items<Asked>,
) -> Result<Ids, DerivingRefusal>
    ensures { Derives (spec.coerce_passed ctx.now naming.now shape.now passed.now asked.old) result asked.new }
{
    match shape {
        Some(found) => coerce_value(alloc, ctx, naming, found, passed, asked),
        None => Ok(Items::new(alloc)),
    }
}

/// Asks for the coercions to the parameters' types in order.
#[tactic(auto, unfolding(deputy_rules::specs::Deriving::bind))]
pub(crate) fn coerce_each(
    alloc: Global,
    ctx: &Context<'_>,
    naming: &Naming,
    params: &[Option<Shape>],
    args: &[Passed],
    asked: &mut Items<Asked>,
) -> Result<Ids, DerivingRefusal>
    ensures { Derives (spec.coerce_each ctx.now naming.now params.now args.now [] asked.old) result asked.new }
{
    let mut ids = Items::new(alloc);
    let mut rest = args;
    for shape in params {
        match rest {
            [arg, more @ ..] => {
                ids.append(coerce_passed(alloc, ctx, naming, shape, arg, asked)?)?;
                rest = more;
            }
            [] => return Ok(ids),
        }
    }
    Ok(ids)
}
