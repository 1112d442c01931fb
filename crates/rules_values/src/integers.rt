//! Integers: constants, the operators on them, and casts. The only refusal of a function that answers an `AllocError` is want of memory.
ghost use Rattle.std.specs.Prelude.{◌≡◌, neg_ℤ, pos, IfOk};
ghost use Rattle.deputy_rules.specs.Deriving.{Yields};
ghost use Rattle.deputy_rules.specs.Operators as spec;

use crate::Context;
use crate::forms::{number_form, unary_form};
use crate::values::{integer_of, value_of};
use c_tree::{Number, TypeName};
use checked_tree::{CheckedExpr, Scalar, converted};
use deputy_rules::{Derived, DerivingRefusal, Value, Whole, Written};
use rules_types::{integer_type, is_plain, promoted, suffix_scalar};
use sqlite_items::Boxed;
use std::alloc::{AllocError, Global};

/// An integer expression of this form and type.
fn whole_of(form: Boxed<CheckedExpr>, scalar: Scalar, written: Written) -> Derived
    ensures { result ≡ spec.whole_of form scalar written }
{
    Derived::Value(Value::Int(Whole {
        form,
        scalar,
        written,
    }))
}

/// A constant of this type, written so.
fn constant_of_type(
    alloc: Global,
    value: i64,
    scalar: Scalar,
    written: Written,
) -> Result<Derived, AllocError>
    ensures { IfOk result (λ d. d ≡ spec.constant_of_type value scalar written) }
{
    let form = number_form(alloc, value, scalar)?;
    Ok(whole_of(form, scalar, written))
}

/// Any other integer expression.
pub fn computed(form: Boxed<CheckedExpr>, scalar: Scalar) -> Derived
    ensures { result ≡ spec.computed form scalar }
{
    whole_of(form, scalar, Written::Other)
}

/// A number.
#[tactic(auto, unfolding(deputy_rules::specs::Operators::number))]
pub fn number(alloc: Global, n: Number) -> Result<Derived, AllocError>
    ensures { IfOk result (λ d. d ≡ spec.number n) }
{
    let scalar = suffix_scalar(n.suffix, n.value);
    let written = Written::Number {
        value: n.value,
        plain: is_plain(n.suffix),
    };
    constant_of_type(alloc, i64::from(n.value), scalar, written)
}

/// A character: an `int`.
#[tactic(auto, unfolding(deputy_rules::specs::Operators::character))]
pub fn character(alloc: Global, c: u8) -> Result<Derived, AllocError>
    ensures { IfOk result (λ d. d ≡ spec.character c) }
{
    let value = i64::from(c);
    constant_of_type(alloc, value, Scalar::I32, Written::Constant(value))
}

/// `sizeof(T)`: an `unsigned`.
#[tactic(auto, unfolding(deputy_rules::specs::Operators::size_constant))]
pub fn size_constant(alloc: Global, size: u32) -> Result<Derived, AllocError>
    ensures { IfOk result (λ d. d ≡ spec.size_constant size) }
{
    let value = i64::from(size);
    constant_of_type(alloc, value, Scalar::U32, Written::Constant(value))
}

/// An operator on one integer, in its promoted type.
fn on_one(alloc: Global, op: checked_tree::Unary, of: Whole) -> Result<Derived, AllocError>
    ensures { IfOk result (λ d. d ≡ spec.on_one op of) }
{
    let scalar = promoted(of.scalar);
    let form = unary_form(alloc, op, scalar, of.form)?;
    Ok(computed(form, scalar))
}

/// The negative of a number: a constant.
fn negative_number(alloc: Global, scalar: Scalar, value: u32) -> Result<Derived, AllocError>
    ensures { IfOk result (λ d. d ≡ spec.negative_number scalar value) }
{
    let negative = converted(scalar, -i128::from(value));
    constant_of_type(alloc, negative, scalar, Written::Constant(negative))
}

/// `-e`, e an integer: the negative of a number is a constant.
#[tactic(auto, unfolding(deputy_rules::specs::Operators::negative))]
fn negative(alloc: Global, of: Whole) -> Result<Derived, AllocError>
    ensures { IfOk result (λ d. d ≡ spec.negative of) }
{
    match of.written {
        Written::Number { value, plain: _ } => negative_number(alloc, of.scalar, value),
        Written::Constant(_) => on_one(alloc, checked_tree::Unary::Negative, of),
        Written::Other => on_one(alloc, checked_tree::Unary::Negative, of),
    }
}

/// `!e`, e an integer or a pointer with this form.
fn negation(alloc: Global, form: Boxed<CheckedExpr>) -> Result<Derived, AllocError>
    ensures { IfOk result (λ d. d ≡ spec.negation form) }
{
    let form = unary_form(alloc, checked_tree::Unary::Not, Scalar::I32, form)?;
    Ok(computed(form, Scalar::I32))
}

/// `!` of a value.
fn not_by(alloc: Global, value: Value) -> Result<Derived, DerivingRefusal>
    ensures { Yields (spec.not_by value) result }
{
    match value {
        Value::Int(of) => Ok(negation(alloc, of.form)?),
        Value::Pointer(of) => Ok(negation(alloc, of.form)?),
        Value::Null => Err(DerivingRefusal::NoRule),
    }
}

/// `-e`.
pub fn minus(alloc: Global, ctx: &Context<'_>, of: Derived) -> Result<Derived, DerivingRefusal>
    ensures { Yields (spec.minus ctx.now of) result }
{
    let of = integer_of(alloc, ctx, of)?;
    Ok(negative(alloc, of)?)
}

/// An operator on an integer.
pub fn on_integer(
    alloc: Global,
    ctx: &Context<'_>,
    op: checked_tree::Unary,
    of: Derived,
) -> Result<Derived, DerivingRefusal>
    ensures { Yields (spec.on_integer ctx.now op of) result }
{
    let of = integer_of(alloc, ctx, of)?;
    Ok(on_one(alloc, op, of)?)
}

/// `!e`.
pub fn not_of(alloc: Global, ctx: &Context<'_>, of: Derived) -> Result<Derived, DerivingRefusal>
    ensures { Yields (spec.not_of ctx.now of) result }
{
    let of = value_of(alloc, ctx, of)?;
    not_by(alloc, of)
}

/// `(T)e`, T and e integers: the converted value.
fn cast_to(alloc: Global, scalar: Scalar, of: Whole) -> Result<Derived, AllocError>
    ensures { IfOk result (λ d. d ≡ spec.cast_to scalar of) }
{
    let form = unary_form(alloc, checked_tree::Unary::Cast, scalar, of.form)?;
    Ok(computed(form, promoted(scalar)))
}

/// `(T)e`, T this integer type.
fn cast_by(
    alloc: Global,
    ctx: &Context<'_>,
    scalar: Scalar,
    of: Derived,
) -> Result<Derived, DerivingRefusal>
    ensures { Yields (spec.cast_by ctx.now scalar of) result }
{
    let of = integer_of(alloc, ctx, of)?;
    Ok(cast_to(alloc, scalar, of)?)
}

/// `(T)e`.
#[tactic(auto, unfolding(deputy_rules::specs::Operators::cast))]
pub fn cast(
    alloc: Global,
    ctx: &Context<'_>,
    name: &TypeName,
    of: Derived,
) -> Result<Derived, DerivingRefusal>
    ensures { Yields (spec.cast ctx.now name.now of) result }
{
    match integer_type(name) {
        Some(scalar) => cast_by(alloc, ctx, scalar, of),
        None => Err(DerivingRefusal::NoRule),
    }
}
