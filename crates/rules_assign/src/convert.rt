//! Conversions: what a type makes of the expression that it is handed.
ghost use Rattle.std.specs.Prelude.{◌≡◌, ◌&&◌, if◌then◌else◌, Some, None, IfOk};
ghost use Rattle.deputy_rules.specs.Coercion as spec;
ghost use Rattle.deputy_rules.specs.Deriving.{Yields};
ghost use Rattle.deputy_rules.specs.Operators.{same_truth};
ghost use Rattle.deputy_rules.specs.Pointers as pointers;
ghost use Rattle.deputy_types.specs.Types as types;

use checked_tree::{CheckedExpr, Part, Scalar, Unary, converted, has_all};
use deputy_rules::{Derived, DerivingRefusal, Handed, Pointed, Value, Whole};
use deputy_types::Element;
use rules_types::same_element;
use rules_values::{
    Context, atom_part, boxed_copy, constant, constant_of, constant_part, is_written, null_form,
    unary_form, value_of,
};
use std::alloc::{AllocError, Global};

/// The cast of an expression in a check.
fn cast_part(alloc: Global, scalar: Scalar, form: &CheckedExpr) -> Result<Part, AllocError>
    ensures { IfOk result (λ p. p ≡ spec.cast_part scalar form.now) }
{
    let cast = unary_form(alloc, Unary::Cast, scalar, boxed_copy(alloc, form)?)?;
    atom_part(alloc, cast.get())
}

/// An expression in a check after its conversion: itself where the type has each of its values, or else its cast.
fn cast_side(alloc: Global, scalar: Scalar, w: &Whole) -> Result<Part, AllocError>
    ensures { IfOk result (λ p. p ≡ spec.side_by None scalar w.now) }
{
    if has_all(scalar, w.scalar) {
        atom_part(alloc, w.form.get())
    } else {
        cast_part(alloc, scalar, w.form.get())
    }
}

/// The converted constant, or else the converted expression.
fn side_by(
    alloc: Global,
    constant: Option<i64>,
    scalar: Scalar,
    w: &Whole,
) -> Result<Part, AllocError>
    ensures { IfOk result (λ p. p ≡ spec.side_by constant scalar w.now) }
{
    match constant {
        Some(z) => Ok(constant_part(converted(scalar, i128::from(z)))),
        None => cast_side(alloc, scalar, w),
    }
}

/// An integer expression in a check after its conversion to a type: the converted constant, the same expression where the type has each of its values, or else
/// its cast. The only refusal is want of memory.
#[tactic(auto, unfolding(deputy_rules::specs::Coercion::converted_side))]
pub fn converted_side(alloc: Global, scalar: Scalar, w: &Whole) -> Result<Part, AllocError>
    ensures { IfOk result (λ p. p ≡ spec.converted_side scalar w.now) }
{
    side_by(alloc, constant_of(w.written), scalar, w)
}

/// The null constant, where a pointer is wanted. The only refusal is want of memory.
pub fn null(alloc: Global) -> Result<Handed, AllocError>
    ensures { IfOk result (λ h. h ≡ spec.null) }
{
    let at = constant(alloc, 0)?;
    let low = constant(alloc, 0)?;
    let high = constant(alloc, 0)?;
    let form = null_form(alloc)?;
    Ok(Handed {
        form,
        null: true,
        at,
        low,
        high,
    })
}

/// The number 0 without suffix as the null constant. No rule where it is any other.
pub fn null_number(alloc: Global, w: Whole) -> Result<Handed, DerivingRefusal>
    ensures { Yields (if pointers.is_written 0 w.written then Some spec.null else None) result }
{
    if is_written(0, w.written) {
        Ok(null(alloc)?)
    } else {
        Err(DerivingRefusal::NoRule)
    }
}

/// A pointer expression, where a pointer is wanted.
pub fn handed_over(p: Pointed) -> Handed
    ensures { result ≡ spec.handed_over p }
{
    Handed {
        form: p.form,
        null: false,
        at: p.at,
        low: p.low,
        high: p.high,
    }
}

/// Whether a pointer expression is one to this element, nullterm or not.
fn is_pointer_to(key: Element, nullterm: bool, p: &Pointed) -> bool
    ensures { result ≡ (types.same_element p.now.elem key && same_truth p.now.nullterm nullterm) }
{
    same_element(p.elem, key) && p.nullterm == nullterm
}

/// A pointer expression, where a pointer to this element is wanted.
fn handed_pointer(key: Element, nullterm: bool, p: Pointed) -> Result<Handed, DerivingRefusal>
    ensures { Yields (if types.same_element p.elem key && same_truth p.nullterm nullterm then Some (spec.handed_over p) else None) result }
{
    if is_pointer_to(key, nullterm, &p) {
        Ok(handed_over(p))
    } else {
        Err(DerivingRefusal::NoRule)
    }
}

/// A value where a pointer to this element is wanted.
#[tactic(auto, unfolding(deputy_rules::specs::Coercion::handed_value))]
fn handed_value(
    alloc: Global,
    key: Element,
    nullterm: bool,
    value: Value,
) -> Result<Handed, DerivingRefusal>
    ensures { Yields (spec.handed_value key nullterm value) result }
{
    match value {
        Value::Null => Ok(null(alloc)?),
        Value::Int(w) => null_number(alloc, w),
        Value::Pointer(p) => handed_pointer(key, nullterm, p),
    }
}

/// What was derived, where a pointer to this element is wanted, nullterm or not: a pointer of that type, or a null constant, as which the number 0 without suffix
/// counts. No rule where it is neither.
pub fn handed(
    alloc: Global,
    ctx: &Context<'_>,
    key: Element,
    nullterm: bool,
    derived: Derived,
) -> Result<Handed, DerivingRefusal>
    ensures { Yields (spec.handed ctx.now key nullterm derived) result }
{
    let value = value_of(alloc, ctx, derived)?;
    handed_value(alloc, key, nullterm, value)
}
