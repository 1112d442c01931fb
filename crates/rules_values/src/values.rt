//! Reading: the value of a local or of a place, with the bounds that its annotation gives, the names read in the same struct or function.
ghost use Rattle.std.specs.Prelude.{◌≡◌, IfOk, option_copied};
ghost use Rattle.deputy_rules.specs.Deriving.{Yields};
ghost use Rattle.deputy_types.specs.Options.{and_then};
ghost use Rattle.deputy_types.specs.Table as table;
ghost use Rattle.deputy_rules.specs.Values as spec;
ghost use Rattle.checked_tree.specs.declared.expressions.CheckedExpr.TheVariants as form;
ghost use Rattle.checked_tree.specs.declared.shapes.Scalar.TheVariants as scalar;

use crate::Context;
use crate::copies::boxed_copy;
use crate::forms::{address_form, load_form, local_form};
use crate::names::{high_sum, low_sum, of_slots, of_struct, slot_sum};
use crate::sums::{atom, with_part};
use checked_tree::{Bounds, CheckedExpr, Part, Scalar, Shape, Sum, copied_sum};
use deputy_rules::{
    ArrayPlace, Derived, DerivingRefusal, Naming, Place, Pointed, Source, Value, Whole, Written,
};
use deputy_types::Element;
use sqlite_items::Boxed;
use std::alloc::{AllocError, Global};

/// Whether a pointer with these bounds points to text.
pub fn is_nullterm(bounds: &Bounds) -> bool
    ensures { result ≡ spec.is_nullterm bounds.now }
{
    match bounds {
        Bounds::Nullterm => true,
        Bounds::Hidden => false,
        Bounds::Within { lo: _, hi: _ } => false,
    }
}

/// An integer that is read: its type is the declared one.
fn integer(form: Boxed<CheckedExpr>, scalar: Scalar) -> Value
    ensures { result ≡ spec.integer form scalar }
{
    Value::Int(Whole {
        form,
        scalar,
        written: Written::Other,
    })
}

/// A pointer that is read, with these bounds beside its value. The only refusal is want of memory.
fn pointer_to(
    alloc: Global,
    form: Boxed<CheckedExpr>,
    key: Element,
    nullterm: bool,
    low: Sum,
    high: Sum,
) -> Result<Value, AllocError>
    ensures { IfOk result (λ v. v ≡ spec.pointer_to form key nullterm low high) }
{
    let at = atom(alloc, form.get())?;
    Ok(Value::Pointer(Pointed {
        form,
        elem: key,
        nullterm,
        sure: false,
        at,
        low,
        high,
    }))
}

/// A pointer with the bounds of its annotation.
#[tactic(auto, unfolding(deputy_rules::specs::Values::bounded_pointer))]
fn bounded_pointer(
    alloc: Global,
    ctx: &Context<'_>,
    naming: &Naming,
    form: Boxed<CheckedExpr>,
    elem: u32,
    bounds: &Bounds,
) -> Result<Value, DerivingRefusal>
    ensures { Yields (spec.bounded_pointer ctx.now naming.now form elem bounds.now) result }
{
    let Some(key) = ctx.types.element_at(elem) else {
        return Err(DerivingRefusal::NoRule);
    };
    let low = low_sum(alloc, ctx, naming, atom(alloc, form.get())?, bounds)?;
    let high = high_sum(alloc, ctx, naming, atom(alloc, form.get())?, bounds)?;
    Ok(pointer_to(alloc, form, key, is_nullterm(bounds), low, high)?)
}

/// A local pointer whose bounds lie in two hidden slots.
#[tactic(auto, unfolding(deputy_rules::specs::Values::hidden_pointer))]
fn hidden_pointer(
    alloc: Global,
    ctx: &Context<'_>,
    slot: u32,
    elem: u32,
) -> Result<Value, DerivingRefusal>
    ensures { Yields (spec.hidden_pointer ctx.now slot elem) result }
{
    let Some(hidden) = ctx.locals.hidden(slot) else {
        return Err(DerivingRefusal::NoRule);
    };
    let Some(key) = ctx.types.element_at(elem) else {
        return Err(DerivingRefusal::NoRule);
    };
    let form = local_form(alloc, slot)?;
    let low = slot_sum(alloc, hidden)?;
    let high = slot_sum(alloc, hidden + 1)?;
    Ok(pointer_to(alloc, form, key, false, low, high)?)
}

/// A local pointer whose bounds its annotation gives.
#[tactic(auto, unfolding(deputy_rules::specs::Values::bounded_pointer))]
fn annotated_local(
    alloc: Global,
    ctx: &Context<'_>,
    slot: u32,
    elem: u32,
    bounds: &Bounds,
) -> Result<Value, DerivingRefusal>
    ensures { Yields (spec.bounded_pointer ctx.now spec.of_slots (form.Local slot) elem bounds.now) result }
{
    let form = local_form(alloc, slot)?;
    let naming = of_slots();
    bounded_pointer(alloc, ctx, &naming, form, elem, bounds)
}

/// The value of a local pointer with these bounds.
fn local_pointer(
    alloc: Global,
    ctx: &Context<'_>,
    slot: u32,
    elem: u32,
    bounds: &Bounds,
) -> Result<Value, DerivingRefusal>
    ensures { Yields (spec.local_pointer ctx.now slot elem bounds.now) result }
{
    match bounds {
        Bounds::Hidden => hidden_pointer(alloc, ctx, slot, elem),
        Bounds::Nullterm => annotated_local(alloc, ctx, slot, elem, bounds),
        Bounds::Within { lo: _, hi: _ } => annotated_local(alloc, ctx, slot, elem, bounds),
    }
}

/// The value of a local of this shape.
fn slot_value(
    alloc: Global,
    ctx: &Context<'_>,
    slot: u32,
    shape: &Shape,
) -> Result<Value, DerivingRefusal>
    ensures { Yields (spec.slot_value ctx.now slot shape.now) result }
{
    match shape {
        Shape::Int(scalar) => Ok(integer(local_form(alloc, slot)?, *scalar)),
        Shape::Pointer { elem, bounds } => local_pointer(alloc, ctx, slot, *elem, bounds),
        Shape::Struct(_) => Err(DerivingRefusal::NoRule),
        Shape::Address => Err(DerivingRefusal::NoRule),
    }
}

/// The value of a local.
#[tactic(auto, unfolding(deputy_rules::specs::Values::local_value))]
pub fn local_value(alloc: Global, ctx: &Context<'_>, slot: u32) -> Result<Value, DerivingRefusal>
    ensures { Yields (spec.local_value ctx.now slot) result }
{
    match ctx.slot_shape(slot) {
        Some(shape) => slot_value(alloc, ctx, slot, shape),
        None => Err(DerivingRefusal::NoRule),
    }
}

/// A pointer with a constant annotation that lets it reach so many elements.
#[tactic(auto, unfolding(deputy_rules::specs::Values::counted_pointer))]
fn counted_pointer(
    alloc: Global,
    ctx: &Context<'_>,
    form: Boxed<CheckedExpr>,
    elem: u32,
    count: i64,
) -> Result<Value, DerivingRefusal>
    ensures { Yields (spec.counted_pointer ctx.now form elem count) result }
{
    let Some(key) = ctx.types.element_at(elem) else {
        return Err(DerivingRefusal::NoRule);
    };
    let low = atom(alloc, form.get())?;
    let high = atom(alloc, form.get())?;
    let value = i64::from(ctx.size_of(key));
    let high = with_part(
        high,
        Part::Constant {
            times: count,
            value,
        },
    )?;
    Ok(pointer_to(alloc, form, key, false, low, high)?)
}

/// A pointer to text.
#[tactic(auto, unfolding(deputy_rules::specs::Values::text_pointer))]
fn text_pointer(
    alloc: Global,
    ctx: &Context<'_>,
    form: Boxed<CheckedExpr>,
    elem: u32,
) -> Result<Value, DerivingRefusal>
    ensures { Yields (spec.text_pointer ctx.now form elem) result }
{
    let Some(key) = ctx.types.element_at(elem) else {
        return Err(DerivingRefusal::NoRule);
    };
    let low = atom(alloc, form.get())?;
    let high = atom(alloc, form.get())?;
    Ok(pointer_to(alloc, form, key, true, low, high)?)
}

/// A place as it is loaded: a pointer.
fn loaded(alloc: Global, place: Boxed<CheckedExpr>) -> Result<Boxed<CheckedExpr>, AllocError>
    ensures { IfOk result (λ f. f ≡ form.Load spec.address place) }
{
    load_form(alloc, Scalar::Pointer { size: 0 }, place)
}

/// The value of a place of this type.
#[tactic(auto, unfolding(deputy_rules::specs::Values::element_value))]
fn element_value(
    alloc: Global,
    ctx: &Context<'_>,
    place: Boxed<CheckedExpr>,
    key: Element,
) -> Result<Value, DerivingRefusal>
    ensures { Yields (spec.element_value ctx.now place key) result }
{
    match key {
        Element::Int(scalar) => Ok(integer(load_form(alloc, scalar, place)?, scalar)),
        Element::Struct(_) => Err(DerivingRefusal::NoRule),
        Element::Sentinel(elem) => counted_pointer(alloc, ctx, loaded(alloc, place)?, elem, 0),
        Element::Nullterm(elem) => text_pointer(alloc, ctx, loaded(alloc, place)?, elem),
        Element::Count(elem, count) => {
            counted_pointer(alloc, ctx, loaded(alloc, place)?, elem, count)
        }
    }
}

/// The struct place in which a member lies.
#[tactic(auto, unfolding(deputy_rules::specs::Values::container))]
pub fn container(alloc: Global, place: &CheckedExpr) -> Result<Boxed<CheckedExpr>, AllocError>
    ensures { IfOk result (λ f. f ≡ spec.container place.now) }
{
    match place {
        CheckedExpr::Field {
            place: outer,
            offset: _,
            checks: _,
        } => boxed_copy(alloc, outer.get()),
        _ => boxed_copy(alloc, place),
    }
}

/// A pointer member, with the bounds of its annotation.
fn member_pointer(
    alloc: Global,
    ctx: &Context<'_>,
    place: Boxed<CheckedExpr>,
    structure: u32,
    elem: u32,
    bounds: &Bounds,
) -> Result<Value, DerivingRefusal>
    ensures { Yields
        (spec.bounded_pointer ctx.now (spec.of_struct (spec.container place) structure) (form.Load spec.address place) elem bounds.now) result }
{
    let naming = of_struct(container(alloc, place.get())?, structure);
    let value = loaded(alloc, place)?;
    bounded_pointer(alloc, ctx, &naming, value, elem, bounds)
}

/// The value of a member of this shape.
#[tactic(auto, unfolding(deputy_rules::specs::Values::member_value))]
fn member_value(
    alloc: Global,
    ctx: &Context<'_>,
    place: Boxed<CheckedExpr>,
    structure: u32,
    shape: &Shape,
) -> Result<Value, DerivingRefusal>
    ensures { Yields (spec.member_value ctx.now place structure shape.now) result }
{
    match shape {
        Shape::Int(scalar) => Ok(integer(load_form(alloc, *scalar, place)?, *scalar)),
        Shape::Pointer { elem, bounds } => {
            member_pointer(alloc, ctx, place, structure, *elem, bounds)
        }
        Shape::Struct(_) => Err(DerivingRefusal::NoRule),
        Shape::Address => Err(DerivingRefusal::NoRule),
    }
}

/// The value of a member with this number.
fn found_value(
    alloc: Global,
    ctx: &Context<'_>,
    place: Boxed<CheckedExpr>,
    structure: u32,
    member: u32,
) -> Result<Value, DerivingRefusal>
    ensures { Yields
        (and_then (table.member ctx.now.table structure member) (λ x. spec.member_value ctx.now place structure x.shape)) result }
{
    match ctx.types.member(structure, member) {
        Some(found) => member_value(alloc, ctx, place, structure, &found.shape),
        None => Err(DerivingRefusal::NoRule),
    }
}

/// The value of a byte of text.
fn text_value(alloc: Global, place: Boxed<CheckedExpr>) -> Result<Value, AllocError>
    ensures { IfOk result (λ v. v ≡ spec.integer (form.Load scalar.U8 place) scalar.U8) }
{
    Ok(integer(load_form(alloc, Scalar::U8, place)?, Scalar::U8))
}

/// The value of a place whose type is declared there.
#[tactic(auto, unfolding(deputy_rules::specs::Values::source_value))]
pub fn source_value(
    alloc: Global,
    ctx: &Context<'_>,
    place: Boxed<CheckedExpr>,
    source: Source,
) -> Result<Value, DerivingRefusal>
    ensures { Yields (spec.source_value ctx.now place source) result }
{
    match source {
        Source::Element(key) => element_value(alloc, ctx, place, key),
        Source::Text => Ok(text_value(alloc, place)?),
        Source::Member(structure, member) => found_value(alloc, ctx, place, structure, member),
    }
}

/// The value of a place.
fn place_value(alloc: Global, ctx: &Context<'_>, place: Place) -> Result<Value, DerivingRefusal>
    ensures { Yields (spec.source_value ctx.now place.form place.source) result }
{
    let Place {
        form,
        at: _,
        source,
    } = place;
    source_value(alloc, ctx, form, source)
}

/// An array as a pointer to its first element. The only refusal is want of memory.
#[tactic(auto, unfolding(deputy_rules::specs::Values::array_value))]
pub fn array_value(alloc: Global, ctx: &Context<'_>, array: ArrayPlace) -> Result<Value, AllocError>
    ensures { IfOk result (λ v. v ≡ spec.array_value ctx.now array) }
{
    let ArrayPlace {
        form,
        at,
        elem,
        count,
    } = array;
    let low = copied_sum(alloc, &at)?;
    let value = i64::from(ctx.size_of(elem));
    let times = i64::from(count);
    let high = with_part(copied_sum(alloc, &at)?, Part::Constant { times, value })?;
    let form = address_form(alloc, form)?;
    Ok(Value::Pointer(Pointed {
        form,
        elem,
        nullterm: false,
        sure: true,
        at,
        low,
        high,
    }))
}

/// The value of what was derived: a place or a local is read, and a struct or a union has none.
#[tactic(auto, unfolding(deputy_rules::specs::Values::value_of))]
pub fn value_of(
    alloc: Global,
    ctx: &Context<'_>,
    derived: Derived,
) -> Result<Value, DerivingRefusal>
    ensures { Yields (spec.value_of ctx.now derived) result }
{
    match derived {
        Derived::Value(value) => Ok(value),
        Derived::Local(slot) => local_value(alloc, ctx, slot),
        Derived::Place(place) => place_value(alloc, ctx, place),
        Derived::Array(array) => Ok(array_value(alloc, ctx, array)?),
        Derived::Union(_) => Err(DerivingRefusal::NoRule),
    }
}

/// A value as an integer.
fn whole(value: Value) -> Result<Whole, DerivingRefusal>
    ensures { Yields (spec.whole value) result }
{
    match value {
        Value::Int(found) => Ok(found),
        Value::Pointer(_) => Err(DerivingRefusal::NoRule),
        Value::Null => Err(DerivingRefusal::NoRule),
    }
}

/// A value as a pointer.
fn pointed(value: Value) -> Result<Pointed, DerivingRefusal>
    ensures { Yields (spec.pointed value) result }
{
    match value {
        Value::Int(_) => Err(DerivingRefusal::NoRule),
        Value::Pointer(found) => Ok(found),
        Value::Null => Err(DerivingRefusal::NoRule),
    }
}

/// The value of what was derived, as an integer.
#[tactic(auto, unfolding(deputy_rules::specs::Values::integer_of))]
pub fn integer_of(
    alloc: Global,
    ctx: &Context<'_>,
    derived: Derived,
) -> Result<Whole, DerivingRefusal>
    ensures { Yields (spec.integer_of ctx.now derived) result }
{
    whole(value_of(alloc, ctx, derived)?)
}

/// The value of what was derived, as a pointer.
#[tactic(auto, unfolding(deputy_rules::specs::Values::pointer_of))]
pub fn pointer_of(
    alloc: Global,
    ctx: &Context<'_>,
    derived: Derived,
) -> Result<Pointed, DerivingRefusal>
    ensures { Yields (spec.pointer_of ctx.now derived) result }
{
    pointed(value_of(alloc, ctx, derived)?)
}
