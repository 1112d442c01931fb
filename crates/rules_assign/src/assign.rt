//! `l = e` for a local or parameter: the coercion of e to its type, with the present values of the names, and the coercion of each sibling whose type names it.
ghost use Rattle.std.specs.Prelude.{◌≡◌, ◌++◌, None, true, false};
ghost use Rattle.deputy_rules.specs.Assignment as spec;
ghost use Rattle.deputy_rules.specs.Coercion as coercion;
ghost use Rattle.deputy_rules.specs.Context.{slot_shape};
ghost use Rattle.deputy_rules.specs.Changes as changes;
ghost use Rattle.deputy_rules.specs.Deriving.{Derives, Yields, bind, lift, pure};
ghost use Rattle.checked_tree.specs.declared.statements.CheckedStmt.TheVariants as statement;
ghost use Rattle.deputy_rules.specs.Values.{address, integer_of as integer_in};
ghost use Rattle.rules_assign.specs.AreFewSlots.{AreFewSlots};

use crate::changes::slot_changes;
use crate::convert::{converted_side, handed};
use crate::store::store;
use checked_tree::{Bounds, CheckedExpr, CheckedStmt, PointerOperand, Scalar, Shape, Sum};
use deputy_rules::{Asked, Derived, DerivingRefusal, Handed, Whole};
use deputy_types::Element;
use rules_coerce::coerce_to;
use rules_values::{Context, Ids, integer_of, joined, of_slots, sum_of};
use sqlite_items::{Boxed, Items};
use std::alloc::Global;

/// No rule for a value.
fn no_rule(_value: Derived) -> Result<CheckedStmt, DerivingRefusal>
    ensures { Yields None result }
{
    Err(DerivingRefusal::NoRule)
}

/// To an integer local.
#[tactic(auto, unfolding(deputy_rules::specs::Deriving::bind, deputy_rules::specs::Assignment::assign_integer))]
fn assign_integer(
    alloc: Global,
    ctx: &Context<'_>,
    slot: u32,
    scalar: Scalar,
    w: Whole,
    asked: &mut Items<Asked>,
) -> Result<CheckedStmt, DerivingRefusal>
    requires { AreFewSlots ctx.now.table ctx.now.slots }
    ensures { Derives (spec.assign_integer ctx.now slot scalar w asked.old) result asked.new }
{
    let new = sum_of(alloc, converted_side(alloc, scalar, &w)?)?;
    let checks = slot_changes(alloc, ctx, slot, new, asked)?;
    Ok(CheckedStmt::Assign {
        line: ctx.line,
        slot,
        scalar,
        value: w.form,
        checks,
    })
}

/// To what was derived as an integer.
#[tactic(auto, unfolding(deputy_rules::specs::Deriving::bind))]
fn assign_number(
    alloc: Global,
    ctx: &Context<'_>,
    slot: u32,
    scalar: Scalar,
    value: Derived,
    asked: &mut Items<Asked>,
) -> Result<CheckedStmt, DerivingRefusal>
    requires { AreFewSlots ctx.now.table ctx.now.slots }
    ensures { Derives (bind (lift (integer_in ctx.now value)) (spec.assign_integer ctx.now slot scalar) asked.old) result asked.new }
{
    let w = integer_of(alloc, ctx, value)?;
    assign_integer(alloc, ctx, slot, scalar, w, asked)
}

/// To a pointer local that takes its bounds with it, the first of them in the slot `hidden`.
#[tactic(auto, unfolding(deputy_rules::specs::Deriving::bind, deputy_rules::specs::Assignment::assign_automatic))]
fn assign_automatic(
    alloc: Global,
    ctx: &Context<'_>,
    slot: u32,
    h: Handed,
    asked: &mut Items<Asked>,
) -> Result<CheckedStmt, DerivingRefusal>
    requires { AreFewSlots ctx.now.table ctx.now.slots }
    ensures { Derives (spec.assign_automatic ctx.now slot h asked.old) result asked.new }
{
    let Some(hidden) = ctx.locals.hidden(slot) else {
        return Err(DerivingRefusal::NoRule);
    };
    let checks = slot_changes(alloc, ctx, slot, h.at, asked)?;
    Ok(CheckedStmt::AssignAutomatic {
        line: ctx.line,
        slot,
        hidden,
        value: PointerOperand {
            value: h.form,
            low: h.low,
            high: h.high,
        },
        checks,
    })
}

/// What is handed over, without its bounds: its form and its value.
fn form_and_value(h: Handed) -> (Boxed<CheckedExpr>, Sum)
    ensures { result ≡ (h.form, h.at) }
{
    (h.form, h.at)
}

/// The checks of the siblings of a slot that has a new value, behind these.
#[tactic(auto, unfolding(deputy_rules::specs::Deriving::bind))]
fn with_changes(
    alloc: Global,
    ctx: &Context<'_>,
    slot: u32,
    new: Sum,
    ids: Ids,
    asked: &mut Items<Asked>,
) -> Result<Ids, DerivingRefusal>
    requires { AreFewSlots ctx.now.table ctx.now.slots }
    ensures { Derives (bind (changes.slot_changes ctx.now slot new) (λ more. pure (ids ++ more)) asked.old) result asked.new }
{
    let more = slot_changes(alloc, ctx, slot, new, asked)?;
    Ok(joined(ids, more)?)
}

/// To a pointer local or parameter with an annotation, behind the checks of its own coercion.
#[tactic(auto, unfolding(deputy_rules::specs::Deriving::bind))]
fn assign_coerced(
    alloc: Global,
    ctx: &Context<'_>,
    slot: u32,
    h: Handed,
    ids: Ids,
    asked: &mut Items<Asked>,
) -> Result<CheckedStmt, DerivingRefusal>
    requires { AreFewSlots ctx.now.table ctx.now.slots }
    ensures { Derives
        (bind (changes.slot_changes ctx.now slot h.at) (λ more. pure (statement.Assign ctx.now.line slot address h.form (ids ++ more))) asked.old)
        result asked.new }
{
    let (value, new) = form_and_value(h);
    let checks = with_changes(alloc, ctx, slot, new, ids, asked)?;
    Ok(CheckedStmt::Assign {
        line: ctx.line,
        slot,
        scalar: Scalar::Pointer { size: 0 },
        value,
        checks,
    })
}

/// To a pointer local or parameter with an annotation.
#[tactic(auto, unfolding(deputy_rules::specs::Deriving::bind, deputy_rules::specs::Assignment::assign_annotated))]
fn assign_annotated(
    alloc: Global,
    ctx: &Context<'_>,
    slot: u32,
    key: Element,
    bounds: &Bounds,
    h: Handed,
    asked: &mut Items<Asked>,
) -> Result<CheckedStmt, DerivingRefusal>
    requires { AreFewSlots ctx.now.table ctx.now.slots }
    ensures { Derives (spec.assign_annotated ctx.now slot key bounds.now h asked.old) result asked.new }
{
    let naming = of_slots();
    let ids = coerce_to(alloc, ctx, &naming, key, bounds, &h, asked)?;
    assign_coerced(alloc, ctx, slot, h, ids, asked)
}

/// To a pointer local that takes its bounds with it, what was derived.
#[tactic(auto, unfolding(deputy_rules::specs::Deriving::bind))]
fn assign_hidden(
    alloc: Global,
    ctx: &Context<'_>,
    slot: u32,
    key: Element,
    value: Derived,
    asked: &mut Items<Asked>,
) -> Result<CheckedStmt, DerivingRefusal>
    requires { AreFewSlots ctx.now.table ctx.now.slots }
    ensures { Derives (bind (lift (coercion.handed ctx.now key false value)) (spec.assign_automatic ctx.now slot) asked.old) result asked.new }
{
    let h = handed(alloc, ctx, key, false, value)?;
    assign_automatic(alloc, ctx, slot, h, asked)
}

/// To a pointer local or parameter with an annotation, nullterm or not, what was derived.
#[tactic(auto, unfolding(deputy_rules::specs::Deriving::bind))]
fn assign_bounded(
    alloc: Global,
    ctx: &Context<'_>,
    slot: u32,
    key: Element,
    bounds: &Bounds,
    nullterm: bool,
    value: Derived,
    asked: &mut Items<Asked>,
) -> Result<CheckedStmt, DerivingRefusal>
    requires { AreFewSlots ctx.now.table ctx.now.slots }
    ensures { Derives (bind (lift (coercion.handed ctx.now key nullterm value)) (spec.assign_annotated ctx.now slot key bounds.now) asked.old) result asked.new }
{
    let h = handed(alloc, ctx, key, nullterm, value)?;
    assign_annotated(alloc, ctx, slot, key, bounds, h, asked)
}

/// To a pointer local or parameter.
#[tactic(auto, unfolding(deputy_rules::specs::Assignment::assign_pointer))]
fn assign_pointer(
    alloc: Global,
    ctx: &Context<'_>,
    slot: u32,
    key: Element,
    bounds: &Bounds,
    value: Derived,
    asked: &mut Items<Asked>,
) -> Result<CheckedStmt, DerivingRefusal>
    requires { AreFewSlots ctx.now.table ctx.now.slots }
    ensures { Derives (spec.assign_pointer ctx.now slot key bounds.now value asked.old) result asked.new }
{
    match bounds {
        Bounds::Hidden => assign_hidden(alloc, ctx, slot, key, value, asked),
        Bounds::Nullterm => assign_bounded(alloc, ctx, slot, key, bounds, true, value, asked),
        Bounds::Within { lo: _, hi: _ } => {
            assign_bounded(alloc, ctx, slot, key, bounds, false, value, asked)
        }
    }
}

/// To a local or parameter of this shape.
#[tactic(auto, unfolding(deputy_rules::specs::Deriving::bind, deputy_rules::specs::Assignment::assign_local))]
fn assign_local(
    alloc: Global,
    ctx: &Context<'_>,
    slot: u32,
    value: Derived,
    shape: &Shape,
    asked: &mut Items<Asked>,
) -> Result<CheckedStmt, DerivingRefusal>
    requires { AreFewSlots ctx.now.table ctx.now.slots }
    ensures { Derives (spec.assign_local ctx.now slot value shape.now asked.old) result asked.new }
{
    match shape {
        Shape::Int(scalar) => assign_number(alloc, ctx, slot, *scalar, value, asked),
        Shape::Pointer { elem, bounds } => match ctx.types.element_at(*elem) {
            Some(key) => assign_pointer(alloc, ctx, slot, key, bounds, value, asked),
            None => no_rule(value),
        },
        Shape::Struct(_) => no_rule(value),
        Shape::Address => no_rule(value),
    }
}

/// To a local or parameter.
#[tactic(auto, unfolding(deputy_rules::specs::Deriving::bind))]
fn assign_slot(
    alloc: Global,
    ctx: &Context<'_>,
    slot: u32,
    value: Derived,
    asked: &mut Items<Asked>,
) -> Result<CheckedStmt, DerivingRefusal>
    requires { AreFewSlots ctx.now.table ctx.now.slots }
    ensures { Derives (bind (lift (slot_shape ctx.now slot)) (spec.assign_local ctx.now slot value) asked.old) result asked.new }
{
    match ctx.slot_shape(slot) {
        Some(shape) => assign_local(alloc, ctx, slot, value, shape, asked),
        None => no_rule(value),
    }
}

/// To what was derived: no rule where it is no integer or pointer local or place, or the value has no such type.
#[tactic(auto, unfolding(deputy_rules::specs::Assignment::assign_to))]
pub fn assign_to(
    alloc: Global,
    ctx: &Context<'_>,
    value: Derived,
    target: Derived,
    asked: &mut Items<Asked>,
) -> Result<CheckedStmt, DerivingRefusal>
    requires { AreFewSlots ctx.now.table ctx.now.slots }
    ensures { Derives (spec.assign_to ctx.now value target asked.old) result asked.new }
{
    match target {
        Derived::Local(slot) => assign_slot(alloc, ctx, slot, value, asked),
        Derived::Place(place) => store(alloc, ctx, place, value, asked),
        Derived::Value(_) => no_rule(value),
        Derived::Array(_) => no_rule(value),
        Derived::Union(_) => no_rule(value),
    }
}
