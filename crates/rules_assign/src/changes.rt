//! What an assignment changes in the types of its siblings (Hoare's axiom of assignment): each pointer whose annotation names the assigned slot or member has to
//! fit its own type with the new value in the name's place. All its checks have the kind `Change`.
ghost use Rattle.std.specs.Prelude.{◌≡◌, ◌<◌, ◌^◌, length, if◌then◌else◌, map, IfOk, [], ◌∷◌};
ghost use Rattle.deputy_rules.specs.Changes as spec;
ghost use Rattle.deputy_rules.specs.Deriving.{Derives, bind, lift};
ghost use Rattle.deputy_rules.specs.Values as values;
ghost use Rattle.deputy_types.specs.Table as table;
ghost use Rattle.rules_assign.specs.AreFewSlots.{AreFewSlots};

use checked_tree::{Bounds, CheckedExpr, Member, Part, Scalar, Shape, Sum, UnionShape, copied_sum};
use deputy_rules::{Asked, AskedCond, Change, DerivingRefusal, Names, Naming, Place};
use deputy_types::{Element, TypeTable, bounds_name};
use rules_coerce::{Fit, coerce, members_of};
use rules_values::{
    Context, Ids, ask, atom_part, beyond, boxed_copy, container, high_sum, load_form, low_sum,
    name_sum, one, with_part,
};
use sd_base::CheckKind;
use sqlite_items::{Boxed, Items, at};
use std::alloc::{AllocError, Global};

/// An assignment to a slot or member, as its siblings see it.
#[derive(Drop)]
struct Update {
    /// The names as they are.
    before: Naming,
    /// The names with the new value.
    after: Naming,
    /// Whose value is new.
    name: u32,
}

/// The names as they are.
pub(crate) fn present(names: Names) -> Naming
    ensures { result ≡ spec.present names }
{
    Naming {
        names,
        change: None,
    }
}

/// The names with a new value for one.
fn changed(names: Names, name: u32, value: Sum) -> Naming
    ensures { result ≡ spec.changed names name value }
{
    Naming {
        names,
        change: Some(Change { name, value }),
    }
}

/// The bounds that an annotation gives a pointer with this value. The only refusal is want of memory.
fn bounds_at(
    alloc: Global,
    ctx: &Context<'_>,
    naming: &Naming,
    bounds: &Bounds,
    at: &Sum,
) -> Result<(Sum, Sum), AllocError>
    ensures { IfOk result (λ found. found ≡ (values.low_sum ctx.now naming.now at.now bounds.now, values.high_sum ctx.now naming.now at.now bounds.now)) }
{
    let low = low_sum(alloc, ctx, naming, copied_sum(alloc, at)?, bounds)?;
    let high = high_sum(alloc, ctx, naming, copied_sum(alloc, at)?, bounds)?;
    Ok((low, high))
}

/// A pointer with this value and its present bounds, and the bounds of its own type with the new value. The only refusal is want of memory.
fn change_fit(
    alloc: Global,
    ctx: &Context<'_>,
    update: &Update,
    bounds: &Bounds,
    key: Element,
    at: Sum,
) -> Result<Fit, AllocError>
    ensures { IfOk result (λ fit. fit ≡ record {
      at = at;
      low = values.low_sum ctx.now update.now.before at bounds.now;
      high = values.high_sum ctx.now update.now.before at bounds.now;
      lower = values.low_sum ctx.now update.now.after at bounds.now;
      higher = values.high_sum ctx.now update.now.after at bounds.now;
      size = values.size_of ctx.now key;
    }) }
{
    let (low, high) = bounds_at(alloc, ctx, &update.before, bounds, &at)?;
    let (lower, higher) = bounds_at(alloc, ctx, &update.after, bounds, &at)?;
    Ok(Fit {
        at,
        low,
        high,
        lower,
        higher,
        size: ctx.size_of(key),
    })
}

/// Asks for the coercion of a pointer with this value and its present bounds to its own type with the new value.
fn change_at(
    alloc: Global,
    ctx: &Context<'_>,
    update: &Update,
    bounds: &Bounds,
    key: Element,
    at: Sum,
    asked: &mut Items<Asked>,
) -> Result<Ids, DerivingRefusal>
    ensures { Derives (spec.change_at ctx.now update.now.before update.now.after bounds.now key at asked.old) result asked.new }
{
    let fit = change_fit(alloc, ctx, update, bounds, key, at)?;
    let kind = CheckKind::Change;
    coerce(alloc, ctx, kind, kind, &fit, asked)
}

/// The same for the sibling with number `i`.
#[tactic(auto, unfolding(deputy_rules::specs::Changes::pointer_change))]
fn pointer_change(
    alloc: Global,
    ctx: &Context<'_>,
    update: &Update,
    i: u32,
    bounds: &Bounds,
    key: Element,
    asked: &mut Items<Asked>,
) -> Result<Ids, DerivingRefusal>
    ensures { Derives (spec.pointer_change ctx.now update.now.before update.now.after i bounds.now key asked.old) result asked.new }
{
    let at = name_sum(alloc, ctx, &update.before, i)?;
    change_at(alloc, ctx, update, bounds, key, at, asked)
}

/// The same for a pointer to the element with number `elem`.
#[tactic(auto, unfolding(deputy_rules::specs::Deriving::bind))]
fn elem_change(
    alloc: Global,
    ctx: &Context<'_>,
    update: &Update,
    i: u32,
    elem: u32,
    bounds: &Bounds,
    asked: &mut Items<Asked>,
) -> Result<Ids, DerivingRefusal>
    ensures { Derives
        (bind (lift (table.element_at ctx.now.table elem)) (spec.pointer_change ctx.now update.now.before update.now.after i bounds.now) asked.old)
        result asked.new }
{
    match ctx.types.element_at(elem) {
        Some(key) => pointer_change(alloc, ctx, update, i, bounds, key, asked),
        None => Err(DerivingRefusal::NoRule),
    }
}

/// The same where the annotation names whose value is new.
#[tactic(auto, unfolding(deputy_rules::specs::Changes::sibling_change))]
fn sibling_change(
    alloc: Global,
    ctx: &Context<'_>,
    update: &Update,
    i: u32,
    shape: &Shape,
    asked: &mut Items<Asked>,
) -> Result<Ids, DerivingRefusal>
    ensures { Derives (spec.sibling_change ctx.now update.now.before update.now.after update.now.name i shape.now asked.old) result asked.new }
{
    match shape {
        Shape::Int(_) => Ok(Items::new(alloc)),
        Shape::Pointer { elem, bounds } => {
            if bounds_name(update.name, bounds) {
                elem_change(alloc, ctx, update, i, *elem, bounds, asked)
            } else {
                Ok(Items::new(alloc))
            }
        }
        Shape::Struct(_) => Ok(Items::new(alloc)),
        Shape::Address => Ok(Items::new(alloc)),
    }
}

/// The same where the sibling's declaration is derived.
fn optional_change(
    alloc: Global,
    ctx: &Context<'_>,
    update: &Update,
    i: u32,
    shape: &Option<Shape>,
    asked: &mut Items<Asked>,
) -> Result<Ids, DerivingRefusal>
    ensures { Derives (spec.optional_change ctx.now update.now.before update.now.after update.now.name i shape.now asked.old) result asked.new }
{
    match shape {
        Some(found) => sibling_change(alloc, ctx, update, i, found, asked),
        None => Ok(Items::new(alloc)),
    }
}

/// The checks of all slots, in the order of their declarations.
#[tactic(auto, unfolding(deputy_rules::specs::Deriving::bind))]
fn each_slot(
    alloc: Global,
    ctx: &Context<'_>,
    update: &Update,
    shapes: &[Option<Shape>],
    asked: &mut Items<Asked>,
) -> Result<Ids, DerivingRefusal>
    requires { length shapes.now < 2 ^ 32 }
    ensures { Derives (spec.sibling_changes ctx.now update.now.before update.now.after update.now.name 0 shapes.now [] asked.old) result asked.new }
{
    let mut ids = Items::new(alloc);
    for (i, shape) in shapes.iter().enumerate() {
        ids.append(optional_change(alloc, ctx, update, i as u32, shape, asked)?)?;
    }
    Ok(ids)
}

/// The checks of all members of a struct, in the order of their declarations.
#[tactic(auto, unfolding(deputy_rules::specs::Deriving::bind))]
fn each_member(
    alloc: Global,
    ctx: &Context<'_>,
    update: &Update,
    members: &[Member],
    asked: &mut Items<Asked>,
) -> Result<Ids, DerivingRefusal>
    requires { length members.now < 2 ^ 32 }
    ensures { Derives (spec.sibling_changes ctx.now update.now.before update.now.after update.now.name 0 (map spec.shape_of members.now) [] asked.old) result asked.new }
{
    let mut ids = Items::new(alloc);
    for (i, member) in members.iter().enumerate() {
        ids.append(sibling_change(alloc, ctx, update, i as u32, &member.shape, asked)?)?;
    }
    Ok(ids)
}

/// Asks for the checks of the siblings of a slot that has a new value.
#[tactic(auto, unfolding(deputy_rules::specs::Changes::slot_changes))]
pub(crate) fn slot_changes(
    alloc: Global,
    ctx: &Context<'_>,
    slot: u32,
    new: Sum,
    asked: &mut Items<Asked>,
) -> Result<Ids, DerivingRefusal>
    requires { AreFewSlots ctx.now.table ctx.now.slots }
    ensures { Derives (spec.slot_changes ctx.now slot new asked.old) result asked.new }
{
    let update = Update {
        before: present(Names::OfSlots),
        after: changed(Names::OfSlots, slot, new),
        name: slot,
    };
    each_slot(alloc, ctx, &update, ctx.slots.as_slice(), asked)
}

/// Names that are read in the struct place in which this place lies. The only refusal is want of memory.
pub(crate) fn struct_names(
    alloc: Global,
    place: &Place,
    structure: u32,
) -> Result<Names, AllocError>
    ensures { IfOk result (λ names. names ≡ spec.struct_names place.now structure) }
{
    Ok(Names::OfStruct(container(alloc, place.form.get())?, structure))
}

/// Asks for the checks of the siblings of a member that has a new value.
#[tactic(auto, unfolding(deputy_rules::specs::Changes::member_changes))]
pub(crate) fn member_changes(
    alloc: Global,
    ctx: &Context<'_>,
    place: &Place,
    structure: u32,
    member: u32,
    new: Sum,
    asked: &mut Items<Asked>,
) -> Result<Ids, DerivingRefusal>
    requires { AreFewSlots ctx.now.table ctx.now.slots }
    ensures { Derives (spec.member_changes ctx.now place.now structure member new asked.old) result asked.new }
{
    let update = Update {
        before: present(struct_names(alloc, place, structure)?),
        after: changed(struct_names(alloc, place, structure)?, member, new),
        name: member,
    };
    each_member(alloc, ctx, &update, members_of(ctx.types, structure), asked)
}
