//! The local that takes the result of a call, or the block of `kalloc`.
ghost use Rattle.std.specs.Prelude.{◌≡◌, option_copied, option_map, Some};
ghost use Rattle.std.specs.List.{list_any};
ghost use Rattle.c_tree.specs.Slots.{hidden_slot};
ghost use Rattle.checked_tree.specs.declared.shapes.Shape.TheVariants as shaped;
ghost use Rattle.checked_tree.specs.declared.statements.Target.TheVariants as target;
ghost use Rattle.deputy_rules.specs.Calls as spec;

use checked_tree::{Bounds, Shape, Target};
use deputy_rules::Returned;
use deputy_types::shape_names;
use rules_values::{Context, is_nullterm};
use sd_base::Name;

/// Whether the annotation of a slot names the slot with number `slot`.
fn names_slot(slot: u32, shape: &Option<Shape>) -> bool
    ensures { result ≡ spec.names_slot slot shape.now }
{
    match shape {
        Some(found) => shape_names(slot, found),
        None => false,
    }
}

/// Whether one of these annotations does.
fn any_names_slot(shapes: &[Option<Shape>], slot: u32) -> bool
    ensures { result ≡ list_any (spec.names_slot slot) shapes.now }
{
    shapes.iter().any(|shape| names_slot(slot, shape))
}

/// Whether an annotation names a slot.
#[tactic(auto, unfolding(deputy_rules::specs::Calls::is_named_slot))]
fn is_named_slot(ctx: &Context<'_>, slot: u32) -> bool
    ensures { result ≡ spec.is_named_slot ctx.now slot }
{
    any_names_slot(ctx.slots.as_slice(), slot)
}

/// The slot of a local or parameter that no annotation names. None where it is named, or there is none of this name.
#[tactic(auto, unfolding(deputy_rules::specs::Calls::free_slot))]
fn free_slot(ctx: &Context<'_>, name: &Name) -> Option<u32>
    ensures { result ≡ spec.free_slot ctx.now name.now }
{
    match ctx.locals.slot(name) {
        Some(slot) => {
            if is_named_slot(ctx, slot) {
                None
            } else {
                Some(slot)
            }
        }
        None => None,
    }
}

/// An integer local takes an integer.
fn integer_target(slot: u32, shape: Option<&Shape>) -> Option<Target>
    ensures { result ≡ spec.integer_target slot (option_copied shape.entry) }
{
    match shape {
        Some(Shape::Int(scalar)) => Some(Target::Int {
            slot,
            scalar: *scalar,
        }),
        Some(Shape::Pointer { elem: _, bounds: _ }) => None,
        Some(Shape::Struct(_)) => None,
        Some(Shape::Address) => None,
        None => None,
    }
}

/// Whether a pointer takes its bounds with it.
fn is_hidden(bounds: &Bounds) -> bool
    ensures { result ≡ spec.is_hidden bounds.now }
{
    match bounds {
        Bounds::Hidden => true,
        Bounds::Nullterm => false,
        Bounds::Within { lo: _, hi: _ } => false,
    }
}

/// Whether this is a pointer to the element with number `elem` that takes its bounds with it.
fn is_automatic_to(elem: u32, shape: Option<&Shape>) -> bool
    ensures { result ≡ spec.is_automatic_to elem (option_copied shape.entry) }
{
    match shape {
        Some(Shape::Pointer { elem: own, bounds }) => is_hidden(bounds) && *own == elem,
        Some(Shape::Int(_)) => false,
        Some(Shape::Struct(_)) => false,
        Some(Shape::Address) => false,
        None => false,
    }
}

/// A slot with its hidden one.
fn hidden_target(ctx: &Context<'_>, slot: u32) -> Option<Target>
    ensures { result ≡ option_map (λ h. target.Automatic slot h) (hidden_slot ctx.now.locals slot) }
{
    match ctx.locals.hidden(slot) {
        Some(hidden) => Some(Target::Automatic { slot, hidden }),
        None => None,
    }
}

/// A local pointer that takes its bounds with it takes a pointer to its element.
#[tactic(auto, unfolding(deputy_rules::specs::Calls::automatic_target))]
fn automatic_target(ctx: &Context<'_>, elem: u32, slot: u32) -> Option<Target>
    ensures { result ≡ spec.automatic_target ctx.now elem slot }
{
    if is_automatic_to(elem, ctx.slot_shape(slot)) {
        hidden_target(ctx, slot)
    } else {
        None
    }
}

/// Whether this is a pointer to text.
fn is_nullterm_shape(shape: Option<&Shape>) -> bool
    ensures { result ≡ spec.is_nullterm_shape (option_copied shape.entry) }
{
    match shape {
        Some(Shape::Pointer { elem: _, bounds }) => is_nullterm(bounds),
        Some(Shape::Int(_)) => false,
        Some(Shape::Struct(_)) => false,
        Some(Shape::Address) => false,
        None => false,
    }
}

/// A nullterm pointer takes a nullterm one.
fn text_target(slot: u32, shape: Option<&Shape>) -> Option<Target>
    ensures { result ≡ spec.text_target slot (option_copied shape.entry) }
{
    if is_nullterm_shape(shape) {
        Some(Target::Nullterm { slot })
    } else {
        None
    }
}

/// The target of a pointer that is a result.
#[tactic(auto, unfolding(deputy_rules::specs::Calls::shape_target))]
fn pointer_target(ctx: &Context<'_>, slot: u32, elem: u32, bounds: &Bounds) -> Option<Target>
    ensures { result ≡ spec.shape_target ctx.now slot (shaped.Pointer elem bounds.now) }
{
    if is_nullterm(bounds) {
        text_target(slot, ctx.slot_shape(slot))
    } else {
        automatic_target(ctx, elem, slot)
    }
}

/// The slot as the target of a result of this shape.
#[tactic(auto, unfolding(deputy_rules::specs::Calls::shape_target))]
fn shape_target(ctx: &Context<'_>, slot: u32, result_shape: &Shape) -> Option<Target>
    ensures { result ≡ spec.shape_target ctx.now slot result_shape.now }
{
    match result_shape {
        Shape::Int(_) => integer_target(slot, ctx.slot_shape(slot)),
        Shape::Pointer { elem, bounds } => pointer_target(ctx, slot, *elem, bounds),
        Shape::Struct(_) => None,
        Shape::Address => None,
    }
}

/// The local or parameter that no annotation names, as the target of a result of this shape.
fn value_target(ctx: &Context<'_>, result_shape: &Shape, name: &Name) -> Option<Option<Target>>
    ensures { result ≡ spec.value_target ctx.now result_shape.now name.now }
{
    match free_slot(ctx, name) {
        Some(slot) => match shape_target(ctx, slot, result_shape) {
            Some(target) => Some(Some(target)),
            None => None,
        },
        None => None,
    }
}

/// The target of a call with this result, where a name stands on its left.
#[tactic(auto, unfolding(deputy_rules::specs::Calls::call_target))]
fn named_target(
    ctx: &Context<'_>,
    returned: Option<&Returned>,
    name: &Name,
) -> Option<Option<Target>>
    ensures { result ≡ spec.call_target ctx.now (option_copied returned.entry) (Some name.now) }
{
    match returned {
        Some(Returned::Value(shape)) => value_target(ctx, shape, name),
        Some(Returned::Nothing) => None,
        None => None,
    }
}

/// The target of a call with this result: `x = ` before it, where a name stands there; without one the result is dropped. None where x may not take the result: x is
/// no local or parameter, an annotation names it, or it has another type.
#[tactic(auto, unfolding(deputy_rules::specs::Calls::call_target))]
pub fn call_target(
    ctx: &Context<'_>,
    returned: Option<&Returned>,
    name: Option<&Name>,
) -> Option<Option<Target>>
    ensures { result ≡ spec.call_target ctx.now (option_copied returned.entry) (option_copied name.entry) }
{
    match name {
        Some(x) => named_target(ctx, returned, x),
        None => Some(None),
    }
}

/// The target of `x = kalloc(T, e)`, where T is the element with this number.
pub fn kalloc_target(ctx: &Context<'_>, x: &Name, elem: u32) -> Option<Target>
    ensures { result ≡ spec.kalloc_target ctx.now x.now elem }
{
    match free_slot(ctx, x) {
        Some(slot) => automatic_target(ctx, elem, slot),
        None => None,
    }
}
