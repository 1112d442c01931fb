//! Members: fields, unions and arms of a struct place, each with its checks.
ghost use Rattle.std.specs.Prelude.{◌≡◌, [], ◌∷◌, pos, IfOk, option_copied};
ghost use Rattle.sd_base.specs.declared.kinds.CheckKind.TheVariants as kind;
ghost use Rattle.checked_tree.specs.declared.expressions.CheckedExpr.TheVariants as form;
ghost use Rattle.deputy_rules.specs.declared.asked.AskedCond.TheVariants as cond;
ghost use Rattle.deputy_rules.specs.declared.derived.Derived.TheVariants as derived;
ghost use Rattle.deputy_rules.specs.declared.derived.Source.TheVariants as source;
ghost use Rattle.deputy_rules.specs.Deriving as asking;
ghost use Rattle.deputy_rules.specs.Deriving.{Derives, Yields};
ghost use Rattle.deputy_rules.specs.Places as spec;
ghost use Rattle.deputy_rules.specs.Sums as sums;
ghost use Rattle.deputy_rules.specs.Values as values;

use crate::Context;
use crate::asking::ask;
use crate::forms::field_form;
use crate::ids::one;
use crate::names::{loaded_as, member_part};
use crate::sums::beyond;
use checked_tree::{Member, Shape, UnionShape};
use deputy_rules::{
    ArrayPlace, Asked, AskedCond, Derived, DerivingRefusal, FoundArm, Place, Source, UnionPlace,
};
use deputy_types::Element;
use sd_base::{CheckKind, Name};
use sqlite_items::Items;
use std::alloc::{AllocError, Global};

/// The struct that a shape is.
fn struct_by(shape: Option<&Shape>) -> Option<u32>
    ensures { result ≡ spec.struct_by (option_copied shape.entry) }
{
    match shape {
        Some(Shape::Struct(s)) => Some(*s),
        Some(Shape::Int(_)) => None,
        Some(Shape::Pointer { elem: _, bounds: _ }) => None,
        Some(Shape::Address) => None,
        None => None,
    }
}

/// The struct that a type is.
fn struct_key(key: Element) -> Option<u32>
    ensures { result ≡ spec.struct_key key }
{
    match key {
        Element::Struct(s) => Some(s),
        _ => None,
    }
}

/// The struct of a place, by where its type is declared.
#[tactic(auto, unfolding(deputy_rules::specs::Places::struct_of))]
fn struct_of(ctx: &Context<'_>, source: Source) -> Option<u32>
    ensures { result ≡ spec.struct_of ctx.now source }
{
    match source {
        Source::Element(key) => struct_key(key),
        Source::Text => None,
        Source::Member(structure, member) => struct_by(ctx.types.member_shape(structure, member)),
    }
}

/// A member that is no array, at its offset. The only refusal is want of memory.
fn plain_member(
    alloc: Global,
    place: Place,
    structure: u32,
    member: u32,
    offset: u32,
) -> Result<Derived, AllocError>
    ensures { IfOk result (λ d. d ≡ spec.plain_member place structure member offset) }
{
    let form = field_form(alloc, place.form, offset, Items::new(alloc))?;
    let at = beyond(place.at, i64::from(offset))?;
    Ok(Derived::Place(Place {
        form,
        at,
        source: Source::Member(structure, member),
    }))
}

/// A member that is an array, at its offset. The only refusal is want of memory.
fn array_member(
    alloc: Global,
    place: Place,
    offset: u32,
    count: u32,
    key: Element,
) -> Result<Derived, AllocError>
    ensures { IfOk result (λ d. d ≡ spec.array_member place offset count key) }
{
    let form = field_form(alloc, place.form, offset, Items::new(alloc))?;
    let at = beyond(place.at, i64::from(offset))?;
    Ok(Derived::Array(ArrayPlace {
        form,
        at,
        elem: key,
        count,
    }))
}

/// A member of a struct place.
fn member_at(
    alloc: Global,
    ctx: &Context<'_>,
    place: Place,
    structure: u32,
    member: u32,
    found: &Member,
) -> Result<Derived, DerivingRefusal>
    ensures { Yields (spec.member_at ctx.now place structure member found.now) result }
{
    if !ctx.types.is_array(structure, member) {
        return Ok(plain_member(alloc, place, structure, member, found.offset)?);
    }
    match ctx.types.member_key(structure, member) {
        Some(key) => Ok(array_member(alloc, place, found.offset, found.count, key)?),
        None => Err(DerivingRefusal::NoRule),
    }
}

/// `l.f`, a field of the struct place l: the place of l plus the offset.
#[tactic(auto, unfolding(deputy_rules::specs::Places::member_place))]
fn member_place(
    alloc: Global,
    ctx: &Context<'_>,
    place: Place,
    structure: u32,
    member: u32,
) -> Result<Derived, DerivingRefusal>
    ensures { Yields (spec.member_place ctx.now place structure member) result }
{
    match ctx.types.member(structure, member) {
        Some(found) => member_at(alloc, ctx, place, structure, member, found),
        None => Err(DerivingRefusal::NoRule),
    }
}

/// `l.u`, a union of the struct place l.
fn union_place(place: Place, structure: u32, part: u32) -> Derived
    ensures { result ≡ spec.union_place place structure part }
{
    Derived::Union(UnionPlace {
        container: place.form,
        at: place.at,
        structure,
        part,
    })
}

/// `l.f`, by what f names in the struct with this number.
fn part_by(
    alloc: Global,
    ctx: &Context<'_>,
    place: Place,
    structure: u32,
    name: &Name,
    field: Option<u32>,
) -> Result<Derived, DerivingRefusal>
    ensures { Yields (spec.part_by ctx.now place structure name.now field) result }
{
    match field {
        Some(member) => member_place(alloc, ctx, place, structure, member),
        None => match ctx.types.union_of(structure, name) {
            Some(part) => Ok(union_place(place, structure, part)),
            None => Err(DerivingRefusal::NoRule),
        },
    }
}

/// `l.f`, l a place.
#[tactic(auto, unfolding(deputy_rules::specs::Places::part_of))]
fn part_of(
    alloc: Global,
    ctx: &Context<'_>,
    place: Place,
    name: &Name,
) -> Result<Derived, DerivingRefusal>
    ensures { Yields (spec.part_of ctx.now place name.now) result }
{
    match struct_of(ctx, place.source) {
        Some(structure) => {
            let field = ctx.types.field(structure, name);
            part_by(alloc, ctx, place, structure, name, field)
        }
        None => Err(DerivingRefusal::NoRule),
    }
}

/// What is looked up of an arm with its union's tag.
fn found_with(number: u32, arm: &Member, tag: &Member, constant: i64) -> FoundArm
    ensures { result ≡ record {
      number = number;
      offset = arm.now.offset;
      constant = constant;
      tag_offset = tag.now.offset;
      tag_scalar = values.loaded_as tag.now.shape;
    } }
{
    FoundArm {
        number,
        offset: arm.offset,
        constant,
        tag_offset: tag.offset,
        tag_scalar: loaded_as(&tag.shape),
    }
}

/// An arm of this union.
fn found_in(
    ctx: &Context<'_>,
    structure: u32,
    number: u32,
    arm: &Member,
    part: UnionShape,
) -> Option<FoundArm>
    ensures { result ≡ spec.found_in ctx.now structure number arm.now part }
{
    match ctx.types.member(structure, part.tag) {
        Some(tag) => match arm.arm {
            Some((_, constant)) => Some(found_with(number, arm, tag, constant)),
            None => None,
        },
        None => None,
    }
}

/// An arm by its number among the members.
fn found_member(ctx: &Context<'_>, structure: u32, part: u32, number: u32) -> Option<FoundArm>
    ensures { result ≡ spec.found_member ctx.now structure part number }
{
    match ctx.types.member(structure, number) {
        Some(arm) => match ctx.types.union_shape(structure, part) {
            Some(shape) => found_in(ctx, structure, number, arm, shape),
            None => None,
        },
        None => None,
    }
}

/// An arm by its name.
#[tactic(auto, unfolding(deputy_rules::specs::Places::found_arm))]
fn found_arm(ctx: &Context<'_>, structure: u32, part: u32, name: &Name) -> Option<FoundArm>
    ensures { result ≡ spec.found_arm ctx.now structure part name.now }
{
    match ctx.types.arm(structure, part, name) {
        Some(number) => found_member(ctx, structure, part, number),
        None => None,
    }
}

/// Tag: the tag of the struct place equals the arm's constant.
fn ask_tag(
    alloc: Global,
    ctx: &Context<'_>,
    place: &UnionPlace,
    arm: FoundArm,
    asked: &mut Items<Asked>,
) -> Result<usize, DerivingRefusal>
    ensures { Derives
        (asking.ask ctx.now kind.Tag (cond.Equal (values.member_part place.now.container arm.tag_scalar arm.tag_offset) arm.constant) asked.old)
        result asked.new }
{
    let tag = member_part(alloc, place.container.get(), arm.tag_scalar, arm.tag_offset)?;
    ask(
        ctx,
        CheckKind::Tag,
        AskedCond::Equal(tag, arm.constant),
        asked,
    )
}

/// An arm as a field, with this check. The only refusal is want of memory.
fn arm_field(
    alloc: Global,
    place: UnionPlace,
    arm: FoundArm,
    check: usize,
) -> Result<Derived, AllocError>
    ensures { IfOk result (λ d. d ≡ derived.Place (record {
      form = form.Field place.container arm.offset (check ∷ []);
      at = sums.beyond place.at (pos arm.offset);
      source = source.Member place.structure arm.number;
    })) }
{
    let form = field_form(alloc, place.container, arm.offset, one(alloc, check)?)?;
    let at = beyond(place.at, i64::from(arm.offset))?;
    Ok(Derived::Place(Place {
        form,
        at,
        source: Source::Member(place.structure, arm.number),
    }))
}

/// `l.u.a`, an arm that was found.
#[tactic(auto, unfolding(deputy_rules::specs::Deriving::bind))]
fn arm_at(
    alloc: Global,
    ctx: &Context<'_>,
    place: UnionPlace,
    arm: FoundArm,
    asked: &mut Items<Asked>,
) -> Result<Derived, DerivingRefusal>
    ensures { Derives (spec.arm_at ctx.now place arm asked.old) result asked.new }
{
    let id = ask_tag(alloc, ctx, &place, arm, asked)?;
    Ok(arm_field(alloc, place, arm, id)?)
}

/// `l.u.a`, an arm, as a field; Tag: the tag of l equals the arm's constant.
#[tactic(auto, unfolding(deputy_rules::specs::Deriving::bind, deputy_rules::specs::Places::arm_place))]
fn arm_place(
    alloc: Global,
    ctx: &Context<'_>,
    place: UnionPlace,
    name: &Name,
    asked: &mut Items<Asked>,
) -> Result<Derived, DerivingRefusal>
    ensures { Derives (spec.arm_place ctx.now place name.now asked.old) result asked.new }
{
    match found_arm(ctx, place.structure, place.part, name) {
        Some(arm) => arm_at(alloc, ctx, place, arm, asked),
        None => Err(DerivingRefusal::NoRule),
    }
}

/// `l.f`.
#[tactic(auto, unfolding(deputy_rules::specs::Places::dotted))]
pub fn dotted(
    alloc: Global,
    ctx: &Context<'_>,
    of: Derived,
    name: &Name,
    asked: &mut Items<Asked>,
) -> Result<Derived, DerivingRefusal>
    ensures { Derives (spec.dotted ctx.now of name.now asked.old) result asked.new }
{
    match of {
        Derived::Place(place) => part_of(alloc, ctx, place, name),
        Derived::Union(place) => arm_place(alloc, ctx, place, name, asked),
        Derived::Value(_) => Err(DerivingRefusal::NoRule),
        Derived::Local(_) => Err(DerivingRefusal::NoRule),
        Derived::Array(_) => Err(DerivingRefusal::NoRule),
    }
}
