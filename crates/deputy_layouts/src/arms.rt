//! Arms of a union, each under one value of the union's tag (the tagged unions of Deputy, ESOP 2007).
ghost use Rattle.std.specs.Prelude.{◌≡◌, ◌≤◌, ◌==◌, IfOk, true};
ghost use Rattle.std.specs.List.{list_any};
ghost use Rattle.std.specs.Ordering.{int_eq};
ghost use Rattle.checked_tree.specs.Numbers.{is_of};
ghost use Rattle.deputy_types.specs.StructLayout as spec;
ghost use Rattle.deputy_types.specs.StructLayout.{around};
ghost use Rattle.deputy_types.specs.Extents.{AreExtents, IsExtent};
ghost use Rattle.deputy_types.specs.UnitLayout.{IsAnswer};

use crate::fields::is_first;
use c_tree::{Arm, Const};
use checked_tree::{Member, Scalar, Shape, UnionShape};
use deputy_types::{
    Arms, Extent, Role, Scope, Siblings, TypeRefusal, Types, Unannotated, arm_extent, greater,
    natural, typed_shape,
};
use sd_base::{Memory, Name};
use std::alloc::Global;

/// The extent of the greatest of these arms, and at least one byte.
fn greatest_of(types: &Types, arms: &[Arm]) -> Extent
    ensures { result ≡ spec.union_extent types.now arms.now }
{
    let mut greatest = natural(1);
    for arm in arms {
        greatest = greater(greatest, arm_extent(types, &arm.type_name));
    }
    greatest
}

/// The extent of a union: that of the greatest of its arms, and at least one byte.
pub(crate) fn union_extent(types: &Types, arms: &[Arm]) -> Extent
    ensures value { result ≡ spec.union_extent types.now arms.now }
    ensures fits { IsExtent result }
{
    greatest_of(types, arms)
}

/// A written constant.
pub fn const_value(c: &Const) -> i64
    ensures { result ≡ spec.const_value c.now }
{
    match c {
        Const::Number(n) => n.value as i64,
        Const::Negative(n) => -(n.value as i64),
        Const::Character(c) => *c as i64,
    }
}

/// The number of a sibling that is a tag before the member `start`.
fn tag_at(start: usize, k: u32, role: Role) -> Option<u32>
    ensures { result ≡ spec.tag_at start k role }
{
    match role {
        Role::Tag => { if (k as usize) < start { Some(k) } else { None } }
        Role::Integer | Role::Pointer(_) | Role::Other => None,
    }
}

/// The number of the field that an arm names as the tag: an integer, no array, before the union, which begins at the member `start`.
#[tactic(auto, unfolding(deputy_types::specs::StructLayout::tag_number))]
fn tag_number(at: &Scope, start: usize, name: &Name) -> Option<u32>
    ensures { result ≡ spec.tag_number (around at.now) start name.now }
{
    let siblings: &Siblings = at.siblings;
    let k = siblings.number(name)?;
    let role = siblings.role(k)?;
    tag_at(start, k, role)
}

/// Whether a union has this tag.
fn has_tag(unions: &[UnionShape], k: u32) -> bool
    ensures { result ≡ list_any (λ u. u.tag == k) unions.now }
{
    for u in unions {
        if u.tag == k {
            return true;
        }
    }
    false
}

/// Whether the tag is that of the first arm, or at the first arm the tag of no earlier union.
#[tactic(auto, unfolding(deputy_types::specs::StructLayout::is_own_tag))]
fn is_own_tag(unions: &[UnionShape], tag: Option<u32>, k: u32) -> bool
    ensures { result ≡ spec.is_own_tag unions.now tag k }
{
    match tag {
        None => !has_tag(unions, k),
        Some(first) => first == k,
    }
}

/// Whether an integer type has a number.
#[tactic(auto, unfolding(checked_tree::specs::Numbers::is_of))]
fn scalar_holds(scalar: Scalar, value: i64) -> bool
    ensures { result ≡ is_of scalar value }
{
    match scalar {
        Scalar::Void => false,
        Scalar::U8 => 0 <= value && value <= 255,
        Scalar::I8 => -128 <= value && value <= 127,
        Scalar::U16 => 0 <= value && value <= 65535,
        Scalar::I16 => -32768 <= value && value <= 32767,
        Scalar::I32 => -2147483648 <= value && value <= 2147483647,
        Scalar::U32 | Scalar::Pointer { .. } => 0 <= value && value <= 4294967295,
    }
}

/// Whether a tag of this shape can have a value.
fn shape_holds(value: i64, shape: &Shape) -> bool
    ensures { result ≡ spec.shape_holds value shape.now }
{
    match shape {
        Shape::Int(scalar) => scalar_holds(*scalar, value),
        Shape::Pointer { .. } => false,
        Shape::Struct(_) => false,
        Shape::Address => false,
    }
}

/// Whether the tag that is the member `k` can have a value.
#[tactic(auto, unfolding(deputy_types::specs::StructLayout::tag_holds))]
fn tag_holds(members: &[Member], k: u32, value: i64) -> bool
    ensures { result ≡ spec.tag_holds members.now k value }
{
    match members.get(k as usize) {
        Some(member) => shape_holds(value, &member.shape),
        None => false,
    }
}

/// Whether an arm before has the same value of the tag.
fn has_value(values: &[i64], value: i64) -> bool
    ensures { result ≡ list_any (int_eq value) values.now }
{
    for other in values {
        if value == *other {
            return true;
        }
    }
    false
}

/// The number of the tag of the next arm. None where its `when` stands against a rule: its tag is none or another union's, or cannot have the value, or an arm
/// before has the same value.
#[tactic(auto, unfolding(deputy_types::specs::StructLayout::arm_tag))]
fn arm_tag(
    at: &Scope,
    unions: &[UnionShape],
    start: usize,
    arms: &Arms,
    name: &Name,
    value: i64,
) -> Option<u32>
    ensures { result ≡ spec.arm_tag (around at.now) unions.now start arms.now name.now value }
{
    let k = tag_number(at, start, name)?;
    let is_own = is_own_tag(unions, arms.tag, k);
    if is_own
        && tag_holds(arms.members.as_slice(), k, value)
        && !has_value(arms.values.as_slice(), value)
    {
        Some(k)
    } else {
        None
    }
}

/// A shape that an arm can have: an integer or a pointer.
fn if_number(shape: Shape) -> Option<Shape>
    ensures { result ≡ spec.if_number shape }
{
    match shape {
        Shape::Int(scalar) => Some(Shape::Int(scalar)),
        Shape::Pointer { elem, bounds } => Some(Shape::Pointer { elem, bounds }),
        Shape::Struct(_) => None,
        Shape::Address => None,
    }
}

/// The shape of an arm. None where it stands against a rule.
#[tactic(auto, unfolding(deputy_types::specs::StructLayout::arm_shape))]
fn arm_shape(alloc: Global, at: &Scope, a: &Arm) -> Result<Option<Shape>, Memory>
    requires { AreExtents at.now.extents.now }
    ensures { IfOk result (λ x. x ≡ spec.arm_shape (around at.now) a.now) }
{
    match typed_shape(
        alloc,
        at.types,
        at.extents,
        Unannotated::Safe,
        &Siblings::new(alloc),
        0,
        &a.type_name,
    )? {
        Some(shape) => Ok(if_number(shape)),
        None => Ok(None),
    }
}

/// Where the arms of a union lie.
#[derive(Clone, Copy, Debug)]
pub(crate) struct UnionPart {
    /// The number of the union.
    pub number: u32,
    /// How many members stand before it.
    pub start: usize,
    /// Bytes from the start of the struct.
    pub offset: u32,
}

/// With an arm of this shape, value and tag.
fn with_arm_of(
    mut arms: Arms,
    part: &UnionPart,
    tag: u32,
    value: i64,
    shape: Shape,
) -> Result<Arms, Memory>
    ensures { IfOk result (λ next. next ≡ spec.with_arm_of part.now.number part.now.offset arms value tag shape) }
{
    arms.members.push(Member {
        offset: part.offset,
        count: 1,
        shape,
        arm: Some((part.number, value)),
    })?;
    arms.tag = Some(tag);
    arms.values.push(value)?;
    Ok(arms)
}

/// With an arm whose `when` meets the rules.
fn with_tagged_arm(
    alloc: Global,
    at: &Scope,
    part: &UnionPart,
    arms: Arms,
    a: &Arm,
    tag: u32,
) -> Result<Option<Arms>, Memory>
    requires { AreExtents at.now.extents.now }
    ensures { IfOk result (λ next. next ≡ spec.with_tagged_arm (around at.now) part.now.number part.now.offset arms a.now tag) }
{
    match arm_shape(alloc, at, a)? {
        Some(shape) => Ok(Some(with_arm_of(arms, part, tag, const_value(&a.value), shape)?)),
        None => Ok(None),
    }
}

/// With an arm of the union. None where it stands against a rule.
#[tactic(auto, unfolding(deputy_types::specs::StructLayout::with_arm))]
fn with_arm(
    alloc: Global,
    at: &Scope,
    unions: &[UnionShape],
    part: &UnionPart,
    arms: Arms,
    a: &Arm,
) -> Result<Option<Arms>, Memory>
    requires { AreExtents at.now.extents.now }
    ensures { IfOk result (λ next. next ≡ spec.with_arm (around at.now) unions.now part.now.number part.now.start part.now.offset arms a.now) }
{
    if !is_first(at.siblings, arms.members.len(), Some(part.number), &a.name) {
        return Ok(None);
    }
    match arm_tag(at, unions, part.start, &arms, &a.tag, const_value(&a.value)) {
        Some(tag) => with_tagged_arm(alloc, at, part, arms, a, tag),
        None => Ok(None),
    }
}

/// With an arm of the union, or the line of the arm where it stands against a rule.
fn with_next_arm(
    alloc: Global,
    at: &Scope,
    unions: &[UnionShape],
    part: &UnionPart,
    arms: Arms,
    a: &Arm,
) -> Result<Arms, TypeRefusal>
    requires { AreExtents at.now.extents.now }
    ensures { IsAnswer (spec.with_next_arm (around at.now) unions.now part.now.number part.now.start part.now.offset arms a.now) result }
{
    match with_arm(alloc, at, unions, part, arms, a)? {
        Some(next) => Ok(next),
        None => Err(TypeRefusal::NoDecl(a.line)),
    }
}

/// With arms of the union, up to the first that stands against the rules.
pub(crate) fn with_arms_in_turn(
    alloc: Global,
    at: &Scope,
    unions: &[UnionShape],
    part: &UnionPart,
    arms: Arms,
    more: &[Arm],
) -> Result<Arms, TypeRefusal>
    requires { AreExtents at.now.extents.now }
    ensures { IsAnswer (spec.with_arms_in_turn (around at.now) unions.now part.now.number part.now.start part.now.offset arms more.now) result }
{
    let mut arms = arms;
    for arm in more {
        arms = with_next_arm(alloc, at, unions, part, arms, arm)?;
    }
    Ok(arms)
}
