//! Fields of a struct that are no unions, each at the next multiple of its alignment (C99 6.7.2.1 with natural alignment).
ghost use Rattle.std.specs.Prelude.{◌≡◌, ◌≤◌, ◌<◌, ◌^◌, ◌+◌, IfOk, OnOk, OnSome, length, true, ◌*◌};
ghost use Rattle.deputy_types.specs.StructLayout as spec;
ghost use Rattle.deputy_types.specs.StructLayout.{IsLaying, around};
ghost use Rattle.deputy_types.specs.Declarations.{typed_shape as shape_of};
ghost use Rattle.deputy_types.specs.Extents.{AreExtents, IsExtent};
ghost use Rattle.deputy_types.specs.UnitLayout.{IsAnswer};
ghost use Rattle.deputy_types.specs.declared.sibling.Unannotated.TheVariants.{Safe};

use c_tree::{Declaration, LimitKind, Number};
use checked_tree::{Member, Shape};
use deputy_types::{
    Extent, Laying, Scope, Siblings, TypeRefusal, Unannotated, round_up_to, type_extent,
    typed_shape,
};
use sd_base::limits::{FIELDS, STRUCT_BYTES};
use sd_base::{Memory, Name};
use std::alloc::Global;

/// Whether the member `m`, which is declared next, is the first with its name.
#[tactic(auto, unfolding(deputy_types::specs::StructLayout::is_first))]
pub(crate) fn is_first(siblings: &Siblings, m: usize, part: Option<u32>, name: &Name) -> bool
    ensures value { result ≡ spec.is_first siblings.now m part name.now }
    ensures room { result ≡ true → m < 2 ^ 32 }
{
    match siblings.names.number(part, name) {
        Some(k) => k as usize == m,
        None => false,
    }
}

/// How many elements a size gives: 1 where there is none. None where it is not from 1 to 65,536.
#[tactic(auto, unfolding(deputy_types::specs::StructLayout::element_count))]
pub fn element_count(size: Option<Number>) -> Option<u32>
    ensures { result ≡ spec.element_count size }
{
    match size {
        None => Some(1),
        Some(n) => {
            if 1 <= n.value && n.value <= 65536 {
                Some(n.value)
            } else {
                None
            }
        }
    }
}

/// Whether a struct with this number can have a field of this shape: a struct in it is declared before it.
fn is_complete(number: u32, shape: &Shape) -> bool
    ensures { result ≡ spec.is_complete number shape.now }
{
    match shape {
        Shape::Int(_) => true,
        Shape::Pointer { .. } => true,
        Shape::Struct(s) => *s < number,
        Shape::Address => false,
    }
}

/// The shape, where a struct with this number can have a field of it.
fn if_complete(number: u32, shape: Shape) -> Option<Shape>
    ensures { result ≡ spec.if_complete number shape }
{
    if is_complete(number, &shape) {
        Some(shape)
    } else {
        None
    }
}

/// The shape that a field declares, its annotation with no siblings where it is an array.
fn declared_shape(
    alloc: Global,
    at: &Scope,
    m: u32,
    d: &Declaration,
) -> Result<Option<Shape>, Memory>
    requires { AreExtents at.now.extents.now }
    ensures { IfOk result (λ x. x ≡ shape_of at.now.types.now at.now.extents.now Safe (spec.siblings_of at.now.siblings.now d.now.size) m d.now.type_name) }
{
    match d.size {
        None => typed_shape(
            alloc,
            at.types,
            at.extents,
            Unannotated::Safe,
            at.siblings,
            m,
            &d.type_name,
        ),
        Some(_) => typed_shape(
            alloc,
            at.types,
            at.extents,
            Unannotated::Safe,
            &Siblings::new(alloc),
            m,
            &d.type_name,
        ),
    }
}

/// The shape of the field that is the member `m`.
#[tactic(auto, unfolding(deputy_types::specs::StructLayout::field_shape))]
fn field_shape(alloc: Global, at: &Scope, m: u32, d: &Declaration) -> Result<Option<Shape>, Memory>
    requires { AreExtents at.now.extents.now }
    ensures { IfOk result (λ x. x ≡ spec.field_shape (around at.now) m d.now) }
{
    match declared_shape(alloc, at, m, d)? {
        Some(shape) => Ok(if_complete(at.number, shape)),
        None => Ok(None),
    }
}

/// The end of a field, where it and the fields before it are within the limits, of which the number of fields comes first.
#[tactic(auto, unfolding(deputy_types::specs::StructLayout::within_limits))]
pub(crate) fn within_limits(line: u32, fields: u32, end: u64) -> Result<u32, TypeRefusal>
    ensures value { result ≡ spec.within_limits line fields end }
    ensures room { OnOk result (fields < 64) }
    ensures end { IfOk result (λ e. e ≤ 65536) }
{
    if fields as usize >= FIELDS {
        return Err(TypeRefusal::Limit(line, LimitKind::Fields));
    }
    if end > u64::from(STRUCT_BYTES) {
        return Err(TypeRefusal::Limit(line, LimitKind::Size));
    }
    Ok(end as u32)
}

/// The end of so many elements with this extent behind an offset.
fn end_of(offset: u32, count: u32, extent: Extent) -> u64
    requires { IsExtent extent }
    ensures { result ≡ offset + count * extent.bytes }
{
    u64::from(offset) + u64::from(count) * u64::from(extent.bytes)
}

/// With a field of this shape, count and extent.
#[tactic(auto, unfolding(deputy_types::specs::StructLayout::placed))]
fn placed(
    mut laying: Laying,
    line: u32,
    shape: Shape,
    count: u32,
    extent: Extent,
) -> Result<Laying, TypeRefusal>
    requires laying { IsLaying laying }
    requires extent { IsExtent extent }
    ensures value { IsAnswer (spec.placed laying line shape count extent) result }
    ensures laying { IfOk result (λ next. IsLaying next) }
{
    let offset = round_up_to(extent.align, laying.end);
    let end = within_limits(line, laying.fields, end_of(offset, count, extent))?;
    laying.members.push(Member {
        offset,
        count,
        shape,
        arm: None,
    })?;
    laying.end = end;
    laying.align = laying.align.max(extent.align);
    laying.fields += 1;
    Ok(laying)
}

/// Whether no member and no union of the struct so far has this name.
#[tactic(auto, unfolding(deputy_types::specs::StructLayout::is_new_field))]
fn is_new_field(at: &Scope, laying: &Laying, name: &Name) -> bool
    ensures value { result ≡ spec.is_new_field (around at.now) laying.now name.now }
    ensures room { result ≡ true → length laying.now.members < 2 ^ 32 }
{
    is_first(at.siblings, laying.members.len(), None, name) && !laying.names.has(name)
}

/// A field's shape with its count.
fn counted(shape: Option<Shape>, count: Option<u32>) -> Option<(Shape, u32)>
    ensures { result ≡ spec.counted shape count }
{
    match shape {
        Some(shape) => match count {
            Some(n) => Some((shape, n)),
            None => None,
        },
        None => None,
    }
}

/// The shape and the count of a field. None where it stands against a rule.
#[tactic(auto, unfolding(deputy_types::specs::StructLayout::field_declared))]
fn field_declared(
    alloc: Global,
    at: &Scope,
    laying: &Laying,
    d: &Declaration,
) -> Result<Option<(Shape, u32)>, Memory>
    requires { AreExtents at.now.extents.now }
    ensures { IfOk result (λ x. x ≡ spec.field_declared (around at.now) laying.now d.now) }
{
    if is_new_field(at, laying, &d.name) {
        let shape = field_shape(alloc, at, laying.members.len() as u32, d)?;
        return Ok(counted(shape, element_count(d.size)));
    }
    Ok(None)
}

/// With a field that is no union.
#[tactic(auto, unfolding(deputy_types::specs::StructLayout::with_plain))]
pub(crate) fn with_plain(
    alloc: Global,
    at: &Scope,
    laying: Laying,
    line: u32,
    d: &Declaration,
) -> Result<Laying, TypeRefusal>
    requires extents { AreExtents at.now.extents.now }
    requires laying { IsLaying laying }
    ensures value { IsAnswer (spec.with_plain (around at.now) laying line d.now) result }
    ensures laying { IfOk result (λ next. IsLaying next) }
{
    match field_declared(alloc, at, &laying, d)? {
        Some(field) => {
            let (shape, count) = field;
            placed(
                laying,
                line,
                shape,
                count,
                type_extent(at.types, at.extents, &d.type_name),
            )
        }
        None => Err(TypeRefusal::NoDecl(line)),
    }
}
