//! Unions of a struct (C99 6.7.2.1, and the tagged unions of Deputy, ESOP 2007).
ghost use Rattle.std.specs.Prelude.{◌≡◌, ◌≤◌, ◌<◌, IfOk, length, true};
ghost use Rattle.deputy_types.specs.StructLayout as spec;
ghost use Rattle.deputy_types.specs.StructLayout.{IsLaying, around};
ghost use Rattle.deputy_types.specs.Extents.{AreExtents, IsExtent};
ghost use Rattle.deputy_types.specs.UnitLayout.{IsAnswer};

use crate::arms::{UnionPart, union_extent, with_arms_in_turn};
use crate::fields::within_limits;
use c_tree::Arm;
use checked_tree::UnionShape;
use deputy_types::{Arms, Extent, Laying, Scope, TypeRefusal, round_up_to};
use sd_base::Name;
use sqlite_items::Items;
use std::alloc::Global;

/// Whether a number was found, of a member before the member `m`.
fn is_before(m: usize, number: Option<u32>) -> bool
    ensures { result ≡ spec.is_before m number }
{
    match number {
        Some(k) => (k as usize) < m,
        None => false,
    }
}

/// Whether no member and no union before has this name.
#[tactic(auto, unfolding(deputy_types::specs::StructLayout::is_new_union))]
fn is_new_union(at: &Scope, laying: &Laying, name: &Name) -> bool
    ensures { result ≡ spec.is_new_union (around at.now) laying.now name.now }
{
    !(laying.names.has(name)
        || is_before(laying.members.len(), at.siblings.names.number(None, name)))
}

/// A struct with a union of this extent and end, at this offset, whose arms were read. `laying` is the struct before it, without its members.
#[tactic(auto, unfolding(deputy_types::specs::StructLayout::with_union_of))]
fn with_union_of(
    mut laying: Laying,
    name: &Name,
    offset: u32,
    extent: Extent,
    end: u32,
    arms: Arms,
) -> Result<Laying, TypeRefusal>
    requires laying { IsLaying laying }
    requires extent { IsExtent extent }
    requires end { end ≤ 65536 }
    requires room { laying.fields < 64 }
    ensures value { IsAnswer (Ok (spec.with_union_of laying name.now offset extent end arms)) result }
    ensures laying { IfOk result (λ next. IsLaying next) }
{
    let Arms { members, tag, .. } = arms;
    laying.members = members;
    laying.unions.push(UnionShape {
        offset,
        size: extent.bytes,
        tag: tag.unwrap_or(0),
    })?;
    laying.names.add(name)?;
    laying.end = end;
    laying.align = laying.align.max(extent.align);
    laying.fields += 1;
    Ok(laying)
}

/// With a union of this extent, offset and end: its arms in turn.
#[tactic(auto, unfolding(deputy_types::specs::StructLayout::with_union_arms, deputy_types::specs::StructLayout::with_union_of))]
fn with_union_arms(
    alloc: Global,
    at: &Scope,
    mut laying: Laying,
    arms: &[Arm],
    name: &Name,
    offset: u32,
    extent: Extent,
    end: u32,
) -> Result<Laying, TypeRefusal>
    requires extents { AreExtents at.now.extents.now }
    requires laying { IsLaying laying }
    requires extent { IsExtent extent }
    requires end { end ≤ 65536 }
    requires room { laying.fields < 64 }
    ensures value { IsAnswer (spec.with_union_arms (around at.now) laying arms.now name.now offset extent end) result }
    ensures laying { IfOk result (λ next. IsLaying next) }
{
    let part = UnionPart {
        number: laying.unions.len() as u32,
        start: laying.members.len(),
        offset,
    };
    let none = Arms {
        members: laying.members,
        tag: None,
        values: Items::new(alloc),
    };
    laying.members = Items::new(alloc);
    let read = with_arms_in_turn(alloc, at, laying.unions.as_slice(), &part, none, arms)?;
    with_union_of(laying, name, offset, extent, end, read)
}

/// With a union of this extent. The limits are met at its own line, before its arms.
#[tactic(auto, unfolding(deputy_types::specs::StructLayout::with_union_at))]
fn with_union_at(
    alloc: Global,
    at: &Scope,
    laying: Laying,
    line: u32,
    arms: &[Arm],
    name: &Name,
    extent: Extent,
) -> Result<Laying, TypeRefusal>
    requires extents { AreExtents at.now.extents.now }
    requires laying { IsLaying laying }
    requires extent { IsExtent extent }
    ensures value { IsAnswer (spec.with_union_at (around at.now) laying line arms.now name.now extent) result }
    ensures laying { IfOk result (λ next. IsLaying next) }
{
    let offset = round_up_to(extent.align, laying.end);
    let end = within_limits(
        line,
        laying.fields,
        u64::from(offset) + u64::from(extent.bytes),
    )?;
    with_union_arms(alloc, at, laying, arms, name, offset, extent, end)
}

/// With a union: refused on its line where its name is taken or it passes a limit, and on the line of its first arm that stands against a rule.
#[tactic(auto, unfolding(deputy_types::specs::StructLayout::with_union))]
pub(crate) fn with_union(
    alloc: Global,
    at: &Scope,
    laying: Laying,
    line: u32,
    arms: &[Arm],
    name: &Name,
) -> Result<Laying, TypeRefusal>
    requires extents { AreExtents at.now.extents.now }
    requires laying { IsLaying laying }
    ensures value { IsAnswer (spec.with_union (around at.now) laying line arms.now name.now) result }
    ensures laying { IfOk result (λ next. IsLaying next) }
{
    if !is_new_union(at, &laying, name) {
        return Err(TypeRefusal::NoDecl(line));
    }
    let extent = union_extent(at.types, arms);
    with_union_at(alloc, at, laying, line, arms, name, extent)
}
