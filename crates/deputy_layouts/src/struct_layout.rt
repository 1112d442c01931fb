//! The declaration and the layout of a struct: its fields in turn, and the first that stands against the rules or passes a limit.
ghost use Rattle.std.specs.Prelude.{◌≡◌, IfOk};
ghost use Rattle.deputy_types.specs.StructLayout as spec;
ghost use Rattle.deputy_types.specs.StructLayout.{IsLaying, around, empty_struct as nothing};
ghost use Rattle.deputy_types.specs.Extents.{AreExtents, IsExtent};
ghost use Rattle.deputy_types.specs.StructLaws.{IsLaidOut};
ghost use Rattle.deputy_types.specs.UnitLayout.{IsAnswer};

use crate::fields::with_plain;
use crate::member_types::{member_arrays, member_keys};
use crate::struct_siblings::struct_siblings;
use crate::unions::with_union;
use c_tree::{Field, LimitKind, StructItem};
use checked_tree::StructShape;
use deputy_types::{
    Extent, Laid, Laying, NameList, Scope, Siblings, StructNames, TypeRefusal, Types, round_up_to,
};
use sd_base::Memory;
use sd_base::limits::STRUCTS;
use sqlite_items::Items;
use std::alloc::Global;

/// A struct without fields.
fn empty_struct(alloc: Global) -> Laying
    ensures value { result ≡ nothing }
    ensures laying { IsLaying result }
{
    Laying {
        members: Items::new(alloc),
        unions: Items::new(alloc),
        names: NameList::new(alloc),
        end: 0,
        align: 1,
        fields: 0,
    }
}

/// With a field.
fn with_any_field(
    alloc: Global,
    at: &Scope,
    laying: Laying,
    field: &Field,
) -> Result<Laying, TypeRefusal>
    requires extents { AreExtents at.now.extents.now }
    requires laying { IsLaying laying }
    ensures value { IsAnswer (spec.with_any_field (around at.now) laying field.now) result }
    ensures laying { IfOk result (λ next. IsLaying next) }
{
    match field {
        Field::Plain(line, d) => with_plain(alloc, at, laying, *line, d),
        Field::Union(line, arms, name) => with_union(
            alloc,
            at,
            laying,
            *line,
            arms.as_slice(),
            name,
        ),
    }
}

/// With fields, up to the first that is refused.
fn with_fields_in_turn(
    alloc: Global,
    at: &Scope,
    laying: Laying,
    fields: &[Field],
) -> Result<Laying, TypeRefusal>
    requires extents { AreExtents at.now.extents.now }
    requires laying { IsLaying laying }
    ensures value { IsAnswer (spec.with_fields_in_turn (around at.now) laying fields.now) result }
    ensures laying { IfOk result (λ next. IsLaying next) }
{
    let mut laying = laying;
    for field in fields {
        laying = with_any_field(alloc, at, laying, field)?;
    }
    Ok(laying)
}

/// A struct whose fields were read.
#[tactic(auto, unfolding(deputy_types::specs::StructLayout::laid_out))]
fn laid_out(
    alloc: Global,
    types: &Types,
    fields: &[Field],
    siblings: Siblings,
    laying: Laying,
) -> Result<Laid, Memory>
    requires { IsLaying laying }
    ensures value { IfOk result (λ laid. laid ≡ spec.laid_out types.now fields.now siblings laying) }
    ensures extent { IfOk result (λ laid. IsExtent laid.extent) }
{
    let arrays = member_arrays(alloc, fields)?;
    let keys = member_keys(alloc, types, fields)?;
    let bytes = round_up_to(laying.align, laying.end);
    let Laying {
        members,
        unions,
        names,
        align,
        ..
    } = laying;
    Ok(Laid {
        shape: StructShape {
            size: bytes,
            members,
            unions,
        },
        extent: Extent { bytes, align },
        names: StructNames {
            members: siblings.names,
            unions: names,
            arrays,
            keys,
        },
    })
}

/// Why the struct with this number cannot stand: its name is taken, or it is the 257th.
#[tactic(auto, unfolding(deputy_types::specs::StructLayout::head_of_struct))]
fn head_of_struct(types: &Types, number: u32, s: &StructItem) -> Option<TypeRefusal>
    ensures { result ≡ spec.head_of_struct types.now number s.now }
{
    if types.structs.number(&s.name) != Some(number) {
        return Some(TypeRefusal::NoDecl(s.line));
    }
    if number as usize >= STRUCTS {
        return Some(TypeRefusal::Limit(s.line, LimitKind::Structs));
    }
    None
}

/// The layout of a struct by its siblings.
fn laid_with(
    alloc: Global,
    types: &Types,
    extents: &[Extent],
    number: u32,
    fields: &[Field],
    siblings: Siblings,
) -> Result<Laid, TypeRefusal>
    requires { AreExtents extents.now }
    ensures value { IsAnswer (spec.laid_with types.now extents.now number fields.now siblings) result }
    ensures extent { IfOk result (λ laid. IsExtent laid.extent) }
{
    let at = Scope {
        types,
        extents,
        number,
        siblings: &siblings,
    };
    let laying = with_fields_in_turn(alloc, &at, empty_struct(alloc), fields)?;
    Ok(laid_out(alloc, types, fields, siblings, laying)?)
}

/// The layout of a struct whose head may stand or not.
#[tactic(auto, unfolding(deputy_types::specs::StructLayout::struct_laid))]
fn laid_or_refused(
    alloc: Global,
    types: &Types,
    extents: &[Extent],
    number: u32,
    s: &StructItem,
) -> Result<Laid, TypeRefusal>
    requires { AreExtents extents.now }
    ensures value { IsAnswer (spec.struct_laid types.now extents.now number s.now) result }
    ensures extent { IfOk result (λ laid. IsExtent laid.extent) }
{
    if let Some(refusal) = head_of_struct(types, number, s) {
        return Err(refusal);
    }
    let siblings = struct_siblings(alloc, types, s.fields.as_slice())?;
    laid_with(alloc, types, extents, number, s.fields.as_slice(), siblings)
}

/// The layout of the struct with this number, behind structs of these extents: its shape, its extent and its names.
///
/// Each member lies at a multiple of its alignment and within the struct. `NoDecl` with the line of the first field or arm that stands against a rule, or with
/// the struct's own line where its name is taken; `Limit` with that of the first field that passes `Fields` or `Size`, or with the struct's own where it is the
/// 257th.
pub(crate) fn struct_laid(
    alloc: Global,
    types: &Types,
    extents: &[Extent],
    number: u32,
    s: &StructItem,
) -> Result<Laid, TypeRefusal>
    requires { AreExtents extents.now }
    ensures value { IsAnswer (spec.struct_laid types.now extents.now number s.now) result }
    ensures extent { IfOk result (λ laid. IsExtent laid.extent) }
    ensures lies { IfOk result (λ laid. IsLaidOut extents.now laid) }
{
    laid_or_refused(alloc, types, extents, number, s)
}
