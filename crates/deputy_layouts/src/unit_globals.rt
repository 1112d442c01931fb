//! The declaration of a global.
ghost use Rattle.std.specs.Prelude.{◌≡◌, Some, length};
ghost use Rattle.deputy_types.specs.Options.{and_then};
ghost use Rattle.deputy_types.specs.Types.{type_key};
ghost use Rattle.deputy_types.specs.UnitLayout as spec;

use crate::arms::const_value;
use crate::fields::element_count;
use c_tree::{Const, GlobalItem, Number};
use checked_tree::kernel_named;
use deputy_types::{Declared, Element, GlobalShape, Types, key_extent, type_key};
use sd_base::Name;

/// Whether no global, no function, no prototype and no kernel call has this name.
#[tactic(auto, unfolding(deputy_types::specs::UnitLayout::is_new_global))]
fn is_new_global(declared: &Declared, name: &Name) -> bool
    ensures { result ≡ spec.is_new_global declared.now name.now }
{
    !(declared.taken.has(name) || kernel_named(name).is_some())
}

/// What a global begins with: 0 where nothing is written. None where a value is written and it is not one integer.
#[tactic(auto, unfolding(deputy_types::specs::UnitLayout::first_value))]
fn first_value(key: &Element, size: Option<Number>, value: Option<Const>) -> Option<i64>
    ensures { result ≡ spec.first_value key.now size value }
{
    match value {
        None => Some(0),
        Some(written) => written_value(key, size, &written),
    }
}

/// What a global begins with where a value is written. None where it is not one integer.
#[tactic(auto, unfolding(deputy_types::specs::UnitLayout::first_value))]
fn written_value(key: &Element, size: Option<Number>, value: &Const) -> Option<i64>
    ensures { result ≡ spec.first_value key.now size (Some value.now) }
{
    match key {
        Element::Int(_) => match size {
            None => Some(const_value(value)),
            Some(_) => None,
        },
        Element::Struct(_) => None,
        Element::Sentinel(_) => None,
        Element::Nullterm(_) => None,
        Element::Count(_, _) => None,
    }
}

/// A type of which there can be a global behind so many structs. None for a struct that is declared later.
fn if_declared(structs: usize, key: Element) -> Option<Element>
    ensures { result ≡ spec.if_declared structs key }
{
    match key {
        Element::Struct(number) => {
            if (number as usize) < structs {
                return Some(key);
            }
            None
        }
        Element::Int(_) => Some(key),
        Element::Sentinel(_) => Some(key),
        Element::Nullterm(_) => Some(key),
        Element::Count(_, _) => Some(key),
    }
}

/// A global of this type. None where its array has no elements or too many, or its value has no place.
fn global_of(
    types: &Types,
    declared: &Declared,
    global: &GlobalItem,
    key: &Element,
) -> Option<GlobalShape>
    ensures { result ≡ spec.global_of types.now declared.now global.now key.now }
{
    let elem = types.elements.number(key)?;
    let count = element_count(global.declaration.size)?;
    let value = first_value(key, global.declaration.size, global.value)?;
    Some(GlobalShape {
        line: global.line,
        elem,
        count,
        size: key_extent(declared.extents.as_slice(), key).bytes,
        array: global.declaration.size.is_some(),
        value,
    })
}

/// The type of a global. None where it is none, has an annotation that is not constant, or is a struct that is declared later.
fn global_key(types: &Types, declared: &Declared, global: &GlobalItem) -> Option<Element>
    ensures { result ≡ and_then (type_key types.now global.now.declaration.type_name) (spec.if_declared (length declared.now.extents)) }
{
    let key = type_key(types, &global.declaration.type_name)?;
    if_declared(declared.extents.len(), key)
}

/// A global as it was declared. None where it stands against a rule.
#[tactic(auto, unfolding(deputy_types::specs::UnitLayout::global_declared))]
pub(crate) fn global_declared(
    types: &Types,
    declared: &Declared,
    global: &GlobalItem,
) -> Option<GlobalShape>
    ensures { result ≡ spec.global_declared types.now declared.now global.now }
{
    if !is_new_global(declared, &global.declaration.name) {
        return None;
    }
    let key = global_key(types, declared, global)?;
    global_of(types, declared, global, &key)
}
