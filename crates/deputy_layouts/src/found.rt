//! What is found in a text, in its order: the types of elements and the strings.
ghost use Rattle.std.specs.Prelude.{◌≡◌, [], IfOk, OnOk};
ghost use Rattle.deputy_types.specs.Found as spec;

use crate::found_forms::add_statements;
use crate::found_types::{add_fields, add_head, add_locals, add_whole_type};
use c_tree::{Function, Item};
use deputy_types::{ElementList, Found, NameList};
use sd_base::Memory;
use sqlite_items::Items;
use std::alloc::Global;

/// The names of the structs of a text, by their numbers: each once, in text order.
pub(crate) fn struct_names(alloc: Global, items: &[Item]) -> Result<NameList, Memory>
    ensures { IfOk result (λ names. names ≡ spec.struct_names items.now []) }
{
    let mut names = NameList::new(alloc);
    for item in items {
        add_struct_name(&mut names, item)?;
    }
    Ok(names)
}

/// Adds the name of a struct.
fn add_struct_name(names: &mut NameList, item: &Item) -> Result<(), Memory>
    ensures { OnOk result (names.new ≡ spec.with_struct_name names.old item.now) }
{
    match item {
        Item::Struct(structure) => names.add(&structure.name),
        Item::Global(_) => Ok(()),
        Item::Function(_) => Ok(()),
        Item::Prototype(_) => Ok(()),
    }
}

/// What stands in the items of a text.
pub(crate) fn found_items(
    alloc: Global,
    structs: &NameList,
    items: &[Item],
) -> Result<Found, Memory>
    ensures { IfOk result (λ found. found ≡ spec.found_items structs.now items.now spec.first_found) }
{
    let mut found = Found {
        elements: ElementList::new(alloc)?,
        strings: Items::new(alloc),
        ends: Items::new(alloc),
    };
    add_items(alloc, structs, items, &mut found)?;
    Ok(found)
}

/// Adds what stands in items.
fn add_items(
    alloc: Global,
    structs: &NameList,
    items: &[Item],
    found: &mut Found,
) -> Result<(), Memory>
    ensures { OnOk result (found.new ≡ spec.found_items structs.now items.now found.old) }
{
    for item in items {
        add_item(alloc, structs, item, found)?;
    }
    Ok(())
}

/// Adds what stands in an item.
#[tactic(auto, unfolding(deputy_types::specs::Found::found_item))]
fn add_item(alloc: Global, structs: &NameList, item: &Item, found: &mut Found) -> Result<(), Memory>
    ensures { OnOk result (found.new ≡ spec.found_item structs.now item.now found.old) }
{
    match item {
        Item::Struct(structure) => add_fields(
            structs,
            &mut found.elements,
            structure.fields.as_slice(),
        ),
        Item::Global(global) => add_whole_type(
            structs,
            &mut found.elements,
            &global.declaration.type_name,
        ),
        Item::Function(function) => add_function(alloc, structs, function, found),
        Item::Prototype(head) => add_head(structs, &mut found.elements, head),
    }
}

/// Adds what stands in a function.
#[tactic(auto, unfolding(deputy_types::specs::Found::found_function))]
fn add_function(
    alloc: Global,
    structs: &NameList,
    function: &Function,
    found: &mut Found,
) -> Result<(), Memory>
    ensures { OnOk result (found.new ≡ spec.found_function structs.now function.now found.old) }
{
    add_head(structs, &mut found.elements, &function.head)?;
    add_locals(structs, &mut found.elements, function.locals.as_slice())?;
    add_statements(alloc, structs, function.body.as_slice(), found)?;
    end_function(found)
}

/// Notes how many strings stand before the end of a function.
fn end_function(found: &mut Found) -> Result<(), Memory>
    ensures { OnOk result (found.new ≡ spec.ended found.old) }
{
    let strings = found.strings.len();
    found.ends.push(strings)
}
