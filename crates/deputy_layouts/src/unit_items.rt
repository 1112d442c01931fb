//! The declarations of a text in turn, up to the first that stands against the rules or passes a limit.
ghost use Rattle.std.specs.Prelude.{◌≡◌, ◌++◌, ◌∷◌, [], ◌≤◌, ◌+◌, ◌-◌, IfOk, OnOk, length, nat_lt, replicate};
ghost use Rattle.deputy_types.specs.UnitLayout as spec;
ghost use Rattle.deputy_types.specs.UnitLayout.{IsAnswer, IsDeclared};

use crate::struct_layout::struct_laid;
use crate::unit_globals::global_declared;
use c_tree::{GlobalItem, Item, LimitKind, StructItem};
use deputy_types::{Declared, Extent, GlobalShape, NameList, TypeRefusal, Types};
use sd_base::limits::{FUNCTIONS, GLOBALS};
use sd_base::{Memory, Name};
use sqlite_items::Items;
use std::alloc::Global;

/// No declarations yet.
fn nothing_declared(alloc: Global) -> Declared
    ensures value { result ≡ spec.nothing_declared }
    ensures within { IsDeclared result }
{
    Declared {
        extents: Items::new(alloc),
        taken: NameList::new(alloc),
        names: NameList::new(alloc),
        globals: Items::new(alloc),
        bodies: 0,
        lines: Items::new(alloc),
    }
}

/// With a global.
#[tactic(auto, unfolding(deputy_types::specs::UnitLayout::with_global_shape))]
fn with_global_shape(
    mut declared: Declared,
    name: &Name,
    shape: GlobalShape,
) -> Result<Declared, Memory>
    ensures { IfOk result (λ d. d ≡ spec.with_global_shape declared name.now shape) }
{
    declared.taken.add(name)?;
    declared.names.add(name)?;
    declared.globals.push(shape)?;
    Ok(declared)
}

/// With a global, within the limit on globals and strings together.
#[tactic(auto, unfolding(deputy_types::specs::UnitLayout::with_global))]
fn with_global(
    types: &Types,
    declared: Declared,
    global: &GlobalItem,
) -> Result<Declared, TypeRefusal>
    requires { IsDeclared declared }
    ensures answer { IsAnswer (spec.with_global types.now declared global.now) result }
    ensures within { IfOk result IsDeclared }
{
    let Some(shape) = global_declared(types, &declared, global) else {
        return Err(TypeRefusal::NoDecl(global.line));
    };
    if declared.globals.len() + declared.lines.len() >= GLOBALS {
        return Err(TypeRefusal::Limit(global.line, LimitKind::Globals));
    }
    Ok(with_global_shape(declared, &global.declaration.name, shape)?)
}

/// With the extent of a struct.
fn with_extent(mut declared: Declared, extent: Extent) -> Result<Declared, Memory>
    ensures { IfOk result (λ d. d ≡ record declared { extents = declared.extents ++ extent ∷ [] }) }
{
    declared.extents.push(extent)?;
    Ok(declared)
}

/// With a struct.
#[tactic(auto, unfolding(deputy_types::specs::UnitLayout::with_struct))]
fn with_struct(
    alloc: Global,
    types: &Types,
    declared: Declared,
    structure: &StructItem,
) -> Result<Declared, TypeRefusal>
    requires { IsDeclared declared }
    ensures answer { IsAnswer (spec.with_struct types.now declared structure.now) result }
    ensures within { IfOk result IsDeclared }
{
    let number = declared.extents.len() as u32;
    let laid = struct_laid(alloc, types, declared.extents.as_slice(), number, structure)?;
    Ok(with_extent(declared, laid.extent)?)
}

/// With the name of a prototype, which is taken.
fn with_taken(mut declared: Declared, name: &Name) -> Result<Declared, Memory>
    ensures { IfOk result (λ d. d ≡ spec.with_taken declared name.now) }
{
    declared.taken.add(name)?;
    Ok(declared)
}

/// Notes the line of a function for each of its strings, where so many stand before its end.
fn add_lines(lines: &mut Items<u32>, line: u32, strings: usize) -> Result<(), Memory>
    ensures { OnOk result (lines.new ≡ lines.old ++ replicate (strings - length lines.old) line) }
{
    for _ in 0..strings.saturating_sub(lines.len()) {
        lines.push(line)?;
    }
    Ok(())
}

/// With a body on this line, behind which so many strings stand.
fn with_body(
    mut declared: Declared,
    name: &Name,
    line: u32,
    strings: usize,
) -> Result<Declared, Memory>
    requires { declared.bodies ≤ 4095 }
    ensures { IfOk result (λ d. d ≡ spec.with_body declared name.now line strings) }
{
    declared.taken.add(name)?;
    declared.bodies += 1;
    add_lines(&mut declared.lines, line, strings)?;
    Ok(declared)
}

/// Whether so many globals and strings pass the limit.
fn are_too_many(globals: usize, strings: usize) -> bool
    requires { globals ≤ 1024 }
    ensures { result ≡ nat_lt 1024 (globals + strings) }
{
    strings > GLOBALS - globals
}

/// With a function, behind which so many strings stand: within the limits on bodies, and on globals and strings together.
#[tactic(auto, unfolding(deputy_types::specs::UnitLayout::with_function))]
fn with_function(
    declared: Declared,
    name: &Name,
    line: u32,
    strings: usize,
) -> Result<Declared, TypeRefusal>
    requires { IsDeclared declared }
    ensures answer { IsAnswer (spec.with_function declared name.now line strings) result }
    ensures within { IfOk result IsDeclared }
{
    if declared.bodies as usize >= FUNCTIONS {
        return Err(TypeRefusal::Limit(line, LimitKind::Functions));
    }
    if are_too_many(declared.globals.len(), strings) {
        return Err(TypeRefusal::Limit(line, LimitKind::Globals));
    }
    Ok(with_body(declared, name, line, strings)?)
}

/// How many strings stand before the end of the next function with a body.
fn strings_behind(ends: &[usize], declared: &Declared) -> usize
    ensures { result ≡ spec.strings_behind ends.now declared.now }
{
    match ends.get(declared.bodies as usize) {
        Some(strings) => *strings,
        None => 0,
    }
}

/// With an item.
#[tactic(auto, unfolding(deputy_types::specs::UnitLayout::with_item))]
fn with_item(
    alloc: Global,
    types: &Types,
    ends: &[usize],
    declared: Declared,
    item: &Item,
) -> Result<Declared, TypeRefusal>
    requires { IsDeclared declared }
    ensures answer { IsAnswer (spec.with_item types.now ends.now declared item.now) result }
    ensures within { IfOk result IsDeclared }
{
    match item {
        Item::Struct(structure) => with_struct(alloc, types, declared, structure),
        Item::Global(global) => with_global(types, declared, global),
        Item::Function(function) => {
            let strings = strings_behind(ends, &declared);
            with_function(declared, &function.head.name, function.head.line, strings)
        }
        Item::Prototype(head) => Ok(with_taken(declared, &head.name)?),
    }
}

/// The declarations of a text, or the first refusal.
pub(crate) fn with_items(
    alloc: Global,
    types: &Types,
    ends: &[usize],
    items: &[Item],
) -> Result<Declared, TypeRefusal>
    ensures answer { IsAnswer (spec.with_items types.now ends.now spec.nothing_declared items.now) result }
    ensures within { IfOk result IsDeclared }
{
    let mut declared = nothing_declared(alloc);
    for item in items {
        declared = with_item(alloc, types, ends, declared, item)?;
    }
    Ok(declared)
}
