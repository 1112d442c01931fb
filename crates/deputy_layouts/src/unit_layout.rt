//! `layouts`: the table of a text's types, or the first refusal of its declarations.
ghost use Rattle.std.specs.Prelude.{◌≡◌, ◌≤◌, IfOk, length, map};
ghost use Rattle.deputy_types.specs.Extents.{AreExtents};
ghost use Rattle.deputy_types.specs.UnitLayout as spec;
ghost use Rattle.deputy_types.specs.UnitLayout.{IsAnswer, IsDeclared, layout};

use crate::elem_shapes::elem_shapes;
use crate::found::{found_items, struct_names};
use crate::load_image::image_of;
use crate::struct_layout::struct_laid;
use crate::unit_items::with_items;
use c_tree::{Item, StructItem, Unit};
use checked_tree::StructShape;
use deputy_types::{
    Declared, Extent, Found, GlobalShape, Image, Laid, NameList, Structs, TypeRefusal, TypeTable,
    Types,
};
use sd_base::Memory;
use sqlite_items::Items;
use std::alloc::Global;

/// With a struct that was laid out.
fn with_laid(mut structs: Structs, laid: Laid) -> Result<Structs, Memory>
    ensures { IfOk result (λ s. s ≡ spec.with_laid structs laid) }
{
    let Laid { shape, names, .. } = laid;
    structs.shapes.push(shape)?;
    structs.names.push(names)?;
    Ok(structs)
}

/// With the struct that is declared next.
fn with_next_struct(
    alloc: Global,
    types: &Types,
    extents: &[Extent],
    structs: Structs,
    structure: &StructItem,
) -> Result<Structs, TypeRefusal>
    requires extents { AreExtents extents.now }
    requires few { length structs.shapes ≤ 256 }
    ensures answer { IsAnswer (spec.with_next_struct types.now extents.now structs structure.now) result }
    ensures few { IfOk result (λ s. length s.shapes ≤ 256) }
{
    let number = structs.shapes.len() as u32;
    let laid = struct_laid(alloc, types, extents, number, structure)?;
    Ok(with_laid(structs, laid)?)
}

/// With an item.
fn with_item_struct(
    alloc: Global,
    types: &Types,
    extents: &[Extent],
    structs: Structs,
    item: &Item,
) -> Result<Structs, TypeRefusal>
    requires extents { AreExtents extents.now }
    requires few { length structs.shapes ≤ 256 }
    ensures answer { IsAnswer (spec.with_item_struct types.now extents.now structs item.now) result }
    ensures few { IfOk result (λ s. length s.shapes ≤ 256) }
{
    match item {
        Item::Struct(structure) => with_next_struct(alloc, types, extents, structs, structure),
        Item::Global(_) => Ok(structs),
        Item::Function(_) => Ok(structs),
        Item::Prototype(_) => Ok(structs),
    }
}

/// The structs of a text, from the extents of all of them.
fn structs_of(
    alloc: Global,
    types: &Types,
    extents: &[Extent],
    items: &[Item],
) -> Result<Structs, TypeRefusal>
    requires { AreExtents extents.now }
    ensures { IsAnswer (spec.structs_of types.now extents.now spec.no_structs items.now) result }
{
    let mut structs = Structs {
        shapes: Items::new(alloc),
        names: Items::new(alloc),
    };
    for item in items {
        structs = with_item_struct(alloc, types, extents, structs, item)?;
    }
    Ok(structs)
}

/// By global, whether it is an array.
fn global_arrays(alloc: Global, globals: &[GlobalShape]) -> Result<Items<bool>, Memory>
    ensures { IfOk result (λ arrays. arrays ≡ map (λ g. g.array) globals.now) }
{
    let mut arrays = Items::new(alloc);
    for global in globals {
        arrays.push(global.array)?;
    }
    Ok(arrays)
}

/// The table of declarations, image and structs.
#[tactic(auto, unfolding(deputy_types::specs::UnitLayout::table_of))]
fn table_of(
    alloc: Global,
    types: Types,
    declared: Declared,
    image: Image,
    structs: Structs,
) -> Result<TypeTable, Memory>
    requires { IsDeclared declared }
    ensures { IfOk result (λ table. table ≡ spec.table_of types declared image structs) }
{
    let elems = elem_shapes(alloc, &types.elements, declared.extents.as_slice())?;
    let arrays = global_arrays(alloc, declared.globals.as_slice())?;
    Ok(TypeTable::new(types, declared, image, structs, elems, arrays))
}

/// The table behind the declarations: the load image, and the structs once more with the extents of all.
#[tactic(auto, unfolding(deputy_types::specs::UnitLayout::table_behind))]
fn table_behind(
    alloc: Global,
    types: Types,
    strings: &[Items<u8>],
    items: &[Item],
    declared: Declared,
) -> Result<TypeTable, TypeRefusal>
    requires { IsDeclared declared }
    ensures { IsAnswer (spec.table_behind types strings.now items.now declared) result }
{
    let image = image_of(alloc, &declared, strings)?;
    let structs = structs_of(alloc, &types, declared.extents.as_slice(), items)?;
    Ok(table_of(alloc, types, declared, image, structs)?)
}

/// The table of items, with what was found in them.
#[tactic(auto, unfolding(deputy_types::specs::UnitLayout::table_with))]
fn table_with(
    alloc: Global,
    structs: NameList,
    found: Found,
    items: &[Item],
) -> Result<TypeTable, TypeRefusal>
    ensures { IsAnswer (spec.table_with structs found items.now) result }
{
    let Found {
        elements,
        strings,
        ends,
    } = found;
    let types = Types { structs, elements };
    let declared = with_items(alloc, &types, ends.as_slice(), items)?;
    table_behind(alloc, types, strings.as_slice(), items, declared)
}

/// The table of a text's types: its structs and their layouts, the types of elements, and the load image.
///
/// `NoDecl` has the line of the first struct, field, arm or global that stands against a rule of declarations; `Limit` that of the first declaration that
/// passes a limit. Of two refusals the one that stands earlier in the text is given, and at one declaration `NoDecl` first. The limit on the load image comes
/// after all others: its line is that of the global, or of the function of the string, whose block first ends past it. `Memory` is want of memory.
#[tactic(auto, unfolding(deputy_types::specs::UnitLayout::layout))]
pub fn layouts(alloc: Global, unit: &Unit) -> Result<TypeTable, TypeRefusal>
    ensures { IsAnswer (layout unit.now) result }
{
    let items = unit.items.as_slice();
    let structs = struct_names(alloc, items)?;
    let found = found_items(alloc, &structs, items)?;
    table_with(alloc, structs, found, items)
}
