//! The shapes of the types of elements.
ghost use Rattle.std.specs.Prelude.{◌≡◌, ◌≤◌, map, unwrap_or, IfOk};
ghost use Rattle.deputy_types.specs.Extents.{AreExtents};
ghost use Rattle.deputy_types.specs.Keys.{IsKey};
ghost use Rattle.deputy_types.specs.Table as table;
ghost use Rattle.deputy_types.specs.UnitLayout as unit;

use checked_tree::{Bounds, Shape};
use deputy_types::{Element, ElementList, Extent, key_extent, up_to};
use sd_base::Memory;
use sqlite_items::Items;
use std::alloc::Global;

/// The bytes of the element with this number; 0 where there is none.
#[tactic(auto, unfolding(deputy_types::specs::Table::elem_size))]
fn size_or_none(elements: &ElementList, extents: &[Extent], elem: u32) -> u32
    requires { AreExtents extents.now }
    ensures value { result ≡ unwrap_or (table.elem_size elements.now extents.now elem) 0 }
    ensures fits { result ≤ 65536 }
{
    match elements.get(elem) {
        Some(key) => key_extent(extents, &key).bytes,
        None => 0,
    }
}

/// The shape of an element.
#[tactic(auto, unfolding(deputy_types::specs::UnitLayout::elem_shape))]
fn elem_shape(alloc: Global, elements: &ElementList, extents: &[Extent], key: &Element) -> Shape
    requires extents { AreExtents extents.now }
    requires key { IsKey key.now }
    ensures { result ≡ unit.elem_shape elements.now extents.now key.now }
{
    match key {
        Element::Int(scalar) => Shape::Int(*scalar),
        Element::Struct(number) => Shape::Struct(*number),
        Element::Sentinel(elem) => Shape::Pointer {
            elem: *elem,
            bounds: up_to(alloc, 0, 0),
        },
        Element::Nullterm(elem) => Shape::Pointer {
            elem: *elem,
            bounds: Bounds::Nullterm,
        },
        Element::Count(elem, count) => Shape::Pointer {
            elem: *elem,
            bounds: up_to(alloc, size_or_none(elements, extents, *elem), *count),
        },
    }
}

/// The shapes of the elements, by number.
pub(crate) fn elem_shapes(
    alloc: Global,
    elements: &ElementList,
    extents: &[Extent],
) -> Result<Items<Shape>, Memory>
    requires { AreExtents extents.now }
    ensures { IfOk result (λ shapes. shapes ≡ map (unit.elem_shape elements.now extents.now) elements.now) }
{
    let mut shapes = Items::new(alloc);
    for key in elements.keys() {
        shapes.push(elem_shape(alloc, elements, extents, key))?;
    }
    Ok(shapes)
}
