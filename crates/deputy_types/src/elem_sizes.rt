//! The sizes of the types of elements.
ghost use Rattle.std.specs.Prelude.{◌≡◌, None, Some, if◌then◌else◌};
ghost use Rattle.deputy_types.specs.Extents as extent;
ghost use Rattle.deputy_types.specs.Table as table;
ghost use Rattle.deputy_types.specs.Types as types;

use crate::{Element, ElementList, Extent, are_constant, is_char, key_extent, stars_extent};
use c_tree::Star;

/// The bytes of the element with this number. None where there is none.
#[tactic(auto, unfolding(crate::specs::Table::elem_size))]
pub(crate) fn elem_size(elements: &ElementList, extents: &[Extent], elem: u32) -> Option<u32>
    ensures { result ≡ table.elem_size elements.now extents.now elem }
{
    match elements.get(elem) {
        Some(key) => Some(key_extent(extents, &key).bytes),
        None => None,
    }
}

/// The bytes of the type behind these stars. None where an annotation is not constant.
pub(crate) fn size_behind(extents: &[Extent], key: &Element, stars: &[Star]) -> Option<u32>
    ensures { result ≡ if types.are_constant (types.is_char key.now) stars.now then Some (extent.stars_extent (extent.key_extent extents.now key.now) stars.now).bytes else None }
{
    if are_constant(is_char(key), stars) {
        return Some(stars_extent(key_extent(extents, key), stars).bytes);
    }
    None
}
