//! The shape that a type name declares.
ghost use Rattle.std.specs.Prelude.{◌≡◌, ◌≤◌, IfOk, option_copied};
ghost use Rattle.deputy_types.specs.Declarations as spec;
ghost use Rattle.deputy_types.specs.Extents.{AreExtents};

use crate::bounds::{Pointee, star_bounds};
use crate::extents::key_extent;
use crate::keys::{last_star, pointed_key};
use crate::{Element, Extent, Siblings, Types, Unannotated};
use c_tree::{Star, TypeName};
use checked_tree::Shape;
use sd_base::Memory;
use std::alloc::Global;

/// The shape of an integer or a struct. None for a pointer.
fn plain_shape(key: &Element) -> Option<Shape>
    ensures { result ≡ spec.plain_shape key.now }
{
    match key {
        Element::Int(scalar) => Some(Shape::Int(*scalar)),
        Element::Struct(number) => Some(Shape::Struct(*number)),
        Element::Sentinel(_) | Element::Nullterm(_) | Element::Count(_, _) => None,
    }
}

/// The shape of a pointer with this last star. None where its annotation stands against a rule.
fn pointer_to(
    alloc: Global,
    to: &Pointee,
    plain: Unannotated,
    siblings: &Siblings,
    place: u32,
    star: &Star,
) -> Result<Option<Shape>, Memory>
    requires { to.now.size ≤ 65536 }
    ensures { IfOk result (λ shape. shape ≡ spec.pointer_to to.now.size plain siblings.now place to.now.elem to.now.key star.now) }
{
    match star_bounds(alloc, to, plain, siblings, place, star.annotation.as_ref())? {
        Some(bounds) => Ok(Some(Shape::Pointer {
            elem: to.elem,
            bounds,
        })),
        None => Ok(None),
    }
}

/// The shape of a pointer to the type `key` with this last star. None where that type is no element.
#[tactic(auto, unfolding(crate::specs::Declarations::pointer_shape))]
fn pointer_shape(
    alloc: Global,
    types: &Types,
    extents: &[Extent],
    plain: Unannotated,
    siblings: &Siblings,
    place: u32,
    key: &Element,
    star: &Star,
) -> Result<Option<Shape>, Memory>
    requires { AreExtents extents.now }
    ensures { IfOk result (λ shape. shape ≡ spec.pointer_shape types.now.elements extents.now plain siblings.now place key.now star.now) }
{
    let size = key_extent(extents, key).bytes;
    match types.elements.number(key) {
        Some(elem) => pointer_to(
            alloc,
            &Pointee {
                key: *key,
                elem,
                size,
            },
            plain,
            siblings,
            place,
            star,
        ),
        None => Ok(None),
    }
}

/// The shape of what this last star, if there is one, makes of the type `key`.
pub fn shape_behind(
    alloc: Global,
    types: &Types,
    extents: &[Extent],
    plain: Unannotated,
    siblings: &Siblings,
    place: u32,
    key: &Element,
    star: Option<&Star>,
) -> Result<Option<Shape>, Memory>
    requires { AreExtents extents.now }
    ensures { IfOk result (λ shape. shape ≡ spec.shape_behind types.now.elements extents.now plain siblings.now place key.now (option_copied star.entry)) }
{
    match star {
        Some(star) => pointer_shape(alloc, types, extents, plain, siblings, place, key, star),
        None => Ok(plain_shape(key)),
    }
}

/// The shape that a type name declares for the sibling at `place`, from the extents of the structs by number. A last star without annotation is `plain`.
/// None where the type is none, a pointer is written whose element is none, or an annotation stands against a rule.
#[tactic(auto, unfolding(crate::specs::Declarations::typed_shape))]
pub fn typed_shape(
    alloc: Global,
    types: &Types,
    extents: &[Extent],
    plain: Unannotated,
    siblings: &Siblings,
    place: u32,
    t: &TypeName,
) -> Result<Option<Shape>, Memory>
    requires { AreExtents extents.now }
    ensures { IfOk result (λ shape. shape ≡ spec.typed_shape types.now extents.now plain siblings.now place t.now) }
{
    match pointed_key(types, t) {
        Some(key) => shape_behind(
            alloc,
            types,
            extents,
            plain,
            siblings,
            place,
            &key,
            last_star(t.stars.as_slice()),
        ),
        None => Ok(None),
    }
}
