//! A checked function's slots and result.
ghost use Rattle.std.specs.Prelude.{◌≡◌, ◌++◌, ◌∷◌, List, Option, IfOk};
ghost use Rattle.checked_tree.specs.declared.shapes.Shape.{Shape};
ghost use Rattle.deputy_rules.specs.Functions as spec;

use crate::shape_copies::copy_shape;
use checked_tree::{Bounds, Scalar, Shape};
use deputy_rules::Returned;
use sqlite_items::Items;
use std::alloc::{AllocError, Global};

/// How many bytes a pointer that is returned may reach. Where the number has no place in 32 bits, or is negative, the pointer is null.
fn reach_of(bytes: i64) -> u32
    ensures { result ≡ spec.reach_of bytes }
{
    if 0 <= bytes && bytes <= 4_294_967_295 {
        bytes as u32
    } else {
        0
    }
}

/// The same by its bounds.
fn reach(bounds: &Bounds) -> u32
    ensures { result ≡ spec.reach bounds.now }
{
    match bounds {
        Bounds::Hidden => 0,
        Bounds::Nullterm => 0,
        Bounds::Within { lo: _, hi } => reach_of(hi.bytes),
    }
}

/// A result as one number.
#[tactic(auto, unfolding(deputy_rules::specs::Functions::result_scalar))]
pub fn result_scalar(returned: &Returned) -> Scalar
    ensures { result ≡ spec.result_scalar returned.now }
{
    match returned {
        Returned::Nothing => Scalar::Void,
        Returned::Value(Shape::Int(scalar)) => *scalar,
        Returned::Value(Shape::Pointer { elem: _, bounds }) => Scalar::Pointer {
            size: reach(bounds),
        },
        Returned::Value(Shape::Struct(_)) => Scalar::Void,
        Returned::Value(Shape::Address) => Scalar::Void,
    }
}

/// A shape more, where it is there.
fn with_shape(
    alloc: Global,
    shapes: Items<Shape>,
    shape: &Option<Shape>,
) -> Result<Items<Shape>, AllocError>
    ensures { IfOk result (λ more. (rest : List (Option Shape)) → more ++ spec.shapes_of rest ≡ shapes ++ spec.shapes_of (shape.now ∷ rest)) }
{
    let mut more = shapes;
    match shape {
        Some(found) => {
            more.push(copy_shape(alloc, found)?)?;
            Ok(more)
        }
        None => Ok(more),
    }
}

/// Copies of the shapes that are there. The only refusal is want of memory.
pub fn shapes_of(alloc: Global, shapes: &[Option<Shape>]) -> Result<Items<Shape>, AllocError>
    ensures { IfOk result (λ found. found ≡ spec.shapes_of shapes.now) }
{
    let mut found = Items::new(alloc);
    for shape in shapes {
        found = with_shape(alloc, found, shape)?;
    }
    Ok(found)
}
