//! Copies of shapes, for the slots of a checked function. The only refusal is want of memory.
ghost use Rattle.std.specs.Prelude.{◌≡◌, IfOk};
ghost use Rattle.checked_tree.specs.declared.shapes.Bounds.TheVariants as sides;

use checked_tree::{Bounds, Edge, Shape};
use sqlite_items::Items;
use std::alloc::{AllocError, Global};

/// A copy of one side of bounds.
fn copy_edge(alloc: Global, edge: &Edge) -> Result<Edge, AllocError>
    ensures { IfOk result (λ copy. copy ≡ edge.now) }
{
    let terms = Items::from_slice(alloc, edge.terms.as_slice())?;
    Ok(Edge {
        base: edge.base,
        terms,
        bytes: edge.bytes,
    })
}

/// A copy of bounds by their sides.
fn copy_within(alloc: Global, lo: &Edge, hi: &Edge) -> Result<Bounds, AllocError>
    ensures { IfOk result (λ copy. copy ≡ sides.Within lo.now hi.now) }
{
    let lo = copy_edge(alloc, lo)?;
    let hi = copy_edge(alloc, hi)?;
    Ok(Bounds::Within { lo, hi })
}

/// A copy of bounds.
fn copy_bounds(alloc: Global, bounds: &Bounds) -> Result<Bounds, AllocError>
    ensures { IfOk result (λ copy. copy ≡ bounds.now) }
{
    match bounds {
        Bounds::Hidden => Ok(Bounds::Hidden),
        Bounds::Nullterm => Ok(Bounds::Nullterm),
        Bounds::Within { lo, hi } => copy_within(alloc, lo, hi),
    }
}

/// A copy of a shape.
pub(crate) fn copy_shape(alloc: Global, shape: &Shape) -> Result<Shape, AllocError>
    ensures { IfOk result (λ copy. copy ≡ shape.now) }
{
    match shape {
        Shape::Int(scalar) => Ok(Shape::Int(*scalar)),
        Shape::Pointer { elem, bounds } => {
            let bounds = copy_bounds(alloc, bounds)?;
            Ok(Shape::Pointer {
                elem: *elem,
                bounds,
            })
        }
        Shape::Struct(number) => Ok(Shape::Struct(*number)),
        Shape::Address => Ok(Shape::Address),
    }
}
