//! What a slot can hold.
ghost use Rattle.std.specs.Prelude.{◌≡◌};
ghost use Rattle.deputy_rules.specs.Heads as spec;

use checked_tree::Shape;

/// Integers and pointers are what a slot can hold.
#[tactic(auto, unfolding(deputy_rules::specs::Heads::value_shape))]
pub fn value_shape(shape: Shape) -> Option<Shape>
    ensures { result ≡ spec.value_shape shape }
{
    match shape {
        Shape::Int(scalar) => Some(Shape::Int(scalar)),
        Shape::Pointer { elem, bounds } => Some(Shape::Pointer { elem, bounds }),
        Shape::Struct(_) => None,
        Shape::Address => None,
    }
}
