//! The arguments of a call from outside: each is converted to the type of its parameter.
ghost use Rattle.std.specs.Prelude.{◌≡◌, ◌≤◌, All, IsTrue, length};
ghost use Rattle.checked_tree.specs.Numbers.{is_value};
ghost use Rattle.checked_tree.specs.Step as spec;

use arrayvec::ArrayVec;
use checked_tree::{Scalar, Shape, converted};
use sd_base::limits::LOCALS;
use sqlite_items::Items;

/// The type to which the argument of a parameter of this shape is converted.
fn parameter_type(shape: &Shape) -> Scalar
    ensures { result ≡ spec.parameter_type shape.now }
{
    match shape {
        Shape::Int(scalar) => *scalar,
        Shape::Pointer { elem: _, bounds: _ } => Scalar::Pointer { size: 0 },
        Shape::Struct(_) => Scalar::Void,
        Shape::Address => Scalar::Pointer { size: 0 },
    }
}

/// The values that a call from outside puts into the first slots: each of at most 128 arguments converted to the type of its parameter, by the shapes of the
/// function's slots. One that has no slot is left out.
pub fn converted_arguments(arguments: &[i32], slots: &Items<Shape>) -> ArrayVec<i64, LOCALS>
    requires few { length arguments.now ≤ 128 }
    ensures values { result.items ≡ spec.converted_arguments arguments.now slots.now }
    ensures few { length result.items ≤ 128 }
    ensures words { All (λ z. IsTrue (is_value z)) result.items }
{
    let mut values = ArrayVec::new();
    for argument in arguments {
        let Some(parameter) = slots.get(values.len()) else {
            return values;
        };
        values.push(converted(parameter_type(parameter), i128::from(*argument)));
    }
    values
}
