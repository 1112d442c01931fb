//! The arguments of a kernel call.
ghost use Rattle.std.specs.Prelude.{◌≡◌, pos, slice_index_or};
ghost use Rattle.checked_tree.specs.Numbers as numbers;
ghost use Rattle.checked_tree.specs.declared.shapes.Scalar.TheVariants.{I32};
ghost use Rattle.wrappers.specs.Rows as row;

use checked_tree::{KernelCall, Scalar, converted};

/// A number as an `int`: modulo 2^32, as C hands it over.
fn int_of(z: i64) -> i32
    ensures { result ≡ numbers.converted I32 z }
{
    converted(Scalar::I32, i128::from(z)) as i32
}

/// The number of a call at this place, counted from 0, or 0 past its last.
pub fn number_at(call: &KernelCall, place: usize) -> i64
    ensures { result ≡ slice_index_or call.now.args place (pos 0) }
{
    match call.args.get(place) {
        Some(number) => *number,
        None => 0,
    }
}

/// The same as an `int`.
pub fn int_at(call: &KernelCall, place: usize) -> i32
    ensures { result ≡ row.int_at call.now place }
{
    int_of(number_at(call, place))
}
