//! Places and pointers, from the values of their parts. What is no address answers `Wild`.
ghost use Rattle.std.specs.Prelude.{◌≡◌, ◌+ℤ◌, ◌-ℤ◌, ◌*ℤ◌, ◌≤◌, ◌^◌, pos, unsigned_abs, IfOk, IsTrue};
ghost use Rattle.checked_tree.specs.Conditions as spec;
ghost use Rattle.checked_tree.specs.Numbers.{address, is_value, word_of};

use checked_tree::{PointerSum, Stop};

/// A number that is an address: one of 32 bits, and not negative.
pub fn word(z: i128) -> Result<u32, Stop>
    ensures { result ≡ word_of z }
{
    if z < 0 || z >= 1 << 32 {
        return Err(Stop::Wild);
    }
    Ok(z as u32)
}

/// The same as a value.
pub fn address(z: i128) -> Result<i64, Stop>
    ensures value { result ≡ address z }
    ensures range { IfOk result (λ a. IsTrue (is_value a)) }
{
    let word = word(z)?;
    Ok(i64::from(word))
}

/// A number of elements, in bytes.
fn scaled(size: u32, count: i64) -> i128
    requires { IsTrue (is_value count) }
    ensures value { result ≡ pos size *ℤ count }
    ensures range { unsigned_abs result ≤ 2 ^ 64 }
{
    i128::from(size) * i128::from(count)
}

/// A number of bytes behind an address.
fn behind(place: i64, bytes: i128) -> i128
    requires { unsigned_abs bytes ≤ 2 ^ 64 }
    ensures { result ≡ place +ℤ bytes }
{
    i128::from(place) + bytes
}

/// A number of bytes before an address.
fn before(place: i64, bytes: i128) -> i128
    requires { unsigned_abs bytes ≤ 2 ^ 64 }
    ensures { result ≡ place -ℤ bytes }
{
    i128::from(place) - bytes
}

/// The place of an element of `size` bytes.
pub fn element(pointer: i64, index: i64, size: u32) -> Result<i64, Stop>
    requires pointer { IsTrue (is_value pointer) }
    requires index { IsTrue (is_value index) }
    ensures value { result ≡ address (pointer +ℤ (pos size *ℤ index)) }
    ensures range { IfOk result (λ a. IsTrue (is_value a)) }
{
    address(behind(pointer, scaled(size, index)))
}

/// The place of a field.
pub fn field(place: i64, offset: u32) -> Result<i64, Stop>
    ensures value { result ≡ address (place +ℤ pos offset) }
    ensures range { IfOk result (λ a. IsTrue (is_value a)) }
{
    address(i128::from(place) + i128::from(offset))
}

/// A pointer that is moved by a number of elements of `size` bytes.
pub fn moved(sum: PointerSum, size: u32, pointer: i64, count: i64) -> Result<i64, Stop>
    requires pointer { IsTrue (is_value pointer) }
    requires count { IsTrue (is_value count) }
    ensures value { result ≡ address (spec.moved sum size pointer count) }
    ensures range { IfOk result (λ a. IsTrue (is_value a)) }
{
    let bytes = scaled(size, count);
    match sum {
        PointerSum::PointerPlus => address(behind(pointer, bytes)),
        PointerSum::PlusPointer => address(behind(pointer, bytes)),
        PointerSum::PointerMinus => address(before(pointer, bytes)),
    }
}
