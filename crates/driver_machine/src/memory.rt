//! Values in a driver's memory. An access that no granted range contains answers `Wild`, and changes nothing.
ghost use Rattle.std.specs.Prelude.{◌≡◌, ◌⊎◌, ◌==◌, IfOk, IsTrue};
ghost use Rattle.std.specs.List.{list_all};
ghost use Rattle.byte_memory.specs.Bytes.{little_endian, bytes_at, low_bytes, overwritten};
ghost use Rattle.byte_memory.specs.Tested.{is_inside, IsAccessSize};
ghost use Rattle.checked_tree.specs.Memory as spec;
ghost use Rattle.checked_tree.specs.Numbers.{is_value};
ghost use Rattle.checked_tree.specs.Numbers as numbers;
ghost use Rattle.driver_machine.specs.Changes.{Leaves};

use crate::places::word;
use byte_memory::Tested;
use checked_tree::{Scalar, Stop, converted, low_bits};

/// The bytes of a type.
fn scalar_size(scalar: Scalar) -> u32
    ensures value { result ≡ numbers.scalar_size scalar }
    ensures sizes { (result ≡ 0) ⊎ IsAccessSize result }
{
    match scalar {
        Scalar::Void => 0,
        Scalar::U8 => 1,
        Scalar::I8 => 1,
        Scalar::U16 => 2,
        Scalar::I16 => 2,
        Scalar::I32 => 4,
        Scalar::U32 => 4,
        Scalar::Pointer { size: _ } => 4,
    }
}

/// The address of `n` bytes that are inside, or `Wild`.
#[tactic(auto, unfolding(checked_tree::specs::Memory::reached))]
fn reached(memory: &Tested, at: i128, n: u32) -> Result<u32, Stop>
    ensures value { result ≡ spec.reached memory.now at n }
    ensures inside { IfOk result (λ a. IsTrue (is_inside memory.now a n)) }
{
    let place = word(at)?;
    if memory.inside(place, n) {
        Ok(place)
    } else {
        Err(Stop::Wild)
    }
}

/// The number in the bytes of a type: 0, 1, 2 or 4 of them.
#[tactic(auto, unfolding(byte_memory::specs::Bytes::little_endian, byte_memory::specs::Bytes::bytes_at))]
fn number_at(memory: &Tested, place: u32, size: u32) -> u32
    requires sizes { (size ≡ 0) ⊎ IsAccessSize size }
    requires inside { IsTrue (is_inside memory.now place size) }
    ensures { result ≡ little_endian (bytes_at memory.now.bytes place size) }
{
    if size == 0 {
        0
    } else {
        memory.load(place, size)
    }
}

/// The value of a place of this type.
#[tactic(auto, unfolding(checked_tree::specs::Memory::load, checked_tree::specs::Memory::read))]
pub fn load(memory: &Tested, scalar: Scalar, at: i64) -> Result<i64, Stop>
    ensures value { result ≡ spec.load memory.now scalar at }
    ensures range { IfOk result (λ z. IsTrue (is_value z)) }
{
    let size = scalar_size(scalar);
    let place = reached(memory, i128::from(at), size)?;
    Ok(converted(scalar, i128::from(number_at(memory, place, size))))
}

/// Puts the low bytes of a number in the bytes of a type: 0, 1, 2 or 4 of them.
#[tactic(auto, using(crate::proofs::Writes::nothing_written))]
fn put(memory: &mut Tested, place: u32, size: u32, bits: u32)
    requires sizes { (size ≡ 0) ⊎ IsAccessSize size }
    requires inside { IsTrue (is_inside memory.old place size) }
    ensures { memory.new ≡ record memory.old { bytes = overwritten memory.old.bytes place (low_bytes size bits) } }
{
    if size > 0 {
        memory.store(place, size, bits);
    }
}

/// Puts a value in a place of this type: its low bytes.
#[tactic(auto, unfolding(checked_tree::specs::Memory::store, checked_tree::specs::Memory::written))]
pub fn store(memory: &mut Tested, scalar: Scalar, at: i64, v: i64) -> Result<(), Stop>
    ensures { Leaves (spec.store memory.old scalar at v) memory.old result memory.new }
{
    let size = scalar_size(scalar);
    let place = reached(memory, i128::from(at), size)?;
    put(memory, place, size, low_bits(32, i128::from(v)));
    Ok(())
}

/// Makes `n` bytes 0.
#[tactic(auto, unfolding(checked_tree::specs::Memory::cleared, checked_tree::specs::Memory::written))]
pub fn clear(memory: &mut Tested, at: i64, n: u32) -> Result<(), Stop>
    ensures { Leaves (spec.cleared memory.old at n) memory.old result memory.new }
{
    let place = reached(memory, i128::from(at), n)?;
    memory.fill(place, n);
    Ok(())
}

/// Whether bytes are all 0.
fn are_zero(bytes: &[u8]) -> bool
    ensures { result ≡ list_all (λ b. b == 0) bytes.now }
{
    for byte in bytes {
        if *byte != 0 {
            return false;
        }
    }
    true
}

/// Whether `n` bytes are all 0.
#[tactic(auto, unfolding(checked_tree::specs::Memory::is_clear, checked_tree::specs::Memory::read))]
pub fn is_clear(memory: &Tested, at: i128, n: u32) -> Result<bool, Stop>
    ensures { result ≡ spec.is_clear memory.now at n }
{
    let place = reached(memory, at, n)?;
    Ok(are_zero(memory.view(place, n)))
}
