//! Numbers modulo a power of two, and their conversion to a type (C99 6.3.1.3, and two's complement).
ghost use Rattle.std.specs.Prelude.{◌≡◌, ◌≤◌, ◌<◌, ◌^◌, ℕ, IsTrue};
ghost use Rattle.checked_tree.specs.declared.shapes.Scalar.TheVariants.{U32, Pointer};
ghost use Rattle.checked_tree.specs.Numbers as spec;

use crate::Scalar;

/// A number modulo 2^n, which has at most 32 bits.
pub fn low_bits(n: u32, z: i128) -> u32
    requires { n ≤ 32 }
    ensures value { result ≡ spec.low_bits n z }
    ensures small { result < 2 ^ n }
{
    let modulus = 1u128 << n;
    if z < 0 {
        (modulus - 1 - (-(z + 1)) as u128 % modulus) as u32
    } else {
        (z as u128 % modulus) as u32
    }
}

/// So many bits as a signed number.
fn signed(n: u32, bits: u32) -> i64
    requires low { 1 ≤ n }
    requires high { n ≤ 32 }
    requires small { bits < 2 ^ n }
    ensures value { result ≡ spec.signed n bits }
    ensures range { IsTrue (spec.is_value result) }
{
    if bits < 1u32 << (n - 1) {
        i64::from(bits)
    } else {
        i64::from(bits) - (1i64 << n)
    }
}

/// A number converted to a type: modulo 2^bits, and 0 for `void`. The result fits 32 bits, signed or unsigned.
#[tactic(auto, unfolding(crate::specs::Numbers::converted))]
pub fn converted(scalar: Scalar, z: i128) -> i64
    ensures value { result ≡ spec.converted scalar z }
    ensures range { IsTrue (spec.is_value result) }
{
    match scalar {
        Scalar::Void => 0,
        Scalar::U8 => i64::from(low_bits(8, z)),
        Scalar::I8 => signed(8, low_bits(8, z)),
        Scalar::U16 => i64::from(low_bits(16, z)),
        Scalar::I16 => signed(16, low_bits(16, z)),
        Scalar::I32 => signed(32, low_bits(32, z)),
        Scalar::U32 => i64::from(low_bits(32, z)),
        Scalar::Pointer { size: _ } => i64::from(low_bits(32, z)),
    }
}

/// Whether the first type has every value of the second. A pointer has the values of `unsigned`; `void` has none and holds none.
#[tactic(auto, unfolding(crate::specs::Numbers::has_all))]
pub fn has_all(to: Scalar, from: Scalar) -> bool
    ensures { result ≡ spec.has_all to from }
{
    match to {
        Scalar::Void => false,
        Scalar::U8 => matches!(from, Scalar::U8),
        Scalar::I8 => matches!(from, Scalar::I8),
        Scalar::U16 => matches!(from, Scalar::U8 | Scalar::U16),
        Scalar::I16 => matches!(from, Scalar::U8 | Scalar::I8 | Scalar::I16),
        Scalar::I32 => matches!(
            from,
            Scalar::U8 | Scalar::I8 | Scalar::U16 | Scalar::I16 | Scalar::I32
        ),
        Scalar::U32 => has_unsigned(from),
        Scalar::Pointer { size: _ } => has_unsigned(from),
    }
}

/// Whether 32 bits without a sign hold every value of a type.
#[tactic(auto, unfolding(crate::specs::Numbers::has_all))]
fn has_unsigned(from: Scalar) -> bool
    ensures word { result ≡ spec.has_all U32 from }
    ensures pointer { (size : ℕ) → result ≡ spec.has_all (Pointer size) from }
{
    matches!(
        from,
        Scalar::U8 | Scalar::U16 | Scalar::U32 | Scalar::Pointer { size: _ }
    )
}
