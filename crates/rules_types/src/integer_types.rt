//! Integer types: that of a number, that which a type name names, and the conversions of one or two operands.
ghost use Rattle.std.specs.Prelude.{◌≡◌};
ghost use Rattle.deputy_rules.specs.Operators as spec;
ghost use Rattle.deputy_rules.specs.Places as places;

use c_tree::{Base, Star, Suffix, TypeName};
use checked_tree::Scalar;

/// Whether a type is `unsigned`.
pub fn is_unsigned(scalar: Scalar) -> bool
    ensures { result ≡ places.is_unsigned scalar }
{
    match scalar {
        Scalar::U32 => true,
        _ => false,
    }
}

/// Promotion: `unsigned` stays, and a narrower type becomes `int`.
pub fn promoted(scalar: Scalar) -> Scalar
    ensures { result ≡ spec.promoted scalar }
{
    if is_unsigned(scalar) {
        Scalar::U32
    } else {
        Scalar::I32
    }
}

/// The type to which two sides are converted: `unsigned` where one of them is.
pub fn common(left: Scalar, right: Scalar) -> Scalar
    ensures { result ≡ spec.common left right }
{
    if is_unsigned(left) {
        Scalar::U32
    } else {
        promoted(right)
    }
}

/// The type of a number without `u`: `unsigned` where it is above 2,147,483,647.
fn narrow_scalar(value: u32) -> Scalar
    ensures { result ≡ spec.narrow_scalar value }
{
    if value > 2_147_483_647 {
        Scalar::U32
    } else {
        Scalar::I32
    }
}

/// The type of a number.
pub fn suffix_scalar(suffix: Suffix, value: u32) -> Scalar
    ensures { result ≡ spec.suffix_scalar suffix value }
{
    match suffix {
        Suffix::Plain => narrow_scalar(value),
        Suffix::Long => narrow_scalar(value),
        Suffix::Unsigned => Scalar::U32,
        Suffix::UnsignedLong => Scalar::U32,
    }
}

/// Whether a number has no suffix.
pub fn is_plain(suffix: Suffix) -> bool
    ensures { result ≡ spec.is_plain suffix }
{
    match suffix {
        Suffix::Plain => true,
        _ => false,
    }
}

/// The integer type that a base names. None where it is a struct.
#[tactic(auto, unfolding(deputy_rules::specs::Operators::base_scalar, deputy_types::specs::Types::base_key))]
fn base_scalar(base: Base) -> Option<Scalar>
    ensures { result ≡ spec.base_scalar base }
{
    match base {
        Base::Char => Some(Scalar::U8),
        Base::SignedChar => Some(Scalar::I8),
        Base::UnsignedChar => Some(Scalar::U8),
        Base::Short => Some(Scalar::I16),
        Base::UnsignedShort => Some(Scalar::U16),
        Base::Int => Some(Scalar::I32),
        Base::Long => Some(Scalar::I32),
        Base::Unsigned => Some(Scalar::U32),
        Base::UnsignedInt => Some(Scalar::U32),
        Base::UnsignedLong => Some(Scalar::U32),
        Base::Struct(_) => None,
    }
}

/// A type without stars.
fn starless(stars: &[Star], scalar: Option<Scalar>) -> Option<Scalar>
    ensures { result ≡ spec.starless stars.now scalar }
{
    match stars {
        [] => scalar,
        [_, ..] => None,
    }
}

/// The integer type that a type name names. None where it is a struct or a pointer.
#[tactic(auto, unfolding(deputy_rules::specs::Operators::integer_type))]
pub fn integer_type(name: &TypeName) -> Option<Scalar>
    ensures { result ≡ spec.integer_type name.now }
{
    starless(name.stars.as_slice(), base_scalar(name.base))
}
