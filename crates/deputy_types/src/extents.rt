//! Sizes and alignments of types (C99, 6.2.8, with natural alignment).
ghost use Rattle.std.specs.Prelude.{◌≡◌, ◌≤◌, ◌+◌, ◌<◌, ◌^◌};
ghost use Rattle.deputy_types.specs.Extents as spec;
ghost use Rattle.deputy_types.specs.Extents.{AreExtents, IsExtent};

use crate::keys::base_key;
use crate::{Element, Extent, Types};
use c_tree::{Star, TypeName};
use checked_tree::Scalar;

/// A type whose alignment is its size.
pub fn natural(bytes: u32) -> Extent
    ensures { result ≡ spec.natural bytes }
{
    Extent {
        bytes,
        align: bytes,
    }
}

/// What is not there has no bytes.
fn no_extent() -> Extent
    ensures { result ≡ spec.no_extent }
{
    Extent { bytes: 0, align: 1 }
}

/// The extent of a number.
fn scalar_extent(scalar: Scalar) -> Extent
    ensures { result ≡ spec.scalar_extent scalar }
{
    match scalar {
        Scalar::Void => no_extent(),
        Scalar::U8 | Scalar::I8 => natural(1),
        Scalar::U16 | Scalar::I16 => natural(2),
        Scalar::I32 | Scalar::U32 | Scalar::Pointer { .. } => natural(4),
    }
}

/// The extent of a struct, from those of the structs by number. What is not there has no bytes.
fn struct_extent(extents: &[Extent], number: u32) -> Extent
    ensures { result ≡ spec.struct_extent extents.now number }
{
    match extents.get(number as usize) {
        Some(extent) => *extent,
        None => no_extent(),
    }
}

/// The extent of a type, from those of the structs by number.
pub fn key_extent(extents: &[Extent], key: &Element) -> Extent
    ensures value { result ≡ spec.key_extent extents.now key.now }
    ensures fits { AreExtents extents.now → IsExtent result }
{
    match key {
        Element::Int(scalar) => scalar_extent(*scalar),
        Element::Struct(number) => struct_extent(extents, *number),
        Element::Sentinel(_) | Element::Nullterm(_) | Element::Count(_, _) => natural(4),
    }
}

/// The extent of the type behind these stars: of a pointer, where there are any.
pub fn stars_extent(extent: Extent, stars: &[Star]) -> Extent
    ensures value { result ≡ spec.stars_extent extent stars.now }
    ensures fits { IsExtent extent → IsExtent result }
{
    match stars {
        [] => extent,
        [_, ..] => natural(4),
    }
}

/// The extent of the type that a type name begins with. What is not there has no bytes.
fn base_extent(types: &Types, extents: &[Extent], t: &TypeName) -> Extent
    ensures value { result ≡ spec.base_extent types.now extents.now t.now }
    ensures fits { AreExtents extents.now → IsExtent result }
{
    match base_key(&types.structs, &t.base) {
        Some(key) => key_extent(extents, &key),
        None => no_extent(),
    }
}

/// The extent of what a type name declares.
#[tactic(auto, unfolding(crate::specs::Extents::type_extent))]
pub fn type_extent(types: &Types, extents: &[Extent], t: &TypeName) -> Extent
    ensures value { result ≡ spec.type_extent types.now extents.now t.now }
    ensures fits { AreExtents extents.now → IsExtent result }
{
    stars_extent(base_extent(types, extents, t), t.stars.as_slice())
}

/// The extent that a type has of its own, as an arm of a union: a number or a pointer has one, a struct has none.
fn own_extent(key: &Element) -> Extent
    ensures { result ≡ spec.own_extent key.now }
{
    match key {
        Element::Int(scalar) => scalar_extent(*scalar),
        Element::Struct(_) => no_extent(),
        Element::Sentinel(_) | Element::Nullterm(_) | Element::Count(_, _) => natural(4),
    }
}

/// The extent of a union's arm.
#[tactic(auto, unfolding(crate::specs::Extents::arm_extent))]
pub fn arm_extent(types: &Types, t: &TypeName) -> Extent
    ensures { result ≡ spec.arm_extent types.now t.now }
{
    let base = match base_key(&types.structs, &t.base) {
        Some(key) => own_extent(&key),
        None => no_extent(),
    };
    stars_extent(base, t.stars.as_slice())
}

/// The next multiple of an alignment.
pub fn round_up_to(align: u32, n: u32) -> u32
    requires align { 1 ≤ align }
    requires room { n + align < 2 ^ 32 }
    ensures value { result ≡ spec.round_up_to align n }
    ensures above { n ≤ result }
    ensures below { result < n + align }
{
    (n + (align - 1)) / align * align
}

/// The room for the greater of two.
pub fn greater(a: Extent, b: Extent) -> Extent
    ensures value { result ≡ spec.greater a b }
    ensures fits { IsExtent a → IsExtent b → IsExtent result }
{
    Extent {
        bytes: a.bytes.max(b.bytes),
        align: a.align.max(b.align),
    }
}
