//! The types that bases and type names with constant annotations name, as keys.
ghost use Rattle.std.specs.Prelude.{◌≡◌, ◌+ℤ◌, IsTrue, option_copied, pos};
ghost use Rattle.deputy_types.specs.Types as spec;

use crate::{Element, ElementList, NameList, Types};
use c_tree::{Annotation, Base, SignedTerm, Star, Term, TypeName};
use checked_tree::Scalar;

/// The greatest count of elements that a text can write: a sum of 1,000 numbers below 2^32 is less.
const GREATEST_COUNT: i64 = 4_398_046_511_104;

/// The type that a base names. None where it is a struct that the text declares nowhere.
#[tactic(auto, unfolding(crate::specs::Types::base_key))]
pub fn base_key(structs: &NameList, base: &Base) -> Option<Element>
    ensures { result ≡ spec.base_key structs.now base.now }
{
    match base {
        Base::Char | Base::UnsignedChar => Some(Element::Int(Scalar::U8)),
        Base::SignedChar => Some(Element::Int(Scalar::I8)),
        Base::Short => Some(Element::Int(Scalar::I16)),
        Base::UnsignedShort => Some(Element::Int(Scalar::U16)),
        Base::Int | Base::Long => Some(Element::Int(Scalar::I32)),
        Base::Unsigned | Base::UnsignedInt | Base::UnsignedLong => Some(Element::Int(Scalar::U32)),
        Base::Struct(name) => match structs.number(name) {
            Some(n) => Some(Element::Struct(n)),
            None => None,
        },
    }
}

/// A number with the sign before it.
pub(crate) fn signed_number(negative: bool, value: u32) -> i64
    ensures value { result ≡ spec.signed_number negative value }
    ensures count { IsTrue (spec.is_count result) }
{
    if negative {
        -(value as i64)
    } else {
        value as i64
    }
}

/// The value of a term without names. None where it has a name.
#[tactic(auto, unfolding(crate::specs::Types::term_constant))]
fn term_constant(t: &SignedTerm) -> Option<i64>
    ensures { result ≡ spec.term_constant t.now }
{
    match t.term {
        Term::Number(n) => Some(signed_number(t.negative, n.value)),
        Term::Name(_) => None,
        Term::Product(_, _) => None,
    }
}

/// The sum of two numbers, where it is a count that a text can write.
fn counted(sum: i64, n: i64) -> Option<i64>
    ensures { result ≡ spec.if_count (sum +ℤ n) }
{
    let more = sum.checked_add(n)?;
    if -GREATEST_COUNT <= more && more <= GREATEST_COUNT {
        Some(more)
    } else {
        None
    }
}

/// A sum with the value of one more term. None where the term has a name.
#[tactic(auto, unfolding(crate::specs::Types::next_sum))]
fn next_sum(sum: i64, t: &SignedTerm) -> Option<i64>
    ensures { result ≡ spec.next_sum sum t.now }
{
    counted(sum, term_constant(t)?)
}

/// The value of a sum without names. None where it has a name.
pub fn constant_sum(terms: &[SignedTerm]) -> Option<i64>
    ensures { result ≡ spec.constant_sum (pos 0) terms.now }
{
    let mut sum = 0;
    for term in terms {
        sum = next_sum(sum, term)?;
    }
    Some(sum)
}

/// Plain and unsigned `char`: what text is made of.
pub fn is_char(key: &Element) -> bool
    ensures { result ≡ spec.is_char key.now }
{
    matches!(key, Element::Int(Scalar::U8))
}

/// The type of a pointer to the element with number `n` and key `key`, where its annotation is constant.
fn annotated_key(n: u32, key: &Element, annotation: &Annotation) -> Option<Element>
    ensures { result ≡ spec.annotated_key n key.now annotation.now }
{
    match annotation {
        Annotation::Safe => Some(Element::Count(n, 1)),
        Annotation::Sentinel => Some(Element::Sentinel(n)),
        Annotation::Nullterm => {
            if is_char(key) {
                Some(Element::Nullterm(n))
            } else {
                None
            }
        }
        Annotation::Count(sum) => match constant_sum(sum.terms.as_slice()) {
            Some(count) => Some(Element::Count(n, count)),
            None => None,
        },
        Annotation::Bound(_, _) => None,
    }
}

/// The same, `safe` where there is no annotation.
#[tactic(auto, unfolding(crate::specs::Types::pointer_key))]
fn pointer_key(n: u32, key: &Element, annotation: Option<&Annotation>) -> Option<Element>
    ensures { result ≡ spec.pointer_key n key.now (option_copied annotation.entry) }
{
    match annotation {
        None => Some(Element::Count(n, 1)),
        Some(note) => annotated_key(n, key, note),
    }
}

/// The type behind a star. None where the annotation is not constant, or the type before it is no element.
#[tactic(auto, unfolding(crate::specs::Types::star_key))]
pub fn star_key(elements: &ElementList, key: &Element, star: &Star) -> Option<Element>
    ensures { result ≡ spec.star_key elements.now key.now star.now }
{
    let n = elements.number(key)?;
    pointer_key(n, key, star.annotation.as_ref())
}

/// The type behind these stars. None where an annotation is not constant, or a type before one is no element.
pub fn stars_key(elements: &ElementList, key: &Element, stars: &[Star]) -> Option<Element>
    ensures { result ≡ spec.stars_key elements.now key.now stars.now }
{
    let mut key = *key;
    for star in stars {
        key = star_key(elements, &key, star)?;
    }
    Some(key)
}

/// The type that a type name with constant annotations names. None where it names none, or an annotation is not constant.
#[tactic(auto, unfolding(crate::specs::Types::type_key))]
pub fn type_key(types: &Types, t: &TypeName) -> Option<Element>
    ensures { result ≡ spec.type_key types.now t.now }
{
    let key = base_key(&types.structs, &t.base)?;
    stars_key(&types.elements, &key, t.stars.as_slice())
}

/// Whether an annotation names nothing and may stand on a pointer: `nullterm` on a pointer to text alone.
fn is_constant(text: bool, annotation: Option<&Annotation>) -> bool
    ensures { result ≡ spec.is_constant text (option_copied annotation.entry) }
{
    match annotation {
        None => true,
        Some(Annotation::Safe) => true,
        Some(Annotation::Sentinel) => true,
        Some(Annotation::Nullterm) => text,
        Some(Annotation::Count(sum)) => constant_sum(sum.terms.as_slice()).is_some(),
        Some(Annotation::Bound(_, _)) => false,
    }
}

/// Whether such annotations alone stand on these stars, the first of a pointer to text or not.
pub fn are_constant(text: bool, stars: &[Star]) -> bool
    ensures { result ≡ spec.are_constant text stars.now }
{
    let mut text = text;
    for star in stars {
        if !is_constant(text, star.annotation.as_ref()) {
            return false;
        }
        text = false;
    }
    true
}

/// All stars but the last.
pub fn front_stars(stars: &[Star]) -> &[Star]
    ensures { result.now ≡ spec.front_stars stars.now }
{
    &stars[..stars.len().saturating_sub(1)]
}

/// What a type name's pointer points to, or the type itself where it is none. None where there is no such type.
#[tactic(auto, unfolding(crate::specs::Types::pointed_key))]
pub fn pointed_key(types: &Types, t: &TypeName) -> Option<Element>
    ensures { result ≡ spec.pointed_key types.now t.now }
{
    let key = base_key(&types.structs, &t.base)?;
    stars_key(&types.elements, &key, front_stars(t.stars.as_slice()))
}

/// The last star: the pointer's own.
pub fn last_star(stars: &[Star]) -> Option<&Star>
    ensures { option_copied result ≡ spec.last_star stars.now }
{
    stars.last()
}
