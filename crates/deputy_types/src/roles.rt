//! What an annotation can make of a declaration that it names.
ghost use Rattle.std.specs.Prelude.{◌≡◌, option_copied};
ghost use Rattle.deputy_types.specs.Declarations as spec;

use crate::keys::{last_star, pointed_key};
use crate::{Element, ElementList, Role, Types};
use c_tree::{Annotation, Star, TypeName};

/// Of a value of the type `key`, a tag or not.
fn plain_role(tag: bool, key: &Element) -> Role
    ensures { result ≡ spec.plain_role tag key.now }
{
    match key {
        Element::Int(_) => { if tag { Role::Tag } else { Role::Integer } }
        Element::Struct(_) | Element::Sentinel(_) | Element::Nullterm(_) | Element::Count(_, _) =>
            Role::Other,
    }
}

/// Whether a star makes a pointer to text.
fn is_text(annotation: Option<&Annotation>) -> bool
    ensures { result ≡ spec.is_text (option_copied annotation.entry) }
{
    matches!(annotation, Some(Annotation::Nullterm))
}

/// Of a pointer to the type `key` with this last star.
fn pointer_role(elements: &ElementList, key: &Element, star: &Star) -> Role
    ensures { result ≡ spec.pointer_role elements.now key.now star.now }
{
    if is_text(star.annotation.as_ref()) {
        return Role::Other;
    }
    match elements.number(key) {
        Some(n) => Role::Pointer(n),
        None => Role::Other,
    }
}

/// Of a pointer to the type `key` with this last star, or of a value of it where there is none.
fn role_behind(elements: &ElementList, tag: bool, key: &Element, star: Option<&Star>) -> Role
    ensures { result ≡ spec.role_behind elements.now tag key.now (option_copied star.entry) }
{
    match star {
        Some(star) => pointer_role(elements, key, star),
        None => plain_role(tag, key),
    }
}

/// Of what a type name declares.
fn role_by(types: &Types, tag: bool, t: &TypeName, key: Option<Element>) -> Role
    ensures { result ≡ spec.role_by types.now tag t.now key }
{
    match key {
        Some(key) => role_behind(&types.elements, tag, &key, last_star(t.stars.as_slice())),
        None => Role::Other,
    }
}

/// What an annotation can make of a declaration: an array or not, the tag of a union or not.
#[tactic(auto, unfolding(crate::specs::Declarations::declared_role))]
pub fn declared_role(types: &Types, array: bool, tag: bool, t: &TypeName) -> Role
    ensures { result ≡ spec.declared_role types.now array tag t.now }
{
    if array {
        return Role::Other;
    }
    role_by(types, tag, t, pointed_key(types, t))
}
