//! Edges: the sides of a pointer's bounds, as its annotation gives them, in bytes.
ghost use Rattle.std.specs.Prelude.{◌≡◌, ◌≤◌, ◌+ℤ◌, [], IfOk, IsTrue, None, Some, option_copied, pos};
ghost use Rattle.deputy_types.specs.Declarations as spec;
ghost use Rattle.deputy_types.specs.Types.{is_count};

use crate::keys::signed_number;
use crate::{Role, Siblings};
use c_tree::{Addr, SignedTerm, Term};
use checked_tree::Edge;
use sd_base::{Memory, Name};
use sqlite_items::Items;
use std::alloc::Global;

/// No constant that a text has between two signs passes this: 1,000 numbers below 2^32 of elements of at most 65,536 bytes.
const GREATEST_CONSTANT: i64 = 1_152_921_504_606_846_976;

/// The pointer itself.
pub(crate) fn own(alloc: Global) -> Edge
    ensures { result ≡ spec.own }
{
    Edge {
        base: None,
        terms: Items::new(alloc),
        bytes: 0,
    }
}

/// A number of elements of this size in bytes.
pub(crate) fn in_bytes(size: u32, n: i64) -> i64
    requires size { size ≤ 65536 }
    requires count { IsTrue (is_count n) }
    ensures { result ≡ spec.in_bytes size n }
{
    n * (size as i64)
}

/// The sum of two constants, where it is one that a text can have.
fn moved(bytes: i64, by: i64) -> Option<i64>
    ensures { result ≡ spec.if_small (bytes +ℤ by) }
{
    let sum = bytes.checked_add(by)?;
    if -GREATEST_CONSTANT <= sum && sum <= GREATEST_CONSTANT {
        Some(sum)
    } else {
        None
    }
}

/// A side with so many more elements of this size. None where its constant is none that a text can have.
#[tactic(auto, unfolding(crate::specs::Declarations::with_number))]
fn with_number(size: u32, mut e: Edge, n: i64) -> Option<Edge>
    requires size { size ≤ 65536 }
    requires count { IsTrue (is_count n) }
    ensures { result ≡ spec.with_number size e n }
{
    match moved(e.bytes, in_bytes(size, n)) {
        Some(bytes) => {
            e.bytes = bytes;
            Some(e)
        }
        None => None,
    }
}

/// A side with a sibling times a number of elements of this size more.
#[tactic(auto, unfolding(crate::specs::Declarations::with_term))]
fn with_term(size: u32, mut e: Edge, times: i64, k: u32) -> Result<Edge, Memory>
    requires size { size ≤ 65536 }
    requires count { IsTrue (is_count times) }
    ensures { IfOk result (λ more. more ≡ spec.with_term size e times k) }
{
    e.terms.push((in_bytes(size, times), k))?;
    Ok(e)
}

/// The number of a sibling that is a number of elements.
fn integer_at(k: u32, role: Role) -> Option<u32>
    ensures { result ≡ spec.integer_at k role }
{
    match role {
        Role::Integer => Some(k),
        Role::Tag | Role::Pointer(_) | Role::Other => None,
    }
}

/// The number of a sibling by name, where it is a number of elements.
#[tactic(auto, unfolding(crate::specs::Declarations::integer_number))]
fn integer_number(siblings: &Siblings, name: &Name) -> Option<u32>
    ensures { result ≡ spec.integer_number siblings.now name.now }
{
    let k = siblings.number(name)?;
    let role = siblings.role(k)?;
    integer_at(k, role)
}

/// The number of a sibling that is another pointer to such elements than the one at `place`.
fn pointer_at(place: u32, elem: u32, k: u32, role: Role) -> Option<u32>
    ensures { result ≡ spec.pointer_at place elem k role }
{
    match role {
        Role::Pointer(n) => {
            if n == elem && k != place {
                Some(k)
            } else {
                None
            }
        }
        Role::Integer | Role::Tag | Role::Other => None,
    }
}

/// The number of a sibling by name, where it is another pointer to such elements than the one at `place`.
#[tactic(auto, unfolding(crate::specs::Declarations::pointer_number))]
fn pointer_number(siblings: &Siblings, place: u32, elem: u32, name: &Name) -> Option<u32>
    ensures { result ≡ spec.pointer_number siblings.now place elem name.now }
{
    let k = siblings.number(name)?;
    let role = siblings.role(k)?;
    pointer_at(place, elem, k, role)
}

/// A side with a number times the sibling of this name more. None where that is no number of elements.
fn edge_named(
    size: u32,
    siblings: &Siblings,
    e: Edge,
    times: i64,
    name: &Name,
) -> Result<Option<Edge>, Memory>
    requires size { size ≤ 65536 }
    requires count { IsTrue (is_count times) }
    ensures { IfOk result (λ more. more ≡ spec.edge_named size siblings.now e times name.now) }
{
    match integer_number(siblings, name) {
        Some(k) => Ok(Some(with_term(size, e, times, k)?)),
        None => Ok(None),
    }
}

/// A side with one more term, with `-` before it or not.
fn edge_with(
    size: u32,
    siblings: &Siblings,
    e: Edge,
    negative: bool,
    term: &Term,
) -> Result<Option<Edge>, Memory>
    requires size { size ≤ 65536 }
    ensures { IfOk result (λ more. more ≡ spec.edge_with size siblings.now e negative term.now) }
{
    match term {
        Term::Number(n) => Ok(with_number(size, e, signed_number(negative, n.value))),
        Term::Name(name) => edge_named(size, siblings, e, signed_number(negative, 1), name),
        Term::Product(n, name) => edge_named(
            size,
            siblings,
            e,
            signed_number(negative, n.value),
            name,
        ),
    }
}

/// A side with one more term.
#[tactic(auto, unfolding(crate::specs::Declarations::edge_term))]
fn edge_term(
    size: u32,
    siblings: &Siblings,
    e: Edge,
    t: &SignedTerm,
) -> Result<Option<Edge>, Memory>
    requires size { size ≤ 65536 }
    ensures { IfOk result (λ more. more ≡ spec.edge_term size siblings.now e t.now) }
{
    edge_with(size, siblings, e, t.negative, &t.term)
}

/// A side with more terms. None where a name in them is no number of elements.
pub(crate) fn edge_terms(
    size: u32,
    siblings: &Siblings,
    e: Edge,
    terms: &[SignedTerm],
) -> Result<Option<Edge>, Memory>
    requires size { size ≤ 65536 }
    ensures { IfOk result (λ more. more ≡ spec.edge_terms size siblings.now e terms.now) }
{
    let mut edge = e;
    for term in terms {
        match edge_term(size, siblings, edge, term)? {
            Some(more) => edge = more,
            None => return Ok(None),
        }
    }
    Ok(Some(edge))
}

/// A side with a term, where there is one.
fn edge_offset(
    size: u32,
    siblings: &Siblings,
    e: Edge,
    offset: Option<&SignedTerm>,
) -> Result<Option<Edge>, Memory>
    requires size { size ≤ 65536 }
    ensures { IfOk result (λ more. more ≡ spec.edge_offset size siblings.now e (option_copied offset.entry)) }
{
    match offset {
        Some(t) => edge_term(size, siblings, e, t),
        None => Ok(Some(e)),
    }
}

/// The sibling pointer with this number.
fn based(alloc: Global, k: u32) -> Edge
    ensures { result ≡ record { base = Some k; terms = []; bytes = pos 0 } }
{
    Edge {
        base: Some(k),
        terms: Items::new(alloc),
        bytes: 0,
    }
}

/// The end of a `bound`: a sibling pointer, and a term. None where the name is no other pointer to such elements, or the term names no number of them.
#[tactic(auto, unfolding(crate::specs::Declarations::bound_end))]
pub(crate) fn bound_end(
    alloc: Global,
    size: u32,
    siblings: &Siblings,
    place: u32,
    elem: u32,
    a: &Addr,
) -> Result<Option<Edge>, Memory>
    requires size { size ≤ 65536 }
    ensures { IfOk result (λ e. e ≡ spec.bound_end size siblings.now place elem a.now) }
{
    match pointer_number(siblings, place, elem, &a.pointer) {
        Some(k) => edge_offset(size, siblings, based(alloc, k), a.offset.as_ref()),
        None => Ok(None),
    }
}
