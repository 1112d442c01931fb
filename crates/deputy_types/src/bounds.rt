//! The bounds that a pointer's annotation gives it (Deputy, ESOP 2007).
ghost use Rattle.std.specs.Prelude.{◌≡◌, ◌≤◌, IfOk, IsTrue, option_copied};
ghost use Rattle.deputy_types.specs.Declarations as spec;
ghost use Rattle.deputy_types.specs.Types.{is_count};

use crate::edges::{bound_end, edge_terms, in_bytes, own};
use crate::keys::is_char;
use crate::{Element, Siblings, Unannotated};
use c_tree::{Addr, Annotation, SignedTerm};
use checked_tree::Bounds;
use sd_base::Memory;
use std::alloc::Global;

/// What a pointer points to.
#[derive(Clone, Copy, Debug)]
pub(crate) struct Pointee {
    /// Its type.
    pub key: Element,
    /// The number of that type among the elements.
    pub elem: u32,
    /// The bytes of one, at most 65,536.
    pub size: u32,
}

/// From the pointer itself up to so many elements of this size.
pub fn up_to(alloc: Global, size: u32, n: i64) -> Bounds
    requires size { size ≤ 65536 }
    requires count { IsTrue (is_count n) }
    ensures { result ≡ spec.up_to size n }
{
    let mut hi = own(alloc);
    hi.bytes = in_bytes(size, n);
    Bounds::Within { lo: own(alloc), hi }
}

/// The bounds of a pointer without annotation.
fn default_bounds(alloc: Global, size: u32, plain: Unannotated) -> Bounds
    requires { size ≤ 65536 }
    ensures { result ≡ spec.default_bounds size plain }
{
    match plain {
        Unannotated::Safe => up_to(alloc, size, 1),
        Unannotated::Hidden => Bounds::Hidden,
    }
}

/// The bounds of a `count`. None where a name in it is no number of elements.
fn counted_bounds(
    alloc: Global,
    size: u32,
    siblings: &Siblings,
    terms: &[SignedTerm],
) -> Result<Option<Bounds>, Memory>
    requires { size ≤ 65536 }
    ensures { IfOk result (λ b. b ≡ spec.counted_bounds size siblings.now terms.now) }
{
    match edge_terms(size, siblings, own(alloc), terms)? {
        Some(hi) => Ok(Some(Bounds::Within { lo: own(alloc), hi })),
        None => Ok(None),
    }
}

/// Both ends of a `bound`. None where one of them is none.
#[tactic(auto, unfolding(crate::specs::Declarations::both_ends))]
fn both_ends(
    alloc: Global,
    to: &Pointee,
    siblings: &Siblings,
    place: u32,
    lo: &Addr,
    hi: &Addr,
) -> Result<Option<Bounds>, Memory>
    requires { to.now.size ≤ 65536 }
    ensures { IfOk result (λ b. b ≡ spec.both_ends to.now.size siblings.now place to.now.elem lo.now hi.now) }
{
    match bound_end(alloc, to.size, siblings, place, to.elem, lo)? {
        Some(low) => match bound_end(alloc, to.size, siblings, place, to.elem, hi)? {
            Some(high) => Ok(Some(Bounds::Within { lo: low, hi: high })),
            None => Ok(None),
        },
        None => Ok(None),
    }
}

/// The bounds that an annotation gives the pointer that is the sibling at `place`. None where it stands against a rule: `nullterm` on what is no text, or a
/// name that is no sibling of the right kind.
#[tactic(auto, unfolding(crate::specs::Declarations::annotated_bounds))]
fn annotated_bounds(
    alloc: Global,
    to: &Pointee,
    siblings: &Siblings,
    place: u32,
    annotation: &Annotation,
) -> Result<Option<Bounds>, Memory>
    requires { to.now.size ≤ 65536 }
    ensures { IfOk result (λ b. b ≡ spec.annotated_bounds to.now.size siblings.now place to.now.elem to.now.key annotation.now) }
{
    match annotation {
        Annotation::Safe => Ok(Some(up_to(alloc, to.size, 1))),
        Annotation::Sentinel => Ok(Some(up_to(alloc, to.size, 0))),
        Annotation::Nullterm => {
            if is_char(&to.key) {
                Ok(Some(Bounds::Nullterm))
            } else {
                Ok(None)
            }
        }
        Annotation::Count(sum) => counted_bounds(alloc, to.size, siblings, sum.terms.as_slice()),
        Annotation::Bound(lo, hi) => both_ends(alloc, to, siblings, place, lo, hi),
    }
}

/// The same, by default where there is no annotation.
pub(crate) fn star_bounds(
    alloc: Global,
    to: &Pointee,
    plain: Unannotated,
    siblings: &Siblings,
    place: u32,
    annotation: Option<&Annotation>,
) -> Result<Option<Bounds>, Memory>
    requires { to.now.size ≤ 65536 }
    ensures { IfOk result (λ b. b ≡ spec.star_bounds to.now.size plain siblings.now place to.now.elem to.now.key (option_copied annotation.entry)) }
{
    match annotation {
        Some(note) => annotated_bounds(alloc, to, siblings, place, note),
        None => Ok(Some(default_bounds(alloc, to.size, plain))),
    }
}
