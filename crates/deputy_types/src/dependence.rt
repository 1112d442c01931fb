//! Which siblings the bounds of a pointer name.
ghost use Rattle.std.specs.Prelude.{◌≡◌, ◌==◌, option_copied};
ghost use Rattle.std.specs.List.{list_any};
ghost use Rattle.deputy_types.specs.Table as table;

use checked_tree::{Bounds, Edge, Member, Shape, UnionShape};

/// Whether one of these unions has this member as its tag.
pub(crate) fn are_tagged_by(unions: &[UnionShape], member: u32) -> bool
    ensures { result ≡ list_any (λ u. u.tag == member) unions.now }
{
    unions.iter().any(|union| union.tag == member)
}

/// Whether an annotation of one of these members names the sibling.
pub(crate) fn any_names(members: &[Member], sibling: u32) -> bool
    ensures { result ≡ list_any (λ x. table.shape_names sibling x.shape) members.now }
{
    members
        .iter()
        .any(|member| shape_names(sibling, &member.shape))
}

/// Whether the bounds of a shape name the sibling.
#[tactic(auto, unfolding(crate::specs::Table::shape_names))]
pub fn shape_names(sibling: u32, shape: &Shape) -> bool
    ensures { result ≡ table.shape_names sibling shape.now }
{
    match shape {
        Shape::Pointer { bounds, .. } => bounds_name(sibling, bounds),
        Shape::Int(_) => false,
        Shape::Struct(_) => false,
        Shape::Address => false,
    }
}

/// Whether bounds name the sibling.
pub fn bounds_name(sibling: u32, bounds: &Bounds) -> bool
    ensures { result ≡ table.bounds_name sibling bounds.now }
{
    match bounds {
        Bounds::Within { lo, hi } => edge_names(sibling, lo) || edge_names(sibling, hi),
        Bounds::Hidden => false,
        Bounds::Nullterm => false,
    }
}

/// Whether one side of bounds names the sibling.
fn edge_names(sibling: u32, edge: &Edge) -> bool
    ensures { result ≡ table.edge_names sibling edge.now }
{
    is_base(sibling, edge.base) || any_term_names(edge.terms.as_slice(), sibling)
}

/// Whether a side of bounds begins at the sibling.
fn is_base(sibling: u32, base: Option<u32>) -> bool
    ensures { result ≡ table.is_base sibling base }
{
    match base {
        Some(first) => first == sibling,
        None => false,
    }
}

/// Whether a term is a number times the sibling.
fn any_term_names(terms: &[(i64, u32)], sibling: u32) -> bool
    ensures { result ≡ list_any (λ x. x.1 == sibling) terms.now }
{
    terms.iter().any(|term| term.1 == sibling)
}

/// Whether the bounds of a shape name any sibling.
#[tactic(auto, unfolding(crate::specs::Table::has_names))]
pub fn has_names(shape: &Shape) -> bool
    ensures { result ≡ table.has_names shape.now }
{
    match shape {
        Shape::Pointer { bounds, .. } => bounds_have_names(bounds),
        Shape::Int(_) => false,
        Shape::Struct(_) => false,
        Shape::Address => false,
    }
}

/// Whether bounds name any sibling.
fn bounds_have_names(bounds: &Bounds) -> bool
    ensures { result ≡ table.bounds_have_names bounds.now }
{
    match bounds {
        Bounds::Within { lo, hi } => edge_has_names(lo) || edge_has_names(hi),
        Bounds::Hidden => false,
        Bounds::Nullterm => false,
    }
}

/// Whether one side of bounds names any sibling.
fn edge_has_names(edge: &Edge) -> bool
    ensures { result ≡ table.edge_has_names edge.now }
{
    edge.base.is_some() || has_terms(edge.terms.as_slice())
}

/// Whether there are terms.
fn has_terms(terms: &[(i64, u32)]) -> bool
    ensures { result ≡ table.has_terms terms.now }
{
    match terms {
        [] => false,
        [_, ..] => true,
    }
}
