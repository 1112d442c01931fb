//! `Ineq`, an inequality that a run-time check tests, and implication between two of them.
ghost use Rattle.std.specs.Prelude.{◌↔◌, IsTrue, option_copied};
ghost use Rattle.dep_expr.specs.Linear.{Assignment};
ghost use Rattle.dep_expr.specs.Inequality.{Satisfies, Implies, IsNoWeaker};

use crate::linear::Lin;
use crate::terms::is_same;

/// An inequality: `left` is at most 0, or, where a guard is there, the guard is 0 or `left` is at most 0.
#[derive(Debug, Drop)]
pub struct Ineq {
    pub left: Lin,
    pub guard: Option<Lin>,
}

impl Ineq {
    ghost use Rattle.dep_expr.specs.Inequality.{Satisfies, Implies};

    /// Whether `self` implies `other` by their forms: the terms are equal, the constant of `self` is at least that of `other`, and `self`
    /// has no guard or the same guard. For normed left sides and merged guards. Takes no memory.
    pub fn implies(&self, other: &Ineq) -> bool
        ensures form { IsTrue result ↔ Implies self.now other.now }
        ensures solutions { IsTrue result → (at : Assignment) → Satisfies at self.now → Satisfies at other.now }
    {
        self.left.constant() >= other.left.constant()
            && is_same(self.left.terms(), other.left.terms())
            && is_no_weaker(self.guard.as_ref(), other.guard.as_ref())
    }
}

/// Whether the first guard is none, or the same as the second.
fn is_no_weaker(strong: Option<&Lin>, weak: Option<&Lin>) -> bool
    ensures { IsTrue result ↔ IsNoWeaker (option_copied strong.entry) (option_copied weak.entry) }
{
    match (strong, weak) {
        (None, _) => true,
        (Some(_), None) => false,
        (Some(strong), Some(weak)) => strong.is_same(weak),
    }
}
