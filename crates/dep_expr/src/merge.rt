//! Merging: terms sorted by atom, equal atoms added up, zero coefficients dropped.
ghost use Rattle.std.specs.Prelude.{◌≡◌, ◌<◌, ◌^◌, [], ◌∷◌, ◌++◌, pos, ◌+ℤ◌, All, IfOk, OnOk, unsigned_abs};
ghost use Rattle.std.specs.List.Sorted.{IsPermutation, IsNonDecreasingBy};
ghost use Rattle.dep_expr.specs.Linear.{IsSmallTerm};
ghost use Rattle.dep_expr.specs.Merged.{merged_terms, counted, collapsed};

use crate::terms::{Term, Terms};
use smallvec::SmallVec;
use std::alloc::{AllocError, Global};

/// The terms of the merged form.
pub(crate) fn merge(mut terms: Terms) -> Result<Terms, AllocError>
    requires { All IsSmallTerm (merged_terms terms.items) }
    ensures { IfOk result (λ form. form.items ≡ merged_terms terms.items) }
{
    sort(terms.as_mut_slice());
    collapse(*terms.allocator(), terms.as_slice())
}

/// Orders terms by the numbers of their atoms.
fn sort(terms: &mut [Term])
    ensures permutation { IsPermutation terms.old terms.new }
    ensures order { IsNonDecreasingBy (λ t. t.1) terms.new }
{
    terms.sort_unstable_by_key(|term| term.1);
}

/// Adds up each run of terms with equal atoms, and drops the sums that are 0.
fn collapse(alloc: Global, terms: &[Term]) -> Result<Terms, AllocError>
    requires { All IsSmallTerm (collapsed terms.now) }
    ensures { IfOk result (λ form. form.items ≡ collapsed terms.now) }
{
    let mut form = SmallVec::new(alloc);
    if terms.is_empty() {
        return Ok(form);
    }
    let mut atom = terms[0].1;
    let mut sum: i128 = 0;
    for term in terms {
        if term.1 == atom {
            sum += i128::from(term.0);
            continue;
        }
        push_counted(&mut form, sum, atom)?;
        atom = term.1;
        sum = i128::from(term.0);
    }
    push_counted(&mut form, sum, atom)?;
    Ok(form)
}

/// Appends a term, if its coefficient is not 0.
fn push_counted(to: &mut Terms, coefficient: i128, atom: usize) -> Result<(), AllocError>
    requires { unsigned_abs coefficient < 2 ^ 62 }
    ensures { OnOk result (to.new.items ≡ to.old.items ++ counted (coefficient, atom)) }
{
    if coefficient != 0 {
        to.push((coefficient as i64, atom))?;
    }
    Ok(())
}
