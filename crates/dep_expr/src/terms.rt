//! The terms of a linear form, as the other files work on them: comparison, multiples, values.
ghost use Rattle.std.specs.Prelude.{◌≡◌, ◌+◌, ◌<◌, ◌≤◌, ◌^◌, ◌↔◌, ◌++◌, ◌+ℤ◌, ◌*ℤ◌, ◌≤ℤ◌, neg_ℤ, pos, map, length, IsTrue, All, OnOk, unsigned_abs};
ghost use Rattle.dep_expr.specs.Linear.{IsSmallTerm, AreWords, numbers_at, scaled_term, terms_value};

use smallvec::SmallVec;
use std::alloc::AllocError;

/// A coefficient and the number of its atom.
pub(crate) type Term = (i64, usize);

/// Terms, of which up to four lie in place.
pub(crate) type Terms = SmallVec<Term, 4>;

/// Whether two lists have equal terms in the same order.
pub(crate) fn is_same(left: &[Term], right: &[Term]) -> bool
    ensures { IsTrue result ↔ (left.now ≡ right.now) }
{
    left == right
}

/// A coefficient times the number of its atom.
fn product(coefficient: i64, number: i64) -> i128
    requires small { unsigned_abs coefficient < 2 ^ 62 }
    requires word { unsigned_abs number < 2 ^ 33 }
    ensures value { result ≡ coefficient *ℤ number }
    ensures low { neg_ℤ (pos (2 ^ 95)) ≤ℤ result }
    ensures high { result ≤ℤ pos (2 ^ 95) }
{
    i128::from(coefficient) * i128::from(number)
}

/// A coefficient times a number, where the product is a coefficient too.
fn scaled_coefficient(coefficient: i64, by: i64) -> i64
    requires { unsigned_abs (coefficient *ℤ by) < 2 ^ 62 }
    ensures { result ≡ coefficient *ℤ by }
{
    coefficient * by
}

/// The sum of a constant and a multiple of another.
pub(crate) fn sum_with_multiple(constant: i128, other: i128, by: i64) -> i128
    requires before { unsigned_abs constant < 2 ^ 100 }
    requires after { unsigned_abs (constant +ℤ (other *ℤ by)) < 2 ^ 100 }
    ensures { result ≡ constant +ℤ (other *ℤ by) }
{
    constant + other * i128::from(by)
}

/// Appends each term with its coefficient times `by`. After an `Err` some may be there.
pub(crate) fn append_scaled(to: &mut Terms, terms: &[Term], by: i64) -> Result<(), AllocError>
    requires { All IsSmallTerm (map (scaled_term by) terms.now) }
    ensures { OnOk result (to.new.items ≡ to.old.items ++ map (scaled_term by) terms.now) }
{
    for term in terms {
        let (coefficient, atom) = *term;
        to.push((scaled_coefficient(coefficient, by), atom))?;
    }
    Ok(())
}

/// The value of the terms, where atom `a` has the number `at[a]`, plus `constant`.
pub(crate) fn value_plus(terms: &[Term], at: &[i64], constant: i128) -> i128
    requires places { All (λ t. t.1 < length at.now) terms.now }
    requires words { AreWords at.now }
    requires few { length terms.now ≤ 65536 }
    requires coefficients { All IsSmallTerm terms.now }
    requires constant { unsigned_abs constant < 2 ^ 100 }
    ensures { result ≡ terms_value terms.now (numbers_at at.now) +ℤ constant }
{
    let mut sum = constant;
    for term in terms {
        let (coefficient, atom) = *term;
        sum += product(coefficient, at[atom]);
    }
    sum
}
