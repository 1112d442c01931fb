//! Division of a merged form by the greatest common divisor of its coefficients.
ghost use Rattle.std.specs.Prelude.{◌≡◌, ◌<◌, ◌≤◌, ◌^◌, pos, int_div, All, length, map, unsigned_abs};
ghost use Rattle.dep_expr.specs.Linear.{LinearForm, IsSmallTerm};
ghost use Rattle.dep_expr.specs.Merged.{AreMerged};
ghost use Rattle.dep_expr.specs.Normed.{gcd, divisor_from, divisor_of, divided_term, quotient_up, reduced};

use crate::terms::{Term, Terms};

/// Divides the terms by the greatest common divisor of their coefficients, and returns the constant divided by it and rounded up.
pub(crate) fn reduce(terms: &mut Terms, constant: i128) -> i128
    requires merged { AreMerged terms.old.items }
    requires coefficients { All IsSmallTerm terms.old.items }
    requires constant { unsigned_abs constant < 2 ^ 100 }
    ensures { record { terms = terms.new.items; constant = result } ≡ reduced constant terms.old.items }
{
    if terms.is_empty() {
        return constant;
    }
    let divisor = common_divisor(terms.as_slice());
    divide(terms.as_mut_slice(), divisor);
    quotient_up(constant, divisor)
}

/// The greatest common divisor of the coefficients.
fn common_divisor(terms: &[Term]) -> u64
    requires some { 0 < length terms.now }
    requires merged { AreMerged terms.now }
    requires coefficients { All IsSmallTerm terms.now }
    ensures value { result ≡ divisor_of terms.now }
    ensures positive { 0 < result }
    ensures small { result < 2 ^ 62 }
{
    let mut divisor = 0;
    for term in terms {
        divisor = gcd(divisor, term.0.unsigned_abs());
    }
    divisor
}

/// The greatest common divisor of two numbers, by Euclid's algorithm.
fn gcd(a: u64, b: u64) -> u64
    ensures { result ≡ gcd a b }
{
    let mut larger = a;
    let mut smaller = b;
    while smaller != 0 {
        let rest = larger % smaller;
        larger = smaller;
        smaller = rest;
    }
    larger
}

/// Divides each coefficient.
fn divide(terms: &mut [Term], by: u64)
    requires positive { 0 < by }
    requires small { by < 2 ^ 62 }
    ensures { terms.new ≡ map (divided_term by) terms.old }
{
    for term in terms.iter_mut() {
        term.0 = quotient(term.0, by);
    }
}

/// The quotient, toward zero.
fn quotient(coefficient: i64, by: u64) -> i64
    requires positive { 0 < by }
    requires small { by < 2 ^ 62 }
    ensures { result ≡ int_div coefficient (pos by) }
{
    coefficient / by as i64
}

/// The quotient, rounded up.
fn quotient_up(constant: i128, by: u64) -> i128
    requires positive { 0 < by }
    requires small { unsigned_abs constant < 2 ^ 100 }
    ensures { result ≡ quotient_up constant by }
{
    let size = constant.unsigned_abs();
    let divisor = u128::from(by);
    if constant > 0 {
        ((size + (divisor - 1)) / divisor) as i128
    } else {
        -((size / divisor) as i128)
    }
}
