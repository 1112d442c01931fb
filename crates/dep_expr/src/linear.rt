//! `Lin`, a linear form: a sum of atoms with whole coefficients, plus a constant.
ghost use Rattle.std.specs.Prelude.{◌≡◌, ℕ, ◌<◌, ◌≤◌, ◌^◌, ◌↔◌, [], pos, ◌+ℤ◌, ◌*ℤ◌, ◌≤ℤ◌, length, unsigned_abs, IsTrue, All, IfOk, OnOk};
ghost use Rattle.dep_expr.specs.Linear.{LinearForm, Assignment, IsSmall, IsSmallThroughout, AreWords, number_form, term_form, numbers_at, with_number, value_of, plus, scaled, substituted, part_of};
ghost use Rattle.dep_expr.specs.Merged.{AreMerged, merged};
ghost use Rattle.dep_expr.specs.Normed.{normed};

use crate::divide::reduce;
use crate::merge::merge;
use crate::terms::{Term, Terms, append_scaled, is_same, sum_with_multiple, value_plus};
use smallvec::SmallVec;
use std::alloc::{AllocError, Global};
use std::marker::Model;

/// A linear form over atoms: terms, each a coefficient and the number of an atom, and a constant.
///
/// A contract sees the list of the terms and the constant. Up to four terms lie in place, and more in an allocation.
#[derive(Debug, Drop)]
pub struct Lin {
    terms: Terms,
    constant: i128,
}

impl Model for Lin {
    ghost use Rattle.dep_expr.specs.Linear.{LinearForm};

    ghost Value = { LinearForm };

    ghost view = { λ l. record { terms = l.terms.items; constant = l.constant } };
}

impl Lin {
    /// The form of the number `c` alone.
    pub fn number(alloc: Global, c: i128) -> Lin
        ensures { result ≡ number_form c }
    {
        Lin {
            terms: SmallVec::new(alloc),
            constant: c,
        }
    }

    /// The form of one atom, with the coefficient 1.
    pub fn atom(alloc: Global, a: usize) -> Lin
        ensures { result ≡ term_form (pos 1, a) }
    {
        let mut terms = SmallVec::new(alloc);
        terms.push_reserved((1, a));
        Lin { terms, constant: 0 }
    }

    /// Adds `by` times the atom `a`, as the last term. The only refusal is want of memory.
    pub fn add_atom(&mut self, by: i64, a: usize) -> Result<(), AllocError>
        ensures { OnOk result (self.new ≡ plus self.old (term_form (by, a))) }
    {
        self.terms.push((by, a))?;
        Ok(())
    }

    /// Adds the number `c`.
    pub fn add_number(&mut self, c: i128)
        requires { unsigned_abs (self.old.constant +ℤ c) < 2 ^ 100 }
        ensures { self.new ≡ plus self.old (number_form c) }
    {
        self.constant += c;
    }

    /// The sum: the terms of `other` after those of `self`, and the sum of the constants. The only refusal is want of memory.
    pub fn plus(&self, other: &Lin) -> Result<Lin, AllocError>
        requires { IsSmall (plus self.now other.now) }
        ensures form { IfOk result (λ sum. sum ≡ plus self.now other.now) }
        ensures value { IfOk result
            (λ sum. (at : Assignment) → value_of sum at ≡ value_of self.now at +ℤ value_of other.now at) }
    {
        let mut terms = self.copied_terms()?;
        terms.extend_from_slice(other.terms.as_slice())?;
        Ok(Lin {
            terms,
            constant: self.constant + other.constant,
        })
    }

    /// The multiple: each coefficient and the constant times `by`. The only refusal is want of memory.
    pub fn scaled(&self, by: i64) -> Result<Lin, AllocError>
        requires { IsSmall (scaled self.now by) }
        ensures form { IfOk result (λ multiple. multiple ≡ scaled self.now by) }
        ensures value { IfOk result
            (λ multiple. (at : Assignment) → value_of multiple at ≡ value_of self.now at *ℤ by) }
    {
        let mut terms = SmallVec::new(*self.terms.allocator());
        append_scaled(&mut terms, self.terms.as_slice(), by)?;
        Ok(Lin {
            terms,
            constant: self.constant * i128::from(by),
        })
    }

    /// The form with `by` in the place of the atom `a`: each term of `a` gives way to the terms of `by` times its coefficient, and the
    /// constant of `by` times it is added. The only refusal is want of memory.
    pub fn substitute(&self, a: usize, by: &Lin) -> Result<Lin, AllocError>
        requires { IsSmallThroughout self.now a by.now }
        ensures form { IfOk result (λ form. form ≡ substituted self.now a by.now) }
        ensures value { IfOk result
            (λ form. (at : Assignment) → value_of form at ≡ value_of self.now (with_number at a (value_of by.now at))) }
    {
        let mut sum = Lin::number(*self.terms.allocator(), self.constant);
        for term in self.terms.as_slice() {
            sum.add_part(a, by, *term)?;
        }
        Ok(sum)
    }

    /// The merged form: equal atoms merged, zero coefficients dropped, atoms in order. The only refusal is want of memory.
    pub fn merged(&self) -> Result<Lin, AllocError>
        requires { IsSmall (merged self.now) }
        ensures form { IfOk result (λ form. form ≡ merged self.now) }
        ensures order { IfOk result (λ form. AreMerged form.terms) }
        ensures value { IfOk result (λ form. (at : Assignment) → value_of form at ≡ value_of self.now at) }
    {
        Ok(Lin {
            terms: merge(self.copied_terms()?)?,
            constant: self.constant,
        })
    }

    /// The merged form, divided by the greatest common divisor of its coefficients, the constant rounded up. As the left side of an
    /// inequality it has the same solutions in whole numbers. A number alone stays as it is. The only refusal is want of memory.
    pub fn norm(&self) -> Result<Lin, AllocError>
        requires { IsSmall (merged self.now) }
        ensures form { IfOk result (λ form. form ≡ normed self.now) }
        ensures solutions { IfOk result
            (λ form. (at : Assignment) → (value_of form at ≤ℤ pos 0) ↔ (value_of self.now at ≤ℤ pos 0)) }
    {
        let mut form = self.merged()?;
        form.constant = reduce(&mut form.terms, form.constant);
        Ok(form)
    }

    /// The value where each atom `a` has the number `at[a]`: the sum of the coefficients times these numbers, plus the constant.
    #[tactic(auto, unfolding(crate::specs::Linear::value_of))]
    pub fn value(&self, at: &[i64]) -> i128
        requires places { All (λ t. t.1 < length at.now) self.now.terms }
        requires words { AreWords at.now }
        requires few { length self.now.terms ≤ 65536 }
        requires small { IsSmall self.now }
        ensures { result ≡ value_of self.now (numbers_at at.now) }
    {
        value_plus(self.terms.as_slice(), at, self.constant)
    }

    /// The terms: coefficients with the numbers of their atoms.
    pub fn terms(&self) -> &[(i64, usize)]
        ensures { result.now ≡ self.now.terms }
    {
        self.terms.as_slice()
    }

    /// The constant.
    pub fn constant(&self) -> i128
        ensures { result ≡ self.now.constant }
    {
        self.constant
    }

    /// Whether both have equal terms in the same order, and equal constants.
    pub(crate) fn is_same(&self, other: &Lin) -> bool
        ensures { IsTrue result ↔ (self.now ≡ other.now) }
    {
        self.constant == other.constant && is_same(self.terms.as_slice(), other.terms.as_slice())
    }

    /// A copy of the terms.
    fn copied_terms(&self) -> Result<Terms, AllocError>
        ensures { IfOk result (λ terms. terms.items ≡ self.now.terms) }
    {
        SmallVec::from_slice(*self.terms.allocator(), self.terms.as_slice())
    }

    /// Adds what stands for `term` where `by` is put in the place of the atom `a`.
    fn add_part(&mut self, a: usize, by: &Lin, term: Term) -> Result<(), AllocError>
        requires before { IsSmall self.old }
        requires after { IsSmall (plus self.old (part_of a by.now term)) }
        ensures { OnOk result (self.new ≡ plus self.old (part_of a by.now term)) }
    {
        let (coefficient, atom) = term;
        if atom == a {
            append_scaled(&mut self.terms, by.terms.as_slice(), coefficient)?;
            self.constant = sum_with_multiple(self.constant, by.constant, coefficient);
        } else {
            self.terms.push(term)?;
        }
        Ok(())
    }
}
