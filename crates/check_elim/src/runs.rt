//! What an inequality implies: one run of neighbours among the facts.
ghost use Rattle.std.specs.Prelude.{◌≡◌, ℕ, Bool, ◌<◌, ◌≤◌, ◌*◌, ◌&&◌, nat_lt, leb, if◌then◌else◌, length, slice_get, false};
ghost use Rattle.check_elim.specs.Bits.{has};
ghost use Rattle.check_elim.specs.Sets.{AreInequalities, gives_in};
ghost use Rattle.check_elim.specs.Runs.{line_implies};
ghost use Rattle.check_elim.specs.Order.{terms_cmp, form_cmp};
ghost use Rattle.std.specs.Ordering.{is_lt};
ghost use Rattle.std.specs.Prelude.{not, ◌==◌};
ghost use Rattle.check_elim.specs.Facts.{implies};

use crate::table::Inequalities;
use crate::words::remove;
use checked_tree::CheckedFn;
use dep_expr::Ineq;
use std::cmp::Ordering;

/// Neighbours among the facts: from the first, up to the last and without it.
#[derive(Clone, Copy)]
pub(crate) struct Run {
    pub(crate) from: usize,
    pub(crate) to: usize,
}

/// The facts with the terms of an inequality and a constant that is at most its own.
pub(crate) fn run_of(f: &CheckedFn, table: &Inequalities, strong: &Ineq) -> Run
    requires { AreInequalities f.now table.now }
    ensures bound { result.to ≤ length table.now.facts.items }
    ensures members { (j : ℕ) → (leb result.from j && nat_lt j result.to) ≡ line_implies strong.now (slice_get table.now.facts.items j) }
{
    let facts = table.facts.as_slice();
    Run {
        from: facts.partition_point(|fact| is_before(fact, strong)),
        to: facts.partition_point(|fact| is_up_to(fact, strong)),
    }
}

/// Takes out of a set of facts what an inequality implies.
pub(crate) fn clear(words: &mut [u64], f: &CheckedFn, table: &Inequalities, strong: &Ineq, run: Run)
    requires table { AreInequalities f.now table.now }
    requires size { length words.old ≡ table.now.size }
    requires bound { run.to ≤ length table.now.facts.items }
    requires run { (j : ℕ) → (leb run.from j && nat_lt j run.to) ≡ line_implies strong.now (slice_get table.now.facts.items j) }
    ensures length { length words.new ≡ length words.old }
    ensures members { (j : ℕ) → has words.new j ≡ (if gives_in strong.now (slice_get table.now.facts.items j) then false else has words.old j) }
{
    match &strong.guard {
        None => clear_run(words, run.from, run.to),
        Some(_) => {
            for number in run.from..run.to {
                remove_if(words, number, is_implied(strong, &table.facts[number]));
            }
        }
    }
}

/// Whether an inequality implies a fact.
fn is_implied(strong: &Ineq, fact: &Ineq) -> bool
    ensures { result ≡ implies strong.now fact.now }
{
    strong.implies(fact)
}

/// Takes a number out of a set, if so.
fn remove_if(words: &mut [u64], number: usize, implied: bool)
    requires { number < 64 * length words.old }
    ensures length { length words.new ≡ length words.old }
    ensures members { (j : ℕ) → has words.new j ≡ (if implied && j == number then false else has words.old j) }
{
    if implied {
        remove(words, number);
    }
}

/// Takes a run of numbers out of a set.
pub(crate) fn clear_run(words: &mut [u64], from: usize, to: usize)
    requires { to ≤ 64 * length words.old }
    ensures length { length words.new ≡ length words.old }
    ensures members { (j : ℕ) → has words.new j ≡ (if leb from j && nat_lt j to then false else has words.old j) }
{
    let mut number = from;
    while number < to {
        if number % 64 == 0 && to - number >= 64 {
            words[number / 64] = 0;
            number += 64;
        } else {
            remove(words, number);
            number += 1;
        }
    }
}

/// Whether the terms of a fact are before those of an inequality.
fn is_before(fact: &Ineq, strong: &Ineq) -> bool
    ensures { result ≡ is_lt (terms_cmp fact.now.left.terms strong.now.left.terms) }
{
    match fact.left.terms().cmp(strong.left.terms()) {
        Ordering::Less => true,
        Ordering::Equal => false,
        Ordering::Greater => false,
    }
}

/// Whether a fact is not behind an inequality, by terms and constant.
fn is_up_to(fact: &Ineq, strong: &Ineq) -> bool
    ensures { result ≡ not (is_lt (form_cmp strong.now.left fact.now.left)) }
{
    match strong.left.terms().cmp(fact.left.terms()) {
        Ordering::Less => false,
        Ordering::Equal => fact.left.constant() <= strong.left.constant(),
        Ordering::Greater => true,
    }
}
