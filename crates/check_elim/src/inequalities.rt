//! The table of inequalities of a function.
ghost use Rattle.std.specs.Prelude.{◌≡◌, ℕ, false, ◌≤◌, ◌<◌, ◌*◌, ◌++◌, true, Some, None, IfOk, OnOk, Contains, length, map, slice_get, option_copied, MatchOption};
ghost use Rattle.std.specs.Ordering.{is_lt};
ghost use Rattle.std.specs.List.Sorted.{IsPermutation};
ghost use Rattle.dep_expr.specs.declared.inequality.Ineq.{Ineq as Inequality};
ghost use Rattle.checked_tree.specs.Redundant.{cond_inequality, slots_of as slots_spoken};
ghost use Rattle.checked_tree.specs.Redundant as spec;
ghost use Rattle.check_elim.specs.Bits.{has};
ghost use Rattle.check_elim.specs.Order.{form_cmp, guard_cmp, fact_cmp};
ghost use Rattle.check_elim.specs.Sets.{AreInequalities, IsOwn, IsMask, mask_at};
ghost use Rattle.check_elim.specs.Tables.{IsSmallCond, HasSmallChecks, fact_list, found, AreSorted, IsCheckFact, paired, pairs_from, has_pair};

use crate::locals::{is_over_locals, slots_of};
use crate::table::{CheckFact, Inequalities};
use crate::words::insert;
use checked_tree::{Check, CheckedFn, Cond};
use dep_expr::{Ineq, Lin};
use sqlite_items::at;
use std::alloc::{AllocError, Global};
use std::cmp::Ordering;

/// The inequality of a check as inequalities are compared, if it is one. The only refusal is want of memory.
#[tactic(auto, unfolding(checked_tree::specs::Redundant::comparable))]
fn inequality_of(check: &Check) -> Result<Option<Ineq>, AllocError>
    requires { IsSmallCond check.now.cond }
    ensures { IfOk result (λ i. i ≡ cond_inequality check.now.cond) }
{
    match &check.cond {
        Cond::Le(i) => {
            let left = i.left.norm()?;
            match &i.guard {
                None => Ok(Some(Ineq { left, guard: None })),
                Some(guard) => {
                    let guard = guard.merged()?;
                    Ok(Some(Ineq {
                        left,
                        guard: Some(guard),
                    }))
                }
            }
        }
        Cond::Aligned {
            gap: _,
            size: _,
            guard: _,
        } => Ok(None),
        Cond::NonZero(_) => Ok(None),
        Cond::Equal(_, _) => Ok(None),
        Cond::Term { at: _, new: _ } => Ok(None),
        Cond::Kept {
            tag: _,
            new: _,
            at: _,
            size: _,
        } => Ok(None),
    }
}

/// Appends the inequality of a check, if it is one over locals. The only refusal is want of memory.
fn add_fact(f: &CheckedFn, check: &Check, facts: &mut Vec<Ineq>) -> Result<(), AllocError>
    requires { IsSmallCond check.now.cond }
    ensures { OnOk result (facts.new.items ≡ facts.old.items ++ fact_list f.now check.now) }
{
    match inequality_of(check)? {
        None => Ok(()),
        Some(i) => {
            if is_over_locals(f, &i) {
                facts.push(i)?;
            }
            Ok(())
        }
    }
}

/// The inequalities over locals of the checks of a function. The only refusal is want of memory.
fn facts_of(alloc: Global, f: &CheckedFn) -> Result<Vec<Ineq>, AllocError>
    requires { HasSmallChecks f.now }
    ensures { IfOk result (λ facts. facts.items ≡ found f.now f.now.checks) }
{
    let mut facts = Vec::new(alloc);
    let checks = f.checks.as_slice();
    for check in checks {
        add_fact(f, check, &mut facts)?;
    }
    Ok(facts)
}

/// How two forms stand in the order of facts.
fn form_order(a: &Lin, b: &Lin) -> Ordering
    ensures { result ≡ form_cmp a.now b.now }
{
    a.terms()
        .cmp(b.terms())
        .then(a.constant().cmp(&b.constant()))
}

/// How two guards stand in the order of facts.
fn guard_order(a: Option<&Lin>, b: Option<&Lin>) -> Ordering
    ensures { result ≡ guard_cmp (option_copied a.entry) (option_copied b.entry) }
{
    match (a, b) {
        (None, None) => Ordering::Equal,
        (None, Some(_)) => Ordering::Less,
        (Some(_), None) => Ordering::Greater,
        (Some(a), Some(b)) => form_order(a, b),
    }
}

/// How two facts stand in order.
#[tactic(auto, unfolding(crate::specs::Order::fact_cmp))]
fn fact_order(a: &Ineq, b: &Ineq) -> Ordering
    ensures { result ≡ fact_cmp a.now b.now }
{
    form_order(&a.left, &b.left).then(guard_order(a.guard.as_ref(), b.guard.as_ref()))
}

/// Whether the first of two facts is before the second.
fn is_before(a: &Ineq, b: &Ineq) -> bool
    ensures { result ≡ is_lt (fact_cmp a.now b.now) }
{
    match fact_order(a, b) {
        Ordering::Less => true,
        Ordering::Equal => false,
        Ordering::Greater => false,
    }
}

/// Puts facts in order.
fn sort(facts: &mut [Ineq])
    ensures permutation { IsPermutation facts.old facts.new }
    ensures order { AreSorted facts.new }
{
    facts.sort_unstable_by(|a, b| fact_order(a, b));
}

/// The place of an inequality among facts in order, if it stands there.
fn place_of(facts: &[Ineq], i: &Ineq) -> Option<usize>
    requires { AreSorted facts.now }
    ensures { MatchOption result (Contains facts.now i.now → ⊥) (λ place. (place < length facts.now) × (slice_get facts.now place ≡ Some i.now)) }
{
    let place = facts.partition_point(|fact| is_before(fact, i));
    match at(facts, place) {
        None => None,
        Some(fact) => {
            if is_before(i, fact) {
                None
            } else {
                Some(place)
            }
        }
    }
}

/// The place of an inequality among the facts, if it is over locals.
fn own_place(f: &CheckedFn, facts: &[Ineq], i: &Ineq) -> Option<usize>
    requires order { AreSorted facts.now }
    requires all { spec.is_over_locals f.now i.now ≡ true → Contains facts.now i.now }
    ensures { IsOwn f.now facts.now (Some i.now) result }
{
    if is_over_locals(f, i) {
        place_of(facts, i)
    } else {
        None
    }
}

/// What the table says of a check. The only refusal is want of memory.
#[tactic(auto, unfolding(crate::specs::Tables::IsCheckFact))]
fn check_fact(f: &CheckedFn, facts: &[Ineq], check: &Check) -> Result<CheckFact, AllocError>
    requires small { IsSmallCond check.now.cond }
    requires order { AreSorted facts.now }
    requires all { (i : Inequality) → cond_inequality check.now.cond ≡ Some i → spec.is_over_locals f.now i ≡ true → Contains facts.now i }
    ensures { IfOk result (λ x. IsCheckFact f.now facts.now check.now x) }
{
    match inequality_of(check)? {
        None => Ok(CheckFact {
            inequality: None,
            own: None,
        }),
        Some(i) => {
            let own = own_place(f, facts, &i);
            Ok(CheckFact {
                inequality: Some(i),
                own,
            })
        }
    }
}

/// What the table says of each check. The only refusal is want of memory.
fn check_facts(alloc: Global, f: &CheckedFn, facts: &[Ineq]) -> Result<Vec<CheckFact>, AllocError>
    requires small { HasSmallChecks f.now }
    requires order { AreSorted facts.now }
    requires all { (i : Inequality) → Contains (found f.now f.now.checks) i → Contains facts.now i }
    ensures count { IfOk result (λ xs. length xs.items ≡ length f.now.checks) }
    ensures each { IfOk result (λ xs. (place : ℕ) (c : Check) (x : CheckFact) → slice_get f.now.checks place ≡ Some c → slice_get xs.items place ≡ Some x → IsCheckFact f.now facts.now c x) }
{
    let mut all = Vec::new(alloc);
    let checks = f.checks.as_slice();
    for check in checks {
        let fact = check_fact(f, facts, check)?;
        all.push(fact)?;
    }
    Ok(all)
}

/// Appends a pair for each slot. The only refusal is want of memory.
fn add_pairs(slots: &[u32], number: usize, pairs: &mut Vec<(u32, usize)>) -> Result<(), AllocError>
    ensures { OnOk result (pairs.new.items ≡ pairs.old.items ++ map (paired number) slots.now) }
{
    for slot in slots {
        pairs.push((*slot, number))?;
    }
    Ok(())
}

/// The slots that facts speak of, each with the fact's number. The only refusal is want of memory.
fn pairs_of(alloc: Global, f: &CheckedFn, facts: &[Ineq]) -> Result<Vec<(u32, usize)>, AllocError>
    ensures { IfOk result (λ pairs. pairs.items ≡ pairs_from f.now 0 facts.now) }
{
    let mut pairs = Vec::new(alloc);
    for number in 0..facts.len() {
        let slots = slots_of(alloc, f, &facts[number])?;
        add_pairs(slots.as_slice(), number, &mut pairs)?;
    }
    Ok(pairs)
}

/// A number that is above each slot of these pairs.
fn slots_end(pairs: &[(u32, usize)]) -> usize
    ensures { (slot j : ℕ) → result ≤ slot → has_pair slot j pairs.now ≡ false }
{
    let mut end = 0;
    for pair in pairs {
        let slot = pair.0 as usize;
        if end <= slot {
            end = slot + 1;
        }
    }
    end
}

/// The mask of a slot: the numbers that stand beside it. The only refusal is want of memory.
fn mask_of(
    alloc: Global,
    pairs: &[(u32, usize)],
    slot: usize,
    size: usize,
) -> Result<Vec<u64>, AllocError>
    requires { (p : ℕ × ℕ) → Contains pairs.now p → p.1 < 64 * size }
    ensures length { IfOk result (λ mask. length mask.items ≡ size) }
    ensures members { IfOk result (λ mask. (j : ℕ) → has mask.items j ≡ has_pair slot j pairs.now) }
{
    let mut mask = Vec::with_capacity(alloc, size)?;
    mask.resize(size, 0)?;
    for pair in pairs {
        let (own, number) = *pair;
        if own as usize == slot {
            insert(mask.as_mut_slice(), number);
        }
    }
    Ok(mask)
}

/// The masks of all slots that these pairs name. The only refusal is want of memory.
fn masks_of(alloc: Global, pairs: &[(u32, usize)], size: usize) -> Result<Vec<Vec<u64>>, AllocError>
    requires { (p : ℕ × ℕ) → Contains pairs.now p → p.1 < 64 * size }
    ensures masks { IfOk result (λ masks. (slot : ℕ) → IsMask size (slice_get masks.items slot)) }
    ensures takes { IfOk result (λ masks. (slot j : ℕ) → has (mask_at masks.items slot) j ≡ has_pair slot j pairs.now) }
{
    let mut masks = Vec::new(alloc);
    let end = slots_end(pairs);
    for slot in 0..end {
        masks.push(mask_of(alloc, pairs, slot, size)?)?;
    }
    Ok(masks)
}

/// The table of inequalities of a function. The only refusal is want of memory.
pub(crate) fn inequalities(alloc: Global, f: &CheckedFn) -> Result<Inequalities, AllocError>
    requires { HasSmallChecks f.now }
    ensures { IfOk result (λ t. AreInequalities f.now t) }
{
    let mut facts = facts_of(alloc, f)?;
    sort(facts.as_mut_slice());
    let checks = check_facts(alloc, f, facts.as_slice())?;
    let size = facts.len() / 64 + 1;
    let pairs = pairs_of(alloc, f, facts.as_slice())?;
    let masks = masks_of(alloc, pairs.as_slice(), size)?;
    Ok(Inequalities {
        size,
        facts,
        checks,
        masks,
    })
}
