//! The facts that some walk to a place has not met.
ghost use Rattle.std.specs.Prelude.{◌≡◌, ℕ, Bool, ◌<◌, ◌*◌, ◌||◌, ◌&&◌, nat_lt, false, if◌then◌else◌, slice_set, slice_index_or, length, replicate, IfOk, OnOk, OnSome, IfSome, Some};
ghost use Rattle.std.specs.List.{list_any};
ghost use Rattle.check_elim.specs.Bits.{has};
ghost use Rattle.check_elim.specs.Ways.{after, either, Lost as LostWay};
ghost use Rattle.check_elim.specs.Facts.{is_lost};
ghost use Rattle.check_elim.specs.Sets.{facts, either_all, guard_all, none, all_sure, size_of, IsTable, IsMask, mask_at, mark_one, mark_own, marking, own_fact, given_all, after_list, after_class, after_all, ops_of, AreInequalities, AreClasses, size_in, class_of, own_in, all_lost};
ghost use Rattle.check_elim.specs.Direct.{behind, noted, tests};
ghost use Rattle.check_elim.specs.Light.{IsLightFact};
ghost use Rattle.std.specs.Prelude.{slice_get};
ghost use Rattle.checked_tree.specs.Flow.{Tests, Assigns, Finds};

use crate::over_atoms::over_atoms;
use crate::runs::{clear, run_of};
use crate::table::{Classes, Inequalities, Table};
use crate::words::{is_in, join, remove};
use checked_tree::CheckedFn;
use dep_expr::{Ineq, Lin};
use sqlite_items::at;
use std::alloc::{AllocError, Global};

/// The facts that are lost at a place, if any walk comes there.
#[derive(Drop)]
pub(crate) struct Lost {
    /// Whether a walk comes. Where none does, the words say nothing.
    pub(crate) reached: bool,
    pub(crate) words: Vec<u64>,
}

/// The checks to which some walk comes without their fact, by their places.
#[derive(Drop)]
pub(crate) struct Kept {
    /// None, where no marks are made.
    pub(crate) lost: Vec<bool>,
}

/// Joins the mask of a slot to a set.
fn join_mask(words: &mut [u64], masks: &[Vec<u64>], slot: usize)
    requires { IsMask (length words.old) (slice_get masks.now slot) }
    ensures length { length words.new ≡ length words.old }
    ensures members { (j : ℕ) → has words.new j ≡ (has words.old j || has (mask_at masks.now slot) j) }
{
    match at(masks, slot) {
        Some(mask) => join(words, mask.as_slice()),
        None => {}
    }
}

/// Joins the masks of these slots to a set.
pub(crate) fn join_masks(words: &mut [u64], masks: &[Vec<u64>], slots: &[usize])
    requires { (slot : ℕ) → IsMask (length words.old) (slice_get masks.now slot) }
    ensures length { length words.new ≡ length words.old }
    ensures members { (j : ℕ) → has words.new j ≡ (has words.old j || list_any (λ slot. has (mask_at masks.now slot) j) slots.now) }
{
    for slot in slots {
        join_mask(words, masks, *slot);
    }
}

impl Lost {
    /// A copy.
    #[tactic(auto, unfolding(crate::specs::Sets::facts))]
    pub(crate) fn copied(&self, alloc: Global) -> Result<Lost, AllocError>
        ensures size { IfOk result (λ copy. size_of copy ≡ size_of self.now) }
        ensures facts { IfOk result (λ copy. facts copy ≡ facts self.now) }
    {
        Ok(Lost {
            reached: self.reached,
            words: Vec::from_slice(alloc, self.words.as_slice())?,
        })
    }

    /// What is lost here or there.
    #[tactic(auto, unfolding(crate::specs::Sets::facts, crate::specs::Sets::either_all))]
    pub(crate) fn join(&mut self, other: &Lost)
        requires { size_of self.old ≡ size_of other.now }
        ensures length { size_of self.new ≡ size_of self.old }
        ensures facts { facts self.new ≡ either_all (facts self.old) (facts other.now) }
    {
        if !other.reached {
            return;
        }
        if self.reached {
            join(self.words.as_mut_slice(), other.words.as_slice());
        } else {
            self.reached = true;
            self.words
                .as_mut_slice()
                .copy_from_slice(other.words.as_slice());
        }
    }

    /// What is lost at the test of a loop, from what is lost where it is entered, and from what a round of its body loses.
    #[tactic(auto, unfolding(crate::specs::Sets::guard_all, crate::specs::Sets::either_all, crate::specs::Sets::facts))]
    pub(crate) fn enter(&mut self, round: &Lost)
        requires { size_of self.old ≡ size_of round.now }
        ensures length { size_of self.new ≡ size_of self.old }
        ensures facts { facts self.new ≡ either_all (facts self.old) (guard_all (facts self.old) (facts round.now)) }
    {
        if self.reached {
            self.join(round);
        }
    }

    /// Where all facts are met.
    #[tactic(auto, unfolding(crate::specs::Sets::facts, crate::specs::Sets::all_sure))]
    pub(crate) fn sure(alloc: Global, size: usize) -> Result<Lost, AllocError>
        ensures size { IfOk result (λ l. size_of l ≡ size) }
        ensures facts { IfOk result (λ l. facts l ≡ all_sure) }
    {
        Ok(Lost {
            reached: true,
            words: zeros(alloc, size)?,
        })
    }

    /// Where no fact is met.
    #[tactic(auto, unfolding(crate::specs::Sets::facts, crate::specs::Sets::all_lost))]
    pub(crate) fn all(alloc: Global, size: usize) -> Result<Lost, AllocError>
        ensures size { IfOk result (λ l. size_of l ≡ size) }
        ensures facts { IfOk result (λ l. facts l ≡ all_lost size) }
    {
        Ok(Lost {
            reached: true,
            words: ones(alloc, size)?,
        })
    }

    /// Where nothing comes.
    #[tactic(auto, unfolding(crate::specs::Sets::facts, crate::specs::Sets::none))]
    pub(crate) fn leave(&mut self)
        ensures size { size_of self.new ≡ size_of self.old }
        ensures facts { facts self.new ≡ none }
    {
        self.reached = false;
    }

    /// What is lost behind something after which an inequality holds.
    pub(crate) fn give(&mut self, f: &CheckedFn, table: &Inequalities, strong: &Ineq)
        requires table { AreInequalities f.now table.now }
        requires size { size_of self.old ≡ table.now.size }
        ensures length { size_of self.new ≡ size_of self.old }
        ensures facts { facts self.new ≡ given_all table.now.facts.items strong.now (facts self.old) }
    {
        if self.reached {
            let run = run_of(f, table, strong);
            clear(self.words.as_mut_slice(), f, table, strong, run);
        }
    }

    /// What is lost behind a check, of inequalities.
    fn check_inequality(&mut self, f: &CheckedFn, table: &Inequalities, id: usize)
        requires table { AreInequalities f.now table.now }
        requires size { size_of self.old ≡ table.now.size }
        ensures length { size_of self.new ≡ size_of self.old }
        ensures facts { facts self.new ≡ after_list f.now table.now.facts.items (Tests id) (facts self.old) }
    {
        if let Some(strong) = table.inequality(id) {
            self.give(f, table, strong);
        }
    }

    /// What is lost behind a check, of classes.
    fn check_class(&mut self, f: &CheckedFn, table: &Classes, id: usize)
        requires table { AreClasses f.now table.now }
        requires size { size_of self.old ≡ table.now.size }
        ensures length { size_of self.new ≡ size_of self.old }
        ensures facts { facts self.new ≡ after_class table.now (Tests id) (facts self.old) }
    {
        if let Some(number) = class_in(f, table, id) {
            remove(self.words.as_mut_slice(), number);
        }
    }

    /// What is lost behind a check.
    #[tactic(auto, unfolding(crate::specs::Sets::IsTable, crate::specs::Sets::after_all))]
    pub(crate) fn check(&mut self, f: &CheckedFn, table: &Table, id: usize)
        requires table { IsTable f.now table.now }
        requires size { size_of self.old ≡ size_in table.now }
        ensures length { size_of self.new ≡ size_of self.old }
        ensures facts { facts self.new ≡ after_all f.now table.now (Tests id) (facts self.old) }
    {
        match table {
            Table::Inequalities(inequalities) => self.check_inequality(f, inequalities, id),
            Table::Classes(classes) => self.check_class(f, classes, id),
        }
    }

    /// What is lost behind an edge of a branch that tells this, if it tells anything, of inequalities. The only refusal is want of memory.
    fn find_inequality(
        &mut self,
        alloc: Global,
        f: &CheckedFn,
        table: &Inequalities,
        fact: Option<Lin>,
    ) -> Result<(), AllocError>
        requires table { AreInequalities f.now table.now }
        requires size { size_of self.old ≡ table.now.size }
        requires light { IsLightFact fact }
        ensures length { size_of self.new ≡ size_of self.old }
        ensures facts { OnOk result (facts self.new ≡ after_list f.now table.now.facts.items (Finds fact) (facts self.old)) }
    {
        match fact {
            None => Ok(()),
            Some(form) => {
                match over_atoms(alloc, f, &form)? {
                    None => Ok(()),
                    Some(strong) => {
                        self.give(f, table, &strong);
                        Ok(())
                    }
                }
            }
        }
    }

    /// What is lost behind an edge of a branch that tells this, if it tells anything. The only refusal is want of memory.
    #[tactic(auto, unfolding(crate::specs::Sets::IsTable, crate::specs::Sets::after_all))]
    pub(crate) fn find(
        &mut self,
        alloc: Global,
        f: &CheckedFn,
        table: &Table,
        fact: Option<Lin>,
    ) -> Result<(), AllocError>
        requires table { IsTable f.now table.now }
        requires size { size_of self.old ≡ size_in table.now }
        requires light { IsLightFact fact }
        ensures length { size_of self.new ≡ size_of self.old }
        ensures facts { OnOk result (facts self.new ≡ after_all f.now table.now (Finds fact) (facts self.old)) }
    {
        match table {
            Table::Inequalities(inequalities) => self.find_inequality(alloc, f, inequalities, fact),
            Table::Classes(_) => Ok(()),
        }
    }

    /// What is lost behind an assignment of these slots, of inequalities.
    #[tactic(auto, unfolding(crate::specs::Sets::facts, crate::specs::Sets::after_list))]
    fn assign_inequalities(&mut self, f: &CheckedFn, table: &Inequalities, slots: &[usize])
        requires table { AreInequalities f.now table.now }
        requires size { size_of self.old ≡ table.now.size }
        ensures length { size_of self.new ≡ size_of self.old }
        ensures facts { facts self.new ≡ after_list f.now table.now.facts.items (Assigns slots.now) (facts self.old) }
    {
        join_masks(self.words.as_mut_slice(), table.masks.as_slice(), slots);
    }

    /// What is lost behind an assignment of these slots.
    #[tactic(auto, unfolding(crate::specs::Sets::IsTable, crate::specs::Sets::after_all))]
    pub(crate) fn assign(&mut self, f: &CheckedFn, table: &Table, slots: &[usize])
        requires table { IsTable f.now table.now }
        requires size { size_of self.old ≡ size_in table.now }
        ensures length { size_of self.new ≡ size_of self.old }
        ensures facts { facts self.new ≡ after_all f.now table.now (Assigns slots.now) (facts self.old) }
    {
        match table {
            Table::Inequalities(inequalities) => self.assign_inequalities(f, inequalities, slots),
            Table::Classes(_) => {}
        }
    }

    /// What is lost behind these checks.
    pub(crate) fn pass(&mut self, f: &CheckedFn, table: &Table, checks: &[usize], kept: &mut Kept)
        requires table { IsTable f.now table.now }
        requires size { size_of self.old ≡ size_in table.now }
        ensures length { size_of self.new ≡ size_of self.old }
        ensures facts { facts self.new ≡ behind (tests (ops_of f.now table.now) checks.now) (facts self.old) }
        ensures marks { marking kept.new ≡ noted (tests (ops_of f.now table.now) checks.now) (facts self.old) (marking kept.old) }
    {
        for id in checks {
            kept.mark(f, table, *id, self);
            self.check(f, table, *id);
        }
    }

    /// Whether a fact is lost here.
    #[tactic(auto, unfolding(crate::specs::Sets::facts))]
    pub(crate) fn has_lost(&self, number: usize) -> bool
        requires { number < 64 * size_of self.now }
        ensures { result ≡ is_lost (facts self.now number) }
    {
        self.reached && is_in(self.words.as_slice(), number)
    }
}

impl Kept {
    /// Marks a check where its fact is lost.
    pub(crate) fn mark(&mut self, f: &CheckedFn, table: &Table, id: usize, lost: &Lost)
        requires table { IsTable f.now table.now }
        requires size { size_of lost.now ≡ size_in table.now }
        ensures { marking self.new ≡ mark_one table.now id (facts lost.now) (marking self.old) }
    {
        if let Some(number) = own(f, table, id) {
            let lost_there = lost.has_lost(number);
            mark_at(self.lost.as_mut_slice(), id - 1, lost_there);
        }
    }
}

/// The class of a check.
#[tactic(auto, unfolding(crate::specs::Sets::AreClasses))]
fn class_in(f: &CheckedFn, table: &Classes, id: usize) -> Option<usize>
    requires { AreClasses f.now table.now }
    ensures value { result ≡ class_of table.now id }
    ensures fits { IfSome result (λ number. number < 64 * table.now.size) }
    ensures counted { OnSome result (0 < id) }
{
    if id == 0 {
        return None;
    }
    table.class(id)
}

/// The inequality of a check, if it is over locals.
#[tactic(auto, unfolding(crate::specs::Sets::AreInequalities))]
fn inequality_in(f: &CheckedFn, table: &Inequalities, id: usize) -> Option<usize>
    requires { AreInequalities f.now table.now }
    ensures value { result ≡ own_in table.now id }
    ensures fits { IfSome result (λ number. number < 64 * table.now.size) }
    ensures counted { OnSome result (0 < id) }
{
    if id == 0 {
        return None;
    }
    match table.checks.get(id - 1) {
        Some(check) => check.own,
        None => None,
    }
}

/// The fact of a check, if it has one.
#[tactic(auto, unfolding(crate::specs::Sets::IsTable))]
pub(crate) fn own(f: &CheckedFn, table: &Table, id: usize) -> Option<usize>
    requires { IsTable f.now table.now }
    ensures value { result ≡ own_fact table.now id }
    ensures fits { IfSome result (λ number. number < 64 * size_in table.now) }
    ensures counted { OnSome result (0 < id) }
{
    match table {
        Table::Inequalities(inequalities) => inequality_in(f, inequalities, id),
        Table::Classes(classes) => class_in(f, classes, id),
    }
}

/// Marks a place, if it is one.
fn mark_at(marks: &mut [bool], at: usize, lost: bool)
    ensures { marks.new ≡ (if nat_lt at (length marks.old) then slice_set marks.old at (slice_index_or marks.old at false || lost) else marks.old) }
{
    if at < marks.len() {
        marks[at] = marks[at] || lost;
    }
}

/// So many words of zeros.
fn zeros(alloc: Global, size: usize) -> Result<Vec<u64>, AllocError>
    ensures { IfOk result (λ v. v.items ≡ replicate size 0) }
{
    let mut words = Vec::with_capacity(alloc, size)?;
    words.resize(size, 0)?;
    Ok(words)
}

/// So many words of ones.
fn ones(alloc: Global, size: usize) -> Result<Vec<u64>, AllocError>
    ensures { IfOk result (λ v. v.items ≡ replicate size 18446744073709551615) }
{
    let mut words = Vec::with_capacity(alloc, size)?;
    words.resize(size, u64::MAX)?;
    Ok(words)
}
