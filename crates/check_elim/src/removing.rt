//! `kept`: which checks of a function need code.
ghost use Rattle.std.specs.Prelude.{◌≡◌, ◌↔◌, ℕ, ◌+◌, ◌-◌, ◌<◌, ◌≤◌, IfOk, length, replicate, false, true, not, ◌&&◌, ◌||◌, slice_index_or};
ghost use Rattle.checked_tree.specs.Redundant as spec;
ghost use Rattle.checked_tree.specs.Redundant.{Redundant};
ghost use Rattle.check_elim.specs.Redundancy.{redundant};
ghost use Rattle.check_elim.specs.Marks.{SayUnmet, SayUnequal};
ghost use Rattle.check_elim.specs.Direct.{passings, backs};
ghost use Rattle.check_elim.specs.Rounds.{Stand};
ghost use Rattle.check_elim.specs.Sets.{IsTable, size_in, ops_of};
ghost use Rattle.check_elim.specs.Following.{IsOfInequalities};
ghost use Rattle.check_elim.specs.Tables.{HasSmallChecks};

use crate::classes::classes;
use crate::constants::is_constant;
use crate::following::follow_all;
use crate::inequalities::inequalities;
use crate::lost::{Kept, Lost, own};
use crate::rounds::survey_all;
use crate::statements::pass_all;
use crate::table::Table;
use checked_tree::{Check, CheckedFn};
use std::alloc::{AllocError, Global};

/// No marks.
fn unmarked(alloc: Global, count: usize) -> Result<Vec<bool>, AllocError>
    ensures { IfOk result (λ v. v.items ≡ replicate count false) }
{
    let mut marks = Vec::with_capacity(alloc, count)?;
    marks.resize(count, false)?;
    Ok(marks)
}

/// What a round of each loop makes of "all met", in text order. The only refusal is want of memory.
fn rounds_of(alloc: Global, f: &CheckedFn, table: &Table) -> Result<Vec<Lost>, AllocError>
    requires { IsTable f.now table.now }
    ensures { IfOk result (λ rounds. Stand (size_in table.now) (backs (passings (ops_of f.now table.now) f.now.slots f.now.body)) rounds.items 0) }
{
    let mut rounds = Vec::new(alloc);
    let mut lost = Lost::all(alloc, table.size())?;
    survey_all(alloc, f, table, f.body.as_slice(), &mut lost, &mut rounds)?;
    Ok(rounds)
}

/// Third rule: to which checks some walk comes without their inequality over locals, by their places. The only refusal is want of memory.
fn unmet(alloc: Global, f: &CheckedFn, table: &Table) -> Result<Vec<bool>, AllocError>
    requires table { IsTable f.now table.now }
    requires inequalities { IsOfInequalities table.now }
    ensures length { IfOk result (λ v. length v.items ≡ length f.now.checks) }
    ensures marks { IfOk result (λ v. SayUnmet f.now table.now v.items) }
{
    let rounds = rounds_of(alloc, f, table)?;
    let mut lost = Lost::all(alloc, table.size())?;
    let checks = f.checks.as_slice();
    let marks = unmarked(alloc, checks.len())?;
    let mut kept = Kept { lost: marks };
    let _end = pass_all(
        alloc,
        f,
        table,
        f.body.as_slice(),
        rounds.as_slice(),
        0,
        &mut lost,
        &mut kept,
    )?;
    Ok(kept.lost)
}

/// Second rule: to which checks some way from the start of their statement comes without an equal one, by their places. The only refusal is
/// want of memory.
fn unequal(alloc: Global, f: &CheckedFn) -> Result<Vec<bool>, AllocError>
    ensures length { IfOk result (λ v. length v.items ≡ length f.now.checks) }
    ensures marks { IfOk result (λ v. SayUnequal f.now v.items) }
{
    let equal = classes(alloc, f)?;
    let table = Table::Classes(equal);
    let checks = f.checks.as_slice();
    let marks = unmarked(alloc, checks.len())?;
    let mut kept = Kept { lost: marks };
    follow_all(alloc, f, &table, f.body.as_slice(), &mut kept)?;
    Ok(kept.lost)
}

/// Whether a check is kept: it is not true of constants, an equal one does not stand before it on every way, and its inequality, if it is one
/// over locals, is not met on every walk.
fn is_kept(check: &Check, unequal: bool, over_locals: bool, unmet: bool) -> bool
    ensures { result ≡ not (spec.is_constant check.now.cond || (not unequal || (over_locals && not unmet))) }
{
    !(is_constant(&check.cond) || (!unequal || (over_locals && !unmet)))
}

/// Whether the check in a place is kept, by its marks.
fn is_needed(f: &CheckedFn, table: &Table, unmet: &[bool], unequal: &[bool], place: usize) -> bool
    requires table { IsTable f.now table.now }
    requires inside { place < length f.now.checks }
    requires as_many { length unmet.now ≡ length f.now.checks }
    requires as_many_again { length unequal.now ≡ length f.now.checks }
    requires third { SayUnmet f.now table.now unmet.now }
    requires second { SayUnequal f.now unequal.now }
    ensures { result ≡ not (redundant f.now (place + 1)) }
{
    let checks = f.checks.as_slice();
    let _count = checks.len();
    let over_locals = own(f, table, place + 1).is_some();
    is_kept(&checks[place], unequal[place], over_locals, unmet[place])
}

/// Which checks are kept, by their marks. The only refusal is want of memory.
fn kept_by(
    alloc: Global,
    f: &CheckedFn,
    table: &Table,
    unmet: &[bool],
    unequal: &[bool],
) -> Result<Vec<bool>, AllocError>
    requires table { IsTable f.now table.now }
    requires as_many { length unmet.now ≡ length f.now.checks }
    requires as_many_again { length unequal.now ≡ length f.now.checks }
    requires third { SayUnmet f.now table.now unmet.now }
    requires second { SayUnequal f.now unequal.now }
    ensures length { IfOk result (λ v. length v.items ≡ length f.now.checks) }
    ensures value { IfOk result (λ v. (id : ℕ) → 1 ≤ id → id ≤ length f.now.checks → slice_index_or v.items (id - 1) true ≡ not (redundant f.now id)) }
{
    let checks = f.checks.as_slice();
    let mut kept = Vec::with_capacity(alloc, checks.len())?;
    for place in 0..checks.len() {
        let needed = is_needed(f, table, unmet, unequal, place);
        kept.push(needed)?;
    }
    Ok(kept)
}

/// Which checks of a function need code, by their places: all but those that are redundant. A check is redundant where it is true of constants
/// alone, where on every way from the start of its statement an equal one stands before it, or where it is an inequality over locals that
/// every walk from the function's entry to it has met. The only refusal is want of memory.
pub fn kept(alloc: Global, f: &CheckedFn) -> Result<Vec<bool>, AllocError>
    requires { HasSmallChecks f.now }
    ensures length { IfOk result (λ v. length v.items ≡ length f.now.checks) }
    ensures value { IfOk result (λ v. (id : ℕ) → 1 ≤ id → id ≤ length f.now.checks → slice_index_or v.items (id - 1) true ≡ not (redundant f.now id)) }
    ensures exact { IfOk result (λ v. (id : ℕ) → 1 ≤ id → id ≤ length f.now.checks → (slice_index_or v.items (id - 1) true ≡ false) ↔ Redundant f.now id) }
{
    let facts = inequalities(alloc, f)?;
    let table = Table::Inequalities(facts);
    let unmet = unmet(alloc, f, &table)?;
    let unequal = unequal(alloc, f)?;
    kept_by(alloc, f, &table, unmet.as_slice(), unequal.as_slice())
}
