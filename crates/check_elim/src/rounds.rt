//! What a round of each loop makes of "all met". It does not depend on how the loop is entered, so each is found once, in text order, before checks
//! are marked; that loops nested in one another cost no square rests on it.
ghost use Rattle.std.specs.Prelude.{◌≡◌, ◌<◌, IfOk, OnOk, [], true, slice_set, length};
ghost use Rattle.checked_tree.specs.declared.statements.CheckedStmt.{out-CheckedStmt};
ghost use Rattle.check_elim.specs.Direct.{reading, passing, passings, act_of, backs_of, backs, behind, through, holds_of, fails_of};
ghost use Rattle.check_elim.specs.Sets.{facts, IsTable, ops_of, size_of, size_in};
ghost use Rattle.check_elim.specs.Following.{is_plain};
ghost use Rattle.check_elim.specs.Rounds.{Grows};

use crate::lost::{Kept, Lost};
use crate::statements::pass_plain;
use crate::table::Table;
use crate::walk::test;
use checked_tree::{CheckedExpr, CheckedFn, CheckedStmt};
use std::alloc::{AllocError, Global};

/// What is lost behind a statement without parts, where no marks are made. The only refusal is want of memory.
fn past_plain(
    alloc: Global,
    f: &CheckedFn,
    table: &Table,
    statement: &CheckedStmt,
    lost: &mut Lost,
) -> Result<(), AllocError>
    requires table { IsTable f.now table.now }
    requires size { size_of lost.old ≡ size_in table.now }
    requires plain { is_plain (out-CheckedStmt statement.now) ≡ true }
    ensures length { size_of lost.new ≡ size_of lost.old }
    ensures facts { OnOk result (facts lost.new ≡ behind (act_of (passing (ops_of f.now table.now) f.now.slots statement.now)) (facts lost.old)) }
    ensures whole { backs_of (passing (ops_of f.now table.now) f.now.slots statement.now) ≡ [] }
{
    let mut unmarked = Kept {
        lost: Vec::new(alloc),
    };
    pass_plain(alloc, f, table, statement, lost, &mut unmarked)
}

/// What is lost where a test holds, where no marks are made; the result is what is lost where it does not. The only refusal is want of memory.
fn past_test(
    alloc: Global,
    f: &CheckedFn,
    table: &Table,
    e: &CheckedExpr,
    lost: &mut Lost,
) -> Result<Lost, AllocError>
    requires table { IsTable f.now table.now }
    requires size { size_of lost.old ≡ size_in table.now }
    ensures length { size_of lost.new ≡ size_of lost.old }
    ensures other { IfOk result (λ other. size_of other ≡ size_of lost.old) }
    ensures holds { OnOk result (facts lost.new ≡ holds_of (reading (ops_of f.now table.now) f.now.slots e.now) (facts lost.old)) }
    ensures fails { IfOk result (λ other. facts other ≡ fails_of (reading (ops_of f.now table.now) f.now.slots e.now) (facts lost.old)) }
{
    let mut unmarked = Kept {
        lost: Vec::new(alloc),
    };
    test(alloc, f, table, e, lost, &mut unmarked)
}

/// Puts a loop's round in its place.
fn set_round(rounds: &mut Vec<Lost>, place: usize, round: Lost)
    requires { place < length rounds.old.items }
    ensures { rounds.new.items ≡ slice_set rounds.old.items place round }
{
    rounds[place] = round;
}

/// What is lost behind a statement, where no marks are made; and appends the round of each loop in it, that of an outer loop first. The only
/// refusal is want of memory.
#[tactic(auto, using(crate::proofs::Looping::nothing_on_ok))]
#[cycle(surveys)]
fn survey(
    alloc: Global,
    f: &CheckedFn,
    table: &Table,
    statement: &CheckedStmt,
    lost: &mut Lost,
    rounds: &mut Vec<Lost>,
) -> Result<(), AllocError>
    requires table { IsTable f.now table.now }
    requires size { size_of lost.old ≡ size_in table.now }
    ensures length { size_of lost.new ≡ size_of lost.old }
    ensures facts { OnOk result (facts lost.new ≡ behind (act_of (passing (ops_of f.now table.now) f.now.slots statement.now)) (facts lost.old)) }
    ensures rounds { OnOk result (Grows (size_in table.now) (backs_of (passing (ops_of f.now table.now) f.now.slots statement.now)) rounds.old.items rounds.new.items) }
{
    match statement {
        CheckedStmt::Empty { line: _ } => past_plain(alloc, f, table, statement, lost),
        CheckedStmt::Assign {
            line: _,
            slot: _,
            scalar: _,
            value: _,
            checks: _,
        } => past_plain(alloc, f, table, statement, lost),
        CheckedStmt::AssignAutomatic {
            line: _,
            slot: _,
            hidden: _,
            value: _,
            checks: _,
        } => past_plain(alloc, f, table, statement, lost),
        CheckedStmt::Store {
            line: _,
            scalar: _,
            place: _,
            value: _,
            checks: _,
        } => past_plain(alloc, f, table, statement, lost),
        CheckedStmt::Zero {
            line: _,
            place: _,
            size: _,
        } => past_plain(alloc, f, table, statement, lost),
        CheckedStmt::Call {
            line: _,
            target: _,
            function: _,
            arguments: _,
            checks: _,
        } => past_plain(alloc, f, table, statement, lost),
        CheckedStmt::Kernel {
            line: _,
            target: _,
            name: _,
            arguments: _,
            pointer: _,
            function: _,
            elem: _,
            size: _,
        } => { past_plain(alloc, f, table, statement, lost) }
        CheckedStmt::Return {
            line: _,
            value: _,
            checks: _,
        } => past_plain(alloc, f, table, statement, lost),
        CheckedStmt::If {
            line: _,
            test: e,
            holds,
            fails,
        } => {
            let mut other = past_test(alloc, f, table, e.get(), lost)?;
            survey_all(alloc, f, table, holds.as_slice(), lost, rounds)?;
            survey_all(alloc, f, table, fails.as_slice(), &mut other, rounds)?;
            lost.join(&other);
            Ok(())
        }
        CheckedStmt::While {
            line: _,
            test: e,
            body,
        } => {
            let place = rounds.len();
            rounds.push(Lost {
                reached: false,
                words: Vec::new(alloc),
            })?;
            let mut round = Lost::sure(alloc, table.size())?;
            let _left = past_test(alloc, f, table, e.get(), &mut round)?;
            survey_all(alloc, f, table, body.as_slice(), &mut round, rounds)?;
            lost.enter(&round);
            set_round(rounds, place, round);
            let left = past_test(alloc, f, table, e.get(), lost)?;
            *lost = left;
            Ok(())
        }
    }
}

/// The same of statements. The only refusal is want of memory.
#[cycle(surveys)]
pub(crate) fn survey_all(
    alloc: Global,
    f: &CheckedFn,
    table: &Table,
    statements: &[CheckedStmt],
    lost: &mut Lost,
    rounds: &mut Vec<Lost>,
) -> Result<(), AllocError>
    requires table { IsTable f.now table.now }
    requires size { size_of lost.old ≡ size_in table.now }
    ensures length { size_of lost.new ≡ size_of lost.old }
    ensures facts { OnOk result (facts lost.new ≡ through (passings (ops_of f.now table.now) f.now.slots statements.now) (facts lost.old)) }
    ensures rounds { OnOk result (Grows (size_in table.now) (backs (passings (ops_of f.now table.now) f.now.slots statements.now)) rounds.old.items rounds.new.items) }
{
    for statement in statements {
        survey(alloc, f, table, statement, lost, rounds)?;
    }
    Ok(())
}
