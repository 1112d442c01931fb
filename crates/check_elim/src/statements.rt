//! What statements make of the lost facts.
ghost use Rattle.std.specs.Prelude.{◌≡◌, ◌+◌, ◌<◌, IfOk, OnOk, [], true, Some, length, slice_get, option_copied};
ghost use Rattle.checked_tree.specs.declared.statements.CheckedStmt.{out-CheckedStmt};
ghost use Rattle.checked_tree.specs.Flow.{Assigns, target_slots};
ghost use Rattle.check_elim.specs.Direct.{passing, passings, act_of, backs_of, backs, behind, noted, through, telling, arguments_act, operand_act, argument_act};
ghost use Rattle.check_elim.specs.Sets.{facts, IsTable, ops_of, size_of, size_in, marking, after_all};
ghost use Rattle.check_elim.specs.Following.{is_plain};
ghost use Rattle.check_elim.specs.Rounds.{Stand};

use crate::lost::{Kept, Lost};
use crate::table::Table;
use crate::walk::{test, value};
use checked_tree::{Argument, CheckedFn, CheckedStmt, PointerOperand, Target};
use std::alloc::{AllocError, Global};

/// What is lost behind arguments, left to right. The only refusal is want of memory.
fn arguments(
    alloc: Global,
    f: &CheckedFn,
    table: &Table,
    list: &[Argument],
    lost: &mut Lost,
    kept: &mut Kept,
) -> Result<(), AllocError>
    requires table { IsTable f.now table.now }
    requires size { size_of lost.old ≡ size_in table.now }
    ensures length { size_of lost.new ≡ size_of lost.old }
    ensures facts { OnOk result (facts lost.new ≡ behind (arguments_act (ops_of f.now table.now) f.now.slots list.now) (facts lost.old)) }
    ensures marks { OnOk result (marking kept.new ≡ noted (arguments_act (ops_of f.now table.now) f.now.slots list.now) (facts lost.old) (marking kept.old)) }
{
    for argument in list {
        value(alloc, f, table, argument.value.get(), lost, kept)?;
    }
    Ok(())
}

/// What is lost behind a pointer that is handed over, if there is one. The only refusal is want of memory.
fn operand(
    alloc: Global,
    f: &CheckedFn,
    table: &Table,
    pointer: Option<&PointerOperand>,
    lost: &mut Lost,
    kept: &mut Kept,
) -> Result<(), AllocError>
    requires table { IsTable f.now table.now }
    requires size { size_of lost.old ≡ size_in table.now }
    ensures length { size_of lost.new ≡ size_of lost.old }
    ensures facts { OnOk result (facts lost.new ≡ behind (operand_act (ops_of f.now table.now) f.now.slots (option_copied pointer.entry)) (facts lost.old)) }
    ensures marks { OnOk result (marking kept.new ≡ noted (operand_act (ops_of f.now table.now) f.now.slots (option_copied pointer.entry)) (facts lost.old) (marking kept.old)) }
{
    match pointer {
        None => Ok(()),
        Some(pointer) => value(alloc, f, table, pointer.value.get(), lost, kept),
    }
}

/// What is lost behind a number that is handed over, if there is one. The only refusal is want of memory.
fn argument(
    alloc: Global,
    f: &CheckedFn,
    table: &Table,
    number: Option<&Argument>,
    lost: &mut Lost,
    kept: &mut Kept,
) -> Result<(), AllocError>
    requires table { IsTable f.now table.now }
    requires size { size_of lost.old ≡ size_in table.now }
    ensures length { size_of lost.new ≡ size_of lost.old }
    ensures facts { OnOk result (facts lost.new ≡ behind (argument_act (ops_of f.now table.now) f.now.slots (option_copied number.entry)) (facts lost.old)) }
    ensures marks { OnOk result (marking kept.new ≡ noted (argument_act (ops_of f.now table.now) f.now.slots (option_copied number.entry)) (facts lost.old) (marking kept.old)) }
{
    match number {
        None => Ok(()),
        Some(number) => value(alloc, f, table, number.value.get(), lost, kept),
    }
}

/// What is lost behind an assignment of the local that takes a result, if one does.
fn assign_target(f: &CheckedFn, table: &Table, target: Option<Target>, lost: &mut Lost)
    requires table { IsTable f.now table.now }
    requires size { size_of lost.old ≡ size_in table.now }
    ensures length { size_of lost.new ≡ size_of lost.old }
    ensures facts { facts lost.new ≡ after_all f.now table.now (Assigns (target_slots target)) (facts lost.old) }
{
    match target {
        None => lost.assign(f, table, &[]),
        Some(Target::Int { slot, scalar: _ }) => lost.assign(f, table, &[slot as usize]),
        Some(Target::Nullterm { slot }) => lost.assign(f, table, &[slot as usize]),
        Some(Target::Automatic { slot, hidden }) => lost.assign(
            f,
            table,
            &[slot as usize, hidden as usize, hidden as usize + 1],
        ),
    }
}

/// What is lost behind a statement without parts. The only refusal is want of memory.
#[tactic(auto, using(crate::proofs::Forms::empty_form, crate::proofs::Forms::assign_form, crate::proofs::Forms::automatic_form, crate::proofs::Forms::store_form, crate::proofs::Forms::zero_form, crate::proofs::Forms::call_form, crate::proofs::Forms::kernel_form, crate::proofs::Forms::return_form))]
pub(crate) fn pass_plain(
    alloc: Global,
    f: &CheckedFn,
    table: &Table,
    statement: &CheckedStmt,
    lost: &mut Lost,
    kept: &mut Kept,
) -> Result<(), AllocError>
    requires table { IsTable f.now table.now }
    requires size { size_of lost.old ≡ size_in table.now }
    requires plain { is_plain (out-CheckedStmt statement.now) ≡ true }
    ensures length { size_of lost.new ≡ size_of lost.old }
    ensures facts { OnOk result (facts lost.new ≡ behind (act_of (passing (ops_of f.now table.now) f.now.slots statement.now)) (facts lost.old)) }
    ensures marks { OnOk result (marking kept.new ≡ noted (act_of (passing (ops_of f.now table.now) f.now.slots statement.now)) (facts lost.old) (marking kept.old)) }
    ensures whole { backs_of (passing (ops_of f.now table.now) f.now.slots statement.now) ≡ [] }
{
    match statement {
        CheckedStmt::Empty { line: _ } => Ok(()),
        CheckedStmt::Assign {
            line: _,
            slot,
            scalar: _,
            value: e,
            checks,
        } => {
            value(alloc, f, table, e.get(), lost, kept)?;
            lost.pass(f, table, checks.as_slice(), kept);
            lost.assign(f, table, &[*slot as usize]);
            Ok(())
        }
        CheckedStmt::AssignAutomatic {
            line: _,
            slot,
            hidden,
            value: e,
            checks,
        } => {
            value(alloc, f, table, e.value.get(), lost, kept)?;
            lost.pass(f, table, checks.as_slice(), kept);
            lost.assign(
                f,
                table,
                &[*slot as usize, *hidden as usize, *hidden as usize + 1],
            );
            Ok(())
        }
        CheckedStmt::Store {
            line: _,
            scalar: _,
            place,
            value: e,
            checks,
        } => {
            value(alloc, f, table, e.get(), lost, kept)?;
            value(alloc, f, table, place.get(), lost, kept)?;
            lost.pass(f, table, checks.as_slice(), kept);
            Ok(())
        }
        CheckedStmt::Zero {
            line: _,
            place,
            size: _,
        } => value(alloc, f, table, place.get(), lost, kept),
        CheckedStmt::Call {
            line: _,
            target,
            function: _,
            arguments: list,
            checks,
        } => {
            arguments(alloc, f, table, list.as_slice(), lost, kept)?;
            lost.pass(f, table, checks.as_slice(), kept);
            assign_target(f, table, *target, lost);
            Ok(())
        }
        CheckedStmt::Kernel {
            line: _,
            target,
            name: _,
            arguments: list,
            pointer,
            function: _,
            elem: _,
            size: _,
        } => {
            arguments(alloc, f, table, list.as_slice(), lost, kept)?;
            operand(alloc, f, table, pointer.as_ref(), lost, kept)?;
            assign_target(f, table, *target, lost);
            Ok(())
        }
        CheckedStmt::Return {
            line: _,
            value: number,
            checks,
        } => {
            argument(alloc, f, table, number.as_ref(), lost, kept)?;
            lost.pass(f, table, checks.as_slice(), kept);
            lost.leave();
            Ok(())
        }
        CheckedStmt::If {
            line: _,
            test: _,
            holds: _,
            fails: _,
        } => Ok(()),
        CheckedStmt::While {
            line: _,
            test: _,
            body: _,
        } => Ok(()),
    }
}

/// The same, with the next place as result, since such a statement has no loop. The only refusal is want of memory.
fn past(
    alloc: Global,
    f: &CheckedFn,
    table: &Table,
    statement: &CheckedStmt,
    next: usize,
    lost: &mut Lost,
    kept: &mut Kept,
) -> Result<usize, AllocError>
    requires table { IsTable f.now table.now }
    requires size { size_of lost.old ≡ size_in table.now }
    requires plain { is_plain (out-CheckedStmt statement.now) ≡ true }
    ensures length { size_of lost.new ≡ size_of lost.old }
    ensures facts { OnOk result (facts lost.new ≡ behind (act_of (passing (ops_of f.now table.now) f.now.slots statement.now)) (facts lost.old)) }
    ensures marks { OnOk result (marking kept.new ≡ noted (act_of (passing (ops_of f.now table.now) f.now.slots statement.now)) (facts lost.old) (marking kept.old)) }
    ensures next { IfOk result (λ place. place ≡ next + length (backs_of (passing (ops_of f.now table.now) f.now.slots statement.now))) }
{
    pass_plain(alloc, f, table, statement, lost, kept)?;
    Ok(next)
}

/// The round in a place.
fn round_at(rounds: &[Lost], next: usize) -> &Lost
    requires { next < length rounds.now }
    ensures { slice_get rounds.now next ≡ Some result.now }
{
    &rounds[next]
}

/// The place behind one of a round.
fn next_place(rounds: &[Lost], next: usize) -> usize
    requires { next < length rounds.now }
    ensures { result ≡ next + 1 }
{
    let _count = rounds.len();
    next + 1
}

/// What is lost behind a statement, where the rounds of its loops stand from the next place on; the result is the place behind them. The only
/// refusal is want of memory.
#[cycle(statements)]
fn pass(
    alloc: Global,
    f: &CheckedFn,
    table: &Table,
    statement: &CheckedStmt,
    rounds: &[Lost],
    next: usize,
    lost: &mut Lost,
    kept: &mut Kept,
) -> Result<usize, AllocError>
    requires table { IsTable f.now table.now }
    requires size { size_of lost.old ≡ size_in table.now }
    requires rounds { Stand (size_in table.now) (backs_of (passing (ops_of f.now table.now) f.now.slots statement.now)) rounds.now next }
    ensures length { size_of lost.new ≡ size_of lost.old }
    ensures facts { OnOk result (facts lost.new ≡ behind (act_of (passing (ops_of f.now table.now) f.now.slots statement.now)) (facts lost.old)) }
    ensures marks { OnOk result (marking kept.new ≡ noted (act_of (passing (ops_of f.now table.now) f.now.slots statement.now)) (facts lost.old) (marking kept.old)) }
    ensures next { IfOk result (λ place. place ≡ next + length (backs_of (passing (ops_of f.now table.now) f.now.slots statement.now))) }
{
    match statement {
        CheckedStmt::Empty { line: _ } => past(alloc, f, table, statement, next, lost, kept),
        CheckedStmt::Assign {
            line: _,
            slot: _,
            scalar: _,
            value: _,
            checks: _,
        } => past(alloc, f, table, statement, next, lost, kept),
        CheckedStmt::AssignAutomatic {
            line: _,
            slot: _,
            hidden: _,
            value: _,
            checks: _,
        } => past(alloc, f, table, statement, next, lost, kept),
        CheckedStmt::Store {
            line: _,
            scalar: _,
            place: _,
            value: _,
            checks: _,
        } => past(alloc, f, table, statement, next, lost, kept),
        CheckedStmt::Zero {
            line: _,
            place: _,
            size: _,
        } => past(alloc, f, table, statement, next, lost, kept),
        CheckedStmt::Call {
            line: _,
            target: _,
            function: _,
            arguments: _,
            checks: _,
        } => past(alloc, f, table, statement, next, lost, kept),
        CheckedStmt::Kernel {
            line: _,
            target: _,
            name: _,
            arguments: _,
            pointer: _,
            function: _,
            elem: _,
            size: _,
        } => { past(alloc, f, table, statement, next, lost, kept) }
        CheckedStmt::Return {
            line: _,
            value: _,
            checks: _,
        } => past(alloc, f, table, statement, next, lost, kept),
        CheckedStmt::If {
            line: _,
            test: e,
            holds,
            fails,
        } => {
            let mut other = test(alloc, f, table, e.get(), lost, kept)?;
            let middle = pass_all(alloc, f, table, holds.as_slice(), rounds, next, lost, kept)?;
            let end = pass_all(
                alloc,
                f,
                table,
                fails.as_slice(),
                rounds,
                middle,
                &mut other,
                kept,
            )?;
            lost.join(&other);
            Ok(end)
        }
        CheckedStmt::While {
            line: _,
            test: e,
            body,
        } => {
            lost.enter(round_at(rounds, next));
            let left = test(alloc, f, table, e.get(), lost, kept)?;
            let end = pass_all(
                alloc,
                f,
                table,
                body.as_slice(),
                rounds,
                next_place(rounds, next),
                lost,
                kept,
            )?;
            *lost = left;
            Ok(end)
        }
    }
}

/// What is lost behind statements, as behind one. The only refusal is want of memory.
#[cycle(statements)]
pub(crate) fn pass_all(
    alloc: Global,
    f: &CheckedFn,
    table: &Table,
    statements: &[CheckedStmt],
    rounds: &[Lost],
    next: usize,
    lost: &mut Lost,
    kept: &mut Kept,
) -> Result<usize, AllocError>
    requires table { IsTable f.now table.now }
    requires size { size_of lost.old ≡ size_in table.now }
    requires rounds { Stand (size_in table.now) (backs (passings (ops_of f.now table.now) f.now.slots statements.now)) rounds.now next }
    ensures length { size_of lost.new ≡ size_of lost.old }
    ensures facts { OnOk result (facts lost.new ≡ through (passings (ops_of f.now table.now) f.now.slots statements.now) (facts lost.old)) }
    ensures marks { OnOk result (marking kept.new ≡ telling (passings (ops_of f.now table.now) f.now.slots statements.now) (facts lost.old) (marking kept.old)) }
    ensures next { IfOk result (λ place. place ≡ next + length (backs (passings (ops_of f.now table.now) f.now.slots statements.now))) }
{
    let mut place = next;
    for statement in statements {
        let after = pass(alloc, f, table, statement, rounds, place, lost, kept)?;
        place = after;
    }
    Ok(place)
}
