//! Second rule: which checks stand behind an equal one on every way from the start of their statement.
ghost use Rattle.std.specs.Prelude.{◌≡◌, [], ◌∷◌, true, OnOk};
ghost use Rattle.checked_tree.specs.declared.statements.CheckedStmt.{out-CheckedStmt};
ghost use Rattle.check_elim.specs.Sets.{IsTable, marking};
ghost use Rattle.check_elim.specs.Following.{Follows, IsOfClasses, is_plain, test_flow, flows_in, flows_of_all};

use crate::lost::{Kept, Lost};
use crate::statements::pass_plain;
use crate::table::Table;
use crate::walk::test;
use checked_tree::{CheckedExpr, CheckedFn, CheckedStmt};
use std::alloc::{AllocError, Global};

/// Marks the checks of a statement that has no parts, from where no class is met. The only refusal is want of memory.
fn follow_whole(
    alloc: Global,
    f: &CheckedFn,
    table: &Table,
    statement: &CheckedStmt,
    kept: &mut Kept,
) -> Result<(), AllocError>
    requires table { IsTable f.now table.now }
    requires classes { IsOfClasses table.now }
    requires plain { is_plain (out-CheckedStmt statement.now) ≡ true }
    ensures { OnOk result (Follows f.now (flows_in f.now statement.now) (marking kept.old) (marking kept.new)) }
{
    let mut lost = Lost::all(alloc, table.size())?;
    pass_plain(alloc, f, table, statement, &mut lost, kept)?;
    Ok(())
}

/// Marks the checks of a test, from where no class is met. The only refusal is want of memory.
fn follow_test(
    alloc: Global,
    f: &CheckedFn,
    table: &Table,
    e: &CheckedExpr,
    kept: &mut Kept,
) -> Result<(), AllocError>
    requires table { IsTable f.now table.now }
    requires classes { IsOfClasses table.now }
    ensures { OnOk result (Follows f.now (test_flow f.now e.now ∷ []) (marking kept.old) (marking kept.new)) }
{
    let mut lost = Lost::all(alloc, table.size())?;
    let _fails = test(alloc, f, table, e, &mut lost, kept)?;
    Ok(())
}

/// Marks the checks of a statement and of its parts to which some way from the start of their own statement comes without an equal one. The
/// only refusal is want of memory.
#[cycle(following)]
fn follow(
    alloc: Global,
    f: &CheckedFn,
    table: &Table,
    statement: &CheckedStmt,
    kept: &mut Kept,
) -> Result<(), AllocError>
    requires table { IsTable f.now table.now }
    requires classes { IsOfClasses table.now }
    ensures { OnOk result (Follows f.now (flows_in f.now statement.now) (marking kept.old) (marking kept.new)) }
{
    match statement {
        CheckedStmt::Empty { line: _ } => follow_whole(alloc, f, table, statement, kept),
        CheckedStmt::Assign {
            line: _,
            slot: _,
            scalar: _,
            value: _,
            checks: _,
        } => follow_whole(alloc, f, table, statement, kept),
        CheckedStmt::AssignAutomatic {
            line: _,
            slot: _,
            hidden: _,
            value: _,
            checks: _,
        } => follow_whole(alloc, f, table, statement, kept),
        CheckedStmt::Store {
            line: _,
            scalar: _,
            place: _,
            value: _,
            checks: _,
        } => follow_whole(alloc, f, table, statement, kept),
        CheckedStmt::Zero {
            line: _,
            place: _,
            size: _,
        } => follow_whole(alloc, f, table, statement, kept),
        CheckedStmt::Call {
            line: _,
            target: _,
            function: _,
            arguments: _,
            checks: _,
        } => follow_whole(alloc, f, table, statement, kept),
        CheckedStmt::Kernel {
            line: _,
            target: _,
            name: _,
            arguments: _,
            pointer: _,
            function: _,
            elem: _,
            size: _,
        } => { follow_whole(alloc, f, table, statement, kept) }
        CheckedStmt::Return {
            line: _,
            value: _,
            checks: _,
        } => follow_whole(alloc, f, table, statement, kept),
        CheckedStmt::If {
            line: _,
            test: e,
            holds,
            fails,
        } => {
            follow_test(alloc, f, table, e.get(), kept)?;
            follow_all(alloc, f, table, holds.as_slice(), kept)?;
            follow_all(alloc, f, table, fails.as_slice(), kept)?;
            Ok(())
        }
        CheckedStmt::While {
            line: _,
            test: e,
            body,
        } => {
            follow_test(alloc, f, table, e.get(), kept)?;
            follow_all(alloc, f, table, body.as_slice(), kept)?;
            Ok(())
        }
    }
}

/// The same of statements. The only refusal is want of memory.
#[cycle(following)]
pub(crate) fn follow_all(
    alloc: Global,
    f: &CheckedFn,
    table: &Table,
    statements: &[CheckedStmt],
    kept: &mut Kept,
) -> Result<(), AllocError>
    requires table { IsTable f.now table.now }
    requires classes { IsOfClasses table.now }
    ensures { OnOk result (Follows f.now (flows_of_all f.now statements.now) (marking kept.old) (marking kept.new)) }
{
    for statement in statements {
        follow(alloc, f, table, statement, kept)?;
    }
    Ok(())
}
