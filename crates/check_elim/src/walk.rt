//! What expressions make of the lost facts.
ghost use Rattle.std.specs.Prelude.{◌≡◌, IfOk, OnOk, true, false};
ghost use Rattle.check_elim.specs.Direct.{reading, value_act, behind, noted, on_edge, edges, value_of, holds_of, fails_of, asked_of};
ghost use Rattle.check_elim.specs.Sets.{facts, IsTable, ops_of, size_of, size_in, marking};

use crate::edges::edge;
use crate::lost::{Kept, Lost};
use crate::table::Table;
use checked_tree::{CheckedExpr, CheckedFn, Logic, PointerSum, Unary};
use std::alloc::{AllocError, Global};

/// What is lost behind a value. The only refusal is want of memory.
#[tactic(auto, unfolding(crate::specs::Direct::reading))]
pub(crate) fn value(
    alloc: Global,
    f: &CheckedFn,
    table: &Table,
    e: &CheckedExpr,
    lost: &mut Lost,
    kept: &mut Kept,
) -> Result<(), AllocError>
    requires table { IsTable f.now table.now }
    requires size { size_of lost.old ≡ size_in table.now }
    ensures length { size_of lost.new ≡ size_of lost.old }
    ensures facts { OnOk result (facts lost.new ≡ behind (value_of (reading (ops_of f.now table.now) f.now.slots e.now)) (facts lost.old)) }
    ensures marks { OnOk result (marking kept.new ≡ noted (value_of (reading (ops_of f.now table.now) f.now.slots e.now)) (facts lost.old) (marking kept.old)) }
{
    match e {
        CheckedExpr::Number {
            value: _,
            scalar: _,
        } => Ok(()),
        CheckedExpr::Null => Ok(()),
        CheckedExpr::Local { slot: _ } => Ok(()),
        CheckedExpr::Block { base: _ } => Ok(()),
        CheckedExpr::Through { pointer, checks } => {
            value(alloc, f, table, pointer.get(), lost, kept)?;
            lost.pass(f, table, checks.as_slice(), kept);
            Ok(())
        }
        CheckedExpr::Element {
            pointer,
            index,
            size: _,
            checks,
        } => {
            value(alloc, f, table, pointer.get(), lost, kept)?;
            value(alloc, f, table, index.get(), lost, kept)?;
            lost.pass(f, table, checks.as_slice(), kept);
            Ok(())
        }
        CheckedExpr::Field {
            place,
            offset: _,
            checks,
        } => {
            value(alloc, f, table, place.get(), lost, kept)?;
            lost.pass(f, table, checks.as_slice(), kept);
            Ok(())
        }
        CheckedExpr::Load { scalar: _, place } => value(alloc, f, table, place.get(), lost, kept),
        CheckedExpr::AddressOf { place } => value(alloc, f, table, place.get(), lost, kept),
        CheckedExpr::Moved {
            sum,
            pointer,
            by,
            size: _,
            checks,
        } => {
            match sum {
                PointerSum::PointerPlus => {
                    value(alloc, f, table, pointer.get(), lost, kept)?;
                    value(alloc, f, table, by.get(), lost, kept)?;
                }
                PointerSum::PlusPointer => {
                    value(alloc, f, table, by.get(), lost, kept)?;
                    value(alloc, f, table, pointer.get(), lost, kept)?;
                }
                PointerSum::PointerMinus => {
                    value(alloc, f, table, pointer.get(), lost, kept)?;
                    value(alloc, f, table, by.get(), lost, kept)?;
                }
            }
            lost.pass(f, table, checks.as_slice(), kept);
            Ok(())
        }
        CheckedExpr::Unary {
            op: _,
            scalar: _,
            of,
        } => value(alloc, f, table, of.get(), lost, kept),
        CheckedExpr::Binary {
            op: _,
            scalar: _,
            left,
            right,
            checks,
        } => {
            value(alloc, f, table, left.get(), lost, kept)?;
            value(alloc, f, table, right.get(), lost, kept)?;
            lost.pass(f, table, checks.as_slice(), kept);
            Ok(())
        }
        CheckedExpr::Compare {
            op: _,
            scalar: _,
            left,
            right,
        } => {
            value(alloc, f, table, left.get(), lost, kept)?;
            value(alloc, f, table, right.get(), lost, kept)
        }
        CheckedExpr::Logical { op, left, right } => {
            value(alloc, f, table, left.get(), lost, kept)?;
            let mut other = lost.copied(alloc)?;
            match op {
                Logic::And => {
                    let fact = edge(alloc, f, table, left.get(), true)?;
                    lost.find(alloc, f, table, fact)?;
                    let fact = edge(alloc, f, table, left.get(), false)?;
                    other.find(alloc, f, table, fact)?;
                    value(alloc, f, table, right.get(), lost, kept)?;
                    lost.join(&other);
                    Ok(())
                }
                Logic::Or => {
                    let fact = edge(alloc, f, table, left.get(), true)?;
                    lost.find(alloc, f, table, fact)?;
                    let fact = edge(alloc, f, table, left.get(), false)?;
                    other.find(alloc, f, table, fact)?;
                    value(alloc, f, table, right.get(), &mut other, kept)?;
                    lost.join(&other);
                    Ok(())
                }
            }
        }
    }
}

/// What is lost behind the edge of a leaf where it holds; the result is what is lost behind the other. The only refusal is want of memory.
fn branch(
    alloc: Global,
    f: &CheckedFn,
    table: &Table,
    e: &CheckedExpr,
    lost: &mut Lost,
    kept: &mut Kept,
) -> Result<Lost, AllocError>
    requires table { IsTable f.now table.now }
    requires size { size_of lost.old ≡ size_in table.now }
    ensures length { size_of lost.new ≡ size_of lost.old }
    ensures other { IfOk result (λ other. size_of other ≡ size_of lost.old) }
    ensures holds { OnOk result (facts lost.new ≡ on_edge (ops_of f.now table.now) (edges (reading (ops_of f.now table.now) f.now.slots e.now)) true (value_of (reading (ops_of f.now table.now) f.now.slots e.now)) (facts lost.old)) }
    ensures fails { IfOk result (λ other. facts other ≡ on_edge (ops_of f.now table.now) (edges (reading (ops_of f.now table.now) f.now.slots e.now)) false (value_of (reading (ops_of f.now table.now) f.now.slots e.now)) (facts lost.old)) }
    ensures marks { OnOk result (marking kept.new ≡ noted (value_of (reading (ops_of f.now table.now) f.now.slots e.now)) (facts lost.old) (marking kept.old)) }
{
    value(alloc, f, table, e, lost, kept)?;
    let mut other = lost.copied(alloc)?;
    let fact = edge(alloc, f, table, e, false)?;
    other.find(alloc, f, table, fact)?;
    let fact = edge(alloc, f, table, e, true)?;
    lost.find(alloc, f, table, fact)?;
    Ok(other)
}

/// What is lost where a test holds; the result is what is lost where it does not. The only refusal is want of memory.
#[tactic(auto, unfolding(crate::specs::Direct::reading))]
pub(crate) fn test(
    alloc: Global,
    f: &CheckedFn,
    table: &Table,
    e: &CheckedExpr,
    lost: &mut Lost,
    kept: &mut Kept,
) -> Result<Lost, AllocError>
    requires table { IsTable f.now table.now }
    requires size { size_of lost.old ≡ size_in table.now }
    ensures length { size_of lost.new ≡ size_of lost.old }
    ensures other { IfOk result (λ other. size_of other ≡ size_of lost.old) }
    ensures holds { OnOk result (facts lost.new ≡ holds_of (reading (ops_of f.now table.now) f.now.slots e.now) (facts lost.old)) }
    ensures fails { IfOk result (λ other. facts other ≡ fails_of (reading (ops_of f.now table.now) f.now.slots e.now) (facts lost.old)) }
    ensures marks { OnOk result (marking kept.new ≡ asked_of (reading (ops_of f.now table.now) f.now.slots e.now) (facts lost.old) (marking kept.old)) }
{
    match e {
        CheckedExpr::Number {
            value: _,
            scalar: _,
        } => branch(alloc, f, table, e, lost, kept),
        CheckedExpr::Null => branch(alloc, f, table, e, lost, kept),
        CheckedExpr::Local { slot: _ } => branch(alloc, f, table, e, lost, kept),
        CheckedExpr::Block { base: _ } => branch(alloc, f, table, e, lost, kept),
        CheckedExpr::Through {
            pointer: _,
            checks: _,
        } => branch(alloc, f, table, e, lost, kept),
        CheckedExpr::Element {
            pointer: _,
            index: _,
            size: _,
            checks: _,
        } => branch(alloc, f, table, e, lost, kept),
        CheckedExpr::Field {
            place: _,
            offset: _,
            checks: _,
        } => branch(alloc, f, table, e, lost, kept),
        CheckedExpr::Load {
            scalar: _,
            place: _,
        } => branch(alloc, f, table, e, lost, kept),
        CheckedExpr::AddressOf { place: _ } => branch(alloc, f, table, e, lost, kept),
        CheckedExpr::Moved {
            sum: _,
            pointer: _,
            by: _,
            size: _,
            checks: _,
        } => branch(alloc, f, table, e, lost, kept),
        CheckedExpr::Unary { op, scalar: _, of } => {
            match op {
                Unary::Not => {
                    let mut other = test(alloc, f, table, of.get(), lost, kept)?;
                    std::mem::swap(lost, &mut other);
                    Ok(other)
                }
                Unary::Plus => branch(alloc, f, table, e, lost, kept),
                Unary::Negative => branch(alloc, f, table, e, lost, kept),
                Unary::Complement => branch(alloc, f, table, e, lost, kept),
                Unary::Cast => branch(alloc, f, table, e, lost, kept),
            }
        }
        CheckedExpr::Binary {
            op: _,
            scalar: _,
            left: _,
            right: _,
            checks: _,
        } => branch(alloc, f, table, e, lost, kept),
        CheckedExpr::Compare {
            op: _,
            scalar: _,
            left: _,
            right: _,
        } => branch(alloc, f, table, e, lost, kept),
        CheckedExpr::Logical { op, left, right } => {
            match op {
                Logic::And => {
                    let mut fails = test(alloc, f, table, left.get(), lost, kept)?;
                    let second = test(alloc, f, table, right.get(), lost, kept)?;
                    fails.join(&second);
                    Ok(fails)
                }
                Logic::Or => {
                    let mut second = test(alloc, f, table, left.get(), lost, kept)?;
                    let fails = test(alloc, f, table, right.get(), &mut second, kept)?;
                    lost.join(&second);
                    Ok(fails)
                }
            }
        }
    }
}
