//! Checked statements as text, each with its line and the numbers of its own checks.
use super::forms::{put, write_form, write_ids, write_scalar, write_slot};
use checked_tree::{Argument, CheckedStmt, Part, PointerOperand, Sum, Target};
use std::fmt::Write;

fn write_target(out: &mut String, names: &[String], target: Target) {
    match target {
        Target::Int { slot, scalar } => {
            write_slot(out, names, slot);
            put(out, " = ");
            write_scalar(out, scalar);
            put(out, " ");
        }
        Target::Nullterm { slot } => {
            write_slot(out, names, slot);
            put(out, " = text ");
        }
        Target::Automatic { slot, hidden } => {
            write_slot(out, names, slot);
            put(out, " with ");
            write_slot(out, names, hidden);
            put(out, " = ");
        }
    }
}

/// What a part of a sum is multiplied by, where that is not 1.
fn write_times(out: &mut String, times: i64) {
    if times != 1 {
        let _ = write!(out, "{times}*");
    }
}

/// A part of a sum of bounds.
fn write_part(out: &mut String, names: &[String], part: &Part) {
    match part {
        Part::Constant { times, value } => {
            write_times(out, *times);
            let _ = write!(out, "{value}");
        }
        Part::Atom { times, atom } => {
            write_times(out, *times);
            write_form(out, names, atom.get());
        }
    }
}

fn is_zero(part: &Part) -> bool {
    match part {
        Part::Constant { times, value } => *times == 0 || *value == 0,
        Part::Atom { .. } => false,
    }
}

/// A sum of bounds: its parts as they stand, but constants that are 0.
fn write_sum(out: &mut String, names: &[String], sum: &Sum) {
    let mut is_first = true;
    for part in sum.parts.as_slice() {
        if !is_zero(part) {
            if !is_first {
                put(out, " + ");
            }
            write_part(out, names, part);
            is_first = false;
        }
    }
    if is_first {
        put(out, "0");
    }
}

/// A pointer with its bounds.
fn write_operand(out: &mut String, names: &[String], operand: &PointerOperand) {
    write_form(out, names, operand.value.get());
    put(out, " in [");
    write_sum(out, names, &operand.low);
    put(out, ", ");
    write_sum(out, names, &operand.high);
    put(out, ")")
}

fn write_argument(out: &mut String, names: &[String], argument: &Argument) {
    write_scalar(out, argument.scalar);
    put(out, " ");
    write_form(out, names, argument.value.get());
}

fn write_arguments(out: &mut String, names: &[String], arguments: &[Argument]) {
    let mut is_first = true;
    for argument in arguments {
        if !is_first {
            put(out, ", ");
        }
        write_argument(out, names, argument);
        is_first = false;
    }
}

fn write_optional_target(out: &mut String, names: &[String], target: Option<Target>) {
    match target {
        Some(target) => write_target(out, names, target),
        None => {}
    }
}

/// Statements one after another, each with its line.
#[cycle(bodies)]
fn write_body(out: &mut String, names: &[String], body: &[CheckedStmt]) {
    put(out, "{ ");
    for statement in body {
        write_statement(out, names, statement);
        put(out, " ");
    }
    put(out, "}");
}

/// A checked statement, with its line.
#[cycle(bodies)]
pub fn write_statement(out: &mut String, names: &[String], statement: &CheckedStmt) {
    match statement {
        CheckedStmt::Empty { line } => {
            let _ = write!(out, "{line} nothing;");
        }
        CheckedStmt::Assign {
            line,
            slot,
            scalar,
            value,
            checks,
        } => {
            let _ = write!(out, "{line} ");
            write_slot(out, names, *slot);
            put(out, " = ");
            write_scalar(out, *scalar);
            put(out, " ");
            write_form(out, names, value.get());
            write_ids(out, checks.as_slice());
            put(out, ";");
        }
        CheckedStmt::AssignAutomatic {
            line,
            slot,
            hidden,
            value,
            checks,
        } => {
            let _ = write!(out, "{line} ");
            write_slot(out, names, *slot);
            put(out, " with ");
            write_slot(out, names, *hidden);
            put(out, " = ");
            write_operand(out, names, value);
            write_ids(out, checks.as_slice());
            put(out, ";");
        }
        CheckedStmt::Store {
            line,
            scalar,
            place,
            value,
            checks,
        } => {
            let _ = write!(out, "{line} ");
            write_form(out, names, place.get());
            put(out, " = ");
            write_scalar(out, *scalar);
            put(out, " ");
            write_form(out, names, value.get());
            write_ids(out, checks.as_slice());
            put(out, ";");
        }
        CheckedStmt::Zero { line, place, size } => {
            let _ = write!(out, "{line} zero ");
            write_form(out, names, place.get());
            let _ = write!(out, " of {size};");
        }
        CheckedStmt::Call {
            line,
            target,
            function,
            arguments,
            checks,
        } => {
            let _ = write!(out, "{line} ");
            write_optional_target(out, names, *target);
            let _ = write!(out, "call {function}(");
            write_arguments(out, names, arguments.as_slice());
            put(out, ")");
            write_ids(out, checks.as_slice());
            put(out, ";");
        }
        CheckedStmt::Kernel {
            line,
            target,
            name,
            arguments,
            pointer,
            function,
            elem,
            size,
        } => {
            let _ = write!(out, "{line} ");
            write_optional_target(out, names, *target);
            let _ = write!(out, "kernel {name:?}(");
            write_arguments(out, names, arguments.as_slice());
            if let Some(operand) = pointer {
                write_operand(out, names, operand);
            }
            let _ = write!(out, ") handler {function} element {elem} of {size};");
        }
        CheckedStmt::Return {
            line,
            value,
            checks,
        } => {
            let _ = write!(out, "{line} return");
            if let Some(argument) = value {
                put(out, " ");
                write_argument(out, names, argument);
            }
            write_ids(out, checks.as_slice());
            put(out, ";");
        }
        CheckedStmt::If {
            line,
            test,
            holds,
            fails,
        } => {
            let _ = write!(out, "{line} if ");
            write_form(out, names, test.get());
            put(out, " ");
            write_body(out, names, holds.as_slice());
            put(out, " else ");
            write_body(out, names, fails.as_slice());
        }
        CheckedStmt::While { line, test, body } => {
            let _ = write!(out, "{line} while ");
            write_form(out, names, test.get());
            put(out, " ");
            write_body(out, names, body.as_slice());
        }
    }
}
