//! What becomes of a text: read, laid out and checked.
ghost use Rattle.std.specs.Prelude.{IfOk};
ghost use Rattle.c_tree.specs.ShortUnit.{IsShortUnit};

use super::bodies::write_statement;
use super::checks::write_checks;
use super::forms::{put, write_form, write_scalar};
use super::shapes::{write_offsets, write_shape, write_table};
use super::slots::slot_names;
use c_tree::{Function, Item, Unit};
use check_numbering::RuleRefusal;
use checked_tree::{CheckedExpr, CheckedFn, CheckedStmt, CheckedUnit};
use deputy_layouts::layouts;
use deputy_types::{TypeRefusal, TypeTable};
use driver_front::{DriverRefusal, accept, read_driver};
use rules_stmt::check_unit;
use safe_code::SafeDriver;
use std::alloc::{AllocError, Global};
use std::fmt::Write;

/// What becomes of a text, part by part: the tables look at what the parts make of it.
#[derive(Drop)]
enum Outcome {
    Unread(DriverRefusal),
    Undeclared(TypeRefusal),
    Underived(RuleRefusal),
    Checked(Unit, CheckedUnit),
}

/// The unit of a text.
fn unit_of(alloc: Global, text: &[u8]) -> Result<Unit, DriverRefusal>
    ensures { IfOk result (λ unit. IsShortUnit unit) }
{
    if text.len() > 1_048_576 {
        return Err(DriverRefusal::Memory);
    }
    let unit = read_driver(alloc, text);
    unit
}

fn checked(alloc: Global, unit: Unit) -> Outcome
    requires { IsShortUnit unit }
{
    let types = match layouts(alloc, &unit) {
        Ok(types) => types,
        Err(refusal) => return Outcome::Undeclared(refusal),
    };
    match check_unit(alloc, &unit, types) {
        Ok(checked) => Outcome::Checked(unit, checked),
        Err(refusal) => Outcome::Underived(refusal),
    }
}

fn outcome_of(alloc: Global, text: &str) -> Outcome {
    match unit_of(alloc, text.as_bytes()) {
        Ok(unit) => checked(alloc, unit),
        Err(refusal) => Outcome::Unread(refusal),
    }
}

/// The functions with bodies, in text order.
fn function(unit: &Unit, number: usize) -> Option<&Function> {
    let mut before = 0usize;
    for item in unit.items.as_slice() {
        if let Item::Function(f) = item {
            if before == number {
                return Some(f);
            }
            before = before.saturating_add(1);
        }
    }
    None
}

/// What of a function is written.
#[derive(Clone, Copy)]
pub enum View {
    /// Its checks.
    Checks,
    /// Its statements but the last, the added `return`.
    Body,
    /// How many parameters it has, its result, and the shapes of its slots.
    Slots,
    /// Its atoms by number.
    Atoms,
}

/// Its statements but the last, each on a line of its own with two spaces before it.
fn write_front(out: &mut String, names: &[String], body: &[CheckedStmt]) {
    let mut left = body.len();
    for statement in body {
        if left > 1 {
            put(out, "  ");
            write_statement(out, names, statement);
            put(out, "\n");
        }
        left = left.saturating_sub(1);
    }
}

/// How many parameters it has, its result, and its shapes.
fn write_slots(out: &mut String, checked: &CheckedFn) {
    let _ = write!(out, "  {} parameters, result ", checked.params);
    write_scalar(out, checked.result);
    put(out, "\n");
    for shape in checked.slots.as_slice() {
        put(out, "  ");
        write_shape(out, shape);
        put(out, "\n");
    }
}

/// Its atoms, each on a line of its own.
fn write_atoms(out: &mut String, names: &[String], atoms: &[CheckedExpr]) {
    for atom in atoms {
        put(out, "  ");
        write_form(out, names, atom);
        put(out, "\n");
    }
}

fn write_view(
    alloc: Global,
    out: &mut String,
    view: View,
    line: u32,
    f: &Function,
    checked: &CheckedFn,
) {
    let Ok(names) = slot_names(alloc, f) else {
        return;
    };
    match view {
        View::Checks => write_checks(out, names.as_slice(), checked, line),
        View::Body => write_front(out, names.as_slice(), checked.body.as_slice()),
        View::Slots => write_slots(out, checked),
        View::Atoms => write_atoms(out, names.as_slice(), checked.atoms.as_slice()),
    }
}

/// Why a text is not read.
fn write_unread(out: &mut String, refusal: DriverRefusal) {
    let _ = writeln!(out, "  {refusal:?}");
}

/// Why its declarations are refused.
fn write_undeclared(out: &mut String, refusal: TypeRefusal) {
    let _ = writeln!(out, "  {refusal:?}");
}

/// Why the rules refuse it. `NoRule` on this line is written `no rule`.
fn write_underived(out: &mut String, refusal: RuleRefusal, line: u32) {
    if refusal == RuleRefusal::NoRule(line) {
        put(out, "  no rule\n");
    } else {
        let _ = writeln!(out, "  {refusal:?}");
    }
}

/// One view of the function with this number.
fn write_function(
    alloc: Global,
    out: &mut String,
    number: usize,
    view: View,
    line: u32,
    unit: &Unit,
    checked: &CheckedUnit,
) {
    match (
        function(unit, number),
        checked.functions.as_slice().get(number),
    ) {
        (Some(f), Some(g)) => write_view(alloc, out, view, line, f, g),
        _ => put(out, "  no such function\n"),
    }
}

/// One view of the function with this number, or why the text is refused. `NoRule` on this line is written `no rule`.
pub fn seen(alloc: Global, text: &str, number: usize, view: View, line: u32) -> String {
    let mut out = String::new(alloc);
    match outcome_of(alloc, text) {
        Outcome::Unread(refusal) => write_unread(&mut out, refusal),
        Outcome::Undeclared(refusal) => write_undeclared(&mut out, refusal),
        Outcome::Underived(refusal) => write_underived(&mut out, refusal, line),
        Outcome::Checked(unit, checked) => {
            write_function(alloc, &mut out, number, view, line, &unit, &checked)
        }
    }
    out
}

/// What a text declares.
#[derive(Drop)]
enum TextTypes {
    Unread(DriverRefusal),
    Refused(TypeRefusal),
    Laid(TypeTable),
}

/// The table of a text's types, or why it has none.
fn types_of(alloc: Global, text: &str) -> TextTypes {
    match unit_of(alloc, text.as_bytes()) {
        Ok(unit) => match layouts(alloc, &unit) {
            Ok(table) => TextTypes::Laid(table),
            Err(refusal) => TextTypes::Refused(refusal),
        },
        Err(refusal) => TextTypes::Unread(refusal),
    }
}

/// The layout of a text, whole or where the members of its structs lie alone; or why it is refused.
pub fn laid(alloc: Global, text: &str, whole: bool) -> String {
    let mut out = String::new(alloc);
    match types_of(alloc, text) {
        TextTypes::Unread(refusal) => write_unread(&mut out, refusal),
        TextTypes::Refused(refusal) => write_undeclared(&mut out, refusal),
        TextTypes::Laid(table) => {
            if whole {
                write_table(&mut out, &table)
            } else {
                write_offsets(&mut out, table.structs())
            }
        }
    }
    out
}

/// What becomes of a text, by the call that users have.
fn accepted(alloc: Global, text: &[u8]) -> Result<SafeDriver, DriverRefusal> {
    if text.len() > 1_048_576 {
        return Err(DriverRefusal::Memory);
    }
    let outcome = accept(alloc, 1, text);
    outcome
}

/// What becomes of a text, in one line.
pub fn verdict(alloc: Global, text: &str) -> String {
    let mut out = String::new(alloc);
    match accepted(alloc, text.as_bytes()) {
        Ok(_) => put(&mut out, "  accepted\n"),
        Err(refusal) => write_unread(&mut out, refusal),
    }
    out
}
