//! `accept`: whether a driver text is accepted.
ghost use Rattle.std.specs.Prelude.{◌≡◌, ◌≢◌, ◌≤◌, count_by, ◌==◌, IfOk, Err};
ghost use Rattle.c_tree.specs.ShortUnit.{IsShortUnit};
ghost use Rattle.driver_front.specs.Verdict.{Verdict, unit_in, verdict_of};
ghost use Rattle.driver_front.specs.Parts.{type_refusal as of_layout, rule_refusal as of_rules};

use crate::DriverRefusal;
use crate::reading::read_driver;
use c_tree::Unit;
use check_numbering::RuleRefusal;
use deputy_layouts::layouts;
use deputy_types::TypeRefusal;
use rules_stmt::check_unit;
use safe_code::SafeDriver;
use std::alloc::Global;

/// What becomes of a driver text: the driver of this file with the checked unit that the rules derive from it, or its refusal.
///
/// Refused by the first of these that holds: it is not read (`NotAWord`, `NoItem`, `Limit`); a declaration stands against the rules of declarations
/// (`NoDecl`) or passes a limit (`Limit`); no rule derives what stands in a function (`NoRule`), or it has too many locals (`Limit`). `Memory` where memory is wanting. A text has one verdict (`one_verdict`), so this is the only answer.
pub fn accept(alloc: Global, file: u8, text: &[u8]) -> Result<SafeDriver, DriverRefusal>
    requires { count_by (λ byte. byte == 10) text.now ≤ 4294967294 }
    ensures verdict { result ≢ Err DriverRefusal.Memory → Verdict text.now (unit_in result) }
    ensures file { IfOk result (λ driver. driver.file ≡ file) }
{
    match read_driver(alloc, text) {
        Ok(unit) => accept_unit(alloc, file, &unit),
        Err(refusal) => Err(refusal),
    }
}

/// What becomes of a text that is read.
#[tactic(auto, unfolding(crate::specs::Verdict::verdict_of))]
fn accept_unit(alloc: Global, file: u8, unit: &Unit) -> Result<SafeDriver, DriverRefusal>
    requires { IsShortUnit unit.now }
    ensures verdict { result ≢ Err DriverRefusal.Memory → unit_in result ≡ verdict_of unit.now }
    ensures file { IfOk result (λ driver. driver.file ≡ file) }
{
    let types = match layouts(alloc, unit) {
        Ok(types) => types,
        Err(refusal) => return Err(type_refusal(refusal)),
    };
    match check_unit(alloc, unit, types) {
        Ok(checked) => Ok(SafeDriver::join(file, checked)),
        Err(refusal) => Err(rule_refusal(refusal)),
    }
}

/// A refusal of the declarations.
fn type_refusal(refusal: TypeRefusal) -> DriverRefusal
    ensures { result ≡ of_layout refusal }
{
    match refusal {
        TypeRefusal::NoDecl(line) => DriverRefusal::NoDecl(line),
        TypeRefusal::Limit(line, kind) => DriverRefusal::Limit(line, kind),
        TypeRefusal::Memory => DriverRefusal::Memory,
    }
}

/// A refusal of the rules.
fn rule_refusal(refusal: RuleRefusal) -> DriverRefusal
    ensures { result ≡ of_rules refusal }
{
    match refusal {
        RuleRefusal::NoRule(line) => DriverRefusal::NoRule(line),
        RuleRefusal::Limit(line, kind) => DriverRefusal::Limit(line, kind),
        RuleRefusal::Memory => DriverRefusal::Memory,
    }
}
