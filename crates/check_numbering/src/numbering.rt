//! `number_checks`: the checks that a statement asks for, behind those of its function so far.
ghost use Rattle.deputy_rules.specs.Numbering as spec;
ghost use Rattle.deputy_rules.specs.Numbering.{Numbers};

use crate::Atoms;
use crate::conditions::condition;
use checked_tree::Check;
use deputy_rules::{Asked, DerivingRefusal};
use sqlite_items::Items;
use std::alloc::Global;

/// One check more.
#[tactic(auto, unfolding(deputy_rules::specs::Numbering::with_check))]
fn with_check(
    alloc: Global,
    atoms: &mut Atoms,
    checks: &mut Items<Check>,
    asked: &Asked,
) -> Result<(), DerivingRefusal>
    ensures { Numbers (spec.with_check (record { atoms = atoms.old; checks = checks.old }) asked.now) result (record { atoms = atoms.new; checks = checks.new }) }
{
    let cond = condition(alloc, atoms, &asked.cond)?;
    let id = checks.as_slice().len() + 1;
    checks.push(Check {
        id,
        line: asked.line,
        kind: asked.kind,
        cond,
    })?;
    Ok(())
}

/// The checks that are asked for, one after another, behind those of the function so far: numbered from 1, over the numbers of the function's atoms. Equal
/// expressions are one atom.
///
/// `NoRule` where a linear form of a check is not light, which is so in no text within the limits. After a refusal neither list is to be used.
pub fn number_checks(
    alloc: Global,
    atoms: &mut Atoms,
    checks: &mut Items<Check>,
    asked: &[Asked],
) -> Result<(), DerivingRefusal>
    ensures { Numbers (spec.numbered asked.now (record { atoms = atoms.old; checks = checks.old })) result (record { atoms = atoms.new; checks = checks.new }) }
{
    for one in asked {
        with_check(alloc, atoms, checks, one)?;
    }
    Ok(())
}
