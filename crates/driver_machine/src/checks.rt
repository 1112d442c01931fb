//! Run-time checks.
ghost use Rattle.std.specs.Prelude.{◌≡◌, [], option_copied, option_map};
ghost use Rattle.checked_tree.specs.Conditions as spec;
ghost use Rattle.checked_tree.specs.Eval as checks;

use crate::memory::is_clear;
use crate::state::State;
use crate::sums::form_value;
use checked_tree::{Check, CheckedExpr, CheckedFn, Cond, Stop};
use dep_expr::Lin;
use sd_base::FailKind;
use sqlite_items::Items;

/// The value of a form, if there is one.
fn optional_value(
    s: &State<'_>,
    atoms: &Items<CheckedExpr>,
    form: &Option<Lin>,
) -> Result<Option<i128>, Stop>
    ensures { result ≡ spec.optional_value atoms.now s.now form.now }
{
    match form {
        None => Ok(None),
        Some(form) => {
            let value = form_value(s, atoms, form)?;
            Ok(Some(value))
        }
    }
}

/// Whether there is a number, and it is 0.
fn is_zero(number: Option<i128>) -> bool
    ensures guard { result ≡ spec.is_excused number }
    ensures end { result ≡ spec.is_end number }
{
    match number {
        None => false,
        Some(value) => value == 0,
    }
}

/// Whether a gap is a multiple of a size.
fn is_multiple(gap: i128, size: u32) -> bool
    ensures { result ≡ spec.is_multiple gap size }
{
    if size == 0 {
        gap == 0
    } else {
        gap % i128::from(size) == 0
    }
}

/// Whether a condition holds. It is `Wild` where a byte is read that is not inside, or a sum is past its limit.
#[tactic(auto, unfolding(checked_tree::specs::Conditions::condition))]
fn condition(s: &State<'_>, atoms: &Items<CheckedExpr>, cond: &Cond) -> Result<bool, Stop>
    ensures { result ≡ spec.condition atoms.now s.now cond.now }
{
    match cond {
        Cond::Le(inequality) => {
            let value = form_value(s, atoms, &inequality.left)?;
            let guard = optional_value(s, atoms, &inequality.guard)?;
            Ok(is_zero(guard) || value <= 0)
        }
        Cond::Aligned { gap, size, guard } => {
            let gap = form_value(s, atoms, gap)?;
            let guard = form_value(s, atoms, guard)?;
            Ok(guard == 0 || is_multiple(gap, *size))
        }
        Cond::NonZero(form) => {
            let value = form_value(s, atoms, form)?;
            Ok(value != 0)
        }
        Cond::Equal(form, wanted) => {
            let value = form_value(s, atoms, form)?;
            Ok(value == i128::from(*wanted))
        }
        Cond::Term { at, new } => {
            let at = form_value(s, atoms, at)?;
            let new = optional_value(s, atoms, new)?;
            let clear = is_clear(s.memory, at, 1)?;
            Ok(!clear || is_zero(new))
        }
        Cond::Kept { tag, new, at, size } => {
            let tag = form_value(s, atoms, tag)?;
            let new = form_value(s, atoms, new)?;
            let at = form_value(s, atoms, at)?;
            if tag == new {
                Ok(true)
            } else {
                is_clear(s.memory, at, *size)
            }
        }
    }
}

/// The test of one check, which fails at its line by its kind.
fn test(s: &State<'_>, f: &CheckedFn, check: Option<&Check>) -> Result<(), Stop>
    ensures { result ≡ checks.test f.now s.now (option_copied check.entry) }
{
    match check {
        Some(check) => {
            let held = condition(s, &f.atoms, &check.cond)?;
            if held {
                Ok(())
            } else {
                Err(Stop::Failed(check.line, FailKind::Check(check.kind)))
            }
        }
        None => Err(Stop::Wild),
    }
}

/// The check with this number, counted from 1.
fn check_of(f: &CheckedFn, id: usize) -> Option<&Check>
    ensures { option_copied result ≡ checks.check_of f.now id }
{
    if id == 0 {
        return None;
    }
    f.checks.get(id - 1)
}

/// The tests of checks, by their numbers, in order.
#[tactic(auto, unfolding(checked_tree::specs::Eval::tests))]
pub fn test_all(s: &State<'_>, f: &CheckedFn, ids: &[usize]) -> Result<(), Stop>
    ensures { result ≡ checks.tests [] f.now s.now ids.now }
{
    for id in ids {
        test(s, f, check_of(f, *id))?;
    }
    Ok(())
}
