//! Sums over whole numbers, as checks and the bounds of pointers are written. A sum of 2^126 or more has no meaning: no rule writes one.
ghost use Rattle.std.specs.Prelude.{◌≡◌, ◌≤◌, ◌<◌, ◌+ℤ◌, ◌*ℤ◌, pos, unsigned_abs, IfOk, IsTrue};
ghost use Rattle.checked_tree.specs.Conditions as spec;
ghost use Rattle.checked_tree.specs.Numbers.{limited, sum_limit};
ghost use Rattle.checked_tree.specs.Operands as operands;

use crate::state::State;
use crate::unchecked::{atom_value, peek};
use checked_tree::{CheckedExpr, Part, Stop, Sum};
use dep_expr::Lin;
use sqlite_items::Items;

/// A sum whose size is below 2^126.
fn limited(z: i128) -> Result<i128, Stop>
    ensures value { result ≡ limited z }
    ensures range { IfOk result (λ sum. unsigned_abs sum < sum_limit) }
{
    if z.unsigned_abs() < 1 << 126 {
        Ok(z)
    } else {
        Err(Stop::Wild)
    }
}

/// A multiple of a number.
fn multiple(times: i64, value: i64) -> i128
    ensures value { result ≡ times *ℤ value }
    ensures range { unsigned_abs result ≤ sum_limit }
{
    i128::from(times) * i128::from(value)
}

/// A sum with one more summand.
fn with_more(sum: i128, more: i128) -> Result<i128, Stop>
    requires sum { unsigned_abs sum < sum_limit }
    requires more { unsigned_abs more ≤ sum_limit }
    ensures value { result ≡ limited (sum +ℤ more) }
    ensures range { IfOk result (λ next. unsigned_abs next < sum_limit) }
{
    limited(sum + more)
}

/// A sum so far, with the terms still to add.
fn sum_from(
    s: &State<'_>,
    atoms: &Items<CheckedExpr>,
    terms: &[(i64, usize)],
    first: i128,
) -> Result<i128, Stop>
    requires { unsigned_abs first < sum_limit }
    ensures value { result ≡ spec.sum_from atoms.now s.now terms.now first }
    ensures range { IfOk result (λ sum. unsigned_abs sum < sum_limit) }
{
    let mut sum = first;
    for term in terms {
        let value = atom_value(s, atoms.get(term.1))?;
        sum = with_more(sum, multiple(term.0, value))?;
    }
    Ok(sum)
}

/// The value of a linear form over the atoms of a function.
#[tactic(auto, unfolding(checked_tree::specs::Conditions::form_value))]
pub fn form_value(s: &State<'_>, atoms: &Items<CheckedExpr>, form: &Lin) -> Result<i128, Stop>
    ensures value { result ≡ spec.form_value atoms.now s.now form.now }
    ensures range { IfOk result (λ sum. unsigned_abs sum < sum_limit) }
{
    let first = limited(form.constant())?;
    sum_from(s, atoms, form.terms(), first)
}

/// The value of a part; an expression is evaluated without its checks.
fn part_value(s: &State<'_>, part: &Part) -> Result<i128, Stop>
    ensures value { result ≡ operands.part_value s.now part.now }
    ensures range { IfOk result (λ z. unsigned_abs z ≤ sum_limit) }
{
    match part {
        Part::Constant { times, value } => Ok(multiple(*times, *value)),
        Part::Atom { times, atom } => {
            let value = peek(s, atom.get())?;
            Ok(multiple(*times, value))
        }
    }
}

/// The value of a sum over expressions.
#[tactic(auto, unfolding(checked_tree::specs::Operands::sum_value))]
pub fn sum_value(s: &State<'_>, sum: &Sum) -> Result<i128, Stop>
    ensures { result ≡ operands.sum_value s.now sum.now }
{
    let mut total = 0;
    for part in sum.parts.as_slice() {
        total = with_more(total, part_value(s, part)?)?;
    }
    Ok(total)
}
