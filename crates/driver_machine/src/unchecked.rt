//! Evaluation without checks.
ghost use Rattle.std.specs.Prelude.{◌≡◌, IfOk, IsTrue, option_copied};
ghost use Rattle.checked_tree.specs.Conditions as spec;
ghost use Rattle.checked_tree.specs.Numbers.{is_value};

use crate::memory::load;
use crate::numbers::{arithmetic, comparison, holds, truth, unary};
use crate::places::{element, field, moved};
use crate::state::State;
use checked_tree::{CheckedExpr, Logic, PointerSum, Stop, converted};

/// The value of an expression without its checks: what an atom of a check is, whose own checks were tested before.
#[tactic(auto, unfolding(checked_tree::specs::Conditions::peek))]
pub fn peek(s: &State<'_>, e: &CheckedExpr) -> Result<i64, Stop>
    ensures value { result ≡ spec.peek s.now e.now }
    ensures range { IfOk result (λ z. IsTrue (is_value z)) }
{
    match e {
        CheckedExpr::Number { value, scalar } => Ok(converted(*scalar, i128::from(*value))),
        CheckedExpr::Null => Ok(0),
        CheckedExpr::Local { slot } => Ok(s.local(*slot)),
        CheckedExpr::Block { base } => Ok(i64::from(*base)),
        CheckedExpr::Through { pointer, checks: _ } => {
            let p = peek(s, pointer.get())?;
            Ok(p)
        }
        CheckedExpr::Element {
            pointer,
            index,
            size,
            checks: _,
        } => {
            let p = peek(s, pointer.get())?;
            let i = peek(s, index.get())?;
            element(p, i, *size)
        }
        CheckedExpr::Field {
            place,
            offset,
            checks: _,
        } => {
            let a = peek(s, place.get())?;
            field(a, *offset)
        }
        CheckedExpr::Load { scalar, place } => {
            let a = peek(s, place.get())?;
            load(s.memory, *scalar, a)
        }
        CheckedExpr::AddressOf { place } => peek(s, place.get()),
        CheckedExpr::Moved {
            sum,
            pointer,
            by,
            size,
            checks: _,
        } => match sum {
            PointerSum::PointerPlus => {
                let p = peek(s, pointer.get())?;
                let i = peek(s, by.get())?;
                moved(PointerSum::PointerPlus, *size, p, i)
            }
            PointerSum::PlusPointer => {
                let i = peek(s, by.get())?;
                let p = peek(s, pointer.get())?;
                moved(PointerSum::PlusPointer, *size, p, i)
            }
            PointerSum::PointerMinus => {
                let p = peek(s, pointer.get())?;
                let i = peek(s, by.get())?;
                moved(PointerSum::PointerMinus, *size, p, i)
            }
        },
        CheckedExpr::Unary { op, scalar, of } => {
            let x = peek(s, of.get())?;
            Ok(unary(*op, *scalar, x))
        }
        CheckedExpr::Binary {
            op,
            scalar,
            left,
            right,
            checks: _,
        } => {
            let x = peek(s, left.get())?;
            let y = peek(s, right.get())?;
            arithmetic(*op, *scalar, x, y)
        }
        CheckedExpr::Compare {
            op,
            scalar,
            left,
            right,
        } => {
            let x = peek(s, left.get())?;
            let y = peek(s, right.get())?;
            Ok(comparison(*op, *scalar, x, y))
        }
        CheckedExpr::Logical { op, left, right } => {
            let x = peek(s, left.get())?;
            match op {
                Logic::And => {
                    if holds(x) {
                        let y = peek(s, right.get())?;
                        Ok(truth(holds(y)))
                    } else {
                        Ok(0)
                    }
                }
                Logic::Or => {
                    if holds(x) {
                        Ok(1)
                    } else {
                        let y = peek(s, right.get())?;
                        Ok(truth(holds(y)))
                    }
                }
            }
        }
    }
}

/// The value of an atom, if there is one.
pub fn atom_value(s: &State<'_>, atom: Option<&CheckedExpr>) -> Result<i64, Stop>
    ensures value { result ≡ spec.atom_value s.now (option_copied atom.entry) }
    ensures range { IfOk result (λ z. IsTrue (is_value z)) }
{
    match atom {
        Some(e) => peek(s, e),
        None => Err(Stop::Wild),
    }
}
