//! Evaluation with checks.
ghost use Rattle.std.specs.Prelude.{◌≡◌, [], IfOk, IsTrue};
ghost use Rattle.checked_tree.specs.Eval as spec;
ghost use Rattle.checked_tree.specs.Numbers.{is_value};

use crate::checks::test_all;
use crate::memory::load;
use crate::numbers::{arithmetic, comparison, holds, truth, unary};
use crate::places::{element, field, moved};
use crate::state::State;
use checked_tree::{CheckedExpr, CheckedFn, Logic, PointerSum, Stop, converted};

/// The value of an expression in a frame of this function: its parts left to right, its own checks, its value.
#[tactic(auto, unfolding(checked_tree::specs::Eval::eval))]
pub fn eval(s: &State<'_>, f: &CheckedFn, e: &CheckedExpr) -> Result<i64, Stop>
    ensures value { result ≡ spec.eval [] f.now s.now e.now }
    ensures range { IfOk result (λ z. IsTrue (is_value z)) }
{
    match e {
        CheckedExpr::Number { value, scalar } => Ok(converted(*scalar, i128::from(*value))),
        CheckedExpr::Null => Ok(0),
        CheckedExpr::Local { slot } => Ok(s.local(*slot)),
        CheckedExpr::Block { base } => Ok(i64::from(*base)),
        CheckedExpr::Through { pointer, checks } => {
            let p = eval(s, f, pointer.get())?;
            test_all(s, f, checks.as_slice())?;
            Ok(p)
        }
        CheckedExpr::Element {
            pointer,
            index,
            size,
            checks,
        } => {
            let p = eval(s, f, pointer.get())?;
            let i = eval(s, f, index.get())?;
            test_all(s, f, checks.as_slice())?;
            element(p, i, *size)
        }
        CheckedExpr::Field {
            place,
            offset,
            checks,
        } => {
            let a = eval(s, f, place.get())?;
            test_all(s, f, checks.as_slice())?;
            field(a, *offset)
        }
        CheckedExpr::Load { scalar, place } => {
            let a = eval(s, f, place.get())?;
            load(s.memory, *scalar, a)
        }
        CheckedExpr::AddressOf { place } => eval(s, f, place.get()),
        CheckedExpr::Moved {
            sum,
            pointer,
            by,
            size,
            checks,
        } => match sum {
            PointerSum::PointerPlus => {
                let p = eval(s, f, pointer.get())?;
                let i = eval(s, f, by.get())?;
                test_all(s, f, checks.as_slice())?;
                moved(PointerSum::PointerPlus, *size, p, i)
            }
            PointerSum::PlusPointer => {
                let i = eval(s, f, by.get())?;
                let p = eval(s, f, pointer.get())?;
                test_all(s, f, checks.as_slice())?;
                moved(PointerSum::PlusPointer, *size, p, i)
            }
            PointerSum::PointerMinus => {
                let p = eval(s, f, pointer.get())?;
                let i = eval(s, f, by.get())?;
                test_all(s, f, checks.as_slice())?;
                moved(PointerSum::PointerMinus, *size, p, i)
            }
        },
        CheckedExpr::Unary { op, scalar, of } => {
            let x = eval(s, f, of.get())?;
            Ok(unary(*op, *scalar, x))
        }
        CheckedExpr::Binary {
            op,
            scalar,
            left,
            right,
            checks,
        } => {
            let x = eval(s, f, left.get())?;
            let y = eval(s, f, right.get())?;
            test_all(s, f, checks.as_slice())?;
            arithmetic(*op, *scalar, x, y)
        }
        CheckedExpr::Compare {
            op,
            scalar,
            left,
            right,
        } => {
            let x = eval(s, f, left.get())?;
            let y = eval(s, f, right.get())?;
            Ok(comparison(*op, *scalar, x, y))
        }
        CheckedExpr::Logical { op, left, right } => {
            let x = eval(s, f, left.get())?;
            match op {
                Logic::And => {
                    if holds(x) {
                        let y = eval(s, f, right.get())?;
                        Ok(truth(holds(y)))
                    } else {
                        Ok(0)
                    }
                }
                Logic::Or => {
                    if holds(x) {
                        Ok(1)
                    } else {
                        let y = eval(s, f, right.get())?;
                        Ok(truth(holds(y)))
                    }
                }
            }
        }
    }
}
