//! What statements evaluate: pointers with their bounds, and numbers that are handed over.
ghost use Rattle.std.specs.Prelude.{◌≡◌, [], ℤ, List, map, option_copied, IfOk, IfSome, IsTrue};
ghost use Rattle.checked_tree.specs.Operands as spec;
ghost use Rattle.checked_tree.specs.Numbers.{is_value};

use crate::evaluation::eval;
use crate::places::{address, word};
use crate::state::State;
use crate::sums::sum_value;
use checked_tree::{Argument, CheckedFn, PointerOperand, Scalar, Stop, Sum, converted};
use sd_base::Fat;
use sqlite_items::Items;

/// The null pointer, with its bounds.
const NULL: Fat = Fat {
    value: 0,
    lo: 0,
    hi: 0,
};

/// A pointer with bounds; each is an address, or it is `Wild`.
#[tactic(auto, unfolding(checked_tree::specs::Operands::bounded))]
pub fn bounded(value: i128, lo: i128, hi: i128) -> Result<Fat, Stop>
    ensures { result ≡ spec.bounded value lo hi }
{
    let value = word(value)?;
    let lo = word(lo)?;
    let hi = word(hi)?;
    Ok(Fat { value, lo, hi })
}

/// A pointer with the bounds that its sums give; the null pointer has the bounds 0 and 0.
fn with_bounds(s: &State<'_>, low: &Sum, high: &Sum, value: i64) -> Result<Fat, Stop>
    ensures { result ≡ spec.with_bounds s.now low.now high.now value }
{
    if value == 0 {
        return Ok(NULL);
    }
    let lo = sum_value(s, low)?;
    let hi = sum_value(s, high)?;
    bounded(i128::from(value), lo, hi)
}

/// A pointer that is handed over or stored, with its bounds.
#[tactic(auto, unfolding(checked_tree::specs::Operands::operand))]
pub fn operand(s: &State<'_>, f: &CheckedFn, pointer: &PointerOperand) -> Result<Fat, Stop>
    ensures { result ≡ spec.operand [] f.now s.now pointer.now }
{
    let value = eval(s, f, pointer.value.get())?;
    with_bounds(s, &pointer.low, &pointer.high, value)
}

/// The pointer of a kernel call, if it has one.
#[tactic(auto, unfolding(checked_tree::specs::Operands::optional_operand))]
pub fn optional_operand(
    s: &State<'_>,
    f: &CheckedFn,
    pointer: &Option<PointerOperand>,
) -> Result<Fat, Stop>
    ensures { result ≡ spec.optional_operand [] f.now s.now pointer.now }
{
    match pointer {
        None => Ok(NULL),
        Some(pointer) => operand(s, f, pointer),
    }
}

/// A number as a type takes it: converted to an integer type; for a pointer an address, or it is `Wild`.
#[tactic(auto, unfolding(checked_tree::specs::Operands::taken))]
pub fn taken(scalar: Scalar, value: i64) -> Result<i64, Stop>
    ensures value { result ≡ spec.taken scalar value }
    ensures range { IfOk result (λ z. IsTrue (is_value z)) }
{
    match scalar {
        Scalar::Pointer { size: _ } => address(i128::from(value)),
        Scalar::Void => Ok(converted(Scalar::Void, i128::from(value))),
        Scalar::U8 => Ok(converted(Scalar::U8, i128::from(value))),
        Scalar::I8 => Ok(converted(Scalar::I8, i128::from(value))),
        Scalar::U16 => Ok(converted(Scalar::U16, i128::from(value))),
        Scalar::I16 => Ok(converted(Scalar::I16, i128::from(value))),
        Scalar::I32 => Ok(converted(Scalar::I32, i128::from(value))),
        Scalar::U32 => Ok(converted(Scalar::U32, i128::from(value))),
    }
}

/// A number that is handed over.
#[tactic(auto, unfolding(checked_tree::specs::Operands::argument))]
pub fn argument(s: &State<'_>, f: &CheckedFn, argument: &Argument) -> Result<i64, Stop>
    ensures value { result ≡ spec.argument [] f.now s.now argument.now }
    ensures range { IfOk result (λ z. IsTrue (is_value z)) }
{
    let value = eval(s, f, argument.value.get())?;
    taken(argument.scalar, value)
}

/// The value of a `return`, if it has one.
#[tactic(auto, unfolding(checked_tree::specs::Operands::optional_argument))]
pub fn optional_argument(
    s: &State<'_>,
    f: &CheckedFn,
    value: &Option<Argument>,
) -> Result<Option<i64>, Stop>
    ensures value { result ≡ spec.optional_argument [] f.now s.now value.now }
    ensures range { IfOk result (λ v. IfSome v (λ z. IsTrue (is_value z))) }
{
    match value {
        None => Ok(None),
        Some(value) => {
            let value = argument(s, f, value)?;
            Ok(Some(value))
        }
    }
}
