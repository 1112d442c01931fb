//! The result of a call, and the kernel's answer, in the local that takes it.
ghost use Rattle.std.specs.Prelude.{◌≡◌, All, IfSome, IsTrue};
ghost use Rattle.checked_tree.specs.Numbers.{is_value};
ghost use Rattle.checked_tree.specs.Step as spec;
ghost use Rattle.driver_machine.specs.Results.{Takes};

use crate::actions::{set_local, set_pointer};
use crate::operands::bounded;
use checked_tree::{Answer, Scalar, Stop, Target, converted};
use sd_base::Fat;

/// A pointer that a function of this result type returned.
fn returned_pointer(scalar: Scalar, value: i64) -> Result<Fat, Stop>
    requires { IsTrue (is_value value) }
    ensures { result ≡ spec.returned_pointer scalar value }
{
    match scalar {
        Scalar::Pointer { size } => {
            if value == 0 {
                return Ok(Fat {
                    value: 0,
                    lo: 0,
                    hi: 0,
                });
            }
            let low = i128::from(value);
            bounded(low, low, low + i128::from(size))
        }
        _ => Err(Stop::Wild),
    }
}

/// Puts the result of a function of this result type into the local that takes it. Where it has no place there, nothing changes.
pub fn take_result(
    locals: &mut [i64],
    scalar: Scalar,
    target: Option<Target>,
    result_value: Option<i64>,
) -> Result<(), Stop>
    requires words { All (λ z. IsTrue (is_value z)) locals.old }
    requires value { IfSome result_value (λ z. IsTrue (is_value z)) }
    ensures takes { Takes scalar target result_value locals.old result locals.new }
    ensures words { All (λ z. IsTrue (is_value z)) locals.new }
{
    let Some(target) = target else {
        return Ok(());
    };
    let Some(value) = result_value else {
        return Err(Stop::Wild);
    };
    match target {
        Target::Int { slot, scalar: own } => {
            set_local(locals, slot as usize, converted(own, i128::from(value)));
        }
        Target::Nullterm { slot } => set_local(locals, slot as usize, value),
        Target::Automatic { slot, hidden } => {
            let pointer = returned_pointer(scalar, value)?;
            set_pointer(locals, slot, hidden, pointer);
        }
    }
    Ok(())
}

/// Puts the kernel's answer into the local that takes it, if it is of its kind.
pub fn take_answer(locals: &mut [i64], target: Option<Target>, reply: Answer)
    requires words { All (λ z. IsTrue (is_value z)) locals.old }
    ensures answer { locals.new ≡ spec.answer_set locals.old target reply }
    ensures words { All (λ z. IsTrue (is_value z)) locals.new }
{
    match (target, reply) {
        (Some(Target::Int { slot, scalar }), Answer::Number(value)) => {
            set_local(locals, slot as usize, converted(scalar, i128::from(value)));
        }
        (Some(Target::Automatic { slot, hidden }), Answer::Pointer(pointer)) => {
            set_pointer(locals, slot, hidden, pointer);
        }
        _ => {}
    }
}
