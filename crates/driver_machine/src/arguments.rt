//! The numbers that a statement hands over.
ghost use Rattle.std.specs.Prelude.{◌≡◌, ◌≤◌, [], length, All, IfOk, IsTrue};
ghost use Rattle.checked_tree.specs.Numbers.{is_value};
ghost use Rattle.checked_tree.specs.Operands as spec;
ghost use Rattle.driver_machine.specs.Changes.{Collects};

use crate::operands::argument;
use crate::state::State;
use arrayvec::ArrayVec;
use checked_tree::{Argument, CheckedFn, Stop};
use sd_base::limits::LOCALS;

/// The arguments of a call, left to right: at most 128, as many as a function has slots. What was collected before is forgotten.
#[tactic(auto, unfolding(checked_tree::specs::Operands::arguments))]
pub fn collect(
    s: &State<'_>,
    f: &CheckedFn,
    values: &[Argument],
    out: &mut ArrayVec<i64, LOCALS>,
) -> Result<(), Stop>
    requires { length values.now ≤ 128 }
    ensures values { Collects (spec.arguments [] f.now s.now values.now) result out.new.items }
    ensures words { All (λ z. IsTrue (is_value z)) out.new.items }
{
    out.clear();
    for value in values {
        let number = argument(s, f, value)?;
        out.push(number);
    }
    Ok(())
}
