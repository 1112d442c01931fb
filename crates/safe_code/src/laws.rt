//! What holds of every unit that the rules derive.
ghost use Rattle.std.specs.Prelude.{◌≤◌, All, length};
ghost use Rattle.checked_tree.specs.declared.units.CheckedUnit.{CheckedUnit as Checked};
ghost use Rattle.safe_code.specs.DerivedUnit.{IsDerivedUnit};
ghost use Rattle.safe_code.specs.Runnable.{IsRunnable};

/// Each function of a derived unit can be run by a machine of fixed size: its statements stand at most 64 deep in one another, each
/// call has at most 128 arguments, and it has at most 128 slots.
pub fn each_function_is_runnable()
    ensures { (unit : Checked) → IsDerivedUnit unit → All IsRunnable unit.functions }
{}

/// A derived unit has at most 4,096 functions, so that each has a number of 32 bits.
pub fn functions_are_few()
    ensures { (unit : Checked) → IsDerivedUnit unit → length unit.functions ≤ 4096 }
{}
