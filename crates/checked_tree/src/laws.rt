//! The laws of the definitions that a reader comes for, each the contract of a function that does nothing.
ghost use Rattle.checked_tree.specs.KnownLaws.{ConstantHolds, EqualHolds, EntryIsKnown, FactHolds, KnownBehind, KnownMoves, MetHolds, PassedHolds, RedundantHolds};
ghost use Rattle.checked_tree.specs.Light.{InRangeHasWords, LightFormsHaveValues, LightSumsHaveValues, PeekedIsWord};
ghost use Rattle.checked_tree.specs.ToldLaws.{ToldIsDone, ToldIsEvaluated, ToldIsStepped};

/// What is told of an expression is its value: the numbers of the tested checks stand beside it and change nothing.
pub fn what_is_told_is_the_evaluation()
    ensures expressions { ToldIsEvaluated }
    ensures statements { ToldIsDone }
    ensures steps { ToldIsStepped }
{}

/// A redundant check holds where it stands, if its condition has a value: where what is known at its node holds, and each check tested since
/// its statement began held.
pub fn redundant_checks_hold()
    ensures constant { ConstantHolds }
    ensures equal { EqualHolds }
    ensures met { MetHolds }
    ensures all { RedundantHolds }
{}

/// What is known goes along with control: it holds at the entry of a function, and moves along each way of its flow graph, past checks that
/// held, branches whose fact is true, and assignments.
pub fn what_is_known_moves_with_control()
    ensures entry { EntryIsKnown }
    ensures moves { KnownMoves }
    ensures checks { PassedHolds }
    ensures branches { FactHolds }
{}

/// What a frame knew where it waited in a call or for the kernel's answer is known behind it, once the result is stored, but of the slots
/// that took the result: whatever was done to memory meanwhile.
pub fn what_is_known_survives_a_call()
    ensures { KnownBehind }
{}

/// A sum of little weight has a value wherever its atoms have values of 32 bits: it never comes near the limit of the machine's numbers.
/// So a check of such sums, and the bounds of a pointer, are never wild for their size.
pub fn light_sums_have_values()
    ensures forms { LightFormsHaveValues }
    ensures bounds { LightSumsHaveValues }
{}

/// Locals in range have values of 32 bits, and so has every expression over them that has a value, where its blocks are at such addresses:
/// so the atoms of checks and bounds have, as light sums ask.
pub fn values_have_32_bits()
    ensures expressions { PeekedIsWord }
    ensures slots { InRangeHasWords }
{}
