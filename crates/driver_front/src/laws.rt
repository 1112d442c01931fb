//! Laws of verdicts.
ghost use Rattle.std.specs.Prelude.{◌≡◌, Result, Err};
ghost use Rattle.c_tree.specs.Bytes.{Text};
ghost use Rattle.checked_tree.specs.declared.units.CheckedUnit.{CheckedUnit as Checked};
ghost use Rattle.driver_front.specs.Grounds.{HasGround};
ghost use Rattle.driver_front.specs.Verdict.{Verdict};
ghost use Rattle.driver_front.specs.declared.refusal.DriverRefusal.{DriverRefusal as Refused};

/// A text has one verdict.
pub fn one_verdict()
    ensures { (text : Text) (one other : Result Checked Refused) → Verdict text one → Verdict text other → one ≡ other }
{}

/// No text is refused, and no line of one is charged, for the weight of a check: what is refused has one of the grounds, among which no check is.
pub fn no_text_is_refused_for_a_check()
    ensures { (text : Text) (refusal : Refused) → Verdict text (Err refusal) → HasGround text refusal }
{}
