//! The laws of the readings, in the words of the rules. A law is a function without a body: its contract is what it says.

ghost use Rattle.std.specs.Prelude.{◌≡◌, ℕ, List, Some};
ghost use Rattle.scenario.specs.Forms.{Said, line_said};
ghost use Rattle.scenario.specs.Rules.{Says};

/// A line reads as what the rule of its form in the version says, and as nothing else.
pub fn lines_read_by_their_rules()
    ensures read { (version drivers : ℕ) (words : List (List ℕ)) (said : Said) → Says version drivers words said → line_said version drivers words ≡ Some said }
    ensures by_rule { (version drivers : ℕ) (words : List (List ℕ)) (said : Said) → line_said version drivers words ≡ Some said → Says version drivers words said }
{}
