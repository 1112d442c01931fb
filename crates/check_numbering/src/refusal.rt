//! `RuleRefusal`: why a text is not derived.
ghost use Rattle.std.specs.Prelude.{◌≡◌};
ghost use Rattle.check_numbering.specs.Outcome.{refused_at};

use c_tree::LimitKind;
use deputy_rules::DerivingRefusal;
use std::alloc::AllocError;

/// Why a text is not derived. Of two refusals the one that stands earlier in the text is given.
#[derive(Clone, Copy, PartialEq, Eq, Debug, Drop)]
pub enum RuleRefusal {
    /// No rule derives the head, parameter, local or statement on this line.
    NoRule(u32),
    /// The function whose head is on this line passes a limit: `Locals`.
    Limit(u32, LimitKind),
    /// Want of memory.
    Memory,
}

impl From<AllocError> for RuleRefusal {
    ghost use Rattle.std.specs.Prelude.{◌≡◌};
    ghost use Rattle.check_numbering.specs.declared.refusal.RuleRefusal.TheVariants.{Memory};

    ghost from_gives = { λ _ e. e ≡ Memory };

    fn from(_: AllocError) -> RuleRefusal {
        RuleRefusal::Memory
    }
}

/// A refusal of what stands on a line.
pub fn at_line(line: u32, refusal: DerivingRefusal) -> RuleRefusal
    ensures { result ≡ refused_at line refusal }
{
    match refusal {
        DerivingRefusal::NoRule => RuleRefusal::NoRule(line),
        DerivingRefusal::Memory => RuleRefusal::Memory,
    }
}
