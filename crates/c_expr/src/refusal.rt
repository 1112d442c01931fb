//! `ExpressionRefusal`: why no expression is read.
use std::alloc::AllocError;

/// Why no expression is read.
#[derive(Clone, Copy, PartialEq, Eq, Debug, Drop)]
pub enum ExpressionRefusal {
    /// No expression begins at this place among the words.
    NoExpr(usize),
    /// Memory is wanting.
    Memory,
}

impl From<AllocError> for ExpressionRefusal {
    ghost use Rattle.std.specs.Prelude.{◌≡◌};
    ghost use Rattle.c_expr.specs.declared.refusal.ExpressionRefusal.TheVariants.{Memory};

    ghost from_gives = { λ _ refusal. refusal ≡ Memory };

    fn from(_: AllocError) -> ExpressionRefusal {
        ExpressionRefusal::Memory
    }
}
