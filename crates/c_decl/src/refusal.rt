//! `UnitRefusal`: why the words of a text are no unit.
use std::alloc::{AllocError, AllocFailed};

/// Why the words of a text are no unit.
#[derive(Clone, Copy, PartialEq, Eq, Debug, Drop)]
pub enum UnitRefusal {
    /// The words from this line on begin with no item. Lines count from 1.
    NoItem(u32),
    /// Memory is wanting.
    Memory,
}

impl From<AllocError> for UnitRefusal {
    ghost use Rattle.std.specs.Prelude.{◌≡◌};
    ghost use Rattle.c_decl.specs.declared.refusal.UnitRefusal.TheVariants.{Memory};

    ghost from_gives = { λ _ refusal. refusal ≡ Memory };

    fn from(_: AllocError) -> UnitRefusal {
        UnitRefusal::Memory
    }
}

impl<T: Drop> From<AllocFailed<T>> for UnitRefusal {
    ghost use Rattle.std.specs.Prelude.{◌≡◌};
    ghost use Rattle.c_decl.specs.declared.refusal.UnitRefusal.TheVariants.{Memory};

    ghost from_gives = { λ _ refusal. refusal ≡ Memory };

    fn from(_: AllocFailed<T>) -> UnitRefusal {
        UnitRefusal::Memory
    }
}
