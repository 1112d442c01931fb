//! `WordRefusal`: why a text has no words.
ghost use Rattle.std.specs.Prelude.{◌≡◌};

use c_tree::LimitKind;
use std::alloc::{AllocError, AllocFailed};

/// Why a driver text does not divide into words, with the line where. Lines count from 1.
#[derive(Clone, Copy, PartialEq, Eq, Debug, Drop)]
pub enum WordRefusal {
    /// On this line stands a byte at which no word, blank or comment begins.
    NotAWord(u32),
    /// A word on this line passes this limit.
    Limit(u32, LimitKind),
    /// Memory is wanting.
    Memory,
}

impl From<AllocError> for WordRefusal {
    ghost use Rattle.std.specs.Prelude.{◌≡◌};
    ghost use Rattle.c_token.specs.declared.refusal.WordRefusal.TheVariants.{Memory};

    ghost from_gives = { λ _ refusal. refusal ≡ Memory };

    fn from(_: AllocError) -> WordRefusal {
        WordRefusal::Memory
    }
}

impl<T: Drop> From<AllocFailed<T>> for WordRefusal {
    ghost use Rattle.std.specs.Prelude.{◌≡◌};
    ghost use Rattle.c_token.specs.declared.refusal.WordRefusal.TheVariants.{Memory};

    ghost from_gives = { λ _ refusal. refusal ≡ Memory };

    fn from(_: AllocFailed<T>) -> WordRefusal {
        WordRefusal::Memory
    }
}
