//! `Build`: the atoms and the checks of a function so far.
ghost use Rattle.std.specs.Prelude.{◌≡◌};
ghost use Rattle.check_numbering.specs.Building.{numbers_of};
ghost use Rattle.deputy_rules.specs.Functions.{no_checks};

use crate::Atoms;
use checked_tree::Check;
use sqlite_items::Items;
use std::alloc::Global;

/// The atoms and the checks of a function so far. What holds them keeps what it had, and is not to be used after a refusal.
#[derive(Drop)]
pub struct Build {
    pub atoms: Atoms,
    pub checks: Items<Check>,
}

impl Build {
    /// Neither.
    pub fn new(alloc: Global) -> Build
        ensures { numbers_of result ≡ no_checks }
    {
        Build {
            atoms: Atoms::new(alloc),
            checks: Items::new(alloc),
        }
    }
}
