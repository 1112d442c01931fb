//! `Siblings`: the siblings of a declaration, and what an annotation can make of each.
ghost use Rattle.std.specs.Prelude.{◌≡◌, [], OnOk, option_copied, slice_get};
ghost use Rattle.deputy_types.specs.Siblings.{sibling_number, role_of, with_sibling, no_siblings};

use crate::{MemberList, MemberName, Role};
use sd_base::{Memory, Name};
use sqlite_items::Items;
use std::alloc::Global;

/// The siblings of a declaration by number: the members of its struct, or the parameters and locals of its function. Of two with the same name the first stands.
#[derive(Drop)]
pub struct Siblings {
    pub names: MemberList,
    pub roles: Items<Role>,
}

impl Siblings {
    /// None: a declaration with constant annotations alone.
    pub fn new(alloc: Global) -> Siblings
        ensures { result ≡ no_siblings }
    {
        Siblings {
            names: MemberList::new(alloc),
            roles: Items::new(alloc),
        }
    }

    /// The number of the sibling that an annotation names so: no arm.
    pub fn number(&self, name: &Name) -> Option<u32>
        ensures { result ≡ sibling_number self.now name.now }
    {
        self.names.number(None, name)
    }

    /// What an annotation can make of a sibling. None where there is none with this number.
    pub fn role(&self, k: u32) -> Option<Role>
        ensures { result ≡ role_of self.now k }
    {
        self.roles.get(k as usize).copied()
    }

    /// Adds a sibling behind the others, if its name is new.
    #[tactic(auto, unfolding(crate::specs::Siblings::with_sibling))]
    pub fn add(&mut self, name: &MemberName, role: Role) -> Result<(), Memory>
        ensures { OnOk result (self.new ≡ with_sibling self.old name.now role) }
    {
        if self.names.add(name)? {
            self.roles.push(role)?;
        }
        Ok(())
    }
}
