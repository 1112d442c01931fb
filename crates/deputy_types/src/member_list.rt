//! `MemberList`: the members of a struct, or the parameters and locals of a function, by name and by number.
ghost use Rattle.std.specs.Prelude.{◌≡◌, [], IfOk};
ghost use Rattle.deputy_types.specs.Siblings.{member_number, is_new_member, with_member};

use crate::MemberName;
use indexmap::IndexSet;
use sd_base::{Memory, Name};
use std::alloc::Global;
use std::marker::Model;

/// Distinct names of members by number, less than 2^32 of them. It is seen as their list.
#[derive(Drop)]
pub struct MemberList {
    keys: IndexSet<MemberName>,
}

impl Model for MemberList {
    ghost use Rattle.std.specs.Prelude.{ℕ, List, ◌<◌, ◌^◌, length};
    ghost use Rattle.deputy_types.specs.declared.sibling.MemberName.{MemberName};

    ghost Value = { List MemberName };

    ghost view = { λ n. n.keys.keys };

    ghost invariant = { λ n. length n.keys.keys < 2 ^ 32 };
}

impl MemberList {
    /// No members.
    pub(crate) fn new(alloc: Global) -> MemberList
        ensures { result ≡ [] }
    {
        MemberList {
            keys: IndexSet::new(alloc),
        }
    }

    /// The number of a member: an arm of the union with the number `part`, or none where there is none. None where it is not there.
    pub fn number(&self, part: Option<u32>, name: &Name) -> Option<u32>
        ensures { result ≡ member_number self.now part name.now }
    {
        let key = MemberName { part, name: *name };
        match self.keys.get_index_of(&key) {
            Some(k) => Some(k as u32),
            None => None,
        }
    }

    #[tactic(auto, unfolding(crate::specs::Siblings::is_new_member, crate::specs::Siblings::with_member))]
    /// Adds a member behind the others, if it is new and there is room for its number. Answers whether it was added.
    pub(crate) fn add(&mut self, name: &MemberName) -> Result<bool, Memory>
        ensures { IfOk result (λ added. (added ≡ is_new_member self.old name.now) × (self.new ≡ with_member self.old name.now)) }
    {
        if self.keys.contains(name) {
            return Ok(false);
        }
        if self.keys.len() < u32::MAX as usize {
            self.keys.insert(*name)?;
            return Ok(true);
        }
        Ok(false)
    }
}
