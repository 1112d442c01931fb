//! `State`: what an evaluation reads.
ghost use Rattle.std.specs.Prelude.{◌≡◌, pos, IsTrue, slice_index_or};
ghost use Rattle.checked_tree.specs.Numbers.{is_value};

use byte_memory::Tested;
use std::marker::Model;

/// What an evaluation reads: the values of a frame's slots, each of 32 bits, and its driver's memory. A contract sees the record of the definitions.
#[derive(Drop)]
pub struct State<'a> {
    pub locals: &'a [i64],
    pub memory: &'a Tested,
}

impl<'a> Model for State<'a> {
    ghost use Rattle.std.specs.Prelude.{All, IsTrue};
    ghost use Rattle.checked_tree.specs.Numbers.{is_value};
    ghost use Rattle.checked_tree.specs.Conditions.{State as Spec};

    ghost Value = { Spec };

    ghost view = { λ s. record { locals = s.locals.now; memory = s.memory.now } };

    ghost invariant = { λ s. All (λ z. IsTrue (is_value z)) s.locals.now };
}

impl<'a> State<'a> {
    /// The value of a slot, 0 where there is none.
    pub fn local(&self, slot: u32) -> i64
        ensures value { result ≡ slice_index_or self.now.locals slot (pos 0) }
        ensures range { IsTrue (is_value result) }
    {
        match self.locals.get(slot as usize) {
            Some(value) => *value,
            None => 0,
        }
    }
}
