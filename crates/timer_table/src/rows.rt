//! Timers in an order that the caller gives them. A timer stays where the slab put it: only its key moves.
ghost use Rattle.std.specs.Prelude.{◌≡◌, ◌+◌, ◌<◌, ◌≤◌, [], length, set, slice_get, IfOk};
ghost use Rattle.std.specs.List.{insert, remove};

use crate::Fired;
use arrayvec::ArrayVec;
use sd_base::limits::{OWNERS, TIMERS};
use slab::Slab;
use std::alloc::{AllocError, Global};
use std::marker::Model;

/// How many timers there may be: 64 of each of 5 owners.
pub const ROWS: usize = OWNERS * TIMERS;

/// At most 320 timers, in order. No call after `new` takes memory.
#[derive(Drop)]
pub struct Rows {
    slots: Slab<Fired>,
    // The key of each timer's slot.
    keys: ArrayVec<usize, ROWS>,
}

impl Model for Rows {
    ghost use Rattle.std.specs.Prelude.{List};
    ghost use Rattle.std.specs.List.{filter_map};
    ghost use Rattle.slab.specs.Slab.{get};
    ghost use Rattle.timer_table.specs.declared.fired.Fired.{Fired};
    ghost use Rattle.timer_table.specs.Keys.{HoldsEach};

    ghost Value = { List Fired };

    ghost view = { λ r. filter_map (get r.slots) r.keys.items };

    ghost invariant = { λ r. HoldsEach r.slots r.keys.items };
}

impl Rows {
    /// No timer, with room for all.
    pub fn new(alloc: Global) -> Result<Rows, AllocError>
        ensures { IfOk result (λ rows. rows ≡ []) }
    {
        Ok(Rows {
            slots: Slab::with_capacity(alloc, ROWS)?,
            keys: ArrayVec::new(),
        })
    }

    /// How many there are.
    pub fn len(&self) -> usize
        ensures value { result ≡ length self.now }
        ensures fits { result ≤ ROWS }
    {
        self.keys.len()
    }

    /// The one at this place, counted from 0.
    pub fn get(&self, place: usize) -> Option<Fired>
        ensures { result ≡ slice_get self.now place }
    {
        if place >= self.keys.len() {
            return None;
        }
        self.slots.get(self.keys.as_slice()[place]).copied()
    }

    /// Puts a timer at this place, before those that stand there and after it.
    pub fn insert(&mut self, place: usize, row: Fired)
        requires within { place ≤ length self.old }
        requires room { length self.old < ROWS }
        ensures { self.new ≡ insert self.old place row }
    {
        let key = self.slots.insert_reserved(row);
        self.keys.insert(place, key);
    }

    /// Puts a timer in the stead of the one at this place.
    pub fn replace(&mut self, place: usize, row: Fired)
        requires { place < length self.old }
        ensures { self.new ≡ set self.old place row }
    {
        let key = self.keys.as_slice()[place];
        self.slots[key] = row;
    }

    /// Takes the timer at this place away.
    pub fn remove(&mut self, place: usize)
        requires { place < length self.old }
        ensures { self.new ≡ remove self.old place }
    {
        let key = self.keys.remove(place);
        self.slots.try_remove(key);
    }
}
