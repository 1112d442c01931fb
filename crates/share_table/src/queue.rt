//! The queue of work, in the order in which its items came.
ghost use Rattle.std.specs.Prelude.{◌≡◌, ◌+◌, ◌<◌, ◌≤◌, [], ◌∷◌, ◌++◌, true, false, not, length, count_by, slice_get, IfOk, OnOk, OnErr, MatchOption, get_or, drop, zero, suc};
ghost use Rattle.std.specs.List.{list_any, filter};
ghost use Rattle.circular_buffer.specs.Buffer.{buffer};
ghost use Rattle.sd_base.specs.Selection.{passes, without_last};
ghost use Rattle.share_table.specs.Queue.{is_owned, put_refusal, turned};
ghost use Rattle.share_table.specs.Answers.{refusal_of_share};

use crate::answers::ShareRefusal;
use circular_buffer::HeapCircularBuffer;
use sd_base::limits::{DRIVERS, WORK_ITEMS};
use sd_base::{Memory, Steps};
use std::alloc::Global;
use std::marker::Model;
use std::sync::ledger::Ledger;

/// A call that waits in the queue.
#[derive(Clone, Copy, PartialEq, Eq, Debug)]
pub struct Work {
    /// Whose it is, a driver.
    pub owner: u8,
    /// The function that is called.
    pub handler: u32,
    /// What the function is given.
    pub arg: i32,
}

/// At most 256 items, 64 of each of 4 owners.
#[derive(Drop)]
pub struct Queue {
    items: HeapCircularBuffer<Work>,
}

impl Model for Queue {
    ghost use Rattle.std.specs.Prelude.{List};
    ghost use Rattle.share_table.specs.declared.queue.Work.{Work};
    ghost use Rattle.share_table.specs.Queue.{IsQueue};

    ghost Value = { List Work };

    ghost view = { λ q. q.items.items };

    ghost invariant = { λ q. IsQueue q.items.items q.items.capacity };
}

impl Queue {
    /// An empty queue with room for all items.
    pub fn new(alloc: Global) -> Result<Queue, Memory>
        ensures { IfOk result (λ queue. queue ≡ []) }
    {
        Ok(Queue {
            items: HeapCircularBuffer::with_capacity(alloc, DRIVERS * WORK_ITEMS)?,
        })
    }

    /// How many items wait.
    pub fn len(&self) -> usize
        ensures value { result ≡ length self.now }
        ensures fits { result ≤ 256 }
    {
        self.items.len()
    }

    /// How many items of an owner wait.
    fn count_of(&self, owner: u8) -> usize
        ensures { result ≡ count_by (is_owned owner) self.now }
    {
        self.items.iter().filter(|work| work.owner == owner).count()
    }

    /// Puts an item at the end. `Full` where its owner has 64 items in the queue.
    pub fn put(&mut self, work: Work) -> Result<(), ShareRefusal>
        requires driver { 0 < work.owner }
        requires owner { work.owner ≤ 4 }
        ensures answer { refusal_of_share result ≡ put_refusal self.old work.owner }
        ensures ok { OnOk result (self.new ≡ self.old ++ work ∷ []) }
        ensures err { OnErr result (self.new ≡ self.old) }
    {
        if self.count_of(work.owner) >= WORK_ITEMS {
            return Err(ShareRefusal::Full);
        }
        if self.items.try_push_back(work).is_err() {
            return Err(ShareRefusal::Full);
        }
        Ok(())
    }

    /// Takes the front out.
    pub fn take(&mut self) -> Option<Work>
        ensures { MatchOption result ((self.old ≡ []) × (self.new ≡ [])) (λ work. self.old ≡ work ∷ self.new) }
    {
        self.items.pop_front()
    }

    /// The item at this place, counted from the front.
    pub fn get(&self, place: usize) -> Option<Work>
        ensures { result ≡ slice_get self.now place }
    {
        self.items.get(place).copied()
    }

    /// Where an owner's newest item stands.
    fn newest_of(&self, owner: u8) -> usize
        requires { list_any (is_owned owner) self.now ≡ true }
        ensures within { result < length self.now }
        ensures newest { list_any (is_owned owner) (drop (suc result) self.now) ≡ false }
        ensures own { MatchOption (slice_get self.now result) (true ≡ false) (λ work. is_owned owner work ≡ true) }
    {
        let mut place = self.items.len();
        while place > 0 {
            place -= 1;
            let Some(work) = self.items.get(place) else {
                return place;
            };
            if work.owner == owner {
                return place;
            }
        }
        place
    }

    /// Takes an owner's newest item out. The queue turns once, and that item does not come back to it.
    pub fn remove_newest<L: Ledger>(&mut self, owner: u8, steps: &mut Steps<L>)
        requires { list_any (is_owned owner) self.old ≡ true }
        ensures gone { self.new ≡ without_last (is_owned owner) self.old }
        ensures steps { steps.new ≡ steps.old + length self.old }
        ensures few { steps.new ≤ steps.old + 256 }
    {
        let newest = self.newest_of(owner);
        for place in 0..self.items.len() {
            turn(&mut self.items, place != newest);
            steps.tick();
        }
    }
}

/// Moves the front to the end, or takes it out.
fn turn(items: &mut HeapCircularBuffer<Work>, keep: bool)
    ensures { items.new ≡ buffer (turned keep items.old.items) items.old.capacity }
{
    let len = items.len();
    if len == 0 {
        return;
    }
    let Some(work) = items.pop_front() else {
        return;
    };
    if keep {
        items.push_back(work);
    }
}
