//! A sink in memory, whose writes are short and fail where its maker wants.
ghost use Rattle.std.specs.Prelude.{◌≡◌, ◌<◌, ◌≤◌, ◌↔◌, ◌⊎◌, IsTrue, IsErr, List, [], Some, IfOk, OnErr, length, take};
ghost use Rattle.std.specs.Result.{result_ok};
ghost use Rattle.sd_outside.specs.Counts.{counted, HasCause};
ghost use Rattle.sd_outside.specs.MemoryShelf.{is_to_fail};
ghost use Rattle.sd_outside.specs.MemorySink.{write_answer, after_write};
ghost use Rattle.sd_outside.specs.Sink.{more};

use crate::{Failed, Sink};
use std::alloc::{AllocError, Global};
use std::marker::Model;

/// A sink of bytes in memory. The writes whose numbers it is told fail, counted from 1, and no write takes more bytes
/// than it is told. Its room is taken when it is made, so that a write takes no memory.
#[derive(Drop)]
pub struct MemSink {
    bytes: Vec<u8>,
    room: usize,
    fail: Vec<u64>,
    most: usize,
    calls: u64,
    faults: u64,
}

impl Model for MemSink {
    ghost use Rattle.std.specs.Prelude.{◌<◌, ◌≤◌, length, vec_capacity};
    ghost use Rattle.sd_outside.specs.MemorySink.{MemorySink};

    ghost Value = { MemorySink };

    ghost view = { λ s. record { bytes = s.bytes.items; room = s.room; fail = s.fail.items; most = s.most; calls = s.calls; faults = s.faults } };

    ghost invariant = { λ s. (0 < s.most) × (length s.bytes.items ≤ s.room) × (s.room ≤ vec_capacity s.bytes) };
}

impl MemSink {
    /// An empty sink with room for `room` bytes, which it takes at once. The calls of `write` whose numbers are in
    /// `fail` fail, counted from 1, and no call takes more than `most` bytes, which is at least 1.
    ///
    /// `AllocError`: want of memory for the room.
    pub fn new(
        alloc: Global,
        room: usize,
        fail: Vec<u64>,
        most: usize,
    ) -> Result<MemSink, AllocError>
        requires { 1 ≤ most }
        ensures { IfOk result (λ sink. sink ≡ record { bytes = []; room = room; fail = fail.items; most = most; calls = 0; faults = 0 }) }
    {
        Ok(MemSink {
            bytes: Vec::with_capacity(alloc, room)?,
            room,
            fail,
            most,
            calls: 0,
            faults: 0,
        })
    }

    /// All bytes that were written, in order.
    pub fn bytes(&self) -> &[u8]
        ensures { result.now ≡ self.now.bytes }
    {
        &self.bytes
    }
}

impl Sink for MemSink {
    ghost use Rattle.std.specs.Prelude.{Some};

    ghost written = { λ s. Some s.bytes };

    ghost faults = { λ s. s.faults };

    /// Takes as many bytes as there are, have room and one write takes at most.
    ///
    /// `Failed`: the number of the call is among those that are to fail, or there is a byte to write and no room.
    fn write(&mut self, bytes: &[u8]) -> Result<usize, Failed>
        ensures failed { IsErr result ↔ (IsTrue (is_to_fail self.old.fail (counted self.old.calls 1)) ⊎ ((0 < length bytes.now) × (length self.old.bytes ≡ self.old.room))) }
        ensures exact { result_ok result ≡ write_answer self.old bytes.now }
        ensures after { self.new ≡ after_write self.old bytes.now (result_ok result) }
        ensures fits { IfOk result (λ n. n ≤ length bytes.now) }
        ensures some { IfOk result (λ n. 0 < length bytes.now → 0 < n) }
        ensures appends { IfOk result (λ n. Some self.new.bytes ≡ more (Some self.old.bytes) (take n bytes.now)) }
        ensures none { OnErr result (Some self.new.bytes ≡ Some self.old.bytes) }
        ensures cause { HasCause self.old.faults self.new.faults result }
    {
        self.calls = self.calls.saturating_add(1);
        let left = self.room - self.bytes.len();
        let taken = self.most.min(bytes.len()).min(left);
        let is_refused = self.fail.contains(&self.calls) || (left == 0 && !bytes.is_empty());
        // The room was taken when the sink was made, so what fits is always appended.
        if is_refused || self.bytes.extend_from_slice(&bytes[..taken]).is_err() {
            self.faults = self.faults.saturating_add(1);
            return Err(Failed);
        }
        Ok(taken)
    }
}
