//! A shelf in memory, whose reads are short and fail where its maker wants.
ghost use Rattle.std.specs.Prelude.{◌≡◌, ◌≤◌, ◌↔◌, ◌⊎◌, IsTrue, IsErr, IsNone, IfOk, OnErr, IfSome, length, map, drop, option_map};
ghost use Rattle.std.specs.Result.{result_ok};
ghost use Rattle.sd_outside.specs.Counts.{counted, HasCause};
ghost use Rattle.sd_outside.specs.MemoryShelf.{is_to_fail, read_answer, after_read};
ghost use Rattle.sd_outside.specs.Shelf.{Gives, LeavesOthers};
ghost use Rattle.sd_outside.specs.Texts.{text_of, left_of, names_differ, TellsEach};

use crate::texts::Texts;
use crate::{Failed, Shelf};
use std::marker::Model;

/// A shelf of texts in memory. The reads whose numbers it is told fail, counted from 1, and no read moves more bytes
/// than it is told.
#[derive(Drop)]
pub struct MemShelf {
    texts: Texts,
    fail: Vec<u64>,
    most: usize,
    calls: u64,
    given: u64,
    faults: u64,
}

impl Model for MemShelf {
    ghost use Rattle.std.specs.Prelude.{◌<◌};
    ghost use Rattle.sd_outside.specs.MemoryShelf.{MemoryShelf};

    ghost Value = { MemoryShelf };

    ghost view = { λ s. record { texts = s.texts; fail = s.fail.items; most = s.most; calls = s.calls; given = s.given; faults = s.faults } };

    ghost invariant = { λ s. 0 < s.most };
}

impl MemShelf {
    /// A shelf of these texts by their names, which differ. The calls of `read` whose numbers are in `fail` fail,
    /// counted from 1, and no call moves more than `most` bytes, which is at least 1.
    pub fn new(texts: Vec<(String, Vec<u8>)>, fail: Vec<u64>, most: usize) -> MemShelf
        requires some { 1 ≤ most }
        requires differ { IsTrue (names_differ (map text_of texts.items)) }
        ensures told { TellsEach result.texts }
        ensures exact { result ≡ record { texts = map text_of texts.items; fail = fail.items; most = most; calls = 0; given = 0; faults = 0 } }
    {
        MemShelf {
            texts: Texts::new(texts),
            fail,
            most,
            calls: 0,
            given: 0,
            faults: 0,
        }
    }
}

impl Shelf for MemShelf {
    ghost use Rattle.sd_outside.specs.Texts.{left_of};

    ghost left = { λ s. left_of s.texts };

    ghost given = { λ s. s.given };

    ghost faults = { λ s. s.faults };

    /// Moves as many bytes as are left, fit into `buf` and one read moves at most.
    ///
    /// `Failed`: the number of the call is among those that are to fail, or the name is not there.
    fn read(&mut self, name: &str, buf: &mut [u8]) -> Result<usize, Failed>
        ensures failed { IsErr result ↔ (IsTrue (is_to_fail self.old.fail (counted self.old.calls 1)) ⊎ IsNone (left_of self.old.texts name.now)) }
        ensures exact { result_ok result ≡ read_answer self.old name.now (length buf.old) }
        ensures after { self.new ≡ after_read self.old name.now (result_ok result) }
        ensures room { IfOk result (λ n. n ≤ length buf.new) }
        ensures moves { IfOk result (λ n. left_of self.new.texts name.now ≡ option_map (drop n) (left_of self.old.texts name.now)) }
        ensures gives { IfOk result (λ n. IfSome (left_of self.old.texts name.now) (λ bytes. Gives bytes buf.new n)) }
        ensures counts { IfOk result (λ n. self.new.given ≡ counted self.old.given n) }
        ensures no_count { OnErr result (self.new.given ≡ self.old.given) }
        ensures others { LeavesOthers name.now (left_of self.old.texts) (left_of self.new.texts) }
        ensures cause { HasCause self.old.faults self.new.faults result }
    {
        self.calls = self.calls.saturating_add(1);
        if self.fail.contains(&self.calls) {
            self.faults = self.faults.saturating_add(1);
            return Err(Failed);
        }
        match self.texts.read(name, buf, self.most) {
            Some(n) => {
                self.given = self.given.saturating_add(n as u64);
                Ok(n)
            }
            None => {
                self.faults = self.faults.saturating_add(1);
                Err(Failed)
            }
        }
    }
}
