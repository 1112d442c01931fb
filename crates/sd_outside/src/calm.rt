//! A shelf and a sink that never fail.
ghost use Rattle.std.specs.Prelude.{◌≡◌, ◌≤◌, IsTrue, Ok, Some, IfOk, length, map, min, drop};
ghost use Rattle.sd_outside.specs.Counts.{counted};
ghost use Rattle.sd_outside.specs.CalmShelf.{calm_left};
ghost use Rattle.sd_outside.specs.Shelf.{Gives, LeavesOthers};
ghost use Rattle.sd_outside.specs.Texts.{text_of, names_differ, TellsEach};

use crate::texts::Texts;
use crate::{Failed, Shelf, Sink};
use std::marker::Model;

/// A shelf of texts in memory that never fails. A name that is not there has no bytes.
#[derive(Drop)]
pub struct CalmShelf {
    texts: Texts,
    given: u64,
}

impl Model for CalmShelf {
    ghost use Rattle.sd_outside.specs.CalmShelf.{CalmShelf as Calm};

    ghost Value = { Calm };

    ghost view = { λ s. record { texts = s.texts; given = s.given } };
}

impl CalmShelf {
    /// A shelf of these texts by their names, which differ.
    pub fn new(texts: Vec<(String, Vec<u8>)>) -> CalmShelf
        requires { IsTrue (names_differ (map text_of texts.items)) }
        ensures told { TellsEach result.texts }
        ensures exact { result ≡ record { texts = map text_of texts.items; given = 0 } }
    {
        CalmShelf {
            texts: Texts::new(texts),
            given: 0,
        }
    }
}

impl Shelf for CalmShelf {
    ghost use Rattle.std.specs.Prelude.{Some};
    ghost use Rattle.sd_outside.specs.CalmShelf.{calm_left};

    ghost left = { λ s name. Some (calm_left s.texts name) };

    ghost given = { λ s. s.given };

    ghost faults = { λ _. 0 };

    /// Moves as many bytes as are left and fit into `buf`. It never fails.
    fn read(&mut self, name: &str, buf: &mut [u8]) -> Result<usize, Failed>
        ensures exact { result ≡ Ok (min (length buf.old) (length (calm_left self.old.texts name.now))) }
        ensures room { IfOk result (λ n. n ≤ length buf.new) }
        ensures moves { IfOk result (λ n. calm_left self.new.texts name.now ≡ drop n (calm_left self.old.texts name.now)) }
        ensures gives { IfOk result (λ n. Gives (calm_left self.old.texts name.now) buf.new n) }
        ensures counts { IfOk result (λ n. self.new.given ≡ counted self.old.given n) }
        ensures others { LeavesOthers name.now (λ other. Some (calm_left self.old.texts other)) (λ other. Some (calm_left self.new.texts other)) }
    {
        let most = buf.len();
        let taken = self.texts.read(name, buf, most).unwrap_or(0);
        self.given = self.given.saturating_add(taken as u64);
        Ok(taken)
    }
}

/// A sink that takes all that it is given, drops it, and never fails.
#[derive(Drop)]
pub struct CalmSink;

impl CalmSink {
    pub fn new() -> CalmSink {
        CalmSink
    }
}

impl Sink for CalmSink {
    ghost use Rattle.std.specs.Prelude.{None};

    ghost written = { λ _. None };

    ghost faults = { λ _. 0 };

    /// Takes all bytes. It never fails.
    fn write(&mut self, bytes: &[u8]) -> Result<usize, Failed>
        ensures { result ≡ Ok (length bytes.now) }
    {
        Ok(bytes.len())
    }
}
