//! `read_driver`: the items of a driver text.
ghost use Rattle.std.specs.Prelude.{◌≡◌, ◌≢◌, ◌≤◌, count_by, ◌==◌, IfErr, IfOk};
ghost use Rattle.c_tree.specs.Units.{Reads};
ghost use Rattle.c_tree.specs.ShortUnit.{IsShortUnit};
ghost use Rattle.driver_front.specs.Verdict.{IsUnread};
ghost use Rattle.driver_front.specs.Parts.{unit_refusal as of_items, word_refusal as of_words};

use crate::DriverRefusal;
use c_decl::{UnitRefusal, read_unit};
use c_token::{WordRefusal, tokens};
use c_tree::Unit;
use std::alloc::Global;

/// The items of a driver text.
///
/// Refused at the first of these: a byte at which no word begins (`NotAWord`), a word that passes a limit (`Limit`), words that go on with no item
/// (`NoItem`); and with `Memory` where memory is wanting.
pub fn read_driver(alloc: Global, text: &[u8]) -> Result<Unit, DriverRefusal>
    requires { count_by (λ byte. byte == 10) text.now ≤ 4294967294 }
    ensures unit { IfOk result (λ unit. Reads text.now unit) }
    ensures short { IfOk result (λ unit. IsShortUnit unit) }
    ensures unread { IfErr result (λ refusal. refusal ≢ DriverRefusal.Memory → IsUnread text.now refusal) }
{
    let words = match tokens(alloc, text) {
        Ok(words) => words,
        Err(refusal) => return Err(word_refusal(refusal)),
    };
    match read_unit(alloc, words.as_slice()) {
        Ok(unit) => Ok(unit),
        Err(refusal) => Err(unit_refusal(refusal)),
    }
}

/// A refusal of the words.
fn word_refusal(refusal: WordRefusal) -> DriverRefusal
    ensures { result ≡ of_words refusal }
{
    match refusal {
        WordRefusal::NotAWord(line) => DriverRefusal::NotAWord(line),
        WordRefusal::Limit(line, kind) => DriverRefusal::Limit(line, kind),
        WordRefusal::Memory => DriverRefusal::Memory,
    }
}

/// A refusal of the items.
fn unit_refusal(refusal: UnitRefusal) -> DriverRefusal
    ensures { result ≡ of_items refusal }
{
    match refusal {
        UnitRefusal::NoItem(line) => DriverRefusal::NoItem(line),
        UnitRefusal::Memory => DriverRefusal::Memory,
    }
}
