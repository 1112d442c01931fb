//! What the words of a line say.

ghost use Rattle.std.specs.Prelude.{◌≡◌};
ghost use Rattle.std.specs.Option.{option_map};
ghost use Rattle.scenario.specs.Words.{pieces_of};
ghost use Rattle.scenario.specs.Forms.{only_of, two_of, none_of, driver_and_task, only_number, only_value};

use crate::numbers::{read_driver, read_number, read_signed, read_task};
use crate::words::first_word;

/// Exactly one word.
pub fn only_word(line: &[u8]) -> Option<&[u8]>
    ensures { option_map (λ word. word.now) result ≡ only_of (pieces_of line.now) }
{
    let (word, rest) = first_word(line)?;
    match first_word(rest) {
        Some(_) => None,
        None => Some(word),
    }
}

/// Exactly two words.
pub fn two_words(line: &[u8]) -> Option<(&[u8], &[u8])>
    ensures { option_map (λ two. (two.0.now, two.1.now)) result ≡ two_of (pieces_of line.now) }
{
    let (first, rest) = first_word(line)?;
    let (second, end) = first_word(rest)?;
    match first_word(end) {
        Some(_) => None,
        None => Some((first, second)),
    }
}

/// Whether the line has no word.
pub fn has_no_word(line: &[u8]) -> bool
    ensures { result ≡ none_of (pieces_of line.now) }
{
    match first_word(line) {
        Some(_) => false,
        None => true,
    }
}

/// A driver and a task, as `dK T`.
pub fn read_driver_and_task(line: &[u8], drivers: u8) -> Option<(u8, u8)>
    ensures { result ≡ driver_and_task drivers (pieces_of line.now) }
{
    let (driver, task) = two_words(line)?;
    let driver = read_driver(driver, drivers)?;
    let task = read_task(task)?;
    Some((driver, task))
}

/// One number to `most`.
pub fn read_only_number(line: &[u8], most: u32) -> Option<u32>
    ensures { result ≡ only_number most (pieces_of line.now) }
{
    let word = only_word(line)?;
    let number = read_number(word, 0, most)?;
    Some(number)
}

/// One value.
pub fn read_only_value(line: &[u8]) -> Option<i32>
    ensures { result ≡ only_value (pieces_of line.now) }
{
    let word = only_word(line)?;
    let value = read_signed(word)?;
    Some(value)
}
