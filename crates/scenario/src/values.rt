//! The values of a line, of which there may be many.

ghost use Rattle.std.specs.Prelude.{◌≡◌, ◌++◌, length, OnOk, Some, None, slice_get, if◌then◌else◌};
ghost use Rattle.std.specs.Option.{option_map};
ghost use Rattle.scenario.specs.Words.{pieces_of};
ghost use Rattle.scenario.specs.Forms.{are_values, values_in, argument_at, arguments_in};

use crate::event::Event;
use crate::numbers::read_signed;
use crate::words::first_word;
use std::alloc::AllocError;

/// What a line says. Values that a port is given are left in the line, and counted.
#[derive(Clone, Copy)]
pub enum Reading<'a> {
    Nothing,
    Event(Event),
    Answers {
        port: u16,
        values: &'a [u8],
        count: usize,
    },
}

/// How many values the line has, where all its words are values.
pub fn count_values(line: &[u8]) -> Option<usize>
    ensures { result ≡ (if are_values (pieces_of line.now) then Some (length (pieces_of line.now)) else None) }
{
    let mut count = 0;
    let mut rest = line;
    while let Some((word, after)) = first_word(rest) {
        let _value = read_signed(word)?;
        count += 1;
        rest = after;
    }
    Some(count)
}

/// The word at a place, counted from 0.
fn word_at(line: &[u8], place: usize) -> Option<&[u8]>
    ensures { option_map (λ word. word.now) result ≡ slice_get (pieces_of line.now) place }
{
    let mut rest = line;
    for _k in 0..place {
        let (_, after) = first_word(rest)?;
        rest = after;
    }
    let (word, _) = first_word(rest)?;
    Some(word)
}

/// The value at a place, and 0 past the last.
fn read_argument(line: &[u8], place: usize) -> i32
    ensures { result ≡ argument_at (pieces_of line.now) place }
{
    match word_at(line, place) {
        Some(word) => read_signed(word).unwrap_or(0),
        None => 0,
    }
}

/// The arguments of a call: its values in their order, and zeros.
pub fn read_arguments(line: &[u8]) -> [i32; 8]
    ensures { result ≡ arguments_in (pieces_of line.now) }
{
    [
        read_argument(line, 0),
        read_argument(line, 1),
        read_argument(line, 2),
        read_argument(line, 3),
        read_argument(line, 4),
        read_argument(line, 5),
        read_argument(line, 6),
        read_argument(line, 7),
    ]
}

/// Appends the values of the line.
pub fn push_values(values: &mut Vec<i32>, line: &[u8]) -> Result<(), AllocError>
    ensures { OnOk result (values.new.items ≡ values.old.items ++ values_in (pieces_of line.now)) }
{
    let mut rest = line;
    while let Some((word, after)) = first_word(rest) {
        if let Some(value) = read_signed(word) {
            values.push(value)?;
        }
        rest = after;
    }
    Ok(())
}
