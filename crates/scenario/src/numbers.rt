//! The numbers and names of a scenario's lines.

ghost use Rattle.std.specs.Prelude.{◌≡◌, ◌≤◌, ◌^◌, ◌<◌};
ghost use Rattle.std.specs.List.{list_all};
ghost use Rattle.scenario.specs.Numbers.{number_within, signed_of, begins_name, is_in_name, is_name, driver_of, task_of};

use sd_base::limits::{NAME_BYTES, TASKS};

/// A decimal number from `least` to `most`; zeros may lead.
pub fn read_number(word: &[u8], least: u32, most: u32) -> Option<u32>
    ensures { result ≡ number_within least most word.now }
{
    if word.is_empty() {
        return None;
    }
    let mut value: u64 = 0;
    for byte in word {
        if !byte.is_ascii_digit() {
            return None;
        }
        value = 10 * value + u64::from(*byte - b'0');
        if value > u64::from(most) {
            return None;
        }
    }
    if value < u64::from(least) {
        return None;
    }
    Some(value as u32)
}

/// A 32-bit signed number, with a minus sign before a negative one.
pub fn read_signed(word: &[u8]) -> Option<i32>
    ensures { result ≡ signed_of word.now }
{
    match word {
        [b'-', digits @ ..] => {
            let size = read_number(digits, 0, 1 << 31)?;
            Some((-i64::from(size)) as i32)
        }
        _ => {
            let value = read_number(word, 0, i32::MAX as u32)?;
            Some(value as i32)
        }
    }
}

/// Whether the word is a name: a letter or `_`, then letters, digits and `_`, of at most 63 bytes.
pub fn is_name_word(word: &[u8]) -> bool
    ensures { result ≡ is_name word.now }
{
    match word {
        [] => false,
        [first, rest @ ..] => {
            begins_name_byte(*first) && are_name_bytes(rest) && word.len() <= NAME_BYTES
        }
    }
}

fn begins_name_byte(byte: u8) -> bool
    ensures { result ≡ begins_name byte }
{
    byte.is_ascii_alphabetic() || byte == b'_'
}

fn is_name_byte(byte: u8) -> bool
    ensures { result ≡ is_in_name byte }
{
    byte.is_ascii_alphanumeric() || byte == b'_'
}

fn are_name_bytes(bytes: &[u8]) -> bool
    ensures { result ≡ list_all is_in_name bytes.now }
{
    bytes.iter().all(|byte| is_name_byte(*byte))
}

/// The driver of a word such as `d1`, of this many drivers.
pub fn read_driver(word: &[u8], drivers: u8) -> Option<u8>
    ensures { result ≡ driver_of drivers word.now }
{
    match word {
        [b'd', number @ ..] => {
            let driver = read_number(number, 1, u32::from(drivers))?;
            Some(driver as u8)
        }
        _ => None,
    }
}

/// The task of a word, from 1 to 8.
pub fn read_task(word: &[u8]) -> Option<u8>
    ensures { result ≡ task_of word.now }
{
    let task = read_number(word, 1, u32::from(TASKS))?;
    Some(task as u8)
}
