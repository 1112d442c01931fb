//! What stands between the quotes of characters and strings.
ghost use Rattle.std.specs.Prelude.{◌≡◌, ◌<◌, ◌≤◌, ◌++◌, List, [], length, IfOk, IfSome, false};
ghost use Rattle.c_tree.specs.Bytes.{first_is, is_digit};
ghost use Rattle.c_tree.specs.Characters.{is_plain, is_escape, escaped};
ghost use Rattle.c_token.specs.Scans.{quoted_length, one_meant, meaning_after};

use crate::bytes::is_digit;
use sqlite_items::Items;
use std::alloc::{AllocError, Global};

/// A byte that stands for itself between these quotes.
fn is_plain(quote: u8, byte: u8) -> bool
    ensures { result ≡ is_plain quote byte }
{
    (b' ' <= byte && byte <= b'~') && !(byte == quote || byte == b'\\')
}

/// Whether a text begins with a decimal digit.
fn begins_with_digit(text: &[u8]) -> bool
    ensures { result ≡ first_is is_digit text.now }
{
    match text {
        [first, ..] => is_digit(*first),
        [] => false,
    }
}

/// What may stand after `\`, with this text behind it.
fn is_escape(byte: u8, after: &[u8]) -> bool
    ensures { result ≡ is_escape byte after.now }
{
    byte == b'n'
        || byte == b't'
        || byte == b'r'
        || byte == b'\\'
        || byte == b'\''
        || byte == b'"'
        || (byte == b'0' && !begins_with_digit(after))
}

/// The byte that an escape stands for.
fn escaped(byte: u8) -> u8
    ensures { result ≡ escaped byte }
{
    match byte {
        b'n' => b'\n',
        b't' => b'\t',
        b'r' => b'\r',
        b'0' => 0,
        other => other,
    }
}

/// How many bytes stand before the quote that closes, if they are plain bytes and escapes.
pub fn quoted_length(quote: u8, text: &[u8]) -> Option<usize>
    ensures length { result ≡ quoted_length quote 0 false text.now }
    ensures within { IfSome result (λ n. n < length text.now) }
{
    let mut rest = text;
    let mut length = 0;
    let mut escape = false;
    while let [first, after @ ..] = rest {
        if escape {
            if !is_escape(*first, after) {
                return None;
            }
            escape = false;
        } else {
            if *first == quote {
                return Some(length);
            }
            if *first == b'\\' {
                escape = true;
            } else if !is_plain(quote, *first) {
                return None;
            }
        }
        length += 1;
        rest = after;
    }
    None
}

/// The byte that is meant, where only one is.
pub fn one_meant(spelling: &[u8]) -> Option<u8>
    ensures { result ≡ one_meant spelling.now }
{
    match spelling {
        [byte] => Some(*byte),
        [first, byte] => {
            if *first == b'\\' {
                Some(escaped(*byte))
            } else {
                None
            }
        }
        _ => None,
    }
}

/// The bytes that plain bytes and escapes stand for.
pub fn meaning(alloc: Global, spelling: &[u8]) -> Result<Items<u8>, AllocError>
    ensures { IfOk result (λ bytes. bytes ≡ meaning_after false spelling.now) }
{
    let mut bytes = Items::new(alloc);
    let mut rest = spelling;
    let mut escape = false;
    while let [first, after @ ..] = rest {
        if escape {
            bytes.push(escaped(*first))?;
            escape = false;
        } else if *first == b'\\' && !after.is_empty() {
            escape = true;
        } else {
            bytes.push(*first)?;
        }
        rest = after;
    }
    Ok(bytes)
}
