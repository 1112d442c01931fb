//! Calls that print.
ghost use Rattle.std.specs.Prelude.{◌≡◌, ◌+◌, ◌<◌, ◌^◌, [], ◌∷◌, ◌++◌, length, List, ℕ, IsTrue};
ghost use Rattle.std.specs.Option.{option_map};
ghost use Rattle.byte_memory.specs.Tested.{is_inside};
ghost use Rattle.wrappers.specs.Rows as row;
ghost use Rattle.wrappers.specs.Serving.{IsRead};
ghost use Rattle.wrappers.specs.Text as text;

use crate::{CallOut, Saying, TextBytes};
use byte_memory::Tested;

/// A text of no bytes.
const NO_TEXT: TextBytes = TextBytes {
    bytes: [0; 32],
    len: 0,
    more: false,
};

/// What is told of a text with one more byte: the byte, or where 32 are told already, that there are more.
fn with_byte(told: TextBytes, byte: u8) -> TextBytes
    ensures { (front : List ℕ) → told ≡ text.told front → length front < 33 → result ≡ text.told (front ++ byte ∷ []) }
{
    let mut bytes = told.bytes;
    let at = usize::from(told.len);
    if at >= 32 {
        return TextBytes {
            bytes,
            len: told.len,
            more: true,
        };
    }
    bytes[at] = byte;
    TextBytes {
        bytes,
        len: told.len + 1,
        more: told.more,
    }
}

/// The byte at an address.
fn byte_at(memory: &Tested, at: u32) -> u8
    requires { IsTrue (is_inside memory.now at 1) }
    ensures { result ≡ text.byte_at memory.now at }
{
    memory.view(at, 1).first().copied().unwrap_or(0)
}

/// What is told of the text from an address on: at most 33 bytes are read, up to the first 0. None where one of them is not inside.
fn text_at(memory: &Tested, from: u32) -> Option<TextBytes>
    requires { length memory.now.bytes < 2 ^ 32 }
    ensures { result ≡ option_map text.told (text.text_from memory.now 33 from) }
{
    let mut told = NO_TEXT;
    let mut at = from;
    for _i in 0..33usize {
        if !memory.inside(at, 1) {
            return None;
        }
        let byte = byte_at(memory, at);
        if byte == 0 {
            return Some(told);
        }
        told = with_byte(told, byte);
        at += 1;
    }
    Some(told)
}

/// `prints(s)`: the text is printed, nothing of it for null.
pub fn prints(memory: &Tested, s: u32) -> CallOut
    requires { length memory.now.bytes < 2 ^ 32 }
    ensures { IsRead (row.prints memory.now s) result }
{
    if s == 0 {
        return CallOut::Said(Saying::Text(NO_TEXT));
    }
    match text_at(memory, s) {
        None => CallOut::Wild,
        Some(told) => CallOut::Said(Saying::Text(told)),
    }
}
