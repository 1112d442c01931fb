//! Names, and the table of reserved words.
ghost use Rattle.std.specs.Prelude.{◌≡◌, ◌<◌, ◌≤◌, ◌↔◌, length, IsTrue};
ghost use Rattle.c_tree.specs.Bytes.{is_name_byte};
ghost use Rattle.c_tree.specs.Names.{reserved};
ghost use Rattle.c_token.specs.Reserved.{slot_of, entry_of};
ghost use Rattle.c_token.specs.Scans.{front_length};

use crate::bytes::is_name_byte;
use crate::reserved::{LONGEST, RESERVED, SHORTEST, SLOTS};
use c_tree::Keyword;

/// How many bytes that a name goes on with stand first in a text.
pub fn name_length(text: &[u8]) -> usize
    ensures front { result ≡ front_length is_name_byte 0 text.now }
    ensures within { result ≤ length text.now }
{
    let mut rest = text;
    let mut length = 0;
    while let [first, after @ ..] = rest {
        if !is_name_byte(*first) {
            return length;
        }
        length += 1;
        rest = after;
    }
    length
}

/// Whether two texts are the same.
fn are_same(left: &[u8], right: &[u8]) -> bool
    ensures { IsTrue result ↔ (left.now ≡ right.now) }
{
    left == right
}

/// The slot of the table that a name has.
fn slot(name: &[u8]) -> usize
    requires long { 2 ≤ length name.now }
    requires short { length name.now ≤ 8 }
    ensures slot { result ≡ slot_of name.now }
    ensures within { result < 128 }
{
    let length = name.len();
    let first = name[0] as usize;
    let last = name[length - 1] as usize;
    let last_but_one = name[length - 2] as usize;
    (5 * first + 2 * last_but_one + 15 * last + length) % SLOTS
}

/// The word in a slot of the table.
fn entry(slot: usize) -> Option<Keyword>
    requires { slot < 128 }
    ensures { result ≡ entry_of slot }
{
    RESERVED[slot]
}

/// The reserved word that is spelled so, if there is one: its slot in the table has that word, or none has it.
pub fn reserved(name: &[u8]) -> Option<Keyword>
    ensures { result ≡ reserved name.now }
{
    let length = name.len();
    if length < SHORTEST || length > LONGEST {
        return None;
    }
    let found = entry(slot(name));
    let Some(keyword) = found else {
        return None;
    };
    if are_same(keyword.spelling(), name) {
        Some(keyword)
    } else {
        None
    }
}
