//! One line of output, composed in place without memory.
ghost use Rattle.std.specs.Prelude.{◌≡◌, ◌+◌, ◌<◌, ◌≤◌, ◌++◌, [], length};
ghost use Rattle.std.specs.Fmt.{signed_decimal};
ghost use Rattle.sd_base.specs.Text.{hexadecimal, hexadecimal_digit as digit_of};

use crate::limits::LINE_BYTES;
use itoa::Buffer;
use std::marker::Model;

/// A line of output of at most 200 bytes, without its line feed.
#[derive(Drop)]
pub struct Line {
    /// The line, and zeros after it.
    bytes: [u8; LINE_BYTES],
    len: u8,
}

impl Model for Line {
    ghost use Rattle.std.specs.Prelude.{ℕ, List, take};
    ghost use Rattle.sd_base.specs.Padded.{IsPadded};

    ghost Value = { List ℕ };

    ghost view = { λ line. take line.len line.bytes };

    ghost invariant = { λ line. IsPadded 200 line.len line.bytes };
}

impl Line {
    /// A line with nothing in it yet.
    pub fn new() -> Line
        ensures line { result ≡ [] }
        ensures len { length result ≡ 0 }
    {
        Line {
            bytes: [0; LINE_BYTES],
            len: 0,
        }
    }

    /// Appends the decimal digits of a number, with `-` before them where it is negative.
    pub fn put_dec(&mut self, v: i128)
        requires { length self.old + 40 ≤ 200 }
        ensures line { self.new ≡ self.old ++ signed_decimal v }
        ensures len { length self.new ≤ length self.old + 40 }
    {
        let mut buffer = Buffer::new();
        self.put_text(buffer.format(v).as_bytes());
    }

    /// Appends two lower-case hexadecimal digits.
    pub fn put_hex(&mut self, v: u8)
        requires { length self.old + 2 ≤ 200 }
        ensures line { self.new ≡ self.old ++ hexadecimal v }
        ensures len { length self.new ≡ length self.old + 2 }
    {
        self.put_text(&[hexadecimal_digit(v / 16), hexadecimal_digit(v % 16)]);
    }

    /// Appends these bytes.
    pub fn put_text(&mut self, s: &[u8])
        requires { length self.old + length s.now ≤ 200 }
        ensures line { self.new ≡ self.old ++ s.now }
        ensures len { length self.new ≡ length self.old + length s.now }
    {
        let at = self.len as usize;
        self.bytes[at..at + s.len()].copy_from_slice(s);
        self.len += s.len() as u8;
    }

    /// The bytes so far.
    pub fn bytes(&self) -> &[u8]
        ensures line { result.now ≡ self.now }
        ensures short { length self.now ≤ 200 }
    {
        &self.bytes[..self.len as usize]
    }
}

// The lower-case hexadecimal digit of a number below 16.
fn hexadecimal_digit(n: u8) -> u8
    requires { n < 16 }
    ensures { result ≡ digit_of n }
{
    if n < 10 { b'0' + n } else { b'a' + (n - 10) }
}
