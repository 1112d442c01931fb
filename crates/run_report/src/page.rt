//! The bytes that a report keeps: lines put one behind another, in place and without memory.
ghost use Rattle.std.specs.Prelude.{◌≡◌, ◌+◌, ◌≤◌, ◌++◌, [], length};
ghost use Rattle.std.specs.Fmt.{decimal, signed_decimal};

use itoa::Buffer;
use sd_base::Name;
use std::marker::Model;

/// The bytes of a page.
const PAGE_BYTES: usize = 4_096;

/// A page of at most 4,096 bytes.
#[derive(Drop)]
pub struct Page {
    /// The bytes, and anything behind them.
    bytes: [u8; PAGE_BYTES],
    len: usize,
}

impl Model for Page {
    ghost use Rattle.std.specs.Prelude.{ℕ, ◌≤◌, List, take};

    ghost Value = { List ℕ };

    ghost view = { λ page. take page.len page.bytes };

    ghost invariant = { λ page. page.len ≤ 4096 };
}

impl Page {
    /// An empty page.
    pub fn new() -> Page
        ensures { result ≡ [] }
    {
        Page {
            bytes: [0; PAGE_BYTES],
            len: 0,
        }
    }

    /// The bytes so far.
    pub fn bytes(&self) -> &[u8]
        ensures { result.now ≡ self.now }
    {
        &self.bytes[..self.len]
    }

    /// How many bytes there are.
    pub fn len(&self) -> usize
        ensures len { result ≡ length self.now }
        ensures fits { result ≤ 4096 }
    {
        self.len
    }

    /// Takes all bytes away.
    pub fn clear(&mut self)
        ensures { self.new ≡ [] }
    {
        self.len = 0;
    }

    /// Puts these bytes behind the others.
    pub fn put_text(&mut self, text: &[u8])
        requires { length self.old + length text.now ≤ 4096 }
        ensures text { self.new ≡ self.old ++ text.now }
        ensures len { length self.new ≡ length self.old + length text.now }
    {
        let end = self.len + text.len();
        self.bytes[self.len..end].copy_from_slice(text);
        self.len = end;
    }

    /// Puts a name behind the others.
    pub fn put_name(&mut self, name: &Name)
        requires { length self.old + 63 ≤ 4096 }
        ensures text { self.new ≡ self.old ++ name.now }
        ensures len { length self.new ≤ length self.old + 63 }
    {
        self.put_text(name.bytes());
    }

    /// Puts the decimal digits of a count behind the others.
    pub fn put_count(&mut self, n: u64)
        requires { length self.old + 40 ≤ 4096 }
        ensures text { self.new ≡ self.old ++ decimal n }
        ensures len { length self.new ≤ length self.old + 40 }
    {
        let mut buffer = Buffer::new();
        self.put_text(buffer.format(n).as_bytes());
    }

    /// Puts the decimal digits of a number behind the others, with `-` before them where it is negative.
    pub fn put_number(&mut self, v: i64)
        requires { length self.old + 40 ≤ 4096 }
        ensures text { self.new ≡ self.old ++ signed_decimal v }
        ensures len { length self.new ≤ length self.old + 40 }
    {
        let mut buffer = Buffer::new();
        self.put_text(buffer.format(v).as_bytes());
    }

    /// The same of a number of up to 128 bits.
    pub fn put_wide(&mut self, v: i128)
        requires { length self.old + 40 ≤ 4096 }
        ensures text { self.new ≡ self.old ++ signed_decimal v }
        ensures len { length self.new ≤ length self.old + 40 }
    {
        let mut buffer = Buffer::new();
        self.put_text(buffer.format(v).as_bytes());
    }
}
