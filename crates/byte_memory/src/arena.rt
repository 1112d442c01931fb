// `Arena`: one allocation of bytes, seen as a list of bytes, with loads and stores of 8, 16 and 32 bits, a fill with zeros, a
// copy from outside and a view.

ghost use Rattle.std.specs.Prelude.{◌≡◌, ◌+◌, ◌≤◌, length, IfOk};
ghost use Rattle.byte_memory.specs.Bytes.{little_endian, low_bytes, bytes_at, overwritten, zeros};

use crate::raw_bytes::{read_byte, write_byte};
use std::alloc::{AllocError, Global};
use std::marker::Model;

/// Bytes at the addresses from 0 on, in one allocation that is taken once, by `new`, and never moves.
///
/// A contract sees the list of the bytes. Loads and stores are little endian. The condition of each call but `new` is that
/// its range lies in the arena; no call but `new` tests a range, refuses or takes memory.
#[derive(Drop)]
pub struct Arena {
    bytes: Vec<u8>,
}

impl Model for Arena {
    ghost use Rattle.std.specs.Prelude.{List, ℕ};

    ghost Value = { List ℕ };

    ghost view = { λ a. a.bytes.items };
}

impl Arena {
    /// An arena of `size` bytes, all 0. Refuses only where memory is wanting.
    #[tactic(auto, unfolding(crate::specs::Bytes::zeros))]
    pub fn new(alloc: Global, size: u32) -> Result<Arena, AllocError>
        ensures bytes { IfOk result (λ a. a ≡ zeros size) }
        ensures len { IfOk result (λ a. length a ≡ size) }
    {
        let bytes = vec![in alloc; 0; size as usize]?;
        Ok(Arena { bytes })
    }

    /// The byte at `at`, from 0 to 255.
    pub fn load8(&self, at: u32) -> u32
        requires { at + 1 ≤ length self.now }
        ensures { result ≡ little_endian (bytes_at self.now at 1) }
    {
        u32::from(read_byte(self.bytes.as_slice(), at as usize))
    }

    /// The two bytes from `at` on as a number, from 0 to 65,535.
    pub fn load16(&self, at: u32) -> u32
        requires { at + 2 ≤ length self.now }
        ensures { result ≡ little_endian (bytes_at self.now at 2) }
    {
        let at = at as usize;
        let bytes = self.bytes.as_slice();
        u32::from(u16::from_le_bytes([read_byte(bytes, at), read_byte(bytes, at + 1)]))
    }

    /// The four bytes from `at` on as a number.
    pub fn load32(&self, at: u32) -> u32
        requires { at + 4 ≤ length self.now }
        ensures { result ≡ little_endian (bytes_at self.now at 4) }
    {
        let at = at as usize;
        let bytes = self.bytes.as_slice();
        u32::from_le_bytes([
            read_byte(bytes, at),
            read_byte(bytes, at + 1),
            read_byte(bytes, at + 2),
            read_byte(bytes, at + 3),
        ])
    }

    /// Puts the low 8 bits of `v` at `at`.
    pub fn store8(&mut self, at: u32, v: u32)
        requires { at + 1 ≤ length self.old }
        ensures after { self.new ≡ overwritten self.old at (low_bytes 1 v) }
        ensures len { length self.new ≡ length self.old }
    {
        let low = v.to_le_bytes();
        write_byte(self.bytes.as_mut_slice(), at as usize, low[0]);
    }

    /// Puts the low 16 bits of `v` at the two bytes from `at` on.
    pub fn store16(&mut self, at: u32, v: u32)
        requires { at + 2 ≤ length self.old }
        ensures after { self.new ≡ overwritten self.old at (low_bytes 2 v) }
        ensures len { length self.new ≡ length self.old }
    {
        let at = at as usize;
        let low = v.to_le_bytes();
        let bytes = self.bytes.as_mut_slice();
        write_byte(bytes, at, low[0]);
        write_byte(bytes, at + 1, low[1]);
    }

    /// Puts `v` at the four bytes from `at` on.
    pub fn store32(&mut self, at: u32, v: u32)
        requires { at + 4 ≤ length self.old }
        ensures after { self.new ≡ overwritten self.old at (low_bytes 4 v) }
        ensures len { length self.new ≡ length self.old }
    {
        let at = at as usize;
        let all = v.to_le_bytes();
        let bytes = self.bytes.as_mut_slice();
        write_byte(bytes, at, all[0]);
        write_byte(bytes, at + 1, all[1]);
        write_byte(bytes, at + 2, all[2]);
        write_byte(bytes, at + 3, all[3]);
    }

    /// Writes 0 over the `n` bytes from `at` on.
    pub fn fill(&mut self, at: u32, n: u32)
        requires { at + n ≤ length self.old }
        ensures after { self.new ≡ overwritten self.old at (zeros n) }
        ensures len { length self.new ≡ length self.old }
    {
        let at = at as usize;
        self.bytes[at..at + n as usize].fill(0);
    }

    /// Writes `bytes` over those from `at` on.
    pub fn copy_in(&mut self, at: u32, bytes: &[u8])
        requires { at + length bytes.now ≤ length self.old }
        ensures after { self.new ≡ overwritten self.old at bytes.now }
        ensures len { length self.new ≡ length self.old }
    {
        let at = at as usize;
        self.bytes[at..at + bytes.len()].copy_from_slice(bytes);
    }

    /// The `n` bytes from `at` on, as they are now.
    pub fn view(&self, at: u32, n: u32) -> &[u8]
        requires { at + n ≤ length self.now }
        ensures { result.now ≡ bytes_at self.now at n }
    {
        let at = at as usize;
        &self.bytes[at..at + n as usize]
    }
}
