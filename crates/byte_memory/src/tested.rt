// `Tested`: an arena with the list of the ranges that were granted in it, for a machine that cannot yet show that its accesses
// lie inside them and so tests each one first.

ghost use Rattle.std.specs.Prelude.{◌≡◌, ◌+◌, ◌≤◌, ◌<◌, [], ◌∷◌, ◌++◌, length, IsTrue, IfOk};
ghost use Rattle.byte_memory.specs.Bytes.{little_endian, low_bytes, bytes_at, overwritten, zeros};

use crate::arena::Arena;
use std::alloc::{AllocError, Global};
use std::marker::Model;

/// How many ranges a tested memory has room for, from `new` on.
pub const MAX_GRANTED: usize = 4096;

/// The `size` bytes from the address `base` on.
#[derive(Clone, Copy, Debug, PartialEq, Eq)]
pub struct GrantedRange {
    pub base: u32,
    pub size: u32,
}

impl GrantedRange {
    ghost use Rattle.byte_memory.specs.Tested.{contains};

    // Whether the n bytes from `at` on lie in the range. The sums are in 64 bits, where none of them wraps.
    fn contains(&self, at: u32, n: u32) -> bool
        ensures { result ≡ contains at n self.now }
    {
        let end = u64::from(self.base) + u64::from(self.size);
        self.base <= at && u64::from(at) + u64::from(n) <= end
    }
}

/// An arena and the ranges of it that were granted, each of which lies in it.
///
/// A contract sees the bytes and the list of the ranges. All memory is taken by `new`.
#[derive(Drop)]
pub struct Tested {
    arena: Arena,
    size: u32,
    granted: Vec<GrantedRange>,
}

impl Model for Tested {
    ghost use Rattle.std.specs.Vec.{vec_capacity};
    ghost use Rattle.byte_memory.specs.Tested.{Memory, IsSound};

    ghost Value = { Memory };

    ghost view = { λ t. record { bytes = t.arena; granted = t.granted.items } };

    ghost invariant = { λ t. IsSound t.arena t.size t.granted.items (vec_capacity t.granted) };
}

impl Tested {
    ghost use Rattle.byte_memory.specs.Tested.{Memory, is_inside, IsAccessSize};

    /// A memory of `size` bytes, all 0, with nothing granted and room for 4,096 ranges. Refuses only where memory is
    /// wanting.
    pub fn new(alloc: Global, size: u32) -> Result<Tested, AllocError>
        ensures made { IfOk result (λ t. t ≡ record { bytes = zeros size; granted = [] }) }
        ensures len { IfOk result (λ t. length t.bytes ≡ size) }
    {
        let arena = Arena::new(alloc, size)?;
        let granted = Vec::with_capacity(alloc, MAX_GRANTED)?;
        Ok(Tested {
            arena,
            size,
            granted,
        })
    }

    /// Grants the `size` bytes from `base` on, which lie in the memory; fewer than `MAX_GRANTED` ranges are there.
    pub fn grant(&mut self, base: u32, size: u32)
        requires room { length self.old.granted < MAX_GRANTED }
        requires within { base + size ≤ length self.old.bytes }
        ensures { self.new ≡ record self.old { granted = self.old.granted ++ record { base = base; size = size } ∷ [] } }
    {
        match self.granted.push(GrantedRange { base, size }) {
            Ok(()) => {}
            Err(_) => unreachable!(),
        }
    }

    /// Whether one granted range has all `n` bytes from `at` on, counted without wrapping.
    pub fn inside(&self, at: u32, n: u32) -> bool
        ensures test { result ≡ is_inside self.now at n }
        ensures within { IsTrue result → at + n ≤ length self.now.bytes }
    {
        self.granted.iter().any(|range| range.contains(at, n))
    }

    /// The `n` bytes from `at` on as a number; `n` is 1, 2 or 4.
    pub fn load(&self, at: u32, n: u32) -> u32
        requires size { IsAccessSize n }
        requires inside { IsTrue (is_inside self.now at n) }
        ensures { result ≡ little_endian (bytes_at self.now.bytes at n) }
    {
        match n {
            1 => self.arena.load8(at),
            2 => self.arena.load16(at),
            4 => self.arena.load32(at),
            _ => unreachable!(),
        }
    }

    /// Puts the low `n` bytes of `v` at the `n` bytes from `at` on; `n` is 1, 2 or 4.
    pub fn store(&mut self, at: u32, n: u32, v: u32)
        requires size { IsAccessSize n }
        requires inside { IsTrue (is_inside self.old at n) }
        ensures after { self.new ≡ record self.old { bytes = overwritten self.old.bytes at (low_bytes n v) } }
        ensures len { length self.new.bytes ≡ length self.old.bytes }
    {
        match n {
            1 => self.arena.store8(at, v),
            2 => self.arena.store16(at, v),
            4 => self.arena.store32(at, v),
            _ => unreachable!(),
        }
    }

    /// Makes the `n` bytes from `at` on 0.
    pub fn fill(&mut self, at: u32, n: u32)
        requires inside { IsTrue (is_inside self.old at n) }
        ensures after { self.new ≡ record self.old { bytes = overwritten self.old.bytes at (zeros n) } }
        ensures len { length self.new.bytes ≡ length self.old.bytes }
    {
        self.arena.fill(at, n);
    }

    /// The `n` bytes from `at` on, as they are now.
    pub fn view(&self, at: u32, n: u32) -> &[u8]
        requires inside { IsTrue (is_inside self.now at n) }
        ensures { result.now ≡ bytes_at self.now.bytes at n }
    {
        self.arena.view(at, n)
    }

    /// Makes all bytes 0 and takes every grant back.
    #[tactic(auto, using(crate::proofs::Words::cleared))]
    pub fn clear(&mut self)
        ensures after { self.new ≡ record { bytes = zeros (length self.old.bytes); granted = [] } }
        ensures len { length self.new.bytes ≡ length self.old.bytes }
    {
        self.arena.fill(0, self.size);
        self.granted.clear();
    }
}
