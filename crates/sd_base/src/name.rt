//! Names of the C profile, of at most 63 bytes, kept in place.
ghost use Rattle.std.specs.Prelude.{◌≡◌, ◌≤◌, length};

use crate::limits::NAME_BYTES;
use std::marker::Model;

/// A name: a list of at most 63 bytes. Two names are equal where their bytes are.
#[derive(Clone, Copy, PartialEq, Eq, Hash, Debug)]
pub struct Name {
    /// The name, and zeros after it.
    bytes: [u8; NAME_BYTES],
    len: u8,
}

impl Model for Name {
    ghost use Rattle.std.specs.Prelude.{◌≡◌, ℕ, List, ◌++◌, ◌-◌, ◌≤◌, length, take, replicate};
    ghost use Rattle.sd_base.specs.Padded.{IsPadded, padded};
    ghost use Rattle.sd_base.specs.PaddedLaws.{padded-take};

    ghost Value = { List ℕ };

    ghost view = { λ n. take n.len n.bytes };

    ghost invariant = { λ n. IsPadded 63 n.len n.bytes };

    ghost inverse = { λ s. record { bytes = padded 63 s; len = length s } };

    ghost inverse_ok = { λ n h i. record {
      bytes = (padded-take 63 n.len n.bytes h).0 i;
      len = (padded-take 63 n.len n.bytes h).1 i;
    } };
}

impl Name {
    /// The name with these bytes.
    pub fn new(bytes: &[u8]) -> Name
        requires { length bytes.now ≤ 63 }
        ensures { result ≡ bytes.now }
    {
        let mut kept = [0; NAME_BYTES];
        kept[..bytes.len()].copy_from_slice(bytes);
        Name {
            bytes: kept,
            len: bytes.len() as u8,
        }
    }

    /// The bytes of the name.
    pub fn bytes(&self) -> &[u8]
        ensures name { result.now ≡ self.now }
        ensures short { length self.now ≤ 63 }
    {
        &self.bytes[..self.len as usize]
    }
}
