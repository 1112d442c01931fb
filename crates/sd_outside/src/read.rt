//! Reading a whole text.
ghost use Rattle.std.specs.Prelude.{◌≡◌, ◌<◌, ◌≤◌, ◌≢◌, IfOk, IfSome, vec_len, length};
ghost use Rattle.sd_outside.specs.Counts.{counted, Rose, RoseBeyond};
ghost use Rattle.sd_outside.specs.Shelf.{LeavesOthers};

use crate::Shelf;
use sd_base::limits::FILE_BYTES;
use std::alloc::{AllocError, Global};

/// How many bytes one read asks for.
const PIECE_BYTES: usize = 8_192;

/// Why a text was not read.
#[derive(Clone, Copy, PartialEq, Eq, Debug)]
pub enum TextFault {
    /// A read failed: the shelf's faults rose in the call.
    ReadFault,
    /// The text has more than 1,048,576 bytes.
    TooLong,
    /// Want of memory.
    Memory,
}

impl From<AllocError> for TextFault {
    ghost use Rattle.std.specs.Prelude.{◌≡◌};
    ghost use Rattle.sd_outside.specs.declared.read.TextFault.TheVariants.{Memory};

    ghost from_gives = { λ _ fault. fault ≡ Memory };

    fn from(_: AllocError) -> TextFault {
        TextFault::Memory
    }
}

/// All bytes of `name` that are left on the shelf, read to their end.
///
/// `ReadFault`: a read failed, as that of a name that is not there. `TooLong`: more than 1,048,576 bytes were there;
/// no more than that and one piece are read. `Memory`: want of memory.
pub fn read_text<S: Shelf>(alloc: Global, shelf: &mut S, name: &str) -> Result<Vec<u8>, TextFault>
    ensures whole { IfOk result (λ text. IfSome (S.left shelf.old name.now) (λ bytes. text.items ≡ bytes)) }
    ensures short { IfOk result (λ text. vec_len text ≤ 1048576) }
    ensures counts { IfOk result (λ text. S.given shelf.new ≡ counted (S.given shelf.old) (vec_len text)) }
    ensures too_long { result ≡ Err TextFault.TooLong → IfSome (S.left shelf.old name.now) (λ bytes. 1048576 < length bytes) }
    ensures too_much { result ≡ Err TextFault.TooLong → RoseBeyond 1048576 (S.given shelf.old) (S.given shelf.new) }
    ensures read_fault { result ≡ Err TextFault.ReadFault → Rose (S.faults shelf.old) (S.faults shelf.new) }
    ensures calm { result ≢ Err TextFault.ReadFault → S.faults shelf.new ≡ S.faults shelf.old }
    ensures later { S.faults shelf.old ≤ S.faults shelf.new }
    ensures others { LeavesOthers name.now (S.left shelf.old) (S.left shelf.new) }
{
    let mut text = Vec::new(alloc);
    let mut piece = [0; PIECE_BYTES];
    loop {
        let taken = match shelf.read(name, &mut piece) {
            Ok(taken) => taken,
            Err(_) => return Err(TextFault::ReadFault),
        };
        if taken == 0 {
            return Ok(text);
        }
        if text.len() + taken > FILE_BYTES {
            return Err(TextFault::TooLong);
        }
        text.extend_from_slice(&piece[..taken])?;
    }
}
