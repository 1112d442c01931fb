//! Writing a whole piece.
ghost use Rattle.std.specs.Prelude.{◌≡◌, OnOk, OnErr, length};
ghost use Rattle.sd_outside.specs.Counts.{HasCause};
ghost use Rattle.sd_outside.specs.Sink.{more, IsCut};

use crate::Sink;

/// Why a piece was not written whole.
#[derive(Clone, Copy, PartialEq, Eq, Debug)]
pub enum WriteFault {
    /// A write failed: the sink's faults rose in the call.
    Failed,
}

/// Appends all of `bytes`, by as many writes as it takes. It takes no memory.
///
/// `WriteFault`: a write failed; a front part of `bytes` was appended.
pub fn write_all<K: Sink>(sink: &mut K, bytes: &[u8]) -> Result<(), WriteFault>
    ensures ok { OnOk result (K.written sink.new ≡ more (K.written sink.old) bytes.now) }
    ensures err { OnErr result (IsCut (K.written sink.new) (more (K.written sink.old) bytes.now)) }
    ensures cause { HasCause (K.faults sink.old) (K.faults sink.new) result }
{
    let mut at = 0;
    while at < bytes.len() {
        match sink.write(&bytes[at..]) {
            Ok(taken) => at += taken,
            Err(_) => return Err(WriteFault::Failed),
        }
    }
    Ok(())
}
