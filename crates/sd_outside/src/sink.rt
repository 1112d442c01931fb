//! Where output is written to.
ghost use Rattle.std.specs.Prelude.{◌≡◌, ◌<◌, ◌≤◌, ℕ, List, Option, IfOk, OnErr, length, take};
ghost use Rattle.sd_outside.specs.Counts.{HasCause};
ghost use Rattle.sd_outside.specs.Sink.{more};

use crate::Failed;

/// A sink of bytes. It may tell what was written to it, or tell nothing, as one over standard output does.
pub trait Sink {
    /// What was written, where the sink tells it.
    ghost written: { Self → Option (List ℕ) };

    /// How many writes failed; at the greatest `u64` the count stays.
    ghost faults: { Self → ℕ };

    /// Appends a front part of `bytes`, and answers its length, which is not 0 where there are bytes.
    ///
    /// `Failed`: nothing was appended, and the count of faults rose. A write that takes nothing of bytes that are
    /// there is such a fault.
    fn write(&mut self, bytes: &[u8]) -> Result<usize, Failed>
        ensures fits { IfOk result (λ n. n ≤ length bytes.now) }
        ensures some { IfOk result (λ n. 0 < length bytes.now → 0 < n) }
        ensures appends { IfOk result (λ n. written self.new ≡ more (written self.old) (take n bytes.now)) }
        ensures none { OnErr result (written self.new ≡ written self.old) }
        ensures cause { HasCause (faults self.old) (faults self.new) result };
}
