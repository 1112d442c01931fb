//! Where texts are read from.
ghost use Rattle.std.specs.Prelude.{◌≡◌, ◌≤◌, ℕ, List, Option, IfOk, OnErr, IfSome, option_map, length, drop};
ghost use Rattle.sd_outside.specs.Counts.{counted, HasCause};
ghost use Rattle.sd_outside.specs.Shelf.{Gives, LeavesOthers};

use crate::Failed;

/// A shelf of texts, each read from its front by its name.
///
/// A shelf may tell what is left of a name, or tell nothing, as one over files does. It counts the bytes that it gave
/// and its faults; a count that has reached the greatest `u64` stays there.
pub trait Shelf {
    /// The bytes of a name that are not read yet, where the shelf tells them.
    ghost left: { Self → List ℕ → Option (List ℕ) };

    /// How many bytes were given.
    ghost given: { Self → ℕ };

    /// How many reads failed.
    ghost faults: { Self → ℕ };

    /// Moves out a front part of what is left of `name` into the front of `buf`, and answers its length. The answer 0
    /// for a buffer with room means the end. What is left of other names stays.
    ///
    /// `Failed`: the read did not happen, and the count of faults rose. A name that is not there is one such fault.
    fn read(&mut self, name: &str, buf: &mut [u8]) -> Result<usize, Failed>
        ensures room { IfOk result (λ n. n ≤ length buf.new) }
        ensures moves { IfOk result (λ n. left self.new name.now ≡ option_map (drop n) (left self.old name.now)) }
        ensures gives { IfOk result (λ n. IfSome (left self.old name.now) (λ bytes. Gives bytes buf.new n)) }
        ensures counts { IfOk result (λ n. given self.new ≡ counted (given self.old) n) }
        ensures no_count { OnErr result (given self.new ≡ given self.old) }
        ensures others { LeavesOthers name.now (left self.old) (left self.new) }
        ensures cause { HasCause (faults self.old) (faults self.new) result };
}
