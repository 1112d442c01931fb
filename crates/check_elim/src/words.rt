//! Sets of numbers as bits of words.

ghost use Rattle.std.specs.Prelude.{◌≡◌, ℕ, ◌+◌, ◌*◌, ◌/◌, ◌%◌, ◌<◌, ◌≤◌, ◌==◌, false, true, not, ◌&&◌, ◌||◌, if◌then◌else◌, length};
ghost use Rattle.std.specs.Int.{bit_at};
ghost use Rattle.check_elim.specs.Bits.{has, bit_is};

/// Whether a word has this bit.
fn bit(word: u64, at: u32) -> bool
    requires { at < 64 }
    ensures { result ≡ bit_is word at }
{
    (word >> at) & 1 == 1
}

/// A word with this bit.
fn with_bit(word: u64, at: u32) -> u64
    requires { at < 64 }
    ensures { (i : ℕ) → bit_is result i ≡ (if i == at then true else bit_is word i) }
{
    word | (1 << at)
}

/// A word without this bit.
fn without_bit(word: u64, at: u32) -> u64
    requires { at < 64 }
    ensures { (i : ℕ) → i < 64 → bit_is result i ≡ (if i == at then false else bit_is word i) }
{
    word & !(1 << at)
}

/// Whether the set has the number.
#[tactic(auto, unfolding(crate::specs::Bits::has))]
pub(crate) fn is_in(words: &[u64], number: usize) -> bool
    requires { number < 64 * length words.now }
    ensures { result ≡ has words.now number }
{
    bit(words[number / 64], (number % 64) as u32)
}

/// Adds a number, where there is room for it.
pub(crate) fn insert(words: &mut [u64], number: usize)
    requires { number < 64 * length words.old }
    ensures length { length words.new ≡ length words.old }
    ensures members { (i : ℕ) → has words.new i ≡ (if i == number then true else has words.old i) }
{
    let at = number / 64;
    words[at] = with_bit(words[at], (number % 64) as u32);
}

/// Takes a number out.
pub(crate) fn remove(words: &mut [u64], number: usize)
    requires { number < 64 * length words.old }
    ensures length { length words.new ≡ length words.old }
    ensures members { (i : ℕ) → has words.new i ≡ (if i == number then false else has words.old i) }
{
    let at = number / 64;
    words[at] = without_bit(words[at], (number % 64) as u32);
}

/// Adds each number of another set.
pub(crate) fn join(words: &mut [u64], other: &[u64])
    requires { length words.old ≡ length other.now }
    ensures length { length words.new ≡ length words.old }
    ensures members { (i : ℕ) → has words.new i ≡ (has words.old i || has other.now i) }
{
    for at in 0..words.len() {
        words[at] |= other[at];
    }
}
