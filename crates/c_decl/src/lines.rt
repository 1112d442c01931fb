//! The line on which the next word stands.
ghost use Rattle.std.specs.Prelude.{◌≡◌};
ghost use Rattle.c_tree.specs.Reading.{line_at};

use c_tree::Token;

/// The line of the first word, or 0 where there is none.
pub fn line_of(words: &[Token]) -> u32
    ensures { result ≡ line_at words.now }
{
    match words.first() {
        Some(first) => first.line,
        None => 0,
    }
}
