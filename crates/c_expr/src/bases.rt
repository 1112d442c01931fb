//! The base that a type name begins with.
ghost use Rattle.std.specs.Prelude.{◌≡◌, ◌<◌, ◌≤◌, length, IfSome};
ghost use Rattle.std.specs.Option.{option_map};
ghost use Rattle.c_tree.specs.Reading.{front_of};
ghost use Rattle.c_expr.specs.TypeReading.{base_of, unsigned_after};

use crate::look::{after_keyword, keyword_at, name_at};
use c_tree::{Base, Keyword, Token};

/// The base that the words begin with, of as many words as it can have, and the words after it.
pub fn base_at(words: &[Token]) -> Option<(Base, &[Token])>
    ensures exact { option_map (λ a. (a.0, a.1.now)) result ≡ base_of words.now }
    ensures shorter { IfSome result (λ a. length a.1.now < length words.now) }
{
    let (first, rest) = keyword_at(words)?;
    match first {
        Keyword::Char => Some((Base::Char, rest)),
        Keyword::Signed => {
            let rest = after_keyword(rest, Keyword::Char)?;
            Some((Base::SignedChar, rest))
        }
        Keyword::Unsigned => {
            let (base, rest) = unsigned(rest);
            Some((base, rest))
        }
        Keyword::Short => Some((Base::Short, rest)),
        Keyword::Int => Some((Base::Int, rest)),
        Keyword::Long => Some((Base::Long, rest)),
        Keyword::Struct => {
            let Some((name, rest)) = name_at(rest) else {
                return None;
            };
            Some((Base::Struct(name), rest))
        }
        _ => None,
    }
}

/// The base after `unsigned`.
fn unsigned(words: &[Token]) -> (Base, &[Token])
    ensures exact { (result.0, result.1.now) ≡ unsigned_after words.now (front_of words.now) }
    ensures shorter { length result.1.now ≤ length words.now }
{
    match keyword_at(words) {
        Some((Keyword::Char, rest)) => (Base::UnsignedChar, rest),
        Some((Keyword::Short, rest)) => (Base::UnsignedShort, rest),
        Some((Keyword::Int, rest)) => (Base::UnsignedInt, rest),
        Some((Keyword::Long, rest)) => (Base::UnsignedLong, rest),
        _ => (Base::Unsigned, words),
    }
}
