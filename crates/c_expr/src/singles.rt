//! The expressions of one word, the null constant, and what opens a cast.
ghost use Rattle.std.specs.Prelude.{◌≡◌, ◌<◌, length, MatchOption, IfOk, IfSome};
ghost use Rattle.std.specs.Option.{option_map};
ghost use Rattle.c_tree.specs.ExpressionGrammar.{single_of, SingleAt};
ghost use Rattle.c_expr.specs.ExpressionReading.{null_of, opens_type};

use crate::look::{after_keyword, after_sign, first_word, keyword_at, number_at};
use c_tree::{Expr, Keyword, Number, Sign, Suffix, Token, Word};
use sqlite_items::{Boxed, Items};
use std::alloc::{AllocError, Global};

/// The expression of one word that the words begin with, and the words after it.
pub fn single_at(
    alloc: Global,
    words: &[Token],
) -> Result<Option<(Boxed<Expr>, &[Token])>, AllocError>
    ensures word { IfOk result (λ found. MatchOption found ((v : _) → (x : _) → SingleAt words.now v x → ⊥) (λ a. SingleAt words.now a.1.now a.0)) }
    ensures shorter { IfOk result (λ found. IfSome found (λ a. length a.1.now < length words.now)) }
{
    let Some((first, rest)) = first_word(words) else {
        return Ok(None);
    };
    let Some(single) = single(alloc, first)? else {
        return Ok(None);
    };
    let boxed = Boxed::new(alloc, single)?;
    Ok(Some((boxed, rest)))
}

/// The expression that the word is by itself.
fn single(alloc: Global, word: &Word) -> Result<Option<Expr>, AllocError>
    ensures { IfOk result (λ found. found ≡ single_of word.now) }
{
    match word {
        Word::Number(value, suffix) => {
            let number = Number {
                value: *value,
                suffix: *suffix,
            };
            Ok(Some(Expr::Number(number)))
        }
        Word::Character(byte) => Ok(Some(Expr::Character(*byte))),
        Word::String(bytes, number) => {
            let copied = Items::from_slice(alloc, bytes.as_slice())?;
            Ok(Some(Expr::String(copied, *number)))
        }
        Word::Name(name) => Ok(Some(Expr::Name(*name))),
        Word::Keyword(_) | Word::Sign(_) => Ok(None),
    }
}

/// The words after the null constant that the words begin with.
pub fn after_null(words: &[Token]) -> Option<&[Token]>
    ensures exact { option_map (λ a. a.now) result ≡ null_of words.now }
    ensures shorter { IfSome result (λ rest. length rest.now < length words.now) }
{
    let opened = after_sign(words, Sign::ParenOpen)?;
    let void = after_keyword(opened, Keyword::Void)?;
    let pointer = after_sign(void, Sign::Star)?;
    let closed = after_sign(pointer, Sign::ParenClose)?;
    match number_at(closed)? {
        (
            Number {
                value: 0,
                suffix: Suffix::Plain,
            },
            rest,
        ) => Some(rest),
        _ => None,
    }
}

/// Whether the words begin with `(` and a base after it.
pub fn opens_cast(words: &[Token]) -> bool
    ensures { result ≡ opens_type words.now }
{
    let Some(inside) = after_sign(words, Sign::ParenOpen) else {
        return false;
    };
    let Some((first, _)) = keyword_at(inside) else {
        return false;
    };
    match first {
        Keyword::Char
        | Keyword::Signed
        | Keyword::Unsigned
        | Keyword::Short
        | Keyword::Int
        | Keyword::Long
        | Keyword::Struct => true,
        _ => false,
    }
}
