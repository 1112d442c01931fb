//! What a few words of lookahead decide in declarations: sizes, constants, values, and what stands behind an arm's name.
ghost use Rattle.std.specs.Prelude.{◌≡◌, ◌<◌, ◌≤◌, length, IfSome};
ghost use Rattle.std.specs.Option.{option_map};
ghost use Rattle.c_decl.specs.Constants.{size_of, const_of, value_of, case_of};

use c_expr::{after_keyword, after_sign, first_word, name_at, number_at};
use c_tree::{Const, Keyword, Number, Sign, Token, Word};
use sd_base::Name;

/// The number of an array's elements in brackets, where it stands there, and the words after it.
pub fn size_at(words: &[Token]) -> (Option<Number>, &[Token])
    ensures exact { (result.0, result.1.now) ≡ size_of words.now }
    ensures shorter { length result.1.now ≤ length words.now }
{
    let Some(inside) = after_sign(words, Sign::BracketOpen) else {
        return (None, words);
    };
    let Some((number, after)) = number_at(inside) else {
        return (None, words);
    };
    match after_sign(after, Sign::BracketClose) {
        Some(rest) => (Some(number), rest),
        None => (None, words),
    }
}

/// The constant that the words begin with: a number, `-` and a number, or a character.
pub fn const_at(words: &[Token]) -> Option<(Const, &[Token])>
    ensures exact { option_map (λ a. (a.0, a.1.now)) result ≡ const_of words.now }
    ensures shorter { IfSome result (λ a. length a.1.now < length words.now) }
{
    if let Some((number, rest)) = number_at(words) {
        return Some((Const::Number(number), rest));
    }
    if let Some(after_minus) = after_sign(words, Sign::Minus) {
        let (number, rest) = number_at(after_minus)?;
        return Some((Const::Negative(number), rest));
    }
    match first_word(words)? {
        (Word::Character(byte), rest) => Some((Const::Character(*byte), rest)),
        _ => None,
    }
}

/// The constant after `=`, where it stands there, and the words after it.
pub fn value_at(words: &[Token]) -> (Option<Const>, &[Token])
    ensures exact { (result.0, result.1.now) ≡ value_of words.now }
    ensures shorter { length result.1.now ≤ length words.now }
{
    let Some(after_sign) = after_sign(words, Sign::Assign) else {
        return (None, words);
    };
    match const_at(after_sign) {
        Some((value, rest)) => (Some(value), rest),
        None => (None, words),
    }
}

/// The field whose value says whether an arm is there, and the value that it has then.
#[derive(Clone, Copy, PartialEq, Eq, Debug)]
pub struct Case {
    pub tag: Name,
    pub value: Const,
}

/// The case of an arm that the words begin with, `when (t == c);`, and the words after it.
pub fn case_at(words: &[Token]) -> Option<(Case, &[Token])>
    ensures exact { option_map (λ a. (a.0, a.1.now)) result ≡ case_of words.now }
    ensures shorter { IfSome result (λ a. length a.1.now < length words.now) }
{
    let after_when = after_keyword(words, Keyword::When)?;
    let inside = after_sign(after_when, Sign::ParenOpen)?;
    let Some((tag, after_tag)) = name_at(inside) else {
        return None;
    };
    let after_equal = after_sign(after_tag, Sign::Equal)?;
    let Some((value, after_value)) = const_at(after_equal) else {
        return None;
    };
    let after_parenthesis = after_sign(after_value, Sign::ParenClose)?;
    let rest = after_sign(after_parenthesis, Sign::Semicolon)?;
    Some((Case { tag, value }, rest))
}
