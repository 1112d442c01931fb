//! The sums and addresses of annotations.
ghost use Rattle.std.specs.Prelude.{◌≡◌, ◌<◌, ◌≤◌, length, IfOk, IfSome};
ghost use Rattle.std.specs.Option.{option_map};
ghost use Rattle.c_tree.specs.Reading.{front_of, Best};
ghost use Rattle.c_tree.specs.TypeGrammar.{SumAt};
ghost use Rattle.c_expr.specs.Classes.{At, is_in_sums};
ghost use Rattle.c_expr.specs.TypeReading.{term_of, number_after, signed_of, first_of, addr_of};

use crate::look::{after_sign, name_at, number_at};
use c_tree::{Addr, Number, Sign, SignedTerm, Sum, Term, Token};
use sqlite_items::Items;
use std::alloc::{AllocError, Global};

/// The term that the words begin with: a number, a name or a number times a name.
pub fn term_at(words: &[Token]) -> Option<(Term, &[Token])>
    ensures exact { option_map (λ a. (a.0, a.1.now)) result ≡ term_of words.now }
    ensures shorter { IfSome result (λ a. length a.1.now < length words.now) }
{
    if let Some((number, rest)) = number_at(words) {
        let (term, rest) = number_term(number, rest);
        return Some((term, rest));
    }
    let Some((name, rest)) = name_at(words) else {
        return None;
    };
    Some((Term::Name(name), rest))
}

/// The term that begins with this number.
fn number_term(number: Number, words: &[Token]) -> (Term, &[Token])
    ensures exact { (result.0, result.1.now) ≡ number_after number words.now (front_of words.now) }
    ensures shorter { length result.1.now ≤ length words.now }
{
    let Some(after) = after_sign(words, Sign::Star) else {
        return (Term::Number(number), words);
    };
    match name_at(after) {
        Some((name, rest)) => (Term::Product(number, name), rest),
        None => (Term::Number(number), words),
    }
}

/// The sign and the term after it that the words begin with.
pub fn signed_at(words: &[Token]) -> Option<(SignedTerm, &[Token])>
    ensures exact { option_map (λ a. (a.0, a.1.now)) result ≡ signed_of words.now }
    ensures shorter { IfSome result (λ a. length a.1.now < length words.now) }
{
    if let Some(rest) = after_sign(words, Sign::Minus) {
        let Some((term, rest)) = term_at(rest) else {
            return None;
        };
        let negative = SignedTerm {
            negative: true,
            term,
        };
        return Some((negative, rest));
    }
    let rest = after_sign(words, Sign::Plus)?;
    let Some((term, rest)) = term_at(rest) else {
        return None;
    };
    let positive = SignedTerm {
        negative: false,
        term,
    };
    Some((positive, rest))
}

/// The first term of a sum, with `-` before it or no sign.
fn first_at(words: &[Token]) -> Option<(SignedTerm, &[Token])>
    ensures exact { option_map (λ a. (a.0, a.1.now)) result ≡ first_of words.now }
    ensures shorter { IfSome result (λ a. length a.1.now < length words.now) }
{
    if let Some(rest) = after_sign(words, Sign::Minus) {
        let Some((term, rest)) = term_at(rest) else {
            return None;
        };
        let negative = SignedTerm {
            negative: true,
            term,
        };
        return Some((negative, rest));
    }
    let Some((term, rest)) = term_at(words) else {
        return None;
    };
    let positive = SignedTerm {
        negative: false,
        term,
    };
    Some((positive, rest))
}

/// The end of a bound that the words begin with: a pointer's name, and what is added or taken away.
pub fn addr_at(words: &[Token]) -> Option<(Addr, &[Token])>
    ensures exact { option_map (λ a. (a.0, a.1.now)) result ≡ addr_of words.now }
    ensures shorter { IfSome result (λ a. length a.1.now < length words.now) }
{
    let Some((pointer, rest)) = name_at(words) else {
        return None;
    };
    match signed_at(rest) {
        Some((term, after)) => {
            let moved = Addr {
                pointer,
                offset: Some(term),
            };
            Some((moved, after))
        }
        None => {
            let plain = Addr {
                pointer,
                offset: None,
            };
            Some((plain, rest))
        }
    }
}

/// The longest sum that the words begin with, and the words after it.
pub fn sum_at(alloc: Global, words: &[Token]) -> Result<Option<(Sum, &[Token])>, AllocError>
    ensures best { IfOk result (λ found. Best (λ v x. SumAt words.now v x) (At is_in_sums) (option_map (λ a. (a.0, a.1.now)) found)) }
    ensures shorter { IfOk result (λ found. IfSome found (λ a. length a.1.now < length words.now)) }
{
    let Some((first, after_first)) = first_at(words) else {
        return Ok(None);
    };
    let mut terms = Items::new(alloc);
    terms.push(first)?;
    let mut rest = after_first;
    while let Some((term, after)) = signed_at(rest) {
        terms.push(term)?;
        rest = after;
    }
    Ok(Some((Sum { terms }, rest)))
}
