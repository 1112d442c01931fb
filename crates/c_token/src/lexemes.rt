//! The longest word that begins at a place, as its kind and its spelling.
ghost use Rattle.std.specs.Prelude.{◌≡◌, ◌∷◌, List, [], IfSome, None};
ghost use Rattle.c_tree.specs.Words.{WordAt, Longest};
ghost use Rattle.c_token.specs.Leads.{first_lead, of_name, of_number, of_character, of_string, of_other};
ghost use Rattle.c_token.specs.Lexemes.{word_of, IsLongest, BeginsNoWord};

use crate::bytes::{is_digit, is_letter};
use crate::gaps::{opens_block, opens_line};
use crate::names::{name_length, reserved};
use crate::numbers::number;
use crate::quotes::{one_meant, quoted_length};
use crate::signs::longest_sign;
use c_tree::{Keyword, Sign, Suffix};

/// The kind of a word, with what its spelling alone does not tell.
#[derive(Clone, Copy)]
pub enum Kind {
    Name,
    Keyword(Keyword),
    Number(u32, Suffix),
    Character(u8),
    String,
    Sign(Sign),
}

/// A word of a text.
#[derive(Clone, Copy)]
pub struct Lexeme<'a> {
    pub kind: Kind,
    /// Its bytes, or what stands between its quotes.
    pub spelling: &'a [u8],
    /// What stands behind it.
    pub rest: &'a [u8],
}

/// The first byte of a text and what stands behind it.
fn split(text: &[u8]) -> Option<(u8, &[u8])>
    ensures some { IfSome result (λ a. text.now ≡ a.0 ∷ a.1.now) }
    ensures none { result ≡ None → text.now ≡ [] }
{
    match text {
        [first, rest @ ..] => Some((*first, rest)),
        [] => None,
    }
}

/// The name or the reserved word that a letter begins.
fn name_at(text: &[u8]) -> Lexeme
    requires { first_lead text.now ≡ of_name }
    ensures { IsLongest text.now result.kind result.spelling.now result.rest.now }
{
    let length = name_length(text);
    let spelling = &text[..length];
    let rest = &text[length..];
    match reserved(spelling) {
        Some(keyword) => Lexeme {
            kind: Kind::Keyword(keyword),
            spelling,
            rest,
        },
        None => Lexeme {
            kind: Kind::Name,
            spelling,
            rest,
        },
    }
}

/// The number that a digit begins, if it is one.
fn number_at(text: &[u8]) -> Option<Lexeme>
    requires { first_lead text.now ≡ of_number }
    ensures found { IfSome result (λ a. IsLongest text.now a.kind a.spelling.now a.rest.now) }
    ensures none { result ≡ None → BeginsNoWord text.now }
{
    let length = name_length(text);
    let spelling = &text[..length];
    let rest = &text[length..];
    let Some((value, suffix)) = number(spelling) else {
        return None;
    };
    Some(Lexeme {
        kind: Kind::Number(value, suffix),
        spelling,
        rest,
    })
}

/// The character that `'` begins, with this text behind the quote, if it is one.
fn character_at(text: &[u8]) -> Option<Lexeme>
    ensures found { IfSome result (λ a. IsLongest (39 ∷ text.now) a.kind a.spelling.now a.rest.now) }
    ensures none { result ≡ None → BeginsNoWord (39 ∷ text.now) }
{
    let Some(length) = quoted_length(b'\'', text) else {
        return None;
    };
    let spelling = &text[..length];
    let rest = &text[length + 1..];
    let Some(byte) = one_meant(spelling) else {
        return None;
    };
    Some(Lexeme {
        kind: Kind::Character(byte),
        spelling,
        rest,
    })
}

/// The string that `"` begins, with this text behind the quote, if it is one.
fn string_at(text: &[u8]) -> Option<Lexeme>
    ensures found { IfSome result (λ a. IsLongest (34 ∷ text.now) a.kind a.spelling.now a.rest.now) }
    ensures none { result ≡ None → BeginsNoWord (34 ∷ text.now) }
{
    let Some(length) = quoted_length(b'"', text) else {
        return None;
    };
    Some(Lexeme {
        kind: Kind::String,
        spelling: &text[..length],
        rest: &text[length + 1..],
    })
}

/// The longest sign that begins here, if one does.
fn sign_at(text: &[u8]) -> Option<Lexeme>
    requires { first_lead text.now ≡ of_other }
    ensures found { IfSome result (λ a. IsLongest text.now a.kind a.spelling.now a.rest.now) }
    ensures none { result ≡ None → BeginsNoWord text.now }
{
    if opens_block(text) {
        return None;
    }
    if opens_line(text) {
        return None;
    }
    let Some((sign, rest)) = longest_sign(text) else {
        return None;
    };
    Some(Lexeme {
        kind: Kind::Sign(sign),
        spelling: &[],
        rest,
    })
}

/// The longest word that begins here, if one does.
pub fn lexeme_at(text: &[u8]) -> Option<Lexeme>
    ensures found { IfSome result (λ a. IsLongest text.now a.kind a.spelling.now a.rest.now) }
    ensures none { result ≡ None → BeginsNoWord text.now }
{
    let Some((first, inner)) = split(text) else {
        return None;
    };
    if is_letter(first) {
        let name = name_at(text);
        return Some(name);
    }
    if is_digit(first) {
        let number = number_at(text);
        return number;
    }
    if first == b'\'' {
        let character = character_at(inner);
        return character;
    }
    if first == b'"' {
        let string = string_at(inner);
        return string;
    }
    let sign = sign_at(text);
    sign
}
