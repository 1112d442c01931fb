//! How a simple statement begins: the words that decide which of its forms it has.
ghost use Rattle.std.specs.Prelude.{◌≡◌, ◌≤◌, length};
ghost use Rattle.c_tree.specs.Reading.{front_of};
ghost use Rattle.c_decl.specs.Beginnings.{beginning_of, opened, named};

use c_expr::{after_sign, keyword_at, name_at};
use c_tree::{Keyword, Sign, Token};
use sd_base::Name;

/// The words that decide which form a simple statement has.
#[derive(Clone, Copy, PartialEq, Eq, Debug)]
pub enum Beginning {
    /// `;`, which is the whole statement.
    Empty,
    /// `return`.
    Return,
    /// `kfree (`.
    Kfree,
    /// `zero (`.
    Zero,
    /// A function's name and `(`.
    Call(Name),
    /// A name, `=`, a function's name and `(`.
    CallTo(Name, Name),
    /// A name, `=`, and `kalloc (`.
    Kalloc(Name),
    /// Anything else: if these words are a simple statement, it begins with the place that it assigns to.
    Place,
}

/// How the words begin as a simple statement, and the words after that. `;` and a place are not taken away.
pub fn beginning_at(words: &[Token]) -> (Beginning, &[Token])
    ensures exact { (result.0, result.1.now) ≡ beginning_of words.now }
    ensures shorter { length result.1.now ≤ length words.now }
{
    if after_sign(words, Sign::Semicolon).is_some() {
        return (Beginning::Empty, words);
    }
    if let Some((name, rest)) = name_at(words) {
        return named_beginning(name, rest, words);
    }
    match keyword_at(words) {
        Some((Keyword::Return, rest)) => (Beginning::Return, rest),
        Some((Keyword::Kfree, rest)) => opened_beginning(Beginning::Kfree, rest, words),
        Some((Keyword::Zero, rest)) => opened_beginning(Beginning::Zero, rest, words),
        _ => (Beginning::Place, words),
    }
}

/// The beginning `beginning` where `(` stands before `rest`; else all the words `words`, as a place.
fn opened_beginning<'a>(
    beginning: Beginning,
    rest: &'a [Token],
    words: &'a [Token],
) -> (Beginning, &'a [Token])
    requires { length rest.now ≤ length words.now }
    ensures exact { (result.0, result.1.now) ≡ opened beginning words.now (front_of rest.now) }
    ensures shorter { length result.1.now ≤ length words.now }
{
    match after_sign(rest, Sign::ParenOpen) {
        Some(inside) => (beginning, inside),
        None => (Beginning::Place, words),
    }
}

/// The beginning of the words `words`, which are a name and then `rest`.
fn named_beginning<'a>(
    name: Name,
    rest: &'a [Token],
    words: &'a [Token],
) -> (Beginning, &'a [Token])
    requires { length rest.now ≤ length words.now }
    ensures exact { (result.0, result.1.now) ≡ named name words.now (front_of rest.now) }
    ensures shorter { length result.1.now ≤ length words.now }
{
    if let Some(inside) = after_sign(rest, Sign::ParenOpen) {
        return (Beginning::Call(name), inside);
    }
    let Some(value) = after_sign(rest, Sign::Assign) else {
        return (Beginning::Place, words);
    };
    if let Some((function, after_function)) = name_at(value) {
        return opened_beginning(Beginning::CallTo(name, function), after_function, words);
    }
    match keyword_at(value) {
        Some((Keyword::Kalloc, after_kalloc)) => {
            opened_beginning(Beginning::Kalloc(name), after_kalloc, words)
        }
        _ => (Beginning::Place, words),
    }
}
