//! `tokens`: the words of a text, or the first byte where it has none or passes a limit.
ghost use Rattle.std.specs.Prelude.{◌≡◌, ℕ, ◌≤◌, ◌==◌, ◌⊎◌, List, count_by, IfOk, IfErr};
ghost use Rattle.c_tree.specs.declared.limits.LimitKind.{LimitKind};
ghost use Rattle.c_tree.specs.declared.words.Token.{Token};
ghost use Rattle.c_tree.specs.Bytes.{Text};
ghost use Rattle.c_tree.specs.Division.{IsDivision, HasNoWord, PassesLimit};
ghost use Rattle.c_token.specs.Answers.{IsRefusal, IsUnlessMemory};
ghost use Rattle.c_token.specs.Feeds.{line_feeds};

use crate::WordRefusal;
use crate::counts::{Counts, passed};
use crate::gaps::after_gap;
use crate::lexemes::lexeme_at;
use crate::words::word;
use c_tree::Token;
use std::alloc::Global;

/// The division of a text, one gap or word after another.
fn divide(alloc: Global, text: &[u8]) -> Result<Vec<Token>, WordRefusal>
    requires { line_feeds text.now ≤ 4294967294 }
    ensures division { IfOk result (λ words. IsDivision text.now words.items) }
    ensures refusal { IfErr result (λ refusal. IsRefusal text.now refusal) }
{
    let mut words = Vec::new(alloc);
    let mut counts = Counts::new();
    let mut line = 1;
    let mut fresh = true;
    let mut rest = text;
    while !rest.is_empty() {
        if let Some(gap) = after_gap(line, fresh, rest) {
            line = gap.line;
            fresh = gap.fresh;
            rest = gap.rest;
            continue;
        }
        let Some(lexeme) = lexeme_at(rest) else {
            return Err(WordRefusal::NotAWord(line));
        };
        if let Some(kind) = passed(&counts, &lexeme) {
            return Err(WordRefusal::Limit(line, kind));
        }
        let word = word(alloc, &lexeme, counts.strings)?;
        words.push(Token { word, line })?;
        counts = counts.after(lexeme.kind);
        fresh = false;
        rest = lexeme.rest;
    }
    Ok(words)
}

/// The words of a driver text, each with the line that it begins on.
///
/// The text divides into blanks, comments, marker lines and words, each word the longest that begins at its place.
///
/// # Errors
///
/// - `NotAWord`, with the line of the first byte at which none of these begins: a byte that no word begins with, an
///   unfinished comment, character or string, an escape that is none, a number that is malformed or too great.
/// - `Limit`, with the line of the first word that passes a limit and the first limit that it passes.
/// - `Memory`, where memory is wanting.
///
/// Of the first two the one at the earlier byte is given.
pub fn tokens(alloc: Global, text: &[u8]) -> Result<Vec<Token>, WordRefusal>
    requires { count_by (λ byte. byte == 10) text.now ≤ 4294967294 }

    // What is answered is so.
    ensures division { IfOk result (λ words. IsDivision text.now words.items) }
    ensures refusal { IfErr result (λ refusal. IsRefusal text.now refusal) }

    // What is so is answered, unless memory is wanting.
    ensures divides { (words : List Token) → IsDivision text.now words → IfOk result (λ answer. answer.items ≡ words) }
    ensures divides_or_memory { (words : List Token) → IsDivision text.now words → IfErr result (λ refusal. refusal ≡ WordRefusal.Memory) }
    ensures has_no_word { (line : ℕ) → HasNoWord text.now line → IsUnlessMemory result (WordRefusal.NotAWord line) }
    ensures passes_limit { (line : ℕ) (kind : LimitKind) → PassesLimit text.now line kind → IsUnlessMemory result (WordRefusal.Limit line kind) }
{
    let answer = divide(alloc, text);
    answer
}

/// A text has a division, or a byte at which nothing begins, or a word that passes a limit.
pub fn some_end()
    ensures { (text : Text) → ((words : List Token) × IsDivision text words) ⊎ (((line : ℕ) × HasNoWord text line) ⊎ ((line : ℕ) × (kind : LimitKind) × PassesLimit text line kind)) }
{}

/// A text has one division at most, one byte at most at which nothing begins and one word at most that passes a limit, and no two of the three.
pub fn one_division()
    ensures words { (text : Text) (words others : List Token) → IsDivision text words → IsDivision text others → words ≡ others }
    ensures lines { (text : Text) (line other : ℕ) → HasNoWord text line → HasNoWord text other → line ≡ other }
    ensures limits { (text : Text) (line other : ℕ) (kind another : LimitKind) → PassesLimit text line kind → PassesLimit text other another → (line ≡ other) × (kind ≡ another) }
    ensures no_stop { (text : Text) (words : List Token) (line : ℕ) → IsDivision text words → HasNoWord text line → ⊥ }
    ensures no_limit { (text : Text) (words : List Token) (line : ℕ) (kind : LimitKind) → IsDivision text words → PassesLimit text line kind → ⊥ }
    ensures no_both { (text : Text) (line other : ℕ) (kind : LimitKind) → HasNoWord text line → PassesLimit text other kind → ⊥ }
{}
