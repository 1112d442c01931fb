//! The counts that the limits are stated by, and the first limit that a word passes.
ghost use Rattle.std.specs.Prelude.{◌≡◌, ℕ, ◌+◌, ◌<◌, List};
ghost use Rattle.c_tree.specs.Limits.{ends_run, is_opening, is_closing, is_unary, run_after, nesting_after, unary_after, strings_after, passed_at};
ghost use Rattle.c_token.specs.Lexemes.{word_of};

use crate::lexemes::{Kind, Lexeme};
use c_tree::{LimitKind, Sign};
use sd_base::limits::{NAME_BYTES, NESTING, RUN_WORDS, UNARY_WORDS, WORDS};

/// What the limits are stated by, behind some words.
#[derive(Clone, Copy)]
pub struct Counts {
    /// The words.
    pub words: usize,
    /// The words since the last `;`, `{` or `}`.
    pub run: usize,
    /// The open brackets.
    pub nesting: usize,
    /// The unary signs in a row at the end.
    pub unary: usize,
    /// The strings.
    pub strings: u32,
}

/// `;`, `{` and `}` end a run of words.
fn ends_run(sign: Sign) -> bool
    ensures { result ≡ ends_run sign }
{
    matches!(sign, Sign::Semicolon | Sign::BraceOpen | Sign::BraceClose)
}

/// Whether a sign is an opening bracket.
fn is_opening(sign: Sign) -> bool
    ensures { result ≡ is_opening sign }
{
    matches!(sign, Sign::BraceOpen | Sign::ParenOpen | Sign::BracketOpen)
}

/// Whether a sign is a closing bracket.
fn is_closing(sign: Sign) -> bool
    ensures { result ≡ is_closing sign }
{
    matches!(
        sign,
        Sign::BraceClose | Sign::ParenClose | Sign::BracketClose
    )
}

/// Whether a sign is a unary operator's.
fn is_unary(sign: Sign) -> bool
    ensures { result ≡ is_unary sign }
{
    matches!(
        sign,
        Sign::Minus | Sign::Tilde | Sign::Exclamation | Sign::Plus | Sign::Star | Sign::Ampersand
    )
}

/// The first limit that a word passes behind words with these counts.
pub fn passed(counts: &Counts, lexeme: &Lexeme) -> Option<LimitKind>
    ensures { (i : ℕ) → result ≡ passed_at counts.now.words counts.now.run counts.now.nesting counts.now.unary (word_of i lexeme.now.kind lexeme.now.spelling.now) }
{
    if counts.words >= WORDS {
        return Some(LimitKind::Words);
    }
    if counts.run >= RUN_WORDS {
        return Some(LimitKind::Run);
    }
    match lexeme.kind {
        Kind::Sign(sign) => {
            if is_opening(sign) && counts.nesting >= NESTING {
                return Some(LimitKind::Nesting);
            }
            if is_unary(sign) && counts.unary >= UNARY_WORDS {
                return Some(LimitKind::Unary);
            }
            None
        }
        Kind::Name => {
            if lexeme.spelling.len() > NAME_BYTES {
                Some(LimitKind::Name)
            } else {
                None
            }
        }
        Kind::Keyword(_) => None,
        Kind::Number(_, _) => None,
        Kind::Character(_) => None,
        Kind::String => None,
    }
}

/// The words since the last `;`, `{` or `}` behind one more word.
fn run_after(run: usize, kind: Kind) -> usize
    requires { run < 200000 }
    ensures { (i : ℕ) (b : List ℕ) → result ≡ run_after run (word_of i kind b) }
{
    match kind {
        Kind::Sign(sign) => { if ends_run(sign) { 0 } else { run + 1 } }
        Kind::Name => run + 1,
        Kind::Keyword(_) => run + 1,
        Kind::Number(_, _) => run + 1,
        Kind::Character(_) => run + 1,
        Kind::String => run + 1,
    }
}

/// The open brackets behind one more word.
fn nesting_after(nesting: usize, kind: Kind) -> usize
    requires { nesting < 200000 }
    ensures { (i : ℕ) (b : List ℕ) → result ≡ nesting_after nesting (word_of i kind b) }
{
    match kind {
        Kind::Sign(sign) => {
            if is_opening(sign) {
                nesting + 1
            } else if is_closing(sign) {
                nesting.saturating_sub(1)
            } else {
                nesting
            }
        }
        Kind::Name => nesting,
        Kind::Keyword(_) => nesting,
        Kind::Number(_, _) => nesting,
        Kind::Character(_) => nesting,
        Kind::String => nesting,
    }
}

/// The unary signs in a row behind one more word.
fn unary_after(unary: usize, kind: Kind) -> usize
    requires { unary < 200000 }
    ensures { (i : ℕ) (b : List ℕ) → result ≡ unary_after unary (word_of i kind b) }
{
    match kind {
        Kind::Sign(sign) => { if is_unary(sign) { unary + 1 } else { 0 } }
        Kind::Name => 0,
        Kind::Keyword(_) => 0,
        Kind::Number(_, _) => 0,
        Kind::Character(_) => 0,
        Kind::String => 0,
    }
}

/// The strings behind one more word.
fn strings_after(strings: u32, kind: Kind) -> u32
    requires { strings < 200000 }
    ensures { (i : ℕ) (b : List ℕ) → result ≡ strings_after strings (word_of i kind b) }
{
    match kind {
        Kind::String => strings + 1,
        Kind::Sign(_) => strings,
        Kind::Name => strings,
        Kind::Keyword(_) => strings,
        Kind::Number(_, _) => strings,
        Kind::Character(_) => strings,
    }
}

impl Counts {
    /// The counts behind no word.
    pub fn new() -> Counts
        ensures words { result.words ≡ 0 }
        ensures run { result.run ≡ 0 }
        ensures nesting { result.nesting ≡ 0 }
        ensures unary { result.unary ≡ 0 }
        ensures strings { result.strings ≡ 0 }
    {
        Counts {
            words: 0,
            run: 0,
            nesting: 0,
            unary: 0,
            strings: 0,
        }
    }

    /// The counts behind one more word.
    pub fn after(&self, kind: Kind) -> Counts
        requires words { self.now.words < 200000 }
        requires run { self.now.run < 200000 }
        requires nesting { self.now.nesting < 200000 }
        requires unary { self.now.unary < 200000 }
        requires strings { self.now.strings < 200000 }
        ensures words { result.words ≡ self.now.words + 1 }
        ensures run { (i : ℕ) (b : List ℕ) → result.run ≡ run_after self.now.run (word_of i kind b) }
        ensures nesting { (i : ℕ) (b : List ℕ) → result.nesting ≡ nesting_after self.now.nesting (word_of i kind b) }
        ensures unary { (i : ℕ) (b : List ℕ) → result.unary ≡ unary_after self.now.unary (word_of i kind b) }
        ensures strings { (i : ℕ) (b : List ℕ) → result.strings ≡ strings_after self.now.strings (word_of i kind b) }
    {
        Counts {
            words: self.words + 1,
            run: run_after(self.run, kind),
            nesting: nesting_after(self.nesting, kind),
            unary: unary_after(self.unary, kind),
            strings: strings_after(self.strings, kind),
        }
    }
}
