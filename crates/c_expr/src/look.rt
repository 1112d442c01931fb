//! What the next words are. These readers of one or two words take nothing from the heap.
ghost use Rattle.std.specs.Prelude.{◌≡◌, ◌<◌, length, MatchOption, IfSome, IsTrue, ◌↔◌};
ghost use Rattle.c_tree.specs.Reading.{Begins, front_of};
ghost use Rattle.c_tree.specs.Reading.Front.{nothing};
ghost use Rattle.c_tree.specs.declared.words.Word.TheVariants as word;
ghost use Rattle.c_expr.specs.Looking.{Lacks};

use c_tree::{Keyword, Number, Sign, Token, Word};
use sd_base::Name;

/// The first word, and the words after it.
pub fn first_word(words: &[Token]) -> Option<(&Word, &[Token])>
    ensures word { MatchOption result (front_of words.now ≡ nothing) (λ a. Begins words.now a.0.now a.1.now) }
    ensures shorter { IfSome result (λ a. length a.1.now < length words.now) }
{
    let (first, rest) = words.split_first()?;
    Some((&first.word, rest))
}

/// The words after the sign `sign`, where it stands first.
pub fn after_sign(words: &[Token], sign: Sign) -> Option<&[Token]>
    ensures word { MatchOption result (Lacks words.now (word.Sign sign)) (λ rest. Begins words.now (word.Sign sign) rest.now) }
    ensures shorter { IfSome result (λ rest. length rest.now < length words.now) }
{
    match first_word(words)? {
        (Word::Sign(found), rest) if *found == sign => Some(rest),
        _ => None,
    }
}

/// The words after the reserved word `keyword`, where it stands first.
pub fn after_keyword(words: &[Token], keyword: Keyword) -> Option<&[Token]>
    ensures word { MatchOption result (Lacks words.now (word.Keyword keyword)) (λ rest. Begins words.now (word.Keyword keyword) rest.now) }
    ensures shorter { IfSome result (λ rest. length rest.now < length words.now) }
{
    match first_word(words)? {
        (Word::Keyword(found), rest) if *found == keyword => Some(rest),
        _ => None,
    }
}

/// A name that stands first, and the words after it.
pub fn name_at(words: &[Token]) -> Option<(Name, &[Token])>
    ensures word { MatchOption result ((n : _) → Lacks words.now (word.Name n)) (λ a. Begins words.now (word.Name a.0) a.1.now) }
    ensures shorter { IfSome result (λ a. length a.1.now < length words.now) }
{
    match first_word(words)? {
        (Word::Name(name), rest) => Some((*name, rest)),
        _ => None,
    }
}

/// A reserved word that stands first, and the words after it.
pub fn keyword_at(words: &[Token]) -> Option<(Keyword, &[Token])>
    ensures word { MatchOption result ((k : _) → Lacks words.now (word.Keyword k)) (λ a. Begins words.now (word.Keyword a.0) a.1.now) }
    ensures shorter { IfSome result (λ a. length a.1.now < length words.now) }
{
    match first_word(words)? {
        (Word::Keyword(keyword), rest) => Some((*keyword, rest)),
        _ => None,
    }
}

/// A number that stands first, and the words after it.
pub fn number_at(words: &[Token]) -> Option<(Number, &[Token])>
    ensures word { MatchOption result ((n : _) → (s : _) → Lacks words.now (word.Number n s)) (λ a. Begins words.now (word.Number a.0.value a.0.suffix) a.1.now) }
    ensures shorter { IfSome result (λ a. length a.1.now < length words.now) }
{
    match first_word(words)? {
        (Word::Number(value, suffix), rest) => {
            let number = Number {
                value: *value,
                suffix: *suffix,
            };
            Some((number, rest))
        }
        _ => None,
    }
}
