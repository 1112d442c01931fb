//! The tests on words that come before `clap`, and the words that it is handed.
ghost use Rattle.std.specs.Prelude.{◌≡◌, ◌++◌, IfOk, OnOk, false, map};
ghost use Rattle.std.specs.String.{string_bytes};
ghost use Rattle.command_words.specs.Line.{handed as words_handed, options_in};
ghost use Rattle.command_words.specs.Words.{are_known as all_known, is_count as is_count_word, is_joined as is_joined_word, is_known as is_known_word, is_option as is_option_word, is_plain as is_plain_word, is_steps as is_steps_word, others_in};

use std::alloc::{AllocError, Global};

/// Whether no word is empty, each that begins with `-` is known, and behind each `--steps` stands a word that does not begin with `-`.
pub fn are_known(words: &[String]) -> bool
    ensures { result ≡ all_known false (map string_bytes words.now) }
{
    let mut waits = false;
    let mut rest = words;
    while let [word, after @ ..] = rest {
        if waits {
            if !is_plain(word.as_bytes()) {
                return false;
            }
            waits = false;
        } else {
            if !is_known(word.as_bytes()) {
                return false;
            }
            waits = is_steps(word.as_bytes());
        }
        rest = after;
    }
    !waits
}

/// The words as `clap` is handed them: the options first, each `--steps` with the word after it, and then all others.
pub fn hand_words(alloc: Global, words: &[String]) -> Result<Vec<&str>, AllocError>
    ensures { IfOk result (λ r. map (λ s. s.now) r.items ≡ words_handed (map string_bytes words.now)) }
{
    let mut handed = Vec::new(alloc);
    hand_options(words, &mut handed)?;
    hand_others(words, &mut handed)?;
    Ok(handed)
}

fn hand_options<'a>(words: &'a [String], handed: &mut Vec<&'a str>) -> Result<(), AllocError>
    ensures { OnOk result (map (λ s. s.now) handed.new.items ≡ map (λ s. s.now) handed.old.items ++ options_in false (map string_bytes words.now)) }
{
    let mut waits = false;
    let mut rest = words;
    while let [word, after @ ..] = rest {
        if waits {
            handed.push(word.as_str())?;
            waits = false;
        } else if is_option(word.as_bytes()) {
            handed.push(word.as_str())?;
            waits = is_steps(word.as_bytes());
        }
        rest = after;
    }
    Ok(())
}

fn hand_others<'a>(words: &'a [String], handed: &mut Vec<&'a str>) -> Result<(), AllocError>
    ensures { OnOk result (map (λ s. s.now) handed.new.items ≡ map (λ s. s.now) handed.old.items ++ others_in false (map string_bytes words.now)) }
{
    let mut waits = false;
    let mut rest = words;
    while let [word, after @ ..] = rest {
        if waits {
            waits = false;
        } else if is_option(word.as_bytes()) {
            waits = is_steps(word.as_bytes());
        } else {
            handed.push(word.as_str())?;
        }
        rest = after;
    }
    Ok(())
}

fn is_option(word: &[u8]) -> bool
    ensures { result ≡ is_option_word word.now }
{
    match word {
        [] => false,
        [first, ..] => *first == b'-',
    }
}

fn is_plain(word: &[u8]) -> bool
    ensures { result ≡ is_plain_word word.now }
{
    match word {
        [] => false,
        [first, ..] => *first != b'-',
    }
}

fn is_known(word: &[u8]) -> bool
    ensures { result ≡ is_known_word word.now }
{
    is_plain(word) || is_count(word) || is_steps(word) || is_joined(word)
}

fn is_count(word: &[u8]) -> bool
    ensures { result ≡ is_count_word word.now }
{
    word == b"--count".as_slice()
}

fn is_steps(word: &[u8]) -> bool
    ensures { result ≡ is_steps_word word.now }
{
    word == b"--steps".as_slice()
}

fn is_joined(word: &[u8]) -> bool
    ensures { result ≡ is_joined_word word.now }
{
    if !word.starts_with(b"--steps=".as_slice()) {
        return false;
    }
    match &word[8..] {
        [] => false,
        [_, ..] => true,
    }
}
