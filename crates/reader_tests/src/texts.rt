//! What becomes of a text, tables of texts, and texts made of repeated pieces.
ghost use Rattle.std.specs.Prelude.{IfOk};
ghost use Rattle.c_tree.specs.Bytes.{Text};
ghost use Rattle.c_tree.specs.Division.{IsDivision};

use crate::expressions::read_expression;
use crate::items::read_items;
use crate::words::{count_words, read_words};
use c_token::{WordRefusal, tokens};
use c_tree::Token;
use std::alloc::{AllocError, Global};

/// The words of a text. One of more than 2,000,000 bytes is refused as one for which memory is wanting.
pub fn words_of(alloc: Global, text: &str) -> Result<Vec<Token>, WordRefusal>
    ensures { IfOk result (λ words. (t : Text) × IsDivision t words.items) }
{
    let bytes = text.as_bytes();
    if bytes.len() > 2_000_000 {
        return Err(WordRefusal::Memory);
    }
    tokens(alloc, bytes)
}

/// A piece so many times, what stands in the middle, and another piece as often.
pub fn repeated(
    alloc: Global,
    piece: &str,
    times: usize,
    middle: &str,
    after: &str,
) -> Result<String, AllocError> {
    let mut text = String::new(alloc);
    for _ in 0..times {
        text.push_str(piece)?;
    }
    text.push_str(middle)?;
    for _ in 0..times {
        text.push_str(after)?;
    }
    Ok(text)
}

/// The text of a row, `piece|times|middle|after|wanted`: the piece so many times, the middle, and what stands after it as often; and what is wanted of it.
fn row_text(alloc: Global, row: &str) -> Result<(String, &str), AllocError> {
    let (piece, more) = row.split_once('|').unwrap_or((row, ""));
    let (times, more) = more.split_once('|').unwrap_or((more, ""));
    let (middle, more) = more.split_once('|').unwrap_or((more, ""));
    let (after, wanted) = more.split_once('|').unwrap_or((more, ""));
    let times = times.parse::<usize>().unwrap_or(0);
    let text = repeated(alloc, piece, times, middle, after)?;
    Ok((text, wanted))
}

/// As what a text is read.
#[derive(Clone, Copy)]
pub enum View {
    Words,
    /// How many words there are.
    Count,
    Expression,
    Items,
}

/// A text as it is read, or its refusal.
fn read(alloc: Global, view: View, text: &str) -> Result<String, AllocError> {
    match view {
        View::Words => read_words(alloc, text),
        View::Count => count_words(alloc, text),
        View::Expression => read_expression(alloc, text),
        View::Items => read_items(alloc, text),
    }
}

/// What stands around each row of a table.
#[derive(Clone, Copy)]
pub struct Frame<'a> {
    pub view: View,
    pub before: &'a str,
    pub after: &'a str,
    /// What is wanted of a row that has no ` => ` with an answer of its own.
    pub wanted: &'a str,
}

/// A row that came out wrong, with what it came out as, or nothing.
fn wrong_row(alloc: Global, frame: &Frame<'_>, row: &str) -> Result<String, AllocError> {
    let (text, wanted) = row.split_once(" => ").unwrap_or((row, frame.wanted));
    let whole = format!(in alloc; "{}{text}{}", frame.before, frame.after)?;
    let found = read(alloc, frame.view, whole.as_str())?;
    if found.as_str() == wanted {
        Ok(String::new(alloc))
    } else {
        format!(in alloc; "{row}: {found}\n")
    }
}

/// The first row of a table that came out wrong, or nothing.
pub fn wrong_rows(alloc: Global, frame: &Frame<'_>, rows: &str) -> Result<String, AllocError> {
    for row in rows.lines() {
        let wrong = wrong_row(alloc, frame, row)?;
        if !wrong.is_empty() {
            return Ok(wrong);
        }
    }
    Ok(String::new(alloc))
}

/// Whether a row of repeated pieces begins as it is wanted.
fn begins_right(alloc: Global, view: View, row: &str) -> Result<bool, AllocError> {
    let (text, wanted) = row_text(alloc, row)?;
    let found = read(alloc, view, text.as_str())?;
    Ok(found.starts_with(wanted))
}

/// The first row of a table of repeated pieces that does not begin as it is wanted, or an empty text.
pub fn wrong_limits<'t>(alloc: Global, view: View, rows: &'t str) -> Result<&'t str, AllocError> {
    for row in rows.lines() {
        if !begins_right(alloc, view, row)? {
            return Ok(row);
        }
    }
    Ok("")
}
