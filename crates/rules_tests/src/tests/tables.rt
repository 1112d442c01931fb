//! Tables of texts, each with what becomes of it.
//!
//! A row is one line; behind it stand the lines that are wanted of it, with two spaces before each. A line that begins with `//` is a heading.
use super::forms::put;
use super::texts::{View, laid, seen, verdict};
use std::alloc::Global;
use std::fmt::Write;

/// What stands around a row, and what is looked at.
#[derive(Clone, Copy)]
pub struct Frame<'a> {
    pub before: &'a str,
    pub after: &'a str,
    /// The number of the function that is looked at.
    pub function: usize,
    pub view: View,
    /// The line on which the row stands.
    pub line: u32,
}

/// What of a whole text is looked at.
#[derive(Clone, Copy)]
pub enum Show {
    /// Whether it is accepted, or why it is refused.
    Verdict,
    /// Its layout.
    Layout,
    /// Where the members of its structs lie.
    Offsets,
    /// The checks of its first function.
    Checks,
}

/// As what the rows of a table are taken.
#[derive(Clone, Copy)]
enum Look<'a> {
    /// As pieces of a text.
    Row(&'a Frame<'a>),
    /// As texts.
    Text(Show),
}

/// Whether nothing is asked: there is no row, or a heading.
fn asks_nothing(row: &str) -> bool {
    row.is_empty() || row.starts_with("//")
}

/// What a row that is a piece of a text comes to.
fn found_in(alloc: Global, frame: &Frame<'_>, row: &str) -> String {
    let mut text = String::new(alloc);
    put(&mut text, frame.before);
    put(&mut text, row);
    put(&mut text, frame.after);
    seen(alloc, text.as_str(), frame.function, frame.view, frame.line)
}

/// A piece of a text so many times. In it `#` stands for its number, counted from 0.
fn repeat(text: &mut String, piece: &str, times: usize) {
    for number in 0..times {
        let mut is_first = true;
        for part in piece.split('#') {
            if !is_first {
                let _ = write!(text, "{number}");
            }
            put(text, part);
            is_first = false;
        }
    }
}

/// Which of the parts between backquotes comes next.
#[derive(Clone, Copy)]
enum Part {
    Plain,
    Times,
    Piece,
}

/// A row with its repeated pieces written out: in "a`3`b#`c" the piece stands three times, with its number.
fn written_out(alloc: Global, row: &str) -> String {
    let mut text = String::new(alloc);
    let mut next = Part::Plain;
    let mut times = 0usize;
    for part in row.split('`') {
        next = match next {
            Part::Plain => {
                put(&mut text, part);
                Part::Times
            }
            Part::Times => {
                times = part.parse::<usize>().unwrap_or(0);
                Part::Piece
            }
            Part::Piece => {
                repeat(&mut text, part, times);
                Part::Plain
            }
        };
    }
    text
}

/// A text that is written in one line, where `~` stands for a line feed.
fn in_lines(alloc: Global, row: &str) -> String {
    let whole = written_out(alloc, row);
    let mut text = String::new(alloc);
    for line in whole.as_str().split('~') {
        put(&mut text, line);
        put(&mut text, "\n");
    }
    text
}

/// What a row that is a text comes to.
fn found_of(alloc: Global, show: Show, row: &str) -> String {
    let text = in_lines(alloc, row);
    match show {
        Show::Verdict => verdict(alloc, text.as_str()),
        Show::Layout => laid(alloc, text.as_str(), true),
        Show::Offsets => laid(alloc, text.as_str(), false),
        Show::Checks => seen(alloc, text.as_str(), 0, View::Checks, 0),
    }
}

/// Adds a row as it came out, where it is not as it was wanted.
fn settle(alloc: Global, out: &mut String, look: Look<'_>, row: &str, wanted: &str) {
    if asks_nothing(row) {
        return;
    }
    let found = match look {
        Look::Row(frame) => found_in(alloc, frame, row),
        Look::Text(show) => found_of(alloc, show, row),
    };
    if found.as_str() != wanted {
        put(out, row);
        put(out, "\n");
        put(out, found.as_str());
    }
}

/// Those rows of a table that came out wrong.
fn wrong(alloc: Global, look: Look<'_>, table: &str) -> String {
    let mut out = String::new(alloc);
    let mut wanted = String::new(alloc);
    let mut row = String::new(alloc);
    for line in table.lines() {
        if line.starts_with("  ") {
            put(&mut wanted, line);
            put(&mut wanted, "\n");
        } else {
            settle(alloc, &mut out, look, row.as_str(), wanted.as_str());
            row.clear();
            put(&mut row, line);
            wanted.clear();
        }
    }
    settle(alloc, &mut out, look, row.as_str(), wanted.as_str());
    out
}

/// Those rows of a table of pieces that came out wrong.
pub fn wrong_rows(alloc: Global, frame: &Frame<'_>, table: &str) -> String {
    wrong(alloc, Look::Row(frame), table)
}

/// Those texts of a table that came out wrong.
pub fn wrong_texts(alloc: Global, show: Show, table: &str) -> String {
    wrong(alloc, Look::Text(show), table)
}
