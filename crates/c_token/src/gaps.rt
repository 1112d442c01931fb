//! What stands between words: blanks, comments and marker lines.
ghost use Rattle.std.specs.Prelude.{◌≡◌, ◌+◌, ◌^◌, ◌<◌, ◌≤◌, ◌||◌, length, codes, IfSome};
ghost use Rattle.std.specs.Option.{option_map};
ghost use Rattle.c_tree.specs.Bytes.{first_is, is_digit};
ghost use Rattle.c_tree.specs.Gaps.{gap, is_blank, opens_block, opens_line, begins_with, after_block, after_line, after_spaces, is_marker, after_gap};
ghost use Rattle.c_token.specs.Feeds.{line_feeds};

use crate::bytes::is_digit;

/// Where a text goes on behind a gap.
#[derive(Clone, Copy)]
pub struct Gap<'a> {
    /// The line, counted from 1.
    pub line: u32,
    /// Whether only gaps stand before on this line.
    pub fresh: bool,
    /// What is left of the text.
    pub rest: &'a [u8],
}

/// Space, tab, form feed, carriage return and line feed.
fn is_blank(byte: u8) -> bool
    ensures { result ≡ is_blank byte }
{
    byte == b' ' || byte == b'\n' || byte == b'\t' || byte == b'\r' || byte == 12
}

/// Whether a comment that ends at `*/` opens here.
pub fn opens_block(text: &[u8]) -> bool
    ensures { result ≡ opens_block text.now }
{
    match text {
        [first, second, ..] => *first == b'/' && *second == b'*',
        _ => false,
    }
}

/// Whether a comment that ends with its line opens here.
pub fn opens_line(text: &[u8]) -> bool
    ensures { result ≡ opens_line text.now }
{
    match text {
        [first, second, ..] => *first == b'/' && *second == b'/',
        _ => false,
    }
}

/// Behind the next `*/`, if there is one.
fn after_block(start_line: u32, start_fresh: bool, text: &[u8]) -> Option<Gap>
    requires { start_line + line_feeds text.now < 2 ^ 32 }
    ensures place { option_map (λ g. gap g.line g.fresh g.rest.now) result ≡ after_block start_line start_fresh text.now }
    ensures lines { IfSome result (λ g. g.line + line_feeds g.rest.now ≤ start_line + line_feeds text.now) }
    ensures shorter { IfSome result (λ g. length g.rest.now ≤ length text.now) }
{
    let mut line = start_line;
    let mut fresh = start_fresh;
    let mut rest = text;
    while let [first, second, after @ ..] = rest {
        if *first == b'*' && *second == b'/' {
            return Some(Gap {
                line,
                fresh,
                rest: after,
            });
        }
        if *first == b'\n' {
            line += 1;
            fresh = true;
        }
        rest = &rest[1..];
    }
    None
}

/// From the next line feed on.
fn after_line(text: &[u8]) -> &[u8]
    ensures rest { result.now ≡ after_line text.now }
    ensures lines { line_feeds result.now ≤ line_feeds text.now }
    ensures shorter { length result.now ≤ length text.now }
{
    let mut rest = text;
    while let [first, after @ ..] = rest {
        if *first == b'\n' {
            return rest;
        }
        rest = after;
    }
    rest
}

/// Without the spaces and tabs in front.
fn after_spaces(text: &[u8]) -> &[u8]
    ensures { result.now ≡ after_spaces text.now }
{
    let mut rest = text;
    while let [first, after @ ..] = rest {
        if *first != b' ' && *first != b'\t' {
            return rest;
        }
        rest = after;
    }
    rest
}

/// Whether a text begins with these bytes.
fn begins_with(bytes: &[u8], text: &[u8]) -> bool
    ensures { result ≡ begins_with bytes.now text.now }
{
    let mut wanted = bytes;
    let mut rest = text;
    while let [want, wanted_after @ ..] = wanted {
        let [first, after @ ..] = rest else {
            return false;
        };
        if *first != *want {
            return false;
        }
        wanted = wanted_after;
        rest = after;
    }
    true
}

/// Whether a line that begins with `#` and goes on so is a marker line.
fn is_marker(text: &[u8]) -> bool
    ensures { result ≡ is_marker text.now }
{
    let rest = after_spaces(text);
    match rest {
        [first, ..] => is_digit(*first) || begins_with(b"pragma", rest),
        [] => false,
    }
}

/// Behind the blank, comment or marker line that begins here, if one does. `fresh` says that only gaps stand before
/// on this line.
pub fn after_gap(line: u32, fresh: bool, text: &[u8]) -> Option<Gap>
    requires { line + line_feeds text.now < 2 ^ 32 }
    ensures place { option_map (λ g. gap g.line g.fresh g.rest.now) result ≡ after_gap line fresh text.now }
    ensures lines { IfSome result (λ g. g.line + line_feeds g.rest.now ≤ line + line_feeds text.now) }
    ensures shorter { IfSome result (λ g. length g.rest.now < length text.now) }
{
    let [first, rest @ ..] = text else {
        return None;
    };
    if *first == b'\n' {
        return Some(Gap {
            line: line + 1,
            fresh: true,
            rest,
        });
    }
    if is_blank(*first) {
        return Some(Gap { line, fresh, rest });
    }
    if opens_block(text) {
        return after_block(line, fresh, &rest[1..]);
    }
    if opens_line(text) || (fresh && *first == b'#' && is_marker(rest)) {
        return Some(Gap {
            line,
            fresh,
            rest: after_line(rest),
        });
    }
    None
}
