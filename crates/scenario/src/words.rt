//! The lines of a text and the words of a line, taken one after another.

ghost use Rattle.std.specs.Prelude.{◌≡◌, ◌<◌, ◌≤◌, [], ◌∷◌, not, length, MatchOption, IfSome, position};
ghost use Rattle.std.specs.List.{before_first, position_or_len};
ghost use Rattle.scenario.specs.Words.{ends_line, is_blank, begins_comment, lines_of, pieces_of};

/// The first line of a text without its line feed, and the text behind it. A text of no bytes has no line.
pub fn first_line(text: &[u8]) -> Option<(&[u8], &[u8])>
    ensures lines { MatchOption result (lines_of text.now ≡ []) (λ cut. lines_of text.now ≡ cut.0.now ∷ lines_of cut.1.now) }
    ensures shorter { IfSome result (λ cut. length cut.1.now < length text.now) }
{
    if text.is_empty() {
        return None;
    }
    match line_feed_place(text) {
        Some(end) => Some((&text[..end], &text[end + 1..])),
        None => Some((text, &[])),
    }
}

/// The line without its comment, which begins at the first `#`.
pub fn before_comment(line: &[u8]) -> &[u8]
    ensures { result.now ≡ before_first begins_comment line.now }
{
    match comment_place(line) {
        Some(end) => &line[..end],
        None => line,
    }
}

/// Space, tab and carriage return.
fn is_blank_byte(byte: u8) -> bool
    ensures { result ≡ is_blank byte }
{
    byte == b' ' || byte == b'\t' || byte == b'\r'
}

/// The first word of a line, and the line behind it.
pub fn first_word(line: &[u8]) -> Option<(&[u8], &[u8])>
    ensures words { MatchOption result (pieces_of line.now ≡ []) (λ cut. pieces_of line.now ≡ cut.0.now ∷ pieces_of cut.1.now) }
    ensures shorter { IfSome result (λ cut. length cut.1.now < length line.now) }
{
    let start = word_place(line)?;
    let found = &line[start..];
    let end = word_length(found);
    Some((&found[..end], &found[end..]))
}

fn line_feed_place(text: &[u8]) -> Option<usize>
    ensures { result ≡ position ends_line text.now }
{
    text.iter().position(|byte| *byte == b'\n')
}

fn comment_place(line: &[u8]) -> Option<usize>
    ensures { result ≡ position begins_comment line.now }
{
    line.iter().position(|byte| *byte == b'#')
}

/// The place of the first byte that is no blank.
fn word_place(line: &[u8]) -> Option<usize>
    ensures { result ≡ position (λ b. not (is_blank b)) line.now }
{
    line.iter().position(|byte| !is_blank_byte(*byte))
}

/// The bytes before the first blank.
fn word_length(line: &[u8]) -> usize
    ensures within { result ≤ length line.now }
    ensures place { result ≡ position_or_len is_blank line.now }
{
    match blank_place(line) {
        Some(end) => end,
        None => line.len(),
    }
}

fn blank_place(line: &[u8]) -> Option<usize>
    ensures { result ≡ position is_blank line.now }
{
    line.iter().position(|byte| is_blank_byte(*byte))
}
