//! Named texts in memory, each read from its front, which the shelves in memory share.
ghost use Rattle.std.specs.Prelude.{◌≡◌, ◌≤◌, ◌++◌, List, length, take, drop, map, position, option_map, IfSome, IfNone, bytes_eq, string_bytes, vec_len};
ghost use Rattle.sd_outside.specs.Texts.{text_of, left_of, read_on, moved};

use std::marker::Model;

/// Texts by their names. What is read of a text is gone from its front.
#[derive(Drop)]
pub(crate) struct Texts {
    texts: Vec<(String, Vec<u8>)>,
}

impl Model for Texts {
    ghost use Rattle.std.specs.Prelude.{List, map};
    ghost use Rattle.sd_outside.specs.Texts.{Text, text_of};

    ghost Value = { List Text };

    ghost view = { λ s. map text_of s.texts.items };
}

impl Texts {
    pub(crate) fn new(texts: Vec<(String, Vec<u8>)>) -> Texts
        ensures { result ≡ map text_of texts.items }
    {
        Texts { texts }
    }

    /// Moves a front part of what is left of `name` into the front of `buf`, as long as is left, fits and `most`
    /// allows, and answers its length. `None`: there is no text of that name.
    pub(crate) fn read(&mut self, name: &str, buf: &mut [u8], most: usize) -> Option<usize>
        ensures answer { result ≡ option_map (moved most (length buf.old)) (left_of self.old name.now) }
        ensures rest { IfSome result (λ n. self.new ≡ read_on self.old name.now n) }
        ensures absent { IfNone result (self.new ≡ self.old) }
        ensures gives { IfSome result (λ n. IfSome (left_of self.old name.now) (λ left. take n buf.new ≡ take n left)) }
    {
        let at = place_of(&self.texts, name)?;
        let text = &mut self.texts[at];
        let n = most.min(buf.len()).min(text.1.len());
        move_front(&mut text.1, buf, n);
        Some(n)
    }
}

/// The place of the first text of that name.
fn place_of(texts: &[(String, Vec<u8>)], name: &str) -> Option<usize>
    ensures { result ≡ position (λ t. bytes_eq (string_bytes t.0) name.now) texts.now }
{
    texts.iter().position(|(kept, _)| kept.as_str() == name)
}

/// Moves the first `n` bytes of a text into the front of `buf`.
fn move_front(text: &mut Vec<u8>, buf: &mut [u8], n: usize)
    requires there { n ≤ vec_len text.old }
    requires fits { n ≤ length buf.old }
    ensures rest { text.new.items ≡ drop n text.old.items }
    ensures front { take n buf.new ≡ take n text.old.items }
{
    buf[..n].copy_from_slice(&text[..n]);
    text.copy_within(n.., 0);
    text.truncate(text.len() - n);
}
