//! Signs: the first in the table that a text begins with is the longest.
ghost use Rattle.std.specs.Prelude.{◌≡◌};
ghost use Rattle.std.specs.Option.{option_map};
ghost use Rattle.c_token.specs.Scans.{stripped, found_sign, first_sign};
ghost use Rattle.c_token.specs.Order.{sign_order};

use c_tree::Sign;

/// All signs, none before one that begins with it. Those that no other begins with come first.
pub const SIGNS: [Sign; 45] = [
    Sign::Semicolon,
    Sign::Comma,
    Sign::ParenOpen,
    Sign::ParenClose,
    Sign::StarAssign,
    Sign::Star,
    Sign::Arrow,
    Sign::Decrement,
    Sign::MinusAssign,
    Sign::Minus,
    Sign::Equal,
    Sign::Assign,
    Sign::BracketOpen,
    Sign::BracketClose,
    Sign::BraceOpen,
    Sign::BraceClose,
    Sign::Dot,
    Sign::ShiftLeftAssign,
    Sign::ShiftLeft,
    Sign::LessEqual,
    Sign::Less,
    Sign::Increment,
    Sign::PlusAssign,
    Sign::Plus,
    Sign::Ampersands,
    Sign::AmpersandAssign,
    Sign::Ampersand,
    Sign::NotEqual,
    Sign::Exclamation,
    Sign::Bars,
    Sign::BarAssign,
    Sign::Bar,
    Sign::ShiftRightAssign,
    Sign::ShiftRight,
    Sign::GreaterEqual,
    Sign::Greater,
    Sign::SlashAssign,
    Sign::Slash,
    Sign::PercentAssign,
    Sign::Percent,
    Sign::CaretAssign,
    Sign::Caret,
    Sign::Tilde,
    Sign::Question,
    Sign::Colon,
];

/// What stands behind this spelling, where a text begins with it.
fn stripped<'a>(spelling: &[u8], text: &'a [u8]) -> Option<&'a [u8]>
    ensures { option_map (λ r. r.now) result ≡ stripped spelling.now text.now }
{
    let mut wanted = spelling;
    let mut rest = text;
    while let [want, wanted_after @ ..] = wanted {
        let [first, after @ ..] = rest else {
            return None;
        };
        if *want != *first {
            return None;
        }
        wanted = wanted_after;
        rest = after;
    }
    Some(rest)
}

/// The first of these signs that a text begins with, and what stands behind it.
fn first_sign<'a>(signs: &[Sign], text: &'a [u8]) -> Option<(Sign, &'a [u8])>
    ensures { option_map (λ a. found_sign a.0 a.1.now) result ≡ first_sign signs.now text.now }
{
    let mut left = signs;
    while let [sign, others @ ..] = left {
        if let Some(rest) = stripped(sign.spelling(), text) {
            return Some((*sign, rest));
        }
        left = others;
    }
    None
}

/// The longest sign that a text begins with, and what stands behind it.
pub fn longest_sign(text: &[u8]) -> Option<(Sign, &[u8])>
    ensures { option_map (λ a. found_sign a.0 a.1.now) result ≡ first_sign sign_order text.now }
{
    let found = first_sign(&SIGNS, text);
    found
}
