//! The operators: which sign is which, and the row of each binary one.
ghost use Rattle.std.specs.Prelude.{◌≡◌, ◌<◌, length, MatchOption, IfSome};
ghost use Rattle.c_tree.specs.Operators.{unary_of, binary_of, row_of, UnaryAt, BinaryAt};

use crate::look::first_word;
use c_tree::{Binary, Sign, Token, Unary, Word};

/// The operator before an operand that the words begin with, and the words after it.
pub fn unary_at(words: &[Token]) -> Option<(Unary, &[Token])>
    ensures word { MatchOption result ((o : _) → (u : _) → UnaryAt words.now o u → ⊥) (λ a. UnaryAt words.now a.0 a.1.now) }
    ensures shorter { IfSome result (λ a. length a.1.now < length words.now) }
{
    match first_word(words)? {
        (Word::Sign(sign), rest) => {
            let operator = unary_operator(*sign)?;
            Some((operator, rest))
        }
        _ => None,
    }
}

/// The operator of the row `row` that the words begin with, and the words after it.
pub fn binary_at(words: &[Token], row: u8) -> Option<(Binary, &[Token])>
    ensures word { MatchOption result ((o : _) → (u : _) → BinaryAt words.now o u → row_of o ≡ row → ⊥) (λ a. BinaryAt words.now a.0 a.1.now × (row_of a.0 ≡ row)) }
    ensures shorter { IfSome result (λ a. length a.1.now < length words.now) }
{
    match first_word(words)? {
        (Word::Sign(sign), rest) => {
            let operator = binary_operator(*sign)?;
            if row_number(operator) == row {
                Some((operator, rest))
            } else {
                None
            }
        }
        _ => None,
    }
}

/// The operator before an operand that the sign is.
fn unary_operator(sign: Sign) -> Option<Unary>
    ensures { result ≡ unary_of sign }
{
    match sign {
        Sign::Minus => Some(Unary::Minus),
        Sign::Tilde => Some(Unary::Complement),
        Sign::Exclamation => Some(Unary::Not),
        Sign::Plus => Some(Unary::Plus),
        Sign::Star => Some(Unary::Dereference),
        Sign::Ampersand => Some(Unary::Address),
        _ => None,
    }
}

/// The operator between two operands that the sign is.
fn binary_operator(sign: Sign) -> Option<Binary>
    ensures { result ≡ binary_of sign }
{
    match sign {
        Sign::Bars => Some(Binary::LogicalOr),
        Sign::Ampersands => Some(Binary::LogicalAnd),
        Sign::Bar => Some(Binary::BitOr),
        Sign::Caret => Some(Binary::BitXor),
        Sign::Ampersand => Some(Binary::BitAnd),
        Sign::Equal => Some(Binary::Equal),
        Sign::NotEqual => Some(Binary::NotEqual),
        Sign::Less => Some(Binary::Less),
        Sign::Greater => Some(Binary::Greater),
        Sign::LessEqual => Some(Binary::LessEqual),
        Sign::GreaterEqual => Some(Binary::GreaterEqual),
        Sign::ShiftLeft => Some(Binary::ShiftLeft),
        Sign::ShiftRight => Some(Binary::ShiftRight),
        Sign::Plus => Some(Binary::Add),
        Sign::Minus => Some(Binary::Subtract),
        Sign::Star => Some(Binary::Multiply),
        Sign::Slash => Some(Binary::Divide),
        Sign::Percent => Some(Binary::Remainder),
        _ => None,
    }
}

/// The operator's row, 0 the weakest.
fn row_number(operator: Binary) -> u8
    ensures { result ≡ row_of operator }
{
    match operator {
        Binary::LogicalOr => 0,
        Binary::LogicalAnd => 1,
        Binary::BitOr => 2,
        Binary::BitXor => 3,
        Binary::BitAnd => 4,
        Binary::Equal | Binary::NotEqual => 5,
        Binary::Less | Binary::Greater | Binary::LessEqual | Binary::GreaterEqual => 6,
        Binary::ShiftLeft | Binary::ShiftRight => 7,
        Binary::Add | Binary::Subtract => 8,
        Binary::Multiply | Binary::Divide | Binary::Remainder => 9,
    }
}
