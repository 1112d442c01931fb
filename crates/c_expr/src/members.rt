//! Fields behind `.` and `->`.
ghost use Rattle.std.specs.Prelude.{◌≡◌, ◌<◌, length, MatchOption, IfOk, IfSome};
ghost use Rattle.c_expr.specs.Members.{IsMemberAt, selected};

use crate::look::{after_sign, name_at};
use c_tree::{Expr, Sign, Token};
use sd_base::Name;
use sqlite_items::Boxed;
use std::alloc::{AllocError, Global};

/// A field behind `.` or `->`.
#[derive(Clone, Copy, PartialEq, Eq, Debug)]
pub enum Member {
    /// `.f`
    Field(Name),
    /// `->f`
    Arrow(Name),
}

/// The `.` or `->` with its field that the words begin with, and the words after it.
pub fn member_at(words: &[Token]) -> Option<(Member, &[Token])>
    ensures word { MatchOption result ((m : _) → (u : _) → IsMemberAt words.now m u → ⊥) (λ a. IsMemberAt words.now a.0 a.1.now) }
    ensures shorter { IfSome result (λ a. length a.1.now < length words.now) }
{
    if let Some(after_dot) = after_sign(words, Sign::Dot) {
        let Some((name, rest)) = name_at(after_dot) else {
            return None;
        };
        return Some((Member::Field(name), rest));
    }
    let Some(after_arrow) = after_sign(words, Sign::Arrow) else {
        return None;
    };
    let Some((name, rest)) = name_at(after_arrow) else {
        return None;
    };
    Some((Member::Arrow(name), rest))
}

/// The field of the operand `of`.
pub fn select(alloc: Global, of: Boxed<Expr>, member: Member) -> Result<Boxed<Expr>, AllocError>
    ensures { IfOk result (λ whole. whole ≡ selected of member) }
{
    match member {
        Member::Field(name) => Boxed::new(alloc, Expr::Field(of, name)),
        Member::Arrow(name) => Boxed::new(alloc, Expr::Arrow(of, name)),
    }
}
