//! The arguments of a call.
ghost use Rattle.std.specs.Prelude.{◌<◌, length, IfOk, IfSome};
ghost use Rattle.std.specs.Option.{option_map};
ghost use Rattle.c_tree.specs.Reading.{Best, Never};
ghost use Rattle.c_tree.specs.StatementGrammar.{ArgumentsAt, MoreArgumentsAt};

use c_expr::{after_sign, row};
use c_tree::{Expr, Sign, Token};
use sqlite_items::Items;
use std::alloc::{AllocError, Global};

/// The arguments that the words after `(` begin with, and the words after the `)` that closes them.
pub fn arguments_at(
    alloc: Global,
    words: &[Token],
) -> Result<Option<(Items<Expr>, &[Token])>, AllocError>
    ensures best { IfOk result (λ found. Best (λ v x. ArgumentsAt words.now v x) Never (option_map (λ a. (a.0, a.1.now)) found)) }
    ensures shorter { IfOk result (λ found. IfSome found (λ a. length a.1.now < length words.now)) }
{
    if let Some(rest) = after_sign(words, Sign::ParenClose) {
        return Ok(Some((Items::new(alloc), rest)));
    }
    let found = more_arguments(alloc, words)?;
    Ok(found)
}

/// One argument or more, and the words after the `)` that closes them. Each expression is read once.
fn more_arguments(
    alloc: Global,
    words: &[Token],
) -> Result<Option<(Items<Expr>, &[Token])>, AllocError>
    ensures best { IfOk result (λ found. Best (λ v x. MoreArgumentsAt words.now v x) Never (option_map (λ a. (a.0, a.1.now)) found)) }
    ensures shorter { IfOk result (λ found. IfSome found (λ a. length a.1.now < length words.now)) }
{
    let mut arguments = Items::new(alloc);
    let mut rest = words;
    loop {
        let Some((argument, after)) = row(alloc, 0, rest)? else {
            return Ok(None);
        };
        arguments.push(argument.into_inner())?;
        if let Some(after_last) = after_sign(after, Sign::ParenClose) {
            return Ok(Some((arguments, after_last)));
        }
        let Some(next) = after_sign(after, Sign::Comma) else {
            return Ok(None);
        };
        rest = next;
    }
}
