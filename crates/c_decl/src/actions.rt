//! Simple statements: those that hold no other statement.
ghost use Rattle.std.specs.Prelude.{◌<◌, length, IfOk, IfSome};
ghost use Rattle.std.specs.Option.{option_map};
ghost use Rattle.c_tree.specs.Reading.{Best, Never};
ghost use Rattle.c_tree.specs.StatementGrammar.{ActionAt, SimpleAt};
ghost use Rattle.c_decl.specs.declared.beginnings.Beginning.TheVariants as beginning;
ghost use Rattle.c_decl.specs.Actions.{ActionAfter, CallAfter, ClosedEnd};

use crate::arguments::arguments_at;
use crate::beginnings::{Beginning, beginning_at};
use crate::lines::line_of;
use c_expr::{after_sign, closed, type_name_at, unary};
use c_tree::{Action, Expr, Sign, Simple, Token};
use sd_base::Name;
use sqlite_items::Boxed;
use std::alloc::{AllocError, Global};

/// The simple statement that the words begin with, and the words after its `;`.
pub fn simple_at(alloc: Global, words: &[Token]) -> Result<Option<(Simple, &[Token])>, AllocError>
    ensures best { IfOk result (λ found. Best (λ v x. SimpleAt words.now v x) Never (option_map (λ a. (a.0, a.1.now)) found)) }
    ensures shorter { IfOk result (λ found. IfSome found (λ a. length a.1.now < length words.now)) }
{
    let Some((action, rest)) = action_at(alloc, words)? else {
        return Ok(None);
    };
    let simple = Simple {
        line: line_of(words),
        action,
    };
    Ok(Some((simple, rest)))
}

/// What the simple statement does that the words begin with, and the words after its `;`.
fn action_at(alloc: Global, words: &[Token]) -> Result<Option<(Action, &[Token])>, AllocError>
    ensures best { IfOk result (λ found. Best (λ v x. ActionAt words.now v x) Never (option_map (λ a. (a.0, a.1.now)) found)) }
    ensures shorter { IfOk result (λ found. IfSome found (λ a. length a.1.now < length words.now)) }
{
    let (beginning, rest) = beginning_at(words);
    let found = action_after(alloc, beginning, rest)?;
    Ok(found)
}

/// What a simple statement of this beginning does, and the words after its `;`.
fn action_after(
    alloc: Global,
    beginning: Beginning,
    words: &[Token],
) -> Result<Option<(Action, &[Token])>, AllocError>
    ensures best { IfOk result (λ found. Best (λ v x. ActionAfter beginning words.now v x) Never (option_map (λ a. (a.0, a.1.now)) found)) }
    ensures shorter { IfOk result (λ found. IfSome found (λ a. length a.1.now < length words.now)) }
{
    match beginning {
        Beginning::Empty => {
            let Some(rest) = after_sign(words, Sign::Semicolon) else {
                return Ok(None);
            };
            Ok(Some((Action::Empty, rest)))
        }
        Beginning::Return => {
            let found = returned(alloc, words)?;
            Ok(found)
        }
        Beginning::Kfree => {
            let found = freed(alloc, words)?;
            Ok(found)
        }
        Beginning::Zero => {
            let found = zeroed(alloc, words)?;
            Ok(found)
        }
        Beginning::Call(function) => {
            let found = called(alloc, None, function, words)?;
            Ok(found)
        }
        Beginning::CallTo(target, function) => {
            let found = called(alloc, Some(target), function, words)?;
            Ok(found)
        }
        Beginning::Kalloc(target) => {
            let found = allocated(alloc, target, words)?;
            Ok(found)
        }
        Beginning::Place => {
            let found = assigned(alloc, words)?;
            Ok(found)
        }
    }
}

/// What stands after `return`: `;`, or an expression and `;`.
fn returned(alloc: Global, words: &[Token]) -> Result<Option<(Action, &[Token])>, AllocError>
    ensures best { IfOk result (λ found. Best (λ v x. ActionAfter beginning.Return words.now v x) Never (option_map (λ a. (a.0, a.1.now)) found)) }
    ensures shorter { IfOk result (λ found. IfSome found (λ a. length a.1.now < length words.now)) }
{
    if let Some(rest) = after_sign(words, Sign::Semicolon) {
        return Ok(Some((Action::Return(None), rest)));
    }
    let Some((value, rest)) = closed(alloc, words, Sign::Semicolon)? else {
        return Ok(None);
    };
    Ok(Some((Action::Return(Some(value)), rest)))
}

/// What stands after `kfree (`.
fn freed(alloc: Global, words: &[Token]) -> Result<Option<(Action, &[Token])>, AllocError>
    ensures best { IfOk result (λ found. Best (λ v x. ActionAfter beginning.Kfree words.now v x) Never (option_map (λ a. (a.0, a.1.now)) found)) }
    ensures shorter { IfOk result (λ found. IfSome found (λ a. length a.1.now < length words.now)) }
{
    let Some((pointer, rest)) = closed_end(alloc, words)? else {
        return Ok(None);
    };
    Ok(Some((Action::Kfree(pointer), rest)))
}

/// What stands after `zero (`.
fn zeroed(alloc: Global, words: &[Token]) -> Result<Option<(Action, &[Token])>, AllocError>
    ensures best { IfOk result (λ found. Best (λ v x. ActionAfter beginning.Zero words.now v x) Never (option_map (λ a. (a.0, a.1.now)) found)) }
    ensures shorter { IfOk result (λ found. IfSome found (λ a. length a.1.now < length words.now)) }
{
    let Some((place, after_place)) = unary(alloc, words)? else {
        return Ok(None);
    };
    let Some(after_parenthesis) = after_sign(after_place, Sign::ParenClose) else {
        return Ok(None);
    };
    let Some(rest) = after_sign(after_parenthesis, Sign::Semicolon) else {
        return Ok(None);
    };
    Ok(Some((Action::Zero(place), rest)))
}

/// What stands after the `(` of a call whose result goes to `target`, if to any.
fn called(
    alloc: Global,
    target: Option<Name>,
    function: Name,
    words: &[Token],
) -> Result<Option<(Action, &[Token])>, AllocError>
    ensures best { IfOk result (λ found. Best (λ v x. CallAfter target function words.now v x) Never (option_map (λ a. (a.0, a.1.now)) found)) }
    ensures shorter { IfOk result (λ found. IfSome found (λ a. length a.1.now < length words.now)) }
{
    let Some((arguments, after_arguments)) = arguments_at(alloc, words)? else {
        return Ok(None);
    };
    let Some(rest) = after_sign(after_arguments, Sign::Semicolon) else {
        return Ok(None);
    };
    Ok(Some((Action::Call(target, function, arguments), rest)))
}

/// What stands after the `kalloc (` of memory that goes to `target`.
fn allocated(
    alloc: Global,
    target: Name,
    words: &[Token],
) -> Result<Option<(Action, &[Token])>, AllocError>
    ensures best { IfOk result (λ found. Best (λ v x. ActionAfter (beginning.Kalloc target) words.now v x) Never (option_map (λ a. (a.0, a.1.now)) found)) }
    ensures shorter { IfOk result (λ found. IfSome found (λ a. length a.1.now < length words.now)) }
{
    let Some((element, after_type)) = type_name_at(alloc, words)? else {
        return Ok(None);
    };
    let Some(after_comma) = after_sign(after_type, Sign::Comma) else {
        return Ok(None);
    };
    let Some((count, rest)) = closed_end(alloc, after_comma)? else {
        return Ok(None);
    };
    Ok(Some((Action::Kalloc(target, element, count), rest)))
}

/// The place that the words begin with, and the value after `=` that is assigned to it.
fn assigned(alloc: Global, words: &[Token]) -> Result<Option<(Action, &[Token])>, AllocError>
    ensures best { IfOk result (λ found. Best (λ v x. ActionAfter beginning.Place words.now v x) Never (option_map (λ a. (a.0, a.1.now)) found)) }
    ensures shorter { IfOk result (λ found. IfSome found (λ a. length a.1.now < length words.now)) }
{
    let Some((place, after_place)) = unary(alloc, words)? else {
        return Ok(None);
    };
    let Some(after_equal) = after_sign(after_place, Sign::Assign) else {
        return Ok(None);
    };
    let Some((value, rest)) = closed(alloc, after_equal, Sign::Semicolon)? else {
        return Ok(None);
    };
    Ok(Some((Action::Assign(place, value), rest)))
}

/// The expression that the words begin with where `)` and `;` close it, and the words after these.
fn closed_end(alloc: Global, words: &[Token]) -> Result<Option<(Boxed<Expr>, &[Token])>, AllocError>
    ensures best { IfOk result (λ found. Best (λ v x. ClosedEnd words.now v x) Never (option_map (λ a. (a.0, a.1.now)) found)) }
    ensures shorter { IfOk result (λ found. IfSome found (λ a. length a.1.now < length words.now)) }
{
    let Some((inner, after)) = closed(alloc, words, Sign::ParenClose)? else {
        return Ok(None);
    };
    let Some(rest) = after_sign(after, Sign::Semicolon) else {
        return Ok(None);
    };
    Ok(Some((inner, rest)))
}
