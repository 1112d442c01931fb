//! Statements and bodies by descent. A body in braces is the only way in which the descent goes deeper.
ghost use Rattle.std.specs.Prelude.{◌<◌, ◌≤◌, length, Some, IfOk, IfSome};
ghost use Rattle.std.specs.Option.{option_map};
ghost use Rattle.c_tree.specs.Reading.{Best, Never};
ghost use Rattle.c_tree.specs.StatementGrammar.{StmtAt, BodyAt, StmtsAt};
ghost use Rattle.c_expr.specs.Classes.{At};
ghost use Rattle.c_decl.specs.Classes.{is_else, is_in_statements};
ghost use Rattle.c_decl.specs.Parts.{TestAfter, IfAfter, WhileAfter, ElseAt};

use crate::actions::simple_at;
use crate::lines::line_of;
use c_expr::{after_keyword, after_sign, closed};
use c_tree::{Body, Expr, Keyword, Sign, Stmt, Token};
use sqlite_items::{Boxed, Items};
use std::alloc::{AllocError, Global};

/// The test in parentheses after `if` or `while`.
fn test_after(alloc: Global, words: &[Token]) -> Result<Option<(Boxed<Expr>, &[Token])>, AllocError>
    ensures best { IfOk result (λ found. Best (λ v x. TestAfter words.now v x) Never (option_map (λ a. (a.0, a.1.now)) found)) }
    ensures shorter { IfOk result (λ found. IfSome found (λ a. length a.1.now < length words.now)) }
{
    let Some(inside) = after_sign(words, Sign::ParenOpen) else {
        return Ok(None);
    };
    let found = closed(alloc, inside, Sign::ParenClose)?;
    Ok(found)
}

/// The statements that the words begin with, as many as there are, and the words after them.
#[cycle(statement)]
pub fn statements_at(alloc: Global, words: &[Token]) -> Result<(Items<Stmt>, &[Token]), AllocError>
    ensures best { IfOk result (λ a. Best (λ v x. StmtsAt words.now v x) (At is_in_statements) (Some (a.0, a.1.now))) }
    ensures shorter { IfOk result (λ a. length a.1.now ≤ length words.now) }
{
    let mut statements = Items::new(alloc);
    let mut rest = words;
    while let Some((statement, after)) = statement_at(alloc, rest)? {
        statements.push(statement)?;
        rest = after;
    }
    Ok((statements, rest))
}

/// The longest statement that the words begin with, and the words after it.
#[cycle(statement)]
fn statement_at(alloc: Global, words: &[Token]) -> Result<Option<(Stmt, &[Token])>, AllocError>
    ensures best { IfOk result (λ found. Best (λ v x. StmtAt words.now v x) (At is_else) (option_map (λ a. (a.0, a.1.now)) found)) }
    ensures shorter { IfOk result (λ found. IfSome found (λ a. length a.1.now < length words.now)) }
{
    if let Some(after_if) = after_keyword(words, Keyword::If) {
        let found = if_after(alloc, line_of(words), after_if)?;
        return Ok(found);
    }
    if let Some(after_while) = after_keyword(words, Keyword::While) {
        let found = while_after(alloc, line_of(words), after_while)?;
        return Ok(found);
    }
    let Some((simple, rest)) = simple_at(alloc, words)? else {
        return Ok(None);
    };
    Ok(Some((Stmt::Simple(simple), rest)))
}

/// The `if` on the line `line` that goes on with these words, with `else` where one stands there.
#[cycle(statement)]
fn if_after(
    alloc: Global,
    line: u32,
    words: &[Token],
) -> Result<Option<(Stmt, &[Token])>, AllocError>
    ensures best { IfOk result (λ found. Best (λ v x. IfAfter line words.now v x) (At is_else) (option_map (λ a. (a.0, a.1.now)) found)) }
    ensures shorter { IfOk result (λ found. IfSome found (λ a. length a.1.now < length words.now)) }
{
    let Some((test, after_test)) = test_after(alloc, words)? else {
        return Ok(None);
    };
    let Some((chosen, after_body)) = body_at(alloc, after_test)? else {
        return Ok(None);
    };
    let (other, rest) = else_at(alloc, after_body)?;
    Ok(Some((Stmt::If(line, test, chosen, other), rest)))
}

/// The body after `else`, where both stand there.
#[cycle(statement)]
fn else_at(alloc: Global, words: &[Token]) -> Result<(Option<Body>, &[Token]), AllocError>
    ensures best { IfOk result (λ a. Best (λ v x. ElseAt words.now v x) (At is_else) (Some (a.0, a.1.now))) }
    ensures shorter { IfOk result (λ a. length a.1.now ≤ length words.now) }
{
    let Some(after_else) = after_keyword(words, Keyword::Else) else {
        return Ok((None, words));
    };
    match body_at(alloc, after_else)? {
        Some((body, rest)) => Ok((Some(body), rest)),
        None => Ok((None, words)),
    }
}

/// The `while` on the line `line` that goes on with these words.
#[cycle(statement)]
fn while_after(
    alloc: Global,
    line: u32,
    words: &[Token],
) -> Result<Option<(Stmt, &[Token])>, AllocError>
    ensures best { IfOk result (λ found. Best (λ v x. WhileAfter line words.now v x) Never (option_map (λ a. (a.0, a.1.now)) found)) }
    ensures shorter { IfOk result (λ found. IfSome found (λ a. length a.1.now < length words.now)) }
{
    let Some((test, after_test)) = test_after(alloc, words)? else {
        return Ok(None);
    };
    let Some((repeated, rest)) = body_at(alloc, after_test)? else {
        return Ok(None);
    };
    Ok(Some((Stmt::While(line, test, repeated), rest)))
}

/// The body that the words begin with, statements in braces or a simple statement, and the words after it.
#[cycle(statement)]
fn body_at(alloc: Global, words: &[Token]) -> Result<Option<(Body, &[Token])>, AllocError>
    ensures best { IfOk result (λ found. Best (λ v x. BodyAt words.now v x) Never (option_map (λ a. (a.0, a.1.now)) found)) }
    ensures shorter { IfOk result (λ found. IfSome found (λ a. length a.1.now < length words.now)) }
{
    let Some(inside) = after_sign(words, Sign::BraceOpen) else {
        let Some((simple, rest)) = simple_at(alloc, words)? else {
            return Ok(None);
        };
        return Ok(Some((Body::Single(simple), rest)));
    };
    let (statements, after) = statements_at(alloc, inside)?;
    let Some(rest) = after_sign(after, Sign::BraceClose) else {
        return Ok(None);
    };
    Ok(Some((Body::Block(statements), rest)))
}
