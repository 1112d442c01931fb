//! Functions and prototypes, behind the name that they begin with.
ghost use Rattle.std.specs.Prelude.{◌≡◌, ◌<◌, ◌≤◌, length, Some, IfOk, IfSome};
ghost use Rattle.std.specs.Option.{option_map};
ghost use Rattle.c_tree.specs.Reading.{Best, Never};
ghost use Rattle.c_tree.specs.ItemGrammar.{ResultAt, added_return as the_return};
ghost use Rattle.c_expr.specs.Classes.{At, is_after_unsigned};
ghost use Rattle.c_decl.specs.Items.{static_of, StartAt, DeclaredAt, FunctionAfter, BodyAfter, head_with};

use crate::declarations::locals_at;
use crate::lines::line_of;
use crate::params::{Params, params_at};
use crate::statements::statements_at;
use c_expr::{after_keyword, after_sign, base_at, name_at, stars_at};
use c_tree::{
    Action, Expr, Function, Head, Item, Keyword, Number, ResultBase, Sign, Simple, Star, Stmt,
    Suffix, Token,
};
use sd_base::Name;
use sqlite_items::{Boxed, Items};
use std::alloc::{AllocError, Global};

/// What globals and functions begin with: a type, perhaps `void`, and a name.
#[derive(Drop)]
pub struct Start {
    pub is_static: bool,
    pub result: ResultBase,
    pub stars: Items<Star>,
    pub name: Name,
}

/// Whether `static` stands first, and the words after it.
fn static_at(words: &[Token]) -> (bool, &[Token])
    ensures exact { (result.0, result.1.now) ≡ static_of words.now }
    ensures shorter { length result.1.now ≤ length words.now }
{
    match after_keyword(words, Keyword::Static) {
        Some(rest) => (true, rest),
        None => (false, words),
    }
}

/// The base or `void` that the words begin with.
fn result_at(words: &[Token]) -> Option<(ResultBase, &[Token])>
    ensures best { Best (λ v x. ResultAt words.now v x) (At is_after_unsigned) (option_map (λ a. (a.0, a.1.now)) result) }
    ensures shorter { IfSome result (λ a. length a.1.now < length words.now) }
{
    if let Some(rest) = after_keyword(words, Keyword::Void) {
        return Some((ResultBase::Void, rest));
    }
    let Some((base, rest)) = base_at(words) else {
        return None;
    };
    Some((ResultBase::Base(base), rest))
}

/// The type and the name that a global or a function begins with, and the words after them.
pub fn start_at(alloc: Global, words: &[Token]) -> Result<Option<(Start, &[Token])>, AllocError>
    ensures best { IfOk result (λ found. Best (λ v x. StartAt words.now v x) Never (option_map (λ a. (a.0, a.1.now)) found)) }
    ensures shorter { IfOk result (λ found. IfSome found (λ a. length a.1.now < length words.now)) }
{
    let (is_static, declared) = static_at(words);
    let found = declared_at(alloc, is_static, declared)?;
    Ok(found)
}

/// The type and the name that the words begin with, where `is_static` says what stands before them.
fn declared_at(
    alloc: Global,
    is_static: bool,
    words: &[Token],
) -> Result<Option<(Start, &[Token])>, AllocError>
    ensures best { IfOk result (λ found. Best (λ v x. DeclaredAt is_static words.now v x) Never (option_map (λ a. (a.0, a.1.now)) found)) }
    ensures shorter { IfOk result (λ found. IfSome found (λ a. length a.1.now < length words.now)) }
{
    let Some((base, after_result)) = result_at(words) else {
        return Ok(None);
    };
    let (stars, after_stars) = stars_at(alloc, after_result)?;
    let Some(named) = name_at(after_stars) else {
        return Ok(None);
    };
    let (name, rest) = named;
    let start = Start {
        is_static,
        result: base,
        stars,
        name,
    };
    Ok(Some((start, rest)))
}

/// The head of the function that begins so and has these parameters.
fn head_of(line: u32, start: Start, params: Params) -> Head
    ensures { result ≡ head_with line start params }
{
    let Start {
        is_static,
        result,
        stars,
        name,
    } = start;
    let Params {
        written_void,
        params,
    } = params;
    Head {
        line,
        is_static,
        result,
        stars,
        name,
        written_void,
        params,
    }
}

/// The function or prototype that begins with `start` and `(` on the line `line`, and the words after it.
pub fn function_after(
    alloc: Global,
    line: u32,
    start: Start,
    words: &[Token],
) -> Result<Option<(Item, &[Token])>, AllocError>
    ensures best { IfOk result (λ found. Best (λ v x. FunctionAfter line start words.now v x) Never (option_map (λ a. (a.0, a.1.now)) found)) }
    ensures shorter { IfOk result (λ found. IfSome found (λ a. length a.1.now < length words.now)) }
{
    let Some((params, after_head)) = params_at(alloc, words)? else {
        return Ok(None);
    };
    let head = head_of(line, start, params);
    if let Some(rest) = after_sign(after_head, Sign::Semicolon) {
        return Ok(Some((Item::Prototype(head), rest)));
    }
    let Some(inside) = after_sign(after_head, Sign::BraceOpen) else {
        return Ok(None);
    };
    let found = body_after(alloc, head, inside)?;
    Ok(found)
}

/// The function of this head with the body that the words after `{` begin with, and the words after it.
fn body_after(
    alloc: Global,
    head: Head,
    words: &[Token],
) -> Result<Option<(Item, &[Token])>, AllocError>
    ensures best { IfOk result (λ found. Best (λ v x. BodyAfter head words.now v x) Never (option_map (λ a. (a.0, a.1.now)) found)) }
    ensures shorter { IfOk result (λ found. IfSome found (λ a. length a.1.now < length words.now)) }
{
    let (locals, after_locals) = locals_at(alloc, words)?;
    let (mut body, closing) = statements_at(alloc, after_locals)?;
    let Some(rest) = after_sign(closing, Sign::BraceClose) else {
        return Ok(None);
    };
    let end = line_of(closing);
    let added = added_return(alloc, &head, end)?;
    body.push(added)?;
    let function = Function {
        head,
        locals,
        body,
        end,
    };
    Ok(Some((Item::Function(function), rest)))
}

/// The `return` that is added at the end of a body, on the line of its closing brace. It gives 0 where the result is
/// not `void`.
fn added_return(alloc: Global, head: &Head, line: u32) -> Result<Stmt, AllocError>
    ensures { IfOk result (λ added. added ≡ the_return head.now line) }
{
    let gives_nothing = match &head.result {
        ResultBase::Void => head.stars.is_empty(),
        ResultBase::Base(_) => false,
    };
    if gives_nothing {
        let action = Action::Return(None);
        return Ok(Stmt::Simple(Simple { line, action }));
    }
    let zero = Number {
        value: 0,
        suffix: Suffix::Plain,
    };
    let value = Boxed::new(alloc, Expr::Number(zero))?;
    let action = Action::Return(Some(value));
    Ok(Stmt::Simple(Simple { line, action }))
}
