//! Expressions by descent: one function for the ten rows of binary operators, and one for each form behind them.
ghost use Rattle.std.specs.Prelude.{◌≡◌, ◌+◌, ◌<◌, ◌≤◌, length, true, Some, IfOk, IfSome};
ghost use Rattle.std.specs.Option.{option_map};
ghost use Rattle.c_tree.specs.Operators.{rows};
ghost use Rattle.c_tree.specs.Reading.{Best, Never};
ghost use Rattle.c_tree.specs.ExpressionGrammar.{Row, RowMore, UnaryExpr, Postfix, PostfixMore, Primary, Closed};
ghost use Rattle.c_expr.specs.ExpressionReading.{opens_type};
ghost use Rattle.c_expr.specs.Strength.{sign_strength, Tighter};

use crate::look::{after_keyword, after_sign};
use crate::members::{member_at, select};
use crate::operators::{binary_at, unary_at};
use crate::singles::{after_null, opens_cast, single_at};
use crate::type_names::type_in_parens;
use c_tree::{Expr, Keyword, Sign, Token};
use sqlite_items::Boxed;
use std::alloc::{AllocError, Global};

/// How many rows of binary operators there are.
const ROWS: u8 = 10;

/// The longest expression of the row `level` that the words begin with, and the words after it. The row 0 is that of
/// whole expressions.
#[cycle(expression)]
pub fn row(
    alloc: Global,
    level: u8,
    words: &[Token],
) -> Result<Option<(Boxed<Expr>, &[Token])>, AllocError>
    requires { level ≤ rows }
    ensures best { IfOk result (λ found. Best (λ v x. Row level words.now v x) (Tighter level) (option_map (λ a. (a.0, a.1.now)) found)) }
    ensures shorter { IfOk result (λ found. IfSome found (λ a. length a.1.now < length words.now)) }
{
    if level == ROWS {
        let last = unary(alloc, words)?;
        return Ok(last);
    }
    let Some((first, rest)) = row(alloc, level + 1, words)? else {
        return Ok(None);
    };
    let (whole, after) = row_more(alloc, level, first, rest)?;
    Ok(Some((whole, after)))
}

/// The operand `first` with the operators of the row that follow, each with its right operand.
#[cycle(expression)]
fn row_more(
    alloc: Global,
    level: u8,
    first: Boxed<Expr>,
    words: &[Token],
) -> Result<(Boxed<Expr>, &[Token]), AllocError>
    requires { level < rows }
    ensures best { IfOk result (λ a. Best (λ v x. RowMore level first words.now v x) (Tighter level) (Some (a.0, a.1.now))) }
    ensures shorter { IfOk result (λ a. length a.1.now ≤ length words.now) }
{
    let mut left = first;
    let mut rest = words;
    while let Some((operator, after_operator)) = binary_at(rest, level) {
        let Some((right, after)) = row(alloc, level + 1, after_operator)? else {
            return Ok((left, rest));
        };
        left = Boxed::new(alloc, Expr::Binary(operator, left, right))?;
        rest = after;
    }
    Ok((left, rest))
}

/// The longest unary expression that the words begin with, and the words after it.
#[cycle(expression)]
pub fn unary(alloc: Global, words: &[Token]) -> Result<Option<(Boxed<Expr>, &[Token])>, AllocError>
    ensures best { IfOk result (λ found. Best (λ v x. UnaryExpr words.now v x) (Tighter rows) (option_map (λ a. (a.0, a.1.now)) found)) }
    ensures shorter { IfOk result (λ found. IfSome found (λ a. length a.1.now < length words.now)) }
{
    if let Some((operator, after_operator)) = unary_at(words) {
        let Some((operand, rest)) = unary(alloc, after_operator)? else {
            return Ok(None);
        };
        let prefixed = Boxed::new(alloc, Expr::Unary(operator, operand))?;
        return Ok(Some((prefixed, rest)));
    }
    if let Some(after_word) = after_keyword(words, Keyword::Sizeof) {
        let Some((measured, rest)) = type_in_parens(alloc, after_word)? else {
            return Ok(None);
        };
        let size = Boxed::new(alloc, Expr::Sizeof(measured))?;
        return Ok(Some((size, rest)));
    }
    if opens_cast(words) {
        let converted = cast(alloc, words)?;
        return Ok(converted);
    }
    let plain = postfix(alloc, words)?;
    Ok(plain)
}

/// The longest cast that the words begin with, and the words after it.
#[cycle(expression)]
fn cast(alloc: Global, words: &[Token]) -> Result<Option<(Boxed<Expr>, &[Token])>, AllocError>
    requires { opens_type words.now ≡ true }
    ensures best { IfOk result (λ found. Best (λ v x. UnaryExpr words.now v x) (Tighter rows) (option_map (λ a. (a.0, a.1.now)) found)) }
    ensures shorter { IfOk result (λ found. IfSome found (λ a. length a.1.now < length words.now)) }
{
    let Some((target, after_type)) = type_in_parens(alloc, words)? else {
        return Ok(None);
    };
    let Some((operand, rest)) = unary(alloc, after_type)? else {
        return Ok(None);
    };
    let converted = Boxed::new(alloc, Expr::Cast(target, operand))?;
    Ok(Some((converted, rest)))
}

/// The longest postfix expression that the words begin with, and the words after it.
#[cycle(expression)]
fn postfix(alloc: Global, words: &[Token]) -> Result<Option<(Boxed<Expr>, &[Token])>, AllocError>
    ensures best { IfOk result (λ found. Best (λ v x. Postfix words.now v x) (Tighter rows) (option_map (λ a. (a.0, a.1.now)) found)) }
    ensures shorter { IfOk result (λ found. IfSome found (λ a. length a.1.now < length words.now)) }
{
    let Some((first, rest)) = primary(alloc, words)? else {
        return Ok(None);
    };
    let (whole, after) = postfix_more(alloc, first, rest)?;
    Ok(Some((whole, after)))
}

/// The operand `first` with the fields and indices that follow.
#[cycle(expression)]
fn postfix_more(
    alloc: Global,
    first: Boxed<Expr>,
    words: &[Token],
) -> Result<(Boxed<Expr>, &[Token]), AllocError>
    ensures best { IfOk result (λ a. Best (λ v x. PostfixMore first words.now v x) (Tighter rows) (Some (a.0, a.1.now))) }
    ensures shorter { IfOk result (λ a. length a.1.now ≤ length words.now) }
{
    let mut left = first;
    let mut rest = words;
    loop {
        if let Some((member, after_member)) = member_at(rest) {
            left = select(alloc, left, member)?;
            rest = after_member;
        } else if let Some(inside) = after_sign(rest, Sign::BracketOpen) {
            let Some((index, after_index)) = closed(alloc, inside, Sign::BracketClose)? else {
                return Ok((left, rest));
            };
            left = Boxed::new(alloc, Expr::Index(left, index))?;
            rest = after_index;
        } else {
            return Ok((left, rest));
        }
    }
}

/// The longest primary expression that the words begin with, and the words after it.
#[cycle(expression)]
fn primary(alloc: Global, words: &[Token]) -> Result<Option<(Boxed<Expr>, &[Token])>, AllocError>
    ensures best { IfOk result (λ found. Best (λ v x. Primary words.now v x) Never (option_map (λ a. (a.0, a.1.now)) found)) }
    ensures shorter { IfOk result (λ found. IfSome found (λ a. length a.1.now < length words.now)) }
{
    if let Some((single, after_single)) = single_at(alloc, words)? {
        return Ok(Some((single, after_single)));
    }
    if let Some(after_zero) = after_null(words) {
        let null = Boxed::new(alloc, Expr::Null)?;
        return Ok(Some((null, after_zero)));
    }
    let Some(inside) = after_sign(words, Sign::ParenOpen) else {
        return Ok(None);
    };
    let Some((inner, rest)) = closed(alloc, inside, Sign::ParenClose)? else {
        return Ok(None);
    };
    let grouped = Boxed::new(alloc, Expr::Grouped(inner))?;
    Ok(Some((grouped, rest)))
}

/// The expression that the words begin with where the sign `sign` closes it, and the words after the sign. No
/// expression goes on at that sign.
#[cycle(expression)]
pub fn closed(
    alloc: Global,
    words: &[Token],
    sign: Sign,
) -> Result<Option<(Boxed<Expr>, &[Token])>, AllocError>
    requires { sign_strength sign ≡ 0 }
    ensures best { IfOk result (λ found. Best (λ v x. Closed sign words.now v x) Never (option_map (λ a. (a.0, a.1.now)) found)) }
    ensures shorter { IfOk result (λ found. IfSome found (λ a. length a.1.now < length words.now)) }
{
    let Some((inner, after)) = row(alloc, 0, words)? else {
        return Ok(None);
    };
    let Some(rest) = after_sign(after, sign) else {
        return Ok(None);
    };
    Ok(Some((inner, rest)))
}
