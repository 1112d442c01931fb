//! The parameters of a function.
ghost use Rattle.std.specs.Prelude.{◌<◌, ◌≤◌, length, Some, IfOk, IfSome};
ghost use Rattle.std.specs.Option.{option_map};
ghost use Rattle.c_tree.specs.Reading.{Best, Never, Each};
ghost use Rattle.c_tree.specs.ItemGrammar.{ParamAt, MoreParamAt};
ghost use Rattle.c_expr.specs.Classes.{At};
ghost use Rattle.c_decl.specs.Classes.{is_comma};
ghost use Rattle.c_decl.specs.Parts.{ListAt, ParamsEnd};

use crate::declarations::{Typed, typed_at};
use crate::lines::line_of;
use c_expr::{after_keyword, after_sign};
use c_tree::{Keyword, Param, Sign, Token};
use sqlite_items::Items;
use std::alloc::{AllocError, Global};

/// The parameters of a function, and whether `void` is written in their place.
#[derive(Drop)]
pub struct Params {
    pub written_void: bool,
    pub params: Items<Param>,
}

/// The parameter that the words begin with, and the words after it.
fn param_at(alloc: Global, words: &[Token]) -> Result<Option<(Param, &[Token])>, AllocError>
    ensures best { IfOk result (λ found. Best (λ v x. ParamAt words.now v x) Never (option_map (λ a. (a.0, a.1.now)) found)) }
    ensures shorter { IfOk result (λ found. IfSome found (λ a. length a.1.now < length words.now)) }
{
    let Some((typed, rest)) = typed_at(alloc, words)? else {
        return Ok(None);
    };
    let Typed { type_name, name } = typed;
    let param = Param {
        line: line_of(words),
        type_name,
        name,
    };
    Ok(Some((param, rest)))
}

/// The parameter after `,`.
fn more_param(alloc: Global, words: &[Token]) -> Result<Option<(Param, &[Token])>, AllocError>
    ensures best { IfOk result (λ found. Best (λ v x. MoreParamAt words.now v x) Never (option_map (λ a. (a.0, a.1.now)) found)) }
    ensures shorter { IfOk result (λ found. IfSome found (λ a. length a.1.now < length words.now)) }
{
    let Some(after_comma) = after_sign(words, Sign::Comma) else {
        return Ok(None);
    };
    let found = param_at(alloc, after_comma)?;
    Ok(found)
}

/// One parameter or more, with commas between them, and the words after them.
fn list_at(alloc: Global, words: &[Token]) -> Result<Option<(Items<Param>, &[Token])>, AllocError>
    ensures best { IfOk result (λ found. Best (λ v x. ListAt words.now v x) (At is_comma) (option_map (λ a. (a.0, a.1.now)) found)) }
    ensures shorter { IfOk result (λ found. IfSome found (λ a. length a.1.now < length words.now)) }
{
    let Some((first, after_first)) = param_at(alloc, words)? else {
        return Ok(None);
    };
    let mut params = Items::new(alloc);
    params.push(first)?;
    let mut rest = after_first;
    while let Some((param, after)) = more_param(alloc, rest)? {
        params.push(param)?;
        rest = after;
    }
    Ok(Some((params, rest)))
}

/// The parameters that the words after `(` begin with, and the words after the `)` that closes them.
pub fn params_at(alloc: Global, words: &[Token]) -> Result<Option<(Params, &[Token])>, AllocError>
    ensures best { IfOk result (λ found. Best (λ v x. ParamsEnd words.now v x) Never (option_map (λ a. (a.0, a.1.now)) found)) }
    ensures shorter { IfOk result (λ found. IfSome found (λ a. length a.1.now < length words.now)) }
{
    if let Some(rest) = after_sign(words, Sign::ParenClose) {
        let none = Params {
            written_void: false,
            params: Items::new(alloc),
        };
        return Ok(Some((none, rest)));
    }
    if let Some(after_void) = after_keyword(words, Keyword::Void) {
        let Some(rest) = after_sign(after_void, Sign::ParenClose) else {
            return Ok(None);
        };
        let written = Params {
            written_void: true,
            params: Items::new(alloc),
        };
        return Ok(Some((written, rest)));
    }
    let Some((params, after_params)) = list_at(alloc, words)? else {
        return Ok(None);
    };
    let Some(rest) = after_sign(after_params, Sign::ParenClose) else {
        return Ok(None);
    };
    let listed = Params {
        written_void: false,
        params,
    };
    Ok(Some((listed, rest)))
}
