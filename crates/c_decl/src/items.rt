//! The items of a text: structs, globals, functions and prototypes.
ghost use Rattle.std.specs.Prelude.{◌≡◌, ◌<◌, length, IfOk, IfSome};
ghost use Rattle.std.specs.Option.{option_map};
ghost use Rattle.c_tree.specs.Reading.{Best, Never};
ghost use Rattle.c_tree.specs.ItemGrammar.{ItemAt};
ghost use Rattle.c_decl.specs.Items.{struct_opened_of, StructAfter, GlobalAfter};

use crate::constants::{size_at, value_at};
use crate::functions::{Start, function_after, start_at};
use crate::lines::line_of;
use crate::structs::braced_fields;
use c_expr::{after_keyword, after_sign, name_at};
use c_tree::{
    Declaration, GlobalItem, Item, Keyword, ResultBase, Sign, StructItem, Token, TypeName,
};
use sd_base::Name;
use std::alloc::{AllocError, Global};

/// The item that the words begin with, and the words after it.
pub fn item_at(alloc: Global, words: &[Token]) -> Result<Option<(Item, &[Token])>, AllocError>
    ensures best { IfOk result (λ found. Best (λ v x. ItemAt words.now v x) Never (option_map (λ a. (a.0, a.1.now)) found)) }
    ensures shorter { IfOk result (λ found. IfSome found (λ a. length a.1.now < length words.now)) }
{
    let line = line_of(words);
    if let Some(opened) = struct_opened(words) {
        let (name, inside) = opened;
        let found = struct_after(alloc, line, name, inside)?;
        return Ok(found);
    }
    let Some((start, after_start)) = start_at(alloc, words)? else {
        return Ok(None);
    };
    if let Some(inside) = after_sign(after_start, Sign::ParenOpen) {
        let found = function_after(alloc, line, start, inside)?;
        return Ok(found);
    }
    let found = global_after(line, start, after_start);
    Ok(found)
}

/// The name of the struct that is declared here, where the words begin with `struct`, a name and `{`.
fn struct_opened(words: &[Token]) -> Option<(Name, &[Token])>
    ensures exact { option_map (λ a. (a.0, a.1.now)) result ≡ struct_opened_of words.now }
    ensures shorter { IfSome result (λ a. length a.1.now < length words.now) }
{
    let after_struct = after_keyword(words, Keyword::Struct)?;
    let Some(named) = name_at(after_struct) else {
        return None;
    };
    let (name, after_name) = named;
    let inside = after_sign(after_name, Sign::BraceOpen)?;
    Some((name, inside))
}

/// The struct of this name with the fields that the words after `{` begin with.
fn struct_after(
    alloc: Global,
    line: u32,
    name: Name,
    words: &[Token],
) -> Result<Option<(Item, &[Token])>, AllocError>
    ensures best { IfOk result (λ found. Best (λ v x. StructAfter line name words.now v x) Never (option_map (λ a. (a.0, a.1.now)) found)) }
    ensures shorter { IfOk result (λ found. IfSome found (λ a. length a.1.now < length words.now)) }
{
    let Some((fields, rest)) = braced_fields(alloc, words)? else {
        return Ok(None);
    };
    let item = StructItem { line, name, fields };
    Ok(Some((Item::Struct(item), rest)))
}

/// The global that begins with `start` on the line `line`, and the words after its `;`.
fn global_after(line: u32, start: Start, words: &[Token]) -> Option<(Item, &[Token])>
    ensures best { Best (λ v x. GlobalAfter line start words.now v x) Never (option_map (λ a. (a.0, a.1.now)) result) }
    ensures shorter { IfSome result (λ a. length a.1.now < length words.now) }
{
    let Start {
        is_static,
        result,
        stars,
        name,
    } = start;
    let ResultBase::Base(base) = result else {
        return None;
    };
    let (size, after_size) = size_at(words);
    let (value, after_value) = value_at(after_size);
    let Some(rest) = after_sign(after_value, Sign::Semicolon) else {
        return None;
    };
    let type_name = TypeName { base, stars };
    let declaration = Declaration {
        type_name,
        name,
        size,
    };
    let global = GlobalItem {
        line,
        is_static,
        declaration,
        value,
    };
    Some((Item::Global(global), rest))
}
