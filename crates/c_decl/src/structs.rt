//! Arms, fields and structs.
ghost use Rattle.std.specs.Prelude.{◌≡◌, ◌<◌, ◌≤◌, length, Some, IfOk, IfSome};
ghost use Rattle.std.specs.Option.{option_map};
ghost use Rattle.c_tree.specs.Reading.{Best, Never, Each};
ghost use Rattle.c_tree.specs.ItemGrammar.{ArmAt, FieldAt};
ghost use Rattle.c_expr.specs.Classes.{At, is_base};
ghost use Rattle.c_decl.specs.Classes.{is_field};
ghost use Rattle.c_decl.specs.Parts.{PlainAt, NamedEnd, ArmsAt, FieldsAt, UnionAt};

use crate::constants::case_at;
use crate::declarations::{Typed, declaration_at, typed_at};
use crate::lines::line_of;
use c_expr::{after_keyword, after_sign, name_at};
use c_tree::{Arm, Declaration, Field, Keyword, Sign, Token};
use sd_base::Name;
use sqlite_items::Items;
use std::alloc::{AllocError, Global};

/// The arm of a union that the words begin with, and the words after its `;`.
pub fn arm_at(alloc: Global, words: &[Token]) -> Result<Option<(Arm, &[Token])>, AllocError>
    ensures best { IfOk result (λ found. Best (λ v x. ArmAt words.now v x) Never (option_map (λ a. (a.0, a.1.now)) found)) }
    ensures shorter { IfOk result (λ found. IfSome found (λ a. length a.1.now < length words.now)) }
{
    let Some((typed, after_name)) = typed_at(alloc, words)? else {
        return Ok(None);
    };
    let Some((case, rest)) = case_at(after_name) else {
        return Ok(None);
    };
    let Typed { type_name, name } = typed;
    let arm = Arm {
        line: line_of(words),
        type_name,
        name,
        tag: case.tag,
        value: case.value,
    };
    Ok(Some((arm, rest)))
}

/// The arms that the words begin with, as many as there are, and the words after them.
fn arms_at(alloc: Global, words: &[Token]) -> Result<(Items<Arm>, &[Token]), AllocError>
    ensures best { IfOk result (λ a. Best (λ v x. Each ArmAt words.now v x) (At is_base) (Some (a.0, a.1.now))) }
    ensures shorter { IfOk result (λ a. length a.1.now ≤ length words.now) }
{
    let mut arms = Items::new(alloc);
    let mut rest = words;
    while let Some((arm, after)) = arm_at(alloc, rest)? {
        arms.push(arm)?;
        rest = after;
    }
    Ok((arms, rest))
}

/// One arm or more, and the brace that closes them.
fn braced_arms(alloc: Global, words: &[Token]) -> Result<Option<(Items<Arm>, &[Token])>, AllocError>
    ensures best { IfOk result (λ found. Best (λ v x. ArmsAt words.now v x) Never (option_map (λ a. (a.0, a.1.now)) found)) }
    ensures shorter { IfOk result (λ found. IfSome found (λ a. length a.1.now < length words.now)) }
{
    let (arms, after_arms) = arms_at(alloc, words)?;
    if arms.is_empty() {
        return Ok(None);
    }
    let Some(rest) = after_sign(after_arms, Sign::BraceClose) else {
        return Ok(None);
    };
    Ok(Some((arms, rest)))
}

/// A name and `;`.
fn named_end(words: &[Token]) -> Option<(Name, &[Token])>
    ensures best { Best (λ v x. NamedEnd words.now v x) Never (option_map (λ a. (a.0, a.1.now)) result) }
    ensures shorter { IfSome result (λ a. length a.1.now < length words.now) }
{
    let Some(named) = name_at(words) else {
        return None;
    };
    let (name, after_name) = named;
    let Some(rest) = after_sign(after_name, Sign::Semicolon) else {
        return None;
    };
    Some((name, rest))
}

/// The union that the words after `union` are, and the words after its `;`.
fn union_after(
    alloc: Global,
    line: u32,
    words: &[Token],
) -> Result<Option<(Field, &[Token])>, AllocError>
    ensures best { IfOk result (λ found. Best (λ v x. UnionAt line words.now v x) Never (option_map (λ a. (a.0, a.1.now)) found)) }
    ensures shorter { IfOk result (λ found. IfSome found (λ a. length a.1.now < length words.now)) }
{
    let Some(inside) = after_sign(words, Sign::BraceOpen) else {
        return Ok(None);
    };
    let Some((arms, after_arms)) = braced_arms(alloc, inside)? else {
        return Ok(None);
    };
    let Some(named) = named_end(after_arms) else {
        return Ok(None);
    };
    let (name, rest) = named;
    Ok(Some((Field::Union(line, arms, name), rest)))
}

/// A declared object and `;`.
fn plain_at(alloc: Global, words: &[Token]) -> Result<Option<(Declaration, &[Token])>, AllocError>
    ensures best { IfOk result (λ found. Best (λ v x. PlainAt words.now v x) Never (option_map (λ a. (a.0, a.1.now)) found)) }
    ensures shorter { IfOk result (λ found. IfSome found (λ a. length a.1.now < length words.now)) }
{
    let Some((declaration, after)) = declaration_at(alloc, words)? else {
        return Ok(None);
    };
    let Some(rest) = after_sign(after, Sign::Semicolon) else {
        return Ok(None);
    };
    Ok(Some((declaration, rest)))
}

/// The field of a struct that the words begin with, and the words after its `;`.
pub fn field_at(alloc: Global, words: &[Token]) -> Result<Option<(Field, &[Token])>, AllocError>
    ensures best { IfOk result (λ found. Best (λ v x. FieldAt words.now v x) Never (option_map (λ a. (a.0, a.1.now)) found)) }
    ensures shorter { IfOk result (λ found. IfSome found (λ a. length a.1.now < length words.now)) }
{
    let line = line_of(words);
    if let Some(after_union) = after_keyword(words, Keyword::Union) {
        let found = union_after(alloc, line, after_union)?;
        return Ok(found);
    }
    let Some((declaration, rest)) = plain_at(alloc, words)? else {
        return Ok(None);
    };
    Ok(Some((Field::Plain(line, declaration), rest)))
}

/// The fields that the words begin with, as many as there are, and the words after them.
fn fields_at(alloc: Global, words: &[Token]) -> Result<(Items<Field>, &[Token]), AllocError>
    ensures best { IfOk result (λ a. Best (λ v x. Each FieldAt words.now v x) (At is_field) (Some (a.0, a.1.now))) }
    ensures shorter { IfOk result (λ a. length a.1.now ≤ length words.now) }
{
    let mut fields = Items::new(alloc);
    let mut rest = words;
    while let Some((field, after)) = field_at(alloc, rest)? {
        fields.push(field)?;
        rest = after;
    }
    Ok((fields, rest))
}

/// One field or more, the brace that closes them, and `;`.
pub fn braced_fields(
    alloc: Global,
    words: &[Token],
) -> Result<Option<(Items<Field>, &[Token])>, AllocError>
    ensures best { IfOk result (λ found. Best (λ v x. FieldsAt words.now v x) Never (option_map (λ a. (a.0, a.1.now)) found)) }
    ensures shorter { IfOk result (λ found. IfSome found (λ a. length a.1.now < length words.now)) }
{
    let (fields, after_fields) = fields_at(alloc, words)?;
    if fields.is_empty() {
        return Ok(None);
    }
    let Some(after_brace) = after_sign(after_fields, Sign::BraceClose) else {
        return Ok(None);
    };
    let Some(rest) = after_sign(after_brace, Sign::Semicolon) else {
        return Ok(None);
    };
    Ok(Some((fields, rest)))
}
