//! Types with the names that they are declared with, arrays' sizes, and locals.
ghost use Rattle.std.specs.Prelude.{◌≡◌, ◌<◌, ◌≤◌, length, Some, IfOk, IfSome};
ghost use Rattle.std.specs.Option.{option_map};
ghost use Rattle.c_tree.specs.Reading.{Best, Never, Each};
ghost use Rattle.c_tree.specs.ItemGrammar.{DeclarationAt, LocalAt};
ghost use Rattle.c_expr.specs.Classes.{At, is_base};
ghost use Rattle.c_decl.specs.Classes.{is_bracket};
ghost use Rattle.c_decl.specs.Parts.{TypedAt};

use crate::constants::size_at;
use crate::lines::line_of;
use c_expr::{after_sign, name_at, type_name_at};
use c_tree::{Declaration, Local, Sign, Token, TypeName};
use sd_base::Name;
use sqlite_items::Items;
use std::alloc::{AllocError, Global};

/// A type and the name that it is declared with.
#[derive(Drop)]
pub struct Typed {
    pub type_name: TypeName,
    pub name: Name,
}

/// The type and the name that the words begin with, and the words after them.
pub fn typed_at(alloc: Global, words: &[Token]) -> Result<Option<(Typed, &[Token])>, AllocError>
    ensures best { IfOk result (λ found. Best (λ v x. TypedAt words.now v x) Never (option_map (λ a. (a.0, a.1.now)) found)) }
    ensures shorter { IfOk result (λ found. IfSome found (λ a. length a.1.now < length words.now)) }
{
    let Some((type_name, after_type)) = type_name_at(alloc, words)? else {
        return Ok(None);
    };
    let Some(named) = name_at(after_type) else {
        return Ok(None);
    };
    let (name, rest) = named;
    Ok(Some((Typed { type_name, name }, rest)))
}

/// The declared object that the words begin with, and the words after it.
pub fn declaration_at(
    alloc: Global,
    words: &[Token],
) -> Result<Option<(Declaration, &[Token])>, AllocError>
    ensures best { IfOk result (λ found. Best (λ v x. DeclarationAt words.now v x) (At is_bracket) (option_map (λ a. (a.0, a.1.now)) found)) }
    ensures shorter { IfOk result (λ found. IfSome found (λ a. length a.1.now < length words.now)) }
{
    let Some((typed, after_name)) = typed_at(alloc, words)? else {
        return Ok(None);
    };
    let (size, rest) = size_at(after_name);
    let Typed { type_name, name } = typed;
    let declaration = Declaration {
        type_name,
        name,
        size,
    };
    Ok(Some((declaration, rest)))
}

/// The local that the words begin with, and the words after its `;`.
pub fn local_at(alloc: Global, words: &[Token]) -> Result<Option<(Local, &[Token])>, AllocError>
    ensures best { IfOk result (λ found. Best (λ v x. LocalAt words.now v x) Never (option_map (λ a. (a.0, a.1.now)) found)) }
    ensures shorter { IfOk result (λ found. IfSome found (λ a. length a.1.now < length words.now)) }
{
    let Some((typed, after_name)) = typed_at(alloc, words)? else {
        return Ok(None);
    };
    let Some(rest) = after_sign(after_name, Sign::Semicolon) else {
        return Ok(None);
    };
    let Typed { type_name, name } = typed;
    let local = Local {
        line: line_of(words),
        type_name,
        name,
    };
    Ok(Some((local, rest)))
}

/// The locals that the words begin with, as many as there are, and the words after them.
pub fn locals_at(alloc: Global, words: &[Token]) -> Result<(Items<Local>, &[Token]), AllocError>
    ensures best { IfOk result (λ a. Best (λ v x. Each LocalAt words.now v x) (At is_base) (Some (a.0, a.1.now))) }
    ensures shorter { IfOk result (λ a. length a.1.now ≤ length words.now) }
{
    let mut locals = Items::new(alloc);
    let mut rest = words;
    while let Some((local, after)) = local_at(alloc, rest)? {
        locals.push(local)?;
        rest = after;
    }
    Ok((locals, rest))
}
