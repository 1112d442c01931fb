//! Which heads, parameters and locals stand, and the line of the first that does not.
ghost use Rattle.std.specs.Prelude.{◌≡◌, ◌&&◌, ◌<◌, ◌^◌, length, Some, IfOk, is_some, option_copied};
ghost use Rattle.deputy_rules.specs.Agreement as agreement;
ghost use Rattle.deputy_rules.specs.Heads as spec;

use crate::agreement::agree;
use crate::declared::result_of;
use crate::head_parameters::is_declared;
use crate::texts::SeenText;
use c_tree::{Function, Head, Local, Param};
use checked_tree::{Shape, kernel_named};
use dep_infer::LocalTable;
use deputy_types::NameList;
use sd_base::{Memory, Name};
use std::alloc::Global;

/// Whether a head agrees with the first head of its name.
fn agrees_with(structs: &NameList, first: Option<&Head>, h: &Head) -> bool
    ensures { result ≡ spec.agrees_with structs.now (option_copied first.entry) h.now }
{
    match first {
        Some(g) => agree(structs, g, h),
        None => true,
    }
}

/// Whether a result is derived, of a head that agrees with the first one of its name.
fn agreed_stands(alloc: Global, text: &SeenText<'_>, h: &Head) -> Result<bool, Memory>
    ensures { IfOk result (λ b. b ≡ (spec.agrees_with text.now.table.types.structs (spec.first_head text.now.items h.now.name) h.now && is_some (spec.result_of text.now.table h.now))) }
{
    if agrees_with(&text.table.types().structs, text.first_head(&h.name), h) {
        match result_of(alloc, text.table, h)? {
            Some(_) => Ok(true),
            None => Ok(false),
        }
    } else {
        Ok(false)
    }
}

/// Whether a head stands: no kernel call and no global has its name, it agrees with the first head of its name, and its result is derived. The only refusal is want of
/// memory.
#[tactic(auto, unfolding(deputy_rules::specs::Heads::head_stands))]
pub fn head_stands(alloc: Global, text: &SeenText<'_>, h: &Head) -> Result<bool, Memory>
    ensures { IfOk result (λ b. b ≡ spec.head_stands text.now h.now) }
{
    match kernel_named(&h.name) {
        Some(_) => Ok(false),
        None => match text.table.global(&h.name) {
            Some(_) => Ok(false),
            None => agreed_stands(alloc, text, h),
        },
    }
}

/// Whether a number is this one.
fn is_at(number: Option<u32>, k: usize) -> bool
    ensures { result ≡ agreement.same_place number (Some k) }
{
    match number {
        Some(n) => n as usize == k,
        None => false,
    }
}

/// Whether the head of the k-th function with a body stands: none before it has its name. The only refusal is want of memory.
#[tactic(auto, unfolding(deputy_rules::specs::Heads::function_stands))]
pub fn function_stands(
    alloc: Global,
    text: &SeenText<'_>,
    k: usize,
    h: &Head,
) -> Result<bool, Memory>
    ensures { IfOk result (λ b. b ≡ spec.function_stands text.now k h.now) }
{
    if head_stands(alloc, text, h)? {
        Ok(is_at(text.functions.number(&h.name), k))
    } else {
        Ok(false)
    }
}

/// Whether the i-th parameter or local stands: it is the first that has its name, and its shape is derived.
#[tactic(auto, unfolding(deputy_rules::specs::Heads::declaration_stands))]
fn declaration_stands(locals: &LocalTable, shapes: &[Option<Shape>], i: usize, name: &Name) -> bool
    ensures { result ≡ spec.declaration_stands locals.now shapes.now i name.now }
{
    is_at(locals.slot(name), i) && is_declared(shapes, i)
}

/// The line of the first parameter that does not stand.
fn wrong_parameter(locals: &LocalTable, shapes: &[Option<Shape>], params: &[Param]) -> Option<u32>
    ensures { result ≡ spec.wrong_parameter locals.now shapes.now 0 params.now }
{
    for (i, param) in params.iter().enumerate() {
        if !declaration_stands(locals, shapes, i, &param.name) {
            return Some(param.line);
        }
    }
    None
}

/// The line of the first local that does not stand, where `start` is the slot of the first local.
fn wrong_local(
    locals: &LocalTable,
    shapes: &[Option<Shape>],
    start: usize,
    list: &[Local],
) -> Option<u32>
    requires { start < 2 ^ 32 }
    ensures { result ≡ spec.wrong_local locals.now shapes.now start list.now }
{
    for (i, local) in list.iter().enumerate() {
        if !declaration_stands(locals, shapes, start + i, &local.name) {
            return Some(local.line);
        }
    }
    None
}

/// The line of the first parameter or local of a function that does not stand.
#[tactic(auto, unfolding(deputy_rules::specs::Heads::wrong_declaration))]
pub fn wrong_declaration(locals: &LocalTable, shapes: &[Option<Shape>], f: &Function) -> Option<u32>
    requires { length f.now.head.params < 2 ^ 32 }
    ensures { result ≡ spec.wrong_declaration locals.now shapes.now f.now }
{
    let params = f.head.params.as_slice();
    match wrong_parameter(locals, shapes, params) {
        Some(line) => Some(line),
        None => wrong_local(locals, shapes, params.len(), f.locals.as_slice()),
    }
}
