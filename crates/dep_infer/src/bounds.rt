//! `auto_bounds`: which slots a function has.
ghost use Rattle.std.specs.Prelude.{◌≡◌, ◌+◌, ◌<◌, ◌^◌, None, Some, IfOk, if◌then◌else◌};
ghost use Rattle.c_tree.specs.ShortUnit.{IsShortFunction};
ghost use Rattle.c_tree.specs.Slots.{locals_of, is_automatic as automatic};
ghost use Rattle.dep_infer.specs.Found.{IsPair};

use crate::LocalTable;
use c_tree::{Function, Local};
use sd_base::Memory;
use std::alloc::Global;

/// The slots of a function: its parameters, its locals, then two hidden slots for each local pointer that is written
/// without bounds of its own, each kind in the order of the text.
///
/// Names may clash. The only refusal is want of memory.
pub fn auto_bounds(alloc: Global, f: &Function) -> Result<LocalTable, Memory>
    requires { IsShortFunction f.now }
    ensures { IfOk result (λ t. t ≡ locals_of f.now) }
{
    let params = f.head.params.as_slice();
    let locals = f.locals.as_slice();
    let mut table = LocalTable::new(alloc);
    for param in params {
        table.declare(&param.name, None)?;
    }
    let mut next = params.len() as u32 + locals.len() as u32;
    for local in locals {
        let hidden = take_hidden(local, &mut next);
        table.declare(&local.name, hidden)?;
    }
    Ok(table)
}

/// The first of a local's two hidden slots, if it has any, where `next` is the first that is free.
fn take_hidden(local: &Local, next: &mut u32) -> Option<u32>
    requires { next.old + 2 < 2 ^ 32 }
    ensures slot { result ≡ if automatic local.now then Some next.old else None }
    ensures pair { IsPair result }
    ensures next { next.new ≡ if automatic local.now then next.old + 2 else next.old }
{
    if !is_automatic(local) {
        return None;
    }
    let first = *next;
    *next = first + 2;
    Some(first)
}

/// Whether a local is a pointer that is written without bounds of its own.
pub fn is_automatic(local: &Local) -> bool
    ensures { result ≡ automatic local.now }
{
    match local.type_name.stars.as_slice().last() {
        Some(star) => star.annotation.is_none(),
        None => false,
    }
}
