//! What expressions and statements hold, in text order: the types of elements and the strings.
ghost use Rattle.std.specs.Prelude.{◌≡◌, OnOk, option_copied, option_map};
ghost use Rattle.deputy_types.specs.Found as spec;

use crate::found_types::{add_types, add_whole_type};
use c_tree::{Action, Body, Expr, Stmt};
use deputy_types::{Found, NameList};
use sd_base::Memory;
use sqlite_items::Items;
use std::alloc::Global;

/// Adds a string.
fn add_string(alloc: Global, bytes: &[u8], found: &mut Found) -> Result<(), Memory>
    ensures { OnOk result (found.new ≡ spec.found_string bytes.now found.old) }
{
    let copy = Items::from_slice(alloc, bytes)?;
    found.strings.push(copy)
}

/// Adds what stands in an expression.
#[tactic(auto, unfolding(deputy_types::specs::Found::found_expr))]
fn add_expr(alloc: Global, structs: &NameList, expr: &Expr, found: &mut Found) -> Result<(), Memory>
    ensures { OnOk result (found.new ≡ spec.found_expr structs.now expr.now found.old) }
{
    match expr {
        Expr::Number(_) => Ok(()),
        Expr::Character(_) => Ok(()),
        Expr::String(bytes, _) => add_string(alloc, bytes.as_slice(), found),
        Expr::Name(_) => Ok(()),
        Expr::Grouped(inner) => add_expr(alloc, structs, inner.get(), found),
        Expr::Null => Ok(()),
        Expr::Unary(_, inner) => add_expr(alloc, structs, inner.get(), found),
        Expr::Binary(_, left, right) => {
            add_expr(alloc, structs, left.get(), found)?;
            add_expr(alloc, structs, right.get(), found)
        }
        Expr::Cast(type_name, inner) => {
            add_types(structs, &mut found.elements, type_name)?;
            add_expr(alloc, structs, inner.get(), found)
        }
        Expr::Sizeof(type_name) => add_types(structs, &mut found.elements, type_name),
        Expr::Field(inner, _) => add_expr(alloc, structs, inner.get(), found),
        Expr::Arrow(inner, _) => add_expr(alloc, structs, inner.get(), found),
        Expr::Index(pointer, index) => {
            add_expr(alloc, structs, pointer.get(), found)?;
            add_expr(alloc, structs, index.get(), found)
        }
    }
}

/// Adds what stands in expressions.
fn add_exprs(
    alloc: Global,
    structs: &NameList,
    exprs: &[Expr],
    found: &mut Found,
) -> Result<(), Memory>
    ensures { OnOk result (found.new ≡ spec.found_exprs structs.now exprs.now found.old) }
{
    for expr in exprs {
        add_expr(alloc, structs, expr, found)?;
    }
    Ok(())
}

/// Adds what stands in a simple statement.
#[tactic(auto, unfolding(deputy_types::specs::Found::found_action))]
fn add_action(
    alloc: Global,
    structs: &NameList,
    action: &Action,
    found: &mut Found,
) -> Result<(), Memory>
    ensures { OnOk result (found.new ≡ spec.found_action structs.now action.now found.old) }
{
    match action {
        Action::Assign(place, value) => {
            add_expr(alloc, structs, place.get(), found)?;
            add_expr(alloc, structs, value.get(), found)
        }
        Action::Call(_, _, arguments) => add_exprs(alloc, structs, arguments.as_slice(), found),
        Action::Kalloc(_, type_name, count) => {
            add_whole_type(structs, &mut found.elements, type_name)?;
            add_expr(alloc, structs, count.get(), found)
        }
        Action::Kfree(pointer) => add_expr(alloc, structs, pointer.get(), found),
        Action::Zero(place) => add_expr(alloc, structs, place.get(), found),
        Action::Return(value) => match value {
            Some(value) => add_expr(alloc, structs, value.get(), found),
            None => Ok(()),
        },
        Action::Empty => Ok(()),
    }
}

/// Adds what stands in a body.
#[cycle(statement)]
#[tactic(auto, using(crate::proofs::FoundBlocks::block_found), unfolding(deputy_types::specs::Found::found_body, deputy_types::specs::Found::found_stmt))]
fn add_body(alloc: Global, structs: &NameList, body: &Body, found: &mut Found) -> Result<(), Memory>
    ensures { OnOk result (found.new ≡ spec.found_body structs.now body.now found.old) }
{
    match body {
        Body::Block(statements) => add_statements(alloc, structs, statements.as_slice(), found),
        Body::Single(simple) => add_action(alloc, structs, &simple.action, found),
    }
}

/// Adds what stands in a statement.
#[cycle(statement)]
#[tactic(auto, unfolding(deputy_types::specs::Found::found_body, deputy_types::specs::Found::found_stmt))]
fn add_statement(
    alloc: Global,
    structs: &NameList,
    statement: &Stmt,
    found: &mut Found,
) -> Result<(), Memory>
    ensures { OnOk result (found.new ≡ spec.found_stmt structs.now statement.now found.old) }
{
    match statement {
        Stmt::Simple(simple) => add_action(alloc, structs, &simple.action, found),
        Stmt::If(_, test, body, otherwise) => {
            add_expr(alloc, structs, test.get(), found)?;
            add_body(alloc, structs, body, found)?;
            match otherwise {
                Some(body) => add_body(alloc, structs, body, found),
                None => Ok(()),
            }
        }
        Stmt::While(_, test, body) => {
            add_expr(alloc, structs, test.get(), found)?;
            add_body(alloc, structs, body, found)
        }
    }
}

/// Adds what stands in statements.
#[cycle(statement)]
pub(crate) fn add_statements(
    alloc: Global,
    structs: &NameList,
    statements: &[Stmt],
    found: &mut Found,
) -> Result<(), Memory>
    ensures { OnOk result (found.new ≡ spec.found_stmts structs.now statements.now found.old) }
{
    for statement in statements {
        add_statement(alloc, structs, statement, found)?;
    }
    Ok(())
}
