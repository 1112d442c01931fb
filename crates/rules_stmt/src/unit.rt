//! `check_unit`: functions and whole texts, in text order; within a function its head, its parameters and locals, then its statements.
ghost use Rattle.std.specs.Prelude.{◌≡◌, ◌<◌, ◌^◌, [], All, Ok, length, IfOk};
ghost use Rattle.c_tree.specs.declared.items.Item.TheVariants as kinds;
ghost use Rattle.c_tree.specs.ShortUnit.{IsShortFunction, IsShortUnit};
ghost use Rattle.deputy_rules.specs.Functions as spec;
ghost use Rattle.deputy_rules.specs.Heads as declared;
ghost use Rattle.deputy_types.specs.UnitLayout.{layout};
ghost use Rattle.rules_assign.specs.AreFewSlots.{AreFewSlots};
ghost use Rattle.rules_heads.specs.AreFewItems.{AreFewItems};
ghost use Rattle.rules_stmt.specs.Units.{IsChecked, IsShortItem, StepsOver};

use crate::actions::Home;
use crate::stmts::check_each;
use c_tree::{Function, Head, Item, LimitKind, Unit};
use check_numbering::{Build, RuleRefusal};
use checked_tree::{CheckedFn, CheckedUnit};
use dep_infer::auto_bounds;
use deputy_rules::Returned;
use deputy_types::TypeTable;
use rules_heads::{
    SeenText, Shapes, function_stands, head_stands, parameter_shapes, result_of, result_scalar,
    shapes_of, slot_shapes, wrong_declaration, wrong_in_head,
};
use rules_values::Context;
use sd_base::Memory;
use sd_base::limits::LOCALS;
use sqlite_items::Items;
use std::alloc::Global;

/// The statements of a function with this result.
#[tactic(auto, unfolding(deputy_rules::specs::Functions::check_statements))]
fn check_statements(
    alloc: Global,
    ctx: &Context<'_>,
    text: &SeenText<'_>,
    f: &Function,
    returned: &Returned,
) -> Result<CheckedFn, RuleRefusal>
    requires fits { AreFewSlots ctx.now.table ctx.now.slots }
    requires few { length f.now.head.params < 2 ^ 32 }
    ensures { IsChecked (spec.check_statements text.now f.now returned.now ctx.now) result }
{
    let home = Home {
        functions: &text.functions,
        returned,
    };
    let mut build = Build::new(alloc);
    let body = check_each(alloc, ctx, &home, f.body.as_slice(), &mut build)?;
    let slots = shapes_of(alloc, ctx.slots.as_slice())?;
    Ok(CheckedFn {
        name: f.head.name,
        params: f.head.params.len() as u32,
        slots,
        result: result_scalar(returned),
        atoms: build.atoms.into_forms(),
        checks: build.checks,
        body,
    })
}

/// The parameters and locals of a function with this result, then its statements.
fn check_declared(
    alloc: Global,
    ctx: &Context<'_>,
    text: &SeenText<'_>,
    f: &Function,
    returned: &Returned,
) -> Result<CheckedFn, RuleRefusal>
    requires fits { AreFewSlots ctx.now.table ctx.now.slots }
    requires few { length f.now.head.params < 2 ^ 32 }
    ensures { IsChecked
        (spec.check_declared text.now f.now returned.now ctx.now (declared.wrong_declaration ctx.now.locals ctx.now.slots f.now))
        result }
{
    match wrong_declaration(ctx.locals, ctx.slots.as_slice(), f) {
        Some(line) => Err(RuleRefusal::NoRule(line)),
        None => check_statements(alloc, ctx, text, f, returned),
    }
}

/// The result of a function, then what stands in it.
fn check_result(
    alloc: Global,
    text: &SeenText<'_>,
    f: &Function,
    slots: &Shapes,
) -> Result<CheckedFn, RuleRefusal>
    requires short { IsShortFunction f.now }
    requires fits { AreFewSlots text.now.table slots.now }
    requires few { length f.now.head.params < 2 ^ 32 }
    requires slots { slots.now ≡ declared.slot_shapes text.now.table f.now }
    ensures { IsChecked
        (spec.check_result text.now f.now (declared.result_of text.now.table f.now.head) (spec.context_of text.now.table f.now))
        result }
{
    match result_of(alloc, text.table, &f.head)? {
        Some(returned) => {
            let locals = auto_bounds(alloc, f)?;
            let ctx = Context {
                types: text.table,
                locals: &locals,
                slots,
                line: 0,
                first: 0,
            };
            check_declared(alloc, &ctx, text, f, &returned)
        }
        None => Err(RuleRefusal::NoRule(f.head.line)),
    }
}

/// The k-th function with a body.
#[tactic(auto, unfolding(deputy_rules::specs::Functions::check_function))]
fn check_function(
    alloc: Global,
    text: &SeenText<'_>,
    k: usize,
    f: &Function,
) -> Result<CheckedFn, RuleRefusal>
    requires short { IsShortFunction f.now }
    requires laid { AreFewItems text.now.table text.now.items }
    ensures { IsChecked (spec.check_function text.now k f.now) result }
{
    if !function_stands(alloc, text, k, &f.head)? {
        return Err(RuleRefusal::NoRule(f.head.line));
    }
    let slots = slot_shapes(alloc, text.table, f)?;
    if slots.len() > LOCALS {
        return Err(RuleRefusal::Limit(f.head.line, LimitKind::Locals));
    }
    check_result(alloc, text, f, &slots)
}

/// The line of what does not stand in a prototype.
#[tactic(auto, unfolding(deputy_rules::specs::Functions::wrong_prototype))]
fn wrong_prototype(alloc: Global, text: &SeenText<'_>, h: &Head) -> Result<Option<u32>, Memory>
    ensures { IfOk result (λ line. line ≡ spec.wrong_prototype text.now h.now) }
{
    if head_stands(alloc, text, h)? {
        let shapes = parameter_shapes(alloc, text.table, h.params.as_slice())?;
        Ok(wrong_in_head(shapes.as_slice(), h))
    } else {
        Ok(Some(h.line))
    }
}

/// A function with a body, behind the functions that are done.
#[tactic(auto, using(crate::proofs::ItemSteps::function_done, crate::proofs::ItemSteps::function_refused))]
fn check_next(
    alloc: Global,
    text: &SeenText<'_>,
    f: &Function,
    done: Items<CheckedFn>,
) -> Result<Items<CheckedFn>, RuleRefusal>
    requires short { IsShortFunction f.now }
    requires laid { AreFewItems text.now.table text.now.items }
    ensures { StepsOver text.now (kinds.Function f.now) done result }
{
    let mut more = done;
    let k = more.len();
    more.push(check_function(alloc, text, k, f)?)?;
    Ok(more)
}

/// An item, behind the functions that are done.
fn check_item(
    alloc: Global,
    text: &SeenText<'_>,
    item: &Item,
    done: Items<CheckedFn>,
) -> Result<Items<CheckedFn>, RuleRefusal>
    requires short { IsShortItem item.now }
    requires laid { AreFewItems text.now.table text.now.items }
    ensures { StepsOver text.now item.now done result }
{
    match item {
        Item::Struct(_) => Ok(done),
        Item::Global(_) => Ok(done),
        Item::Function(f) => check_next(alloc, text, f, done),
        Item::Prototype(h) => match wrong_prototype(alloc, text, h)? {
            Some(line) => Err(RuleRefusal::NoRule(line)),
            None => Ok(done),
        },
    }
}

/// The items in turn.
fn check_items(alloc: Global, text: &SeenText<'_>) -> Result<Items<CheckedFn>, RuleRefusal>
    requires short { All IsShortItem text.now.items }
    requires laid { AreFewItems text.now.table text.now.items }
    ensures { IsChecked (spec.check_items text.now text.now.items []) result }
{
    let mut done = Items::new(alloc);
    for item in text.items {
        done = check_item(alloc, text, item, done)?;
    }
    Ok(done)
}

/// The functions of a unit with this table, in text order.
#[tactic(auto, using(crate::proofs::LaidOut::laid_out, crate::proofs::ShortItems::items_short), unfolding(deputy_rules::specs::Functions::text_of))]
fn check_functions(
    alloc: Global,
    unit: &Unit,
    types: &TypeTable,
) -> Result<Items<CheckedFn>, RuleRefusal>
    requires short { IsShortUnit unit.now }
    requires laid { layout unit.now ≡ Ok types.now }
    ensures { IsChecked (spec.check_items (spec.text_of types.now unit.now.items) unit.now.items []) result }
{
    let text = SeenText::new(alloc, types, unit.items.as_slice())?;
    check_items(alloc, &text)
}

/// Checks a unit, of whose declarations `types` is the table: exactly the checked unit that the rules derive. `NoRule` with the line of the first head, parameter, local
/// or statement in text order that no rule derives, and `Limit(line, Locals)` at the head of a function with more than 128 slots, `NoRule` first on the same head.
/// The table's load image, structs and elements are moved into the unit.
#[tactic(auto, unfolding(deputy_rules::specs::Functions::checked))]
pub fn check_unit(alloc: Global, unit: &Unit, types: TypeTable) -> Result<CheckedUnit, RuleRefusal>
    requires short { IsShortUnit unit.now }
    requires laid { layout unit.now ≡ Ok types }
    ensures { IsChecked (spec.checked types unit.now) result }
{
    let functions = check_functions(alloc, unit, &types)?;
    Ok(types.into_unit(functions))
}
