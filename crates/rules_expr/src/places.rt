//! Places: names, what a pointer points to, and elements, each with its checks.
ghost use Rattle.std.specs.Prelude.{◌≡◌, IfOk};
ghost use Rattle.sd_base.specs.declared.kinds.CheckKind.TheVariants as kind;
ghost use Rattle.checked_tree.specs.declared.expressions.CheckedExpr.TheVariants as form;
ghost use Rattle.deputy_rules.specs.declared.asked.AskedCond.TheVariants as cond;
ghost use Rattle.deputy_rules.specs.declared.derived.Derived.TheVariants as derived;
ghost use Rattle.deputy_rules.specs.declared.derived.Source.TheVariants as source;
ghost use Rattle.deputy_rules.specs.Deriving as asking;
ghost use Rattle.deputy_rules.specs.Deriving.{Derives, Yields};
ghost use Rattle.deputy_rules.specs.Places as spec;

use checked_tree::{ImageBlock, Scalar, Sum, copied_sum};
use deputy_rules::{
    ArrayPlace, Asked, AskedCond, Derived, DerivingRefusal, Place, Pointed, Source, Whole,
};
use deputy_types::{Element, GlobalPlace};
use rules_types::is_unsigned;
use rules_values::{
    Context, Ids, ask, beyond, block_form, constant, element_form, joined, one, side, through_form,
    times, with_id, with_part,
};
use sd_base::{CheckKind, Name};
use sqlite_items::Items;
use std::alloc::{AllocError, Global};

/// A global in this block: its address is a constant. The only refusal is want of memory.
fn block_place(
    alloc: Global,
    array: bool,
    block: &ImageBlock,
    key: Element,
) -> Result<Derived, AllocError>
    ensures { IfOk result (λ d. d ≡ spec.block_place array block.now key) }
{
    let form = block_form(alloc, block.base)?;
    let at = constant(alloc, i64::from(block.base))?;
    if array {
        return Ok(Derived::Array(ArrayPlace {
            form,
            at,
            elem: key,
            count: block.count,
        }));
    }
    Ok(Derived::Place(Place {
        form,
        at,
        source: Source::Element(key),
    }))
}

/// A global.
#[tactic(auto, unfolding(deputy_rules::specs::Places::global_place))]
fn global_place(
    alloc: Global,
    ctx: &Context<'_>,
    global: GlobalPlace,
) -> Result<Derived, DerivingRefusal>
    ensures { Yields (spec.global_place ctx.now global) result }
{
    match sqlite_items::at(ctx.types.image(), global.block as usize) {
        Some(block) => match ctx.types.element_at(block.elem) {
            Some(key) => Ok(block_place(alloc, global.array, block, key)?),
            None => Err(DerivingRefusal::NoRule),
        },
        None => Err(DerivingRefusal::NoRule),
    }
}

/// A parameter or local whose declaration is derived.
fn local_of(ctx: &Context<'_>, slot: u32) -> Result<Derived, DerivingRefusal>
    ensures { Yields (spec.local_of ctx.now slot) result }
{
    match ctx.slot_shape(slot) {
        Some(_) => Ok(Derived::Local(slot)),
        None => Err(DerivingRefusal::NoRule),
    }
}

/// A name: a parameter or local, which hides a global, or else a global.
#[tactic(auto, unfolding(deputy_rules::specs::Places::named))]
pub fn named(alloc: Global, ctx: &Context<'_>, name: &Name) -> Result<Derived, DerivingRefusal>
    ensures { Yields (spec.named ctx.now name.now) result }
{
    match ctx.locals.slot(name) {
        Some(slot) => local_of(ctx, slot),
        None => match ctx.types.global(name) {
            Some(global) => global_place(alloc, ctx, global),
            None => Err(DerivingRefusal::NoRule),
        },
    }
}

/// Null, `1 <= v`, unless the pointer is sure.
#[tactic(auto, unfolding(deputy_rules::specs::Deriving::bind, deputy_rules::specs::Places::not_null))]
pub fn not_null(
    alloc: Global,
    ctx: &Context<'_>,
    pointer: &Pointed,
    asked: &mut Items<Asked>,
) -> Result<Ids, DerivingRefusal>
    ensures { Derives (spec.not_null ctx.now pointer.now asked.old) result asked.new }
{
    if pointer.sure {
        return Ok(Items::new(alloc));
    }
    let left = constant(alloc, 1)?;
    let right = copied_sum(alloc, &pointer.at)?;
    let id = ask(ctx, CheckKind::Null, AskedCond::Le { left, right }, asked)?;
    Ok(one(alloc, id)?)
}

/// Bound: the sum is at most the high bound of the pointer.
fn ask_below_high(
    alloc: Global,
    ctx: &Context<'_>,
    left: Sum,
    pointer: &Pointed,
    asked: &mut Items<Asked>,
) -> Result<usize, DerivingRefusal>
    ensures { Derives (asking.ask ctx.now kind.Bound (cond.Le left pointer.now.high) asked.old) result asked.new }
{
    let right = copied_sum(alloc, &pointer.high)?;
    ask(ctx, CheckKind::Bound, AskedCond::Le { left, right }, asked)
}

/// The place that a pointer points to, with these checks. The only refusal is want of memory.
fn place_through(
    alloc: Global,
    pointer: Pointed,
    checks: Ids,
    source: Source,
) -> Result<Derived, AllocError>
    ensures { IfOk result (λ d. d ≡ derived.Place (record { form = form.Through pointer.form checks; at = pointer.at; source = source })) }
{
    let form = through_form(alloc, pointer.form, checks)?;
    Ok(Derived::Place(Place {
        form,
        at: pointer.at,
        source,
    }))
}

/// `*e`, e not nullterm: the place `v`; Null, and Bound `v + s <= hi`.
#[tactic(auto, unfolding(deputy_rules::specs::Deriving::bind, deputy_rules::specs::Places::through))]
pub fn through(
    alloc: Global,
    ctx: &Context<'_>,
    pointer: Pointed,
    asked: &mut Items<Asked>,
) -> Result<Derived, DerivingRefusal>
    ensures { Derives (spec.through ctx.now pointer asked.old) result asked.new }
{
    let ids = not_null(alloc, ctx, &pointer, asked)?;
    let end = beyond(
        copied_sum(alloc, &pointer.at)?,
        i64::from(ctx.size_of(pointer.elem)),
    )?;
    let id = ask_below_high(alloc, ctx, end, &pointer, asked)?;
    let ids = with_id(ids, id)?;
    let source = Source::Element(pointer.elem);
    Ok(place_through(alloc, pointer, ids, source)?)
}

/// `*e` and `e[0]`, e nullterm: the place `v`; Null.
#[tactic(auto, unfolding(deputy_rules::specs::Deriving::bind, deputy_rules::specs::Places::through_text))]
pub fn through_text(
    alloc: Global,
    ctx: &Context<'_>,
    pointer: Pointed,
    asked: &mut Items<Asked>,
) -> Result<Derived, DerivingRefusal>
    ensures { Derives (spec.through_text ctx.now pointer asked.old) result asked.new }
{
    let ids = not_null(alloc, ctx, &pointer, asked)?;
    Ok(place_through(alloc, pointer, ids, Source::Text)?)
}

/// `*e`.
#[tactic(auto, unfolding(deputy_rules::specs::Places::followed))]
pub fn followed(
    alloc: Global,
    ctx: &Context<'_>,
    pointer: Pointed,
    asked: &mut Items<Asked>,
) -> Result<Derived, DerivingRefusal>
    ensures { Derives (spec.followed ctx.now pointer asked.old) result asked.new }
{
    if pointer.nullterm {
        through_text(alloc, ctx, pointer, asked)
    } else {
        through(alloc, ctx, pointer, asked)
    }
}

/// Bound `lo <= v`, where it is wanted.
#[tactic(auto, unfolding(deputy_rules::specs::Deriving::bind))]
pub fn not_below(
    alloc: Global,
    ctx: &Context<'_>,
    wanted: bool,
    low: &Sum,
    at: &Sum,
    asked: &mut Items<Asked>,
) -> Result<Ids, DerivingRefusal>
    ensures { Derives (spec.not_below ctx.now wanted low.now at.now asked.old) result asked.new }
{
    if !wanted {
        return Ok(Items::new(alloc));
    }
    let left = copied_sum(alloc, low)?;
    let right = copied_sum(alloc, at)?;
    let id = ask(ctx, CheckKind::Bound, AskedCond::Le { left, right }, asked)?;
    Ok(one(alloc, id)?)
}

/// Bound `v <= hi`, where it is wanted.
#[tactic(auto, unfolding(deputy_rules::specs::Deriving::bind))]
pub fn not_above(
    alloc: Global,
    ctx: &Context<'_>,
    wanted: bool,
    at: &Sum,
    high: &Sum,
    asked: &mut Items<Asked>,
) -> Result<Ids, DerivingRefusal>
    ensures { Derives (spec.not_above ctx.now wanted at.now high.now asked.old) result asked.new }
{
    if !wanted {
        return Ok(Items::new(alloc));
    }
    let left = copied_sum(alloc, at)?;
    let right = copied_sum(alloc, high)?;
    let id = ask(ctx, CheckKind::Bound, AskedCond::Le { left, right }, asked)?;
    Ok(one(alloc, id)?)
}

/// An address moved by so many elements. The only refusal is want of memory.
pub fn moved_sum(alloc: Global, at: &Sum, index: &Whole, size: i64) -> Result<Sum, AllocError>
    ensures { IfOk result (λ s. s ≡ spec.moved_sum at.now index.now size) }
{
    let start = copied_sum(alloc, at)?;
    with_part(start, times(size, side(alloc, index)?))
}

/// Null, Bound `lo <= v + s*i` where i is `int`, Bound `v + s*i + s <= hi`.
#[tactic(auto, unfolding(deputy_rules::specs::Deriving::bind))]
fn index_checks(
    alloc: Global,
    ctx: &Context<'_>,
    pointer: &Pointed,
    index: &Whole,
    size: u32,
    at: &Sum,
    asked: &mut Items<Asked>,
) -> Result<Ids, DerivingRefusal>
    ensures { Derives (spec.index_checks ctx.now pointer.now index.now size at.now asked.old) result asked.new }
{
    let ids = not_null(alloc, ctx, pointer, asked)?;
    let signed = !is_unsigned(index.scalar);
    let more = not_below(alloc, ctx, signed, &pointer.low, at, asked)?;
    let ids = joined(ids, more)?;
    let end = beyond(copied_sum(alloc, at)?, i64::from(size))?;
    let id = ask_below_high(alloc, ctx, end, pointer, asked)?;
    Ok(with_id(ids, id)?)
}

/// An element at this address, with these checks. The only refusal is want of memory.
fn element_place(
    alloc: Global,
    pointer: Pointed,
    index: Whole,
    size: u32,
    at: Sum,
    checks: Ids,
) -> Result<Derived, AllocError>
    ensures { IfOk result (λ d. d ≡ derived.Place
        (record { form = form.Element pointer.form index.form size checks; at = at; source = source.Element pointer.elem })) }
{
    let form = element_form(alloc, pointer.form, index.form, size, checks)?;
    Ok(Derived::Place(Place {
        form,
        at,
        source: Source::Element(pointer.elem),
    }))
}

/// `e[i]` at this address.
#[tactic(auto, unfolding(deputy_rules::specs::Deriving::bind))]
fn indexed_at(
    alloc: Global,
    ctx: &Context<'_>,
    pointer: Pointed,
    index: Whole,
    size: u32,
    at: Sum,
    asked: &mut Items<Asked>,
) -> Result<Derived, DerivingRefusal>
    ensures { Derives (spec.indexed_at ctx.now pointer index size at asked.old) result asked.new }
{
    let ids = index_checks(alloc, ctx, &pointer, &index, size, &at, asked)?;
    Ok(element_place(alloc, pointer, index, size, at, ids)?)
}

/// `e[i]`, e not nullterm, i integer: the place `v + s*i`.
#[tactic(auto, unfolding(deputy_rules::specs::Places::indexed))]
pub fn indexed(
    alloc: Global,
    ctx: &Context<'_>,
    pointer: Pointed,
    index: Whole,
    asked: &mut Items<Asked>,
) -> Result<Derived, DerivingRefusal>
    ensures { Derives (spec.indexed ctx.now pointer index asked.old) result asked.new }
{
    let size = ctx.size_of(pointer.elem);
    let at = moved_sum(alloc, &pointer.at, &index, i64::from(size))?;
    indexed_at(alloc, ctx, pointer, index, size, at, asked)
}
