//! Pointers: addresses, strings, and sums of a pointer and an integer, each with its checks.
ghost use Rattle.std.specs.Prelude.{◌≡◌, [], ◌∷◌, ◌++◌, pos, true, false, IfOk};
ghost use Rattle.sd_base.specs.declared.kinds.CheckKind.TheVariants as kind;
ghost use Rattle.checked_tree.specs.declared.expressions.CheckedExpr.TheVariants as form;
ghost use Rattle.checked_tree.specs.declared.expressions.PointerSum.TheVariants as pointer_sum;
ghost use Rattle.deputy_rules.specs.declared.asked.AskedCond.TheVariants as cond;
ghost use Rattle.deputy_rules.specs.Deriving as asking;
ghost use Rattle.deputy_rules.specs.Deriving.{Derives, Yields};
ghost use Rattle.deputy_rules.specs.Pointers as spec;

use crate::places::{indexed, moved_sum, not_above, not_below, not_null, through_text};
use checked_tree::{CheckedExpr, ImageBlock, Member, PointerSum, Scalar, Sum, copied_sum};
use deputy_rules::{
    Asked, AskedCond, Derived, DerivingRefusal, Place, Pointed, Source, Value, Whole, Written,
};
use deputy_types::{Element, has_names};
use rules_types::is_unsigned;
use rules_values::{
    Context, Ids, address_form, ask, beyond, block_form, constant, is_written, joined, moved_form,
    one,
};
use sd_base::CheckKind;
use sqlite_items::{Boxed, Items};
use std::alloc::{AllocError, Global};

/// A pointer, as a derived expression.
pub fn pointer(found: Pointed) -> Derived
    ensures { result ≡ spec.pointer found }
{
    Derived::Value(Value::Pointer(found))
}

/// A string: nullterm, at its first byte. The only refusal is want of memory.
fn string_at(alloc: Global, block: &ImageBlock) -> Result<Derived, AllocError>
    ensures { IfOk result (λ d. d ≡ spec.string_at block.now) }
{
    let base = i64::from(block.base);
    let form = address_form(alloc, block_form(alloc, block.base)?)?;
    let at = constant(alloc, base)?;
    let low = constant(alloc, base)?;
    let high = constant(alloc, base)?;
    Ok(pointer(Pointed {
        form,
        elem: Element::Int(Scalar::U8),
        nullterm: true,
        sure: true,
        at,
        low,
        high,
    }))
}

/// The string with this number in the text.
#[tactic(auto, unfolding(deputy_rules::specs::Pointers::string))]
pub fn string(alloc: Global, ctx: &Context<'_>, number: u32) -> Result<Derived, DerivingRefusal>
    ensures { Yields (spec.string ctx.now number) result }
{
    match ctx.types.literal(number) {
        Some(block) => match sqlite_items::at(ctx.types.image(), block as usize) {
            Some(found) => Ok(string_at(alloc, found)?),
            None => Err(DerivingRefusal::NoRule),
        },
        None => Err(DerivingRefusal::NoRule),
    }
}

/// Whether a member has an address: no arm, no tag, no names in its annotation, and named in none.
fn has_address(ctx: &Context<'_>, structure: u32, number: u32, member: &Member) -> bool
    ensures { result ≡ spec.has_address ctx.now structure number member.now }
{
    member.arm.is_none()
        && !ctx.types.is_tag(structure, number)
        && !has_names(&member.shape)
        && !ctx.types.is_named(structure, number)
}

/// The type of a member that has an address.
#[tactic(auto, unfolding(deputy_rules::specs::Pointers::addressed_member))]
fn addressed_member(ctx: &Context<'_>, structure: u32, number: u32) -> Option<Element>
    ensures { result ≡ spec.addressed_member ctx.now structure number }
{
    match ctx.types.member(structure, number) {
        Some(found) => {
            if has_address(ctx, structure, number, found) {
                ctx.types.member_key(structure, number)
            } else {
                None
            }
        }
        None => None,
    }
}

/// The type of a place that has an address: none through a nullterm pointer has.
#[tactic(auto, unfolding(deputy_rules::specs::Pointers::addressed))]
fn addressed(ctx: &Context<'_>, source: Source) -> Option<Element>
    ensures { result ≡ spec.addressed ctx.now source }
{
    match source {
        Source::Element(key) => Some(key),
        Source::Text => None,
        Source::Member(structure, number) => addressed_member(ctx, structure, number),
    }
}

/// `&l`: `v = lo = a`, `hi = a + s`. The only refusal is want of memory.
fn address_at(
    alloc: Global,
    ctx: &Context<'_>,
    place: Place,
    key: Element,
) -> Result<Derived, AllocError>
    ensures { IfOk result (λ d. d ≡ spec.address_at ctx.now place key) }
{
    let form = address_form(alloc, place.form)?;
    let at = place.at;
    let low = copied_sum(alloc, &at)?;
    let high = beyond(copied_sum(alloc, &at)?, i64::from(ctx.size_of(key)))?;
    Ok(pointer(Pointed {
        form,
        elem: key,
        nullterm: false,
        sure: true,
        at,
        low,
        high,
    }))
}

/// The address of a place.
#[tactic(auto, unfolding(deputy_rules::specs::Pointers::address_of_place))]
fn address_of_place(
    alloc: Global,
    ctx: &Context<'_>,
    place: Place,
) -> Result<Derived, DerivingRefusal>
    ensures { Yields (spec.address_of_place ctx.now place) result }
{
    match addressed(ctx, place.source) {
        Some(key) => Ok(address_at(alloc, ctx, place, key)?),
        None => Err(DerivingRefusal::NoRule),
    }
}

/// `&l`: no local, union or array has an address.
#[tactic(auto, unfolding(deputy_rules::specs::Pointers::address_of))]
pub fn address_of(alloc: Global, ctx: &Context<'_>, of: Derived) -> Result<Derived, DerivingRefusal>
    ensures { Yields (spec.address_of ctx.now of) result }
{
    match of {
        Derived::Place(place) => address_of_place(alloc, ctx, place),
        Derived::Value(_) => Err(DerivingRefusal::NoRule),
        Derived::Local(_) => Err(DerivingRefusal::NoRule),
        Derived::Array(_) => Err(DerivingRefusal::NoRule),
        Derived::Union(_) => Err(DerivingRefusal::NoRule),
    }
}

/// By how many bytes an element moves a pointer.
fn step_size(how: PointerSum, size: u32) -> i64
    ensures { result ≡ spec.step_size how size }
{
    match how {
        PointerSum::PointerPlus => i64::from(size),
        PointerSum::PlusPointer => i64::from(size),
        PointerSum::PointerMinus => -i64::from(size),
    }
}

/// Whether a sum may lie below the pointer: not `+` with an `unsigned`.
fn may_fall(how: PointerSum, unsigned: bool) -> bool
    ensures { result ≡ spec.may_fall how unsigned }
{
    match how {
        PointerSum::PointerPlus => !unsigned,
        PointerSum::PlusPointer => !unsigned,
        PointerSum::PointerMinus => true,
    }
}

/// Whether a sum may lie above the pointer: not `-` with an `unsigned`.
fn may_rise(how: PointerSum, unsigned: bool) -> bool
    ensures { result ≡ spec.may_rise how unsigned }
{
    match how {
        PointerSum::PointerPlus => true,
        PointerSum::PlusPointer => true,
        PointerSum::PointerMinus => !unsigned,
    }
}

/// Null, Bound `lo <=` new `v`, and Bound new `v <= hi`, where they are wanted.
#[tactic(auto, unfolding(deputy_rules::specs::Deriving::bind))]
fn move_checks(
    alloc: Global,
    ctx: &Context<'_>,
    how: PointerSum,
    from: &Pointed,
    by: &Whole,
    at: &Sum,
    asked: &mut Items<Asked>,
) -> Result<Ids, DerivingRefusal>
    ensures { Derives (spec.move_checks ctx.now how from.now by.now at.now asked.old) result asked.new }
{
    let unsigned = is_unsigned(by.scalar);
    let ids = not_null(alloc, ctx, from, asked)?;
    let more = not_below(alloc, ctx, may_fall(how, unsigned), &from.low, at, asked)?;
    let ids = joined(ids, more)?;
    let more = not_above(alloc, ctx, may_rise(how, unsigned), at, &from.high, asked)?;
    Ok(joined(ids, more)?)
}

/// A pointer sum with these checks: `v` moved, the same bounds. The only refusal is want of memory.
fn moved_pointer(
    alloc: Global,
    how: PointerSum,
    from: Pointed,
    by: Boxed<CheckedExpr>,
    size: u32,
    at: Sum,
    checks: Ids,
) -> Result<Derived, AllocError>
    ensures { IfOk result (λ d. d ≡ spec.pointer (record {
      form = form.Moved how from.form by size checks;
      elem = from.elem;
      nullterm = false;
      sure = true;
      at = at;
      low = from.low;
      high = from.high;
    })) }
{
    let form = moved_form(alloc, how, from.form, by, size, checks)?;
    Ok(pointer(Pointed {
        form,
        elem: from.elem,
        nullterm: false,
        sure: true,
        at,
        low: from.low,
        high: from.high,
    }))
}

/// `e + i`, `i + e`, `e - i`, with this value.
#[tactic(auto, unfolding(deputy_rules::specs::Deriving::bind))]
fn moved_to(
    alloc: Global,
    ctx: &Context<'_>,
    how: PointerSum,
    from: Pointed,
    by: Whole,
    size: u32,
    at: Sum,
    asked: &mut Items<Asked>,
) -> Result<Derived, DerivingRefusal>
    ensures { Derives (spec.moved_to ctx.now how from by size at asked.old) result asked.new }
{
    let ids = move_checks(alloc, ctx, how, &from, &by, &at, asked)?;
    Ok(moved_pointer(alloc, how, from, by.form, size, at, ids)?)
}

/// `e + i`, `i + e`, `e - i`, e not nullterm: `v` moved by `s*i`, same bounds.
#[tactic(auto, unfolding(deputy_rules::specs::Pointers::moved))]
pub fn moved(
    alloc: Global,
    ctx: &Context<'_>,
    how: PointerSum,
    from: Pointed,
    by: Whole,
    asked: &mut Items<Asked>,
) -> Result<Derived, DerivingRefusal>
    ensures { Derives (spec.moved ctx.now how from by asked.old) result asked.new }
{
    let size = ctx.size_of(from.elem);
    let at = moved_sum(alloc, &from.at, &by, step_size(how, size))?;
    moved_to(alloc, ctx, how, from, by, size, at, asked)
}

/// Term: the byte at the address is not 0, where it is wanted.
#[tactic(auto, unfolding(deputy_rules::specs::Deriving::bind))]
fn not_ended(
    alloc: Global,
    ctx: &Context<'_>,
    wanted: bool,
    at: &Sum,
    asked: &mut Items<Asked>,
) -> Result<Ids, DerivingRefusal>
    ensures { Derives (spec.not_ended ctx.now wanted at.now asked.old) result asked.new }
{
    if !wanted {
        return Ok(Items::new(alloc));
    }
    let at = copied_sum(alloc, at)?;
    let id = ask(
        ctx,
        CheckKind::Term,
        AskedCond::Term { at, new: None },
        asked,
    )?;
    Ok(one(alloc, id)?)
}

/// Null, and for 1 Term.
#[tactic(auto, unfolding(deputy_rules::specs::Deriving::bind))]
fn text_checks(
    alloc: Global,
    ctx: &Context<'_>,
    from: &Pointed,
    by: &Whole,
    asked: &mut Items<Asked>,
) -> Result<Ids, DerivingRefusal>
    ensures { Derives (spec.text_checks ctx.now from.now by.now asked.old) result asked.new }
{
    let ids = not_null(alloc, ctx, from, asked)?;
    let more = not_ended(alloc, ctx, is_written(1, by.written), &from.at, asked)?;
    Ok(joined(ids, more)?)
}

/// A pointer into text, moved, with these checks. The only refusal is want of memory.
fn moved_text(
    alloc: Global,
    from: Pointed,
    by: Boxed<CheckedExpr>,
    size: u32,
    at: Sum,
    checks: Ids,
) -> Result<Pointed, AllocError>
    ensures { IfOk result (λ p. p ≡ record {
      form = form.Moved pointer_sum.PointerPlus from.form by size checks;
      elem = from.elem;
      nullterm = true;
      sure = true;
      at = at;
      low = at;
      high = at;
    }) }
{
    let form = moved_form(alloc, PointerSum::PointerPlus, from.form, by, size, checks)?;
    let low = copied_sum(alloc, &at)?;
    let high = copied_sum(alloc, &at)?;
    Ok(Pointed {
        form,
        elem: from.elem,
        nullterm: true,
        sure: true,
        at,
        low,
        high,
    })
}

/// `e + 0` and `e + 1`, with this value.
#[tactic(auto, unfolding(deputy_rules::specs::Deriving::bind))]
fn text_to(
    alloc: Global,
    ctx: &Context<'_>,
    from: Pointed,
    by: Whole,
    size: u32,
    at: Sum,
    asked: &mut Items<Asked>,
) -> Result<Pointed, DerivingRefusal>
    ensures { Derives (spec.text_to ctx.now from by size at asked.old) result asked.new }
{
    let ids = text_checks(alloc, ctx, &from, &by, asked)?;
    Ok(moved_text(alloc, from, by.form, size, at, ids)?)
}

/// `e + 0`, `e + 1`, e nullterm: `v`, `v + 1`.
#[tactic(auto, unfolding(deputy_rules::specs::Pointers::text_moved))]
fn text_moved(
    alloc: Global,
    ctx: &Context<'_>,
    from: Pointed,
    by: Whole,
    asked: &mut Items<Asked>,
) -> Result<Pointed, DerivingRefusal>
    ensures { Derives (spec.text_moved ctx.now from by asked.old) result asked.new }
{
    let size = ctx.size_of(from.elem);
    let at = moved_sum(alloc, &from.at, &by, i64::from(size))?;
    text_to(alloc, ctx, from, by, size, at, asked)
}

/// The same, as a derived expression.
#[tactic(auto, unfolding(deputy_rules::specs::Deriving::bind))]
fn text_stepped(
    alloc: Global,
    ctx: &Context<'_>,
    from: Pointed,
    by: Whole,
    asked: &mut Items<Asked>,
) -> Result<Derived, DerivingRefusal>
    ensures { Derives (spec.text_stepped ctx.now from by asked.old) result asked.new }
{
    Ok(pointer(text_moved(alloc, ctx, from, by, asked)?))
}

/// `e + i`, e nullterm: for the numbers 0 and 1.
#[tactic(auto, unfolding(deputy_rules::specs::Pointers::text_sum))]
pub fn text_sum(
    alloc: Global,
    ctx: &Context<'_>,
    from: Pointed,
    by: Whole,
    asked: &mut Items<Asked>,
) -> Result<Derived, DerivingRefusal>
    ensures { Derives (spec.text_sum ctx.now from by asked.old) result asked.new }
{
    if is_written(0, by.written) {
        return text_stepped(alloc, ctx, from, by, asked);
    }
    if is_written(1, by.written) {
        return text_stepped(alloc, ctx, from, by, asked);
    }
    Err(DerivingRefusal::NoRule)
}

/// `e[1]`, e nullterm, as `*(e + 1)`.
#[tactic(auto, unfolding(deputy_rules::specs::Deriving::bind))]
fn text_second(
    alloc: Global,
    ctx: &Context<'_>,
    from: Pointed,
    by: Whole,
    asked: &mut Items<Asked>,
) -> Result<Derived, DerivingRefusal>
    ensures { Derives (spec.text_second ctx.now from by asked.old) result asked.new }
{
    let second = text_moved(alloc, ctx, from, by, asked)?;
    through_text(alloc, ctx, second, asked)
}

/// `e[0]`, e nullterm, as `*e`; `e[1]` as `*(e + 1)`.
#[tactic(auto, unfolding(deputy_rules::specs::Pointers::text_indexed))]
fn text_indexed(
    alloc: Global,
    ctx: &Context<'_>,
    from: Pointed,
    by: Whole,
    asked: &mut Items<Asked>,
) -> Result<Derived, DerivingRefusal>
    ensures { Derives (spec.text_indexed ctx.now from by asked.old) result asked.new }
{
    if is_written(0, by.written) {
        return through_text(alloc, ctx, from, asked);
    }
    if is_written(1, by.written) {
        return text_second(alloc, ctx, from, by, asked);
    }
    Err(DerivingRefusal::NoRule)
}

/// `e[i]`.
#[tactic(auto, unfolding(deputy_rules::specs::Pointers::indexed_by))]
pub fn indexed_by(
    alloc: Global,
    ctx: &Context<'_>,
    from: Pointed,
    by: Whole,
    asked: &mut Items<Asked>,
) -> Result<Derived, DerivingRefusal>
    ensures { Derives (spec.indexed_by ctx.now from by asked.old) result asked.new }
{
    if from.nullterm {
        text_indexed(alloc, ctx, from, by, asked)
    } else {
        indexed(alloc, ctx, from, by, asked)
    }
}
