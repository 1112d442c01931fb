//! Coercions: the checks that the bounds of a pointer need where a type takes it.
ghost use Rattle.std.specs.Prelude.{[], ◌∷◌, ◌++◌};
ghost use Rattle.deputy_rules.specs.Coercion as spec;
ghost use Rattle.deputy_rules.specs.Deriving as asking;
ghost use Rattle.deputy_rules.specs.Deriving.{Derives, bind, pure};
ghost use Rattle.deputy_rules.specs.declared.asked.AskedCond.TheVariants as cond;
ghost use Rattle.deputy_rules.specs.Values as values;

use checked_tree::{Bounds, Part, Sum, copied_sum};
use deputy_rules::{Asked, AskedCond, DerivingRefusal, Handed, Naming};
use deputy_types::Element;
use rules_values::{Context, Ids, ask, high_sum, joined, low_sum, one, with_id, with_part};
use sd_base::CheckKind;
use sqlite_items::Items;
use std::alloc::Global;

/// A pointer and its bounds, and the bounds of the type that takes it.
#[derive(Drop)]
pub struct Fit {
    /// Its value.
    pub at: Sum,
    /// Its bounds.
    pub low: Sum,
    pub high: Sum,
    /// The bounds of the type.
    pub lower: Sum,
    pub higher: Sum,
    /// The bytes of an element.
    pub size: u32,
}

/// Asks that the left sum is at most the right one, or the guard 0.
fn ask_guarded(
    alloc: Global,
    ctx: &Context<'_>,
    kind: CheckKind,
    left: &Sum,
    right: &Sum,
    guard: &Sum,
    asked: &mut Items<Asked>,
) -> Result<usize, DerivingRefusal>
    ensures { Derives (asking.ask ctx.now kind (cond.Guarded left.now right.now guard.now) asked.old) result asked.new }
{
    let left = copied_sum(alloc, left)?;
    let right = copied_sum(alloc, right)?;
    let guard = copied_sum(alloc, guard)?;
    ask(ctx, kind, AskedCond::Guarded { left, right, guard }, asked)
}

/// Asks that a pointer stands at a whole number of elements past its low bound, or is null.
fn ask_multiple(
    alloc: Global,
    ctx: &Context<'_>,
    kind: CheckKind,
    at: &Sum,
    low: &Sum,
    size: u32,
    asked: &mut Items<Asked>,
) -> Result<usize, DerivingRefusal>
    ensures { Derives (asking.ask ctx.now kind (cond.Aligned at.now low.now size at.now) asked.old) result asked.new }
{
    let value = copied_sum(alloc, at)?;
    let low = copied_sum(alloc, low)?;
    let guard = copied_sum(alloc, at)?;
    let aligned = AskedCond::Aligned {
        value,
        low,
        size,
        guard,
    };
    ask(ctx, kind, aligned, asked)
}

/// Asks that a pointer stands at a whole number of elements past its low bound, which an element of one byte always does.
#[tactic(auto, unfolding(deputy_rules::specs::Deriving::bind, deputy_rules::specs::Coercion::ask_aligned))]
fn ask_aligned(
    alloc: Global,
    ctx: &Context<'_>,
    kind: CheckKind,
    at: &Sum,
    low: &Sum,
    size: u32,
    asked: &mut Items<Asked>,
) -> Result<Ids, DerivingRefusal>
    ensures { Derives (spec.ask_aligned ctx.now kind at.now low.now size asked.old) result asked.new }
{
    if 1 < size {
        let id = ask_multiple(alloc, ctx, kind, at, low, size, asked)?;
        Ok(one(alloc, id)?)
    } else {
        Ok(Items::new(alloc))
    }
}

/// The same, behind the numbers of the checks before it.
#[tactic(auto, unfolding(deputy_rules::specs::Deriving::bind))]
fn ask_next(
    alloc: Global,
    ctx: &Context<'_>,
    kind: CheckKind,
    left: &Sum,
    right: &Sum,
    guard: &Sum,
    ids: Ids,
    asked: &mut Items<Asked>,
) -> Result<Ids, DerivingRefusal>
    ensures { Derives (bind (asking.ask ctx.now kind (cond.Guarded left.now right.now guard.now)) (λ id. pure (ids ++ id ∷ [])) asked.old) result asked.new }
{
    let id = ask_guarded(alloc, ctx, kind, left, right, guard, asked)?;
    Ok(with_id(ids, id)?)
}

/// Asks for the five checks of a coercion, each of which passes where the pointer is null. The first four have the one kind, the fifth the other.
#[tactic(auto, unfolding(deputy_rules::specs::Deriving::bind, deputy_rules::specs::Coercion::coerce))]
pub fn coerce(
    alloc: Global,
    ctx: &Context<'_>,
    kind: CheckKind,
    align: CheckKind,
    fit: &Fit,
    asked: &mut Items<Asked>,
) -> Result<Ids, DerivingRefusal>
    ensures { Derives (spec.coerce ctx.now kind align fit.now.at fit.now.low fit.now.high fit.now.lower fit.now.higher fit.now.size asked.old) result asked.new }
{
    let ids = Items::new(alloc);
    let ids = ask_next(alloc, ctx, kind, &fit.low, &fit.lower, &fit.at, ids, asked)?;
    let ids = ask_next(alloc, ctx, kind, &fit.lower, &fit.at, &fit.at, ids, asked)?;
    let ids = ask_next(alloc, ctx, kind, &fit.at, &fit.higher, &fit.at, ids, asked)?;
    let ids = ask_next(
        alloc,
        ctx,
        kind,
        &fit.higher,
        &fit.high,
        &fit.at,
        ids,
        asked,
    )?;
    let more = ask_aligned(alloc, ctx, align, &fit.at, &fit.lower, fit.size, asked)?;
    Ok(joined(ids, more)?)
}

/// Asks for the coercion of what is handed over to a pointer type with these bounds. The null constant needs no check.
#[tactic(auto, unfolding(deputy_rules::specs::Coercion::coerce_within))]
fn coerce_within(
    alloc: Global,
    ctx: &Context<'_>,
    h: &Handed,
    lower: Sum,
    higher: Sum,
    size: u32,
    asked: &mut Items<Asked>,
) -> Result<Ids, DerivingRefusal>
    ensures { Derives (spec.coerce_within ctx.now h.now lower higher size asked.old) result asked.new }
{
    if h.null {
        return Ok(Items::new(alloc));
    }
    let fit = Fit {
        at: copied_sum(alloc, &h.at)?,
        low: copied_sum(alloc, &h.low)?,
        high: copied_sum(alloc, &h.high)?,
        lower,
        higher,
        size,
    };
    coerce(alloc, ctx, CheckKind::Bound, CheckKind::Align, &fit, asked)
}

/// Asks for the coercion to a pointer type whose annotation bounds it.
#[tactic(auto, unfolding(deputy_rules::specs::Coercion::coerce_to))]
fn coerce_bounded(
    alloc: Global,
    ctx: &Context<'_>,
    naming: &Naming,
    key: Element,
    bounds: &Bounds,
    h: &Handed,
    asked: &mut Items<Asked>,
) -> Result<Ids, DerivingRefusal>
    ensures { Derives
        (spec.coerce_within ctx.now h.now (values.low_sum ctx.now naming.now h.now.at bounds.now) (values.high_sum ctx.now naming.now h.now.at bounds.now) (values.size_of ctx.now key) asked.old)
        result asked.new }
{
    let lower = low_sum(alloc, ctx, naming, copied_sum(alloc, &h.at)?, bounds)?;
    let higher = high_sum(alloc, ctx, naming, copied_sum(alloc, &h.at)?, bounds)?;
    coerce_within(alloc, ctx, h, lower, higher, ctx.size_of(key), asked)
}

/// Asks for the coercion to a pointer type with this element and annotation. A nullterm pointer, and one that takes its bounds with it, needs no check.
#[tactic(auto, unfolding(deputy_rules::specs::Coercion::coerce_to))]
pub fn coerce_to(
    alloc: Global,
    ctx: &Context<'_>,
    naming: &Naming,
    key: Element,
    bounds: &Bounds,
    h: &Handed,
    asked: &mut Items<Asked>,
) -> Result<Ids, DerivingRefusal>
    ensures { Derives (spec.coerce_to ctx.now naming.now key bounds.now h.now asked.old) result asked.new }
{
    match bounds {
        Bounds::Hidden => Ok(Items::new(alloc)),
        Bounds::Nullterm => Ok(Items::new(alloc)),
        Bounds::Within { lo: _, hi: _ } => coerce_bounded(
            alloc, ctx, naming, key, bounds, h, asked,
        ),
    }
}

/// Asks for the coercion to a pointer type with a constant annotation that lets it reach so many elements.
#[tactic(auto, unfolding(deputy_rules::specs::Coercion::coerce_counted))]
pub fn coerce_counted(
    alloc: Global,
    ctx: &Context<'_>,
    key: Element,
    count: i64,
    h: &Handed,
    asked: &mut Items<Asked>,
) -> Result<Ids, DerivingRefusal>
    ensures { Derives (spec.coerce_counted ctx.now key count h.now asked.old) result asked.new }
{
    let size = ctx.size_of(key);
    let reach = Part::Constant {
        times: count,
        value: i64::from(size),
    };
    let higher = with_part(copied_sum(alloc, &h.at)?, reach)?;
    let lower = copied_sum(alloc, &h.at)?;
    coerce_within(alloc, ctx, h, lower, higher, size, asked)
}
