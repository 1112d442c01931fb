//! What the names in an annotation stand for, and the bounds that an annotation gives a pointer. The only refusal is want of memory.
ghost use Rattle.std.specs.Prelude.{◌≡◌, IfOk, option_copied, unwrap_or};
ghost use Rattle.deputy_rules.specs.Sums as sums;
ghost use Rattle.deputy_rules.specs.Values as spec;

use crate::Context;
use crate::forms::{field_form, load_form, local_form};
use crate::sums::{beyond, plus, scaled, sum_of};
use checked_tree::{Bounds, CheckedExpr, Edge, Member, Part, Scalar, Shape, Sum, bare, copied_sum};
use deputy_rules::{Change, Names, Naming};
use sqlite_items::{Boxed, Items};
use std::alloc::{AllocError, Global};

/// As what a place of this shape is loaded.
pub fn loaded_as(shape: &Shape) -> Scalar
    ensures { result ≡ spec.loaded_as shape.now }
{
    match shape {
        Shape::Int(scalar) => *scalar,
        Shape::Pointer { elem: _, bounds: _ } => Scalar::Pointer { size: 0 },
        Shape::Struct(_) => Scalar::Pointer { size: 0 },
        Shape::Address => Scalar::Pointer { size: 0 },
    }
}

/// The sum of no parts.
fn nothing(alloc: Global) -> Sum
    ensures { result ≡ spec.nothing }
{
    Sum {
        parts: Items::new(alloc),
    }
}

/// The value of a slot.
pub fn slot_sum(alloc: Global, slot: u32) -> Result<Sum, AllocError>
    ensures { IfOk result (λ s. s ≡ spec.slot_sum slot) }
{
    let atom = local_form(alloc, slot)?;
    sum_of(alloc, Part::Atom { times: 1, atom })
}

/// The value of what lies at an offset of a struct place.
pub fn member_part(
    alloc: Global,
    container: &CheckedExpr,
    scalar: Scalar,
    offset: u32,
) -> Result<Part, AllocError>
    ensures { IfOk result (λ p. p ≡ spec.member_part container.now scalar offset) }
{
    let place = Boxed::new(alloc, bare(alloc, container)?)?;
    let field = field_form(alloc, place, offset, Items::new(alloc))?;
    let atom = load_form(alloc, scalar, field)?;
    Ok(Part::Atom { times: 1, atom })
}

/// The value of a member of a struct place, where there is one.
fn member_sum(
    alloc: Global,
    container: &CheckedExpr,
    member: Option<&Member>,
) -> Result<Sum, AllocError>
    ensures { IfOk result (λ s. s ≡ spec.member_sum container.now (option_copied member.entry)) }
{
    match member {
        Some(found) => {
            let part = member_part(alloc, container, loaded_as(&found.shape), found.offset)?;
            sum_of(alloc, part)
        }
        None => Ok(nothing(alloc)),
    }
}

/// An argument's value, where there is one.
fn argument_sum(alloc: Global, argument: Option<&Sum>) -> Result<Sum, AllocError>
    ensures { IfOk result (λ s. s ≡ unwrap_or (option_copied argument.entry) spec.nothing) }
{
    match argument {
        Some(sum) => copied_sum(alloc, sum),
        None => Ok(nothing(alloc)),
    }
}

/// The value that the name with this number has.
#[tactic(auto, unfolding(deputy_rules::specs::Values::named_sum))]
fn named_sum(alloc: Global, ctx: &Context<'_>, names: &Names, name: u32) -> Result<Sum, AllocError>
    ensures { IfOk result (λ s. s ≡ spec.named_sum ctx.now names.now name) }
{
    match names {
        Names::OfSlots => slot_sum(alloc, name),
        Names::OfStruct(container, structure) => member_sum(
            alloc,
            container.get(),
            ctx.types.member(*structure, name),
        ),
        Names::OfArguments(sums) => argument_sum(alloc, sums.get(name as usize)),
    }
}

/// The same, where one name may have a new value.
fn changed_sum(
    alloc: Global,
    ctx: &Context<'_>,
    names: &Names,
    name: u32,
    change: &Option<Change>,
) -> Result<Sum, AllocError>
    ensures { IfOk result (λ s. s ≡ spec.changed_sum ctx.now names.now name change.now) }
{
    match change {
        Some(new) => {
            if new.name == name {
                copied_sum(alloc, &new.value)
            } else {
                named_sum(alloc, ctx, names, name)
            }
        }
        None => named_sum(alloc, ctx, names, name),
    }
}

/// The value of a name of an annotation.
#[tactic(auto, unfolding(deputy_rules::specs::Values::name_sum))]
pub fn name_sum(
    alloc: Global,
    ctx: &Context<'_>,
    naming: &Naming,
    name: u32,
) -> Result<Sum, AllocError>
    ensures { IfOk result (λ s. s ≡ spec.name_sum ctx.now naming.now name) }
{
    changed_sum(alloc, ctx, &naming.names, name, &naming.change)
}

/// A sum with a name's value times a number.
fn with_term(
    alloc: Global,
    ctx: &Context<'_>,
    naming: &Naming,
    term: (i64, u32),
    sum: Sum,
) -> Result<Sum, AllocError>
    ensures { IfOk result (λ s. s ≡ sums.plus sum (sums.scaled term.0 (spec.name_sum ctx.now naming.now term.1))) }
{
    let (number, name) = term;
    let value = name_sum(alloc, ctx, naming, name)?;
    plus(sum, scaled(alloc, number, &value)?)
}

/// A sum with the terms of an annotation.
fn with_terms(
    alloc: Global,
    ctx: &Context<'_>,
    naming: &Naming,
    terms: &[(i64, u32)],
    sum: Sum,
) -> Result<Sum, AllocError>
    ensures { IfOk result (λ s. s ≡ spec.with_terms ctx.now naming.now terms.now sum) }
{
    let mut total = sum;
    for term in terms {
        total = with_term(alloc, ctx, naming, *term, total)?;
    }
    Ok(total)
}

/// Where a side begins: at the pointer itself, or at a sibling.
fn base_sum(
    alloc: Global,
    ctx: &Context<'_>,
    naming: &Naming,
    at: Sum,
    base: Option<u32>,
) -> Result<Sum, AllocError>
    ensures { IfOk result (λ s. s ≡ spec.base_sum ctx.now naming.now at base) }
{
    match base {
        Some(name) => name_sum(alloc, ctx, naming, name),
        None => Ok(at),
    }
}

/// A side of the bounds of a pointer with this value.
#[tactic(auto, unfolding(deputy_rules::specs::Values::edge_sum))]
fn edge_sum(
    alloc: Global,
    ctx: &Context<'_>,
    naming: &Naming,
    at: Sum,
    edge: &Edge,
) -> Result<Sum, AllocError>
    ensures { IfOk result (λ s. s ≡ spec.edge_sum ctx.now naming.now at edge.now) }
{
    let base = base_sum(alloc, ctx, naming, at, edge.base)?;
    let start = beyond(base, edge.bytes)?;
    with_terms(alloc, ctx, naming, edge.terms.as_slice(), start)
}

/// The low bound of a pointer with this value.
#[tactic(auto, unfolding(deputy_rules::specs::Values::low_sum))]
pub fn low_sum(
    alloc: Global,
    ctx: &Context<'_>,
    naming: &Naming,
    at: Sum,
    bounds: &Bounds,
) -> Result<Sum, AllocError>
    ensures { IfOk result (λ s. s ≡ spec.low_sum ctx.now naming.now at bounds.now) }
{
    match bounds {
        Bounds::Within { lo, hi: _ } => edge_sum(alloc, ctx, naming, at, lo),
        Bounds::Hidden => Ok(at),
        Bounds::Nullterm => Ok(at),
    }
}

/// The high bound of a pointer with this value.
#[tactic(auto, unfolding(deputy_rules::specs::Values::high_sum))]
pub fn high_sum(
    alloc: Global,
    ctx: &Context<'_>,
    naming: &Naming,
    at: Sum,
    bounds: &Bounds,
) -> Result<Sum, AllocError>
    ensures { IfOk result (λ s. s ≡ spec.high_sum ctx.now naming.now at bounds.now) }
{
    match bounds {
        Bounds::Within { lo: _, hi } => edge_sum(alloc, ctx, naming, at, hi),
        Bounds::Hidden => Ok(at),
        Bounds::Nullterm => Ok(at),
    }
}

/// Names that are read in the function, as they are.
pub fn of_slots() -> Naming
    ensures { result ≡ spec.of_slots }
{
    Naming {
        names: Names::OfSlots,
        change: None,
    }
}

/// Names that are read in a struct place, as they are.
pub fn of_struct(container: Boxed<CheckedExpr>, structure: u32) -> Naming
    ensures { result ≡ spec.of_struct container structure }
{
    Naming {
        names: Names::OfStruct(container, structure),
        change: None,
    }
}
