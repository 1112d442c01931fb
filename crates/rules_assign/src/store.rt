//! `l = e` for a place in memory.
ghost use Rattle.std.specs.Prelude.{◌≡◌};
ghost use Rattle.checked_tree.specs.declared.statements.CheckedStmt.TheVariants as statement;
ghost use Rattle.deputy_rules.specs.Assignment as spec;
ghost use Rattle.deputy_rules.specs.Coercion as coercion;
ghost use Rattle.deputy_rules.specs.Deriving as asking;
ghost use Rattle.deputy_rules.specs.Deriving.{Derives, bind, lift};
ghost use Rattle.deputy_rules.specs.Values.{address, integer_of as integer_in, is_nullterm as is_text};
ghost use Rattle.rules_assign.specs.AreFewSlots.{AreFewSlots};

use crate::changes::{member_changes, present, struct_names};
use crate::convert::{converted_side, handed};
use checked_tree::{Bounds, CheckedExpr, CheckedStmt, Scalar, Shape};
use deputy_rules::{Asked, AskedCond, Derived, DerivingRefusal, Handed, Place, Source, Whole};
use deputy_types::Element;
use rules_coerce::{ask_terminator, coerce_counted, coerce_to, tag_change};
use rules_values::{Context, Ids, ask, integer_of, is_nullterm, one, sum_of};
use sd_base::CheckKind;
use sqlite_items::{Boxed, Items};
use std::alloc::Global;

/// A pointer as it is stored.
const ADDRESS: Scalar = Scalar::Pointer { size: 0 };

/// The assignment to a place.
fn store_form(
    ctx: &Context<'_>,
    scalar: Scalar,
    place: Boxed<CheckedExpr>,
    value: Boxed<CheckedExpr>,
    checks: Ids,
) -> CheckedStmt
    ensures { result ≡ statement.Store ctx.now.line scalar place value checks }
{
    CheckedStmt::Store {
        line: ctx.line,
        scalar,
        place,
        value,
        checks,
    }
}

/// To a place that no sibling names: a pointer to so many elements.
#[tactic(auto, unfolding(deputy_rules::specs::Deriving::bind))]
fn store_reaching(
    alloc: Global,
    ctx: &Context<'_>,
    place: Place,
    key: Element,
    count: i64,
    h: Handed,
    asked: &mut Items<Asked>,
) -> Result<CheckedStmt, DerivingRefusal>
    ensures { Derives
        (bind (coercion.coerce_counted ctx.now key count h) (λ ids. asking.pure (statement.Store ctx.now.line address place.form h.form ids)) asked.old)
        result asked.new }
{
    let checks = coerce_counted(alloc, ctx, key, count, &h, asked)?;
    Ok(store_form(ctx, ADDRESS, place.form, h.form, checks))
}

/// The same of what was derived.
#[tactic(auto, unfolding(deputy_rules::specs::Deriving::bind, deputy_rules::specs::Assignment::store_counted))]
fn store_counted(
    alloc: Global,
    ctx: &Context<'_>,
    place: Place,
    value: Derived,
    elem: u32,
    count: i64,
    asked: &mut Items<Asked>,
) -> Result<CheckedStmt, DerivingRefusal>
    ensures { Derives (spec.store_counted ctx.now place value elem count asked.old) result asked.new }
{
    match ctx.types.element_at(elem) {
        Some(key) => {
            let h = handed(alloc, ctx, key, false, value)?;
            store_reaching(alloc, ctx, place, key, count, h, asked)
        }
        None => Err(DerivingRefusal::NoRule),
    }
}

/// A pointer to text.
#[tactic(auto, unfolding(deputy_rules::specs::Deriving::bind, deputy_rules::specs::Assignment::store_text))]
fn store_text(
    alloc: Global,
    ctx: &Context<'_>,
    place: Place,
    value: Derived,
    elem: u32,
    asked: &mut Items<Asked>,
) -> Result<CheckedStmt, DerivingRefusal>
    ensures { Derives (spec.store_text ctx.now place value elem asked.old) result asked.new }
{
    match ctx.types.element_at(elem) {
        Some(key) => {
            let h = handed(alloc, ctx, key, true, value)?;
            Ok(store_form(ctx, ADDRESS, place.form, h.form, Items::new(alloc)))
        }
        None => Err(DerivingRefusal::NoRule),
    }
}

/// An integer.
#[tactic(auto, unfolding(deputy_rules::specs::Deriving::bind, deputy_rules::specs::Assignment::store_integer))]
fn store_integer(
    alloc: Global,
    ctx: &Context<'_>,
    place: Place,
    value: Derived,
    scalar: Scalar,
    asked: &mut Items<Asked>,
) -> Result<CheckedStmt, DerivingRefusal>
    ensures { Derives (spec.store_integer ctx.now place value scalar asked.old) result asked.new }
{
    let w = integer_of(alloc, ctx, value)?;
    Ok(store_form(ctx, scalar, place.form, w.form, Items::new(alloc)))
}

/// To a global that is no array, or an element.
#[tactic(auto, unfolding(deputy_rules::specs::Assignment::store_element))]
fn store_element(
    alloc: Global,
    ctx: &Context<'_>,
    place: Place,
    value: Derived,
    key: Element,
    asked: &mut Items<Asked>,
) -> Result<CheckedStmt, DerivingRefusal>
    ensures { Derives (spec.store_element ctx.now place value key asked.old) result asked.new }
{
    match key {
        Element::Int(scalar) => store_integer(alloc, ctx, place, value, scalar, asked),
        Element::Struct(_) => Err(DerivingRefusal::NoRule),
        Element::Sentinel(elem) => store_counted(alloc, ctx, place, value, elem, 0, asked),
        Element::Nullterm(elem) => store_text(alloc, ctx, place, value, elem, asked),
        Element::Count(elem, count) => store_counted(alloc, ctx, place, value, elem, count, asked),
    }
}

/// To a byte through a nullterm pointer: the terminator is not overwritten, unless by another.
#[tactic(auto, unfolding(deputy_rules::specs::Deriving::bind, deputy_rules::specs::Assignment::store_byte))]
fn store_byte(
    alloc: Global,
    ctx: &Context<'_>,
    place: Place,
    w: Whole,
    asked: &mut Items<Asked>,
) -> Result<CheckedStmt, DerivingRefusal>
    ensures { Derives (spec.store_byte ctx.now place w asked.old) result asked.new }
{
    let new = converted_side(alloc, Scalar::U8, &w)?;
    let id = ask_terminator(ctx, place.at, new, asked)?;
    Ok(store_form(ctx, Scalar::U8, place.form, w.form, one(alloc, id)?))
}

/// The same of what was derived.
#[tactic(auto, unfolding(deputy_rules::specs::Deriving::bind))]
fn store_character(
    alloc: Global,
    ctx: &Context<'_>,
    place: Place,
    value: Derived,
    asked: &mut Items<Asked>,
) -> Result<CheckedStmt, DerivingRefusal>
    ensures { Derives (bind (lift (integer_in ctx.now value)) (spec.store_byte ctx.now place) asked.old) result asked.new }
{
    let w = integer_of(alloc, ctx, value)?;
    store_byte(alloc, ctx, place, w, asked)
}

/// To an integer field or arm: the member with this number, at this offset.
#[tactic(auto, unfolding(deputy_rules::specs::Deriving::bind, deputy_rules::specs::Assignment::store_number))]
fn store_number(
    alloc: Global,
    ctx: &Context<'_>,
    place: Place,
    structure: u32,
    member: u32,
    offset: u32,
    scalar: Scalar,
    w: Whole,
    asked: &mut Items<Asked>,
) -> Result<CheckedStmt, DerivingRefusal>
    requires { AreFewSlots ctx.now.table ctx.now.slots }
    ensures { Derives (spec.store_number ctx.now place structure member offset scalar w asked.old) result asked.new }
{
    let new = sum_of(alloc, converted_side(alloc, scalar, &w)?)?;
    let mut checks = member_changes(alloc, ctx, &place, structure, member, new, asked)?;
    let new = converted_side(alloc, scalar, &w)?;
    checks.append(tag_change(
        alloc, ctx, &place, structure, member, offset, scalar, new, asked,
    )?)?;
    Ok(store_form(ctx, scalar, place.form, w.form, checks))
}

/// To a pointer field or arm.
#[tactic(auto, unfolding(deputy_rules::specs::Deriving::bind, deputy_rules::specs::Assignment::store_pointer))]
fn store_pointer(
    alloc: Global,
    ctx: &Context<'_>,
    place: Place,
    structure: u32,
    member: u32,
    key: Element,
    bounds: &Bounds,
    h: Handed,
    asked: &mut Items<Asked>,
) -> Result<CheckedStmt, DerivingRefusal>
    requires { AreFewSlots ctx.now.table ctx.now.slots }
    ensures { Derives (spec.store_pointer ctx.now place structure member key bounds.now h asked.old) result asked.new }
{
    let naming = present(struct_names(alloc, &place, structure)?);
    let mut checks = coerce_to(alloc, ctx, &naming, key, bounds, &h, asked)?;
    checks.append(member_changes(alloc, ctx, &place, structure, member, h.at, asked)?)?;
    Ok(store_form(ctx, ADDRESS, place.form, h.form, checks))
}

/// To an integer field or arm, what was derived.
#[tactic(auto, unfolding(deputy_rules::specs::Deriving::bind))]
fn store_whole(
    alloc: Global,
    ctx: &Context<'_>,
    place: Place,
    value: Derived,
    structure: u32,
    member: u32,
    offset: u32,
    scalar: Scalar,
    asked: &mut Items<Asked>,
) -> Result<CheckedStmt, DerivingRefusal>
    requires { AreFewSlots ctx.now.table ctx.now.slots }
    ensures { Derives (bind (lift (integer_in ctx.now value)) (spec.store_number ctx.now place structure member offset scalar) asked.old) result asked.new }
{
    let w = integer_of(alloc, ctx, value)?;
    store_number(
        alloc, ctx, place, structure, member, offset, scalar, w, asked,
    )
}

/// To a pointer field or arm to this element, what was derived.
#[tactic(auto, unfolding(deputy_rules::specs::Deriving::bind))]
fn store_bounded(
    alloc: Global,
    ctx: &Context<'_>,
    place: Place,
    value: Derived,
    structure: u32,
    member: u32,
    key: Element,
    bounds: &Bounds,
    asked: &mut Items<Asked>,
) -> Result<CheckedStmt, DerivingRefusal>
    requires { AreFewSlots ctx.now.table ctx.now.slots }
    ensures { Derives
        (bind (lift (coercion.handed ctx.now key (is_text bounds.now) value)) (spec.store_pointer ctx.now place structure member key bounds.now) asked.old)
        result asked.new }
{
    let h = handed(alloc, ctx, key, is_nullterm(bounds), value)?;
    store_pointer(alloc, ctx, place, structure, member, key, bounds, h, asked)
}

/// To a field or arm of this shape at this offset.
#[tactic(auto, unfolding(deputy_rules::specs::Deriving::bind, deputy_rules::specs::Assignment::store_member))]
fn store_member(
    alloc: Global,
    ctx: &Context<'_>,
    place: Place,
    value: Derived,
    structure: u32,
    member: u32,
    offset: u32,
    shape: &Shape,
    asked: &mut Items<Asked>,
) -> Result<CheckedStmt, DerivingRefusal>
    requires { AreFewSlots ctx.now.table ctx.now.slots }
    ensures { Derives (spec.store_member ctx.now place value structure member offset shape.now asked.old) result asked.new }
{
    match shape {
        Shape::Int(scalar) => {
            store_whole(
                alloc, ctx, place, value, structure, member, offset, *scalar, asked,
            )
        }
        Shape::Pointer { elem, bounds } => match ctx.types.element_at(*elem) {
            Some(key) => store_bounded(
                alloc, ctx, place, value, structure, member, key, bounds, asked,
            ),
            None => Err(DerivingRefusal::NoRule),
        },
        Shape::Struct(_) => Err(DerivingRefusal::NoRule),
        Shape::Address => Err(DerivingRefusal::NoRule),
    }
}

/// To a place whose type is declared there.
#[tactic(auto, unfolding(deputy_rules::specs::Deriving::bind))]
fn store_by(
    alloc: Global,
    ctx: &Context<'_>,
    place: Place,
    value: Derived,
    source: Source,
    asked: &mut Items<Asked>,
) -> Result<CheckedStmt, DerivingRefusal>
    requires { AreFewSlots ctx.now.table ctx.now.slots }
    ensures { Derives (spec.store_by ctx.now place value source asked.old) result asked.new }
{
    match source {
        Source::Element(key) => store_element(alloc, ctx, place, value, key, asked),
        Source::Text => store_character(alloc, ctx, place, value, asked),
        Source::Member(structure, member) => match ctx.types.member(structure, member) {
            Some(found) => store_member(
                alloc,
                ctx,
                place,
                value,
                structure,
                member,
                found.offset,
                &found.shape,
                asked,
            ),
            None => Err(DerivingRefusal::NoRule),
        },
    }
}

/// To a place.
#[tactic(auto, unfolding(deputy_rules::specs::Assignment::store))]
pub(crate) fn store(
    alloc: Global,
    ctx: &Context<'_>,
    place: Place,
    value: Derived,
    asked: &mut Items<Asked>,
) -> Result<CheckedStmt, DerivingRefusal>
    requires { AreFewSlots ctx.now.table ctx.now.slots }
    ensures { Derives (spec.store ctx.now place value asked.old) result asked.new }
{
    let source = place.source;
    store_by(alloc, ctx, place, value, source, asked)
}
