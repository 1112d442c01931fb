//! What an edge of a branch tells.
ghost use Rattle.std.specs.Prelude.{◌≡◌, IfOk, ◌*ℤ◌, ◌+ℤ◌, ◌≤ℤ◌, ◌^◌, neg_ℤ, pos, negsuc, ◌&&◌, ◌||◌, slice_get, true, false};
ghost use Rattle.std.specs.Option.{option_copied};
ghost use Rattle.dep_expr.specs.Linear.{plus, scaled, number_form, term_form};
ghost use Rattle.checked_tree.specs.Flow as flow;
ghost use Rattle.checked_tree.specs.Flow.{order_fact, not_null_fact, at_most, less, is_pointer_shape};
ghost use Rattle.check_elim.specs.Direct.{reading, edges, side_in};
ghost use Rattle.check_elim.specs.Sets.{ops_of};
ghost use Rattle.check_elim.specs.Light.{IsLight, IsLightFact};
ghost use Rattle.check_elim.specs.Sides.{side_of_code, int_of_code, side_record, form_of, difference_of, strict_constant};

use crate::table::Table;
use checked_tree::{CheckedExpr, CheckedFn, Comparison, Scalar, Shape};
use dep_expr::Lin;
use std::alloc::{AllocError, Global};

/// What one side of a comparison is, as far as facts go.
#[derive(Clone, Copy)]
pub(crate) enum Side {
    Slot(u32),
    Number(i64, Scalar),
    Null,
    Other,
}

/// A side of a comparison of integers: a slot with the coefficient 1, or none; a number; and how it is compared.
#[derive(Clone, Copy)]
pub(crate) struct IntSide {
    pub(crate) slot: Option<u32>,
    pub(crate) number: i64,
    pub(crate) is_unsigned: bool,
}

/// Which side an expression is.
#[tactic(auto, unfolding(crate::specs::Direct::reading))]
fn side_at(f: &CheckedFn, table: &Table, e: &CheckedExpr) -> Side
    ensures { side_of_code result ≡ side_in (reading (ops_of f.now table.now) f.now.slots e.now) }
{
    match e {
        CheckedExpr::Number { value, scalar } => Side::Number(*value, *scalar),
        CheckedExpr::Null => Side::Null,
        CheckedExpr::Local { slot } => Side::Slot(*slot),
        CheckedExpr::Block { base: _ } => Side::Other,
        CheckedExpr::Through {
            pointer: _,
            checks: _,
        } => Side::Other,
        CheckedExpr::Element {
            pointer: _,
            index: _,
            size: _,
            checks: _,
        } => Side::Other,
        CheckedExpr::Field {
            place: _,
            offset: _,
            checks: _,
        } => Side::Other,
        CheckedExpr::Load {
            scalar: _,
            place: _,
        } => Side::Other,
        CheckedExpr::AddressOf { place: _ } => Side::Other,
        CheckedExpr::Moved {
            sum: _,
            pointer: _,
            by: _,
            size: _,
            checks: _,
        } => Side::Other,
        CheckedExpr::Unary {
            op: _,
            scalar: _,
            of: _,
        } => Side::Other,
        CheckedExpr::Binary {
            op: _,
            scalar: _,
            left: _,
            right: _,
            checks: _,
        } => Side::Other,
        CheckedExpr::Compare {
            op: _,
            scalar: _,
            left: _,
            right: _,
        } => Side::Other,
        CheckedExpr::Logical {
            op: _,
            left: _,
            right: _,
        } => Side::Other,
    }
}

/// Whether a type that promotion leaves is unsigned.
fn is_unsigned(scalar: Scalar) -> bool
    ensures { result ≡ flow.is_unsigned scalar }
{
    match scalar {
        Scalar::U32 => true,
        Scalar::Void => false,
        Scalar::U8 => false,
        Scalar::I8 => false,
        Scalar::U16 => false,
        Scalar::I16 => false,
        Scalar::I32 => false,
        Scalar::Pointer { size: _ } => false,
    }
}

/// A side as one of a comparison of integers, if it is one.
fn int_side(slots: &[Shape], side: Side) -> Option<IntSide>
    ensures { int_of_code result ≡ flow.int_side slots.now (side_of_code side) }
{
    match side {
        Side::Slot(slot) => match sqlite_items::at(slots, slot as usize) {
            Some(Shape::Int(scalar)) => Some(IntSide {
                slot: Some(slot),
                number: 0,
                is_unsigned: is_unsigned(*scalar),
            }),
            Some(Shape::Pointer { elem: _, bounds: _ }) => None,
            Some(Shape::Struct(_)) => None,
            Some(Shape::Address) => None,
            None => None,
        },
        Side::Number(value, scalar) => Some(IntSide {
            slot: None,
            number: value,
            is_unsigned: is_unsigned(scalar),
        }),
        Side::Null => None,
        Side::Other => None,
    }
}

/// Whether a comparison of two sides is that of whole numbers.
fn do_agree(a: &IntSide, b: &IntSide) -> bool
    ensures { result ≡ flow.agree (side_record a.now) (side_record b.now) }
{
    (a.is_unsigned && b.is_unsigned)
        || (!a.is_unsigned && !b.is_unsigned)
        || is_beside_natural(a, b)
        || is_beside_natural(b, a)
}

/// Whether the first is an `unsigned` local, and the second a constant of at least 0.
fn is_beside_natural(a: &IntSide, b: &IntSide) -> bool
    ensures { result ≡ flow.local_beside_natural (side_record a.now) (side_record b.now) }
{
    a.is_unsigned && a.slot.is_some() && b.slot.is_none() && 0 <= b.number
}

/// The form that is at most 0 where the first side is at most the second, or, if so asked, less. The only refusal is want of memory.
fn difference(alloc: Global, a: &IntSide, b: &IntSide, strict: bool) -> Result<Lin, AllocError>
    ensures light { IfOk result IsLight }
    ensures form { IfOk result (λ l. l ≡ difference_of strict (form_of a.now.slot a.now.number) (form_of b.now.slot b.now.number)) }
{
    let mut form = Lin::number(alloc, less_by(constant_of(a), constant_of(b), strict));
    if let Some(slot) = a.slot {
        form.add_atom(1, slot as usize)?;
    }
    if let Some(slot) = b.slot {
        form.add_atom(-1, slot as usize)?;
    }
    Ok(form)
}

/// The constant of a side as a form: that of a local is 0.
fn constant_of(side: &IntSide) -> i64
    ensures { result ≡ (form_of side.now.slot side.now.number).constant }
{
    match side.slot {
        Some(_) => 0,
        None => side.number,
    }
}

/// One number less another, and one more if so asked.
fn less_by(x: i64, y: i64, strict: bool) -> i128
    ensures value { result ≡ strict_constant strict (x +ℤ (y *ℤ negsuc 0)) }
    ensures low { neg_ℤ (pos (2 ^ 70)) ≤ℤ result }
    ensures high { result ≤ℤ pos (2 ^ 70) }
{
    one_more(minus(x, y), strict)
}

/// One number less another.
fn minus(x: i64, y: i64) -> i128
    ensures value { result ≡ x +ℤ (y *ℤ negsuc 0) }
    ensures low { neg_ℤ (pos (2 ^ 69)) ≤ℤ result }
    ensures high { result ≤ℤ pos (2 ^ 69) }
{
    i128::from(x) + i128::from(y) * -1
}

/// A number, or the next one.
fn one_more(z: i128, more: bool) -> i128
    requires low { neg_ℤ (pos (2 ^ 69)) ≤ℤ z }
    requires high { z ≤ℤ pos (2 ^ 69) }
    ensures value { result ≡ strict_constant more z }
    ensures low { neg_ℤ (pos (2 ^ 70)) ≤ℤ result }
    ensures high { result ≤ℤ pos (2 ^ 70) }
{
    if more { z + 1 } else { z }
}

/// The fact of a comparison of integers. The only refusal is want of memory.
fn int_fact(
    alloc: Global,
    op: Comparison,
    a: Option<IntSide>,
    b: Option<IntSide>,
    holds: bool,
) -> Result<Option<Lin>, AllocError>
    ensures light { IfOk result IsLightFact }
    ensures fact { IfOk result (λ fact. fact ≡ flow.int_fact op (int_of_code a) (int_of_code b) holds) }
{
    match (a, b) {
        (Some(a), Some(b)) => {
            if do_agree(&a, &b) {
                ordered(alloc, op, &a, &b, holds)
            } else {
                Ok(None)
            }
        }
        (Some(_), None) => Ok(None),
        (None, _) => Ok(None),
    }
}

/// The fact of a comparison of integers that is one of whole numbers. The only refusal is want of memory.
fn ordered(
    alloc: Global,
    op: Comparison,
    a: &IntSide,
    b: &IntSide,
    holds: bool,
) -> Result<Option<Lin>, AllocError>
    ensures light { IfOk result IsLightFact }
    ensures fact { IfOk result (λ fact. fact ≡ order_fact op (form_of a.now.slot a.now.number) (form_of b.now.slot b.now.number) holds) }
{
    match op {
        Comparison::Less => Ok(Some(if holds {
            difference(alloc, a, b, true)?
        } else {
            difference(alloc, b, a, false)?
        })),
        Comparison::LessEqual => Ok(Some(if holds {
            difference(alloc, a, b, false)?
        } else {
            difference(alloc, b, a, true)?
        })),
        Comparison::Greater => Ok(Some(if holds {
            difference(alloc, b, a, true)?
        } else {
            difference(alloc, a, b, false)?
        })),
        Comparison::GreaterEqual => Ok(Some(if holds {
            difference(alloc, b, a, false)?
        } else {
            difference(alloc, a, b, true)?
        })),
        Comparison::Equal => Ok(None),
        Comparison::NotEqual => Ok(None),
    }
}

/// The fact of a pointer in a slot that is not null. The only refusal is want of memory.
fn not_null(
    alloc: Global,
    slots: &[Shape],
    slot: u32,
    holds: bool,
) -> Result<Option<Lin>, AllocError>
    ensures light { IfOk result IsLightFact }
    ensures fact { IfOk result (λ fact. fact ≡ not_null_fact slots.now slot holds) }
{
    if !holds {
        return Ok(None);
    }
    match sqlite_items::at(slots, slot as usize) {
        Some(Shape::Pointer { elem: _, bounds: _ }) => {
            let mut form = Lin::number(alloc, 1);
            form.add_atom(-1, slot as usize)?;
            Ok(Some(form))
        }
        Some(Shape::Int(_)) => Ok(None),
        Some(Shape::Struct(_)) => Ok(None),
        Some(Shape::Address) => Ok(None),
        None => Ok(None),
    }
}

/// The fact of a comparison, by its sides. The only refusal is want of memory.
fn compare(
    alloc: Global,
    slots: &[Shape],
    op: Comparison,
    a: Side,
    b: Side,
    holds: bool,
) -> Result<Option<Lin>, AllocError>
    ensures light { IfOk result IsLightFact }
    ensures fact { IfOk result (λ fact. fact ≡ flow.compare_fact slots.now op (side_of_code a) (side_of_code b) holds) }
{
    match (op, a, b) {
        (Comparison::NotEqual, Side::Slot(slot), Side::Null) => not_null(alloc, slots, slot, holds),
        (Comparison::Equal, Side::Slot(slot), Side::Null) => not_null(alloc, slots, slot, !holds),
        (_, _, _) => int_fact(alloc, op, int_side(slots, a), int_side(slots, b), holds),
    }
}

/// The form over slots that is at most 0 on an edge of a branch on an expression, if the edge tells one. The only refusal is want of memory.
#[tactic(auto, unfolding(crate::specs::Direct::reading))]
pub(crate) fn edge(
    alloc: Global,
    f: &CheckedFn,
    table: &Table,
    e: &CheckedExpr,
    holds: bool,
) -> Result<Option<Lin>, AllocError>
    ensures light { IfOk result IsLightFact }
    ensures fact { IfOk result (λ fact. fact ≡ edges (reading (ops_of f.now table.now) f.now.slots e.now) holds) }
{
    match e {
        CheckedExpr::Local { slot } => not_null(alloc, f.slots.as_slice(), *slot, holds),
        CheckedExpr::Compare {
            op,
            scalar: _,
            left,
            right,
        } => {
            compare(
                alloc,
                f.slots.as_slice(),
                *op,
                side_at(f, table, left.get()),
                side_at(f, table, right.get()),
                holds,
            )
        }
        CheckedExpr::Number {
            value: _,
            scalar: _,
        } => Ok(None),
        CheckedExpr::Null => Ok(None),
        CheckedExpr::Block { base: _ } => Ok(None),
        CheckedExpr::Through {
            pointer: _,
            checks: _,
        } => Ok(None),
        CheckedExpr::Element {
            pointer: _,
            index: _,
            size: _,
            checks: _,
        } => Ok(None),
        CheckedExpr::Field {
            place: _,
            offset: _,
            checks: _,
        } => Ok(None),
        CheckedExpr::Load {
            scalar: _,
            place: _,
        } => Ok(None),
        CheckedExpr::AddressOf { place: _ } => Ok(None),
        CheckedExpr::Moved {
            sum: _,
            pointer: _,
            by: _,
            size: _,
            checks: _,
        } => Ok(None),
        CheckedExpr::Unary {
            op: _,
            scalar: _,
            of: _,
        } => Ok(None),
        CheckedExpr::Binary {
            op: _,
            scalar: _,
            left: _,
            right: _,
            checks: _,
        } => Ok(None),
        CheckedExpr::Logical {
            op: _,
            left: _,
            right: _,
        } => Ok(None),
    }
}
