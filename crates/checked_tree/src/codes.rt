//! `code`: numbers that tell an expression's bare form from all others.
ghost use Rattle.std.specs.Prelude.{◌≡◌, ◌↔◌, ◌++◌, IfOk, OnOk};
ghost use Rattle.checked_tree.specs.Bare.{bare};
ghost use Rattle.checked_tree.specs.Codes as spec;
ghost use Rattle.checked_tree.specs.declared.expressions.CheckedExpr.{CheckedExpr as Form};

use crate::{Arithmetic, CheckedExpr, Comparison, Logic, PointerSum, Scalar, Unary};
use std::alloc::{AllocError, Global};

/// The code of an expression: another has the same exactly where it is the same expression, the numbers of checks left out. The only
/// refusal is want of memory.
pub fn code(alloc: Global, e: &CheckedExpr) -> Result<Vec<u64>, AllocError>
    ensures code { IfOk result (λ numbers. numbers.items ≡ spec.code e.now) }
    ensures told { IfOk result (λ numbers. (other : Form) → (numbers.items ≡ spec.code other) ↔ (bare e.now ≡ bare other)) }
{
    let mut numbers = Vec::new(alloc);
    push_code(e, &mut numbers)?;
    Ok(numbers)
}

/// Appends the code of an expression.
#[tactic(auto, unfolding(crate::specs::Codes::code))]
fn push_code(e: &CheckedExpr, to: &mut Vec<u64>) -> Result<(), AllocError>
    ensures { OnOk result (to.new.items ≡ to.old.items ++ spec.code e.now) }
{
    match e {
        CheckedExpr::Number { value, scalar } => push(
            to,
            &[0, sign(*value), distance(*value), scalar_number(*scalar)],
        ),
        CheckedExpr::Null => push(to, &[1]),
        CheckedExpr::Local { slot } => push(to, &[2, u64::from(*slot)]),
        CheckedExpr::Block { base } => push(to, &[3, u64::from(*base)]),
        CheckedExpr::Through { pointer, checks: _ } => {
            push(to, &[4])?;
            push_code(pointer.get(), to)
        }
        CheckedExpr::Element {
            pointer,
            index,
            size,
            checks: _,
        } => {
            push(to, &[5, u64::from(*size)])?;
            push_code(pointer.get(), to)?;
            push_code(index.get(), to)
        }
        CheckedExpr::Field {
            place,
            offset,
            checks: _,
        } => {
            push(to, &[6, u64::from(*offset)])?;
            push_code(place.get(), to)
        }
        CheckedExpr::Load { scalar, place } => {
            push(to, &[7, scalar_number(*scalar)])?;
            push_code(place.get(), to)
        }
        CheckedExpr::AddressOf { place } => {
            push(to, &[8])?;
            push_code(place.get(), to)
        }
        CheckedExpr::Moved {
            sum,
            pointer,
            by,
            size,
            checks: _,
        } => {
            push(to, &[9, sum_number(*sum), u64::from(*size)])?;
            push_code(pointer.get(), to)?;
            push_code(by.get(), to)
        }
        CheckedExpr::Unary { op, scalar, of } => {
            push(to, &[10, unary_number(*op), scalar_number(*scalar)])?;
            push_code(of.get(), to)
        }
        CheckedExpr::Binary {
            op,
            scalar,
            left,
            right,
            checks: _,
        } => {
            push(to, &[11, arithmetic_number(*op), scalar_number(*scalar)])?;
            push_code(left.get(), to)?;
            push_code(right.get(), to)
        }
        CheckedExpr::Compare {
            op,
            scalar,
            left,
            right,
        } => {
            push(to, &[12, comparison_number(*op), scalar_number(*scalar)])?;
            push_code(left.get(), to)?;
            push_code(right.get(), to)
        }
        CheckedExpr::Logical { op, left, right } => {
            push(to, &[13, logic_number(*op)])?;
            push_code(left.get(), to)?;
            push_code(right.get(), to)
        }
    }
}

/// Appends numbers.
fn push(to: &mut Vec<u64>, numbers: &[u64]) -> Result<(), AllocError>
    ensures { OnOk result (to.new.items ≡ to.old.items ++ numbers.now) }
{
    to.extend_from_slice(numbers)
}

fn scalar_number(scalar: Scalar) -> u64
    ensures { result ≡ spec.scalar_number scalar }
{
    match scalar {
        Scalar::Void => 0,
        Scalar::U8 => 1,
        Scalar::I8 => 2,
        Scalar::U16 => 3,
        Scalar::I16 => 4,
        Scalar::I32 => 5,
        Scalar::U32 => 6,
        Scalar::Pointer { size } => u64::from(size) + 7,
    }
}

fn unary_number(op: Unary) -> u64
    ensures { result ≡ spec.unary_number op }
{
    match op {
        Unary::Plus => 0,
        Unary::Negative => 1,
        Unary::Complement => 2,
        Unary::Not => 3,
        Unary::Cast => 4,
    }
}

fn arithmetic_number(op: Arithmetic) -> u64
    ensures { result ≡ spec.arithmetic_number op }
{
    match op {
        Arithmetic::Add => 0,
        Arithmetic::Subtract => 1,
        Arithmetic::Multiply => 2,
        Arithmetic::Divide => 3,
        Arithmetic::Remainder => 4,
        Arithmetic::And => 5,
        Arithmetic::Or => 6,
        Arithmetic::Xor => 7,
        Arithmetic::ShiftLeft => 8,
        Arithmetic::ShiftRight => 9,
    }
}

fn comparison_number(op: Comparison) -> u64
    ensures { result ≡ spec.comparison_number op }
{
    match op {
        Comparison::Less => 0,
        Comparison::LessEqual => 1,
        Comparison::Greater => 2,
        Comparison::GreaterEqual => 3,
        Comparison::Equal => 4,
        Comparison::NotEqual => 5,
    }
}

fn logic_number(op: Logic) -> u64
    ensures { result ≡ spec.logic_number op }
{
    match op {
        Logic::And => 0,
        Logic::Or => 1,
    }
}

fn sum_number(op: PointerSum) -> u64
    ensures { result ≡ spec.sum_number op }
{
    match op {
        PointerSum::PointerPlus => 0,
        PointerSum::PlusPointer => 1,
        PointerSum::PointerMinus => 2,
    }
}

/// Whether a number is negative: 1 or 0.
fn sign(value: i64) -> u64
    ensures { result ≡ spec.sign value }
{
    if value < 0 { 1 } else { 0 }
}

/// How far a number is from 0, or from -1 where it is negative.
fn distance(value: i64) -> u64
    ensures { result ≡ spec.distance value }
{
    if value < 0 {
        (-(value + 1)) as u64
    } else {
        value as u64
    }
}
