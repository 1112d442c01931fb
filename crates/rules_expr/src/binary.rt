//! The operators between two operands, on integers and pointers, each with its checks. The only refusal of a function that answers an `AllocError` is want
//! of memory.
ghost use Rattle.std.specs.Prelude.{◌≡◌, [], ◌∷◌, Some, None, IfOk};
ghost use Rattle.sd_base.specs.declared.kinds.CheckKind.TheVariants as kind;
ghost use Rattle.checked_tree.specs.declared.expressions.CheckedExpr.TheVariants as form;
ghost use Rattle.deputy_rules.specs.declared.asked.AskedCond.TheVariants as cond;
ghost use Rattle.deputy_rules.specs.declared.derived.Value.TheVariants as value;
ghost use Rattle.deputy_rules.specs.Deriving as asking;
ghost use Rattle.deputy_rules.specs.Deriving.{Derives, Yields, bind, lift};
ghost use Rattle.deputy_rules.specs.Operators as spec;
ghost use Rattle.deputy_rules.specs.Sums as sums;
ghost use Rattle.deputy_rules.specs.Values.{value_of as value_in};

use crate::pointers::{moved, text_sum};
use c_tree::Binary;
use checked_tree::{Arithmetic, CheckedExpr, Comparison, Logic, PointerSum, Scalar};
use deputy_rules::{Asked, AskedCond, Derived, DerivingRefusal, Family, Pointed, Value, Whole};
use rules_types::{common, promoted, same_element, same_truth};
use rules_values::{
    Context, Ids, ask, binary_form, compare_form, computed, is_written, logical_form, null_form,
    one, side, value_of,
};
use sd_base::CheckKind;
use sqlite_items::{Boxed, Items};
use std::alloc::{AllocError, Global};

/// The form of an expression.
type Form = Boxed<CheckedExpr>;

/// The binary operators by the rules that they have.
#[tactic(auto, unfolding(deputy_rules::specs::Operators::family_of))]
fn family_of(op: Binary) -> Family
    ensures { result ≡ spec.family_of op }
{
    match op {
        Binary::LogicalOr => Family::Logic(Logic::Or),
        Binary::LogicalAnd => Family::Logic(Logic::And),
        Binary::BitOr => Family::Plain(Arithmetic::Or),
        Binary::BitXor => Family::Plain(Arithmetic::Xor),
        Binary::BitAnd => Family::Plain(Arithmetic::And),
        Binary::Equal => Family::Equality(Comparison::Equal),
        Binary::NotEqual => Family::Equality(Comparison::NotEqual),
        Binary::Less => Family::Order(Comparison::Less),
        Binary::Greater => Family::Order(Comparison::Greater),
        Binary::LessEqual => Family::Order(Comparison::LessEqual),
        Binary::GreaterEqual => Family::Order(Comparison::GreaterEqual),
        Binary::ShiftLeft => Family::Shift(Arithmetic::ShiftLeft),
        Binary::ShiftRight => Family::Shift(Arithmetic::ShiftRight),
        Binary::Add => Family::Add,
        Binary::Subtract => Family::Subtract,
        Binary::Multiply => Family::Plain(Arithmetic::Multiply),
        Binary::Divide => Family::Divide(Arithmetic::Divide),
        Binary::Remainder => Family::Divide(Arithmetic::Remainder),
    }
}

/// The form of an integer operand.
fn integer_form(of: Whole) -> Form
    ensures { result ≡ of.form }
{
    of.form
}

/// The form of a pointer operand.
fn pointer_form(of: Pointed) -> Form
    ensures { result ≡ of.form }
{
    of.form
}

/// `- + * & | ^` on integers: both sides converted to their common type.
fn on_two(
    alloc: Global,
    op: Arithmetic,
    left: Whole,
    right: Whole,
    checks: Ids,
) -> Result<Derived, AllocError>
    ensures { IfOk result (λ d. d ≡ spec.on_two op left right checks) }
{
    let scalar = common(left.scalar, right.scalar);
    let form = binary_form(alloc, op, scalar, left.form, right.form, checks)?;
    Ok(computed(form, scalar))
}

/// The same with no checks.
fn plain(alloc: Global, op: Arithmetic, left: Whole, right: Whole) -> Result<Derived, AllocError>
    ensures { IfOk result (λ d. d ≡ spec.on_two op left right []) }
{
    on_two(alloc, op, left, right, Items::new(alloc))
}

/// `<< >>`: a shift has the type of its left side.
fn shifted(alloc: Global, op: Arithmetic, left: Whole, right: Whole) -> Result<Derived, AllocError>
    ensures { IfOk result (λ d. d ≡ spec.shifted op left right) }
{
    let scalar = promoted(left.scalar);
    let form = binary_form(alloc, op, scalar, left.form, right.form, Items::new(alloc))?;
    Ok(computed(form, scalar))
}

/// Div: the divisor is not 0.
fn ask_divisor(
    alloc: Global,
    ctx: &Context<'_>,
    divisor: &Whole,
    asked: &mut Items<Asked>,
) -> Result<usize, DerivingRefusal>
    ensures { Derives (asking.ask ctx.now kind.Div (cond.NonZero (sums.side divisor.now)) asked.old) result asked.new }
{
    let part = side(alloc, divisor)?;
    ask(ctx, CheckKind::Div, AskedCond::NonZero(part), asked)
}

/// `/ %`; Div: the divisor is not 0.
#[tactic(auto, unfolding(deputy_rules::specs::Deriving::bind, deputy_rules::specs::Operators::divided))]
fn divided(
    alloc: Global,
    ctx: &Context<'_>,
    op: Arithmetic,
    left: Whole,
    right: Whole,
    asked: &mut Items<Asked>,
) -> Result<Derived, DerivingRefusal>
    ensures { Derives (spec.divided ctx.now op left right asked.old) result asked.new }
{
    let id = ask_divisor(alloc, ctx, &right, asked)?;
    let checks = one(alloc, id)?;
    Ok(on_two(alloc, op, left, right, checks)?)
}

/// A comparison, after conversion to this type: an `int`.
fn compared(
    alloc: Global,
    op: Comparison,
    scalar: Scalar,
    left: Form,
    right: Form,
) -> Result<Derived, AllocError>
    ensures { IfOk result (λ d. d ≡ spec.compared op scalar left right) }
{
    let form = compare_form(alloc, op, scalar, left, right)?;
    Ok(computed(form, Scalar::I32))
}

/// `&&` and `||`, on integers and pointers with these forms: an `int`.
fn joined(alloc: Global, op: Logic, left: Form, right: Form) -> Result<Derived, DerivingRefusal>
    ensures { Yields (Some (spec.joined op left right)) result }
{
    let form = logical_form(alloc, op, left, right)?;
    Ok(computed(form, Scalar::I32))
}

/// A comparison of integers.
fn integers_compared(
    alloc: Global,
    op: Comparison,
    left: Whole,
    right: Whole,
) -> Result<Derived, AllocError>
    ensures { IfOk result (λ d. d ≡ spec.integers_compared op left right) }
{
    let scalar = common(left.scalar, right.scalar);
    compared(alloc, op, scalar, left.form, right.form)
}

/// A comparison of pointers, by value.
fn addresses_compared(
    alloc: Global,
    op: Comparison,
    left: Form,
    right: Form,
) -> Result<Derived, AllocError>
    ensures { IfOk result (λ d. d ≡ spec.addresses_compared op left right) }
{
    compared(alloc, op, Scalar::Pointer { size: 0 }, left, right)
}

/// Two integers.
#[tactic(auto, unfolding(deputy_rules::specs::Operators::on_integers))]
fn on_integers(
    alloc: Global,
    ctx: &Context<'_>,
    family: Family,
    left: Whole,
    right: Whole,
    asked: &mut Items<Asked>,
) -> Result<Derived, DerivingRefusal>
    ensures { Derives (spec.on_integers ctx.now family left right asked.old) result asked.new }
{
    match family {
        Family::Add => Ok(plain(alloc, Arithmetic::Add, left, right)?),
        Family::Subtract => Ok(plain(alloc, Arithmetic::Subtract, left, right)?),
        Family::Plain(op) => Ok(plain(alloc, op, left, right)?),
        Family::Shift(op) => Ok(shifted(alloc, op, left, right)?),
        Family::Divide(op) => divided(alloc, ctx, op, left, right, asked),
        Family::Order(op) => Ok(integers_compared(alloc, op, left, right)?),
        Family::Equality(op) => Ok(integers_compared(alloc, op, left, right)?),
        Family::Logic(op) => joined(alloc, op, integer_form(left), integer_form(right)),
    }
}

/// `e + i`.
fn pointer_plus(
    alloc: Global,
    ctx: &Context<'_>,
    pointer: Pointed,
    by: Whole,
    asked: &mut Items<Asked>,
) -> Result<Derived, DerivingRefusal>
    ensures { Derives (spec.pointer_plus ctx.now pointer by asked.old) result asked.new }
{
    if pointer.nullterm {
        text_sum(alloc, ctx, pointer, by, asked)
    } else {
        moved(alloc, ctx, PointerSum::PointerPlus, pointer, by, asked)
    }
}

/// `i + e` and `e - i`, e not nullterm.
fn moved_unless_text(
    alloc: Global,
    ctx: &Context<'_>,
    how: PointerSum,
    pointer: Pointed,
    by: Whole,
    asked: &mut Items<Asked>,
) -> Result<Derived, DerivingRefusal>
    ensures { Derives (spec.moved_unless_text ctx.now how pointer by asked.old) result asked.new }
{
    if pointer.nullterm {
        Err(DerivingRefusal::NoRule)
    } else {
        moved(alloc, ctx, how, pointer, by, asked)
    }
}

/// A pointer compared with the null constant. The only refusal is want of memory.
fn with_null(alloc: Global, op: Comparison, pointer: Pointed) -> Result<Derived, AllocError>
    ensures { IfOk result (λ d. d ≡ spec.addresses_compared op pointer.form form.Null) }
{
    let null = null_form(alloc)?;
    addresses_compared(alloc, op, pointer.form, null)
}

/// The null constant compared with a pointer. The only refusal is want of memory.
fn null_with(alloc: Global, op: Comparison, pointer: Pointed) -> Result<Derived, AllocError>
    ensures { IfOk result (λ d. d ≡ spec.addresses_compared op form.Null pointer.form) }
{
    let null = null_form(alloc)?;
    addresses_compared(alloc, op, null, pointer.form)
}

/// A comparison with the null constant, the number 0.
fn compared_with_zero(
    alloc: Global,
    op: Comparison,
    pointer: Pointed,
    zero: Whole,
) -> Result<Derived, DerivingRefusal>
    ensures { Yields (spec.compared_with_zero op pointer zero) result }
{
    if !is_written(0, zero.written) {
        return Err(DerivingRefusal::NoRule);
    }
    Ok(with_null(alloc, op, pointer)?)
}

/// A comparison of the null constant, the number 0.
fn zero_compared(
    alloc: Global,
    op: Comparison,
    zero: Whole,
    pointer: Pointed,
) -> Result<Derived, DerivingRefusal>
    ensures { Yields (spec.zero_compared op zero pointer) result }
{
    if !is_written(0, zero.written) {
        return Err(DerivingRefusal::NoRule);
    }
    Ok(null_with(alloc, op, pointer)?)
}

/// No rule for a pointer and an integer.
fn no_rule(_pointer: Pointed, _integer: Whole) -> Result<Derived, DerivingRefusal>
    ensures { Yields None result }
{
    Err(DerivingRefusal::NoRule)
}

/// A pointer and an integer.
#[tactic(auto, unfolding(deputy_rules::specs::Operators::on_pointer_and_integer))]
fn on_pointer_and_integer(
    alloc: Global,
    ctx: &Context<'_>,
    family: Family,
    pointer: Pointed,
    integer: Whole,
    asked: &mut Items<Asked>,
) -> Result<Derived, DerivingRefusal>
    ensures { Derives (spec.on_pointer_and_integer ctx.now family pointer integer asked.old) result asked.new }
{
    match family {
        Family::Add => pointer_plus(alloc, ctx, pointer, integer, asked),
        Family::Subtract => {
            let how = PointerSum::PointerMinus;
            moved_unless_text(alloc, ctx, how, pointer, integer, asked)
        }
        Family::Equality(op) => compared_with_zero(alloc, op, pointer, integer),
        Family::Logic(op) => joined(alloc, op, pointer_form(pointer), integer_form(integer)),
        _ => no_rule(pointer, integer),
    }
}

/// An integer and a pointer.
#[tactic(auto, unfolding(deputy_rules::specs::Operators::on_integer_and_pointer))]
fn on_integer_and_pointer(
    alloc: Global,
    ctx: &Context<'_>,
    family: Family,
    integer: Whole,
    pointer: Pointed,
    asked: &mut Items<Asked>,
) -> Result<Derived, DerivingRefusal>
    ensures { Derives (spec.on_integer_and_pointer ctx.now family integer pointer asked.old) result asked.new }
{
    match family {
        Family::Add => {
            let how = PointerSum::PlusPointer;
            moved_unless_text(alloc, ctx, how, pointer, integer, asked)
        }
        Family::Equality(op) => zero_compared(alloc, op, integer, pointer),
        Family::Logic(op) => joined(alloc, op, integer_form(integer), pointer_form(pointer)),
        _ => no_rule(pointer, integer),
    }
}

/// Whether two pointers have equal elements, and are both nullterm or neither.
fn alike(p: &Pointed, q: &Pointed) -> bool
    ensures { result ≡ spec.alike p.now q.now }
{
    same_element(p.elem, q.elem) && same_truth(p.nullterm, q.nullterm)
}

/// A comparison of two pointers.
fn pointers_compared(
    alloc: Global,
    op: Comparison,
    p: Pointed,
    q: Pointed,
) -> Result<Derived, DerivingRefusal>
    ensures { Yields (spec.pointers_compared op p q) result }
{
    if !alike(&p, &q) {
        return Err(DerivingRefusal::NoRule);
    }
    Ok(addresses_compared(alloc, op, p.form, q.form)?)
}

/// Two pointers.
#[tactic(auto, unfolding(deputy_rules::specs::Operators::on_pointers))]
fn on_pointers(
    alloc: Global,
    family: Family,
    p: Pointed,
    q: Pointed,
) -> Result<Derived, DerivingRefusal>
    ensures { Yields (spec.on_pointers family p q) result }
{
    match family {
        Family::Order(op) => pointers_compared(alloc, op, p, q),
        Family::Equality(op) => pointers_compared(alloc, op, p, q),
        Family::Logic(op) => joined(alloc, op, pointer_form(p), pointer_form(q)),
        _ => Err(DerivingRefusal::NoRule),
    }
}

/// A pointer and the null constant `(void *)0`.
#[tactic(auto, unfolding(deputy_rules::specs::Operators::pointer_and_null))]
fn pointer_and_null(
    alloc: Global,
    family: Family,
    pointer: Pointed,
) -> Result<Derived, DerivingRefusal>
    ensures { Yields (spec.pointer_and_null family pointer) result }
{
    match family {
        Family::Equality(op) => Ok(with_null(alloc, op, pointer)?),
        _ => Err(DerivingRefusal::NoRule),
    }
}

/// The null constant `(void *)0` and a pointer.
#[tactic(auto, unfolding(deputy_rules::specs::Operators::null_and_pointer))]
fn null_and_pointer(
    alloc: Global,
    family: Family,
    pointer: Pointed,
) -> Result<Derived, DerivingRefusal>
    ensures { Yields (spec.null_and_pointer family pointer) result }
{
    match family {
        Family::Equality(op) => Ok(null_with(alloc, op, pointer)?),
        _ => Err(DerivingRefusal::NoRule),
    }
}

/// The null constant `(void *)0` and a value.
fn on_null(alloc: Global, family: Family, right: Value) -> Result<Derived, DerivingRefusal>
    ensures { Yields (spec.on_null family right) result }
{
    match right {
        Value::Int(_) => Err(DerivingRefusal::NoRule),
        Value::Pointer(pointer) => null_and_pointer(alloc, family, pointer),
        Value::Null => Err(DerivingRefusal::NoRule),
    }
}

/// An integer and a value.
fn on_integer_and(
    alloc: Global,
    ctx: &Context<'_>,
    family: Family,
    left: Whole,
    right: Value,
    asked: &mut Items<Asked>,
) -> Result<Derived, DerivingRefusal>
    ensures { Derives (spec.on_values ctx.now family (value.Int left) right asked.old) result asked.new }
{
    match right {
        Value::Int(right) => on_integers(alloc, ctx, family, left, right, asked),
        Value::Pointer(pointer) => {
            on_integer_and_pointer(alloc, ctx, family, left, pointer, asked)
        }
        Value::Null => Err(DerivingRefusal::NoRule),
    }
}

/// A pointer and a value.
fn on_pointer_and(
    alloc: Global,
    ctx: &Context<'_>,
    family: Family,
    left: Pointed,
    right: Value,
    asked: &mut Items<Asked>,
) -> Result<Derived, DerivingRefusal>
    ensures { Derives (spec.on_values ctx.now family (value.Pointer left) right asked.old) result asked.new }
{
    match right {
        Value::Int(right) => on_pointer_and_integer(alloc, ctx, family, left, right, asked),
        Value::Pointer(right) => on_pointers(alloc, family, left, right),
        Value::Null => pointer_and_null(alloc, family, left),
    }
}

/// Two values.
fn on_values(
    alloc: Global,
    ctx: &Context<'_>,
    family: Family,
    left: Value,
    right: Value,
    asked: &mut Items<Asked>,
) -> Result<Derived, DerivingRefusal>
    ensures { Derives (spec.on_values ctx.now family left right asked.old) result asked.new }
{
    match left {
        Value::Int(left) => on_integer_and(alloc, ctx, family, left, right, asked),
        Value::Pointer(left) => on_pointer_and(alloc, ctx, family, left, right, asked),
        Value::Null => on_null(alloc, family, right),
    }
}

/// A value and what was derived on its right.
#[tactic(auto, unfolding(deputy_rules::specs::Deriving::bind))]
fn on_value_and(
    alloc: Global,
    ctx: &Context<'_>,
    family: Family,
    left: Value,
    right: Derived,
    asked: &mut Items<Asked>,
) -> Result<Derived, DerivingRefusal>
    ensures { Derives (bind (lift (value_in ctx.now right)) (spec.on_values ctx.now family left) asked.old) result asked.new }
{
    match value_of(alloc, ctx, right) {
        Ok(right) => on_values(alloc, ctx, family, left, right, asked),
        Err(refusal) => Err(refusal),
    }
}

/// The operators between two operands.
#[tactic(auto, unfolding(deputy_rules::specs::Deriving::bind, deputy_rules::specs::Operators::binary))]
pub fn binary(
    alloc: Global,
    ctx: &Context<'_>,
    op: Binary,
    left: Derived,
    right: Derived,
    asked: &mut Items<Asked>,
) -> Result<Derived, DerivingRefusal>
    ensures { Derives (spec.binary ctx.now op left right asked.old) result asked.new }
{
    match value_of(alloc, ctx, left) {
        Ok(left) => on_value_and(alloc, ctx, family_of(op), left, right, asked),
        Err(refusal) => Err(refusal),
    }
}
