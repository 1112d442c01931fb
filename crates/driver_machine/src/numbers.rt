//! The operators of C99 on numbers of 32 bits, signed or unsigned (6.5.3 to 6.5.14).
ghost use Rattle.std.specs.Prelude.{◌≡◌, ◌≢◌, ◌≤◌, ◌^◌, ◌*ℤ◌, ◌-ℤ◌, pos, neg_ℤ, int_div, unsigned_abs, IfOk, IsTrue};
ghost use Rattle.checked_tree.specs.declared.expressions.Arithmetic.TheVariants as operators;
ghost use Rattle.checked_tree.specs.Numbers as spec;
ghost use Rattle.checked_tree.specs.Numbers.{is_value};

use checked_tree::{Arithmetic, Comparison, Scalar, Stop, Unary, converted, low_bits};

/// 1 for what holds, 0 for what does not.
pub fn truth(holds: bool) -> i64
    ensures value { result ≡ spec.truth holds }
    ensures range { IsTrue (is_value result) }
{
    if holds { 1 } else { 0 }
}

/// Whether a number is not 0.
pub fn holds(z: i64) -> bool
    ensures { result ≡ spec.holds z }
{
    z != 0
}

/// The negative of a number.
fn negated(z: i64) -> i128
    requires { IsTrue (is_value z) }
    ensures value { result ≡ neg_ℤ z }
    ensures range { unsigned_abs result ≤ 2 ^ 32 }
{
    -i128::from(z)
}

/// The complement of a number: its negative, less 1.
fn complement(z: i64) -> i128
    requires { IsTrue (is_value z) }
    ensures { result ≡ neg_ℤ z -ℤ pos 1 }
{
    negated(z) - 1
}

/// A number from one other.
#[tactic(auto, unfolding(checked_tree::specs::Numbers::unary))]
pub fn unary(op: Unary, scalar: Scalar, x: i64) -> i64
    ensures value { result ≡ spec.unary op scalar x }
    ensures range { IsTrue (is_value result) }
{
    match op {
        Unary::Plus => converted(scalar, i128::from(x)),
        Unary::Negative => converted(scalar, negated(converted(scalar, i128::from(x)))),
        Unary::Complement => converted(scalar, complement(converted(scalar, i128::from(x)))),
        Unary::Not => truth(x == 0),
        Unary::Cast => converted(scalar, i128::from(x)),
    }
}

/// A quotient toward zero.
fn divided(x: i64, y: i64) -> i128
    requires left { IsTrue (is_value x) }
    requires right { y ≢ pos 0 }
    ensures { result ≡ int_div x y }
{
    i128::from(x / y)
}

/// A quotient toward zero; `Wild` where the divisor is 0.
fn quotient(scalar: Scalar, x: i64, y: i64) -> Result<i64, Stop>
    requires { IsTrue (is_value x) }
    ensures value { result ≡ spec.computed operators.Divide scalar x y }
    ensures range { IfOk result (λ z. IsTrue (is_value z)) }
{
    if y == 0 {
        return Err(Stop::Wild);
    }
    Ok(converted(scalar, divided(x, y)))
}

/// What a division toward zero leaves; `Wild` where the divisor is 0.
fn remainder(scalar: Scalar, x: i64, y: i64) -> Result<i64, Stop>
    ensures value { result ≡ spec.computed operators.Remainder scalar x y }
    ensures range { IfOk result (λ z. IsTrue (is_value z)) }
{
    if y == 0 {
        return Err(Stop::Wild);
    }
    Ok(converted(scalar, i128::from(x) % i128::from(y)))
}

/// The low 32 bits of a number.
fn word(z: i64) -> u32
    ensures { result ≡ spec.low_bits 32 z }
{
    low_bits(32, i128::from(z))
}

/// 2^n, n being the count modulo 32.
fn power_of_two(count: i64) -> u32
    ensures { result ≡ 2 ^ spec.low_bits 5 count }
{
    1 << low_bits(5, i128::from(count))
}

/// A number times 2^n, n being the count modulo 32.
fn shifted_left(x: i64, count: i64) -> i128
    ensures { result ≡ x *ℤ pos (2 ^ spec.low_bits 5 count) }
{
    i128::from(x) * i128::from(power_of_two(count))
}

/// A number divided by a power of two, rounded down.
fn floor_divided(x: i64, divisor: u32) -> i64
    requires { 1 ≤ divisor }
    ensures { result ≡ spec.floor_divided x divisor }
{
    let divisor = u64::from(divisor);
    if x < 0 {
        -1 - ((-(x + 1)) as u64 / divisor) as i64
    } else {
        (x as u64 / divisor) as i64
    }
}

/// A number divided by 2^n and rounded down, n being the count modulo 32.
fn shifted_right(x: i64, count: i64) -> i64
    ensures { result ≡ spec.shifted_right x (spec.low_bits 5 count) }
{
    floor_divided(x, power_of_two(count))
}

/// A number from two that have the type; `Wild` where a divisor is 0.
fn computed(op: Arithmetic, scalar: Scalar, x: i64, y: i64) -> Result<i64, Stop>
    requires left { IsTrue (is_value x) }
    requires right { IsTrue (is_value y) }
    ensures value { result ≡ spec.computed op scalar x y }
    ensures range { IfOk result (λ z. IsTrue (is_value z)) }
{
    match op {
        Arithmetic::Add => Ok(converted(scalar, i128::from(x) + i128::from(y))),
        Arithmetic::Subtract => Ok(converted(scalar, i128::from(x) - i128::from(y))),
        Arithmetic::Multiply => Ok(converted(scalar, i128::from(x) * i128::from(y))),
        Arithmetic::Divide => quotient(scalar, x, y),
        Arithmetic::Remainder => remainder(scalar, x, y),
        Arithmetic::And => Ok(converted(scalar, i128::from(word(x) & word(y)))),
        Arithmetic::Or => Ok(converted(scalar, i128::from(word(x) | word(y)))),
        Arithmetic::Xor => Ok(converted(scalar, i128::from(word(x) ^ word(y)))),
        Arithmetic::ShiftLeft => Ok(converted(scalar, shifted_left(x, y))),
        Arithmetic::ShiftRight => Ok(converted(scalar, i128::from(shifted_right(x, y)))),
    }
}

/// A number from two, which are converted to the type first; `Wild` where a divisor is 0.
#[tactic(auto, unfolding(checked_tree::specs::Numbers::arithmetic))]
pub fn arithmetic(op: Arithmetic, scalar: Scalar, x: i64, y: i64) -> Result<i64, Stop>
    ensures value { result ≡ spec.arithmetic op scalar x y }
    ensures range { IfOk result (λ z. IsTrue (is_value z)) }
{
    computed(
        op,
        scalar,
        converted(scalar, i128::from(x)),
        converted(scalar, i128::from(y)),
    )
}

/// Whether a comparison of two numbers holds.
fn compared(op: Comparison, x: i64, y: i64) -> bool
    ensures { result ≡ spec.compared op x y }
{
    match op {
        Comparison::Less => x < y,
        Comparison::LessEqual => x <= y,
        Comparison::Greater => x > y,
        Comparison::GreaterEqual => x >= y,
        Comparison::Equal => x == y,
        Comparison::NotEqual => x != y,
    }
}

/// A comparison, 0 or 1, of two numbers, which are converted to the type first.
#[tactic(auto, unfolding(checked_tree::specs::Numbers::comparison))]
pub fn comparison(op: Comparison, scalar: Scalar, x: i64, y: i64) -> i64
    ensures value { result ≡ spec.comparison op scalar x y }
    ensures range { IsTrue (is_value result) }
{
    let left = converted(scalar, i128::from(x));
    let right = converted(scalar, i128::from(y));
    truth(compared(op, left, right))
}
