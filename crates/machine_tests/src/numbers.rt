//! Numbers of C99 with two's complement: the operators on converted numbers, at their limits.
use checked_tree::{Arithmetic, Comparison, Scalar, Stop, Unary};
use driver_machine::{arithmetic, comparison, unary};
use std::test::Fail;

/// An operator.
#[derive(Clone, Copy)]
enum Operator {
    Two(Arithmetic),
    Order(Comparison),
    One(Unary),
}

use Arithmetic::{Add, And, Divide, Multiply, Or, Remainder, ShiftLeft, ShiftRight, Subtract, Xor};
use Comparison::{Equal, GreaterEqual, Less, NotEqual};
use Operator::{One, Order, Two};
use Scalar::{I8, I32, U16, U32};
use Unary::{Cast, Complement, Negative, Not, Plus};

/// An operator and a type, two numbers (of an operator before one number the first counts), and what is made of them.
type Row = (Operator, Scalar, i64, i64, Result<i64, Stop>);

const ROWS: [Row; 39] = [
    (Two(Add), I32, 2147483647, 1, Ok(-2147483648)),
    (Two(Add), U32, 4294967295, 1, Ok(0)),
    (Two(Add), U32, -1, 0, Ok(4294967295)),
    (Two(Subtract), I32, -2147483648, 1, Ok(2147483647)),
    (Two(Subtract), U32, 0, 1, Ok(4294967295)),
    (Two(Multiply), I32, 65536, 65536, Ok(0)),
    (Two(Multiply), U32, 4294967295, 4294967295, Ok(1)),
    (Two(Multiply), I32, -7, 6, Ok(-42)),
    (Two(Divide), I32, -7, 2, Ok(-3)),
    (Two(Divide), I32, -2147483648, -1, Ok(-2147483648)),
    (Two(Divide), U32, -2, 2, Ok(2147483647)),
    (Two(Divide), I32, 7, 0, Err(Stop::Wild)),
    (Two(Divide), U32, 7, 4294967296, Err(Stop::Wild)),
    (Two(Remainder), I32, -7, 2, Ok(-1)),
    (Two(Remainder), I32, -2147483648, -1, Ok(0)),
    (Two(Remainder), U32, 7, 0, Err(Stop::Wild)),
    (Two(And), I32, -1, 255, Ok(255)),
    (Two(Or), I32, -2147483648, 1, Ok(-2147483647)),
    (Two(Xor), U32, 4294967295, 1, Ok(4294967294)),
    (Two(ShiftLeft), I32, 1, 31, Ok(-2147483648)),
    (Two(ShiftLeft), I32, 1, 33, Ok(2)),
    (Two(ShiftLeft), U32, 3, 31, Ok(2147483648)),
    (Two(ShiftRight), I32, -5, 1, Ok(-3)),
    (Two(ShiftRight), I32, -1, -1, Ok(-1)),
    (Two(ShiftRight), U32, 4294967295, 4, Ok(268435455)),
    (Order(Less), I32, -1, 1, Ok(1)),
    (Order(Less), U32, -1, 1, Ok(0)),
    (Order(GreaterEqual), U32, -1, 4294967295, Ok(1)),
    (Order(Equal), I32, 4294967295, -1, Ok(1)),
    (Order(NotEqual), I32, 4294967295, -1, Ok(0)),
    (One(Cast), I8, 200, 0, Ok(-56)),
    (One(Cast), I8, 127, 0, Ok(127)),
    (One(Cast), U16, -1, 0, Ok(65535)),
    (One(Plus), U32, -1, 0, Ok(4294967295)),
    (One(Negative), I32, -2147483648, 0, Ok(-2147483648)),
    (One(Negative), U32, 1, 0, Ok(4294967295)),
    (One(Complement), I32, 0, 0, Ok(-1)),
    (One(Not), I32, 0, 0, Ok(1)),
    (One(Not), I32, 7, 0, Ok(0)),
];

/// What an operator makes of two numbers.
fn computed(op: Operator, scalar: Scalar, x: i64, y: i64) -> Result<i64, Stop> {
    match op {
        Operator::Two(op) => arithmetic(op, scalar, x, y),
        Operator::Order(op) => Ok(comparison(op, scalar, x, y)),
        Operator::One(op) => Ok(unary(op, scalar, x)),
    }
}

/// The numbers of the first row that comes out otherwise.
fn wrong_row(rows: &[Row]) -> Option<(i64, i64)> {
    for row in rows {
        let (op, scalar, x, y, wanted) = *row;
        if computed(op, scalar, x, y) != wanted {
            return Some((x, y));
        }
    }
    None
}

#[test]
fn numbers_are_computed_as_in_c(rt: HostRuntime) -> Result<(), Fail> {
    assert_eq!(rt; wrong_row(&ROWS), None);
    Ok(())
}
