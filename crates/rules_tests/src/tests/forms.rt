//! Checked expressions as text: a form by its parts, then the numbers of its own checks, each behind a `#`.
use checked_tree::{Arithmetic, CheckedExpr, Comparison, Logic, PointerSum, Scalar, Unary};
use sd_base::Name;
use std::fmt::Write;

/// Adds a text. Where memory is wanting it is left out, and what is written is another text than the one that is wanted: no call of a printer fails, since what a
/// function costs to prove grows faster than the calls in it that can.
pub fn put(out: &mut String, text: &str) {
    let _ = out.push_str(text);
}

/// A name of a text.
pub fn write_name(out: &mut String, name: &Name) {
    for byte in name.bytes() {
        let _ = out.push(char::from(*byte));
    }
}

/// The name of a slot.
pub fn write_slot(out: &mut String, names: &[String], slot: u32) {
    match names.get(slot as usize) {
        Some(name) => put(out, name.as_str()),
        None => {
            let _ = write!(out, "slot {slot}");
        }
    }
}

/// A type of one number; a pointer with the bytes that its constant annotation lets it reach.
pub fn write_scalar(out: &mut String, scalar: Scalar) {
    match scalar {
        Scalar::Void => put(out, "void"),
        Scalar::U8 => put(out, "u8"),
        Scalar::I8 => put(out, "i8"),
        Scalar::U16 => put(out, "u16"),
        Scalar::I16 => put(out, "i16"),
        Scalar::I32 => put(out, "i32"),
        Scalar::U32 => put(out, "u32"),
        Scalar::Pointer { size } => {
            let _ = write!(out, "p{size}");
        }
    }
}

/// The numbers of checks.
pub fn write_ids(out: &mut String, ids: &[usize]) {
    for id in ids {
        let _ = write!(out, "#{id}");
    }
}

fn unary_sign(op: Unary) -> &'static str {
    match op {
        Unary::Plus => "+",
        Unary::Negative => "-",
        Unary::Complement => "~",
        Unary::Not => "!",
        Unary::Cast => "",
    }
}

fn arithmetic_sign(op: Arithmetic) -> &'static str {
    match op {
        Arithmetic::Add => " + ",
        Arithmetic::Subtract => " - ",
        Arithmetic::Multiply => " * ",
        Arithmetic::Divide => " / ",
        Arithmetic::Remainder => " % ",
        Arithmetic::And => " & ",
        Arithmetic::Or => " | ",
        Arithmetic::Xor => " ^ ",
        Arithmetic::ShiftLeft => " << ",
        Arithmetic::ShiftRight => " >> ",
    }
}

fn comparison_sign(op: Comparison) -> &'static str {
    match op {
        Comparison::Less => " < ",
        Comparison::LessEqual => " <= ",
        Comparison::Greater => " > ",
        Comparison::GreaterEqual => " >= ",
        Comparison::Equal => " == ",
        Comparison::NotEqual => " != ",
    }
}

fn logic_sign(op: Logic) -> &'static str {
    match op {
        Logic::And => " && ",
        Logic::Or => " || ",
    }
}

/// The sign between a pointer and what it is moved by.
fn moved_sign(sum: PointerSum) -> &'static str {
    match sum {
        PointerSum::PointerPlus | PointerSum::PlusPointer => " + ",
        PointerSum::PointerMinus => " - ",
    }
}

/// A checked expression.
pub fn write_form(out: &mut String, names: &[String], e: &CheckedExpr) {
    match e {
        CheckedExpr::Number { value, scalar } => {
            let _ = write!(out, "{value}");
            if *scalar == Scalar::U32 {
                put(out, "u");
            }
        }
        CheckedExpr::Null => put(out, "null"),
        CheckedExpr::Local { slot } => write_slot(out, names, *slot),
        CheckedExpr::Block { base } => {
            let _ = write!(out, "b{base}");
        }
        CheckedExpr::Through { pointer, checks } => {
            put(out, "*");
            write_form(out, names, pointer.get());
            write_ids(out, checks.as_slice());
        }
        CheckedExpr::Element {
            pointer,
            index,
            size,
            checks,
        } => {
            write_form(out, names, pointer.get());
            let _ = write!(out, "[{size}*");
            write_form(out, names, index.get());
            put(out, "]");
            write_ids(out, checks.as_slice());
        }
        CheckedExpr::Field {
            place,
            offset,
            checks,
        } => {
            write_form(out, names, place.get());
            let _ = write!(out, ".{offset}");
            write_ids(out, checks.as_slice());
        }
        CheckedExpr::Load { scalar, place } => {
            write_scalar(out, *scalar);
            put(out, ":");
            write_form(out, names, place.get());
        }
        CheckedExpr::AddressOf { place } => {
            put(out, "&");
            write_form(out, names, place.get());
        }
        CheckedExpr::Moved {
            sum,
            pointer,
            by,
            size,
            checks,
        } => {
            put(out, "(");
            if matches!(sum, PointerSum::PlusPointer) {
                let _ = write!(out, "{size}*");
                write_form(out, names, by.get());
                put(out, moved_sign(*sum));
                write_form(out, names, pointer.get());
            } else {
                write_form(out, names, pointer.get());
                put(out, moved_sign(*sum));
                let _ = write!(out, "{size}*");
                write_form(out, names, by.get());
            }
            put(out, ")");
            write_ids(out, checks.as_slice());
        }
        CheckedExpr::Unary { op, scalar, of } => {
            put(out, unary_sign(*op));
            write_scalar(out, *scalar);
            put(out, "(");
            write_form(out, names, of.get());
            put(out, ")");
        }
        CheckedExpr::Binary {
            op,
            scalar,
            left,
            right,
            checks,
        } => {
            write_scalar(out, *scalar);
            put(out, "(");
            write_form(out, names, left.get());
            put(out, arithmetic_sign(*op));
            write_form(out, names, right.get());
            put(out, ")");
            write_ids(out, checks.as_slice());
        }
        CheckedExpr::Compare {
            op,
            scalar,
            left,
            right,
        } => {
            write_scalar(out, *scalar);
            put(out, "(");
            write_form(out, names, left.get());
            put(out, comparison_sign(*op));
            write_form(out, names, right.get());
            put(out, ")");
        }
        CheckedExpr::Logical { op, left, right } => {
            put(out, "(");
            write_form(out, names, left.get());
            put(out, logic_sign(*op));
            write_form(out, names, right.get());
            put(out, ")");
        }
    }
}
