//! The classes of equal checks of a function.
ghost use Rattle.std.specs.Prelude.{◌≡◌, ℕ, ◌++◌, map, IfOk, OnOk, pos};
ghost use Rattle.std.specs.Global.{Vec as Items};
ghost use Rattle.std.specs.Ordering.{is_lt};
ghost use Rattle.std.specs.List.Sorted.{IsPermutation};
ghost use Rattle.check_elim.specs.Redundancy.{kind_number as number_of_kind};
ghost use Rattle.check_elim.specs.Sets.{AreClasses};
ghost use Rattle.check_elim.specs.Tables.{terms_code, form_code, optional_code, cond_code, check_code, codes_cmp, class_among, AreCodesSorted};

use crate::table::Classes;
use checked_tree::{Check, CheckedFn, Cond};
use dep_expr::Lin;
use sd_base::CheckKind;
use std::alloc::{AllocError, Global};
use std::cmp::Ordering;

/// The number of a kind of check.
fn kind_number(kind: CheckKind) -> i128
    ensures { result ≡ pos (number_of_kind kind) }
{
    match kind {
        CheckKind::Null => 0,
        CheckKind::Bound => 1,
        CheckKind::Align => 2,
        CheckKind::Term => 3,
        CheckKind::Tag => 4,
        CheckKind::Change => 5,
        CheckKind::Div => 6,
    }
}

/// Appends the code of terms. The only refusal is want of memory.
fn push_terms(terms: &[(i64, usize)], to: &mut Vec<i128>) -> Result<(), AllocError>
    ensures { OnOk result (to.new.items ≡ to.old.items ++ terms_code terms.now) }
{
    for term in terms {
        let (by, atom) = *term;
        to.push(1)?;
        to.push(i128::from(by))?;
        to.push(atom as i128)?;
    }
    to.push(0)?;
    Ok(())
}

/// Appends the code of a form. The only refusal is want of memory.
fn push_form(form: &Lin, to: &mut Vec<i128>) -> Result<(), AllocError>
    ensures { OnOk result (to.new.items ≡ to.old.items ++ form_code form.now) }
{
    to.push(form.constant())?;
    push_terms(form.terms(), to)
}

/// Appends the code of a form that may be missing. The only refusal is want of memory.
fn push_optional(form: &Option<Lin>, to: &mut Vec<i128>) -> Result<(), AllocError>
    ensures { OnOk result (to.new.items ≡ to.old.items ++ optional_code form.now) }
{
    match form {
        None => {
            to.push(0)?;
            Ok(())
        }
        Some(form) => {
            to.push(1)?;
            push_form(form, to)
        }
    }
}

/// Appends the code of a condition. The only refusal is want of memory.
fn push_cond(cond: &Cond, to: &mut Vec<i128>) -> Result<(), AllocError>
    ensures { OnOk result (to.new.items ≡ to.old.items ++ cond_code cond.now) }
{
    match cond {
        Cond::Le(i) => {
            to.push(0)?;
            push_form(&i.left, to)?;
            push_optional(&i.guard, to)
        }
        Cond::Aligned { gap, size, guard } => {
            to.push(1)?;
            to.push(i128::from(*size))?;
            push_form(gap, to)?;
            push_form(guard, to)
        }
        Cond::NonZero(l) => {
            to.push(2)?;
            push_form(l, to)
        }
        Cond::Equal(l, z) => {
            to.push(3)?;
            to.push(i128::from(*z))?;
            push_form(l, to)
        }
        Cond::Term { at, new } => {
            to.push(4)?;
            push_form(at, to)?;
            push_optional(new, to)
        }
        Cond::Kept { tag, new, at, size } => {
            to.push(5)?;
            to.push(i128::from(*size))?;
            push_form(tag, to)?;
            push_form(new, to)?;
            push_form(at, to)
        }
    }
}

/// The code of a check. The only refusal is want of memory.
#[tactic(auto, unfolding(crate::specs::Tables::check_code))]
fn code_of(alloc: Global, check: &Check) -> Result<Vec<i128>, AllocError>
    ensures { IfOk result (λ code. code.items ≡ check_code check.now) }
{
    let mut code = Vec::new(alloc);
    code.push(kind_number(check.kind))?;
    push_cond(&check.cond, &mut code)?;
    Ok(code)
}

/// The codes of all checks. The only refusal is want of memory.
fn codes_of(alloc: Global, checks: &[Check]) -> Result<Vec<Vec<i128>>, AllocError>
    ensures { IfOk result (λ codes. map (λ code. code.items) codes.items ≡ map check_code checks.now) }
{
    let mut codes = Vec::new(alloc);
    for check in checks {
        codes.push(code_of(alloc, check)?)?;
    }
    Ok(codes)
}

/// How two codes stand in order.
fn code_order(a: &Vec<i128>, b: &Vec<i128>) -> Ordering
    ensures { result ≡ codes_cmp a.now.items b.now.items }
{
    a.as_slice().cmp(b.as_slice())
}

/// Whether the first of two codes is before the second.
fn is_before(a: &Vec<i128>, b: &[i128]) -> bool
    ensures { result ≡ is_lt (codes_cmp a.now.items b.now) }
{
    match a.as_slice().cmp(b) {
        Ordering::Less => true,
        Ordering::Equal => false,
        Ordering::Greater => false,
    }
}

/// Puts codes in order.
fn sort(codes: &mut [Vec<i128>])
    ensures permutation { IsPermutation codes.old codes.new }
    ensures order { AreCodesSorted codes.new }
{
    codes.sort_unstable_by(|a, b| code_order(a, b));
}

/// The class of a code among codes in order.
fn class_among(codes: &[Vec<i128>], code: &[i128]) -> usize
    requires { AreCodesSorted codes.now }
    ensures { result ≡ class_among codes.now code.now }
{
    codes.partition_point(|other| is_before(other, code))
}

/// The class of each check among codes in order. The only refusal is want of memory.
fn numbers_of(
    alloc: Global,
    checks: &[Check],
    codes: &[Vec<i128>],
) -> Result<Vec<usize>, AllocError>
    requires { AreCodesSorted codes.now }
    ensures { IfOk result (λ numbers. numbers.items ≡ map (λ c. class_among codes.now (check_code c)) checks.now) }
{
    let mut numbers = Vec::new(alloc);
    for check in checks {
        let code = code_of(alloc, check)?;
        numbers.push(class_among(codes, code.as_slice()))?;
    }
    Ok(numbers)
}

/// The classes of equal checks of a function. The only refusal is want of memory.
pub(crate) fn classes(alloc: Global, f: &CheckedFn) -> Result<Classes, AllocError>
    ensures { IfOk result (λ t. AreClasses f.now t) }
{
    let checks = f.checks.as_slice();
    let mut codes = codes_of(alloc, checks)?;
    sort(codes.as_mut_slice());
    let numbers = numbers_of(alloc, checks, codes.as_slice())?;
    Ok(Classes {
        size: codes.len() / 64 + 1,
        numbers,
    })
}
