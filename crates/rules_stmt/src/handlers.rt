//! Handlers: functions that are handed to the kernel by name.
ghost use Rattle.std.specs.Prelude.{◌≡◌, ◌∷◌, Some, option_copied, slice_get};
ghost use Rattle.checked_tree.specs.declared.shapes.Scalar.TheVariants as scalars;
ghost use Rattle.checked_tree.specs.declared.shapes.Shape.TheVariants as shaped;
ghost use Rattle.deputy_rules.specs.Calls as spec;
ghost use Rattle.deputy_types.specs.Options.{and_then};

use c_tree::Expr;
use checked_tree::{Scalar, Shape};
use deputy_rules::{Returned, Signature};
use rules_heads::Functions;
use sd_base::Name;

/// The name that an expression is, if it is one, in brackets or not.
#[tactic(auto, unfolding(deputy_rules::specs::Calls::plain_name))]
fn plain_name(e: &Expr) -> Option<Name>
    ensures { result ≡ spec.plain_name e.now }
{
    match e {
        Expr::Name(name) => Some(*name),
        Expr::Grouped(inner) => plain_name(inner.get()),
        Expr::Number(_) => None,
        Expr::Character(_) => None,
        Expr::String(_, _) => None,
        Expr::Null => None,
        Expr::Unary(_, _) => None,
        Expr::Binary(_, _, _) => None,
        Expr::Cast(_, _) => None,
        Expr::Sizeof(_) => None,
        Expr::Field(_, _) => None,
        Expr::Arrow(_, _) => None,
        Expr::Index(_, _) => None,
    }
}

/// Whether there are no more parameters than one `int`.
fn takes_no_more(rest: &[Option<Shape>]) -> bool
    ensures { result ≡ spec.takes_int (Some (shaped.Int scalars.I32) ∷ rest.now) }
{
    match rest {
        [] => true,
        [_, ..] => false,
    }
}

/// Whether a parameter of this integer type is one `int`.
fn takes_integer(scalar: Scalar, rest: &[Option<Shape>]) -> bool
    ensures { result ≡ spec.takes_int (Some (shaped.Int scalar) ∷ rest.now) }
{
    matches!(scalar, Scalar::I32) && takes_no_more(rest)
}

/// Whether these parameters are one `int`.
fn takes_first(first: &Option<Shape>, rest: &[Option<Shape>]) -> bool
    ensures { result ≡ spec.takes_int (first.now ∷ rest.now) }
{
    match first {
        Some(Shape::Int(scalar)) => takes_integer(*scalar, rest),
        Some(Shape::Pointer { elem: _, bounds: _ }) => false,
        Some(Shape::Struct(_)) => false,
        Some(Shape::Address) => false,
        None => false,
    }
}

/// Whether the parameters are one `int`.
fn takes_int(params: &[Option<Shape>]) -> bool
    ensures { result ≡ spec.takes_int params.now }
{
    match params {
        [first, rest @ ..] => takes_first(first, rest),
        [] => false,
    }
}

/// Whether there is no result.
fn is_void(returned: Option<&Returned>) -> bool
    ensures { result ≡ spec.is_void (option_copied returned.entry) }
{
    matches!(returned, Some(Returned::Nothing))
}

/// Whether a function has one parameter `int`, and no result.
fn is_handler(f: &Signature) -> bool
    ensures { result ≡ spec.is_handler f.now }
{
    if takes_int(f.params.as_slice()) {
        is_void(f.result.as_ref())
    } else {
        false
    }
}

/// The number of a function, where it can be a handler.
fn handler_number(number: u32, f: Option<&Signature>) -> Option<u32>
    ensures { result ≡ spec.handler_number number (option_copied f.entry) }
{
    match f {
        Some(found) => {
            if is_handler(found) {
                Some(number)
            } else {
                None
            }
        }
        None => None,
    }
}

/// The number of the function with this name, where it can be a handler.
fn handler_named(functions: &Functions, name: &Name) -> Option<u32>
    ensures { result ≡ and_then (spec.function_number functions.now name.now) (λ k. spec.handler_number k (slice_get functions.now k)) }
{
    match functions.number(name) {
        Some(number) => handler_number(number, functions.get(number)),
        None => None,
    }
}

/// The number of the function that is named as a handler: one with a body, one parameter `int` and no result. None where the expression names no such function.
#[tactic(auto, unfolding(deputy_rules::specs::Calls::handler))]
pub(crate) fn handler(functions: &Functions, e: &Expr) -> Option<u32>
    ensures { result ≡ spec.handler functions.now e.now }
{
    match plain_name(e) {
        Some(name) => handler_named(functions, &name),
        None => None,
    }
}
