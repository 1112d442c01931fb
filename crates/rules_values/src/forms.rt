//! The forms of checked expressions, in boxes. The only refusal of each is want of memory.
ghost use Rattle.std.specs.Prelude.{◌≡◌, [], IfOk};
ghost use Rattle.checked_tree.specs.declared.expressions.CheckedExpr.TheVariants as form;

use checked_tree::{Arithmetic, CheckedExpr, Comparison, Logic, PointerSum, Scalar, Unary};
use sqlite_items::{Boxed, Items};
use std::alloc::{AllocError, Global};

/// The form of an expression.
type Form = Boxed<CheckedExpr>;

/// A constant of this type.
pub fn number_form(alloc: Global, value: i64, scalar: Scalar) -> Result<Form, AllocError>
    ensures { IfOk result (λ f. f ≡ form.Number value scalar) }
{
    Boxed::new(alloc, CheckedExpr::Number { value, scalar })
}

/// The null pointer.
pub fn null_form(alloc: Global) -> Result<Form, AllocError>
    ensures { IfOk result (λ f. f ≡ form.Null) }
{
    Boxed::new(alloc, CheckedExpr::Null)
}

/// The value of a slot.
pub fn local_form(alloc: Global, slot: u32) -> Result<Form, AllocError>
    ensures { IfOk result (λ f. f ≡ form.Local slot) }
{
    Boxed::new(alloc, CheckedExpr::Local { slot })
}

/// The place at which a block of the load image begins.
pub fn block_form(alloc: Global, base: u32) -> Result<Form, AllocError>
    ensures { IfOk result (λ f. f ≡ form.Block base) }
{
    Boxed::new(alloc, CheckedExpr::Block { base })
}

/// The place that a pointer points to.
pub fn through_form(alloc: Global, pointer: Form, checks: Items<usize>) -> Result<Form, AllocError>
    ensures { IfOk result (λ f. f ≡ form.Through pointer checks) }
{
    Boxed::new(alloc, CheckedExpr::Through { pointer, checks })
}

/// The place of an element of `size` bytes.
pub fn element_form(
    alloc: Global,
    pointer: Form,
    index: Form,
    size: u32,
    checks: Items<usize>,
) -> Result<Form, AllocError>
    ensures { IfOk result (λ f. f ≡ form.Element pointer index size checks) }
{
    Boxed::new(
        alloc,
        CheckedExpr::Element {
            pointer,
            index,
            size,
            checks,
        },
    )
}

/// The place of a field of a struct place.
pub fn field_form(
    alloc: Global,
    place: Form,
    offset: u32,
    checks: Items<usize>,
) -> Result<Form, AllocError>
    ensures { IfOk result (λ f. f ≡ form.Field place offset checks) }
{
    Boxed::new(
        alloc,
        CheckedExpr::Field {
            place,
            offset,
            checks,
        },
    )
}

/// The value of a place.
pub fn load_form(alloc: Global, scalar: Scalar, place: Form) -> Result<Form, AllocError>
    ensures { IfOk result (λ f. f ≡ form.Load scalar place) }
{
    Boxed::new(alloc, CheckedExpr::Load { scalar, place })
}

/// The address of a place.
pub fn address_form(alloc: Global, place: Form) -> Result<Form, AllocError>
    ensures { IfOk result (λ f. f ≡ form.AddressOf place) }
{
    Boxed::new(alloc, CheckedExpr::AddressOf { place })
}

/// A pointer that is moved by a number of elements of `size` bytes.
pub fn moved_form(
    alloc: Global,
    sum: PointerSum,
    pointer: Form,
    by: Form,
    size: u32,
    checks: Items<usize>,
) -> Result<Form, AllocError>
    ensures { IfOk result (λ f. f ≡ form.Moved sum pointer by size checks) }
{
    Boxed::new(
        alloc,
        CheckedExpr::Moved {
            sum,
            pointer,
            by,
            size,
            checks,
        },
    )
}

/// A number from one other.
pub fn unary_form(alloc: Global, op: Unary, scalar: Scalar, of: Form) -> Result<Form, AllocError>
    ensures { IfOk result (λ f. f ≡ form.Unary op scalar of) }
{
    Boxed::new(alloc, CheckedExpr::Unary { op, scalar, of })
}

/// A number from two others.
pub fn binary_form(
    alloc: Global,
    op: Arithmetic,
    scalar: Scalar,
    left: Form,
    right: Form,
    checks: Items<usize>,
) -> Result<Form, AllocError>
    ensures { IfOk result (λ f. f ≡ form.Binary op scalar left right checks) }
{
    Boxed::new(
        alloc,
        CheckedExpr::Binary {
            op,
            scalar,
            left,
            right,
            checks,
        },
    )
}

/// A comparison of two numbers.
pub fn compare_form(
    alloc: Global,
    op: Comparison,
    scalar: Scalar,
    left: Form,
    right: Form,
) -> Result<Form, AllocError>
    ensures { IfOk result (λ f. f ≡ form.Compare op scalar left right) }
{
    Boxed::new(
        alloc,
        CheckedExpr::Compare {
            op,
            scalar,
            left,
            right,
        },
    )
}

/// Two numbers, of which the right one is needed only after one value of the left one.
pub fn logical_form(alloc: Global, op: Logic, left: Form, right: Form) -> Result<Form, AllocError>
    ensures { IfOk result (λ f. f ≡ form.Logical op left right) }
{
    Boxed::new(alloc, CheckedExpr::Logical { op, left, right })
}
