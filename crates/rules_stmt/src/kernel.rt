//! Kernel calls, `kalloc` and `kfree`.
ghost use Rattle.std.specs.Prelude.{◌≡◌, if◌then◌else◌, Some, None, [], ◌∷◌, option_copied};
ghost use Rattle.checked_tree.specs.declared.statements.CheckedStmt.TheVariants as statement;
ghost use Rattle.checked_tree.specs.declared.kernel.KernelName.TheVariants as kernel;
ghost use Rattle.checked_tree.specs.declared.kernel_table.ParameterKind.TheVariants as argument;
ghost use Rattle.deputy_rules.specs.Calls as spec;
ghost use Rattle.deputy_rules.specs.Coercion as coercion;
ghost use Rattle.checked_tree.specs.KernelTable.{kernel_row as row_of};
ghost use Rattle.deputy_rules.specs.Deriving.{Derives, Yields, bind, lift, pure};
ghost use Rattle.deputy_types.specs.Options.{and_then};
ghost use Rattle.deputy_rules.specs.Values.{value_of as value_in};

use crate::calls::call_named;
use crate::handlers::handler;
use c_tree::{Expr, TypeName};
use checked_tree::{
    Argument, CheckedStmt, KernelName, KernelResult, ParameterKind, PointerOperand, Scalar, Shape,
    Target, kernel_named, kernel_row,
};
use deputy_rules::{
    Asked, Derived, DerivingRefusal, Handed, KernelArguments, Pointed, Returned, Value,
};
use deputy_types::Element;
use rules_assign::{handed, handed_over, null, null_number};
use rules_coerce::{call_target, kalloc_target};
use rules_expr::derive;
use rules_heads::Functions;
use rules_types::promoted;
use rules_values::{Context, integer_of, value_of};
use sd_base::Name;
use sqlite_items::Items;
use std::alloc::Global;

/// The pointer that is handed over.
fn operand(h: Handed) -> PointerOperand
    ensures { result ≡ spec.operand h }
{
    PointerOperand {
        value: h.form,
        low: h.low,
        high: h.high,
    }
}

/// Nothing handed over yet.
fn no_arguments(alloc: Global) -> KernelArguments
    ensures { result ≡ spec.no_arguments }
{
    KernelArguments {
        numbers: Items::new(alloc),
        pointer: None,
        handler: 0,
    }
}

/// An integer argument of a kernel call, behind those that are there.
#[tactic(auto, unfolding(deputy_rules::specs::Deriving::bind, deputy_rules::specs::Calls::kernel_argument))]
fn number_argument(
    alloc: Global,
    ctx: &Context<'_>,
    functions: &Functions,
    e: &Expr,
    given: KernelArguments,
    asked: &mut Items<Asked>,
) -> Result<KernelArguments, DerivingRefusal>
    ensures { Derives (spec.kernel_argument ctx.now functions.now argument.Number e.now given asked.old) result asked.new }
{
    let derived = derive(alloc, ctx, e, asked)?;
    let w = integer_of(alloc, ctx, derived)?;
    let mut more = given;
    more.numbers.push(Argument {
        scalar: Scalar::I32,
        value: w.form,
    })?;
    Ok(more)
}

/// A text that is handed over.
#[tactic(auto, unfolding(deputy_rules::specs::Deriving::bind, deputy_rules::specs::Calls::kernel_argument))]
fn text_argument(
    alloc: Global,
    ctx: &Context<'_>,
    functions: &Functions,
    e: &Expr,
    given: KernelArguments,
    asked: &mut Items<Asked>,
) -> Result<KernelArguments, DerivingRefusal>
    ensures { Derives (spec.kernel_argument ctx.now functions.now argument.Text e.now given asked.old) result asked.new }
{
    let derived = derive(alloc, ctx, e, asked)?;
    let h = handed(alloc, ctx, Element::Int(Scalar::U8), true, derived)?;
    let mut more = given;
    more.pointer = Some(operand(h));
    Ok(more)
}

/// A handler that is handed over.
#[tactic(auto, unfolding(deputy_rules::specs::Deriving::bind, deputy_rules::specs::Calls::kernel_argument))]
fn handler_argument(
    ctx: &Context<'_>,
    functions: &Functions,
    e: &Expr,
    given: KernelArguments,
    asked: &mut Items<Asked>,
) -> Result<KernelArguments, DerivingRefusal>
    ensures { Derives (spec.kernel_argument ctx.now functions.now argument.Handler e.now given asked.old) result asked.new }
{
    match handler(functions, e) {
        Some(number) => {
            let mut more = given;
            more.handler = number;
            Ok(more)
        }
        None => Err(DerivingRefusal::NoRule),
    }
}

/// One argument of a kernel call, behind those that are there. No rule for what `kalloc` and `kfree` take.
#[tactic(auto, unfolding(deputy_rules::specs::Calls::kernel_argument))]
fn kernel_argument(
    alloc: Global,
    ctx: &Context<'_>,
    functions: &Functions,
    kind: ParameterKind,
    e: &Expr,
    given: KernelArguments,
    asked: &mut Items<Asked>,
) -> Result<KernelArguments, DerivingRefusal>
    ensures { Derives (spec.kernel_argument ctx.now functions.now kind e.now given asked.old) result asked.new }
{
    match kind {
        ParameterKind::Number => number_argument(alloc, ctx, functions, e, given, asked),
        ParameterKind::Text => text_argument(alloc, ctx, functions, e, given, asked),
        ParameterKind::Handler => handler_argument(ctx, functions, e, given, asked),
        ParameterKind::Element => Err(DerivingRefusal::NoRule),
        ParameterKind::Block => Err(DerivingRefusal::NoRule),
    }
}

/// The arguments from left to right, one for each of the call's kinds. No rule where there are more or fewer.
#[tactic(auto, unfolding(deputy_rules::specs::Deriving::bind))]
fn kernel_arguments(
    alloc: Global,
    ctx: &Context<'_>,
    functions: &Functions,
    kinds: &[ParameterKind],
    args: &[Expr],
    asked: &mut Items<Asked>,
) -> Result<KernelArguments, DerivingRefusal>
    ensures { Derives (spec.kernel_arguments ctx.now functions.now kinds.now args.now spec.no_arguments asked.old) result asked.new }
{
    let mut given = no_arguments(alloc);
    let mut rest = kinds;
    for e in args {
        match rest {
            [kind, more @ ..] => {
                given = kernel_argument(alloc, ctx, functions, *kind, e, given, asked)?;
                rest = more;
            }
            [] => return Err(DerivingRefusal::NoRule),
        }
    }
    match rest {
        [] => Ok(given),
        [_, ..] => Err(DerivingRefusal::NoRule),
    }
}

/// What a kernel call gives back. None where it is a block.
fn kernel_result(given: KernelResult) -> Option<Returned>
    ensures { result ≡ spec.kernel_result given }
{
    match given {
        KernelResult::Nothing => Some(Returned::Nothing),
        KernelResult::Number => Some(Returned::Value(Shape::Int(Scalar::I32))),
        KernelResult::Block => None,
    }
}

/// The target of a kernel call.
fn kernel_target(ctx: &Context<'_>, name: KernelName, x: Option<&Name>) -> Option<Option<Target>>
    ensures { result ≡ spec.call_target ctx.now (spec.kernel_result (row_of name).result) (option_copied x.entry) }
{
    let returned = kernel_result(kernel_row(name).result);
    call_target(ctx, returned.as_ref(), x)
}

/// The form of a kernel call without an element type.
fn kernel_form(
    ctx: &Context<'_>,
    target: Option<Target>,
    name: KernelName,
    given: KernelArguments,
) -> CheckedStmt
    ensures { result ≡ statement.Kernel ctx.now.line target name given.numbers given.pointer given.handler 0 0 }
{
    CheckedStmt::Kernel {
        line: ctx.line,
        target,
        name,
        arguments: given.numbers,
        pointer: given.pointer,
        function: given.handler,
        elem: 0,
        size: 0,
    }
}

/// A kernel call.
#[tactic(auto, unfolding(deputy_rules::specs::Deriving::bind, deputy_rules::specs::Calls::call_kernel))]
fn call_kernel(
    alloc: Global,
    ctx: &Context<'_>,
    functions: &Functions,
    name: KernelName,
    x: Option<&Name>,
    args: &[Expr],
    asked: &mut Items<Asked>,
) -> Result<CheckedStmt, DerivingRefusal>
    ensures { Derives (spec.call_kernel ctx.now functions.now name (option_copied x.entry) args.now asked.old) result asked.new }
{
    match kernel_target(ctx, name, x) {
        Some(target) => {
            let kinds = kernel_row(name).parameters;
            let given = kernel_arguments(alloc, ctx, functions, kinds, args, asked)?;
            Ok(kernel_form(ctx, target, name, given))
        }
        None => Err(DerivingRefusal::NoRule),
    }
}

/// `f(..)` and `x = f(..)`, of a kernel call or of a function with a body. No rule where there is none of this name, an argument is too many or too few or has no such
/// type, or x may not take the result.
#[tactic(auto, unfolding(deputy_rules::specs::Calls::call))]
pub(crate) fn call(
    alloc: Global,
    ctx: &Context<'_>,
    functions: &Functions,
    x: Option<&Name>,
    name: &Name,
    args: &[Expr],
    asked: &mut Items<Asked>,
) -> Result<CheckedStmt, DerivingRefusal>
    ensures { Derives (spec.call ctx.now functions.now (option_copied x.entry) name.now args.now asked.old) result asked.new }
{
    match kernel_named(name) {
        Some(found) => call_kernel(alloc, ctx, functions, found, x, args, asked),
        None => call_named(alloc, ctx, functions, name, x, args, asked),
    }
}

/// The number of elements, which is taken as a whole number.
#[tactic(auto, unfolding(deputy_rules::specs::Deriving::bind, deputy_rules::specs::Calls::counted))]
fn counted(
    alloc: Global,
    ctx: &Context<'_>,
    e: &Expr,
    asked: &mut Items<Asked>,
) -> Result<Argument, DerivingRefusal>
    ensures { Derives (spec.counted ctx.now e.now asked.old) result asked.new }
{
    let derived = derive(alloc, ctx, e, asked)?;
    let w = integer_of(alloc, ctx, derived)?;
    Ok(Argument {
        scalar: promoted(w.scalar),
        value: w.form,
    })
}

/// The bytes of the element with this number. None where there is none.
fn elem_bytes(ctx: &Context<'_>, elem: u32) -> Option<u32>
    ensures { result ≡ spec.elem_bytes ctx.now elem }
{
    match ctx.types.element_at(elem) {
        Some(key) => Some(ctx.size_of(key)),
        None => None,
    }
}

/// `x = kalloc(T, e)` with the target x and the number of elements.
fn kalloc_form(
    alloc: Global,
    ctx: &Context<'_>,
    target: Target,
    count: Argument,
    elem: u32,
    size: u32,
) -> Result<CheckedStmt, DerivingRefusal>
    ensures { Yields (Some (statement.Kernel ctx.now.line (Some target) kernel.Kalloc (count ∷ []) None 0 elem size)) result }
{
    let mut arguments = Items::new(alloc);
    arguments.push(count)?;
    Ok(CheckedStmt::Kernel {
        line: ctx.line,
        target: Some(target),
        name: KernelName::Kalloc,
        arguments,
        pointer: None,
        function: 0,
        elem,
        size,
    })
}

/// The same with the target x.
#[tactic(auto, unfolding(deputy_rules::specs::Deriving::bind))]
fn kalloc_to(
    alloc: Global,
    ctx: &Context<'_>,
    target: Target,
    elem: u32,
    e: &Expr,
    asked: &mut Items<Asked>,
) -> Result<CheckedStmt, DerivingRefusal>
    ensures { Derives
        (bind (spec.counted ctx.now e.now) (λ a. bind (lift (spec.elem_bytes ctx.now elem)) (λ size.
        pure (statement.Kernel ctx.now.line (Some target) kernel.Kalloc (a ∷ []) None 0 elem size))) asked.old)
        result asked.new }
{
    let count = counted(alloc, ctx, e, asked)?;
    match elem_bytes(ctx, elem) {
        Some(size) => kalloc_form(alloc, ctx, target, count, elem, size),
        None => Err(DerivingRefusal::NoRule),
    }
}

/// `x = kalloc(T, e)`. No rule where x is no local or parameter that takes its bounds with it and that no annotation names, its element is not T, or e is no integer.
#[tactic(auto, unfolding(deputy_rules::specs::Deriving::bind, deputy_rules::specs::Calls::kalloc))]
pub(crate) fn kalloc(
    alloc: Global,
    ctx: &Context<'_>,
    x: &Name,
    type_name: &TypeName,
    e: &Expr,
    asked: &mut Items<Asked>,
) -> Result<CheckedStmt, DerivingRefusal>
    ensures { Derives (spec.kalloc ctx.now x.now type_name.now e.now asked.old) result asked.new }
{
    match ctx.types.elem(type_name) {
        Some(elem) => match kalloc_target(ctx, x, elem) {
            Some(target) => kalloc_to(alloc, ctx, target, elem, e, asked),
            None => Err(DerivingRefusal::NoRule),
        },
        None => Err(DerivingRefusal::NoRule),
    }
}

/// A pointer that is given back: none to text.
fn freed_pointer(p: Pointed) -> Result<Handed, DerivingRefusal>
    ensures { Yields (if p.nullterm then None else Some (coercion.handed_over p)) result }
{
    if p.nullterm {
        Err(DerivingRefusal::NoRule)
    } else {
        Ok(handed_over(p))
    }
}

/// A value that is given back: a pointer that is not nullterm, or a null constant.
#[tactic(auto, unfolding(deputy_rules::specs::Calls::freed_value))]
fn freed_value(alloc: Global, value: Value) -> Result<Handed, DerivingRefusal>
    ensures { Yields (spec.freed_value value) result }
{
    match value {
        Value::Null => Ok(null(alloc)?),
        Value::Int(w) => null_number(alloc, w),
        Value::Pointer(p) => freed_pointer(p),
    }
}

/// What was derived, where it is given back.
fn freed(alloc: Global, ctx: &Context<'_>, derived: Derived) -> Result<Handed, DerivingRefusal>
    ensures { Yields (and_then (value_in ctx.now derived) spec.freed_value) result }
{
    let value = value_of(alloc, ctx, derived)?;
    freed_value(alloc, value)
}

/// The form of `kfree`.
fn kfree_form(alloc: Global, ctx: &Context<'_>, h: Handed) -> CheckedStmt
    ensures { result ≡ statement.Kernel ctx.now.line None kernel.Kfree [] (Some (spec.operand h)) 0 0 0 }
{
    CheckedStmt::Kernel {
        line: ctx.line,
        target: None,
        name: KernelName::Kfree,
        arguments: Items::new(alloc),
        pointer: Some(operand(h)),
        function: 0,
        elem: 0,
        size: 0,
    }
}

/// `kfree(e)`. No rule where e is no pointer expression or null constant, or nullterm.
#[tactic(auto, unfolding(deputy_rules::specs::Deriving::bind, deputy_rules::specs::Calls::kfree))]
pub(crate) fn kfree(
    alloc: Global,
    ctx: &Context<'_>,
    e: &Expr,
    asked: &mut Items<Asked>,
) -> Result<CheckedStmt, DerivingRefusal>
    ensures { Derives (spec.kfree ctx.now e.now asked.old) result asked.new }
{
    let derived = derive(alloc, ctx, e, asked)?;
    let h = freed(alloc, ctx, derived)?;
    Ok(kfree_form(alloc, ctx, h))
}
