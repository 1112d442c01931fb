//! What one statement does to its frame's locals and to memory, and where control turns then.
ghost use Rattle.std.specs.Prelude.{◌≡◌, [], All, IfOk, IsTrue, pos, slice_index_or, slice_set};
ghost use Rattle.checked_tree.specs.Act as spec;
ghost use Rattle.checked_tree.specs.Numbers.{is_value};
ghost use Rattle.checked_tree.specs.declared.statements.CheckedStmt.{out-CheckedStmt};
ghost use Rattle.checked_tree.specs.declared.statements.CheckedStmt.TheOpen as forms;
ghost use Rattle.driver_machine.specs.Acts.{Acts, GoesOn, HasValue, has_room, state};

use crate::arguments::collect;
use crate::checks::test_all;
use crate::evaluation::eval;
use crate::memory::{clear, store};
use crate::numbers::holds;
use crate::operands::{operand, optional_argument, optional_operand, taken};
use crate::state::State;
use crate::turn::Turn;
use arrayvec::ArrayVec;
use byte_memory::Tested;
use checked_tree::{
    CheckedExpr, CheckedFn, CheckedStmt, KernelCall, KernelName, PointerOperand, Scalar, Stop,
};
use sd_base::Fat;
use sd_base::limits::LOCALS;

/// Sets a slot; where there is none, nothing.
pub fn set_local(locals: &mut [i64], slot: usize, value: i64)
    requires value { IsTrue (is_value value) }
    requires words { All (λ z. IsTrue (is_value z)) locals.old }
    ensures value { locals.new ≡ slice_set locals.old slot value }
    ensures words { All (λ z. IsTrue (is_value z)) locals.new }
{
    if slot < locals.len() {
        locals[slot] = value;
    }
}

/// Sets a slot to a pointer, and two hidden slots to its bounds.
pub fn set_pointer(locals: &mut [i64], slot: u32, hidden: u32, pointer: Fat)
    requires { All (λ z. IsTrue (is_value z)) locals.old }
    ensures value { locals.new ≡ spec.pointer_set locals.old slot hidden pointer }
    ensures words { All (λ z. IsTrue (is_value z)) locals.new }
{
    set_local(locals, slot as usize, i64::from(pointer.value));
    set_local(locals, hidden as usize, i64::from(pointer.lo));
    set_local(locals, hidden as usize + 1, i64::from(pointer.hi));
}

/// `l = e` for an integer local, or a pointer local whose bounds its annotation gives.
#[tactic(auto, unfolding(checked_tree::specs::Act::act))]
fn assign(
    f: &CheckedFn,
    locals: &mut [i64],
    memory: &Tested,
    slot: u32,
    scalar: Scalar,
    value: &CheckedExpr,
    checks: &[usize],
) -> Result<(), Stop>
    requires { All (λ z. IsTrue (is_value z)) locals.old }
    ensures act { GoesOn (spec.act [] f.now (state locals.old memory.now) (forms.Assign 0 slot scalar value.now checks.now))
        (state locals.old memory.now) result (state locals.new memory.now) }
    ensures words { All (λ z. IsTrue (is_value z)) locals.new }
{
    let new = {
        let s = State {
            locals: &*locals,
            memory,
        };
        let v = eval(&s, f, value)?;
        test_all(&s, f, checks)?;
        taken(scalar, v)?
    };
    set_local(locals, slot as usize, new);
    Ok(())
}

/// `l = e` for a pointer local whose bounds lie in two hidden slots.
#[tactic(auto, unfolding(checked_tree::specs::Act::act))]
fn assign_automatic(
    f: &CheckedFn,
    locals: &mut [i64],
    memory: &Tested,
    slot: u32,
    hidden: u32,
    value: &PointerOperand,
    checks: &[usize],
) -> Result<(), Stop>
    requires { All (λ z. IsTrue (is_value z)) locals.old }
    ensures act { GoesOn (spec.act [] f.now (state locals.old memory.now) (forms.AssignAutomatic 0 slot hidden value.now checks.now))
        (state locals.old memory.now) result (state locals.new memory.now) }
    ensures words { All (λ z. IsTrue (is_value z)) locals.new }
{
    let pointer = {
        let s = State {
            locals: &*locals,
            memory,
        };
        let p = operand(&s, f, value)?;
        test_all(&s, f, checks)?;
        p
    };
    set_pointer(locals, slot, hidden, pointer);
    Ok(())
}

/// `l = e` for a place.
#[tactic(auto, unfolding(checked_tree::specs::Act::act))]
fn assign_place(
    f: &CheckedFn,
    locals: &[i64],
    memory: &mut Tested,
    scalar: Scalar,
    place: &CheckedExpr,
    value: &CheckedExpr,
    checks: &[usize],
) -> Result<(), Stop>
    requires { All (λ z. IsTrue (is_value z)) locals.now }
    ensures { GoesOn (spec.act [] f.now (state locals.now memory.old) (forms.Store 0 scalar place.now value.now checks.now))
        (state locals.now memory.old) result (state locals.now memory.new) }
{
    let (at, new) = {
        let s = State {
            locals,
            memory: &*memory,
        };
        let v = eval(&s, f, value)?;
        let at = eval(&s, f, place)?;
        test_all(&s, f, checks)?;
        (at, taken(scalar, v)?)
    };
    store(memory, scalar, at, new)
}

/// `zero(l)`.
#[tactic(auto, unfolding(checked_tree::specs::Act::act))]
fn zero(
    f: &CheckedFn,
    locals: &[i64],
    memory: &mut Tested,
    place: &CheckedExpr,
    size: u32,
) -> Result<(), Stop>
    requires { All (λ z. IsTrue (is_value z)) locals.now }
    ensures { GoesOn (spec.act [] f.now (state locals.now memory.old) (forms.Zero 0 place.now size))
        (state locals.now memory.old) result (state locals.now memory.new) }
{
    let at = {
        let s = State {
            locals,
            memory: &*memory,
        };
        eval(&s, f, place)?
    };
    clear(memory, at, size)
}

/// The first four of some numbers, and 0 for those that are not there.
fn four(numbers: &[i64]) -> [i64; 4]
    ensures { result ≡ spec.four numbers.now }
{
    [
        nth(numbers, 0),
        nth(numbers, 1),
        nth(numbers, 2),
        nth(numbers, 3),
    ]
}

/// A number by its place, 0 where there is none.
fn nth(numbers: &[i64], place: usize) -> i64
    ensures { result ≡ slice_index_or numbers.now place (pos 0) }
{
    match numbers.get(place) {
        Some(number) => *number,
        None => 0,
    }
}

/// The kernel call of a statement.
fn kernel_call(
    name: KernelName,
    function: u32,
    elem: u32,
    size: u32,
    numbers: &[i64],
    pointer: Fat,
) -> KernelCall
    ensures { result ≡ spec.kernel_call name function elem size numbers.now pointer }
{
    KernelCall {
        name,
        args: four(numbers),
        function,
        elem,
        size,
        pointer,
    }
}

/// What one statement does: the locals and the memory that it leaves, and where control turns. Where it stops, both are as they were. Of a call, the arguments
/// are left in `arguments`.
#[tactic(auto, unfolding(checked_tree::specs::Act::act))]
pub fn act(
    f: &CheckedFn,
    locals: &mut [i64],
    memory: &mut Tested,
    arguments: &mut ArrayVec<i64, LOCALS>,
    statement: &CheckedStmt,
) -> Result<Turn, Stop>
    requires words { All (λ z. IsTrue (is_value z)) locals.old }
    requires room { IsTrue (has_room (out-CheckedStmt statement.now)) }
    ensures act { Acts (spec.act [] f.now (state locals.old memory.old) (out-CheckedStmt statement.now))
        (state locals.old memory.old) result (state locals.new memory.new) arguments.new.items }
    ensures words { All (λ z. IsTrue (is_value z)) locals.new }
    ensures arguments { All (λ z. IsTrue (is_value z)) arguments.old.items → All (λ z. IsTrue (is_value z)) arguments.new.items }
    ensures range { IfOk result HasValue }
{
    match statement {
        CheckedStmt::Empty { line: _ } => Ok(Turn::On),
        CheckedStmt::Assign {
            line: _,
            slot,
            scalar,
            value,
            checks,
        } => {
            assign(
                f,
                locals,
                &*memory,
                *slot,
                *scalar,
                value.get(),
                checks.as_slice(),
            )?;
            Ok(Turn::On)
        }
        CheckedStmt::AssignAutomatic {
            line: _,
            slot,
            hidden,
            value,
            checks,
        } => {
            assign_automatic(
                f,
                locals,
                &*memory,
                *slot,
                *hidden,
                value,
                checks.as_slice(),
            )?;
            Ok(Turn::On)
        }
        CheckedStmt::Store {
            line: _,
            scalar,
            place,
            value,
            checks,
        } => {
            assign_place(
                f,
                &*locals,
                memory,
                *scalar,
                place.get(),
                value.get(),
                checks.as_slice(),
            )?;
            Ok(Turn::On)
        }
        CheckedStmt::Zero {
            line: _,
            place,
            size,
        } => {
            zero(f, &*locals, memory, place.get(), *size)?;
            Ok(Turn::On)
        }
        CheckedStmt::Call {
            line: _,
            target: _,
            function,
            arguments: values,
            checks,
        } => {
            let s = State {
                locals: &*locals,
                memory: &*memory,
            };
            collect(&s, f, values.as_slice(), arguments)?;
            test_all(&s, f, checks.as_slice())?;
            Ok(Turn::Calls(*function))
        }
        CheckedStmt::Kernel {
            line: _,
            target: _,
            name,
            arguments: values,
            pointer,
            function,
            elem,
            size,
        } => {
            let s = State {
                locals: &*locals,
                memory: &*memory,
            };
            collect(&s, f, values.as_slice(), arguments)?;
            let p = optional_operand(&s, f, pointer)?;
            Ok(Turn::Asks(kernel_call(*name, *function, *elem, *size, arguments.as_slice(), p)))
        }
        CheckedStmt::Return {
            line: _,
            value,
            checks,
        } => {
            let s = State {
                locals: &*locals,
                memory: &*memory,
            };
            let result = optional_argument(&s, f, value)?;
            test_all(&s, f, checks.as_slice())?;
            Ok(Turn::Returns(result))
        }
        CheckedStmt::If {
            line: _,
            test,
            holds: _,
            fails: _,
        } => {
            let s = State {
                locals: &*locals,
                memory: &*memory,
            };
            let value = eval(&s, f, test.get())?;
            Ok(Turn::Into(holds(value)))
        }
        CheckedStmt::While {
            line: _,
            test,
            body: _,
        } => {
            let s = State {
                locals: &*locals,
                memory: &*memory,
            };
            let value = eval(&s, f, test.get())?;
            Ok(Turn::Into(holds(value)))
        }
    }
}
