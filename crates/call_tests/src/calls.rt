//! Kernel calls with their answers, one after the other on one set of tables.
//!
//! A row is a call: its name, the owner and the task that make it, its three numbers, and one more number that is its handler, the size of
//! its elements or its pointer. Two more say how often it is made, and how much greater its first number is each time; then the answer is that of the last. Numbers
//! at the end that are 0 are left out. Behind it stands what it comes to, of a text that is printed how many of its bytes are told and whether there are more. A row
//! `clock N` sets the clock, and a row `answer PORT V` lays down an answer of a port.
ghost use Rattle.std.specs.Prelude.{◌≡◌, ◌<◌, ◌^◌, IfOk, length};

use crate::history::HISTORY;
use crate::table::{CAPS, TABLE};
use byte_memory::Tested;
use checked_tree::{KERNEL_CALLS, KernelCall, KernelName, kernel_row};
use device_model::Devices;
use kernel_tables::Kernel;
use sd_base::{Fat, Update, Who};
use std::alloc::{AllocError, Global};
use std::process::Abort;
use std::test::Fail;
use update_tracker::{Tracked, is_proper};
use wrappers::{CallOut, Saying, serve_call};

/// New tables, tracked, of whose lines each may have one holder.
fn new_tracked(alloc: Global) -> Result<Tracked, AllocError> {
    let kernel = Kernel::new(alloc)?;
    Tracked::new(alloc, kernel)
}

/// Fills these addresses, which are granted, with a byte that is no 0.
fn fill(rt: &impl Abort, memory: &mut Tested, from: u32, end: u32)
    ensures { length memory.new.bytes ≡ length memory.old.bytes }
{
    for at in from..end {
        assert!(rt; memory.inside(at, 1));
        memory.store(at, 1, 88);
    }
}

/// Memory of which the addresses from 16 up to 1,116 are granted, with a text of 1,000 bytes from 16.
fn some_memory(rt: &impl Abort, alloc: Global) -> Result<Tested, AllocError>
    ensures { IfOk result (λ memory. length memory.bytes < 2 ^ 32) }
{
    let mut memory = Tested::new(alloc, 2_048)?;
    memory.grant(16, 1_100);
    fill(rt, &mut memory, 16, 1_016);
    fill(rt, &mut memory, 1_115, 1_116);
    Ok(memory)
}

/// The call of this spelling.
fn call_named(word: &str) -> Option<KernelName> {
    for place in 0..KERNEL_CALLS.len() {
        let call = KERNEL_CALLS[place];
        if kernel_row(call).spelling == word.as_bytes() {
            return Some(call);
        }
    }
    None
}

/// The numbers of a row behind its name.
fn numbers_of(row: &str) -> [i64; 8] {
    let mut numbers = [0; 8];
    let mut place = 0usize;
    for word in row.split(' ') {
        if 1 <= place && place <= 8 {
            numbers[place - 1] = word.parse::<i64>().unwrap_or(0);
        }
        place = place.saturating_add(1);
    }
    numbers
}

/// The call with these numbers, made for the time `k`, counted from 0.
fn call_of(name: KernelName, numbers: &[i64; 8], k: i64) -> KernelCall {
    let part = u32::try_from(numbers[5]).unwrap_or(0);
    let first = numbers[2].saturating_add(k.saturating_mul(numbers[7]));
    KernelCall {
        name,
        args: [first, numbers[3], numbers[4], 0],
        function: part,
        elem: 0,
        size: part,
        pointer: Fat {
            value: part,
            lo: part,
            hi: part,
        },
    }
}

/// The activity with these numbers.
fn who_of(numbers: &[i64; 8]) -> Who {
    Who {
        owner: u8::try_from(numbers[0]).unwrap_or(0),
        task: u8::try_from(numbers[1]).unwrap_or(0),
    }
}

/// Sets the clock.
fn set_clock(rt: &impl Abort, kernel: &mut Tracked, now: i64) -> CallOut {
    let update = Update::Clock {
        now: u32::try_from(now).unwrap_or(0),
    };
    assert!(rt; is_proper(0, update));
    assert!(rt; kernel.update(0, update).is_ok());
    CallOut::Reply(0)
}

/// Lays down an answer of a port, for which there is room.
fn lay_down(rt: &impl Abort, devices: &mut Devices, port: i64, v: i64) -> CallOut {
    let port = u16::try_from(port).unwrap_or(0);
    let v = i32::try_from(v).unwrap_or(0);
    assert!(rt; devices.answer(port, v).is_ok());
    CallOut::Reply(0)
}

/// Makes a call.
fn served(
    rt: &impl Abort,
    kernel: &mut Tracked,
    memory: &Tested,
    devices: &mut Devices,
    who: Who,
    call: &KernelCall,
) -> CallOut
    requires { length memory.now.bytes < 2 ^ 32 }
{
    assert!(rt; 1 <= who.owner && who.owner <= 4 && who.task <= 8);
    let now = kernel.kernel().now;
    assert!(rt; now <= 2_000_000_000);
    serve_call(kernel, memory, devices, who, call)
}

/// Makes a call as often as its numbers say, and answers what the last comes to.
fn answered(
    rt: &impl Abort,
    kernel: &mut Tracked,
    memory: &Tested,
    devices: &mut Devices,
    name: KernelName,
    numbers: &[i64; 8],
) -> CallOut
    requires { length memory.now.bytes < 2 ^ 32 }
{
    let who = who_of(numbers);
    let mut out = served(rt, kernel, memory, devices, who, &call_of(name, numbers, 0));
    for k in 1..numbers[6] {
        out = served(rt, kernel, memory, devices, who, &call_of(name, numbers, k));
    }
    out
}

/// What a row comes to. None where its word is no call.
fn outcome(
    rt: &impl Abort,
    kernel: &mut Tracked,
    memory: &Tested,
    devices: &mut Devices,
    row: &str,
) -> Option<CallOut>
    requires { length memory.now.bytes < 2 ^ 32 }
{
    let numbers = numbers_of(row);
    match row.split(' ').next().unwrap_or("") {
        "clock" => Some(set_clock(rt, kernel, numbers[0])),
        "answer" => Some(lay_down(rt, devices, numbers[0], numbers[1])),
        word => match call_named(word) {
            Some(name) => Some(answered(rt, kernel, memory, devices, name, &numbers)),
            None => None,
        },
    }
}

/// How the answer of a row is written.
fn written(alloc: Global, out: CallOut) -> Result<String, AllocError> {
    match out {
        CallOut::Said(Saying::Text(text)) => {
            format!(in alloc; "=> Text({}, {})", text.len, text.more)
        }
        other => format!(in alloc; "=> {other:?}"),
    }
}

/// Whether this is what the row comes to.
fn is_answer_of(alloc: Global, row: &str, out: CallOut) -> Result<bool, AllocError> {
    let found = written(alloc, out)?;
    Ok(row.ends_with(found.as_str()))
}

/// Makes the calls of a table, and gives the first row that comes out otherwise; an empty text where each comes out as it says.
fn first_wrong<'t>(
    rt: &impl Abort,
    alloc: Global,
    kernel: &mut Tracked,
    memory: &Tested,
    devices: &mut Devices,
    table: &'t str,
) -> Result<&'t str, AllocError>
    requires { length memory.now.bytes < 2 ^ 32 }
{
    for row in table.lines() {
        match outcome(rt, kernel, memory, devices, row) {
            Some(out) => {
                if !is_answer_of(alloc, row, out)? {
                    return Ok(row);
                }
            }
            None => return Ok(row),
        }
    }
    Ok("")
}

/// The same, on new tables.
fn wrong_in<'t>(rt: &impl Abort, alloc: Global, table: &'t str) -> Result<&'t str, AllocError> {
    let mut kernel = new_tracked(alloc)?;
    let memory = some_memory(rt, alloc)?;
    let mut devices = Devices::new(alloc, 8)?;
    first_wrong(rt, alloc, &mut kernel, &memory, &mut devices, table)
}

#[test]
fn each_call_has_each_of_its_answers(rt: HostRuntime) -> Result<(), Fail> {
    assert_eq!(rt; wrong_in(&rt, rt.alloc(), TABLE)?, "");
    Ok(())
}

#[test]
fn a_history_of_200_calls(rt: HostRuntime) -> Result<(), Fail> {
    assert_eq!(rt; wrong_in(&rt, rt.alloc(), HISTORY)?, "");
    Ok(())
}

#[test]
fn an_owner_has_as_many_as_it_may_have(rt: HostRuntime) -> Result<(), Fail> {
    assert_eq!(rt; wrong_in(&rt, rt.alloc(), CAPS)?, "");
    Ok(())
}
