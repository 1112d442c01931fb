//! Drivers that run: what calls of their functions do, statement by statement, up to their end or to the check that fails. The expected answers are worked by
//! hand after the written rules.
ghost use Rattle.std.specs.Prelude.{◌≡◌, ◌<◌, ◌≤◌, IfOk, IfSome, length};
ghost use Rattle.machine_tests.specs.Belonging.{EachBelongs};

use byte_memory::Tested;
use checked_tree::{Answer, ImageBlock, KernelCall, KernelName};
use driver_front::{DriverRefusal, accept};
use driver_machine::{Busy, Machine, StepOut};
use safe_code::SafeDriver;
use sd_base::{Fat, Memory, Name, Who};
use std::alloc::Global;
use std::fmt::Write;
use std::test::Fail;

/// Texts of drivers, each with what a call of `init` by task 1 comes to: the kernel calls that it makes, its last step, and the number of its steps.
const RUNS: &str = "\
int init(void) { int a; int b; a = -2147483647 - 1; b = -1; printd(a / b); printd(1 << 33); return 7; }
=> Printd -2147483648, Printd 2, Ended(Some(7)), 5 steps
int init(void) { int i; int s; i = 0; s = 0; while (i < 3) { s = s + i; i = i + 1; } return s; }
=> Ended(Some(3)), 13 steps
int f(int n) { int r; if (n == 0) return 0; r = f(n - 1); return r + 1; }
int init(void) { int r; r = f(62); return r; }
=> Ended(Some(62)), 190 steps
int f(int n) { int r;
 if (n == 0) return 0;
 r = f(n - 1);
 return r + 1; }
int init(void) { int r; r = f(63); return r; }
=> Failed(3, Stack), 127 steps
int f(int n) { int r;
 r = f(1 / n);
 return r; }
int init(void) { int r;
 r = f(0); return r; }
=> Failed(2, Check(Div)), 2 steps
int init(void) {
 int *p;
 p = 0;
 return *p; }
=> Failed(4, Check(Null)), 2 steps
int a[4];
int init(void) {
  int *lo;
  int *hi;
  int *bound(lo, hi) p;
  lo = a;
  hi = a + 4;
  p = hi;
  printd(1);
  printd(*p);
  return 0;
}
=> Printd 1, Failed(10, Check(Bound)), 5 steps
int f(int *count(n) p, int n) { return 1; }
int init(void) { int *q; int r; q = kalloc(int, 4); r = f(q, 4); printd(r); r = f(q, 0); printd(r); r = f(q, -1); return 0; }
=> Kalloc 4, Printd 1, Printd 1, Failed(2, Check(Bound)), 8 steps
struct s { int len; int *count(len) buf; };
struct s g;
int init(void) {
  int *q;
  q = kalloc(int, 8);
  g.len = 8;
  g.buf = q;
  g.len = 4;
  printd(g.len);
  g.buf = 0;
  g.len = 8;
  g.buf = q;
  g.len = 9;
  return 0;
}
=> Kalloc 8, Printd 4, Failed(13, Check(Change)), 9 steps
int init(void) {
  char *nullterm s;
  s = \"ab\";
  *s = 'x';
  prints(s);
  s = s + 1;
  s = s + 1;
  *s = 0;
  printd(1);
  *s = 'y';
  return 0;
}
=> Prints 0, Printd 1, Failed(10, Check(Term)), 8 steps
struct v { int t; union { int n when(t == 1); int *safe p when(t == 2); } u; };
struct v g;
int init(void) {
  g.t = 1;
  g.u.n = 5;
  zero(g.u);
  g.t = 2;
  g.t = 1;
  g.u.n = 6;
  g.t = 2;
  return 0;
}
=> Failed(10, Check(Change)), 7 steps
struct v { int t; union { int n when(t == 1); int *safe p when(t == 2); } u; };
struct v g;
int init(void) {
  g.t = 2;
  g.u.n = 5;
  return 0;
}
=> Failed(5, Check(Tag)), 2 steps
int a[4];
int init(void) { int *p; int n; p = a; n = 2147483647; p = p + n; return 0; }
=> Failed(2, Check(Bound)), 3 steps
int init(void) { int *p; int *q; int x; p = kalloc(int, 1); *p = 6; kfree(p); x = *p; printd(x); q = kalloc(int, 1); return x; }
=> Kalloc 1, Kfree 0, Printd 6, Kalloc 1, Ended(Some(6)), 7 steps";

/// A driver for calls on several tasks.
const SUMS: &str = "\
int sum;
int add(unsigned char c) {
  sum = sum + c;
  return sum;
}
void say(int n) {
  printd(n);
}";

/// Calls on one machine, one after the other. `start` has the owner, the task, the number of the function and an argument, `drop` the owner, each other the task.
const CALLS: &str = "\
live 1 => None
line 1 => 0
start 1 1 0 300 => Ok(())
live 1 => Some(1)
line 1 => 3
start 1 1 0 5 => Err(Busy)
start 2 1 1 5 => Err(Busy)
start 2 8 1 -7 => Ok(())
step 1 => Went
line 1 => 4
live 8 => Some(2)
step 1 => Ended(Some(44))
live 1 => None
line 1 => 0
step 8 => Printd -7
stay 8 => done
step 8 => Printd -7
answer 8 => done
line 8 => 8
start 1 1 0 -1 => Ok(())
run 1 => Ended(Some(299)), 2 steps
start 1 0 0 1 => Ok(())
drop 2 => done
live 8 => None
live 0 => Some(1)
run 0 => Ended(Some(300)), 2 steps";

/// A machine, and the memory of the driver that runs on it.
#[derive(Drop)]
struct Rig {
    machine: Machine,
    memory: Tested,
    /// Where the next block lies.
    next: u32,
}

/// Puts the bytes of a block of the image into memory.
fn copy_block(memory: &mut Tested, block: &ImageBlock) {
    let mut at = block.base;
    for byte in block.bytes.as_slice() {
        if memory.inside(at, 1) {
            memory.store(at, 1, u32::from(*byte));
        }
        at = at.saturating_add(1);
    }
}

/// A memory with the image of a driver, of which 60,000 bytes are granted.
fn memory_of(alloc: Global, driver: &SafeDriver) -> Result<Tested, Memory> {
    let mut memory = Tested::new(alloc, 65_536)?;
    memory.grant(16, 60_000);
    for block in driver.unit().image.as_slice() {
        copy_block(&mut memory, block);
    }
    Ok(memory)
}

/// A machine without an activity, and the memory of a driver.
fn rig_of(alloc: Global, driver: &SafeDriver) -> Result<Rig, Memory>
    ensures { IfOk result (λ rig. EachBelongs driver.now.unit rig.machine) }
{
    let machine = Machine::new(alloc)?;
    let memory = memory_of(alloc, driver)?;
    Ok(Rig {
        machine,
        memory,
        next: 30_000,
    })
}

/// What the kernel of these tests answers: `kalloc` gives the next block, each other call 0.
fn answer_of(next: &mut u32, call: &KernelCall) -> Answer {
    if call.name != KernelName::Kalloc {
        return Answer::Number(0);
    }
    let lo = *next;
    let size = u32::try_from(call.args[0]).unwrap_or(0);
    let hi = lo.saturating_add(size.saturating_mul(call.size));
    *next = hi.saturating_add(4);
    Answer::Pointer(Fat { value: lo, lo, hi })
}

/// Answers the call at which a task waits.
fn answer(rig: &mut Rig, driver: &SafeDriver, task: u8, reply: Answer)
    requires task { task ≤ 8 }
    requires belongs { EachBelongs driver.now.unit rig.old.machine }
    ensures { EachBelongs driver.now.unit rig.new.machine }
{
    rig.machine.answer(task, driver, reply);
}

/// Takes the activities of an owner away.
fn drop_owner(rig: &mut Rig, driver: &SafeDriver, owner: u8)
    requires { EachBelongs driver.now.unit rig.old.machine }
    ensures { EachBelongs driver.now.unit rig.new.machine }
{
    rig.machine.drop_owner(owner);
}

/// A step of a task.
fn step(rig: &mut Rig, driver: &SafeDriver, task: u8) -> StepOut
    requires task { task ≤ 8 }
    requires belongs { EachBelongs driver.now.unit rig.old.machine }
    ensures { EachBelongs driver.now.unit rig.new.machine }
{
    rig.machine.step(task, driver, &mut rig.memory)
}

/// Writes what a step comes to: of a kernel call its name and its first number.
fn write_step(out: &mut String, last: StepOut) {
    let _ = match last {
        StepOut::Wants(call) => {
            let first = call.args[0];
            write!(out, "{:?} {first}", call.name)
        }
        other => write!(out, "{other:?}"),
    };
}

/// Runs a task to its end, and writes what it does.
fn run(rig: &mut Rig, driver: &SafeDriver, task: u8, out: &mut String)
    requires task { task ≤ 8 }
    requires belongs { EachBelongs driver.now.unit rig.old.machine }
    ensures { EachBelongs driver.now.unit rig.new.machine }
{
    for steps in 1..1000u32 {
        match step(rig, driver, task) {
            StepOut::Went => {}
            StepOut::Wants(call) => {
                write_step(out, StepOut::Wants(call));
                let _ = out.push_str(", ");
                let reply = answer_of(&mut rig.next, &call);
                answer(rig, driver, task, reply);
            }
            last => {
                write_step(out, last);
                let _ = write!(out, ", {steps} steps");
                return;
            }
        }
    }
}

/// Starts a call of a function of the driver. None where it has no function with this number.
fn start(
    rig: &mut Rig,
    driver: &SafeDriver,
    who: Who,
    function: u32,
    arguments: &[i32],
) -> Option<Result<(), Busy>>
    requires task { who.task ≤ 8 }
    requires arguments { length arguments.now ≤ 128 }
    requires belongs { EachBelongs driver.now.unit rig.old.machine }
    ensures { EachBelongs driver.now.unit rig.new.machine }
{
    if function as usize >= driver.unit().functions.as_slice().len() {
        return None;
    }
    Some(rig.machine.start(who, driver, function, arguments))
}

/// Starts a call, and writes what the machine answers.
fn write_start(rig: &mut Rig, driver: &SafeDriver, numbers: &[i32; 4], out: &mut String)
    requires { EachBelongs driver.now.unit rig.old.machine }
    ensures { EachBelongs driver.now.unit rig.new.machine }
{
    let who = Who {
        owner: u8::try_from(numbers[0]).unwrap_or(0),
        task: task_of(numbers[1]),
    };
    let function = u32::try_from(numbers[2]).unwrap_or(0);
    if let Some(started) = start(rig, driver, who, function, &[numbers[3]]) {
        let _ = write!(out, "{started:?}");
    }
}

/// The driver of a text.
fn driver_of(alloc: Global, text: &str) -> Result<SafeDriver, DriverRefusal> {
    if text.len() > 1_048_576 {
        return Err(DriverRefusal::Memory);
    }
    accept(alloc, 1, text.as_bytes())
}

/// Calls `init` on task 1, and writes what it does.
fn write_run(alloc: Global, driver: &SafeDriver, out: &mut String) -> Result<(), Memory> {
    let mut rig = rig_of(alloc, driver)?;
    let who = Who { owner: 1, task: 1 };
    if let Some(init) = driver.function(&Name::new(b"init")) {
        let _ = start(&mut rig, driver, who, init, &[]);
    }
    run(&mut rig, driver, 1, out);
    Ok(())
}

/// What `init` of a text does.
fn found_in(alloc: Global, text: &str) -> String {
    let mut out = String::new(alloc);
    match driver_of(alloc, text) {
        Ok(driver) => {
            let _ = write_run(alloc, &driver, &mut out);
        }
        Err(refusal) => {
            let _ = write!(out, "{refusal:?}");
        }
    }
    out
}

/// What is wanted of the first text that comes out otherwise; an empty text where there is none.
fn wrong_run(alloc: Global) -> &'static str {
    let mut text = String::new(alloc);
    for line in RUNS.lines() {
        match line.strip_prefix("=> ") {
            Some(wanted) => {
                let found = found_in(alloc, text.as_str());
                if found.as_str() != wanted {
                    return wanted;
                }
                text.clear();
            }
            None => {
                let _ = text.push_str(line);
                let _ = text.push_str("\n");
            }
        }
    }
    ""
}

#[test]
fn drivers_run_to_their_ends_or_to_the_check_that_fails(rt: HostRuntime) -> Result<(), Fail> {
    assert_eq!(rt; wrong_run(rt.alloc()), "");
    Ok(())
}

/// The numbers of a row behind its word.
fn numbers_of(row: &str) -> [i32; 4] {
    let mut numbers = [0; 4];
    let mut place = 0usize;
    for word in row.split(' ') {
        if 1 <= place && place <= 4 {
            numbers[place - 1] = word.parse::<i32>().unwrap_or(0);
        }
        place = place.saturating_add(1);
    }
    numbers
}

/// A number as that of a task.
fn task_of(number: i32) -> u8
    ensures { result ≤ 8 }
{
    u8::try_from(number).unwrap_or(0).min(8)
}

/// Makes a call that changes nothing, and writes what it answers.
fn write_look(rig: &Rig, driver: &SafeDriver, task: u8, word: &str, out: &mut String)
    requires task { task ≤ 8 }
    requires belongs { EachBelongs driver.now.unit rig.now.machine }
{
    let _ = match word {
        "live" => write!(out, "{:?}", rig.machine.live(task)),
        "line" => write!(out, "{}", rig.machine.line(task, driver)),
        "answer" | "stay" | "drop" => write!(out, "done"),
        _ => Ok(()),
    };
}

/// Makes a call, and writes what it answers.
fn write_call(rig: &mut Rig, driver: &SafeDriver, row: &str, out: &mut String)
    requires { EachBelongs driver.now.unit rig.old.machine }
    ensures { EachBelongs driver.now.unit rig.new.machine }
{
    let word = row.split(' ').next().unwrap_or("");
    let numbers = numbers_of(row);
    let first = u8::try_from(numbers[0]).unwrap_or(0);
    let task = task_of(numbers[0]);
    match word {
        "start" => write_start(rig, driver, &numbers, out),
        "step" => write_step(out, step(rig, driver, task)),
        "run" => run(rig, driver, task, out),
        "answer" => answer(rig, driver, task, Answer::Number(0)),
        "stay" => rig.machine.stay(task),
        "drop" => drop_owner(rig, driver, first),
        _ => {}
    }
    write_look(rig, driver, task, word, out);
}

/// The first row that is answered otherwise; an empty text where there is none.
fn wrong_call(alloc: Global, rig: &mut Rig, driver: &SafeDriver) -> &'static str
    requires { EachBelongs driver.now.unit rig.old.machine }
{
    for row in CALLS.lines() {
        let (call, wanted) = row.split_once(" => ").unwrap_or((row, ""));
        let mut out = String::new(alloc);
        write_call(rig, driver, call, &mut out);
        if out.as_str() != wanted {
            return row;
        }
    }
    ""
}

/// The same, on a new machine.
fn wrong_answer(alloc: Global) -> Result<&'static str, Memory> {
    match driver_of(alloc, SUMS) {
        Ok(driver) => {
            let mut rig = rig_of(alloc, &driver)?;
            Ok(wrong_call(alloc, &mut rig, &driver))
        }
        Err(_) => Ok("refused"),
    }
}

#[test]
fn activities_of_two_drivers_stand_on_one_machine(rt: HostRuntime) -> Result<(), Fail> {
    assert_eq!(rt; wrong_answer(rt.alloc())?, "");
    Ok(())
}
