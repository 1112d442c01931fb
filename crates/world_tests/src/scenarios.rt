//! Scenario texts: each form of a line, lines that have no reading, the version, and the limits.

use scenario::{Event, Scenario, ScenarioLimit, ScenarioRefusal, read_scenario};
use sd_base::Name;
use std::alloc::{AllocError, Global};
use std::test::Fail;

/// A line of each form but `call`, with blanks, comments and line ends of both kinds.
const FORMS: &str = "# every form
load d4 8
\trestart  d01 007 # again\r
unload d2\r

run 1 10000000
finish 1#comment
irq 63
tick 1000000
work 256
answer 65535 1 -1
answer 0 -0 2147483647 -2147483648
kernel line -5
kernel free_line 5
kernel param 1 -2
kernel clear_param 0
kernel hold 9
kernel drop_hold 7
kernel lock 63
kernel unlock 63
show";

/// Their events.
const EVENTS: &str =
    "[Load { driver: 4, task: 8, restarts: 0 }, Restart { driver: 1, task: 7 }, Unload { driver: 2 }, \
    Run { task: 1, n: 10000000 }, Finish { task: 1 }, Irq { line: 63 }, Tick { n: 1000000 }, Work { n: 256 }, \
    Answer { port: 65535, first: 0, n: 2 }, Answer { port: 0, first: 2, n: 3 }, \
    Kernel(Line(-5)), Kernel(FreeLine(5)), Kernel(Param(1, -2)), Kernel(ClearParam(0)), \
    Kernel(Hold(9)), Kernel(DropHold(7)), Kernel(Lock(63)), Kernel(Unlock(63)), Show]";

/// What only version 2 has.
const SECOND: &str = "# comment\r
 \t
 version\t2 # the first line with words
load d1 1 restarts 100
load d1 2 restarts 000
load d1 3";

/// Its events.
const SECOND_EVENTS: &str =
    "[Load { driver: 1, task: 1, restarts: 100 }, Load { driver: 1, task: 2, restarts: 0 }, \
    Load { driver: 1, task: 3, restarts: 0 }]";

/// Lines that have no reading in version 1.
const UNREAD: &str = "load
load d1
load d1 1 1
load d1 1 restarts 1
load d5 1
load d0 1
load d 1
load d-1 1
load d1 9
load d1 0
load d1 -1
load 1 1
Load d1 1
restart d1
restart d1 1 1
restart d1 1 restarts 1
unload
unload d1 1
call d1 1
call d1 1 9f
call d1 1 f-
call d1 1 f x
call d1 1 f +1
call d1 1 f 2147483648
call d1 1 f 1 2 3 4 5 6 7 8 9
call d1 1 a234567890123456789012345678901234567890123456789012345678901234
run 1
run 1 1 1
run 1 10000001
run 1 -1
run 1 +1
finish
finish 1 1
irq
irq 5 5
irq 64
irq +5
irq -0
tick
tick 1 1
tick 1000001
work
work 1 1
work 257
answer 5
answer 65536 1
answer -1 1
answer 5 +5
answer 5 2147483648
answer 5 -2147483649
answer 5 -
answer 5 --1
answer 5 1 x
kernel
kernel line
kernel line 1 1
kernel param 1
kernel param 1 1 1
kernel mask 1
kernel unlock
show 1
shows
version
version 1
version 3
version 02
version 2 2
finish\x0b1
finish 1\0
fin\u{e9}";

/// Lines that have no reading in version 2.
const UNREAD_IN_SECOND: &str = "version 2
version 1
load d1 1 restarts
load d1 1 restarts 101
load d1 1 restarts -1
load d1 1 restarts +1
load d1 1 restarts 1 1
load d1 1 restart 1
load d1 restarts 1
load d1 1 1
restart d1 1 restarts 1";

/// Are these the scenario's version and events?
fn reads_as(alloc: Global, text: &str, version: u8, events: &str) -> Result<bool, AllocError> {
    match read_scenario(alloc, text.as_bytes(), 4) {
        Ok(scenario) => {
            let printed = format!(in alloc; "{:?}", scenario.events.as_slice())?;
            Ok(scenario.version == version && printed.as_str() == events)
        }
        Err(_) => Ok(false),
    }
}

/// Whether a text is refused at the line with this number, which has no reading.
fn is_unread(alloc: Global, text: &str, number: u32) -> bool {
    read_scenario(alloc, text.as_bytes(), 4).err() == Some(ScenarioRefusal::NoLine(number))
}

/// The first line of a table that is read, each behind the same front, whose lines are counted; an empty text where none is.
fn first_read<'t>(
    alloc: Global,
    front: &str,
    number: u32,
    table: &'t str,
) -> Result<&'t str, AllocError> {
    for line in table.split('\n') {
        let text = format!(in alloc; "{front}{line}\n")?;
        if !is_unread(alloc, text.as_str(), number) {
            return Ok(line);
        }
    }
    Ok("")
}

#[test]
fn each_form_reads_as_its_event(rt: HostRuntime) -> Result<(), Fail> {
    let alloc = rt.alloc();
    assert!(rt; reads_as(alloc, FORMS, 1, EVENTS)?);
    assert!(rt; reads_as(alloc, SECOND, 2, SECOND_EVENTS)?);
    assert!(rt; reads_as(alloc, "#\n\n \r\n", 1, "[]")?);
    assert!(rt; reads_as(alloc, "version 2", 2, "[]")?);
    Ok(())
}

#[test]
fn a_call_has_its_values_and_zeros(rt: HostRuntime) -> Result<(), Fail> {
    let Scenario { events, .. } = read_scenario(
        rt.alloc(),
        b"call d1 2 _get9 -0 2147483647 -2147483648",
        1,
    )?;
    let call = Event::Call {
        driver: 1,
        task: 2,
        name: Name::new(b"_get9"),
        args: [0, 2147483647, -2147483648, 0, 0, 0, 0, 0],
        n: 3,
    };
    assert_eq!(rt; events.as_slice(), [call].as_slice());
    Ok(())
}

#[test]
fn a_line_without_a_reading_is_refused_by_its_number(rt: HostRuntime) -> Result<(), Fail> {
    let alloc = rt.alloc();
    assert_eq!(rt; first_read(alloc, "", 1, UNREAD)?, "");
    assert_eq!(rt;
        first_read(alloc, "show\n\n# load\n \t\r\n", 5, UNREAD)?,
        ""
    );
    assert_eq!(rt;
        first_read(alloc, "\nversion 2\n", 3, UNREAD_IN_SECOND)?,
        ""
    );
    assert_eq!(rt; first_read(alloc, "show\n", 2, "version 2")?, "");
    Ok(())
}

/// Why a text is refused.
fn refusal(alloc: Global, text: &[u8]) -> Option<ScenarioRefusal> {
    read_scenario(alloc, text, 1).err()
}

#[test]
fn lines_are_limited(rt: HostRuntime) -> Result<(), Fail> {
    let alloc = rt.alloc();
    let past = Some(ScenarioRefusal::Limit(65537, ScenarioLimit::Lines));
    let mut lines = vec![in alloc; b'\n'; 65536]?;
    assert_eq!(rt; refusal(alloc, &lines), None);
    lines.extend_from_slice(b"#")?;
    assert_eq!(rt; refusal(alloc, &lines), past);
    lines.extend_from_slice(b"\nx")?;
    assert_eq!(rt; refusal(alloc, &lines), past);
    Ok(())
}

#[test]
fn answers_are_limited(rt: HostRuntime) -> Result<(), Fail> {
    let alloc = rt.alloc();
    let mut answers = Vec::from_slice(alloc, b"answer 1")?;
    for _ in 0..262144 {
        answers.extend_from_slice(b" 3")?;
    }
    assert_eq!(rt; refusal(alloc, &answers), None);
    answers.extend_from_slice(b"\nanswer 2 4")?;
    assert_eq!(rt;
        refusal(alloc, &answers),
        Some(ScenarioRefusal::Limit(2, ScenarioLimit::Answers))
    );
    Ok(())
}
