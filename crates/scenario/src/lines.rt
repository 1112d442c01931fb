//! What a line says: its form by its first word.

ghost use Rattle.std.specs.Prelude.{◌≡◌, IfSome};
ghost use Rattle.std.specs.Option.{option_map};
ghost use Rattle.scenario.specs.Words.{pieces_of, words_of};
ghost use Rattle.scenario.specs.Forms.{event, restarts_said, load_said, call_said, kernel_arguments, kernel_said, answers_said, keyword_said, line_said};
ghost use Rattle.scenario.specs.Readings.{said_by, IsCounted};

use crate::event::{Event, KernelEvent};
use crate::forms::{
    has_no_word, only_word, read_driver_and_task, read_only_number, read_only_value, two_words,
};
use crate::keywords::{KernelWord, Keyword, read_kernel_word, read_keyword};
use crate::numbers::{is_name_word, read_driver, read_number, read_signed, read_task};
use crate::values::{Reading, count_values, read_arguments};
use crate::words::{before_comment, first_word};
use sd_base::Name;
use sd_base::limits::STEP_BOUND;

/// The version that lets a load name restarts.
const RESTARTING: u8 = 2;
/// The most restarts of a load.
const MOST_RESTARTS: u32 = 100;
/// The most arguments of a call.
const ARGUMENTS: usize = 8;
/// The greatest port.
const LAST_PORT: u32 = 65_535;
/// The greatest interrupt line.
const LAST_LINE: u32 = 63;
/// The furthest that one line moves the clock.
const LONGEST_TICK: u32 = 1_000_000;
/// The most work items that one line runs.
const MOST_WORK: u32 = 256;

/// `call dK T NAME` and 0 to 8 values.
fn read_call(line: &[u8], drivers: u8) -> Option<Event>
    ensures { result ≡ call_said drivers (pieces_of line.now) }
{
    let (driver, after_driver) = first_word(line)?;
    let (task, after_task) = first_word(after_driver)?;
    let (name, values) = first_word(after_task)?;
    let driver = read_driver(driver, drivers)?;
    let task = read_task(task)?;
    if !is_name_word(name) {
        return None;
    }
    let n = count_values(values)?;
    if n > ARGUMENTS {
        return None;
    }
    Some(Event::Call {
        driver,
        task,
        name: Name::new(name),
        args: read_arguments(values),
        n: n as u8,
    })
}

/// A parameter's number and its value.
fn read_parameter(line: &[u8]) -> Option<KernelEvent>
    ensures { result ≡ kernel_arguments KernelWord.Param (pieces_of line.now) }
{
    let (key, value) = two_words(line)?;
    let key = read_signed(key)?;
    let value = read_signed(value)?;
    Some(KernelEvent::Param(key, value))
}

/// What the kernel does by the word after `kernel`.
fn read_kernel_arguments(word: KernelWord, line: &[u8]) -> Option<KernelEvent>
    ensures { result ≡ kernel_arguments word (pieces_of line.now) }
{
    match word {
        KernelWord::Line => read_only_value(line).map(KernelEvent::Line),
        KernelWord::FreeLine => read_only_value(line).map(KernelEvent::FreeLine),
        KernelWord::Param => read_parameter(line),
        KernelWord::ClearParam => read_only_value(line).map(KernelEvent::ClearParam),
        KernelWord::Hold => read_only_value(line).map(KernelEvent::Hold),
        KernelWord::DropHold => read_only_value(line).map(KernelEvent::DropHold),
        KernelWord::Lock => read_only_value(line).map(KernelEvent::Lock),
        KernelWord::Unlock => read_only_value(line).map(KernelEvent::Unlock),
    }
}

/// `kernel` and what the kernel does.
fn read_kernel(line: &[u8]) -> Option<KernelEvent>
    ensures { result ≡ kernel_said (pieces_of line.now) }
{
    let (word, rest) = first_word(line)?;
    let word = read_kernel_word(word)?;
    read_kernel_arguments(word, rest)
}

/// `answer P` and one or more values.
fn read_answers(line: &[u8]) -> Option<Reading<'_>>
    ensures said { option_map said_by result ≡ answers_said (pieces_of line.now) }
    ensures counted { IfSome result IsCounted }
{
    let (port, values) = first_word(line)?;
    let port = read_number(port, 0, LAST_PORT)?;
    if has_no_word(values) {
        return None;
    }
    let count = count_values(values)?;
    Some(Reading::Answers {
        port: port as u16,
        values,
        count,
    })
}

/// `restarts N`, which only version 2 has; 0 where nothing stands there.
fn read_restarts(line: &[u8], version: u8) -> Option<u8>
    ensures { result ≡ restarts_said version (pieces_of line.now) }
{
    if has_no_word(line) {
        return Some(0);
    }
    if version != RESTARTING {
        return None;
    }
    let (word, number) = two_words(line)?;
    if word != b"restarts".as_slice() {
        return None;
    }
    let restarts = read_number(number, 0, MOST_RESTARTS)?;
    Some(restarts as u8)
}

/// `load dK T`, and in version 2 `load dK T restarts N`.
fn read_load(line: &[u8], version: u8, drivers: u8) -> Option<Event>
    ensures { result ≡ load_said version drivers (pieces_of line.now) }
{
    let (driver, after_driver) = first_word(line)?;
    let (task, after_task) = first_word(after_driver)?;
    let driver = read_driver(driver, drivers)?;
    let task = read_task(task)?;
    let restarts = read_restarts(after_task, version)?;
    Some(Event::Load {
        driver,
        task,
        restarts,
    })
}

/// `restart dK T`.
fn read_restart(line: &[u8], drivers: u8) -> Option<Event>
    ensures { option_map event result ≡ keyword_said 1 drivers Keyword.Restart (pieces_of line.now) }
{
    let (driver, task) = read_driver_and_task(line, drivers)?;
    Some(Event::Restart { driver, task })
}

/// `unload dK`.
fn read_unload(line: &[u8], drivers: u8) -> Option<Event>
    ensures { option_map event result ≡ keyword_said 1 drivers Keyword.Unload (pieces_of line.now) }
{
    let word = only_word(line)?;
    let driver = read_driver(word, drivers)?;
    Some(Event::Unload { driver })
}

/// `run T N`.
fn read_run(line: &[u8]) -> Option<Event>
    ensures { option_map event result ≡ keyword_said 1 0 Keyword.Run (pieces_of line.now) }
{
    let (task, steps) = two_words(line)?;
    let task = read_task(task)?;
    let n = read_number(steps, 0, STEP_BOUND)?;
    Some(Event::Run { task, n })
}

/// `finish T`.
fn read_finish(line: &[u8]) -> Option<Event>
    ensures { option_map event result ≡ keyword_said 1 0 Keyword.Finish (pieces_of line.now) }
{
    let word = only_word(line)?;
    let task = read_task(word)?;
    Some(Event::Finish { task })
}

/// `irq L`.
fn read_irq(line: &[u8]) -> Option<Event>
    ensures { option_map event result ≡ keyword_said 1 0 Keyword.Irq (pieces_of line.now) }
{
    let number = read_only_number(line, LAST_LINE)?;
    Some(Event::Irq { line: number as u8 })
}

/// `tick N`.
fn read_tick(line: &[u8]) -> Option<Event>
    ensures { option_map event result ≡ keyword_said 1 0 Keyword.Tick (pieces_of line.now) }
{
    let n = read_only_number(line, LONGEST_TICK)?;
    Some(Event::Tick { n })
}

/// `work N`.
fn read_work(line: &[u8]) -> Option<Event>
    ensures { option_map event result ≡ keyword_said 1 0 Keyword.Work (pieces_of line.now) }
{
    let n = read_only_number(line, MOST_WORK)?;
    Some(Event::Work { n })
}

/// `show`.
fn read_show(line: &[u8]) -> Option<Event>
    ensures { option_map event result ≡ keyword_said 1 0 Keyword.Show (pieces_of line.now) }
{
    if has_no_word(line) {
        Some(Event::Show)
    } else {
        None
    }
}

/// What a line says that begins with the keyword.
fn read_keyword_line(keyword: Keyword, line: &[u8], version: u8, drivers: u8) -> Option<Reading<'_>>
    ensures said { option_map said_by result ≡ keyword_said version drivers keyword (pieces_of line.now) }
    ensures counted { IfSome result IsCounted }
{
    match keyword {
        Keyword::Load => Some(Reading::Event(read_load(line, version, drivers)?)),
        Keyword::Restart => Some(Reading::Event(read_restart(line, drivers)?)),
        Keyword::Unload => Some(Reading::Event(read_unload(line, drivers)?)),
        Keyword::Call => Some(Reading::Event(read_call(line, drivers)?)),
        Keyword::Run => Some(Reading::Event(read_run(line)?)),
        Keyword::Finish => Some(Reading::Event(read_finish(line)?)),
        Keyword::Irq => Some(Reading::Event(read_irq(line)?)),
        Keyword::Tick => Some(Reading::Event(read_tick(line)?)),
        Keyword::Work => Some(Reading::Event(read_work(line)?)),
        Keyword::Answer => read_answers(line),
        Keyword::Kernel => Some(Reading::Event(Event::Kernel(read_kernel(line)?))),
        Keyword::Show => Some(Reading::Event(read_show(line)?)),
    }
}

/// What a line says in a scenario of this version; `None` where it has no reading.
pub fn read_line(line: &[u8], version: u8, drivers: u8) -> Option<Reading<'_>>
    ensures said { option_map said_by result ≡ line_said version drivers (words_of line.now) }
    ensures counted { IfSome result IsCounted }
{
    let Some((word, rest)) = first_word(before_comment(line)) else {
        return Some(Reading::Nothing);
    };
    let keyword = read_keyword(word)?;
    read_keyword_line(keyword, rest, version, drivers)
}
