//! The top call.
ghost use Rattle.std.specs.Prelude.{◌≡◌, ◌≢◌, ◌↔◌, IfSome, None, map};
ghost use Rattle.std.specs.String.{string_bytes};
ghost use Rattle.command_words.specs.Command.{check_words, command_of, run_words};
ghost use Rattle.command_words.specs.Meaning.{meaning_of};
ghost use Rattle.sd_engine.specs.Running.{IsWithin};
ghost use Rattle.sd_engine.specs.Serve.{IsPossible, IsServed, IsTooLong, Writes, WritesNothing, most_bytes, status_of};
ghost use Rattle.sd_outside.specs.Counts.{Rose, RoseBeyond};

use crate::check::check_texts;
use crate::run::run_texts;
use crate::status::Status;
use crate::texts::read_texts;
use command_words::{Command, WordsFault, read_words};
use sd_outside::{Shelf, Sink, TextFault, read_text};
use std::alloc::Global;

/// Does what the words ask for: reads the texts that they name from the shelf, writes the output to the sink, and
/// answers the status.
///
/// The order is: the words (`Usage`), the files in their order (`ReadFault`, `TooLong`), the drivers' texts in their order (`Refused`),
/// the scenario (`BadScenario`), all memory of a run, and only then its first line. `Usage`, `ReadFault`, `TooLong` and `OutOfMemory`
/// write nothing; `WriteFault` leaves a front part of the output.
pub fn serve<S: Shelf, K: Sink>(
    alloc: Global,
    words: &[String],
    shelf: &mut S,
    sink: &mut K,
) -> Status
    // Want of memory aside, the words are no command exactly where the answer is Usage.
    ensures usage { result ≢ Status.OutOfMemory → (result ≡ Status.Usage) ↔ (command_of (map string_bytes words.now) ≡ None) }

    // A read failed exactly where the answer is ReadFault, as far as the shelf's count can tell.
    ensures read_fault { result ≡ Status.ReadFault → Rose (S.faults shelf.old) (S.faults shelf.new) }
    ensures reads { result ≢ Status.ReadFault → S.faults shelf.new ≡ S.faults shelf.old }

    // A file is too long where the shelf tells it, and over every shelf more than the limit was read.
    ensures too_long { result ≡ Status.TooLong → IfSome (command_of (map string_bytes words.now)) (IsTooLong (S.left shelf.old)) }
    ensures too_much { result ≡ Status.TooLong → RoseBeyond most_bytes (S.given shelf.old) (S.given shelf.new) }

    // A write failed exactly where the answer is WriteFault, as far as the sink's count can tell.
    ensures write_fault { result ≡ Status.WriteFault → Rose (K.faults sink.old) (K.faults sink.new) }
    ensures writes { result ≢ Status.WriteFault → K.faults sink.new ≡ K.faults sink.old }

    // What is written.
    ensures nothing { WritesNothing result → K.written sink.new ≡ K.written sink.old }
    ensures output { Writes result → IfSome (command_of (map string_bytes words.now))
        (IsServed (S.left shelf.old) (K.written sink.old) (K.written sink.new) result) }
{
    match read_words(alloc, words) {
        Ok(command) => serve_command(alloc, &command, shelf, sink),
        Err(WordsFault::NoCommand) => Status::Usage,
        Err(WordsFault::Memory) => Status::OutOfMemory,
    }
}

/// Serves a command.
fn serve_command<S: Shelf, K: Sink>(
    alloc: Global,
    command: &Command,
    shelf: &mut S,
    sink: &mut K,
) -> Status
    requires { IsWithin (meaning_of command.now) }
    ensures possible { IsPossible result }
    ensures read_fault { result ≡ Status.ReadFault → Rose (S.faults shelf.old) (S.faults shelf.new) }
    ensures reads { result ≢ Status.ReadFault → S.faults shelf.new ≡ S.faults shelf.old }
    ensures too_long { result ≡ Status.TooLong → IsTooLong (S.left shelf.old) (meaning_of command.now) }
    ensures too_much { result ≡ Status.TooLong → RoseBeyond most_bytes (S.given shelf.old) (S.given shelf.new) }
    ensures write_fault { result ≡ Status.WriteFault → Rose (K.faults sink.old) (K.faults sink.new) }
    ensures writes { result ≢ Status.WriteFault → K.faults sink.new ≡ K.faults sink.old }
    ensures nothing { WritesNothing result → K.written sink.new ≡ K.written sink.old }
    ensures output { Writes result → IsServed (S.left shelf.old) (K.written sink.old) (K.written sink.new) result (meaning_of command.now) }
{
    match command {
        Command::Run {
            scenario,
            drivers,
            steps,
        } => serve_run(
            alloc,
            scenario.as_str(),
            drivers.as_slice(),
            *steps,
            shelf,
            sink,
        ),
        Command::Check { files } => serve_check(alloc, files.as_slice(), shelf, sink),
    }
}

/// Serves `run`.
fn serve_run<S: Shelf, K: Sink>(
    alloc: Global,
    scenario: &str,
    drivers: &[String],
    steps: u32,
    shelf: &mut S,
    sink: &mut K,
) -> Status
    requires { IsWithin (run_words scenario.now (map string_bytes drivers.now) steps) }
    ensures possible { IsPossible result }
    ensures read_fault { result ≡ Status.ReadFault → Rose (S.faults shelf.old) (S.faults shelf.new) }
    ensures reads { result ≢ Status.ReadFault → S.faults shelf.new ≡ S.faults shelf.old }
    ensures too_long { result ≡ Status.TooLong → IsTooLong (S.left shelf.old)
        (run_words scenario.now (map string_bytes drivers.now) steps) }
    ensures too_much { result ≡ Status.TooLong → RoseBeyond most_bytes (S.given shelf.old) (S.given shelf.new) }
    ensures write_fault { result ≡ Status.WriteFault → Rose (K.faults sink.old) (K.faults sink.new) }
    ensures writes { result ≢ Status.WriteFault → K.faults sink.new ≡ K.faults sink.old }
    ensures nothing { WritesNothing result → K.written sink.new ≡ K.written sink.old }
    ensures output { Writes result → IsServed (S.left shelf.old) (K.written sink.old) (K.written sink.new) result
        (run_words scenario.now (map string_bytes drivers.now) steps) }
{
    let plan = match read_text(alloc, shelf, scenario) {
        Ok(text) => text,
        Err(fault) => return fault_status(fault),
    };
    let mut texts = Vec::new(alloc);
    if let Err(fault) = read_texts(alloc, shelf, drivers, &mut texts) {
        return fault_status(fault);
    }
    let status = run_texts(alloc, steps, plan.as_slice(), texts.as_slice(), sink);
    status
}

/// Serves `check`.
fn serve_check<S: Shelf, K: Sink>(
    alloc: Global,
    files: &[String],
    shelf: &mut S,
    sink: &mut K,
) -> Status
    requires { IsWithin (check_words (map string_bytes files.now)) }
    ensures possible { IsPossible result }
    ensures read_fault { result ≡ Status.ReadFault → Rose (S.faults shelf.old) (S.faults shelf.new) }
    ensures reads { result ≢ Status.ReadFault → S.faults shelf.new ≡ S.faults shelf.old }
    ensures too_long { result ≡ Status.TooLong → IsTooLong (S.left shelf.old) (check_words (map string_bytes files.now)) }
    ensures too_much { result ≡ Status.TooLong → RoseBeyond most_bytes (S.given shelf.old) (S.given shelf.new) }
    ensures write_fault { result ≡ Status.WriteFault → Rose (K.faults sink.old) (K.faults sink.new) }
    ensures writes { result ≢ Status.WriteFault → K.faults sink.new ≡ K.faults sink.old }
    ensures nothing { WritesNothing result → K.written sink.new ≡ K.written sink.old }
    ensures output { Writes result → IsServed (S.left shelf.old) (K.written sink.old) (K.written sink.new) result
        (check_words (map string_bytes files.now)) }
{
    let mut texts = Vec::new(alloc);
    if let Err(fault) = read_texts(alloc, shelf, files, &mut texts) {
        return fault_status(fault);
    }
    let status = check_texts(alloc, texts.as_slice(), sink);
    status
}

/// The status of a text that was not read.
fn fault_status(fault: TextFault) -> Status
    ensures { result ≡ status_of fault }
{
    match fault {
        TextFault::ReadFault => Status::ReadFault,
        TextFault::TooLong => Status::TooLong,
        TextFault::Memory => Status::OutOfMemory,
    }
}
