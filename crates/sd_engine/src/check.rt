//! `check`: which drivers' texts are accepted.
ghost use Rattle.std.specs.Prelude.{◌≡◌, ◌≢◌, ◌<◌, ◌≤◌, ◌+◌, ◌^◌, IfOk, MatchOption, OnOk, OnErr, length, map};
ghost use Rattle.sd_outside.specs.Counts.{HasCause, Rose};
ghost use Rattle.sd_outside.specs.Sink.{IsCut, more};
ghost use Rattle.sd_engine.specs.Running.{AreShort};
ghost use Rattle.sd_engine.specs.Serve.{AreAccepted, CheckAnswers, FirstRefused, IsAfterTexts, IsWritten, Writes, accepted_lines, most_bytes};
ghost use Rattle.driver_front.specs.Reasons.{IsAccepted, IsRefusedAt};

use crate::front::RefusedText;
use crate::printing::{print_refusal, write_item};
use crate::status::Status;
use driver_front::accept;
use run_report::Item;
use sd_outside::{Sink, WriteFault};
use std::alloc::{AllocError, Global};

/// Serves a check whose texts are read: names the first that is refused, or writes a line for each.
pub fn check_texts<K: Sink>(alloc: Global, texts: &[Vec<u8>], sink: &mut K) -> Status
    requires short { AreShort (map (λ text. text.items) texts.now) }
    requires few { length texts.now ≤ 4 }
    ensures possible { IsAfterTexts result }
    ensures write_fault { result ≡ Status.WriteFault → Rose (K.faults sink.old) (K.faults sink.new) }
    ensures writes { result ≢ Status.WriteFault → K.faults sink.new ≡ K.faults sink.old }
    ensures nothing { result ≡ Status.OutOfMemory → K.written sink.new ≡ K.written sink.old }
    ensures output { Writes result → IsWritten (CheckAnswers (map (λ text. text.items) texts.now)) (K.written sink.old)
        (K.written sink.new) result }
{
    let Ok(found) = first_refused(alloc, texts, 1) else {
        return Status::OutOfMemory;
    };
    let Some(refused) = found else {
        return match write_accepted(sink, texts, 1) {
            Ok(()) => Status::Done,
            Err(_) => Status::WriteFault,
        };
    };
    match print_refusal(sink, refused.driver, refused.line, refused.cause) {
        Ok(()) => Status::Refused,
        Err(_) => Status::WriteFault,
    }
}

/// The first text that is refused, where the first of these has the number `driver`.
fn first_refused(
    alloc: Global,
    texts: &[Vec<u8>],
    driver: u8,
) -> Result<Option<RefusedText>, AllocError>
    requires short { AreShort (map (λ text. text.items) texts.now) }
    requires few { driver + length texts.now < 2 ^ 8 }
    ensures { IfOk result (λ found. MatchOption found
        (AreAccepted (map (λ text. text.items) texts.now))
        (λ refused. FirstRefused driver (map (λ text. text.items) texts.now) refused.driver refused.line refused.cause)) }
{
    let [first, rest @ ..] = texts else {
        return Ok(None);
    };
    let found = refusal_of(alloc, first.as_slice(), driver)?;
    if found.is_some() {
        return Ok(found);
    }
    first_refused(alloc, rest, driver + 1)
}

/// The refusal of a text, where it is refused.
fn refusal_of(alloc: Global, text: &[u8], driver: u8) -> Result<Option<RefusedText>, AllocError>
    requires { length text.now ≤ most_bytes }
    ensures { IfOk result (λ found. MatchOption found
        (IsAccepted text.now)
        (λ refused. (refused.driver ≡ driver) × IsRefusedAt text.now refused.line refused.cause)) }
{
    match accept(alloc, driver, text) {
        Ok(_driver) => Ok(None),
        Err(refusal) => match refusal.reason() {
            Some(reason) => Ok(Some(RefusedText {
                driver,
                line: reason.line,
                cause: reason.cause,
            })),
            None => Err(AllocError),
        },
    }
}

/// Writes a line for each text, where the first of these has the number `driver`.
fn write_accepted<K: Sink>(sink: &mut K, texts: &[Vec<u8>], driver: u8) -> Result<(), WriteFault>
    requires { driver + length texts.now < 2 ^ 8 }
    ensures ok { OnOk result (K.written sink.new ≡ more (K.written sink.old) (accepted_lines driver (map (λ text. text.items) texts.now))) }
    ensures err { OnErr result (IsCut (K.written sink.new) (more (K.written sink.old)
        (accepted_lines driver (map (λ text. text.items) texts.now)))) }
    ensures cause { HasCause (K.faults sink.old) (K.faults sink.new) result }
{
    let [_first, rest @ ..] = texts else {
        return Ok(());
    };
    write_item(sink, Item::Accepted { driver })?;
    write_accepted(sink, rest, driver + 1)
}
