//! The texts of a run's drivers: all are accepted, or the first that is refused is found.
ghost use Rattle.std.specs.Prelude.{◌≡◌, ◌<◌, ◌≤◌, ◌+◌, ◌^◌, IfErr, IfOk, MatchResult, OnOk, length, map, Ok, [], ◌∷◌};
ghost use Rattle.driver_front.specs.Verdict.{Verdict};
ghost use Rattle.sd_engine.specs.Running.{AreDrivers, AreDriversBehind, AreShort, IsRefusal};
ghost use Rattle.sd_engine.specs.Serve.{most_bytes};

use driver_front::{Cause, accept};
use safe_code::SafeDriver;
use std::alloc::Global;

/// A driver text that is refused.
#[derive(Clone, Copy, PartialEq, Eq, Debug)]
pub struct RefusedText {
    /// The driver's number, counted from 1.
    pub driver: u8,
    /// The line of its text.
    pub line: u32,
    pub cause: Cause,
}

/// Why not all texts are accepted.
#[derive(Clone, Copy, PartialEq, Eq, Debug)]
pub enum FrontRefusal {
    /// The first text that is refused.
    Text(RefusedText),
    /// Want of memory.
    Memory,
}

/// The drivers of these texts in their order, the first of them `d1`.
///
/// Refused with the first text that is refused, or for want of memory.
pub fn accept_all(alloc: Global, texts: &[Vec<u8>]) -> Result<Vec<SafeDriver>, FrontRefusal>
    requires short { AreShort (map (λ text. text.items) texts.now) }
    requires few { length texts.now ≤ 4 }
    ensures drivers { IfOk result (λ drivers. AreDrivers 1 (map (λ text. text.items) texts.now) drivers.items) }
    ensures refusal { IfErr result (λ refusal. IsRefusal 1 (map (λ text. text.items) texts.now) refusal) }
{
    let mut drivers = Vec::new(alloc);
    match accept_from(alloc, texts, 1, &mut drivers) {
        Ok(()) => Ok(drivers),
        Err(refusal) => Err(refusal),
    }
}

/// Puts the drivers of these texts behind those that are there; the first of them has the number `driver`.
fn accept_from(
    alloc: Global,
    texts: &[Vec<u8>],
    driver: u8,
    drivers: &mut Vec<SafeDriver>,
) -> Result<(), FrontRefusal>
    requires short { AreShort (map (λ text. text.items) texts.now) }
    requires few { driver + length texts.now < 2 ^ 8 }
    ensures drivers { OnOk result (AreDriversBehind driver (map (λ text. text.items) texts.now) drivers.old.items drivers.new.items) }
    ensures refusal { IfErr result (λ refusal. IsRefusal driver (map (λ text. text.items) texts.now) refusal) }
{
    let [first, rest @ ..] = texts else {
        return Ok(());
    };
    match push_driver(alloc, first.as_slice(), driver, drivers) {
        Ok(()) => accept_from(alloc, rest, driver + 1, drivers),
        Err(refusal) => Err(refusal),
    }
}

/// Puts the driver of a text behind those that are there.
fn push_driver(
    alloc: Global,
    text: &[u8],
    driver: u8,
    drivers: &mut Vec<SafeDriver>,
) -> Result<(), FrontRefusal>
    requires { length text.now ≤ most_bytes }
    ensures drivers { OnOk result (AreDriversBehind driver (text.now ∷ []) drivers.old.items drivers.new.items) }
    ensures refusal { IfErr result (λ refusal. IsRefusal driver (text.now ∷ []) refusal) }
{
    match accept_text(alloc, text, driver) {
        Ok(accepted) => match drivers.push(accepted) {
            Ok(()) => Ok(()),
            Err(_) => Err(FrontRefusal::Memory),
        },
        Err(refusal) => Err(refusal),
    }
}

/// The driver of a text, or why it is refused.
fn accept_text(alloc: Global, text: &[u8], driver: u8) -> Result<SafeDriver, FrontRefusal>
    requires { length text.now ≤ most_bytes }
    ensures { MatchResult result
        (λ accepted. Verdict text.now (Ok accepted.unit) × (accepted.file ≡ driver))
        (λ refusal. IsRefusal driver (text.now ∷ []) refusal) }
{
    match accept(alloc, driver, text) {
        Ok(accepted) => Ok(accepted),
        Err(refusal) => match refusal.reason() {
            Some(reason) => Err(FrontRefusal::Text(RefusedText {
                driver,
                line: reason.line,
                cause: reason.cause,
            })),
            None => Err(FrontRefusal::Memory),
        },
    }
}
