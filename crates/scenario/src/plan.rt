//! The reading of a whole scenario: its lines in order, up to the first that is refused.

ghost use Rattle.std.specs.Prelude.{◌≡◌, ◌⊎◌, ◌+◌, ◌≤◌, [], ◌∷◌, ◌++◌, length, Some, None, Ok, Err, IfOk, IfErr, OnOk, MatchResult};
ghost use Rattle.scenario.specs.Words.{words_of};
ghost use Rattle.scenario.specs.Stages.{said_at};
ghost use Rattle.scenario.specs.Readings.{said_by, IsCounted};
ghost use Rattle.scenario.specs.Fits.{IsVersion, AllFit, AnswersFollow};
ghost use Rattle.scenario.specs.Scenarios.{given_by, line_refusal, events_said, version_of, scenario_of};

use crate::event::Event;
use crate::refusal::{ScenarioLimit, ScenarioRefusal};
use crate::stages::{Stage, read_at};
use crate::values::{Reading, push_values};
use crate::words::first_line;
use sd_base::limits::{ANSWERS, SCENARIO_LINES};
use std::alloc::{AllocError, Global};

/// A scenario that was read.
#[derive(Drop)]
pub struct Scenario {
    /// 2 where the first line with words is `version 2`, else 1.
    pub version: u8,
    /// The events, in the order of their lines.
    pub events: Vec<Event>,
    /// The values of all `answer` lines, in order. An `Event::Answer` names a range of them.
    pub answers: Vec<i32>,
}

/// How many values a reading gives.
fn given(reading: &Reading<'_>) -> usize
    requires { IsCounted reading.now }
    ensures { result ≡ length (given_by (Some (said_by reading.now))) }
{
    match reading {
        Reading::Answers { count, .. } => *count,
        _ => 0,
    }
}

/// What the line of this number says at a stage, behind `before` values, or why it is refused.
fn read_within(
    stage: Stage,
    line: &[u8],
    drivers: u8,
    number: u32,
    before: usize,
) -> Result<Reading<'_>, ScenarioRefusal>
    requires { before ≤ ANSWERS }
    ensures says { IfOk result (λ r. said_at stage drivers (words_of line.now) ≡ Some (said_by r)) }
    ensures counted { IfOk result IsCounted }
    ensures within { IfOk result (λ r. (number ≤ SCENARIO_LINES) × (before + length (given_by (Some (said_by r))) ≤ ANSWERS)) }
    ensures refusal { MatchResult result
        (λ r. line_refusal (Some (said_by r)) number (before + length (given_by (Some (said_by r)))) ≡ None)
        (λ e. line_refusal (said_at stage drivers (words_of line.now)) number (before + length (given_by (said_at stage drivers (words_of line.now)))) ≡ Some e) }
{
    let Some(reading) = read_at(stage, line, drivers) else {
        return Err(ScenarioRefusal::NoLine(number));
    };
    if number as usize > SCENARIO_LINES {
        return Err(ScenarioRefusal::Limit(number, ScenarioLimit::Lines));
    }
    if given(&reading) > ANSWERS - before {
        return Err(ScenarioRefusal::Limit(number, ScenarioLimit::Answers));
    }
    Ok(reading)
}

/// Appends what a line says. The version stays.
fn append(scenario: &mut Scenario, reading: &Reading<'_>) -> Result<(), AllocError>
    requires counted { IsCounted reading.now }
    requires room { length scenario.old.answers.items + length (given_by (Some (said_by reading.now))) ≤ ANSWERS }
    ensures version { scenario.new.version ≡ scenario.old.version }
    ensures events { OnOk result (scenario.new.events.items ≡ scenario.old.events.items ++ events_said (length scenario.old.answers.items) (Some (said_by reading.now) ∷ [])) }
    ensures answers { OnOk result (scenario.new.answers.items ≡ scenario.old.answers.items ++ given_by (Some (said_by reading.now))) }
{
    match reading {
        Reading::Nothing => Ok(()),
        Reading::Event(event) => {
            scenario.events.push(*event)?;
            Ok(())
        }
        Reading::Answers {
            port,
            values,
            count,
        } => {
            let first = scenario.answers.len() as u32;
            push_values(&mut scenario.answers, values)?;
            scenario.events.push(Event::Answer {
                port: *port,
                first,
                n: *count as u32,
            })?;
            Ok(())
        }
    }
}

/// Reads a scenario of either version for this many drivers.
///
/// Refused with the first line that has no reading or with which a limit is passed, `NoLine` first on one line and `Limit` of the
/// lines before that of the answers; or for want of memory.
pub fn read_scenario(alloc: Global, text: &[u8], drivers: u8) -> Result<Scenario, ScenarioRefusal>
    ensures scenario { IfOk result (λ s. scenario_of drivers text.now ≡ Ok (s.events.items, s.answers.items)) }
    ensures version { IfOk result (λ s. s.version ≡ version_of text.now) }
    ensures known { IfOk result (λ s. IsVersion s.version) }
    ensures few { IfOk result (λ s. length s.answers.items ≤ ANSWERS) }
    ensures fits { IfOk result (λ s. AllFit s.version drivers s.events.items × AnswersFollow 0 s.events.items (length s.answers.items)) }
    ensures refusal { IfErr result (λ e. (e ≡ ScenarioRefusal.Memory) ⊎ (scenario_of drivers text.now ≡ Err e)) }
{
    let mut scenario = Scenario {
        version: Stage::Opening.version(),
        events: Vec::new(alloc),
        answers: Vec::new(alloc),
    };
    let mut stage = Stage::Opening;
    let mut number = 0;
    let mut rest = text;
    while let Some((line, after)) = first_line(rest) {
        number += 1;
        let reading = match read_within(stage, line, drivers, number, scenario.answers.len()) {
            Ok(reading) => reading,
            Err(refusal) => return Err(refusal),
        };
        if append(&mut scenario, &reading).is_err() {
            return Err(ScenarioRefusal::Memory);
        }
        stage = stage.after(line);
        rest = after;
    }
    scenario.version = stage.version();
    Ok(scenario)
}
