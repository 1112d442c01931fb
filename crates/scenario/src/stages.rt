//! How far a text was read: its first line with words gives it its version, and every line behind is read by that.

ghost use Rattle.std.specs.Prelude.{◌≡◌, IfSome};
ghost use Rattle.std.specs.Option.{option_map};
ghost use Rattle.scenario.specs.Words.{words_of};
ghost use Rattle.scenario.specs.Forms.{is_version_two};
ghost use Rattle.scenario.specs.Readings.{said_by, IsCounted};
ghost use Rattle.scenario.specs.Stages.{said_at, stage_after, version_at};

use crate::forms::{has_no_word, two_words};
use crate::lines::read_line;
use crate::values::Reading;
use crate::words::before_comment;

/// The version of a text that names none.
const FIRST_VERSION: u8 = 1;
/// The version that a text names by the line `version 2`.
const SECOND_VERSION: u8 = 2;

/// How far a text was read.
#[derive(Clone, Copy)]
pub enum Stage {
    /// No line with words has come.
    Opening,
    /// The text has this version.
    Version(u8),
}

/// Whether the line is `version 2`.
fn is_version_line(line: &[u8]) -> bool
    ensures { result ≡ is_version_two (words_of line.now) }
{
    match two_words(before_comment(line)) {
        Some((word, number)) => word == b"version".as_slice() && number == b"2".as_slice(),
        None => false,
    }
}

/// What a line says at a stage; `None` where it has no reading.
pub fn read_at(stage: Stage, line: &[u8], drivers: u8) -> Option<Reading<'_>>
    ensures said { option_map said_by result ≡ said_at stage drivers (words_of line.now) }
    ensures counted { IfSome result IsCounted }
{
    match stage {
        Stage::Opening if is_version_line(line) => Some(Reading::Nothing),
        Stage::Opening => read_line(line, FIRST_VERSION, drivers),
        Stage::Version(version) => read_line(line, version, drivers),
    }
}

impl Stage {
    /// The stage behind a line.
    pub fn after(self, line: &[u8]) -> Stage
        ensures { result ≡ stage_after self (words_of line.now) }
    {
        match self {
            Stage::Opening if is_version_line(line) => Stage::Version(SECOND_VERSION),
            Stage::Opening if has_no_word(before_comment(line)) => Stage::Opening,
            Stage::Opening => Stage::Version(FIRST_VERSION),
            Stage::Version(version) => Stage::Version(version),
        }
    }

    /// The version of a text that ends here.
    pub fn version(self) -> u8
        ensures { result ≡ version_at self }
    {
        match self {
            Stage::Opening => FIRST_VERSION,
            Stage::Version(version) => version,
        }
    }
}
