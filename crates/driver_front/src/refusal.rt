//! `DriverRefusal`: why a driver text is not accepted.
ghost use Rattle.std.specs.Prelude.{◌≡◌};
ghost use Rattle.driver_front.specs.Reasons.{reason_of};

use crate::{Cause, Reason};
use c_tree::LimitKind;
use thiserror::Error;

/// Why a driver text is not accepted, with the line where. Lines count from 1.
///
/// It is not read (`NotAWord`, `NoItem`, or a limit of words), or a declaration stands against the rules of declarations (`NoDecl`, or a limit of
/// declarations), or no rule derives what stands in a function (`NoRule`, or the limit on slots): the first of these that holds is given.
#[derive(Clone, Copy, PartialEq, Eq, Debug, Drop, Error)]
pub enum DriverRefusal {
    /// On this line stands a byte at which no word begins.
    #[error("line {0}: no word begins here")]
    NotAWord(u32),
    /// What begins on this line is no item.
    #[error("line {0}: no item")]
    NoItem(u32),
    /// The declaration on this line stands against a rule of declarations.
    #[error("line {0}: a declaration that does not stand")]
    NoDecl(u32),
    /// No rule derives the head, parameter, local or statement on this line.
    #[error("line {0}: no rule derives this")]
    NoRule(u32),
    /// The word, the declaration or the function head on this line passes this limit.
    #[error("line {0}: past the limit {1:?}")]
    Limit(u32, LimitKind),
    /// Want of memory.
    #[error("want of memory")]
    Memory,
}

impl DriverRefusal {
    /// The line and the cause of a refusal, as they are printed. None for want of memory.
    pub fn reason(self) -> Option<Reason>
        ensures { result ≡ reason_of self }
    {
        match self {
            DriverRefusal::NotAWord(line) => at(line, Cause::Word),
            DriverRefusal::NoItem(line) => at(line, Cause::Item),
            DriverRefusal::NoDecl(line) => at(line, Cause::Type),
            DriverRefusal::NoRule(line) => at(line, Cause::Rule),
            DriverRefusal::Limit(line, _) => at(line, Cause::Limit),
            DriverRefusal::Memory => None,
        }
    }
}

/// A line and a cause.
fn at(line: u32, cause: Cause) -> Option<Reason>
    ensures { result ≡ Some (record { line = line; cause = cause }) }
{
    Some(Reason { line, cause })
}
