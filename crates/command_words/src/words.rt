//! The command line as a whole.
ghost use Rattle.std.specs.Prelude.{map};
ghost use Rattle.std.specs.String.{string_bytes};
ghost use Rattle.command_words.specs.Command.{command_of};
ghost use Rattle.command_words.specs.Meaning.{IsAnswer};

use crate::asking::command_by;
use crate::commands::{Command, WordsFault};
use crate::handing::{are_known, hand_words};
use crate::line::parse;
use std::alloc::Global;

/// The command that the words are. The program's name is none of them.
pub fn read_words(alloc: Global, words: &[String]) -> Result<Command, WordsFault>
    ensures { IsAnswer (command_of (map string_bytes words.now)) result }
{
    if !are_known(words) {
        return Err(WordsFault::NoCommand);
    }
    let Ok(handed) = hand_words(alloc, words) else {
        return Err(WordsFault::Memory);
    };
    match parse(alloc, handed.as_slice()) {
        Ok(matches) => command_by(alloc, &matches),
        Err(fault) => Err(fault),
    }
}
