//! The command line as `clap` reads it.
ghost use Rattle.std.specs.Prelude.{◌≡◌, IfOk, map};
ghost use Rattle.clap.specs.Simple.{app_of};
ghost use Rattle.clap.specs.Values.{kind_of};
ghost use Rattle.clap.specs.declared.error.kind.ErrorKind.TheVariants.{OutOfMemory};
ghost use Rattle.command_words.specs.Line.{IsParse, command_line as line};

use crate::commands::WordsFault;
use clap::error::ErrorKind;
use clap::{Arg, ArgAction, ArgMatches, Command, Error};
use std::alloc::{AllocError, Global};

/// What `clap` finds among the words: the mode, the files, the value of `--steps` and the flag `--count`.
pub fn parse<'a>(alloc: Global, words: &'a [&'a str]) -> Result<ArgMatches<'a>, WordsFault>
    ensures { IsParse (map (λ s. s.now) words.entry.now) result }
{
    let Ok(command) = command_line(alloc) else {
        return Err(WordsFault::Memory);
    };
    match command.try_get_matches_from(words) {
        Ok(matches) => Ok(matches),
        Err(error) => Err(fault_of(&error)),
    }
}

/// One simple command: a mode, files, `--steps` with a value and `--count`.
fn command_line<'a>(alloc: Global) -> Result<Command<'a>, AllocError>
    ensures { IfOk result (λ r. app_of r ≡ line) }
{
    let mode = Arg::new(alloc, "mode").required(true);
    let files = Arg::new(alloc, "files").action(ArgAction::Append);
    let steps = Arg::new(alloc, "steps").long("steps");
    let count = Arg::new(alloc, "count")
        .long("count")
        .action(ArgAction::SetTrue);
    let command = Command::new(alloc, "safedrive")
        .no_binary_name(true)
        .disable_help_flag(true)
        .disable_version_flag(true)
        .arg(mode)?
        .arg(files)?
        .arg(steps)?
        .arg(count)?;
    Ok(command)
}

/// Want of memory, or else that the words are no command.
fn fault_of(error: &Error) -> WordsFault
    ensures { (result ≡ WordsFault.NoCommand) → (kind_of error.now ≡ OutOfMemory) → ⊥ }
{
    if error.kind() == ErrorKind::OutOfMemory {
        WordsFault::Memory
    } else {
        WordsFault::NoCommand
    }
}
