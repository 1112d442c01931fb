//! What the parts of a command line ask for.
ghost use Rattle.std.specs.Prelude.{◌≡◌, ◌∷◌, IfOk, Option, Some, None, codes, if◌then◌else◌, map, option_map};
ghost use Rattle.std.specs.List.{list_all};
ghost use Rattle.std.specs.Char.{is_ascii_digit};
ghost use Rattle.std.specs.Str.Parse.{digits_value};
ghost use Rattle.std.specs.String.{string_bytes};
ghost use Rattle.clap.specs.Matches.{found_of};
ghost use Rattle.clap.specs.Walk.{one_of, rows_of};
ghost use Rattle.command_words.specs.Command.{all_differ as none_twice, are_drivers as are_driver_files, asked, bound_of, check_of, is_bound, is_named_in, run_of};
ghost use Rattle.command_words.specs.Line.{IsFlag, asked_by, count_of_flag, to_list};
ghost use Rattle.command_words.specs.Meaning.{IsAnswer};

use crate::commands::{Command, WordsFault};
use clap::ArgMatches;
use sd_base::limits::{DRIVERS, STEP_BOUND};
use std::alloc::{AllocError, Global};

/// The most steps of a run whose command names no bound.
const USUAL_BOUND: u32 = 100_000;

/// The most digits of a bound.
const BOUND_DIGITS: usize = 8;

/// What the parts that `clap` found ask for.
pub fn command_by(alloc: Global, matches: &ArgMatches<'_>) -> Result<Command, WordsFault>
    requires { IsFlag (one_of (codes "count") (rows_of (found_of matches.now))) }
    ensures { IsAnswer (asked_by (rows_of (found_of matches.now))) result }
{
    let Some(mode) = matches.get_str("mode") else {
        return Err(WordsFault::NoCommand);
    };
    let counted = matches.get_flag("count");
    let steps = matches.get_str("steps");
    match matches.get_strs("files") {
        Some(files) => command_with(alloc, mode, files, steps, counted),
        None => command_with(alloc, mode, &[], steps, counted),
    }
}

/// What a mode with its files, the value of `--steps` and `--count` ask for. No mode has `--count` yet.
fn command_with(
    alloc: Global,
    mode: &str,
    files: &[&str],
    steps: Option<&str>,
    counted: bool,
) -> Result<Command, WordsFault>
    ensures { IsAnswer (asked (to_list (option_map (λ s. s.now) steps.entry)) (count_of_flag counted) (mode.now ∷ map (λ s. s.now) files.now)) result }
{
    if counted {
        return Err(WordsFault::NoCommand);
    }
    if mode.as_bytes() == b"run".as_slice() {
        run_command(alloc, steps, files)
    } else if mode.as_bytes() == b"check".as_slice() {
        check_command(alloc, steps, files)
    } else {
        Err(WordsFault::NoCommand)
    }
}

/// A scenario and one to four drivers to run.
fn run_command(alloc: Global, steps: Option<&str>, files: &[&str]) -> Result<Command, WordsFault>
    ensures { IsAnswer (run_of (bound_of (to_list (option_map (λ s. s.now) steps.entry))) (map (λ s. s.now) files.now)) result }
{
    let Some(steps) = bound(steps) else {
        return Err(WordsFault::NoCommand);
    };
    let [scenario, drivers @ ..] = files else {
        return Err(WordsFault::NoCommand);
    };
    if !are_drivers(drivers) || !all_differ(files) {
        return Err(WordsFault::NoCommand);
    }
    let Ok(scenario) = String::from_str(alloc, scenario) else {
        return Err(WordsFault::Memory);
    };
    match names(alloc, drivers) {
        Ok(drivers) => Ok(Command::Run {
            scenario,
            drivers,
            steps,
        }),
        Err(_) => Err(WordsFault::Memory),
    }
}

/// One to four files to check.
fn check_command(alloc: Global, steps: Option<&str>, files: &[&str]) -> Result<Command, WordsFault>
    ensures { IsAnswer (check_of (to_list (option_map (λ s. s.now) steps.entry)) (map (λ s. s.now) files.now)) result }
{
    if steps.is_some() || !are_drivers(files) || !all_differ(files) {
        return Err(WordsFault::NoCommand);
    }
    match names(alloc, files) {
        Ok(files) => Ok(Command::Check { files }),
        Err(_) => Err(WordsFault::Memory),
    }
}

/// The bound that `--steps` gives, or the usual one.
fn bound(steps: Option<&str>) -> Option<u32>
    ensures { result ≡ bound_of (to_list (option_map (λ s. s.now) steps.entry)) }
{
    match steps {
        Some(number) => read_bound(number),
        None => Some(USUAL_BOUND),
    }
}

/// A number of 1 to 8 decimal digits, at most 10,000,000.
fn read_bound(number: &str) -> Option<u32>
    ensures { result ≡ (if is_bound number.now then Some (digits_value 10 number.now) else None) }
{
    if number.is_empty() || number.len() > BOUND_DIGITS || !are_digits(number.as_bytes()) {
        return None;
    }
    match number.parse::<u32>() {
        Ok(bound) => {
            if bound <= STEP_BOUND {
                Some(bound)
            } else {
                None
            }
        }
        Err(_) => None,
    }
}

fn are_digits(number: &[u8]) -> bool
    ensures { result ≡ list_all is_ascii_digit number.now }
{
    number.iter().all(|byte| byte.is_ascii_digit())
}

/// Whether there are as many files as a command may have drivers.
fn are_drivers(files: &[&str]) -> bool
    ensures { result ≡ are_driver_files (map (λ s. s.now) files.now) }
{
    1 <= files.len() && files.len() <= DRIVERS
}

/// Whether no file is named twice.
fn all_differ(files: &[&str]) -> bool
    ensures { result ≡ none_twice (map (λ s. s.now) files.now) }
{
    match files {
        [] => true,
        [first, rest @ ..] => !is_among(first.as_bytes(), rest) && all_differ(rest),
    }
}

fn is_among(file: &[u8], files: &[&str]) -> bool
    ensures { result ≡ is_named_in file.now (map (λ s. s.now) files.now) }
{
    match files {
        [] => false,
        [first, rest @ ..] => file == first.as_bytes() || is_among(file, rest),
    }
}

/// The names, owned.
fn names(alloc: Global, files: &[&str]) -> Result<Vec<String>, AllocError>
    ensures { IfOk result (λ r. map string_bytes r.items ≡ map (λ s. s.now) files.now) }
{
    let mut names = Vec::new(alloc);
    let mut rest = files;
    while let [first, after @ ..] = rest {
        let name = String::from_str(alloc, first)?;
        names.push(name)?;
        rest = after;
    }
    Ok(names)
}
