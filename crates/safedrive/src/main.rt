//! SafeDrive as a program: files are the shelf, standard output is the sink, and the status is the exit status.
#![tactic(auto)]

use sd_engine::{Status, serve};
use sd_outside::{FileShelf, OutSink};
use std::alloc::Global;
use std::io::ErrorKind;
use std::process::ExitCode;
use std::rt::{Env, Files};
use std::{env, io};

fn main(rt: HostRuntime) -> ExitCode {
    let status = run(&rt);
    if status != Status::Done {
        let name = status.name();
        let _ = eprintln!(rt; "{name}");
    }
    ExitCode::from(status.number())
}

/// Serves the program's words. Words that are no text are no command.
fn run<R: Env + Files + Print + AllocGlobal>(rt: &R) -> Status {
    match words(rt) {
        Ok(words) => serve(
            rt.alloc(),
            words.as_slice(),
            &mut FileShelf::new(rt),
            &mut OutSink::new(rt),
        ),
        Err(error) if error.kind() == ErrorKind::OutOfMemory => Status::OutOfMemory,
        Err(_) => Status::Usage,
    }
}

/// The program's words, without its own name.
fn words<R: Env + AllocGlobal>(rt: &R) -> io::Result<Vec<String>> {
    let words = env::args(rt)?.skip(1).collect(rt.alloc())?;
    Ok(words)
}
