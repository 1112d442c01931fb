//! The edges over files and standard output. What a file holds and what becomes of output is outside of every proof:
//! neither edge tells any bytes.
ghost use Rattle.std.specs.Prelude.{◌≡◌, ◌≤◌, IfOk, length};

use crate::{Failed, Shelf, Sink};
use std::io::Read;
use std::rt::Files;
use std::{fs, io};

/// The files of the program, each read by its path from its start on. One file is open at a time: where a read of
/// another name succeeds, that one is open from then on.
#[derive(Drop)]
pub struct FileShelf<'a, R: Files> {
    runtime: &'a R,
    open: Option<Open<R::File>>,
    given: u64,
    faults: u64,
}

/// An open file and the name that it was opened by.
#[derive(Drop)]
struct Open<F: Drop> {
    name: String,
    file: F,
}

impl<'a, R: Files + AllocGlobal> FileShelf<'a, R> {
    /// A shelf of the program's files, none of which is open yet.
    pub fn new(runtime: &'a R) -> FileShelf<'a, R>
        ensures given { ⟦<FileShelf<'a, R> as Shelf>⟧.given result ≡ 0 }
        ensures faults { ⟦<FileShelf<'a, R> as Shelf>⟧.faults result ≡ 0 }
    {
        FileShelf {
            runtime,
            open: None,
            given: 0,
            faults: 0,
        }
    }

    /// Reads on in the file of that name, which it opens where it is not the open one.
    fn read_file(&mut self, name: &str, buf: &mut [u8]) -> io::Result<usize>
        ensures room { IfOk result (λ n. n ≤ length buf.new) }
        ensures given { self.new.given ≡ self.old.given }
        ensures faults { self.new.faults ≡ self.old.faults }
    {
        if let Some(open) = &mut self.open {
            if open.name.as_str() == name {
                return open.file.read(buf);
            }
        }
        let name = String::from_str(self.runtime.alloc(), name)?;
        let mut file = fs::open(self.runtime, name.as_str())?;
        let taken = file.read(buf)?;
        self.open = Some(Open { name, file });
        Ok(taken)
    }
}

impl<'a, R: Files + AllocGlobal> Shelf for FileShelf<'a, R> {
    ghost use Rattle.std.specs.Prelude.{None};

    ghost left = { λ _ _. None };

    ghost given = { λ s. s.given };

    ghost faults = { λ s. s.faults };

    /// Reads from the file of that name.
    ///
    /// `Failed`: the file cannot be opened or read, or memory for its name is wanting.
    fn read(&mut self, name: &str, buf: &mut [u8]) -> Result<usize, Failed> {
        match self.read_file(name, buf) {
            Ok(taken) => {
                self.given = self.given.saturating_add(taken as u64);
                Ok(taken)
            }
            Err(_) => {
                self.faults = self.faults.saturating_add(1);
                Err(Failed)
            }
        }
    }
}

/// The standard output of the program.
#[derive(Drop)]
pub struct OutSink<'a, R> {
    runtime: &'a R,
    faults: u64,
}

impl<'a, R: Print> OutSink<'a, R> {
    /// A sink over the program's standard output.
    pub fn new(runtime: &'a R) -> OutSink<'a, R>
        ensures { ⟦<OutSink<'a, R> as Sink>⟧.faults result ≡ 0 }
    {
        OutSink { runtime, faults: 0 }
    }
}

impl<'a, R: Print> Sink for OutSink<'a, R> {
    ghost use Rattle.std.specs.Prelude.{None};

    ghost written = { λ _. None };

    ghost faults = { λ s. s.faults };

    /// Writes to standard output.
    ///
    /// `Failed`: the system refused the write, or took nothing of bytes that were there.
    fn write(&mut self, bytes: &[u8]) -> Result<usize, Failed> {
        match self.runtime.write_some(bytes) {
            Ok(taken) if taken > 0 || bytes.is_empty() => Ok(taken),
            _ => {
                self.faults = self.faults.saturating_add(1);
                Err(Failed)
            }
        }
    }
}
