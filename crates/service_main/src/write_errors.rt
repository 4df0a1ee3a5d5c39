// What the system says where a write fails. It is kept there, since a look at the path afterwards doesn't tell it: a disk that was
// full, or a folder in which no file can be made.

ghost use Rattle.std.specs.Prelude.{◌≡◌};
ghost use Rattle.script_replay.specs.Stops.{IsOutputStop};

use reset_service::RunStop;
use std::cell::Cell;
use std::io;
use std::io::{ErrorKind, Write};

/// What a run writes to.
#[derive(Clone, Copy, Debug, PartialEq, Eq)]
pub enum Target {
    /// The file of its history.
    History,
    /// The standard output.
    Output,
}

/// What the system said of the first write that failed.
#[derive(Clone, Copy)]
pub struct WriteError {
    /// What was written to.
    pub target: Target,
    /// Why that failed.
    pub error: io::Error,
}

/// The first write of a run that failed, if one did.
#[derive(Drop)]
pub struct WriteErrors {
    first: Cell<Option<WriteError>>,
}

impl WriteErrors {
    /// Those of a run of which no write has failed yet.
    pub fn new() -> WriteErrors {
        WriteErrors {
            first: Cell::new(None),
        }
    }

    /// Keeps an error, if it is the first and the system's own: the program has words for its own errors elsewhere.
    pub fn keep(&self, target: Target, error: io::Error) {
        if self.first.get().is_none() && error.raw_os_error().is_some() {
            self.first.set(Some(WriteError { target, error }));
        }
    }

    /// The first write that failed.
    pub fn first(&self) -> Option<WriteError> {
        self.first.get()
    }

    /// Keeps an error of the file of a history, which stops the run so.
    pub fn stop_of(&self, error: io::Error) -> RunStop
        ensures { IsOutputStop result }
    {
        self.keep(Target::History, error);
        match error.kind() {
            ErrorKind::OutOfMemory => RunStop::NoMemory,
            _ => RunStop::WriteFailed,
        }
    }
}

/// A writer whose errors are kept.
#[derive(Drop)]
pub struct WatchedWriter<'a, W: Write + Drop> {
    target: Target,
    /// Where they are kept.
    pub errors: &'a WriteErrors,
    /// What is written to.
    pub out: W,
}

impl<'a, W: Write + Drop> WatchedWriter<'a, W> {
    /// A writer to this target.
    pub fn new(target: Target, errors: &'a WriteErrors, out: W) -> WatchedWriter<'a, W>
        ensures { result.out ≡ out }
    {
        WatchedWriter {
            target,
            errors,
            out,
        }
    }
}

impl<W: Write + Drop> Write for WatchedWriter<'_, W> {
    ghost contents = { λ watched. W.contents watched.out };

    fn write(&mut self, buf: &[u8]) -> io::Result<usize> {
        match self.out.write(buf) {
            Ok(count) => Ok(count),
            Err(error) => {
                self.errors.keep(self.target, error);
                Err(error)
            }
        }
    }

    fn flush(&mut self) -> io::Result<()> {
        match self.out.flush() {
            Ok(()) => Ok(()),
            Err(error) => {
                self.errors.keep(self.target, error);
                Err(error)
            }
        }
    }
}
