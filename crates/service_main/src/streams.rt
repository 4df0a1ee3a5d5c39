// The standard streams.

ghost use Rattle.std.specs.Prelude.{IfErr};
ghost use Rattle.script_replay.specs.Stops.{IsOutputStop};

use crate::write_errors::WriteErrors;
use action_tables::put_bytes;
use reset_service::RunStop;
use std::io::{IsTerminal, Read, Stderr, Stdin};
use std::rt::Files;
use std::{fs, io};

const HINT: &[u8] = b"session: one command a line; help lists them, exit ends it\n";

/// Those that a terminal may stand behind.
#[derive(Clone, Copy)]
pub struct Streams {
    /// Standard input.
    pub input: Stdin,
    /// Standard error.
    pub errors: Stderr,
}

/// Folders that are held open. While they are, the descriptor of each standard stream is taken, also where the
/// program was started without the stream: the next file that is opened would get it, and with it what is written to
/// the stream.
/// What is read from such a folder or written to it is an error.
#[derive(Drop)]
pub struct HeldDescriptors<F: Drop> {
    first: F,
    second: F,
    third: F,
}

/// Takes the descriptors of the standard streams that are closed.
pub fn hold_descriptors<R: Files>(
    rt: &R,
    errors: &WriteErrors,
) -> Result<HeldDescriptors<R::File>, RunStop>
    ensures { IfErr result IsOutputStop }
{
    let first = hold_one(rt, errors)?;
    let second = hold_one(rt, errors)?;
    let third = hold_one(rt, errors)?;
    Ok(HeldDescriptors {
        first,
        second,
        third,
    })
}

fn hold_one<R: Files>(rt: &R, errors: &WriteErrors) -> Result<R::File, RunStop>
    ensures { IfErr result IsOutputStop }
{
    match fs::open(rt, "/") {
        Ok(folder) => Ok(folder),
        Err(error) => Err(errors.stop_of(error)),
    }
}

/// The input of a session. Before the first read from a terminal it says there what it waits for.
#[derive(Drop)]
pub struct HintedInput<I: Read + Drop> {
    input: I,
    streams: Streams,
    is_begun: bool,
}

impl<I: Read + Drop> HintedInput<I> {
    /// An input from which nothing was read yet.
    pub fn new(input: I, streams: Streams) -> HintedInput<I> {
        HintedInput {
            input,
            streams,
            is_begun: false,
        }
    }
}

impl<I: Read + Drop> Read for HintedInput<I> {
    fn read(&mut self, buf: &mut [u8]) -> io::Result<usize> {
        if !self.is_begun {
            self.is_begun = true;
            let mut errors = self.streams.errors;
            if self.streams.input.is_terminal() && errors.is_terminal() {
                let _ = put_bytes(&mut errors, HINT);
            }
        }
        self.input.read(buf)
    }
}
