// Opening and reading the files that the command line names.

ghost use Rattle.std.specs.Prelude.{IfErr, IfOk};
ghost use Rattle.script_replay.specs.Lines.{IsReadFrom};
ghost use Rattle.script_replay.specs.Stops.{IsInputStop};

use reset_service::{MAX_SNAPSHOT, READ_LIMIT, RunStop, read_text};
use std::alloc::Global;
use std::io::Read;
use std::rt::Files;
use std::{fs, io};

/// Opens a file for reading. One that can't be opened is a read fault.
pub fn open_file<R: Files>(rt: &R, path: &str) -> Result<R::File, RunStop>
    ensures { IfErr result IsInputStop }
{
    match fs::open(rt, path) {
        Ok(file) => Ok(file),
        Err(error) if error.kind() == io::ErrorKind::OutOfMemory => Err(RunStop::NoMemory),
        Err(_) => Err(RunStop::ReadFailed),
    }
}

/// The text of a file, or its first `READ_LIMIT` bytes.
pub fn read_file<R: Files + AllocGlobal>(rt: &R, path: &str) -> Result<Vec<u8>, RunStop>
    ensures ok { IfOk result (λ text. (file : R.File) × IsReadFrom (R.File.remaining file) text.items) }
    ensures err { IfErr result IsInputStop }
{
    let mut file = open_file(rt, path)?;
    read_text(rt.alloc(), &mut file)
}

/// The text of a file with a snapshot, if one is given, or its first bytes, which are more than a snapshot may have.
pub fn read_snapshot<R: Files + AllocGlobal>(
    rt: &R,
    path: Option<&str>,
) -> Result<Option<Vec<u8>>, RunStop>
    ensures { IfErr result IsInputStop }
{
    match path {
        Some(path) => Ok(Some(read_pieces(rt.alloc(), &mut open_file(rt, path)?)?)),
        None => Ok(None),
    }
}

// Reads a text to its end, or somewhat more of it than a snapshot may have.
fn read_pieces<R: Read>(alloc: Global, reader: &mut R) -> Result<Vec<u8>, RunStop>
    ensures { IfErr result IsInputStop }
{
    let mut text = Vec::new(alloc);
    for _ in 0..=MAX_SNAPSHOT / READ_LIMIT {
        let piece = read_text(alloc, reader)?;
        text.extend_from_slice(&piece)?;
        if piece.len() < READ_LIMIT {
            break;
        }
    }
    Ok(text)
}
