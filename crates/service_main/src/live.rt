// The subcommand `session`: its input is the standard input, and its history a file that it appends to.

use crate::beginnings::{Beginning, beginning_of};
use crate::files::{open_file, read_file, read_snapshot};
use crate::kept_file::{KeptFile, open_kept};
use crate::places::{history_fault, refuse_history};
use crate::streams::{HintedInput, Streams, hold_descriptors};
use crate::write_errors::WriteErrors;
use reset_service::{Past, RunStop, SessionWords, Status, session_text};
use std::io;
use std::io::{Read, Write};
use std::rt::Files;

// The text of a history of a version that there isn't.
const NO_VERSION: &[u8] = b"reset-history 0\n";

/// Holds a session on standard input.
pub fn run_session<R: Files + Input + Eprint + AllocGlobal, W: Write>(
    rt: &R,
    streams: Streams,
    words: SessionWords<'_>,
    errors: &WriteErrors,
    out: &mut W,
) -> Result<Status, RunStop> {
    let topology = read_file(rt, words.topology)?;
    let snapshot = read_snapshot(rt, words.from)?;
    let mut input = HintedInput::new(rt.reader(), streams);
    let Some(path) = words.history else {
        return hold_session(rt, &topology, text_of(&snapshot), &mut input, out);
    };
    let inputs = [Some(words.topology), words.from, Some("/dev/stdin")];
    if let Some(fault) = history_fault(rt, path, &inputs) {
        return Ok(refuse_history(rt, fault));
    }
    let held = hold_descriptors(rt, errors)?;
    let mut log = open_kept(rt, path, words.sync, streams.errors, errors)?;
    let ended = keep_session(
        rt,
        &topology,
        text_of(&snapshot),
        path,
        &mut input,
        &mut log,
        out,
    );
    drop(log);
    drop(held);
    ended
}

// A session without a history.
fn hold_session<R: AllocGlobal, I: Read, W: Write>(
    rt: &R,
    topology: &[u8],
    snapshot: Option<&[u8]>,
    input: &mut I,
    out: &mut W,
) -> Result<Status, RunStop> {
    let mut log = io::sink();
    let past: Past<&[u8]> = Past::Unkept;
    session_text(rt.alloc(), topology, snapshot, past, input, &mut log, out)
}

// A session with a history in the file of this path: a new one, or one that goes on. One of an older version doesn't go on,
// and is answered as one of a version that there isn't.
fn keep_session<R: Files + AllocGlobal, I: Read, W: Write>(
    rt: &R,
    topology: &[u8],
    snapshot: Option<&[u8]>,
    path: &str,
    input: &mut I,
    log: &mut KeptFile<'_, R>,
    out: &mut W,
) -> Result<Status, RunStop> {
    let past: Past<&[u8]> = match beginning_of(rt, topology, path, log)? {
        Beginning::New => Past::New,
        Beginning::Older => Past::Kept(NO_VERSION),
        Beginning::Kept => {
            let kept = Past::Kept(open_file(rt, path)?.take(log.judged()));
            return session_text(rt.alloc(), topology, snapshot, kept, input, log, out);
        }
    };
    session_text(rt.alloc(), topology, snapshot, past, input, log, out)
}

fn text_of(text: &Option<Vec<u8>>) -> Option<&[u8]> {
    match text {
        Some(text) => Some(text),
        None => None,
    }
}
