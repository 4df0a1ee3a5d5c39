// What is said on standard error of the file that was bad: where, and why.

ghost use Rattle.std.specs.Prelude.{◌≡◌, ◌⊎◌, Err};

use crate::beginnings::{Beginning, beginning_of};
use crate::files::{open_file, read_file, read_snapshot};
use crate::kept_file::open_kept;
use crate::places::history_fault;
use crate::run_explore::is_known;
use crate::streams::Streams;
use crate::write_errors::{Target, WriteErrors};
use action_tables::WriteFault;
use diagnoses::{
    Source, put_history_fault, put_said, put_script_fault, put_snapshot_fault, put_topology_fault,
};
use reset_service::{Job, RunStop, Status};
use std::alloc::Global;
use std::io::Read;
use std::rt::Files;
use std::{fs, io};

// What is said of a pipe, or of another file whose bytes are gone.
const NOT_AGAIN: &[u8] = b"it can't be read a second time";

// What is said of a snapshot without a line.
const ALL_DOWN: &[u8] = b"it is empty, so all nodes are down";

// What is said of a history of version 1 or 2 that a session was to go on with.
const OLDER: &[u8] = b"line 1: a session goes on with a history of version 3 alone";

// The files that a job reads, in the order in which it judges them, and the one that its history goes to.
#[derive(Clone, Copy)]
struct Inputs<'a> {
    topology: &'a str,
    snapshot: Option<&'a str>,
    script: Option<&'a str>,
    history: Option<&'a str>,
    // A session goes on after it, if it is there.
    kept: Option<&'a str>,
    written: Option<&'a str>,
}

impl<'a> Inputs<'a> {
    fn new(topology: &'a str, snapshot: Option<&'a str>) -> Inputs<'a> {
        Inputs {
            topology,
            snapshot,
            script: None,
            history: None,
            kept: None,
            written: None,
        }
    }

    fn with_script(self, script: Option<&'a str>) -> Inputs<'a> {
        Inputs { script, ..self }
    }

    fn with_history(self, history: &'a str) -> Inputs<'a> {
        Inputs {
            history: Some(history),
            ..self
        }
    }

    fn with_written(self, written: Option<&'a str>) -> Inputs<'a> {
        Inputs { written, ..self }
    }

    // Whether the run was refused for where its history was to go, before it judged its inputs.
    fn is_refused<R: Files>(&self, rt: &R) -> bool {
        let Some(path) = self.written else {
            return false;
        };
        // the commands of a session are its input
        let commands = self.kept.map(|_| "/dev/stdin");
        let inputs = [Some(self.topology), self.script, self.snapshot, commands];
        history_fault(rt, path, &inputs).is_some()
    }
}

// The files of a job. The replay of a joined text has none.
fn inputs_of(job: Job<'_>) -> Option<Inputs<'_>> {
    match job {
        Job::Replay(words) => {
            Some(Inputs::new(words.topology, words.from).with_script(Some(words.script)))
        }
        Job::Check(words) => {
            Some(Inputs::new(words.topology, words.from).with_script(Some(words.script)))
        }
        Job::Picture(words) => {
            Some(Inputs::new(words.topology, words.from).with_history(words.history))
        }
        Job::Plan(words) => Some(Inputs::new(words.topology, words.from).with_script(words.script)),
        Job::Explore(words) if is_known(words) => Some(
            Inputs::new(words.topology, words.from)
                .with_script(words.script)
                .with_written(words.history),
        ),
        Job::Session(words) => Some(Inputs {
            kept: words.history,
            ..Inputs::new(words.topology, words.from).with_written(words.history)
        }),
        Job::Verify(words) => {
            Some(Inputs::new(words.topology, words.from).with_history(words.history))
        }
        Job::Page(words) => {
            Some(Inputs::new(words.topology, words.from).with_history(words.history))
        }
        Job::Record(words) => Some(
            Inputs::new(words.topology, words.from)
                .with_script(Some(words.script))
                .with_written(Some(words.history)),
        ),
        Job::Threads(words) => {
            Some(Inputs::new(words.topology, words.from).with_written(Some(words.history)))
        }
        Job::Drive(words) => {
            Some(Inputs::new(words.topology, words.from).with_written(Some(words.history)))
        }
        Job::Explore(_) | Job::Joined | Job::Shape(_) | Job::Explain(_) | Job::Tables => None,
    }
}

/// Writes what was wrong with the files of a job that ended so, if it was bad input, a read fault or a write fault. The run keeps
/// its result, unless an allocation fails here: then nothing is written, and the result is `NoMemory`.
pub fn say_why<R: Files + AllocGlobal>(
    rt: &R,
    streams: Streams,
    job: Job<'_>,
    ended: Result<Status, RunStop>,
    errors: &WriteErrors,
    said: &mut Vec<u8>,
) -> Result<Status, RunStop>
    ensures { (result ≡ ended) ⊎ (result ≡ Err RunStop.NoMemory) }
{
    let told = match ended {
        Ok(Status::BadInput) => put_bad_input(rt, streams, job, said),
        Err(RunStop::ReadFailed) => put_unread(rt, job, said),
        Err(RunStop::WriteFailed) => put_unwritten(rt.alloc(), job, errors, said),
        _ => return ended,
    };
    match told {
        Ok(()) => ended,
        Err(_) => {
            said.clear();
            Err(RunStop::NoMemory)
        }
    }
}

/// Writes of the snapshot that a job starts from, if it is empty: then all nodes are down, which is more often a mistake in how
/// it was made.
pub fn say_all_down<R: Files>(rt: &R, job: Job<'_>, said: &mut Vec<u8>) -> Result<(), WriteFault> {
    let Some(path) = inputs_of(job).and_then(|inputs| inputs.snapshot) else {
        return Ok(());
    };
    match fs::metadata(rt, path) {
        Ok(found) if found.is_file() && found.len() == 0 => put_said(said, path, ALL_DOWN),
        _ => Ok(()),
    }
}

// Writes which file can't be read, and why.
fn put_unread<R: Files + AllocGlobal>(
    rt: &R,
    job: Job<'_>,
    said: &mut Vec<u8>,
) -> Result<(), RunStop> {
    let Some(inputs) = inputs_of(job) else {
        return Ok(());
    };
    let paths = [
        Some(inputs.topology),
        inputs.snapshot,
        inputs.script,
        inputs.history,
    ];
    for path in paths {
        if let Some(path) = path {
            if let Some(error) = fault_of_file(rt, path) {
                return put_error(rt.alloc(), path, error, said);
            }
        }
    }
    Ok(())
}

// Writes what couldn't be written to, and why, where the system said why.
fn put_unwritten(
    alloc: Global,
    job: Job<'_>,
    errors: &WriteErrors,
    said: &mut Vec<u8>,
) -> Result<(), RunStop> {
    let Some(failed) = errors.first() else {
        return Ok(());
    };
    let name = match failed.target {
        Target::Output => Some("standard output"),
        Target::History => inputs_of(job).and_then(|inputs| inputs.written),
    };
    match name {
        Some(name) => put_error(alloc, name, failed.error, said),
        None => Ok(()),
    }
}

// Why a file can't be opened or read, if so. One that is no regular file isn't opened again, as that may block.
fn fault_of_file<R: Files>(rt: &R, path: &str) -> Option<io::Error> {
    match fs::metadata(rt, path) {
        Ok(found) if found.is_file() || found.is_dir() => {}
        Ok(_) => return None,
        Err(error) => return Some(error),
    }
    match fs::open(rt, path) {
        Ok(mut file) => file.read(&mut [0; 1]).err(),
        Err(error) => Some(error),
    }
}

// Writes what the system says of a file, without the number of the error.
fn put_error(
    alloc: Global,
    path: &str,
    error: io::Error,
    said: &mut Vec<u8>,
) -> Result<(), RunStop> {
    if error.kind() == io::ErrorKind::OutOfMemory {
        return Err(RunStop::NoMemory);
    }
    let text = format!(in alloc; "{error}")?;
    put_said(said, path, without_number(text.as_str()).as_bytes())?;
    Ok(())
}

// What the system says of an error, without its number.
fn without_number(text: &str) -> &str {
    match text.split_once(" (os error ") {
        Some((reason, _)) => reason,
        None => text,
    }
}

// Writes what is wrong with the first text that is bad.
fn put_bad_input<R: Files + AllocGlobal>(
    rt: &R,
    streams: Streams,
    job: Job<'_>,
    said: &mut Vec<u8>,
) -> Result<(), RunStop> {
    match inputs_of(job) {
        Some(inputs) if !inputs.is_refused(rt) => put_bad_file(rt, streams, inputs, said),
        None if job == Job::Joined => {
            put_said(said, "standard input", NOT_AGAIN)?;
            Ok(())
        }
        _ => Ok(()),
    }
}

fn put_bad_file<R: Files + AllocGlobal>(
    rt: &R,
    streams: Streams,
    inputs: Inputs<'_>,
    said: &mut Vec<u8>,
) -> Result<(), RunStop> {
    if is_gone(rt, inputs.topology, said)? {
        return Ok(());
    }
    let text = read_file(rt, inputs.topology)?;
    let topology = Source {
        name: inputs.topology,
        text: &text,
    };
    let _ = put_topology_fault(rt.alloc(), topology, said)?
        || put_if_bad(
            rt,
            inputs.snapshot,
            said,
            |name, said| put_bad_snapshot(rt, topology, name, said),
        )?
        || put_if_bad(
            rt,
            inputs.script,
            said,
            |name, said| put_bad_script(rt, topology, name, said),
        )?
        || put_if_bad(
            rt,
            inputs.history,
            said,
            |name, said| put_bad_history(rt, topology, name, said),
        )?
        || put_if_bad(
            rt,
            inputs.kept,
            said,
            |name, said| put_bad_kept(rt, streams, topology, name, said),
        )?;
    Ok(())
}

// Writes what is wrong with a file, if there is one: that it can't be read a second time, or else what `put` writes of
// it. Returns whether it wrote.
fn put_if_bad<R: Files, F: FnOnce(&str, &mut Vec<u8>) -> Result<bool, RunStop>>(
    rt: &R,
    path: Option<&str>,
    said: &mut Vec<u8>,
    put: F,
) -> Result<bool, RunStop>
    requires { F.IsAlwaysCallable put }
{
    match path {
        Some(name) => Ok(is_gone(rt, name, said)? || put(name, said)?),
        None => Ok(false),
    }
}

fn put_bad_snapshot<R: Files + AllocGlobal>(
    rt: &R,
    topology: Source<'_>,
    name: &str,
    said: &mut Vec<u8>,
) -> Result<bool, RunStop> {
    match read_snapshot(rt, Some(name))? {
        Some(text) => {
            let snapshot = Source { name, text: &text };
            put_snapshot_fault(rt.alloc(), topology.text, snapshot, said)
        }
        None => Ok(false),
    }
}

fn put_bad_script<R: Files + AllocGlobal>(
    rt: &R,
    topology: Source<'_>,
    name: &str,
    said: &mut Vec<u8>,
) -> Result<bool, RunStop> {
    let text = read_file(rt, name)?;
    let script = Source { name, text: &text };
    put_script_fault(rt.alloc(), topology.text, script, said)
}

fn put_bad_history<R: Files + AllocGlobal>(
    rt: &R,
    topology: Source<'_>,
    name: &str,
    said: &mut Vec<u8>,
) -> Result<bool, RunStop> {
    let mut history = open_file(rt, name)?;
    put_history_fault(rt.alloc(), topology, name, &mut history, said)
}

// Of a session's history the whole lines alone are judged, and a new one isn't.
fn put_bad_kept<R: Files + AllocGlobal>(
    rt: &R,
    streams: Streams,
    topology: Source<'_>,
    name: &str,
    said: &mut Vec<u8>,
) -> Result<bool, RunStop> {
    let errors = WriteErrors::new();
    let log = open_kept(rt, name, false, streams.errors, &errors)?;
    if beginning_of(rt, topology.text, name, &log)? == Beginning::Older {
        put_said(said, name, OLDER)?;
        return Ok(true);
    }
    let mut history = open_file(rt, name)?.take(log.judged());
    put_history_fault(rt.alloc(), topology, name, &mut history, said)
}

// Whether a file is no regular one, so that what it had is gone; then that is written.
fn is_gone<R: Files>(rt: &R, path: &str, said: &mut Vec<u8>) -> Result<bool, RunStop> {
    match fs::metadata(rt, path) {
        Ok(found) if !found.is_file() => {
            put_said(said, path, NOT_AGAIN)?;
            Ok(true)
        }
        Err(error) if error.kind() == io::ErrorKind::OutOfMemory => Err(RunStop::NoMemory),
        _ => Ok(false),
    }
}
