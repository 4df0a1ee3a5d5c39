// The subcommand `threads`: for how long its nodes take turns, and the file of its history.

use crate::files::{read_file, read_snapshot};
use crate::history_file::create_history;
use crate::places::{history_fault, refuse_history};
use crate::write_errors::WriteErrors;
use reset_service::{
    RunStop, Status, ThreadRun, ThreadWords, TurnLimit, threads_from, threads_run, threads_text,
};
use script_replay::read_network;
use std::alloc::Global;
use std::io::Write;
use std::rt::Files;
use std::sync::Wait;
use std::thread::Threads;
use topology::AppName;

// What is wrong with words that clap takes, in the form in which clap says it of others.
const NO_LIMIT: &str = "either '--turns <N>' or '--until quiet' has to be given";

const TWO_LIMITS: &str = "the argument '--turns <N>' cannot be used with '--until <quiet>'";

const NO_SUCH_END: &str = "invalid value for '--until <quiet>'\n  [possible values: quiet]";

const NEVER_QUIET: &str = "\
'--until quiet' would never end, since the application of the topology always has something to do; give '--turns <N>'";

const USAGE: &str = "\
Usage: reset-service threads [OPTIONS] --history <FILE> <TOPOLOGY>\n\
\n\
For more information, try '--help'.";

/// Runs a thread for each node, and writes what the nodes did to the file for the history.
pub fn run_threads<R: Files + Eprint + AllocGlobal + Threads + Wait + Sync, W: Write>(
    rt: &R,
    words: ThreadWords<'_>,
    errors: &WriteErrors,
    out: &mut W,
) -> Result<Status, RunStop> {
    let limit = match limit_of(words) {
        Ok(limit) => limit,
        Err(mistake) => return Ok(refuse_words(rt, mistake)),
    };
    if let Some(fault) = history_fault(rt, words.history, &[Some(words.topology), words.from]) {
        return Ok(refuse_history(rt, fault));
    }
    let topology = read_file(rt, words.topology)?;
    if limit == TurnLimit::UntilQuiet && is_restless(rt.alloc(), &topology) {
        return Ok(refuse_words(rt, NEVER_QUIET));
    }
    let snapshot = read_snapshot(rt, words.from)?;
    let mut kept = create_history(rt, words.history, errors)?;
    let snapshot = snapshot.as_deref();
    let ended = keep_run(rt, words, limit, &topology, snapshot, &mut kept.file, out);
    kept.end(rt, out, ended)
}

// Says what is wrong with the words.
fn refuse_words<R: Eprint>(rt: &R, mistake: &str) -> Status {
    let _ = eprintln!(rt; "error: {mistake}\n\n{USAGE}");
    Status::BadInput
}

// For how long the nodes take turns, or what is wrong with the words for that.
fn limit_of(words: ThreadWords<'_>) -> Result<TurnLimit, &'static str> {
    match (words.turns, words.until) {
        (Some(turns), None) => Ok(TurnLimit::AtMost(turns)),
        (None, None) => Err(NO_LIMIT),
        (_, Some(until)) if until != "quiet" => Err(NO_SUCH_END),
        (Some(_), Some(_)) => Err(TWO_LIMITS),
        (None, Some(_)) => Ok(TurnLimit::UntilQuiet),
    }
}

// Whether the application of a topology text is one whose nodes always have something to do. That of a bad text isn't: the
// run says what is wrong with it.
fn is_restless(alloc: Global, topology: &[u8]) -> bool {
    match read_network(alloc, topology) {
        Ok(network) => matches!(network.app, AppName::Token | AppName::Mutex),
        Err(_) => false,
    }
}

fn keep_run<R: Threads + Wait + Sync + AllocGlobal, H: Write, W: Write>(
    rt: &R,
    words: ThreadWords<'_>,
    limit: TurnLimit,
    topology: &[u8],
    snapshot: Option<&[u8]>,
    history: &mut H,
    out: &mut W,
) -> Result<Status, RunStop> {
    match (words.turns, words.select, words.resets) {
        (Some(turns), None, 1) => match snapshot {
            None => threads_text(rt, rt.alloc(), topology, turns, history, out),
            Some(snapshot) => {
                threads_from(rt, rt.alloc(), topology, snapshot, turns, history, out)
            }
        },
        _ => {
            let run = ThreadRun {
                turns: limit,
                selected: words.select,
                resets: words.resets,
            };
            threads_run(rt, rt.alloc(), topology, snapshot, run, history, out)
        }
    }
}
