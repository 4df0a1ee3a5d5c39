// The subcommand `explore`: what it looks for, and the file of its history.

use crate::files::{open_file, read_file, read_snapshot};
use crate::history_file::create_history;
use crate::places::{history_fault, refuse_history};
use crate::write_errors::WriteErrors;
use progress::Progress;
use reset_service::{
    ExploreWords, Exploring, RunStop, Status, Target, explore_history, explore_text,
};
use std::io::{Read, Write};
use std::rt::Files;

// What is wrong with a word that clap takes, in the form in which clap says it of others.
const NO_SUCH_TARGET: &str = "\
error: invalid value for '--until <WHAT>'\n  [possible values: check, invariant]\n\
\n\
Usage: reset-service explore [OPTIONS] <TOPOLOGY> [SCRIPT]\n\
\n\
For more information, try '--help'.";

/// Explores the orders of the events, or looks for a configuration. Where no script is given, that is of what a run starts
/// from.
pub fn run_explore<R: Files + Eprint + AllocGlobal, W: Write>(
    rt: &R,
    words: ExploreWords<'_>,
    progress: &Progress,
    errors: &WriteErrors,
    out: &mut W,
) -> Result<Status, RunStop> {
    let Some(run) = exploring_by(words) else {
        let _ = eprintln!(rt; "{NO_SUCH_TARGET}");
        return Ok(Status::BadInput);
    };
    if let Some(path) = words.history {
        let inputs = [Some(words.topology), words.script, words.from];
        if let Some(fault) = history_fault(rt, path, &inputs) {
            return Ok(refuse_history(rt, fault));
        }
    }
    let topology = read_file(rt, words.topology)?;
    let snapshot = read_snapshot(rt, words.from)?;
    let snapshot = snapshot.as_deref();
    let history = words.history;
    match words.script {
        Some(path) => {
            let mut script = open_file(rt, path)?;
            put_explored(
                rt,
                run,
                history,
                &topology,
                snapshot,
                &mut script,
                progress,
                errors,
                out,
            )
        }
        None => {
            let mut script = b"".as_slice();
            put_explored(
                rt,
                run,
                history,
                &topology,
                snapshot,
                &mut script,
                progress,
                errors,
                out,
            )
        }
    }
}

/// Whether what the words look for is known, if they look for something.
pub fn is_known(words: ExploreWords<'_>) -> bool {
    exploring_by(words).is_some()
}

// How far the words let it go, and what it looks for. None where there is nothing of the name to look for.
fn exploring_by(words: ExploreWords<'_>) -> Option<Exploring> {
    let until = match words.until {
        None => None,
        Some("check") => Some(Target::FailingRow),
        Some("invariant") => Some(Target::BrokenInvariant),
        Some(_) => return None,
    };
    Some(Exploring {
        acts: words.acts,
        most: words.most,
        until,
    })
}

fn put_explored<R: Files + Eprint + AllocGlobal, S: Read, W: Write>(
    rt: &R,
    run: Exploring,
    history: Option<&str>,
    topology: &[u8],
    snapshot: Option<&[u8]>,
    script: &mut S,
    progress: &Progress,
    errors: &WriteErrors,
    out: &mut W,
) -> Result<Status, RunStop> {
    let Some(path) = history else {
        return explore_text(rt.alloc(), topology, snapshot, script, run, progress, out);
    };
    let mut kept = create_history(rt, path, errors)?;
    let history = &mut kept.file;
    let ended = explore_history(
        rt.alloc(),
        topology,
        snapshot,
        script,
        run,
        progress,
        history,
        out,
    );
    kept.end(rt, out, ended)
}
