// Whether a run is to say on standard error which file was bad, where and why, and how far it has come.

use reset_service::{Job, RunStop};
use std::alloc::Global;
use std::env;
use std::env::{Env, VarError};

// The word that asks for it, and the variable of the environment that does where its value is 1.
const VERBOSE: &str = "--verbose";

const RESET_VERBOSE: &str = "RESET_VERBOSE";

// The word that asks for how far a run has come, where standard error is no terminal too.
const PROGRESS: &str = "--progress";

/// The words that the program was given.
#[derive(Drop)]
pub struct GivenWords {
    /// The program's name, and the words after it except `--verbose` and `--progress`.
    pub words: Vec<String>,
    /// Whether `--verbose` was one of these, before a word `--`.
    pub is_verbose: bool,
    /// Whether `--progress` was one of these, before a word `--`.
    pub has_progress: bool,
}

/// Takes the words `--verbose` and `--progress` out of those that the program was given. What follows a word `--` is
/// left as it is.
pub fn without_flags(alloc: Global, words: Vec<String>) -> Result<GivenWords, RunStop> {
    let mut kept = Vec::new(alloc);
    let mut is_verbose = false;
    let mut has_progress = false;
    let mut is_ended = false;
    for word in words {
        is_ended = is_ended || word.as_str() == "--";
        if !is_ended && !kept.is_empty() && word.as_str() == VERBOSE {
            is_verbose = true;
        } else if !is_ended && !kept.is_empty() && word.as_str() == PROGRESS {
            has_progress = true;
        } else if kept.push(word).is_err() {
            return Err(RunStop::NoMemory);
        }
    }
    Ok(GivenWords {
        words: kept,
        is_verbose,
        has_progress,
    })
}

/// Whether the environment asks each run to say it.
pub fn is_set<R: Env + AllocGlobal>(rt: &R) -> Result<bool, RunStop> {
    match env::var(rt, RESET_VERBOSE) {
        Ok(value) => Ok(value.as_str() == "1"),
        Err(VarError::OutOfMemory) => Err(RunStop::NoMemory),
        Err(_) => Ok(false),
    }
}

/// Whether a job says it in any case.
pub fn says_always(job: Job<'_>) -> bool {
    matches!(
        job,
        Job::Plan(_) | Job::Explore(_) | Job::Session(_) | Job::Page(_)
    )
}
