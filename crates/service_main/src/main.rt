//! The program of the distributed reset service: it replays a script of reset events on the booted
//! configuration of a topology and writes an answer to each, plans how a damaged network recovers, records what it did
//! as a history, runs a thread for each node, drives a network by a seeded scheduler, holds sessions, and verifies,
//! draws and plays histories.
//! Here stand the files and the streams that it opens and its exit status; all else is the library `reset_service`.
#![tactic(auto)]

mod bad_files;
mod beginnings;
mod counts;
mod files;
mod history_file;
mod kept_file;
mod live;
mod places;
mod progress_line;
mod progress_text;
mod run_explore;
mod run_threads;
mod status;
mod streams;
mod verbose;
mod write_errors;

use crate::bad_files::{say_all_down, say_why};
use crate::counts::say_counts;
use crate::files::{open_file, read_file, read_snapshot};
use crate::history_file::create_history;
use crate::live::run_session;
use crate::places::{history_fault, refuse_history};
use crate::progress_line::{BelowLine, ProgressLine, Work};
use crate::run_explore::run_explore;
use crate::run_threads::run_threads;
use crate::status::exit_code;
use crate::streams::Streams;
use crate::verbose::{is_set, says_always, without_flags};
use crate::write_errors::{Target, WatchedWriter, WriteErrors};
use action_tables::put_bytes;
use progress::Progress;
use reset_service::{
    BufferedOutput, CheckWords, Drive, DriveWords, Job, LineFault, Marks, PageWords, Part,
    PictureWords, PlanWords, Question, RecordWords, ReplayWords, RunStop, ShapeWords, Status,
    Tally, VerifyWords, check_from, check_repairs_from, check_repairs_text, check_text,
    check_whole, drive_from, drive_text, explain, explain_topics, page_from, page_text,
    picture_from, picture_part, picture_text, plan_from, plan_text, print_tables, read_words,
    record_from, record_text, replay, replay_from, replay_joined, replay_marked, verify_asked,
    verify_from, verify_text, write_shape,
};
use std::env::Env;
use std::io::{IsTerminal, Read, Write};
use std::process::ExitCode;
use std::rt::Files;
use std::sync::Wait;
use std::thread::Threads;
use std::time::Clock;
use std::{env, io};

// The message for words of which one isn't text, in the form in which clap says what is wrong with the others.
const NOT_TEXT: &str = "\
error: a word of the command line is not UTF-8\n\
\n\
Usage: reset-service [COMMAND]\n\
\n\
For more information, try '--help'.\n";

fn main(rt: HostRuntime) -> ExitCode {
    let streams = Streams {
        input: rt.stdin(),
        errors: rt.stderr(),
    };
    let mut said = Vec::new(rt.alloc());
    let ended = run(&rt, streams, &mut said);
    if let Err(stop) = ended {
        let _ = eprintln!(rt; "{stop}");
    }
    let mut errors = streams.errors;
    let _ = put_bytes(&mut errors, &said);
    exit_code(ended)
}

// Threads can be had only of the runtime that `main` is given, so what is called of it is said here. What is to be said
// of the files of the run, after how it ended, is written to `said`.
fn run<R: Clock + Env + Files + Input + Print + Eprint + AllocGlobal + Threads + Wait + Sync>(
    rt: &R,
    streams: Streams,
    said: &mut Vec<u8>,
) -> Result<Status, RunStop> {
    let Some(words) = given_words(rt)? else {
        let _ = eprint!(rt; "{NOT_TEXT}");
        return Ok(Status::BadInput);
    };
    let given = without_flags(rt.alloc(), words)?;
    let is_verbose = given.is_verbose || is_set(rt)?;
    let mut words = given.words;
    // Nobody types a topology and a script in one piece.
    if words.len() == 1 && streams.input.is_terminal() {
        let short_help = String::from_str(rt.alloc(), "-h")?;
        if words.push(short_help).is_err() {
            return Err(RunStop::NoMemory);
        }
    }
    match read_words(rt.alloc(), words.as_slice()) {
        Ok(job) => {
            let mut tally = Tally::new();
            let errors = WriteErrors::new();
            let ended = do_job(rt, streams, job, given.has_progress, &mut tally, &errors);
            let is_run = matches!(ended, Ok(Status::Good | Status::FaultsFound));
            if is_run && say_all_down(rt, job, said).is_err() {
                said.clear();
            }
            if streams.errors.is_terminal() {
                let _ = say_counts(job, tally, said);
            }
            if is_verbose || says_always(job) {
                return say_why(rt, streams, job, ended, &errors, said);
            }
            ended
        }
        Err(fault) => answer_fault(rt, fault),
    }
}

// The words that the program was started with, its own name first, or None where one of them isn't text.
fn given_words<R: Env + AllocGlobal>(rt: &R) -> Result<Option<Vec<String>>, RunStop> {
    match env::args(rt) {
        Ok(words) => Ok(Some(words.collect(rt.alloc())?)),
        Err(error) if error.kind() == io::ErrorKind::OutOfMemory => Err(RunStop::NoMemory),
        Err(_) => Ok(None),
    }
}

// Help is what was asked for, and goes to the standard output. A mistake goes to the standard error.
fn answer_fault<R: Print + Eprint + AllocGlobal>(
    rt: &R,
    fault: LineFault,
) -> Result<Status, RunStop> {
    match fault {
        LineFault::NoMemory => Err(RunStop::NoMemory),
        LineFault::BadWords(error) => {
            if error.use_stderr() {
                let _ = eprint!(rt; "{error}");
                return Ok(Status::BadInput);
            }
            let help = format!(in rt.alloc(); "{error}")?;
            let mut out = BufferedOutput::new(rt.alloc(), io::writer(rt))?;
            put_bytes(&mut out, help.as_bytes())?;
            out.end(Ok(Status::Good))
        }
    }
}

fn do_job<R: Clock + Files + Input + Print + Eprint + AllocGlobal + Threads + Wait + Sync>(
    rt: &R,
    streams: Streams,
    job: Job<'_>,
    has_progress: bool,
    tally: &mut Tally,
    errors: &WriteErrors,
) -> Result<Status, RunStop> {
    let progress = Progress::new();
    let line = ProgressLine::new(streams.errors, has_progress);
    let above = line.as_ref().filter(|line| line.is_on_terminal);
    let writer = BelowLine::new(rt, above, io::writer(rt));
    let writer = WatchedWriter::new(Target::Output, errors, writer);
    let mut out = BufferedOutput::new(rt.alloc(), writer)?;
    let ended = match (long_name(&job), &line) {
        (Some(name), Some(line)) => {
            let work = Work {
                name,
                progress: &progress,
                is_measured: matches!(job, Job::Drive(_)),
            };
            line.during(
                rt,
                work,
                || job_output(rt, streams, job, &progress, tally, errors, &mut out),
            )
        }
        _ => job_output(rt, streams, job, &progress, tally, errors, &mut out),
    };
    out.end(ended)
}

// The subcommand, if it can take more than a second.
fn long_name(job: &Job<'_>) -> Option<&'static str> {
    match job {
        Job::Verify(_) => Some("verify"),
        Job::Threads(_) => Some("threads"),
        Job::Drive(_) => Some("drive"),
        Job::Page(_) => Some("page"),
        Job::Explore(_) => Some("explore"),
        _ => None,
    }
}

fn job_output<R: Files + Input + Eprint + AllocGlobal + Threads + Wait + Sync, W: Write>(
    rt: &R,
    streams: Streams,
    job: Job<'_>,
    progress: &Progress,
    tally: &mut Tally,
    errors: &WriteErrors,
    out: &mut W,
) -> Result<Status, RunStop> {
    match job {
        Job::Joined => replay_joined(rt.alloc(), &mut rt.reader(), out),
        Job::Replay(words) => run_replay(rt, streams, words, tally, out),
        Job::Check(words) => run_check(rt, words, out),
        Job::Plan(words) => run_plan(rt, words, out),
        Job::Explore(words) => run_explore(rt, words, progress, errors, out),
        Job::Session(words) => run_session(rt, streams, words, errors, out),
        Job::Verify(words) => run_verify(rt, words, out),
        Job::Picture(words) => run_picture(rt, words, out),
        Job::Page(words) => run_page(rt, words, out),
        Job::Record(words) => run_record(rt, words, errors, out),
        Job::Threads(words) => run_threads(rt, words, errors, out),
        Job::Drive(words) => run_drive(rt, words, progress, errors, out),
        Job::Shape(words) => put_shape(rt, words, out),
        Job::Explain(Some(word)) => explain(word, out),
        Job::Explain(None) => explain_topics(out),
        Job::Tables => print_tables(out),
    }
}

// Where standard error is a terminal, the commands are counted for a line at the end.
fn run_replay<R: Files + AllocGlobal, W: Write>(
    rt: &R,
    streams: Streams,
    words: ReplayWords<'_>,
    tally: &mut Tally,
    out: &mut W,
) -> Result<Status, RunStop> {
    let topology = read_file(rt, words.topology)?;
    let snapshot = read_snapshot(rt, words.from)?;
    let mut script = open_file(rt, words.script)?;
    if words.number || words.strict || streams.errors.is_terminal() {
        let marks = Marks {
            number: words.number,
            strict: words.strict,
        };
        let snapshot = snapshot.as_deref();
        return replay_marked(
            rt.alloc(),
            &topology,
            snapshot,
            &mut script,
            marks,
            tally,
            out,
        );
    }
    match snapshot {
        None => replay(rt.alloc(), &topology, &mut script, out),
        Some(snapshot) => replay_from(rt.alloc(), &topology, &snapshot, &mut script, out),
    }
}

fn run_check<R: Files + AllocGlobal, W: Write>(
    rt: &R,
    words: CheckWords<'_>,
    out: &mut W,
) -> Result<Status, RunStop> {
    let topology = read_file(rt, words.topology)?;
    let snapshot = read_snapshot(rt, words.from)?;
    let mut script = open_file(rt, words.script)?;
    if words.whole {
        let snapshot = snapshot.as_deref();
        return check_whole(
            rt.alloc(),
            &topology,
            snapshot,
            &mut script,
            words.repair,
            out,
        );
    }
    match (snapshot, words.repair) {
        (None, false) => check_text(rt.alloc(), &topology, &mut script, out),
        (None, true) => check_repairs_text(rt.alloc(), &topology, &mut script, out),
        (Some(from), false) => check_from(rt.alloc(), &topology, &from, &mut script, out),
        (Some(from), true) => check_repairs_from(rt.alloc(), &topology, &from, &mut script, out),
    }
}

// Where no script is given, the plan is for what a run starts from.
fn run_plan<R: Files + AllocGlobal, W: Write>(
    rt: &R,
    words: PlanWords<'_>,
    out: &mut W,
) -> Result<Status, RunStop> {
    let topology = read_file(rt, words.topology)?;
    let snapshot = read_snapshot(rt, words.from)?;
    match words.script {
        Some(path) => put_plan(rt, &topology, snapshot, &mut open_file(rt, path)?, out),
        None => put_plan(rt, &topology, snapshot, &mut b"".as_slice(), out),
    }
}

fn put_plan<R: AllocGlobal, S: Read, W: Write>(
    rt: &R,
    topology: &[u8],
    snapshot: Option<Vec<u8>>,
    script: &mut S,
    out: &mut W,
) -> Result<Status, RunStop> {
    match snapshot {
        None => plan_text(rt.alloc(), topology, script, out),
        Some(snapshot) => plan_from(rt.alloc(), topology, &snapshot, script, out),
    }
}

fn run_verify<R: Files + AllocGlobal, W: Write>(
    rt: &R,
    words: VerifyWords<'_>,
    out: &mut W,
) -> Result<Status, RunStop> {
    let topology = read_file(rt, words.topology)?;
    let snapshot = read_snapshot(rt, words.from)?;
    let mut history = open_file(rt, words.history)?;
    if words.why || words.at.is_some() {
        let snapshot = snapshot.as_deref();
        let question = Question {
            why: words.why,
            at: words.at,
        };
        return verify_asked(rt.alloc(), &topology, snapshot, &mut history, question, out);
    }
    match snapshot {
        None => verify_text(rt.alloc(), &topology, &mut history, out),
        Some(snapshot) => verify_from(rt.alloc(), &topology, &snapshot, &mut history, out),
    }
}

// Where neither rows nor nodes are named, the whole history is drawn.
fn run_picture<R: Files + AllocGlobal, W: Write>(
    rt: &R,
    words: PictureWords<'_>,
    out: &mut W,
) -> Result<Status, RunStop> {
    let topology = read_file(rt, words.topology)?;
    let snapshot = read_snapshot(rt, words.from)?;
    let mut history = open_file(rt, words.history)?;
    if words.rows.is_some() || words.nodes.is_some() {
        let part = Part {
            rows: words.rows,
            nodes: words.nodes,
        };
        let snapshot = snapshot.as_deref();
        return picture_part(rt.alloc(), &topology, snapshot, &mut history, part, out);
    }
    match snapshot {
        None => picture_text(rt.alloc(), &topology, &mut history, out),
        Some(snapshot) => picture_from(rt.alloc(), &topology, &snapshot, &mut history, out),
    }
}

// Where no title is given, the page has none.
fn run_page<R: Files + AllocGlobal, W: Write>(
    rt: &R,
    words: PageWords<'_>,
    out: &mut W,
) -> Result<Status, RunStop> {
    let topology = read_file(rt, words.topology)?;
    let snapshot = read_snapshot(rt, words.from)?;
    let mut history = open_file(rt, words.history)?;
    let title = words.title.unwrap_or("").as_bytes();
    match snapshot {
        None => page_text(rt.alloc(), &topology, &mut history, title, out),
        Some(snapshot) => page_from(rt.alloc(), &topology, &snapshot, &mut history, title, out),
    }
}

fn run_record<R: Files + Eprint + AllocGlobal, W: Write>(
    rt: &R,
    words: RecordWords<'_>,
    errors: &WriteErrors,
    out: &mut W,
) -> Result<Status, RunStop> {
    let inputs = [Some(words.topology), Some(words.script), words.from];
    if let Some(fault) = history_fault(rt, words.history, &inputs) {
        return Ok(refuse_history(rt, fault));
    }
    let topology = read_file(rt, words.topology)?;
    let snapshot = read_snapshot(rt, words.from)?;
    let mut script = open_file(rt, words.script)?;
    let mut kept = create_history(rt, words.history, errors)?;
    let history = &mut kept.file;
    let ended = match snapshot {
        None => record_text(rt.alloc(), &topology, &mut script, history, out),
        Some(snapshot) => record_from(rt.alloc(), &topology, &snapshot, &mut script, history, out),
    };
    kept.end(rt, out, ended)
}

fn run_drive<R: Files + Eprint + AllocGlobal, W: Write>(
    rt: &R,
    words: DriveWords<'_>,
    progress: &Progress,
    errors: &WriteErrors,
    out: &mut W,
) -> Result<Status, RunStop> {
    if let Some(fault) = history_fault(rt, words.history, &[Some(words.topology), words.from]) {
        return Ok(refuse_history(rt, fault));
    }
    let topology = read_file(rt, words.topology)?;
    let snapshot = read_snapshot(rt, words.from)?;
    let mut kept = create_history(rt, words.history, errors)?;
    let history = &mut kept.file;
    let run = Drive {
        steps: words.steps,
        seed: words.seed,
        faults: words.faults,
    };
    let ended = match snapshot {
        None => drive_text(rt.alloc(), &topology, run, progress, history, out),
        Some(snapshot) => drive_from(
            rt.alloc(),
            &topology,
            &snapshot,
            run,
            progress,
            history,
            out,
        ),
    };
    kept.end(rt, out, ended)
}

fn put_shape<R: AllocGlobal, W: Write>(
    rt: &R,
    words: ShapeWords<'_>,
    out: &mut W,
) -> Result<Status, RunStop> {
    write_shape(
        rt.alloc(),
        words.shape,
        words.nodes,
        words.seed,
        words.app,
        out,
    )
}
