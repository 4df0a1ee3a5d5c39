// What the words of the command line ask for.

ghost use Rattle.std.specs.Prelude.{◌≡◌, [], codes, map, not, option_map, IfErr, IfOk, Some};
ghost use Rattle.clap.specs.Words.{first_of, found_of, kind_of, rows_of, subcommand_rows_of};
ghost use Rattle.clap.specs.declared.error.ErrorKind.TheVariants.{MissingRequiredArgument};
ghost use Rattle.command_words.specs.declared.words.LineFault.TheVariants.{NoMemory};
ghost use Rattle.command_words.specs.Faults.{IsFaultOf, StandsFor, faults_of, is_without_history, line_fault_text};
ghost use Rattle.command_words.specs.Words.{AskFor, AskedBy, HasCheck, HasDrive, HasExplore, HasJob, HasPlan, HasRecord};
ghost use Rattle.command_words.specs.Words.{HasReplay, HasSession, HasShape, HasTexts, HasThreads, HasVerify};
ghost use Rattle.command_words.specs.Words.{IsNumberOr, IsNumberOrNone, IsNumberWithin, is_on};

use crate::check_words::CheckWords;
use crate::commands::{command_line, session_words};
use crate::drive_words::DriveWords;
use crate::explore_words::ExploreWords;
use crate::page_words::PageWords;
use crate::picture_words::PictureWords;
use crate::plan_words::PlanWords;
use crate::record_words::RecordWords;
use crate::replay_words::ReplayWords;
use crate::session_words::SessionWords;
use crate::shape_words::ShapeWords;
use crate::thread_words::ThreadWords;
use crate::verify_words::VerifyWords;
use clap::error::ErrorKind;
use clap::{ArgMatches, Error};
use std::alloc::{AllocError, Global};
use std::convert::AsStr;
use std::{error, fmt};

// What is wrong with a flag that clap takes, in the form in which clap says it of others. Clap could hold it to its option by
// a rule, but its definition of what a command makes of words knows no such rules.
const NOTHING_TO_SYNC: &str = "the argument '--no-sync' cannot be used without '--history <FILE>'";

// The files that several subcommands name.
#[derive(Clone, Copy)]
struct Paths<'a> {
    // The path of the topology.
    topology: &'a str,
    // The path of the script, or of the history.
    input: &'a str,
    // The path of the snapshot that a run starts from, if one is given.
    from: Option<&'a str>,
}

/// What the program is to do.
#[derive(Clone, Copy, Debug, PartialEq, Eq)]
pub enum Job<'a> {
    /// Replay the joined text of the standard input.
    Joined,
    /// Replay the script of a file on the topology of another, from its booted configuration or a snapshot.
    Replay(ReplayWords<'a>),
    /// The same, and check the network that the script leaves.
    Check(CheckWords<'a>),
    /// Plan for the network that a script leaves of a topology.
    Plan(PlanWords<'a>),
    /// Explore all orders of the enabled events of the network that a script leaves of a topology.
    Explore(ExploreWords<'a>),
    /// Answer the commands of the standard input as they come, and keep what happened in a file.
    Session(SessionWords<'a>),
    /// Verify the history of a file from the booted configuration of another's topology, or from a snapshot.
    Verify(VerifyWords<'a>),
    /// Draw the history of a file from the booted configuration of another's topology, or from a snapshot.
    Picture(PictureWords<'a>),
    /// Write a page that plays the history of a file forward and back.
    Page(PageWords<'a>),
    /// Replay the script of a file on the topology of another, and write what happened to a third.
    Record(RecordWords<'a>),
    /// Run a thread for each node of a topology, and write what the nodes did to a file.
    Threads(ThreadWords<'a>),
    /// Run a seeded scheduler on a topology, and write what the nodes did to a file.
    Drive(DriveWords<'a>),
    /// Write the text of a topology of this shape.
    Shape(ShapeWords<'a>),
    /// Explain a word of the output or, without one, list the words that are known.
    Explain(Option<&'a str>),
    /// Print the tables.
    Tables,
}

/// Why words give no job.
#[derive(Debug, Drop)]
pub enum LineFault {
    /// The words are a mistake, or they ask for help: clap's error has the text for the user.
    BadWords(Error),
    /// A growth was refused.
    NoMemory,
}

impl From<Error> for LineFault {
    ghost from_gives = { StandsFor };

    fn from(error: Error) -> LineFault {
        if error.kind() == ErrorKind::OutOfMemory {
            LineFault::NoMemory
        } else {
            LineFault::BadWords(error)
        }
    }
}

impl From<AllocError> for LineFault {
    ghost from_gives = { λ _ fault. fault ≡ NoMemory };

    fn from(_error: AllocError) -> LineFault {
        LineFault::NoMemory
    }
}

impl fmt::Display for LineFault {
    ghost output = { line_fault_text };

    fn fmt<W: fmt::Write>(&self, f: &mut fmt::Formatter<W>) -> fmt::Result {
        match self {
            LineFault::BadWords(error) => write!(f, "{error}"),
            LineFault::NoMemory => f.write_str("out of memory"),
        }
    }
}

impl error::Error for LineFault {}

/// The job that the words ask for, of which the first is the program's name.
pub fn read_words<'a, S: AsStr>(alloc: Global, words: &'a [S]) -> Result<Job<'a>, LineFault>
    ensures taken { IfOk result (λ job. faults_of (map S.text words.entry.now) ≡ []) }
    ensures job { IfOk result (AskFor (map S.text words.entry.now)) }
    ensures fault { IfErr result (IsFaultOf (map S.text words.entry.now)) }
{
    let matches = command_line(alloc)?.try_get_matches_from(words)?;
    let job = job_of(&matches);
    if is_without_history(job) {
        let error = missing_history(alloc)?;
        return Err(LineFault::from(error));
    }
    Ok(job)
}

// Whether a session is told not to sync its history, and has none.
fn is_without_history(job: Job<'_>) -> bool
    ensures { result ≡ is_without_history job.entry }
{
    match job {
        Job::Session(words) => !words.sync && words.history.is_none(),
        _ => false,
    }
}

// The error of a session that is told not to sync its history, and has none.
fn missing_history(alloc: Global) -> Result<Error, AllocError>
    ensures { IfOk result (λ error. kind_of error ≡ MissingRequiredArgument) }
{
    let mut command = session_words(alloc)?.bin_name("reset-service session")?;
    command.error(ErrorKind::MissingRequiredArgument, NOTHING_TO_SYNC)
}

// The job of matches, in which a subcommand has the values that it needs.
fn job_of<'a>(matches: &ArgMatches<'a>) -> Job<'a>
    requires { HasJob (subcommand_rows_of matches.now) }
    ensures { AskedBy (subcommand_rows_of matches.now) result }
{
    match matches.subcommand() {
        None => Job::Joined,
        Some((name, values)) => named_job(name, values),
    }
}

// The job of the subcommand of this name, whose matches have the values that it needs.
fn named_job<'a>(name: &str, values: &ArgMatches<'a>) -> Job<'a>
    requires { HasJob (Some (name.now, rows_of (found_of values.now))) }
    ensures { AskedBy (Some (name.now, rows_of (found_of values.now))) result }
{
    match name {
        "replay" => Job::Replay(replay_words_of(values)),
        "check" => Job::Check(check_words_of(values)),
        "plan" => Job::Plan(plan_words_of(values)),
        "explore" => Job::Explore(explore_words_of(values)),
        "session" => Job::Session(session_words_of(values)),
        "verify" => Job::Verify(verify_words_of(values)),
        "picture" => Job::Picture(picture_words_of(values)),
        "page" => Job::Page(page_words_of(values)),
        "record" => Job::Record(record_words_of(values)),
        "threads" => Job::Threads(thread_words_of(values)),
        "drive" => Job::Drive(drive_words_of(values)),
        "topology" => Job::Shape(shape_words_of(values)),
        "explain" => Job::Explain(values.get_str("WORD")),
        _ => Job::Tables,
    }
}

// The paths of matches that have a topology and the argument of this name, and may have a snapshot.
fn paths_of<'a>(values: &ArgMatches<'a>, input: &str) -> Paths<'a>
    requires { HasTexts input.now (rows_of (found_of values.now)) }
    ensures topology { first_of (codes "TOPOLOGY") (rows_of (found_of values.now)) ≡ Some result.topology.now }
    ensures input { first_of input.now (rows_of (found_of values.now)) ≡ Some result.input.now }
    ensures from { first_of (codes "from") (rows_of (found_of values.now)) ≡ option_map (λ from. from.now) result.from }
{
    Paths {
        topology: values.get_str("TOPOLOGY").unwrap(),
        input: values.get_str(input).unwrap(),
        from: values.get_str("from"),
    }
}

// The words of matches that have a topology and a script, and may have a snapshot and the flags that mark answers.
fn replay_words_of<'a>(values: &ArgMatches<'a>) -> ReplayWords<'a>
    requires { HasReplay (rows_of (found_of values.now)) }
    ensures topology { first_of (codes "TOPOLOGY") (rows_of (found_of values.now)) ≡ Some result.topology.now }
    ensures script { first_of (codes "SCRIPT") (rows_of (found_of values.now)) ≡ Some result.script.now }
    ensures from { first_of (codes "from") (rows_of (found_of values.now)) ≡ option_map (λ from. from.now) result.from }
    ensures number { result.number ≡ is_on (first_of (codes "number") (rows_of (found_of values.now))) }
    ensures strict { result.strict ≡ is_on (first_of (codes "strict") (rows_of (found_of values.now))) }
{
    let paths = paths_of(values, "SCRIPT");
    let number = values.get_flag("number");
    let strict = values.get_flag("strict");
    ReplayWords {
        topology: paths.topology,
        script: paths.input,
        from: paths.from,
        number,
        strict,
    }
}

// The words of matches that have a topology and a script, and may have a snapshot and the flags of a check.
fn check_words_of<'a>(values: &ArgMatches<'a>) -> CheckWords<'a>
    requires { HasCheck (rows_of (found_of values.now)) }
    ensures topology { first_of (codes "TOPOLOGY") (rows_of (found_of values.now)) ≡ Some result.topology.now }
    ensures script { first_of (codes "SCRIPT") (rows_of (found_of values.now)) ≡ Some result.script.now }
    ensures from { first_of (codes "from") (rows_of (found_of values.now)) ≡ option_map (λ from. from.now) result.from }
    ensures repair { result.repair ≡ is_on (first_of (codes "repair") (rows_of (found_of values.now))) }
    ensures whole { result.whole ≡ is_on (first_of (codes "whole") (rows_of (found_of values.now))) }
{
    let paths = paths_of(values, "SCRIPT");
    let repair = values.get_flag("repair");
    let whole = values.get_flag("whole");
    CheckWords {
        topology: paths.topology,
        script: paths.input,
        from: paths.from,
        repair,
        whole,
    }
}

// The words of matches that have a topology, and may have a script and a snapshot.
fn plan_words_of<'a>(values: &ArgMatches<'a>) -> PlanWords<'a>
    requires { HasPlan (rows_of (found_of values.now)) }
    ensures topology { first_of (codes "TOPOLOGY") (rows_of (found_of values.now)) ≡ Some result.topology.now }
    ensures script { first_of (codes "SCRIPT") (rows_of (found_of values.now))
        ≡ option_map (λ script. script.now) result.script }
    ensures from { first_of (codes "from") (rows_of (found_of values.now)) ≡ option_map (λ from. from.now) result.from }
{
    let topology = values.get_str("TOPOLOGY").unwrap();
    let script = values.get_str("SCRIPT");
    let from = values.get_str("from");
    PlanWords {
        topology,
        script,
        from,
    }
}

// The words of matches that have a topology, and may have a script, a snapshot, the flag of the application's actions,
// a number of configurations, what is looked for and a file for the history.
fn explore_words_of<'a>(values: &ArgMatches<'a>) -> ExploreWords<'a>
    requires { HasExplore (rows_of (found_of values.now)) }
    ensures topology { first_of (codes "TOPOLOGY") (rows_of (found_of values.now)) ≡ Some result.topology.now }
    ensures script { first_of (codes "SCRIPT") (rows_of (found_of values.now))
        ≡ option_map (λ script. script.now) result.script }
    ensures from { first_of (codes "from") (rows_of (found_of values.now)) ≡ option_map (λ from. from.now) result.from }
    ensures acts { result.acts ≡ is_on (first_of (codes "acts") (rows_of (found_of values.now))) }
    ensures most { IsNumberOr 1000000 1 100000000 (first_of (codes "most") (rows_of (found_of values.now)))
        result.most }
    ensures until { first_of (codes "until") (rows_of (found_of values.now)) ≡ option_map (λ until. until.now) result.until }
    ensures history { first_of (codes "history") (rows_of (found_of values.now))
        ≡ option_map (λ history. history.now) result.history }
{
    let topology = values.get_str("TOPOLOGY").unwrap();
    let script = values.get_str("SCRIPT");
    let from = values.get_str("from");
    let acts = values.get_flag("acts");
    let most = values.get_one::<u32>("most").unwrap_or(1_000_000);
    let until = values.get_str("until");
    let history = values.get_str("history");
    ExploreWords {
        topology,
        script,
        from,
        acts,
        most,
        until,
        history,
    }
}

// The words of matches that have a topology, and may have a snapshot, a file for the history and the flag that leaves
// out its sync.
fn session_words_of<'a>(values: &ArgMatches<'a>) -> SessionWords<'a>
    requires { HasSession (rows_of (found_of values.now)) }
    ensures topology { first_of (codes "TOPOLOGY") (rows_of (found_of values.now)) ≡ Some result.topology.now }
    ensures from { first_of (codes "from") (rows_of (found_of values.now)) ≡ option_map (λ from. from.now) result.from }
    ensures history { first_of (codes "history") (rows_of (found_of values.now))
        ≡ option_map (λ history. history.now) result.history }
    ensures sync { result.sync ≡ not (is_on (first_of (codes "no-sync") (rows_of (found_of values.now)))) }
{
    let topology = values.get_str("TOPOLOGY").unwrap();
    let from = values.get_str("from");
    let history = values.get_str("history");
    let sync = !values.get_flag("no-sync");
    SessionWords {
        topology,
        from,
        history,
        sync,
    }
}

// The words of matches that have a topology and a history, and may have a snapshot, the flag that asks why and a number
// of entries.
fn verify_words_of<'a>(values: &ArgMatches<'a>) -> VerifyWords<'a>
    requires { HasVerify (rows_of (found_of values.now)) }
    ensures topology { first_of (codes "TOPOLOGY") (rows_of (found_of values.now)) ≡ Some result.topology.now }
    ensures history { first_of (codes "HISTORY") (rows_of (found_of values.now)) ≡ Some result.history.now }
    ensures from { first_of (codes "from") (rows_of (found_of values.now)) ≡ option_map (λ from. from.now) result.from }
    ensures why { result.why ≡ is_on (first_of (codes "why") (rows_of (found_of values.now))) }
    ensures at { IsNumberOrNone 0 1000000 (first_of (codes "at") (rows_of (found_of values.now))) result.at }
{
    let paths = paths_of(values, "HISTORY");
    let why = values.get_flag("why");
    let at = values.get_one::<u32>("at");
    VerifyWords {
        topology: paths.topology,
        history: paths.input,
        from: paths.from,
        why,
        at,
    }
}

// The words of matches that have a topology and a history, and may have a snapshot and a title.
fn page_words_of<'a>(values: &ArgMatches<'a>) -> PageWords<'a>
    requires { HasTexts (codes "HISTORY") (rows_of (found_of values.now)) }
    ensures topology { first_of (codes "TOPOLOGY") (rows_of (found_of values.now)) ≡ Some result.topology.now }
    ensures history { first_of (codes "HISTORY") (rows_of (found_of values.now)) ≡ Some result.history.now }
    ensures from { first_of (codes "from") (rows_of (found_of values.now)) ≡ option_map (λ from. from.now) result.from }
    ensures title { first_of (codes "title") (rows_of (found_of values.now))
        ≡ option_map (λ title. title.now) result.title }
{
    let paths = paths_of(values, "HISTORY");
    let title = values.get_str("title");
    PageWords {
        topology: paths.topology,
        history: paths.input,
        from: paths.from,
        title,
    }
}

// The words of matches that have a topology and a history, and may have a snapshot, entries and nodes.
fn picture_words_of<'a>(values: &ArgMatches<'a>) -> PictureWords<'a>
    requires { HasTexts (codes "HISTORY") (rows_of (found_of values.now)) }
    ensures topology { first_of (codes "TOPOLOGY") (rows_of (found_of values.now)) ≡ Some result.topology.now }
    ensures history { first_of (codes "HISTORY") (rows_of (found_of values.now)) ≡ Some result.history.now }
    ensures from { first_of (codes "from") (rows_of (found_of values.now)) ≡ option_map (λ from. from.now) result.from }
    ensures rows { first_of (codes "rows") (rows_of (found_of values.now)) ≡ option_map (λ rows. rows.now) result.rows }
    ensures nodes { first_of (codes "nodes") (rows_of (found_of values.now))
        ≡ option_map (λ nodes. nodes.now) result.nodes }
{
    let paths = paths_of(values, "HISTORY");
    let rows = values.get_str("rows");
    let nodes = values.get_str("nodes");
    PictureWords {
        topology: paths.topology,
        history: paths.input,
        from: paths.from,
        rows,
        nodes,
    }
}

// The words of matches that have a topology, a script and a file for the history, and may have a snapshot.
fn record_words_of<'a>(values: &ArgMatches<'a>) -> RecordWords<'a>
    requires { HasRecord (rows_of (found_of values.now)) }
    ensures topology { first_of (codes "TOPOLOGY") (rows_of (found_of values.now)) ≡ Some result.topology.now }
    ensures script { first_of (codes "SCRIPT") (rows_of (found_of values.now)) ≡ Some result.script.now }
    ensures history { first_of (codes "history") (rows_of (found_of values.now)) ≡ Some result.history.now }
    ensures from { first_of (codes "from") (rows_of (found_of values.now)) ≡ option_map (λ from. from.now) result.from }
{
    let paths = paths_of(values, "SCRIPT");
    RecordWords {
        topology: paths.topology,
        script: paths.input,
        history: values.get_str("history").unwrap(),
        from: paths.from,
    }
}

// The words of matches that have a topology, a number of turns and a file for the history, and may have a snapshot.
fn thread_words_of<'a>(values: &ArgMatches<'a>) -> ThreadWords<'a>
    requires { HasThreads (rows_of (found_of values.now)) }
    ensures topology { first_of (codes "TOPOLOGY") (rows_of (found_of values.now)) ≡ Some result.topology.now }
    ensures history { first_of (codes "history") (rows_of (found_of values.now)) ≡ Some result.history.now }
    ensures turns { IsNumberOrNone 1 100000 (first_of (codes "turns") (rows_of (found_of values.now))) result.turns }
    ensures until { first_of (codes "until") (rows_of (found_of values.now)) ≡ option_map (λ until. until.now) result.until }
    ensures select { IsNumberOrNone 1 65535 (first_of (codes "select") (rows_of (found_of values.now))) result.select }
    ensures resets { IsNumberOr 1 1 100000 (first_of (codes "resets") (rows_of (found_of values.now))) result.resets }
    ensures from { first_of (codes "from") (rows_of (found_of values.now)) ≡ option_map (λ from. from.now) result.from }
{
    let paths = paths_of(values, "history");
    ThreadWords {
        topology: paths.topology,
        turns: values.get_one::<u32>("turns"),
        until: values.get_str("until"),
        select: values.get_one::<u32>("select"),
        resets: values.get_one::<u32>("resets").unwrap_or(1),
        history: paths.input,
        from: paths.from,
    }
}

// The words of matches that have what a run of the seeded scheduler needs, and may have a snapshot.
fn drive_words_of<'a>(values: &ArgMatches<'a>) -> DriveWords<'a>
    requires { HasDrive (rows_of (found_of values.now)) }
    ensures topology { first_of (codes "TOPOLOGY") (rows_of (found_of values.now)) ≡ Some result.topology.now }
    ensures history { first_of (codes "history") (rows_of (found_of values.now)) ≡ Some result.history.now }
    ensures steps { IsNumberWithin 1 1000000 (first_of (codes "steps") (rows_of (found_of values.now))) result.steps }
    ensures seed { IsNumberWithin 0 4294967295 (first_of (codes "seed") (rows_of (found_of values.now))) result.seed }
    ensures faults { IsNumberOr 0 0 1000 (first_of (codes "faults") (rows_of (found_of values.now))) result.faults }
    ensures from { first_of (codes "from") (rows_of (found_of values.now)) ≡ option_map (λ from. from.now) result.from }
{
    let Paths {
        topology,
        input: history,
        from,
    } = paths_of(values, "history");
    DriveWords {
        topology,
        steps: values.get_one::<u32>("steps").unwrap(),
        seed: values.get_one::<u32>("seed").unwrap(),
        faults: values.get_one::<u32>("faults").unwrap_or(0),
        history,
        from,
    }
}

// The words of matches that have what a topology text needs.
fn shape_words_of<'a>(values: &ArgMatches<'a>) -> ShapeWords<'a>
    requires { HasShape (rows_of (found_of values.now)) }
    ensures shape { first_of (codes "SHAPE") (rows_of (found_of values.now)) ≡ Some result.shape.now }
    ensures nodes { IsNumberWithin 1 1024 (first_of (codes "N") (rows_of (found_of values.now))) result.nodes }
    ensures seed { IsNumberOr 0 0 4294967295 (first_of (codes "seed") (rows_of (found_of values.now))) result.seed }
    ensures app { first_of (codes "app") (rows_of (found_of values.now)) ≡ option_map (λ app. app.now) result.app }
{
    ShapeWords {
        shape: values.get_str("SHAPE").unwrap(),
        nodes: values.get_one::<u32>("N").unwrap(),
        seed: values.get_one::<u32>("seed").unwrap_or(0),
        app: values.get_str("app"),
    }
}
