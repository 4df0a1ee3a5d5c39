// The commands of the program, as `clap` reads them.

ghost use Rattle.std.specs.Prelude.{◌≡◌, IfOk, codes};
ghost use Rattle.clap.specs.Words.{App, Rule, app_of, new_app, with_rule, with_subcommand};
ghost use Rattle.command_words.specs.Words.{IsCommand, IsWord, check_command, drive_command, explain_command};
ghost use Rattle.command_words.specs.Words.{explore_command, file_option, flag, from_option, histories_program};
ghost use Rattle.command_words.specs.Words.{new_program, number_option, optional, path, program};
ghost use Rattle.command_words.specs.Words.{page_command, picture_command, plan_command, record_command, replay_command, scripts_program};
ghost use Rattle.command_words.specs.Words.{session_command, tables_command, texts_command, texts_program};
ghost use Rattle.command_words.specs.Words.{threads_command, topology_command, verify_command, within};

use crate::help::{
    ABOUT, ACTS_HELP, AFTER_HELP, APP_HELP, AT_HELP, CHECK_HELP, DRAWN_NODES_HELP, DRIVE_HELP,
    DRIVE_SEED_HELP, EXPLAIN_HELP, EXPLORE_HELP, EXPLORE_SCRIPT_HELP, FAULTS_HELP, FEW_NODES_HELP,
    FROM_HELP, HISTORY_FILE_HELP, HISTORY_HELP, Help, LONG_ABOUT, MOST_HELP, NO_SYNC_HELP,
    NODES_HELP, NUMBER_HELP, PAGE_HELP, PICTURE_HELP, PLAN_HELP, PLAN_SCRIPT_HELP, RECORD_HELP,
    REPAIR_HELP, REPLAY_HELP, RESETS_HELP, ROWS_HELP, SCRIPT_HELP, SELECT_HELP, SESSION_HELP,
    SESSION_HISTORY_HELP, SHAPE_HELP, SHAPE_NAME_HELP, SHAPE_SEED_HELP, SHOWN_HISTORY_HELP,
    STEPS_HELP, STRICT_HELP, TABLES_ABOUT, TABLES_LONG_ABOUT, TARGET_HELP, THREADS_HELP,
    TITLE_HELP, TOPOLOGY_HELP, TURNS_HELP, UNTIL_HELP, VERIFY_HELP, VERSION, WHOLE_HELP, WHY_HELP,
    WORD_HELP,
};
use clap::builder::ValueParser;
use clap::{Arg, ArgAction, Command};
use std::alloc::{AllocError, Global};

/// The command line: the program and its subcommands.
pub fn command_line<'a>(alloc: Global) -> Result<Command<'a>, AllocError>
    ensures { IfOk result (λ command. app_of command ≡ program) }
{
    let line = with_command(histories_line(alloc), shape_words(alloc));
    let line = with_command(line, explain_words(alloc));
    with_command(line, Ok(tables_words(alloc)))
}

// The program with the subcommands that read a script or a history, and those that write a history.
fn histories_line<'a>(alloc: Global) -> Result<Command<'a>, AllocError>
    ensures { IfOk result (IsCommand histories_program) }
{
    let line = with_command(texts_line(alloc), record_words(alloc));
    let line = with_command(line, threads_words(alloc));
    with_command(line, drive_words(alloc))
}

// The program with the subcommands that read a script or a history.
fn texts_line<'a>(alloc: Global) -> Result<Command<'a>, AllocError>
    ensures { IfOk result (IsCommand texts_program) }
{
    let line = with_command(scripts_line(alloc), verify_words(alloc));
    let line = with_command(line, picture_words(alloc));
    with_command(line, page_words(alloc))
}

// The program with the subcommands that read a script, or commands as they come.
fn scripts_line<'a>(alloc: Global) -> Result<Command<'a>, AllocError>
    ensures { IfOk result (IsCommand scripts_program) }
{
    let line = with_command(Ok(program_words(alloc)), replay_words(alloc));
    let line = with_command(line, check_words(alloc));
    let line = with_command(line, plan_words(alloc));
    let line = with_command(line, explore_words(alloc));
    with_command(line, session_words(alloc))
}

// The program before it has subcommands.
fn program_words<'a>(alloc: Global) -> Command<'a>
    ensures { IsCommand new_program result }
{
    Command::new(alloc, "reset-service")
        .version(VERSION)
        .about(ABOUT)
        .long_about(LONG_ABOUT)
        .after_help(AFTER_HELP)
}

// A subcommand with the paths of a topology and of another file, and, where it is given, that of a snapshot.
fn texts_words<'a>(
    alloc: Global,
    name: &'a str,
    input: &'a str,
    input_help: &'a str,
    help: &Help,
) -> Result<Command<'a>, AllocError>
    ensures { IfOk result (IsCommand (texts_command name.entry.now input.entry.now)) }
{
    let line = Ok(bare_words(alloc, name, help));
    let line = with_argument(line, path_word(alloc, "TOPOLOGY", TOPOLOGY_HELP));
    let line = with_argument(line, path_word(alloc, input, input_help));
    with_argument(line, from_word(alloc))
}

// The subcommand with the paths of a topology and of a script and, where they are given, that of a snapshot and the flags
// that mark answers.
fn replay_words<'a>(alloc: Global) -> Result<Command<'a>, AllocError>
    ensures { IfOk result (IsCommand replay_command) }
{
    let line = texts_words(alloc, "replay", "SCRIPT", SCRIPT_HELP, &REPLAY_HELP);
    let line = with_argument(line, flag_word(alloc, "number", NUMBER_HELP));
    with_argument(line, flag_word(alloc, "strict", STRICT_HELP))
}

// The subcommand with the paths of a topology and of a script and, where they are given, that of a snapshot and the flags
// that ask for repairs and for the application's invariant.
fn check_words<'a>(alloc: Global) -> Result<Command<'a>, AllocError>
    ensures { IfOk result (IsCommand check_command) }
{
    let line = texts_words(alloc, "check", "SCRIPT", SCRIPT_HELP, &CHECK_HELP);
    let line = with_argument(line, flag_word(alloc, "repair", REPAIR_HELP));
    with_argument(line, flag_word(alloc, "whole", WHOLE_HELP))
}

// The subcommand with the path of a topology and, where they are given, those of a script and of a snapshot.
fn plan_words<'a>(alloc: Global) -> Result<Command<'a>, AllocError>
    ensures { IfOk result (IsCommand plan_command) }
{
    let line = Ok(bare_words(alloc, "plan", &PLAN_HELP));
    let line = with_argument(line, path_word(alloc, "TOPOLOGY", TOPOLOGY_HELP));
    let line = with_argument(line, optional_path_word(alloc, "SCRIPT", PLAN_SCRIPT_HELP));
    with_argument(line, from_word(alloc))
}

// The subcommand with the path of a topology and, where they are given, those of a script and of a snapshot, the flag of
// the application's actions, a number of configurations, what is looked for and the path of a file for the history.
fn explore_words<'a>(alloc: Global) -> Result<Command<'a>, AllocError>
    ensures { IfOk result (IsCommand explore_command) }
{
    let line = Ok(bare_words(alloc, "explore", &EXPLORE_HELP));
    let line = with_argument(line, path_word(alloc, "TOPOLOGY", TOPOLOGY_HELP));
    let line = with_argument(
        line,
        optional_path_word(alloc, "SCRIPT", EXPLORE_SCRIPT_HELP),
    );
    let line = with_argument(line, from_word(alloc));
    let line = with_argument(line, flag_word(alloc, "acts", ACTS_HELP));
    let line = with_argument(line, most_word(alloc));
    let line = with_argument(line, target_word(alloc));
    with_argument(line, shown_history_word(alloc))
}

/// The subcommand with the path of a topology and, where they are given, those of a snapshot and of a file for the
/// history, and the flag that leaves out its sync.
pub fn session_words<'a>(alloc: Global) -> Result<Command<'a>, AllocError>
    ensures { IfOk result (IsCommand session_command) }
{
    let line = Ok(bare_words(alloc, "session", &SESSION_HELP));
    let line = with_argument(line, path_word(alloc, "TOPOLOGY", TOPOLOGY_HELP));
    let line = with_argument(line, from_word(alloc));
    let line = with_argument(line, kept_history_word(alloc));
    with_argument(line, flag_word(alloc, "no-sync", NO_SYNC_HELP))
}

// The subcommand with the paths of a topology and of a history and, where they are given, that of a snapshot, the flag
// that asks why and a number of entries.
fn verify_words<'a>(alloc: Global) -> Result<Command<'a>, AllocError>
    ensures { IfOk result (IsCommand verify_command) }
{
    let line = texts_words(alloc, "verify", "HISTORY", HISTORY_HELP, &VERIFY_HELP);
    let line = with_argument(line, flag_word(alloc, "why", WHY_HELP));
    with_argument(line, at_word(alloc))
}

// The subcommand with the paths of a topology and of a history and, where they are given, that of a snapshot and the
// entries and the nodes that are drawn.
fn picture_words<'a>(alloc: Global) -> Result<Command<'a>, AllocError>
    ensures { IfOk result (IsCommand picture_command) }
{
    let line = texts_words(alloc, "picture", "HISTORY", HISTORY_HELP, &PICTURE_HELP);
    let line = with_argument(line, rows_word(alloc));
    with_argument(line, drawn_nodes_word(alloc))
}

// The subcommand with the paths of a topology and of a history and, where they are given, that of a snapshot and a
// title.
fn page_words<'a>(alloc: Global) -> Result<Command<'a>, AllocError>
    ensures { IfOk result (IsCommand page_command) }
{
    let line = Ok(bare_words(alloc, "page", &PAGE_HELP));
    let line = with_argument(line, path_word(alloc, "TOPOLOGY", TOPOLOGY_HELP));
    let line = with_argument(line, path_word(alloc, "HISTORY", HISTORY_HELP));
    let line = with_argument(line, from_word(alloc));
    with_argument(line, title_word(alloc))
}

// The subcommand with the paths of a topology, of a script and of a file for the history and, where it is given, that
// of a snapshot.
fn record_words<'a>(alloc: Global) -> Result<Command<'a>, AllocError>
    ensures { IfOk result (IsCommand record_command) }
{
    let line = Ok(bare_words(alloc, "record", &RECORD_HELP));
    let line = with_argument(line, path_word(alloc, "TOPOLOGY", TOPOLOGY_HELP));
    let line = with_argument(line, path_word(alloc, "SCRIPT", SCRIPT_HELP));
    let line = with_argument(line, history_word(alloc));
    with_argument(line, from_word(alloc))
}

// The subcommand with the path of a topology and the path of a file for the history and, where they are given, how long it
// runs, who asks for how many resets, and the path of a snapshot.
fn threads_words<'a>(alloc: Global) -> Result<Command<'a>, AllocError>
    ensures { IfOk result (IsCommand threads_command) }
{
    let line = Ok(bare_words(alloc, "threads", &THREADS_HELP));
    let line = with_argument(line, path_word(alloc, "TOPOLOGY", FEW_NODES_HELP));
    let line = with_argument(line, turns_word(alloc));
    let line = with_argument(line, until_word(alloc));
    let line = with_argument(line, select_word(alloc));
    let line = with_argument(line, resets_word(alloc));
    let line = with_argument(line, history_word(alloc));
    with_argument(line, from_word(alloc))
}

// The subcommand with the path of a topology, the numbers of a seeded scheduler and the path of a file for the history
// and, where it is given, that of a snapshot.
fn drive_words<'a>(alloc: Global) -> Result<Command<'a>, AllocError>
    ensures { IfOk result (IsCommand drive_command) }
{
    let line = Ok(bare_words(alloc, "drive", &DRIVE_HELP));
    let line = with_argument(line, path_word(alloc, "TOPOLOGY", TOPOLOGY_HELP));
    let line = with_argument(line, steps_word(alloc));
    let line = with_argument(line, seed_word(alloc, true, DRIVE_SEED_HELP));
    let line = with_argument(line, history_word(alloc));
    let line = with_argument(line, faults_word(alloc));
    with_argument(line, from_word(alloc))
}

// The subcommand with the name of a shape, a number of nodes, a seed and the name of an application.
fn shape_words<'a>(alloc: Global) -> Result<Command<'a>, AllocError>
    ensures { IfOk result (IsCommand topology_command) }
{
    let line = Ok(bare_words(alloc, "topology", &SHAPE_HELP));
    let line = with_argument(line, path_word(alloc, "SHAPE", SHAPE_NAME_HELP));
    let line = with_argument(line, nodes_word(alloc));
    let line = with_argument(line, seed_word(alloc, false, SHAPE_SEED_HELP));
    with_argument(line, app_word(alloc))
}

fn explain_words<'a>(alloc: Global) -> Result<Command<'a>, AllocError>
    ensures { IfOk result (IsCommand explain_command) }
{
    let line = Ok(bare_words(alloc, "explain", &EXPLAIN_HELP));
    with_argument(line, optional_path_word(alloc, "WORD", WORD_HELP))
}

fn tables_words<'a>(alloc: Global) -> Command<'a>
    ensures { IsCommand tables_command result }
{
    Command::new(alloc, "tables")
        .about(TABLES_ABOUT)
        .long_about(TABLES_LONG_ABOUT)
}

// The subcommand of this name, before it has arguments.
fn bare_words<'a>(alloc: Global, name: &'a str, help: &Help) -> Command<'a>
    ensures { IsCommand (new_app name.entry.now) result }
{
    Command::new(alloc, name)
        .about(help.about)
        .long_about(help.long_about)
        .after_help(help.after_help)
}

// The command with one more argument. An earlier failed allocation is passed on, so that a chain of these is a plain
// sequence, and only its end is looked at.
fn with_argument<'a>(
    line: Result<Command<'a>, AllocError>,
    word: Arg<'a>,
) -> Result<Command<'a>, AllocError>
    ensures { (app : App) (rule : Rule) → IfOk line.entry (IsCommand app) → IsWord rule word.entry
        → IfOk result (IsCommand (with_rule app rule)) }
{
    line?.arg(word)
}

// The command with one more subcommand, in the same way.
fn with_command<'a>(
    line: Result<Command<'a>, AllocError>,
    words: Result<Command<'a>, AllocError>,
) -> Result<Command<'a>, AllocError>
    ensures { (app below : App) → IfOk line.entry (IsCommand app) → IfOk words.entry (IsCommand below)
        → IfOk result (IsCommand (with_subcommand app below.top)) }
{
    line?.subcommand(words?)
}

// How many turns each node takes, which may be left out.
fn turns_word<'a>(alloc: Global) -> Arg<'a>
    ensures { IsWord (optional (number_option (codes "turns") 1 100000)) result }
{
    let turns = option_word(alloc, "turns", "N", false, TURNS_HELP);
    number_word(turns, 1, 100_000)
}

// What ends a run in place of a number of turns, which may be left out.
fn until_word<'a>(alloc: Global) -> Arg<'a>
    ensures { IsWord (optional (file_option (codes "until"))) result }
{
    option_word(alloc, "until", "quiet", false, UNTIL_HELP)
}

// The node that asks for resets, which may be left out.
fn select_word<'a>(alloc: Global) -> Arg<'a>
    ensures { IsWord (optional (number_option (codes "select") 1 65535)) result }
{
    let select = option_word(alloc, "select", "I", false, SELECT_HELP);
    number_word(select, 1, 65_535)
}

// For how many resets it asks, which may be left out.
fn resets_word<'a>(alloc: Global) -> Arg<'a>
    ensures { IsWord (optional (number_option (codes "resets") 1 100000)) result }
{
    let resets = option_word(alloc, "resets", "N", false, RESETS_HELP);
    number_word(resets, 1, 100_000)
}

// How many steps a scheduler takes, which has to be given.
fn steps_word<'a>(alloc: Global) -> Arg<'a>
    ensures { IsWord (number_option (codes "steps") 1 1000000) result }
{
    let steps = option_word(alloc, "steps", "N", true, STEPS_HELP);
    number_word(steps, 1, 1_000_000)
}

// What random words are drawn by.
fn seed_word<'a>(alloc: Global, required: bool, help: &'a str) -> Arg<'a>
    ensures { IsWord (record (number_option (codes "seed") 0 4294967295) { required = required }) result }
{
    let seed = option_word(alloc, "seed", "S", required, help);
    number_word(seed, 0, 4_294_967_295)
}

// How many of a thousand steps are faults, which may be left out.
fn faults_word<'a>(alloc: Global) -> Arg<'a>
    ensures { IsWord (optional (number_option (codes "faults") 0 1000)) result }
{
    let faults = option_word(alloc, "faults", "P", false, FAULTS_HELP);
    number_word(faults, 0, 1000)
}

// How many entries of a history are verified, which may be left out.
fn at_word<'a>(alloc: Global) -> Arg<'a>
    ensures { IsWord (optional (number_option (codes "at") 0 1000000)) result }
{
    let at = option_word(alloc, "at", "P", false, AT_HELP);
    number_word(at, 0, 1_000_000)
}

// How many configurations are visited at most, which may be left out.
fn most_word<'a>(alloc: Global) -> Arg<'a>
    ensures { IsWord (optional (number_option (codes "most") 1 100000000)) result }
{
    let most = option_word(alloc, "most", "N", false, MOST_HELP);
    number_word(most, 1, 100_000_000)
}

// How many nodes a shape has, which has to be given.
fn nodes_word<'a>(alloc: Global) -> Arg<'a>
    ensures { IsWord (within 1 1024 (path (codes "N"))) result }
{
    number_word(path_word(alloc, "N", NODES_HELP), 1, 1024)
}

// The name of an application, which may be left out.
fn app_word<'a>(alloc: Global) -> Arg<'a>
    ensures { IsWord (optional (file_option (codes "app"))) result }
{
    option_word(alloc, "app", "A", false, APP_HELP)
}

// What a search looks for, which may be left out.
fn target_word<'a>(alloc: Global) -> Arg<'a>
    ensures { IsWord (optional (file_option (codes "until"))) result }
{
    option_word(alloc, "until", "WHAT", false, TARGET_HELP)
}

// The path of the file for the history that shows what was found.
fn shown_history_word<'a>(alloc: Global) -> Arg<'a>
    ensures { IsWord (optional (file_option (codes "history"))) result }
{
    option_word(alloc, "history", "FILE", false, SHOWN_HISTORY_HELP)
}

// The path of the file for the history, which has to be given.
fn history_word<'a>(alloc: Global) -> Arg<'a>
    ensures { IsWord (file_option (codes "history")) result }
{
    option_word(alloc, "history", "FILE", true, HISTORY_FILE_HELP)
}

// The path of the file that a session keeps, which may be left out.
fn kept_history_word<'a>(alloc: Global) -> Arg<'a>
    ensures { IsWord (optional (file_option (codes "history"))) result }
{
    option_word(alloc, "history", "FILE", false, SESSION_HISTORY_HELP)
}

// The first and the last entry of a picture, which may be left out.
fn rows_word<'a>(alloc: Global) -> Arg<'a>
    ensures { IsWord (optional (file_option (codes "rows"))) result }
{
    option_word(alloc, "rows", "P..Q", false, ROWS_HELP)
}

// The nodes of a picture, which may be left out.
fn drawn_nodes_word<'a>(alloc: Global) -> Arg<'a>
    ensures { IsWord (optional (file_option (codes "nodes"))) result }
{
    option_word(alloc, "nodes", "IDS", false, DRAWN_NODES_HELP)
}

// The title of a page, which may be left out.
fn title_word<'a>(alloc: Global) -> Arg<'a>
    ensures { IsWord (optional (file_option (codes "title"))) result }
{
    option_word(alloc, "title", "TEXT", false, TITLE_HELP)
}

// A flag, which may be left out.
fn flag_word<'a>(alloc: Global, name: &'a str, help: &'a str) -> Arg<'a>
    ensures { IsWord (flag name.entry.now) result }
{
    Arg::new(alloc, name)
        .long(name)
        .action(ArgAction::SetTrue)
        .help(help)
}

// The path of a file, or another word, which has to be given.
fn path_word<'a>(alloc: Global, name: &'a str, help: &'a str) -> Arg<'a>
    ensures { IsWord (path name.entry.now) result }
{
    Arg::new(alloc, name).required(true).help(help)
}

// The path of a file, or another word, which may be left out.
fn optional_path_word<'a>(alloc: Global, name: &'a str, help: &'a str) -> Arg<'a>
    ensures { IsWord (optional (path name.entry.now)) result }
{
    Arg::new(alloc, name).help(help)
}

// The path of a snapshot, which may be left out.
fn from_word<'a>(alloc: Global) -> Arg<'a>
    ensures { IsWord from_option result }
{
    option_word(alloc, "from", "SNAPSHOT", false, FROM_HELP)
}

// A value behind its name.
fn option_word<'a>(
    alloc: Global,
    name: &'a str,
    value: &'a str,
    required: bool,
    help: &'a str,
) -> Arg<'a>
    ensures { IsWord (record (file_option name.entry.now) { required = required }) result }
{
    Arg::new(alloc, name)
        .long(name)
        .value_name(value)
        .required(required)
        .help(help)
}

// The argument, whose value is a number from the least to the most.
fn number_word<'a>(word: Arg<'a>, least: u64, most: u64) -> Arg<'a>
    ensures { (rule : Rule) → IsWord rule word.entry → IsWord (within least most rule) result }
{
    word.value_parser(ValueParser::unsigned(least, most))
}
