// Searches for a configuration, as texts.

ghost use Rattle.std.specs.Prelude.{◌≡◌, ◌≤◌, ℕ, List, [], Some, length, IfErr, OnErr, OnOk};
ghost use Rattle.std.specs.Io.KnownBytes.{Appends};
ghost use Rattle.action_tables.specs.Written.{AppendsPrefix};
ghost use Rattle.applications.specs.Meaning.{meaning_of};
ghost use Rattle.script_replay.specs.Lines.{lines_of};
ghost use Rattle.script_replay.specs.Output.{Leaves};
ghost use Rattle.script_replay.specs.Recorded.{LeavesRecord, entries_of_lines};
ghost use Rattle.script_replay.specs.Stops.{IsOutputStop};
ghost use Rattle.reset_service.specs.Explorations.{IsFound};
ghost use Rattle.reset_service.specs.Searched.{reached_text, search_status, search_text, unreached_text};
ghost use Rattle.reset_service.specs.Shown.{IsFoundBy, IsLeftBy};

use crate::explored::{Exploring, answer_too_many};
use crate::shown::{answer_long_history, history_of};
use action_tables::{Part, WriteFault, put_bytes, put_parts};
use app_invariants::Invariant;
use progress::Progress;
use reset_machine::Config;
use schedules::{ExploreFault, Search, Target, search};
use script_replay::{RunStop, Status};
use std::alloc::Global;
use std::io::Write;
use topology::MAX_TEXT;

/// Looks for a configuration from this one on, and answers with what is found.
pub fn search_here<P: Invariant, W: Write>(
    alloc: Global,
    config: &Config<P>,
    run: Exploring,
    target: Target,
    progress: &Progress,
    out: &mut W,
) -> Result<Status, RunStop>
    requires { run.until ≡ Some target }
    ensures leaves { Leaves (IsFound (meaning_of P.app P.text P.from_text P.names P.counts) run config.now)
        (W.contents out.old) (W.contents out.new) result }
    ensures stop { IfErr result IsOutputStop }
{
    match search(alloc, config, run.acts, target, run.most, progress) {
        Ok(found) => answer_search(&found, out),
        Err(ExploreFault::TooMany) => answer_too_many(run.most, out),
        Err(ExploreFault::NoMemory) => Err(RunStop::NoMemory),
    }
}

/// Looks for a configuration from what a script left of an opening, and writes a history of a shortest order to it before
/// it answers. Where none is found, no history is written.
pub fn show_search<P: Invariant, H: Write, W: Write>(
    alloc: Global,
    opening: &Config<P>,
    left: &Config<P>,
    script: &[u8],
    run: Exploring,
    target: Target,
    progress: &Progress,
    history: &mut H,
    out: &mut W,
) -> Result<Status, RunStop>
    requires script { length script.now ≤ MAX_TEXT }
    requires target { run.until ≡ Some target }
    ensures { LeavesRecord
        (λ h o. IsFoundBy (meaning_of P.app P.text P.from_text P.names P.counts) run opening.now.modulus
        (entries_of_lines (meaning_of P.app P.text P.from_text P.names P.counts)
        opening.now 1 (lines_of script.now)) left.now h o
        × (o.1 ≡ Status.BadInput → h ≡ []))
        (H.contents history.old) (H.contents history.new) (W.contents out.old) (W.contents out.new) result }
{
    match search(alloc, left, run.acts, target, run.most, progress) {
        Ok(found) => show_found(alloc, opening, script, &found, history, out),
        Err(ExploreFault::TooMany) => answer_too_many(run.most, out),
        Err(ExploreFault::NoMemory) => Err(RunStop::NoMemory),
    }
}

// Writes the history of a shortest order, if there is one, and answers.
fn show_found<P: Invariant, H: Write, W: Write>(
    alloc: Global,
    opening: &Config<P>,
    script: &[u8],
    found: &Search,
    history: &mut H,
    out: &mut W,
) -> Result<Status, RunStop>
    requires { length script.now ≤ MAX_TEXT }
    ensures { LeavesRecord
        (λ h o. IsLeftBy found.now opening.now.modulus
        (entries_of_lines (meaning_of P.app P.text P.from_text P.names P.counts)
        opening.now 1 (lines_of script.now)) h o
        × (o.1 ≡ Status.BadInput → h ≡ []))
        (H.contents history.old) (H.contents history.new) (W.contents out.old) (W.contents out.new) result }
{
    match found {
        Search::Reached(events) => match history_of(alloc, opening, script, events) {
            Ok(Some(shown)) => put_search(found, &shown.text, history, out),
            Ok(None) => answer_long_history(out),
            Err(_) => Err(RunStop::NoMemory),
        },
        Search::Unreached { .. } => answer_search(found, out),
    }
}

// Writes a history, and then what was found.
fn put_search<H: Write, W: Write>(
    found: &Search,
    text: &[u8],
    history: &mut H,
    out: &mut W,
) -> Result<Status, RunStop>
    ensures { LeavesRecord (λ h o. (h ≡ text.now) × (o ≡ (search_text found.now, search_status found.now)))
        (H.contents history.old) (H.contents history.new) (W.contents out.old) (W.contents out.new) result }
{
    put_bytes(history, text)?;
    answer_search(found, out)
}

// Answers with what was found.
fn answer_search<W: Write>(found: &Search, out: &mut W) -> Result<Status, RunStop>
    ensures leaves { Leaves (λ output. output ≡ (search_text found.now, search_status found.now))
        (W.contents out.old) (W.contents out.new) result }
    ensures stop { IfErr result IsOutputStop }
{
    match found {
        Search::Reached(events) => {
            put_reached(out, events.len())?;
            Ok(Status::FaultsFound)
        }
        Search::Unreached { configurations } => {
            put_unreached(out, *configurations)?;
            Ok(Status::Good)
        }
    }
}

// Writes how many steps a shortest order has.
fn put_reached<W: Write>(out: &mut W, steps: usize) -> Result<(), WriteFault>
    ensures ok { OnOk result (Appends (W.contents out.old) (W.contents out.new) (reached_text steps)) }
    ensures err { OnErr result (AppendsPrefix (W.contents out.old) (W.contents out.new) (reached_text steps)) }
{
    put_parts(
        out,
        &[
            Part::Text(b"found after "),
            Part::Number(steps as u64),
            Part::Text(b"\n"),
        ],
    )
}

// Writes that no order leads to what was looked for.
fn put_unreached<W: Write>(out: &mut W, configurations: usize) -> Result<(), WriteFault>
    ensures ok { OnOk result (Appends (W.contents out.old) (W.contents out.new) (unreached_text configurations)) }
    ensures err { OnErr result (AppendsPrefix (W.contents out.old) (W.contents out.new) (unreached_text configurations)) }
{
    put_parts(
        out,
        &[
            Part::Text(b"found nowhere\nconfigurations "),
            Part::Number(configurations as u64),
            Part::Text(b"\n"),
        ],
    )
}
