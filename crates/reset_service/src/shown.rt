// Explorations of all orders of the events that leave a history, which shows what was found.

ghost use Rattle.std.specs.Prelude.{◌≡◌, ◌<◌, ◌≤◌, ◌+◌, ℕ, List, [], None, length, option_map, IfErr, IfOk, OnErr, OnOk, Ok};
ghost use Rattle.std.specs.Io.KnownBytes.{Appends};
ghost use Rattle.topology.specs.TopologyText.{IsReadFault};
ghost use Rattle.action_tables.specs.Written.{AppendsPrefix};
ghost use Rattle.applications.specs.Choice.{ForApp};
ghost use Rattle.applications.specs.Meaning.{meaning_of};
ghost use Rattle.history.specs.HistoryText.{IsReadAs, ended, entries_text};
ghost use Rattle.history.specs.Stretches.{steps};
ghost use Rattle.history.specs.declared.entry.Entry.{Entry};
ghost use Rattle.reset_model.specs.EventText.{event_line};
ghost use Rattle.script_replay.specs.Lines.{GaveText, IsReadFrom, lines_of};
ghost use Rattle.script_replay.specs.Output.{Leaves};
ghost use Rattle.script_replay.specs.Recorded.{IsHistory, LeavesRecord, entries_of_lines};
ghost use Rattle.script_replay.specs.Stops.{IsOutputStop};
ghost use Rattle.reset_service.specs.Opened.{IsOpenedFrom};
ghost use Rattle.reset_service.specs.Explorations.{status_of};
ghost use Rattle.reset_service.specs.Shown.{IsFoundBy, IsHistoryOf, IsShown, IsShownText, Shows, long_history_text};
ghost use Rattle.reset_service.specs.Shown.{IsWithin, round_text, shown_events, shown_runs_text, shown_text};

use crate::explored::{Exploring, answer_too_many, put_found_counts, put_runs, status_of};
use crate::planned::refuse_line;
use crate::searched::show_search;
use crate::started::{open_network, refuse_start};
use action_tables::{Part, WriteFault, put_bytes, put_parts};
use app_invariants::Invariant;
use applications::with_application;
use history::{MAX_ENTRIES, one_reading_a_text, read_book};
use progress::Progress;
use reset_machine::{Config, Event, write_event};
use schedules::{ExploreFault, Runs, Schedules, Witness, explore_witnessed};
use script_replay::{
    Network, RunStop, Status, leave_script, read_network, read_text, record_script, refuse_input,
    refuse_topology,
};
use std::alloc::{AllocError, Global};
use std::io;
use std::io::{Read, Write};
use topology::{MAX_TEXT, ReadFault};

/// As `explore_text`, and writes to one writer, before the answer goes to the other, a history from the opening on that
/// shows what was found: the entries of the script, and then those of a longest order or, where some order never ends, of
/// one that goes round. The line of that one names the entries after which the configuration is the same. Where something is
/// looked for, the order is a shortest one to such a configuration.
///
/// Bad input, too many configurations, an order that is too long for a history, and a search that finds nothing leave no
/// history.
pub fn explore_history<R: Read, H: Write, W: Write>(
    alloc: Global,
    topology: &[u8],
    snapshot: Option<&[u8]>,
    script: &mut R,
    run: Exploring,
    progress: &Progress,
    history: &mut H,
    out: &mut W,
) -> Result<Status, RunStop>
    ensures leaves { (text : List ℕ) × IsReadFrom (R.remaining script.old) text
        × LeavesRecord (IsShownText run text topology.now (option_map (λ s. s.now) snapshot.entry))
        (H.contents history.old) (H.contents history.new) (W.contents out.old) (W.contents out.new) result }
    ensures taken { OnOk result (GaveText (R.remaining script.old) (R.remaining script.new)) }
    ensures untouched { (f : ReadFault) → IsReadFault topology.now f → script.new ≡ script.old }
{
    match read_network(alloc, topology) {
        Ok(network) => match read_text(alloc, script) {
            Ok(text) => show_app(alloc, network, snapshot, &text, run, progress, history, out),
            Err(stop) => Err(stop),
        },
        Err(fault) => refuse_topology(fault, out),
    }
}

// Explores what a script leaves of a network, with the application that it names.
#[tactic(auto, using(applications::proofs::Choosing::by_name))]
fn show_app<H: Write, W: Write>(
    alloc: Global,
    network: Network,
    snapshot: Option<&[u8]>,
    script: &[u8],
    run: Exploring,
    progress: &Progress,
    history: &mut H,
    out: &mut W,
) -> Result<Status, RunStop>
    requires { network.topology.nodes ≡ network.topology.ids }
    ensures { ForApp (λ L m. LeavesRecord
        (λ h o. IsOpenedFrom m network.topology network.modulus (option_map (λ s. s.now) snapshot.entry)
        (Shows run script.now h L m) o × (o.1 ≡ Status.BadInput → h ≡ []))
        (H.contents history.old) (H.contents history.new) (W.contents out.old) (W.contents out.new) result) network.app }
{
    with_application!(
        network.app,
        P => show_opened::<P, H, W>(alloc, network, snapshot, script, run, progress, history, out)
    )
}

fn show_opened<P: Invariant, H: Write, W: Write>(
    alloc: Global,
    network: Network,
    snapshot: Option<&[u8]>,
    script: &[u8],
    run: Exploring,
    progress: &Progress,
    history: &mut H,
    out: &mut W,
) -> Result<Status, RunStop>
    requires { network.topology.nodes ≡ network.topology.ids }
    ensures { LeavesRecord
        (λ h o. IsOpenedFrom (meaning_of P.app P.text P.from_text P.names P.counts) network.topology network.modulus
        (option_map (λ s. s.now) snapshot.entry)
        (Shows run script.now h P.Local (meaning_of P.app P.text P.from_text P.names P.counts)) o
        × (o.1 ≡ Status.BadInput → h ≡ []))
        (H.contents history.old) (H.contents history.new) (W.contents out.old) (W.contents out.new) result }
{
    match open_network::<P>(alloc, network, snapshot) {
        Ok(opening) => show_after(alloc, &opening, script, run, progress, history, out),
        Err(fault) => refuse_start(fault, out),
    }
}

// Explores what a script leaves of this configuration.
fn show_after<P: Invariant, H: Write, W: Write>(
    alloc: Global,
    opening: &Config<P>,
    script: &[u8],
    run: Exploring,
    progress: &Progress,
    history: &mut H,
    out: &mut W,
) -> Result<Status, RunStop>
    ensures { LeavesRecord
        (λ h o. IsShown (meaning_of P.app P.text P.from_text P.names P.counts) run opening.now script.now h o
        × (o.1 ≡ Status.BadInput → h ≡ []))
        (H.contents history.old) (H.contents history.new) (W.contents out.old) (W.contents out.new) result }
{
    if script.len() > MAX_TEXT {
        return refuse_input(out, b"bad script TooLong\n");
    }
    let mut left = opening.copy(alloc)?;
    match leave_script(alloc, &mut left, script) {
        Ok(None) => show_here(alloc, opening, &left, script, run, progress, history, out),
        Ok(Some(number)) => refuse_line(number, out),
        Err(_) => Err(RunStop::NoMemory),
    }
}

// Explores from what a script left of an opening, or looks for what is asked for.
fn show_here<P: Invariant, H: Write, W: Write>(
    alloc: Global,
    opening: &Config<P>,
    left: &Config<P>,
    script: &[u8],
    run: Exploring,
    progress: &Progress,
    history: &mut H,
    out: &mut W,
) -> Result<Status, RunStop>
    requires { length script.now ≤ MAX_TEXT }
    ensures { LeavesRecord
        (λ h o. IsFoundBy (meaning_of P.app P.text P.from_text P.names P.counts) run opening.now.modulus
        (entries_of_lines (meaning_of P.app P.text P.from_text P.names P.counts)
        opening.now 1 (lines_of script.now)) left.now h o
        × (o.1 ≡ Status.BadInput → h ≡ []))
        (H.contents history.old) (H.contents history.new) (W.contents out.old) (W.contents out.new) result }
{
    match run.until {
        None => show_all(alloc, opening, left, script, run, progress, history, out),
        Some(target) => show_search(
            alloc, opening, left, script, run, target, progress, history, out,
        ),
    }
}

// Explores all orders from what a script left of an opening.
fn show_all<P: Invariant, H: Write, W: Write>(
    alloc: Global,
    opening: &Config<P>,
    left: &Config<P>,
    script: &[u8],
    run: Exploring,
    progress: &Progress,
    history: &mut H,
    out: &mut W,
) -> Result<Status, RunStop>
    requires script { length script.now ≤ MAX_TEXT }
    requires all { run.until ≡ None }
    ensures { LeavesRecord
        (λ h o. IsFoundBy (meaning_of P.app P.text P.from_text P.names P.counts) run opening.now.modulus
        (entries_of_lines (meaning_of P.app P.text P.from_text P.names P.counts)
        opening.now 1 (lines_of script.now)) left.now h o
        × (o.1 ≡ Status.BadInput → h ≡ []))
        (H.contents history.old) (H.contents history.new) (W.contents out.old) (W.contents out.new) result }
{
    let (found, witness) = match explore_witnessed(alloc, left, run.acts, run.most, progress) {
        Ok(answer) => answer,
        Err(ExploreFault::TooMany) => return answer_too_many(run.most, out),
        Err(ExploreFault::NoMemory) => return Err(RunStop::NoMemory),
    };
    match history_of(alloc, opening, script, events_of(&witness)) {
        Ok(Some(shown)) => put_found(found, &witness, &shown, history, out),
        Ok(None) => answer_long_history(out),
        Err(_) => Err(RunStop::NoMemory),
    }
}

// The events of the order that shows what was found.
fn events_of(witness: &Witness) -> &[Event]
    ensures { result.now ≡ shown_events witness.now }
{
    match witness {
        Witness::Longest(events) => events,
        Witness::Endless { events, .. } => events,
    }
}

// ---- the history

// A history that shows what was found.
#[derive(Drop)]
pub struct ShownHistory {
    pub text: Vec<u8>,
    // How many entries of a script it begins with.
    pub before: usize,
}

/// The history of the entries of a script and of the events after them, or None where they are more than a history may
/// have.
pub fn history_of<P: Invariant>(
    alloc: Global,
    opening: &Config<P>,
    script: &[u8],
    events: &[Event],
) -> Result<Option<ShownHistory>, AllocError>
    requires { length script.now ≤ MAX_TEXT }
    ensures { IfOk result (IsHistoryOf opening.now.modulus
        (entries_of_lines (meaning_of P.app P.text P.from_text P.names P.counts)
        opening.now 1 (lines_of script.now)) events.now) }
{
    let mut text = script_history(alloc, opening, script)?;
    let before = entry_count(alloc, &text)?;
    if before.saturating_add(events.len()) > MAX_ENTRIES {
        return Ok(None);
    }
    match put_steps(&mut text, events) {
        Ok(()) => Ok(Some(ShownHistory { text, before })),
        Err(_) => Err(AllocError),
    }
}

// The text of the history of a script.
fn script_history<P: Invariant>(
    alloc: Global,
    opening: &Config<P>,
    script: &[u8],
) -> Result<Vec<u8>, AllocError>
    ensures { IfOk result (λ text.
        IsHistory (meaning_of P.app P.text P.from_text P.names P.counts) opening.now script.now text.items) }
{
    let mut left = opening.copy(alloc)?;
    let mut text = Vec::new(alloc);
    match record_script(alloc, &mut left, script, &mut text, &mut io::sink()) {
        Ok(_) => Ok(text),
        Err(_) => Err(AllocError),
    }
}

// How many entries the text of a history has.
fn entry_count(alloc: Global, text: &[u8]) -> Result<usize, AllocError>
    ensures { IfOk result (λ count. (m : ℕ) (entries : List Entry) → IsReadAs text.now (Ok (m, entries))
        → count ≡ length entries) }
{
    one_reading_a_text();
    let mut reader = text;
    match read_book(alloc, &mut reader) {
        Ok(book) => Ok(book.entries.as_slice().len()),
        Err(_) => Err(AllocError),
    }
}

// Writes the lines of these events as entries.
fn put_steps<W: Write>(out: &mut W, events: &[Event]) -> Result<(), WriteFault>
    ensures { OnOk result (Appends (W.contents out.old) (W.contents out.new) (entries_text (steps events.now))) }
{
    for event in events {
        put_step(out, event)?;
    }
    Ok(())
}

// Writes the line of an event, with its line feed.
fn put_step<W: Write>(out: &mut W, event: &Event) -> Result<(), WriteFault>
    ensures { OnOk result (Appends (W.contents out.old) (W.contents out.new) (ended (event_line event.now))) }
{
    write_event(event, out)?;
    put_bytes(out, b"\n")
}

// ---- what is written

// Writes a history, and then what was found.
fn put_found<H: Write, W: Write>(
    found: Schedules,
    witness: &Witness,
    shown: &ShownHistory,
    history: &mut H,
    out: &mut W,
) -> Result<Status, RunStop>
    requires { IsWithin shown.now.before witness.now }
    ensures { LeavesRecord
        (λ h o. (h ≡ shown.now.text.items) × (o ≡ (shown_text shown.now.before found witness.now, status_of found)))
        (H.contents history.old) (H.contents history.new) (W.contents out.old) (W.contents out.new) result }
{
    put_bytes(history, &shown.text)?;
    answer_shown(found, witness, shown.before, out)
}

// Answers with what was found, and shown by a history whose order follows so many entries.
fn answer_shown<W: Write>(
    found: Schedules,
    witness: &Witness,
    before: usize,
    out: &mut W,
) -> Result<Status, RunStop>
    requires { IsWithin before witness.now }
    ensures leaves { Leaves (λ output. output ≡ (shown_text before found witness.now, status_of found))
        (W.contents out.old) (W.contents out.new) result }
    ensures stop { IfErr result IsOutputStop }
{
    put_shown(out, found, witness, before)?;
    Ok(status_of(found))
}

// Writes what was found.
fn put_shown<W: Write>(
    out: &mut W,
    found: Schedules,
    witness: &Witness,
    before: usize,
) -> Result<(), WriteFault>
    requires { IsWithin before witness.now }
    ensures ok { OnOk result
        (Appends (W.contents out.old) (W.contents out.new) (shown_text before found witness.now)) }
    ensures err { OnErr result
        (AppendsPrefix (W.contents out.old) (W.contents out.new) (shown_text before found witness.now)) }
{
    put_found_counts(out, found)?;
    put_shown_runs(out, found.runs, witness, before)
}

// Writes how far the orders go.
fn put_shown_runs<W: Write>(
    out: &mut W,
    runs: Runs,
    witness: &Witness,
    before: usize,
) -> Result<(), WriteFault>
    requires { IsWithin before witness.now }
    ensures ok { OnOk result
        (Appends (W.contents out.old) (W.contents out.new) (shown_runs_text before runs witness.now)) }
    ensures err { OnErr result
        (AppendsPrefix (W.contents out.old) (W.contents out.new) (shown_runs_text before runs witness.now)) }
{
    match witness {
        Witness::Longest(_) => put_runs(out, runs),
        Witness::Endless {
            events,
            before: first,
        } => put_round(out, before, *first, events.len()),
    }
}

// Writes that an order goes round, which follows so many entries and comes back after all of its events to where it was
// after the first ones.
fn put_round<W: Write>(
    out: &mut W,
    before: usize,
    first: usize,
    all: usize,
) -> Result<(), WriteFault>
    requires first { first < all }
    requires few { before + all ≤ 1000000 }
    ensures ok { OnOk result (Appends (W.contents out.old) (W.contents out.new) (round_text before first all)) }
    ensures err { OnErr result (AppendsPrefix (W.contents out.old) (W.contents out.new) (round_text before first all)) }
{
    put_parts(
        out,
        &[
            Part::Text(b"\nendless from "),
            Part::Number((before + first) as u64),
            Part::Text(b" to "),
            Part::Number((before + all) as u64),
            Part::Text(b"\n"),
        ],
    )
}

/// Answers that a history would have too many entries.
pub fn answer_long_history<W: Write>(out: &mut W) -> Result<Status, RunStop>
    ensures leaves { Leaves (λ output. output ≡ (long_history_text, Status.BadInput))
        (W.contents out.old) (W.contents out.new) result }
    ensures stop { IfErr result IsOutputStop }
{
    put_bytes(out, b"more than 1000000 entries\n")?;
    Ok(Status::BadInput)
}
