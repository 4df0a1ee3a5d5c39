// The pictures of a history that a reader gives, or of some rows of it.

ghost use Rattle.std.specs.Prelude.{◌≡◌, ◌≤◌, ℕ, IfErr, IfOk, IfSome, IsSome, List, None, Ok, Some, length};
ghost use Rattle.applications.specs.Meaning.{meaning_of};
ghost use Rattle.history.specs.Entries.{replayed};
ghost use Rattle.history.specs.HistoryText.{IsReadAs};
ghost use Rattle.history.specs.Reports.{reports_of};
ghost use Rattle.script_replay.specs.Output.{Leaves};
ghost use Rattle.script_replay.specs.Stops.{IsOutputStop};
ghost use Rattle.space_time_diagram.specs.Diagram.{diagram_text};
ghost use Rattle.reset_service.specs.Chosen.{AreRows};
ghost use Rattle.reset_service.specs.Parted.{IsHistoryDrawn, IsRunDrawn, IsSelectionDrawn};
ghost use Rattle.reset_service.specs.Pictured.{drawing_of};
ghost use Rattle.reset_service.specs.Verified.{LeavesOfReader};

use crate::asked::refuse_fewer;
use crate::verified::{refuse_entry, refuse_history, refuse_modulus};
use app_interface::Application;
use app_invariants::Invariant;
use history::{BookFault, BookText, Entry, Report, VerifyFault, play_all, read_book, verify};
use reset_machine::Config;
use script_replay::{RunStop, Status, refuse_input};
use space_time_diagram::{DiagramStop, MAX_BEFORE, MAX_LANES, MAX_MARKS, put_diagram};
use std::alloc::{AllocError, Global};
use std::io::{Read, Write};

// Draws these rows of a history, or all, from this configuration on, with lanes for all nodes.
pub fn draw_all<P: Invariant, R: Read, W: Write>(
    alloc: Global,
    opening: &Config<P>,
    rows: Option<(u32, u32)>,
    history: &mut R,
    out: &mut W,
) -> Result<Status, RunStop>
    requires { IfSome rows (λ rows. AreRows rows) }
    ensures leaves { LeavesOfReader (R.remaining history.old)
        (IsSelectionDrawn (meaning_of P.app P.text P.from_text P.names P.counts) rows None opening.now)
        (W.contents out.old) (W.contents out.new) result }
{
    if opening.topology().len() > MAX_LANES {
        return refuse_input(out, b"bad topology TooManyForPicture\n");
    }
    draw_history(alloc, opening, opening.topology().ids(), rows, history, out)
}

// Draws these rows of a history, or all, from this configuration on, with lanes for these nodes.
pub fn draw_history<P: Invariant, R: Read, W: Write>(
    alloc: Global,
    opening: &Config<P>,
    nodes: &[u32],
    rows: Option<(u32, u32)>,
    history: &mut R,
    out: &mut W,
) -> Result<Status, RunStop>
    requires lanes { length nodes.now ≤ MAX_LANES }
    requires rows { IfSome rows (λ rows. AreRows rows) }
    ensures leaves { LeavesOfReader (R.remaining history.old)
        (IsHistoryDrawn (meaning_of P.app P.text P.from_text P.names P.counts) rows nodes.now opening.now)
        (W.contents out.old) (W.contents out.new) result }
{
    match read_book(alloc, history) {
        Ok(book) => draw_book(alloc, opening, nodes, rows, &book, out),
        Err(BookFault::NoMemory) => Err(RunStop::NoMemory),
        Err(BookFault::ReadFailed) => Err(RunStop::ReadFailed),
        Err(fault) => refuse_history(fault, out),
    }
}

// Draws the history of a text from this configuration on, if both count sessions modulo the same number.
fn draw_book<P: Invariant, W: Write>(
    alloc: Global,
    opening: &Config<P>,
    nodes: &[u32],
    rows: Option<(u32, u32)>,
    book: &BookText,
    out: &mut W,
) -> Result<Status, RunStop>
    requires lanes { length nodes.now ≤ MAX_LANES }
    requires rows { IfSome rows (λ rows. AreRows rows) }
    ensures leaves { Leaves
        (λ output. (text : List ℕ) → IsReadAs text (Ok (book.now.modulus, book.now.entries.items))
        → IsHistoryDrawn (meaning_of P.app P.text P.from_text P.names P.counts) rows nodes.now opening.now text output)
        (W.contents out.old) (W.contents out.new) result }
    ensures stop { IfErr result IsOutputStop }
{
    if book.modulus != opening.modulus().get() {
        return refuse_modulus(book.modulus, out);
    }
    draw_entries(alloc, opening, nodes, rows, &book.entries, out)
}

// Draws the entries of a history from this configuration on.
fn draw_entries<P: Invariant, W: Write>(
    alloc: Global,
    opening: &Config<P>,
    nodes: &[u32],
    rows: Option<(u32, u32)>,
    entries: &[Entry],
    out: &mut W,
) -> Result<Status, RunStop>
    requires lanes { length nodes.now ≤ MAX_LANES }
    requires rows { IfSome rows (λ rows. AreRows rows) }
    ensures leaves { Leaves
        (λ output. (text : List ℕ) → IsReadAs text (Ok (opening.now.modulus, entries.now))
        → IsHistoryDrawn (meaning_of P.app P.text P.from_text P.names P.counts) rows nodes.now opening.now text output)
        (W.contents out.old) (W.contents out.new) result }
    ensures stop { IfErr result IsOutputStop }
{
    match verify(alloc, opening.copy(alloc)?, entries) {
        Ok(summary) => draw_run(alloc, opening, nodes, rows, entries, &summary.reports, out),
        Err(VerifyFault::NotEnabledAt(position)) => refuse_entry(position, out),
        Err(VerifyFault::NoMemory) => Err(RunStop::NoMemory),
    }
}

// Draws entries that are a run from this configuration on, of which these are the reports.
fn draw_run<P: Invariant, W: Write>(
    alloc: Global,
    opening: &Config<P>,
    nodes: &[u32],
    rows: Option<(u32, u32)>,
    entries: &[Entry],
    reports: &[Report],
    out: &mut W,
) -> Result<Status, RunStop>
    requires lanes { length nodes.now ≤ MAX_LANES }
    requires rows { IfSome rows (λ rows. AreRows rows) }
    requires run { IsSome (replayed P.app P.from_text opening.now entries.now) }
    requires reports { reports.now ≡ reports_of P.app P.from_text opening.now entries.now }
    ensures leaves { Leaves
        (IsRunDrawn (meaning_of P.app P.text P.from_text P.names P.counts) rows nodes.now opening.now entries.now)
        (W.contents out.old) (W.contents out.new) result }
    ensures stop { IfErr result IsOutputStop }
{
    match rows {
        None => draw(alloc, opening, nodes, 0, entries, reports, out),
        Some((first, last)) => draw_rows(alloc, opening, nodes, first, last, entries, out),
    }
}

// Draws the entries of a run from the first of these rows to the last, if there are so many.
fn draw_rows<P: Invariant, W: Write>(
    alloc: Global,
    opening: &Config<P>,
    nodes: &[u32],
    first: u32,
    last: u32,
    entries: &[Entry],
    out: &mut W,
) -> Result<Status, RunStop>
    requires lanes { length nodes.now ≤ MAX_LANES }
    requires rows { AreRows (first, last) }
    requires run { IsSome (replayed P.app P.from_text opening.now entries.now) }
    ensures leaves { Leaves
        (IsRunDrawn (meaning_of P.app P.text P.from_text P.names P.counts) (Some (first, last)) nodes.now opening.now
        entries.now)
        (W.contents out.old) (W.contents out.new) result }
    ensures stop { IfErr result IsOutputStop }
{
    if entries.len() < first as usize {
        return refuse_fewer(entries.len(), out);
    }
    let before = first as usize - 1;
    let end = entries.len().min(last as usize);
    let left = left_by(alloc, opening, &entries[..before])?;
    let drawn = draw_left(
        alloc,
        &left,
        nodes,
        before as u64,
        &entries[before..end],
        out,
    );
    drop(left);
    drawn
}

// What entries that are a run leave of this configuration.
fn left_by<P: Invariant>(
    alloc: Global,
    opening: &Config<P>,
    entries: &[Entry],
) -> Result<Config<P>, AllocError>
    requires { IsSome (replayed P.app P.from_text opening.now entries.now) }
    ensures { IfOk result (λ left. replayed P.app P.from_text opening.now entries.now ≡ Some left) }
{
    let mut left = opening.copy(alloc)?;
    play_all(alloc, &mut left, entries)?;
    Ok(left)
}

// Draws entries that are a run from what so many entries before them left.
fn draw_left<P: Invariant, W: Write>(
    alloc: Global,
    left: &Config<P>,
    nodes: &[u32],
    before: u64,
    entries: &[Entry],
    out: &mut W,
) -> Result<Status, RunStop>
    requires lanes { length nodes.now ≤ MAX_LANES }
    requires early { before ≤ MAX_BEFORE }
    requires run { IsSome (replayed P.app P.from_text left.now entries.now) }
    ensures leaves { Leaves
        (λ output. output
        ≡ drawing_of (meaning_of P.app P.text P.from_text P.names P.counts) nodes.now before left.now entries.now)
        (W.contents out.old) (W.contents out.new) result }
    ensures stop { IfErr result IsOutputStop }
{
    match verify(alloc, left.copy(alloc)?, entries) {
        Ok(summary) => draw(alloc, left, nodes, before, entries, &summary.reports, out),
        Err(VerifyFault::NotEnabledAt(_)) => unreachable!(),
        Err(VerifyFault::NoMemory) => Err(RunStop::NoMemory),
    }
}

// Draws entries that are a run from this configuration on, with their reports, if they aren't too many.
fn draw<P: Invariant, W: Write>(
    alloc: Global,
    opening: &Config<P>,
    nodes: &[u32],
    before: u64,
    entries: &[Entry],
    reports: &[Report],
    out: &mut W,
) -> Result<Status, RunStop>
    requires lanes { length nodes.now ≤ MAX_LANES }
    requires early { before ≤ MAX_BEFORE }
    requires run { IsSome (replayed P.app P.from_text opening.now entries.now) }
    requires reports { reports.now ≡ reports_of P.app P.from_text opening.now entries.now }
    ensures leaves { Leaves
        (λ output. output
        ≡ drawing_of (meaning_of P.app P.text P.from_text P.names P.counts) nodes.now before opening.now entries.now)
        (W.contents out.old) (W.contents out.new) result }
    ensures stop { IfErr result IsOutputStop }
{
    if entries.len() > MAX_MARKS {
        refuse_input(out, b"bad history TooLongForPicture\n")
    } else {
        draw_few(alloc, opening, nodes, before, entries, reports, out)
    }
}

// Draws at most `MAX_MARKS` entries that are a run from this configuration on, with their reports.
fn draw_few<P: Application, W: Write>(
    alloc: Global,
    opening: &Config<P>,
    nodes: &[u32],
    before: u64,
    entries: &[Entry],
    reports: &[Report],
    out: &mut W,
) -> Result<Status, RunStop>
    requires lanes { length nodes.now ≤ MAX_LANES }
    requires marks { length entries.now ≤ MAX_MARKS }
    requires early { before ≤ MAX_BEFORE }
    requires run { IsSome (replayed P.app P.from_text opening.now entries.now) }
    requires reports { reports.now ≡ reports_of P.app P.from_text opening.now entries.now }
    ensures leaves { Leaves
        (λ output. output
        ≡ (diagram_text P.app P.from_text nodes.now before opening.now entries.now reports.now, Status.Good))
        (W.contents out.old) (W.contents out.new) result }
    ensures stop { IfErr result IsOutputStop }
{
    match put_diagram(alloc, opening, nodes, before, entries, reports, out) {
        Ok(()) => Ok(Status::Good),
        Err(DiagramStop::WriteFailed) => Err(RunStop::WriteFailed),
        Err(DiagramStop::NoMemory) => Err(RunStop::NoMemory),
    }
}
