// The page that plays a history, from a booted configuration or a snapshot.

ghost use Rattle.std.specs.Prelude.{◌≡◌, ℕ, IfErr, IsSome, List, None, Ok, Some, option_map};
ghost use Rattle.topology.specs.TopologyText.{IsReadFault};
ghost use Rattle.applications.specs.Choice.{ForApp};
ghost use Rattle.applications.specs.Meaning.{meaning_of};
ghost use Rattle.history.specs.Entries.{replayed};
ghost use Rattle.history.specs.HistoryText.{IsReadAs};
ghost use Rattle.history.specs.Reports.{reports_of};
ghost use Rattle.history_page.specs.Page.{data_text, page_text};
ghost use Rattle.script_replay.specs.Output.{Leaves};
ghost use Rattle.script_replay.specs.Stops.{IsOutputStop};
ghost use Rattle.reset_service.specs.Opened.{IsOpenedFrom};
ghost use Rattle.reset_service.specs.Page.{IsPage, IsPageOfEntries, IsPageText};
ghost use Rattle.reset_service.specs.Page.{Plays, page_output};
ghost use Rattle.reset_service.specs.Verified.{LeavesOfReader};

use crate::started::{open_network, refuse_start};
use crate::verified::{refuse_entry, refuse_history, refuse_modulus};
use app_interface::Application;
use app_invariants::Invariant;
use applications::{app_word, with_application};
use history::{BookFault, BookText, Entry, Report, VerifyFault, read_book, verify};
use history_page::{HEAD, MOMENTS, PageStop, VIEWS, put_page};
use reset_machine::Config;
use script_replay::{Network, RunStop, Status, read_network, refuse_input, refuse_topology};
use std::alloc::Global;
use std::io::{Read, Write};
use topology::ReadFault;

/// The most entries of a history that a page plays.
pub const MAX_PLAYED: usize = 100_000;

/// Writes the page that plays the history that a reader gives, from the booted configuration of a topology text. Its
/// title is UTF-8, and empty where it has none of its own.
///
/// The topology is judged before the reader is touched. A history that a verification wouldn't take is answered as
/// there, and one of more than `MAX_PLAYED` entries isn't played: in place of the page there is the answer alone.
pub fn page_text<R: Read, W: Write>(
    alloc: Global,
    topology: &[u8],
    history: &mut R,
    title: &[u8],
    out: &mut W,
) -> Result<Status, RunStop>
    ensures leaves { LeavesOfReader (R.remaining history.old)
        (IsPageText (page_text HEAD.now MOMENTS.now VIEWS.now) title.now topology.now None)
        (W.contents out.old) (W.contents out.new) result }
    ensures untouched { (f : ReadFault) → IsReadFault topology.now f → history.new ≡ history.old }
{
    play_opening(alloc, topology, None, history, title, out)
}

/// As `page_text`, from the configuration that a snapshot of the topology names in place of the booted one. The
/// topology is judged first, and the snapshot before the history.
pub fn page_from<R: Read, W: Write>(
    alloc: Global,
    topology: &[u8],
    snapshot: &[u8],
    history: &mut R,
    title: &[u8],
    out: &mut W,
) -> Result<Status, RunStop>
    ensures leaves { LeavesOfReader (R.remaining history.old)
        (IsPageText (page_text HEAD.now MOMENTS.now VIEWS.now) title.now topology.now (Some snapshot.now))
        (W.contents out.old) (W.contents out.new) result }
    ensures untouched { (f : ReadFault) → IsReadFault topology.now f → history.new ≡ history.old }
{
    play_opening(alloc, topology, Some(snapshot), history, title, out)
}

// Plays a history from the booted configuration of a topology text, or from that which a snapshot of it names.
fn play_opening<R: Read, W: Write>(
    alloc: Global,
    topology: &[u8],
    snapshot: Option<&[u8]>,
    history: &mut R,
    title: &[u8],
    out: &mut W,
) -> Result<Status, RunStop>
    ensures leaves { LeavesOfReader (R.remaining history.old)
        (IsPageText (page_text HEAD.now MOMENTS.now VIEWS.now) title.now topology.now
        (option_map (λ s. s.now) snapshot.entry))
        (W.contents out.old) (W.contents out.new) result }
    ensures untouched { (f : ReadFault) → IsReadFault topology.now f → history.new ≡ history.old }
{
    match read_network(alloc, topology) {
        Ok(network) => {
            let word = app_word(network.app);
            play_app(alloc, network, snapshot, history, word, title, out)
        }
        Err(fault) => refuse_topology(fault, out),
    }
}

// Plays a history on a network, with the application that it names, whose word this is.
#[tactic(auto, using(applications::proofs::Choosing::by_name))]
fn play_app<R: Read, W: Write>(
    alloc: Global,
    network: Network,
    snapshot: Option<&[u8]>,
    history: &mut R,
    word: &[u8],
    title: &[u8],
    out: &mut W,
) -> Result<Status, RunStop>
    requires { network.topology.nodes ≡ network.topology.ids }
    ensures leaves { ForApp (λ L m. LeavesOfReader (R.remaining history.old)
        (λ text. IsOpenedFrom m network.topology network.modulus (option_map (λ s. s.now) snapshot.entry)
        (Plays (page_text HEAD.now MOMENTS.now VIEWS.now) title.now word.now text L m))
        (W.contents out.old) (W.contents out.new) result) network.app }
{
    with_application!(
        network.app,
        P => play_opened::<P, R, W>(alloc, network, snapshot, history, word, title, out)
    )
}

fn play_opened<P: Invariant, R: Read, W: Write>(
    alloc: Global,
    network: Network,
    snapshot: Option<&[u8]>,
    history: &mut R,
    word: &[u8],
    title: &[u8],
    out: &mut W,
) -> Result<Status, RunStop>
    requires { network.topology.nodes ≡ network.topology.ids }
    ensures leaves { LeavesOfReader (R.remaining history.old)
        (λ text. IsOpenedFrom (meaning_of P.app P.text P.from_text P.names P.counts) network.topology network.modulus
        (option_map (λ s. s.now) snapshot.entry)
        (Plays (page_text HEAD.now MOMENTS.now VIEWS.now) title.now word.now text P.Local
        (meaning_of P.app P.text P.from_text P.names P.counts)))
        (W.contents out.old) (W.contents out.new) result }
{
    match open_network::<P>(alloc, network, snapshot) {
        Ok(opening) => play_from(alloc, &opening, history, word, title, out),
        Err(fault) => refuse_start(fault, out),
    }
}

// Plays a history from this configuration on.
fn play_from<P: Invariant, R: Read, W: Write>(
    alloc: Global,
    opening: &Config<P>,
    history: &mut R,
    word: &[u8],
    title: &[u8],
    out: &mut W,
) -> Result<Status, RunStop>
    ensures leaves { LeavesOfReader (R.remaining history.old)
        (IsPage (page_text HEAD.now MOMENTS.now VIEWS.now) title.now word.now
        (meaning_of P.app P.text P.from_text P.names P.counts) opening.now)
        (W.contents out.old) (W.contents out.new) result }
{
    match read_book(alloc, history) {
        Ok(book) => play_book(alloc, opening, &book, word, title, out),
        Err(BookFault::NoMemory) => Err(RunStop::NoMemory),
        Err(BookFault::ReadFailed) => Err(RunStop::ReadFailed),
        Err(fault) => refuse_history(fault, out),
    }
}

// Plays the history of a text from this configuration on, if both count sessions modulo the same number.
fn play_book<P: Invariant, W: Write>(
    alloc: Global,
    opening: &Config<P>,
    book: &BookText,
    word: &[u8],
    title: &[u8],
    out: &mut W,
) -> Result<Status, RunStop>
    ensures leaves { Leaves
        (λ output. (text : List ℕ) → IsReadAs text (Ok (book.now.modulus, book.now.entries.items))
        → IsPage (page_text HEAD.now MOMENTS.now VIEWS.now) title.now word.now
        (meaning_of P.app P.text P.from_text P.names P.counts) opening.now text output)
        (W.contents out.old) (W.contents out.new) result }
    ensures stop { IfErr result IsOutputStop }
{
    if book.modulus != opening.modulus().get() {
        return refuse_modulus(book.modulus, out);
    }
    play_entries(alloc, opening, &book.entries, word, title, out)
}

// Plays entries from this configuration on.
fn play_entries<P: Invariant, W: Write>(
    alloc: Global,
    opening: &Config<P>,
    entries: &[Entry],
    word: &[u8],
    title: &[u8],
    out: &mut W,
) -> Result<Status, RunStop>
    ensures leaves { Leaves
        (IsPageOfEntries (page_text HEAD.now MOMENTS.now VIEWS.now) title.now word.now
        (meaning_of P.app P.text P.from_text P.names P.counts) opening.now
        entries.now) (W.contents out.old) (W.contents out.new) result }
    ensures stop { IfErr result IsOutputStop }
{
    match verify(alloc, opening.copy(alloc)?, entries) {
        Ok(summary) => play(alloc, opening, entries, &summary.reports, word, title, out),
        Err(VerifyFault::NotEnabledAt(position)) => refuse_entry(position, out),
        Err(VerifyFault::NoMemory) => Err(RunStop::NoMemory),
    }
}

// Plays entries that are a run from this configuration on, with their reports, if they aren't too many.
fn play<P: Invariant, W: Write>(
    alloc: Global,
    opening: &Config<P>,
    entries: &[Entry],
    reports: &[Report],
    word: &[u8],
    title: &[u8],
    out: &mut W,
) -> Result<Status, RunStop>
    requires run { IsSome (replayed P.app P.from_text opening.now entries.now) }
    requires reports { reports.now ≡ reports_of P.app P.from_text opening.now entries.now }
    ensures leaves { Leaves
        (λ output. output ≡ page_output (page_text HEAD.now MOMENTS.now VIEWS.now) title.now word.now
        (meaning_of P.app P.text P.from_text P.names P.counts)
        opening.now entries.now) (W.contents out.old) (W.contents out.new) result }
    ensures stop { IfErr result IsOutputStop }
{
    if entries.len() > MAX_PLAYED {
        refuse_input(out, b"bad history TooLongForPage\n")
    } else {
        play_few(alloc, opening, entries, reports, word, title, out)
    }
}

// The same of entries that aren't too many.
fn play_few<P: Application, W: Write>(
    alloc: Global,
    opening: &Config<P>,
    entries: &[Entry],
    reports: &[Report],
    word: &[u8],
    title: &[u8],
    out: &mut W,
) -> Result<Status, RunStop>
    requires run { IsSome (replayed P.app P.from_text opening.now entries.now) }
    requires reports { reports.now ≡ reports_of P.app P.from_text opening.now entries.now }
    ensures leaves { Leaves
        (λ output. output
        ≡ (
          page_text HEAD.now MOMENTS.now VIEWS.now
              (data_text P.app P.text P.from_text title.now word.now opening.now entries.now),
          Status.Good,
        ))
        (W.contents out.old) (W.contents out.new) result }
    ensures stop { IfErr result IsOutputStop }
{
    match put_page(alloc, opening, word, title, entries, reports, out) {
        Ok(()) => Ok(Status::Good),
        Err(PageStop::WriteFailed) => Err(RunStop::WriteFailed),
        Err(PageStop::NoMemory) => Err(RunStop::NoMemory),
    }
}
