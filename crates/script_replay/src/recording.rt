// What the lines of a script leave in a book.

ghost use Rattle.std.specs.Prelude.{◌≡◌, ◌<◌, ◌≤◌, [], length, IfOk, Ok, OnOk, Some};
ghost use Rattle.reset_model.specs.Planned.{outcome_of};
ghost use Rattle.applications.specs.Meaning.{meaning_of};
ghost use Rattle.fault_inject.specs.Effects.{injected};
ghost use Rattle.history.specs.HistoryText.{IsReadAs, history_text};
ghost use Rattle.script_replay.specs.Lines.{lines_of};
ghost use Rattle.script_replay.specs.Output.{answered, disturbed, stepped};
ghost use Rattle.script_replay.specs.Parts.{IsNoted, with_entries};
ghost use Rattle.script_replay.specs.Recorded.{IsHistory, entries_of_lines, event_entries, fault_entries, line_entries};
ghost use Rattle.script_replay.specs.Script.{line_of};
ghost use Rattle.script_replay.specs.declared.script.Command.TheVariants.{Draw, Watch};
ghost use Rattle.script_replay.specs.declared.script.Line.TheVariants.{Asks};

use crate::injected::drawn;
use crate::input::split_line;
use crate::script::{Command, Line, read_line};
use crate::status::Status;
use app_interface::Application;
use app_invariants::Invariant;
use fault_inject::Fault;
use history::{Book, BookRefusal, DisturbRefusal, MAX_ENTRIES, books_read_back, write_book};
use link_predicates::alarm;
use reset_machine::{Config, Event};
use std::alloc::{AllocError, Global};
use topology::MAX_TEXT;

/// The text of the history that a script leaves from this configuration on. It is empty where the script
/// is too long.
pub fn history_of<P: Invariant>(
    alloc: Global,
    opening: &Config<P>,
    script: &[u8],
) -> Result<Vec<u8>, AllocError>
    ensures { IfOk result (λ text.
        IsHistory (meaning_of P.app P.text P.from_text P.names P.counts) opening.now script.now text.items) }
{
    if script.len() > MAX_TEXT {
        return Ok(Vec::new(alloc));
    }
    kept_history(alloc, opening.copy(alloc)?, script)
}

// The text of the history of a script that isn't too long.
fn kept_history<P: Invariant>(
    alloc: Global,
    opening: Config<P>,
    script: &[u8],
) -> Result<Vec<u8>, AllocError>
    requires { length script.now ≤ MAX_TEXT }
    ensures { IfOk result (λ text.
        IsHistory (meaning_of P.app P.text P.from_text P.names P.counts) opening script.now text.items) }
{
    let mut book = Book::open_book(alloc, opening, MAX_ENTRIES);
    history_in(alloc, &mut book, script)
}

// The same, with the entries in a book that was just opened.
fn history_in<P: Invariant>(
    alloc: Global,
    book: &mut Book<P>,
    script: &[u8],
) -> Result<Vec<u8>, AllocError>
    requires short { length script.now ≤ MAX_TEXT }
    requires opening { book.old.opening ≡ book.old.config }
    requires fresh { book.old.entries ≡ [] }
    requires room { book.old.limit ≡ MAX_ENTRIES }
    ensures { IfOk result (λ text.
        IsHistory (meaning_of P.app P.text P.from_text P.names P.counts) book.old.config script.now text.items) }
{
    record_lines(alloc, book, script)?;
    book.lemma_is_book();
    text_of(alloc, book)
}

/// The text of a book's history, which is read as its modulus and its entries.
pub fn text_of<P: Application>(alloc: Global, book: &Book<P>) -> Result<Vec<u8>, AllocError>
    ensures text { IfOk result (λ text. text.items ≡ history_text book.now.config.modulus book.now.entries) }
    ensures read { IfOk result (λ text. IsReadAs text.items (Ok (book.now.config.modulus, book.now.entries))) }
{
    book.lemma_is_book();
    books_read_back::<P>();
    let mut text = Vec::new(alloc);
    match write_book(book, &mut text) {
        Ok(()) => Ok(text),
        Err(_) => Err(AllocError),
    }
}

// Does what the lines of a script ask for in order, up to the first bad one, and enters what was done. There is
// room for all: an entry has a line with at least one byte, and a line feed stands between two of them.
fn record_lines<P: Invariant>(
    alloc: Global,
    book: &mut Book<P>,
    script: &[u8],
) -> Result<(), AllocError>
    requires short { length script.now ≤ MAX_TEXT }
    requires fresh { book.old.entries ≡ [] }
    requires room { book.old.limit ≡ MAX_ENTRIES }
    ensures entries { OnOk result (book.new.entries
        ≡ entries_of_lines (meaning_of P.app P.text P.from_text P.names P.counts)
        book.old.config 1 (lines_of script.now)) }
    ensures opening { OnOk result (book.new.opening ≡ book.old.opening) }
{
    let mut rest = script;
    while let Some((line, after)) = split_line(rest) {
        match record_line(alloc, book, line) {
            Ok(Status::Good) => {}
            Ok(_) => return Ok(()),
            Err(AllocError) => return Err(AllocError),
        }
        rest = after;
    }
    record_line(alloc, book, rest)?;
    Ok(())
}

// Does what the line asks for, and enters what was done.
fn record_line<P: Invariant>(
    alloc: Global,
    book: &mut Book<P>,
    line: &[u8],
) -> Result<Status, AllocError>
    requires { length book.old.entries < book.old.limit }
    ensures { IfOk result (IsNoted (meaning_of P.app P.text P.from_text P.names P.counts) (line_of P.names line.now)
        book.old book.new) }
{
    match read_line::<P>(alloc, line)? {
        Line::Silent => Ok(Status::Good),
        Line::Asks(command) => {
            record_command(alloc, book, command)?;
            Ok(Status::Good)
        }
        Line::Bad => Ok(Status::BadInput),
    }
}

// Does what the command asks for, and enters what was done. A question does nothing.
fn record_command<P: Invariant>(
    alloc: Global,
    book: &mut Book<P>,
    command: Command,
) -> Result<(), AllocError>
    requires { length book.old.entries < book.old.limit }
    ensures { OnOk result (book.new ≡ with_entries book.old
        (line_entries (meaning_of P.app P.text P.from_text P.names P.counts) book.old.config (Asks command))
        (answered (meaning_of P.app P.text P.from_text P.names P.counts) book.old.config command).0) }
{
    match command {
        Command::Step(event) => record_event(alloc, book, event),
        Command::Inject(fault) => record_fault(alloc, book, fault),
        Command::Draw(seed) => record_draw(alloc, book, seed),
        Command::Watch(at) => record_watch(alloc, book, at),
        Command::Show
        | Command::ShowNode(_)
        | Command::Newest
        | Command::Enabled(_)
        | Command::Ready
        | Command::Check
        | Command::CheckNode(_)
        | Command::Alarm(_)
        | Command::Moves
        | Command::MovesOf(_)
        | Command::Snapshot
        | Command::Invariant => Ok(()),
    }
}

// Does what the event says and enters it, where it isn't refused.
fn record_event<P: Invariant>(
    alloc: Global,
    book: &mut Book<P>,
    event: Event,
) -> Result<(), AllocError>
    requires { length book.old.entries < book.old.limit }
    ensures { OnOk result (book.new ≡ with_entries book.old
        (event_entries (meaning_of P.app P.text P.from_text P.names P.counts) book.old.config event)
        (stepped book.old.config (outcome_of P.app book.old.config event)).0) }
{
    match book.step(alloc, event) {
        Ok(_) => Ok(()),
        Err(BookRefusal::Refused(_)) => Ok(()),
        Err(BookRefusal::BookFull) => unreachable!(),
        Err(BookRefusal::NoMemory) => Err(AllocError),
    }
}

// Does the fault and enters it, where it isn't refused.
fn record_fault<P: Invariant>(
    alloc: Global,
    book: &mut Book<P>,
    fault: Fault,
) -> Result<(), AllocError>
    requires { length book.old.entries < book.old.limit }
    ensures { OnOk result (book.new ≡ with_entries book.old
        (fault_entries (meaning_of P.app P.text P.from_text P.names P.counts) book.old.config fault)
        (disturbed book.old.config (injected P.app P.from_text book.old.config fault)).0) }
{
    match book.disturb(alloc, fault) {
        Ok(_) => Ok(()),
        Err((DisturbRefusal::Refused(_), _)) => Ok(()),
        Err((DisturbRefusal::BookFull, _)) => unreachable!(),
        Err((DisturbRefusal::NoMemory, _)) => Err(AllocError),
    }
}

// Draws a fault, and does and enters it where it isn't refused.
fn record_draw<P: Invariant>(alloc: Global, book: &mut Book<P>, seed: u32) -> Result<(), AllocError>
    requires { length book.old.entries < book.old.limit }
    ensures { OnOk result (book.new ≡ with_entries book.old
        (line_entries (meaning_of P.app P.text P.from_text P.names P.counts) book.old.config (Asks (Draw seed)))
        (answered (meaning_of P.app P.text P.from_text P.names P.counts) book.old.config (Draw seed)).0) }
{
    let fault = drawn(book.config(), seed);
    record_fault(alloc, book, fault)
}

// Where the node has an alarm, lets it ask for a reset, and enters the request where it isn't refused.
fn record_watch<P: Invariant>(alloc: Global, book: &mut Book<P>, at: u32) -> Result<(), AllocError>
    requires { length book.old.entries < book.old.limit }
    ensures { OnOk result (book.new ≡ with_entries book.old
        (line_entries (meaning_of P.app P.text P.from_text P.names P.counts) book.old.config (Asks (Watch at)))
        (answered (meaning_of P.app P.text P.from_text P.names P.counts) book.old.config (Watch at)).0) }
{
    match alarm(book.config(), at) {
        None => Ok(()),
        Some(_) => record_event(alloc, book, Event::Request { at }),
    }
}
