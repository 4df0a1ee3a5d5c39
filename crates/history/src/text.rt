// The texts of histories.

ghost use Rattle.std.specs.Prelude.{◌≡◌, ℕ, List, OnErr, OnOk, Result, Ok};
ghost use Rattle.std.specs.Io.KnownBytes.{Appends};
ghost use Rattle.action_tables.specs.Written.{AppendsPrefix};
ghost use Rattle.history.specs.declared.entry.Entry.{Entry};
ghost use Rattle.history.specs.Book.{BookView, IsBook};
ghost use Rattle.history.specs.Segments.{IsSegmented, entries_of};
ghost use Rattle.history.specs.HistoryText.{IsReadAs, ended, entries_text, entry_line, first_line};
ghost use Rattle.history.specs.HistoryText.{history_text};

use crate::book::Book;
use crate::entry::Entry;
use crate::segments::{SEGMENT, Segments};
use action_tables::{Part, WriteFault, put_bytes, put_parts};
use app_interface::Application;
use fault_inject::write_fault;
use reset_machine::write_event;
use std::io::Write;

/// Why a text is no history that can be read, or can't be read.
#[derive(Clone, Copy, Debug, PartialEq, Eq)]
pub enum BookFault {
    /// The line with this number, the first that is no entry's, is longer than 256 bytes or lacks its
    /// line feed. Lines count from 1.
    BadLine(usize),
    /// The history has another version than 1, 2 and 3.
    BadVersion,
    /// There is an entry after the millionth.
    TooLong,
    /// An allocation failed.
    NoMemory,
    /// The reader failed.
    ReadFailed,
}

/// Two texts of a history can't be read as different things.
pub fn one_reading_a_text()
    ensures { (text : List ℕ) (r s : Result (ℕ × List Entry) BookFault) → IsReadAs text r → IsReadAs text s → r ≡ s }
{}

/// What a book's history is written as reads back as its modulus and its entries.
pub fn books_read_back<P: Application>()
    ensures { (b : BookView P.Local) → IsBook P.app P.from_text b
        → IsReadAs (history_text b.config.modulus b.entries) (Ok (b.config.modulus, b.entries)) }
{}

/// Writes the text of a book's history.
pub fn write_book<P: Application, W: Write>(book: &Book<P>, out: &mut W) -> Result<(), WriteFault>
    ensures ok { OnOk result (Appends (W.contents out.old) (W.contents out.new) (history_text book.now.config.modulus book.now.entries)) }
    ensures err { OnErr result
        (AppendsPrefix (W.contents out.old) (W.contents out.new) (history_text book.now.config.modulus book.now.entries)) }
{
    write_segments(book.config().modulus().get(), book.segments(), out)
}

// Writes the text of the history that has this modulus and these entries.
fn write_segments<W: Write>(
    modulus: u64,
    segments: &Segments,
    out: &mut W,
) -> Result<(), WriteFault>
    requires { IsSegmented segments.now }
    ensures ok { OnOk result
        (Appends (W.contents out.old) (W.contents out.new) (history_text modulus (entries_of segments.now))) }
    ensures err { OnErr result
        (AppendsPrefix (W.contents out.old) (W.contents out.new) (history_text modulus (entries_of segments.now))) }
{
    put_first_line(out, modulus)?;
    put_segments(out, segments)
}

/// Writes the first line of a history with sessions modulo this number, with its line feed.
pub fn put_first_line<W: Write>(out: &mut W, modulus: u64) -> Result<(), WriteFault>
    ensures ok { OnOk result (Appends (W.contents out.old) (W.contents out.new) (ended (first_line modulus))) }
    ensures err { OnErr result (AppendsPrefix (W.contents out.old) (W.contents out.new) (ended (first_line modulus))) }
{
    put_parts(
        out,
        &[
            Part::Text(b"reset-history 3 "),
            Part::Number(modulus),
            Part::Text(b"\n"),
        ],
    )
}

// Writes the lines of entries, segment by segment.
fn put_segments<W: Write>(out: &mut W, segments: &Segments) -> Result<(), WriteFault>
    requires { IsSegmented segments.now }
    ensures ok { OnOk result
        (Appends (W.contents out.old) (W.contents out.new) (entries_text (entries_of segments.now))) }
    ensures err { OnErr result
        (AppendsPrefix (W.contents out.old) (W.contents out.new) (entries_text (entries_of segments.now))) }
{
    for index in 0..segments.len().div_ceil(SEGMENT) {
        put_entries(out, segments.segment(index))?;
    }
    Ok(())
}

// Writes the lines of entries.
fn put_entries<W: Write>(out: &mut W, entries: &[Entry]) -> Result<(), WriteFault>
    ensures ok { OnOk result (Appends (W.contents out.old) (W.contents out.new) (entries_text entries.now)) }
    ensures err { OnErr result (AppendsPrefix (W.contents out.old) (W.contents out.new) (entries_text entries.now)) }
{
    for entry in entries {
        put_entry(out, entry)?;
    }
    Ok(())
}

/// Writes the line of an entry, with its line feed.
pub fn put_entry<W: Write>(out: &mut W, entry: &Entry) -> Result<(), WriteFault>
    ensures ok { OnOk result (Appends (W.contents out.old) (W.contents out.new) (ended (entry_line entry.now))) }
    ensures err { OnErr result
        (AppendsPrefix (W.contents out.old) (W.contents out.new) (ended (entry_line entry.now))) }
{
    put_command(out, entry)?;
    put_bytes(out, b"\n")
}

// Writes the command that makes an entry happen.
fn put_command<W: Write>(out: &mut W, entry: &Entry) -> Result<(), WriteFault>
    ensures ok { OnOk result (Appends (W.contents out.old) (W.contents out.new) (entry_line entry.now)) }
    ensures err { OnErr result (AppendsPrefix (W.contents out.old) (W.contents out.new) (entry_line entry.now)) }
{
    match entry {
        Entry::Step(event) => write_event(event, out),
        Entry::Disturbed(fault) => write_fault(fault, out),
    }
}
