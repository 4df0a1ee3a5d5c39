// Reading the text of a history.

ghost use Rattle.std.specs.Prelude.{◌≡◌, ◌≢◌, ℕ, ◌↔◌, IfErr, IfNone, IfOk, IfSome, IsTrue, OnOk, Ok};
ghost use Rattle.std.specs.Prelude.{Err, List, ◌++◌, ◌∷◌, codes};
ghost use Rattle.action_tables.specs.Cuts.{HasNo};
ghost use Rattle.std.specs.Char.{is_ascii_graphic};
ghost use Rattle.std.specs.Io.KnownBytes.{IsAtEnd};
ghost use Rattle.std.specs.List.{list_all};
ghost use Rattle.history.specs.declared.entry.Entry.{Entry};
ghost use Rattle.history.specs.HistoryText.{HasLineIn, IsInVersion, IsPrintable, IsReadAs, IsReadWhole, entry_line};
ghost use Rattle.history.specs.HistoryText.{IsFirstLine};
ghost use Rattle.history.specs.Reading.{IsBadVersion, NamesModulus};
ghost use Rattle.history.specs.declared.entry.Entry.TheVariants.{Disturbed};
ghost use Rattle.action_tables.specs.Modulus.{IsModulus};
ghost use Rattle.std.specs.Fmt.{decimal};

use crate::entry::Entry;
use crate::lines::{CHUNK, MAX_LINE, Reading};
use crate::text::BookFault;
use action_tables::{MAX_MODULUS, cut, read_number};
use fault_inject::{Fault, read_fault};
use reset_machine::read_event;
use std::alloc::{AllocError, Global};
use std::io::Read;

/// What the text of a history says.
#[derive(Drop)]
pub struct BookText {
    /// The number modulo which its sessions are counted, from 2 to 4294967296.
    pub modulus: u64,
    /// Its entries.
    pub entries: Vec<Entry>,
}

// What the first line of a history says: its version, and the modulus of its sessions.
#[derive(Clone, Copy)]
pub struct Header {
    pub version: u8,
    pub modulus: u64,
}

/// Reads a history to its end, or to the first line that it can't have.
pub fn read_book<R: Read>(alloc: Global, reader: &mut R) -> Result<BookText, BookFault>
    ensures ok { IfOk result (λ book. (text : List ℕ) × IsReadWhole (R.remaining reader.old) text
        × IsReadAs text (Ok (book.modulus, book.entries.items))) }
    ensures err { IfErr result (λ f. f ≢ BookFault.NoMemory → f ≢ BookFault.ReadFailed
        → (text : List ℕ) × IsReadWhole (R.remaining reader.old) text × IsReadAs text (Err f)) }
    ensures end { OnOk result (IsAtEnd (R.remaining reader.new)) }
{
    let mut reading = Reading::new(alloc);
    let mut room = [0; CHUNK];
    // No reader gives so much: a bound, so that the reading is seen to end.
    for _ in 0..u64::MAX {
        match reading.read_on(alloc, reader, &mut room) {
            Ok(true) => {}
            Ok(false) => return reading.into_book(),
            Err(fault) => return Err(fault),
        }
    }
    Err(BookFault::ReadFailed)
}

// Reads the first line: what it says of the history that begins with it.
pub fn read_first_line(line: &[u8]) -> Result<Header, BookFault>
    ensures ok { IfOk result (λ h. IsFirstLine h.version h.modulus line.now) }
    ensures err { IfErr result (IsBadVersion line.now) }
{
    let Some((word, rest)) = cut(line, b' ') else {
        return Err(BookFault::BadLine(1));
    };
    if word != b"reset-history".as_slice() {
        return Err(BookFault::BadLine(1));
    }
    match cut(rest, b' ') {
        Some((version, modulus)) => with_modulus(version, modulus),
        None => version_alone(rest),
    }
}

// What a first line says that names a version alone.
fn version_alone(version: &[u8]) -> Result<Header, BookFault>
    requires { HasNo 32 version.now }
    ensures ok { IfOk result (λ h. IsFirstLine h.version h.modulus (codes "reset-history " ++ version.now)) }
    ensures err { IfErr result (IsBadVersion (codes "reset-history " ++ version.now)) }
{
    match read_number(version) {
        Some(1) => Ok(Header {
            version: 1,
            modulus: MAX_MODULUS,
        }),
        Some(2) => Err(BookFault::BadLine(1)),
        Some(3) => Err(BookFault::BadLine(1)),
        Some(_) => Err(BookFault::BadVersion),
        None => Err(BookFault::BadLine(1)),
    }
}

// What a first line says that names a version and goes on.
fn with_modulus(version: &[u8], modulus: &[u8]) -> Result<Header, BookFault>
    requires { HasNo 32 version.now }
    ensures ok { IfOk result (λ h. IsFirstLine h.version h.modulus
        (codes "reset-history " ++ (version.now ++ 32 ∷ modulus.now))) }
    ensures err { IfErr result (IsBadVersion (codes "reset-history " ++ (version.now ++ 32 ∷ modulus.now))) }
{
    let Some(version) = read_version(version) else {
        return Err(BookFault::BadLine(1));
    };
    match read_modulus(modulus) {
        Some(modulus) => Ok(Header { version, modulus }),
        None => Err(BookFault::BadLine(1)),
    }
}

// The version that a word names, of those whose first line names a modulus too.
fn read_version(word: &[u8]) -> Option<u8>
    ensures found { IfSome result (λ v. NamesModulus v × (word.now ≡ decimal v)) }
    ensures only { IfNone result ((v : ℕ) → NamesModulus v → word.now ≡ decimal v → ⊥) }
{
    let version = match read_number(word) {
        Some(version) => version,
        None => return None,
    };
    if version == 2 {
        return Some(2);
    }
    if version == 3 {
        return Some(3);
    }
    None
}

// The modulus that a word spells. It is the one number that may be 4294967296.
fn read_modulus(word: &[u8]) -> Option<u64>
    ensures found { IfSome result (λ m. IsModulus m × (word.now ≡ decimal m)) }
    ensures only { IfNone result ((m : ℕ) → IsModulus m → word.now ≡ decimal m → ⊥) }
{
    if word == b"4294967296".as_slice() {
        return Some(MAX_MODULUS);
    }
    match read_number(word) {
        Some(value) if value >= 2 => Some(u64::from(value)),
        _ => None,
    }
}

// The entry of a line in a history of this version.
#[inline(always)]
pub fn read_entry(alloc: Global, version: u8, line: &[u8]) -> Result<Option<Entry>, AllocError>
    ensures found { IfOk result
        (λ read. IfSome read (λ entry. HasLineIn version entry × (line.now ≡ entry_line entry))) }
    ensures only { IfOk result
        (λ read. IfNone read ((entry : Entry) → HasLineIn version entry → line.now ≡ entry_line entry → ⊥)) }
{
    if line.len() > MAX_LINE {
        return Ok(None);
    }
    if let Some(event) = read_event(line) {
        return Ok(Some(Entry::Step(event)));
    }
    match read_fault(alloc, line)? {
        Some(fault) if is_entry_in(version, &fault) => Ok(Some(Entry::Disturbed(fault))),
        _ => Ok(None),
    }
}

// Whether the fault may stand in a history of this version: it is printable, and the version has it.
fn is_entry_in(version: u8, fault: &Fault) -> bool
    ensures { IsTrue result ↔ (IsPrintable fault.now × IsInVersion version (Disturbed fault.now)) }
{
    match fault {
        Fault::NodeDown { .. } => version >= 3,
        Fault::NodeUp { .. } => version >= 3,
        _ => is_printable(fault),
    }
}

/// Whether the text of a local state, where the fault has one, may stand in a line.
pub fn is_printable(fault: &Fault) -> bool
    ensures { IsTrue result ↔ IsPrintable fault.now }
{
    match fault {
        Fault::SetLocal { text, .. } => is_graphic(text.as_bytes()),
        _ => true,
    }
}

/// Whether all bytes are from 33 to 126.
pub fn is_graphic(text: &[u8]) -> bool
    ensures { result ≡ list_all is_ascii_graphic text.now }
{
    text.iter().all(u8::is_ascii_graphic)
}
