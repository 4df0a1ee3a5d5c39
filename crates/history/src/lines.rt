// The lines of a history, as they come.

ghost use Rattle.std.specs.Prelude.{◌≡◌, ◌≢◌, ◌++◌, ◌∷◌, [], ℕ, ◌+◌, ◌≤◌, List, length, IfErr, IfOk};
ghost use Rattle.std.specs.Prelude.{OnOk, Ok, Err, IfNone, IfSome, Some, None, false, true};
ghost use Rattle.std.specs.Io.KnownBytes.{Consumes, IsAtEnd};
ghost use Rattle.history.specs.declared.entry.Entry.{Entry};
ghost use Rattle.action_tables.specs.Cuts.{HasNo};
ghost use Rattle.history.specs.HistoryText.{IsReadAs, IsReadWhole, ended};

use crate::book::MAX_ENTRIES;
use crate::entry::Entry;
use crate::read::{BookText, Header, read_entry, read_first_line};
use crate::text::BookFault;
use memchr::memchr;
use std::alloc::{AllocError, Global};
use std::io::Read;

/// The most bytes that are asked of a reader at once.
pub const CHUNK: usize = 4096;

/// The most bytes of a line, without its line feed, of a history as of a script. The line of each event has fewer,
/// and of a line without an end no more is kept.
pub const MAX_LINE: usize = 256;

// What was read: whole lines, and the beginning of a line that goes on.
#[derive(Drop)]
pub struct Reading {
    lines: Lines,
    line: Vec<u8>,
}

// Whole lines of a history: what the first one says, once it was read, how many entries there were, and those that
// are kept.
#[derive(Drop)]
struct Lines {
    header: Option<Header>,
    count: usize,
    entries: Vec<Entry>,
    ghost few: { count ≤ 1000000 },
}

impl Reading {
    ghost use Rattle.history.specs.Reading.{HasRead, IsFaulty};

    // Nothing was read.
    pub fn new(alloc: Global) -> Reading
        ensures read { HasRead result [] [] }
        ensures none { result.lines.entries.items ≡ [] }
    {
        Reading {
            lines: Lines {
                header: None,
                count: 0,
                entries: Vec::new(alloc),
            },
            line: Vec::new(alloc),
        }
    }

    // Reads what the reader gives at once, and returns whether it gave anything. The room for it is the caller's, so
    // that it is made once.
    #[inline(always)]
    pub fn read_on<R: Read>(
        &mut self,
        alloc: Global,
        reader: &mut R,
        room: &mut [u8; CHUNK],
    ) -> Result<bool, BookFault>
        ensures ok { IfOk result (λ more. (given : List ℕ) × (more ≡ true → given ≢ [])
            × Consumes (R.remaining reader.old) (R.remaining reader.new) given
            × ((before : List Entry) (text : List ℕ) → HasRead self.old before text
            → HasRead self.new before (text ++ given))) }
        ensures end { result ≡ Ok false → IsAtEnd (R.remaining reader.new) × (self.new ≡ self.old) }
        ensures err { IfErr result (λ f. f ≢ BookFault.NoMemory → f ≢ BookFault.ReadFailed
            → (rest : List ℕ) × IsReadWhole (R.remaining reader.old) rest
            × ((before : List Entry) (text : List ℕ) → HasRead self.old before text
            → IsReadAs (text ++ rest) (Err f))) }
    {
        let Ok(count) = reader.read(room) else {
            return Err(BookFault::ReadFailed);
        };
        if count == 0 {
            return Ok(false);
        }
        self.feed(alloc, &room[..count])?;
        Ok(true)
    }

    // Reads on.
    fn feed(&mut self, alloc: Global, bytes: &[u8]) -> Result<(), BookFault>
        ensures ok { OnOk result ((before : List Entry) (text : List ℕ) → HasRead self.old before text
            → HasRead self.new before (text ++ bytes.now)) }
        ensures err { IfErr result (λ f. f ≢ BookFault.NoMemory
            → (before : List Entry) (text : List ℕ) → HasRead self.old before text → IsFaulty (text ++ bytes.now) f) }
        ensures device { IfErr result (λ f. f ≢ BookFault.ReadFailed) }
    {
        let mut rest = bytes;
        while let Some((line, after)) = cut_line(rest) {
            self.end_line(alloc, line)?;
            rest = after;
        }
        self.go_on(rest)
    }

    // The line ends with these bytes and a line feed. A line that came in one piece isn't copied.
    fn end_line(&mut self, alloc: Global, bytes: &[u8]) -> Result<(), BookFault>
        ensures ok { OnOk result
            ((before : List Entry) (text : List ℕ) → HasNo 10 bytes.now → HasRead self.old before text
            → HasRead self.new before (text ++ ended bytes.now)) }
        ensures err { IfErr result
            (λ f. f ≢ BookFault.NoMemory
            → (before : List Entry) (text : List ℕ) → HasNo 10 bytes.now → HasRead self.old before text
            → IsFaulty (text ++ ended bytes.now) f) }
        ensures device { IfErr result (λ f. f ≢ BookFault.ReadFailed) }
    {
        if self.line.is_empty() {
            return self.lines.take(alloc, bytes);
        }
        self.go_on(bytes)?;
        self.lines.take(alloc, &self.line)?;
        self.line.clear();
        Ok(())
    }

    // The line goes on with these bytes.
    fn go_on(&mut self, bytes: &[u8]) -> Result<(), BookFault>
        ensures ok { OnOk result
            ((before : List Entry) (text : List ℕ) → HasNo 10 bytes.now → HasRead self.old before text
            → HasRead self.new before (text ++ bytes.now)) }
        ensures lines { self.new.lines ≡ self.old.lines }
        ensures err { IfErr result
            (λ f. f ≢ BookFault.NoMemory
            → (before : List Entry) (text : List ℕ) → HasNo 10 bytes.now → HasRead self.old before text
            → IsFaulty (text ++ bytes.now) f) }
        ensures device { IfErr result (λ f. f ≢ BookFault.ReadFailed) }
    {
        if bytes.len() + self.line.len() > MAX_LINE {
            return Err(self.lines.bad_line());
        }
        match self.line.extend_from_slice(bytes) {
            Ok(()) => Ok(()),
            Err(_) => Err(BookFault::NoMemory),
        }
    }

    // The modulus of the text that ends here.
    pub fn end(&self) -> Result<u64, BookFault>
        ensures ok { IfOk result (λ modulus. (before : List Entry) (text : List ℕ) → HasRead self.now before text
            → IsReadAs text (Ok (modulus, before ++ self.now.lines.entries.items))) }
        ensures err { IfErr result (λ f. (before : List Entry) (text : List ℕ) → HasRead self.now before text
            → IsReadAs text (Err f)) }
    {
        if !self.line.is_empty() {
            return Err(self.lines.bad_line());
        }
        match self.lines.header {
            Some(header) => Ok(header.modulus),
            None => Err(self.lines.bad_line()),
        }
    }

    // The entries that are kept.
    pub fn entries(&self) -> &[Entry]
        ensures { result.now ≡ self.now.lines.entries.items }
    {
        &self.lines.entries
    }

    // Keeps them no longer.
    pub fn forget(&mut self)
        ensures none { self.new.lines.entries.items ≡ [] }
        ensures read { (before : List Entry) (text : List ℕ) → HasRead self.old before text
            → HasRead self.new (before ++ self.old.lines.entries.items) text }
    {
        self.lines.entries.clear();
    }

    // What the text says that ends here, of which all entries are kept.
    pub fn into_book(self) -> Result<BookText, BookFault>
        ensures ok { IfOk result (λ book. (text : List ℕ) → HasRead self [] text
            → IsReadAs text (Ok (book.modulus, book.entries.items))) }
        ensures err { IfErr result (λ f. (text : List ℕ) → HasRead self [] text → IsReadAs text (Err f)) }
    {
        match self.end() {
            Ok(modulus) => Ok(BookText {
                modulus,
                entries: self.lines.entries,
            }),
            Err(fault) => Err(fault),
        }
    }
}

impl Lines {
    ghost use Rattle.history.specs.Reading.{GoesOn, IsFaulty, next_line};

    // Takes the next line, without its line feed.
    #[inline(always)]
    fn take(&mut self, alloc: Global, line: &[u8]) -> Result<(), BookFault>
        ensures ok { OnOk result ((before : List Entry) (text : List ℕ) → GoesOn self.old before [] text
            → GoesOn self.new before [] (text ++ ended line.now)) }
        ensures err { IfErr result
            (λ f. f ≢ BookFault.NoMemory
            → (before : List Entry) (text : List ℕ) → HasNo 10 line.now → GoesOn self.old before [] text
            → IsFaulty (text ++ ended line.now) f) }
        ensures device { IfErr result (λ f. f ≢ BookFault.ReadFailed) }
    {
        match self.header {
            Some(header) => self.take_entry(alloc, header, line),
            None => self.take_first(line),
        }
    }

    // Takes the first line.
    fn take_first(&mut self, line: &[u8]) -> Result<(), BookFault>
        requires { self.old.header ≡ None }
        ensures ok { OnOk result ((before : List Entry) (text : List ℕ) → GoesOn self.old before [] text
            → GoesOn self.new before [] (text ++ ended line.now)) }
        ensures err { IfErr result
            (λ f. f ≢ BookFault.NoMemory
            → (before : List Entry) (text : List ℕ) → HasNo 10 line.now → GoesOn self.old before [] text
            → IsFaulty (text ++ ended line.now) f) }
        ensures device { IfErr result (λ f. f ≢ BookFault.ReadFailed) }
    {
        self.header = Some(read_first_line(line)?);
        Ok(())
    }

    // Takes a line after the first one, which said this.
    #[inline(always)]
    fn take_entry(&mut self, alloc: Global, header: Header, line: &[u8]) -> Result<(), BookFault>
        requires { self.old.header ≡ Some header }
        ensures ok { OnOk result ((before : List Entry) (text : List ℕ) → GoesOn self.old before [] text
            → GoesOn self.new before [] (text ++ ended line.now)) }
        ensures err { IfErr result
            (λ f. f ≢ BookFault.NoMemory
            → (before : List Entry) (text : List ℕ) → HasNo 10 line.now → GoesOn self.old before [] text
            → IsFaulty (text ++ ended line.now) f) }
        ensures device { IfErr result (λ f. f ≢ BookFault.ReadFailed) }
    {
        let entry = match read_entry(alloc, header.version, line) {
            Ok(Some(entry)) => entry,
            Ok(None) => return Err(self.bad_line()),
            Err(AllocError) => return Err(BookFault::NoMemory),
        };
        if self.count == MAX_ENTRIES {
            return Err(BookFault::TooLong);
        }
        match self.entries.push(entry) {
            Ok(()) => {
                self.count += 1;
                Ok(())
            }
            Err(_) => Err(BookFault::NoMemory),
        }
    }

    // That the next line is bad.
    fn bad_line(&self) -> BookFault
        ensures { result ≡ BookFault.BadLine (next_line self.now.header self.now.count) }
    {
        match self.header {
            Some(_) => BookFault::BadLine(self.count + 2),
            None => BookFault::BadLine(1),
        }
    }
}

// The first line of some bytes and what follows its line feed, or `None` where they have no line feed.
fn cut_line(bytes: &[u8]) -> Option<(&[u8], &[u8])>
    ensures found { IfSome result (λ parts. bytes.now ≡ parts.0.now ++ 10 ∷ parts.1.now) }
    ensures first { IfSome result (λ parts. HasNo 10 parts.0.now) }
    ensures none { IfNone result (HasNo 10 bytes.now) }
{
    match memchr(b'\n', bytes) {
        Some(end) => Some((&bytes[..end], &bytes[end + 1..])),
        None => None,
    }
}
