// The texts of histories.

use crate::assert_equal;
use crate::histories::{is_history, report};
use crate::line::{book_of_line, line, line_counting, takes_all};
use app_interface::Idle;
use fault_inject::Fault;
use history::{
    Book, BookFault, BookText, Entry, MAX_ENTRIES, ReaderFault, Summary, VerifyFault, read_book,
    verify_reader, write_book,
};
use reset_machine::{Config, Event};
use std::alloc::Global;
use std::io;
use std::io::Read;
use std::process::Abort;
use std::test::Fail;
use test_devices::{Endless, FailingReader};
use test_networks::WHOLE_RESET;

// The history of one whole reset of the line.
const RESET_HISTORY: &[u8] = b"reset-history 3 4294967296
request 1
relay 2 1
relay 3 2
open 3
join 2
join 1
finish 1
finish 2
finish 3
";

// Entries of which the first is refused after the boot.
const JOINS: &[u8] =
    b"join 1\njoin 1\njoin 1\njoin 1\njoin 1\njoin 1\njoin 1\njoin 1\njoin 1\njoin 1\njoin 1\n";

// Gives the first line of a history, and then these entries for ever.
#[derive(Drop)]
struct Joins {
    begun: bool,
}

impl Read for Joins {
    fn read(&mut self, buf: &mut [u8]) -> io::Result<usize> {
        let text = if self.begun {
            JOINS
        } else {
            b"reset-history 1\n".as_slice()
        };
        self.begun = true;
        let count = buf.len().min(text.len());
        buf[..count].copy_from_slice(&text[..count]);
        Ok(count)
    }
}

// What the reader gives is no history, and why.
fn is_no_history<R: Read>(rt: &impl Abort, alloc: Global, reader: &mut R, why: BookFault) {
    match read_book(alloc, reader) {
        Ok(_) => panic!(rt; "no history"),
        Err(fault) => assert_equal(rt, fault, why),
    }
}

// The same of a text.
fn is_bad(rt: &impl Abort, alloc: Global, text: &[u8], why: BookFault) {
    let mut rest = text;
    is_no_history(rt, alloc, &mut rest, why);
}

// What a history is read as.
fn read(rt: &impl Abort, alloc: Global, text: &[u8]) -> BookText {
    let mut rest = text;
    match read_book(alloc, &mut rest) {
        Ok(text) => text,
        Err(_) => panic!(rt; "a history"),
    }
}

// The text of the book.
fn written(rt: &impl Abort, alloc: Global, book: &Book<Idle>) -> Vec<u8> {
    let mut text = Vec::new(alloc);
    assert!(rt; write_book(book, &mut text).is_ok());
    text
}

#[test]
fn a_book_is_written_and_read(rt: HostRuntime) {
    let mut book = book_of_line(&rt, rt.alloc(), MAX_ENTRIES);
    takes_all(&rt, rt.alloc(), &mut book, &WHOLE_RESET);
    let text = written(&rt, rt.alloc(), &book);
    assert!(rt; text.as_slice() == RESET_HISTORY);
    let read = read(&rt, rt.alloc(), &text);
    assert_equal(&rt, read.modulus, 4_294_967_296);
    let opening = line(&rt, rt.alloc());
    is_history(&rt, rt.alloc(), opening, &read.entries, &[report(1, 4, 9)]);
    drop(book);
}

#[test]
fn a_book_is_written_with_its_modulus(rt: HostRuntime) {
    let config = line_counting(&rt, rt.alloc(), 8);
    let mut book = Book::open_book(rt.alloc(), config, MAX_ENTRIES);
    takes_all(&rt, rt.alloc(), &mut book, &[Event::Request { at: 1 }]);
    let text = written(&rt, rt.alloc(), &book);
    assert_equal(
        &rt,
        text.as_slice(),
        b"reset-history 3 8\nrequest 1\n".as_slice(),
    );
    drop(book);
}

// The text is a history of this modulus with these entries.
fn is_read_as(rt: &impl Abort, alloc: Global, text: &[u8], modulus: u64, entries: &[Entry]) {
    let read = read(rt, alloc, text);
    assert_equal(rt, read.modulus, modulus);
    assert!(rt; read.entries.as_slice() == entries);
}

#[test]
fn each_version_is_read(rt: HostRuntime) {
    let request = [Entry::Step(Event::Request { at: 1 })];
    for (text, modulus) in [
        (b"reset-history 1\nrequest 1\n".as_slice(), 4_294_967_296),
        (b"reset-history 2 2\nrequest 1\n".as_slice(), 2),
        (
            b"reset-history 2 4294967295\nrequest 1\n".as_slice(),
            4_294_967_295,
        ),
        (
            b"reset-history 2 4294967296\nrequest 1\n".as_slice(),
            4_294_967_296,
        ),
        (b"reset-history 3 2\nrequest 1\n".as_slice(), 2),
        (
            b"reset-history 3 4294967295\nrequest 1\n".as_slice(),
            4_294_967_295,
        ),
        (
            b"reset-history 3 4294967296\nrequest 1\n".as_slice(),
            4_294_967_296,
        ),
    ] {
        is_read_as(&rt, rt.alloc(), text, modulus, &request);
    }
}

#[test]
fn names_a_bad_first_line(rt: HostRuntime) {
    for text in [
        // Version 2 without a modulus, or with none from 2 to 4294967296.
        b"reset-history 2\n".as_slice(),
        b"reset-history 2 \n",
        b"reset-history 2 0\n",
        b"reset-history 2 1\n",
        b"reset-history 2 4294967297\n",
        b"reset-history 2 08\n",
        b"reset-history 2 eight\n",
        // So version 3.
        b"reset-history 3\n",
        b"reset-history 3 \n",
        b"reset-history 3 1\n",
        b"reset-history 3 4294967297\n",
        b"reset-history 3 08\n",
        // Another number than the version's.
        b"reset-history 2 8 8\n",
        b"reset-history 3 8 8\n",
        b"reset-history 1 8\n",
        b"reset-history 1 4294967296\n",
        b"reset-history 4 8\n",
        b"reset-history 9 8\n",
        b"reset-history 02 8\n",
        b"reset-history 03 8\n",
        // No line feed.
        b"reset-history 2 8",
        b"reset-history 3 8",
    ] {
        is_bad(&rt, rt.alloc(), text, BookFault::BadLine(1));
    }
}

#[test]
fn names_another_version(rt: HostRuntime) {
    for text in [
        b"reset-history 0\n".as_slice(),
        b"reset-history 4\n",
        b"reset-history 4294967295\n",
    ] {
        is_bad(&rt, rt.alloc(), text, BookFault::BadVersion);
    }
}

#[test]
fn names_the_first_bad_line(rt: HostRuntime) {
    for text in [
        b"".as_slice(),
        b"reset-history 1",
        b"reset-history 01\n",
        b"reset-histor 2\n",
    ] {
        is_bad(&rt, rt.alloc(), text, BookFault::BadLine(1));
    }
    for text in [
        b"reset-history 1\nrequest 01\n".as_slice(),
        b"reset-history 1\n\nrequest 1\n",
        b"reset-history 1\n# note\n",
        b"reset-history 1\nact 3 pass 2\n",
        b"reset-history 1\nshow\n",
        b"reset-history 1\nfault local 1 \x07\n",
    ] {
        is_bad(&rt, rt.alloc(), text, BookFault::BadLine(2));
    }
    let cut = b"reset-history 1\nrequest 1\nrela".as_slice();
    is_bad(&rt, rt.alloc(), cut, BookFault::BadLine(3));
    let other = b"reset-history 9\n".as_slice();
    is_bad(&rt, rt.alloc(), other, BookFault::BadVersion);
}

#[test]
fn faults_of_nodes_come_with_version_3(rt: HostRuntime) {
    for text in [
        b"reset-history 1\nfault off 3\n".as_slice(),
        b"reset-history 1\nfault on 3\n",
        b"reset-history 2 8\nfault off 3\n",
        b"reset-history 2 8\nfault on 3\n",
        // The line of no fault in any version.
        b"reset-history 3 8\nfault off\n",
        b"reset-history 3 8\nfault off 03\n",
        b"reset-history 3 8\nfault on 3 \n",
        b"reset-history 3 8\nfault on 4294967296\n",
    ] {
        is_bad(&rt, rt.alloc(), text, BookFault::BadLine(2));
    }
    let later = b"reset-history 2 8\nfault down 1 2\nrequest 1\nfault off 3\n".as_slice();
    is_bad(&rt, rt.alloc(), later, BookFault::BadLine(4));
}

#[test]
fn version_3_has_faults_of_nodes(rt: HostRuntime) {
    let off = Entry::Disturbed(Fault::NodeDown { at: 3 });
    let on = Entry::Disturbed(Fault::NodeUp { at: 4_294_967_295 });
    let text = b"reset-history 3 8\nfault off 3\nfault on 4294967295\n".as_slice();
    is_read_as(&rt, rt.alloc(), text, 8, &[off, on]);
}

// The entries are these steps.
fn are_steps(entries: &[Entry], steps: &[Event]) -> bool {
    for (entry, event) in entries.iter().zip(steps) {
        if *entry != Entry::Step(*event) {
            return false;
        }
    }
    entries.len() == steps.len()
}

#[test]
fn reads_piece_by_piece(rt: HostRuntime) {
    let mut pieces = FailingReader::new(RESET_HISTORY, 0);
    match read_book(rt.alloc(), &mut pieces) {
        Ok(text) => assert!(rt; are_steps(&text.entries, &WHOLE_RESET)),
        Err(_) => panic!(rt; "a history"),
    }
    is_no_history(&rt, rt.alloc(), &mut Endless, BookFault::BadLine(1));
}

// Its entries have no end.
#[test]
fn too_many_entries_are_not_read(rt: HostRuntime) {
    let mut joins = Joins { begun: false };
    is_no_history(&rt, rt.alloc(), &mut joins, BookFault::TooLong);
}

#[test]
fn each_failed_read_is_told(rt: HostRuntime) {
    for stop in 1..=16 {
        let mut failing = FailingReader::new(RESET_HISTORY, stop);
        is_no_history(&rt, rt.alloc(), &mut failing, BookFault::ReadFailed);
        assert_equal(&rt, failing.reads(), stop);
    }
}

// How many entries and reports the text of a history has from the opening on, or why it is none there.
fn verdict_from<R: Read>(
    alloc: Global,
    opening: Config<Idle>,
    reader: &mut R,
) -> Result<(usize, usize), ReaderFault> {
    let summary = verify_reader(alloc, opening, reader)?;
    Ok((summary.entries, summary.reports.len()))
}

// The same of the line.
fn verdict<R: Read>(
    rt: &impl Abort,
    alloc: Global,
    reader: &mut R,
) -> Result<(usize, usize), ReaderFault> {
    verdict_from(alloc, line(rt, alloc), reader)
}

// The same of the line of which sessions are counted modulo 8.
fn verdict_modulo_8<R: Read>(
    rt: &impl Abort,
    alloc: Global,
    reader: &mut R,
) -> Result<(usize, usize), ReaderFault> {
    verdict_from(alloc, line_counting(rt, alloc, 8), reader)
}

#[test]
fn verifies_what_a_reader_gives(rt: HostRuntime) {
    for (text, told) in [
        (RESET_HISTORY, (9, 1)),
        (b"reset-history 1\n".as_slice(), (0, 0)),
        (b"reset-history 1\nrequest 1\nrelay 2 1\n", (2, 0)),
    ] {
        let mut rest = text;
        assert_equal(&rt, verdict(&rt, rt.alloc(), &mut rest), Ok(told));
    }
}

#[test]
fn tells_why_a_reader_gives_no_history(rt: HostRuntime) {
    let bad_line = ReaderFault::Text(BookFault::BadLine(3));
    let bad_version = ReaderFault::Text(BookFault::BadVersion);
    let refused = ReaderFault::Entries(VerifyFault::NotEnabledAt(3));
    for (text, told) in [
        (b"reset-history 1\nrequest 1\nrela".as_slice(), bad_line),
        (b"reset-history 9\n", bad_version),
        (b"reset-history 1\nrequest 3\nopen 3\njoin 1\n", refused),
        // A bad line comes before an entry that isn't allowed, wherever the two stand.
        (b"reset-history 1\njoin 1\nrequest 01\n", bad_line),
    ] {
        let mut rest = text;
        assert_equal(&rt, verdict(&rt, rt.alloc(), &mut rest), Err(told));
    }
}

#[test]
fn verifies_a_history_of_its_modulus(rt: HostRuntime) {
    let mut eight = b"reset-history 2 8\nrequest 1\nrelay 2 1\n".as_slice();
    assert_equal(
        &rt,
        verdict_modulo_8(&rt, rt.alloc(), &mut eight),
        Ok((2, 0)),
    );
    let mut third = b"reset-history 3 8\nrequest 1\nrelay 2 1\n".as_slice();
    assert_equal(
        &rt,
        verdict_modulo_8(&rt, rt.alloc(), &mut third),
        Ok((2, 0)),
    );
    let mut first = b"reset-history 1\nrequest 1\nrelay 2 1\n".as_slice();
    assert_equal(&rt, verdict(&rt, rt.alloc(), &mut first), Ok((2, 0)));
}

#[test]
fn another_modulus_is_told(rt: HostRuntime) {
    for (text, modulus) in [
        (b"reset-history 1\nrequest 1\n".as_slice(), 4_294_967_296),
        (b"reset-history 2 2\nrequest 1\n".as_slice(), 2),
        (b"reset-history 2 9\n".as_slice(), 9),
        (b"reset-history 3 9\n".as_slice(), 9),
        // It comes before an entry that isn't allowed.
        (b"reset-history 1\njoin 1\n".as_slice(), 4_294_967_296),
    ] {
        let mut rest = text;
        let other = Err(ReaderFault::OtherModulus(modulus));
        assert_equal(&rt, verdict_modulo_8(&rt, rt.alloc(), &mut rest), other);
    }
}

#[test]
fn faults_of_the_text_come_before_another_modulus(rt: HostRuntime) {
    let bad = b"reset-history 1\nrequest 1\nrelay 2 1\nrequest 01\n".as_slice();
    let mut pieces = FailingReader::new(bad, 0);
    let bad_line = Err(ReaderFault::Text(BookFault::BadLine(4)));
    assert_equal(
        &rt,
        verdict_modulo_8(&rt, rt.alloc(), &mut pieces),
        bad_line,
    );
    // The modulus is read by the third read.
    let mut failing = FailingReader::new(bad, 4);
    let failed = Err(ReaderFault::Text(BookFault::ReadFailed));
    assert_equal(&rt, verdict_modulo_8(&rt, rt.alloc(), &mut failing), failed);
    let too_long = Err(ReaderFault::Text(BookFault::TooLong));
    let mut joins = Joins { begun: false };
    assert_equal(&rt, verdict_modulo_8(&rt, rt.alloc(), &mut joins), too_long);
}

#[test]
fn each_failed_read_of_a_verification_is_told(rt: HostRuntime) {
    for stop in 1..=16 {
        let mut failing = FailingReader::new(RESET_HISTORY, stop);
        let failed = Err(ReaderFault::Text(BookFault::ReadFailed));
        assert_equal(&rt, verdict(&rt, rt.alloc(), &mut failing), failed);
        assert_equal(&rt, failing.reads(), stop);
    }
}

// The same, of a text that comes piece by piece.
fn verdict_of_pieces(
    rt: &impl Abort,
    alloc: Global,
    text: &[u8],
    stop: usize,
) -> Result<(usize, usize), ReaderFault> {
    let mut pieces = FailingReader::new(text, stop);
    verdict(rt, alloc, &mut pieces)
}

#[test]
fn verifies_piece_by_piece(rt: HostRuntime) {
    let whole = verdict_of_pieces(&rt, rt.alloc(), RESET_HISTORY, 0);
    assert_equal(&rt, whole, Ok((9, 1)));
    let early = b"reset-history 1\nrequest 3\nopen 3\njoin 1\njoin 1\n".as_slice();
    let refused = Err(ReaderFault::Entries(VerifyFault::NotEnabledAt(3)));
    assert_equal(&rt, verdict_of_pieces(&rt, rt.alloc(), early, 0), refused);
}

#[test]
fn faults_of_the_text_come_before_a_refused_entry(rt: HostRuntime) {
    let bad = b"reset-history 1\njoin 1\nrequest 1\nrequest 01\n".as_slice();
    let bad_line = Err(ReaderFault::Text(BookFault::BadLine(4)));
    assert_equal(&rt, verdict_of_pieces(&rt, rt.alloc(), bad, 0), bad_line);
    let cut = b"reset-history 1\njoin 1\nrequest 1\nrequest 1".as_slice();
    assert_equal(&rt, verdict_of_pieces(&rt, rt.alloc(), cut, 0), bad_line);
    // The entry is read by the fourth read, and refused.
    let failed = Err(ReaderFault::Text(BookFault::ReadFailed));
    assert_equal(&rt, verdict_of_pieces(&rt, rt.alloc(), bad, 5), failed);
}

#[test]
fn too_many_entries_are_told_before_a_refused_one(rt: HostRuntime) {
    let too_long = Err(ReaderFault::Text(BookFault::TooLong));
    assert_equal(
        &rt,
        verdict(&rt, rt.alloc(), &mut Joins { begun: false }),
        too_long,
    );
}
