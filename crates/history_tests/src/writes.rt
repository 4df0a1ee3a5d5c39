// Books and faults that are written to a writer of which a write goes wrong.

use crate::assert_equal;
use crate::line::{book_of_line, takes_all};
use app_interface::Idle;
use fault_inject::{read_fault, write_fault};
use history::{Book, MAX_ENTRIES, write_book};
use std::alloc::Global;
use std::process::Abort;
use test_devices::{FailingWriter, Fault};
use test_networks::WHOLE_RESET;

const RESET_HISTORY: &[u8] =
    b"reset-history 3 4294967296\nrequest 1\nrelay 2 1\nrelay 3 2\nopen 3\njoin 2\njoin 1\nfinish 1\nfinish 2\nfinish 3\n";

// A writer that takes at most three bytes at a write, of which this one goes wrong, or none.
fn writer(alloc: Global, stop: usize, fault: Fault) -> FailingWriter {
    FailingWriter::new(alloc, 3, stop, fault)
}

// The write that went wrong is the last, and a beginning of the text was written, without its end.
fn has_stopped(rt: &impl Abort, out: &FailingWriter, stop: usize, text: &[u8]) {
    assert_equal(rt, out.writes(), stop);
    assert!(rt; text.starts_with(out.taken()) && out.taken().len() < text.len());
}

// Each write of the book goes wrong in turn, up to the one after the last.
fn book_stops(rt: &impl Abort, alloc: Global, book: &Book<Idle>, fault: Fault) {
    let mut whole = writer(alloc, 0, fault);
    assert!(rt; write_book(book, &mut whole).is_ok());
    assert_equal(rt, whole.taken(), RESET_HISTORY);
    assert!(rt; whole.writes() >= RESET_HISTORY.len() / 3);
    for stop in 1..=whole.writes() {
        let mut out = writer(alloc, stop, fault);
        assert!(rt; write_book(book, &mut out).is_err());
        has_stopped(rt, &out, stop, RESET_HISTORY);
    }
}

#[test]
fn a_book_stops_at_each_failed_write(rt: HostRuntime) {
    let mut book = book_of_line(&rt, rt.alloc(), MAX_ENTRIES);
    takes_all(&rt, rt.alloc(), &mut book, &WHOLE_RESET);
    for fault in [Fault::Error, Fault::Zero] {
        book_stops(&rt, rt.alloc(), &book, fault);
    }
    drop(book);
}

// The same of the fault with this line.
fn fault_stops(rt: &impl Abort, alloc: Global, line: &[u8], fault: Fault) {
    let Ok(Some(read)) = read_fault(alloc, line) else {
        panic!(rt; "the line of a fault");
    };
    let mut whole = writer(alloc, 0, fault);
    assert!(rt; write_fault(&read, &mut whole).is_ok());
    assert_equal(rt, whole.taken(), line);
    assert!(rt; whole.writes() >= line.len() / 3);
    for stop in 1..=whole.writes() {
        let mut out = writer(alloc, stop, fault);
        assert!(rt; write_fault(&read, &mut out).is_err());
        has_stopped(rt, &out, stop, line);
    }
}

#[test]
fn a_fault_stops_at_each_failed_write(rt: HostRuntime) {
    for line in [
        b"fault tree 1 3 2 4294967295".as_slice(),
        b"fault wave 3 initiate 4294967295",
        b"fault local 2 hold/1,3/-",
        b"fault down 1 65535",
        b"fault up 30 7",
        b"fault off 3",
        b"fault on 3",
    ] {
        fault_stops(&rt, rt.alloc(), line, Fault::Error);
        fault_stops(&rt, rt.alloc(), line, Fault::Zero);
    }
}
