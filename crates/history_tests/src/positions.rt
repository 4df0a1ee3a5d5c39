// The configurations that books had.

use crate::assert_equal;
use crate::line::{
    book_of_line, config_of, had_newest_at, has_entry, has_newest, has_wave, single, takes_all,
};
use app_interface::Idle;
use history::{AtFault, Book, Entry, MAX_ENTRIES, read_book, write_book};
use reset_machine::{Config, Event};
use std::alloc::Global;
use std::process::Abort;
use test_networks::WHOLE_RESET;
use wave_layer::{Phase, WaveRegs};

// Node 3 has opened session 1.
fn has_opened(rt: &impl Abort, config: &Config<Idle>) {
    has_newest(rt, config, 3, Some(1));
    let regs = WaveRegs {
        phase: Phase::Reset,
        session: 1,
    };
    has_wave(rt, config, 3, Some(regs));
}

// The configuration at the book's last position is the book's own.
fn ends_with_its_own(rt: &impl Abort, alloc: Global, book: &Book<Idle>) {
    let last = config_of(rt, alloc, book, book.len());
    assert!(rt; last.trees() == book.config().trees());
    assert!(rt; last.waves() == book.config().waves());
    drop(last);
}

fn has_no_position(rt: &impl Abort, alloc: Global, book: &Book<Idle>, position: usize) {
    match book.config_at(alloc, position) {
        Ok(_) => panic!(rt; "a position past the last"),
        Err(fault) => assert_equal(rt, fault, AtFault::NoPosition),
    }
}

fn had_opened_at(rt: &impl Abort, alloc: Global, book: &Book<Idle>, position: usize) {
    let config = config_of(rt, alloc, book, position);
    has_opened(rt, &config);
    drop(config);
}

#[test]
fn config_at(rt: HostRuntime) {
    let mut book = book_of_line(&rt, rt.alloc(), MAX_ENTRIES);
    takes_all(&rt, rt.alloc(), &mut book, &WHOLE_RESET);
    assert_equal(&rt, book.len(), 9);
    had_newest_at(&rt, rt.alloc(), &book, 0, Some(0));
    had_opened_at(&rt, rt.alloc(), &book, 4);
    ends_with_its_own(&rt, rt.alloc(), &book);
    has_no_position(&rt, rt.alloc(), &book, 10);
    drop(book);
}

// The book of the node 7, which reset itself 342 times: 1,026 entries.
fn resets_of_one(rt: &impl Abort, alloc: Global) -> Book<Idle> {
    let mut book = Book::open_book(alloc, single(rt, alloc), MAX_ENTRIES);
    let reset = [
        Event::Request { at: 7 },
        Event::Open { at: 7 },
        Event::Finish { at: 7 },
    ];
    for _ in 0..342 {
        takes_all(rt, alloc, &mut book, &reset);
    }
    book
}

#[test]
fn segment_border(rt: HostRuntime) {
    let book = resets_of_one(&rt, rt.alloc());
    has_entry(&rt, &book, 1024, &Entry::Step(Event::Request { at: 7 }));
    has_entry(&rt, &book, 1025, &Entry::Step(Event::Open { at: 7 }));
    let regs = WaveRegs {
        phase: Phase::Initiate,
        session: 341,
    };
    let config = config_of(&rt, rt.alloc(), &book, 1024);
    has_wave(&rt, &config, 7, Some(regs));
    assert_equal(&rt, book.reports().len(), 342);
    drop(config);
    drop(book);
}

// Does what the entry at this position says, if there is one.
fn plays(
    rt: &impl Abort,
    alloc: Global,
    book: &Book<Idle>,
    position: usize,
    config: &mut Config<Idle>,
) {
    if let Some(Entry::Step(event)) = book.entry(position) {
        assert!(rt; config.step(alloc, *event).is_ok());
    }
}

// The configuration of the book at this position has the registers of this one.
fn was(rt: &impl Abort, alloc: Global, book: &Book<Idle>, position: usize, config: &Config<Idle>) {
    let then = config_of(rt, alloc, book, position);
    assert!(rt; then.trees() == config.trees() && then.waves() == config.waves());
    drop(then);
}

#[test]
fn each_position_of_two_segments(rt: HostRuntime) {
    let book = resets_of_one(&rt, rt.alloc());
    let mut config = single(&rt, rt.alloc());
    for position in 0..=1026 {
        was(&rt, rt.alloc(), &book, position, &config);
        plays(&rt, rt.alloc(), &book, position + 1, &mut config);
    }
    has_no_position(&rt, rt.alloc(), &book, 1027);
    drop(book);
    drop(config);
}

// The entries are those of the book, from its first on.
fn are_those_of(book: &Book<Idle>, entries: &[Entry]) -> bool {
    for (index, entry) in entries.iter().enumerate() {
        if book.entry(index.saturating_add(1)) != Some(entry) {
            return false;
        }
    }
    true
}

#[test]
fn segments_are_written_in_turn(rt: HostRuntime) {
    let book = resets_of_one(&rt, rt.alloc());
    let mut text = Vec::new(rt.alloc());
    assert!(rt; write_book(&book, &mut text).is_ok());
    let mut rest = text.as_slice();
    match read_book(rt.alloc(), &mut rest) {
        Ok(text) => {
            assert_equal(&rt, text.entries.len(), 1026);
            assert!(rt; are_those_of(&book, &text.entries));
        }
        Err(_) => panic!(rt; "a history"),
    }
    drop(book);
}
