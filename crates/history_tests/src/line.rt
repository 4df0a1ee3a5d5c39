// The line of the nodes 1, 2, 3 and a node alone, booted, and their books.

use crate::assert_equal;
use app_interface::Idle;
use fault_inject::Fault;
use history::{Book, DisturbRefusal, Entry, MAX_ENTRIES, Receipt};
use reset_machine::{Config, Event, Reply};
use std::alloc::Global;
use std::process::Abort;
use test_networks::{booted, line_modulo};
use tree_layer::TreeRegs;
use wave_layer::{Modulus, WaveRegs};

pub(crate) fn line(rt: &impl Abort, alloc: Global) -> Config<Idle> {
    test_networks::line(alloc).expect(rt, "the line")
}

// The same line, of which sessions are counted modulo this number.
pub(crate) fn line_counting(rt: &impl Abort, alloc: Global, modulus: u64) -> Config<Idle> {
    let modulus = Modulus::new(modulus).expect(rt, "a modulus");
    line_modulo(alloc, modulus).expect(rt, "the line")
}

// The node 7 without links.
pub(crate) fn single(rt: &impl Abort, alloc: Global) -> Config<Idle> {
    booted(alloc, &[7], &[]).expect(rt, "a node")
}

// The book of the line that has room for so many entries.
pub(crate) fn book_of_line(rt: &impl Abort, alloc: Global, limit: usize) -> Book<Idle> {
    assert!(rt; limit <= MAX_ENTRIES);
    Book::open_book(alloc, line(rt, alloc), limit)
}

// The receipt of an event that is applied, as the entry at this position.
pub(crate) fn applied(position: usize, event: Event) -> Receipt {
    Receipt {
        position,
        event,
        reply: Reply::Applied,
    }
}

// Does the events, none of which is refused.
pub(crate) fn takes_all(rt: &impl Abort, alloc: Global, book: &mut Book<Idle>, events: &[Event]) {
    for event in events {
        assert!(rt; book.step(alloc, *event).is_ok(), "{event:?}");
    }
}

// The book answers this to the fault.
pub(crate) fn disturbs(
    rt: &impl Abort,
    alloc: Global,
    book: &mut Book<Idle>,
    fault: Fault,
    answer: Result<usize, (DisturbRefusal, Fault)>,
) {
    assert!(rt; book.disturb(alloc, fault) == answer);
}

// The configuration of the book at this position.
pub(crate) fn config_of(
    rt: &impl Abort,
    alloc: Global,
    book: &Book<Idle>,
    position: usize,
) -> Config<Idle> {
    match book.config_at(alloc, position) {
        Ok(config) => config,
        Err(_) => panic!(rt; "a configuration"),
    }
}

// The node has these tree registers, or none where it is down.
pub(crate) fn has_tree(rt: &impl Abort, config: &Config<Idle>, id: u32, wanted: Option<TreeRegs>) {
    assert!(rt; config.tree_at(id) == wanted, "node {id}");
}

// The node has these wave registers, or none where it is down.
pub(crate) fn has_wave(rt: &impl Abort, config: &Config<Idle>, id: u32, wanted: Option<WaveRegs>) {
    assert!(rt; config.wave_at(id) == wanted, "node {id}");
}

// This is the newest session of the node's component, if it is up.
pub(crate) fn has_newest(rt: &impl Abort, config: &Config<Idle>, id: u32, wanted: Option<u32>) {
    assert_eq!(rt; config.newest_session(id), wanted, "node {id}");
}

// What the leader of node 3 had as its session at this position of the book.
pub(crate) fn had_newest_at(
    rt: &impl Abort,
    alloc: Global,
    book: &Book<Idle>,
    position: usize,
    wanted: Option<u32>,
) {
    let config = config_of(rt, alloc, book, position);
    has_newest(rt, &config, 3, wanted);
    drop(config);
}

// The book has this entry at this position.
pub(crate) fn has_entry(rt: &impl Abort, book: &Book<Idle>, position: usize, entry: &Entry) {
    assert!(rt; book.entry(position) == Some(entry), "entry {position}");
}
