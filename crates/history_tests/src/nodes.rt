// Histories in which nodes go down and come up.

use crate::assert_equal;
use crate::histories::{is_history, is_refused_at, report, unopened};
use crate::line::{
    book_of_line, config_of, disturbs, had_newest_at, has_newest, has_tree, has_wave, line,
};
use app_interface::Idle;
use fault_inject::{Fault, FaultRefusal};
use history::{Book, DisturbRefusal, Entry, MAX_ENTRIES, verify_reader, write_book};
use reset_machine::{Config, Event};
use std::alloc::Global;
use std::process::Abort;
use tree_layer::TreeRegs;
use wave_layer::{Phase, WaveRegs};

// The book of the line in which node 3 went down and came up.
fn off_and_on(rt: &impl Abort, alloc: Global) -> Book<Idle> {
    let mut book = book_of_line(rt, alloc, MAX_ENTRIES);
    disturbs(rt, alloc, &mut book, Fault::NodeDown { at: 3 }, Ok(1));
    disturbs(rt, alloc, &mut book, Fault::NodeUp { at: 3 }, Ok(2));
    book
}

// Node 3 is down.
fn is_off(rt: &impl Abort, config: &Config<Idle>) {
    has_tree(rt, config, 3, None);
    has_wave(rt, config, 3, None);
    has_newest(rt, config, 3, None);
    has_newest(rt, config, 2, Some(0));
    assert_equal(rt, config.topology().len(), 3);
}

// Node 3 has come up as its own root, without links.
fn is_on(rt: &impl Abort, config: &Config<Idle>) {
    let root = TreeRegs {
        root: 3,
        father: 3,
        dist: 0,
    };
    let start = WaveRegs {
        phase: Phase::Normal,
        session: 0,
    };
    has_tree(rt, config, 3, Some(root));
    has_wave(rt, config, 3, Some(start));
}

fn was_off_at(rt: &impl Abort, alloc: Global, book: &Book<Idle>, position: usize) {
    let config = config_of(rt, alloc, book, position);
    is_off(rt, &config);
    drop(config);
}

fn was_on_at(rt: &impl Abort, alloc: Global, book: &Book<Idle>, position: usize) {
    let config = config_of(rt, alloc, book, position);
    is_on(rt, &config);
    assert!(rt; config.trees() == book.config().trees());
    drop(config);
}

#[test]
fn configurations_of_a_node_off_and_on(rt: HostRuntime) {
    let book = off_and_on(&rt, rt.alloc());
    had_newest_at(&rt, rt.alloc(), &book, 0, Some(0));
    was_off_at(&rt, rt.alloc(), &book, 1);
    was_on_at(&rt, rt.alloc(), &book, 2);
    drop(book);
}

#[test]
fn a_node_off_and_on_is_written_and_verified(rt: HostRuntime) {
    let book = off_and_on(&rt, rt.alloc());
    let mut text = Vec::new(rt.alloc());
    assert!(rt; write_book(&book, &mut text).is_ok());
    assert_equal(
        &rt,
        text.as_slice(),
        b"reset-history 3 4294967296\nfault off 3\nfault on 3\n".as_slice(),
    );
    let mut rest = text.as_slice();
    match verify_reader(rt.alloc(), line(&rt, rt.alloc()), &mut rest) {
        Ok(summary) => {
            assert_equal(&rt, summary.entries, 2);
            assert_equal(&rt, summary.reports.len(), 0);
        }
        Err(_) => panic!(rt; "a history of the line"),
    }
    drop(book);
}

#[test]
fn refuses_faults_of_nodes(rt: HostRuntime) {
    let mut book = book_of_line(&rt, rt.alloc(), 1);
    let on = || Fault::NodeUp { at: 3 };
    let off = || Fault::NodeDown { at: 3 };
    let up = (DisturbRefusal::Refused(FaultRefusal::NodeIsUp), on());
    disturbs(&rt, rt.alloc(), &mut book, on(), Err(up));
    disturbs(&rt, rt.alloc(), &mut book, off(), Ok(1));
    // A full book gives the refusals of the fault first.
    let strange = (DisturbRefusal::Refused(FaultRefusal::StrangeNode), off());
    disturbs(&rt, rt.alloc(), &mut book, off(), Err(strange));
    let full = (DisturbRefusal::BookFull, on());
    disturbs(&rt, rt.alloc(), &mut book, on(), Err(full));
    assert_equal(&rt, book.len(), 1);
    drop(book);
}

#[test]
fn a_node_that_is_down_does_nothing(rt: HostRuntime) {
    let entries = [
        Entry::Disturbed(Fault::NodeDown { at: 3 }),
        Entry::Step(Event::Request { at: 3 }),
    ];
    is_refused_at(&rt, rt.alloc(), line(&rt, rt.alloc()), &entries, 2);
}

// Node 3, the root, goes down: node 2 becomes the root of what is left, and the two reset themselves.
#[test]
fn reports_a_reset_without_a_node(rt: HostRuntime) {
    let entries = [
        Entry::Disturbed(Fault::NodeDown { at: 3 }),
        Entry::Step(Event::Claim { at: 2 }),
        Entry::Step(Event::Follow { at: 1 }),
        Entry::Step(Event::Request { at: 2 }),
        Entry::Step(Event::Open { at: 2 }),
        Entry::Step(Event::Join { at: 1 }),
        Entry::Step(Event::Finish { at: 1 }),
        Entry::Step(Event::Finish { at: 2 }),
    ];
    let opening = line(&rt, rt.alloc());
    is_history(&rt, rt.alloc(), opening, &entries, &[report(1, 5, 8)]);
}

// Node 1 goes down while a reset of the line is open: the others finish it, and its opening counts no longer.
#[test]
fn forgets_openings_before_a_node_goes_down(rt: HostRuntime) {
    let entries = [
        Entry::Step(Event::Request { at: 3 }),
        Entry::Step(Event::Open { at: 3 }),
        Entry::Step(Event::Join { at: 2 }),
        Entry::Disturbed(Fault::NodeDown { at: 1 }),
        Entry::Step(Event::Finish { at: 2 }),
        Entry::Step(Event::Finish { at: 3 }),
    ];
    let opening = line(&rt, rt.alloc());
    is_history(&rt, rt.alloc(), opening, &entries, &[unopened(1, 6)]);
}
