// What verifying a history tells.

use crate::assert_equal;
use crate::line::{line, line_counting};
use app_interface::Idle;
use fault_inject::Fault;
use history::{Entry, Report, VerifyFault, verify};
use reset_machine::{Config, Event};
use std::alloc::Global;
use std::process::Abort;
use test_networks::{PAIR_RESET, WHOLE_RESET, line_and_pair};
use wave_layer::{Phase, WaveRegs};

// The entries are a history from the opening on, with these reports.
pub(crate) fn is_history(
    rt: &impl Abort,
    alloc: Global,
    opening: Config<Idle>,
    entries: &[Entry],
    reports: &[Report],
) {
    match verify(alloc, opening, entries) {
        Ok(summary) => {
            assert_equal(rt, summary.entries, entries.len());
            assert!(rt; summary.reports.as_slice() == reports);
        }
        Err(_) => panic!(rt; "a history"),
    }
}

// Of the entries the one at this position is the first that isn't allowed.
pub(crate) fn is_refused_at(
    rt: &impl Abort,
    alloc: Global,
    opening: Config<Idle>,
    entries: &[Entry],
    position: usize,
) {
    match verify(alloc, opening, entries) {
        Ok(_) => panic!(rt; "no history"),
        Err(fault) => assert_equal(rt, fault, VerifyFault::NotEnabledAt(position)),
    }
}

// The report of a reset that was opened and finished at these positions.
pub(crate) fn report(number: u32, opened: usize, finished: usize) -> Report {
    Report {
        number,
        opened: Some(opened),
        finished,
    }
}

// The report of a reset whose opening doesn't count.
pub(crate) fn unopened(number: u32, finished: usize) -> Report {
    Report {
        number,
        opened: None,
        finished,
    }
}

// Adds the steps as entries.
fn add_steps(rt: &impl Abort, entries: &mut Vec<Entry>, steps: &[Event]) {
    for event in steps {
        let entry = Entry::Step(*event);
        entries.push(entry).expect(rt, "memory for an entry");
    }
}

#[test]
fn reports_a_whole_reset(rt: HostRuntime) {
    let mut entries = Vec::new(rt.alloc());
    add_steps(&rt, &mut entries, &WHOLE_RESET);
    let opening = line(&rt, rt.alloc());
    is_history(&rt, rt.alloc(), opening, &entries, &[report(1, 4, 9)]);
}

#[test]
fn reports_two_resets_modulo_2(rt: HostRuntime) {
    let mut entries = Vec::new(rt.alloc());
    add_steps(&rt, &mut entries, &WHOLE_RESET);
    add_steps(&rt, &mut entries, &WHOLE_RESET);
    let opening = line_counting(&rt, rt.alloc(), 2);
    let reports = [report(1, 4, 9), report(0, 13, 18)];
    is_history(&rt, rt.alloc(), opening, &entries, &reports);
}

#[test]
fn names_the_first_refused(rt: HostRuntime) {
    let entries = [
        Entry::Step(Event::Request { at: 3 }),
        Entry::Step(Event::Open { at: 3 }),
        Entry::Step(Event::Join { at: 1 }),
    ];
    is_refused_at(&rt, rt.alloc(), line(&rt, rt.alloc()), &entries, 3);
}

#[test]
fn forgets_openings_before_a_fault(rt: HostRuntime) {
    let regs = WaveRegs {
        phase: Phase::Normal,
        session: 1,
    };
    let entries = [
        Entry::Step(Event::Request { at: 3 }),
        Entry::Step(Event::Open { at: 3 }),
        Entry::Step(Event::Join { at: 2 }),
        Entry::Disturbed(Fault::SetWave { at: 1, regs }),
        Entry::Step(Event::Finish { at: 2 }),
        Entry::Step(Event::Finish { at: 3 }),
    ];
    let opening = line(&rt, rt.alloc());
    is_history(&rt, rt.alloc(), opening, &entries, &[unopened(1, 6)]);
}

// The nodes 4 and 5 are in the midst of their reset while the line of the nodes 1, 2, 3 does its own.
#[test]
fn reports_resets_of_two_components(rt: HostRuntime) {
    let mut entries = Vec::new(rt.alloc());
    let (first, last) = PAIR_RESET.split_at(3);
    add_steps(&rt, &mut entries, first);
    add_steps(&rt, &mut entries, &WHOLE_RESET);
    add_steps(&rt, &mut entries, last);
    let opening = line_and_pair::<Idle>(rt.alloc()).expect(&rt, "a line and a pair");
    let reports = [report(1, 7, 12), report(1, 3, 15)];
    is_history(&rt, rt.alloc(), opening, &entries, &reports);
}

// The link of 1 and 2 goes down and comes back, and meanwhile node 1 is reset by itself.
#[test]
fn reports_a_reset_of_a_node_cut_off(rt: HostRuntime) {
    let entries = [
        Entry::Disturbed(Fault::LinkDown { a: 1, b: 2 }),
        Entry::Step(Event::Claim { at: 1 }),
        Entry::Step(Event::Request { at: 1 }),
        Entry::Step(Event::Open { at: 1 }),
        Entry::Step(Event::Finish { at: 1 }),
        Entry::Disturbed(Fault::LinkUp { a: 1, b: 2 }),
        Entry::Step(Event::Adopt { at: 1, from: 2 }),
        Entry::Step(Event::Mend { at: 1 }),
    ];
    let opening = line(&rt, rt.alloc());
    is_history(&rt, rt.alloc(), opening, &entries, &[report(1, 4, 5)]);
}
