// Runs in which the selected node asks for several resets, and runs until no node has anything to do.

use crate::assert_equal;
use crate::rounds::has_step;
use crate::topologies::{line, opened, ring, small, takes_down};
use crate::turns::Still;
use app_interface::{Application, Idle};
use app_mutex::EdgeReversal;
use history::{Book, Entry};
use node_threads::{Outcome, RunCause, Task, TurnLimit, run_nodes_as};
use reset_machine::Event;
use std::alloc::Global;
use std::process::Abort;
use std::sync::Wait;
use std::thread::Threads;

// The outcome of the task.
fn outcome_of<P: Application, R: Threads + Wait + Sync + Abort>(
    rt: &R,
    alloc: Global,
    book: Book<P>,
    task: Task,
) -> Outcome<P> {
    match run_nodes_as(rt, alloc, &Still, book, task) {
        Ok(outcome) => outcome,
        Err(_) => panic!(rt; "a run"),
    }
}

// This node asks for so many resets, and each node takes turns until none has anything to do.
fn until_quiet(selected: u32, resets: u32) -> Task {
    Task {
        turns: TurnLimit::UntilQuiet,
        selected: Some(selected),
        resets,
    }
}

// How many entries of the book are requests, each of which is this node's.
fn requests_of<P: Application>(rt: &impl Abort, book: &Book<P>, node: u32) -> usize {
    let mut count = 0usize;
    for position in 1..=book.len() {
        if let Some(Entry::Step(Event::Request { at })) = book.entry(position) {
            assert_equal(rt, *at, node);
            count = count.saturating_add(1);
        }
    }
    count
}

// Each request is answered by a reset of its own, since the next one waits for its end.
#[test]
fn a_node_of_the_ring_asks_for_five_resets_one_after_the_other(rt: HostRuntime) {
    for selected in [1, 3, 8] {
        let book = opened::<Idle>(&rt, rt.alloc(), ring(&rt, rt.alloc()));
        let outcome = outcome_of(&rt, rt.alloc(), book, until_quiet(selected, 5));
        has_step(&rt, &outcome.book, 1, Event::Request { at: selected });
        assert_equal(&rt, requests_of(&rt, &outcome.book, selected), 5);
        assert_equal(&rt, outcome.book.reports().len(), 5);
        drop(outcome);
    }
}

#[test]
fn a_request_is_no_turn(rt: HostRuntime) {
    let task = Task {
        turns: TurnLimit::AtMost(0),
        selected: Some(2),
        resets: 3,
    };
    let book = opened::<Idle>(&rt, rt.alloc(), line(&rt, rt.alloc()));
    let outcome = outcome_of(&rt, rt.alloc(), book, task);
    assert_equal(&rt, outcome.book.len(), 1);
    has_step(&rt, &outcome.book, 1, Event::Request { at: 2 });
    drop(outcome);
}

#[test]
fn nodes_that_always_have_something_to_do_end_where_the_book_is_full(rt: HostRuntime) {
    let book = small::<EdgeReversal>(&rt, rt.alloc(), 200);
    let outcome = outcome_of(&rt, rt.alloc(), book, until_quiet(1, 100_000));
    assert_equal(&rt, outcome.book.len(), 200);
    drop(outcome);
}

#[test]
fn a_node_that_is_down_asks_for_no_reset(rt: HostRuntime) {
    let mut book = opened::<Idle>(&rt, rt.alloc(), line(&rt, rt.alloc()));
    takes_down(&rt, rt.alloc(), &mut book, 2);
    match run_nodes_as(&rt, rt.alloc(), &Still, book, until_quiet(2, 5)) {
        Ok(_) => panic!(rt; "a strange node"),
        Err(fault) => {
            assert_equal(&rt, fault.cause, RunCause::StrangeNode);
            assert_equal(&rt, fault.book.len(), 1);
        }
    }
}
