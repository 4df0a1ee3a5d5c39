// How a run begins, and what it refuses.

use crate::assert_equal;
use crate::rounds::has_step;
use crate::topologies::{line, opened, small, star, takes, takes_down};
use crate::turns::Still;
use app_interface::Idle;
use history::Book;
use node_threads::{Outcome, RunCause, SeatList, run_nodes};
use reset_machine::Event;
use std::alloc::Global;
use std::process::Abort;
use std::sync::Wait;
use std::thread::Threads;

// The outcome of ten turns of each node.
fn run<R: Threads + Wait + Sync + Abort>(
    rt: &R,
    alloc: Global,
    book: Book<Idle>,
    selected: Option<u32>,
) -> Outcome<Idle> {
    match run_nodes(rt, alloc, &Still, book, 10, selected) {
        Ok(outcome) => outcome,
        Err(_) => panic!(rt; "a run"),
    }
}

// Why there is no outcome, with the book.
fn refusal<R: Threads + Wait + Sync + Abort>(
    rt: &R,
    alloc: Global,
    book: Book<Idle>,
    selected: Option<u32>,
) -> (RunCause, Book<Idle>) {
    match run_nodes(rt, alloc, &Still, book, 10, selected) {
        Ok(_) => panic!(rt; "no run"),
        Err(fault) => (fault.cause, fault.book),
    }
}

#[test]
fn the_first_entry_is_the_request_of_the_selected_node(rt: HostRuntime) {
    for _ in 0..20 {
        let book = opened::<Idle>(&rt, rt.alloc(), line(&rt, rt.alloc()));
        let outcome = run(&rt, rt.alloc(), book, Some(1));
        has_step(&rt, &outcome.book, 1, Event::Request { at: 1 });
        drop(outcome);
    }
}

#[test]
fn without_a_selected_node_nothing_happens(rt: HostRuntime) {
    let book = opened::<Idle>(&rt, rt.alloc(), line(&rt, rt.alloc()));
    let outcome = run(&rt, rt.alloc(), book, None);
    assert_equal(&rt, outcome.book.len(), 0);
    assert_equal(&rt, outcome.seats.len(), 3);
    for list in &outcome.seats {
        assert!(rt; list.receipts.is_empty());
    }
    drop(outcome);
}

// The book of the line, of which these nodes are down.
fn line_without(rt: &impl Abort, alloc: Global, down: &[u32]) -> Book<Idle> {
    let mut book = opened::<Idle>(rt, alloc, line(rt, alloc));
    for at in down {
        takes_down(rt, alloc, &mut book, *at);
    }
    book
}

#[test]
fn no_node_is_up_and_nothing_happens(rt: HostRuntime) {
    let book = line_without(&rt, rt.alloc(), &[1, 2, 3]);
    let outcome = run(&rt, rt.alloc(), book, None);
    assert_equal(&rt, outcome.book.len(), 3);
    assert!(rt; outcome.seats.is_empty());
    drop(outcome);
}

#[test]
fn a_node_that_is_down_is_strange_and_has_no_seat(rt: HostRuntime) {
    let (cause, book) = refusal(
        &rt,
        rt.alloc(),
        line_without(&rt, rt.alloc(), &[3]),
        Some(3),
    );
    assert_equal(&rt, cause, RunCause::StrangeNode);
    assert_equal(&rt, book.len(), 1);
    let outcome = run(&rt, rt.alloc(), book, Some(1));
    assert!(rt; outcome.seats.len() == 2);
    for (list, node) in outcome.seats.iter().zip([1, 2]) {
        assert_equal(&rt, list.node, node);
    }
    let first = outcome.seats[0].receipts.first();
    assert!(rt; first.is_some_and(|receipt| receipt.event == Event::Request { at: 1 }));
    drop(outcome);
}

// The request and its relays.
fn asked() -> [Event; 3] {
    [
        Event::Request { at: 1 },
        Event::Relay { at: 2, child: 1 },
        Event::Relay { at: 3, child: 2 },
    ]
}

// A book of the line in which a request has come to the leader.
fn asked_book(rt: &impl Abort, alloc: Global) -> Book<Idle> {
    let mut book = opened::<Idle>(rt, alloc, line(rt, alloc));
    for event in asked() {
        takes(rt, alloc, &mut book, event);
    }
    book
}

// The book begins with the request and its relays.
fn begins_asked(rt: &impl Abort, book: &Book<Idle>) {
    for (event, position) in asked().into_iter().zip(1..=3) {
        has_step(rt, book, position, event);
    }
}

// How many receipts the lists have, each of which is of a position after this one.
fn receipts_after(rt: &impl Abort, lists: &[SeatList], position: usize) -> usize {
    let mut count = 0usize;
    for list in lists {
        count = count.saturating_add(list.receipts.len());
        assert!(rt;
            list.receipts
                .iter()
                .all(|receipt| receipt.position > position)
        );
    }
    count
}

#[test]
fn what_the_book_had_stays_at_its_beginning(rt: HostRuntime) {
    let book = asked_book(&rt, rt.alloc());
    let outcome = run(&rt, rt.alloc(), book, None);
    begins_asked(&rt, &outcome.book);
    // The leader alone may go on.
    has_step(&rt, &outcome.book, 4, Event::Open { at: 3 });
    let told = receipts_after(&rt, &outcome.seats, 3);
    assert_equal(&rt, told.saturating_add(3), outcome.book.len());
    drop(outcome);
}

#[test]
fn a_strange_node_is_refused_and_the_book_comes_back(rt: HostRuntime) {
    let book = asked_book(&rt, rt.alloc());
    let (cause, book) = refusal(&rt, rt.alloc(), book, Some(9));
    assert_equal(&rt, cause, RunCause::StrangeNode);
    assert_equal(&rt, book.len(), 3);
    begins_asked(&rt, &book);
    drop(book);
}

#[test]
fn too_many_nodes_are_refused_and_the_book_comes_back(rt: HostRuntime) {
    let mut book = opened::<Idle>(&rt, rt.alloc(), star(&rt, rt.alloc(), 65));
    let request = Event::Request { at: 7 };
    takes(&rt, rt.alloc(), &mut book, request);
    let (cause, book) = refusal(&rt, rt.alloc(), book, Some(1));
    assert_equal(&rt, cause, RunCause::TooManyForThreads);
    // A strange node is told first.
    let (cause, book) = refusal(&rt, rt.alloc(), book, Some(66));
    assert_equal(&rt, cause, RunCause::StrangeNode);
    assert_equal(&rt, book.len(), 1);
    has_step(&rt, &book, 1, request);
    drop(book);
}

#[test]
fn a_full_book_is_no_fault(rt: HostRuntime) {
    let book = small::<Idle>(&rt, rt.alloc(), 2);
    let outcome = run(&rt, rt.alloc(), book, Some(3));
    // The leader asks and opens. Then there is no room for node 2 to join.
    assert_equal(&rt, outcome.book.len(), 2);
    has_step(&rt, &outcome.book, 1, Event::Request { at: 3 });
    has_step(&rt, &outcome.book, 2, Event::Open { at: 3 });
    drop(outcome);
}
