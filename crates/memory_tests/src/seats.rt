// A sharing of a book, its seats, and what is done at them.

ghost use Rattle.std.specs.Prelude.{◌≡◌, ◌+◌, length};

use crate::assert_equal;
use crate::networks::opened;
use crate::page::Record;
use app_interface::Idle;
use history::{ApplyRefusal, Book, BookRefusal, Receipt, Report};
use node_threads::{
    CloseFault, CommitRefusal, Gate, LookRefusal, Outcome, RunCause, Seat, SeatRefusal, ShareFault,
    Shared, Sharing, TurnsEnd, close, next_event, node_turns, run_nodes, select, share,
};
use reset_machine::{Event, Plan, StepRefusal, View};
use std::alloc::{AllocError, Global};
use std::marker::Brand;
use std::process::Abort;
use std::sync::Wait;
use std::sync::ledger::Blank;
use std::thread::Threads;

// The reset of the line that node 1 asks for, and node 3 too.
const ASKED_TWICE: &[u8] =
    b"reset-history 3 4294967296\nrequest 1\nrelay 2 1\nrequest 3\nopen 3\njoin 2\njoin 1\nfinish 1\nfinish 2\nfinish 3\n";

// The reset of the line that node 1 asks for. Its steps have one order.
const ASKED_ONCE: &[u8] =
    b"reset-history 3 4294967296\nrequest 1\nrelay 2 1\nrelay 3 2\nopen 3\njoin 2\njoin 1\nfinish 1\nfinish 2\nfinish 3\n";

const NOTHING: &[u8] = b"reset-history 3 4294967296\n";

const THE_REPORT: Report = Report {
    number: 1,
    opened: Some(4),
    finished: 9,
};

// A gate that does nothing.
#[derive(Clone, Copy)]
struct Still;

impl Gate for Still {
    fn planned(&self, _node: u32) {}

    fn committed(&self, _node: u32) {}
}

// Shares the booted line and plays a part of a reset at its seats.
fn play<R: Wait + Abort>(rt: &R, alloc: Global) {
    let book = opened::<Idle>(rt, alloc);
    let nodes = book.config().topology().node_count();
    let blank = Blank::new(nodes as u64 + 1);
    play_round::<Brand, R>(rt, alloc, blank, book)
}

fn play_round<L: Sharing<()>, R: Wait + Abort>(
    rt: &R,
    alloc: Global,
    blank: Blank,
    book: Book<Idle>,
)
    requires name { blank.name ≡ L.name }
    requires parts { blank.parts ≡ L.parts }
    requires one_more { L.parts ≡ length L.nodes + 1 }
    requires nodes { book.config.graph.nodes ≡ L.nodes }
    requires book { book ≡ L.book }
{
    let before = Record::of(rt, &book);
    match share::<L, Idle>(alloc, blank, book) {
        Ok((shared, seats)) => whole_reset(rt, alloc, shared, seats),
        Err((fault, blank, book)) => {
            assert_equal(rt, fault, ShareFault::NoMemory);
            assert!(rt; Record::of(rt, &book).is(&before));
            match share::<L, Idle>(alloc, blank, book) {
                Ok((shared, seats)) => whole_reset(rt, alloc, shared, seats),
                Err(_) => panic!(rt; "memory is refused once"),
            }
        }
    }
}

fn seen<L: Sharing<()>, R: Wait + Abort>(
    rt: &R,
    alloc: Global,
    shared: &Shared<L, Idle>,
    seat: &Seat<L>,
) -> View<Idle> {
    match again!(rt; shared.look(rt, alloc, seat), LookRefusal::NoMemory, true) {
        Ok(view) => view,
        Err(_) => panic!(rt; "a node"),
    }
}

// What the seat's node would do first, as it sees its neighbourhood now.
fn first_plan<L: Sharing<()>, R: Wait + Abort>(
    rt: &R,
    alloc: Global,
    shared: &Shared<L, Idle>,
    seat: &Seat<L>,
) -> Plan<Idle> {
    let view = seen(rt, alloc, shared, seat);
    let event = match again!(rt; next_event(alloc, &view), AllocError, true) {
        Ok(Some(event)) => event,
        _ => panic!(rt; "something to do"),
    };
    match again!(rt; view.plan(alloc, event), StepRefusal::NoMemory, true) {
        Ok(plan) => plan,
        Err(_) => panic!(rt; "a plan"),
    }
}

// Commits what the seat's node would do first, though memory is refused once; then the plan comes back.
fn commit<L: Sharing<()>, R: Wait + Abort>(
    rt: &R,
    alloc: Global,
    shared: &Shared<L, Idle>,
    seat: &mut Seat<L>,
) -> Receipt {
    let plan = first_plan(rt, alloc, shared, seat);
    let event = plan.event();
    let back = match shared.commit(rt, alloc, seat, plan) {
        Ok(receipt) => return receipt,
        Err((refusal, back)) => {
            assert!(rt; matches!(refusal, CommitRefusal::Refused(ApplyRefusal::NoMemory)));
            back
        }
    };
    assert!(rt; seat.receipts().is_empty() && back.event() == event);
    assert!(rt; back.seen_view().same(&seen(rt, alloc, shared, seat)));
    match shared.commit(rt, alloc, seat, back) {
        Ok(receipt) => receipt,
        Err(_) => panic!(rt; "memory is refused once"),
    }
}

// Node 1 asks, node 2 passes the request on, node 3 asks by itself.
fn first_step<L: Sharing<()>, R: Wait + Abort>(
    rt: &R,
    alloc: Global,
    shared: &Shared<L, Idle>,
    seat: &mut Seat<L>,
) -> Result<Receipt, SeatRefusal> {
    let node = seat.node();
    let refused = SeatRefusal::Refused(BookRefusal::NoMemory);
    let request = Event::Request { at: node };
    let answer = match node {
        1 => select(rt, alloc, shared, seat),
        2 => return Ok(commit(rt, alloc, shared, seat)),
        _ => shared.step(rt, alloc, seat, request),
    };
    if answer != Err(refused) {
        return answer;
    }
    assert!(rt; seat.receipts().is_empty());
    match node {
        1 => select(rt, alloc, shared, seat),
        _ => shared.step(rt, alloc, seat, request),
    }
}

// Takes all turns in which the seat's node has something to do, though memory is refused once. It takes turns alone, so
// it waits for nobody.
fn turns<L: Sharing<()>, R: Wait + Abort>(
    rt: &R,
    alloc: Global,
    shared: &Shared<L, Idle>,
    seat: &mut Seat<L>,
) {
    let end = match node_turns(rt, alloc, &Still, shared, seat, 5) {
        TurnsEnd::NoMemory => node_turns(rt, alloc, &Still, shared, seat, 5),
        end => end,
    };
    assert_equal(rt, end, TurnsEnd::Done);
}

// Each seat's node takes its first step, and then the nodes take turns until none has anything to do.
fn whole_reset<L: Sharing<()>, R: Wait + Abort>(
    rt: &R,
    alloc: Global,
    shared: Shared<L, Idle>,
    mut seats: Vec<Seat<L>>,
) {
    for seat in seats.iter_mut() {
        match first_step(rt, alloc, &shared, seat) {
            Ok(receipt) => assert!(rt; receipt.event.node() == seat.node()),
            Err(_) => panic!(rt; "a step that is allowed"),
        }
    }
    for _round in 0..3 {
        for seat in seats.iter_mut() {
            turns(rt, alloc, &shared, seat);
        }
    }
    let outcome = closed(rt, alloc, shared, seats);
    told(rt, &outcome);
    drop(outcome);
}

fn closed<L: Sharing<()>>(
    rt: &impl Abort,
    alloc: Global,
    shared: Shared<L, Idle>,
    seats: Vec<Seat<L>>,
) -> Outcome<Idle> {
    let (shared, seats) = match close(alloc, shared, seats) {
        Ok(outcome) => return outcome,
        Err((fault, shared, seats)) => {
            assert_equal(rt, fault, CloseFault::NoMemory);
            (shared, seats)
        }
    };
    match close(alloc, shared, seats) {
        Ok(outcome) => outcome,
        Err(_) => panic!(rt; "memory is refused once"),
    }
}

// The book has the whole reset, in which node 3 has asked by itself, and each node was told three steps.
fn told(rt: &impl Abort, outcome: &Outcome<Idle>) {
    assert_equal(rt, Record::of(rt, &outcome.book).text(), ASKED_TWICE);
    assert_equal(rt, outcome.book.reports(), [THE_REPORT].as_slice());
    assert_equal(rt, outcome.seats.len(), 3);
    assert!(rt; outcome.seats.iter().all(|list| list.receipts.len() == 3));
}

#[test]
fn a_sharing_is_played_and_closed(rt: HostRuntime) {
    play(&rt, rt.alloc());
}

// Runs the nodes once more on a book that has kept a beginning of the reset: where that is nothing, the whole reset
// comes to it, and else more.
fn run_again<R: Threads + Wait + Sync + Abort>(rt: &R, alloc: Global, book: Book<Idle>) {
    let before = Record::of(rt, &book);
    assert!(rt; ASKED_ONCE.starts_with(before.text()));
    match run_nodes(rt, alloc, &Still, book, 20, Some(1)) {
        Ok(outcome) => {
            let after = Record::of(rt, &outcome.book);
            assert!(rt; after.text().starts_with(before.text()));
            assert!(rt; after.text() == ASKED_ONCE || before.text() != NOTHING);
            assert!(rt; !outcome.book.reports().is_empty());
        }
        Err(_) => panic!(rt; "memory is refused once"),
    }
}

fn run<R: Threads + Wait + Sync + Abort>(rt: &R, alloc: Global) {
    let book = opened::<Idle>(rt, alloc);
    match run_nodes(rt, alloc, &Still, book, 20, Some(1)) {
        Ok(outcome) => {
            assert_equal(rt, Record::of(rt, &outcome.book).text(), ASKED_ONCE);
            drop(outcome);
        }
        Err(fault) => {
            assert!(rt; fault.cause == RunCause::NoMemory || fault.cause == RunCause::NoThread);
            run_again(rt, alloc, fault.book);
        }
    }
}

#[test]
fn a_run_ends_or_hands_its_book_back(rt: HostRuntime) {
    run(&rt, rt.alloc());
}
