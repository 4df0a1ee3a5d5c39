// What books keep.

use crate::assert_equal;
use crate::line::{applied, book_of_line, disturbs, has_entry, has_newest, single, takes_all};
use app_interface::Idle;
use fault_inject::{Fault, FaultRefusal};
use history::{
    ApplyRefusal, Book, BookRefusal, DisturbRefusal, Entry, MAX_ENTRIES, Receipt, Report,
};
use reset_machine::{Event, Plan, StepRefusal, View};
use std::alloc::Global;
use std::process::Abort;
use test_networks::WHOLE_RESET;
use tree_layer::TreeRegs;
use wave_layer::{Phase, WaveRegs};

// The book has the entries of one whole reset.
fn has_a_whole_reset(rt: &impl Abort, book: &Book<Idle>) {
    assert_equal(rt, book.len(), 9);
    assert_equal(rt, book.limit(), MAX_ENTRIES);
    has_newest(rt, book.config(), 3, Some(1));
    assert!(rt; book.entry(0).is_none());
    has_entry(rt, book, 4, &Entry::Step(Event::Open { at: 3 }));
    assert!(rt; book.entry(10).is_none());
}

#[test]
fn reports_a_whole_reset(rt: HostRuntime) {
    let mut book = book_of_line(&rt, rt.alloc(), MAX_ENTRIES);
    assert_equal(&rt, book.reports().len(), 0);
    takes_all(&rt, rt.alloc(), &mut book, &WHOLE_RESET);
    let reset = Report {
        number: 1,
        opened: Some(4),
        finished: 9,
    };
    assert!(rt; book.reports() == [reset].as_slice());
    has_a_whole_reset(&rt, &book);
    drop(book);
}

// The book answers this to the event.
fn answers(
    rt: &impl Abort,
    alloc: Global,
    book: &mut Book<Idle>,
    event: Event,
    answer: Result<Receipt, BookRefusal>,
) {
    assert_equal(rt, book.step(alloc, event), answer);
}

#[test]
fn refuses_before_it_is_full(rt: HostRuntime) {
    let mut book = book_of_line(&rt, rt.alloc(), 8);
    for (ix, event) in WHOLE_RESET.iter().enumerate() {
        let answer = if ix < 8 {
            Ok(applied(ix + 1, *event))
        } else {
            Err(BookRefusal::BookFull)
        };
        answers(&rt, rt.alloc(), &mut book, *event, answer);
    }
    let join = Event::Join { at: 1 };
    let refused = Err(BookRefusal::Refused(StepRefusal::NotEnabled));
    answers(&rt, rt.alloc(), &mut book, join, refused);
    assert_equal(&rt, book.len(), 8);
    drop(book);
}

// A fault of the tree registers of this node.
fn tree_fault(at: u32) -> Fault {
    let regs = TreeRegs {
        root: 1,
        father: 1,
        dist: 0,
    };
    Fault::SetTree { at, regs }
}

#[test]
fn tells_the_place_of_a_fault(rt: HostRuntime) {
    let mut book = book_of_line(&rt, rt.alloc(), 1);
    let strange = (
        DisturbRefusal::Refused(FaultRefusal::StrangeNode),
        tree_fault(9),
    );
    disturbs(&rt, rt.alloc(), &mut book, tree_fault(9), Err(strange));
    disturbs(&rt, rt.alloc(), &mut book, tree_fault(2), Ok(1));
    let full = (DisturbRefusal::BookFull, tree_fault(2));
    disturbs(&rt, rt.alloc(), &mut book, tree_fault(2), Err(full));
    has_entry(&rt, &book, 1, &Entry::Disturbed(tree_fault(2)));
    drop(book);
}

// What the event would do at its node, as the book is now.
fn plan_of(rt: &impl Abort, alloc: Global, book: &Book<Idle>, event: Event) -> Plan<Idle> {
    match book.config().view(alloc, event.node()) {
        Ok(view) => match view.plan(alloc, event) {
            Ok(plan) => plan,
            Err(_) => panic!(rt; "a plan"),
        },
        Err(_) => panic!(rt; "a node"),
    }
}

// Writes the plan, which is the entry at this position.
fn applies(
    rt: &impl Abort,
    alloc: Global,
    book: &mut Book<Idle>,
    plan: Plan<Idle>,
    receipt: Receipt,
) {
    match book.apply(alloc, plan) {
        Ok(answer) => assert_equal(rt, answer, receipt),
        Err(_) => panic!(rt; "a plan of now"),
    }
}

// Why the plan of the event, which comes back, isn't written.
fn refusal_of(
    rt: &impl Abort,
    alloc: Global,
    book: &mut Book<Idle>,
    plan: Plan<Idle>,
    event: Event,
) -> ApplyRefusal<Idle> {
    match book.apply(alloc, plan) {
        Ok(_) => panic!(rt; "no plan of now"),
        Err((refusal, back)) => {
            assert_equal(rt, back.event(), event);
            refusal
        }
    }
}

// What the node of a stale plan sees.
fn seen_instead(rt: &impl Abort, refusal: ApplyRefusal<Idle>) -> View<Idle> {
    match refusal {
        ApplyRefusal::Stale(now) => now,
        _ => panic!(rt; "a stale plan"),
    }
}

#[test]
fn applies_a_plan_once(rt: HostRuntime) {
    let mut book = book_of_line(&rt, rt.alloc(), 2);
    let request = Event::Request { at: 3 };
    let first = plan_of(&rt, rt.alloc(), &book, request);
    let second = plan_of(&rt, rt.alloc(), &book, request);
    applies(&rt, rt.alloc(), &mut book, first, applied(1, request));
    let refusal = refusal_of(&rt, rt.alloc(), &mut book, second, request);
    assert_equal(&rt, seen_instead(&rt, refusal).id(), 3);
    assert_equal(&rt, book.len(), 1);
    drop(book);
}

#[test]
fn a_full_book_applies_no_plan(rt: HostRuntime) {
    let mut book = book_of_line(&rt, rt.alloc(), 2);
    let request = Event::Request { at: 3 };
    let early = Event::Request { at: 1 };
    let first = plan_of(&rt, rt.alloc(), &book, request);
    let second = plan_of(&rt, rt.alloc(), &book, early);
    applies(&rt, rt.alloc(), &mut book, first, applied(1, request));
    applies(&rt, rt.alloc(), &mut book, second, applied(2, early));
    let open = Event::Open { at: 3 };
    let last = plan_of(&rt, rt.alloc(), &book, open);
    let refusal = refusal_of(&rt, rt.alloc(), &mut book, last, open);
    assert!(rt; matches!(refusal, ApplyRefusal::BookFull));
    assert_equal(&rt, book.len(), 2);
    drop(book);
}

#[test]
fn a_neighbours_step_makes_a_plan_stale(rt: HostRuntime) {
    let mut book = book_of_line(&rt, rt.alloc(), MAX_ENTRIES);
    let own = Event::Request { at: 1 };
    let other = Event::Request { at: 2 };
    let first = plan_of(&rt, rt.alloc(), &book, own);
    let second = plan_of(&rt, rt.alloc(), &book, other);
    applies(&rt, rt.alloc(), &mut book, first, applied(1, own));
    let refusal = refusal_of(&rt, rt.alloc(), &mut book, second, other);
    assert!(rt; sees_initiate(&seen_instead(&rt, refusal), 1));
    assert_equal(&rt, book.len(), 1);
    drop(book);
}

// Whether the node with this view sees that the node with this identifier, the least of its neighbours, is
// initiate.
fn sees_initiate(view: &View<Idle>, at: u32) -> bool {
    match view.near(0) {
        Some(near) => near.id == at && near.wave.phase == Phase::Initiate,
        None => false,
    }
}

#[test]
fn a_plan_of_another_topology_is_strange(rt: HostRuntime) {
    let other = Book::open_book(rt.alloc(), single(&rt, rt.alloc()), MAX_ENTRIES);
    let request = Event::Request { at: 7 };
    let plan = plan_of(&rt, rt.alloc(), &other, request);
    let mut book = book_of_line(&rt, rt.alloc(), MAX_ENTRIES);
    let refusal = refusal_of(&rt, rt.alloc(), &mut book, plan, request);
    assert!(rt; matches!(refusal, ApplyRefusal::StrangeNode));
    assert_equal(&rt, book.len(), 0);
    drop(book);
    drop(other);
}

#[test]
fn mends_what_was_disturbed(rt: HostRuntime) {
    let mut book = book_of_line(&rt, rt.alloc(), MAX_ENTRIES);
    let regs = WaveRegs {
        phase: Phase::Reset,
        session: 0,
    };
    let fault = Fault::SetWave { at: 1, regs };
    disturbs(&rt, rt.alloc(), &mut book, fault, Ok(1));
    let mend = Event::Mend { at: 1 };
    answers(&rt, rt.alloc(), &mut book, mend, Ok(applied(2, mend)));
    drop(book);
}
