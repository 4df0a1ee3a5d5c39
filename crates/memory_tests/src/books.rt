// Books, history texts, and what verifying them tells.

use crate::assert_equal;
use crate::networks::{booted, line, opened};
use crate::page::Record;
use app_interface::Idle;
use app_token::Token;
use fault_inject::Fault;
use history::{
    ApplyRefusal, AtFault, Book, BookFault, BookRefusal, DisturbRefusal, Entry, ReaderFault,
    Summary, VerifyFault, read_book, verify, verify_reader,
};
use reset_machine::{Config, Event, Plan, Reply, StepRefusal, View};
use std::alloc::Global;
use std::process::Abort;
use test_networks::WHOLE_RESET;
use wave_layer::{Phase, WaveRegs};

const HISTORY: &[u8] = b"reset-history 3 4294967296\nrequest 1\nfault off 3\nrelay 2 1\n";

const REFUSED: &[u8] = b"reset-history 1\nrequest 3\nopen 3\njoin 1\n";

// Takes the step, though memory is refused once; then the book is as before.
fn enter(rt: &impl Abort, alloc: Global, book: &mut Book<Token>, event: Event) {
    let before = Record::of(rt, book);
    let receipt = again!(rt; book.step(alloc, event), BookRefusal::NoMemory,
        Record::of(rt, book).is(&before));
    match receipt {
        Ok(receipt) => assert!(rt; receipt.event == event && receipt.position == book.len()),
        Err(_) => panic!(rt; "a step of a whole reset"),
    }
}

fn has_entries_and_reports(rt: &impl Abort, book: &Book<Token>, entries: usize, reports: usize) {
    assert_equal(rt, book.len(), entries);
    assert_equal(rt, book.reports().len(), reports);
}

// Behind the fourth entry the reset is open.
fn has_opened_at_4(rt: &impl Abort, alloc: Global, book: &Book<Token>) {
    match again!(rt; book.config_at(alloc, 4), AtFault::NoMemory, book.len() == 9) {
        Ok(config) => assert_equal(rt, config.newest_session(1), Some(1)),
        Err(_) => panic!(rt; "a position of the book"),
    }
}

#[test]
fn a_book_keeps_a_whole_reset(rt: HostRuntime) {
    let mut book = opened::<Token>(&rt, rt.alloc());
    for event in WHOLE_RESET {
        enter(&rt, rt.alloc(), &mut book, event);
    }
    has_entries_and_reports(&rt, &book, 9, 1);
    has_opened_at_4(&rt, rt.alloc(), &book);
    drop(book);
}

// Sets the registers, though memory is refused once; then the book is as before, and the fault comes back.
fn set_wave(rt: &impl Abort, alloc: Global, book: &mut Book<Token>, regs: WaveRegs) {
    let before = Record::of(rt, book);
    let back = match book.disturb(alloc, Fault::SetWave { at: 1, regs }) {
        Ok(position) => return assert_equal(rt, position, 1),
        Err((refusal, back)) => {
            assert_equal(rt, refusal, DisturbRefusal::NoMemory);
            back
        }
    };
    assert!(rt; Record::of(rt, book).is(&before));
    assert!(rt; back == Fault::SetWave { at: 1, regs });
    assert!(rt; book.disturb(alloc, back) == Ok(1));
}

#[test]
fn a_fault_is_entered(rt: HostRuntime) {
    let mut book = opened::<Token>(&rt, rt.alloc());
    let regs = WaveRegs {
        phase: Phase::Reset,
        session: 0,
    };
    set_wave(&rt, rt.alloc(), &mut book, regs);
    drop(book);
}

fn view_of_3(rt: &impl Abort, alloc: Global, book: &Book<Idle>) -> View<Idle> {
    let before = Record::of(rt, book);
    match again!(rt; book.config().view(alloc, 3), StepRefusal::NoMemory, Record::of(rt, book).is(&before))
    {
        Ok(view) => view,
        Err(_) => panic!(rt; "a node"),
    }
}

fn request_of_3(rt: &impl Abort, alloc: Global, view: &View<Idle>) -> Plan<Idle> {
    match again!(rt; view.plan(alloc, Event::Request { at: 3 }), StepRefusal::NoMemory, true) {
        Ok(plan) => plan,
        Err(_) => panic!(rt; "a plan"),
    }
}

// Applies the plan, which was made on this view, though memory is refused once; then the book is as before, and the plan
// comes back.
fn apply(
    rt: &impl Abort,
    alloc: Global,
    book: &mut Book<Idle>,
    plan: Plan<Idle>,
    view: &View<Idle>,
) {
    let before = Record::of(rt, book);
    let back = match book.apply(alloc, plan) {
        Ok(receipt) => return assert_equal(rt, receipt.reply, Reply::Applied),
        Err((refusal, back)) => {
            assert!(rt; matches!(refusal, ApplyRefusal::NoMemory));
            back
        }
    };
    assert!(rt; Record::of(rt, book).is(&before));
    assert_equal(rt, back.event(), Event::Request { at: 3 });
    assert!(rt; back.seen_view().same(view));
    assert!(rt; book.apply(alloc, back).is_ok());
    assert_equal(rt, book.len(), 1);
}

#[test]
fn a_plan_is_applied(rt: HostRuntime) {
    let mut book = opened::<Idle>(&rt, rt.alloc());
    let view = view_of_3(&rt, rt.alloc(), &book);
    let plan = request_of_3(&rt, rt.alloc(), &view);
    apply(&rt, rt.alloc(), &mut book, plan, &view);
    drop(view);
    drop(book);
}

// Why the book doesn't take the plan, and the plan.
fn not_taken(
    rt: &impl Abort,
    alloc: Global,
    book: &mut Book<Idle>,
    plan: Plan<Idle>,
) -> (ApplyRefusal<Idle>, Plan<Idle>) {
    match book.apply(alloc, plan) {
        Ok(_) => panic!(rt; "node 3 sees that node 2 has asked"),
        Err(refused) => refused,
    }
}

// The plan isn't taken, though memory is refused once; the book is as before, and what node 3 sees now is told.
fn is_stale(rt: &impl Abort, alloc: Global, book: &mut Book<Idle>, plan: Plan<Idle>) {
    let before = Record::of(rt, book);
    let (mut refusal, mut back) = not_taken(rt, alloc, book, plan);
    if matches!(refusal, ApplyRefusal::NoMemory) {
        assert!(rt; Record::of(rt, book).is(&before));
        (refusal, back) = not_taken(rt, alloc, book, back);
    }
    let now = view_of_3(rt, alloc, book);
    assert!(rt; Record::of(rt, book).is(&before) && !back.seen_view().same(&now));
    match refusal {
        ApplyRefusal::Stale(seen) => assert!(rt; seen.same(&now)),
        _ => panic!(rt; "a plan that is stale"),
    }
}

#[test]
fn a_stale_plan_is_told(rt: HostRuntime) {
    let mut book = opened::<Idle>(&rt, rt.alloc());
    let view = view_of_3(&rt, rt.alloc(), &book);
    let plan = request_of_3(&rt, rt.alloc(), &view);
    drop(view);
    let asked =
        again!(&rt; book.step(rt.alloc(), Event::Request { at: 2 }), BookRefusal::NoMemory, true);
    assert!(rt; asked.is_ok());
    is_stale(&rt, rt.alloc(), &mut book, plan);
    drop(book);
}

fn entries(rt: &impl Abort, alloc: Global, text: &[u8]) -> Vec<Entry> {
    let (mut first, mut second) = (text, text);
    let read = match read_book(alloc, &mut first) {
        Err(BookFault::NoMemory) => read_book(alloc, &mut second),
        answer => answer,
    };
    match read {
        Ok(book) => book.entries,
        Err(_) => panic!(rt; "a history"),
    }
}

fn opening(rt: &impl Abort, alloc: Global) -> Config<Idle> {
    booted(rt, alloc, line(rt, alloc))
}

// What the entries of the text are verified as, though memory is refused once.
fn verdict(rt: &impl Abort, alloc: Global, text: &[u8]) -> Result<Summary, VerifyFault> {
    let entries = entries(rt, alloc, text);
    let first = opening(rt, alloc);
    let second = opening(rt, alloc);
    match verify(alloc, first, &entries) {
        Err(VerifyFault::NoMemory) => verify(alloc, second, &entries),
        answer => answer,
    }
}

#[test]
fn entries_are_verified(rt: HostRuntime) {
    match verdict(&rt, rt.alloc(), HISTORY) {
        Ok(summary) => assert!(rt; summary.entries == 3 && summary.reports.is_empty()),
        Err(_) => panic!(rt; "entries that are allowed"),
    }
}

#[test]
fn an_entry_that_is_not_allowed_is_told(rt: HostRuntime) {
    match verdict(&rt, rt.alloc(), REFUSED) {
        Ok(_) => panic!(rt; "node 2 hasn't joined before node 1"),
        Err(fault) => assert_equal(&rt, fault, VerifyFault::NotEnabledAt(3)),
    }
}

#[test]
fn a_text_is_verified(rt: HostRuntime) {
    for (text, refused) in [(HISTORY, None), (REFUSED, Some(3))] {
        let (mut first, mut second) = (text, text);
        let one = opening(&rt, rt.alloc());
        let two = opening(&rt, rt.alloc());
        let told = match verify_reader(rt.alloc(), one, &mut first) {
            Err(ReaderFault::Text(BookFault::NoMemory)) => {
                verify_reader(rt.alloc(), two, &mut second)
            }
            Err(ReaderFault::Entries(VerifyFault::NoMemory)) => {
                verify_reader(rt.alloc(), two, &mut second)
            }
            answer => answer,
        };
        match (told, refused) {
            (Ok(summary), None) => assert_equal(&rt, summary.entries, 3),
            (Err(fault), Some(at)) => {
                assert_equal(
                    &rt,
                    fault,
                    ReaderFault::Entries(VerifyFault::NotEnabledAt(at)),
                );
            }
            _ => panic!(rt; "the text's own answer"),
        }
    }
}
