// Calls that ask for no memory: `tests/hostile/refused-calls.py` refuses every request from the one on that a test makes by `spend`,
// and counts those that come after it. There are none, and each answer is that which ample memory would give.

use crate::assert_equal;
use crate::networks::{booted, line};
use crate::page::Page;
use action_tables::put_bytes;
use app_interface::{Application, Idle, LocalFault};
use app_mutex::EdgeReversal;
use app_routes::Routes;
use app_token::Token;
use fault_inject::{Fault, FaultRefusal, inject, read_fault};
use history::{Book, MAX_ENTRIES};
use reset_machine::{Config, Event, Reply, StepRefusal};
use reset_service::{BufferedOutput, Status};
use std::alloc::Global;
use std::process::Abort;
use test_networks::WHOLE_RESET;

// A request for so many bytes is the last one: `tests/hostile/refused-calls.py` has the same number.
const LAST_REQUEST: usize = 7_654_321;

// Makes the last request.
fn spend(alloc: Global) {
    if let Ok(bytes) = Vec::<u8>::with_capacity(alloc, LAST_REQUEST) {
        drop(bytes);
    }
}

// The answer to each event is this one.
fn answers<P: Application>(
    rt: &impl Abort,
    alloc: Global,
    config: &mut Config<P>,
    events: &[Event],
    answer: Result<Reply, StepRefusal>,
) {
    for event in events {
        assert_equal(rt, config.step(alloc, *event), answer);
    }
}

#[test]
fn steps_that_restart_no_node(rt: HostRuntime) {
    let mut config: Config<Token> = booted(&rt, rt.alloc(), line(&rt, rt.alloc()));
    let [request, relay, other, open, join, last, finish, next, root] = WHOLE_RESET;
    let (applied, refused) = (Ok(Reply::Applied), Err(StepRefusal::NotEnabled));
    let before = [request, relay, other, open, join, last];
    answers(&rt, rt.alloc(), &mut config, &before, applied);
    spend(rt.alloc());
    answers(&rt, rt.alloc(), &mut config, &[finish, next], applied);
    answers(
        &rt,
        rt.alloc(),
        &mut config,
        &[root],
        Ok(Reply::Complete(1)),
    );
    answers(
        &rt,
        rt.alloc(),
        &mut config,
        &[request, relay, other],
        applied,
    );
    answers(&rt, rt.alloc(), &mut config, &[request, finish], refused);
    drop(config);
}

// The fault of the line is answered so.
fn disturbs<P: Application>(
    rt: &impl Abort,
    alloc: Global,
    config: &mut Config<P>,
    line: &[u8],
    answer: Result<(), FaultRefusal>,
) {
    match read_fault(alloc, line) {
        Ok(Some(fault)) => assert_equal(rt, inject(alloc, config, &fault), answer),
        _ => panic!(rt; "the line of a fault"),
    }
}

#[test]
fn faults_of_registers(rt: HostRuntime) {
    let mut config: Config<Token> = booted(&rt, rt.alloc(), line(&rt, rt.alloc()));
    let (strange, bad) = (Err(FaultRefusal::StrangeNode), Err(FaultRefusal::BadValue));
    spend(rt.alloc());
    disturbs(&rt, rt.alloc(), &mut config, b"fault tree 1 3 2 9", Ok(()));
    disturbs(
        &rt,
        rt.alloc(),
        &mut config,
        b"fault wave 2 reset 7",
        Ok(()),
    );
    disturbs(&rt, rt.alloc(), &mut config, b"fault tree 9 3 2 9", strange);
    disturbs(&rt, rt.alloc(), &mut config, b"fault tree 1 0 2 9", bad);
    assert!(rt; config.tree_at(1).is_some_and(|regs| regs.dist == 9));
    assert!(rt; config.wave_at(2).is_some_and(|regs| regs.session == 7));
    drop(config);
}

#[test]
fn lines_of_faults_without_a_local_state(rt: HostRuntime) {
    spend(rt.alloc());
    let down = Fault::LinkDown { a: 1, b: 2 };
    assert!(rt; read_fault(rt.alloc(), b"fault down 1 2") == Ok(Some(down)));
    let up = Fault::NodeUp { at: 3 };
    assert!(rt; read_fault(rt.alloc(), b"fault on 3") == Ok(Some(up)));
    assert!(rt; read_fault(rt.alloc(), b"fault on 03") == Ok(None));
}

// The application has no local state with this text.
fn is_no_state<P: Application>(rt: &impl Abort, alloc: Global, text: &[u8]) {
    match P::read_local(alloc, text) {
        Ok(_) => panic!(rt; "no local state"),
        Err(fault) => assert_equal(rt, fault, LocalFault::BadLocal),
    }
}

#[test]
fn texts_of_no_local_state(rt: HostRuntime) {
    spend(rt.alloc());
    is_no_state::<Token>(&rt, rt.alloc(), b"hold/2,1/-");
    is_no_state::<Routes>(&rt, rt.alloc(), b"3:2:2,1:0:1");
    is_no_state::<EdgeReversal>(&rt, rt.alloc(), b"in/2");
    assert!(rt; EdgeReversal::read_local(rt.alloc(), b"in/1").is_ok());
}

#[test]
fn a_plan_that_is_put(rt: HostRuntime) {
    let mut config: Config<Token> = booted(&rt, rt.alloc(), line(&rt, rt.alloc()));
    let view = config.view(rt.alloc(), 3).ok().expect(&rt, "a node");
    let pass = Event::Act {
        at: 3,
        case: 1,
        with: Some(2),
    };
    let plan = view.plan(rt.alloc(), pass).ok().expect(&rt, "a plan");
    spend(rt.alloc());
    match config.put_plan(plan) {
        Ok(reply) => assert_equal(&rt, reply, Reply::Applied),
        Err(_) => panic!(rt; "node 3 sees the same"),
    }
    drop(view);
    drop(config);
}

#[test]
fn a_book_that_is_opened(rt: HostRuntime) {
    let config: Config<Idle> = booted(&rt, rt.alloc(), line(&rt, rt.alloc()));
    spend(rt.alloc());
    let book = Book::open_book(rt.alloc(), config, MAX_ENTRIES);
    assert!(rt; book.len() == 0 && book.limit() == MAX_ENTRIES);
    drop(book);
}

#[test]
fn output_that_is_buffered(rt: HostRuntime) {
    let made = BufferedOutput::new(rt.alloc(), Page::new());
    let mut out = made.ok().expect(&rt, "room for a buffer");
    spend(rt.alloc());
    for _ in 0..51 {
        assert!(rt; put_bytes(&mut out, b"0123456789").is_ok());
    }
    assert_equal(&rt, out.end(Ok(Status::Good)), Ok(Status::Good));
}
