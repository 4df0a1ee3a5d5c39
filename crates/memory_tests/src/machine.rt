// Steps, questions, plans and runs of a configuration.

use crate::assert_equal;
use crate::networks::{booted, line};
use crate::page::{Page, Picture};
use app_interface::{Application, Idle, LocalFault};
use app_routes::Routes;
use app_token::Token;
use fault_inject::{FaultRefusal, inject, read_fault};
use reset_machine::{Config, Done, Event, Plan, Reply, StepRefusal, View};
use std::alloc::{AllocError, Global};
use std::process::Abort;
use test_networks::WHOLE_RESET;

// The node 3 hands its token on to node 2, which takes it.
fn handing_on() -> [Event; 2] {
    [
        Event::Act {
            at: 3,
            case: 1,
            with: Some(2),
        },
        Event::Act {
            at: 2,
            case: 2,
            with: Some(3),
        },
    ]
}

// Takes the step, though memory is refused once; then the configuration is as before.
fn step<P: Application>(
    rt: &impl Abort,
    alloc: Global,
    config: &mut Config<P>,
    event: Event,
) -> Result<Reply, StepRefusal> {
    let before = Picture::of(rt, config);
    again!(rt; config.step(alloc, event), StepRefusal::NoMemory, Picture::of(rt, config).is(&before))
}

#[test]
fn steps_are_taken(rt: HostRuntime) {
    let mut config: Config<Token> = booted(&rt, rt.alloc(), line(&rt, rt.alloc()));
    for event in handing_on() {
        assert_equal(
            &rt,
            step(&rt, rt.alloc(), &mut config, event),
            Ok(Reply::Applied),
        );
    }
    let [.., last] = WHOLE_RESET;
    for event in WHOLE_RESET {
        let reply = if event == last {
            Reply::Complete(1)
        } else {
            Reply::Applied
        };
        assert_equal(&rt, step(&rt, rt.alloc(), &mut config, event), Ok(reply));
    }
    drop(config);
}

// Does the fault of the line, though memory is refused once.
fn set<P: Application>(rt: &impl Abort, alloc: Global, config: &mut Config<P>, line: &[u8]) {
    match again!(rt; read_fault(alloc, line), AllocError, true) {
        Ok(Some(fault)) => {
            let set = again!(rt; inject(alloc, config, &fault), FaultRefusal::NoMemory, true);
            assert_equal(rt, set, Ok(()));
        }
        _ => panic!(rt; "the line of a fault"),
    }
}

// The node has the local state with this text.
fn has_local<P: Application>(rt: &impl Abort, config: &Config<P>, id: u32, text: &[u8]) {
    let mut page = Page::new();
    match config.local_at(id) {
        Some(local) => assert!(rt; P::show(local, &mut page).is_ok()),
        None => panic!(rt; "a node that is up"),
    }
    assert_equal(rt, page.text(), text);
}

// A local state with more bits than it has room for without a place in memory.
#[test]
fn a_step_of_many_bits_is_taken(rt: HostRuntime) {
    let mut config: Config<Token> = booted(&rt, rt.alloc(), line(&rt, rt.alloc()));
    set(
        &rt,
        rt.alloc(),
        &mut config,
        b"fault local 3 hold/4,5,6,7,8/9",
    );
    let [pass, _] = handing_on();
    let reply = step(&rt, rt.alloc(), &mut config, pass);
    assert_equal(&rt, reply, Ok(Reply::Applied));
    has_local(&rt, &config, 3, b"free/2,4,5,6,7,8/9");
    drop(config);
}

// A local state with more entries than it has room for without a place in memory.
#[test]
fn a_step_of_many_entries_is_taken(rt: HostRuntime) {
    let mut config: Config<Routes> = booted(&rt, rt.alloc(), line(&rt, rt.alloc()));
    set(
        &rt,
        rt.alloc(),
        &mut config,
        b"fault local 2 2:0:2,3:1:3,4:1:4,5:1:5,6:1:6",
    );
    let pull = Event::Act {
        at: 1,
        case: 1,
        with: Some(2),
    };
    let reply = step(&rt, rt.alloc(), &mut config, pull);
    assert_equal(&rt, reply, Ok(Reply::Applied));
    has_local(&rt, &config, 1, b"1:0:1,2:1:2,3:2:2,4:2:2,5:2:2,6:2:2");
    drop(config);
}

#[test]
fn a_refusal_is_told(rt: HostRuntime) {
    let mut config: Config<Token> = booted(&rt, rt.alloc(), line(&rt, rt.alloc()));
    let [_, take] = handing_on();
    let refused = step(&rt, rt.alloc(), &mut config, take);
    assert_equal(&rt, refused, Err(StepRefusal::NotEnabled));
    drop(config);
}

fn has_rows_of_3<P: Application>(rt: &impl Abort, alloc: Global, config: &Config<P>) {
    let before = Picture::of(rt, config);
    let enabled = again!(rt; config.enabled(alloc, 3), StepRefusal::NoMemory,
        Picture::of(rt, config).is(&before));
    match enabled {
        Ok(rows) => assert!(rt; rows.act.has(1) && rows.wave.has(1) && rows.tree.count() == 0),
        Err(_) => panic!(rt; "a node"),
    }
}

fn has_3_ready<P: Application>(rt: &impl Abort, alloc: Global, config: &mut Config<P>) {
    let before = Picture::of(rt, config);
    let ready = again!(rt; config.ready(alloc), AllocError, Picture::of(rt, config).is(&before));
    match ready {
        Ok(ready) => assert!(rt; ready.as_slice() == [3].as_slice()),
        Err(AllocError) => panic!(rt; "memory is refused once"),
    }
    assert!(rt; Picture::of(rt, config).is(&before));
}

#[test]
fn questions_are_answered(rt: HostRuntime) {
    let mut config: Config<Token> = booted(&rt, rt.alloc(), line(&rt, rt.alloc()));
    has_rows_of_3(&rt, rt.alloc(), &config);
    has_3_ready(&rt, rt.alloc(), &mut config);
    drop(config);
}

#[test]
fn a_local_state_is_read(rt: HostRuntime) {
    let text = b"1:0:1,3:2:2".as_slice();
    let read = again!(&rt; Routes::read_local(rt.alloc(), text), LocalFault::NoMemory, true);
    let read = read.ok().expect(&rt, "a local state");
    let copy = again!(&rt; Routes::copy(rt.alloc(), &read), AllocError, true);
    let copy = copy.ok().expect(&rt, "memory is refused once");
    assert!(rt; Routes::same(&read, &copy));
    let bad =
        again!(&rt; Routes::read_local(rt.alloc(), b"3:2:2,1:0:1".as_slice()), LocalFault::NoMemory, true);
    assert!(rt; matches!(bad, Err(LocalFault::BadLocal)));
}

fn seen<P: Application>(rt: &impl Abort, alloc: Global, config: &Config<P>, at: u32) -> View<P> {
    let before = Picture::of(rt, config);
    let view =
        again!(rt; config.view(alloc, at), StepRefusal::NoMemory, Picture::of(rt, config).is(&before));
    match view {
        Ok(view) => view,
        Err(_) => panic!(rt; "a node"),
    }
}

fn planned<P: Application>(
    rt: &impl Abort,
    alloc: Global,
    view: &View<P>,
    event: Event,
) -> Plan<P> {
    match again!(rt; view.plan(alloc, event), StepRefusal::NoMemory, true) {
        Ok(plan) => plan,
        Err(_) => panic!(rt; "a plan"),
    }
}

// Puts the plan, which saw what its node sees.
fn put<P: Application>(rt: &impl Abort, config: &mut Config<P>, view: &View<P>, plan: Plan<P>) {
    assert!(rt; plan.seen_view().same(view));
    match config.put_plan(plan) {
        Ok(reply) => assert_equal(rt, reply, Reply::Applied),
        Err(_) => panic!(rt; "node 3 sees the same"),
    }
}

#[test]
fn a_plan_is_made_and_put(rt: HostRuntime) {
    let mut config: Config<Token> = booted(&rt, rt.alloc(), line(&rt, rt.alloc()));
    let view = seen(&rt, rt.alloc(), &config, 3);
    let [pass, _] = handing_on();
    let plan = planned(&rt, rt.alloc(), &view, pass);
    put(&rt, &mut config, &view, plan);
    drop(view);
    drop(config);
}

// How the events of a whole reset are answered where each is tried once more.
fn attempted(rt: &impl Abort, done: &[Done]) {
    assert_equal(rt, done.len(), 9);
    assert!(rt; done.last() == Some(&Done::Did(Reply::Complete(1))));
}

fn copied<P: Application>(rt: &impl Abort, alloc: Global, config: &Config<P>) -> Config<P> {
    let before = Picture::of(rt, config);
    match again!(rt; config.copy(alloc), AllocError, Picture::of(rt, config).is(&before)) {
        Ok(copy) => copy,
        Err(AllocError) => panic!(rt; "memory is refused once"),
    }
}

// No step of `idle` asks for memory, so want of it is the answers' alone, and nothing was done.
fn run(rt: &impl Abort, alloc: Global, config: &mut Config<Idle>) {
    let before = Picture::of(rt, config);
    let done =
        again!(rt; config.run(alloc, &WHOLE_RESET), AllocError, Picture::of(rt, config).is(&before));
    attempted(rt, &done.expect(rt, "memory is refused once"));
    assert_equal(rt, config.newest_session(1), Some(1));
}

#[test]
fn a_run_is_made_beside_a_copy(rt: HostRuntime) {
    let mut config: Config<Idle> = booted(&rt, rt.alloc(), line(&rt, rt.alloc()));
    let before = Picture::of(&rt, &config);
    let copy = copied(&rt, rt.alloc(), &config);
    run(&rt, rt.alloc(), &mut config);
    assert!(rt; Picture::of(&rt, &copy).is(&before));
    drop(config);
    drop(copy);
}
