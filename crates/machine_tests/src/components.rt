// Networks of several components: each boots, and is reset, by itself.

use crate::assert_equal;
use crate::steps::{applies, completes, ran};
use crate::told::{NORMAL, has_newest, have_trees, have_waves};
use app_interface::Idle;
use reset_machine::{Config, Done, Event, Reply};
use std::alloc::Global;
use std::process::Abort;
use test_networks::{PAIR_RESET, WHOLE_RESET, booted, line_and_pair};
use wave_layer::{Phase, WaveRegs};

// The booted line of the nodes 1, 2, 3 beside the nodes 4 and 5.
fn parted(rt: &impl Abort, alloc: Global) -> Config<Idle> {
    line_and_pair(alloc).expect(rt, "two components")
}

#[test]
fn boots_each_component(rt: HostRuntime) {
    // the lines 1, 3, 5 and 2, 4, and node 6 alone
    let links = [(1, 3), (3, 5), (2, 4)];
    let config: Config<Idle> = booted(rt.alloc(), &[1, 2, 3, 4, 5, 6], &links).expect(
        &rt, "a graph",
    );
    have_trees(
        &rt,
        &config,
        &[
            (1, 5, 3, 2),
            (2, 4, 4, 1),
            (3, 5, 5, 1),
            (4, 4, 4, 0),
            (5, 5, 5, 0),
            (6, 6, 6, 0),
        ],
    );
    have_waves(&rt, &config, &[1, 2, 3, 4, 5, 6], NORMAL);
    drop(config);
}

// What is newest is so in one component, while the other is in the midst of a reset.
#[test]
fn each_component_has_its_newest_session(rt: HostRuntime) {
    let mut config = parted(&rt, rt.alloc());
    let opens = [Event::Request { at: 5 }, Event::Open { at: 5 }];
    applies(&rt, rt.alloc(), &mut config, &opens);
    for (id, newest, has_joined) in [
        (1, Some(0), true),
        (2, Some(0), true),
        (3, Some(0), true),
        (4, Some(1), false),
        (5, Some(1), true),
        (6, None, false),
    ] {
        has_newest(&rt, &config, id, newest);
        joined(&rt, &config, id, has_joined);
    }
    drop(config);
}

// Whether the node has joined the newest session of its component.
fn joined(rt: &impl Abort, config: &Config<Idle>, id: u32, expected: bool) {
    assert_eq!(rt; config.newest_local(id).is_some(), expected, "node {id}");
}

#[test]
fn a_completion_is_one_of_its_component(rt: HostRuntime) {
    let mut config = parted(&rt, rt.alloc());
    applies(&rt, rt.alloc(), &mut config, &PAIR_RESET[..1]);
    completes(&rt, rt.alloc(), &mut config, &WHOLE_RESET, 1);
    let asks = WaveRegs {
        phase: Phase::Initiate,
        session: 0,
    };
    have_waves(&rt, &config, &[4], asks);
    have_waves(&rt, &config, &[5], NORMAL);
    completes(&rt, rt.alloc(), &mut config, &PAIR_RESET[1..], 1);
    completes(&rt, rt.alloc(), &mut config, &PAIR_RESET, 2);
    for (id, session) in [(1, 1), (2, 1), (3, 1), (4, 2), (5, 2)] {
        has_newest(&rt, &config, id, Some(session));
    }
    drop(config);
}

// The steps of two resets in turn, one of each component.
fn both_resets(rt: &impl Abort, alloc: Global) -> Vec<Event> {
    let mut steps = Vec::new(alloc);
    for (place, step) in WHOLE_RESET.iter().enumerate() {
        steps.push(*step).expect(rt, "memory");
        if place < PAIR_RESET.len() {
            steps.push(PAIR_RESET[place]).expect(rt, "memory");
        }
    }
    steps
}

// Of 15 steps two complete session 1.
fn complete_twice(rt: &impl Abort, answers: &[Done]) {
    for (place, answer) in answers.iter().enumerate() {
        let reply = if place == 11 || place == 14 {
            Reply::Complete(1)
        } else {
            Reply::Applied
        };
        assert_eq!(rt; *answer, Done::Did(reply), "step {place}");
    }
    assert_equal(rt, answers.len(), 15);
}

#[test]
fn two_resets_go_on_side_by_side(rt: HostRuntime) {
    let mut config = parted(&rt, rt.alloc());
    let steps = both_resets(&rt, rt.alloc());
    complete_twice(&rt, &ran(&rt, rt.alloc(), &mut config, &steps));
    drop(config);
}
