// What a node does by itself, in a network that isn't damaged.

use crate::assert_equal;
use crate::topologies::{booted, booted_line, star};
use app_interface::{Application, Idle};
use app_mutex::EdgeReversal;
use app_routes::Routes;
use app_token::Token;
use node_threads::next_event;
use reset_machine::{Config, Event};
use std::alloc::Global;
use std::process::Abort;
use test_networks::WHOLE_RESET;
use wave_layer::{Phase, WaveRegs};

// What the node does by itself.
pub(crate) fn next_at<P: Application>(
    rt: &impl Abort,
    alloc: Global,
    config: &Config<P>,
    at: u32,
) -> Option<Event> {
    match config.view(alloc, at) {
        Ok(view) => next_event(alloc, &view).expect(rt, "memory for the choice"),
        Err(_) => panic!(rt; "a node"),
    }
}

// The node does this by itself, or nothing.
pub(crate) fn chooses<P: Application>(
    rt: &impl Abort,
    alloc: Global,
    config: &Config<P>,
    at: u32,
    event: Option<Event>,
) {
    assert_eq!(rt; next_at(rt, alloc, config, at), event, "node {at}");
}

// Does the event, which isn't refused.
pub(crate) fn takes<P: Application>(
    rt: &impl Abort,
    alloc: Global,
    config: &mut Config<P>,
    event: Event,
) {
    assert!(rt; config.step(alloc, event).is_ok(), "{event:?}");
}

// Puts wave registers at a node.
pub(crate) fn put_wave<P: Application>(
    rt: &impl Abort,
    config: &mut Config<P>,
    at: u32,
    phase: Phase,
    session: u32,
) {
    let regs = WaveRegs { phase, session };
    assert!(rt; config.put_wave(at, regs).is_ok());
}

// What the nodes 1, 2 and 3 of the booted line do by themselves.
fn first_choices<P: Application>(rt: &impl Abort, alloc: Global) -> [Option<Event>; 3] {
    let config = booted_line::<P>(rt, alloc);
    [1, 2, 3].map(|at| next_at(rt, alloc, &config, at))
}

// The action that names this neighbour, if it names one.
pub(crate) fn act(at: u32, case: u8, with: Option<u32>) -> Option<Event> {
    Some(Event::Act { at, case, with })
}

#[test]
fn after_the_boot_only_the_application_acts(rt: HostRuntime) {
    let idle = first_choices::<Idle>(&rt, rt.alloc());
    assert_equal(&rt, idle, [None, None, None]);
    // The greatest node holds the token, and passes it to its neighbour.
    let token = first_choices::<Token>(&rt, rt.alloc());
    assert_equal(&rt, token, [None, None, act(3, 1, Some(2))]);
    // The turn of each link is its lesser node's.
    let mutex = first_choices::<EdgeReversal>(&rt, rt.alloc());
    assert_equal(&rt, mutex, [act(1, 1, None), None, None]);
    // Each pulls from its least neighbour.
    let routes = first_choices::<Routes>(&rt, rt.alloc());
    let pulls = [act(1, 1, Some(2)), act(2, 1, Some(1)), act(3, 1, Some(2))];
    assert_equal(&rt, routes, pulls);
}

#[test]
fn a_request_is_relayed_by_the_father_alone(rt: HostRuntime) {
    let mut config = booted_line::<Idle>(&rt, rt.alloc());
    takes(&rt, rt.alloc(), &mut config, Event::Request { at: 1 });
    chooses(&rt, rt.alloc(), &config, 1, None);
    let relay = Some(Event::Relay { at: 2, child: 1 });
    chooses(&rt, rt.alloc(), &config, 2, relay);
    chooses(&rt, rt.alloc(), &config, 3, None);
    drop(config);
}

#[test]
fn after_the_request_a_reset_goes_by_itself(rt: HostRuntime) {
    let mut config = booted_line::<Idle>(&rt, rt.alloc());
    for event in WHOLE_RESET {
        let asks = event == (Event::Request { at: 1 });
        let next = if asks { None } else { Some(event) };
        chooses(&rt, rt.alloc(), &config, event.node(), next);
        takes(&rt, rt.alloc(), &mut config, event);
    }
    for at in [1, 2, 3] {
        chooses(&rt, rt.alloc(), &config, at, None);
    }
    drop(config);
}

#[test]
fn the_least_child_that_asks_is_relayed_first(rt: HostRuntime) {
    // Node 5 is the leader and node 1 its child, whose children are the nodes 2, 3 and 4.
    let mut config = booted::<Idle>(&rt, rt.alloc(), star(&rt, rt.alloc(), 5));
    for child in [4, 3, 2] {
        takes(&rt, rt.alloc(), &mut config, Event::Request { at: child });
        let relay = Some(Event::Relay { at: 1, child });
        chooses(&rt, rt.alloc(), &config, 1, relay);
    }
    drop(config);
}

#[test]
fn a_request_is_relayed_before_the_application_acts(rt: HostRuntime) {
    let mut config = booted_line::<Token>(&rt, rt.alloc());
    takes(&rt, rt.alloc(), &mut config, Event::Request { at: 2 });
    let relay = Some(Event::Relay { at: 3, child: 2 });
    chooses(&rt, rt.alloc(), &config, 3, relay);
    drop(config);
}

#[test]
fn a_node_joins_before_it_relays(rt: HostRuntime) {
    let mut config = booted_line::<Idle>(&rt, rt.alloc());
    put_wave(&rt, &mut config, 1, Phase::Initiate, 0);
    put_wave(&rt, &mut config, 3, Phase::Reset, 1);
    let join = Some(Event::Join { at: 2 });
    chooses(&rt, rt.alloc(), &config, 2, join);
    drop(config);
}

// The leader of the line opens a session after this one.
fn opens_after<P: Application>(rt: &impl Abort, alloc: Global, session: u32) {
    let mut config = booted_line::<P>(rt, alloc);
    for (at, phase) in [(1, Phase::Normal), (2, Phase::Normal), (3, Phase::Initiate)] {
        put_wave(rt, &mut config, at, phase, session);
    }
    chooses(rt, alloc, &config, 3, Some(Event::Open { at: 3 }));
    drop(config);
}

#[test]
fn a_session_is_opened_after_the_last_too(rt: HostRuntime) {
    for session in [4294967294, 4294967295] {
        opens_after::<Idle>(&rt, rt.alloc(), session);
        opens_after::<Token>(&rt, rt.alloc(), session);
    }
}

// What node 2 of the line does by itself where the three nodes have local states with these texts.
fn token_choice(rt: &impl Abort, alloc: Global, texts: [&[u8]; 3]) -> Option<Event> {
    let mut config = booted_line::<Token>(rt, alloc);
    for (at, text) in [(1, texts[0]), (2, texts[1]), (3, texts[2])] {
        match Token::read_local(alloc, text) {
            Ok(local) => assert!(rt; config.put_local(at, local).is_ok()),
            Err(_) => panic!(rt; "the text of a local state"),
        }
    }
    next_at(rt, alloc, &config, 2)
}

#[test]
fn an_action_goes_toward_the_least_neighbour_first(rt: HostRuntime) {
    let (free, hold) = (b"free/-/-".as_slice(), b"hold/-/-".as_slice());
    let given = b"free/2/-".as_slice();
    for (texts, chosen) in [
        ([free, free, free], None),
        ([free, hold, free], act(2, 1, Some(1))),
        ([given, free, free], act(2, 2, Some(1))),
        ([free, free, given], act(2, 2, Some(3))),
        ([given, free, given], act(2, 2, Some(1))),
    ] {
        assert_equal(&rt, token_choice(&rt, rt.alloc(), texts), chosen);
    }
}
