// Networks of several components, and a link or a node that goes down and comes back: what is found, and what repairs
// it.

use crate::networks::{alarms, booted_line, fault, finds, two_are_in};
use app_interface::{Application, Idle};
use link_predicates::{Family, LinkFault, check_node};
use reset_machine::{Config, Event, Reply, StepRefusal};
use std::alloc::Global;
use std::process::Abort;
use test_networks::line_and_pair;
use topology::{TopoFault, Topology};

// Puts the topology, which has the same identifiers.
fn put<P: Application>(
    rt: &impl Abort,
    alloc: Global,
    config: &mut Config<P>,
    changed: Result<Topology, TopoFault>,
) {
    let topology = changed.expect(rt, "a change that the network allows");
    assert!(rt; topology.ids() == config.topology().ids());
    assert!(rt; config.put_topology(alloc, topology).is_ok());
}

fn parts<P: Application>(rt: &impl Abort, alloc: Global, config: &mut Config<P>, a: u32, b: u32) {
    let changed = config.topology().without_link(alloc, a, b);
    put(rt, alloc, config, changed);
}

fn links<P: Application>(rt: &impl Abort, alloc: Global, config: &mut Config<P>, a: u32, b: u32) {
    let changed = config.topology().with_link(alloc, a, b);
    put(rt, alloc, config, changed);
}

fn takes_down<P: Application>(rt: &impl Abort, alloc: Global, config: &mut Config<P>, id: u32) {
    let changed = config.topology().without_node(alloc, id);
    put(rt, alloc, config, changed);
}

fn brings_up<P: Application>(rt: &impl Abort, alloc: Global, config: &mut Config<P>, id: u32) {
    let changed = config.topology().with_node(alloc, id);
    put(rt, alloc, config, changed);
}

// Does the event, with this reply, after which nothing but these faults is found.
fn leaves(
    rt: &impl Abort,
    alloc: Global,
    config: &mut Config<Idle>,
    event: Event,
    reply: Reply,
    faults: &[LinkFault],
) {
    assert_eq!(rt; config.step(alloc, event), Ok(reply));
    finds(rt, alloc, config, faults);
}

// The booted line of the nodes 1, 2, 3 without the link of 1 and 2.
fn parted(rt: &impl Abort, alloc: Global) -> Config<Idle> {
    let mut config = booted_line::<Idle>(rt, alloc);
    parts(rt, alloc, &mut config, 1, 2);
    config
}

// Node 1 by itself claims to be a root, and resets itself.
fn claims_and_is_reset(rt: &impl Abort, alloc: Global, config: &mut Config<Idle>) {
    for (event, reply) in [
        (Event::Claim { at: 1 }, Reply::Applied),
        (Event::Request { at: 1 }, Reply::Applied),
        (Event::Open { at: 1 }, Reply::Applied),
        (Event::Finish { at: 1 }, Reply::Complete(1)),
    ] {
        leaves(rt, alloc, config, event, reply, &[]);
    }
}

#[test]
fn a_node_that_is_cut_off_resets_itself(rt: HostRuntime) {
    let mut config = parted(&rt, rt.alloc());
    finds(&rt, rt.alloc(), &config, &[fault(1, 1, Family::Tree, 3)]);
    claims_and_is_reset(&rt, rt.alloc(), &mut config);
    assert_eq!(rt; config.newest_session(1), Some(1));
    assert_eq!(rt; config.newest_session(2), Some(0));
    drop(config);
}

#[test]
fn a_link_that_comes_back_joins_a_reset_node(rt: HostRuntime) {
    let mut config = parted(&rt, rt.alloc());
    claims_and_is_reset(&rt, rt.alloc(), &mut config);
    links(&rt, rt.alloc(), &mut config, 1, 2);
    finds(&rt, rt.alloc(), &config, &[fault(1, 2, Family::Tree, 7)]);
    let adopt = Event::Adopt { at: 1, from: 2 };
    let late = [fault(1, 2, Family::Wave, 9)];
    leaves(&rt, rt.alloc(), &mut config, adopt, Reply::Applied, &late);
    let mend = Event::Mend { at: 1 };
    leaves(&rt, rt.alloc(), &mut config, mend, Reply::Applied, &[]);
    drop(config);
}

// One component is in a session that the other hasn't, and in the midst of its reset.
#[test]
fn two_components_have_no_fault(rt: HostRuntime) {
    let mut config = line_and_pair::<Idle>(rt.alloc()).expect(&rt, "a line and a pair");
    finds(&rt, rt.alloc(), &config, &[]);
    for event in [Event::Request { at: 5 }, Event::Open { at: 5 }] {
        leaves(&rt, rt.alloc(), &mut config, event, Reply::Applied, &[]);
    }
    drop(config);
}

// The node is asked in vain.
fn is_strange<P: Application>(rt: &impl Abort, alloc: Global, config: &Config<P>, id: u32) {
    match check_node(alloc, config, id) {
        Ok(_) => panic!(rt; "node {id} is down"),
        Err(refusal) => assert_eq!(rt; refusal, StepRefusal::StrangeNode),
    }
}

// The registers of node 2 would tell a fault, if it were up: its father isn't a neighbour.
#[test]
fn a_node_that_is_down_is_not_checked(rt: HostRuntime) {
    let mut config = booted_line::<Idle>(&rt, rt.alloc());
    takes_down(&rt, rt.alloc(), &mut config, 2);
    finds(&rt, rt.alloc(), &config, &[fault(1, 1, Family::Tree, 3)]);
    is_strange(&rt, rt.alloc(), &config, 2);
    drop(config);
}

#[test]
fn no_fault_is_found_where_all_nodes_are_down(rt: HostRuntime) {
    let mut config = booted_line::<Idle>(&rt, rt.alloc());
    for id in [2, 1, 3] {
        takes_down(&rt, rt.alloc(), &mut config, id);
    }
    finds(&rt, rt.alloc(), &config, &[]);
    for id in [1, 2, 3] {
        is_strange(&rt, rt.alloc(), &config, id);
        alarms(&rt, &config, id, None);
    }
    drop(config);
}

// Two neighbours are in, and one of them goes down.
#[test]
fn a_node_that_goes_down_ends_the_alarm(rt: HostRuntime) {
    let mut config = two_are_in(&rt, rt.alloc());
    alarms(&rt, &config, 1, Some(fault(1, 2, Family::App, 1)));
    takes_down(&rt, rt.alloc(), &mut config, 2);
    alarms(&rt, &config, 1, None);
    alarms(&rt, &config, 2, None);
    drop(config);
}

// The leader goes down, and the nodes that are left follow the next one.
fn without_its_leader(rt: &impl Abort, alloc: Global) -> Config<Idle> {
    let mut config = booted_line::<Idle>(rt, alloc);
    takes_down(rt, alloc, &mut config, 3);
    finds(rt, alloc, &config, &[fault(2, 2, Family::Tree, 3)]);
    let apart = [fault(1, 2, Family::Tree, 5), fault(2, 1, Family::Tree, 7)];
    let claim = Event::Claim { at: 2 };
    leaves(rt, alloc, &mut config, claim, Reply::Applied, &apart);
    let follow = Event::Follow { at: 1 };
    leaves(rt, alloc, &mut config, follow, Reply::Applied, &[]);
    config
}

// It comes back, and leads them again.
#[test]
fn a_leader_that_goes_down_comes_back(rt: HostRuntime) {
    let mut config = without_its_leader(&rt, rt.alloc());
    brings_up(&rt, rt.alloc(), &mut config, 3);
    finds(&rt, rt.alloc(), &config, &[]);
    links(&rt, rt.alloc(), &mut config, 2, 3);
    finds(&rt, rt.alloc(), &config, &[fault(2, 3, Family::Tree, 7)]);
    let behind = [fault(1, 2, Family::Tree, 5)];
    let adopt = Event::Adopt { at: 2, from: 3 };
    leaves(&rt, rt.alloc(), &mut config, adopt, Reply::Applied, &behind);
    let follow = Event::Follow { at: 1 };
    leaves(&rt, rt.alloc(), &mut config, follow, Reply::Applied, &[]);
    drop(config);
}
