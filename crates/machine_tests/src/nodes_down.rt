// Topologies that are put with nodes that go down or come up.

use crate::assert_equal;
use crate::leader_link::LeaderLink;
use crate::puts::{puts_tree, puts_wave};
use crate::steps::{applies, completes, copied, refuses};
use crate::told::{NORMAL, enables_nothing, has_newest, has_tree, has_wave, sees_nothing};
use crate::topologies::{has_local, keeps, resetting, start_at};
use reset_machine::{Config, Event, StepRefusal};
use std::alloc::Global;
use std::process::Abort;
use topology::Topology;
use tree_layer::TreeRegs;

// The tree registers of a node that knows of no other.
fn alone(id: u32) -> TreeRegs {
    TreeRegs {
        root: id,
        father: id,
        dist: 0,
    }
}

// The line of the nodes 1, 2, 3 in the midst of a reset, which node 1 hasn't joined.
fn line(rt: &impl Abort, alloc: Global) -> Config<LeaderLink> {
    resetting(rt, alloc, &[1, 2, 3], &[(1, 2), (2, 3)])
}

// Puts the topology, which has the same identifiers.
fn put(rt: &impl Abort, alloc: Global, config: &mut Config<LeaderLink>, topology: Topology) {
    assert!(rt; topology.ids() == config.topology().ids());
    assert!(rt; config.put_topology(alloc, topology).is_ok());
}

fn takes_down(rt: &impl Abort, alloc: Global, config: &mut Config<LeaderLink>, id: u32) {
    let topology = config
        .topology()
        .without_node(alloc, id)
        .expect(rt, "a node");
    put(rt, alloc, config, topology);
}

fn brings_up(rt: &impl Abort, alloc: Global, config: &mut Config<LeaderLink>, id: u32) {
    let topology = config
        .topology()
        .with_node(alloc, id)
        .expect(rt, "it is down");
    put(rt, alloc, config, topology);
}

fn are_ready(rt: &impl Abort, alloc: Global, config: &mut Config<LeaderLink>, ids: &[u32]) {
    match config.ready(alloc) {
        Ok(ready) => assert!(rt; ready.as_slice() == ids, "{ready:?}"),
        Err(_) => panic!(rt; "memory for the ready nodes"),
    }
}

// The node has joined the newest session of its component with this local state, if it has joined it.
fn has_newest_local(rt: &impl Abort, config: &Config<LeaderLink>, id: u32, local: Option<&bool>) {
    assert_equal(rt, config.newest_local(id), local);
}

// Nothing is read of the node.
fn reads_nothing(rt: &impl Abort, config: &Config<LeaderLink>, id: u32) {
    has_tree(rt, config, id, None);
    has_wave(rt, config, id, None);
    has_local(rt, config, id, None);
    has_newest(rt, config, id, None);
    has_newest_local(rt, config, id, None);
}

// Nothing is put at the node.
fn puts_nothing(rt: &impl Abort, config: &mut Config<LeaderLink>, id: u32) {
    let strange = StepRefusal::StrangeNode;
    puts_tree(rt, config, id, alone(id), Err(strange));
    puts_wave(rt, config, id, NORMAL, Err(strange));
    assert_equal(rt, config.put_local(id, true), Err((strange, true)));
}

// Nothing is read of the node, nothing put there, and nothing done.
fn is_strange(rt: &impl Abort, alloc: Global, config: &mut Config<LeaderLink>, id: u32) {
    reads_nothing(rt, config, id);
    puts_nothing(rt, config, id);
    let request = Event::Request { at: id };
    refuses(rt, alloc, config, request, StepRefusal::StrangeNode);
    enables_nothing(rt, alloc, config, id);
    sees_nothing(rt, alloc, config, id);
}

// The nodes keep their registers and their local states.
fn all_keep(rt: &impl Abort, after: &Config<LeaderLink>, before: &Config<LeaderLink>, ids: &[u32]) {
    for id in ids {
        assert!(rt; keeps(after, before, *id), "node {id}");
    }
}

#[test]
fn a_node_that_is_down_is_strange(rt: HostRuntime) {
    let mut config = line(&rt, rt.alloc());
    takes_down(&rt, rt.alloc(), &mut config, 2);
    is_strange(&rt, rt.alloc(), &mut config, 2);
    for event in [
        Event::Adopt { at: 1, from: 2 },
        Event::Relay { at: 3, child: 2 },
    ] {
        let strange = StepRefusal::StrangeNeighbour;
        refuses(&rt, rt.alloc(), &mut config, event, strange);
    }
    drop(config);
}

// The father of node 1 is gone, and node 3 waits for nobody any more. The registers of node 2 would make it ready, if
// it were up: its father isn't a neighbour.
#[test]
fn the_others_go_on(rt: HostRuntime) {
    let mut config = line(&rt, rt.alloc());
    are_ready(&rt, rt.alloc(), &mut config, &[1]);
    takes_down(&rt, rt.alloc(), &mut config, 2);
    are_ready(&rt, rt.alloc(), &mut config, &[1, 3]);
    applies(&rt, rt.alloc(), &mut config, &[Event::Claim { at: 1 }]);
    completes(&rt, rt.alloc(), &mut config, &[Event::Finish { at: 3 }], 1);
    are_ready(&rt, rt.alloc(), &mut config, &[]);
    drop(config);
}

#[test]
fn the_others_keep_what_they_have(rt: HostRuntime) {
    let mut config = line(&rt, rt.alloc());
    let before = copied(&rt, rt.alloc(), &config);
    takes_down(&rt, rt.alloc(), &mut config, 2);
    assert_equal(&rt, config.topology().len(), 3);
    assert_equal(&rt, config.topology().node_count(), 2);
    all_keep(&rt, &config, &before, &[1, 3]);
    for (id, newest) in [(1, 0), (3, 1)] {
        has_newest(&rt, &config, id, Some(newest));
        assert_eq!(rt; start_at(&rt, rt.alloc(), &config, id), false, "node {id}");
    }
    drop(before);
    drop(config);
}

// Node 2 was in the reset, and its local state was true.
#[test]
fn a_node_that_comes_up_starts_anew(rt: HostRuntime) {
    let mut config = line(&rt, rt.alloc());
    has_local(&rt, &config, 2, Some(&true));
    takes_down(&rt, rt.alloc(), &mut config, 2);
    brings_up(&rt, rt.alloc(), &mut config, 2);
    starts_anew(&rt, &config, 2);
    assert_equal(&rt, config.topology().link_count(), 0);
    drop(config);
}

// The node has the registers and the local state of one that has begun, alone in its component.
fn starts_anew(rt: &impl Abort, config: &Config<LeaderLink>, id: u32) {
    has_tree(rt, config, id, Some(alone(id)));
    has_wave(rt, config, id, Some(NORMAL));
    has_local(rt, config, id, Some(&false));
    has_newest(rt, config, id, Some(0));
    has_newest_local(rt, config, id, Some(&false));
}

#[test]
fn the_others_keep_what_they_have_as_a_node_comes_up(rt: HostRuntime) {
    let mut config = line(&rt, rt.alloc());
    let before = copied(&rt, rt.alloc(), &config);
    takes_down(&rt, rt.alloc(), &mut config, 2);
    brings_up(&rt, rt.alloc(), &mut config, 2);
    all_keep(&rt, &config, &before, &[1, 3]);
    are_ready(&rt, rt.alloc(), &mut config, &[1, 3]);
    drop(before);
    drop(config);
}

fn puts_link(rt: &impl Abort, alloc: Global, config: &mut Config<LeaderLink>, a: u32, b: u32) {
    let topology = config
        .topology()
        .with_link(alloc, a, b)
        .expect(rt, "no link");
    put(rt, alloc, config, topology);
}

// A link to node 3 makes node 2 a node with another start state, and leaves what it has.
#[test]
fn a_link_to_a_node_that_came_up_renews_nothing(rt: HostRuntime) {
    let mut config = line(&rt, rt.alloc());
    takes_down(&rt, rt.alloc(), &mut config, 2);
    brings_up(&rt, rt.alloc(), &mut config, 2);
    let before = copied(&rt, rt.alloc(), &config);
    puts_link(&rt, rt.alloc(), &mut config, 2, 3);
    all_keep(&rt, &config, &before, &[1, 2, 3]);
    assert_equal(&rt, start_at(&rt, rt.alloc(), &config, 2), true);
    has_newest(&rt, &config, 2, Some(1));
    has_newest_local(&rt, &config, 2, None);
    are_ready(&rt, rt.alloc(), &mut config, &[1, 2, 3]);
    drop(before);
    drop(config);
}

#[test]
fn all_nodes_go_down_and_one_comes_up(rt: HostRuntime) {
    let mut config = line(&rt, rt.alloc());
    for id in [1, 2, 3] {
        takes_down(&rt, rt.alloc(), &mut config, id);
    }
    assert_equal(&rt, config.topology().node_count(), 0);
    are_ready(&rt, rt.alloc(), &mut config, &[]);
    for id in [1, 2, 3] {
        is_strange(&rt, rt.alloc(), &mut config, id);
    }
    brings_up(&rt, rt.alloc(), &mut config, 3);
    let opens = [Event::Request { at: 3 }, Event::Open { at: 3 }];
    applies(&rt, rt.alloc(), &mut config, &opens);
    are_ready(&rt, rt.alloc(), &mut config, &[3]);
    completes(&rt, rt.alloc(), &mut config, &[Event::Finish { at: 3 }], 1);
    drop(config);
}
