// Topologies that are put under the registers and the local states.

use crate::assert_equal;
use crate::leader_link::LeaderLink;
use crate::steps::{applies, copied};
use crate::told::seen;
use reset_machine::{Config, Event};
use std::alloc::{AllocFailed, Global};
use std::process::Abort;
use test_networks::booted_modulo;
use topology::Topology;
use wave_layer::Modulus;

// The nodes of one component in the midst of a reset that the greatest has opened, each with a local state of its
// own. Sessions are counted modulo 8.
pub(crate) fn resetting(
    rt: &impl Abort,
    alloc: Global,
    nodes: &[u32],
    links: &[(u32, u32)],
) -> Config<LeaderLink> {
    let modulus = Modulus::new(8).expect(rt, "a modulus");
    let mut config = booted_modulo::<LeaderLink>(alloc, nodes, links, modulus).expect(
        rt, "a graph",
    );
    let topology = config.topology();
    topology.lemma_is_graph();
    assert!(rt; topology.is_up(0));
    let greatest = topology.greatest_of(0).get();
    let joins = Event::Join { at: greatest - 1 };
    let steps = [
        Event::Request { at: greatest },
        Event::Open { at: greatest },
        joins,
    ];
    applies(rt, alloc, &mut config, &steps);
    let mut local = false;
    for id in nodes {
        assert_equal(rt, config.put_local(*id, local), Ok(()));
        local = !local;
    }
    config
}

// Puts the topology of the same nodes with these links.
fn put_links(
    rt: &impl Abort,
    alloc: Global,
    config: &mut Config<LeaderLink>,
    nodes: &[u32],
    links: &[(u32, u32)],
) -> Result<(), AllocFailed<Topology>> {
    let topology = Topology::build(alloc, nodes, links).expect(rt, "a graph");
    assert!(rt; topology.ids() == config.topology().ids());
    config.put_topology(alloc, topology)
}

// Whether the two have the same modulus, registers and local states.
fn have_same_states(a: &Config<LeaderLink>, b: &Config<LeaderLink>) -> bool {
    a.modulus() == b.modulus()
        && a.trees() == b.trees()
        && a.waves() == b.waves()
        && a.locals() == b.locals()
}

// Whether the node has in both the same registers and the same local state.
pub(crate) fn keeps(after: &Config<LeaderLink>, before: &Config<LeaderLink>, id: u32) -> bool {
    after.tree_at(id) == before.tree_at(id)
        && after.wave_at(id) == before.wave_at(id)
        && after.local_at(id) == before.local_at(id)
}

// Whether the topology has these links and no others.
fn has_links(topology: &Topology, links: &[(u32, u32)]) -> bool {
    topology.link_count() == links.len() && links.iter().all(|&(a, b)| topology.linked(a, b))
}

// Puts the topology of the same nodes with these links, for which there is memory.
fn puts_links(
    rt: &impl Abort,
    alloc: Global,
    config: &mut Config<LeaderLink>,
    nodes: &[u32],
    links: &[(u32, u32)],
) {
    assert!(rt; put_links(rt, alloc, config, nodes, links).is_ok());
}

// The topology of the configuration has these links and no others.
fn is_linked(rt: &impl Abort, config: &Config<LeaderLink>, links: &[(u32, u32)]) {
    assert!(rt; has_links(config.topology(), links));
}

// The node has this local state, or there is no such node.
pub(crate) fn has_local(
    rt: &impl Abort,
    config: &Config<LeaderLink>,
    id: u32,
    local: Option<&bool>,
) {
    assert_equal(rt, config.local_at(id), local);
}

// The state that a node restarts with.
pub(crate) fn start_at(
    rt: &impl Abort,
    alloc: Global,
    config: &Config<LeaderLink>,
    id: u32,
) -> bool {
    *seen(rt, alloc, config, id).start()
}

#[test]
fn a_topology_is_put_under_the_states(rt: HostRuntime) {
    let nodes = [1, 2, 3];
    let line = [(1, 2), (2, 3)];
    let triangle = [(1, 2), (2, 3), (1, 3)];
    let mut config = resetting(&rt, rt.alloc(), &nodes, &line);
    let before = copied(&rt, rt.alloc(), &config);
    is_linked(&rt, &config, &line);
    puts_links(&rt, rt.alloc(), &mut config, &nodes, &triangle);
    is_linked(&rt, &config, &triangle);
    assert!(rt; have_same_states(&config, &before));
    for id in nodes {
        assert!(rt; keeps(&config, &before, id), "node {id}");
    }
    drop(before);
    drop(config);
}

// With a link to node 3 node 1 restarts with another state than before.
#[test]
fn a_node_restarts_with_the_state_of_the_topology_that_was_put(rt: HostRuntime) {
    let nodes = [1, 2, 3];
    let mut config = resetting(&rt, rt.alloc(), &nodes, &[(1, 2), (2, 3)]);
    assert_equal(&rt, start_at(&rt, rt.alloc(), &config, 1), false);
    let triangle = [(1, 2), (2, 3), (1, 3)];
    puts_links(&rt, rt.alloc(), &mut config, &nodes, &triangle);
    assert_equal(&rt, start_at(&rt, rt.alloc(), &config, 1), true);
    has_local(&rt, &config, 1, Some(&false));
    applies(&rt, rt.alloc(), &mut config, &[Event::Join { at: 1 }]);
    has_local(&rt, &config, 1, Some(&true));
    drop(config);
}

// There is no memory for the start state of the node in the middle of the star.
fn refuses_star(
    rt: &impl Abort,
    alloc: Global,
    config: &mut Config<LeaderLink>,
    star: &[(u32, u32)],
) {
    match put_links(rt, alloc, config, &[1, 2, 3, 4], star) {
        Ok(()) => panic!(rt; "there is no memory for a start state"),
        Err(failed) => assert!(rt; has_links(&failed.value, star)),
    }
}

#[test]
fn without_memory_the_topology_comes_back(rt: HostRuntime) {
    let line = [(1, 2), (2, 3), (3, 4)];
    let mut config = resetting(&rt, rt.alloc(), &[1, 2, 3, 4], &line);
    let before = copied(&rt, rt.alloc(), &config);
    for star in [
        [(1, 2), (1, 3), (1, 4)],
        [(2, 1), (2, 3), (2, 4)],
        [(3, 1), (3, 2), (3, 4)],
        [(4, 1), (4, 2), (4, 3)],
    ] {
        refuses_star(&rt, rt.alloc(), &mut config, &star);
        is_linked(&rt, &config, &line);
        assert!(rt; have_same_states(&config, &before));
        for (id, start) in [(1, false), (2, false), (3, true), (4, false)] {
            assert_equal(&rt, start_at(&rt, rt.alloc(), &config, id), start);
        }
    }
    drop(before);
    drop(config);
}

// Without its link to node 3 node 2 is the leader of the nodes 1 and 2.
#[test]
fn a_topology_that_parts_the_nodes_is_put(rt: HostRuntime) {
    let nodes = [1, 2, 3];
    let mut config = resetting(&rt, rt.alloc(), &nodes, &[(1, 2), (2, 3)]);
    let before = copied(&rt, rt.alloc(), &config);
    puts_links(&rt, rt.alloc(), &mut config, &nodes, &[(1, 2)]);
    assert!(rt; have_same_states(&config, &before));
    for (id, start) in [(1, true), (2, false), (3, false)] {
        assert_equal(&rt, start_at(&rt, rt.alloc(), &config, id), start);
    }
    drop(before);
    drop(config);
}
