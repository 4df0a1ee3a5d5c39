// The topologies of the tests, and books that open with them.

ghost use Rattle.std.specs.Prelude.{◌≤◌};

use app_interface::{Application, Idle};
use fault_inject::Fault;
use history::{Book, MAX_ENTRIES};
use reset_machine::{Config, Event};
use std::alloc::Global;
use std::process::Abort;
use test_networks::greatest_modulus;
use topology::Topology;

// The line of the nodes 1, 2, 3.
pub(crate) fn line(rt: &impl Abort, alloc: Global) -> Topology {
    built(rt, alloc, &[1, 2, 3], &[(1, 2), (2, 3)])
}

// The line of the nodes 1, 2, 3 and the nodes 4 and 5 with a link: two components.
pub(crate) fn line_and_pair(rt: &impl Abort, alloc: Global) -> Topology {
    built(rt, alloc, &[1, 2, 3, 4, 5], &[(1, 2), (2, 3), (4, 5)])
}

// The ring of the nodes 1 to 8.
pub(crate) fn ring(rt: &impl Abort, alloc: Global) -> Topology {
    let mut nodes = Vec::new(alloc);
    let mut links = Vec::new(alloc);
    for id in 1..=8 {
        nodes.push(id).expect(rt, "memory for a node");
        let next = if id == 8 { 1 } else { id + 1 };
        links.push((id, next)).expect(rt, "memory for a link");
    }
    built(rt, alloc, &nodes, &links)
}

// The nodes 1 to 16 in four rows of four, each linked to the next of its row and the next of its column.
pub(crate) fn grid(rt: &impl Abort, alloc: Global) -> Topology {
    let mut nodes = Vec::new(alloc);
    let mut links = Vec::new(alloc);
    for id in 1..=16 {
        nodes.push(id).expect(rt, "memory for a node");
        if id % 4 != 0 {
            links.push((id, id + 1)).expect(rt, "memory for a link");
        }
        if id <= 12 {
            links.push((id, id + 4)).expect(rt, "memory for a link");
        }
    }
    built(rt, alloc, &nodes, &links)
}

// The nodes from 1 to the number of them, each linked to node 1.
pub(crate) fn star(rt: &impl Abort, alloc: Global, count: u32) -> Topology {
    let mut nodes = Vec::new(alloc);
    let mut links = Vec::new(alloc);
    for id in 1..=count {
        nodes.push(id).expect(rt, "memory for a node");
        if id > 1 {
            links.push((1, id)).expect(rt, "memory for a link");
        }
    }
    built(rt, alloc, &nodes, &links)
}

fn built(rt: &impl Abort, alloc: Global, nodes: &[u32], links: &[(u32, u32)]) -> Topology {
    Topology::build(alloc, nodes, links).expect(rt, "a graph")
}

// The topology, booted. Sessions are counted modulo the greatest number.
pub(crate) fn booted<P: Application>(
    rt: &impl Abort,
    alloc: Global,
    topology: Topology,
) -> Config<P> {
    match Config::<P>::boot(alloc, topology, greatest_modulus()) {
        Ok(config) => config,
        Err(_) => panic!(rt; "memory for a configuration"),
    }
}

// A book that opens with the booted topology.
pub(crate) fn opened<P: Application>(
    rt: &impl Abort,
    alloc: Global,
    topology: Topology,
) -> Book<P> {
    Book::open_book(alloc, booted::<P>(rt, alloc, topology), MAX_ENTRIES)
}

// A book of the booted line that has room for that many entries.
pub(crate) fn small<P: Application>(rt: &impl Abort, alloc: Global, limit: usize) -> Book<P>
    requires { limit ≤ 1000000 }
{
    Book::open_book(alloc, booted::<P>(rt, alloc, line(rt, alloc)), limit)
}

// Does the step, which isn't refused.
pub(crate) fn takes(rt: &impl Abort, alloc: Global, book: &mut Book<Idle>, event: Event) {
    assert!(rt; book.step(alloc, event).is_ok(), "{event:?}");
}

// The node goes down.
pub(crate) fn takes_down(rt: &impl Abort, alloc: Global, book: &mut Book<Idle>, at: u32) {
    assert!(rt;
        book.disturb(alloc, Fault::NodeDown { at }).is_ok(),
        "node {at}"
    );
}

// The line of the nodes 1, 2, 3, booted.
pub(crate) fn booted_line<P: Application>(rt: &impl Abort, alloc: Global) -> Config<P> {
    booted::<P>(rt, alloc, line(rt, alloc))
}
