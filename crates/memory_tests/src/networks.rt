// Networks for the tests, made although memory is refused once.

use crate::assert_equal;
use crate::page::Shape;
use app_interface::Application;
use history::{Book, MAX_ENTRIES};
use reset_machine::Config;
use std::alloc::Global;
use std::process::Abort;
use test_networks::greatest_modulus;
use topology::{TopoFault, Topology};

/// The line of the nodes 1, 2 and 3.
pub(crate) fn line(rt: &impl Abort, alloc: Global) -> Topology {
    built(rt, alloc, &[(1, 2), (2, 3)])
}

/// The triangle of the nodes 1, 2 and 3.
pub(crate) fn triangle(rt: &impl Abort, alloc: Global) -> Topology {
    built(rt, alloc, &[(1, 2), (2, 3), (1, 3)])
}

/// The nodes 1 and 2 with a link, and node 3 alone.
pub(crate) fn parted(rt: &impl Abort, alloc: Global) -> Topology {
    built(rt, alloc, &[(1, 2)])
}

fn built(rt: &impl Abort, alloc: Global, links: &[(u32, u32)]) -> Topology {
    again!(rt; Topology::build(alloc, &[1, 2, 3], links), TopoFault::NoMemory, true).expect(
        rt, "a graph",
    )
}

/// The topology, booted, with sessions modulo the greatest number. Where memory is refused it comes back.
pub(crate) fn booted<P: Application>(
    rt: &impl Abort,
    alloc: Global,
    topology: Topology,
) -> Config<P> {
    let shape = Shape::of(&topology);
    let back = match Config::<P>::boot(alloc, topology, greatest_modulus()) {
        Ok(config) => return config,
        Err(refused) => refused.value,
    };
    assert_equal(rt, Shape::of(&back), shape);
    match Config::<P>::boot(alloc, back, greatest_modulus()) {
        Ok(config) => config,
        Err(_) => panic!(rt; "memory is refused once"),
    }
}

/// A book that opens with the booted line.
pub(crate) fn opened<P: Application>(rt: &impl Abort, alloc: Global) -> Book<P> {
    Book::open_book(alloc, booted::<P>(rt, alloc, line(rt, alloc)), MAX_ENTRIES)
}
