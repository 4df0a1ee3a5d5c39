// Topologies, their texts, and what is booted of them.

use crate::assert_equal;
use crate::networks::{booted, line, parted, triangle};
use crate::page::{Page, Picture, Shape};
use action_tables::MAX_MODULUS;
use app_interface::Application;
use app_token::Token;
use reset_machine::Config;
use std::alloc::{AllocError, Global};
use std::process::Abort;
use topology::{AppName, ReadFault, TopoFault, Topology, TopologyText};
use tree_layer::boot_tree;
use wave_layer::boot_wave;

const TEXT: &[u8] = b"nodes = [1, 2, 3]\nlinks = [[1, 2], [2, 3]]\napp = \"token\"\n";

const TEXT_WITH_MODULUS: &[u8] =
    b"nodes = [1, 2, 3]\nlinks = [[1, 2], [2, 3]]\napp = \"token\"\nmodulus = 8\n";

// What a text says, which is read again where memory was refused once.
fn read_again(rt: HostRuntime, text: &[u8]) -> Result<TopologyText, ReadFault> {
    match topology::read_topology(rt.alloc(), text) {
        Err(ReadFault::NoMemory) => topology::read_topology(rt.alloc(), text),
        answer => answer,
    }
}

#[test]
fn a_text_is_read(rt: HostRuntime) {
    match read_again(rt, TEXT) {
        Ok(read) => {
            assert_equal(&rt, read.app, AppName::Token);
            assert_equal(&rt, read.topology.link_count(), 2);
            assert_equal(&rt, read.modulus, MAX_MODULUS);
        }
        Err(_) => panic!(rt; "a good text"),
    }
}

#[test]
fn a_text_with_a_modulus_is_read(rt: HostRuntime) {
    match read_again(rt, TEXT_WITH_MODULUS) {
        Ok(read) => {
            assert_equal(&rt, read.app, AppName::Token);
            assert_equal(&rt, read.topology.link_count(), 2);
            assert_equal(&rt, read.modulus, 8);
        }
        Err(_) => panic!(rt; "a good text"),
    }
}

// The roots that booted registers of the topology's trees name, one a node.
fn have_roots(rt: &impl Abort, alloc: Global, topology: &Topology, roots: &[u32]) {
    match again!(rt; boot_tree(alloc, topology), AllocError, topology.len() == 3) {
        Ok(trees) => {
            assert_equal(rt, trees.len(), roots.len());
            assert!(rt;
                trees
                    .iter()
                    .zip(roots)
                    .all(|(regs, root)| regs.root == *root)
            );
        }
        Err(AllocError) => panic!(rt; "memory is refused once"),
    }
}

fn have_session_0(rt: &impl Abort, alloc: Global) {
    match again!(rt; boot_wave(alloc, 3), AllocError, true) {
        Ok(waves) => assert!(rt; waves.iter().all(|regs| regs.session == 0)),
        Err(AllocError) => panic!(rt; "memory is refused once"),
    }
}

#[test]
fn registers_are_booted(rt: HostRuntime) {
    let topology = line(&rt, rt.alloc());
    have_roots(&rt, rt.alloc(), &topology, &[3, 3, 3]);
    drop(topology);
    have_session_0(&rt, rt.alloc());
}

#[test]
fn registers_of_two_components_are_booted(rt: HostRuntime) {
    let topology = parted(&rt, rt.alloc());
    have_roots(&rt, rt.alloc(), &topology, &[2, 2, 3]);
    drop(topology);
}

// The node at this index starts with the local state of this text.
fn starts_with(rt: &impl Abort, alloc: Global, topology: &Topology, index: usize, text: &[u8]) {
    let shape = Shape::of(topology);
    let start =
        again!(rt; Token::on_start(alloc, topology, index), AllocError, Shape::of(topology) == shape);
    let mut page = Page::new();
    match start {
        Ok(local) => assert!(rt; Token::show(&local, &mut page).is_ok()),
        Err(AllocError) => panic!(rt; "memory is refused once"),
    }
    assert_equal(rt, page.text(), text);
}

#[test]
fn a_node_starts(rt: HostRuntime) {
    let topology = line(&rt, rt.alloc());
    starts_with(&rt, rt.alloc(), &topology, 0, b"free/-/-");
    starts_with(&rt, rt.alloc(), &topology, 2, b"hold/-/-");
    drop(topology);
}

fn with_link(rt: &impl Abort, alloc: Global, old: &Topology) -> Topology {
    let shape = Shape::of(old);
    again!(rt; old.with_link(alloc, 1, 3), TopoFault::NoMemory, Shape::of(old) == shape).expect(
        rt,
        "a link that wasn't there",
    )
}

fn without_link(rt: &impl Abort, alloc: Global, old: &Topology) -> Topology {
    let shape = Shape::of(old);
    again!(rt; old.without_link(alloc, 1, 2), TopoFault::NoMemory, Shape::of(old) == shape).expect(
        rt,
        "a link of a triangle",
    )
}

#[test]
fn a_link_comes_and_goes(rt: HostRuntime) {
    let line = line(&rt, rt.alloc());
    let more = with_link(&rt, rt.alloc(), &line);
    drop(line);
    assert_equal(&rt, more.link_count(), 3);
    let less = without_link(&rt, rt.alloc(), &more);
    drop(more);
    assert!(rt; less.linked(1, 3) && !less.linked(1, 2));
    drop(less);
}

fn without_node(rt: &impl Abort, alloc: Global, old: &Topology) -> Topology {
    let shape = Shape::of(old);
    again!(rt; old.without_node(alloc, 2), TopoFault::NoMemory, Shape::of(old) == shape).expect(
        rt,
        "a node that was up",
    )
}

fn with_node(rt: &impl Abort, alloc: Global, old: &Topology) -> Topology {
    let shape = Shape::of(old);
    again!(rt; old.with_node(alloc, 2), TopoFault::NoMemory, Shape::of(old) == shape).expect(
        rt,
        "a node that was down",
    )
}

#[test]
fn a_node_goes_and_comes(rt: HostRuntime) {
    let line = line(&rt, rt.alloc());
    let less = without_node(&rt, rt.alloc(), &line);
    drop(line);
    assert!(rt; less.nodes() == [1, 3].as_slice() && less.link_count() == 0);
    let more = with_node(&rt, rt.alloc(), &less);
    drop(less);
    assert!(rt; more.nodes() == [1, 2, 3].as_slice() && more.link_count() == 0);
    drop(more);
}

// Puts the triangle in the line's place, though memory is refused once; then it comes back, and the line stands.
fn put_triangle(rt: &impl Abort, alloc: Global, config: &mut Config<Token>, other: Topology) {
    if other.ids() != config.topology().ids() {
        panic!(rt; "the same nodes");
    }
    let (before, shape) = (Picture::of(rt, config), Shape::of(&other));
    let back = match config.put_topology(alloc, other) {
        Ok(()) => return,
        Err(refused) => refused.value,
    };
    assert!(rt; Picture::of(rt, config).is(&before));
    assert_equal(rt, Shape::of(&back), shape);
    if back.ids() != config.topology().ids() {
        panic!(rt; "the same nodes");
    }
    assert!(rt; config.put_topology(alloc, back).is_ok());
}

#[test]
fn a_topology_is_put(rt: HostRuntime) {
    let mut config: Config<Token> = booted(&rt, rt.alloc(), line(&rt, rt.alloc()));
    put_triangle(&rt, rt.alloc(), &mut config, triangle(&rt, rt.alloc()));
    assert_equal(&rt, config.topology().link_count(), 3);
    drop(config);
}
