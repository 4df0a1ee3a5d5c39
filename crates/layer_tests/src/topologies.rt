// Graphs and what their readers tell. What a bad topology is answered with is shown on the program itself.

use crate::assert_equal;
use Change::{Down, Link, Unlink, Up};
use action_tables::MAX_MODULUS;
use std::alloc::{AllocGlobal, Global};
use std::process::Abort;
use std::test::Fail;
use topology::{AppName, MAX_LINKS, NodeId, ReadFault, TopoFault, Topology, read_topology};

// A change of a topology.
#[derive(Clone, Copy)]
enum Change {
    Link(u32, u32),
    Unlink(u32, u32),
    Up(u32),
    Down(u32),
}

fn changed(alloc: Global, topology: &Topology, change: Change) -> Result<Topology, TopoFault> {
    match change {
        Link(a, b) => topology.with_link(alloc, a, b),
        Unlink(a, b) => topology.without_link(alloc, a, b),
        Up(id) => topology.with_node(alloc, id),
        Down(id) => topology.without_node(alloc, id),
    }
}

// The topology of these nodes and links, none of which is refused.
fn built(rt: &(impl Abort + AllocGlobal), nodes: &[u32], links: &[(u32, u32)]) -> Topology {
    Topology::build(rt.alloc(), nodes, links).expect(rt, "a topology")
}

// The topology after a change that isn't refused.
fn after(rt: &(impl Abort + AllocGlobal), topology: &Topology, change: Change) -> Topology {
    changed(rt.alloc(), topology, change).expect(rt, "a change")
}

// Each of these changes is refused for its reason.
fn refuses(rt: &(impl Abort + AllocGlobal), topology: &Topology, faults: &[(Change, TopoFault)]) {
    for (change, fault) in faults {
        assert_equal(
            rt,
            changed(rt.alloc(), topology, *change).err(),
            Some(*fault),
        );
    }
}

fn linked(topology: &Topology, a: u32, b: u32) -> bool {
    topology.linked(a, b)
}

// Whether these are the nodes 1, 2 and 3.
fn has_three_nodes(line: &Topology) -> bool {
    line.len() == 3
        && line.id_at(0) == NodeId::new(1)
        && line.id_at(2) == NodeId::new(3)
        && line.id_at(3).is_none()
        && line.index_of(2) == Some(1)
        && line.index_of(4).is_none()
        && line.nodes() == [1, 2, 3].as_slice()
        && line.is_up(0)
        && line.greatest_of(0).get() == 3
        && line.is_up(2)
        && line.greatest_of(2).get() == 3
}

// Whether these are the links 1-2 and 2-3.
fn has_two_links(line: &Topology) -> bool {
    line.len() == 3
        && line.link_count() == 2
        && line.neighbours(1) == [0, 2].as_slice()
        && line.neighbours(2) == [1].as_slice()
        && line.linked(1, 2)
        && line.linked(3, 2)
        && !line.linked(1, 3)
        && !line.linked(2, 2)
        && !line.linked(2, 9)
}

#[test]
fn reads_a_line_given_in_mixed_order(rt: HostRuntime) {
    let line = built(&rt, &[2, 3, 1], &[(3, 2), (1, 2)]);
    assert!(rt; has_three_nodes(&line));
    assert!(rt; has_two_links(&line));
}

// Whether these are the links of the star of the nodes 5, 20, 40 and 41, as identifiers find them.
fn finds_the_star(star: &Topology) -> bool {
    star.len() == 4
        && star.neighbour_at(0, 41) == Some(3)
        && star.neighbour_at(3, 5) == Some(0)
        && star.neighbour_at(3, 40) == Some(2)
        && star.neighbour_at(3, 41).is_none()
        && star.neighbour_at(0, 20).is_none()
        && star.neighbour_at(0, 6).is_none()
}

#[test]
fn finds_neighbours_by_identifier(rt: HostRuntime) {
    let star = built(&rt, &[5, 20, 40, 41], &[(41, 5), (41, 20), (40, 41)]);
    assert!(rt; finds_the_star(&star));
}

// These are the distances from the node at this index, by index.
fn measures(
    rt: &(impl Abort + AllocGlobal),
    topology: &Topology,
    index: usize,
    distances: &[usize],
) {
    assert_equal(rt, topology.len(), distances.len());
    assert!(rt; index < topology.len());
    let measured = topology
        .distances_from(rt.alloc(), index)
        .expect(rt, "memory");
    assert_equal(rt, measured.as_slice(), distances);
}

#[test]
fn measures_a_cycle_of_four(rt: HostRuntime) {
    let cycle = built(&rt, &[1, 2, 3, 4], &[(1, 2), (2, 3), (3, 4), (4, 1)]);
    measures(&rt, &cycle, 1, &[1, 0, 1, 2]);
}

#[test]
fn reads_the_text_of_a_line(rt: HostRuntime) -> Result<(), Fail> {
    let text = b"nodes = [1, 2, 3]\nlinks = [[1, 2], [2, 3]]\napp = \"routes\"\n";
    let read = read_topology(rt.alloc(), text)?;
    let line = &read.topology;
    assert_equal(&rt, line.len(), 3);
    assert!(rt; linked(line, 1, 2) && linked(line, 3, 2) && !linked(line, 1, 3));
    assert_equal(&rt, read.app, AppName::Routes);
    assert_equal(&rt, read.modulus, MAX_MODULUS);
    Ok(())
}

#[test]
fn reads_the_text_of_two_components(rt: HostRuntime) -> Result<(), Fail> {
    let text = b"app = \"token\"\nlinks = [[4, 1]]\nnodes = [4, 3, 1]\n";
    let read = read_topology(rt.alloc(), text)?;
    assert!(rt; has_leaders(&read.topology, &[4, 3, 4]));
    Ok(())
}

// The modulus of a text. None where it isn't read.
fn modulus_of(alloc: Global, text: &[u8]) -> Option<u64> {
    match read_topology(alloc, text) {
        Ok(read) => Some(read.modulus),
        Err(_) => None,
    }
}

#[test]
fn reads_a_modulus(rt: HostRuntime) {
    for (text, modulus) in [
        (
            b"nodes = [1]\nlinks = []\napp = \"idle\"\nmodulus = 8\n".as_slice(),
            8,
        ),
        (
            b"modulus = 2\nnodes = [1]\nlinks = []\napp = \"idle\"\n".as_slice(),
            2,
        ),
        (
            b"nodes = [1]\nlinks = []\nmodulus = 4294967296\napp = \"idle\"\n".as_slice(),
            4_294_967_296,
        ),
        (
            b"nodes = [1]\nlinks = []\napp = \"idle\"\n".as_slice(),
            4_294_967_296,
        ),
    ] {
        assert_equal(&rt, modulus_of(rt.alloc(), text), Some(modulus));
    }
}

// Why a text isn't read.
fn text_fault(rt: HostRuntime, text: &[u8]) -> Option<ReadFault> {
    match read_topology(rt.alloc(), text) {
        Ok(_) => None,
        Err(fault) => Some(fault),
    }
}

#[test]
fn refuses_what_is_no_modulus(rt: HostRuntime) {
    let one = b"nodes = [1]\nlinks = []\napp = \"idle\"\nmodulus = 1\n";
    assert_equal(&rt, text_fault(rt, one), Some(ReadFault::WrongKind));
    let greater = b"nodes = [1]\nlinks = []\napp = \"idle\"\nmodulus = 4294967297\n";
    assert_equal(&rt, text_fault(rt, greater), Some(ReadFault::WrongKind));
    let text = b"nodes = [1]\nlinks = []\napp = \"idle\"\nmodulus = \"8\"\n";
    assert_equal(&rt, text_fault(rt, text), Some(ReadFault::WrongKind));
    let unknown_app = b"nodes = [1]\nlinks = []\napp = \"idel\"\nmodulus = 0\n";
    assert_equal(&rt, text_fault(rt, unknown_app), Some(ReadFault::WrongKind));
}

#[test]
fn names_why_a_link_is_not_put_in(rt: HostRuntime) {
    let line = built(&rt, &[2, 3, 1], &[(3, 2), (1, 2)]);
    let faults = [
        (Link(8, 9), TopoFault::StrangeNode(8)),
        (Link(1, 4), TopoFault::StrangeNode(4)),
        (Link(5, 5), TopoFault::StrangeNode(5)),
        (Link(3, 3), TopoFault::SelfLink(3)),
        (Link(2, 3), TopoFault::LinkIsThere),
    ];
    refuses(&rt, &line, &faults);
}

#[test]
fn names_why_a_link_is_not_taken_out(rt: HostRuntime) {
    let line = built(&rt, &[2, 3, 1], &[(3, 2), (1, 2)]);
    let faults = [
        (Unlink(7, 1), TopoFault::StrangeNode(7)),
        (Unlink(3, 0), TopoFault::StrangeNode(0)),
        (Unlink(1, 3), TopoFault::NoSuchLink),
        (Unlink(2, 2), TopoFault::NoSuchLink),
    ];
    refuses(&rt, &line, &faults);
}

// Whether these are the leaders of the nodes, in the order of the ids.
fn has_leaders(topology: &Topology, leaders: &[u32]) -> bool {
    topology.len() == leaders.len()
        && (0..topology.len()).all(|index| {
            topology.is_up(index) && topology.greatest_of(index).get() == leaders[index]
        })
}

// A path of the nodes 1, 3 and 7, and a link of the nodes 2 and 9.
fn path_and_link(rt: &(impl Abort + AllocGlobal)) -> Topology {
    built(rt, &[9, 7, 3, 2, 1], &[(7, 3), (2, 9), (1, 3)])
}

// A topology that equals this one.
fn copied(rt: &(impl Abort + AllocGlobal), topology: &Topology) -> Topology {
    topology.copy(rt.alloc()).expect(rt, "memory")
}

#[test]
fn each_component_has_its_leader(rt: HostRuntime) {
    let parted = path_and_link(&rt);
    assert_equal(&rt, parted.link_count(), 3);
    assert!(rt; has_leaders(&parted, &[7, 9, 7, 7, 9]));
    assert!(rt; has_leaders(&copied(&rt, &parted), &[7, 9, 7, 7, 9]));
}

#[test]
fn each_node_without_links_is_its_leader(rt: HostRuntime) {
    let unlinked = built(&rt, &[4, 2, 8], &[]);
    assert!(rt; has_leaders(&unlinked, &[2, 4, 8]));
}

// The number of nodes stands where no walk leads.
#[test]
fn measures_one_component(rt: HostRuntime) {
    let parted = path_and_link(&rt);
    measures(&rt, &parted, 3, &[2, 5, 1, 0, 5]);
    measures(&rt, &parted, 1, &[5, 0, 5, 5, 1]);
}

#[test]
fn a_link_joins_two_components(rt: HostRuntime) {
    let parts = path_and_link(&rt);
    let joined = after(&rt, &parts, Link(2, 1));
    drop(parts);
    assert!(rt; has_leaders(&joined, &[9, 9, 9, 9, 9]));
    measures(&rt, &joined, 4, &[2, 1, 3, 4, 0]);
    let again = after(&rt, &joined, Unlink(1, 2));
    drop(joined);
    assert!(rt; has_leaders(&again, &[7, 9, 7, 7, 9]));
    drop(again);
}

#[test]
fn a_bridge_parts_two_components(rt: HostRuntime) {
    // two triangles, 1 4 5 and 2 3 6, with a bridge from 5 to 3
    let links = [(1, 4), (4, 5), (5, 1), (2, 3), (3, 6), (6, 2), (5, 3)];
    let bridged = built(&rt, &[1, 2, 3, 4, 5, 6], &links);
    assert!(rt; has_leaders(&bridged, &[6, 6, 6, 6, 6, 6]));
    let parted = after(&rt, &bridged, Unlink(3, 5));
    drop(bridged);
    assert_equal(&rt, parted.link_count(), 6);
    assert!(rt; has_leaders(&parted, &[5, 6, 6, 5, 5, 6]));
    let path = after(&rt, &parted, Unlink(3, 6));
    drop(parted);
    assert!(rt; has_leaders(&path, &[5, 6, 6, 5, 5, 6]));
    let three = after(&rt, &path, Unlink(2, 6));
    drop(path);
    assert!(rt; has_leaders(&three, &[5, 3, 3, 5, 5, 6]));
    drop(three);
}

// Whether two graphs of four nodes have the same rows.
fn has_the_rows_of(a: &Topology, b: &Topology) -> bool {
    a.len() == 4
        && b.len() == 4
        && a.ids() == b.ids()
        && a.link_count() == b.link_count()
        && a.neighbours(0) == b.neighbours(0)
        && a.neighbours(1) == b.neighbours(1)
        && a.neighbours(2) == b.neighbours(2)
        && a.neighbours(3) == b.neighbours(3)
}

#[test]
fn a_link_is_taken_out_and_put_back(rt: HostRuntime) {
    let cycle = built(&rt, &[9, 4, 7, 2], &[(2, 4), (4, 7), (7, 9), (9, 2)]);
    let opened = after(&rt, &cycle, Unlink(9, 2));
    assert!(rt; !has_the_rows_of(&cycle, &opened));
    assert!(rt; !linked(&opened, 2, 9) && !linked(&opened, 9, 2) && linked(&opened, 7, 9));
    assert_equal(&rt, opened.link_count(), 3);
    measures(&rt, &opened, 0, &[0, 1, 2, 3]);
    let closed = after(&rt, &opened, Link(2, 9));
    drop(opened);
    assert!(rt; has_the_rows_of(&cycle, &closed));
    drop(cycle);
    drop(closed);
}

// The first links, up to `most`, of each node to each later one.
fn first_links(rt: &(impl Abort + AllocGlobal), nodes: u32, most: usize) -> Vec<(u32, u32)> {
    let mut links = Vec::new(rt.alloc());
    for a in 1..nodes {
        for b in a..nodes {
            if links.len() < most {
                links.push((a, b + 1)).expect(rt, "memory");
            }
        }
    }
    links
}

// A topology of 139 nodes with as many links as there may be, and none of 138 and 139.
fn full_topology(rt: &(impl Abort + AllocGlobal)) -> Topology {
    let mut nodes = Vec::new(rt.alloc());
    for node in 1..140u32 {
        nodes.push(node).expect(rt, "memory");
    }
    let links = first_links(rt, 139, MAX_LINKS);
    built(rt, &nodes, &links)
}

fn is_full(topology: &Topology) -> bool {
    topology.link_count() == MAX_LINKS
}

#[test]
fn there_is_room_for_8192_links(rt: HostRuntime) {
    let full = full_topology(&rt);
    assert!(rt; is_full(&full));
    assert!(rt; linked(&full, 1, 2) && !linked(&full, 138, 139));
    let faults = [
        (Link(138, 139), TopoFault::TooManyLinks),
        (Link(1, 2), TopoFault::LinkIsThere),
    ];
    refuses(&rt, &full, &faults);
}

#[test]
fn a_link_that_is_taken_out_leaves_room(rt: HostRuntime) {
    let full = full_topology(&rt);
    let one_less = after(&rt, &full, Unlink(1, 2));
    drop(full);
    let other = after(&rt, &one_less, Link(139, 138));
    drop(one_less);
    assert!(rt; is_full(&other));
    drop(other);
}

// Whether these are the nodes 1 and 3 of the line, and no link.
fn is_line_without_2(topology: &Topology) -> bool {
    topology.len() == 3
        && topology.ids() == [1, 2, 3].as_slice()
        && topology.nodes() == [1, 3].as_slice()
        && topology.node_count() == 2
        && topology.link_count() == 0
        && topology.index_of(2) == Some(1)
        && topology.node_at(2).is_none()
        && topology.node_at(3) == Some(2)
        && !topology.is_up(1)
        && topology.neighbours(0).is_empty()
        && topology.neighbours(1).is_empty()
        && topology.neighbours(2).is_empty()
        && topology.is_up(0)
        && topology.greatest_of(0).get() == 1
}

#[test]
fn a_node_goes_down_with_its_links(rt: HostRuntime) {
    let line = built(&rt, &[1, 2, 3], &[(1, 2), (2, 3)]);
    let down = after(&rt, &line, Down(2));
    assert!(rt; is_line_without_2(&down));
    let copy = copied(&rt, &down);
    drop(down);
    assert!(rt; is_line_without_2(&copy));
    drop(copy);
    assert!(rt; has_three_nodes(&line) && has_two_links(&line));
    drop(line);
}

#[test]
fn a_node_comes_up_without_links(rt: HostRuntime) {
    let line = built(&rt, &[1, 2, 3], &[(1, 2), (2, 3)]);
    let down = after(&rt, &line, Down(2));
    drop(line);
    let up = after(&rt, &down, Up(2));
    drop(down);
    assert!(rt; up.nodes() == [1, 2, 3].as_slice());
    assert!(rt; has_leaders(&up, &[1, 2, 3]));
    assert_equal(&rt, up.link_count(), 0);
    let linked = after(&rt, &up, Link(2, 3));
    drop(up);
    assert!(rt; has_leaders(&linked, &[1, 3, 3]));
    drop(linked);
}

#[test]
fn names_why_a_node_does_not_go_down_or_come_up(rt: HostRuntime) {
    let line = built(&rt, &[1, 2, 3], &[(1, 2), (2, 3)]);
    let faults = [
        (Down(4), TopoFault::StrangeNode(4)),
        (Up(4), TopoFault::StrangeNode(4)),
        (Up(3), TopoFault::NodeIsUp),
    ];
    refuses(&rt, &line, &faults);
    let faults_of_3 = [Down(3), Link(2, 3), Unlink(2, 3)].map(|change| (
        change,
        TopoFault::StrangeNode(3),
    ));
    refuses(&rt, &after(&rt, &line, Down(3)), &faults_of_3);
}

// Whether both of two identifiers are down.
fn are_both_down(two: &Topology) -> bool {
    two.len() == 2 && two.node_count() == 0 && two.nodes().is_empty()
}

#[test]
fn all_nodes_may_be_down(rt: HostRuntime) {
    let two = built(&rt, &[5, 4], &[(4, 5)]);
    let one = after(&rt, &two, Down(4));
    drop(two);
    let none = after(&rt, &one, Down(5));
    drop(one);
    assert!(rt; are_both_down(&none));
    let up = after(&rt, &none, Up(4));
    drop(none);
    assert!(rt; up.nodes() == [4].as_slice());
    drop(up);
}
