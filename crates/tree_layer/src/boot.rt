// The booted spanning tree.

ghost use Rattle.std.specs.Prelude.{◌≡◌, ◌<◌, ◌==◌, ◌&&◌, true, All, length, replicate, slice_index, IfOk, MatchOption};
ghost use Rattle.std.specs.Prelude.{OnOk};
ghost use Rattle.topology.specs.Components.{leader};
ghost use Rattle.topology.specs.Graph.{is_node};
ghost use Rattle.tree_layer.specs.BootTree.{AreBooted, AreDistances, IsBooted, IsBootedOrDown, IsFirstNearer, KeepsFound};
ghost use Rattle.tree_layer.specs.BootTree.{NoneNearer};

use crate::regs::TreeRegs;
use std::alloc::{AllocError, Global};
use topology::Topology;

/// The registers of each identifier, in their order. Those of a node are its place in the tree of
/// shortest ways to the greatest id of its component: the root is that id, the distance the one in
/// the graph, the father the least neighbour that is one step nearer, and the root's father the root
/// itself. An identifier that is down is its own root and father, at distance 0.
pub fn boot_tree(alloc: Global, topology: &Topology) -> Result<Vec<TreeRegs>, AllocError>
    ensures { IfOk result (λ trees. AreBooted topology.now trees.items) }
{
    let distances = leader_distances(alloc, topology)?;
    let mut trees = Vec::with_capacity(alloc, topology.len())?;
    for ix in 0..topology.len() {
        trees.push(booted_at(topology, &distances, ix))?;
    }
    Ok(trees)
}

// The distance of each node to its leader, by index, and 0 where there is none.
fn leader_distances(alloc: Global, topology: &Topology) -> Result<Vec<usize>, AllocError>
    ensures { IfOk result (λ distances. AreDistances topology.now distances.items) }
{
    let mut distances = vec![in alloc; 0; topology.len()]?;
    fill_distances(alloc, topology, &mut distances)?;
    Ok(distances)
}

// Fills in the distances: one search from each leader finds those of its component.
fn fill_distances(
    alloc: Global,
    topology: &Topology,
    distances: &mut [usize],
) -> Result<(), AllocError>
    requires { distances.old ≡ replicate (length topology.now.ids) 0 }
    ensures { OnOk result (AreDistances topology.now distances.new) }
{
    topology.lemma_is_graph();
    for index in 0..topology.len() {
        if is_leader(topology, index) {
            let found = topology.distances_from(alloc, index)?;
            keep_found(&found, distances);
        }
    }
    Ok(())
}

// Whether the identifier at an index is up and the leader of its component.
fn is_leader(topology: &Topology, index: usize) -> bool
    requires { index < length topology.now.ids }
    ensures { result
        ≡ (is_node topology.now (slice_index topology.now.ids index)
        && leader topology.now (slice_index topology.now.ids index) == slice_index topology.now.ids index) }
{
    topology.is_up(index) && topology.greatest_of(index).get() == topology.ids()[index]
}

// Keeps the distances that a search found.
fn keep_found(found: &[usize], distances: &mut [usize])
    requires { length distances.old ≡ length found.now }
    ensures { KeepsFound found.now distances.old distances.new }
{
    for (index, distance) in found.iter().enumerate() {
        if *distance < found.len() {
            distances[index] = *distance;
        }
    }
}

// The registers of the identifier at an index, from the distances of all nodes to their leaders.
fn booted_at(topology: &Topology, distances: &[usize], ix: usize) -> TreeRegs
    requires place { ix < length topology.now.ids }
    requires distances { AreDistances topology.now distances.now }
    ensures { IsBootedOrDown topology.now (slice_index topology.now.ids ix) result }
{
    if topology.is_up(ix) {
        return regs_at(topology, distances, ix);
    }
    let id = topology.ids()[ix];
    TreeRegs {
        root: id,
        father: id,
        dist: 0,
    }
}

// The registers of the node at an index.
fn regs_at(topology: &Topology, distances: &[usize], ix: usize) -> TreeRegs
    requires place { ix < length topology.now.ids }
    requires up { is_node topology.now (slice_index topology.now.ids ix) ≡ true }
    requires distances { AreDistances topology.now distances.now }
    ensures { IsBooted topology.now (slice_index topology.now.ids ix) result }
{
    topology.lemma_is_graph();
    let root = topology.greatest_of(ix).get();
    let dist = distances[ix];
    let father = match nearer_among(topology.neighbours(ix), distances, dist) {
        Some(near) => topology.id_at(near).unwrap().get(),
        None => root,
    };
    TreeRegs {
        root,
        father,
        dist: dist as u32,
    }
}

// The first of these indexes whose distance is one less.
fn nearer_among(near: &[usize], distances: &[usize], dist: usize) -> Option<usize>
    requires within { All (λ n. n < length distances.now) near.now }
    requires small { All (λ d. d < 65536) distances.now }
    ensures { MatchOption result (NoneNearer near.now distances.now dist) (IsFirstNearer near.now distances.now dist) }
{
    for index in near {
        if distances[*index] + 1 == dist {
            return Some(*index);
        }
    }
    None
}
