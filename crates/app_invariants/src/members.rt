// The nodes of a component, by their indexes.
ghost use Rattle.std.specs.Prelude.{◌≡◌, ◌<◌, ◌≤◌, ◌==◌, ◌&&◌, All, IfOk, length, map, slice_index};
ghost use Rattle.topology.specs.Components.{component, leader};
ghost use Rattle.topology.specs.Graph.{IsNode, is_node};

use std::alloc::{AllocError, Global};
use topology::Topology;

/// The indexes of the nodes of a node's component, ascending.
pub(crate) fn members_of(
    alloc: Global,
    topology: &Topology,
    at: u32,
) -> Result<Vec<usize>, AllocError>
    requires { IsNode topology.now at }
    ensures nodes { IfOk result (λ members. map (λ k. slice_index topology.now.ids k) members.items
        ≡ (component topology.now at).nodes) }
    ensures within { IfOk result (λ members. All (λ k. k < length topology.now.ids) members.items) }
    ensures few { IfOk result (λ members. length members.items ≤ length topology.now.ids) }
{
    topology.lemma_is_graph();
    let lead = leader_of(topology, at);
    let mut members = Vec::new(alloc);
    for index in 0..topology.len() {
        if is_member(topology, lead, index) {
            members.push(index)?;
        }
    }
    Ok(members)
}

/// The leader of a node.
pub(crate) fn leader_of(topology: &Topology, at: u32) -> u32
    requires { IsNode topology.now at }
    ensures { result ≡ leader topology.now at }
{
    topology.lemma_is_graph();
    match topology.node_at(at) {
        Some(index) => topology.greatest_of(index).get(),
        None => unreachable!(),
    }
}

// Whether the identifier at this index is a node with this leader.
fn is_member(topology: &Topology, lead: u32, index: usize) -> bool
    requires { index < length topology.now.ids }
    ensures { result ≡ (is_node topology.now (slice_index topology.now.ids index)
        && (leader topology.now (slice_index topology.now.ids index) == lead)) }
{
    topology.is_up(index) && topology.greatest_of(index).get() == lead
}
