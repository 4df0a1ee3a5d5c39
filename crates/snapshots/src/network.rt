// The network of a snapshot: which nodes are up, and how they are linked.

ghost use Rattle.std.specs.Prelude.{◌≡◌, ℕ, true, not, if◌then◌else◌, filter, IfOk};
ghost use Rattle.std.specs.List.{find, list_any};
ghost use Rattle.std.specs.List.Sorted.{IsStrictlyIncreasing};
ghost use Rattle.topology.specs.Building.{joins};
ghost use Rattle.topology.specs.Changing.{without_node};
ghost use Rattle.topology.specs.Faults.{ends_of};
ghost use Rattle.topology.specs.Graph.{are_linked, is_node};
ghost use Rattle.snapshots.specs.Items.{has_node};
ghost use Rattle.snapshots.specs.Parts.{AreLinks, without_nodes};

use crate::item::NodeState;
use crate::reading::has_node;
use std::alloc::{AllocError, Global};
use topology::{TopoFault, Topology};

/// The first end of a link that is none of the nodes.
pub(crate) fn first_down<L>(nodes: &[NodeState<L>], links: &[(u32, u32)]) -> Option<u32>
    ensures { result ≡ find (λ i. not (has_node nodes.now i)) (ends_of links.now) }
{
    for (a, b) in links {
        if !has_node(nodes, *a) {
            return Some(*a);
        }
        if !has_node(nodes, *b) {
            return Some(*b);
        }
    }
    None
}

/// The topology with these links, if there are some to be put in place of its own.
pub(crate) fn with_links(
    alloc: Global,
    topology: &Topology,
    lists_links: bool,
    links: &[(u32, u32)],
) -> Result<Topology, AllocError>
    requires up { topology.now.nodes ≡ topology.now.ids }
    requires links { AreLinks topology.now links.now }
    ensures ids { IfOk result (λ t. t.ids ≡ topology.now.ids) }
    ensures up { IfOk result (λ t. t.nodes ≡ t.ids) }
    ensures links { IfOk result (λ t. (a b : ℕ) → are_linked t a b
        ≡ (if lists_links then list_any (joins a b) links.now else are_linked topology.now a b)) }
{
    if !lists_links {
        return topology.copy(alloc);
    }
    topology.lemma_is_graph();
    match Topology::build(alloc, topology.ids(), links) {
        Ok(built) => Ok(built),
        Err(TopoFault::NoMemory) => Err(AllocError),
        Err(_) => unreachable!(),
    }
}

/// The topology in which those of its identifiers are down that none of the nodes has.
pub(crate) fn without_others<L>(
    alloc: Global,
    topology: Topology,
    ids: &[u32],
    nodes: &[NodeState<L>],
) -> Result<Topology, AllocError>
    requires up { topology.nodes ≡ ids.now }
    requires rising { IsStrictlyIncreasing ids.now }
    ensures { IfOk result (λ t. t ≡ without_nodes topology (filter (λ i. not (has_node nodes.now i)) ids.now)) }
{
    let mut left = topology;
    for id in ids {
        left = without_other(alloc, left, *id, nodes)?;
    }
    Ok(left)
}

// The topology in which this node is down, unless it is one of those.
fn without_other<L>(
    alloc: Global,
    topology: Topology,
    id: u32,
    nodes: &[NodeState<L>],
) -> Result<Topology, AllocError>
    requires { is_node topology id ≡ true }
    ensures { IfOk result (λ t. t ≡ (if has_node nodes.now id then topology else without_node topology id)) }
{
    if has_node(nodes, id) {
        return Ok(topology);
    }
    match topology.without_node(alloc, id) {
        Ok(left) => Ok(left),
        Err(TopoFault::NoMemory) => Err(AllocError),
        Err(_) => unreachable!(),
    }
}
