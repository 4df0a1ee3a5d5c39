// The nodes that have something to do.

ghost use Rattle.std.specs.Prelude.{◌≡◌, ◌<◌, All, IfOk, OnOk, length, map, slice_index};
ghost use Rattle.std.specs.List.Sorted.{IsNonDecreasing, IsPermutation};
ghost use Rattle.reset_machine.specs.Enabled.{is_ready};
ghost use Rattle.reset_machine.specs.Known.{IsKnown};

use crate::enabled::has_work;
use crate::nodes::Nodes;
use crate::place::Place;
use crate::ready_set::ReadySet;
use app_interface::Application;
use std::alloc::{AllocError, Global};
use topology::Topology;
use tree_layer::TreeRegs;
use wave_layer::WaveRegs;

/// Tests the nodes in doubt, one after another. If an allocation fails those that are left stay in
/// doubt.
pub fn settle_all<P: Application>(
    alloc: Global,
    nodes: &Nodes<P>,
    standing: &mut ReadySet,
) -> Result<(), AllocError>
    requires { IsKnown P.app nodes.now standing.old }
    ensures known { IsKnown P.app nodes.now standing.new }
    ensures settled { OnOk result (standing.new.ready ≡ standing.new.idle) }
{
    let mut near = Vec::new(alloc);
    let mut children = Vec::new(alloc);
    while let Some(index) = standing.last_in_doubt() {
        let ready = is_ready(alloc, nodes, index, &mut near, &mut children)?;
        standing.settle(ready);
    }
    Ok(())
}

// Whether the node at this index is up and has something to do. Its neighbours and children are read into
// the vectors.
fn is_ready<P: Application>(
    alloc: Global,
    nodes: &Nodes<P>,
    index: usize,
    near: &mut Vec<(u32, TreeRegs)>,
    children: &mut Vec<(u32, WaveRegs)>,
) -> Result<bool, AllocError>
    requires { index < length nodes.now.graph.ids }
    ensures { IfOk result (λ ready. ready ≡ is_ready P.app nodes.now (slice_index nodes.now.graph.ids index)) }
{
    if !nodes.topology().is_up(index) {
        return Ok(false);
    }
    has_work(alloc, &Place::at(nodes, index), near, children)
}

/// The identifiers of the nodes with these indexes, ascending.
pub fn ready_ids(
    alloc: Global,
    topology: &Topology,
    ready: &[usize],
) -> Result<Vec<u32>, AllocError>
    requires { All (λ n. n < length topology.now.ids) ready.now }
    ensures sorted { IfOk result (λ ids. IsNonDecreasing ids.items) }
    ensures same { IfOk result
        (λ ids. IsPermutation (map (λ n. slice_index topology.now.ids n) ready.now) ids.items) }
{
    let all = topology.ids();
    let mut ids = Vec::with_capacity(alloc, ready.len())?;
    for index in ready {
        ids.push(all[*index])?;
    }
    ids.sort_unstable();
    Ok(ids)
}
