// The nodes that an entry concerns.

ghost use Rattle.std.specs.Prelude.{◌≡◌, ◌<◌, ◌++◌, All, IfOk, OnOk, length, map, slice_index};
ghost use Rattle.topology.specs.Graph.{neighbours_of};
ghost use Rattle.history.specs.declared.entry.Entry.TheVariants.{Disturbed};
ghost use Rattle.history_page.specs.Entries.{concerned, entry_node, fault_node, newcomers};
ghost use Rattle.history_page.specs.Known.{written_at};

use fault_inject::Fault;
use history::Entry;
use std::alloc::{AllocError, Global};
use topology::Topology;

/// The node of an entry: that of its event, or the first that its fault names.
pub fn entry_node(entry: &Entry) -> u32
    ensures { result ≡ entry_node entry.now }
{
    match entry {
        Entry::Step(event) => event.node(),
        Entry::Disturbed(fault) => fault_node(fault),
    }
}

// The node of a fault: its own, and of a link the first end that it names.
fn fault_node(fault: &Fault) -> u32
    ensures { result ≡ fault_node fault.now }
{
    match fault {
        Fault::SetTree { at, .. } | Fault::SetWave { at, .. } | Fault::SetLocal { at, .. } => *at,
        Fault::NodeDown { at } | Fault::NodeUp { at } => *at,
        Fault::LinkDown { a, .. } | Fault::LinkUp { a, .. } => *a,
    }
}

// The node at which alone an entry writes. None where it is a fault of a link or of a node, which changes the links.
pub fn written_at(entry: &Entry) -> Option<u32>
    ensures { result ≡ written_at entry.now }
{
    match entry {
        Entry::Step(event) => Some(event.node()),
        Entry::Disturbed(fault) => damaged_at(fault),
    }
}

// The node at which alone a fault writes.
fn damaged_at(fault: &Fault) -> Option<u32>
    ensures { result ≡ written_at (Disturbed fault.now) }
{
    match fault {
        Fault::SetTree { at, .. } | Fault::SetWave { at, .. } | Fault::SetLocal { at, .. } => Some(
            *at,
        ),
        Fault::NodeDown { .. } | Fault::NodeUp { .. } => None,
        Fault::LinkDown { .. } | Fault::LinkUp { .. } => None,
    }
}

// The nodes at which an entry can change what fails: its own, the neighbours that this has, and the one that it gets.
pub fn concerned(alloc: Global, topology: &Topology, entry: &Entry) -> Result<Vec<u32>, AllocError>
    ensures { IfOk result (λ ids. ids.items ≡ concerned topology.now entry.now) }
{
    let mut ids = Vec::new(alloc);
    ids.push(entry_node(entry))?;
    add_neighbours(&mut ids, topology, entry_node(entry))?;
    add_newcomers(&mut ids, entry)?;
    Ok(ids)
}

// Adds the new neighbour of the node of an entry.
fn add_newcomers(ids: &mut Vec<u32>, entry: &Entry) -> Result<(), AllocError>
    ensures { OnOk result (ids.new.items ≡ ids.old.items ++ newcomers entry.now) }
{
    if let Entry::Disturbed(Fault::LinkUp { b, .. }) = entry {
        ids.push(*b)?;
    }
    Ok(())
}

/// Adds the neighbours of a node, ascending. What is down has none.
pub fn add_neighbours(ids: &mut Vec<u32>, topology: &Topology, at: u32) -> Result<(), AllocError>
    ensures { OnOk result (ids.new.items ≡ ids.old.items ++ neighbours_of topology.now at) }
{
    let all = topology.ids();
    for near in neighbours_at(topology, at) {
        ids.push(all[*near])?;
    }
    Ok(())
}

// The neighbours of a node, by their indexes. What is down has none.
fn neighbours_at(topology: &Topology, at: u32) -> &[usize]
    ensures ids { map (λ n. slice_index topology.now.ids n) result.now ≡ neighbours_of topology.now at }
    ensures within { All (λ n. n < length topology.now.ids) result.now }
{
    topology.lemma_is_graph();
    match topology.node_at(at) {
        Some(index) => topology.neighbours(index),
        None => &[],
    }
}
