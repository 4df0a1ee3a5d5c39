// The least numbers of links of walks to a node, for evenly many links and for oddly many.
//
// A walk can go back and forth over its first link, so that with a walk of some number of links there is one of two
// more. The least number of each parity decides for all numbers.
ghost use Rattle.std.specs.Prelude.{◌≡◌, ℕ, ◌+◌, ◌<◌, ◌≤◌, true, false, All, IfOk, OnOk, length, map, slice_index};
ghost use Rattle.topology.specs.Graph.{AreLinked};
ghost use Rattle.app_invariants.specs.Parities.{AreDoubled, AreTables, PushesShifted, TellsWalks, place_for};
ghost use Rattle.app_invariants.specs.WrongEntries.{is_walked};

use std::alloc::{AllocError, Global};
use topology::{MAX_NODES, Topology, distances_to};

/// For each of the nodes at these indexes the table of the walks to it.
pub(crate) fn tables_of(
    alloc: Global,
    topology: &Topology,
    members: &[usize],
) -> Result<Vec<Vec<usize>>, AllocError>
    requires { All (λ k. k < length topology.now.ids) members.now }
    ensures { IfOk result (λ tables. AreTables topology.now members.now (map (λ marks. marks.items) tables.items)) }
{
    let rows = doubled(alloc, topology)?;
    let mut tables = Vec::new(alloc);
    for index in members {
        tables.push(table_of(alloc, topology, rows.as_slice(), *index)?)?;
    }
    Ok(tables)
}

// The table of the walks to the identifier at this index.
fn table_of(
    alloc: Global,
    topology: &Topology,
    rows: &[Vec<usize>],
    index: usize,
) -> Result<Vec<usize>, AllocError>
    requires rows { AreDoubled topology.now (map (λ row. row.items) rows.now) }
    requires index { index < length topology.now.ids }
    ensures { IfOk result (λ marks. TellsWalks topology.now (slice_index topology.now.ids index) marks.items) }
{
    topology.lemma_is_graph();
    distances_to(alloc, rows, index)
}

// The rows of the doubled graph: each identifier is there twice, and a link leads from the one copy to the other.
fn doubled(alloc: Global, topology: &Topology) -> Result<Vec<Vec<usize>>, AllocError>
    ensures { IfOk result (λ rows. AreDoubled topology.now (map (λ row. row.items) rows.items)) }
{
    let mut rows = Vec::new(alloc);
    push_shifted(alloc, topology, topology.len(), &mut rows)?;
    push_shifted(alloc, topology, 0, &mut rows)?;
    Ok(rows)
}

// Puts behind the rows one for each identifier: the indexes of its neighbours, each with the shift added.
fn push_shifted(
    alloc: Global,
    topology: &Topology,
    shift: usize,
    rows: &mut Vec<Vec<usize>>,
) -> Result<(), AllocError>
    requires { shift ≤ length topology.now.ids }
    ensures { OnOk result (PushesShifted topology.now shift (length topology.now.ids)
        (map (λ row. row.items) rows.old.items) (map (λ row. row.items) rows.new.items)) }
{
    topology.lemma_is_graph();
    for index in 0..topology.len() {
        rows.push(shifted(alloc, topology.neighbours(index), shift)?)?;
    }
    Ok(())
}

// The indexes with the shift added to each.
fn shifted(alloc: Global, row: &[usize], shift: usize) -> Result<Vec<usize>, AllocError>
    requires shift { shift ≤ MAX_NODES }
    requires row { All (λ k. k < MAX_NODES) row.now }
    ensures { IfOk result (λ shifted. shifted.items ≡ map (λ k. shift + k) row.now) }
{
    let mut shifted = Vec::with_capacity(alloc, row.len())?;
    for index in row {
        shifted.push(shift + *index)?;
    }
    Ok(shifted)
}

/// Whether a walk of exactly so many links leads from the node at this index to the one of which this is the table.
pub(crate) fn has_walk(topology: &Topology, marks: &[usize], index: usize, links: u32) -> bool
    requires index { index < length topology.now.ids }
    requires marks { length marks.now ≡ length topology.now.ids + length topology.now.ids }
    ensures { (d : ℕ) → TellsWalks topology.now d marks.now
        → result ≡ is_walked topology.now (slice_index topology.now.ids index) d links }
{
    topology.lemma_is_graph();
    if !begins(topology, index, links) {
        return false;
    }
    let mark = marks[place_for(topology.len(), index, links)];
    if mark >= marks.len() {
        return false;
    }
    mark <= links as usize
}

// Whether a walk of so many links can begin at the index: where it has some, there is one to begin with.
fn begins(topology: &Topology, index: usize, links: u32) -> bool
    requires { index < length topology.now.ids }
    ensures begins { result ≡ true → 0 < links
        → (j : ℕ) × AreLinked topology.now (slice_index topology.now.ids index) j }
    ensures ends { result ≡ false
        → (0 < links) × ((j : ℕ) → AreLinked topology.now (slice_index topology.now.ids index) j → ⊥) }
{
    topology.lemma_is_graph();
    links == 0 || !topology.neighbours(index).is_empty()
}

// The place of an index, of `count`, for walks of so many links.
fn place_for(count: usize, index: usize, links: u32) -> usize
    requires count { count ≤ MAX_NODES }
    requires index { index < count }
    ensures { result ≡ place_for count index links }
{
    if links % 2 == 0 { index } else { count + index }
}
