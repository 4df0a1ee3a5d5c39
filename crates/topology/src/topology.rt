ghost use Rattle.std.specs.Prelude.{◌≡◌, ◌≢◌, ℕ, ◌<◌, ◌≤◌, ◌*◌, ◌==◌, true, false, Some, All, IfNone, IfOk, IfErr};
ghost use Rattle.std.specs.Prelude.{IfSome, None, OnOk, length, map, position, slice_get, slice_index};
ghost use Rattle.std.specs.FinSet as set;
ghost use Rattle.std.specs.List.Sorted.{IsStrictlyIncreasing};
ghost use Rattle.topology.specs.Changing.{link_fault, off_fault, on_fault, unlink_fault, with_link, with_node};
ghost use Rattle.topology.specs.Changing.{without_link, without_node};
ghost use Rattle.topology.specs.Components.{leader};
ghost use Rattle.topology.specs.Faults.{IsFirstFault, IsTopologyOf};
ghost use Rattle.topology.specs.Graph.{IsDistanceOrNone, IsGraph, are_linked, is_node, neighbours_of, node_at};
ghost use Rattle.topology.specs.Id.{IsId};

use crate::fault::{MAX_LINKS, MAX_NODES, TopoFault};
use crate::id::NodeId;
use crate::ids::Ids;
use crate::leaders::leaders_of;
use crate::links::{checked_rows, end_indexes};
use crate::nodes::checked_ids;
use crate::rows::{copied_rows, isolate, link, unlink};
use crate::search::distances_to;
use std::alloc::{AllocError, Global};
use std::marker::Model;

/// A graph of nodes with identifiers, in one component or more, or in none where all identifiers are
/// down. An identifier that is down is no node and has no links. A node goes by its identifier, or by
/// its index in the ascending order of all identifiers.
#[derive(Drop)]
pub struct Topology {
    ids: Ids,
    near: Vec<Vec<usize>>,
    /// At the index of each node the index of its leader.
    leaders: Vec<usize>,
    link_count: usize,
}

impl Model for Topology {
    ghost use Rattle.topology.specs.Graph.{Graph, graph_code};

    ghost Value = { Graph };

    ghost coded = { graph_code };

    ghost use Rattle.std.specs.Prelude.{map};
    ghost use Rattle.topology.specs.Rows.{graph_of, AreParts};

    ghost view = { λ t. graph_of t.ids.ids t.ids.nodes (map (λ row. row.items) t.near.items) };

    ghost invariant = { λ t. AreParts t.ids.ids t.ids.nodes (map (λ row. row.items) t.near.items)
        t.leaders.items t.link_count };
}

impl Topology {
    /// The number of all identifiers, up or down, at least one.
    pub fn len(&self) -> usize
        ensures { result ≡ length self.now.ids }
    {
        self.ids().len()
    }

    /// The number of nodes, which are the identifiers that are up.
    pub fn node_count(&self) -> usize
        ensures { result ≡ length self.now.nodes }
    {
        self.nodes().len()
    }

    /// The number of links.
    pub fn link_count(&self) -> usize
        ensures { 2 * result ≡ set.len self.now.links }
    {
        self.link_count
    }

    /// What each topology is: a graph of at most `MAX_NODES` identifiers.
    pub fn lemma_is_graph(&self)
        ensures graph { IsGraph self.now }
        ensures small { length self.now.ids ≤ MAX_NODES }
        ensures ids { All IsId self.now.ids }
    {
        let _ = &self.ids;
    }

    /// All identifiers, up or down, ascending.
    pub fn ids(&self) -> &[u32]
        ensures { result.now ≡ self.now.ids }
    {
        self.ids.as_slice()
    }

    /// The identifiers of the nodes, which are those that are up, ascending.
    pub fn nodes(&self) -> &[u32]
        ensures { result.now ≡ self.now.nodes }
    {
        self.ids.nodes()
    }

    /// The identifier at this index. None from the number of identifiers on.
    pub fn id_at(&self, index: usize) -> Option<NodeId>
        ensures { result ≡ slice_get self.now.ids index }
    {
        self.lemma_is_graph();
        let ids = self.ids();
        match ids.get(index) {
            Some(id) => NodeId::new(*id),
            None => None,
        }
    }

    /// The index of this identifier, up or down. None where it is none of the identifiers.
    pub fn index_of(&self, id: u32) -> Option<usize>
        ensures { result ≡ position (λ i. i == id) self.now.ids }
    {
        self.ids.index_of(id)
    }

    /// The index of the node with this identifier. None where there is none that is up.
    pub fn node_at(&self, id: u32) -> Option<usize>
        ensures { result ≡ node_at self.now id }
    {
        self.ids.node_at(id)
    }

    /// Whether the identifier at this index is up, and so a node.
    pub fn is_up(&self, index: usize) -> bool
        requires { index < length self.now.ids }
        ensures { result ≡ is_node self.now (slice_index self.now.ids index) }
    {
        let ids = &self.ids;
        ids.is_up(ids.as_slice()[index])
    }

    /// The indexes of the neighbours of the node at this index, ascending; none where it is down.
    pub fn neighbours(&self, index: usize) -> &[usize]
        requires { index < length self.now.ids }
        ensures ids { map (λ n. slice_index self.now.ids n) result.now
            ≡ neighbours_of self.now (slice_index self.now.ids index) }
        ensures within { All (λ n. n < length self.now.ids) result.now }
        ensures ascending { IsStrictlyIncreasing result.now }
    {
        let near = &self.near;
        near[index].as_slice()
    }

    /// The index of this identifier among the neighbours of the node at `index`. None where it isn't
    /// a neighbour's.
    pub fn neighbour_at(&self, index: usize, id: u32) -> Option<usize>
        requires { index < length self.now.ids }
        ensures found { IfSome result
            (λ n. (position (λ i. i == id) self.now.ids ≡ Some n)
            × (are_linked self.now (slice_index self.now.ids index) id ≡ true)) }
        ensures none { IfNone result (are_linked self.now (slice_index self.now.ids index) id ≡ false) }
    {
        let near = &self.near;
        match self.node_at(id) {
            Some(neighbour) if near[index].binary_search(&neighbour).is_ok() => Some(neighbour),
            _ => None,
        }
    }

    /// Whether these two are nodes with a link between them.
    pub fn linked(&self, a: u32, b: u32) -> bool
        ensures { result ≡ are_linked self.now a b }
    {
        let _ = &self.ids;
        match self.node_at(a) {
            Some(index) => self.neighbour_at(index, b).is_some(),
            None => false,
        }
    }

    /// The greatest identifier of the component of the node at this index.
    pub fn greatest_of(&self, index: usize) -> NodeId
        requires within { index < length self.now.ids }
        requires up { is_node self.now (slice_index self.now.ids index) ≡ true }
        ensures { result ≡ leader self.now (slice_index self.now.ids index) }
    {
        self.lemma_is_graph();
        let leaders = &self.leaders;
        let ids = self.ids();
        NodeId::new(ids[leaders[index]]).unwrap()
    }

    /// The topology with these nodes, all of them up, and these links, or the first fault of the lists.
    pub fn build(alloc: Global, nodes: &[u32], links: &[(u32, u32)]) -> Result<Topology, TopoFault>
        ensures ok { IfOk result (IsTopologyOf nodes.now links.now) }
        ensures err { IfErr result (λ f. f ≢ TopoFault.NoMemory → IsFirstFault nodes.now links.now f) }
    {
        let ids = match checked_ids(alloc, nodes) {
            Ok(ids) => Ids::new(alloc, ids)?,
            Err(fault) => return Err(fault),
        };
        let near = match checked_rows(alloc, &ids, links) {
            Ok(near) => near,
            Err(fault) => return Err(fault),
        };
        let leaders = leaders_of(alloc, &near)?;
        Ok(Topology {
            ids,
            near,
            leaders,
            link_count: links.len(),
        })
    }

    /// A topology with the link of `a` and `b` too. `StrangeNode` of the first of the two that isn't a
    /// node, else `SelfLink`, else `LinkIsThere`, else `TooManyLinks` where there are 8,192 already;
    /// `NoMemory` comes last.
    pub fn with_link(&self, alloc: Global, a: u32, b: u32) -> Result<Topology, TopoFault>
        ensures sound { OnOk result (link_fault self.now a b ≡ None) }
        ensures ok { IfOk result (λ changed. changed ≡ with_link self.now a b) }
        ensures err { IfErr result (λ f. f ≢ TopoFault.NoMemory → link_fault self.now a b ≡ Some f) }
    {
        let ids = &self.ids;
        let near = &self.near;
        let (i, j) = match end_indexes(ids, a, b) {
            Ok(ends) => ends,
            Err(fault) => return Err(fault),
        };
        if a == b {
            return Err(TopoFault::SelfLink(a));
        }
        if self.linked(a, b) {
            return Err(TopoFault::LinkIsThere);
        }
        if self.link_count >= MAX_LINKS {
            return Err(TopoFault::TooManyLinks);
        }
        let mut rows = copied_rows(alloc, near)?;
        let _ = link(&mut rows, i, j)?;
        let leaders = leaders_of(alloc, &rows)?;
        Ok(Topology {
            ids: ids.copy(alloc)?,
            near: rows,
            leaders,
            link_count: self.link_count + 1,
        })
    }

    /// A topology without the link of `a` and `b`. `StrangeNode` of the first of the two that isn't a
    /// node, else `NoSuchLink`; `NoMemory` comes last.
    pub fn without_link(&self, alloc: Global, a: u32, b: u32) -> Result<Topology, TopoFault>
        ensures sound { OnOk result (unlink_fault self.now a b ≡ None) }
        ensures ok { IfOk result (λ changed. changed ≡ without_link self.now a b) }
        ensures err { IfErr result (λ f. f ≢ TopoFault.NoMemory → unlink_fault self.now a b ≡ Some f) }
    {
        let ids = &self.ids;
        let near = &self.near;
        let (i, j) = match end_indexes(ids, a, b) {
            Ok(ends) => ends,
            Err(fault) => return Err(fault),
        };
        if !self.linked(a, b) {
            return Err(TopoFault::NoSuchLink);
        }
        let mut rows = copied_rows(alloc, near)?;
        unlink(&mut rows, i, j);
        let leaders = leaders_of(alloc, &rows)?;
        Ok(Topology {
            ids: ids.copy(alloc)?,
            near: rows,
            leaders,
            link_count: self.link_count - 1,
        })
    }

    /// A topology where the node `id` is down, and its links are gone for good. `StrangeNode` where it
    /// isn't a node; `NoMemory` comes last.
    pub fn without_node(&self, alloc: Global, id: u32) -> Result<Topology, TopoFault>
        ensures sound { OnOk result (off_fault self.now id ≡ None) }
        ensures ok { IfOk result (λ changed. changed ≡ without_node self.now id) }
        ensures err { IfErr result (λ f. f ≢ TopoFault.NoMemory → off_fault self.now id ≡ Some f) }
    {
        let near = &self.near;
        let index = match self.node_at(id) {
            Some(index) => index,
            None => return Err(TopoFault::StrangeNode(id)),
        };
        let ids = self.ids.without_node(alloc, id)?;
        let mut rows = copied_rows(alloc, near)?;
        isolate(&mut rows, index, &near[index]);
        let leaders = leaders_of(alloc, &rows)?;
        Ok(Topology {
            ids,
            near: rows,
            leaders,
            link_count: self.link_count - near[index].len(),
        })
    }

    /// A topology where the identifier `id` is up, a node that has no links yet. `StrangeNode` where it
    /// is none of the identifiers, else `NodeIsUp`; `NoMemory` comes last.
    pub fn with_node(&self, alloc: Global, id: u32) -> Result<Topology, TopoFault>
        ensures sound { OnOk result (on_fault self.now id ≡ None) }
        ensures ok { IfOk result (λ changed. changed ≡ with_node self.now id) }
        ensures err { IfErr result (λ f. f ≢ TopoFault.NoMemory → on_fault self.now id ≡ Some f) }
    {
        let near = &self.near;
        let leaders = &self.leaders;
        let index = match self.index_of(id) {
            Some(index) => index,
            None => return Err(TopoFault::StrangeNode(id)),
        };
        if self.is_up(index) {
            return Err(TopoFault::NodeIsUp);
        }
        let ids = self.ids.with_node(alloc, index)?;
        let rows = copied_rows(alloc, near)?;
        let leaders = leaders.to_vec(alloc)?;
        Ok(Topology {
            ids,
            near: rows,
            leaders,
            link_count: self.link_count,
        })
    }

    /// A topology that equals this one.
    pub fn copy(&self, alloc: Global) -> Result<Topology, AllocError>
        ensures { IfOk result (λ copy. copy ≡ self.now) }
    {
        let ids = &self.ids;
        let near = &self.near;
        let leaders = &self.leaders;
        Ok(Topology {
            ids: ids.copy(alloc)?,
            near: copied_rows(alloc, near)?,
            leaders: leaders.to_vec(alloc)?,
            link_count: self.link_count,
        })
    }

    /// The number of links of a shortest walk from each identifier to the one at this index, by index,
    /// and the number of identifiers where no walk leads there.
    pub fn distances_from(&self, alloc: Global, index: usize) -> Result<Vec<usize>, AllocError>
        requires { index < length self.now.ids }
        ensures count { IfOk result (λ ds. length ds.items ≡ length self.now.ids) }
        ensures distances { IfOk result (λ ds. (k : ℕ) → k < length self.now.ids
            → IsDistanceOrNone (length self.now.ids) self.now (slice_index self.now.ids k)
            (slice_index self.now.ids index) (slice_index ds.items k)) }
    {
        let near = &self.near;
        distances_to(alloc, near, index)
    }
}
