ghost use Rattle.std.specs.Prelude.{◌≡◌, ◌==◌, ◌||◌, ◌<◌, true, None, ℕ, IfOk, filter, length, not, position};
ghost use Rattle.std.specs.Prelude.{if◌then◌else◌, slice_index};
ghost use Rattle.topology.specs.Changing.{members_with, members_without};
ghost use Rattle.topology.specs.Graph.{has};
ghost use Rattle.topology.specs.Rows.{AreIds, AreIndexes, AreNodes};

use std::alloc::{AllocError, Global};
use std::marker::Model;

/// Identifiers, those of them that are up, which are the nodes, and a table of the nodes' indexes among
/// all identifiers.
#[derive(Drop)]
pub struct Ids {
    ascending: Vec<u32>,
    nodes: Vec<u32>,
    indexes: Vec<Option<u16>>,
}

impl Model for Ids {
    ghost use Rattle.topology.specs.Rows.{Membership, membership_code, AreIndexed};

    ghost Value = { Membership };

    ghost coded = { membership_code };

    ghost view = { λ r. record { ids = r.ascending.items; nodes = r.nodes.items } };

    ghost invariant = { λ r. AreIndexed (record { ids = r.ascending.items; nodes = r.nodes.items })
        r.indexes.items };
}

impl Ids {
    /// One to `MAX_NODES` identifiers, which ascend and are all up.
    pub fn new(alloc: Global, ascending: Vec<u32>) -> Result<Ids, AllocError>
        requires { AreIds ascending.items }
        ensures { IfOk result (λ r. r ≡ record { ids = ascending.items; nodes = ascending.items }) }
    {
        let indexes = indexes_of(alloc, &ascending)?;
        let nodes = ascending.to_vec(alloc)?;
        Ok(Ids {
            ascending,
            nodes,
            indexes,
        })
    }

    /// What they are: one to `MAX_NODES` identifiers, which ascend, and nodes among them.
    pub fn lemma_are_ids(&self)
        ensures ids { AreIds self.now.ids }
        ensures nodes { AreNodes self.now.ids self.now.nodes }
    {
        let _ = &self.ascending;
    }

    /// The identifiers in their order.
    pub fn as_slice(&self) -> &[u32]
        ensures { result.now ≡ self.now.ids }
    {
        self.ascending.as_slice()
    }

    /// The nodes in their order.
    pub fn nodes(&self) -> &[u32]
        ensures { result.now ≡ self.now.nodes }
    {
        self.nodes.as_slice()
    }

    /// The index of this identifier. None where it is none of them.
    pub fn index_of(&self, id: u32) -> Option<usize>
        ensures { result ≡ position (λ i. i == id) self.now.ids }
    {
        let ascending = &self.ascending;
        match ascending.binary_search(&id) {
            Ok(index) => Some(index),
            Err(_) => None,
        }
    }

    /// The index of this node among the identifiers. None where it is none of the nodes.
    pub fn node_at(&self, id: u32) -> Option<usize>
        ensures { result ≡ (if has self.now.nodes id then position (λ i. i == id) self.now.ids else None) }
    {
        let indexes = &self.indexes;
        match indexes.get(id as usize) {
            Some(Some(index)) => Some(usize::from(*index)),
            _ => None,
        }
    }

    /// Whether this is one of the nodes.
    pub fn is_up(&self, id: u32) -> bool
        ensures { result ≡ has self.now.nodes id }
    {
        self.lemma_are_ids();
        self.node_at(id).is_some()
    }

    /// The same identifiers and nodes.
    pub fn copy(&self, alloc: Global) -> Result<Ids, AllocError>
        ensures { IfOk result (λ copy. copy ≡ self.now) }
    {
        let ascending = &self.ascending;
        let nodes = &self.nodes;
        let indexes = &self.indexes;
        Ok(Ids {
            ascending: ascending.to_vec(alloc)?,
            nodes: nodes.to_vec(alloc)?,
            indexes: indexes.to_vec(alloc)?,
        })
    }

    /// The same identifiers, where this one is no node.
    pub fn without_node(&self, alloc: Global, id: u32) -> Result<Ids, AllocError>
        requires { has self.now.nodes id ≡ true }
        ensures { IfOk result (λ changed. changed ≡ members_without self.now id) }
    {
        let ascending = &self.ascending;
        let nodes = &self.nodes;
        let indexes = &self.indexes;
        let ascending = ascending.to_vec(alloc)?;
        let mut nodes = nodes.to_vec(alloc)?;
        let mut indexes = indexes.to_vec(alloc)?;
        remove_id(&mut nodes, id);
        indexes[id as usize] = None;
        Ok(Ids {
            ascending,
            nodes,
            indexes,
        })
    }

    /// The same identifiers, where the one at this index is a node.
    pub fn with_node(&self, alloc: Global, index: usize) -> Result<Ids, AllocError>
        requires { index < length self.now.ids }
        ensures { IfOk result (λ changed. changed ≡ members_with self.now (slice_index self.now.ids index)) }
    {
        let ascending = &self.ascending;
        let indexes = &self.indexes;
        let id = ascending[index];
        let nodes = nodes_with(alloc, self, id)?;
        let ascending = ascending.to_vec(alloc)?;
        let mut indexes = indexes.to_vec(alloc)?;
        indexes[id as usize] = Some(index as u16);
        Ok(Ids {
            ascending,
            nodes,
            indexes,
        })
    }
}

// The nodes, and the identifier as one of them.
fn nodes_with(alloc: Global, members: &Ids, id: u32) -> Result<Vec<u32>, AllocError>
    ensures { IfOk result (λ nodes.
        nodes.items ≡ filter (λ j. has members.now.nodes j || j == id) members.now.ids) }
{
    let mut nodes = Vec::new(alloc);
    for other in members.as_slice() {
        if members.is_up(*other) || *other == id {
            nodes.push(*other)?;
        }
    }
    Ok(nodes)
}

// Takes an identifier out of a list.
fn remove_id(ids: &mut Vec<u32>, id: u32)
    ensures { ids.new.items ≡ filter (λ i. not (i == id)) ids.old.items }
{
    ids.retain(|i| *i != id);
}

// The table of the indexes of these identifiers, as long as the greatest needs.
fn indexes_of(alloc: Global, ids: &[u32]) -> Result<Vec<Option<u16>>, AllocError>
    requires { AreIds ids.now }
    ensures indexes { IfOk result (λ indexes. AreIndexes ids.now ids.now indexes.items) }
    ensures room { IfOk result (λ indexes. (k : ℕ) → k < length ids.now
        → slice_index ids.now k < length indexes.items) }
{
    let greatest = ids[ids.len() - 1];
    let mut indexes = vec![in alloc; None; greatest as usize + 1]?;
    for (index, id) in ids.iter().enumerate() {
        indexes[*id as usize] = Some(index as u16);
    }
    Ok(indexes)
}
