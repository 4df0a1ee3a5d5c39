// Which nodes have something to do, as far as it is known.

ghost use Rattle.std.specs.Prelude.{◌≡◌, ◌<◌, IfNone, IfOk, IfSome, length, take};
ghost use Rattle.reset_machine.specs.ReadySet.{DoubtsAnyAround};

use indexmap::IndexSet;
use std::alloc::{AllocError, Global};
use std::marker::Model;
use topology::Topology;

/// What is known of the nodes, by their indexes: some are known to have something to do, some to have
/// nothing, and the others are in doubt.
#[derive(Drop)]
pub struct ReadySet {
    // All nodes: first those that are known as ready, then those in doubt, then those that are known as
    // idle. A node moves from one part to another by an exchange, which takes no memory.
    nodes: IndexSet<usize>,
    ready: usize,
    idle: usize,
    // Of each node whether it is surely in doubt, so that it needn't be looked for. A node in doubt may
    // have no mark.
    marks: Vec<bool>,
}

impl Model for ReadySet {
    ghost use Rattle.reset_machine.specs.ReadySet.{AreMarks, IsStanding, Standing};

    ghost Value = { Standing };

    ghost view = { λ s. record { nodes = s.nodes.keys; ready = s.ready; idle = s.idle } };

    ghost invariant = { λ s. IsStanding (record { nodes = s.nodes.keys; ready = s.ready; idle = s.idle })
        × AreMarks (record { nodes = s.nodes.keys; ready = s.ready; idle = s.idle }) s.marks.items };
}

impl ReadySet {
    ghost use Rattle.reset_machine.specs.ReadySet.{Doubts, DoubtsAll, DoubtsAround, IsStanding};
    ghost use Rattle.reset_machine.specs.ReadySet.{Settles, last_in_doubt};

    /// This many nodes, all in doubt.
    pub fn new(alloc: Global, count: usize) -> Result<ReadySet, AllocError>
        ensures count { IfOk result (λ s. length s.nodes ≡ count) }
        ensures doubts { IfOk result DoubtsAll }
    {
        let mut nodes = IndexSet::with_capacity(alloc, count)?;
        for node in 0..count {
            nodes.insert(node)?;
        }
        let marks = vec![in alloc; false; count]?;
        Ok(ReadySet {
            nodes,
            ready: 0,
            idle: count,
            marks,
        })
    }

    /// What each set is.
    pub fn lemma_is_standing(&self)
        ensures { IsStanding self.now }
    {
        let _ = &self.nodes;
    }

    /// Puts a node into doubt.
    pub fn doubt(&mut self, node: usize)
        requires { node < length self.old.nodes }
        ensures { Doubts self.old node self.new }
    {
        if self.marks[node] {
            return;
        }
        self.marks[node] = true;
        let Some(place) = self.nodes.get_index_of(&node) else {
            unreachable!()
        };
        if place < self.ready {
            self.ready -= 1;
            self.nodes.swap_indices(place, self.ready);
        } else if self.idle <= place {
            self.nodes.swap_indices(place, self.idle);
            self.idle += 1;
        }
    }

    /// Puts a node of a topology and its neighbours into doubt.
    pub fn doubt_around(&mut self, topology: &Topology, node: usize)
        requires node { node < length topology.now.ids }
        requires count { length self.old.nodes ≡ length topology.now.ids }
        ensures { DoubtsAround topology.now self.old node self.new }
    {
        topology.lemma_is_graph();
        self.lemma_is_standing();
        self.doubt(node);
        for near in topology.neighbours(node) {
            self.doubt(*near);
        }
    }

    /// The last node in doubt. None where none is.
    pub fn last_in_doubt(&self) -> Option<usize>
        ensures last { IfSome result (λ node. (node ≡ last_in_doubt self.now) × (node < length self.now.nodes)) }
        ensures some { IfSome result (λ _. self.now.ready < self.now.idle) }
        ensures none { IfNone result (self.now.ready ≡ self.now.idle) }
    {
        let nodes = &self.nodes;
        if self.ready == self.idle {
            return None;
        }
        Some(nodes.as_slice()[self.idle - 1])
    }

    /// Notes whether the last node in doubt is ready.
    pub fn settle(&mut self, is_ready: bool)
        requires { self.old.ready < self.old.idle }
        ensures { Settles self.old is_ready self.new }
    {
        let last = self.idle - 1;
        let node = self.nodes.as_slice()[last];
        self.marks[node] = false;
        if is_ready {
            self.nodes.swap_indices(last, self.ready);
            self.ready += 1;
        } else {
            self.idle = last;
        }
    }

    /// The nodes that are known as ready.
    pub fn ready(&self) -> &[usize]
        ensures { result.now ≡ take self.now.ready self.now.nodes }
    {
        let nodes = &self.nodes;
        &nodes.as_slice()[..self.ready]
    }
}

/// Puts a node of a topology and its neighbours into doubt, where something is known.
#[inline(always)]
pub fn doubt_around(known: &mut Option<ReadySet>, topology: &Topology, node: usize)
    requires node { node < length topology.now.ids }
    requires count { IfSome known.old (λ s. length s.nodes ≡ length topology.now.ids) }
    ensures { DoubtsAnyAround topology.now known.old node known.new }
{
    if let Some(known) = known {
        known.doubt_around(topology, node);
    }
}
