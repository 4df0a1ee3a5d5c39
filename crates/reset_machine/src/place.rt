// A node of a configuration, as what happens at the node reads it.

ghost use Rattle.std.specs.Prelude.{◌≡◌, ◌<◌, ◌==◌, All, IfErr, IfNone, IfSome, OnErr, OnOk, Some};
ghost use Rattle.std.specs.Prelude.{false, length, map, position, slice_index, true};
ghost use Rattle.topology.specs.Graph.{IsGraph, IsNode, are_linked, node_bound};
ghost use Rattle.reset_model.specs.Configuration.{IsShaped, local_of, tree_of, wave_of};
ghost use Rattle.reset_model.specs.LocalSteps.{is_neighbour};

use crate::nodes::Nodes;
use app_interface::Application;
use reset_model::StepRefusal;
use std::marker::Model;
use topology::Topology;
use tree_layer::TreeRegs;
use wave_layer::{Modulus, WaveRegs};

/// A node of a configuration, by its identifier and its index. An event's node is looked up once, and
/// all that happens there reads the configuration from here.
#[derive(Drop)]
pub struct Place<'a, P: Application> {
    nodes: &'a Nodes<P>,
    id: u32,
    index: usize,
}

impl<'a, P: Application> Model for Place<'a, P> {
    ghost use Rattle.reset_machine.specs.Place.{IsPlace, NodePlace};

    ghost Value = { NodePlace P.Local };

    ghost use Rattle.std.specs.Coded.{codes};
    ghost use Rattle.topology.specs.Graph.{graph_code};

    ghost coded = { Prim.hlevel (codes, graph_code) };

    ghost view = { λ p. record { config = p.nodes.now; id = p.id; index = p.index } };

    ghost invariant = { λ p. IsPlace (record { config = p.nodes.now; id = p.id; index = p.index }) };
}

impl<'a, P: Application> Place<'a, P> {
    ghost use Rattle.reset_machine.specs.Place.{IsNear, near_ids};

    /// The node with this identifier. None where there is no such node.
    pub fn of(nodes: &'a Nodes<P>, id: u32) -> Option<Place<'a, P>>
        ensures found { IfSome result (λ place. (place.config ≡ nodes.now) × (place.id ≡ id)) }
        ensures node { IfSome result (λ _. IsNode nodes.now.graph id) }
        ensures none { IfNone result (IsNode nodes.now.graph id → ⊥) }
    {
        nodes.lemma_is_graph();
        match nodes.topology().node_at(id) {
            Some(index) => Some(Place { nodes, id, index }),
            None => None,
        }
    }

    /// The node at this index, which is up.
    pub fn at(nodes: &'a Nodes<P>, index: usize) -> Place<'a, P>
        requires short { index < length nodes.now.graph.ids }
        requires node { IsNode nodes.now.graph (slice_index nodes.now.graph.ids index) }
        ensures config { result.config ≡ nodes.now }
        ensures id { result.id ≡ slice_index nodes.now.graph.ids index }
        ensures index { result.index ≡ index }
    {
        nodes.lemma_is_graph();
        let id = nodes.topology().ids()[index];
        Place { nodes, id, index }
    }

    /// What each place is.
    pub fn lemma_is_place(&self)
        ensures graph { IsGraph self.now.config.graph }
        ensures shaped { IsShaped self.now.config }
        ensures place { position (λ i. i == self.now.id) self.now.config.graph.ids ≡ Some self.now.index }
        ensures node { IsNode self.now.config.graph self.now.id }
    {
        self.nodes.lemma_is_graph();
    }

    /// The topology.
    pub fn topology(&self) -> &'a Topology
        ensures { result.now ≡ self.now.config.graph }
    {
        self.nodes.topology()
    }

    /// The node's identifier.
    pub fn id(&self) -> u32
        ensures { result ≡ self.now.id }
    {
        self.id
    }

    /// The node's index.
    pub fn index(&self) -> usize
        ensures index { result ≡ self.now.index }
        ensures place { position (λ i. i == self.now.id) self.now.config.graph.ids ≡ Some result }
    {
        self.index
    }

    /// The bound K of the distances.
    pub fn bound(&self) -> u32
        ensures bound { result ≡ node_bound self.now.config.graph }
        ensures positive { 0 < result }
    {
        let topology = self.nodes.topology();
        topology.lemma_is_graph();
        topology.len() as u32
    }

    /// The number modulo which sessions are counted.
    pub fn modulus(&self) -> Modulus
        ensures { result ≡ self.now.config.modulus }
    {
        self.nodes.modulus()
    }

    /// The node's tree registers.
    pub fn tree(&self) -> TreeRegs
        ensures { result ≡ tree_of self.now.config self.now.id }
    {
        self.nodes.trees()[self.index]
    }

    /// The node's wave registers.
    pub fn wave(&self) -> WaveRegs
        ensures { result ≡ wave_of self.now.config self.now.id }
    {
        self.nodes.waves()[self.index]
    }

    /// The node's local state.
    pub fn local(&self) -> &'a P::Local
        ensures { result.now ≡ local_of P.app self.now.config self.now.id }
    {
        &self.nodes.locals()[self.index]
    }

    /// The local state that the node restarts with.
    pub fn start(&self) -> &'a P::Local
        ensures { result.now ≡ P.app.start self.now.config.graph self.now.id }
    {
        &self.nodes.starts()[self.index]
    }

    /// The indexes of the node's neighbours, ascending.
    pub fn neighbours(&self) -> &'a [usize]
        ensures ids { map (λ n. slice_index self.now.config.graph.ids n) result.now ≡ near_ids self.now }
        ensures within { All (λ n. n < length self.now.config.graph.ids) result.now }
    {
        self.nodes.topology().neighbours(self.index)
    }

    /// The index of the neighbour with this identifier. None where it isn't a neighbour's.
    pub fn neighbour(&self, id: u32) -> Option<usize>
        ensures found { IfSome result (IsNear self.now id) }
        ensures none { IfNone result (are_linked self.now.config.graph self.now.id id ≡ false) }
    {
        self.nodes.topology().neighbour_at(self.index, id)
    }

    /// Whether the neighbour that is named, if one is, is a neighbour. A stranger is refused.
    pub fn named(&self, other: Option<u32>) -> Result<(), StepRefusal>
        ensures near { OnOk result (is_neighbour self.now.config.graph self.now.id other ≡ true) }
        ensures err { IfErr result (λ f. f ≡ StepRefusal.StrangeNeighbour) }
        ensures stranger { OnErr result (is_neighbour self.now.config.graph self.now.id other ≡ false) }
    {
        match other {
            None => Ok(()),
            Some(id) => match self.neighbour(id) {
                Some(_) => Ok(()),
                None => Err(StepRefusal::StrangeNeighbour),
            },
        }
    }

    /// The identifier at this index.
    pub fn id_at(&self, index: usize) -> u32
        requires { index < length self.now.config.graph.ids }
        ensures { result ≡ slice_index self.now.config.graph.ids index }
    {
        self.nodes.topology().ids()[index]
    }

    /// The tree registers at this index.
    pub fn tree_at(&self, index: usize) -> TreeRegs
        requires { index < length self.now.config.graph.ids }
        ensures { result ≡ tree_of self.now.config (slice_index self.now.config.graph.ids index) }
    {
        self.nodes.lemma_is_graph();
        self.nodes.trees()[index]
    }

    /// The wave registers at this index.
    pub fn wave_at(&self, index: usize) -> WaveRegs
        requires { index < length self.now.config.graph.ids }
        ensures { result ≡ wave_of self.now.config (slice_index self.now.config.graph.ids index) }
    {
        self.nodes.lemma_is_graph();
        self.nodes.waves()[index]
    }

    /// The local state at this index.
    pub fn local_at(&self, index: usize) -> &'a P::Local
        requires { index < length self.now.config.graph.ids }
        ensures { result.now ≡ local_of P.app self.now.config (slice_index self.now.config.graph.ids index) }
    {
        self.nodes.lemma_is_graph();
        &self.nodes.locals()[index]
    }
}
