// What a configuration has: its topology, and the registers and the local states of its nodes.

ghost use Rattle.std.specs.Prelude.{◌≡◌, IfSome, IfNone};
ghost use Rattle.topology.specs.Components.{leader};
ghost use Rattle.topology.specs.Graph.{IsNode};
ghost use Rattle.reset_model.specs.Configuration.{IsShaped};

use crate::config::Config;
use app_interface::Application;
use topology::Topology;
use tree_layer::TreeRegs;
use wave_layer::{Modulus, WaveRegs};

impl<P: Application> Config<P> {
    ghost use Rattle.reset_model.specs.Configuration.{local_of, tree_of, wave_of};
    ghost use Rattle.reset_model.specs.WavePicture.{HasJoined};

    /// The topology.
    pub fn topology(&self) -> &Topology
        ensures { result.now ≡ self.now.graph }
    {
        self.nodes.topology()
    }

    /// The number modulo which sessions are counted. A configuration keeps the one that it was booted with.
    pub fn modulus(&self) -> Modulus
        ensures { result ≡ self.now.modulus }
    {
        self.nodes.modulus()
    }

    /// The tree registers of all identifiers, in their order; of one that is down those that it had.
    pub fn trees(&self) -> &[TreeRegs]
        ensures value { result.now ≡ self.now.trees }
        ensures shaped { IsShaped self.now }
    {
        self.nodes.trees()
    }

    /// The wave registers of all identifiers, in their order; of one that is down those that it had.
    pub fn waves(&self) -> &[WaveRegs]
        ensures value { result.now ≡ self.now.waves }
        ensures shaped { IsShaped self.now }
    {
        self.nodes.waves()
    }

    /// The local states of all identifiers, in their order; of one that is down the one that it had.
    pub fn locals(&self) -> &[P::Local]
        ensures value { result.now ≡ self.now.locals }
        ensures shaped { IsShaped self.now }
    {
        self.nodes.locals()
    }

    /// The tree registers of the node with this identifier. None where there is no such node.
    pub fn tree_at(&self, id: u32) -> Option<TreeRegs>
        ensures found { IfSome result (λ regs. IsNode self.now.graph id × (regs ≡ tree_of self.now id)) }
        ensures none { IfNone result (IsNode self.now.graph id → ⊥) }
    {
        self.nodes.lemma_is_graph();
        let trees = self.nodes.trees();
        match self.nodes.topology().node_at(id) {
            Some(ix) => Some(trees[ix]),
            None => None,
        }
    }

    /// The wave registers of the node with this identifier. None where there is no such node.
    pub fn wave_at(&self, id: u32) -> Option<WaveRegs>
        ensures found { IfSome result (λ regs. IsNode self.now.graph id × (regs ≡ wave_of self.now id)) }
        ensures none { IfNone result (IsNode self.now.graph id → ⊥) }
    {
        self.nodes.lemma_is_graph();
        let waves = self.nodes.waves();
        match self.nodes.topology().node_at(id) {
            Some(ix) => Some(waves[ix]),
            None => None,
        }
    }

    /// The local state of the node with this identifier. None where there is no such node.
    pub fn local_at(&self, id: u32) -> Option<&P::Local>
        ensures found { IfSome result (λ local. IsNode self.now.graph id × (local.now ≡ local_of P.app self.now id)) }
        ensures none { IfNone result (IsNode self.now.graph id → ⊥) }
    {
        self.nodes.lemma_is_graph();
        let locals = self.nodes.locals();
        match self.nodes.topology().node_at(id) {
            Some(ix) => Some(&locals[ix]),
            None => None,
        }
    }

    /// The local state of the node with this identifier, where it has joined the newest session of its
    /// component. None elsewhere, and where there is no such node.
    pub fn newest_local(&self, id: u32) -> Option<&P::Local>
        ensures found { IfSome result
            (λ local. IsNode self.now.graph id × HasJoined self.now.graph (wave_of self.now) id
            × (local.now ≡ local_of P.app self.now id)) }
        ensures none { IfNone result (IsNode self.now.graph id → HasJoined self.now.graph (wave_of self.now) id → ⊥) }
    {
        let regs = self.wave_at(id)?;
        let newest = self.newest_session(id)?;
        if regs.session == newest {
            self.local_at(id)
        } else {
            None
        }
    }

    /// The newest session of the component of the node with this identifier: that of its leader. None where
    /// there is no such node.
    pub fn newest_session(&self, id: u32) -> Option<u32>
        ensures found { IfSome result (λ session. IsNode self.now.graph id
            × (session ≡ (wave_of self.now (leader self.now.graph id)).session)) }
        ensures none { IfNone result (IsNode self.now.graph id → ⊥) }
    {
        self.nodes.lemma_is_graph();
        let topology = self.nodes.topology();
        match topology.node_at(id) {
            Some(index) => Some(self.session_at(topology.greatest_of(index).get())),
            None => None,
        }
    }

    // The session of a node.
    fn session_at(&self, id: u32) -> u32
        requires { IsNode self.now.graph id }
        ensures { result ≡ (wave_of self.now id).session }
    {
        self.wave_at(id).unwrap().session
    }
}
