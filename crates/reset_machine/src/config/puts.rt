// What is put into a configuration from outside, whatever it is.

ghost use Rattle.std.specs.Prelude.{◌≡◌, IfErr, OnErr, OnOk};
ghost use Rattle.topology.specs.Graph.{IsNode};

use crate::config::Config;
use app_interface::Application;
use reset_model::StepRefusal;
use std::alloc::{AllocFailed, Global};
use topology::Topology;
use tree_layer::TreeRegs;
use wave_layer::WaveRegs;

impl<P: Application> Config<P> {
    ghost use Rattle.reset_model.specs.Configuration.{with_local, with_tree, with_wave};
    ghost use Rattle.reset_model.specs.Topologies.{with_topology};

    /// Puts tree registers at the node with this identifier, whatever they are, or refuses a
    /// `StrangeNode`.
    pub fn put_tree(&mut self, at: u32, regs: TreeRegs) -> Result<(), StepRefusal>
        ensures ok { OnOk result (IsNode self.old.graph at × (self.new ≡ with_tree self.old at regs)) }
        ensures err { IfErr result (λ f. (f ≡ StepRefusal.StrangeNode) × (IsNode self.old.graph at → ⊥)) }
        ensures kept { OnErr result (self.new ≡ self.old) }
    {
        self.nodes.lemma_is_graph();
        match self.nodes.topology().node_at(at) {
            Some(ix) => {
                self.set_tree(ix, regs);
                Ok(())
            }
            None => Err(StepRefusal::StrangeNode),
        }
    }

    /// Puts wave registers at the node with this identifier, whatever they are, or refuses a
    /// `StrangeNode`.
    pub fn put_wave(&mut self, at: u32, regs: WaveRegs) -> Result<(), StepRefusal>
        ensures ok { OnOk result (IsNode self.old.graph at × (self.new ≡ with_wave self.old at regs)) }
        ensures err { IfErr result (λ f. (f ≡ StepRefusal.StrangeNode) × (IsNode self.old.graph at → ⊥)) }
        ensures kept { OnErr result (self.new ≡ self.old) }
    {
        self.nodes.lemma_is_graph();
        match self.nodes.topology().node_at(at) {
            Some(ix) => {
                self.set_wave(ix, regs, None);
                Ok(())
            }
            None => Err(StepRefusal::StrangeNode),
        }
    }

    /// Puts a local state at the node with this identifier, whatever it is, or refuses a
    /// `StrangeNode` and hands the local state back.
    pub fn put_local(&mut self, at: u32, local: P::Local) -> Result<(), (StepRefusal, P::Local)>
        ensures ok { OnOk result (IsNode self.old.graph at × (self.new ≡ with_local self.old at local)) }
        ensures err { IfErr result (λ f. (f ≡ (StepRefusal.StrangeNode, local)) × (IsNode self.old.graph at → ⊥)) }
        ensures kept { OnErr result (self.new ≡ self.old) }
    {
        self.nodes.lemma_is_graph();
        match self.nodes.topology().node_at(at) {
            Some(ix) => {
                self.set_local(ix, local);
                Ok(())
            }
            None => Err((StepRefusal::StrangeNode, local)),
        }
    }

    /// Puts a topology of the same identifiers, whatever its links and whichever of them are up. A node that comes
    /// up starts anew: it is its own root, normal in session 0, and has its start state. The modulus and the others'
    /// registers and local states stay, and an open or a join puts from now on the start state of this topology.
    /// If an allocation fails the topology comes back.
    pub fn put_topology(
        &mut self,
        alloc: Global,
        topology: Topology,
    ) -> Result<(), AllocFailed<Topology>>
        requires { topology.ids ≡ self.old.graph.ids }
        ensures ok { OnOk result (self.new ≡ with_topology P.app self.old topology) }
        ensures value_returned { IfErr result (λ e. e.value ≡ topology) }
        ensures kept { OnErr result (self.new ≡ self.old) }
    {
        self.nodes.set_topology(alloc, topology)?;
        self.known = None;
        Ok(())
    }
}
