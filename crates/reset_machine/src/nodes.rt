// What a configuration keeps of its nodes.

ghost use Rattle.std.specs.Prelude.{◌≡◌, ◌<◌, IfErr, IfOk, OnErr, OnOk, length, slice_index};
ghost use Rattle.topology.specs.Graph.{IsGraph};
ghost use Rattle.reset_model.specs.Configuration.{IsShaped, start_list};

use crate::renewal::{copy_all, renew_trees, renew_waves, renewed_locals};
use app_interface::Application;
use std::alloc::{AllocError, AllocFailed, Global};
use std::marker::Model;
use topology::Topology;
use tree_layer::{TreeRegs, boot_tree};
use wave_layer::{Modulus, WaveRegs, boot_wave};

/// A topology, the number modulo which sessions are counted, and of each node its tree registers, its wave
/// registers, and the local state and the declared start state of the application `P`.
#[derive(Drop)]
pub struct Nodes<P: Application> {
    topology: Topology,
    modulus: Modulus,
    trees: Vec<TreeRegs>,
    waves: Vec<WaveRegs>,
    locals: Vec<P::Local>,
    // What an open or a join puts into the local state.
    starts: Vec<P::Local>,
}

impl<P: Application> Model for Nodes<P> {
    ghost use Rattle.std.specs.Prelude.{◌≡◌};
    ghost use Rattle.reset_model.specs.Configuration.{Configuration, IsShaped, start_list};

    ghost Value = { Configuration P.Local };

    ghost use Rattle.std.specs.Coded.{codes};
    ghost use Rattle.topology.specs.Graph.{graph_code};

    ghost coded = { Prim.hlevel (codes, graph_code) };

    ghost view = { λ c. record {
      graph = c.topology;
      modulus = c.modulus;
      trees = c.trees.items;
      waves = c.waves.items;
      locals = c.locals.items;
    } };

    // A contract doesn't see the start states: the application and the graph give them.
    ghost invariant = { λ c. IsShaped (record {
      graph = c.topology;
      modulus = c.modulus;
      trees = c.trees.items;
      waves = c.waves.items;
      locals = c.locals.items;
    }) × (c.starts.items ≡ start_list P.app c.topology) };
}

impl<P: Application> Nodes<P> {
    ghost use Rattle.reset_model.specs.Configuration.{with_local, with_tree, with_wave};
    ghost use Rattle.reset_model.specs.Topologies.{with_topology};
    ghost use Rattle.reset_model.specs.Outcome.{IsBoot};

    /// The nodes as they are booted, with sessions counted modulo this number. If an allocation fails the
    /// topology comes back.
    pub fn boot(
        alloc: Global,
        topology: Topology,
        modulus: Modulus,
    ) -> Result<Nodes<P>, AllocFailed<Topology>>
        ensures ok { IfOk result (IsBoot P.app topology modulus) }
        ensures value_returned { IfErr result (λ e. e.value ≡ topology) }
    {
        let trees = match boot_tree(alloc, &topology) {
            Ok(trees) => trees,
            Err(AllocError) => return Err(AllocFailed { value: topology }),
        };
        let waves = match boot_wave(alloc, topology.len()) {
            Ok(waves) => waves,
            Err(AllocError) => return Err(AllocFailed { value: topology }),
        };
        let locals = match start_all::<P>(alloc, &topology) {
            Ok(locals) => locals,
            Err(AllocError) => return Err(AllocFailed { value: topology }),
        };
        let starts = match start_all::<P>(alloc, &topology) {
            Ok(starts) => starts,
            Err(AllocError) => return Err(AllocFailed { value: topology }),
        };
        Ok(Nodes {
            topology,
            modulus,
            trees,
            waves,
            locals,
            starts,
        })
    }

    /// The same nodes once more.
    pub fn copy(&self, alloc: Global) -> Result<Nodes<P>, AllocError>
        ensures { IfOk result (λ copy. copy ≡ self.now) }
    {
        let trees = &self.trees;
        let waves = &self.waves;
        Ok(Nodes {
            topology: self.topology.copy(alloc)?,
            modulus: self.modulus,
            trees: trees.to_vec(alloc)?,
            waves: waves.to_vec(alloc)?,
            locals: copy_all::<P>(alloc, &self.locals)?,
            starts: copy_all::<P>(alloc, &self.starts)?,
        })
    }

    /// Their topology is a graph, sessions are counted modulo a number from 2 to 4294967296, and
    /// each node has its registers and its local state.
    pub fn lemma_is_graph(&self)
        ensures graph { IsGraph self.now.graph }
        ensures shaped { IsShaped self.now }
    {
        self.topology.lemma_is_graph();
    }

    /// Puts tree registers at the node with this index.
    pub fn set_tree(&mut self, index: usize, regs: TreeRegs)
        requires { index < length self.old.graph.ids }
        ensures { self.new ≡ with_tree self.old (slice_index self.old.graph.ids index) regs }
    {
        self.topology.lemma_is_graph();
        self.trees[index] = regs;
    }

    /// Puts wave registers at the node with this index.
    pub fn set_wave(&mut self, index: usize, regs: WaveRegs)
        requires { index < length self.old.graph.ids }
        ensures { self.new ≡ with_wave self.old (slice_index self.old.graph.ids index) regs }
    {
        self.topology.lemma_is_graph();
        self.waves[index] = regs;
    }

    /// Puts a local state at the node with this index.
    pub fn set_local(&mut self, index: usize, local: P::Local)
        requires { index < length self.old.graph.ids }
        ensures { self.new ≡ with_local self.old (slice_index self.old.graph.ids index) local }
    {
        self.topology.lemma_is_graph();
        self.locals[index] = local;
    }

    /// Puts a topology of the same identifiers, with its start states: a node that comes up is its own root, normal in
    /// session 0, and has its start state. If an allocation fails the topology comes back.
    pub fn set_topology(
        &mut self,
        alloc: Global,
        topology: Topology,
    ) -> Result<(), AllocFailed<Topology>>
        requires { topology.ids ≡ self.old.graph.ids }
        ensures ok { OnOk result (self.new ≡ with_topology P.app self.old topology) }
        ensures value_returned { IfErr result (λ e. e.value ≡ topology) }
        ensures kept { OnErr result (self.new ≡ self.old) }
    {
        let starts = match start_all::<P>(alloc, &topology) {
            Ok(starts) => starts,
            Err(AllocError) => return Err(AllocFailed { value: topology }),
        };
        let before = &self.topology;
        let locals = match renewed_locals::<P>(alloc, before, &topology, &self.locals) {
            Ok(locals) => locals,
            Err(AllocError) => return Err(AllocFailed { value: topology }),
        };
        renew_trees(&self.topology, &topology, &mut self.trees);
        renew_waves(&self.topology, &topology, &mut self.waves);
        self.locals = locals;
        self.topology = topology;
        self.starts = starts;
        Ok(())
    }

    /// The topology.
    pub fn topology(&self) -> &Topology
        ensures { result.now ≡ self.now.graph }
    {
        &self.topology
    }

    /// The number modulo which sessions are counted.
    pub fn modulus(&self) -> Modulus
        ensures { result ≡ self.now.modulus }
    {
        self.modulus
    }

    /// The tree registers of all nodes, in the order of their identifiers.
    pub fn trees(&self) -> &[TreeRegs]
        ensures value { result.now ≡ self.now.trees }
        ensures shaped { IsShaped self.now }
    {
        &self.trees
    }

    /// The wave registers of all nodes, in the order of their identifiers.
    pub fn waves(&self) -> &[WaveRegs]
        ensures value { result.now ≡ self.now.waves }
        ensures shaped { IsShaped self.now }
    {
        &self.waves
    }

    /// The local states of all nodes, in the order of their identifiers.
    pub fn locals(&self) -> &[P::Local]
        ensures value { result.now ≡ self.now.locals }
        ensures shaped { IsShaped self.now }
    {
        &self.locals
    }

    /// The nodes' start states, in the order of the ids.
    pub fn starts(&self) -> &[P::Local]
        ensures { result.now ≡ start_list P.app self.now.graph }
    {
        &self.starts
    }
}

// The declared start states, in the order of the ids.
fn start_all<P: Application>(
    alloc: Global,
    topology: &Topology,
) -> Result<Vec<P::Local>, AllocError>
    ensures { IfOk result (λ starts. starts.items ≡ start_list P.app topology.now) }
{
    let mut starts = Vec::new(alloc);
    for index in 0..topology.len() {
        starts.push(P::on_start(alloc, topology, index)?)?;
    }
    Ok(starts)
}
