// Faults that are done to a configuration.

ghost use Rattle.std.specs.Prelude.{◌≡◌, ◌≢◌, ◌&&◌, Ok, Err, IfErr, MatchResult, OnErr, OnOk};
ghost use Rattle.topology.specs.Graph.{is_node};
ghost use Rattle.app_interface.specs.Ids.{is_id};
ghost use Rattle.reset_model.specs.Topologies.{with_topology};
ghost use Rattle.fault_inject.specs.Effects.{AsksForMemory, injected};
ghost use Rattle.fault_inject.specs.declared.fault.Fault.TheVariants.{SetTree, SetWave, SetLocal, LinkDown, LinkUp};
ghost use Rattle.fault_inject.specs.declared.fault.Fault.TheVariants.{NodeDown, NodeUp};

use crate::fault::Fault;
use crate::refusal::FaultRefusal;
use app_interface::{Application, LocalFault};
use reset_machine::Config;
use std::alloc::Global;
use topology::{NodeId, TopoFault, Topology};
use tree_layer::TreeRegs;
use wave_layer::WaveRegs;

// The most bytes of the text of a local state.
const MAX_LOCAL: usize = 200;

/// Does the fault to the configuration, and nothing else, or names the first refusal. A refused fault
/// changes nothing.
pub fn inject<P: Application>(
    alloc: Global,
    config: &mut Config<P>,
    fault: &Fault,
) -> Result<(), FaultRefusal>
    ensures outcome { MatchResult result (λ _. injected P.app P.from_text config.old fault.now ≡ Ok config.new)
        (λ f. f ≢ FaultRefusal.NoMemory → injected P.app P.from_text config.old fault.now ≡ Err f) }
    ensures kept { OnErr result (config.new ≡ config.old) }
    ensures memory { result ≡ Err FaultRefusal.NoMemory → AsksForMemory fault.now }
{
    match fault {
        Fault::SetTree { at, regs } => set_tree(config, *at, *regs),
        Fault::SetWave { at, regs } => set_wave(config, *at, *regs),
        Fault::SetLocal { at, text } => set_local(alloc, config, *at, text.as_bytes()),
        Fault::LinkDown { a, b } => link_down(alloc, config, *a, *b),
        Fault::LinkUp { a, b } => link_up(alloc, config, *a, *b),
        Fault::NodeDown { at } => node_down(alloc, config, *at),
        Fault::NodeUp { at } => node_up(alloc, config, *at),
    }
}

// Puts tree registers at a node.
fn set_tree<P: Application>(
    config: &mut Config<P>,
    at: u32,
    regs: TreeRegs,
) -> Result<(), FaultRefusal>
    ensures outcome { MatchResult result (λ _. injected P.app P.from_text config.old (SetTree at regs) ≡ Ok config.new)
        (λ f. injected P.app P.from_text config.old (SetTree at regs) ≡ Err f) }
    ensures kept { OnErr result (config.new ≡ config.old) }
    ensures memory { result ≢ Err FaultRefusal.NoMemory }
{
    if !is_node(config, at) {
        return Err(FaultRefusal::StrangeNode);
    }
    if !are_ids(regs) {
        return Err(FaultRefusal::BadValue);
    }
    match config.put_tree(at, regs) {
        Ok(()) => Ok(()),
        Err(_) => Err(FaultRefusal::StrangeNode),
    }
}

/// Whether the identifier is that of a node.
pub fn is_node<P: Application>(config: &Config<P>, at: u32) -> bool
    ensures { result ≡ is_node config.now.graph at }
{
    config.lemma_is_graph();
    config.topology().node_at(at).is_some()
}

// Whether the root and the father may be identifiers.
fn are_ids(regs: TreeRegs) -> bool
    ensures { result ≡ is_id regs.root && is_id regs.father }
{
    NodeId::new(regs.root).is_some() && NodeId::new(regs.father).is_some()
}

// Puts wave registers at a node.
fn set_wave<P: Application>(
    config: &mut Config<P>,
    at: u32,
    regs: WaveRegs,
) -> Result<(), FaultRefusal>
    ensures outcome { MatchResult result (λ _. injected P.app P.from_text config.old (SetWave at regs) ≡ Ok config.new)
        (λ f. injected P.app P.from_text config.old (SetWave at regs) ≡ Err f) }
    ensures kept { OnErr result (config.new ≡ config.old) }
    ensures memory { result ≢ Err FaultRefusal.NoMemory }
{
    match config.put_wave(at, regs) {
        Ok(()) => Ok(()),
        Err(_) => Err(FaultRefusal::StrangeNode),
    }
}

// Puts the local state with this text at a node.
fn set_local<P: Application>(
    alloc: Global,
    config: &mut Config<P>,
    at: u32,
    text: &[u8],
) -> Result<(), FaultRefusal>
    ensures outcome { MatchResult result (λ _. injected P.app P.from_text config.old (SetLocal at text.now) ≡ Ok config.new)
        (λ f. f ≢ FaultRefusal.NoMemory → injected P.app P.from_text config.old (SetLocal at text.now) ≡ Err f) }
    ensures kept { OnErr result (config.new ≡ config.old) }
{
    if !is_node(config, at) {
        return Err(FaultRefusal::StrangeNode);
    }
    if text.len() > MAX_LOCAL {
        return Err(FaultRefusal::BadLocal);
    }
    let local = match P::read_local(alloc, text) {
        Ok(local) => local,
        Err(LocalFault::BadLocal) => return Err(FaultRefusal::BadLocal),
        Err(LocalFault::NoMemory) => return Err(FaultRefusal::NoMemory),
    };
    if let Err(_) = config.put_local(at, local) {
        return Err(FaultRefusal::StrangeNode);
    }
    Ok(())
}

// Takes a link out.
fn link_down<P: Application>(
    alloc: Global,
    config: &mut Config<P>,
    a: u32,
    b: u32,
) -> Result<(), FaultRefusal>
    ensures outcome { MatchResult result (λ _. injected P.app P.from_text config.old (LinkDown a b) ≡ Ok config.new)
        (λ f. f ≢ FaultRefusal.NoMemory → injected P.app P.from_text config.old (LinkDown a b) ≡ Err f) }
    ensures kept { OnErr result (config.new ≡ config.old) }
{
    match config.topology().without_link(alloc, a, b) {
        Ok(changed) => put_changed(alloc, config, changed),
        Err(TopoFault::StrangeNode(_)) => Err(FaultRefusal::StrangeNode),
        Err(TopoFault::NoSuchLink) => Err(FaultRefusal::NoSuchLink),
        Err(_) => Err(FaultRefusal::NoMemory),
    }
}

// Puts a link in.
fn link_up<P: Application>(
    alloc: Global,
    config: &mut Config<P>,
    a: u32,
    b: u32,
) -> Result<(), FaultRefusal>
    ensures outcome { MatchResult result (λ _. injected P.app P.from_text config.old (LinkUp a b) ≡ Ok config.new)
        (λ f. f ≢ FaultRefusal.NoMemory → injected P.app P.from_text config.old (LinkUp a b) ≡ Err f) }
    ensures kept { OnErr result (config.new ≡ config.old) }
{
    match config.topology().with_link(alloc, a, b) {
        Ok(changed) => put_changed(alloc, config, changed),
        Err(TopoFault::StrangeNode(_)) => Err(FaultRefusal::StrangeNode),
        Err(TopoFault::SelfLink(_)) => Err(FaultRefusal::BadValue),
        Err(TopoFault::TooManyLinks) => Err(FaultRefusal::BadValue),
        Err(TopoFault::LinkIsThere) => Err(FaultRefusal::LinkIsThere),
        Err(_) => Err(FaultRefusal::NoMemory),
    }
}

// Takes a node down.
fn node_down<P: Application>(
    alloc: Global,
    config: &mut Config<P>,
    at: u32,
) -> Result<(), FaultRefusal>
    ensures outcome { MatchResult result (λ _. injected P.app P.from_text config.old (NodeDown at) ≡ Ok config.new)
        (λ f. f ≢ FaultRefusal.NoMemory → injected P.app P.from_text config.old (NodeDown at) ≡ Err f) }
    ensures kept { OnErr result (config.new ≡ config.old) }
{
    match config.topology().without_node(alloc, at) {
        Ok(changed) => put_changed(alloc, config, changed),
        Err(TopoFault::StrangeNode(_)) => Err(FaultRefusal::StrangeNode),
        Err(_) => Err(FaultRefusal::NoMemory),
    }
}

// Brings a node up.
fn node_up<P: Application>(
    alloc: Global,
    config: &mut Config<P>,
    at: u32,
) -> Result<(), FaultRefusal>
    ensures outcome { MatchResult result (λ _. injected P.app P.from_text config.old (NodeUp at) ≡ Ok config.new)
        (λ f. f ≢ FaultRefusal.NoMemory → injected P.app P.from_text config.old (NodeUp at) ≡ Err f) }
    ensures kept { OnErr result (config.new ≡ config.old) }
{
    match config.topology().with_node(alloc, at) {
        Ok(changed) => put_changed(alloc, config, changed),
        Err(TopoFault::StrangeNode(_)) => Err(FaultRefusal::StrangeNode),
        Err(TopoFault::NodeIsUp) => Err(FaultRefusal::NodeIsUp),
        Err(_) => Err(FaultRefusal::NoMemory),
    }
}

// Puts a topology of the same identifiers.
fn put_changed<P: Application>(
    alloc: Global,
    config: &mut Config<P>,
    changed: Topology,
) -> Result<(), FaultRefusal>
    requires { changed.ids ≡ config.old.graph.ids }
    ensures ok { OnOk result (config.new ≡ with_topology P.app config.old changed) }
    ensures err { IfErr result (λ f. f ≡ FaultRefusal.NoMemory) }
    ensures kept { OnErr result (config.new ≡ config.old) }
{
    match config.put_topology(alloc, changed) {
        Ok(()) => Ok(()),
        Err(_) => Err(FaultRefusal::NoMemory),
    }
}
