// The configuration that a snapshot names.

ghost use Rattle.std.specs.Prelude.{◌≡◌, All, IfOk, List};
ghost use Rattle.topology.specs.Graph.{IsNode};
ghost use Rattle.snapshots.specs.Named.{AreNamed};
ghost use Rattle.snapshots.specs.Parts.{AreEnds, AreKept, AreLinks, ArePossible, with_state, with_states};
ghost use Rattle.snapshots.specs.declared.item.Item.{Item};

use crate::item::NodeState;
use crate::network::{with_links, without_others};
use crate::reading::Reading;
use app_interface::Application;
use reset_machine::Config;
use std::alloc::{AllocError, Global};
use topology::Topology;
use wave_layer::Modulus;

/// The configuration that the lines name.
pub(crate) fn configured<P: Application>(
    alloc: Global,
    topology: &Topology,
    modulus: Modulus,
    reading: Reading<P::Local>,
) -> Result<Config<P>, AllocError>
    requires up { topology.now.nodes ≡ topology.now.ids }
    requires possible { ArePossible topology.now reading.nodes.items }
    requires links { AreLinks topology.now reading.links.items }
    requires ends { AreEnds reading.nodes.items reading.links.items }
    ensures { IfOk result
        (λ c. (items : List (Item P.Local)) → AreKept items reading → AreNamed P.app topology.now modulus items c) }
{
    topology.lemma_is_graph();
    let Reading {
        nodes,
        links,
        lists_links,
    } = reading;
    let linked = with_links(alloc, topology, lists_links, &links)?;
    let network = without_others(alloc, linked, topology.ids(), &nodes)?;
    let config = Config::<P>::boot(alloc, network, modulus)?;
    config.lemma_is_graph();
    Ok(with_states(config, nodes))
}

// The configuration with these states of nodes.
fn with_states<P: Application>(config: Config<P>, nodes: Vec<NodeState<P::Local>>) -> Config<P>
    requires { All (λ node. IsNode config.graph node.id) nodes.items }
    ensures { result ≡ with_states config nodes.items }
{
    let mut config = config;
    let mut nodes = nodes;
    while let Some(node) = nodes.pop() {
        put_state(&mut config, node);
    }
    config
}

// Puts the state of a node.
fn put_state<P: Application>(config: &mut Config<P>, node: NodeState<P::Local>)
    requires { IsNode config.old.graph node.id }
    ensures { config.new ≡ with_state config.old node }
{
    let Ok(()) = config.put_tree(node.id, node.tree) else {
        unreachable!()
    };
    let Ok(()) = config.put_wave(node.id, node.wave) else {
        unreachable!()
    };
    let Ok(()) = config.put_local(node.id, node.local) else {
        unreachable!()
    };
}
