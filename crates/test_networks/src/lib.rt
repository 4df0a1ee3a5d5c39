//! Networks that several crates of tests stand on: booted ones, and a whole reset of one.
#![tactic(auto)]

ghost use Rattle.std.specs.Prelude.{◌≡◌, ◌≢◌, ◌∷◌, [], IfErr, IfOk};
ghost use Rattle.action_tables.specs.Modulus.{max_modulus};
ghost use Rattle.reset_model.specs.Outcome.{IsBoot};
ghost use Rattle.topology.specs.Faults.{IsFirstFault, IsTopologyOf};

use action_tables::MAX_MODULUS;
use app_interface::Application;
use reset_machine::{Config, Event};
use std::alloc::Global;
use topology::{TopoFault, Topology};
use wave_layer::Modulus;

/// The steps of one whole reset of the line of the nodes 1, 2, 3.
pub const WHOLE_RESET: [Event; 9] = [
    Event::Request { at: 1 },
    Event::Relay { at: 2, child: 1 },
    Event::Relay { at: 3, child: 2 },
    Event::Open { at: 3 },
    Event::Join { at: 2 },
    Event::Join { at: 1 },
    Event::Finish { at: 1 },
    Event::Finish { at: 2 },
    Event::Finish { at: 3 },
];

/// The steps of one whole reset of the nodes 4 and 5, linked with one another alone.
pub const PAIR_RESET: [Event; 6] = [
    Event::Request { at: 4 },
    Event::Relay { at: 5, child: 4 },
    Event::Open { at: 5 },
    Event::Join { at: 4 },
    Event::Finish { at: 4 },
    Event::Finish { at: 5 },
];

/// The greatest number modulo which sessions can be counted.
pub fn greatest_modulus() -> Modulus
    ensures { result ≡ max_modulus }
{
    match Modulus::new(MAX_MODULUS) {
        Some(modulus) => modulus,
        None => unreachable!(),
    }
}

/// The booted line of the nodes 1, 2, 3, of which sessions are counted modulo the greatest number.
pub fn line<P: Application>(alloc: Global) -> Result<Config<P>, TopoFault>
    ensures lists { IfOk result (λ c. IsTopologyOf (1 ∷ 2 ∷ 3 ∷ []) ((1, 2) ∷ (2, 3) ∷ []) c.graph) }
    ensures boot { IfOk result (λ c. IsBoot P.app c.graph max_modulus c) }
    ensures err { IfErr result
        (λ f. f ≢ TopoFault.NoMemory → IsFirstFault (1 ∷ 2 ∷ 3 ∷ []) ((1, 2) ∷ (2, 3) ∷ []) f) }
{
    line_modulo::<P>(alloc, greatest_modulus())
}

/// The same, of which sessions are counted modulo this number.
pub fn line_modulo<P: Application>(alloc: Global, modulus: Modulus) -> Result<Config<P>, TopoFault>
    ensures lists { IfOk result (λ c. IsTopologyOf (1 ∷ 2 ∷ 3 ∷ []) ((1, 2) ∷ (2, 3) ∷ []) c.graph) }
    ensures boot { IfOk result (λ c. IsBoot P.app c.graph modulus c) }
    ensures err { IfErr result
        (λ f. f ≢ TopoFault.NoMemory → IsFirstFault (1 ∷ 2 ∷ 3 ∷ []) ((1, 2) ∷ (2, 3) ∷ []) f) }
{
    booted_modulo::<P>(alloc, &[1, 2, 3], &[(1, 2), (2, 3)], modulus)
}

/// The booted network of two components: the line of the nodes 1, 2, 3, and the nodes 4 and 5 with a link.
/// Its sessions are counted modulo the greatest number.
pub fn line_and_pair<P: Application>(alloc: Global) -> Result<Config<P>, TopoFault>
    ensures lists { IfOk result
        (λ c. IsTopologyOf (1 ∷ 2 ∷ 3 ∷ 4 ∷ 5 ∷ []) ((1, 2) ∷ (2, 3) ∷ (4, 5) ∷ []) c.graph) }
    ensures boot { IfOk result (λ c. IsBoot P.app c.graph max_modulus c) }
    ensures err { IfErr result (λ f. f ≢ TopoFault.NoMemory
        → IsFirstFault (1 ∷ 2 ∷ 3 ∷ 4 ∷ 5 ∷ []) ((1, 2) ∷ (2, 3) ∷ (4, 5) ∷ []) f) }
{
    booted::<P>(alloc, &[1, 2, 3, 4, 5], &[(1, 2), (2, 3), (4, 5)])
}

/// The booted network with these nodes and links, or the first fault of the lists. Its sessions are counted
/// modulo the greatest number.
pub fn booted<P: Application>(
    alloc: Global,
    nodes: &[u32],
    links: &[(u32, u32)],
) -> Result<Config<P>, TopoFault>
    ensures lists { IfOk result (λ c. IsTopologyOf nodes.now links.now c.graph) }
    ensures boot { IfOk result (λ c. IsBoot P.app c.graph max_modulus c) }
    ensures err { IfErr result (λ f. f ≢ TopoFault.NoMemory → IsFirstFault nodes.now links.now f) }
{
    booted_modulo::<P>(alloc, nodes, links, greatest_modulus())
}

/// The same, of which sessions are counted modulo this number.
pub fn booted_modulo<P: Application>(
    alloc: Global,
    nodes: &[u32],
    links: &[(u32, u32)],
    modulus: Modulus,
) -> Result<Config<P>, TopoFault>
    ensures lists { IfOk result (λ c. IsTopologyOf nodes.now links.now c.graph) }
    ensures boot { IfOk result (λ c. IsBoot P.app c.graph modulus c) }
    ensures err { IfErr result (λ f. f ≢ TopoFault.NoMemory → IsFirstFault nodes.now links.now f) }
{
    let topology = match Topology::build(alloc, nodes, links) {
        Ok(topology) => topology,
        Err(fault) => return Err(fault),
    };
    match Config::<P>::boot(alloc, topology, modulus) {
        Ok(config) => Ok(config),
        Err(_) => Err(TopoFault::NoMemory),
    }
}
