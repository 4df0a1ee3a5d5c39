// The network that a topology text describes.

ghost use Rattle.std.specs.Prelude.{◌≢◌, IfOk, IfErr};
ghost use Rattle.topology.specs.TopologyText.{IsReadFault};
ghost use Rattle.topology.specs.declared.text.ReadFault.TheVariants.{NoMemory};
ghost use Rattle.script_replay.specs.Output.{Describes};

use std::alloc::Global;
use topology::{AppName, ReadFault, Topology, read_topology};
use wave_layer::Modulus;

/// What a configuration is booted from.
#[derive(Drop)]
pub struct Network {
    /// The graph of its nodes and links.
    pub topology: Topology,
    /// The application that its nodes run.
    pub app: AppName,
    /// The number modulo which its sessions are counted, from 2 to 4294967296.
    pub modulus: Modulus,
}

/// Reads the network that a topology text describes.
pub fn read_network(alloc: Global, text: &[u8]) -> Result<Network, ReadFault>
    ensures ok { IfOk result (λ n. Describes text.now n.topology n.app n.modulus) }
    ensures err { IfErr result (λ f. f ≢ NoMemory → IsReadFault text.now f) }
{
    match read_topology(alloc, text) {
        Ok(read) => match Modulus::new(read.modulus) {
            Some(modulus) => Ok(Network {
                topology: read.topology,
                app: read.app,
                modulus,
            }),
            None => unreachable!(),
        },
        Err(fault) => Err(fault),
    }
}
