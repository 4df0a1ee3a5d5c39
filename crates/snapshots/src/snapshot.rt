// Reading a snapshot.

ghost use Rattle.std.specs.Prelude.{◌≡◌, ◌≢◌, IfErr, IfOk};
ghost use Rattle.applications.specs.Meaning.{meaning_of};
ghost use Rattle.snapshots.specs.Named.{IsSnapshotOf};
ghost use Rattle.snapshots.specs.Reading.{IsFirstFault};

use crate::configuration::configured;
use crate::fault::SnapshotFault;
use crate::network::first_down;
use crate::reading::{no_lines, take_lines};
use app_invariants::Invariant;
use reset_machine::Config;
use std::alloc::Global;
use topology::Topology;
use wave_layer::Modulus;

/// The most bytes of a snapshot: 64 MiB, a thousand lines of the greatest length. Callers of
/// `read_snapshot` refuse longer ones.
pub const MAX_SNAPSHOT: usize = 67_108_864;

/// Reads the snapshot of a configuration of this topology, whose identifiers are all up, with sessions counted modulo
/// this number: the configuration that the text names, or its first fault.
pub fn read_snapshot<P: Invariant>(
    alloc: Global,
    topology: &Topology,
    modulus: Modulus,
    text: &[u8],
) -> Result<Config<P>, SnapshotFault>
    requires { topology.now.nodes ≡ topology.now.ids }
    ensures ok { IfOk result
        (IsSnapshotOf (meaning_of P.app P.text P.from_text P.names P.counts) topology.now modulus text.now) }
    ensures err { IfErr result (λ f. f ≢ SnapshotFault.NoMemory
        → IsFirstFault (meaning_of P.app P.text P.from_text P.names P.counts) topology.now text.now f) }
{
    let mut reading = no_lines(alloc);
    match take_lines::<P>(alloc, topology, &mut reading, text) {
        Ok(()) => {}
        Err(fault) => return Err(fault),
    }
    if let Some(id) = first_down(&reading.nodes, &reading.links) {
        return Err(SnapshotFault::StrangeNode(id));
    }
    let config = configured::<P>(alloc, topology, modulus, reading)?;
    Ok(config)
}
