// What is wrong with a snapshot.

ghost use Rattle.std.specs.Prelude.{◌≡◌};

use crate::graph_faults::{put_of_link, put_of_node};
use crate::said::{Source, put_end, put_head, put_line_number, put_said};
use action_tables::{WriteFault, put_bytes};
use app_invariants::Invariant;
use applications::with_application;
use script_replay::{Network, RunStop, read_network};
use snapshots::{MAX_SNAPSHOT, SnapshotFault, read_snapshot};
use std::alloc::Global;
use std::io::Write;
use topology::ReadFault;

/// Writes what is wrong with a snapshot of a topology, and where; returns whether it wrote. Of a bad topology nothing is
/// said here.
pub fn put_snapshot_fault<W: Write>(
    alloc: Global,
    topology: &[u8],
    snapshot: Source<'_>,
    out: &mut W,
) -> Result<bool, RunStop> {
    match read_network(alloc, topology) {
        Ok(network) => put_fault_on(alloc, network, snapshot, out),
        Err(ReadFault::NoMemory) => Err(RunStop::NoMemory),
        Err(_) => Ok(false),
    }
}

// Writes what is wrong with a snapshot of a network.
fn put_fault_on<W: Write>(
    alloc: Global,
    network: Network,
    snapshot: Source<'_>,
    out: &mut W,
) -> Result<bool, RunStop>
    requires { network.topology.nodes ≡ network.topology.ids }
{
    if snapshot.text.len() > MAX_SNAPSHOT {
        put_said(out, snapshot.name, b"it has more than 67108864 bytes")?;
        return Ok(true);
    }
    match fault_of(alloc, &network, snapshot.text) {
        None => Ok(false),
        Some(SnapshotFault::NoMemory) => Err(RunStop::NoMemory),
        Some(fault) => {
            put_bad_snapshot(snapshot.name, fault, out)?;
            Ok(true)
        }
    }
}

fn put_bad_snapshot<W: Write>(
    name: &str,
    fault: SnapshotFault,
    out: &mut W,
) -> Result<(), WriteFault> {
    put_head(out, name)?;
    put_fault(fault, out)?;
    put_end(out)
}

// Why a text is no snapshot of a network.
fn fault_of(alloc: Global, network: &Network, text: &[u8]) -> Option<SnapshotFault>
    requires { network.now.topology.nodes ≡ network.now.topology.ids }
{
    with_application!(network.app, P => fault_on::<P>(alloc, network, text))
}

fn fault_on<P: Invariant>(alloc: Global, network: &Network, text: &[u8]) -> Option<SnapshotFault>
    requires { network.now.topology.nodes ≡ network.now.topology.ids }
{
    match read_snapshot::<P>(alloc, &network.topology, network.modulus, text) {
        Ok(_) => None,
        Err(fault) => Some(fault),
    }
}

fn put_fault<W: Write>(fault: SnapshotFault, out: &mut W) -> Result<(), WriteFault> {
    match fault {
        SnapshotFault::BadLine(number) => {
            put_line_number(out, number as u64)?;
            put_bytes(out, b"no line of a snapshot")
        }
        SnapshotFault::BadVersion => put_bytes(out, b"line 1: the version of a snapshot is 1"),
        SnapshotFault::StrangeNode(id) => put_of_node(
            out,
            b"node ",
            id,
            b" isn't in the topology, or is the end of a link and down",
        ),
        SnapshotFault::TwiceNode(id) => put_of_node(out, b"node ", id, b" has two lines"),
        SnapshotFault::SelfLink(id) => put_of_node(out, b"a link joins node ", id, b" with itself"),
        SnapshotFault::TwiceLink(a, b) => put_of_link(out, a, b, b" has two lines"),
        SnapshotFault::TooManyLinks => put_bytes(out, b"it has more than 8192 links"),
        SnapshotFault::NoMemory => Ok(()),
    }
}
