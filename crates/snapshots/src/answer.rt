// The lines that name the faults of snapshots.

ghost use Rattle.std.specs.Prelude.{OnErr, OnOk};
ghost use Rattle.std.specs.Io.KnownBytes.{Appends};
ghost use Rattle.action_tables.specs.Written.{AppendsPrefix};
ghost use Rattle.script_replay.specs.Output.{numbered, numbered_twice};
ghost use Rattle.snapshots.specs.FaultText.{bad_snapshot_text};

use crate::fault::SnapshotFault;
use action_tables::{Part, WriteFault, put_bytes, put_parts};
use script_replay::put_numbered;
use std::io::Write;

/// Writes what the fault of a snapshot is answered with: a line such as `bad snapshot TwiceLink 1 2`.
pub fn put_snapshot_fault<W: Write>(out: &mut W, fault: SnapshotFault) -> Result<(), WriteFault>
    ensures ok { OnOk result (Appends (W.contents out.old) (W.contents out.new) (bad_snapshot_text fault)) }
    ensures err { OnErr result (AppendsPrefix (W.contents out.old) (W.contents out.new) (bad_snapshot_text fault)) }
{
    match fault {
        SnapshotFault::BadLine(number) => put_numbered(
            out,
            b"bad snapshot BadLine ",
            number as u64,
        ),
        SnapshotFault::BadVersion => put_bytes(out, b"bad snapshot BadVersion\n"),
        SnapshotFault::StrangeNode(id) => put_node_fault(out, b"bad snapshot StrangeNode ", id),
        SnapshotFault::TwiceNode(id) => put_node_fault(out, b"bad snapshot TwiceNode ", id),
        SnapshotFault::SelfLink(id) => put_node_fault(out, b"bad snapshot SelfLink ", id),
        SnapshotFault::TwiceLink(a, b) => put_link_fault(out, b"bad snapshot TwiceLink ", a, b),
        SnapshotFault::TooManyLinks => put_bytes(out, b"bad snapshot TooManyLinks\n"),
        SnapshotFault::NoMemory => put_bytes(out, b"bad snapshot NoMemory\n"),
    }
}

// Writes a line that ends with an identifier.
fn put_node_fault<W: Write>(out: &mut W, text: &[u8], id: u32) -> Result<(), WriteFault>
    ensures ok { OnOk result (Appends (W.contents out.old) (W.contents out.new) (numbered text.now id)) }
    ensures err { OnErr result (AppendsPrefix (W.contents out.old) (W.contents out.new) (numbered text.now id)) }
{
    put_numbered(out, text, u64::from(id))
}

// Writes a line that ends with the two identifiers of a link.
fn put_link_fault<W: Write>(out: &mut W, text: &[u8], a: u32, b: u32) -> Result<(), WriteFault>
    ensures ok { OnOk result (Appends (W.contents out.old) (W.contents out.new) (numbered_twice text.now a b)) }
    ensures err { OnErr result (AppendsPrefix (W.contents out.old) (W.contents out.new) (numbered_twice text.now a b)) }
{
    put_parts(
        out,
        &[
            Part::Text(text),
            Part::Number(u64::from(a)),
            Part::Text(b" "),
            Part::Number(u64::from(b)),
            Part::Text(b"\n"),
        ],
    )
}
