// What is said of a node or a link of a network: topologies and snapshots have these faults alike.

ghost use Rattle.std.specs.Prelude.{OnErr, OnOk};
ghost use Rattle.std.specs.Io.KnownBytes.{Appends};
ghost use Rattle.action_tables.specs.Written.{AppendsPrefix};
ghost use Rattle.diagnoses.specs.Said.{of_link, of_node};

use action_tables::{Part, WriteFault, put_parts};
use std::io::Write;

/// Writes what is wrong with the node of this number, which stands between two texts.
pub fn put_of_node<'t, W: Write>(
    out: &mut W,
    before: &'t [u8],
    id: u32,
    after: &'t [u8],
) -> Result<(), WriteFault>
    ensures ok { OnOk result (Appends (W.contents out.old) (W.contents out.new) (of_node before.now id after.now)) }
    ensures err { OnErr result
        (AppendsPrefix (W.contents out.old) (W.contents out.new) (of_node before.now id after.now)) }
{
    put_parts(
        out,
        &[
            Part::Text(before),
            Part::Number(u64::from(id)),
            Part::Text(after),
        ],
    )
}

/// Writes what is wrong with the link of these nodes.
pub fn put_of_link<W: Write>(out: &mut W, a: u32, b: u32, wrong: &[u8]) -> Result<(), WriteFault>
    ensures ok { OnOk result (Appends (W.contents out.old) (W.contents out.new) (of_link a b wrong.now)) }
    ensures err { OnErr result (AppendsPrefix (W.contents out.old) (W.contents out.new) (of_link a b wrong.now)) }
{
    put_parts(
        out,
        &[
            Part::Text(b"the link of "),
            Part::Number(u64::from(a)),
            Part::Text(b" and "),
            Part::Number(u64::from(b)),
            Part::Text(wrong),
        ],
    )
}
