// The answers that name enabled rows, and the nodes that have some.

ghost use Rattle.std.specs.Prelude.{◌≡◌, Err, IfErr, OnOk, OnErr};
ghost use Rattle.std.specs.List.{flat_map};
ghost use Rattle.std.specs.Io.KnownBytes.{Appends, Keeps};
ghost use Rattle.action_tables.specs.Written.{AppendsPrefix};
ghost use Rattle.applications.specs.Meaning.{meaning_of};
ghost use Rattle.script_replay.specs.Output.{at_node, enabled_line, enabled_text, ready_line, ready_text, spaced};
ghost use Rattle.script_replay.specs.Stops.{IsOutputStop};

use crate::answer::put_refusal;
use crate::status::{RunStop, written};
use action_tables::{Part, WriteFault, put_bytes, put_parts};
use app_invariants::Invariant;
use reset_machine::{Config, Enabled, StepRefusal};
use std::alloc::{AllocError, Global};
use std::io::Write;

/// Writes the enabled rows of a node, or that there is no such node. If an allocation fails, nothing is written.
pub fn answer_enabled<P: Invariant, W: Write>(
    alloc: Global,
    config: &Config<P>,
    at: u32,
    out: &mut W,
) -> Result<(), RunStop>
    ensures ok { OnOk result
        (Appends (W.contents out.old) (W.contents out.new)
        (at_node config.now at (enabled_line (meaning_of P.app P.text P.from_text P.names P.counts) config.now at))) }
    ensures err { OnErr result
        (AppendsPrefix (W.contents out.old) (W.contents out.new)
        (at_node config.now at (enabled_line (meaning_of P.app P.text P.from_text P.names P.counts) config.now at))) }
    ensures stop { IfErr result IsOutputStop }
    ensures memory { result ≡ Err RunStop.NoMemory → Keeps (W.contents out.old) (W.contents out.new) }
{
    match config.enabled(alloc, at) {
        Ok(rows) => written(put_enabled(out, at, rows)),
        Err(StepRefusal::NoMemory) => Err(RunStop::NoMemory),
        Err(refusal) => written(put_refusal(out, refusal)),
    }
}

fn put_enabled<W: Write>(out: &mut W, id: u32, rows: Enabled) -> Result<(), WriteFault>
    ensures ok { OnOk result (Appends (W.contents out.old) (W.contents out.new) (enabled_text id rows)) }
    ensures err { OnErr result (AppendsPrefix (W.contents out.old) (W.contents out.new) (enabled_text id rows)) }
{
    put_parts(
        out,
        &[
            Part::Text(b"enabled "),
            Part::Number(u64::from(id)),
            Part::Text(b" tree "),
            Part::Cases(rows.tree),
            Part::Text(b" wave "),
            Part::Cases(rows.wave),
            Part::Text(b" act "),
            Part::Cases(rows.act),
            Part::Text(b"\n"),
        ],
    )
}

/// Writes the ids of the nodes that have something to do, and changes none. If an allocation fails, nothing is written.
pub fn answer_ready<P: Invariant, W: Write>(
    alloc: Global,
    config: &mut Config<P>,
    out: &mut W,
) -> Result<(), RunStop>
    ensures ok { OnOk result
        (Appends (W.contents out.old) (W.contents out.new)
        (ready_line (meaning_of P.app P.text P.from_text P.names P.counts) config.old)) }
    ensures err { OnErr result
        (AppendsPrefix (W.contents out.old) (W.contents out.new)
        (ready_line (meaning_of P.app P.text P.from_text P.names P.counts) config.old)) }
    ensures stop { IfErr result IsOutputStop }
    ensures memory { result ≡ Err RunStop.NoMemory → Keeps (W.contents out.old) (W.contents out.new) }
    ensures kept { config.new ≡ config.old }
{
    match config.ready(alloc) {
        Ok(ids) => written(put_ready(out, &ids)),
        Err(AllocError) => Err(RunStop::NoMemory),
    }
}

fn put_ready<W: Write>(out: &mut W, ids: &[u32]) -> Result<(), WriteFault>
    ensures ok { OnOk result (Appends (W.contents out.old) (W.contents out.new) (ready_text ids.now)) }
    ensures err { OnErr result (AppendsPrefix (W.contents out.old) (W.contents out.new) (ready_text ids.now)) }
{
    if ids.is_empty() {
        return put_bytes(out, b"ready -\n");
    }
    put_bytes(out, b"ready")?;
    put_ids(out, ids)?;
    put_bytes(out, b"\n")
}

// Writes the ids, each after a space.
fn put_ids<W: Write>(out: &mut W, ids: &[u32]) -> Result<(), WriteFault>
    ensures ok { OnOk result (Appends (W.contents out.old) (W.contents out.new) (flat_map spaced ids.now)) }
    ensures err { OnErr result (AppendsPrefix (W.contents out.old) (W.contents out.new) (flat_map spaced ids.now)) }
{
    for id in ids {
        put_id(out, *id)?;
    }
    Ok(())
}

fn put_id<W: Write>(out: &mut W, id: u32) -> Result<(), WriteFault>
    ensures ok { OnOk result (Appends (W.contents out.old) (W.contents out.new) (spaced id)) }
    ensures err { OnErr result (AppendsPrefix (W.contents out.old) (W.contents out.new) (spaced id)) }
{
    put_parts(out, &[Part::Text(b" "), Part::Number(u64::from(id))])
}
