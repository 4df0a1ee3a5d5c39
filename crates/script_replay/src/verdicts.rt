// The answers that tell whether the application's invariant holds.

ghost use Rattle.std.specs.Prelude.{◌≡◌, Err, IfErr, OnErr, OnOk};
ghost use Rattle.std.specs.List.{flat_map};
ghost use Rattle.std.specs.Io.KnownBytes.{Appends, Keeps};
ghost use Rattle.action_tables.specs.Written.{AppendsPrefix};
ghost use Rattle.applications.specs.Meaning.{meaning_of};
ghost use Rattle.script_replay.specs.Output.{invariant_lines};
ghost use Rattle.script_replay.specs.Stops.{IsOutputStop};
ghost use Rattle.script_replay.specs.VerdictText.{verdict_line};

use crate::status::{RunStop, written};
use action_tables::{Part, WriteFault, put_parts};
use app_invariants::{Invariant, Verdict, judge_components};
use reset_machine::Config;
use std::alloc::{AllocError, Global};
use std::io::Write;

/// Writes of each component, by ascending leader, whether the application's invariant holds of the newest states there. If an
/// allocation fails, nothing is written.
pub fn answer_invariant<P: Invariant, W: Write>(
    alloc: Global,
    config: &Config<P>,
    out: &mut W,
) -> Result<(), RunStop>
    ensures ok { OnOk result (Appends (W.contents out.old) (W.contents out.new)
        (invariant_lines (meaning_of P.app P.text P.from_text P.names P.counts) config.now)) }
    ensures err { OnErr result (AppendsPrefix (W.contents out.old) (W.contents out.new)
        (invariant_lines (meaning_of P.app P.text P.from_text P.names P.counts) config.now)) }
    ensures stop { IfErr result IsOutputStop }
    ensures memory { result ≡ Err RunStop.NoMemory → Keeps (W.contents out.old) (W.contents out.new) }
{
    match judge_components(alloc, config) {
        Ok(verdicts) => written(put_verdicts(out, &verdicts)),
        Err(AllocError) => Err(RunStop::NoMemory),
    }
}

/// Writes the lines of verdicts: `invariant 9 holds`, or what is wrong, as `invariant 9 fails tokens 2`.
pub fn put_verdicts<W: Write>(out: &mut W, verdicts: &[Verdict]) -> Result<(), WriteFault>
    ensures ok { OnOk result
        (Appends (W.contents out.old) (W.contents out.new) (flat_map verdict_line verdicts.now)) }
    ensures err { OnErr result
        (AppendsPrefix (W.contents out.old) (W.contents out.new) (flat_map verdict_line verdicts.now)) }
{
    for verdict in verdicts {
        put_verdict(out, verdict)?;
    }
    Ok(())
}

// Writes the line of a verdict.
fn put_verdict<W: Write>(out: &mut W, verdict: &Verdict) -> Result<(), WriteFault>
    ensures ok { OnOk result (Appends (W.contents out.old) (W.contents out.new) (verdict_line verdict.now)) }
    ensures err { OnErr result (AppendsPrefix (W.contents out.old) (W.contents out.new) (verdict_line verdict.now)) }
{
    match &verdict.violation {
        None => put_parts(
            out,
            &[
                Part::Text(b"invariant "),
                Part::Number(u64::from(verdict.leader)),
                Part::Text(b" holds\n"),
            ],
        ),
        Some(wrong) => put_parts(
            out,
            &[
                Part::Text(b"invariant "),
                Part::Number(u64::from(verdict.leader)),
                Part::Text(b" fails "),
                Part::Text(wrong.words.as_bytes()),
                Part::Text(b" "),
                Part::Number(wrong.count),
                Part::Text(b"\n"),
            ],
        ),
    }
}
