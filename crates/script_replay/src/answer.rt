// What the run writes.

ghost use Rattle.std.specs.Prelude.{◌≡◌, Err, IfErr, OnOk, OnErr};
ghost use Rattle.std.specs.Io.KnownBytes.{Appends, Keeps};
ghost use Rattle.action_tables.specs.Written.{AppendsPrefix};
ghost use Rattle.reset_model.specs.Planned.{outcome_of};
ghost use Rattle.applications.specs.Meaning.{meaning_of};
ghost use Rattle.script_replay.specs.Output.{answered, stepped, bad_line_text, bad_topology_text, graph_fault_text};
ghost use Rattle.script_replay.specs.Output.{numbered, refusal_text, reply_text, numbered_twice};
ghost use Rattle.script_replay.specs.Stops.{IsOutputStop};

use crate::faults::{answer_alarm, answer_check, answer_check_node, answer_watch};
use crate::injected::{answer_draw, answer_fault};
use crate::moves::{answer_moves, answer_moves_of};
use crate::rows::{answer_enabled, answer_ready};
use crate::script::Command;
use crate::show::{show_all, show_newest, show_node};
use crate::snapshot::put_snapshot;
use crate::status::{RunStop, written};
use crate::verdicts::answer_invariant;
use action_tables::{Part, WriteFault, put_bytes, put_number, put_parts};
use app_interface::Application;
use app_invariants::Invariant;
use reset_machine::{Config, Event, Reply, StepRefusal};
use std::alloc::Global;
use std::io::Write;
use topology::{ReadFault, TopoFault};

/// Writes what the fault of a topology text is answered with.
pub fn put_topology_fault<W: Write>(out: &mut W, fault: ReadFault) -> Result<(), WriteFault>
    ensures ok { OnOk result (Appends (W.contents out.old) (W.contents out.new) (bad_topology_text fault)) }
    ensures err { OnErr result (AppendsPrefix (W.contents out.old) (W.contents out.new) (bad_topology_text fault)) }
{
    match fault {
        ReadFault::TextTooLong => put_bytes(out, b"bad topology TextTooLong\n"),
        ReadFault::NotToml => put_bytes(out, b"bad topology NotToml\n"),
        ReadFault::MissingKey => put_bytes(out, b"bad topology MissingKey\n"),
        ReadFault::UnknownKey => put_bytes(out, b"bad topology UnknownKey\n"),
        ReadFault::WrongKind => put_bytes(out, b"bad topology WrongKind\n"),
        ReadFault::UnknownApp => put_bytes(out, b"bad topology UnknownApp\n"),
        ReadFault::Topology(fault) => put_graph_fault(out, fault),
        ReadFault::NoMemory => put_bytes(out, b"bad topology NoMemory\n"),
    }
}

fn put_graph_fault<W: Write>(out: &mut W, fault: TopoFault) -> Result<(), WriteFault>
    ensures ok { OnOk result (Appends (W.contents out.old) (W.contents out.new) (graph_fault_text fault)) }
    ensures err { OnErr result (AppendsPrefix (W.contents out.old) (W.contents out.new) (graph_fault_text fault)) }
{
    match fault {
        TopoFault::NoNodes => put_bytes(out, b"bad topology NoNodes\n"),
        TopoFault::TooManyNodes => put_bytes(out, b"bad topology TooManyNodes\n"),
        TopoFault::BadId(id) => put_node_fault(out, b"bad topology BadId ", id),
        TopoFault::TwiceNode(id) => put_node_fault(out, b"bad topology TwiceNode ", id),
        TopoFault::TooManyLinks => put_bytes(out, b"bad topology TooManyLinks\n"),
        TopoFault::StrangeNode(id) => put_node_fault(out, b"bad topology StrangeNode ", id),
        TopoFault::SelfLink(id) => put_node_fault(out, b"bad topology SelfLink ", id),
        TopoFault::TwiceLink(a, b) => put_link_fault(out, b"bad topology TwiceLink ", a, b),
        TopoFault::NoMemory => put_bytes(out, b"bad topology NoMemory\n"),
        TopoFault::NoSuchLink => put_bytes(out, b"bad topology NoSuchLink\n"),
        TopoFault::LinkIsThere => put_bytes(out, b"bad topology LinkIsThere\n"),
        TopoFault::NodeIsUp => put_bytes(out, b"bad topology NodeIsUp\n"),
    }
}

// Writes a line that ends with the two identifiers of a link.
fn put_link_fault<W: Write>(out: &mut W, text: &[u8], a: u32, b: u32) -> Result<(), WriteFault>
    ensures ok { OnOk result (Appends (W.contents out.old) (W.contents out.new) (numbered_twice text.now a b)) }
    ensures err { OnErr result (AppendsPrefix (W.contents out.old) (W.contents out.new) (numbered_twice text.now a b)) }
{
    let first = Part::Number(u64::from(a));
    let second = Part::Number(u64::from(b));
    put_parts(
        out,
        &[
            Part::Text(text),
            first,
            Part::Text(b" "),
            second,
            Part::Text(b"\n"),
        ],
    )
}

// Writes a line that ends with an identifier.
fn put_node_fault<W: Write>(out: &mut W, text: &[u8], id: u32) -> Result<(), WriteFault>
    ensures ok { OnOk result (Appends (W.contents out.old) (W.contents out.new) (numbered text.now id)) }
    ensures err { OnErr result (AppendsPrefix (W.contents out.old) (W.contents out.new) (numbered text.now id)) }
{
    put_numbered(out, text, u64::from(id))
}

/// Writes a line that ends with a number.
pub fn put_numbered<W: Write>(out: &mut W, text: &[u8], number: u64) -> Result<(), WriteFault>
    ensures ok { OnOk result (Appends (W.contents out.old) (W.contents out.new) (numbered text.now number)) }
    ensures err { OnErr result (AppendsPrefix (W.contents out.old) (W.contents out.new) (numbered text.now number)) }
{
    put_bytes(out, text)?;
    put_number(out, number)?;
    put_bytes(out, b"\n")
}

/// Writes what a bad line is answered with.
pub fn put_bad_line<W: Write>(out: &mut W, number: u64) -> Result<(), WriteFault>
    ensures ok { OnOk result (Appends (W.contents out.old) (W.contents out.new) (bad_line_text number)) }
    ensures err { OnErr result (AppendsPrefix (W.contents out.old) (W.contents out.new) (bad_line_text number)) }
{
    put_numbered(out, b"bad line ", number)
}

/// Does what the command asks for, and writes the answer. If an allocation fails, nothing is changed or written;
/// where the writer fails the configuration is that of the answer.
pub fn answer<P: Invariant, W: Write>(
    alloc: Global,
    config: &mut Config<P>,
    command: Command,
    out: &mut W,
) -> Result<(), RunStop>
    ensures ok { OnOk result
        ((config.new ≡ (answered (meaning_of P.app P.text P.from_text P.names P.counts) config.old command).0)
        × Appends (W.contents out.old) (W.contents out.new)
        (answered (meaning_of P.app P.text P.from_text P.names P.counts) config.old command).1) }
    ensures err { OnErr result
        (AppendsPrefix (W.contents out.old) (W.contents out.new)
        (answered (meaning_of P.app P.text P.from_text P.names P.counts) config.old command).1) }
    ensures stop { IfErr result IsOutputStop }
    ensures memory { result ≡ Err RunStop.NoMemory
        → (config.new ≡ config.old) × Keeps (W.contents out.old) (W.contents out.new) }
    ensures fault { result ≡ Err RunStop.WriteFailed
        → config.new ≡ (answered (meaning_of P.app P.text P.from_text P.names P.counts) config.old command).0 }
{
    match command {
        Command::Step(event) => answer_step(alloc, config, event, out),
        Command::Inject(fault) => answer_fault(alloc, config, &fault, out),
        Command::Draw(seed) => answer_draw(alloc, config, seed, out),
        Command::Show => written(show_all(config, out)),
        Command::ShowNode(at) => written(show_node(config, at, out)),
        Command::Newest => written(show_newest(config, out)),
        Command::Enabled(at) => answer_enabled(alloc, config, at, out),
        Command::Ready => answer_ready(alloc, config, out),
        Command::Check => {
            answer_check(alloc, config, false, out)?;
            Ok(())
        }
        Command::CheckNode(at) => answer_check_node(alloc, config, at, out),
        Command::Alarm(at) => written(answer_alarm(config, at, out)),
        Command::Watch(at) => answer_watch(alloc, config, at, out),
        Command::Moves => answer_moves(alloc, config, out),
        Command::MovesOf(at) => answer_moves_of(alloc, config, at, out),
        Command::Snapshot => written(put_snapshot(config, out)),
        Command::Invariant => answer_invariant(alloc, config, out),
    }
}

/// Steps, and writes the reply or the refusal. If an allocation fails, nothing is changed or written; where the
/// writer fails the event was done, or refused.
#[inline(always)]
pub fn answer_step<P: Application, W: Write>(
    alloc: Global,
    config: &mut Config<P>,
    event: Event,
    out: &mut W,
) -> Result<(), RunStop>
    ensures ok { OnOk result ((config.new ≡ (stepped config.old (outcome_of P.app config.old event)).0)
        × Appends (W.contents out.old) (W.contents out.new)
        (stepped config.old (outcome_of P.app config.old event)).1) }
    ensures err { OnErr result
        (AppendsPrefix (W.contents out.old) (W.contents out.new)
        (stepped config.old (outcome_of P.app config.old event)).1) }
    ensures stop { IfErr result IsOutputStop }
    ensures memory { result ≡ Err RunStop.NoMemory
        → (config.new ≡ config.old) × Keeps (W.contents out.old) (W.contents out.new) }
    ensures fault { result ≡ Err RunStop.WriteFailed
        → config.new ≡ (stepped config.old (outcome_of P.app config.old event)).0 }
{
    match config.step(alloc, event) {
        Ok(reply) => written(put_reply(out, reply)),
        Err(StepRefusal::NoMemory) => Err(RunStop::NoMemory),
        Err(refusal) => written(put_refusal(out, refusal)),
    }
}

/// Writes what an allowed step is answered with.
#[inline(always)]
pub fn put_reply<W: Write>(out: &mut W, reply: Reply) -> Result<(), WriteFault>
    ensures ok { OnOk result (Appends (W.contents out.old) (W.contents out.new) (reply_text reply)) }
    ensures err { OnErr result (AppendsPrefix (W.contents out.old) (W.contents out.new) (reply_text reply)) }
{
    match reply {
        Reply::Applied => put_bytes(out, b"applied\n"),
        Reply::Complete(session) => put_numbered(out, b"complete ", u64::from(session)),
    }
}

/// Writes what a refusal is answered with.
pub fn put_refusal<W: Write>(out: &mut W, refusal: StepRefusal) -> Result<(), WriteFault>
    ensures ok { OnOk result (Appends (W.contents out.old) (W.contents out.new) (refusal_text refusal)) }
    ensures err { OnErr result (AppendsPrefix (W.contents out.old) (W.contents out.new) (refusal_text refusal)) }
{
    match refusal {
        StepRefusal::StrangeNode => put_bytes(out, b"refused StrangeNode\n"),
        StepRefusal::StrangeNeighbour => put_bytes(out, b"refused StrangeNeighbour\n"),
        StepRefusal::NoSuchCase => put_bytes(out, b"refused NoSuchCase\n"),
        StepRefusal::WantsNeighbour => put_bytes(out, b"refused WantsNeighbour\n"),
        StepRefusal::TakesNoNeighbour => put_bytes(out, b"refused TakesNoNeighbour\n"),
        StepRefusal::Disagrees(id) => put_node_fault(out, b"refused Disagrees ", id),
        StepRefusal::NotEnabled => put_bytes(out, b"refused NotEnabled\n"),
        StepRefusal::NoMemory => put_bytes(out, b"refused NoMemory\n"),
    }
}
