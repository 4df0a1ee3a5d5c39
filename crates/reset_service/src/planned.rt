// Plans that recover a network, as scripts.

ghost use Rattle.std.specs.Prelude.{◌≡◌, ℕ, List, None, Some, option_map, IfErr, OnErr, OnOk};
ghost use Rattle.std.specs.List.{flat_map};
ghost use Rattle.std.specs.Io.KnownBytes.{Appends};
ghost use Rattle.topology.specs.TopologyText.{IsReadFault};
ghost use Rattle.action_tables.specs.Written.{AppendsPrefix};
ghost use Rattle.applications.specs.Choice.{ForApp};
ghost use Rattle.applications.specs.Meaning.{meaning_of};
ghost use Rattle.recovery.specs.Recovered.{Recovers};
ghost use Rattle.script_replay.specs.Lines.{GaveText, IsReadFrom};
ghost use Rattle.script_replay.specs.Output.{Leaves, bad_line_text};
ghost use Rattle.script_replay.specs.Stops.{IsOutputStop};
ghost use Rattle.reset_service.specs.Opened.{IsOpenedFrom, IsOpenedText};
ghost use Rattle.reset_service.specs.Started.{Plans};
ghost use Rattle.reset_service.specs.Planned.{IsPlan, command_text, counted_text};
ghost use Rattle.reset_service.specs.Planned.{recovery_text};

use crate::started::{open_network, refuse_start};
use action_tables::{Part, WriteFault, put_bytes, put_parts};
use app_interface::Application;
use app_invariants::Invariant;
use applications::with_application;
use recovery::{Recovery, plan};
use reset_machine::{Config, Event, write_event};
use script_replay::{
    Network, RunStop, Status, leave_script, put_bad_line, read_network, read_text, refuse_input,
    refuse_topology,
};
use std::alloc::Global;
use std::io::{Read, Write};
use topology::{MAX_TEXT, ReadFault};

/// Writes a plan that recovers the network of a topology text, once the script of a reader was run on its booted
/// configuration: a comment with the number of the repairs, these, a comment with the number of the steps of a reset,
/// and these, one command a line. Run where the script ends, each command is applied; after the repairs no row of tree
/// and wave fails, and after the reset each node has restarted in one session of its component. The answers of the
/// script aren't written.
///
/// The topology is judged before the reader is touched. A script that is too long, or has a bad line, is answered as
/// `replay` ends with it.
pub fn plan_text<R: Read, W: Write>(
    alloc: Global,
    topology: &[u8],
    script: &mut R,
    out: &mut W,
) -> Result<Status, RunStop>
    ensures leaves { (text : List ℕ) × IsReadFrom (R.remaining script.old) text
        × Leaves (IsOpenedText (Plans text) topology.now None) (W.contents out.old) (W.contents out.new) result }
    ensures taken { OnOk result (GaveText (R.remaining script.old) (R.remaining script.new)) }
    ensures untouched { (f : ReadFault) → IsReadFault topology.now f → script.new ≡ script.old }
{
    plan_opening(alloc, topology, None, script, out)
}

/// As `plan_text`, from the configuration that a snapshot of the topology names in place of the booted one. The topology
/// is judged first, and the snapshot before the script.
pub fn plan_from<R: Read, W: Write>(
    alloc: Global,
    topology: &[u8],
    snapshot: &[u8],
    script: &mut R,
    out: &mut W,
) -> Result<Status, RunStop>
    ensures leaves { (text : List ℕ) × IsReadFrom (R.remaining script.old) text
        × Leaves (IsOpenedText (Plans text) topology.now (Some snapshot.now))
        (W.contents out.old) (W.contents out.new) result }
    ensures taken { OnOk result (GaveText (R.remaining script.old) (R.remaining script.new)) }
    ensures untouched { (f : ReadFault) → IsReadFault topology.now f → script.new ≡ script.old }
{
    plan_opening(alloc, topology, Some(snapshot), script, out)
}

// Plans for what the script of a reader leaves of the booted configuration of a topology text, or of that which a
// snapshot of it names.
fn plan_opening<R: Read, W: Write>(
    alloc: Global,
    topology: &[u8],
    snapshot: Option<&[u8]>,
    script: &mut R,
    out: &mut W,
) -> Result<Status, RunStop>
    ensures leaves { (text : List ℕ) × IsReadFrom (R.remaining script.old) text
        × Leaves (IsOpenedText (Plans text) topology.now (option_map (λ s. s.now) snapshot.entry))
        (W.contents out.old) (W.contents out.new) result }
    ensures taken { OnOk result (GaveText (R.remaining script.old) (R.remaining script.new)) }
    ensures untouched { (f : ReadFault) → IsReadFault topology.now f → script.new ≡ script.old }
{
    match read_network(alloc, topology) {
        Ok(network) => match read_text(alloc, script) {
            Ok(text) => plan_app(alloc, network, snapshot, &text, out),
            Err(stop) => Err(stop),
        },
        Err(fault) => refuse_topology(fault, out),
    }
}

// Plans for what a script leaves of a network, with the application that it names.
#[tactic(auto, using(applications::proofs::Choosing::by_name))]
fn plan_app<W: Write>(
    alloc: Global,
    network: Network,
    snapshot: Option<&[u8]>,
    script: &[u8],
    out: &mut W,
) -> Result<Status, RunStop>
    requires { network.topology.nodes ≡ network.topology.ids }
    ensures leaves { ForApp (λ L m. Leaves
        (IsOpenedFrom m network.topology network.modulus (option_map (λ s. s.now) snapshot.entry) (Plans script.now L m))
        (W.contents out.old) (W.contents out.new) result) network.app }
    ensures stop { IfErr result IsOutputStop }
{
    with_application!(network.app, P => plan_opened::<P, W>(alloc, network, snapshot, script, out))
}

fn plan_opened<P: Invariant, W: Write>(
    alloc: Global,
    network: Network,
    snapshot: Option<&[u8]>,
    script: &[u8],
    out: &mut W,
) -> Result<Status, RunStop>
    requires { network.topology.nodes ≡ network.topology.ids }
    ensures leaves { Leaves
        (IsOpenedFrom (meaning_of P.app P.text P.from_text P.names P.counts) network.topology network.modulus
        (option_map (λ s. s.now) snapshot.entry)
        (Plans script.now P.Local (meaning_of P.app P.text P.from_text P.names P.counts)))
        (W.contents out.old) (W.contents out.new) result }
    ensures stop { IfErr result IsOutputStop }
{
    match open_network::<P>(alloc, network, snapshot) {
        Ok(mut config) => plan_after(alloc, &mut config, script, out),
        Err(fault) => refuse_start(fault, out),
    }
}

// Plans for what a script leaves of this configuration.
fn plan_after<P: Invariant, W: Write>(
    alloc: Global,
    config: &mut Config<P>,
    script: &[u8],
    out: &mut W,
) -> Result<Status, RunStop>
    ensures leaves { Leaves (IsPlan (meaning_of P.app P.text P.from_text P.names P.counts) config.old script.now)
        (W.contents out.old) (W.contents out.new) result }
    ensures stop { IfErr result IsOutputStop }
{
    if script.len() > MAX_TEXT {
        return refuse_input(out, b"bad script TooLong\n");
    }
    match leave_script(alloc, config, script) {
        Ok(None) => plan_here(alloc, config, out),
        Ok(Some(number)) => refuse_line(number, out),
        Err(_) => Err(RunStop::NoMemory),
    }
}

// Answers a script with a bad line by its number.
pub fn refuse_line<W: Write>(number: u64, out: &mut W) -> Result<Status, RunStop>
    ensures leaves { Leaves (λ output. output ≡ (bad_line_text number, Status.BadInput)) (W.contents out.old)
        (W.contents out.new) result }
    ensures stop { IfErr result IsOutputStop }
{
    put_bad_line(out, number)?;
    Ok(Status::BadInput)
}

// Plans for this configuration.
fn plan_here<P: Application, W: Write>(
    alloc: Global,
    config: &Config<P>,
    out: &mut W,
) -> Result<Status, RunStop>
    ensures leaves { Leaves
        (λ output. (repairs reset : List Event) × Recovers P.app config.now repairs reset
        × (output ≡ (recovery_text repairs reset, Status.Good)))
        (W.contents out.old) (W.contents out.new) result }
    ensures stop { IfErr result IsOutputStop }
{
    match plan(alloc, config) {
        Ok(plan) => answer_plan(&plan, out),
        Err(_) => Err(RunStop::NoMemory),
    }
}

// Answers with a plan.
fn answer_plan<W: Write>(plan: &Recovery, out: &mut W) -> Result<Status, RunStop>
    ensures leaves { Leaves
        (λ output. output ≡ (recovery_text plan.now.repairs.items plan.now.reset.items, Status.Good))
        (W.contents out.old) (W.contents out.new) result }
    ensures stop { IfErr result IsOutputStop }
{
    put_recovery(out, &plan.repairs, &plan.reset)?;
    Ok(Status::Good)
}

// Writes a plan as a script.
fn put_recovery<W: Write>(out: &mut W, repairs: &[Event], reset: &[Event]) -> Result<(), WriteFault>
    ensures ok { OnOk result
        (Appends (W.contents out.old) (W.contents out.new) (recovery_text repairs.now reset.now)) }
    ensures err { OnErr result
        (AppendsPrefix (W.contents out.old) (W.contents out.new) (recovery_text repairs.now reset.now)) }
{
    put_counted(out, repairs, b" repairs")?;
    put_counted(out, reset, b" steps of a reset")
}

// Writes a comment with the number of events and what they are, and then their commands.
fn put_counted<W: Write>(out: &mut W, events: &[Event], what: &[u8]) -> Result<(), WriteFault>
    ensures ok { OnOk result (Appends (W.contents out.old) (W.contents out.new) (counted_text events.now what.now)) }
    ensures err { OnErr result
        (AppendsPrefix (W.contents out.old) (W.contents out.new) (counted_text events.now what.now)) }
{
    put_parts(
        out,
        &[
            Part::Text(b"# "),
            Part::Number(events.len() as u64),
            Part::Text(what),
            Part::Text(b"\n"),
        ],
    )?;
    put_commands(out, events)
}

// Writes the commands of events, one a line.
fn put_commands<W: Write>(out: &mut W, events: &[Event]) -> Result<(), WriteFault>
    ensures ok { OnOk result
        (Appends (W.contents out.old) (W.contents out.new) (flat_map command_text events.now)) }
    ensures err { OnErr result
        (AppendsPrefix (W.contents out.old) (W.contents out.new) (flat_map command_text events.now)) }
{
    for event in events {
        put_command(out, event)?;
    }
    Ok(())
}

// Writes the command of an event, and ends the line.
fn put_command<W: Write>(out: &mut W, event: &Event) -> Result<(), WriteFault>
    ensures ok { OnOk result (Appends (W.contents out.old) (W.contents out.new) (command_text event.now)) }
    ensures err { OnErr result
        (AppendsPrefix (W.contents out.old) (W.contents out.new) (command_text event.now)) }
{
    write_event(event, out)?;
    put_bytes(out, b"\n")
}
