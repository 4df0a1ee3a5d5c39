// The answers that list faults and alarms.

ghost use Rattle.std.specs.Prelude.{◌≡◌, ◌++◌, if◌then◌else◌, codes, Err, None, Some, IfErr, IfOk, OnErr, OnOk};
ghost use Rattle.std.specs.List.{flat_map};
ghost use Rattle.std.specs.Io.KnownBytes.{Appends, Keeps};
ghost use Rattle.topology.specs.Graph.{IsNode};
ghost use Rattle.reset_model.specs.EventText.{event_line};
ghost use Rattle.reset_model.specs.Planned.{outcome_of};
ghost use Rattle.reset_model.specs.declared.event.Event.TheVariants.{Request};
ghost use Rattle.action_tables.specs.Written.{AppendsPrefix};
ghost use Rattle.applications.specs.Meaning.{meaning_of};
ghost use Rattle.link_predicates.specs.Faults.{repair_of};
ghost use Rattle.script_replay.specs.Output.{alarm_line, alarm_text, answered, at_node, fault_line, fault_words};
ghost use Rattle.script_replay.specs.Output.{faults_lines, faults_status, faults_text, found_status, node_faults_lines};
ghost use Rattle.script_replay.specs.Output.{repair_text, stepped, watched};
ghost use Rattle.script_replay.specs.declared.script.Command.TheVariants.{Watch};
ghost use Rattle.script_replay.specs.Stops.{IsOutputStop};

use crate::answer::{put_numbered, put_refusal, put_reply};
use crate::status::{RunStop, Status, written};
use action_tables::{Part, WriteFault, put_bytes, put_parts};
use app_interface::Application;
use app_invariants::Invariant;
use fault_inject::is_node;
use link_predicates::{LinkFault, alarm, check_all, check_node};
use reset_machine::{Config, Event, StepRefusal, write_event};
use std::alloc::{AllocError, Global};
use std::io::Write;

/// Writes the faults of all nodes, with what repairs each where that is asked for, and answers whether there are some.
/// If an allocation fails, nothing is written.
pub fn answer_check<P: Invariant, W: Write>(
    alloc: Global,
    config: &Config<P>,
    repairs: bool,
    out: &mut W,
) -> Result<Status, RunStop>
    ensures ok { OnOk result (Appends (W.contents out.old) (W.contents out.new)
        (faults_lines (meaning_of P.app P.text P.from_text P.names P.counts) repairs config.now)) }
    ensures status { IfOk result
        (λ status. status ≡ faults_status (meaning_of P.app P.text P.from_text P.names P.counts) config.now) }
    ensures err { OnErr result (AppendsPrefix (W.contents out.old) (W.contents out.new)
        (faults_lines (meaning_of P.app P.text P.from_text P.names P.counts) repairs config.now)) }
    ensures stop { IfErr result IsOutputStop }
    ensures memory { result ≡ Err RunStop.NoMemory → Keeps (W.contents out.old) (W.contents out.new) }
{
    match check_all(alloc, config) {
        Ok(found) => {
            put_faults(out, &found, repairs)?;
            Ok(found_status(&found))
        }
        Err(AllocError) => Err(RunStop::NoMemory),
    }
}

// How a check that found these ends.
fn found_status(found: &[LinkFault]) -> Status
    ensures { result ≡ found_status found.now }
{
    match found {
        [] => Status::Good,
        _ => Status::FaultsFound,
    }
}

/// Writes the faults of a node, or that there is no such node. If an allocation fails, nothing is written.
pub fn answer_check_node<P: Invariant, W: Write>(
    alloc: Global,
    config: &Config<P>,
    at: u32,
    out: &mut W,
) -> Result<(), RunStop>
    ensures ok { OnOk result (Appends (W.contents out.old) (W.contents out.new)
        (at_node config.now at (node_faults_lines (meaning_of P.app P.text P.from_text P.names P.counts)
        config.now at))) }
    ensures err { OnErr result (AppendsPrefix (W.contents out.old) (W.contents out.new)
        (at_node config.now at (node_faults_lines (meaning_of P.app P.text P.from_text P.names P.counts)
        config.now at))) }
    ensures stop { IfErr result IsOutputStop }
    ensures memory { result ≡ Err RunStop.NoMemory → Keeps (W.contents out.old) (W.contents out.new) }
{
    match check_node(alloc, config, at) {
        Ok(found) => written(put_faults(out, &found, false)),
        Err(StepRefusal::NoMemory) => Err(RunStop::NoMemory),
        Err(refusal) => written(put_refusal(out, refusal)),
    }
}

/// Writes the alarm of a node, that it has none, or that there is no such node.
pub fn answer_alarm<P: Invariant, W: Write>(
    config: &Config<P>,
    at: u32,
    out: &mut W,
) -> Result<(), WriteFault>
    ensures ok { OnOk result (Appends (W.contents out.old) (W.contents out.new)
        (at_node config.now at (alarm_line (meaning_of P.app P.text P.from_text P.names P.counts) config.now at))) }
    ensures err { OnErr result (AppendsPrefix (W.contents out.old) (W.contents out.new)
        (at_node config.now at (alarm_line (meaning_of P.app P.text P.from_text P.names P.counts) config.now at))) }
{
    if is_node(config, at) {
        put_alarm(out, alarm(config, at))
    } else {
        put_refusal(out, StepRefusal::StrangeNode)
    }
}

/// As `answer_alarm`; where the node has an alarm it asks for a reset, and the reply or the refusal is
/// written too. If an allocation fails, nothing is changed or written; where the writer fails the node has asked,
/// where it has an alarm.
pub fn answer_watch<P: Invariant, W: Write>(
    alloc: Global,
    config: &mut Config<P>,
    at: u32,
    out: &mut W,
) -> Result<(), RunStop>
    ensures ok { OnOk result
        ((config.new ≡ (answered (meaning_of P.app P.text P.from_text P.names P.counts) config.old (Watch at)).0)
        × Appends (W.contents out.old) (W.contents out.new)
        (answered (meaning_of P.app P.text P.from_text P.names P.counts) config.old (Watch at)).1) }
    ensures err { OnErr result (AppendsPrefix (W.contents out.old) (W.contents out.new)
        (answered (meaning_of P.app P.text P.from_text P.names P.counts) config.old (Watch at)).1) }
    ensures stop { IfErr result IsOutputStop }
    ensures memory { result ≡ Err RunStop.NoMemory
        → (config.new ≡ config.old) × Keeps (W.contents out.old) (W.contents out.new) }
    ensures fault { result ≡ Err RunStop.WriteFailed
        → config.new ≡ (answered (meaning_of P.app P.text P.from_text P.names P.counts) config.old (Watch at)).0 }
{
    if is_node(&*config, at) {
        watch_node(alloc, config, at, out)
    } else {
        written(put_refusal(out, StepRefusal::StrangeNode))
    }
}

// Has a node ask for a reset where it has an alarm, and writes the alarm and how the request is answered.
fn watch_node<P: Invariant, W: Write>(
    alloc: Global,
    config: &mut Config<P>,
    at: u32,
    out: &mut W,
) -> Result<(), RunStop>
    requires { IsNode config.now.graph at }
    ensures ok { OnOk result ((config.new ≡ (watched (meaning_of P.app P.text P.from_text P.names P.counts)
        config.old at).0)
        × Appends (W.contents out.old) (W.contents out.new)
        (watched (meaning_of P.app P.text P.from_text P.names P.counts) config.old at).1) }
    ensures err { OnErr result (AppendsPrefix (W.contents out.old) (W.contents out.new)
        (watched (meaning_of P.app P.text P.from_text P.names P.counts) config.old at).1) }
    ensures stop { IfErr result IsOutputStop }
    ensures memory { result ≡ Err RunStop.NoMemory
        → (config.new ≡ config.old) × Keeps (W.contents out.old) (W.contents out.new) }
    ensures fault { result ≡ Err RunStop.WriteFailed
        → config.new ≡ (watched (meaning_of P.app P.text P.from_text P.names P.counts) config.old at).0 }
{
    let told = alarm(config, at);
    match told {
        None => written(put_alarm(out, told)),
        Some(fault) => ask(alloc, config, at, fault, out),
    }
}

// Has a node ask for a reset for this fault, and writes its alarm, and then the reply or the refusal.
fn ask<P: Application, W: Write>(
    alloc: Global,
    config: &mut Config<P>,
    at: u32,
    fault: LinkFault,
    out: &mut W,
) -> Result<(), RunStop>
    ensures ok { OnOk result ((config.new ≡ (stepped config.old (outcome_of P.app config.old (Request at))).0)
        × Appends (W.contents out.old) (W.contents out.new)
        (alarm_text (Some fault) ++ (stepped config.old (outcome_of P.app config.old (Request at))).1)) }
    ensures err { OnErr result (AppendsPrefix (W.contents out.old) (W.contents out.new)
        (alarm_text (Some fault) ++ (stepped config.old (outcome_of P.app config.old (Request at))).1)) }
    ensures stop { IfErr result IsOutputStop }
    ensures memory { result ≡ Err RunStop.NoMemory
        → (config.new ≡ config.old) × Keeps (W.contents out.old) (W.contents out.new) }
    ensures fault { result ≡ Err RunStop.WriteFailed
        → config.new ≡ (stepped config.old (outcome_of P.app config.old (Request at))).0 }
{
    match config.step(alloc, Event::Request { at }) {
        Ok(reply) => {
            put_alarm(out, Some(fault))?;
            written(put_reply(out, reply))
        }
        Err(StepRefusal::NoMemory) => Err(RunStop::NoMemory),
        Err(refusal) => {
            put_alarm(out, Some(fault))?;
            written(put_refusal(out, refusal))
        }
    }
}

// Writes the line of an alarm, or that there is none.
fn put_alarm<W: Write>(out: &mut W, told: Option<LinkFault>) -> Result<(), WriteFault>
    ensures ok { OnOk result (Appends (W.contents out.old) (W.contents out.new) (alarm_text told)) }
    ensures err { OnErr result (AppendsPrefix (W.contents out.old) (W.contents out.new) (alarm_text told)) }
{
    let Some(fault) = told else {
        return put_bytes(out, b"quiet\n");
    };
    put_parts(
        out,
        &[
            Part::Text(b"alarm "),
            Part::Number(u64::from(fault.at)),
            Part::Text(b" "),
            Part::Number(u64::from(fault.other)),
            Part::Text(b" "),
            Part::Number(u64::from(fault.row)),
            Part::Text(b"\n"),
        ],
    )
}

// Writes the lines of faults, and their number.
fn put_faults<W: Write>(out: &mut W, faults: &[LinkFault], repairs: bool) -> Result<(), WriteFault>
    ensures ok { OnOk result (Appends (W.contents out.old) (W.contents out.new) (faults_text repairs faults.now)) }
    ensures err { OnErr result
        (AppendsPrefix (W.contents out.old) (W.contents out.new) (faults_text repairs faults.now)) }
{
    put_fault_lines(out, faults, repairs)?;
    put_numbered(out, b"faults ", faults.len() as u64)
}

fn put_fault_lines<W: Write>(
    out: &mut W,
    faults: &[LinkFault],
    repairs: bool,
) -> Result<(), WriteFault>
    ensures ok { OnOk result
        (Appends (W.contents out.old) (W.contents out.new) (flat_map (fault_line repairs) faults.now)) }
    ensures err { OnErr result
        (AppendsPrefix (W.contents out.old) (W.contents out.new) (flat_map (fault_line repairs) faults.now)) }
{
    for fault in faults {
        put_fault(out, *fault, repairs)?;
    }
    Ok(())
}

fn put_fault<W: Write>(out: &mut W, fault: LinkFault, repairs: bool) -> Result<(), WriteFault>
    ensures ok { OnOk result (Appends (W.contents out.old) (W.contents out.new) (fault_line repairs fault)) }
    ensures err { OnErr result
        (AppendsPrefix (W.contents out.old) (W.contents out.new) (fault_line repairs fault)) }
{
    let repair = asked_repair(fault, repairs);
    put_fault_words(out, fault)?;
    put_repair(out, repair)?;
    put_bytes(out, b"\n")
}

// Writes what a fault says, without the end of its line.
fn put_fault_words<W: Write>(out: &mut W, fault: LinkFault) -> Result<(), WriteFault>
    ensures ok { OnOk result (Appends (W.contents out.old) (W.contents out.new) (fault_words fault)) }
    ensures err { OnErr result (AppendsPrefix (W.contents out.old) (W.contents out.new) (fault_words fault)) }
{
    put_parts(
        out,
        &[
            Part::Text(b"link "),
            Part::Number(u64::from(fault.at)),
            Part::Text(b" "),
            Part::Number(u64::from(fault.other)),
            Part::Text(b" "),
            Part::Text(fault.family.name().as_bytes()),
            Part::Text(b" "),
            Part::Number(u64::from(fault.row)),
        ],
    )
}

// Writes what stands behind a fault for its repair.
fn put_repair<W: Write>(out: &mut W, repair: Option<Event>) -> Result<(), WriteFault>
    ensures ok { OnOk result (Appends (W.contents out.old) (W.contents out.new) (repair_text repair)) }
    ensures err { OnErr result (AppendsPrefix (W.contents out.old) (W.contents out.new) (repair_text repair)) }
{
    match repair {
        Some(event) => put_repair_event(out, event),
        None => Ok(()),
    }
}

// Writes ` -> ` and the event that repairs a fault.
fn put_repair_event<W: Write>(out: &mut W, event: Event) -> Result<(), WriteFault>
    ensures ok { OnOk result
        (Appends (W.contents out.old) (W.contents out.new) (codes " -> " ++ event_line event)) }
    ensures err { OnErr result
        (AppendsPrefix (W.contents out.old) (W.contents out.new) (codes " -> " ++ event_line event)) }
{
    put_bytes(out, b" -> ")?;
    write_event(&event, out)
}

// What repairs a fault, where that is asked for.
fn asked_repair(fault: LinkFault, repairs: bool) -> Option<Event>
    ensures { result ≡ (if repairs then repair_of fault else None) }
{
    if repairs { fault.repair() } else { None }
}
