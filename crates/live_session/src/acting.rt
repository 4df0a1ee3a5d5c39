// The answers to commands that change the network, with the entries that they leave.

ghost use Rattle.std.specs.Prelude.{◌≡◌, ◌<◌, ◌++◌, ◌∷◌, [], false, IfOk, None, Ok, OnOk, Some};
ghost use Rattle.reset_model.specs.EventText.{event_line};
ghost use Rattle.reset_model.specs.Planned.{outcome_of};
ghost use Rattle.applications.specs.Meaning.{meaning_of};
ghost use Rattle.fault_inject.specs.Effects.{injected};
ghost use Rattle.history.specs.HistoryText.{ended};
ghost use Rattle.history.specs.declared.entry.Entry.TheVariants.{Step, Disturbed};
ghost use Rattle.script_replay.specs.Output.{answered, disturbed, drawn, drawn_text, stepped};
ghost use Rattle.script_replay.specs.Recorded.{event_entry, fault_entry, line_entries};
ghost use Rattle.script_replay.specs.declared.script.Command.TheVariants.{Watch};
ghost use Rattle.script_replay.specs.declared.script.Line.TheVariants.{Asks};
ghost use Rattle.live_session.specs.Course.{is_full, kept_lines, room_after};
ghost use Rattle.live_session.specs.Progress.{HasActed, entry_if};
ghost use Rattle.reset_model.specs.declared.event.Event.TheVariants.{Request};

use crate::batch::Batch;
use action_tables::{WriteFault, put_bytes};
use app_interface::Application;
use app_invariants::Invariant;
use fault_inject::{Fault, FaultRefusal, inject, write_fault};
use link_predicates::alarm;
use reset_machine::{Config, Event, StepRefusal, write_event};
use script_replay::{
    Command, answer_command, drawn, fault_refusal_line, put_drawn, put_refusal, put_reply,
};
use std::alloc::{AllocError, Global};

/// Does what the event says, and holds its answer and, where it was applied, its entry. The answer is the room that is
/// left.
pub fn act_event<P: Application>(
    alloc: Global,
    config: &mut Config<P>,
    room: Option<u64>,
    event: Event,
    batch: &mut Batch,
) -> Result<Option<u64>, AllocError>
    requires { is_full room ≡ false }
    ensures config { OnOk result (config.new ≡ (stepped config.old (outcome_of P.app config.old event)).0) }
    ensures acted { IfOk result (λ left. HasActed room (stepped config.old (outcome_of P.app config.old event)).1
        (event_entry event (outcome_of P.app config.old event)) left batch.old batch.new) }
{
    if answer_event(alloc, config, event, &mut batch.answers)? {
        keep_event(room, event, &mut batch.entries)
    } else {
        Ok(room)
    }
}

/// Does what the event says, and holds its answer, where the session keeps no history.
#[inline(always)]
pub fn act_unkept<P: Application>(
    alloc: Global,
    config: &mut Config<P>,
    event: Event,
    batch: &mut Batch,
) -> Result<(), AllocError>
    ensures config { OnOk result (config.new ≡ (stepped config.old (outcome_of P.app config.old event)).0) }
    ensures acted { OnOk result (HasActed None (stepped config.old (outcome_of P.app config.old event)).1
        (event_entry event (outcome_of P.app config.old event)) None batch.old batch.new) }
{
    answer_event(alloc, config, event, &mut batch.answers)?;
    Ok(())
}

/// Does what the event says, and holds its answer and, where it was applied, its entry, whose line was read: it is
/// copied, and not written anew. The answer is the room that is left.
#[inline(always)]
pub fn act_kept<P: Application>(
    alloc: Global,
    config: &mut Config<P>,
    room: u64,
    event: Event,
    line: &[u8],
    batch: &mut Batch,
) -> Result<u64, AllocError>
    requires room { 0 < room }
    requires line { line.now ≡ ended (event_line event) }
    ensures config { OnOk result (config.new ≡ (stepped config.old (outcome_of P.app config.old event)).0) }
    ensures acted { IfOk result (λ left. HasActed (Some room)
        (stepped config.old (outcome_of P.app config.old event)).1
        (event_entry event (outcome_of P.app config.old event)) (Some left) batch.old batch.new) }
{
    if !answer_event(alloc, config, event, &mut batch.answers)? {
        return Ok(room);
    }
    batch.entries.extend_from_slice(line)?;
    Ok(room - 1)
}

// Does what the event says, and writes its answer. Whether it was applied.
#[inline(always)]
fn answer_event<P: Application>(
    alloc: Global,
    config: &mut Config<P>,
    event: Event,
    answers: &mut Vec<u8>,
) -> Result<bool, AllocError>
    ensures config { OnOk result (config.new ≡ (stepped config.old (outcome_of P.app config.old event)).0) }
    ensures answers { OnOk result (answers.new.items
        ≡ answers.old.items ++ (stepped config.old (outcome_of P.app config.old event)).1) }
    ensures entry { IfOk result (λ applied. event_entry event (outcome_of P.app config.old event)
        ≡ entry_if applied event) }
{
    match config.step(alloc, event) {
        Ok(reply) => {
            gathered(put_reply(answers, reply))?;
            Ok(true)
        }
        Err(StepRefusal::NoMemory) => Err(AllocError),
        Err(refusal) => {
            gathered(put_refusal(answers, refusal))?;
            Ok(false)
        }
    }
}

/// Does the fault, and holds its answer and, where it was done, its entry. The answer is the room that is left.
pub fn act_fault<P: Application>(
    alloc: Global,
    config: &mut Config<P>,
    room: Option<u64>,
    fault: &Fault,
    batch: &mut Batch,
) -> Result<Option<u64>, AllocError>
    requires { is_full room ≡ false }
    ensures config { OnOk result
        (config.new ≡ (disturbed config.old (injected P.app P.from_text config.old fault.now)).0) }
    ensures acted { IfOk result (λ left. HasActed room
        (disturbed config.old (injected P.app P.from_text config.old fault.now)).1
        (fault_entry fault.now (injected P.app P.from_text config.old fault.now)) left batch.old batch.new) }
{
    match inject(alloc, config, fault) {
        Ok(()) => {
            let left = keep_fault(room, fault, &mut batch.entries)?;
            gathered(put_bytes(&mut batch.answers, b"disturbed\n"))?;
            Ok(left)
        }
        Err(FaultRefusal::NoMemory) => Err(AllocError),
        Err(refusal) => {
            gathered(put_bytes(&mut batch.answers, fault_refusal_line(refusal)))?;
            Ok(room)
        }
    }
}

/// As `act_fault`, for the fault that a seed draws, whose line is answered first.
pub fn act_draw<P: Application>(
    alloc: Global,
    config: &mut Config<P>,
    room: Option<u64>,
    seed: u32,
    batch: &mut Batch,
) -> Result<Option<u64>, AllocError>
    requires { is_full room ≡ false }
    ensures config { let f = drawn config.old.graph.ids seed in OnOk result
        (config.new ≡ (disturbed config.old (injected P.app P.from_text config.old f)).0) }
    ensures acted { let f = drawn config.old.graph.ids seed in IfOk result (λ left. HasActed room
        (drawn_text f ++ (disturbed config.old (injected P.app P.from_text config.old f)).1)
        (fault_entry f (injected P.app P.from_text config.old f)) left batch.old batch.new) }
{
    let fault = drawn(config, seed);
    gathered(put_drawn(&mut batch.answers, &fault))?;
    act_fault(alloc, config, room, &fault, batch)
}

/// Answers the alarm of a node, and has the node ask for a reset where it has one. The answer is the room that is left.
pub fn act_watch<P: Invariant>(
    alloc: Global,
    config: &mut Config<P>,
    room: Option<u64>,
    at: u32,
    batch: &mut Batch,
) -> Result<Option<u64>, AllocError>
    requires { is_full room ≡ false }
    ensures config { OnOk result
        (config.new ≡ (answered (meaning_of P.app P.text P.from_text P.names P.counts) config.old (Watch at)).0) }
    ensures acted { IfOk result (λ left. HasActed room
        (answered (meaning_of P.app P.text P.from_text P.names P.counts) config.old (Watch at)).1
        (line_entries (meaning_of P.app P.text P.from_text P.names P.counts) config.old (Asks (Watch at))) left
        batch.old batch.new) }
{
    let asks = asks_for_reset(alloc, config, at)?;
    match answer_command(alloc, config, Command::Watch(at), &mut batch.answers) {
        Ok(()) => {}
        Err(_) => return Err(AllocError),
    }
    if asks {
        keep_event(room, Event::Request { at }, &mut batch.entries)
    } else {
        Ok(room)
    }
}

// Whether a node that watches asks for a reset: it has an alarm, and its request is applied.
fn asks_for_reset<P: Invariant>(
    alloc: Global,
    config: &Config<P>,
    at: u32,
) -> Result<bool, AllocError>
    ensures { IfOk result (λ asks. line_entries (meaning_of P.app P.text P.from_text P.names P.counts)
        config.now (Asks (Watch at))
        ≡ entry_if asks (Request at)) }
{
    match alarm(config, at) {
        None => Ok(false),
        Some(_) => is_applied(alloc, config, Event::Request { at }),
    }
}

// Whether the event would be applied, as a copy shows: few nodes watch.
fn is_applied<P: Application>(
    alloc: Global,
    config: &Config<P>,
    event: Event,
) -> Result<bool, AllocError>
    ensures { IfOk result (λ applied. event_entry event (outcome_of P.app config.now event) ≡ entry_if applied event) }
{
    let mut copy = config.copy(alloc)?;
    let stepped = copy.step(alloc, event);
    drop(copy);
    match stepped {
        Ok(_) => Ok(true),
        Err(StepRefusal::NoMemory) => Err(AllocError),
        Err(_) => Ok(false),
    }
}

// Holds the entry of an event, if the session keeps a history. The answer is the room that is left.
fn keep_event(
    room: Option<u64>,
    event: Event,
    entries: &mut Vec<u8>,
) -> Result<Option<u64>, AllocError>
    requires { is_full room ≡ false }
    ensures room { IfOk result (λ left. left ≡ room_after room (Step event ∷ [])) }
    ensures entries { OnOk result (entries.new.items ≡ entries.old.items ++ kept_lines room (Step event ∷ [])) }
{
    match room {
        None => Ok(None),
        Some(room) => {
            gathered(write_event(&event, entries))?;
            entries.push(b'\n')?;
            Ok(Some(room - 1))
        }
    }
}

// The same of a fault.
fn keep_fault(
    room: Option<u64>,
    fault: &Fault,
    entries: &mut Vec<u8>,
) -> Result<Option<u64>, AllocError>
    requires { is_full room ≡ false }
    ensures room { IfOk result (λ left. left ≡ room_after room (Disturbed fault.now ∷ [])) }
    ensures entries { OnOk result (entries.new.items ≡ entries.old.items ++ kept_lines room (Disturbed fault.now ∷ [])) }
{
    match room {
        None => Ok(None),
        Some(room) => {
            gathered(write_fault(fault, entries))?;
            entries.push(b'\n')?;
            Ok(Some(room - 1))
        }
    }
}

/// What is written to memory fails only if an allocation fails.
#[inline(always)]
pub fn gathered(put: Result<(), WriteFault>) -> Result<(), AllocError>
    ensures { IfOk result (λ done. put ≡ Ok done) }
{
    match put {
        Ok(()) => Ok(()),
        Err(WriteFault) => Err(AllocError),
    }
}
