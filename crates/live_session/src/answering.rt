// The answer to one line.

ghost use Rattle.std.specs.Prelude.{◌≡◌, ◌++◌, ℕ, List, IfOk, None, OnOk, Some};
ghost use Rattle.reset_model.specs.EventText.{event_line};
ghost use Rattle.applications.specs.Meaning.{meaning_of};
ghost use Rattle.history.specs.HistoryText.{ended};
ghost use Rattle.script_replay.specs.Output.{answered};
ghost use Rattle.script_replay.specs.Script.{line_of};
ghost use Rattle.script_replay.specs.declared.script.Command.TheVariants.{Step};
ghost use Rattle.script_replay.specs.declared.script.Line.TheVariants.{Asks};
ghost use Rattle.live_session.specs.Course.{asks_for_change, full_text, unread_text};
ghost use Rattle.live_session.specs.Progress.{IsAnswered};

use crate::acting::{act_draw, act_event, act_fault, act_kept, act_unkept, act_watch, gathered};
use crate::batch::Batch;
use action_tables::put_bytes;
use app_invariants::Invariant;
use explanations::help_for;
use reset_machine::{Config, Event};
use script_replay::{Command, Line, RunStop, answer_command, put_bad_line, read_line};
use std::alloc::{AllocError, Global};

/// Answers the line with this number and text. The answer is the room that the history has left.
pub fn answer_text<P: Invariant>(
    alloc: Global,
    config: &mut Config<P>,
    room: Option<u64>,
    number: u64,
    line: &[u8],
    batch: &mut Batch,
) -> Result<Option<u64>, AllocError>
    ensures { IfOk result (λ left. IsAnswered (meaning_of P.app P.text P.from_text P.names P.counts)
        room config.old number
        line.now (line_of P.names line.now) left config.new batch.old batch.new) }
{
    match read_line::<P>(alloc, line)? {
        Line::Silent => Ok(room),
        Line::Bad => {
            answer_unread(number, line, batch)?;
            Ok(room)
        }
        Line::Asks(command) => answer_asked(alloc, config, room, command, batch),
    }
}

// Answers a line that is no line of a script: by the help that it asks for, or by its number.
fn answer_unread(number: u64, line: &[u8], batch: &mut Batch) -> Result<(), AllocError>
    ensures answers { OnOk result
        (batch.new.answers.items ≡ batch.old.answers.items ++ unread_text number line.now) }
    ensures entries { OnOk result (batch.new.entries.items ≡ batch.old.entries.items) }
{
    match help_for(line) {
        Some(help) => gathered(put_bytes(&mut batch.answers, help.as_bytes())),
        None => gathered(put_bad_line(&mut batch.answers, number)),
    }
}

/// Answers the line of an event where the session keeps no history.
#[inline(always)]
pub fn answer_unkept<P: Invariant>(
    alloc: Global,
    config: &mut Config<P>,
    event: Event,
    batch: &mut Batch,
) -> Result<(), AllocError>
    ensures { OnOk result ((n : ℕ) (text : List ℕ) → IsAnswered (meaning_of P.app P.text P.from_text P.names P.counts)
        None
        config.old n text (Asks (Step event)) None config.new batch.old batch.new) }
{
    act_unkept(alloc, config, event, batch)
}

/// Answers the line of an event, which has this text with its line feed. The answer is the room that the history has
/// left.
#[inline(always)]
pub fn answer_kept<P: Invariant>(
    alloc: Global,
    config: &mut Config<P>,
    room: u64,
    event: Event,
    line: &[u8],
    batch: &mut Batch,
) -> Result<u64, AllocError>
    requires { line.now ≡ ended (event_line event) }
    ensures { IfOk result (λ left. (n : ℕ) (text : List ℕ) → IsAnswered
        (meaning_of P.app P.text P.from_text P.names P.counts)
        (Some room) config.old n text (Asks (Step event)) (Some left) config.new batch.old batch.new) }
{
    if room == 0 {
        refuse_full(batch)?;
        return Ok(0);
    }
    act_kept(alloc, config, room, event, line, batch)
}

// Answers a command.
fn answer_asked<P: Invariant>(
    alloc: Global,
    config: &mut Config<P>,
    room: Option<u64>,
    command: Command,
    batch: &mut Batch,
) -> Result<Option<u64>, AllocError>
    ensures { IfOk result (λ left. (n : ℕ) (text : List ℕ) → IsAnswered
        (meaning_of P.app P.text P.from_text P.names P.counts) room
        config.old n text (Asks command) left config.new batch.old batch.new) }
{
    if !asks_for_change(&command) {
        answer_question(alloc, config, command, batch)?;
        return Ok(room);
    }
    if room == Some(0) {
        refuse_full(batch)?;
        return Ok(room);
    }
    match command {
        Command::Step(event) => act_event(alloc, config, room, event, batch),
        Command::Inject(fault) => act_fault(alloc, config, room, &fault, batch),
        Command::Draw(seed) => act_draw(alloc, config, room, seed, batch),
        Command::Watch(at) => act_watch(alloc, config, room, at, batch),
        _ => unreachable!(),
    }
}

// Whether a command asks for a change of the network.
fn asks_for_change(command: &Command) -> bool
    ensures { result ≡ asks_for_change (Asks command.now) }
{
    matches!(
        command,
        Command::Step(_) | Command::Inject(_) | Command::Draw(_) | Command::Watch(_)
    )
}

// Answers a question, which changes nothing.
fn answer_question<P: Invariant>(
    alloc: Global,
    config: &mut Config<P>,
    command: Command,
    batch: &mut Batch,
) -> Result<(), AllocError>
    ensures config { OnOk result
        (config.new ≡ (answered (meaning_of P.app P.text P.from_text P.names P.counts) config.old command).0) }
    ensures answers { OnOk result (batch.new.answers.items ≡ batch.old.answers.items
        ++ (answered (meaning_of P.app P.text P.from_text P.names P.counts) config.old command).1) }
    ensures entries { OnOk result (batch.new.entries.items ≡ batch.old.entries.items) }
{
    match answer_command(alloc, config, command, &mut batch.answers) {
        Ok(()) => Ok(()),
        Err(_) => Err(AllocError),
    }
}

// Answers that the history has no room for the entry that a command may leave.
fn refuse_full(batch: &mut Batch) -> Result<(), AllocError>
    ensures answers { OnOk result (batch.new.answers.items ≡ batch.old.answers.items ++ full_text) }
    ensures entries { OnOk result (batch.new.entries.items ≡ batch.old.entries.items) }
{
    gathered(put_bytes(&mut batch.answers, b"refused BookFull\n"))
}
