// The answers that list moves: the events that are allowed.

ghost use Rattle.std.specs.Prelude.{◌≡◌, ◌++◌, Err, IfErr, IfOk, OnErr, OnOk};
ghost use Rattle.std.specs.List.{flat_map};
ghost use Rattle.std.specs.Io.KnownBytes.{Appends, Keeps};
ghost use Rattle.action_tables.specs.Written.{AppendsPrefix};
ghost use Rattle.applications.specs.Meaning.{meaning_of};
ghost use Rattle.scheduler.specs.Driven.{enabled_events};
ghost use Rattle.script_replay.specs.Output.{at_node, move_line, moves_lines, moves_text};
ghost use Rattle.script_replay.specs.Stops.{IsOutputStop};

use crate::answer::put_refusal;
use crate::status::{RunStop, written};
use action_tables::{WriteFault, put_bytes};
use app_interface::Application;
use app_invariants::Invariant;
use fault_inject::is_node;
use reset_machine::{Config, Event, StepRefusal, write_event};
use scheduler::enabled_events;
use std::alloc::{AllocError, Global};
use std::io::Write;

/// Writes the moves of each node that is up, ascending. All are gathered before the first is written, so want of
/// memory writes nothing.
pub fn answer_moves<P: Invariant, W: Write>(
    alloc: Global,
    config: &Config<P>,
    out: &mut W,
) -> Result<(), RunStop>
    ensures ok { OnOk result (Appends (W.contents out.old) (W.contents out.new)
        (flat_map (moves_lines (meaning_of P.app P.text P.from_text P.names P.counts)
        config.now) config.now.graph.nodes)) }
    ensures err { OnErr result (AppendsPrefix (W.contents out.old) (W.contents out.new)
        (flat_map (moves_lines (meaning_of P.app P.text P.from_text P.names P.counts)
        config.now) config.now.graph.nodes)) }
    ensures stop { IfErr result IsOutputStop }
    ensures memory { result ≡ Err RunStop.NoMemory → Keeps (W.contents out.old) (W.contents out.new) }
{
    match all_moves(alloc, config) {
        Ok(moves) => written(put_moves(out, &moves)),
        Err(AllocError) => Err(RunStop::NoMemory),
    }
}

/// Writes the moves of a node, or that there is no such node. If an allocation fails, nothing is written.
pub fn answer_moves_of<P: Invariant, W: Write>(
    alloc: Global,
    config: &Config<P>,
    at: u32,
    out: &mut W,
) -> Result<(), RunStop>
    ensures ok { OnOk result (Appends (W.contents out.old) (W.contents out.new)
        (at_node config.now at (moves_lines (meaning_of P.app P.text P.from_text P.names P.counts) config.now at))) }
    ensures err { OnErr result (AppendsPrefix (W.contents out.old) (W.contents out.new)
        (at_node config.now at (moves_lines (meaning_of P.app P.text P.from_text P.names P.counts) config.now at))) }
    ensures stop { IfErr result IsOutputStop }
    ensures memory { result ≡ Err RunStop.NoMemory → Keeps (W.contents out.old) (W.contents out.new) }
{
    if !is_node(config, at) {
        return written(put_refusal(out, StepRefusal::StrangeNode));
    }
    match enabled_events(alloc, config, at) {
        Ok(moves) => written(put_moves(out, &moves)),
        Err(AllocError) => Err(RunStop::NoMemory),
    }
}

// The moves of all nodes that are up, ascending.
fn all_moves<P: Application>(alloc: Global, config: &Config<P>) -> Result<Vec<Event>, AllocError>
    ensures { IfOk result (λ moves. moves.items ≡ flat_map (enabled_events P.app config.now) config.now.graph.nodes) }
{
    let mut moves = Vec::new(alloc);
    for at in config.topology().nodes() {
        add_moves(alloc, config, *at, &mut moves)?;
    }
    Ok(moves)
}

// Adds the moves of a node.
fn add_moves<P: Application>(
    alloc: Global,
    config: &Config<P>,
    at: u32,
    moves: &mut Vec<Event>,
) -> Result<(), AllocError>
    ensures { OnOk result (moves.new.items ≡ moves.old.items ++ enabled_events P.app config.now at) }
{
    let events = enabled_events(alloc, config, at)?;
    moves.extend_from_slice(&events)
}

// Writes the lines of moves.
fn put_moves<W: Write>(out: &mut W, moves: &[Event]) -> Result<(), WriteFault>
    ensures ok { OnOk result (Appends (W.contents out.old) (W.contents out.new) (moves_text moves.now)) }
    ensures err { OnErr result (AppendsPrefix (W.contents out.old) (W.contents out.new) (moves_text moves.now)) }
{
    for event in moves {
        put_move(out, event)?;
    }
    Ok(())
}

// Writes the line of a move.
fn put_move<W: Write>(out: &mut W, event: &Event) -> Result<(), WriteFault>
    ensures ok { OnOk result (Appends (W.contents out.old) (W.contents out.new) (move_line event.now)) }
    ensures err { OnErr result (AppendsPrefix (W.contents out.old) (W.contents out.new) (move_line event.now)) }
{
    put_bytes(out, b"move ")?;
    write_event(event, out)?;
    put_bytes(out, b"\n")
}
