// What a script leaves that is run for its end alone.

ghost use Rattle.std.specs.Prelude.{◌≡◌, ◌≤◌, length, IfOk, OnOk};
ghost use Rattle.reset_model.specs.Planned.{outcome_of};
ghost use Rattle.applications.specs.Meaning.{meaning_of};
ghost use Rattle.fault_inject.specs.Effects.{injected};
ghost use Rattle.script_replay.specs.Left.{bad_line_of, left_by};
ghost use Rattle.script_replay.specs.Output.{answered, disturbed, stepped};
ghost use Rattle.script_replay.specs.Parts.{IsPassed};
ghost use Rattle.script_replay.specs.Script.{line_of};
ghost use Rattle.script_replay.specs.declared.script.Command.TheVariants.{Watch};

use crate::injected::drawn;
use crate::input::split_line;
use crate::script::{Command, Line, read_line};
use app_interface::Application;
use app_invariants::Invariant;
use fault_inject::{Fault, FaultRefusal, inject};
use link_predicates::alarm;
use reset_machine::{Config, Event, StepRefusal};
use std::alloc::{AllocError, Global};
use topology::MAX_TEXT;

/// Does what the lines of a script ask for in order, up to the first bad one, and answers none of them: the number of
/// that line, counted from 1, or None where all are good.
pub fn leave_script<P: Invariant>(
    alloc: Global,
    config: &mut Config<P>,
    script: &[u8],
) -> Result<Option<u64>, AllocError>
    requires { length script.now ≤ MAX_TEXT }
    ensures bad { IfOk result (λ bad. bad ≡ bad_line_of P.names script.now) }
    ensures left { OnOk result
        (config.new ≡ left_by (meaning_of P.app P.text P.from_text P.names P.counts) config.old script.now) }
{
    let mut rest = script;
    let mut number = 1;
    while let Some((line, after)) = split_line(rest) {
        if !pass_line(alloc, config, line)? {
            return Ok(Some(number));
        }
        rest = after;
        number += 1;
    }
    if pass_line(alloc, config, rest)? {
        Ok(None)
    } else {
        Ok(Some(number))
    }
}

// Does what the line asks for. Whether it is good.
fn pass_line<P: Invariant>(
    alloc: Global,
    config: &mut Config<P>,
    line: &[u8],
) -> Result<bool, AllocError>
    ensures { IfOk result (IsPassed (meaning_of P.app P.text P.from_text P.names P.counts) (line_of P.names line.now)
        config.old config.new) }
{
    match read_line::<P>(alloc, line)? {
        Line::Silent => Ok(true),
        Line::Asks(command) => {
            pass_command(alloc, config, command)?;
            Ok(true)
        }
        Line::Bad => Ok(false),
    }
}

// Does what the command asks for. A question does nothing.
fn pass_command<P: Invariant>(
    alloc: Global,
    config: &mut Config<P>,
    command: Command,
) -> Result<(), AllocError>
    ensures { OnOk result
        (config.new ≡ (answered (meaning_of P.app P.text P.from_text P.names P.counts) config.old command).0) }
{
    match command {
        Command::Step(event) => pass_event(alloc, config, event),
        Command::Inject(fault) => pass_fault(alloc, config, &fault),
        Command::Draw(seed) => {
            let fault = drawn(config, seed);
            pass_fault(alloc, config, &fault)
        }
        Command::Watch(at) => pass_watch(alloc, config, at),
        Command::Show
        | Command::ShowNode(_)
        | Command::Newest
        | Command::Enabled(_)
        | Command::Ready
        | Command::Check
        | Command::CheckNode(_)
        | Command::Alarm(_)
        | Command::Moves
        | Command::MovesOf(_)
        | Command::Snapshot
        | Command::Invariant => Ok(()),
    }
}

// Does what the event says, where it isn't refused.
fn pass_event<P: Application>(
    alloc: Global,
    config: &mut Config<P>,
    event: Event,
) -> Result<(), AllocError>
    ensures { OnOk result (config.new ≡ (stepped config.old (outcome_of P.app config.old event)).0) }
{
    match config.step(alloc, event) {
        Ok(_) => Ok(()),
        Err(StepRefusal::NoMemory) => Err(AllocError),
        Err(_) => Ok(()),
    }
}

// Does the fault, where it isn't refused.
fn pass_fault<P: Application>(
    alloc: Global,
    config: &mut Config<P>,
    fault: &Fault,
) -> Result<(), AllocError>
    ensures { OnOk result
        (config.new ≡ (disturbed config.old (injected P.app P.from_text config.old fault.now)).0) }
{
    match inject(alloc, config, fault) {
        Ok(()) => Ok(()),
        Err(FaultRefusal::NoMemory) => Err(AllocError),
        Err(_) => Ok(()),
    }
}

// Where the node has an alarm, lets it ask for a reset.
fn pass_watch<P: Invariant>(
    alloc: Global,
    config: &mut Config<P>,
    at: u32,
) -> Result<(), AllocError>
    ensures { OnOk result
        (config.new ≡ (answered (meaning_of P.app P.text P.from_text P.names P.counts) config.old (Watch at)).0) }
{
    match alarm(config, at) {
        None => Ok(()),
        Some(_) => pass_event(alloc, config, Event::Request { at }),
    }
}
