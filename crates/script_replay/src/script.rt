// The lines of a script.

ghost use Rattle.std.specs.Prelude.{◌≡◌, ◌≢◌, ℕ, ◌<◌, ◌^◌, [], ◌∷◌, List, Option, codes, option_map, IsTrue, IfOk};
ghost use Rattle.std.specs.Prelude.{IfNone, IfSome, OnErr};
ghost use Rattle.std.specs.List.{join_with_byte};
ghost use Rattle.reset_model.specs.EventText.{Fits};
ghost use Rattle.reset_model.specs.Words.{words_of};
ghost use Rattle.reset_model.specs.declared.event.Event.TheVariants.{Act};
ghost use Rattle.fault_inject.specs.FaultText.{IsLocalFault, fault_line};
ghost use Rattle.fault_inject.specs.declared.fault.Fault.{Fault};
ghost use Rattle.script_replay.specs.declared.script.Command.{Command};
ghost use Rattle.script_replay.specs.declared.script.Command.TheVariants.{Inject, Step};
ghost use Rattle.script_replay.specs.Script.{AsksAbout, CommandFits, IsPlain, Spells, case_named};
ghost use Rattle.script_replay.specs.Script.{command_line, command_words, command_of, is_called, is_name, is_silent};
ghost use Rattle.script_replay.specs.Script.{line_of, named_words};

use action_tables::{MOST_CASES, read_number};
use app_interface::Application;
use fault_inject::{Fault, read_fault};
use history::{MAX_LINE, is_graphic, is_printable};
use reset_machine::{Event, read_event, split_word, word_and_neighbour};
use std::alloc::{AllocError, Global};

// The number of no case.
const NO_CASE: u8 = 0;

/// What a line of a script asks for.
#[derive(Debug, PartialEq, Eq, Drop)]
pub enum Command {
    /// That an event happen.
    Step(Event),
    /// That the configuration have this fault.
    Inject(Fault),
    /// That it have the fault that a generator with this seed draws.
    Draw(u32),
    /// What all nodes have.
    Show,
    /// What this node has.
    ShowNode(u32),
    /// The local states of the newest session.
    Newest,
    /// The enabled rows of this node.
    Enabled(u32),
    /// The nodes with something to do.
    Ready,
    /// The faults of all nodes.
    Check,
    /// The faults of this node.
    CheckNode(u32),
    /// The alarm of this node.
    Alarm(u32),
    /// The same, and the node asks for a reset where it has an alarm.
    Watch(u32),
    /// The moves of all nodes: the events that are allowed.
    Moves,
    /// The moves of this node.
    MovesOf(u32),
    /// The configuration, as a text that can be read back.
    Snapshot,
    /// Whether the application's invariant holds in each component.
    Invariant,
}

/// A line of a script, without its line feed.
#[derive(Debug, PartialEq, Eq, Drop)]
pub enum Line {
    /// It is empty or a comment, and asks for nothing.
    Silent,
    /// It spells this command.
    Asks(Command),
    /// It is none of these, or too long.
    Bad,
}

/// Reads a line without its line feed.
pub fn read_line<P: Application>(alloc: Global, line: &[u8]) -> Result<Line, AllocError>
    ensures read { IfOk result (λ read. read ≡ line_of P.names line.now) }
    ensures memory { OnErr result (IsLocalFault (words_of line.now)) }
{
    if line.len() > MAX_LINE {
        return Ok(Line::Bad);
    }
    if is_silent(line) {
        return Ok(Line::Silent);
    }
    match read_command::<P>(alloc, line)? {
        Some(command) => Ok(Line::Asks(command)),
        None => Ok(Line::Bad),
    }
}

/// Whether a line is empty or a comment.
pub(crate) fn is_silent(line: &[u8]) -> bool
    ensures { result ≡ is_silent line.now }
{
    matches!(line, [] | [b'#', ..])
}

/// The command that a line without its line feed spells.
pub fn read_command<P: Application>(
    alloc: Global,
    line: &[u8],
) -> Result<Option<Command>, AllocError>
    ensures function { IfOk result (λ read. read ≡ command_of P.names line.now) }
    ensures found { IfOk result (λ read. IfSome read (Spells P.names line.now)) }
    ensures only { IfOk result (λ read. IfNone read ((command : Command) → Spells P.names line.now command → ⊥)) }

    // Memory is asked for the text of a local state alone.
    ensures memory { OnErr result (IsLocalFault (words_of line.now)) }
{
    if let Some(command) = by_first_word(line) {
        return Ok(Some(command));
    }
    match read_named::<P>(line) {
        Some(event) => Ok(Some(Command::Step(event))),
        None => read_injected(alloc, line),
    }
}

// The fault that a line stands for.
fn read_injected(alloc: Global, line: &[u8]) -> Result<Option<Command>, AllocError>
    ensures found { IfOk result (λ read. IfSome read (λ command. line.now ≡ command_line command)) }
    ensures fits { IfOk result (λ read. IfSome read CommandFits) }
    ensures only { IfOk result
        (λ read. IfNone read ((f : Fault) → CommandFits (Inject f) → line.now ≡ fault_line f → ⊥)) }
    ensures memory { OnErr result (IsLocalFault (words_of line.now)) }
{
    let read = read_fault(alloc, line)?;
    let Some(fault) = read else {
        return Ok(None);
    };
    if !is_printable(&fault) {
        return Ok(None);
    }
    Ok(Some(Command::Inject(fault)))
}

// The action that a line stands for which has a name for its case.
fn read_named<P: Application>(line: &[u8]) -> Option<Event>
    ensures found { IfSome result (λ e. Spells P.names line.now (Step e)) }
    ensures only { IfNone result
        ((at : ℕ) (w : List ℕ) (with : Option ℕ) → Fits (Act at 0 with) → IsTrue (is_name w)
        → line.now ≡ join_with_byte 32 (named_words at w with) → ⊥) }
{
    let (command, rest) = split_word(line)?;
    let (at, rest) = split_word(rest)?;
    let (word, with) = word_and_neighbour(rest)?;
    if command == b"act".as_slice() && is_name(word) {
        Some(Event::Act {
            at: read_number(at)?,
            case: case_called::<P>(word),
            with,
        })
    } else {
        None
    }
}

// Whether the word may name a case.
fn is_name(word: &[u8]) -> bool
    ensures { result ≡ is_name word.now }
{
    matches!(word, [first, ..] if first.is_ascii_alphabetic()) && is_graphic(word)
}

// The case that this word names, if it names one.
fn case_called<P: Application>(word: &[u8]) -> u8
    ensures { result ≡ case_named P.names word.now }
{
    for case in 1..=MOST_CASES {
        if is_called(P::case_name(case), word) {
            return case;
        }
    }
    NO_CASE
}

// Whether the name is this word.
fn is_called(name: Option<&str>, word: &[u8]) -> bool
    ensures { result ≡ is_called (option_map (λ name. name.now) name.entry) word.now }
{
    match name {
        Some(name) => name.as_bytes() == word,
        None => false,
    }
}

// The command, no fault, that a line stands for in its own words.
fn by_first_word(line: &[u8]) -> Option<Command>
    ensures found { IfSome result (λ command. line.now ≡ command_line command) }
    ensures fits { IfSome result IsPlain }
    ensures only { IfNone result ((command : Command) → IsPlain command → line.now ≡ command_line command → ⊥) }
{
    if let Some(event) = read_event(line) {
        return Some(Command::Step(event));
    }
    match split_word(line) {
        None => by_one_word(line),
        Some((word, rest)) => question_of(word, rest),
    }
}

// The command of one word.
fn by_one_word(word: &[u8]) -> Option<Command>
    ensures found { IfSome result (λ command. word.now ∷ [] ≡ command_words command) }
    ensures fits { IfSome result IsPlain }
    ensures only { IfNone result ((command : Command) → IsPlain command → word.now ∷ [] ≡ command_words command → ⊥) }
{
    match by_word_of_state(word) {
        Some(command) => Some(command),
        None => by_word_of_rules(word),
    }
}

// The command of one word that shows what the nodes hold.
fn by_word_of_state(word: &[u8]) -> Option<Command>
    ensures found { IfSome result (λ command. word.now ∷ [] ≡ command_words command) }
    ensures fits { IfSome result IsPlain }
    ensures only { IfNone result
        ((word.now ≢ codes "show") × (word.now ≢ codes "newest") × (word.now ≢ codes "snapshot")) }
{
    match word {
        b"show" => Some(Command::Show),
        b"newest" => Some(Command::Newest),
        b"snapshot" => Some(Command::Snapshot),
        _ => None,
    }
}

// The command of one word that asks what the tables say of that.
fn by_word_of_rules(word: &[u8]) -> Option<Command>
    ensures found { IfSome result (λ command. word.now ∷ [] ≡ command_words command) }
    ensures fits { IfSome result IsPlain }
    ensures only { IfNone result
        ((word.now ≢ codes "ready") × (word.now ≢ codes "check") × (word.now ≢ codes "moves")
        × (word.now ≢ codes "invariant")) }
{
    match word {
        b"ready" => Some(Command::Ready),
        b"check" => Some(Command::Check),
        b"moves" => Some(Command::Moves),
        b"invariant" => Some(Command::Invariant),
        _ => None,
    }
}

// The command that asks something of one node, or draws a fault.
fn question_of(word: &[u8], rest: &[u8]) -> Option<Command>
    ensures found { IfSome result (λ command. word.now ∷ words_of rest.now ≡ command_words command) }
    ensures fits { IfSome result IsPlain }
    ensures only { IfNone result ((at : ℕ) → at < 2 ^ 32 → AsksAbout at (word.now ∷ words_of rest.now) → ⊥) }
{
    let number = read_number(rest)?;
    match word {
        b"show" => Some(Command::ShowNode(number)),
        b"enabled" => Some(Command::Enabled(number)),
        b"check" => Some(Command::CheckNode(number)),
        b"alarm" => Some(Command::Alarm(number)),
        b"watch" => Some(Command::Watch(number)),
        b"draw" => Some(Command::Draw(number)),
        b"moves" => Some(Command::MovesOf(number)),
        _ => None,
    }
}
