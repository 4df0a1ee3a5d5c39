// The lines that stand for events, and the words that lines are made of.
ghost use Rattle.std.specs.Prelude.{◌≡◌, ℕ, ◌<◌, ◌≤◌, ◌^◌, List, [], ◌∷◌, ◌++◌, Option, IfSome, IfNone, OnOk, true};
ghost use Rattle.std.specs.Prelude.{OnErr};
ghost use Rattle.std.specs.Fmt.{decimal};
ghost use Rattle.std.specs.Io.KnownBytes.{Appends};
ghost use Rattle.reset_model.specs.EventCommands.{command_of};
ghost use Rattle.reset_model.specs.EventText.{event_line, event_words, neighbour_words, Fits};
ghost use Rattle.reset_model.specs.Steps.{is_of_a_wave};
ghost use Rattle.reset_model.specs.Words.{words_of};
ghost use Rattle.action_tables.specs.Written.{AppendsPrefix};
ghost use Rattle.reset_model.specs.declared.event.Event.{Event};
ghost use Rattle.reset_model.specs.declared.event.Event.TheVariants.{Act};

use crate::event::Event;
use crate::event_kind::{
    EventKind, after_finish, after_join, after_open, after_relay, after_request, cut_kind,
};
use action_tables::{WriteFault, cut, put_bytes, put_number, read_number, split_number};
use std::io::Write;

/// Two events below 2 ^ 32 in their numbers that have one line are the same event.
pub fn one_event_a_line()
    ensures { (e f : Event) → Fits e → Fits f → event_line e ≡ event_line f → e ≡ f }
{}

/// The first word of a line and what follows the space after it, or `None` where the line has no
/// space: it is one word then, or empty.
pub fn split_word(line: &[u8]) -> Option<(&[u8], &[u8])>
    ensures found { IfSome result (λ parts. words_of line.now ≡ parts.0.now ∷ words_of parts.1.now) }
    ensures only { IfNone result (words_of line.now ≡ line.now ∷ []) }
{
    cut(line, b' ')
}

/// The event that a line without its line feed stands for.
pub fn read_event(line: &[u8]) -> Option<Event>
    ensures found { IfSome result (λ e. line.now ≡ event_line e) }
    ensures fits { IfSome result Fits }
    ensures only { IfNone result ((e : Event) → Fits e → line.now ≡ event_line e → ⊥) }
{
    let (kind, rest) = cut_kind(line)?;
    event_of(kind, rest)
}

/// The command of a wave whose line, with its line feed, a text begins with, and what follows it. Most lines of a script
/// are such commands: one is read here where it stands, without a search for the end of its line.
#[inline(always)]
pub fn split_wave_event(text: &[u8]) -> Option<(Event, &[u8])>
    ensures found { IfSome result (λ r. text.now ≡ event_line r.0 ++ 10 ∷ r.1.now) }
    ensures wave { IfSome result (λ r. is_of_a_wave r.0 ≡ true) }
    ensures fits { IfSome result (λ r. Fits r.0) }
    ensures only { IfNone result ((e : Event) (rest : List ℕ) → Fits e → is_of_a_wave e ≡ true
        → text.now ≡ event_line e ++ 10 ∷ rest → ⊥) }
{
    if let Some(rest) = after_finish(text) {
        let (at, after) = split_number(rest, b'\n')?;
        return Some((Event::Finish { at }, after));
    }
    if let Some(rest) = after_relay(text) {
        let (at, child, after) = split_two_numbers(rest)?;
        return Some((Event::Relay { at, child }, after));
    }
    if let Some(rest) = after_join(text) {
        let (at, after) = split_number(rest, b'\n')?;
        return Some((Event::Join { at }, after));
    }
    if let Some(rest) = after_request(text) {
        let (at, after) = split_number(rest, b'\n')?;
        return Some((Event::Request { at }, after));
    }
    let rest = after_open(text)?;
    let (at, after) = split_number(rest, b'\n')?;
    Some((Event::Open { at }, after))
}

// Two numbers with a space between them, which a line feed ends, and what follows it.
#[inline(always)]
fn split_two_numbers(text: &[u8]) -> Option<(u32, u32, &[u8])>
    ensures found { IfSome result (λ r. text.now ≡ (decimal r.0 ++ 32 ∷ decimal r.1) ++ 10 ∷ r.2.now) }
    ensures small { IfSome result (λ r. (r.0 < 2 ^ 32) × (r.1 < 2 ^ 32)) }
    ensures only { IfNone result ((m n : ℕ) (rest : List ℕ) → m < 2 ^ 32 → n < 2 ^ 32
        → text.now ≡ (decimal m ++ 32 ∷ decimal n) ++ 10 ∷ rest → ⊥) }
{
    let (first, rest) = split_number(text, b' ')?;
    let (second, after) = split_number(rest, b'\n')?;
    Some((first, second, after))
}

// The event of this kind whose numbers stand in what follows its command.
fn event_of(kind: EventKind, rest: &[u8]) -> Option<Event>
    ensures found { IfSome result (λ e. command_of kind ∷ words_of rest.now ≡ event_words e) }
    ensures fits { IfSome result Fits }
    ensures only { IfNone result ((e : Event) → Fits e → command_of kind ∷ words_of rest.now ≡ event_words e → ⊥) }
{
    match kind {
        EventKind::Claim => Some(Event::Claim {
            at: read_number(rest)?,
        }),
        EventKind::Follow => Some(Event::Follow {
            at: read_number(rest)?,
        }),
        EventKind::Adopt => {
            let (at, from) = two_numbers(rest)?;
            Some(Event::Adopt { at, from })
        }
        EventKind::Request => Some(Event::Request {
            at: read_number(rest)?,
        }),
        EventKind::Relay => {
            let (at, child) = two_numbers(rest)?;
            Some(Event::Relay { at, child })
        }
        EventKind::Open => Some(Event::Open {
            at: read_number(rest)?,
        }),
        EventKind::Join => Some(Event::Join {
            at: read_number(rest)?,
        }),
        EventKind::Finish => Some(Event::Finish {
            at: read_number(rest)?,
        }),
        EventKind::Mend => Some(Event::Mend {
            at: read_number(rest)?,
        }),
        EventKind::Act => action_of(rest),
    }
}

/// Two numbers with a space between them, as the whole of a text.
pub fn two_numbers(text: &[u8]) -> Option<(u32, u32)>
    ensures found { IfSome result (λ ns. words_of text.now ≡ decimal ns.0 ∷ decimal ns.1 ∷ []) }
    ensures small { IfSome result (λ ns. (ns.0 < 2 ^ 32) × (ns.1 < 2 ^ 32)) }
    ensures only { IfNone result
        ((m n : ℕ) → m < 2 ^ 32 → n < 2 ^ 32 → words_of text.now ≡ decimal m ∷ decimal n ∷ [] → ⊥) }
{
    let (first, second) = split_word(text)?;
    Some((read_number(first)?, read_number(second)?))
}

// The action of a node and a case, and of a neighbour if one is named.
fn action_of(text: &[u8]) -> Option<Event>
    ensures found { IfSome result (λ e. command_of EventKind.Act ∷ words_of text.now ≡ event_words e) }
    ensures fits { IfSome result Fits }
    ensures only { IfNone result
        ((e : Event) → Fits e → command_of EventKind.Act ∷ words_of text.now ≡ event_words e → ⊥) }
{
    let (at, rest) = split_word(text)?;
    let (case, with) = word_and_neighbour(rest)?;
    act(read_number(at)?, read_number(case)?, with)
}

/// A word and the number after it, if there is one, as the whole of a text.
pub fn word_and_neighbour(text: &[u8]) -> Option<(&[u8], Option<u32>)>
    ensures found { IfSome result (λ r. words_of text.now ≡ r.0.now ∷ neighbour_words r.1) }
    ensures fits { IfSome result (λ r. IfSome r.1 (λ j. j < 2 ^ 32)) }
    ensures only { IfNone result
        ((word : List ℕ) (with : Option ℕ) → IfSome with (λ j. j < 2 ^ 32)
        → words_of text.now ≡ word ∷ neighbour_words with → ⊥) }
{
    match split_word(text) {
        None => Some((text, None)),
        Some((word, number)) => Some((word, Some(read_number(number)?))),
    }
}

// The action with this case, if it is the number of one.
fn act(at: u32, case: u32, with: Option<u32>) -> Option<Event>
    ensures found { IfSome result (λ e. e ≡ Act at case with) }
    ensures only { IfNone result (256 ≤ case) }
{
    if case > u32::from(u8::MAX) {
        return None;
    }
    Some(Event::Act {
        at,
        case: case as u8,
        with,
    })
}

/// Writes the line that stands for the event, without a line feed.
pub fn write_event<W: Write>(event: &Event, out: &mut W) -> Result<(), WriteFault>
    ensures ok { OnOk result (Appends (W.contents out.old) (W.contents out.new) (event_line event.now)) }
    ensures err { OnErr result (AppendsPrefix (W.contents out.old) (W.contents out.new) (event_line event.now)) }
{
    match *event {
        Event::Claim { at } => put_command(out, b"claim", at),
        Event::Follow { at } => put_command(out, b"follow", at),
        Event::Adopt { at, from } => put_command_of_two(out, b"adopt", at, from),
        Event::Request { at } => put_command(out, b"request", at),
        Event::Relay { at, child } => put_command_of_two(out, b"relay", at, child),
        Event::Open { at } => put_command(out, b"open", at),
        Event::Join { at } => put_command(out, b"join", at),
        Event::Finish { at } => put_command(out, b"finish", at),
        Event::Mend { at } => put_command(out, b"mend", at),
        Event::Act { at, case, with } => put_act(out, at, case, with),
    }
}

// Writes an action.
fn put_act<W: Write>(out: &mut W, at: u32, case: u8, with: Option<u32>) -> Result<(), WriteFault>
    ensures ok { OnOk result (Appends (W.contents out.old) (W.contents out.new) (event_line (Act at case with))) }
    ensures err { OnErr result
        (AppendsPrefix (W.contents out.old) (W.contents out.new) (event_line (Act at case with))) }
{
    put_command_of_two(out, b"act", at, u32::from(case))?;
    if let Some(near) = with {
        put_bytes(out, b" ")?;
        put_number(out, u64::from(near))?;
    }
    Ok(())
}

// Writes a command and its two numbers.
fn put_command_of_two<W: Write>(
    out: &mut W,
    command: &[u8],
    at: u32,
    other: u32,
) -> Result<(), WriteFault>
    ensures ok { OnOk result
        (Appends (W.contents out.old) (W.contents out.new)
        ((command.now ++ (32 ∷ decimal at)) ++ (32 ∷ decimal other))) }
    ensures err { OnErr result
        (AppendsPrefix (W.contents out.old) (W.contents out.new)
        ((command.now ++ (32 ∷ decimal at)) ++ (32 ∷ decimal other))) }
{
    put_command(out, command, at)?;
    put_bytes(out, b" ")?;
    put_number(out, u64::from(other))
}

// Writes a command and its first number.
fn put_command<W: Write>(out: &mut W, command: &[u8], at: u32) -> Result<(), WriteFault>
    ensures ok { OnOk result (Appends (W.contents out.old) (W.contents out.new) (command.now ++ (32 ∷ decimal at))) }
    ensures err { OnErr result
        (AppendsPrefix (W.contents out.old) (W.contents out.new) (command.now ++ (32 ∷ decimal at))) }
{
    put_bytes(out, command)?;
    put_bytes(out, b" ")?;
    put_number(out, u64::from(at))
}
