// The commands of scripts, as the lines of their help give them.

ghost use Rattle.std.specs.Prelude.{All, IfOk, IfSome};
ghost use Rattle.diagnoses.specs.Commands.{BeginsWithName, IsCommandName, IsMeantCommand};

use crate::near_names::nearest;
use action_tables::cut;
use explanations::command_lines;
use script_replay::split_line;
use std::alloc::{AllocError, Global};

/// What a line of the help says of a command.
#[derive(Clone, Copy)]
pub struct Usage {
    /// Its name: its first word, or for a fault its first two.
    pub name: &'static [u8],
    /// The words that it takes, in capital letters, and in brackets those that may be left out.
    pub takes: &'static [u8],
}

/// The usage of the command that a line names. Its words have one space between them.
pub fn usage_for(line: &[u8]) -> Option<Usage> {
    for help in command_lines().as_bytes().split(|byte| *byte == b'\n') {
        let name = name_of(help);
        if !name.is_empty() && is_named(line, name) {
            let takes = takes_of(help, name);
            return Some(Usage { name, takes });
        }
    }
    None
}

/// What follows the name that a line begins with, without the space between them.
pub fn after_name<'l>(line: &'l [u8], name: &[u8]) -> &'l [u8] {
    line.get(name.len() + 1..).unwrap_or(b"")
}

/// Whether only a session has the command with this name.
pub fn is_of_sessions(name: &[u8]) -> bool {
    matches!(name, b"explain" | b"help" | b"exit")
}

/// Which names of commands are looked for.
#[derive(Clone, Copy)]
pub enum Sought {
    /// The first words of the commands that a script may have.
    FirstWords,
    /// The names of faults, of two words each.
    Faults,
}

/// The command that may be meant by a word that is none.
pub fn meant_command(
    alloc: Global,
    word: &[u8],
    sought: Sought,
) -> Result<Option<&'static [u8]>, AllocError>
    ensures { IfOk result (λ found. IfSome found (λ name. IsMeantCommand word.now name.now)) }
{
    let names = command_names(alloc, sought)?;
    match nearest(alloc, word, &names)? {
        Some(name) => Ok(Some(name)),
        None => Ok(None),
    }
}

// The names of commands, as the lines of the help have them.
fn command_names(alloc: Global, sought: Sought) -> Result<Vec<&'static [u8]>, AllocError>
    ensures { IfOk result (λ names. All (λ name. IsCommandName name.now) names.items) }
{
    let mut names = Vec::new(alloc);
    let mut rest = command_lines().as_bytes();
    while let Some((help, after)) = split_line(rest) {
        if let Some(name) = sought_name(help, sought) {
            names.push(name)?;
        }
        rest = after;
    }
    Ok(names)
}

// The name in a line of the help, if it is one of those that are looked for.
fn sought_name(help: &[u8], sought: Sought) -> Option<&[u8]>
    ensures { IfSome result (λ name. BeginsWithName help.now name.now) }
{
    match sought {
        Sought::FirstWords => script_word(help),
        Sought::Faults => name_of_two(help),
    }
}

// The first word of a line of the help, except for those that only a session has.
fn script_word(help: &[u8]) -> Option<&[u8]>
    ensures { IfSome result (λ word. BeginsWithName help.now word.now) }
{
    match cut(help, b' ') {
        Some((word, _)) if !is_of_sessions(word) => Some(word),
        _ => None,
    }
}

// The name of the command of a line of the help.
fn name_of(help: &[u8]) -> &[u8] {
    match name_of_two(help) {
        Some(name) => name,
        None => match cut(help, b' ') {
            Some((first, _)) => first,
            None => b"",
        },
    }
}

// The name of the command of a line of the help, if it has two words: the second isn't in capital letters.
fn name_of_two(help: &[u8]) -> Option<&[u8]>
    ensures { IfSome result (λ name. BeginsWithName help.now name.now) }
{
    let (first, rest) = cut(help, b' ')?;
    let (second, _) = cut(rest, b' ')?;
    match second {
        [letter, ..] if letter.is_ascii_lowercase() => {
            Some(&help[..first.len() + 1 + second.len()])
        }
        _ => None,
    }
}

// Whether a line has this name alone, or before a space.
fn is_named(line: &[u8], name: &[u8]) -> bool {
    matches!(line.strip_prefix(name), Some([] | [b' ', ..]))
}

// The words that the command of a line of the help takes: they follow its name, up to two spaces.
fn takes_of<'h>(help: &'h [u8], name: &[u8]) -> &'h [u8] {
    let arguments = after_name(help, name);
    match arguments.first() {
        Some(b' ') | None => b"",
        Some(_) => before_gap(arguments),
    }
}

// The text up to its first two spaces in a row.
fn before_gap(text: &[u8]) -> &[u8] {
    match text.windows(2).position(|pair| pair == b"  ".as_slice()) {
        Some(at) => text.get(..at).unwrap_or(text),
        None => text,
    }
}
