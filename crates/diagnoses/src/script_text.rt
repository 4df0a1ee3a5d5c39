// What is wrong with a script.

use crate::bad_line::{NumberedLine, first_bad_line};
use crate::commands::{Sought, after_name, is_of_sessions, meant_command, usage_for};
use crate::misuse::{Misuse, misuse_of};
use crate::said::{Source, put_end, put_head, put_line_number, put_said};
use action_tables::{Part, cut, put_bytes, put_parts};
use applications::with_application;
use history::MAX_LINE;
use script_replay::{RunStop, read_network};
use std::alloc::{AllocError, Global};
use std::io::Write;
use topology::{AppName, MAX_TEXT, ReadFault};

/// Writes which line of a script is the first bad one, and why, or that the script is too long; returns whether it wrote.
/// The topology's text names the application of the run. Of a bad topology nothing is said here.
pub fn put_script_fault<W: Write>(
    alloc: Global,
    topology: &[u8],
    script: Source<'_>,
    out: &mut W,
) -> Result<bool, RunStop> {
    let app = match read_network(alloc, topology) {
        Ok(network) => network.app,
        Err(ReadFault::NoMemory) => return Err(RunStop::NoMemory),
        Err(_) => return Ok(false),
    };
    if script.text.len() > MAX_TEXT {
        put_said(out, script.name, b"it has more than 1048576 bytes")?;
        return Ok(true);
    }
    match bad_line_in(alloc, app, script.text)? {
        Some(line) => {
            put_bad_line(alloc, script.name, line, out)?;
            Ok(true)
        }
        None => Ok(false),
    }
}

// The first bad line of a script for this application.
fn bad_line_in(
    alloc: Global,
    app: AppName,
    script: &[u8],
) -> Result<Option<NumberedLine<'_>>, AllocError> {
    with_application!(app, P => first_bad_line::<P>(alloc, script))
}

fn put_bad_line<W: Write>(
    alloc: Global,
    name: &str,
    line: NumberedLine<'_>,
    out: &mut W,
) -> Result<(), RunStop> {
    put_head(out, name)?;
    put_line_number(out, line.number)?;
    put_line_fault(alloc, line.text, out)?;
    put_end(out)?;
    Ok(())
}

// Writes the first of the faults that a bad line has: of its bytes, of its spaces, of its first word, of the others.
fn put_line_fault<W: Write>(alloc: Global, line: &[u8], out: &mut W) -> Result<(), RunStop> {
    if line.len() > MAX_LINE {
        put_bytes(out, b"it has more than 256 bytes")?;
        return Ok(());
    }
    if let Some(byte) = odd_byte(line) {
        return put_odd_byte(byte, out);
    }
    if has_odd_space(line) {
        put_bytes(out, b"one space stands between words, and none at an end")?;
        return Ok(());
    }
    put_word_fault(alloc, line, out)
}

// The first byte that no command has.
fn odd_byte(line: &[u8]) -> Option<u8> {
    line.iter().copied().find(|byte| !matches!(byte, 32..=126))
}

fn put_odd_byte<W: Write>(byte: u8, out: &mut W) -> Result<(), RunStop> {
    match byte {
        b'\r' => put_bytes(out, b"it has a carriage return")?,
        b'\t' => put_bytes(out, b"it has a tab")?,
        _ => put_parts(
            out,
            &[
                Part::Text(b"it has the byte "),
                Part::Number(u64::from(byte)),
                Part::Text(b", and bytes are from 32 to 126"),
            ],
        )?,
    }
    Ok(())
}

// Whether a line has a space at an end, or two in a row.
fn has_odd_space(line: &[u8]) -> bool {
    matches!(line, [b' ', ..] | [.., b' ']) || line.windows(2).any(|pair| pair == b"  ".as_slice())
}

fn put_word_fault<W: Write>(alloc: Global, line: &[u8], out: &mut W) -> Result<(), RunStop> {
    match usage_for(line) {
        Some(usage) if is_of_sessions(usage.name) => put_parts(
            out,
            &[
                Part::Text(b"'"),
                Part::Text(usage.name),
                Part::Text(b"' is a command of sessions"),
            ],
        )?,
        Some(usage) => {
            let misuse = misuse_of(usage.takes, after_name(line, usage.name));
            put_misuse(usage.name, usage.takes, misuse, out)?;
        }
        None => put_unknown_command(alloc, line, out)?,
    }
    Ok(())
}

fn put_misuse<'t, W: Write>(
    name: &'t [u8],
    takes: &'t [u8],
    misuse: Misuse<'t>,
    out: &mut W,
) -> Result<(), RunStop> {
    match misuse {
        Misuse::Takes => put_parts(
            out,
            &[
                Part::Text(b"'"),
                Part::Text(name),
                Part::Text(b"' takes "),
                Part::Text(or_nothing(takes)),
            ],
        )?,
        Misuse::Beyond(word, greatest) => put_parts(
            out,
            &[
                Part::Text(b"'"),
                Part::Text(word),
                Part::Text(b"' is out of range: the greatest is "),
                Part::Number(u64::from(greatest)),
            ],
        )?,
        Misuse::Padded(word) => put_parts(
            out,
            &[
                Part::Text(b"'"),
                Part::Text(word),
                Part::Text(b"' begins with a zero"),
            ],
        )?,
    }
    Ok(())
}

fn or_nothing(takes: &[u8]) -> &[u8] {
    match takes {
        [] => b"nothing",
        _ => takes,
    }
}

// Writes that a line names no command, and which may be meant. A fault is named by two words.
fn put_unknown_command<W: Write>(alloc: Global, line: &[u8], out: &mut W) -> Result<(), RunStop> {
    match cut(line, b' ') {
        Some((b"fault", rest)) => { put_unknown(alloc, two_words(line, rest), Sought::Faults, out) }
        Some((first, _)) => put_unknown(alloc, first, Sought::FirstWords, out),
        None => put_unknown(alloc, line, Sought::FirstWords, out),
    }
}

// Writes that a word is no command, and which may be meant.
fn put_unknown<W: Write>(
    alloc: Global,
    word: &[u8],
    sought: Sought,
    out: &mut W,
) -> Result<(), RunStop> {
    match meant_command(alloc, word, sought)? {
        Some(name) if name == word => put_parts(
            out,
            &[
                Part::Text(b"'"),
                Part::Text(word),
                Part::Text(b"' is no command by itself"),
            ],
        )?,
        Some(name) => put_parts(
            out,
            &[
                Part::Text(b"'"),
                Part::Text(word),
                Part::Text(b"' is no command; '"),
                Part::Text(name),
                Part::Text(b"' is"),
            ],
        )?,
        None => put_parts(
            out,
            &[
                Part::Text(b"'"),
                Part::Text(word),
                Part::Text(b"' is no command"),
            ],
        )?,
    }
    Ok(())
}

// The first two words of a line of which this follows the first.
fn two_words<'l>(line: &'l [u8], rest: &[u8]) -> &'l [u8] {
    match cut(rest, b' ') {
        Some((_, after)) => line
            .get(..line.len().saturating_sub(after.len() + 1))
            .unwrap_or(line),
        None => line,
    }
}
