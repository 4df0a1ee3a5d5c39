// What is said of the commands of a replay at its end.

ghost use Rattle.std.specs.Prelude.{OnErr, OnOk};
ghost use Rattle.std.specs.Io.KnownBytes.{Appends};
ghost use Rattle.action_tables.specs.Written.{AppendsPrefix};
ghost use Rattle.service_main.specs.Counts.{refused_text};

use action_tables::{Part, WriteFault, put_bytes, put_parts};
use reset_service::{Job, Tally};
use std::io::Write;

/// Says of a replay how many commands were answered and how many of these were refused, and nothing of other runs or where
/// none was answered.
pub fn say_counts<W: Write>(job: Job<'_>, tally: Tally, out: &mut W) -> Result<(), WriteFault> {
    if !matches!(job, Job::Replay(_)) || tally.commands == 0 {
        return Ok(());
    }
    put_counts(out, tally)
}

// Writes how many commands were answered, how many of these were refused, and in which line the first of them is.
fn put_counts<W: Write>(out: &mut W, tally: Tally) -> Result<(), WriteFault> {
    put_parts(
        out,
        &[
            Part::Text(b"replay: "),
            Part::Number(tally.commands),
            Part::Text(b" command"),
        ],
    )?;
    put_bytes(out, plural_end(tally.commands))?;
    match tally.first_refused {
        Some(first) => put_refused(out, tally.refused, first)?,
        None => put_bytes(out, b"none refused")?,
    }
    put_bytes(out, b"\n")
}

// What follows a word of which there are so many.
fn plural_end(count: u64) -> &'static [u8] {
    if count == 1 { b", " } else { b"s, " }
}

// Writes how many commands were refused, and in which line the first of them is.
fn put_refused<W: Write>(out: &mut W, refused: u64, first: u64) -> Result<(), WriteFault>
    ensures ok { OnOk result (Appends (W.contents out.old) (W.contents out.new) (refused_text refused first)) }
    ensures err { OnErr result
        (AppendsPrefix (W.contents out.old) (W.contents out.new) (refused_text refused first)) }
{
    put_parts(
        out,
        &[
            Part::Number(refused),
            Part::Text(b" refused, the first in line "),
            Part::Number(first),
        ],
    )
}
