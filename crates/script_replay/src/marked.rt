// A replay that marks its answers.

ghost use Rattle.std.specs.Prelude.{◌≡◌, ◌++◌, ◌<◌, ◌≤◌, [], length, if◌then◌else◌, IfErr, IfOk, OnErr, OnOk};
ghost use Rattle.std.specs.Io.KnownBytes.{Appends};
ghost use Rattle.action_tables.specs.Written.{AppendsPrefix};
ghost use Rattle.applications.specs.Meaning.{meaning_of};
ghost use Rattle.script_replay.specs.Lines.{lines_of};
ghost use Rattle.script_replay.specs.Marked.{is_refusal, is_refused, marked_answer, marked_answers, marked_output, number_text};
ghost use Rattle.script_replay.specs.Output.{Leaves, if_good, line_answer};
ghost use Rattle.script_replay.specs.Script.{is_silent};
ghost use Rattle.script_replay.specs.Stops.{IsOutputStop};
ghost use Rattle.script_replay.specs.Tallies.{answered, answered_at, answered_in, counted, no_answers};
ghost use Rattle.script_replay.specs.Tallies.{script_tally};

use crate::input::split_line;
use crate::replays::{answer_line, refuse_script};
use crate::script::is_silent;
use crate::status::{RunStop, Status};
use crate::tally::Tally;
use action_tables::{Part, WriteFault, put_bytes, put_parts};
use app_invariants::Invariant;
use reset_machine::Config;
use std::alloc::{AllocError, Global};
use std::io::Write;
use topology::MAX_TEXT;

/// How a replay marks its answers.
#[derive(Clone, Copy)]
pub struct Marks {
    /// Whether the number of its line stands before each answer: `12: refused NotEnabled`.
    pub number: bool,
    /// Whether the run ends with the first answer that is a refusal.
    pub strict: bool,
}

/// Replays a script from this configuration on, with marks. A strict run that a refusal ends is `Status::NotEnabled`. Leaves
/// in `tally` how its commands were answered.
pub fn run_marked<P: Invariant, W: Write>(
    alloc: Global,
    config: &mut Config<P>,
    script: &[u8],
    marks: Marks,
    tally: &mut Tally,
    out: &mut W,
) -> Result<Status, RunStop>
    ensures leaves { Leaves
        (λ output. output ≡ marked_output (meaning_of P.app P.text P.from_text P.names P.counts)
        marks config.old script.now)
        (W.contents out.old) (W.contents out.new) result }
    ensures tally { OnOk result
        (tally.new ≡ script_tally (meaning_of P.app P.text P.from_text P.names P.counts) marks config.old script.now) }
    ensures stop { IfErr result IsOutputStop }
{
    *tally = Tally::new();
    if script.len() > MAX_TEXT {
        return refuse_script(out);
    }
    answer_marked_lines(alloc, config, script, marks, tally, out)
}

// Answers the lines of a script in order, up to the first answer that isn't good.
fn answer_marked_lines<P: Invariant, W: Write>(
    alloc: Global,
    config: &mut Config<P>,
    script: &[u8],
    marks: Marks,
    tally: &mut Tally,
    out: &mut W,
) -> Result<Status, RunStop>
    requires short { length script.now ≤ MAX_TEXT }
    requires tally { tally.old ≡ no_answers }
    ensures leaves { let a = marked_answers (meaning_of P.app P.text P.from_text P.names P.counts)
        marks config.old script.now in
        Leaves (λ output. output ≡ (a.text, a.status)) (W.contents out.old) (W.contents out.new) result }
    ensures tally { OnOk result (tally.new ≡ counted tally.old
        (answered (meaning_of P.app P.text P.from_text P.names P.counts) marks config.old 1 (lines_of script.now))) }
    ensures stop { IfErr result IsOutputStop }
{
    let mut rest = script;
    let mut number = 1;
    while let Some((line, after)) = split_line(rest) {
        match answer_marked(alloc, config, number, line, marks, tally, out) {
            Ok(Status::Good) => {}
            Ok(ended) => return Ok(ended),
            Err(stop) => return Err(stop),
        }
        rest = after;
        number += 1;
    }
    answer_marked(alloc, config, number, rest, marks, tally, out)
}

// Answers the line with this number and text, with marks.
fn answer_marked<P: Invariant, W: Write>(
    alloc: Global,
    config: &mut Config<P>,
    number: u64,
    line: &[u8],
    marks: Marks,
    tally: &mut Tally,
    out: &mut W,
) -> Result<Status, RunStop>
    requires room { tally.old.commands < number }
    requires few { tally.old.refused ≤ tally.old.commands }
    ensures ok { IfOk result
        (λ status. let a = marked_answer (meaning_of P.app P.text P.from_text P.names P.counts)
        marks config.old number line.now in
        (status ≡ a.status) × (config.new ≡ a.config) × Appends (W.contents out.old) (W.contents out.new) a.text) }
    ensures err { OnErr result
        (AppendsPrefix (W.contents out.old) (W.contents out.new)
        (marked_answer (meaning_of P.app P.text P.from_text P.names P.counts) marks config.old number line.now).text) }
    ensures tally { OnOk result (tally.new ≡ counted tally.old
        (answered_in (meaning_of P.app P.text P.from_text P.names P.counts) config.old number line.now)) }
    ensures stop { IfErr result IsOutputStop }
{
    let mut text = Vec::new(alloc);
    let status = gather_answer(alloc, config, number, line, &mut text)?;
    put_marked(number, &text, marks, out)?;
    let is_refusal = is_refused(&text);
    count_answer(tally, number, line, status, is_refusal);
    if marks.strict && is_refusal {
        return Ok(Status::NotEnabled);
    }
    Ok(status)
}

// Counts the answer with this status to the line with this number and text, if it is a command's.
fn count_answer(tally: &mut Tally, number: u64, line: &[u8], status: Status, is_refused: bool)
    requires room { tally.old.commands < number }
    requires few { tally.old.refused ≤ tally.old.commands }
    ensures { tally.new ≡ counted tally.old (answered_at number line.now status is_refused) }
{
    if is_silent(line) {
        return;
    }
    if status == Status::Good {
        tally.count(number, is_refused);
    }
}

// Adds the answer to a line to a text in memory.
fn gather_answer<P: Invariant>(
    alloc: Global,
    config: &mut Config<P>,
    number: u64,
    line: &[u8],
    text: &mut Vec<u8>,
) -> Result<Status, AllocError>
    ensures { IfOk result
        (λ status. let a = line_answer (meaning_of P.app P.text P.from_text P.names P.counts)
        config.old number line.now in
        (status ≡ a.status) × (config.new ≡ a.config) × (text.new.items ≡ text.old.items ++ a.text)) }
{
    match answer_line(alloc, config, number, line, text) {
        Ok(status) => Ok(status),
        Err(_) => Err(AllocError),
    }
}

// Writes an answer, after the number of its line if the marks ask for it.
fn put_marked<W: Write>(
    number: u64,
    text: &[u8],
    marks: Marks,
    out: &mut W,
) -> Result<(), WriteFault>
    ensures ok { OnOk result
        (Appends (W.contents out.old) (W.contents out.new) (number_text marks number text.now ++ text.now)) }
    ensures err { OnErr result
        (AppendsPrefix (W.contents out.old) (W.contents out.new) (number_text marks number text.now ++ text.now)) }
{
    put_line_number(number, text, marks, out)?;
    put_bytes(out, text)
}

// Writes the number of a line before its answer, if that is asked and there is an answer.
fn put_line_number<W: Write>(
    number: u64,
    text: &[u8],
    marks: Marks,
    out: &mut W,
) -> Result<(), WriteFault>
    ensures ok { OnOk result
        (Appends (W.contents out.old) (W.contents out.new) (number_text marks number text.now)) }
    ensures err { OnErr result
        (AppendsPrefix (W.contents out.old) (W.contents out.new) (number_text marks number text.now)) }
{
    if marks.number && !text.is_empty() {
        return put_parts(out, &[Part::Number(number), Part::Text(b": ")]);
    }
    Ok(())
}

// Whether a line of an answer is a refusal.
fn is_refused(text: &[u8]) -> bool
    ensures { result ≡ is_refused text.now }
{
    let mut rest = text;
    while let Some((line, after)) = split_line(rest) {
        if is_refusal(line) {
            return true;
        }
        rest = after;
    }
    is_refusal(rest)
}

fn is_refusal(line: &[u8]) -> bool
    ensures { result ≡ is_refusal line.now }
{
    line.starts_with(b"refused ")
}
