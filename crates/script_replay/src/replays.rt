// The replay of a script on a booted configuration.

ghost use Rattle.std.specs.Prelude.{◌≡◌, ◌≢◌, ℕ, ◌≤◌, List, length, IfOk, IfErr, OnErr, OnOk, false, true};
ghost use Rattle.std.specs.Io.KnownBytes.{Appends};
ghost use Rattle.topology.specs.TopologyText.{IsReadFault};
ghost use Rattle.action_tables.specs.Written.{AppendsPrefix};
ghost use Rattle.applications.specs.Choice.{ForApp};
ghost use Rattle.applications.specs.Meaning.{meaning_of};
ghost use Rattle.script_replay.specs.Lines.{lines_of, GaveText, IsReadFrom};
ghost use Rattle.script_replay.specs.Output.{answers, bad_topology_text, ending, line_answer, script_output};
ghost use Rattle.script_replay.specs.Output.{too_long_text, IsJoinedOutput, IsOutput, IsReplay, Leaves};
ghost use Rattle.script_replay.specs.Parts.{next_text, HasFitting};
ghost use Rattle.script_replay.specs.Stops.{IsOutputStop};

use crate::answer::{answer, answer_step, put_bad_line, put_topology_fault};
use crate::faults::answer_check;
use crate::input::{cut_joined, read_text};
use crate::network::{Network, read_network};
use crate::next_line::{NextLine, next_line};
use crate::script::{Line, read_line};
use crate::status::{Purpose, RunStop, Status};
use action_tables::put_bytes;
use app_invariants::Invariant;
use applications::with_application;
use reset_machine::Config;
use std::alloc::Global;
use std::io::{Read, Write};
use topology::{MAX_TEXT, ReadFault};

/// Replays a script on the booted configuration of a topology text, with sessions modulo the number that it names, and
/// writes the answers.
///
/// The topology is judged first, then the length of the script, then its lines in order, each
/// with its answer before the next. The first bad line ends the run, and what was answered before
/// it stays.
pub fn replay_text<W: Write>(
    alloc: Global,
    topology: &[u8],
    script: &[u8],
    out: &mut W,
) -> Result<Status, RunStop>
    ensures leaves { Leaves (IsOutput Purpose.Replay topology.now script.now) (W.contents out.old) (W.contents out.new)
        result }
    ensures stop { IfErr result IsOutputStop }
{
    match read_network(alloc, topology) {
        Ok(network) => run_app(alloc, Purpose::Replay, network, script, out),
        Err(fault) => refuse_topology(fault, out),
    }
}

/// As `replay_text`, with the script from a reader, of which at most 1,048,577 bytes are read. The
/// topology is judged before the reader is touched.
pub fn replay<R: Read, W: Write>(
    alloc: Global,
    topology: &[u8],
    script: &mut R,
    out: &mut W,
) -> Result<Status, RunStop>
    ensures leaves { (text : List ℕ) × IsReadFrom (R.remaining script.old) text
        × Leaves (IsOutput Purpose.Replay topology.now text) (W.contents out.old) (W.contents out.new) result }
    ensures taken { OnOk result (GaveText (R.remaining script.old) (R.remaining script.new)) }
    ensures untouched { (f : ReadFault) → IsReadFault topology.now f → script.new ≡ script.old }
{
    run_read(alloc, Purpose::Replay, topology, script, out)
}

/// As `replay`, and where the topology, the script and all its lines are good, the faults of the
/// configuration that the script leaves are written after its answers.
pub fn check_text<R: Read, W: Write>(
    alloc: Global,
    topology: &[u8],
    script: &mut R,
    out: &mut W,
) -> Result<Status, RunStop>
    ensures leaves { (text : List ℕ) × IsReadFrom (R.remaining script.old) text
        × Leaves (IsOutput (Purpose.Check false) topology.now text) (W.contents out.old) (W.contents out.new) result }
    ensures taken { OnOk result (GaveText (R.remaining script.old) (R.remaining script.new)) }
    ensures untouched { (f : ReadFault) → IsReadFault topology.now f → script.new ≡ script.old }
{
    let purpose = Purpose::Check { repairs: false };
    run_read(alloc, purpose, topology, script, out)
}

/// As `check_text`, and each fault of the tree or of the wave is followed by the event that repairs it.
pub fn check_repairs_text<R: Read, W: Write>(
    alloc: Global,
    topology: &[u8],
    script: &mut R,
    out: &mut W,
) -> Result<Status, RunStop>
    ensures leaves { (text : List ℕ) × IsReadFrom (R.remaining script.old) text
        × Leaves (IsOutput (Purpose.Check true) topology.now text) (W.contents out.old) (W.contents out.new) result }
    ensures taken { OnOk result (GaveText (R.remaining script.old) (R.remaining script.new)) }
    ensures untouched { (f : ReadFault) → IsReadFault topology.now f → script.new ≡ script.old }
{
    let purpose = Purpose::Check { repairs: true };
    run_read(alloc, purpose, topology, script, out)
}

// Runs the script of a reader.
fn run_read<R: Read, W: Write>(
    alloc: Global,
    purpose: Purpose,
    topology: &[u8],
    script: &mut R,
    out: &mut W,
) -> Result<Status, RunStop>
    ensures leaves { (text : List ℕ) × IsReadFrom (R.remaining script.old) text
        × Leaves (IsOutput purpose topology.now text) (W.contents out.old) (W.contents out.new) result }
    ensures taken { OnOk result (GaveText (R.remaining script.old) (R.remaining script.new)) }
    ensures untouched { (f : ReadFault) → IsReadFault topology.now f → script.new ≡ script.old }
{
    match read_network(alloc, topology) {
        Ok(network) => match read_text(alloc, script) {
            Ok(text) => run_app(alloc, purpose, network, &text, out),
            Err(stop) => Err(stop),
        },
        Err(refused) => refuse_topology(refused, out),
    }
}

/// As `replay_text`, with both texts from one reader: the topology up to the first line that is
/// exactly `---`, and the script after it. At most 1,048,577 bytes are read, and a joined text of
/// that length is a script that is too long.
pub fn replay_joined<R: Read, W: Write>(
    alloc: Global,
    joined: &mut R,
    out: &mut W,
) -> Result<Status, RunStop>
    ensures leaves { (text : List ℕ) × IsReadFrom (R.remaining joined.old) text
        × Leaves (IsJoinedOutput text) (W.contents out.old) (W.contents out.new) result }
    ensures taken { OnOk result (GaveText (R.remaining joined.old) (R.remaining joined.new)) }
{
    match read_text(alloc, joined) {
        Ok(text) => replay_whole(alloc, &text, out),
        Err(stop) => Err(stop),
    }
}

// The run of a joined text.
fn replay_whole<W: Write>(alloc: Global, joined: &[u8], out: &mut W) -> Result<Status, RunStop>
    ensures leaves { Leaves (IsJoinedOutput joined.now) (W.contents out.old) (W.contents out.new) result }
    ensures stop { IfErr result IsOutputStop }
{
    if joined.len() > MAX_TEXT {
        return refuse_script(out);
    }
    let (topology, script) = cut_joined(joined);
    replay_text(alloc, topology, script, out)
}

// Runs a script on the booted configuration of a network, with the application that it names.
#[tactic(auto, using(applications::proofs::Choosing::by_name))]
fn run_app<W: Write>(
    alloc: Global,
    purpose: Purpose,
    network: Network,
    script: &[u8],
    out: &mut W,
) -> Result<Status, RunStop>
    ensures leaves { ForApp (λ L m. Leaves (IsReplay m purpose network.topology network.modulus script.now)
        (W.contents out.old) (W.contents out.new) result) network.app }
    ensures stop { IfErr result IsOutputStop }
{
    with_application!(network.app, P => run_booted::<P, W>(alloc, purpose, network, script, out))
}

fn run_booted<P: Invariant, W: Write>(
    alloc: Global,
    purpose: Purpose,
    network: Network,
    script: &[u8],
    out: &mut W,
) -> Result<Status, RunStop>
    ensures leaves { Leaves
        (IsReplay (meaning_of P.app P.text P.from_text P.names P.counts)
        purpose network.topology network.modulus script.now)
        (W.contents out.old) (W.contents out.new) result }
    ensures stop { IfErr result IsOutputStop }
{
    match Config::<P>::boot(alloc, network.topology, network.modulus) {
        Ok(mut config) => run_script(alloc, purpose, &mut config, script, out),
        Err(_) => Err(RunStop::NoMemory),
    }
}

/// Answers a text that is no topology.
pub fn refuse_topology<W: Write>(fault: ReadFault, out: &mut W) -> Result<Status, RunStop>
    ensures leaves { Leaves
        (λ output. (fault ≢ ReadFault.NoMemory) × (output ≡ (bad_topology_text fault, Status.BadInput)))
        (W.contents out.old) (W.contents out.new) result }
    ensures stop { IfErr result IsOutputStop }
{
    if fault == ReadFault::NoMemory {
        return Err(RunStop::NoMemory);
    }
    put_topology_fault(out, fault)?;
    Ok(Status::BadInput)
}

// Answers a script that is too long.
pub fn refuse_script<W: Write>(out: &mut W) -> Result<Status, RunStop>
    ensures leaves { Leaves (λ output. output ≡ (too_long_text, Status.BadInput)) (W.contents out.old)
        (W.contents out.new) result }
    ensures stop { IfErr result IsOutputStop }
{
    refuse_input(out, b"bad script TooLong\n")
}

/// Answers an input that isn't taken by this text.
pub fn refuse_input<W: Write>(out: &mut W, text: &[u8]) -> Result<Status, RunStop>
    ensures leaves { Leaves (λ output. output ≡ (text.now, Status.BadInput)) (W.contents out.old) (W.contents out.new)
        result }
    ensures stop { IfErr result IsOutputStop }
{
    put_bytes(out, text)?;
    Ok(Status::BadInput)
}

/// Replays a script from this configuration on, and checks what it leaves if the run is for that. The configuration becomes
/// the one that the lines leave, up to the first bad one; that of a script that is too long stays as it is.
pub fn run_script<P: Invariant, W: Write>(
    alloc: Global,
    purpose: Purpose,
    config: &mut Config<P>,
    script: &[u8],
    out: &mut W,
) -> Result<Status, RunStop>
    ensures leaves { Leaves
        (λ output. output ≡ script_output (meaning_of P.app P.text P.from_text P.names P.counts)
        purpose config.old script.now)
        (W.contents out.old) (W.contents out.new) result }
    ensures config { OnOk result (length script.now ≤ MAX_TEXT → config.new
        ≡ (answers (meaning_of P.app P.text P.from_text P.names P.counts) config.old 1 (lines_of script.now)).config) }
    ensures stop { IfErr result IsOutputStop }
{
    if script.len() > MAX_TEXT {
        return refuse_script(out);
    }
    match answer_lines(alloc, config, script, out) {
        Ok(answered) => end_run(alloc, purpose, config, answered, out),
        Err(stop) => Err(stop),
    }
}

// Ends a run whose lines ended so: a check follows good lines, if the run is for one.
fn end_run<P: Invariant, W: Write>(
    alloc: Global,
    purpose: Purpose,
    config: &Config<P>,
    answered: Status,
    out: &mut W,
) -> Result<Status, RunStop>
    ensures ok { IfOk result
        (λ status. let last = ending (meaning_of P.app P.text P.from_text P.names P.counts)
        purpose config.now answered in
        (status ≡ last.1) × Appends (W.contents out.old) (W.contents out.new) last.0) }
    ensures err { OnErr result (AppendsPrefix (W.contents out.old) (W.contents out.new)
        (ending (meaning_of P.app P.text P.from_text P.names P.counts) purpose config.now answered).0) }
    ensures stop { IfErr result IsOutputStop }
{
    match (purpose, answered) {
        (Purpose::Check { repairs }, Status::Good) => answer_check(alloc, config, repairs, out),
        _ => Ok(answered),
    }
}

// Answers the lines of a script in order, up to the first bad one.
fn answer_lines<P: Invariant, W: Write>(
    alloc: Global,
    config: &mut Config<P>,
    script: &[u8],
    out: &mut W,
) -> Result<Status, RunStop>
    requires { length script.now ≤ MAX_TEXT }
    ensures leaves { let a = answers (meaning_of P.app P.text P.from_text P.names P.counts)
        config.old 1 (lines_of script.now) in
        Leaves (λ output. output ≡ (a.text, a.status)) (W.contents out.old) (W.contents out.new) result }
    ensures config { OnOk result
        (config.new
        ≡ (answers (meaning_of P.app P.text P.from_text P.names P.counts) config.old 1 (lines_of script.now)).config) }
    ensures stop { IfErr result IsOutputStop }
{
    let mut rest = script;
    let mut number = 1;
    while let Some((line, after)) = next_line(rest) {
        match answer_next(alloc, config, number, line, out) {
            Ok(Status::Good) => {}
            Ok(ended) => return Ok(ended),
            Err(stop) => return Err(stop),
        }
        rest = after;
        number += 1;
    }
    answer_line(alloc, config, number, rest, out)
}

// Answers the line with this number. An event is answered by itself, since a command of any kind may hold the text of
// a fault, with which it is slow to move.
#[inline(always)]
fn answer_next<P: Invariant, W: Write>(
    alloc: Global,
    config: &mut Config<P>,
    number: u64,
    line: NextLine<'_>,
    out: &mut W,
) -> Result<Status, RunStop>
    requires { HasFitting line }
    ensures ok { IfOk result
        (λ status. let a =
        line_answer (meaning_of P.app P.text P.from_text P.names P.counts) config.old number (next_text line.entry) in
        (status ≡ a.status) × (config.new ≡ a.config) × Appends (W.contents out.old) (W.contents out.new) a.text) }
    ensures err { OnErr result
        (AppendsPrefix (W.contents out.old) (W.contents out.new)
        (line_answer (meaning_of P.app P.text P.from_text P.names P.counts)
        config.old number (next_text line.entry)).text) }
    ensures stop { IfErr result IsOutputStop }
{
    match line {
        NextLine::Event(event) => {
            answer_step(alloc, config, event, out)?;
            Ok(Status::Good)
        }
        NextLine::Text(text) => answer_line(alloc, config, number, text, out),
    }
}

// Answers the line with this number and text.
#[inline(never)]
pub fn answer_line<P: Invariant, W: Write>(
    alloc: Global,
    config: &mut Config<P>,
    number: u64,
    line: &[u8],
    out: &mut W,
) -> Result<Status, RunStop>
    ensures ok { IfOk result
        (λ status. let a = line_answer (meaning_of P.app P.text P.from_text P.names P.counts)
        config.old number line.now in
        (status ≡ a.status) × (config.new ≡ a.config) × Appends (W.contents out.old) (W.contents out.new) a.text) }
    ensures err { OnErr result
        (AppendsPrefix (W.contents out.old) (W.contents out.new)
        (line_answer (meaning_of P.app P.text P.from_text P.names P.counts) config.old number line.now).text) }
    ensures stop { IfErr result IsOutputStop }
{
    match read_line::<P>(alloc, line)? {
        Line::Silent => Ok(Status::Good),
        Line::Asks(command) => {
            answer(alloc, config, command, out)?;
            Ok(Status::Good)
        }
        Line::Bad => {
            put_bad_line(out, number)?;
            Ok(Status::BadInput)
        }
    }
}
