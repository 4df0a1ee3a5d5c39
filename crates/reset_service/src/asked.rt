// The verification of a history that is asked why an entry isn't allowed, or what the first entries leave.

ghost use Rattle.std.specs.Prelude.{◌≡◌, ◌++◌, ℕ, IfErr, List, None, option_map};
ghost use Rattle.topology.specs.TopologyText.{IsReadFault};
ghost use Rattle.applications.specs.Choice.{ForApp};
ghost use Rattle.applications.specs.Meaning.{meaning_of};
ghost use Rattle.history.specs.Entries.{entered};
ghost use Rattle.history.specs.HistoryText.{IsReadWhole};
ghost use Rattle.history.specs.Verdict.{IsJudgementOf};
ghost use Rattle.script_replay.specs.Output.{Leaves, snapshot_text};
ghost use Rattle.script_replay.specs.Stops.{IsOutputStop};
ghost use Rattle.reset_service.specs.Asked.{AnswersTo, IsAnswered, allowed_output, asked_reason, ends_after_text};
ghost use Rattle.reset_service.specs.Asked.{asked_of, left_output};
ghost use Rattle.reset_service.specs.Opened.{IsOpenedFrom, IsOpenedText};
ghost use Rattle.reset_service.specs.Verified.{LeavesOfReader, not_enabled_text};

use crate::reasons::put_asked_reason;
use crate::started::{open_network, refuse_start};
use crate::verified::{answer_summary, put_not_enabled, refuse_history, refuse_modulus};
use app_interface::Application;
use app_invariants::Invariant;
use applications::with_application;
use history::{BookFault, JudgeFault, Refused, Resumed, judge_first, judge_reader};
use reset_machine::Config;
use script_replay::{
    Command, Network, RunStop, Status, answer_command, put_numbered, read_network, refuse_topology,
};
use std::alloc::Global;
use std::io::{Read, Write};
use topology::ReadFault;

/// What is asked of a verification, beside what its history comes to.
#[derive(Clone, Copy)]
pub struct Question {
    /// Whether to say why an entry isn't allowed.
    pub why: bool,
    /// How many entries are verified, if it is asked what they leave: those after them are read alone.
    pub at: Option<u32>,
}

/// Verifies a history as `verify_text` or, where a snapshot is given, `verify_from` does. Where it is asked what the first
/// entries leave, they alone are judged, and it writes that as a snapshot, or that there are fewer. Where it is asked why an
/// entry isn't allowed where it stands, it writes that entry, what a script would answer to its command there, what the rows
/// of its event ask for, and the lines of its node and of the neighbours.
pub fn verify_asked<R: Read, W: Write>(
    alloc: Global,
    topology: &[u8],
    snapshot: Option<&[u8]>,
    history: &mut R,
    question: Question,
    out: &mut W,
) -> Result<Status, RunStop>
    ensures leaves { LeavesOfReader (R.remaining history.old)
        (λ text. IsOpenedText (AnswersTo question text) topology.now (option_map (λ s. s.now) snapshot.entry))
        (W.contents out.old) (W.contents out.new) result }
    ensures untouched { (f : ReadFault) → IsReadFault topology.now f → history.new ≡ history.old }
{
    match read_network(alloc, topology) {
        Ok(network) => ask_app(alloc, network, snapshot, history, question, out),
        Err(fault) => refuse_topology(fault, out),
    }
}

// Judges a history on a network, with the application that it names.
#[tactic(auto, using(applications::proofs::Choosing::by_name))]
fn ask_app<R: Read, W: Write>(
    alloc: Global,
    network: Network,
    snapshot: Option<&[u8]>,
    history: &mut R,
    question: Question,
    out: &mut W,
) -> Result<Status, RunStop>
    requires { network.topology.nodes ≡ network.topology.ids }
    ensures leaves { ForApp (λ L m. LeavesOfReader (R.remaining history.old)
        (λ text. IsOpenedFrom m network.topology network.modulus (option_map (λ s. s.now) snapshot.entry)
        (AnswersTo question text L m))
        (W.contents out.old) (W.contents out.new) result) network.app }
{
    with_application!(
        network.app,
        P => ask_opened::<P, R, W>(alloc, network, snapshot, history, question, out)
    )
}

fn ask_opened<P: Invariant, R: Read, W: Write>(
    alloc: Global,
    network: Network,
    snapshot: Option<&[u8]>,
    history: &mut R,
    question: Question,
    out: &mut W,
) -> Result<Status, RunStop>
    requires { network.topology.nodes ≡ network.topology.ids }
    ensures leaves { LeavesOfReader (R.remaining history.old)
        (λ text. IsOpenedFrom (meaning_of P.app P.text P.from_text P.names P.counts) network.topology network.modulus
        (option_map (λ s. s.now) snapshot.entry)
        (AnswersTo question text P.Local (meaning_of P.app P.text P.from_text P.names P.counts)))
        (W.contents out.old) (W.contents out.new) result }
{
    match open_network::<P>(alloc, network, snapshot) {
        Ok(opening) => ask_from(alloc, opening, history, question, out),
        Err(fault) => refuse_start(fault, out),
    }
}

// Judges a history from this configuration on.
fn ask_from<P: Invariant, R: Read, W: Write>(
    alloc: Global,
    opening: Config<P>,
    history: &mut R,
    question: Question,
    out: &mut W,
) -> Result<Status, RunStop>
    ensures leaves { LeavesOfReader (R.remaining history.old)
        (IsAnswered question (meaning_of P.app P.text P.from_text P.names P.counts) opening)
        (W.contents out.old) (W.contents out.new) result }
{
    match judge(alloc, opening, question.at, history) {
        Ok(resumed) => answer_allowed(alloc, question.at, resumed, out),
        Err(JudgeFault::Text(BookFault::NoMemory)) => Err(RunStop::NoMemory),
        Err(JudgeFault::Text(BookFault::ReadFailed)) => Err(RunStop::ReadFailed),
        Err(JudgeFault::Text(fault)) => refuse_history(fault, out),
        Err(JudgeFault::OtherModulus(modulus)) => refuse_modulus(modulus, out),
        Err(JudgeFault::Refused(refused)) => answer_refused(alloc, question.why, refused, out),
        Err(JudgeFault::NoMemory) => Err(RunStop::NoMemory),
    }
}

// Judges all entries of a history or, where so many are asked for, the first ones.
fn judge<P: Application, R: Read>(
    alloc: Global,
    opening: Config<P>,
    at: Option<u32>,
    history: &mut R,
) -> Result<Resumed<P>, JudgeFault<P>>
    ensures { (text : List ℕ) × IsReadWhole (R.remaining history.old) text
        × IsJudgementOf (asked_of at) P.app P.from_text opening text result }
{
    match at {
        None => judge_reader(alloc, opening, history),
        Some(count) => judge_first(alloc, opening, count as usize, history),
    }
}

// Answers entries that are all allowed, by what they come to or by what they leave.
fn answer_allowed<P: Invariant, W: Write>(
    alloc: Global,
    at: Option<u32>,
    resumed: Resumed<P>,
    out: &mut W,
) -> Result<Status, RunStop>
    ensures leaves { Leaves
        (λ output. output ≡ allowed_output (meaning_of P.app P.text P.from_text P.names P.counts)
        at resumed.summary.entries
        resumed.summary.reports.items resumed.config)
        (W.contents out.old) (W.contents out.new) result }
{
    let Resumed { config, summary } = resumed;
    match at {
        None => {
            drop(config);
            answer_summary(&summary, out)
        }
        Some(count) => answer_left(alloc, count, summary.entries, config, out),
    }
}

// Answers entries of which so many were asked for, and so many are there, by what they leave.
fn answer_left<P: Invariant, W: Write>(
    alloc: Global,
    count: u32,
    entries: usize,
    config: Config<P>,
    out: &mut W,
) -> Result<Status, RunStop>
    ensures leaves { Leaves
        (λ output. output ≡ left_output (meaning_of P.app P.text P.from_text P.names P.counts) count entries config)
        (W.contents out.old) (W.contents out.new) result }
{
    if entries < count as usize {
        drop(config);
        return refuse_fewer(entries, out);
    }
    answer_snapshot(alloc, config, out)
}

// Answers a history that has so many entries, fewer than are asked for.
pub fn refuse_fewer<W: Write>(entries: usize, out: &mut W) -> Result<Status, RunStop>
    ensures leaves { Leaves (λ output. output ≡ (ends_after_text entries, Status.BadInput)) (W.contents out.old)
        (W.contents out.new) result }
    ensures stop { IfErr result IsOutputStop }
{
    put_numbered(out, b"bad history EndsAfter ", entries as u64)?;
    Ok(Status::BadInput)
}

// Answers by the snapshot of a configuration.
fn answer_snapshot<P: Invariant, W: Write>(
    alloc: Global,
    config: Config<P>,
    out: &mut W,
) -> Result<Status, RunStop>
    ensures leaves { Leaves
        (λ output. output ≡ (snapshot_text (meaning_of P.app P.text P.from_text P.names P.counts) config, Status.Good))
        (W.contents out.old) (W.contents out.new) result }
{
    let mut config = config;
    let written = answer_command(alloc, &mut config, Command::Snapshot, out);
    drop(config);
    match written {
        Ok(()) => Ok(Status::Good),
        Err(stop) => Err(stop),
    }
}

// Answers a history by its first entry that isn't allowed where it stands and, where it is asked, why it isn't.
fn answer_refused<P: Invariant, W: Write>(
    alloc: Global,
    why: bool,
    refused: Refused<P>,
    out: &mut W,
) -> Result<Status, RunStop>
    requires { entered P.app P.from_text refused.config refused.entry ≡ None }
    ensures leaves { Leaves
        (λ output. output ≡ (
          not_enabled_text refused.position
              ++ asked_reason why (meaning_of P.app P.text P.from_text P.names P.counts) refused.config refused.entry,
          Status.NotEnabled,
        ))
        (W.contents out.old) (W.contents out.new) result }
{
    let Refused {
        position,
        entry,
        mut config,
    } = refused;
    put_not_enabled(out, position)?;
    let written = put_asked_reason(alloc, why, &mut config, entry, out);
    drop(config);
    match written {
        Ok(()) => Ok(Status::NotEnabled),
        Err(stop) => Err(stop),
    }
}
