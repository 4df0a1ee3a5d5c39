// The verification of a history from a booted configuration.

ghost use Rattle.std.specs.Prelude.{◌≡◌, ◌+◌, ◌≤◌, ◌++◌, Some, length, IfErr, OnErr, OnOk};
ghost use Rattle.std.specs.List.{flat_map};
ghost use Rattle.std.specs.Io.KnownBytes.{Appends};
ghost use Rattle.topology.specs.TopologyText.{IsReadFault};
ghost use Rattle.action_tables.specs.Written.{AppendsPrefix};
ghost use Rattle.applications.specs.Choice.{ForApp};
ghost use Rattle.applications.specs.Meaning.{meaning_of};
ghost use Rattle.script_replay.specs.Output.{Leaves};
ghost use Rattle.reset_service.specs.Verified.{bad_history_text, not_enabled_text, other_modulus_text};
ghost use Rattle.reset_service.specs.Verified.{position_text, report_line, verified_text, IsVerification};
ghost use Rattle.reset_service.specs.Verified.{IsVerified, IsVerifiedFrom, LeavesOfReader};
ghost use Rattle.reset_service.specs.declared.line.TheConstants.{ROOM};
ghost use Rattle.script_replay.specs.Stops.{IsOutputStop};
ghost use Rattle.reset_service.specs.Opened.{IsOpenedFrom, IsOpenedText};
ghost use Rattle.reset_service.specs.Started.{Verifies};

use crate::counts::put_counts;
use crate::line::LineBuffer;
use crate::started::{open_network, refuse_start};
use action_tables::{WriteFault, put_bytes};
use app_invariants::Invariant;
use applications::with_application;
use history::{BookFault, ReaderFault, Report, Summary, VerifyFault, verify_reader};
use reset_machine::Config;
use script_replay::{Network, RunStop, Status, put_numbered, read_network, refuse_topology};
use std::alloc::Global;
use std::io::{Read, Write};
use topology::ReadFault;

/// Verifies the history that a reader gives, from the booted configuration of a topology text, and writes
/// its reports, one a line, and then how many entries and reports it has.
///
/// The topology is judged before the reader is touched. A text that isn't a history is answered by its
/// first line that a history can't have there, a history with sessions modulo another number than the
/// topology's by its number, both before an entry is judged, and a history in which an entry isn't allowed
/// where it stands by the position of the first such entry.
pub fn verify_text<R: Read, W: Write>(
    alloc: Global,
    topology: &[u8],
    history: &mut R,
    out: &mut W,
) -> Result<Status, RunStop>
    ensures leaves { LeavesOfReader (R.remaining history.old) (IsVerification topology.now)
        (W.contents out.old) (W.contents out.new) result }
    ensures untouched { (f : ReadFault) → IsReadFault topology.now f → history.new ≡ history.old }
{
    match read_network(alloc, topology) {
        Ok(network) => verify_app(alloc, network, history, out),
        Err(fault) => refuse_topology(fault, out),
    }
}

/// As `verify_text`, from the configuration that a snapshot of the topology names in place of the booted one. The
/// topology is judged first, and the snapshot before the history.
pub fn verify_from<R: Read, W: Write>(
    alloc: Global,
    topology: &[u8],
    snapshot: &[u8],
    history: &mut R,
    out: &mut W,
) -> Result<Status, RunStop>
    ensures leaves { LeavesOfReader (R.remaining history.old)
        (λ text. IsOpenedText (Verifies text) topology.now (Some snapshot.now)) (W.contents out.old) (W.contents out.new) result }
    ensures untouched { (f : ReadFault) → IsReadFault topology.now f → history.new ≡ history.old }
{
    match read_network(alloc, topology) {
        Ok(network) => verify_app_from(alloc, network, snapshot, history, out),
        Err(fault) => refuse_topology(fault, out),
    }
}

// Verifies a history from a snapshot of a network, with the application that it names.
#[tactic(auto, using(applications::proofs::Choosing::by_name))]
fn verify_app_from<R: Read, W: Write>(
    alloc: Global,
    network: Network,
    snapshot: &[u8],
    history: &mut R,
    out: &mut W,
) -> Result<Status, RunStop>
    requires { network.topology.nodes ≡ network.topology.ids }
    ensures leaves { ForApp (λ L m. LeavesOfReader (R.remaining history.old)
        (λ text. IsOpenedFrom m network.topology network.modulus (Some snapshot.now)
        (Verifies text L m))
        (W.contents out.old) (W.contents out.new) result) network.app }
{
    with_application!(
        network.app,
        P => verify_started::<P, R, W>(alloc, network, snapshot, history, out)
    )
}

fn verify_started<P: Invariant, R: Read, W: Write>(
    alloc: Global,
    network: Network,
    snapshot: &[u8],
    history: &mut R,
    out: &mut W,
) -> Result<Status, RunStop>
    requires { network.topology.nodes ≡ network.topology.ids }
    ensures leaves { LeavesOfReader (R.remaining history.old)
        (λ text. IsOpenedFrom (meaning_of P.app P.text P.from_text P.names P.counts) network.topology network.modulus
        (Some snapshot.now) (Verifies text P.Local (meaning_of P.app P.text P.from_text P.names P.counts)))
        (W.contents out.old) (W.contents out.new) result }
{
    match open_network::<P>(alloc, network, Some(snapshot)) {
        Ok(opening) => verify_opened(alloc, opening, history, out),
        Err(fault) => refuse_start(fault, out),
    }
}

// Verifies a history from the booted configuration of a network, with the application that it names.
#[tactic(auto, using(applications::proofs::Choosing::by_name))]
fn verify_app<R: Read, W: Write>(
    alloc: Global,
    network: Network,
    history: &mut R,
    out: &mut W,
) -> Result<Status, RunStop>
    ensures leaves { ForApp (λ L m. LeavesOfReader (R.remaining history.old)
        (IsVerifiedFrom m network.topology network.modulus) (W.contents out.old) (W.contents out.new) result) network.app }
{
    with_application!(network.app, P => verify_booted::<P, R, W>(alloc, network, history, out))
}

fn verify_booted<P: Invariant, R: Read, W: Write>(
    alloc: Global,
    network: Network,
    history: &mut R,
    out: &mut W,
) -> Result<Status, RunStop>
    ensures leaves { LeavesOfReader (R.remaining history.old)
        (IsVerifiedFrom (meaning_of P.app P.text P.from_text P.names P.counts) network.topology network.modulus)
        (W.contents out.old) (W.contents out.new) result }
{
    match Config::<P>::boot(alloc, network.topology, network.modulus) {
        Ok(opening) => verify_opened(alloc, opening, history, out),
        Err(_) => Err(RunStop::NoMemory),
    }
}

// Verifies a history from this configuration on.
fn verify_opened<P: Invariant, R: Read, W: Write>(
    alloc: Global,
    opening: Config<P>,
    history: &mut R,
    out: &mut W,
) -> Result<Status, RunStop>
    ensures leaves { LeavesOfReader (R.remaining history.old)
        (IsVerified (meaning_of P.app P.text P.from_text P.names P.counts)
        opening) (W.contents out.old) (W.contents out.new) result }
{
    match verify_reader(alloc, opening, history) {
        Ok(summary) => answer_summary(&summary, out),
        Err(ReaderFault::Text(BookFault::NoMemory)) => Err(RunStop::NoMemory),
        Err(ReaderFault::Text(BookFault::ReadFailed)) => Err(RunStop::ReadFailed),
        Err(ReaderFault::Text(fault)) => refuse_history(fault, out),
        Err(ReaderFault::OtherModulus(modulus)) => refuse_modulus(modulus, out),
        Err(ReaderFault::Entries(VerifyFault::NotEnabledAt(position))) => {
            refuse_entry(position, out)
        }
        Err(ReaderFault::Entries(VerifyFault::NoMemory)) => Err(RunStop::NoMemory),
    }
}

// Answers a text that is no history.
pub fn refuse_history<W: Write>(fault: BookFault, out: &mut W) -> Result<Status, RunStop>
    ensures leaves { Leaves (λ output. output ≡ (bad_history_text fault, Status.BadInput)) (W.contents out.old)
        (W.contents out.new) result }
    ensures stop { IfErr result IsOutputStop }
{
    put_history_fault(out, fault)?;
    Ok(Status::BadInput)
}

// Answers a history that counts sessions modulo this number, and the topology modulo another.
pub fn refuse_modulus<W: Write>(modulus: u64, out: &mut W) -> Result<Status, RunStop>
    ensures leaves { Leaves (λ output. output ≡ (other_modulus_text modulus, Status.BadInput)) (W.contents out.old)
        (W.contents out.new) result }
    ensures stop { IfErr result IsOutputStop }
{
    put_other_modulus(out, modulus)?;
    Ok(Status::BadInput)
}

// Answers a history by the position of its first entry that isn't allowed where it stands.
pub fn refuse_entry<W: Write>(position: usize, out: &mut W) -> Result<Status, RunStop>
    ensures leaves { Leaves (λ output. output ≡ (not_enabled_text position, Status.NotEnabled)) (W.contents out.old)
        (W.contents out.new) result }
    ensures stop { IfErr result IsOutputStop }
{
    put_not_enabled(out, position)?;
    Ok(Status::NotEnabled)
}

// Answers a history by what it comes to.
pub fn answer_summary<W: Write>(summary: &Summary, out: &mut W) -> Result<Status, RunStop>
    ensures leaves { Leaves
        (λ output. output ≡ (verified_text summary.now.entries summary.now.reports.items, Status.Good))
        (W.contents out.old) (W.contents out.new) result }
    ensures stop { IfErr result IsOutputStop }
{
    put_summary(out, summary.entries, &summary.reports)?;
    Ok(Status::Good)
}

// Writes what a text that is no history is answered with.
fn put_history_fault<W: Write>(out: &mut W, fault: BookFault) -> Result<(), WriteFault>
    ensures ok { OnOk result (Appends (W.contents out.old) (W.contents out.new) (bad_history_text fault)) }
    ensures err { OnErr result (AppendsPrefix (W.contents out.old) (W.contents out.new) (bad_history_text fault)) }
{
    match fault {
        BookFault::BadLine(number) => put_numbered(out, b"bad history BadLine ", number as u64),
        BookFault::BadVersion => put_bytes(out, b"bad history BadVersion\n"),
        BookFault::TooLong => put_bytes(out, b"bad history TooLong\n"),
        BookFault::NoMemory => put_bytes(out, b"bad history NoMemory\n"),
        BookFault::ReadFailed => put_bytes(out, b"bad history ReadFailed\n"),
    }
}

// Writes what a history is answered with that counts sessions modulo this number, and the topology modulo another.
fn put_other_modulus<W: Write>(out: &mut W, modulus: u64) -> Result<(), WriteFault>
    ensures ok { OnOk result (Appends (W.contents out.old) (W.contents out.new) (other_modulus_text modulus)) }
    ensures err { OnErr result (AppendsPrefix (W.contents out.old) (W.contents out.new) (other_modulus_text modulus)) }
{
    put_numbered(out, b"bad history OtherModulus ", modulus)
}

// Writes what a history is answered with whose first refused entry has this position.
pub fn put_not_enabled<W: Write>(out: &mut W, position: usize) -> Result<(), WriteFault>
    ensures ok { OnOk result (Appends (W.contents out.old) (W.contents out.new) (not_enabled_text position)) }
    ensures err { OnErr result (AppendsPrefix (W.contents out.old) (W.contents out.new) (not_enabled_text position)) }
{
    put_numbered(out, b"not enabled at ", position as u64)
}

// Writes what a history of so many entries comes to.
fn put_summary<W: Write>(out: &mut W, entries: usize, reports: &[Report]) -> Result<(), WriteFault>
    ensures ok { OnOk result (Appends (W.contents out.old) (W.contents out.new) (verified_text entries reports.now)) }
    ensures err { OnErr result
        (AppendsPrefix (W.contents out.old) (W.contents out.new) (verified_text entries reports.now)) }
{
    put_reports(out, reports)?;
    put_counts(out, b"verified ", entries, reports.len())
}

fn put_reports<W: Write>(out: &mut W, reports: &[Report]) -> Result<(), WriteFault>
    ensures ok { OnOk result (Appends (W.contents out.old) (W.contents out.new) (flat_map report_line reports.now)) }
    ensures err { OnErr result
        (AppendsPrefix (W.contents out.old) (W.contents out.new) (flat_map report_line reports.now)) }
{
    for report in reports {
        put_report(out, *report)?;
    }
    Ok(())
}

fn put_report<W: Write>(out: &mut W, report: Report) -> Result<(), WriteFault>
    ensures ok { OnOk result (Appends (W.contents out.old) (W.contents out.new) (report_line report)) }
    ensures err { OnErr result (AppendsPrefix (W.contents out.old) (W.contents out.new) (report_line report)) }
{
    let line = line_of_report(report);
    put_bytes(out, line.as_slice())
}

// A report in one piece: a history may have a million, and a call of the writer costs more than a copy.
fn line_of_report(report: Report) -> LineBuffer
    ensures { result ≡ report_line report }
{
    let mut line = LineBuffer::new();
    line.push_text(b"report ");
    line.push_number(u64::from(report.number));
    line.push_text(b" opened ");
    push_position(&mut line, report.opened);
    line.push_text(b" finished ");
    line.push_number(report.finished as u64);
    line.push_text(b"\n");
    line
}

// Adds a position, or a dash where there is none.
fn push_position(line: &mut LineBuffer, position: Option<usize>)
    requires { length line.old + 20 ≤ ROOM }
    ensures pushed { line.new ≡ line.old ++ position_text position }
    ensures length { length line.new ≤ length line.old + 20 }
{
    match position {
        Some(position) => line.push_number(position as u64),
        None => line.push_text(b"-"),
    }
}
