// Where a run starts from a snapshot.

ghost use Rattle.std.specs.Prelude.{◌≡◌, ◌≢◌, ◌≤◌, ℕ, List, IfErr, IfOk, Some, length, option_map, OnErr, OnOk, false, true};
ghost use Rattle.std.specs.Io.KnownBytes.{Appends};
ghost use Rattle.action_tables.specs.Written.{AppendsPrefix};
ghost use Rattle.topology.specs.TopologyText.{IsReadFault};
ghost use Rattle.applications.specs.Choice.{ForApp};
ghost use Rattle.applications.specs.Meaning.{meaning_of};
ghost use Rattle.script_replay.specs.Lines.{GaveText, IsReadFrom};
ghost use Rattle.script_replay.specs.Output.{Leaves};
ghost use Rattle.script_replay.specs.Stops.{IsOutputStop};
ghost use Rattle.script_replay.specs.declared.status.Purpose.{Purpose};
ghost use Rattle.snapshots.specs.Named.{IsSnapshotOf};
ghost use Rattle.reset_service.specs.Opened.{IsOpenedFrom, IsOpenedText};
ghost use Rattle.reset_service.specs.Started.{Answers, IsOpening, IsOpeningFault, IsStartFault};
ghost use Rattle.reset_service.specs.Started.{start_fault_text};

use action_tables::{WriteFault, put_bytes};
use app_invariants::Invariant;
use applications::with_application;
use reset_machine::Config;
use script_replay::{
    Network, Purpose, RunStop, Status, read_network, read_text, refuse_input, refuse_topology,
    run_script,
};
use snapshots::{MAX_SNAPSHOT, SnapshotFault, put_snapshot_fault, read_snapshot};
use std::alloc::Global;
use std::io::{Read, Write};
use topology::ReadFault;

// Why a run can't start from a text.
#[derive(Clone, Copy, Debug, PartialEq, Eq)]
pub enum StartFault {
    // It has more bytes than a snapshot may have.
    TooLong,
    // It is no snapshot of the topology.
    Bad(SnapshotFault),
    // Allocation failed.
    NoMemory,
}

// The configuration of a network that a snapshot names.
pub fn start<P: Invariant>(
    alloc: Global,
    network: Network,
    snapshot: &[u8],
) -> Result<Config<P>, StartFault>
    requires { network.topology.nodes ≡ network.topology.ids }
    ensures short { OnOk result (length snapshot.now ≤ MAX_SNAPSHOT) }
    ensures ok { IfOk result (IsSnapshotOf (meaning_of P.app P.text P.from_text P.names P.counts) network.topology
        network.modulus snapshot.now) }
    ensures err { IfErr result (λ f. f ≢ StartFault.NoMemory
        → IsStartFault (meaning_of P.app P.text P.from_text P.names P.counts) network.topology snapshot.now f) }
{
    let started = start_on::<P>(alloc, &network, snapshot);
    drop(network);
    started
}

// The same of a network that the caller keeps.
fn start_on<P: Invariant>(
    alloc: Global,
    network: &Network,
    snapshot: &[u8],
) -> Result<Config<P>, StartFault>
    requires { network.now.topology.nodes ≡ network.now.topology.ids }
    ensures short { OnOk result (length snapshot.now ≤ MAX_SNAPSHOT) }
    ensures ok { IfOk result (IsSnapshotOf (meaning_of P.app P.text P.from_text P.names P.counts) network.now.topology
        network.now.modulus snapshot.now) }
    ensures err { IfErr result (λ f. f ≢ StartFault.NoMemory
        → IsStartFault (meaning_of P.app P.text P.from_text P.names P.counts) network.now.topology snapshot.now f) }
{
    if snapshot.len() > MAX_SNAPSHOT {
        return Err(StartFault::TooLong);
    }
    match read_snapshot::<P>(alloc, &network.topology, network.modulus, snapshot) {
        Ok(config) => Ok(config),
        Err(SnapshotFault::NoMemory) => Err(StartFault::NoMemory),
        Err(fault) => Err(StartFault::Bad(fault)),
    }
}

// The configuration that a run starts from: the booted one, or the one that a snapshot names.
pub fn open_network<P: Invariant>(
    alloc: Global,
    network: Network,
    snapshot: Option<&[u8]>,
) -> Result<Config<P>, StartFault>
    requires { network.topology.nodes ≡ network.topology.ids }
    ensures ok { IfOk result (IsOpening (meaning_of P.app P.text P.from_text P.names P.counts)
        network.topology network.modulus
        (option_map (λ s. s.now) snapshot.entry)) }
    ensures err { IfErr result (λ f. f ≢ StartFault.NoMemory
        → IsOpeningFault (meaning_of P.app P.text P.from_text P.names P.counts) network.topology
        (option_map (λ s. s.now) snapshot.entry) f) }
{
    match snapshot {
        Some(snapshot) => start(alloc, network, snapshot),
        None => match Config::boot(alloc, network.topology, network.modulus) {
            Ok(config) => Ok(config),
            Err(_) => Err(StartFault::NoMemory),
        },
    }
}

// Writes the line of a text that a run can't start from.
pub fn put_start_fault<W: Write>(out: &mut W, fault: StartFault) -> Result<(), WriteFault>
    ensures ok { OnOk result (Appends (W.contents out.old) (W.contents out.new) (start_fault_text fault)) }
    ensures err { OnErr result (AppendsPrefix (W.contents out.old) (W.contents out.new) (start_fault_text fault)) }
{
    match fault {
        StartFault::TooLong => put_bytes(out, b"bad snapshot TooLong\n"),
        StartFault::Bad(fault) => put_snapshot_fault(out, fault),
        StartFault::NoMemory => put_bytes(out, b"bad snapshot NoMemory\n"),
    }
}

// Answers a text that a run can't start from.
pub fn refuse_start<W: Write>(fault: StartFault, out: &mut W) -> Result<Status, RunStop>
    ensures leaves { Leaves
        (λ output. (fault ≢ StartFault.NoMemory) × (output ≡ (start_fault_text fault, Status.BadInput)))
        (W.contents out.old) (W.contents out.new) result }
    ensures stop { IfErr result IsOutputStop }
{
    match fault {
        StartFault::TooLong => refuse_input(out, b"bad snapshot TooLong\n"),
        StartFault::Bad(fault) => {
            put_snapshot_fault(out, fault)?;
            Ok(Status::BadInput)
        }
        StartFault::NoMemory => Err(RunStop::NoMemory),
    }
}

/// As `replay`, from the configuration that a snapshot of the topology names. The topology is judged first, and the
/// snapshot before the script.
pub fn replay_from<R: Read, W: Write>(
    alloc: Global,
    topology: &[u8],
    snapshot: &[u8],
    script: &mut R,
    out: &mut W,
) -> Result<Status, RunStop>
    ensures leaves { (text : List ℕ) × IsReadFrom (R.remaining script.old) text
        × Leaves (IsOpenedText (Answers Purpose.Replay text) topology.now (Some snapshot.now))
        (W.contents out.old) (W.contents out.new) result }
    ensures taken { OnOk result (GaveText (R.remaining script.old) (R.remaining script.new)) }
    ensures untouched { (f : ReadFault) → IsReadFault topology.now f → script.new ≡ script.old }
{
    run_from(alloc, Purpose::Replay, topology, snapshot, script, out)
}

/// As `check_text`, from the configuration that a snapshot of the topology names. The topology is judged first, and the
/// snapshot before the script.
pub fn check_from<R: Read, W: Write>(
    alloc: Global,
    topology: &[u8],
    snapshot: &[u8],
    script: &mut R,
    out: &mut W,
) -> Result<Status, RunStop>
    ensures leaves { (text : List ℕ) × IsReadFrom (R.remaining script.old) text
        × Leaves (IsOpenedText (Answers (Purpose.Check false) text) topology.now (Some snapshot.now))
        (W.contents out.old) (W.contents out.new) result }
    ensures taken { OnOk result (GaveText (R.remaining script.old) (R.remaining script.new)) }
    ensures untouched { (f : ReadFault) → IsReadFault topology.now f → script.new ≡ script.old }
{
    let purpose = Purpose::Check { repairs: false };
    run_from(alloc, purpose, topology, snapshot, script, out)
}

/// As `check_repairs_text`, from the configuration that a snapshot of the topology names. The topology is judged first, and
/// the snapshot before the script.
pub fn check_repairs_from<R: Read, W: Write>(
    alloc: Global,
    topology: &[u8],
    snapshot: &[u8],
    script: &mut R,
    out: &mut W,
) -> Result<Status, RunStop>
    ensures leaves { (text : List ℕ) × IsReadFrom (R.remaining script.old) text
        × Leaves (IsOpenedText (Answers (Purpose.Check true) text) topology.now (Some snapshot.now))
        (W.contents out.old) (W.contents out.new) result }
    ensures taken { OnOk result (GaveText (R.remaining script.old) (R.remaining script.new)) }
    ensures untouched { (f : ReadFault) → IsReadFault topology.now f → script.new ≡ script.old }
{
    let purpose = Purpose::Check { repairs: true };
    run_from(alloc, purpose, topology, snapshot, script, out)
}

// Runs the script of a reader from a snapshot.
fn run_from<R: Read, W: Write>(
    alloc: Global,
    purpose: Purpose,
    topology: &[u8],
    snapshot: &[u8],
    script: &mut R,
    out: &mut W,
) -> Result<Status, RunStop>
    ensures leaves { (text : List ℕ) × IsReadFrom (R.remaining script.old) text
        × Leaves (IsOpenedText (Answers purpose text) topology.now (Some snapshot.now))
        (W.contents out.old) (W.contents out.new) result }
    ensures taken { OnOk result (GaveText (R.remaining script.old) (R.remaining script.new)) }
    ensures untouched { (f : ReadFault) → IsReadFault topology.now f → script.new ≡ script.old }
{
    match read_network(alloc, topology) {
        Ok(network) => match read_text(alloc, script) {
            Ok(text) => run_app(alloc, purpose, network, snapshot, &text, out),
            Err(stop) => Err(stop),
        },
        Err(fault) => refuse_topology(fault, out),
    }
}

// Runs a script from a snapshot of a network, with the application that it names.
#[tactic(auto, using(applications::proofs::Choosing::by_name))]
fn run_app<W: Write>(
    alloc: Global,
    purpose: Purpose,
    network: Network,
    snapshot: &[u8],
    script: &[u8],
    out: &mut W,
) -> Result<Status, RunStop>
    requires { network.topology.nodes ≡ network.topology.ids }
    ensures leaves { ForApp (λ L m. Leaves
        (IsOpenedFrom m network.topology network.modulus (Some snapshot.now) (Answers purpose script.now L m))
        (W.contents out.old) (W.contents out.new) result) network.app }
    ensures stop { IfErr result IsOutputStop }
{
    with_application!(
        network.app,
        P => run_started::<P, W>(alloc, purpose, network, snapshot, script, out)
    )
}

fn run_started<P: Invariant, W: Write>(
    alloc: Global,
    purpose: Purpose,
    network: Network,
    snapshot: &[u8],
    script: &[u8],
    out: &mut W,
) -> Result<Status, RunStop>
    requires { network.topology.nodes ≡ network.topology.ids }
    ensures leaves { Leaves
        (IsOpenedFrom (meaning_of P.app P.text P.from_text P.names P.counts) network.topology network.modulus
        (Some snapshot.now) (Answers purpose script.now P.Local (meaning_of P.app P.text P.from_text P.names P.counts)))
        (W.contents out.old) (W.contents out.new) result }
    ensures stop { IfErr result IsOutputStop }
{
    match open_network::<P>(alloc, network, Some(snapshot)) {
        Ok(mut config) => run_script(alloc, purpose, &mut config, script, out),
        Err(fault) => refuse_start(fault, out),
    }
}
