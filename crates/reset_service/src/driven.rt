// Runs of the seeded scheduler, from a booted configuration or a snapshot.

ghost use Rattle.std.specs.Prelude.{◌≡◌, [], IfErr, IfOk};
ghost use Rattle.applications.specs.Choice.{ForApp};
ghost use Rattle.applications.specs.Meaning.{meaning_of};
ghost use Rattle.reset_service.specs.Begun.{Drives, IsBegunFrom, IsBegunText};
ghost use Rattle.reset_service.specs.Drove.{IsDrove, IsDroveFrom, IsDroveText};
ghost use Rattle.script_replay.specs.Stops.{IsRunStop};
ghost use Rattle.reset_service.specs.Threaded.{LeavesBoth, told_history, told_output};

use crate::started::{StartFault, start};
use crate::told::{Told, put_history, put_told, status_of};
use app_invariants::Invariant;
use applications::with_application;
use history::books_read_back;
use progress::Progress;
use reset_machine::Config;
use scheduler::driven_history;
use script_replay::{Network, RunStop, Status, read_network};
use std::alloc::{AllocError, Global};
use std::io::Write;
use topology::ReadFault;

/// How a seeded scheduler is to drive a network.
#[derive(Clone, Copy, Debug, PartialEq, Eq)]
pub struct Drive {
    /// How many steps it takes.
    pub steps: u32,
    /// What its random words are drawn by.
    pub seed: u32,
    /// In how many of a thousand cases a step is a fault.
    pub faults: u32,
}

/// Drives the network of a topology text by a seeded scheduler, from its booted configuration on. Writes the history of
/// what it did to one writer, and then to the other how many entries and reports the history has.
///
/// The same words give the same history (`one_driven_run`). A verification takes it (`driven_runs_are_verified`).
/// Nothing is written before the last step. A history has at most a million entries. Sets `progress` to how many
/// steps are taken.
pub fn drive_text<H: Write, W: Write>(
    alloc: Global,
    topology: &[u8],
    run: Drive,
    progress: &Progress,
    history: &mut H,
    out: &mut W,
) -> Result<Status, RunStop>
    ensures { LeavesBoth (IsDroveText run.steps run.seed run.faults topology.now) (H.contents history.old)
        (H.contents history.new) (W.contents out.old) (W.contents out.new) result }
{
    let told = drive_topology(alloc, topology, run, progress)?;
    put_history(history, &told)?;
    put_told(out, &told)?;
    Ok(status_of(&told))
}

// Drives the network of a topology text.
fn drive_topology(
    alloc: Global,
    topology: &[u8],
    run: Drive,
    progress: &Progress,
) -> Result<Told, RunStop>
    ensures ok { IfOk result
        (λ told. IsDroveText run.steps run.seed run.faults topology.now (told_history told) (told_output told)) }
    ensures stop { IfErr result IsRunStop }
{
    match read_network(alloc, topology) {
        Ok(network) => drive_app(alloc, network, run, progress),
        Err(ReadFault::NoMemory) => Err(RunStop::NoMemory),
        Err(fault) => Ok(Told::BadTopology(fault)),
    }
}

// Drives a network with the application that it names.
#[tactic(auto, using(applications::proofs::Choosing::by_name))]
fn drive_app(
    alloc: Global,
    network: Network,
    run: Drive,
    progress: &Progress,
) -> Result<Told, RunStop>
    ensures ok { ForApp (λ L m. IfOk result
        (λ told. IsDroveFrom m run.steps run.seed run.faults network.topology network.modulus
        (told_history told) (told_output told))) network.app }
    ensures undriven { IfOk result (λ told. (told_output told).1 ≡ Status.BadInput → told_history told ≡ []) }
    ensures stop { IfErr result IsRunStop }
{
    with_application!(network.app, P => drive_booted::<P>(alloc, network, run, progress))
}

fn drive_booted<P: Invariant>(
    alloc: Global,
    network: Network,
    run: Drive,
    progress: &Progress,
) -> Result<Told, RunStop>
    ensures ok { IfOk result
        (λ told. IsDroveFrom (meaning_of P.app P.text P.from_text P.names P.counts) run.steps run.seed run.faults
        network.topology network.modulus (told_history told) (told_output told)) }
    ensures undriven { IfOk result (λ told. (told_output told).1 ≡ Status.BadInput → told_history told ≡ []) }
    ensures stop { IfErr result IsRunStop }
{
    match Config::<P>::boot(alloc, network.topology, network.modulus) {
        Ok(opening) => drive_opened(alloc, opening, run, progress),
        Err(_) => Err(RunStop::NoMemory),
    }
}

/// As `drive_text`, from the configuration that a snapshot of the topology names in place of the booted one. The topology
/// is judged first. A snapshot that can't be started from leaves no history.
pub fn drive_from<H: Write, W: Write>(
    alloc: Global,
    topology: &[u8],
    snapshot: &[u8],
    run: Drive,
    progress: &Progress,
    history: &mut H,
    out: &mut W,
) -> Result<Status, RunStop>
    ensures { LeavesBoth (IsBegunText (Drives run.steps run.seed run.faults) topology.now snapshot.now)
        (H.contents history.old) (H.contents history.new) (W.contents out.old) (W.contents out.new) result }
{
    let told = drive_topology_from(alloc, topology, snapshot, run, progress)?;
    put_history(history, &told)?;
    put_told(out, &told)?;
    Ok(status_of(&told))
}

// Drives the network of a topology text from a snapshot.
fn drive_topology_from(
    alloc: Global,
    topology: &[u8],
    snapshot: &[u8],
    run: Drive,
    progress: &Progress,
) -> Result<Told, RunStop>
    ensures ok { IfOk result
        (λ told. IsBegunText (Drives run.steps run.seed run.faults) topology.now snapshot.now
        (told_history told) (told_output told)) }
    ensures stop { IfErr result IsRunStop }
{
    match read_network(alloc, topology) {
        Ok(network) => drive_app_from(alloc, network, snapshot, run, progress),
        Err(ReadFault::NoMemory) => Err(RunStop::NoMemory),
        Err(fault) => Ok(Told::BadTopology(fault)),
    }
}

// Drives a network from a snapshot, with the application that it names.
#[tactic(auto, using(applications::proofs::Choosing::by_name))]
fn drive_app_from(
    alloc: Global,
    network: Network,
    snapshot: &[u8],
    run: Drive,
    progress: &Progress,
) -> Result<Told, RunStop>
    requires { network.topology.nodes ≡ network.topology.ids }
    ensures ok { ForApp (λ L m. IfOk result
        (λ told. IsBegunFrom m network.topology network.modulus snapshot.now
        (Drives run.steps run.seed run.faults L m) (told_history told) (told_output told))) network.app }
    ensures stop { IfErr result IsRunStop }
{
    with_application!(network.app, P => drive_started::<P>(alloc, network, snapshot, run, progress))
}

fn drive_started<P: Invariant>(
    alloc: Global,
    network: Network,
    snapshot: &[u8],
    run: Drive,
    progress: &Progress,
) -> Result<Told, RunStop>
    requires { network.topology.nodes ≡ network.topology.ids }
    ensures ok { IfOk result
        (λ told. IsBegunFrom (meaning_of P.app P.text P.from_text P.names P.counts)
        network.topology network.modulus snapshot.now
        (Drives run.steps run.seed run.faults P.Local (meaning_of P.app P.text P.from_text P.names P.counts))
        (told_history told) (told_output told)) }
    ensures stop { IfErr result IsRunStop }
{
    match start::<P>(alloc, network, snapshot) {
        Ok(opening) => drive_opened(alloc, opening, run, progress),
        Err(StartFault::NoMemory) => Err(RunStop::NoMemory),
        Err(fault) => Ok(Told::BadSnapshot(fault)),
    }
}

// Drives a network from this configuration on.
fn drive_opened<P: Invariant>(
    alloc: Global,
    opening: Config<P>,
    run: Drive,
    progress: &Progress,
) -> Result<Told, RunStop>
    ensures ok { IfOk result
        (λ told. IsDrove (meaning_of P.app P.text P.from_text P.names P.counts) opening run.steps run.seed run.faults
        (told_history told) (told_output told)) }
    ensures undriven { IfOk result (λ told. (told_output told).1 ≡ Status.BadInput → told_history told ≡ []) }
    ensures stop { IfErr result IsRunStop }
{
    books_read_back::<P>();
    match driven_history(alloc, opening, run.steps, run.seed, run.faults, progress) {
        Ok(history) => Ok(Told::Driven(history)),
        Err(AllocError) => Err(RunStop::NoMemory),
    }
}
