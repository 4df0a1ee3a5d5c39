// Sessions on the network of a topology.

ghost use Rattle.std.specs.Prelude.{◌≡◌, option_map};
ghost use Rattle.applications.specs.Choice.{ForApp};
ghost use Rattle.applications.specs.Meaning.{meaning_of};
ghost use Rattle.script_replay.specs.Output.{Leaves};
ghost use Rattle.topology.specs.TopologyText.{IsReadFault};
ghost use Rattle.reset_service.specs.Held.{HoldsFrom, HoldsKept, HoldsNew, HoldsOf, HoldsOn, HoldsText, HoldsUnkept};
ghost use Rattle.reset_service.specs.Held.{IsPastOutput, session_run, status_of};

use crate::started::{refuse_start, start};
use crate::verified::{refuse_entry, refuse_history, refuse_modulus};
use app_interface::Application;
use app_invariants::Invariant;
use applications::with_application;
use history::{BookFault, ReaderFault, VerifyFault};
use live_session::{ResumeStop, begin_history, resume_history, run_session};
use reset_machine::Config;
use script_replay::{Network, RunStop, Status, read_network, refuse_topology};
use std::alloc::Global;
use std::io::{Read, Write};
use topology::ReadFault;

/// The history that a session keeps.
#[derive(Drop)]
pub enum Past<F: Drop> {
    /// None is kept.
    Unkept,
    /// One that begins with the session.
    New,
    /// One that goes on: what the reader gives.
    Kept(F),
}

/// Answers commands as a reader gives them, on the network of a topology text: from its booted configuration, or from
/// that which a snapshot names, or, where a history is kept that goes on, from what its entries leave. The topology is
/// judged first, then the snapshot, and then the history; what is bad leaves the input and the log as they were.
pub fn session_text<F: Read + Drop, R: Read, H: Write, W: Write>(
    alloc: Global,
    topology: &[u8],
    snapshot: Option<&[u8]>,
    past: Past<F>,
    input: &mut R,
    log: &mut H,
    out: &mut W,
) -> Result<Status, RunStop>
    ensures holds { HoldsText topology.now (HoldsOf F.remaining past (option_map (λ text. text.now) snapshot.entry))
        (session_run (R.remaining input.old) (H.contents log.old) (H.contents log.new) (W.contents out.old)
        (W.contents out.new) result) }
    ensures untouched { (f : ReadFault) → IsReadFault topology.now f → input.new ≡ input.old }
{
    match read_network(alloc, topology) {
        Ok(network) => session_app(alloc, network, snapshot, past, input, log, out),
        Err(fault) => refuse_topology(fault, out),
    }
}

// A session on a network, with the application that it names.
#[tactic(auto, using(applications::proofs::Choosing::by_name))]
fn session_app<F: Read + Drop, R: Read, H: Write, W: Write>(
    alloc: Global,
    network: Network,
    snapshot: Option<&[u8]>,
    past: Past<F>,
    input: &mut R,
    log: &mut H,
    out: &mut W,
) -> Result<Status, RunStop>
    requires { network.topology.nodes ≡ network.topology.ids }
    ensures { ForApp (λ L m. HoldsOn m network.topology network.modulus (option_map (λ text. text.now) snapshot.entry)
        (HoldsFrom F.remaining past m)
        (session_run (R.remaining input.old) (H.contents log.old) (H.contents log.new) (W.contents out.old)
        (W.contents out.new) result)) network.app }
{
    with_application!(
        network.app,
        P => session_on::<P, F, R, H, W>(alloc, network, snapshot, past, input, log, out)
    )
}

fn session_on<P: Invariant, F: Read + Drop, R: Read, H: Write, W: Write>(
    alloc: Global,
    network: Network,
    snapshot: Option<&[u8]>,
    past: Past<F>,
    input: &mut R,
    log: &mut H,
    out: &mut W,
) -> Result<Status, RunStop>
    requires { network.topology.nodes ≡ network.topology.ids }
    ensures { HoldsOn (meaning_of P.app P.text P.from_text P.names P.counts)
        network.topology network.modulus (option_map (λ text. text.now) snapshot.entry)
        (HoldsFrom F.remaining past (meaning_of P.app P.text P.from_text P.names P.counts))
        (session_run (R.remaining input.old) (H.contents log.old) (H.contents log.new) (W.contents out.old)
        (W.contents out.new) result) }
{
    match snapshot {
        None => session_booted::<P, F, R, H, W>(alloc, network, past, input, log, out),
        Some(snapshot) => {
            session_started::<P, F, R, H, W>(alloc, network, snapshot, past, input, log, out)
        }
    }
}

// A session from the booted configuration of a network.
fn session_booted<P: Invariant, F: Read + Drop, R: Read, H: Write, W: Write>(
    alloc: Global,
    network: Network,
    past: Past<F>,
    input: &mut R,
    log: &mut H,
    out: &mut W,
) -> Result<Status, RunStop>
    ensures { HoldsOn (meaning_of P.app P.text P.from_text P.names P.counts) network.topology network.modulus None
        (HoldsFrom F.remaining past (meaning_of P.app P.text P.from_text P.names P.counts))
        (session_run (R.remaining input.old) (H.contents log.old) (H.contents log.new) (W.contents out.old)
        (W.contents out.new) result) }
{
    match Config::<P>::boot(alloc, network.topology, network.modulus) {
        Ok(opening) => session_from(alloc, opening, past, input, log, out),
        Err(_) => Err(RunStop::NoMemory),
    }
}

// A session from the configuration of a network that a snapshot names.
fn session_started<P: Invariant, F: Read + Drop, R: Read, H: Write, W: Write>(
    alloc: Global,
    network: Network,
    snapshot: &[u8],
    past: Past<F>,
    input: &mut R,
    log: &mut H,
    out: &mut W,
) -> Result<Status, RunStop>
    requires { network.topology.nodes ≡ network.topology.ids }
    ensures { HoldsOn (meaning_of P.app P.text P.from_text P.names P.counts)
        network.topology network.modulus (Some snapshot.now)
        (HoldsFrom F.remaining past (meaning_of P.app P.text P.from_text P.names P.counts))
        (session_run (R.remaining input.old) (H.contents log.old) (H.contents log.new) (W.contents out.old)
        (W.contents out.new) result) }
{
    match start::<P>(alloc, network, snapshot) {
        Ok(opening) => session_from(alloc, opening, past, input, log, out),
        Err(fault) => refuse_start(fault, out),
    }
}

// A session from this configuration on.
fn session_from<P: Invariant, F: Read + Drop, R: Read, H: Write, W: Write>(
    alloc: Global,
    opening: Config<P>,
    past: Past<F>,
    input: &mut R,
    log: &mut H,
    out: &mut W,
) -> Result<Status, RunStop>
    ensures { HoldsFrom F.remaining past (meaning_of P.app P.text P.from_text P.names P.counts) opening
        (session_run (R.remaining input.old) (H.contents log.old) (H.contents log.new) (W.contents out.old)
        (W.contents out.new) result) }
{
    match past {
        Past::Unkept => hold(alloc, opening, input, log, out),
        Past::New => begin(alloc, opening, input, log, out),
        Past::Kept(mut reader) => resume(alloc, opening, &mut reader, input, log, out),
    }
}

// A session without a history.
fn hold<P: Invariant, R: Read, H: Write, W: Write>(
    alloc: Global,
    opening: Config<P>,
    input: &mut R,
    log: &mut H,
    out: &mut W,
) -> Result<Status, RunStop>
    ensures { HoldsUnkept (meaning_of P.app P.text P.from_text P.names P.counts) opening
        (session_run (R.remaining input.old) (H.contents log.old) (H.contents log.new) (W.contents out.old)
        (W.contents out.new) result) }
{
    end_session(run_session(alloc, opening, None, input, log, out))
}

// A session with a new history.
fn begin<P: Invariant, R: Read, H: Write, W: Write>(
    alloc: Global,
    opening: Config<P>,
    input: &mut R,
    log: &mut H,
    out: &mut W,
) -> Result<Status, RunStop>
    ensures { HoldsNew (meaning_of P.app P.text P.from_text P.names P.counts) opening
        (session_run (R.remaining input.old) (H.contents log.old) (H.contents log.new) (W.contents out.old)
        (W.contents out.new) result) }
{
    end_session(begin_history(alloc, opening, input, log, out))
}

// A session that goes on after the history that a reader gives.
fn resume<P: Invariant, F: Read, R: Read, H: Write, W: Write>(
    alloc: Global,
    opening: Config<P>,
    past: &mut F,
    input: &mut R,
    log: &mut H,
    out: &mut W,
) -> Result<Status, RunStop>
    ensures { HoldsKept (meaning_of P.app P.text P.from_text P.names P.counts) opening (F.remaining past.old)
        (session_run (R.remaining input.old) (H.contents log.old) (H.contents log.new) (W.contents out.old)
        (W.contents out.new) result) }
{
    match resume_history(alloc, opening, past, input, log, out) {
        Ok(left) => {
            drop(left);
            Ok(Status::Good)
        }
        Err(ResumeStop::Past(fault)) => refuse_past(fault, out),
        Err(ResumeStop::Run(stop)) => Err(stop),
    }
}

// The status of a session that ended so.
fn end_session<P: Application>(ended: Result<Config<P>, RunStop>) -> Result<Status, RunStop>
    ensures { result ≡ status_of ended }
{
    match ended {
        Ok(left) => {
            drop(left);
            Ok(Status::Good)
        }
        Err(stop) => Err(stop),
    }
}

// Answers a history from which no session can go on.
fn refuse_past<W: Write>(fault: ReaderFault, out: &mut W) -> Result<Status, RunStop>
    ensures { Leaves (IsPastOutput fault) (W.contents out.old) (W.contents out.new) result }
{
    match fault {
        ReaderFault::Text(BookFault::NoMemory) => Err(RunStop::NoMemory),
        ReaderFault::Text(BookFault::ReadFailed) => Err(RunStop::ReadFailed),
        ReaderFault::Text(fault) => refuse_history(fault, out),
        ReaderFault::OtherModulus(modulus) => refuse_modulus(modulus, out),
        ReaderFault::Entries(VerifyFault::NotEnabledAt(position)) => refuse_entry(position, out),
        ReaderFault::Entries(VerifyFault::NoMemory) => Err(RunStop::NoMemory),
    }
}
