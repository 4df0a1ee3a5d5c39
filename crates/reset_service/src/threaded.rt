// Runs of node threads, from a booted configuration or a snapshot.

ghost use Rattle.std.specs.Prelude.{◌≡◌, ◌≤◌, ℕ, List, [], length, option_map, IfErr, IfOk, IsTrue, None, Ok};
ghost use Rattle.std.specs.List.{list_all};
ghost use Rattle.applications.specs.Choice.{ForApp};
ghost use Rattle.applications.specs.Meaning.{meaning_of};
ghost use Rattle.history.specs.HistoryText.{IsReadAs};
ghost use Rattle.history.specs.declared.entry.Entry.{Entry};
ghost use Rattle.node_threads.specs.Locked.{is_step};
ghost use Rattle.reset_service.specs.Begun.{IsBegunText, RunsThreads};
ghost use Rattle.reset_service.specs.Opened.{IsOpenedFrom};
ghost use Rattle.reset_service.specs.Selected.{IsSelected, IsSelectedText, IsToldOf, RunsSelected, task_of};
ghost use Rattle.reset_service.specs.Threaded.{IsKept, IsThreaded, LeavesBoth, told_history, told_output};
ghost use Rattle.script_replay.specs.Stops.{IsRunStop};

use crate::started::{StartFault, open_network};
use crate::told::{Kept, Told, put_history, put_told, status_of};
use app_interface::Application;
use app_invariants::Invariant;
use applications::with_application;
use history::{
    Book, BookFault, MAX_ENTRIES, ReaderFault, VerifyFault, one_reading_a_text, verify_reader,
};
use node_threads::{Gate, RunCause, Task, TurnLimit, run_nodes_as};
use reset_machine::Config;
use script_replay::{Network, RunStop, Status, read_network, text_of};
use std::alloc::Global;
use std::io::Write;
use std::sync::Wait;
use std::thread::Threads;
use topology::ReadFault;

// A gate that nobody watches.
struct NoGate;

impl Gate for NoGate {
    fn planned(&self, _node: u32) {}

    fn committed(&self, _node: u32) {}
}

/// What node threads do in a run.
#[derive(Clone, Copy, Debug, PartialEq, Eq)]
pub struct ThreadRun {
    /// How many turns each node takes.
    pub turns: TurnLimit,
    /// The node that asks for resets. None: the least that is up.
    pub selected: Option<u32>,
    /// How many resets it asks for.
    pub resets: u32,
}

/// Runs a thread for each node of a topology text from its booted configuration on: the node with the least
/// identifier asks for a reset, and then each takes so many turns. Writes the history that they keep to one
/// writer, and then to the other how many nodes there are, and how many entries and reports the history has.
///
/// The history is written only where a verification from the booted configuration takes it too. Nothing is
/// written before the threads have ended. A run ends where the history has a million entries.
pub fn threads_text<R: Threads + Wait + Sync, H: Write, W: Write>(
    rt: &R,
    alloc: Global,
    topology: &[u8],
    turns: u32,
    history: &mut H,
    out: &mut W,
) -> Result<Status, RunStop>
    requires { turns ≤ 100000 }
    ensures { LeavesBoth (IsThreaded topology.now) (H.contents history.old) (H.contents history.new)
        (W.contents out.old) (W.contents out.new) result }
{
    let told = run_text(rt, alloc, topology, turns)?;
    put_history(history, &told)?;
    put_told(out, &told)?;
    Ok(status_of(&told))
}

// Runs the threads of a topology text from its booted configuration.
fn run_text<R: Threads + Wait + Sync>(
    rt: &R,
    alloc: Global,
    topology: &[u8],
    turns: u32,
) -> Result<Told, RunStop>
    ensures ok { IfOk result (λ told. IsThreaded topology.now (told_history told) (told_output told)) }
    ensures stop { IfErr result IsRunStop }
{
    run_selected(rt, alloc, topology, None, plain_run(turns))
}

/// As `threads_text`, from the configuration that a snapshot of the topology names in place of the booted one. The
/// topology is judged first, and the snapshot before the number of nodes. A snapshot that can't be started from leaves no
/// history.
pub fn threads_from<R: Threads + Wait + Sync, H: Write, W: Write>(
    rt: &R,
    alloc: Global,
    topology: &[u8],
    snapshot: &[u8],
    turns: u32,
    history: &mut H,
    out: &mut W,
) -> Result<Status, RunStop>
    requires { turns ≤ 100000 }
    ensures { LeavesBoth (IsBegunText RunsThreads topology.now snapshot.now) (H.contents history.old)
        (H.contents history.new) (W.contents out.old) (W.contents out.new) result }
{
    let told = run_text_from(rt, alloc, topology, snapshot, turns)?;
    put_history(history, &told)?;
    put_told(out, &told)?;
    Ok(status_of(&told))
}

// Runs the threads of a topology text from a snapshot.
fn run_text_from<R: Threads + Wait + Sync>(
    rt: &R,
    alloc: Global,
    topology: &[u8],
    snapshot: &[u8],
    turns: u32,
) -> Result<Told, RunStop>
    ensures ok { IfOk result (λ told. IsBegunText RunsThreads topology.now snapshot.now (told_history told)
        (told_output told)) }
    ensures stop { IfErr result IsRunStop }
{
    run_selected(rt, alloc, topology, Some(snapshot), plain_run(turns))
}

// A run in which the least node asks once, and each node takes so many turns.
fn plain_run(turns: u32) -> ThreadRun
    ensures { result.selected ≡ None }
{
    ThreadRun {
        turns: TurnLimit::AtMost(turns),
        selected: None,
        resets: 1,
    }
}

/// Runs a thread for each node of a topology text from its booted configuration or, where one is given, from the
/// configuration that a snapshot of it names: the selected node asks for a reset, and again each time it is normal, so
/// often in all, and each node takes its turns. Writes the history that they keep to one writer, and then to the other
/// how many nodes there are, and how many entries and reports the history has.
///
/// The topology is judged first, then the snapshot, then whether the selected node is there and up, and then the number
/// of nodes; none of these faults leaves a history. The history is written only where a verification takes it too, and
/// nothing before the threads have ended.
pub fn threads_run<R: Threads + Wait + Sync, H: Write, W: Write>(
    rt: &R,
    alloc: Global,
    topology: &[u8],
    snapshot: Option<&[u8]>,
    run: ThreadRun,
    history: &mut H,
    out: &mut W,
) -> Result<Status, RunStop>
    ensures { LeavesBoth (IsSelectedText run topology.now (option_map (λ s. s.now) snapshot.entry))
        (H.contents history.old) (H.contents history.new) (W.contents out.old) (W.contents out.new) result }
{
    let told = run_selected(rt, alloc, topology, snapshot, run)?;
    put_history(history, &told)?;
    put_told(out, &told)?;
    Ok(status_of(&told))
}

// Runs the threads of a topology text, and of a snapshot where one is given.
fn run_selected<R: Threads + Wait + Sync>(
    rt: &R,
    alloc: Global,
    topology: &[u8],
    snapshot: Option<&[u8]>,
    run: ThreadRun,
) -> Result<Told, RunStop>
    ensures ok { IfOk result (λ told. IsSelectedText run topology.now (option_map (λ s. s.now) snapshot.entry)
        (told_history told) (told_output told)) }
    ensures stop { IfErr result IsRunStop }
{
    match read_network(alloc, topology) {
        Ok(network) => run_app(rt, alloc, network, snapshot, run),
        Err(ReadFault::NoMemory) => Err(RunStop::NoMemory),
        Err(fault) => Ok(Told::BadTopology(fault)),
    }
}

// Runs the threads of a network, with the application that it names.
#[tactic(auto, using(applications::proofs::Choosing::by_name))]
fn run_app<R: Threads + Wait + Sync>(
    rt: &R,
    alloc: Global,
    network: Network,
    snapshot: Option<&[u8]>,
    run: ThreadRun,
) -> Result<Told, RunStop>
    requires { network.topology.nodes ≡ network.topology.ids }
    ensures ok { ForApp (λ L m. IfOk result (λ told. IsOpenedFrom m network.topology network.modulus
        (option_map (λ s. s.now) snapshot.entry) (RunsSelected run (told_history told) L m) (told_output told)))
        network.app }
    ensures unkept { IfOk result (λ told. (told_output told).1 ≡ Status.BadInput → told_history told ≡ []) }
    ensures stop { IfErr result IsRunStop }
{
    with_application!(network.app, P => run_opened::<P, R>(rt, alloc, network, snapshot, run))
}

fn run_opened<P: Invariant, R: Threads + Wait + Sync>(
    rt: &R,
    alloc: Global,
    network: Network,
    snapshot: Option<&[u8]>,
    run: ThreadRun,
) -> Result<Told, RunStop>
    requires { network.topology.nodes ≡ network.topology.ids }
    ensures ok { IfOk result
        (λ told. IsOpenedFrom (meaning_of P.app P.text P.from_text P.names P.counts) network.topology network.modulus
        (option_map (λ s. s.now) snapshot.entry)
        (RunsSelected run (told_history told) P.Local (meaning_of P.app P.text P.from_text P.names P.counts))
        (told_output told)) }
    ensures unkept { IfOk result (λ told. (told_output told).1 ≡ Status.BadInput → told_history told ≡ []) }
    ensures stop { IfErr result IsRunStop }
{
    match open_network::<P>(alloc, network, snapshot) {
        Ok(opening) => run_from(rt, alloc, opening, run),
        Err(StartFault::NoMemory) => Err(RunStop::NoMemory),
        Err(fault) => Ok(Told::BadSnapshot(fault)),
    }
}

// Runs the threads from this configuration on. What they keep is judged from a copy of it.
fn run_from<P: Invariant, R: Threads + Wait + Sync>(
    rt: &R,
    alloc: Global,
    opening: Config<P>,
    run: ThreadRun,
) -> Result<Told, RunStop>
    ensures ok { IfOk result (λ told. IsSelected (meaning_of P.app P.text P.from_text P.names P.counts) run opening
        (told_history told) (told_output told)) }
    ensures unkept { IfOk result (λ told. (told_output told).1 ≡ Status.BadInput → told_history told ≡ []) }
    ensures stop { IfErr result IsRunStop }
{
    let task = task_of(run, &opening);
    let book = Book::open_book(alloc, opening.copy(alloc)?, MAX_ENTRIES);
    match run_nodes_as(rt, alloc, &NoGate, book, task) {
        Ok(outcome) => {
            let told = judge(alloc, opening, &outcome.book);
            drop(outcome);
            told
        }
        Err(fault) => {
            let cause = fault.cause;
            drop(fault);
            drop(opening);
            stopped_by(run, cause)
        }
    }
}

// The task of the nodes in a run, where the least one that is up is selected unless another is.
fn task_of<P: Application>(run: ThreadRun, opening: &Config<P>) -> Task
    ensures { result ≡ task_of run opening.now.graph }
{
    let ThreadRun {
        turns,
        selected,
        resets,
    } = run;
    let selected = match selected {
        Some(node) => Some(node),
        None => opening.topology().nodes().first().copied(),
    };
    Task {
        turns,
        selected,
        resets,
    }
}

// What a run comes to whose threads gave no outcome. The least node is never a strange one.
fn stopped_by(run: ThreadRun, cause: RunCause) -> Result<Told, RunStop>
    ensures told { IfOk result (IsToldOf run cause) }
    ensures stop { IfErr result IsRunStop }
{
    match cause {
        RunCause::StrangeNode => match run.selected {
            Some(_) => Ok(Told::StrangeNode),
            None => Err(RunStop::NotClosed),
        },
        RunCause::TooManyForThreads => Ok(Told::TooManyNodes),
        RunCause::NoThread => Err(RunStop::ThreadFailed),
        RunCause::Close(_) => Err(RunStop::NotClosed),
        RunCause::NoMemory => Err(RunStop::NoMemory),
    }
}

// Judges the history that was kept from an opening on, which is written where its verification takes it. Its text has the
// book's entries alone.
fn judge<P: Invariant>(alloc: Global, opening: Config<P>, book: &Book<P>) -> Result<Told, RunStop>
    requires few { length opening.graph.nodes ≤ 64 }
    requires steps { IsTrue (list_all is_step book.now.entries) }
    ensures ok { IfOk result (λ told. IsKept (meaning_of P.app P.text P.from_text P.names P.counts) opening
        (told_history told) (told_output told)) }
    ensures text { IfOk result (λ told. (modulus : ℕ) (es : List Entry)
        → IsReadAs (told_history told) (Ok (modulus, es)) → es ≡ book.now.entries) }
    ensures unkept { IfOk result (λ told. (told_output told).1 ≡ Status.BadInput → told_history told ≡ []) }
    ensures stop { IfErr result IsRunStop }
{
    one_reading_a_text();
    let nodes = opening.topology().node_count();
    let history = text_of(alloc, book)?;
    let mut rest = history.as_slice();
    match verify_reader(alloc, opening, &mut rest) {
        Ok(summary) => {
            let reports = summary.reports.as_slice();
            Ok(Told::Kept(Kept {
                history,
                nodes,
                entries: summary.entries,
                reports: reports.len(),
            }))
        }
        Err(fault) => Err(stop_of(fault)),
    }
}

// What stops a run whose history isn't taken. Its text names the opening's modulus, which no step changes.
fn stop_of(fault: ReaderFault) -> RunStop
    ensures { IsRunStop result }
{
    match fault {
        ReaderFault::Text(BookFault::NoMemory) | ReaderFault::Entries(VerifyFault::NoMemory) => {
            RunStop::NoMemory
        }
        ReaderFault::Text(_) | ReaderFault::OtherModulus(_) | ReaderFault::Entries(_) => {
            RunStop::NotClosed
        }
    }
}
