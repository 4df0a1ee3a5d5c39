// Runs: a thread for each node of a book.

ghost use Rattle.std.specs.Prelude.{◌≡◌, ◌≢◌, ◌+◌, ◌<◌, ◌≤◌, All, IfErr, IfOk, IsTrue, false};
ghost use Rattle.std.specs.Prelude.{length, map, ℕ};
ghost use Rattle.node_threads.specs.Closed.{HasCloseFault, IsClosed, list_of};
ghost use Rattle.node_threads.specs.Locked.{IsContinued};
ghost use Rattle.node_threads.specs.Requests.{AsksAtMost};
ghost use Rattle.node_threads.specs.Runs.{IsOutcome, IsStopped, IsStrange, IsThere};
ghost use Rattle.node_threads.specs.Seats.{nodes_of};

use crate::closing::{CloseFault, Outcome, close_unlocked};
use crate::refusal::ShareFault;
use crate::round::Sharing;
use crate::seat::Seat;
use crate::sharing::{MAX_SEATS, Shared, share};
use crate::tasks::{Task, TurnLimit};
use crate::threads::in_threads;
use crate::turns::Gate;
use crate::unlocked::Unlocked;
use app_interface::Application;
use history::Book;
use std::alloc::Global;
use std::marker::Brand;
use std::sync::Wait;
use std::sync::ledger::Blank;
use std::thread::Threads;
use wave_layer::Phase;

/// Why a run of node threads gives no outcome, in the order in which faults are given.
#[derive(Clone, Copy, Debug, PartialEq, Eq)]
pub enum RunCause {
    /// The selected node isn't a node of the topology.
    StrangeNode,
    /// There are over 64 nodes.
    TooManyForThreads,
    /// A thread couldn't be started, for whatever cause. Those that were started are joined first.
    NoThread,
    /// The seats don't close the sharing.
    Close(CloseFault),
    /// An allocation failed.
    NoMemory,
}

/// Why a run gives no outcome, with the book as it is then.
#[derive(Drop)]
pub struct RunFault<P: Application> {
    pub cause: RunCause,
    pub book: Book<P>,
}

/// Runs each node in a thread of its own: the selected node asks for a reset, and then each takes so many
/// turns. A full book ends a node's turns, and isn't a fault. A failed allocation ends the turns of its node
/// alone.
pub fn run_nodes<P: Application, G: Gate + Sync, R: Threads + Wait + Sync>(
    rt: &R,
    alloc: Global,
    gate: &G,
    book: Book<P>,
    turns: u32,
    selected: Option<u32>,
) -> Result<Outcome<P>, RunFault<P>>
    requires { turns ≤ 100000 }
    ensures ok { IfOk result (λ o. IsOutcome P.app P.from_text book selected o.book o.seats.items) }
    ensures err { IfErr result (λ e. IsStopped P.app P.from_text book selected e.cause e.book) }
{
    let resets = requests_of(&book, selected);
    let turns = TurnLimit::AtMost(turns);
    let task = Task {
        turns,
        selected,
        resets,
    };
    run_nodes_as(rt, alloc, gate, book, task)
}

// How many resets the selected node asks for where it asks once: a node that isn't normal is refused, and asks no more.
fn requests_of<P: Application>(book: &Book<P>, selected: Option<u32>) -> u32 {
    match selected {
        Some(node) => match book.config().wave_at(node) {
            Some(regs) if regs.phase == Phase::Normal => 1,
            _ => 0,
        },
        None => 0,
    }
}

/// Runs each node in a thread of its own, by this task: the selected node asks for a reset, and again each time it is
/// normal, so often in all, and each takes its turns. A request that is refused is made again when the node is normal.
/// No other node asks for any. A full book ends a node's turns, and isn't a fault. A failed allocation ends the turns
/// of its node alone.
pub fn run_nodes_as<P: Application, G: Gate + Sync, R: Threads + Wait + Sync>(
    rt: &R,
    alloc: Global,
    gate: &G,
    book: Book<P>,
    task: Task,
) -> Result<Outcome<P>, RunFault<P>>
    ensures ok { IfOk result (λ o. IsOutcome P.app P.from_text book task.selected o.book o.seats.items) }
    ensures asked { IfOk result (λ o. AsksAtMost task book o.book) }
    ensures err { IfErr result (λ e. IsStopped P.app P.from_text book task.selected e.cause e.book) }
{
    lemma_stands(&book);
    if !is_there(&book, task.selected) {
        let cause = RunCause::StrangeNode;
        return Err(RunFault { cause, book });
    }
    let nodes = book.config().topology().node_count();
    if nodes > MAX_SEATS {
        let cause = RunCause::TooManyForThreads;
        return Err(RunFault { cause, book });
    }
    run_round::<Brand, P, G, R>(rt, alloc, Blank::new(nodes as u64 + 1), gate, book, task)
}

// Whether the selected node, if there is one, is a node of the book.
fn is_there<P: Application>(book: &Book<P>, selected: Option<u32>) -> bool
    ensures there { IsTrue result → IsThere book.now selected }
    ensures strange { result ≡ false → IsStrange book.now selected }
{
    match selected {
        Some(node) => book.config().tree_at(node).is_some(),
        None => true,
    }
}

// A run of one sharing.
fn run_round<
    L: Sharing<P::Local> + Send + Sync,
    P: Application,
    G: Gate + Sync,
    R: Threads + Wait + Sync,
>(
    rt: &R,
    alloc: Global,
    blank: Blank,
    gate: &G,
    book: Book<P>,
    task: Task,
) -> Result<Outcome<P>, RunFault<P>>
    requires name { blank.name ≡ L.name }
    requires parts { blank.parts ≡ L.parts }
    requires one_more { L.parts ≡ length L.nodes + 1 }
    requires nodes { book.config.graph.nodes ≡ L.nodes }
    requires book { book ≡ L.book }
    requires stands { IsContinued P.app P.from_text L.book book }
    ensures closed { IfOk result (λ o. IsClosed P.app P.from_text L.book o.book o.seats.items) }
    ensures order { IfOk result (λ o. map (λ l. l.0) o.seats.items ≡ L.nodes) }
    ensures asked { IfOk result (λ o. AsksAtMost task L.book o.book) }
    ensures strange { IfErr result (λ e. e.cause ≢ RunCause.StrangeNode) }
    ensures many { IfErr result (λ e. e.cause ≡ RunCause.TooManyForThreads → 64 < length L.nodes) }
    ensures back { IfErr result (λ e. e.cause ≡ RunCause.TooManyForThreads → e.book ≡ book) }
    ensures close { IfErr result (λ e. (f : CloseFault) → e.cause ≡ RunCause.Close f
        → HasCloseFault P.app P.from_text L.book e.book f) }
    ensures seats { IfErr result (λ e. (i : ℕ) → e.cause ≢ RunCause.Close (CloseFault.SeatMissing i)) }
    ensures stands { IfErr result (λ e. IsContinued P.app P.from_text L.book e.book) }
{
    let (shared, seats) = match share::<L, P>(alloc, blank, book) {
        Ok(both) => both,
        Err((fault, _blank, book)) => {
            let cause = cause_of(fault);
            return Err(RunFault { cause, book });
        }
    };
    let seats = match in_threads(rt, alloc, gate, &shared, seats, task) {
        Ok(seats) => seats,
        Err(cause) => {
            let book = shared.into_book();
            return Err(RunFault { cause, book });
        }
    };
    close_run(alloc, shared, seats)
}

// Closes a run whose threads gave back the seat of each node, in order.
fn close_run<L: Sharing<P::Local>, P: Application>(
    alloc: Global,
    shared: Shared<L, P>,
    seats: Vec<Seat<L>>,
) -> Result<Outcome<P>, RunFault<P>>
    requires nodes { L.book.config.graph.nodes ≡ L.nodes }
    requires own { nodes_of seats.items ≡ L.nodes }
    ensures closed { IfOk result (λ o. IsClosed P.app P.from_text L.book o.book o.seats.items) }
    ensures lists { IfOk result (λ o. o.seats.items ≡ map list_of seats.items) }
    ensures order { IfOk result (λ o. map (λ l. l.0) o.seats.items ≡ L.nodes) }
    ensures cause { IfErr result (λ e. (e.cause ≢ RunCause.StrangeNode) × (e.cause ≢ RunCause.TooManyForThreads)) }
    ensures close { IfErr result (λ e. (f : CloseFault) → e.cause ≡ RunCause.Close f
        → HasCloseFault P.app P.from_text L.book e.book f) }
    ensures seats { IfErr result (λ e. (i : ℕ) → e.cause ≢ RunCause.Close (CloseFault.SeatMissing i)) }
    ensures stands { IfErr result (λ e. IsContinued P.app P.from_text L.book e.book) }
{
    match close_unlocked(alloc, Unlocked::new(shared), seats) {
        Ok(outcome) => Ok(outcome),
        Err((fault, unlocked, seats)) => {
            drop(seats);
            let cause = cause_of_closing(fault);
            let book = unlocked.into_book();
            Err(RunFault { cause, book })
        }
    }
}

// A book is its own continuation, with no step since.
fn lemma_stands<P: Application>(book: &Book<P>)
    ensures { IsContinued P.app P.from_text book.now book.now }
{
    book.lemma_is_book();
}

// The cause of a run that a fault of sharing is.
fn cause_of(fault: ShareFault) -> RunCause
    ensures many { result ≡ RunCause.TooManyForThreads → fault ≡ ShareFault.TooManyForThreads }
    ensures strange { result ≢ RunCause.StrangeNode }
    ensures close { (f : CloseFault) → result ≢ RunCause.Close f }
{
    match fault {
        ShareFault::TooManyForThreads => RunCause::TooManyForThreads,
        ShareFault::NoMemory => RunCause::NoMemory,
    }
}

// The cause of a run that a fault of closing is.
fn cause_of_closing(fault: CloseFault) -> RunCause
    ensures memory { fault ≡ CloseFault.NoMemory → result ≡ RunCause.NoMemory }
    ensures close { fault ≢ CloseFault.NoMemory → result ≡ RunCause.Close fault }
{
    match fault {
        CloseFault::NoMemory => RunCause::NoMemory,
        fault => RunCause::Close(fault),
    }
}
