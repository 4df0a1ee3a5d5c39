// A thread for each seat.

ghost use Rattle.std.specs.Prelude.{◌≡◌, ◌⊎◌, ◌↔◌, ◌≤◌, All, Err, IfErr, IfOk, [], false, length, map, true};
ghost use Rattle.std.specs.Vec.{vec_capacity};
ghost use denote.Param.{param};
ghost use denote.Param.Send.{IsSync};
ghost use Rattle.node_threads.specs.Closed.{list_of};
ghost use Rattle.node_threads.specs.Requests.{AreAsked, request_count, requests_at};
ghost use Rattle.node_threads.specs.Seats.{nodes_of};
ghost use Rattle.node_threads.specs.Threads.{promised};
ghost use Rattle.node_threads.specs.contracts.sharing.Shared.{the_row};

use crate::round::{Round, Sharing};
use crate::run::RunCause;
use crate::seat::Seat;
use crate::sharing::Shared;
use crate::tasks::{Task, do_task};
use crate::turns::{Gate, TurnsEnd};
use app_interface::Application;
use std::alloc::{AllocError, Global};
use std::sync::Wait;
use std::thread;
use std::thread::{Promise, PromisedHandle, Scope, Threads};

// The promise of a thread that it gives back the seat of this node, which asked for no more resets than the task lets it.
#[derive(Clone, Copy)]
pub(crate) struct SeatOf {
    node: u32,
    task: Task,
}

impl<L: Round> Promise<(Seat<L>, TurnsEnd)> for SeatOf {
    ghost kept_by = { λ promise given. (given.0.node ≡ promise.node)
        × (request_count given.0.receipts ≤ requests_at promise.task promise.node) };
}

// A thread at a seat, which it gives back.
type SeatThread<L> = PromisedHandle<(Seat<L>, TurnsEnd), SeatOf>;

// The threads that were started, room for their seats, and whether one couldn't be started.
#[derive(Drop)]
struct Started<L: Round> {
    threads: Vec<SeatThread<L>>,
    room: Vec<Seat<L>>,
    refused: bool,
}

// One thread for each seat, all joined: the seats as they come back, in the same order. Or one couldn't be started, or
// else an allocation failed.
pub(crate) fn in_threads<
    L: Sharing<P::Local> + Send + Sync,
    P: Application,
    G: Gate + Sync,
    R: Threads + Wait + Sync,
>(
    rt: &R,
    alloc: Global,
    gate: &G,
    shared: &Shared<L, P>,
    seats: Vec<Seat<L>>,
    task: Task,
) -> Result<Vec<Seat<L>>, RunCause>
    requires fresh { All (λ s. s.receipts ≡ []) seats.items }
    ensures own { IfOk result (λ back. nodes_of back.items ≡ nodes_of seats.items) }
    ensures asked { IfOk result (λ back. AreAsked task (map list_of back.items)) }
    ensures cause { IfErr result (λ c. (c ≡ RunCause.NoThread) ⊎ (c ≡ RunCause.NoMemory)) }
{
    thread::scope(
        thread::scope_env(),
        rt,
        |scope|
            requires { All (λ s. s.receipts ≡ []) seats.items }
        { start_and_join(scope, rt, alloc, gate, shared, seats, task) },
    )
}

// As `in_threads`, in this scope.
fn start_and_join<
    's,
    L: Sharing<P::Local> + Send + Sync,
    P: Application,
    G: Gate + Sync,
    R: Threads + Wait + Sync,
>(
    scope: &Scope<'s, &'_ ()>,
    rt: &'s R,
    alloc: Global,
    gate: &'s G,
    shared: &'s Shared<L, P>,
    seats: Vec<Seat<L>>,
    task: Task,
) -> Result<Vec<Seat<L>>, RunCause>
    requires fresh { All (λ s. s.receipts ≡ []) seats.items }
    ensures own { IfOk result (λ back. nodes_of back.items ≡ nodes_of seats.items) }
    ensures asked { IfOk result (λ back. AreAsked task (map list_of back.items)) }
    ensures cause { IfErr result (λ c. (c ≡ RunCause.NoThread) ⊎ (c ≡ RunCause.NoMemory)) }
{
    match start_all(scope, rt, alloc, gate, shared, seats, task) {
        Ok(started) => join_all(rt, started, task),
        Err(AllocError) => Err(RunCause::NoMemory),
    }
}

// Starts a thread for each seat. All seats are counted before the first is started, so that none finds that all wait
// before the last has begun. Room for the threads and the seats is made before the first is started, so that no thread is
// left to end by itself for want of a place for its handle.
fn start_all<
    's,
    L: Sharing<P::Local> + Send + Sync,
    P: Application,
    G: Gate + Sync,
    R: Threads + Wait + Sync,
>(
    scope: &Scope<'s, &'_ ()>,
    rt: &'s R,
    alloc: Global,
    gate: &'s G,
    shared: &'s Shared<L, P>,
    seats: Vec<Seat<L>>,
    task: Task,
) -> Result<Started<L>, AllocError>
    requires fresh { All (λ s. s.receipts ≡ []) seats.items }
    ensures tasks { IfOk result (λ s. All (λ t. t.promise.task ≡ task) s.threads.items) }
    ensures room { IfOk result (λ s. (s.room.items ≡ []) × (length s.threads.items ≤ vec_capacity s.room)) }
    ensures all { IfOk result (λ s. s.refused ≡ false → promised s.threads.items ≡ nodes_of seats.items) }
{
    let mut threads = Vec::with_capacity(alloc, seats.len())?;
    let room = Vec::with_capacity(alloc, seats.len())?;
    let mut refused = false;
    shared.arrive(rt, seats.len());
    lemma_is_sync(shared);
    for seat in seats {
        let node = seat.node();
        let work = move ||
            requires { seat.receipts ≡ [] }
        { run_seat(rt, alloc, gate, shared, seat, task) };
        match scope.spawn_with(SeatOf { node, task }, work) {
            Ok(thread) => threads.push_reserved(thread),
            Err(_) => {
                shared.depart(rt, node);
                refused = true;
            }
        }
    }
    Ok(Started {
        threads,
        room,
        refused,
    })
}

// Joins the threads of a task: their seats, in turn. Or one couldn't be started, or else an allocation failed in one.
fn join_all<L: Round, R: Threads>(
    rt: &R,
    started: Started<L>,
    task: Task,
) -> Result<Vec<Seat<L>>, RunCause>
    requires tasks { All (λ t. t.promise.task ≡ task) started.threads.items }
    requires none { started.room.items ≡ [] }
    requires room { length started.threads.items ≤ vec_capacity started.room }
    ensures own { IfOk result (λ back. nodes_of back.items ≡ promised started.threads.items) }
    ensures asked { IfOk result (λ back. AreAsked task (map list_of back.items)) }
    ensures refused { result ≡ Err RunCause.NoThread ↔ started.refused ≡ true }
    ensures cause { IfErr result (λ c. (c ≡ RunCause.NoThread) ⊎ (c ≡ RunCause.NoMemory)) }
{
    let _ = task;
    let Started {
        threads,
        room,
        refused,
    } = started;
    let mut seats = room;
    let mut out_of_memory = false;
    for thread in threads {
        let (seat, end) = thread.join(rt);
        seats.push_reserved(seat);
        if end == TurnsEnd::NoMemory {
            out_of_memory = true;
        }
    }
    if refused {
        drop(seats);
        return Err(RunCause::NoThread);
    }
    if out_of_memory {
        drop(seats);
        return Err(RunCause::NoMemory);
    }
    Ok(seats)
}

// What is shared may be seen by every thread.
fn lemma_is_sync<L: Sharing<P::Local> + Send + Sync, P: Application>(shared: &Shared<L, P>)
    ensures { IsSync (the_row (param 0 L.row) (param 1 P.row) (param 4 P.Local.row) L.Sharing.own L.Round.own L.Ledger.own
        P.Application.own) }
{
    let _ = shared;
}

// What a thread does at a seat, which was told nothing yet and is counted among those that take turns. It gives the seat
// back.
fn run_seat<L: Sharing<P::Local>, P: Application, G: Gate, R: Wait>(
    rt: &R,
    alloc: Global,
    gate: &G,
    shared: &Shared<L, P>,
    mut seat: Seat<L>,
    task: Task,
) -> (Seat<L>, TurnsEnd)
    requires { seat.receipts ≡ [] }
    ensures own { result.0.node ≡ seat.node }
    ensures asked { request_count result.0.receipts ≤ requests_at task seat.node }
{
    let end = do_task(rt, alloc, gate, shared, &mut seat, task);
    shared.depart(rt, seat.node());
    (seat, end)
}
