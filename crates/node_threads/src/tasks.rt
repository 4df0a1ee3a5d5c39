// What a run does at each seat.

ghost use Rattle.std.specs.Prelude.{◌≡◌, ◌≢◌, ◌+◌, ◌<◌, ◌≤◌, IfSome, IfNone};
ghost use Rattle.node_threads.specs.Requests.{request_count, requests_at};

use crate::refusal::SeatRefusal;
use crate::round::Sharing;
use crate::seat::Seat;
use crate::sharing::{Shared, select};
use crate::turns::{Ended, Gate, TurnsEnd, end_of, take_turns};
use app_interface::Application;
use history::BookRefusal;
use std::alloc::Global;
use std::sync::Wait;

/// How many turns a node takes in a run.
#[derive(Clone, Copy, Debug, PartialEq, Eq)]
pub enum TurnLimit {
    /// No more than these.
    AtMost(u32),
    /// As many as there are until no node has anything to do, or the book is full.
    UntilQuiet,
}

/// What the nodes of a run do.
#[derive(Clone, Copy, Debug, PartialEq, Eq)]
pub struct Task {
    /// How many turns each takes.
    pub turns: TurnLimit,
    /// The node that asks for resets, if one does.
    pub selected: Option<u32>,
    /// How many resets it asks for: one at once, and each next one when it is normal again. A request is no turn.
    pub resets: u32,
}

// The task at a seat, which is counted among those that take turns.
pub(crate) fn do_task<L: Sharing<P::Local>, P: Application, G: Gate, R: Wait>(
    rt: &R,
    alloc: Global,
    gate: &G,
    shared: &Shared<L, P>,
    seat: &mut Seat<L>,
    task: Task,
) -> TurnsEnd
    ensures node { seat.new.node ≡ seat.old.node }
    ensures asked { request_count seat.new.receipts
        ≤ request_count seat.old.receipts + requests_at task seat.old.node }
{
    let left = requests_at(task, seat.node());
    match ask(rt, alloc, shared, seat, left) {
        Some(left) => turns_and_requests(rt, alloc, gate, shared, seat, task.turns, left),
        None => TurnsEnd::NoMemory,
    }
}

// How many resets this node is to ask for.
fn requests_at(task: Task, node: u32) -> u32
    ensures { result ≡ requests_at task node }
{
    match task.selected {
        Some(selected) if selected == node => task.resets,
        _ => 0,
    }
}

// Asks for a reset, if one is left to be asked for. The result is how many are left then: a request that is refused is
// left, and none is left in a full book, which takes no request. None if an allocation failed.
fn ask<L: Sharing<P::Local>, P: Application, R: Wait>(
    rt: &R,
    alloc: Global,
    shared: &Shared<L, P>,
    seat: &mut Seat<L>,
    left: u32,
) -> Option<u32>
    ensures node { seat.new.node ≡ seat.old.node }
    ensures asked { IfSome result (λ still. request_count seat.new.receipts + still
        ≤ request_count seat.old.receipts + left) }
    ensures kept { IfNone result (seat.new ≡ seat.old) }
{
    if left == 0 {
        return Some(0);
    }
    match select(rt, alloc, shared, seat) {
        Ok(_) => Some(left - 1),
        Err(SeatRefusal::Refused(BookRefusal::NoMemory)) => None,
        Err(SeatRefusal::Refused(BookRefusal::BookFull)) => Some(0),
        Err(_) => Some(left),
    }
}

// Turns, with so many requests in between: one each time the node is normal.
fn turns_and_requests<L: Sharing<P::Local>, P: Application, G: Gate, R: Wait>(
    rt: &R,
    alloc: Global,
    gate: &G,
    shared: &Shared<L, P>,
    seat: &mut Seat<L>,
    limit: TurnLimit,
    requests: u32,
) -> TurnsEnd
    ensures node { seat.new.node ≡ seat.old.node }
    ensures asked { request_count seat.new.receipts ≤ request_count seat.old.receipts + requests }
{
    let mut left = requests;
    let mut turns = first_turns(limit);
    for _ in rt.forever() {
        let ended = take_turns(rt, alloc, gate, shared, seat, turns, left > 0);
        turns = match turns_after(limit, ended) {
            Some(more) => more,
            None => return end_of(ended),
        };
        left = match ask(rt, alloc, shared, seat, left) {
            Some(still) => still,
            None => return TurnsEnd::NoMemory,
        };
    }
    unreachable!()
}

// How many turns are taken in one call, from the first on.
fn first_turns(limit: TurnLimit) -> u32 {
    match limit {
        TurnLimit::AtMost(turns) => turns,
        TurnLimit::UntilQuiet => u32::MAX,
    }
}

// How many turns are taken after these have ended, where a node goes on.
fn turns_after(limit: TurnLimit, ended: Ended) -> Option<u32> {
    match (limit, ended) {
        (_, Ended::MayAsk(more)) => Some(more),
        (TurnLimit::UntilQuiet, Ended::Taken) => Some(u32::MAX),
        _ => None,
    }
}
