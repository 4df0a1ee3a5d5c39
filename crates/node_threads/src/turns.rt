// The turns of a node.

ghost use Rattle.std.specs.Prelude.{◌≡◌, ◌+◌, ◌≤◌, IfOk, Some, length, take};
ghost use Rattle.node_choices.specs.Choice.{next_of};
ghost use Rattle.node_threads.specs.Locked.{HasContinuation, IsFull};
ghost use Rattle.node_threads.specs.Turns.{AddsTurns};

use crate::refusal::CommitRefusal;
use crate::round::Sharing;
use crate::seat::Seat;
use crate::sharing::Shared;
use app_interface::Application;
use history::ApplyRefusal;
use node_choices::{Room, next_plan};
use reset_machine::{Near, Plan, View};
use std::alloc::{AllocError, Global};
use std::mem::replace;
use std::sync::Wait;
use wave_layer::Phase;

/// The most turns that a node takes in one call.
pub const MAX_TURNS: u32 = 100_000;

/// Is told of the steps of the nodes while they run. Each call is made by the node's own thread, without the
/// lock.
pub trait Gate {
    /// The node has a plan, which it commits next.
    fn planned(&self, node: u32);

    /// The node's plan was committed.
    fn committed(&self, node: u32);
}

/// How the turns of a node ended.
#[derive(Clone, Copy, Debug, PartialEq, Eq)]
pub enum TurnsEnd {
    /// All were taken.
    Done,
    /// The book had as many entries as it may have.
    BookFull,
    /// An allocation failed.
    NoMemory,
}

// How turns ended, by the cases that a run of all nodes needs.
#[derive(Clone, Copy, Debug, PartialEq, Eq)]
pub(crate) enum Ended {
    // All were taken.
    Taken,
    // No node that takes turns has anything to do.
    Quiet,
    // The node is normal, so it may ask for a reset. So many turns weren't taken.
    MayAsk(u32),
    BookFull,
    NoMemory,
}

// Why a node takes no turn.
#[derive(Clone, Copy, Debug, PartialEq, Eq)]
enum NoTurn {
    // It is to ask for a reset, and is normal.
    MayAsk,
    // No node that takes turns has anything to do.
    Quiet,
    NoMemory,
}

// What came of one turn.
#[derive(Drop)]
enum Turn<P: Application> {
    // Its plan, which was made on this view, was committed.
    Taken(View<P>),
    // Its plan wasn't the seat's.
    Over,
    // The plan was made on what the node doesn't see now. It sees this.
    Stale(View<P>),
    BookFull,
    NoMemory,
}

// The room that a node takes its turns in, so that none of them needs memory of its own: that of the neighbours that it
// sees, and what its events are tried on.
#[derive(Drop)]
struct TurnRoom<P: Application> {
    near: Vec<Near<P>>,
    tried: Room,
}

impl<P: Application> TurnRoom<P> {
    fn new(alloc: Global) -> TurnRoom<P> {
        TurnRoom {
            near: Vec::new(alloc),
            tried: Room::new(alloc),
        }
    }

    // The room of the neighbours, which the next view takes.
    fn take_near(&mut self, alloc: Global) -> Vec<Near<P>> {
        replace(&mut self.near, Vec::new(alloc))
    }
}

/// Takes turns at the seat. A turn looks, plans by [`next_plan`] without the lock, and commits; the
/// gate is called with each plan before it is committed, and after. Where there is nothing to do, the turn waits
/// until a neighbour has changed and looks again. After a stale plan the next turn goes by the view that came with
/// the refusal, without a look. The turns end early where the book is full or an allocation fails, and where no node
/// that takes turns has anything to do: so a node that takes turns alone never waits.
pub fn node_turns<L: Sharing<P::Local>, P: Application, G: Gate, R: Wait>(
    rt: &R,
    alloc: Global,
    gate: &G,
    shared: &Shared<L, P>,
    seat: &mut Seat<L>,
    turns: u32,
) -> TurnsEnd
    requires { turns ≤ 100000 }
    ensures node { seat.new.node ≡ seat.old.node }
    ensures most { length seat.new.receipts ≤ length seat.old.receipts + turns }
    ensures kept { take (length seat.old.receipts) seat.new.receipts ≡ seat.old.receipts }
    ensures turns { AddsTurns P.app P.from_text L.book seat.old.node seat.old.receipts seat.new.receipts }
    ensures full { result ≡ TurnsEnd.BookFull → HasContinuation P.app P.from_text L.book IsFull }
{
    shared.arrive(rt, 1);
    let ended = take_turns(rt, alloc, gate, shared, seat, turns, false);
    shared.depart(rt, seat.node());
    end_of(ended)
}

// The turns of a seat that is counted among those that take turns. Where its node is to ask for a reset, they end where it
// may.
pub(crate) fn take_turns<L: Sharing<P::Local>, P: Application, G: Gate, R: Wait>(
    rt: &R,
    alloc: Global,
    gate: &G,
    shared: &Shared<L, P>,
    seat: &mut Seat<L>,
    turns: u32,
    to_ask: bool,
) -> Ended
    ensures node { seat.new.node ≡ seat.old.node }
    ensures most { length seat.new.receipts ≤ length seat.old.receipts + turns }
    ensures kept { take (length seat.old.receipts) seat.new.receipts ≡ seat.old.receipts }
    ensures turns { AddsTurns P.app P.from_text L.book seat.old.node seat.old.receipts seat.new.receipts }
    ensures full { result ≡ Ended.BookFull → HasContinuation P.app P.from_text L.book IsFull }
{
    let mut seen: Option<View<P>> = None;
    let mut room = TurnRoom::new(alloc);
    for turn in 0..turns {
        let plan = match next_allowed(rt, alloc, shared, seat, seen.take(), to_ask, &mut room) {
            Ok(plan) => plan,
            Err(NoTurn::MayAsk) => return Ended::MayAsk(turns - turn),
            Err(NoTurn::Quiet) => return Ended::Quiet,
            Err(NoTurn::NoMemory) => return Ended::NoMemory,
        };
        match turn_on(rt, alloc, gate, shared, seat, plan) {
            Turn::Taken(view) => room.near = view.into_near(),
            Turn::Over => {}
            Turn::Stale(now) => seen = Some(now),
            Turn::BookFull => return Ended::BookFull,
            Turn::NoMemory => return Ended::NoMemory,
        }
    }
    Ended::Taken
}

// How turns ended, by the cases that `node_turns` returns.
pub(crate) fn end_of(ended: Ended) -> TurnsEnd
    ensures { result ≡ TurnsEnd.BookFull → ended ≡ Ended.BookFull }
{
    match ended {
        Ended::Taken | Ended::Quiet | Ended::MayAsk(_) => TurnsEnd::Done,
        Ended::BookFull => TurnsEnd::BookFull,
        Ended::NoMemory => TurnsEnd::NoMemory,
    }
}

// The seat's next plan, from what its node saw last on, where that allows an event: that of the first such event. Where
// it allows none, the seat waits for a neighbour that changes. A node that is to ask for a reset neither waits nor takes
// a turn while it may. A look fails only if an allocation fails.
fn next_allowed<L: Sharing<P::Local>, P: Application, R: Wait>(
    rt: &R,
    alloc: Global,
    shared: &Shared<L, P>,
    seat: &Seat<L>,
    last: Option<View<P>>,
    to_ask: bool,
    room: &mut TurnRoom<P>,
) -> Result<Plan<P>, NoTurn>
    ensures { IfOk result (λ plan. next_of P.app plan.view ≡ Some plan.event) }
{
    let mut seen = last;
    for _ in rt.forever() {
        let view = match seen.take() {
            Some(view) => view,
            None => match shared.look_again(rt, alloc, seat, room.take_near(alloc)) {
                Ok(view) => view,
                Err(_) => return Err(NoTurn::NoMemory),
            },
        };
        if to_ask && view.wave().phase == Phase::Normal {
            return Err(NoTurn::MayAsk);
        }
        match next_plan(alloc, view, &mut room.tried) {
            Ok(Ok(plan)) => return Ok(plan),
            Ok(Err(view)) => room.near = view.into_near(),
            Err(AllocError) => return Err(NoTurn::NoMemory),
        }
        if !shared.wait(rt, seat) {
            return Err(NoTurn::Quiet);
        }
    }
    unreachable!()
}

// One turn, by a plan for the first event that its view allows.
fn turn_on<L: Sharing<P::Local>, P: Application, G: Gate, R: Wait>(
    rt: &R,
    alloc: Global,
    gate: &G,
    shared: &Shared<L, P>,
    seat: &mut Seat<L>,
    plan: Plan<P>,
) -> Turn<P>
    requires { next_of P.app plan.view ≡ Some plan.event }
    ensures node { seat.new.node ≡ seat.old.node }
    ensures most { length seat.new.receipts ≤ length seat.old.receipts + 1 }
    ensures kept { take (length seat.old.receipts) seat.new.receipts ≡ seat.old.receipts }
    ensures turns { AddsTurns P.app P.from_text L.book seat.old.node seat.old.receipts seat.new.receipts }
    ensures full { result ≡ Turn.BookFull → HasContinuation P.app P.from_text L.book IsFull }
{
    gate.planned(seat.node());
    match shared.commit_back(rt, alloc, seat, plan) {
        Ok((_receipt, view)) => {
            gate.committed(seat.node());
            Turn::Taken(view)
        }
        Err((refusal, _plan)) => turn_of(refusal),
    }
}

// What comes of a turn whose plan was refused.
fn turn_of<P: Application>(refusal: CommitRefusal<P>) -> Turn<P>
    ensures { result ≡ Turn.BookFull → refusal ≡ CommitRefusal.Refused ApplyRefusal.BookFull }
{
    match refusal {
        CommitRefusal::NotYours => Turn::Over,
        CommitRefusal::Refused(why) => match why {
            ApplyRefusal::StrangeNode => Turn::Over,
            ApplyRefusal::Stale(now) => Turn::Stale(now),
            ApplyRefusal::BookFull => Turn::BookFull,
            ApplyRefusal::NoMemory => Turn::NoMemory,
        },
    }
}
