// What the threads share.

ghost use Rattle.std.specs.Prelude.{◌≡◌, ◌≢◌, ◌↔◌, ◌+◌, ◌<◌, ◌≤◌, Err, IfOk, IfErr, OnOk, OnErr, [], length, map};
ghost use Rattle.std.specs.Vec.{vec_capacity};
ghost use Rattle.reset_model.specs.Steps.{event_node};
ghost use Rattle.reset_model.specs.View.{IsSeen, view_of};
ghost use Rattle.reset_model.specs.declared.event.Event.TheVariants.{Request};
ghost use Rattle.node_threads.specs.Locked.{HasContinuation, IsBooked, IsContinued, IsFull};
ghost use Rattle.node_threads.specs.Locked.{IsPlanOf, IsUncommitted, IsUndone};
ghost use Rattle.node_threads.specs.Seats.{empty_seat, with_receipt};

use crate::attendance::{Attendance, Sleepers};
use crate::guarded::Guarded;
use crate::locked::Locked;
use crate::refusal::{CommitRefusal, LookRefusal, SeatRefusal, ShareFault};
use crate::round::{Cut, Round, Sharing};
use crate::seat::Seat;
use crate::unlocked::Unlocked;
use app_interface::Application;
use history::{ApplyRefusal, Book, Receipt};
use reset_machine::{Event, Near, Plan, View};
use std::alloc::{AllocError, Global};
use std::sync::ledger::{Blank, Share};
use std::sync::{Condvar, Mutex, Wait};
use topology::Topology;

/// The most nodes of a book that is shared: each has a thread of its own.
pub const MAX_SEATS: usize = 64;

/// What the threads share: a book under one lock, and beside it, since it stays, its topology, with a condition variable for
/// each node that wakes it where it waits. It keeps the last part of the ledger, at amount 0.
#[derive(Drop)]
pub struct Shared<L: Sharing<P::Local>, P: Application> {
    pub(crate) guarded: Mutex<Guarded<L, P>>,
    pub(crate) topology: Topology,
    pub(crate) wakeups: Vec<Condvar>,
    pub(crate) last: Share<L>,
    pub(crate) cut: Cut<L>,
    ghost last_part: { last.parts ≡ 1 },
    ghost last_empty: { last.amount ≡ 0 },
}

/// Shares a book: puts it under a lock, and gives each node, ascending, a seat. Or the blank and the book
/// come back with the first fault.
pub fn share<L: Sharing<P::Local>, P: Application>(
    alloc: Global,
    blank: Blank,
    book: Book<P>,
) -> Result<(Shared<L, P>, Vec<Seat<L>>), (ShareFault, Blank, Book<P>)>
    requires name { blank.name ≡ L.name }
    requires parts { blank.parts ≡ L.parts }
    requires one_more { L.parts ≡ length L.nodes + 1 }
    requires nodes { book.config.graph.nodes ≡ L.nodes }
    requires book { book ≡ L.book }
    ensures seats { IfOk result (λ r. r.1.items ≡ map empty_seat L.nodes) }
    ensures few { OnOk result (length L.nodes ≤ 64) }
    ensures many { IfErr result (λ e. e.0 ≡ ShareFault.TooManyForThreads → 64 < length L.nodes) }
    ensures returned { IfErr result (λ e. (e.1 ≡ blank) × (e.2 ≡ book)) }
{
    let nodes = book.config().topology().node_count();
    if nodes > MAX_SEATS {
        return Err((ShareFault::TooManyForThreads, blank, book));
    }
    let seats = match Vec::with_capacity(alloc, nodes) {
        Ok(seats) => seats,
        Err(AllocError) => return Err((ShareFault::NoMemory, blank, book)),
    };
    let (topology, wakeups, attendance) = match waiting_room(alloc, book.config().topology()) {
        Ok(room) => room,
        Err(AllocError) => return Err((ShareFault::NoMemory, blank, book)),
    };
    let mark = book.len();
    let (tally, all) = blank.open::<L>();
    let (seats, last) = seat_all(alloc, book.config().topology().nodes(), seats, all);
    let shared = Shared {
        guarded: Mutex::new(Guarded {
            locked: Locked { book, mark, tally },
            attendance,
        }),
        topology,
        wakeups,
        last,
        cut: Cut::new(),
    };
    Ok((shared, seats))
}

// What waiting needs: a copy of the topology, a condition variable for each of its nodes, up or down, and their attendance.
fn waiting_room(
    alloc: Global,
    topology: &Topology,
) -> Result<(Topology, Vec<Condvar>, Attendance), AllocError> {
    let topology = topology.copy(alloc)?;
    let nodes = topology.len();
    let mut wakeups = Vec::with_capacity(alloc, nodes)?;
    for _ in 0..nodes {
        wakeups.push(Condvar::new())?;
    }
    let attendance = Attendance::new(alloc, nodes)?;
    Ok((topology, wakeups, attendance))
}

// A seat for each node, with one part of the ledger, and the last part.
fn seat_all<L: Round>(
    alloc: Global,
    ids: &[u32],
    mut seats: Vec<Seat<L>>,
    mut all: Share<L>,
) -> (Vec<Seat<L>>, Share<L>)
    requires ids { ids.now ≡ L.nodes }
    requires none { seats.items ≡ [] }
    requires room { length ids.now ≤ vec_capacity seats }
    requires parts { all.parts ≡ length ids.now + 1 }
    requires nothing { all.amount ≡ 0 }
    ensures seats { result.0.items ≡ map empty_seat ids.now }
    ensures last { (result.1.parts ≡ 1) × (result.1.amount ≡ 0) }
{
    for id in ids {
        let part = all.split_off(1, 0);
        seats.push_reserved(Seat::new(alloc, *id, part));
    }
    (seats, all)
}

impl<L: Sharing<P::Local>, P: Application> Shared<L, P> {
    // The book as it is.
    pub(crate) fn into_book(self) -> Book<P>
        ensures { IsContinued P.app P.from_text L.book result }
    {
        Unlocked::new(self).into_book()
    }

    /// What the seat's node sees at some moment of the call. It takes the lock.
    pub fn look<R: Wait>(
        &self,
        rt: &R,
        alloc: Global,
        seat: &Seat<L>,
    ) -> Result<View<P>, LookRefusal>
        ensures node { IfOk result (λ view. view.id ≡ seat.now.node) }
        ensures ok { IfOk result (λ view. HasContinuation P.app P.from_text L.book (λ b.
            view ≡ view_of P.app b.config seat.now.node)) }
        ensures err { IfErr result (λ f. f ≡ LookRefusal.NoMemory) }
    {
        self.look_again(rt, alloc, seat, Vec::new(alloc))
    }

    // The same, in this room for the neighbours.
    pub(crate) fn look_again<R: Wait>(
        &self,
        rt: &R,
        alloc: Global,
        seat: &Seat<L>,
        room: Vec<Near<P>>,
    ) -> Result<View<P>, LookRefusal>
        ensures node { IfOk result (λ view. view.id ≡ seat.now.node) }
        ensures ok { IfOk result (λ view. HasContinuation P.app P.from_text L.book (λ b.
            view ≡ view_of P.app b.config seat.now.node)) }
        ensures err { IfErr result (λ f. f ≡ LookRefusal.NoMemory) }
    {
        let at = self.index_of(seat.node());
        let mut guarded = self.guarded.lock(rt);
        guarded.locked.lemma_is_locked();
        let seen = guarded.locked.look_in(alloc, seat, room);
        guarded.attendance.look(at);
        seen
    }

    /// Commits the plan, which the seat gets a receipt for, or the plan comes back with the first refusal. A
    /// refused plan changes nothing. It takes the lock.
    pub fn commit<R: Wait>(
        &self,
        rt: &R,
        alloc: Global,
        seat: &mut Seat<L>,
        plan: Plan<P>,
    ) -> Result<Receipt, (CommitRefusal<P>, Plan<P>)>
        ensures yours { OnOk result (IsPlanOf seat.old.node plan) }
        ensures told { IfOk result (λ receipt. (receipt.event ≡ plan.event) × (receipt.reply ≡ plan.reply)) }
        ensures seat { IfOk result (λ receipt. seat.new ≡ with_receipt seat.old receipt) }
        ensures not_yours { IfErr result (λ e. e.0 ≡ CommitRefusal.NotYours ↔ (IsPlanOf seat.old.node plan → ⊥)) }
        ensures stale { IfErr result (λ e. (now : _) → e.0 ≡ CommitRefusal.Refused (ApplyRefusal.Stale now)
            → (now.id ≡ seat.old.node) × (plan.view ≢ now)) }
        ensures kept { IfErr result (λ e. (seat.new ≡ seat.old) × (e.1 ≡ plan)) }
        ensures ok { IfOk result (λ receipt. HasContinuation P.app P.from_text L.book (λ b.
            IsSeen P.app b.config plan.view × IsBooked P.app b plan.event receipt)) }
        ensures err { IfErr result (λ e. HasContinuation P.app P.from_text L.book (λ b.
            IsUncommitted P.app b seat.old.node plan e.0)) }
        ensures there { IfErr result (λ e. e.0 ≢ CommitRefusal.Refused ApplyRefusal.StrangeNode) }
        ensures full { IfErr result (λ e. e.0 ≡ CommitRefusal.Refused ApplyRefusal.BookFull
            → HasContinuation P.app P.from_text L.book IsFull) }
    {
        let (receipt, _view) = self.commit_back(rt, alloc, seat, plan)?;
        Ok(receipt)
    }

    // The same, where the view that the plan was made on comes back with the receipt.
    pub(crate) fn commit_back<R: Wait>(
        &self,
        rt: &R,
        alloc: Global,
        seat: &mut Seat<L>,
        plan: Plan<P>,
    ) -> Result<(Receipt, View<P>), (CommitRefusal<P>, Plan<P>)>
        ensures yours { OnOk result (IsPlanOf seat.old.node plan) }
        ensures told { IfOk result (λ done. (done.0.event ≡ plan.event) × (done.0.reply ≡ plan.reply)) }
        ensures seat { IfOk result (λ done. seat.new ≡ with_receipt seat.old done.0) }
        ensures not_yours { IfErr result (λ e. e.0 ≡ CommitRefusal.NotYours ↔ (IsPlanOf seat.old.node plan → ⊥)) }
        ensures stale { IfErr result (λ e. (now : _) → e.0 ≡ CommitRefusal.Refused (ApplyRefusal.Stale now)
            → (now.id ≡ seat.old.node) × (plan.view ≢ now)) }
        ensures kept { IfErr result (λ e. (seat.new ≡ seat.old) × (e.1 ≡ plan)) }
        ensures ok { IfOk result (λ done. HasContinuation P.app P.from_text L.book (λ b.
            IsSeen P.app b.config plan.view × IsBooked P.app b plan.event done.0)) }
        ensures err { IfErr result (λ e. HasContinuation P.app P.from_text L.book (λ b.
            IsUncommitted P.app b seat.old.node plan e.0)) }
        ensures there { IfErr result (λ e. e.0 ≢ CommitRefusal.Refused ApplyRefusal.StrangeNode) }
        ensures full { IfErr result (λ e. e.0 ≡ CommitRefusal.Refused ApplyRefusal.BookFull
            → HasContinuation P.app P.from_text L.book IsFull) }
    {
        seat.lemma_is_node();
        let neighbours = self.neighbours(seat.node());
        let mut guarded = self.guarded.lock(rt);
        guarded.locked.lemma_is_locked();
        let done = guarded.locked.commit_in(alloc, seat, plan);
        let stale = if_changed(neighbours, done.is_ok());
        let sleepers = guarded.attendance.make_stale(stale);
        drop(guarded);
        self.notify(stale, sleepers);
        done
    }

    /// Does the event, which the seat gets a receipt for, or names the first refusal. A refused event changes
    /// nothing. It takes the lock.
    pub fn step<R: Wait>(
        &self,
        rt: &R,
        alloc: Global,
        seat: &mut Seat<L>,
        event: Event,
    ) -> Result<Receipt, SeatRefusal>
        ensures yours { OnOk result (event_node event ≡ seat.old.node) }
        ensures told { IfOk result (λ receipt. receipt.event ≡ event) }
        ensures seat { IfOk result (λ receipt. seat.new ≡ with_receipt seat.old receipt) }
        ensures not_yours { result ≡ Err SeatRefusal.NotYours ↔ event_node event ≢ seat.old.node }
        ensures kept { OnErr result (seat.new ≡ seat.old) }
        ensures ok { IfOk result (λ receipt. HasContinuation P.app P.from_text L.book (λ b.
            IsBooked P.app b event receipt)) }
        ensures err { IfErr result (λ f. HasContinuation P.app P.from_text L.book (λ b.
            IsUndone P.app b seat.old.node event f)) }
    {
        let neighbours = self.neighbours(seat.node());
        let mut guarded = self.guarded.lock(rt);
        guarded.locked.lemma_is_locked();
        let done = guarded.locked.step_in(alloc, seat, event);
        let stale = if_changed(neighbours, done.is_ok());
        let sleepers = guarded.attendance.make_stale(stale);
        drop(guarded);
        self.notify(stale, sleepers);
        done
    }

    // So many seats more are going to take turns: a node that has nothing to do waits for them. It takes the lock.
    pub(crate) fn arrive<R: Wait>(&self, rt: &R, count: usize) {
        let mut guarded = self.guarded.lock(rt);
        guarded.attendance.arrive(count);
    }

    // The node takes no more turns. Where all others that do wait, they are woken, for none of them ever changes
    // anything. It takes the lock.
    pub(crate) fn depart<R: Wait>(&self, rt: &R, node: u32) {
        let at = self.index_of(node);
        let mut guarded = self.guarded.lock(rt);
        guarded.attendance.depart(at);
        let all_wait = guarded.attendance.all_wait();
        drop(guarded);
        if all_wait {
            self.notify_all();
        }
    }

    // Waits at a node that had nothing to do when it looked, until a neighbour has changed: true; or until all nodes
    // that take turns wait: false. It takes the lock.
    pub(crate) fn wait<R: Wait>(&self, rt: &R, seat: &Seat<L>) -> bool {
        let at = self.index_of(seat.node());
        let Some(wakeup) = self.wakeups.get(at) else {
            return false;
        };
        let mut guarded = self.guarded.lock(rt);
        if !guarded.attendance.wait(at) {
            return true;
        }
        if guarded.attendance.all_wait() {
            drop(guarded);
            self.notify_all();
            return false;
        }
        let guarded = wakeup.wait_while(rt, guarded, |guarded| {
            guarded.attendance.is_waiting(at) && !guarded.attendance.all_wait()
        });
        !guarded.attendance.is_waiting(at)
    }

    // The index of the node in the topology, or else none that is one.
    fn index_of(&self, node: u32) -> usize {
        match self.topology.index_of(node) {
            Some(at) => at,
            None => usize::MAX,
        }
    }

    // The indexes of the node's neighbours in the topology.
    fn neighbours(&self, node: u32) -> &[usize] {
        match self.topology.index_of(node) {
            Some(at) if at < self.topology.len() => self.topology.neighbours(at),
            _ => &[],
        }
    }

    // Wakes those of these nodes that waited: a call of the system each, which the others are spared. Under the lock they
    // were made stale, so they look again.
    fn notify(&self, nodes: &[usize], sleepers: Sleepers) {
        for number in 0..nodes.len() {
            if sleepers.has(number) {
                match self.wakeups.get(nodes[number]) {
                    Some(wakeup) => wakeup.notify_one(),
                    None => {}
                }
            }
        }
    }

    // Wakes all nodes that wait.
    fn notify_all(&self) {
        for wakeup in &self.wakeups {
            wakeup.notify_all();
        }
    }
}

// These nodes, where their neighbour has changed, and else none.
fn if_changed(neighbours: &[usize], changed: bool) -> &[usize] {
    if changed { neighbours } else { &[] }
}

/// Asks for a reset at the seat's node: a step with its request. It takes the lock.
pub fn select<L: Sharing<P::Local>, P: Application, R: Wait>(
    rt: &R,
    alloc: Global,
    shared: &Shared<L, P>,
    seat: &mut Seat<L>,
) -> Result<Receipt, SeatRefusal>
    ensures told { IfOk result (λ receipt. receipt.event ≡ Request seat.old.node) }
    ensures seat { IfOk result (λ receipt. seat.new ≡ with_receipt seat.old receipt) }
    ensures yours { result ≢ Err SeatRefusal.NotYours }
    ensures kept { OnErr result (seat.new ≡ seat.old) }
    ensures ok { IfOk result (λ receipt. HasContinuation P.app P.from_text L.book (λ b.
        IsBooked P.app b (Request seat.old.node) receipt)) }
    ensures err { IfErr result (λ f. HasContinuation P.app P.from_text L.book (λ b.
        IsUndone P.app b seat.old.node (Request seat.old.node) f)) }
{
    let at = seat.node();
    shared.step(rt, alloc, seat, Event::Request { at })
}
