// The end of a sharing.

ghost use Rattle.std.specs.Prelude.{◌≡◌, ◌≢◌, ◌≤◌, ◌++◌, ◌∷◌, ◌↔◌, [], All, IfErr, IfOk, IsTrue, OnOk};
ghost use Rattle.std.specs.Prelude.{drop, filter, length, map, nat_lt, ℕ};
ghost use Rattle.std.specs.Vec.{vec_capacity};
ghost use Rattle.node_threads.specs.Closed.{AreSeatLists, IsCloseFault, IsClosed, IsFaultOf, IsFirstDiffering};
ghost use Rattle.node_threads.specs.Closed.{IsUnclosed};
ghost use Rattle.node_threads.specs.Closed.{first_missing};
ghost use Rattle.node_threads.specs.Closed.{is_seated, list_of};
ghost use Rattle.node_threads.specs.Seats.{of_node, receipts_after};
ghost use Rattle.node_threads.specs.Told.{left_after, reply_told, step_at};

use crate::locked::Locked;
use crate::round::{Cut, Round, Sharing};
use crate::seat::Seat;
use crate::sharing::Shared;
use crate::unlocked::Unlocked;
use app_interface::Application;
use history::{Book, Entry, Receipt, Report};
use reset_machine::{Event, Reply};
use std::alloc::{AllocError, Global};
use std::marker::Model;
use std::sync::ledger::Share;

/// A node, with what its seat was told, in turn.
#[derive(Drop)]
pub struct SeatList {
    pub node: u32,
    pub receipts: Vec<Receipt>,
}

impl Model for SeatList {
    ghost use Rattle.node_threads.specs.Closed.{NodeList};

    ghost Value = { NodeList };

    ghost view = { λ s. (s.node, s.receipts.items) };
}

/// A closed sharing: the book, and what each seat was told.
#[derive(Drop)]
pub struct Outcome<P: Application> {
    pub book: Book<P>,
    pub seats: Vec<SeatList>,
}

/// Why seats don't close a sharing, in the order in which faults are given.
#[derive(Clone, Copy, Debug, PartialEq, Eq)]
pub enum CloseFault {
    /// This node has no seat among them. It is the least such node.
    SeatMissing(u32),
    /// The seat of this node wasn't told exactly the node's entries since the mark. It is the first such seat.
    ListsDiffer(u32),
    /// An allocation failed.
    NoMemory,
}

/// Closes a sharing: of the book that it unlocks, Ok exactly where all seats are there and each was told exactly its node's
/// entries since the mark. Or what is shared and the seats come back with the first fault.
pub fn close<L: Sharing<P::Local>, P: Application>(
    alloc: Global,
    shared: Shared<L, P>,
    seats: Vec<Seat<L>>,
) -> Result<Outcome<P>, (CloseFault, Shared<L, P>, Vec<Seat<L>>)>
    ensures closed { IfOk result (λ o. IsClosed P.app P.from_text L.book o.book o.seats.items) }
    ensures lists { IfOk result (λ o. o.seats.items ≡ map list_of seats.items) }
    ensures err { IfErr result (λ e. IsCloseFault P.app P.from_text L.book L.nodes seats.items e.0) }
    ensures returned { IfErr result (λ e. e.2 ≡ seats) }
{
    match close_unlocked(alloc, Unlocked::new(shared), seats) {
        Ok(outcome) => Ok(outcome),
        Err((fault, unlocked, seats)) => Err((fault, unlocked.lock(), seats)),
    }
}

// Closes what was unlocked. Or it comes back with the same book, and the seats, with the first fault.
pub(crate) fn close_unlocked<L: Sharing<P::Local>, P: Application>(
    alloc: Global,
    mut unlocked: Unlocked<L, P>,
    mut seats: Vec<Seat<L>>,
) -> Result<Outcome<P>, (CloseFault, Unlocked<L, P>, Vec<Seat<L>>)>
    ensures closed { IfOk result (λ o. IsClosed P.app P.from_text L.book o.book o.seats.items) }
    ensures lists { IfOk result (λ o. o.seats.items ≡ map list_of seats.items) }
    ensures err { IfErr result (λ e. IsFaultOf P.app P.from_text L.book e.1.locked.book seats.items e.0) }
    ensures returned { IfErr result (λ e. e.2 ≡ seats) }
{
    unlocked.locked.lemma_is_locked();
    match decide(alloc, &unlocked.locked, &seats) {
        Ok(lists) => {
            let Unlocked {
                locked,
                attendance: _,
                topology: _,
                wakeups: _,
                last,
                cut,
            } = unlocked;
            Ok(outcome_of_seats(locked, last, cut, seats, lists))
        }
        Err(fault) => {
            unlocked.audit(&mut seats);
            Err((fault, unlocked, seats))
        }
    }
}

// Room for the lists of the seats, where they close the book, or the first fault.
fn decide<L: Sharing<P::Local>, P: Application>(
    alloc: Global,
    locked: &Locked<L, P>,
    seats: &[Seat<L>],
) -> Result<Vec<SeatList>, CloseFault>
    ensures seats { OnOk result (AreSeatLists P.app P.from_text locked.now.book locked.now.mark (map list_of seats.now)) }
    ensures room { IfOk result (λ lists. (lists.items ≡ []) × (length seats.now ≤ vec_capacity lists)) }
    ensures err { IfErr result (IsUnclosed P.app P.from_text locked.now.book locked.now.mark seats.now) }
{
    locked.close_in(alloc, seats)?;
    match Vec::with_capacity(alloc, seats.len()) {
        Ok(lists) => Ok(lists),
        Err(AllocError) => Err(CloseFault::NoMemory),
    }
}

impl<L: Sharing<P::Local>, P: Application> Locked<L, P> {
    /// What [`close`] decides of the book under the lock: Ok exactly where all seats are there and each was
    /// told exactly its node's entries since the mark.
    pub fn close_in(&self, alloc: Global, seats: &[Seat<L>]) -> Result<(), CloseFault>
        ensures ok { OnOk result (AreSeatLists P.app P.from_text self.now.book self.now.mark (map list_of seats.now)) }
        ensures seated { OnOk result (first_missing self.now.book.config.graph.nodes seats.now ≡ None) }
        ensures err { IfErr result (IsUnclosed P.app P.from_text self.now.book self.now.mark seats.now) }
        ensures exact { IfErr result (λ f. f ≢ CloseFault.NoMemory
            → AreSeatLists P.app P.from_text self.now.book self.now.mark (map list_of seats.now) → ⊥) }
    {
        match first_missing(self.book.config().topology().nodes(), seats) {
            None => {}
            Some(node) => return Err(CloseFault::SeatMissing(node)),
        }
        match receipts_after(alloc, &self.book, self.mark) {
            Ok(told) => compared(alloc, &told, seats),
            Err(AllocError) => Err(CloseFault::NoMemory),
        }
    }
}

// The least node that has none of the seats.
fn first_missing<L: Round>(ids: &[u32], seats: &[Seat<L>]) -> Option<u32>
    ensures { result ≡ first_missing ids.now seats.now }
{
    for id in ids {
        if !is_seated(seats, *id) {
            return Some(*id);
        }
    }
    None
}

// Whether the node has one of the seats.
fn is_seated<L: Round>(seats: &[Seat<L>], id: u32) -> bool
    ensures { result ≡ is_seated seats.now id }
{
    seats.iter().any(|seat| seat.node() == id)
}

// Compares what the seats were told with the receipts.
fn compared<L: Round>(alloc: Global, told: &[Receipt], seats: &[Seat<L>]) -> Result<(), CloseFault>
    ensures ok { OnOk result (All (λ s. s.receipts ≡ of_node s.node told.now) seats.now) }
    ensures differs { IfErr result (λ f. (i : ℕ) → f ≡ CloseFault.ListsDiffer i
        → IsFirstDiffering told.now seats.now i) }
    ensures all { IfErr result (λ f. (i : ℕ) → f ≢ CloseFault.SeatMissing i) }
{
    for seat in seats {
        let own = match of_node(alloc, seat.node(), told) {
            Ok(own) => own,
            Err(AllocError) => return Err(CloseFault::NoMemory),
        };
        if !same_receipts(&own, seat.receipts()) {
            return Err(CloseFault::ListsDiffer(seat.node()));
        }
    }
    Ok(())
}

// Whether the two lists are equal.
fn same_receipts(a: &[Receipt], b: &[Receipt]) -> bool
    ensures { IsTrue result ↔ a.now ≡ b.now }
{
    if a.len() != b.len() {
        return false;
    }
    for index in 0..a.len() {
        if a[index] != b[index] {
            return false;
        }
    }
    true
}

// Those of the receipts that are of this node.
fn of_node(alloc: Global, node: u32, told: &[Receipt]) -> Result<Vec<Receipt>, AllocError>
    ensures { IfOk result (λ own. own.items ≡ of_node node told.now) }
{
    let mut own = Vec::new(alloc);
    for receipt in told {
        if receipt.event.node() == node {
            own.push(*receipt)?;
        }
    }
    Ok(own)
}

// The receipts of the book's entries after the mark.
fn receipts_after<P: Application>(
    alloc: Global,
    book: &Book<P>,
    mark: usize,
) -> Result<Vec<Receipt>, AllocError>
    ensures { IfOk result (λ told. told.items ≡ receipts_after P.app P.from_text book.now mark) }
{
    book.lemma_is_book();
    let reports = book.reports();
    let mut told = Vec::new(alloc);
    let mut next = 0;
    for index in 0..book.len() {
        let position = index + 1;
        match event_at(book, position) {
            Some(event) => {
                let (reply, after) = reply_at(reports, next, position);
                next = after;
                let receipt = Receipt {
                    position,
                    event,
                    reply,
                };
                push_after(&mut told, mark, receipt)?;
            }
            None => {}
        }
    }
    Ok(told)
}

// The event of the step at this position.
fn event_at<P: Application>(book: &Book<P>, position: usize) -> Option<Event>
    ensures { result ≡ step_at book.now.entries position }
{
    match book.entry(position) {
        Some(Entry::Step(event)) => Some(*event),
        Some(Entry::Disturbed(_)) => None,
        None => None,
    }
}

// The reply at this position, where the reports from the number `next` on are left, and which number is next after it.
fn reply_at(reports: &[Report], next: usize, position: usize) -> (Reply, usize)
    requires { next ≤ length reports.now }
    ensures reply { result.0 ≡ reply_told (drop next reports.now) position }
    ensures left { drop result.1 reports.now ≡ left_after (drop next reports.now) position }
    ensures within { result.1 ≤ length reports.now }
{
    if next < reports.len() && reports[next].finished == position {
        (Reply::Complete(reports[next].number), next + 1)
    } else {
        (Reply::Applied, next)
    }
}

// Puts the receipt to the end, where it is one of after the mark.
fn push_after(told: &mut Vec<Receipt>, mark: usize, receipt: Receipt) -> Result<(), AllocError>
    ensures { OnOk result (told.new.items
        ≡ told.old.items ++ filter (λ r. nat_lt mark r.position) (receipt ∷ [])) }
{
    if mark < receipt.position {
        told.push(receipt)?;
    }
    Ok(())
}

// The outcome of these seats, which close the book. The shares are put together to all parts of the ledger, so
// that its total is seen to be the number of their receipts.
fn outcome_of_seats<L: Sharing<P::Local>, P: Application>(
    locked: Locked<L, P>,
    last: Share<L>,
    cut: Cut<L>,
    seats: Vec<Seat<L>>,
    mut lists: Vec<SeatList>,
) -> Outcome<P>
    requires last { (last.parts ≡ 1) × (last.amount ≡ 0) }
    requires seats { AreSeatLists P.app P.from_text locked.book locked.mark (map list_of seats.items) }
    requires room { (lists.items ≡ []) × (length seats.items ≤ vec_capacity lists) }
    ensures closed { IsClosed P.app P.from_text L.book result.book result.seats.items }
    ensures lists { result.seats.items ≡ map list_of seats.items }
{
    cut.lemma_one_more();
    locked.lemma_is_locked();
    let Locked {
        book,
        mark: _,
        mut tally,
    } = locked;
    book.config().lemma_is_graph();
    let mut all = last;
    for seat in seats {
        let Seat {
            node,
            share,
            receipts,
        } = seat;
        all.merge(share);
        lists.push_reserved(SeatList { node, receipts });
    }
    tally.audit(&mut all);
    Outcome { book, seats: lists }
}
