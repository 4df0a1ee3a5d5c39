// What happens at the seats of one sharing.

ghost use Rattle.std.specs.Prelude.{◌≡◌, ◌+◌, length};

use crate::assert_equal;
use app_interface::Idle;
use history::{Book, Entry, Receipt};
use node_threads::{
    CommitRefusal, Outcome, Seat, SeatRefusal, ShareFault, Shared, Sharing, close, select, share,
};
use reset_machine::{Event, Plan, Reply, View};
use std::alloc::Global;
use std::marker::Brand;
use std::process::Abort;
use std::sync::Wait;
use std::sync::ledger::Blank;
use wave_layer::Phase;

// What a test does with what is shared and its seats. The name of the sharing is a parameter, so that it is
// written for each.
pub(crate) trait Scene {
    fn play<L: Sharing<()>, R: Wait + Abort>(
        rt: &R,
        alloc: Global,
        shared: Shared<L, Idle>,
        seats: Vec<Seat<L>>,
    );
}

// Shares the book and plays the scene. Or the fault, and the book that came back.
pub(crate) fn play<S: Scene, R: Wait + Abort>(
    rt: &R,
    alloc: Global,
    book: Book<Idle>,
) -> Result<(), (ShareFault, Book<Idle>)> {
    let nodes = book.config().topology().node_count();
    let blank = Blank::new(nodes as u64 + 1);
    play_round::<Brand, S, R>(rt, alloc, blank, book)
}

// Shares the book and plays the scene.
pub(crate) fn plays<S: Scene, R: Wait + Abort>(rt: &R, alloc: Global, book: Book<Idle>) {
    match play::<S, R>(rt, alloc, book) {
        Ok(()) => {}
        Err((fault, book)) => {
            drop(book);
            panic!(rt; "{fault:?}")
        }
    }
}

fn play_round<L: Sharing<()>, S: Scene, R: Wait + Abort>(
    rt: &R,
    alloc: Global,
    blank: Blank,
    book: Book<Idle>,
) -> Result<(), (ShareFault, Book<Idle>)>
    requires name { blank.name ≡ L.name }
    requires parts { blank.parts ≡ L.parts }
    requires one_more { L.parts ≡ length L.nodes + 1 }
    requires nodes { book.config.graph.nodes ≡ L.nodes }
    requires book { book ≡ L.book }
{
    match share::<L, Idle>(alloc, blank, book) {
        Ok((shared, seats)) => {
            S::play::<L, R>(rt, alloc, shared, seats);
            Ok(())
        }
        Err((fault, _blank, book)) => Err((fault, book)),
    }
}

// The seats of the nodes 1, 2, 3.
pub(crate) fn three<L: Sharing<()>>(
    rt: &impl Abort,
    mut seats: Vec<Seat<L>>,
) -> (Seat<L>, Seat<L>, Seat<L>) {
    assert_equal(rt, seats.len(), 3);
    let third = seat_of(rt, seats.pop(), 3);
    let second = seat_of(rt, seats.pop(), 2);
    let first = seat_of(rt, seats.pop(), 1);
    (first, second, third)
}

// The seat, which is of this node.
fn seat_of<L: Sharing<()>>(rt: &impl Abort, seat: Option<Seat<L>>, node: u32) -> Seat<L> {
    match seat {
        Some(seat) => {
            assert_equal(rt, seat.node(), node);
            seat
        }
        None => panic!(rt; "a seat"),
    }
}

// What the seat's node sees.
pub(crate) fn seen<L: Sharing<()>, R: Wait + Abort>(
    rt: &R,
    alloc: Global,
    shared: &Shared<L, Idle>,
    seat: &Seat<L>,
) -> View<Idle> {
    match shared.look(rt, alloc, seat) {
        Ok(view) => view,
        Err(_) => panic!(rt; "a node"),
    }
}

// What the event would do now at the seat's node.
pub(crate) fn planned<L: Sharing<()>, R: Wait + Abort>(
    rt: &R,
    alloc: Global,
    shared: &Shared<L, Idle>,
    seat: &Seat<L>,
    event: Event,
) -> Plan<Idle> {
    match seen(rt, alloc, shared, seat).plan(alloc, event) {
        Ok(plan) => plan,
        Err(_) => panic!(rt; "a plan"),
    }
}

// Whether the node with this view sees that this neighbour is initiate.
pub(crate) fn sees_initiate(view: &View<Idle>, at: u32) -> bool {
    view.neighbours()
        .iter()
        .any(|near| near.id == at && near.wave.phase == Phase::Initiate)
}

// That the event was applied at this position.
pub(crate) fn applied(position: usize, event: Event) -> Receipt {
    Receipt {
        position,
        event,
        reply: Reply::Applied,
    }
}

// What the seat's node is told when it is selected.
pub(crate) fn selects<L: Sharing<()>, R: Wait + Abort>(
    rt: &R,
    alloc: Global,
    shared: &Shared<L, Idle>,
    seat: &mut Seat<L>,
    told: Result<Receipt, SeatRefusal>,
) {
    assert_equal(rt, select(rt, alloc, shared, seat), told);
}

// What the seat is told of a step.
pub(crate) fn steps<L: Sharing<()>, R: Wait + Abort>(
    rt: &R,
    alloc: Global,
    shared: &Shared<L, Idle>,
    seat: &mut Seat<L>,
    event: Event,
    told: Result<Receipt, SeatRefusal>,
) {
    assert_equal(rt, shared.step(rt, alloc, seat, event), told);
}

// Commits the plan at the seat, which is told this.
pub(crate) fn commits<L: Sharing<()>, R: Wait + Abort>(
    rt: &R,
    alloc: Global,
    shared: &Shared<L, Idle>,
    seat: &mut Seat<L>,
    plan: Plan<Idle>,
    told: Receipt,
) {
    match shared.commit(rt, alloc, seat, plan) {
        Ok(receipt) => assert_equal(rt, receipt, told),
        Err(_) => panic!(rt; "a plan of now"),
    }
}

// Why the plan isn't committed, which comes back.
pub(crate) fn refused<L: Sharing<()>, R: Wait + Abort>(
    rt: &R,
    alloc: Global,
    shared: &Shared<L, Idle>,
    seat: &mut Seat<L>,
    plan: Plan<Idle>,
) -> (CommitRefusal<Idle>, Plan<Idle>) {
    match shared.commit(rt, alloc, seat, plan) {
        Ok(_) => panic!(rt; "a plan that isn't committed"),
        Err(answer) => answer,
    }
}

// The seat has these receipts.
pub(crate) fn has_receipts<L: Sharing<()>>(rt: &impl Abort, seat: &Seat<L>, receipts: &[Receipt]) {
    assert!(rt; seat.receipts() == receipts);
}

// The book has so many entries.
pub(crate) fn has_entries(rt: &impl Abort, outcome: &Outcome<Idle>, count: usize) {
    assert_equal(rt, outcome.book.len(), count);
}

// The entry at this position is this step.
pub(crate) fn has_step(rt: &impl Abort, book: &Book<Idle>, position: usize, event: Event) {
    assert!(rt;
        book.entry(position) == Some(&Entry::Step(event)),
        "entry {position}"
    );
}

// The outcome of the sharing with the seats of all nodes, which close it.
pub(crate) fn outcome_of<L: Sharing<()>>(
    rt: &impl Abort,
    alloc: Global,
    shared: Shared<L, Idle>,
    seats: Vec<Seat<L>>,
) -> Outcome<Idle> {
    match close(alloc, shared, seats) {
        Ok(outcome) => outcome,
        Err(_) => panic!(rt; "the seats of all nodes"),
    }
}

// The same of the seats of the nodes 1, 2, 3.
pub(crate) fn closed<L: Sharing<()>>(
    rt: &impl Abort,
    alloc: Global,
    shared: Shared<L, Idle>,
    seats: (Seat<L>, Seat<L>, Seat<L>),
) -> Outcome<Idle> {
    let (first, second, third) = seats;
    let mut all = Vec::new(alloc);
    all.push(first).expect(rt, "memory for a seat");
    all.push(second).expect(rt, "memory for a seat");
    all.push(third).expect(rt, "memory for a seat");
    outcome_of(rt, alloc, shared, all)
}
