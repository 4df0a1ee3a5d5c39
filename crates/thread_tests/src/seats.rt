// Seats: what a commit at them answers, and how they close a sharing.

use crate::assert_equal;
use crate::rounds::{
    Scene, applied, closed, commits, has_entries, has_receipts, has_step, outcome_of, planned,
    play, plays, refused, seen, sees_initiate, selects, three,
};
use crate::topologies::{line, opened, star, takes, takes_down};
use app_interface::Idle;
use history::{ApplyRefusal, Book, BookRefusal};
use node_threads::{
    CloseFault, CommitRefusal, Seat, SeatRefusal, ShareFault, Shared, Sharing, close,
};
use reset_machine::{Event, Plan, StepRefusal, View};
use std::alloc::Global;
use std::process::Abort;
use std::sync::Wait;

// Plays the scene at the seats of the line.
fn play_line<S: Scene, R: Wait + Abort>(rt: &R, alloc: Global) {
    let book = opened::<Idle>(rt, alloc, line(rt, alloc));
    plays::<S, R>(rt, alloc, book);
}

// The seat is of this node, which sees its own registers there.
fn is_of<L: Sharing<()>, R: Wait + Abort>(
    rt: &R,
    alloc: Global,
    shared: &Shared<L, Idle>,
    seat: &Seat<L>,
    node: u32,
) {
    assert_equal(rt, seat.node(), node);
    assert_equal(rt, seen(rt, alloc, shared, seat).id(), node);
}

struct Beginning;

impl Scene for Beginning {
    fn play<L: Sharing<()>, R: Wait + Abort>(
        rt: &R,
        alloc: Global,
        shared: Shared<L, Idle>,
        seats: Vec<Seat<L>>,
    ) {
        assert_equal(rt, seats.len(), 3);
        for (seat, node) in seats.iter().zip([1, 2, 3]) {
            has_receipts(rt, seat, &[]);
            is_of(rt, alloc, &shared, seat, node);
        }
        drop(seats);
        drop(shared);
    }
}

#[test]
fn each_node_has_an_empty_seat_ascending(rt: HostRuntime) {
    play_line::<Beginning, HostRuntime>(&rt, rt.alloc());
}

struct Committing;

impl Scene for Committing {
    fn play<L: Sharing<()>, R: Wait + Abort>(
        rt: &R,
        alloc: Global,
        shared: Shared<L, Idle>,
        seats: Vec<Seat<L>>,
    ) {
        let (mut first, second, third) = three(rt, seats);
        let request = Event::Request { at: 1 };
        let plan = planned(rt, alloc, &shared, &first, request);
        let told = applied(1, request);
        commits(rt, alloc, &shared, &mut first, plan, told);
        has_receipts(rt, &first, &[told]);
        let again = SeatRefusal::Refused(BookRefusal::Refused(StepRefusal::NotEnabled));
        selects(rt, alloc, &shared, &mut first, Err(again));
        let outcome = closed(rt, alloc, shared, (first, second, third));
        has_entries(rt, &outcome, 1);
        has_step(rt, &outcome.book, 1, request);
        drop(outcome);
    }
}

#[test]
fn a_committed_plan_is_the_first_entry(rt: HostRuntime) {
    play_line::<Committing, HostRuntime>(&rt, rt.alloc());
}

// The plan is of this event, as this node saw it.
fn is_plan(rt: &impl Abort, plan: &Plan<Idle>, node: u32, event: Event) {
    assert_equal(rt, plan.event(), event);
    assert_equal(rt, plan.seen_view().id(), node);
}

struct Mistaking;

impl Scene for Mistaking {
    fn play<L: Sharing<()>, R: Wait + Abort>(
        rt: &R,
        alloc: Global,
        shared: Shared<L, Idle>,
        seats: Vec<Seat<L>>,
    ) {
        let (first, mut second, third) = three(rt, seats);
        let request = Event::Request { at: 1 };
        let plan = planned(rt, alloc, &shared, &first, request);
        let (refusal, back) = refused(rt, alloc, &shared, &mut second, plan);
        assert!(rt; matches!(refusal, CommitRefusal::NotYours));
        is_plan(rt, &back, 1, request);
        drop(back);
        has_receipts(rt, &second, &[]);
        let outcome = closed(rt, alloc, shared, (first, second, third));
        has_entries(rt, &outcome, 0);
        drop(outcome);
    }
}

#[test]
fn a_plan_of_another_node_comes_back(rt: HostRuntime) {
    play_line::<Mistaking, HostRuntime>(&rt, rt.alloc());
}

// What the node of a stale plan sees.
fn seen_instead(rt: &impl Abort, refusal: CommitRefusal<Idle>) -> View<Idle> {
    match refusal {
        CommitRefusal::NotYours => panic!(rt; "a plan of this node"),
        CommitRefusal::Refused(why) => match why {
            ApplyRefusal::Stale(now) => now,
            _ => panic!(rt; "a stale plan"),
        },
    }
}

// Node 2 sees now that node 1 is initiate, and didn't when the plan was made.
fn is_overtaken(rt: &impl Abort, now: &View<Idle>, plan: &Plan<Idle>) {
    assert_equal(rt, now.id(), 2);
    assert!(rt; sees_initiate(now, 1));
    assert!(rt; !sees_initiate(plan.seen_view(), 1));
}

struct Overtaking;

impl Scene for Overtaking {
    fn play<L: Sharing<()>, R: Wait + Abort>(
        rt: &R,
        alloc: Global,
        shared: Shared<L, Idle>,
        seats: Vec<Seat<L>>,
    ) {
        let (mut first, mut second, third) = three(rt, seats);
        let (one, two) = (Event::Request { at: 1 }, Event::Request { at: 2 });
        let early = planned(rt, alloc, &shared, &first, one);
        let late = planned(rt, alloc, &shared, &second, two);
        commits(rt, alloc, &shared, &mut first, early, applied(1, one));
        let (refusal, back) = refused(rt, alloc, &shared, &mut second, late);
        let now = seen_instead(rt, refusal);
        is_overtaken(rt, &now, &back);
        drop(now);
        is_plan(rt, &back, 2, two);
        drop(back);
        assert_equal(rt, second.node(), 2);
        has_receipts(rt, &second, &[]);
        let outcome = closed(rt, alloc, shared, (first, second, third));
        has_entries(rt, &outcome, 1);
        drop(outcome);
    }
}

#[test]
fn a_plan_that_a_neighbour_overtook_comes_back_stale(rt: HostRuntime) {
    play_line::<Overtaking, HostRuntime>(&rt, rt.alloc());
}

// Node 2 is missing where these two seats close the sharing, and all comes back.
fn lacks_node_2<L: Sharing<()>>(
    rt: &impl Abort,
    alloc: Global,
    shared: Shared<L, Idle>,
    first: Seat<L>,
    third: Seat<L>,
) -> (Shared<L, Idle>, Vec<Seat<L>>) {
    let mut some = Vec::new(alloc);
    some.push(first).expect(rt, "memory for a seat");
    some.push(third).expect(rt, "memory for a seat");
    match close(alloc, shared, some) {
        Ok(_) => panic!(rt; "node 2 has no seat"),
        Err((fault, shared, back)) => {
            assert_equal(rt, fault, CloseFault::SeatMissing(2));
            (shared, back)
        }
    }
}

struct Missing;

impl Scene for Missing {
    fn play<L: Sharing<()>, R: Wait + Abort>(
        rt: &R,
        alloc: Global,
        shared: Shared<L, Idle>,
        seats: Vec<Seat<L>>,
    ) {
        let (mut first, second, third) = three(rt, seats);
        let request = Event::Request { at: 1 };
        selects(rt, alloc, &shared, &mut first, Ok(applied(1, request)));
        let (shared, mut back) = lacks_node_2(rt, alloc, shared, first, third);
        assert_equal(rt, back.len(), 2);
        back.push(second).expect(rt, "memory for a seat");
        let outcome = outcome_of(rt, alloc, shared, back);
        has_entries(rt, &outcome, 1);
        drop(outcome);
    }
}

#[test]
fn a_missing_seat_is_named_and_all_comes_back(rt: HostRuntime) {
    play_line::<Missing, HostRuntime>(&rt, rt.alloc());
}

struct Many;

impl Scene for Many {
    fn play<L: Sharing<()>, R: Wait + Abort>(
        rt: &R,
        alloc: Global,
        shared: Shared<L, Idle>,
        seats: Vec<Seat<L>>,
    ) {
        assert_equal(rt, seats.len(), 64);
        let outcome = outcome_of(rt, alloc, shared, seats);
        has_entries(rt, &outcome, 1);
        drop(outcome);
    }
}

// A book of the star with this many nodes, whose entry is a request at node 2.
fn star_book(rt: &impl Abort, alloc: Global, count: u32) -> Book<Idle> {
    let mut book = opened::<Idle>(rt, alloc, star(rt, alloc, count));
    takes(rt, alloc, &mut book, Event::Request { at: 2 });
    book
}

#[test]
fn sixty_four_nodes_are_shared(rt: HostRuntime) {
    let book = star_book(&rt, rt.alloc(), 64);
    plays::<Many, HostRuntime>(&rt, rt.alloc(), book);
}

// The book, which has too many nodes to be shared, as it comes back.
fn too_many<S: Scene, R: Wait + Abort>(rt: &R, alloc: Global, book: Book<Idle>) -> Book<Idle> {
    match play::<S, R>(rt, alloc, book) {
        Ok(()) => panic!(rt; "too many nodes"),
        Err((fault, book)) => {
            assert_equal(rt, fault, ShareFault::TooManyForThreads);
            book
        }
    }
}

#[test]
fn sixty_five_nodes_are_too_many_and_the_book_comes_back(rt: HostRuntime) {
    let book = star_book(&rt, rt.alloc(), 65);
    let book = too_many::<Many, HostRuntime>(&rt, rt.alloc(), book);
    assert_equal(&rt, book.config().topology().len(), 65);
    assert_equal(&rt, book.len(), 1);
    has_step(&rt, &book, 1, Event::Request { at: 2 });
    drop(book);
}

// A book of the star with this many nodes, of which those from 2 on go down in turn until so many are up.
fn thinned_book(rt: &impl Abort, alloc: Global, count: u32, up: u32) -> Book<Idle> {
    let mut book = opened::<Idle>(rt, alloc, star(rt, alloc, count));
    for at in 2..count.saturating_sub(up).saturating_add(2) {
        takes_down(rt, alloc, &mut book, at);
    }
    book
}

struct OfThoseUp;

impl Scene for OfThoseUp {
    fn play<L: Sharing<()>, R: Wait + Abort>(
        rt: &R,
        alloc: Global,
        shared: Shared<L, Idle>,
        seats: Vec<Seat<L>>,
    ) {
        assert_equal(rt, seats.len(), 2);
        for (seat, node) in seats.iter().zip([1, 2]) {
            assert_equal(rt, seat.node(), node);
        }
        let outcome = outcome_of(rt, alloc, shared, seats);
        has_entries(rt, &outcome, 1);
        drop(outcome);
    }
}

#[test]
fn nodes_that_are_up_have_seats(rt: HostRuntime) {
    let mut book = opened::<Idle>(&rt, rt.alloc(), line(&rt, rt.alloc()));
    takes_down(&rt, rt.alloc(), &mut book, 3);
    plays::<OfThoseUp, HostRuntime>(&rt, rt.alloc(), book);
}

struct Empty;

impl Scene for Empty {
    fn play<L: Sharing<()>, R: Wait + Abort>(
        rt: &R,
        alloc: Global,
        shared: Shared<L, Idle>,
        seats: Vec<Seat<L>>,
    ) {
        assert!(rt; seats.is_empty());
        let outcome = outcome_of(rt, alloc, shared, seats);
        has_entries(rt, &outcome, 3);
        assert!(rt; outcome.seats.is_empty());
        drop(outcome);
    }
}

#[test]
fn no_node_is_up_and_none_has_a_seat(rt: HostRuntime) {
    let mut book = opened::<Idle>(&rt, rt.alloc(), line(&rt, rt.alloc()));
    for at in [1, 2, 3] {
        takes_down(&rt, rt.alloc(), &mut book, at);
    }
    plays::<Empty, HostRuntime>(&rt, rt.alloc(), book);
}

struct ManyUp;

impl Scene for ManyUp {
    fn play<L: Sharing<()>, R: Wait + Abort>(
        rt: &R,
        alloc: Global,
        shared: Shared<L, Idle>,
        seats: Vec<Seat<L>>,
    ) {
        assert_equal(rt, seats.len(), 64);
        assert!(rt;
            seats
                .iter()
                .all(|seat| seat.node() == 1 || seat.node() > 961)
        );
        drop(outcome_of(rt, alloc, shared, seats));
    }
}

#[test]
fn sixty_four_nodes_of_1024_are_shared(rt: HostRuntime) {
    let book = thinned_book(&rt, rt.alloc(), 1024, 64);
    plays::<ManyUp, HostRuntime>(&rt, rt.alloc(), book);
}

#[test]
fn sixty_five_nodes_of_70_are_too_many(rt: HostRuntime) {
    let book = thinned_book(&rt, rt.alloc(), 70, 65);
    let book = too_many::<ManyUp, HostRuntime>(&rt, rt.alloc(), book);
    assert_equal(&rt, book.config().topology().node_count(), 65);
    drop(book);
}
