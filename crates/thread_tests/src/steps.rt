// Steps at the seats of the line.

use crate::assert_equal;
use crate::rounds::{
    Scene, applied, closed, has_entries, has_receipts, has_step, plays, seen, sees_initiate,
    selects, steps, three,
};
use crate::topologies::{booted_line, line, opened};
use app_interface::Idle;
use history::Receipt;
use node_threads::{Seat, SeatList, SeatRefusal, Shared, Sharing};
use reset_machine::{Config, Event, Reply};
use std::alloc::Global;
use std::process::Abort;
use std::sync::Wait;
use test_networks::WHOLE_RESET;

// Node 1 is told the one receipt, node 2 the other, and node 3 none.
fn has_lists(rt: &impl Abort, lists: &[SeatList], first: Receipt, second: Receipt) {
    assert_equal(rt, lists.len(), 3);
    for list in lists {
        match list.node {
            1 => assert!(rt; list.receipts.as_slice() == [first].as_slice()),
            2 => assert!(rt; list.receipts.as_slice() == [second].as_slice()),
            _ => assert!(rt; list.receipts.is_empty()),
        }
    }
}

struct Relaying;

impl Scene for Relaying {
    fn play<L: Sharing<()>, R: Wait + Abort>(
        rt: &R,
        alloc: Global,
        shared: Shared<L, Idle>,
        seats: Vec<Seat<L>>,
    ) {
        let (mut first, mut second, third) = three(rt, seats);
        assert!(rt; !sees_initiate(&seen(rt, alloc, &shared, &second), 1));
        let asked = applied(1, Event::Request { at: 1 });
        selects(rt, alloc, &shared, &mut first, Ok(asked));
        assert!(rt; sees_initiate(&seen(rt, alloc, &shared, &second), 1));
        let relay = Event::Relay { at: 2, child: 1 };
        let relayed = applied(2, relay);
        steps(rt, alloc, &shared, &mut second, relay, Ok(relayed));
        let outcome = closed(rt, alloc, shared, (first, second, third));
        has_entries(rt, &outcome, 2);
        has_step(rt, &outcome.book, 2, relay);
        has_lists(rt, &outcome.seats, asked, relayed);
        drop(outcome);
    }
}

#[test]
fn a_selected_node_is_seen_and_each_seat_is_told_its_own_step(rt: HostRuntime) {
    let book = opened::<Idle>(&rt, rt.alloc(), line(&rt, rt.alloc()));
    plays::<Relaying, HostRuntime>(&rt, rt.alloc(), book);
}

struct Straying;

impl Scene for Straying {
    fn play<L: Sharing<()>, R: Wait + Abort>(
        rt: &R,
        alloc: Global,
        shared: Shared<L, Idle>,
        seats: Vec<Seat<L>>,
    ) {
        let (mut first, second, third) = three(rt, seats);
        let other = Event::Request { at: 2 };
        let refused = Err(SeatRefusal::NotYours);
        steps(rt, alloc, &shared, &mut first, other, refused);
        has_receipts(rt, &first, &[]);
        assert!(rt; !sees_initiate(&seen(rt, alloc, &shared, &first), 2));
        let outcome = closed(rt, alloc, shared, (first, second, third));
        has_entries(rt, &outcome, 0);
        drop(outcome);
    }
}

#[test]
fn a_step_of_another_node_is_refused(rt: HostRuntime) {
    let book = opened::<Idle>(&rt, rt.alloc(), line(&rt, rt.alloc()));
    plays::<Straying, HostRuntime>(&rt, rt.alloc(), book);
}

// Does the event of the receipt at the seat of its node, which is told it.
fn steps_at<L: Sharing<()>, R: Wait + Abort>(
    rt: &R,
    alloc: Global,
    shared: &Shared<L, Idle>,
    seats: &mut [Seat<L>],
    receipt: Receipt,
) {
    for seat in seats {
        if seat.node() == receipt.event.node() {
            steps(rt, alloc, shared, seat, receipt.event, Ok(receipt));
            return;
        }
    }
    panic!(rt; "a seat of the node")
}

// Does the event in the configuration, which answers this.
fn answers(rt: &impl Abort, alloc: Global, config: &mut Config<Idle>, event: Event, reply: Reply) {
    assert_equal(rt, config.step(alloc, event), Ok(reply));
}

// Whether the views of the seat's node are the same.
fn sees_as<L: Sharing<()>, R: Wait + Abort>(
    rt: &R,
    alloc: Global,
    shared: &Shared<L, Idle>,
    seat: &Seat<L>,
    config: &Config<Idle>,
) -> bool {
    match config.view(alloc, seat.node()) {
        Ok(view) => view.same(&seen(rt, alloc, shared, seat)),
        Err(_) => false,
    }
}

// Whether each seat's node sees what it sees in the configuration.
fn sees_the_same<L: Sharing<()>, R: Wait + Abort>(
    rt: &R,
    alloc: Global,
    shared: &Shared<L, Idle>,
    seats: &[Seat<L>],
    config: &Config<Idle>,
) -> bool {
    for seat in seats {
        if !sees_as(rt, alloc, shared, seat, config) {
            return false;
        }
    }
    true
}

struct WholeReset;

impl Scene for WholeReset {
    fn play<L: Sharing<()>, R: Wait + Abort>(
        rt: &R,
        alloc: Global,
        shared: Shared<L, Idle>,
        mut seats: Vec<Seat<L>>,
    ) {
        let mut config = booted_line::<Idle>(rt, alloc);
        assert!(rt; sees_the_same(rt, alloc, &shared, &seats, &config));
        for (event, position) in WHOLE_RESET.into_iter().zip(1..=9) {
            let reply = if position == 9 {
                Reply::Complete(1)
            } else {
                Reply::Applied
            };
            answers(rt, alloc, &mut config, event, reply);
            let receipt = Receipt {
                position,
                event,
                reply,
            };
            steps_at(rt, alloc, &shared, &mut seats, receipt);
            assert!(rt; sees_the_same(rt, alloc, &shared, &seats, &config));
        }
        drop(config);
    }
}

#[test]
fn after_each_step_of_a_reset_each_seat_shows_what_its_node_sees(rt: HostRuntime) {
    let book = opened::<Idle>(&rt, rt.alloc(), line(&rt, rt.alloc()));
    plays::<WholeReset, HostRuntime>(&rt, rt.alloc(), book);
}
