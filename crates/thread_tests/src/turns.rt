// The turns of one node, in one thread.

use crate::assert_equal;
use crate::rounds::{Scene, applied, has_receipts, plays, selects, three};
use crate::topologies::small;
use app_interface::Idle;
use node_threads::{Gate, Seat, Shared, Sharing, TurnsEnd, node_turns};
use reset_machine::Event;
use std::alloc::Global;
use std::process::Abort;
use std::sync::Wait;

// A gate that does nothing.
pub struct Still;

impl Gate for Still {
    fn planned(&self, _node: u32) {}

    fn committed(&self, _node: u32) {}
}

// How ten turns, or fewer, end at the seat.
fn turns_end<L: Sharing<()>, R: Wait + Abort>(
    rt: &R,
    alloc: Global,
    shared: &Shared<L, Idle>,
    seat: &mut Seat<L>,
    turns: u32,
    end: TurnsEnd,
) {
    assert!(rt; turns <= 10);
    let ended = node_turns(rt, alloc, &Still, shared, seat, turns);
    assert_equal(rt, ended, end);
}

struct Turning;

impl Scene for Turning {
    fn play<L: Sharing<()>, R: Wait + Abort>(
        rt: &R,
        alloc: Global,
        shared: Shared<L, Idle>,
        seats: Vec<Seat<L>>,
    ) {
        let (mut first, mut second, mut third) = three(rt, seats);
        turns_end(rt, alloc, &shared, &mut first, 10, TurnsEnd::Done);
        has_receipts(rt, &first, &[]);
        let request = applied(1, Event::Request { at: 3 });
        let open = applied(2, Event::Open { at: 3 });
        let join = applied(3, Event::Join { at: 2 });
        selects(rt, alloc, &shared, &mut third, Ok(request));
        turns_end(rt, alloc, &shared, &mut third, 10, TurnsEnd::Done);
        has_receipts(rt, &third, &[request, open]);
        // It takes no turn, then one, and then it waits for node 1.
        turns_end(rt, alloc, &shared, &mut second, 0, TurnsEnd::Done);
        has_receipts(rt, &second, &[]);
        for turns in [1, 10] {
            turns_end(rt, alloc, &shared, &mut second, turns, TurnsEnd::Done);
            has_receipts(rt, &second, &[join]);
        }
    }
}

#[test]
fn turns_do_what_the_node_may_do_and_no_more_than_are_given(rt: HostRuntime) {
    let book = small::<Idle>(&rt, rt.alloc(), 20);
    plays::<Turning, HostRuntime>(&rt, rt.alloc(), book);
}

struct Filling;

impl Scene for Filling {
    fn play<L: Sharing<()>, R: Wait + Abort>(
        rt: &R,
        alloc: Global,
        shared: Shared<L, Idle>,
        seats: Vec<Seat<L>>,
    ) {
        let (first, second, mut third) = three(rt, seats);
        let request = applied(1, Event::Request { at: 3 });
        selects(rt, alloc, &shared, &mut third, Ok(request));
        turns_end(rt, alloc, &shared, &mut third, 10, TurnsEnd::BookFull);
        has_receipts(rt, &third, &[request]);
        // A node with nothing to do doesn't see that the book is full.
        for mut seat in [first, second] {
            turns_end(rt, alloc, &shared, &mut seat, 10, TurnsEnd::Done);
            has_receipts(rt, &seat, &[]);
        }
    }
}

#[test]
fn a_full_book_ends_the_turns(rt: HostRuntime) {
    let book = small::<Idle>(&rt, rt.alloc(), 1);
    plays::<Filling, HostRuntime>(&rt, rt.alloc(), book);
}
