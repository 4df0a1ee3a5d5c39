// Runs with a thread for each node, on several topologies.

ghost use Rattle.std.specs.Prelude.{◌≤◌};

use crate::assert_equal;
use crate::choice::takes;
use crate::topologies::{booted, grid, line, line_and_pair, opened, ring, star};
use crate::turns::Still;
use app_interface::{Application, Here, Idle, Seen};
use app_mutex::EdgeReversal;
use app_routes::Routes;
use app_token::{Token, TokenLocal};
use history::{Book, Entry, Receipt, verify};
use node_threads::{Outcome, SeatList, run_nodes};
use reset_machine::{Config, Event, Reply};
use std::alloc::Global;
use std::process::Abort;
use std::sync::Wait;
use std::thread::Threads;
use topology::Topology;

// How many turns each node takes in a run on this shape. Most of them are entries, and the star's are the longest to judge.
fn turns_of(shape: Shape) -> u32
    ensures { result ≤ 100 }
{
    match shape {
        Shape::Star => 10,
        _ => 100,
    }
}

// How many runs of an application there are on each topology.
const RUNS: u32 = 10;

// The topologies of the runs: the line of three nodes, the same line and a pair beside it, the ring of eight, the
// grid of sixteen and the star of sixty-four.
#[derive(Clone, Copy)]
enum Shape {
    Line,
    LineAndPair,
    Ring,
    Grid,
    Star,
}

fn topology_of(rt: &impl Abort, alloc: Global, shape: Shape) -> Topology {
    match shape {
        Shape::Line => line(rt, alloc),
        Shape::LineAndPair => line_and_pair(rt, alloc),
        Shape::Ring => ring(rt, alloc),
        Shape::Grid => grid(rt, alloc),
        Shape::Star => star(rt, alloc, 64),
    }
}

// The leaders of its components.
fn leaders_of(shape: Shape) -> &'static [u32] {
    match shape {
        Shape::Line => &[3],
        Shape::LineAndPair => &[3, 5],
        Shape::Ring => &[8],
        Shape::Grid => &[16],
        Shape::Star => &[64],
    }
}

// The shape, booted.
fn booted_shape<P: Application>(rt: &impl Abort, alloc: Global, shape: Shape) -> Config<P> {
    booted::<P>(rt, alloc, topology_of(rt, alloc, shape))
}

// The steps of the book, none of whose entries is a fault.
fn steps_of<P: Application>(rt: &impl Abort, alloc: Global, book: &Book<P>) -> Vec<Event> {
    let mut steps = Vec::new(alloc);
    for position in 1..=book.len() {
        match book.entry(position) {
            Some(Entry::Step(event)) => steps.push(*event).expect(rt, "memory for a step"),
            _ => panic!(rt; "a step"),
        }
    }
    steps
}

// The book is a history of the shape, with the reports that it has.
fn is_history<P: Application>(
    rt: &impl Abort,
    alloc: Global,
    shape: Shape,
    book: &Book<P>,
    steps: &[Event],
) {
    let mut entries = Vec::new(alloc);
    for event in steps {
        entries
            .push(Entry::Step(*event))
            .expect(rt, "memory for an entry");
    }
    match verify(alloc, booted_shape::<P>(rt, alloc, shape), &entries) {
        Ok(summary) => {
            assert_equal(rt, summary.entries, book.len());
            assert!(rt; summary.reports.as_slice() == book.reports());
        }
        Err(_) => panic!(rt; "a history"),
    }
}

// What each of the steps answers, one after the other, on the booted shape.
fn receipts_of<P: Application>(
    rt: &impl Abort,
    alloc: Global,
    shape: Shape,
    steps: &[Event],
) -> Vec<Receipt> {
    let mut config = booted_shape::<P>(rt, alloc, shape);
    let mut receipts = Vec::new(alloc);
    for (index, event) in steps.iter().enumerate() {
        match config.step(alloc, *event) {
            Ok(reply) => {
                let receipt = Receipt {
                    position: index.saturating_add(1),
                    event: *event,
                    reply,
                };
                receipts.push(receipt).expect(rt, "memory for a receipt");
            }
            Err(_) => panic!(rt; "a step"),
        }
    }
    drop(config);
    receipts
}

// Whether the list has just those of the receipts that are of its node, in order.
fn is_list_of(list: &SeatList, receipts: &[Receipt]) -> bool {
    let mut told = list.receipts.iter();
    for receipt in receipts {
        if receipt.event.node() == list.node && told.next() != Some(receipt) {
            return false;
        }
    }
    told.next().is_none()
}

// There is one list for each node, ascending, with its receipts, and there are no other receipts.
fn has_lists<P: Application>(rt: &impl Abort, outcome: &Outcome<P>, receipts: &[Receipt]) {
    let ids = outcome.book.config().topology().ids();
    assert_equal(rt, outcome.seats.len(), ids.len());
    let mut told = 0usize;
    for (list, id) in outcome.seats.iter().zip(ids) {
        assert_equal(rt, list.node, *id);
        assert!(rt; is_list_of(list, receipts), "node {id}");
        told = told.saturating_add(list.receipts.len());
    }
    assert_equal(rt, told, outcome.book.len());
}

// The steps of a run on the shape, in which node 1 is selected.
fn run<P: Application, R: Threads + Wait + Sync + Abort>(
    rt: &R,
    alloc: Global,
    shape: Shape,
) -> Vec<Event> {
    let book = opened::<P>(rt, alloc, topology_of(rt, alloc, shape));
    match run_nodes(rt, alloc, &Still, book, turns_of(shape), Some(1)) {
        Ok(outcome) => {
            let steps = steps_of(rt, alloc, &outcome.book);
            assert!(rt; steps.contains(&Event::Request { at: 1 }));
            is_history::<P>(rt, alloc, shape, &outcome.book, &steps);
            let receipts = receipts_of::<P>(rt, alloc, shape, &steps);
            has_lists(rt, &outcome, &receipts);
            drop(outcome);
            steps
        }
        Err(_) => panic!(rt; "a run"),
    }
}

// How many of the receipts are of completions.
fn completions(receipts: &[Receipt]) -> usize {
    receipts
        .iter()
        .filter(|receipt| receipt.reply != Reply::Applied)
        .count()
}

// All runs of the application that idles: the reset that node 1 asks for completes, and no other is begun.
fn idle_runs<R: Threads + Wait + Sync + Abort>(rt: &R, alloc: Global, shape: Shape) {
    for _ in 0..RUNS {
        let steps = run::<Idle, R>(rt, alloc, shape);
        let receipts = receipts_of::<Idle>(rt, alloc, shape, &steps);
        assert_equal(rt, completions(&receipts), 1);
    }
}

// All runs of an application of which nothing more is asked.
fn runs<P: Application, R: Threads + Wait + Sync + Abort>(rt: &R, alloc: Global, shape: Shape) {
    for _ in 0..RUNS {
        let _ = run::<P, R>(rt, alloc, shape);
    }
}

#[test]
fn idle_nodes_on_the_line_complete_their_reset_once(rt: HostRuntime) {
    idle_runs::<HostRuntime>(&rt, rt.alloc(), Shape::Line);
}

// Nobody in the pair asks for a reset, and so it does nothing.
#[test]
fn idle_nodes_beside_the_line_do_nothing(rt: HostRuntime) {
    for _ in 0..RUNS {
        let steps = run::<Idle, HostRuntime>(&rt, rt.alloc(), Shape::LineAndPair);
        for step in &steps {
            assert!(rt; step.node() <= 3, "{step:?}");
        }
        let receipts = receipts_of::<Idle>(&rt, rt.alloc(), Shape::LineAndPair, &steps);
        assert_equal(&rt, completions(&receipts), 1);
    }
}

#[test]
fn idle_nodes_on_the_ring_complete_their_reset_once(rt: HostRuntime) {
    idle_runs::<HostRuntime>(&rt, rt.alloc(), Shape::Ring);
}

#[test]
fn idle_nodes_on_the_grid_complete_their_reset_once(rt: HostRuntime) {
    idle_runs::<HostRuntime>(&rt, rt.alloc(), Shape::Grid);
}

#[test]
fn idle_nodes_on_the_star_complete_their_reset_once(rt: HostRuntime) {
    idle_runs::<HostRuntime>(&rt, rt.alloc(), Shape::Star);
}

#[test]
fn routes_on_the_line_are_told_their_entries(rt: HostRuntime) {
    runs::<Routes, HostRuntime>(&rt, rt.alloc(), Shape::Line);
}

#[test]
fn routes_on_the_ring_are_told_their_entries(rt: HostRuntime) {
    runs::<Routes, HostRuntime>(&rt, rt.alloc(), Shape::Ring);
}

#[test]
fn routes_on_the_grid_are_told_their_entries(rt: HostRuntime) {
    runs::<Routes, HostRuntime>(&rt, rt.alloc(), Shape::Grid);
}

#[test]
fn routes_on_the_star_are_told_their_entries(rt: HostRuntime) {
    runs::<Routes, HostRuntime>(&rt, rt.alloc(), Shape::Star);
}

// Whether the node has joined the newest session and is in. A node that hasn't joined it restarts outside.
fn is_in(config: &Config<EdgeReversal>, id: u32) -> bool {
    config.newest_local(id).is_some_and(|local| local.inside)
}

// Whether no two neighbours are in.
fn neighbours_exclude(config: &Config<EdgeReversal>) -> bool {
    let topology = config.topology();
    let ids = topology.ids();
    for index in 0..topology.len() {
        if is_in(config, ids[index]) {
            for near in topology.neighbours(index) {
                if is_in(config, ids[*near]) {
                    return false;
                }
            }
        }
    }
    true
}

// All runs of the exclusion: after each entry no two neighbours are in.
fn exclusion_runs<R: Threads + Wait + Sync + Abort>(rt: &R, alloc: Global, shape: Shape) {
    for _ in 0..RUNS {
        let steps = run::<EdgeReversal, R>(rt, alloc, shape);
        let mut config = booted_shape::<EdgeReversal>(rt, alloc, shape);
        for event in &steps {
            takes(rt, alloc, &mut config, *event);
            assert!(rt; neighbours_exclude(&config));
        }
    }
}

#[test]
fn neighbours_on_the_line_exclude_each_other(rt: HostRuntime) {
    exclusion_runs::<HostRuntime>(&rt, rt.alloc(), Shape::Line);
}

#[test]
fn neighbours_on_the_ring_exclude_each_other(rt: HostRuntime) {
    exclusion_runs::<HostRuntime>(&rt, rt.alloc(), Shape::Ring);
}

#[test]
fn neighbours_on_the_grid_exclude_each_other(rt: HostRuntime) {
    exclusion_runs::<HostRuntime>(&rt, rt.alloc(), Shape::Grid);
}

#[test]
fn neighbours_on_the_star_exclude_each_other(rt: HostRuntime) {
    exclusion_runs::<HostRuntime>(&rt, rt.alloc(), Shape::Star);
}

// The local states as they would be if all nodes had restarted where the newest session was opened: of a node
// that hasn't joined it, the start state.
fn states_of(rt: &impl Abort, alloc: Global, config: &Config<Token>) -> Vec<TokenLocal> {
    let mut states = Vec::new(alloc);
    for (index, id) in config.topology().ids().iter().enumerate() {
        let state = match config.newest_local(*id) {
            Some(local) => Token::copy(alloc, local),
            None => Token::on_start(alloc, config.topology(), index),
        };
        let state = state.expect(rt, "memory for a local state");
        states.push(state).expect(rt, "memory for a local state");
    }
    states
}

// Whether the token is on its way to the node from this neighbour: a node that doesn't hold it may take it.
fn arrives(
    rt: &impl Abort,
    alloc: Global,
    here: Here,
    own: &TokenLocal,
    from: Seen<'_, TokenLocal>,
) -> bool {
    let mut free = Token::copy(alloc, own).expect(rt, "memory for a local state");
    free.hold = false;
    Token::can(here, 2, Some(from.id), &free, &[from])
}

// Whether the node with this index has this leader.
fn is_led_by(topology: &Topology, index: usize, leader: u32) -> bool {
    index < topology.len() && topology.is_up(index) && topology.greatest_of(index).get() == leader
}

// How often the token is at the node with this index, held there or on its way to it.
fn tokens_at(
    rt: &impl Abort,
    alloc: Global,
    topology: &Topology,
    states: &[TokenLocal],
    index: usize,
) -> usize {
    let ids = topology.ids();
    assert!(rt; index < ids.len() && states.len() == ids.len());
    let own = &states[index];
    let here = Here {
        id: ids[index],
        k: 64,
    };
    let mut count = usize::from(own.hold);
    for near in topology.neighbours(index) {
        let from = Seen {
            id: ids[*near],
            local: &states[*near],
        };
        if arrives(rt, alloc, here, own, from) {
            count = count.saturating_add(1);
        }
    }
    count
}

// How often the token of the component with this leader is there: held by a node, or on its way.
fn tokens(rt: &impl Abort, alloc: Global, config: &Config<Token>, leader: u32) -> usize {
    let topology = config.topology();
    let states = states_of(rt, alloc, config);
    let mut count = 0usize;
    for index in 0..topology.len() {
        if is_led_by(topology, index, leader) {
            count = count.saturating_add(tokens_at(rt, alloc, topology, &states, index));
        }
    }
    count
}

// All runs of the token: after each entry it is there once in each component.
fn token_runs<R: Threads + Wait + Sync + Abort>(rt: &R, alloc: Global, shape: Shape) {
    for _ in 0..RUNS {
        let steps = run::<Token, R>(rt, alloc, shape);
        let mut config = booted_shape::<Token>(rt, alloc, shape);
        for event in &steps {
            takes(rt, alloc, &mut config, *event);
            for leader in leaders_of(shape) {
                assert_equal(rt, tokens(rt, alloc, &config, *leader), 1);
            }
        }
    }
}

#[test]
fn the_token_on_the_line_is_there_once(rt: HostRuntime) {
    token_runs::<HostRuntime>(&rt, rt.alloc(), Shape::Line);
}

#[test]
fn each_component_has_its_token_once(rt: HostRuntime) {
    token_runs::<HostRuntime>(&rt, rt.alloc(), Shape::LineAndPair);
}

#[test]
fn the_token_on_the_ring_is_there_once(rt: HostRuntime) {
    token_runs::<HostRuntime>(&rt, rt.alloc(), Shape::Ring);
}

#[test]
fn the_token_on_the_grid_is_there_once(rt: HostRuntime) {
    token_runs::<HostRuntime>(&rt, rt.alloc(), Shape::Grid);
}

#[test]
fn the_token_on_the_star_is_there_once(rt: HostRuntime) {
    token_runs::<HostRuntime>(&rt, rt.alloc(), Shape::Star);
}
