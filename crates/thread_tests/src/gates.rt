// What a gate is told, and what it shows of the threads.

use crate::assert_equal;
use crate::topologies::{line, opened};
use app_interface::Application;
use app_mutex::EdgeReversal;
use app_routes::Routes;
use app_token::Token;
use node_threads::{Gate, Outcome, run_nodes};
use std::alloc::Global;
use std::process::Abort;
use std::sync::Wait;
use std::sync::atomic::{AtomicBool, AtomicU64, Ordering};
use std::thread;
use std::thread::Threads;

// How often a gate that waits looks at most.
const MOST_LOOKS: u64 = 1_000_000_000;

// It lets the other threads on once in so many looks.
const LOOKS_A_TURN: u64 = 64;

// Waits until the flag is raised. False where it wasn't after the last look.
fn is_raised(flag: &AtomicBool) -> bool {
    for look in 0..MOST_LOOKS {
        if flag.load(Ordering::SeqCst) {
            return true;
        }
        if look % LOOKS_A_TURN == 0 {
            thread::yield_now();
        }
    }
    false
}

// Holds the first plan of each node of the line until all nodes have one, and that of node 1 further until
// node 2 has committed.
#[derive(Drop)]
struct Holding {
    first: AtomicBool,
    second: AtomicBool,
    third: AtomicBool,
    second_committed: AtomicBool,
    limit_reached: AtomicBool,
}

impl Holding {
    fn new() -> Holding {
        Holding {
            first: AtomicBool::new(false),
            second: AtomicBool::new(false),
            third: AtomicBool::new(false),
            second_committed: AtomicBool::new(false),
            limit_reached: AtomicBool::new(false),
        }
    }

    // Raises the flag of the node, and tells whether it was up.
    fn raise(&self, node: u32) -> bool {
        match node {
            1 => self.first.swap(true, Ordering::SeqCst),
            2 => self.second.swap(true, Ordering::SeqCst),
            _ => self.third.swap(true, Ordering::SeqCst),
        }
    }

    fn hold(&self, flag: &AtomicBool) {
        if !is_raised(flag) {
            self.limit_reached.store(true, Ordering::SeqCst);
        }
    }
}

impl Gate for Holding {
    fn planned(&self, node: u32) {
        if self.raise(node) {
            return;
        }
        self.hold(&self.first);
        self.hold(&self.second);
        self.hold(&self.third);
        if node == 1 {
            self.hold(&self.second_committed);
        }
    }

    fn committed(&self, node: u32) {
        if node == 2 {
            self.second_committed.store(true, Ordering::SeqCst);
        }
    }
}

// The outcome of a run of the booted line, in which no node asks for a reset.
fn run<P: Application, G: Gate + Sync, R: Threads + Wait + Sync + Abort>(
    rt: &R,
    alloc: Global,
    gate: &G,
) -> Outcome<P> {
    let book = opened::<P>(rt, alloc, line(rt, alloc));
    match run_nodes(rt, alloc, gate, book, 10, None) {
        Ok(outcome) => outcome,
        Err(_) => panic!(rt; "a run"),
    }
}

// The position of the first entry of this node.
fn first_position<P: Application>(outcome: &Outcome<P>, node: u32) -> Option<usize> {
    for list in &outcome.seats {
        if list.node == node {
            let receipt = list.receipts.first()?;
            return Some(receipt.position);
        }
    }
    None
}

#[test]
fn each_node_has_a_thread_and_a_plan_stands_while_another_commits(rt: HostRuntime) {
    let gate = Holding::new();
    let outcome = run::<Routes, Holding, HostRuntime>(&rt, rt.alloc(), &gate);
    assert!(rt; !gate.limit_reached.load(Ordering::SeqCst));
    for flag in [
        &gate.first,
        &gate.second,
        &gate.third,
        &gate.second_committed,
    ] {
        assert!(rt; flag.load(Ordering::SeqCst));
    }
    // Node 1 was held until node 2 had an entry.
    match (first_position(&outcome, 1), first_position(&outcome, 2)) {
        (Some(first), Some(second)) => assert!(rt; second < first),
        _ => panic!(rt; "an entry of each node"),
    }
    drop(outcome);
}

// How often the gate was told of a plan of a node, and of its commitment.
#[derive(Drop)]
struct Told {
    planned: AtomicU64,
    committed: AtomicU64,
}

impl Told {
    fn new() -> Told {
        Told {
            planned: AtomicU64::new(0),
            committed: AtomicU64::new(0),
        }
    }
}

// Counts what it is told of each node of the line.
#[derive(Drop)]
struct Counting {
    first: Told,
    second: Told,
    third: Told,
}

impl Counting {
    fn new() -> Counting {
        Counting {
            first: Told::new(),
            second: Told::new(),
            third: Told::new(),
        }
    }

    fn told(&self, node: u32) -> &Told {
        match node {
            1 => &self.first,
            2 => &self.second,
            _ => &self.third,
        }
    }
}

impl Gate for Counting {
    fn planned(&self, node: u32) {
        self.told(node).planned.fetch_add(1, Ordering::SeqCst);
    }

    fn committed(&self, node: u32) {
        self.told(node).committed.fetch_add(1, Ordering::SeqCst);
    }
}

// The gate was told of as many commitments of each node as its seat has receipts, of no fewer plans, and of as many
// commitments as the book has entries.
fn was_told<P: Application>(rt: &impl Abort, gate: &Counting, outcome: &Outcome<P>) {
    let mut all = 0u64;
    for list in &outcome.seats {
        let told = gate.told(list.node);
        let committed = told.committed.load(Ordering::SeqCst);
        assert_equal(rt, committed, list.receipts.len() as u64);
        assert!(rt; committed <= told.planned.load(Ordering::SeqCst));
        all = all.saturating_add(committed);
    }
    // What is planned first of all isn't stale.
    assert!(rt; all > 0);
    assert_equal(rt, all, outcome.book.len() as u64);
}

fn is_told_of_each<P: Application, R: Threads + Wait + Sync + Abort>(rt: &R, alloc: Global) {
    let gate = Counting::new();
    let outcome = run::<P, Counting, R>(rt, alloc, &gate);
    was_told(rt, &gate, &outcome);
    drop(outcome);
}

#[test]
fn a_gate_is_told_of_each_plan_and_each_commitment(rt: HostRuntime) {
    for _ in 0..10 {
        is_told_of_each::<Token, HostRuntime>(&rt, rt.alloc());
        is_told_of_each::<EdgeReversal, HostRuntime>(&rt, rt.alloc());
        is_told_of_each::<Routes, HostRuntime>(&rt, rt.alloc());
    }
}
