// Faults of a network, and what the checker tells of them.

use crate::assert_equal;
use crate::networks::{booted, triangle};
use crate::page::Picture;
use app_interface::{Application, Idle};
use app_mutex::EdgeReversal;
use fault_inject::{Fault, FaultRefusal, inject, read_fault};
use link_predicates::{check_all, check_node};
use reset_machine::{Config, StepRefusal};
use std::alloc::{AllocError, Global};
use std::process::Abort;

fn read(rt: &impl Abort, alloc: Global, line: &[u8]) -> Fault {
    match again!(rt; read_fault(alloc, line), AllocError, true) {
        Ok(Some(fault)) => fault,
        _ => panic!(rt; "the line of a fault"),
    }
}

// Does the fault of the line, though memory is refused once; then the configuration is as before.
fn disturb<P: Application>(
    rt: &impl Abort,
    alloc: Global,
    config: &mut Config<P>,
    line: &[u8],
) -> Result<(), FaultRefusal> {
    let fault = read(rt, alloc, line);
    let before = Picture::of(rt, config);
    again!(rt; inject(alloc, config, &fault), FaultRefusal::NoMemory, Picture::of(rt, config).is(&before))
}

// Does the fault of the line, which is answered so.
fn answers<P: Application>(
    rt: &impl Abort,
    alloc: Global,
    config: &mut Config<P>,
    line: &[u8],
    answer: Result<(), FaultRefusal>,
) {
    let told = disturb(rt, alloc, config, line);
    assert_equal(rt, told, answer);
}

fn has_links<P: Application>(rt: &impl Abort, config: &Config<P>, links: usize) {
    assert_equal(rt, config.topology().link_count(), links);
}

// The checker tells so many faults.
fn is_told_of<P: Application>(rt: &impl Abort, alloc: Global, config: &Config<P>, count: usize) {
    let before = Picture::of(rt, config);
    let all = again!(rt; check_all(alloc, config), AllocError, Picture::of(rt, config).is(&before));
    match all {
        Ok(faults) => assert_equal(rt, faults.len(), count),
        Err(AllocError) => panic!(rt; "memory is refused once"),
    }
}

// The checker tells of node 1 that node 3 is a shorter way.
fn is_told_of_the_shorter_way<P: Application>(rt: &impl Abort, alloc: Global, config: &Config<P>) {
    let node = again!(rt; check_node(alloc, config, 1), StepRefusal::NoMemory, true);
    match node {
        Ok(faults) => assert!(rt;
            faults
                .iter()
                .all(|fault| fault.other == 3 && fault.row == 8)
        ),
        Err(_) => panic!(rt; "a node"),
    }
}

#[test]
fn a_shorter_way_is_told(rt: HostRuntime) {
    let mut config: Config<Idle> = booted(&rt, rt.alloc(), triangle(&rt, rt.alloc()));
    answers(&rt, rt.alloc(), &mut config, b"fault tree 1 3 2 2", Ok(()));
    is_told_of(&rt, rt.alloc(), &config, 1);
    is_told_of_the_shorter_way(&rt, rt.alloc(), &config);
    drop(config);
}

#[test]
fn links_go_and_come(rt: HostRuntime) {
    let mut config: Config<EdgeReversal> = booted(&rt, rt.alloc(), triangle(&rt, rt.alloc()));
    let none = Err(FaultRefusal::NoSuchLink);
    let bad = Err(FaultRefusal::BadLocal);
    answers(&rt, rt.alloc(), &mut config, b"fault down 1 3", Ok(()));
    has_links(&rt, &config, 2);
    answers(&rt, rt.alloc(), &mut config, b"fault down 1 2", Ok(()));
    answers(&rt, rt.alloc(), &mut config, b"fault down 1 2", none);
    answers(&rt, rt.alloc(), &mut config, b"fault up 1 3", Ok(()));
    answers(&rt, rt.alloc(), &mut config, b"fault local 1 in/0", Ok(()));
    answers(&rt, rt.alloc(), &mut config, b"fault local 1 no/0", bad);
    drop(config);
}

#[test]
fn nodes_go_and_come(rt: HostRuntime) {
    let mut config: Config<EdgeReversal> = booted(&rt, rt.alloc(), triangle(&rt, rt.alloc()));
    let strange = Err(FaultRefusal::StrangeNode);
    let is_up = Err(FaultRefusal::NodeIsUp);
    answers(&rt, rt.alloc(), &mut config, b"fault off 1", Ok(()));
    has_links(&rt, &config, 1);
    answers(&rt, rt.alloc(), &mut config, b"fault off 1", strange);
    answers(&rt, rt.alloc(), &mut config, b"fault on 1", Ok(()));
    has_links(&rt, &config, 1);
    answers(&rt, rt.alloc(), &mut config, b"fault on 1", is_up);
    drop(config);
}
