// Each row of the tree table and of the wave table that tells a fault, failing alone at a node.

use crate::networks::{
    booted_line, fault, finds, finds_at, line_modulo_8, put_tree, put_wave, tree, two_are_in, wave,
};
use app_interface::Idle;
use app_mutex::EdgeReversal;
use link_predicates::{Family, check_node};
use reset_machine::{Config, Event, Reply, StepRefusal};
use std::alloc::Global;
use std::process::Abort;
use test_networks::booted;
use wave_layer::Phase;

#[test]
fn a_sound_network_has_no_fault(rt: HostRuntime) {
    let config = booted_line::<EdgeReversal>(&rt, rt.alloc());
    finds(&rt, rt.alloc(), &config, &[]);
    drop(config);
}

#[test]
fn a_stranger_is_refused(rt: HostRuntime) {
    let config = booted_line::<Idle>(&rt, rt.alloc());
    match check_node(rt.alloc(), &config, 9) {
        Ok(_) => panic!(rt; "9 is no node"),
        Err(refusal) => assert_eq!(rt; refusal, StepRefusal::StrangeNode),
    }
    drop(config);
}

// The booted network of these nodes and links.
fn network(rt: &impl Abort, alloc: Global, nodes: &[u32], links: &[(u32, u32)]) -> Config<Idle> {
    booted(alloc, nodes, links).expect(rt, "a graph")
}

// Rows 1 to 3 of the tree table at the one node of a network, whose number is 3.
#[test]
fn a_wrong_root_or_father_is_told_of_the_node(rt: HostRuntime) {
    for (regs, row) in [
        (tree(1, 3, 0), 1),
        (tree(5, 3, 0), 2),
        (tree(3, 3, 1), 2),
        (tree(3, 9, 0), 3),
    ] {
        let mut config = network(&rt, rt.alloc(), &[3], &[]);
        put_tree(&rt, &mut config, 3, regs);
        finds(&rt, rt.alloc(), &config, &[fault(3, 3, Family::Tree, row)]);
        drop(config);
    }
}

// What is told at node 1 of the line, whose father is node 2: from the tree registers of both.
#[test]
fn a_wrong_distance_is_told_of_the_link(rt: HostRuntime) {
    for (own, up, told) in [
        (tree(3, 2, 3), tree(3, 3, 2), fault(1, 1, Family::Tree, 4)),
        (tree(4, 2, 2), tree(3, 3, 1), fault(1, 2, Family::Tree, 5)),
        (tree(3, 2, 1), tree(3, 3, 1), fault(1, 2, Family::Tree, 6)),
    ] {
        let mut config = booted_line::<Idle>(&rt, rt.alloc());
        put_tree(&rt, &mut config, 1, own);
        put_tree(&rt, &mut config, 2, up);
        finds_at(&rt, rt.alloc(), &config, 1, &[told]);
        drop(config);
    }
}

#[test]
fn a_greater_root_is_told_of_the_link(rt: HostRuntime) {
    let mut config = booted_line::<Idle>(&rt, rt.alloc());
    put_tree(&rt, &mut config, 1, tree(5, 2, 0));
    finds_at(&rt, rt.alloc(), &config, 2, &[fault(2, 1, Family::Tree, 7)]);
    drop(config);
}

#[test]
fn a_shorter_way_is_told(rt: HostRuntime) {
    let mut config = network(&rt, rt.alloc(), &[1, 2, 3], &[(1, 2), (2, 3), (1, 3)]);
    put_tree(&rt, &mut config, 1, tree(3, 2, 2));
    finds(&rt, rt.alloc(), &config, &[fault(1, 3, Family::Tree, 8)]);
    drop(config);
}

// What is told at node 1 of the line, from its wave registers and those of its father.
#[test]
fn a_torn_wave_is_told_of_the_link(rt: HostRuntime) {
    for (own, up, row) in [
        (wave(Phase::Reset, 0), wave(Phase::Normal, 0), 8),
        (wave(Phase::Normal, 1), wave(Phase::Initiate, 0), 9),
        (wave(Phase::Reset, 0), wave(Phase::Reset, 1), 10),
        (wave(Phase::Normal, 0), wave(Phase::Reset, 5), 11),
    ] {
        let mut config = booted_line::<Idle>(&rt, rt.alloc());
        put_wave(&rt, &mut config, 1, own);
        put_wave(&rt, &mut config, 2, up);
        finds_at(
            &rt,
            rt.alloc(),
            &config,
            1,
            &[fault(1, 2, Family::Wave, row)],
        );
        drop(config);
    }
}

// Session 2 comes after 9 as it does after 1, and yet 9 and 1 are two sessions.
#[test]
fn a_foreign_session_is_told_of_the_link(rt: HostRuntime) {
    let mut config = line_modulo_8(&rt, rt.alloc());
    put_wave(&rt, &mut config, 1, wave(Phase::Normal, 1));
    put_wave(&rt, &mut config, 2, wave(Phase::Normal, 9));
    put_wave(&rt, &mut config, 3, wave(Phase::Reset, 2));
    finds(&rt, rt.alloc(), &config, &[fault(1, 2, Family::Wave, 9)]);
    drop(config);
}

#[test]
fn a_node_that_is_to_join_session_0_has_no_fault(rt: HostRuntime) {
    let mut config = line_modulo_8(&rt, rt.alloc());
    put_wave(&rt, &mut config, 1, wave(Phase::Normal, 7));
    put_wave(&rt, &mut config, 2, wave(Phase::Reset, 0));
    finds_at(&rt, rt.alloc(), &config, 1, &[]);
    drop(config);
}

#[test]
fn a_node_that_is_late_for_session_0_is_told(rt: HostRuntime) {
    let mut config = line_modulo_8(&rt, rt.alloc());
    put_wave(&rt, &mut config, 1, wave(Phase::Normal, 6));
    put_wave(&rt, &mut config, 2, wave(Phase::Reset, 0));
    finds_at(
        &rt,
        rt.alloc(),
        &config,
        1,
        &[fault(1, 2, Family::Wave, 11)],
    );
    drop(config);
}

#[test]
fn a_node_that_is_to_join_has_no_fault(rt: HostRuntime) {
    let mut config = booted_line::<Idle>(&rt, rt.alloc());
    put_wave(&rt, &mut config, 2, wave(Phase::Reset, 1));
    finds_at(&rt, rt.alloc(), &config, 1, &[]);
    drop(config);
}

// Node 1 mends itself.
fn mends(rt: &impl Abort, alloc: Global, config: &mut Config<Idle>) {
    let mended = config.step(alloc, Event::Mend { at: 1 });
    assert_eq!(rt; mended, Ok(Reply::Applied));
}

#[test]
fn a_mended_reset_is_told_no_more(rt: HostRuntime) {
    let mut config = booted_line::<Idle>(&rt, rt.alloc());
    put_wave(&rt, &mut config, 1, wave(Phase::Reset, 0));
    finds(&rt, rt.alloc(), &config, &[fault(1, 2, Family::Wave, 8)]);
    mends(&rt, rt.alloc(), &mut config);
    finds(&rt, rt.alloc(), &config, &[]);
    drop(config);
}

#[test]
fn a_link_may_fail_in_each_family(rt: HostRuntime) {
    let mut config = two_are_in(&rt, rt.alloc());
    put_tree(&rt, &mut config, 1, tree(3, 2, 1));
    put_wave(&rt, &mut config, 1, wave(Phase::Reset, 0));
    let faults = [
        fault(1, 2, Family::Tree, 6),
        fault(1, 2, Family::Wave, 8),
        fault(1, 2, Family::App, 1),
    ];
    finds_at(&rt, rt.alloc(), &config, 1, &faults);
    drop(config);
}

#[test]
fn sessions_apart_have_no_fault_of_the_application(rt: HostRuntime) {
    let mut config = two_are_in(&rt, rt.alloc());
    put_wave(&rt, &mut config, 1, wave(Phase::Normal, 7));
    finds_at(&rt, rt.alloc(), &config, 1, &[fault(1, 2, Family::Wave, 9)]);
    drop(config);
}
