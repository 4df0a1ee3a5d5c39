// What a node does by itself where registers are damaged.

use crate::assert_equal;
use crate::choice::{act, chooses, next_at, put_wave, takes};
use crate::topologies::booted_line;
use app_interface::{Application, Idle};
use app_token::Token;
use fault_inject::{Fault, inject};
use reset_machine::{Config, Event};
use std::alloc::Global;
use std::process::Abort;
use tree_layer::TreeRegs;
use wave_layer::Phase;

// Tree registers.
fn regs(root: u32, father: u32, dist: u32) -> TreeRegs {
    TreeRegs { root, father, dist }
}

// Does the fault, which isn't refused.
fn disturbs(rt: &impl Abort, alloc: Global, config: &mut Config<Idle>, fault: &Fault) {
    assert!(rt; inject(alloc, config, fault).is_ok());
}

// What node 2 of the line does by itself, where these are the tree registers of the nodes 1 and 2. Those of
// node 3, the leader, are as they were booted.
fn repair(rt: &impl Abort, alloc: Global, first: TreeRegs, second: TreeRegs) -> Option<Event> {
    let mut config = booted_line::<Idle>(rt, alloc);
    for (at, regs) in [(1, first), (2, second)] {
        disturbs(rt, alloc, &mut config, &Fault::SetTree { at, regs });
    }
    next_at(rt, alloc, &config, 2)
}

#[test]
fn a_tree_is_repaired_by_claims_then_follows_then_adoptions(rt: HostRuntime) {
    let claim = Some(Event::Claim { at: 2 });
    let follow = Some(Event::Follow { at: 2 });
    let adopt = |from| Some(Event::Adopt { at: 2, from });
    let (intact, alone) = (regs(3, 2, 2), regs(1, 1, 0));
    for (first, second, chosen) in [
        (intact, regs(3, 3, 1), None),
        // The root is below the node, a root isn't itself, the father is a stranger, the distance is K.
        (intact, regs(1, 3, 1), claim),
        (intact, regs(3, 2, 0), claim),
        (intact, regs(3, 9, 1), claim),
        (intact, regs(3, 3, 3), claim),
        // The father knows another root, or is at another distance.
        (intact, regs(2, 3, 1), follow),
        (intact, regs(3, 3, 2), follow),
        // Node 1 knows a greater root, node 3 alone does, node 3 is nearer to it.
        (intact, regs(2, 2, 0), adopt(1)),
        (alone, regs(2, 2, 0), adopt(3)),
        (regs(3, 2, 1), regs(3, 1, 2), adopt(3)),
    ] {
        assert_equal(&rt, repair(&rt, rt.alloc(), first, second), chosen);
    }
}

// Puts tree registers at a node.
fn put_tree<P: Application>(rt: &impl Abort, config: &mut Config<P>, at: u32, regs: TreeRegs) {
    assert!(rt; config.put_tree(at, regs).is_ok(), "node {at}");
}

// The line with node 2 reset under a father that isn't.
fn reset_middle(rt: &impl Abort, alloc: Global) -> Config<Idle> {
    let mut config = booted_line::<Idle>(rt, alloc);
    put_wave(rt, &mut config, 2, Phase::Reset, 0);
    config
}

#[test]
fn a_node_adopts_before_it_mends_and_mends_before_it_finishes(rt: HostRuntime) {
    let mut config = reset_middle(&rt, rt.alloc());
    put_tree(&rt, &mut config, 1, regs(3, 2, 1));
    put_tree(&rt, &mut config, 2, regs(3, 1, 2));
    let adopt = Some(Event::Adopt { at: 2, from: 3 });
    chooses(&rt, rt.alloc(), &config, 2, adopt);
    // With its father 3 it could finish too, since its child isn't reset and has its session.
    let config = reset_middle(&rt, rt.alloc());
    let mut finished = reset_middle(&rt, rt.alloc());
    takes(&rt, rt.alloc(), &mut finished, Event::Finish { at: 2 });
    let mend = Some(Event::Mend { at: 2 });
    chooses(&rt, rt.alloc(), &config, 2, mend);
    drop(finished);
    drop(config);
}

#[test]
fn a_node_claims_before_the_application_acts(rt: HostRuntime) {
    let mut config = booted_line::<Token>(&rt, rt.alloc());
    chooses(&rt, rt.alloc(), &config, 3, act(3, 1, Some(2)));
    put_tree(&rt, &mut config, 3, regs(3, 3, 1));
    let claim = Some(Event::Claim { at: 3 });
    chooses(&rt, rt.alloc(), &config, 3, claim);
    drop(config);
}
