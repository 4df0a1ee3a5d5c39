// What a configuration tells of its nodes, and what they see.

use crate::assert_equal;
use app_interface::Application;
use reset_machine::{Config, StepRefusal, View};
use std::alloc::Global;
use std::process::Abort;
use tree_layer::TreeRegs;
use wave_layer::{Phase, WaveRegs};

pub(crate) const NORMAL: WaveRegs = WaveRegs {
    phase: Phase::Normal,
    session: 0,
};

// The node has these tree registers, or there is no such node.
pub(crate) fn has_tree<P: Application>(
    rt: &impl Abort,
    config: &Config<P>,
    id: u32,
    regs: Option<TreeRegs>,
) {
    assert_eq!(rt; config.tree_at(id), regs, "node {id}");
}

// The node has these wave registers, or there is no such node.
pub(crate) fn has_wave<P: Application>(
    rt: &impl Abort,
    config: &Config<P>,
    id: u32,
    regs: Option<WaveRegs>,
) {
    assert_eq!(rt; config.wave_at(id), regs, "node {id}");
}

// These nodes have these roots, fathers and distances.
pub(crate) fn have_trees<P: Application>(
    rt: &impl Abort,
    config: &Config<P>,
    nodes: &[(u32, u32, u32, u32)],
) {
    for &(id, root, father, dist) in nodes {
        has_tree(rt, config, id, Some(TreeRegs { root, father, dist }));
    }
}

// These nodes have these wave registers.
pub(crate) fn have_waves<P: Application>(
    rt: &impl Abort,
    config: &Config<P>,
    ids: &[u32],
    regs: WaveRegs,
) {
    for id in ids {
        has_wave(rt, config, *id, Some(regs));
    }
}

// The newest session of the component of this node is this one, if there is such a node.
pub(crate) fn has_newest<P: Application>(
    rt: &impl Abort,
    config: &Config<P>,
    id: u32,
    newest: Option<u32>,
) {
    assert_eq!(rt; config.newest_session(id), newest, "node {id}");
}

// What a node sees.
pub(crate) fn seen<P: Application>(
    rt: &impl Abort,
    alloc: Global,
    config: &Config<P>,
    at: u32,
) -> View<P> {
    match config.view(alloc, at) {
        Ok(view) => view,
        Err(_) => panic!(rt; "memory for a view"),
    }
}

// Whether the view is what its node sees now.
pub(crate) fn is_seen<P: Application>(
    rt: &impl Abort,
    config: &Config<P>,
    view: &View<P>,
    expected: bool,
) {
    assert_equal(rt, config.view_is(view), expected);
}

// Whether the two views are of the same.
pub(crate) fn are_same<P: Application>(
    rt: &impl Abort,
    view: &View<P>,
    other: &View<P>,
    expected: bool,
) {
    assert_equal(rt, view.same(other), expected);
}

// Nothing can be enabled at a node that there is not.
pub(crate) fn enables_nothing<P: Application>(
    rt: &impl Abort,
    alloc: Global,
    config: &Config<P>,
    id: u32,
) {
    assert_equal(rt, config.enabled(alloc, id), Err(StepRefusal::StrangeNode));
}

// Nothing is seen by a node that there is not.
pub(crate) fn sees_nothing<P: Application>(
    rt: &impl Abort,
    alloc: Global,
    config: &Config<P>,
    id: u32,
) {
    match config.view(alloc, id) {
        Ok(_) => panic!(rt; "there is no node {id}"),
        Err(refusal) => assert_equal(rt, refusal, StepRefusal::StrangeNode),
    }
}
