use crate::assert_equal;
use crate::puts::{puts_tree, puts_wave};
use crate::steps::{applies, copied, ran};
use crate::told::{
    NORMAL, are_same, enables_nothing, has_newest, has_tree, has_wave, have_trees, have_waves,
    is_seen, seen, sees_nothing,
};
use app_interface::Idle;
use reset_machine::{Config, Done, Event, Reply, StepRefusal, View};
use std::alloc::Global;
use std::process::Abort;
use test_networks::WHOLE_RESET;
use tree_layer::TreeRegs;

// The booted line of the nodes 1, 2 and 3.
pub fn line(rt: &impl Abort, alloc: Global) -> Config<Idle> {
    test_networks::line(alloc).expect(rt, "the line")
}

// The tree registers of a node of the line.
fn tree(father: u32, dist: u32) -> TreeRegs {
    TreeRegs {
        root: 3,
        father,
        dist,
    }
}

// The nodes have their places in the tree, and no reset has begun.
fn is_booted(rt: &impl Abort, config: &Config<Idle>) {
    have_trees(rt, config, &[(1, 3, 2, 2), (2, 3, 3, 1), (3, 3, 3, 0)]);
    have_waves(rt, config, &[1, 2, 3], NORMAL);
}

fn has_limits(rt: &impl Abort, config: &Config<Idle>) {
    assert_equal(rt, config.topology().len(), 3);
    assert_equal(rt, config.modulus().get(), 4_294_967_296);
}

#[test]
fn boots_the_line(rt: HostRuntime) {
    let config = line(&rt, rt.alloc());
    is_booted(&rt, &config);
    has_limits(&rt, &config);
    for (id, newest) in [(1, Some(0)), (3, Some(0)), (4, None)] {
        has_newest(&rt, &config, id, newest);
    }
    drop(config);
}

// Eight steps are applied, and the last completes session 1.
fn completes_at_last(rt: &impl Abort, answers: &[Done]) {
    assert!(rt; answers.len() == 9);
    for answer in &answers[..8] {
        assert_equal(rt, *answer, Done::Did(Reply::Applied));
    }
    assert_equal(rt, answers[8], Done::Did(Reply::Complete(1)));
}

#[test]
fn a_copy_keeps_its_session(rt: HostRuntime) {
    let mut config = line(&rt, rt.alloc());
    let copy = copied(&rt, rt.alloc(), &config);
    completes_at_last(&rt, &ran(&rt, rt.alloc(), &mut config, &WHOLE_RESET));
    has_newest(&rt, &config, 1, Some(1));
    has_newest(&rt, &copy, 1, Some(0));
    have_waves(&rt, &copy, &[1], NORMAL);
    drop(copy);
    drop(config);
}

// Nothing is read of a node that there is not, and nothing put there.
fn is_strange(rt: &impl Abort, config: &mut Config<Idle>, id: u32) {
    has_tree(rt, config, id, None);
    has_wave(rt, config, id, None);
    let strange = Err(StepRefusal::StrangeNode);
    puts_tree(rt, config, id, tree(2, 2), strange);
    puts_wave(rt, config, id, NORMAL, strange);
}

#[test]
fn strangers_have_no_registers(rt: HostRuntime) {
    let mut config = line(&rt, rt.alloc());
    is_strange(&rt, &mut config, 4);
    is_strange(&rt, &mut config, 0);
    enables_nothing(&rt, rt.alloc(), &config, 4);
    drop(config);
}

// Whether the nodes have local states, and whether these are of the newest session.
fn have_locals(rt: &impl Abort, config: &Config<Idle>, nodes: &[(u32, bool, bool)]) {
    for (id, has_local, is_newest) in nodes {
        assert_eq!(rt; config.local_at(*id).is_some(), *has_local, "node {id}");
        assert_eq!(rt; config.newest_local(*id).is_some(), *is_newest, "node {id}");
    }
}

#[test]
fn local_states_are_the_newest_where_joined(rt: HostRuntime) {
    let mut config = line(&rt, rt.alloc());
    let nodes = [(1, true, true), (2, true, true), (3, true, true)];
    have_locals(&rt, &config, &nodes);
    let opens = [Event::Request { at: 3 }, Event::Open { at: 3 }];
    applies(&rt, rt.alloc(), &mut config, &opens);
    let nodes = [
        (1, true, false),
        (2, true, false),
        (3, true, true),
        (4, false, false),
    ];
    have_locals(&rt, &config, &nodes);
    puts_local(&rt, &mut config);
    drop(config);
}

// A local state is put at a node, and not at a stranger.
fn puts_local(rt: &impl Abort, config: &mut Config<Idle>) {
    assert_equal(rt, config.put_local(1, ()), Ok(()));
    assert_equal(
        rt,
        config.put_local(4, ()),
        Err((StepRefusal::StrangeNode, ())),
    );
}

// Whether this is what node 2 of the booted line sees.
fn is_of_the_middle(view: &View<Idle>) -> bool {
    view.id() == 2
        && view.k() == 3
        && view.tree() == tree(3, 1)
        && view.wave() == NORMAL
        && view.near_len() == 2
        && view
            .near(0)
            .is_some_and(|near| near.id == 1 && near.tree == tree(2, 2))
        && view
            .near(1)
            .is_some_and(|near| near.id == 3 && near.tree == tree(3, 0))
        && view.near(2).is_none()
}

#[test]
fn a_view_is_what_its_node_sees_now(rt: HostRuntime) {
    let mut config = line(&rt, rt.alloc());
    let view = seen(&rt, rt.alloc(), &config, 2);
    assert!(rt; is_of_the_middle(&view));
    is_seen(&rt, &config, &view, true);
    applies(&rt, rt.alloc(), &mut config, &[Event::Request { at: 1 }]);
    is_seen(&rt, &config, &view, false);
    let later = seen(&rt, rt.alloc(), &config, 2);
    is_seen(&rt, &config, &later, true);
    are_same(&rt, &view, &view, true);
    are_same(&rt, &view, &later, false);
    drop(later);
    drop(view);
    drop(config);
}

#[test]
fn a_stranger_sees_nothing(rt: HostRuntime) {
    let config = line(&rt, rt.alloc());
    sees_nothing(&rt, rt.alloc(), &config, 4);
    drop(config);
}
