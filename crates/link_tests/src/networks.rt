// Networks whose registers and local states are put by hand, and what is found in them.

use app_interface::{Application, Idle};
use app_mutex::EdgeReversal;
use link_predicates::{Family, LinkFault, alarm, check_all, check_node};
use reset_machine::Config;
use std::alloc::Global;
use std::process::Abort;
use test_networks::{line, line_modulo};
use tree_layer::TreeRegs;
use wave_layer::{Modulus, Phase, WaveRegs};

/// The booted line of the nodes 1, 2, 3.
pub(crate) fn booted_line<P: Application>(rt: &impl Abort, alloc: Global) -> Config<P> {
    line(alloc).expect(rt, "the line")
}

/// The booted line of the nodes 1, 2, 3, of which sessions are counted modulo 8.
pub(crate) fn line_modulo_8(rt: &impl Abort, alloc: Global) -> Config<Idle> {
    let modulus = Modulus::new(8).expect(rt, "a modulus");
    line_modulo(alloc, modulus).expect(rt, "the line")
}

pub(crate) fn tree(root: u32, father: u32, dist: u32) -> TreeRegs {
    TreeRegs { root, father, dist }
}

pub(crate) fn wave(phase: Phase, session: u32) -> WaveRegs {
    WaveRegs { phase, session }
}

pub(crate) fn fault(at: u32, other: u32, family: Family, row: u8) -> LinkFault {
    LinkFault {
        at,
        other,
        family,
        row,
    }
}

/// Puts tree registers at a node.
pub(crate) fn put_tree<P: Application>(
    rt: &impl Abort,
    config: &mut Config<P>,
    id: u32,
    regs: TreeRegs,
) {
    assert!(rt; config.put_tree(id, regs).is_ok(), "node {id}");
}

/// Puts wave registers at a node.
pub(crate) fn put_wave<P: Application>(
    rt: &impl Abort,
    config: &mut Config<P>,
    id: u32,
    regs: WaveRegs,
) {
    assert!(rt; config.put_wave(id, regs).is_ok(), "node {id}");
}

/// Puts the local state with this text at a node.
pub(crate) fn put_text<P: Application>(
    rt: &impl Abort,
    alloc: Global,
    config: &mut Config<P>,
    id: u32,
    text: &[u8],
) {
    match P::read_local(alloc, text) {
        Ok(local) => match config.put_local(id, local) {
            Ok(()) => {}
            Err(_) => panic!(rt; "a node"),
        },
        Err(_) => panic!(rt; "a local state"),
    }
}

/// The booted line of which the nodes 1 and 2 are in at the same time.
pub(crate) fn two_are_in(rt: &impl Abort, alloc: Global) -> Config<EdgeReversal> {
    let mut config = booted_line::<EdgeReversal>(rt, alloc);
    put_text(rt, alloc, &mut config, 1, b"in/0");
    put_text(rt, alloc, &mut config, 2, b"in/0");
    config
}

/// These are the faults that are found, and no others.
pub(crate) fn finds<P: Application>(
    rt: &impl Abort,
    alloc: Global,
    config: &Config<P>,
    faults: &[LinkFault],
) {
    let found = check_all(alloc, config).expect(rt, "memory for the faults");
    assert!(rt; found.as_slice() == faults, "{found:?}");
}

/// These are the faults that are found at a node, and no others.
pub(crate) fn finds_at<P: Application>(
    rt: &impl Abort,
    alloc: Global,
    config: &Config<P>,
    id: u32,
    faults: &[LinkFault],
) {
    let found = check_node(alloc, config, id).expect(rt, "a node");
    assert!(rt; found.as_slice() == faults, "node {id}: {found:?}");
}

/// The alarm at a node tells this fault, or none.
pub(crate) fn alarms<P: Application>(
    rt: &impl Abort,
    config: &Config<P>,
    id: u32,
    told: Option<LinkFault>,
) {
    assert!(rt; alarm(config, id) == told, "node {id}");
}
