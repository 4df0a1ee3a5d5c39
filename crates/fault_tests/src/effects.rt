// What faults do to a configuration.

use crate::assert_equal;
use app_interface::Idle;
use fault_inject::{FaultRefusal, inject, read_fault};
use reset_machine::Config;
use std::alloc::Global;
use std::process::Abort;
use std::test::Fail;
use test_networks::{booted, line, line_modulo};
use topology::Topology;
use tree_layer::TreeRegs;
use wave_layer::{Modulus, Phase, WaveRegs};

// Does the fault of the line.
fn do_line(
    rt: &impl Abort,
    alloc: Global,
    config: &mut Config<Idle>,
    line: &[u8],
) -> Result<(), FaultRefusal> {
    match read_fault(alloc, line) {
        Ok(Some(fault)) => inject(alloc, config, &fault),
        _ => panic!(rt; "no fault"),
    }
}

// Does the faults of the lines, of which none is refused.
fn do_lines(rt: &impl Abort, alloc: Global, config: &mut Config<Idle>, lines: &[&[u8]]) {
    for line in lines {
        assert_equal(rt, do_line(rt, alloc, config, line), Ok(()));
    }
}

// Each of the lines is refused for this reason.
fn refuse_lines(
    rt: &impl Abort,
    alloc: Global,
    config: &mut Config<Idle>,
    lines: &[&[u8]],
    refusal: FaultRefusal,
) {
    for line in lines {
        assert_equal(rt, do_line(rt, alloc, config, line), Err(refusal));
    }
}

#[test]
fn refuses_what_cant_be_done(rt: HostRuntime) -> Result<(), Fail> {
    for (text, refusal) in [
        (b"fault down 1 3".as_slice(), FaultRefusal::NoSuchLink),
        (b"fault down 1 4".as_slice(), FaultRefusal::StrangeNode),
        (b"fault up 1 2".as_slice(), FaultRefusal::LinkIsThere),
        (b"fault up 1 1".as_slice(), FaultRefusal::BadValue),
        (b"fault up 4 4".as_slice(), FaultRefusal::StrangeNode),
        (
            b"fault wave 9 normal 0".as_slice(),
            FaultRefusal::StrangeNode,
        ),
        (b"fault tree 9 0 0 0".as_slice(), FaultRefusal::StrangeNode),
        (b"fault tree 1 0 1 0".as_slice(), FaultRefusal::BadValue),
        (b"fault tree 1 1 0 0".as_slice(), FaultRefusal::BadValue),
        (b"fault tree 1 1 65536 0".as_slice(), FaultRefusal::BadValue),
        (b"fault local 1 x".as_slice(), FaultRefusal::BadLocal),
        (b"fault local 9 x".as_slice(), FaultRefusal::StrangeNode),
        (b"fault off 4".as_slice(), FaultRefusal::StrangeNode),
        (b"fault on 4".as_slice(), FaultRefusal::StrangeNode),
        (b"fault on 2".as_slice(), FaultRefusal::NodeIsUp),
    ] {
        let mut config = line::<Idle>(rt.alloc())?;
        refuse_lines(&rt, rt.alloc(), &mut config, &[text], refusal);
        assert_equal(&rt, config.topology().link_count(), 2);
        drop(config);
    }
    Ok(())
}

#[test]
fn writes_tree_registers(rt: HostRuntime) -> Result<(), Fail> {
    let mut config = line::<Idle>(rt.alloc())?;
    let others = [config.tree_at(1), config.tree_at(3)];
    let lines = [b"fault tree 2 65535 9 4294967295".as_slice()];
    do_lines(&rt, rt.alloc(), &mut config, &lines);
    let tree = TreeRegs {
        root: 65_535,
        father: 9,
        dist: 4_294_967_295,
    };
    assert_equal(&rt, config.tree_at(2), Some(tree));
    assert_equal(&rt, [config.tree_at(1), config.tree_at(3)], others);
    drop(config);
    Ok(())
}

#[test]
fn writes_wave_registers_and_local_states(rt: HostRuntime) -> Result<(), Fail> {
    let mut config = line::<Idle>(rt.alloc())?;
    let others = [config.wave_at(1), config.wave_at(2)];
    let lines = [
        b"fault wave 3 reset 7".as_slice(),
        b"fault local 1 -".as_slice(),
    ];
    do_lines(&rt, rt.alloc(), &mut config, &lines);
    let wave = WaveRegs {
        phase: Phase::Reset,
        session: 7,
    };
    assert_equal(&rt, config.wave_at(3), Some(wave));
    assert_equal(&rt, [config.wave_at(1), config.wave_at(2)], others);
    assert_equal(&rt, config.topology().link_count(), 2);
    drop(config);
    Ok(())
}

#[test]
fn writes_sessions_beyond_the_modulus(rt: HostRuntime) -> Result<(), Fail> {
    let mut config = line_modulo::<Idle>(rt.alloc(), Modulus::new(8).expect(&rt, "a modulus"))?;
    for (text, session) in [
        (b"fault wave 2 normal 8".as_slice(), 8),
        (b"fault wave 2 normal 4294967295".as_slice(), 4_294_967_295),
    ] {
        let done = do_line(&rt, rt.alloc(), &mut config, text);
        assert_equal(&rt, done, Ok(()));
        let wave = WaveRegs {
            phase: Phase::Normal,
            session,
        };
        assert_equal(&rt, config.wave_at(2), Some(wave));
    }
    assert_equal(&rt, config.modulus().get(), 8);
    drop(config);
    Ok(())
}

#[test]
fn takes_links_out_and_puts_them_in(rt: HostRuntime) -> Result<(), Fail> {
    let mut config = booted::<Idle>(rt.alloc(), &[1, 2, 3], &[(1, 2), (2, 3), (1, 3)])?;
    do_lines(
        &rt,
        rt.alloc(),
        &mut config,
        &[b"fault down 3 1".as_slice()],
    );
    assert!(rt; !config.topology().linked(1, 3));
    assert!(rt; config.topology().linked(1, 2));
    assert!(rt; config.topology().linked(2, 3));

    do_lines(&rt, rt.alloc(), &mut config, &[b"fault up 1 3".as_slice()]);
    assert!(rt; config.topology().linked(3, 1));
    assert_equal(&rt, config.topology().link_count(), 3);
    drop(config);
    Ok(())
}

// The registers stay, and each part has its leader.
#[test]
fn takes_a_link_out_that_parts_the_line(rt: HostRuntime) -> Result<(), Fail> {
    let mut config = line::<Idle>(rt.alloc())?;
    let trees = [1, 2, 3].map(|id| config.tree_at(id));
    do_lines(
        &rt,
        rt.alloc(),
        &mut config,
        &[b"fault down 1 2".as_slice()],
    );
    assert_equal(&rt, config.topology().link_count(), 1);
    assert_equal(&rt, leaders(&config), [Some(1), Some(3), Some(3)]);
    assert_equal(&rt, [1, 2, 3].map(|id| config.tree_at(id)), trees);
    drop(config);
    Ok(())
}

// A link that comes up makes one component of two.
#[test]
fn takes_all_links_out_and_puts_one_in(rt: HostRuntime) -> Result<(), Fail> {
    let mut config = line::<Idle>(rt.alloc())?;
    let lines = [b"fault down 1 2".as_slice(), b"fault down 3 2".as_slice()];
    do_lines(&rt, rt.alloc(), &mut config, &lines);
    assert_equal(&rt, leaders(&config), [Some(1), Some(2), Some(3)]);
    let gone = [b"fault down 3 2".as_slice()];
    refuse_lines(
        &rt,
        rt.alloc(),
        &mut config,
        &gone,
        FaultRefusal::NoSuchLink,
    );
    do_lines(&rt, rt.alloc(), &mut config, &[b"fault up 1 3".as_slice()]);
    assert_equal(&rt, leaders(&config), [Some(3), Some(2), Some(3)]);
    drop(config);
    Ok(())
}

// The leaders of the nodes 1, 2 and 3.
fn leaders(config: &Config<Idle>) -> [Option<u32>; 3] {
    [1, 2, 3].map(|id| leader_of(config.topology(), id))
}

fn leader_of(topology: &Topology, id: u32) -> Option<u32> {
    match topology.index_of(id) {
        Some(index) if topology.is_up(index) => Some(topology.greatest_of(index).get()),
        _ => None,
    }
}

// The links of a node that goes down are gone for good, and the others' registers stay. Nothing is known of it until
// it comes up.
#[test]
fn takes_a_node_down(rt: HostRuntime) -> Result<(), Fail> {
    let mut config = line::<Idle>(rt.alloc())?;
    let trees = [config.tree_at(1), config.tree_at(2)];
    do_lines(&rt, rt.alloc(), &mut config, &[b"fault off 3".as_slice()]);
    assert_equal(&rt, config.topology().link_count(), 1);
    assert_equal(&rt, leaders(&config), [Some(2), Some(2), None]);
    assert_equal(&rt, [config.tree_at(1), config.tree_at(2)], trees);
    assert_equal(&rt, config.wave_at(3), None);
    drop(config);
    Ok(())
}

#[test]
fn refuses_a_node_that_is_down(rt: HostRuntime) -> Result<(), Fail> {
    let mut config = line::<Idle>(rt.alloc())?;
    do_lines(&rt, rt.alloc(), &mut config, &[b"fault off 3".as_slice()]);
    let lines = [
        b"fault off 3".as_slice(),
        b"fault tree 3 3 3 0".as_slice(),
        b"fault wave 3 normal 0".as_slice(),
        b"fault local 3 -".as_slice(),
        b"fault up 2 3".as_slice(),
        b"fault down 2 3".as_slice(),
    ];
    refuse_lines(
        &rt,
        rt.alloc(),
        &mut config,
        &lines,
        FaultRefusal::StrangeNode,
    );
    drop(config);
    Ok(())
}

// A node that comes up begins anew, and the others' registers stay.
#[test]
fn brings_a_node_up(rt: HostRuntime) -> Result<(), Fail> {
    let mut config = line::<Idle>(rt.alloc())?;
    let trees = [config.tree_at(1), config.tree_at(2)];
    let lines = [
        b"fault wave 3 reset 7".as_slice(),
        b"fault off 3".as_slice(),
        b"fault on 3".as_slice(),
    ];
    do_lines(&rt, rt.alloc(), &mut config, &lines);
    let tree = TreeRegs {
        root: 3,
        father: 3,
        dist: 0,
    };
    assert_equal(&rt, config.tree_at(3), Some(tree));
    let wave = WaveRegs {
        phase: Phase::Normal,
        session: 0,
    };
    assert_equal(&rt, config.wave_at(3), Some(wave));
    assert_equal(&rt, [config.tree_at(1), config.tree_at(2)], trees);
    drop(config);
    Ok(())
}

#[test]
fn links_a_node_that_has_come_up(rt: HostRuntime) -> Result<(), Fail> {
    let mut config = line::<Idle>(rt.alloc())?;
    let lines = [b"fault off 3".as_slice(), b"fault on 3".as_slice()];
    do_lines(&rt, rt.alloc(), &mut config, &lines);
    assert_equal(&rt, leaders(&config), [Some(2), Some(2), Some(3)]);
    let on = [b"fault on 3".as_slice()];
    refuse_lines(&rt, rt.alloc(), &mut config, &on, FaultRefusal::NodeIsUp);
    do_lines(&rt, rt.alloc(), &mut config, &[b"fault up 2 3".as_slice()]);
    assert_equal(&rt, leaders(&config), [Some(3), Some(3), Some(3)]);
    drop(config);
    Ok(())
}

#[test]
fn takes_all_nodes_down(rt: HostRuntime) -> Result<(), Fail> {
    let mut config = line::<Idle>(rt.alloc())?;
    let lines = [
        b"fault off 2".as_slice(),
        b"fault off 1".as_slice(),
        b"fault off 3".as_slice(),
    ];
    do_lines(&rt, rt.alloc(), &mut config, &lines);
    assert_equal(&rt, config.topology().node_count(), 0);
    assert_equal(&rt, leaders(&config), [None, None, None]);
    do_lines(&rt, rt.alloc(), &mut config, &[b"fault on 1".as_slice()]);
    assert_equal(&rt, leaders(&config), [Some(1), None, None]);
    drop(config);
    Ok(())
}
