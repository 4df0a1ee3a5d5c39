// Small networks, whose counts the model of tests/cli/explored.py finds too.

use app_interface::{Application, Idle};
use app_mutex::EdgeReversal;
use progress::Progress;
use reset_machine::{Config, Event};
use schedules::{ExploreFault, Runs, Schedules, Totals, explore};
use std::alloc::Global;
use std::process::Abort;
use test_networks::{greatest_modulus, line};
use topology::Topology;
use wave_layer::{Phase, WaveRegs};

// The exploration of the configuration gives what is expected.
fn is_explored<P: Application, R: Abort>(
    rt: &R,
    alloc: Global,
    config: &Config<P>,
    acts: bool,
    expected: Schedules,
) {
    let found = explore(alloc, config, acts, 1000, &Progress::new()).expect(rt, "an exploration");
    assert!(rt; found == expected);
}

// Every order ends, the longest after so many steps, with so many completions.
fn ending(longest: usize, count: usize) -> Runs {
    Runs::Ending {
        longest,
        completions: Totals {
            least: count,
            most: count,
        },
    }
}

// The booted ring of the nodes 1 to 6.
fn ring<R: Abort>(rt: &R, alloc: Global) -> Config<Idle> {
    let links = [(1, 2), (2, 3), (3, 4), (4, 5), (5, 6), (1, 6)];
    let topology = Topology::build(alloc, &[1, 2, 3, 4, 5, 6], &links).expect(rt, "the ring");
    Config::<Idle>::boot(alloc, topology, greatest_modulus()).expect(rt, "the booted ring")
}

#[test]
fn a_reset_of_a_ring_has_one_end(rt: HostRuntime) {
    let mut config = ring(&rt, rt.alloc());
    for at in 1..=6 {
        assert!(rt; config.step(rt.alloc(), Event::Request { at }).is_ok());
    }
    let expected = Schedules {
        configurations: 37,
        steps: 60,
        ends: 1,
        whole: 1,
        runs: ending(12, 1),
    };
    is_explored(&rt, rt.alloc(), &config, false, expected);
    drop(config);
}

#[test]
fn one_more_than_the_limit_is_too_many(rt: HostRuntime) {
    let mut config = line::<Idle>(rt.alloc()).expect(&rt, "the line");
    for at in 1..=2 {
        assert!(rt; config.step(rt.alloc(), Event::Request { at }).is_ok());
    }
    let expected = Schedules {
        configurations: 8,
        steps: 7,
        ends: 1,
        whole: 1,
        runs: ending(7, 1),
    };
    is_explored(&rt, rt.alloc(), &config, false, expected);
    let progress = Progress::new();
    assert!(rt; explore(rt.alloc(), &config, false, 8, &progress).is_ok());
    match explore(rt.alloc(), &config, false, 7, &progress) {
        Ok(_) => assert!(rt; false),
        Err(fault) => assert!(rt; matches!(fault, ExploreFault::TooMany)),
    }
    assert!(rt; progress.reached() == (6, 7));
    drop(config);
}

#[test]
fn damaged_registers_are_repaired(rt: HostRuntime) {
    let mut config = line::<Idle>(rt.alloc()).expect(&rt, "the line");
    let asked = WaveRegs {
        phase: Phase::Initiate,
        session: 1,
    };
    let open = WaveRegs {
        phase: Phase::Reset,
        session: 2,
    };
    assert!(rt; config.put_wave(1, asked).is_ok());
    assert!(rt; config.put_wave(3, open).is_ok());
    let expected = Schedules {
        configurations: 11,
        steps: 13,
        ends: 1,
        whole: 1,
        runs: ending(7, 1),
    };
    is_explored(&rt, rt.alloc(), &config, false, expected);
    drop(config);
}

#[test]
fn actions_go_on_for_ever(rt: HostRuntime) {
    let config = line::<EdgeReversal>(rt.alloc()).expect(&rt, "the line");
    let rest = Schedules {
        configurations: 1,
        steps: 0,
        ends: 1,
        whole: 1,
        runs: ending(0, 0),
    };
    is_explored(&rt, rt.alloc(), &config, false, rest);
    let expected = Schedules {
        configurations: 20,
        steps: 28,
        ends: 0,
        whole: 0,
        runs: Runs::Endless,
    };
    is_explored(&rt, rt.alloc(), &config, true, expected);
    drop(config);
}
