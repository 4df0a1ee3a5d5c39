// Searches for the first configuration in which something is wrong.

use app_invariants::Invariant;
use app_mutex::{EdgeReversal, MutexLocal};
use progress::Progress;
use reset_machine::{Config, Event};
use schedules::{Search, Target, search};
use std::alloc::Global;
use std::process::Abort;
use test_networks::line;
use wave_layer::{Phase, WaveRegs};

// A shortest order to what is looked for has these events.
fn is_reached<P: Invariant, R: Abort>(
    rt: &R,
    alloc: Global,
    config: &Config<P>,
    target: Target,
    expected: &[Event],
) {
    let progress = Progress::new();
    match search(alloc, config, false, target, 1000, &progress).expect(rt, "a search") {
        Search::Reached(events) => assert!(rt; events.as_slice() == expected),
        Search::Unreached { .. } => assert!(rt; false),
    }
}

// No order leads to what is looked for, of so many configurations.
fn is_unreached<P: Invariant, R: Abort>(
    rt: &R,
    alloc: Global,
    config: &Config<P>,
    target: Target,
    expected: usize,
) {
    let progress = Progress::new();
    match search(alloc, config, true, target, 1000, &progress).expect(rt, "a search") {
        Search::Reached(_) => assert!(rt; false),
        Search::Unreached { configurations } => assert!(rt; configurations == expected),
    }
}

// Node 1 is in without its turn, which counts once its session is mended, and that is after its father's. The father's
// row fails from the start.
#[test]
fn mends_break_the_exclusion(rt: HostRuntime) {
    let mut config = line::<EdgeReversal>(rt.alloc()).expect(&rt, "the line");
    let inside = MutexLocal {
        inside: true,
        bit: true,
    };
    let ahead = WaveRegs {
        phase: Phase::Normal,
        session: 5,
    };
    assert!(rt; config.put_local(1, inside).is_ok());
    assert!(rt; config.put_wave(1, ahead).is_ok());
    assert!(rt; config.put_wave(2, ahead).is_ok());
    let mends = [Event::Mend { at: 2 }, Event::Mend { at: 1 }];
    is_reached(&rt, rt.alloc(), &config, Target::BrokenInvariant, &mends);
    is_reached(&rt, rt.alloc(), &config, Target::FailingRow, &[]);
    drop(config);
}

#[test]
fn no_action_breaks_the_exclusion(rt: HostRuntime) {
    let config = line::<EdgeReversal>(rt.alloc()).expect(&rt, "the line");
    is_unreached(&rt, rt.alloc(), &config, Target::BrokenInvariant, 20);
    is_unreached(&rt, rt.alloc(), &config, Target::FailingRow, 20);
    drop(config);
}
