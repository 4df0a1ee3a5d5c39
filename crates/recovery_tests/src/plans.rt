// Plans of the line of the nodes 1, 2, 3, worked out by hand.

use app_interface::Idle;
use recovery::plan;
use reset_machine::{Config, Event};
use std::alloc::Global;
use std::process::Abort;
use test_networks::line;
use tree_layer::TreeRegs;
use wave_layer::{Phase, WaveRegs};

// The reset of the line where none is under way.
const RESET: [Event; 7] = [
    Event::Request { at: 3 },
    Event::Open { at: 3 },
    Event::Join { at: 2 },
    Event::Join { at: 1 },
    Event::Finish { at: 1 },
    Event::Finish { at: 2 },
    Event::Finish { at: 3 },
];

// The plan of the configuration has these repairs and this reset.
fn is_planned<R: Abort>(
    rt: &R,
    alloc: Global,
    config: &Config<Idle>,
    repairs: &[Event],
    reset: &[Event],
) {
    let found = plan(alloc, config).expect(rt, "a plan");
    assert!(rt; found.repairs.as_slice() == repairs);
    assert!(rt; found.reset.as_slice() == reset);
}

// Does an event that is allowed.
fn does<R: Abort>(rt: &R, alloc: Global, config: &mut Config<Idle>, event: Event) {
    assert!(rt; config.step(alloc, event).is_ok());
}

#[test]
fn a_booted_line_needs_no_repairs(rt: HostRuntime) {
    let config = line::<Idle>(rt.alloc()).expect(&rt, "the line");
    is_planned(&rt, rt.alloc(), &config, &[], &RESET);
    drop(config);
}

// Node 2 knows a root that is none: it claims, and then adopts the leader.
#[test]
fn a_root_that_is_none_is_forgotten(rt: HostRuntime) {
    let mut config = line::<Idle>(rt.alloc()).expect(&rt, "the line");
    let ghost_root = TreeRegs {
        root: 9,
        father: 2,
        dist: 0,
    };
    assert!(rt; config.put_tree(2, ghost_root).is_ok());
    let repairs = [Event::Claim { at: 2 }, Event::Adopt { at: 2, from: 3 }];
    is_planned(&rt, rt.alloc(), &config, &repairs, &RESET);
    drop(config);
}

// Node 1 is reset below a father that isn't.
#[test]
fn a_node_mends_its_wave(rt: HostRuntime) {
    let mut config = line::<Idle>(rt.alloc()).expect(&rt, "the line");
    let stray = WaveRegs {
        phase: Phase::Reset,
        session: 5,
    };
    assert!(rt; config.put_wave(1, stray).is_ok());
    is_planned(&rt, rt.alloc(), &config, &[Event::Mend { at: 1 }], &RESET);
    drop(config);
}

// A reset that node 1 hasn't joined yet ends before the next one begins.
#[test]
fn a_reset_under_way_ends_first(rt: HostRuntime) {
    let mut config = line::<Idle>(rt.alloc()).expect(&rt, "the line");
    does(&rt, rt.alloc(), &mut config, Event::Request { at: 3 });
    does(&rt, rt.alloc(), &mut config, Event::Open { at: 3 });
    does(&rt, rt.alloc(), &mut config, Event::Join { at: 2 });
    let reset = [
        Event::Join { at: 1 },
        Event::Finish { at: 1 },
        Event::Finish { at: 2 },
        Event::Finish { at: 3 },
        RESET[0],
        RESET[1],
        RESET[2],
        RESET[3],
        RESET[4],
        RESET[5],
        RESET[6],
    ];
    is_planned(&rt, rt.alloc(), &config, &[], &reset);
    drop(config);
}
