// Sessions modulo a number: whole waves, the session after the last, and sessions that only a fault leaves.

use crate::assert_equal;
use crate::machine::line;
use crate::plans::{planned, puts, returns};
use crate::puts::puts_wave;
use crate::steps::{applies, copied, ran};
use crate::told::{are_same, has_newest, have_waves, is_seen, seen};
use app_interface::Idle;
use reset_machine::{Config, Done, Event, Reply, View};
use std::alloc::Global;
use std::process::Abort;
use test_networks::{WHOLE_RESET, line_modulo};
use wave_layer::{Modulus, Phase, WaveRegs};

fn modulus(rt: &impl Abort, value: u64) -> Modulus {
    Modulus::new(value).expect(rt, "a modulus")
}

// The booted line, of which sessions are counted modulo this number.
fn counting(rt: &impl Abort, alloc: Global, value: u64) -> Config<Idle> {
    line_modulo(alloc, modulus(rt, value)).expect(rt, "the line")
}

fn regs(phase: Phase, session: u32) -> WaveRegs {
    WaveRegs { phase, session }
}

// Node 3 asks for a reset, and all nodes are in this session.
fn put_asked(rt: &impl Abort, config: &mut Config<Idle>, session: u32) {
    for (at, phase) in [(1, Phase::Normal), (2, Phase::Normal), (3, Phase::Initiate)] {
        puts_wave(rt, config, at, regs(phase, session), Ok(()));
    }
}

fn has_modulus(rt: &impl Abort, config: &Config<Idle>, value: u64) {
    assert_equal(rt, config.modulus().get(), value);
}

// Does a whole reset, which completes this session.
fn resets(rt: &impl Abort, alloc: Global, config: &mut Config<Idle>, session: u32) {
    let answers = ran(rt, alloc, config, &WHOLE_RESET);
    let last = Done::Did(Reply::Complete(session));
    assert!(rt; answers.last() == Some(&last), "session {session}");
}

#[test]
fn two_waves_modulo_2_end_with_session_0(rt: HostRuntime) {
    let mut config = counting(&rt, rt.alloc(), 2);
    for session in [1, 0] {
        resets(&rt, rt.alloc(), &mut config, session);
        have_waves(&rt, &config, &[1, 2, 3], regs(Phase::Normal, session));
    }
    has_newest(&rt, &config, 1, Some(0));
    drop(config);
}

#[test]
fn after_4294967295_comes_session_0(rt: HostRuntime) {
    let mut config = line(&rt, rt.alloc());
    put_asked(&rt, &mut config, 4_294_967_295);
    applies(&rt, rt.alloc(), &mut config, &[Event::Open { at: 3 }]);
    have_waves(&rt, &config, &[3], regs(Phase::Reset, 0));
    drop(config);
}

#[test]
fn sessions_beyond_the_modulus_are_left_by_a_reset(rt: HostRuntime) {
    let mut config = counting(&rt, rt.alloc(), 8);
    put_asked(&rt, &mut config, 9);
    let joins = [
        Event::Open { at: 3 },
        Event::Join { at: 2 },
        Event::Join { at: 1 },
    ];
    applies(&rt, rt.alloc(), &mut config, &joins);
    have_waves(&rt, &config, &[1, 2, 3], regs(Phase::Reset, 2));
    drop(config);
}

#[test]
fn a_copy_keeps_its_modulus(rt: HostRuntime) {
    let config = counting(&rt, rt.alloc(), 8);
    let copy = copied(&rt, rt.alloc(), &config);
    has_modulus(&rt, &copy, 8);
    drop(copy);
    drop(config);
}

// Whether the view is one of so many nodes whose sessions are counted modulo this number.
fn has_limits(rt: &impl Abort, view: &View<Idle>, bound: u32, value: u64, expected: bool) {
    assert_equal(rt, view.has_limits(bound, modulus(rt, value)), expected);
}

fn counts_modulo(rt: &impl Abort, view: &View<Idle>, value: u64) {
    assert_equal(rt, view.modulus().get(), value);
}

#[test]
fn a_view_has_the_modulus(rt: HostRuntime) {
    let config = counting(&rt, rt.alloc(), 2);
    let view = seen(&rt, rt.alloc(), &config, 1);
    counts_modulo(&rt, &view, 2);
    has_limits(&rt, &view, 3, 2, true);
    has_limits(&rt, &view, 3, 8, false);
    has_limits(&rt, &view, 2, 2, false);
    drop(view);
    drop(config);
}

#[test]
fn a_view_modulo_2_is_none_modulo_8(rt: HostRuntime) {
    let two = counting(&rt, rt.alloc(), 2);
    let eight = counting(&rt, rt.alloc(), 8);
    let view = seen(&rt, rt.alloc(), &two, 1);
    are_same(&rt, &view, &seen(&rt, rt.alloc(), &eight, 1), false);
    is_seen(&rt, &two, &view, true);
    is_seen(&rt, &eight, &view, false);
    drop(view);
    drop(eight);
    drop(two);
}

#[test]
fn a_plan_opens_session_0_after_the_last(rt: HostRuntime) {
    let mut config = counting(&rt, rt.alloc(), 8);
    put_asked(&rt, &mut config, 7);
    let plan = planned(&rt, rt.alloc(), &config, Event::Open { at: 3 });
    puts(&rt, &mut config, plan);
    have_waves(&rt, &config, &[3], regs(Phase::Reset, 0));
    drop(config);
}

#[test]
fn a_plan_modulo_2_is_put_back_modulo_8(rt: HostRuntime) {
    let two = counting(&rt, rt.alloc(), 2);
    let mut eight = counting(&rt, rt.alloc(), 8);
    let view = seen(&rt, rt.alloc(), &two, 1);
    let plan = planned(&rt, rt.alloc(), &two, Event::Request { at: 1 });
    returns(&rt, &mut eight, plan, &view);
    have_waves(&rt, &eight, &[1], regs(Phase::Normal, 0));
    drop(view);
    drop(eight);
    drop(two);
}
