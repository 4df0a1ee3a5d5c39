// The table of the wave agrees with a plain one, written apart, at the edges of the registers.

use crate::assert_equal;
use action_tables::{CaseSet, MAX_MODULUS};
use std::process::Abort;
use wave_layer::FatherSeen::{self, Is, Itself, Lost};
use wave_layer::{
    Modulus, Phase, WaveMove, WaveRefusal, WaveRegs, WaveView, finish, join, open, relay, request,
    wave_enabled, wave_fire, wave_good,
};

fn regs(phase: Phase, session: u32) -> WaveRegs {
    WaveRegs { phase, session }
}

fn normal(session: u32) -> WaveRegs {
    regs(Phase::Normal, session)
}

fn initiate(session: u32) -> WaveRegs {
    regs(Phase::Initiate, session)
}

fn reset(session: u32) -> WaveRegs {
    regs(Phase::Reset, session)
}

fn modulus(rt: &impl Abort, value: u64) -> Modulus {
    Modulus::new(value).expect(rt, "a modulus")
}

fn moved(regs: WaveRegs) -> WaveMove {
    WaveMove {
        regs,
        restarts: false,
        completes: false,
    }
}

fn restarted(regs: WaveRegs) -> WaveMove {
    WaveMove {
        regs,
        restarts: true,
        completes: false,
    }
}

fn completed(regs: WaveRegs) -> WaveMove {
    WaveMove {
        regs,
        restarts: false,
        completes: true,
    }
}

const EDGES: [u32; 7] = [0, 1, 2, 3, 65535, 65536, u32::MAX];

const PHASES: [Phase; 3] = [Phase::Normal, Phase::Initiate, Phase::Reset];

// The guards that ask nothing of the father's registers, written apart.
fn holds_alone(case: u8, phase: Phase, root: bool, done: bool, asked: bool) -> bool {
    match case {
        1 => phase == Phase::Normal,
        2 => phase == Phase::Normal && asked,
        3 => phase == Phase::Initiate && root,
        6 => phase == Phase::Reset && !root && done,
        7 => phase == Phase::Reset && root && done,
        _ => false,
    }
}

// The session after this one.
fn session_after(session: u32, modulus: Modulus) -> u32 {
    ((u64::from(session) + 1) % modulus.get()) as u32
}

// The others, where the father is a neighbour.
fn holds_below(case: u8, own: WaveRegs, up: WaveRegs, modulus: Modulus) -> bool {
    let up_reset = up.phase == Phase::Reset;
    let own_reset = own.phase == Phase::Reset;
    let same = own.session == up.session;
    let ahead = up.session == session_after(own.session, modulus);
    match case {
        4 => up_reset && own.phase == Phase::Normal && ahead,
        5 => up_reset && own.phase == Phase::Initiate && ahead,
        8 => !up_reset && own_reset,
        9 => !up_reset && !own_reset && !same,
        10 => up_reset && own_reset && !same,
        11 => up_reset && !own_reset && !same && !ahead,
        _ => false,
    }
}

fn holds(
    case: u8,
    own: WaveRegs,
    father: FatherSeen,
    modulus: Modulus,
    done: bool,
    asked: bool,
) -> bool {
    match father {
        Itself => holds_alone(case, own.phase, true, done, asked),
        Lost => holds_alone(case, own.phase, false, done, asked),
        Is(up) => {
            holds_alone(case, own.phase, false, done, asked) || holds_below(case, own, up, modulus)
        }
    }
}

fn effect(case: u8, own: WaveRegs, father: FatherSeen, modulus: Modulus) -> WaveMove {
    let up = match father {
        Is(up) => up,
        Itself | Lost => own,
    };
    match case {
        1 | 2 => moved(initiate(own.session)),
        3 => restarted(reset(session_after(own.session, modulus))),
        4 | 5 => restarted(reset(up.session)),
        6 => moved(normal(own.session)),
        7 => completed(normal(own.session)),
        _ => moved(up),
    }
}

// Whether the child that is named asks for a wave.
fn is_asked(named: Option<u32>, first: WaveRegs, second: WaveRegs) -> bool {
    match named {
        Some(3) => first.phase == Phase::Initiate,
        Some(8) => second.phase == Phase::Initiate,
        _ => false,
    }
}

// Whether a child with these registers is done with the session.
fn is_done(child: WaveRegs, session: u32) -> bool {
    child.phase != Phase::Reset && child.session == session
}

fn plain(
    case: u8,
    own: WaveRegs,
    father: FatherSeen,
    first: WaveRegs,
    second: WaveRegs,
    modulus: Modulus,
    named: Option<u32>,
) -> Result<WaveMove, WaveRefusal> {
    let is_child = named == Some(3) || named == Some(8);
    let asked = is_asked(named, first, second);
    let done = is_done(first, own.session) && is_done(second, own.session);
    if case == 0 || case > 11 {
        Err(WaveRefusal::NoSuchCase)
    } else if (case == 2 && !is_child) || (case != 2 && named.is_some()) {
        Err(WaveRefusal::NotChild)
    } else if holds(case, own, father, modulus, done, asked) {
        Ok(effect(case, own, father, modulus))
    } else {
        Err(WaveRefusal::NotEnabled)
    }
}

// Whether none of the rows is enabled that mend.
fn mends_nothing(enabled: CaseSet) -> bool {
    !(8..=11).any(|case| enabled.has(case))
}

// Whether each case, at each child that may be named, is enabled and does as in the plain table.
fn agrees(
    own: WaveRegs,
    father: FatherSeen,
    first: WaveRegs,
    second: WaveRegs,
    modulus: Modulus,
) -> bool {
    let children = [(3, first), (8, second)];
    let view = match WaveView::new(own, father, &children, modulus) {
        Some(view) => view,
        None => return false,
    };
    let enabled = wave_enabled(&view);
    if wave_good(&view) != mends_nothing(enabled) {
        return false;
    }
    for case in 0..13 {
        let mut holds = false;
        for named in [None, Some(3), Some(8), Some(5)] {
            let answer = plain(case, own, father, first, second, modulus, named);
            holds = holds || answer.is_ok();
            if wave_fire(&view, case, named) != answer {
                return false;
            }
        }
        if enabled.has(case) != holds {
            return false;
        }
    }
    true
}

fn agrees_at_all_fathers(
    own: WaveRegs,
    first: WaveRegs,
    second: WaveRegs,
    modulus: Modulus,
) -> bool {
    if !agrees(own, Itself, first, second, modulus) || !agrees(own, Lost, first, second, modulus) {
        return false;
    }
    for session in EDGES {
        for phase in PHASES {
            if !agrees(own, Is(regs(phase, session)), first, second, modulus) {
                return false;
            }
        }
    }
    true
}

// Whether a node with these registers agrees with the plain table, over all children and under all fathers.
fn agrees_over_all_children(own: WaveRegs, modulus: Modulus) -> bool {
    for session in EDGES {
        for phase in PHASES {
            let first = regs(phase, session);
            for second in [normal(own.session), initiate(2), reset(own.session)] {
                if !agrees_at_all_fathers(own, first, second, modulus) {
                    return false;
                }
            }
        }
    }
    true
}

#[test]
fn agrees_with_a_plain_table(rt: HostRuntime) {
    for value in [2, 3, MAX_MODULUS] {
        let modulus = modulus(&rt, value);
        for session in EDGES {
            for phase in PHASES {
                let own = regs(phase, session);
                assert!(rt;
                    agrees_over_all_children(own, modulus),
                    "{own:?} modulo {value}"
                );
            }
        }
    }
}

#[test]
fn a_modulus_is_from_2_to_4294967296(rt: HostRuntime) {
    for value in [2, 4_294_967_296] {
        assert_equal(&rt, modulus(&rt, value).get(), value);
    }
    for value in [0, 1, 4_294_967_297, u64::MAX] {
        assert_eq!(rt; Modulus::new(value), None, "{value}");
    }
}

#[test]
fn the_commands_of_a_wave(rt: HostRuntime) {
    let most = modulus(&rt, MAX_MODULUS);
    assert_equal(&rt, request(normal(4)), Ok(moved(initiate(4))));
    assert_equal(
        &rt,
        relay(normal(4), Some(initiate(4))),
        Ok(moved(initiate(4))),
    );
    assert_equal(&rt, open(initiate(4), true, most), Ok(restarted(reset(5))));
    assert_equal(
        &rt,
        join(initiate(4), Is(reset(5)), most),
        Ok(restarted(reset(5))),
    );
    assert_equal(&rt, finish(reset(5), false, true), Ok(moved(normal(5))));
    assert_equal(&rt, finish(reset(5), true, true), Ok(completed(normal(5))));
}

// Of a session, its modulus and the session after it: the last ones, and some that a fault left.
const SUCCESSORS: [(u32, u64, u32); 9] = [
    (0, 2, 1),
    (1, 2, 0),
    (7, 8, 0),
    (4_294_967_294, 4_294_967_296, 4_294_967_295),
    (4_294_967_295, 4_294_967_296, 0),
    (8, 8, 1),
    (9, 8, 2),
    (2, 2, 1),
    (4_294_967_295, 3, 1),
];

// The session after this one is `next`: the root opens it, and others join their fathers in it.
fn is_followed_by(rt: &impl Abort, session: u32, value: u64, next: u32) {
    let modulus = modulus(rt, value);
    let restarts = Ok(restarted(reset(next)));
    assert_eq!(rt;
        open(initiate(session), true, modulus),
        restarts,
        "{session} modulo {value}"
    );
    for own in [normal(session), initiate(session)] {
        assert_eq!(rt;
            join(own, Is(reset(next)), modulus),
            restarts,
            "{session} modulo {value}"
        );
    }
}

#[test]
fn sessions_are_opened_and_joined_modulo(rt: HostRuntime) {
    for (session, value, next) in SUCCESSORS {
        is_followed_by(&rt, session, value, next);
    }
}

#[test]
fn a_session_beyond_the_modulus_is_joined_by_nobody(rt: HostRuntime) {
    let eight = modulus(&rt, 8);
    // Session 10 is 2 modulo 8, and yet not the session after 1 or after 9.
    for own in [normal(1), normal(9)] {
        assert_equal(
            &rt,
            join(own, Is(reset(10)), eight),
            Err(WaveRefusal::NotEnabled),
        );
    }
}

#[test]
fn the_names_of_the_phases(rt: HostRuntime) {
    let names = [
        Phase::Normal.name(),
        Phase::Initiate.name(),
        Phase::Reset.name(),
    ];
    assert_eq!(rt; names, ["normal", "initiate", "reset"]);
}
