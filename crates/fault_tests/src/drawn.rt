// Drawn faults.

use crate::assert_equal;
use app_interface::Idle;
use fault_inject::{Fault, draw_fault};
use rand_core::{Rng, SeedableRng};
use rand_pcg::Lcg64Xsh32;
use reset_machine::Config;
use std::alloc::Global;
use std::process::Abort;
use test_networks::{booted, booted_modulo};
use tree_layer::TreeRegs;
use wave_layer::{Modulus, Phase, WaveRegs};

// The booted triangle of nodes 1, 2, 3.
fn triangle(rt: &impl Abort, alloc: Global) -> Config<Idle> {
    booted(alloc, &[1, 2, 3], &[(1, 2), (2, 3), (1, 3)]).expect(rt, "a graph")
}

// The words are the published ones of the reference generator from state 42 and stream 54: a15c02b7,
// 7b47f409, ba1d3330, 83d2f293, bfa4784b, cbed606e.
#[test]
fn draws_from_published_words(rt: HostRuntime) {
    let config = triangle(&rt, rt.alloc());
    let mut random = Lcg64Xsh32::new(42, 54);
    assert_equal(
        &rt,
        draw_fault(&mut random, &config),
        Fault::LinkUp { a: 1, b: 3 },
    );
    assert_equal(&rt, random.next_u32(), 0xcbed_606e);

    let mut random = Lcg64Xsh32::new(42, 54);
    random.advance(1);
    let regs = WaveRegs {
        phase: Phase::Initiate,
        session: 3,
    };
    assert_equal(
        &rt,
        draw_fault(&mut random, &config),
        Fault::SetWave { at: 3, regs },
    );
    drop(config);
}

#[test]
fn draws_sessions_beyond_the_modulus(rt: HostRuntime) {
    let modulus = Modulus::new(2).expect(&rt, "a modulus");
    let links = [(1, 2), (2, 3), (1, 3)];
    let config: Config<Idle> = booted_modulo(rt.alloc(), &[1, 2, 3], &links, modulus).expect(
        &rt, "a graph",
    );
    let mut random = Lcg64Xsh32::new(42, 54);
    random.advance(1);
    let regs = WaveRegs {
        phase: Phase::Initiate,
        session: 3,
    };
    assert_equal(
        &rt,
        draw_fault(&mut random, &config),
        Fault::SetWave { at: 3, regs },
    );
    drop(config);
}

// The fault of five words on the nodes 1, 2, 3.
fn fault_of(words: [u32; 5]) -> Fault {
    let node = [1, 2, 3];
    let at = node[words[1] as usize % 3];
    let next = node[words[2] as usize % 3];
    match words[0] % 4 {
        0 => Fault::SetTree {
            at,
            regs: TreeRegs {
                root: next,
                father: node[words[3] as usize % 3],
                dist: words[4] % 4,
            },
        },
        1 => Fault::SetWave {
            at,
            regs: WaveRegs {
                phase: [Phase::Normal, Phase::Initiate, Phase::Reset][words[2] as usize % 3],
                session: words[3] % 8,
            },
        },
        2 => Fault::LinkDown { a: at, b: next },
        _ => Fault::LinkUp { a: at, b: next },
    }
}

// The fault that is drawn from this seed is that of the seed's first five words, and no further word is drawn.
// Gives the first of them, whose remainder by 4 is the fault's kind.
fn draws_from_five_words(rt: &impl Abort, config: &Config<Idle>, seed: u64) -> usize {
    let mut random = Lcg64Xsh32::seed_from_u64(seed);
    let mut other = Lcg64Xsh32::seed_from_u64(seed);
    let mut words = [0; 5];
    for word in &mut words {
        *word = other.next_u32();
    }
    assert!(rt;
        draw_fault(&mut random, config) == fault_of(words),
        "seed {seed}"
    );
    assert!(rt; random == other, "seed {seed}");
    words[0] as usize
}

#[test]
fn draws_from_five_words_of_each_seed(rt: HostRuntime) {
    let config = triangle(&rt, rt.alloc());
    let mut kinds = [0u32; 4];
    for seed in 0..1000u64 {
        let kind = draws_from_five_words(&rt, &config, seed) % 4;
        kinds[kind] = kinds[kind].saturating_add(1);
    }
    drop(config);
    for count in kinds {
        assert!(rt; count > 200);
    }
}
