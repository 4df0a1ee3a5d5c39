// The local predicates and the pictures of the whole network, over every assignment of registers.

use crate::assert_equal;
use crate::puts::puts_tree;
use crate::steps::applies;
use crate::told::have_trees;
use action_tables::MAX_MODULUS;
use app_interface::Idle;
use reset_machine::{Config, Event};
use std::alloc::Global;
use std::process::Abort;
use test_networks::booted_modulo;
use tree_layer::TreeRegs;
use wave_layer::{Modulus, Phase, WaveRegs};

// A graph of the nodes 1, 2 and 3, with the distances of its nodes to node 3.
struct Case {
    links: &'static [(u32, u32)],
    distances: [u32; 3],
}

const LINE: Case = Case {
    links: &[(1, 2), (2, 3)],
    distances: [2, 1, 0],
};

const TRIANGLE: Case = Case {
    links: &[(1, 2), (2, 3), (1, 3)],
    distances: [1, 1, 0],
};

const IDS: [u32; 3] = [1, 2, 3];

// The number of nodes.
const BOUND: u32 = 3;

impl Case {
    fn boot(&self, rt: &impl Abort, alloc: Global, modulus: u64) -> Config<Idle> {
        let modulus = Modulus::new(modulus).expect(rt, "a modulus");
        booted_modulo(alloc, &IDS, self.links, modulus).expect(rt, "a graph")
    }

    fn are_linked(&self, a: u32, b: u32) -> bool {
        self.links.contains(&(a, b)) || self.links.contains(&(b, a))
    }

    // Whether each node knows node 3 and its distance to it, node 3 is its own father, and any
    // other node's father is a neighbour one nearer.
    fn is_tree(&self, trees: &[TreeRegs; 3]) -> bool {
        for place in 0..3 {
            let regs = trees[place];
            if regs.root != 3 || regs.dist != self.distances[place] {
                return false;
            }
            let is_led = match regs.father {
                father if place == 2 => father == 3,
                father @ 1..=3 => {
                    let steps = self.distances[father as usize - 1];
                    self.are_linked(IDS[place], father) && steps.saturating_add(1) == regs.dist
                }
                _ => false,
            };
            if !is_led {
                return false;
            }
        }
        true
    }
}

// Every assignment of a root and a father among the ids and a stranger, and of a distance up to
// the bound.
fn tree_regs(number: u32) -> TreeRegs {
    TreeRegs {
        root: number % 4 + 1,
        father: number / 4 % 4 + 1,
        dist: number / 16 % (BOUND + 1),
    }
}

fn no_tree_row(rt: &impl Abort, alloc: Global, config: &Config<Idle>) -> bool {
    for id in IDS {
        if config.enabled(alloc, id).expect(rt, "a node").tree.count() > 0 {
            return false;
        }
    }
    true
}

fn tree_pictures(rt: &impl Abort, alloc: Global, case: &Case) -> u32 {
    let mut config = case.boot(rt, alloc, MAX_MODULUS);
    let mut pictures = 0_u32;
    for number in 0..64 * 64 * 64 {
        let trees = [number % 64, number / 64 % 64, number / 4096].map(tree_regs);
        for place in 0..3 {
            config
                .put_tree(IDS[place], trees[place])
                .expect(rt, "a node");
        }
        let is_tree = case.is_tree(&trees);
        assert_equal(rt, no_tree_row(rt, alloc, &config), is_tree);
        pictures = pictures.saturating_add(u32::from(is_tree));
    }
    pictures
}

#[test]
fn no_tree_row_is_enabled_on_a_tree_alone(rt: HostRuntime) {
    assert_equal(&rt, tree_pictures(&rt, rt.alloc(), &LINE), 1);
    assert_equal(&rt, tree_pictures(&rt, rt.alloc(), &TRIANGLE), 1);
}

// Every assignment of a phase and of a session up to 2, which modulo 2 is one that only a fault leaves.
fn wave_regs(number: u32) -> WaveRegs {
    let phase = match number % 3 {
        0 => Phase::Normal,
        1 => Phase::Initiate,
        _ => Phase::Reset,
    };
    WaveRegs {
        phase,
        session: number / 3,
    }
}

// The session after this one.
fn session_after(session: u32, modulus: Modulus) -> u32 {
    ((u64::from(session) + 1) % modulus.get()) as u32
}

// Whether the nodes that have the session of node 3 contain their fathers, any other is not reset
// and the session after its own is that of node 3, the father of a reset node is reset, and so is a
// father that has the session of node 3 before its child, and where neither has it the two have one session.
fn is_wave(config: &Config<Idle>, waves: &[WaveRegs; 3]) -> bool {
    let modulus = config.modulus();
    let newest = waves[2].session;
    for place in 0..3 {
        let Some(tree) = config.tree_at(IDS[place]) else {
            return false;
        };
        let own = waves[place];
        let up = match tree.father {
            father @ 1..=3 => waves[father as usize - 1],
            _ => return false,
        };
        let joined = own.session == newest;
        let father_joined = up.session == newest;
        let reset = own.phase == Phase::Reset;
        let father_reset = up.phase == Phase::Reset;
        let fits = if joined {
            father_joined && (!reset || father_reset)
        } else {
            !reset
                && session_after(own.session, modulus) == newest
                && (if father_joined {
                    father_reset
                } else {
                    up.session == own.session
                })
        };
        if !fits {
            return false;
        }
    }
    true
}

fn no_mending_row(rt: &impl Abort, alloc: Global, config: &Config<Idle>) -> bool {
    for id in IDS {
        let rows = config.enabled(alloc, id).expect(rt, "a node").wave;
        if (8..=11).any(|row| rows.has(row)) {
            return false;
        }
    }
    true
}

fn wave_pictures(rt: &impl Abort, alloc: Global, case: &Case, modulus: u64) -> u32 {
    let mut config = case.boot(rt, alloc, modulus);
    let mut pictures = 0_u32;
    for number in 0..9 * 9 * 9 {
        let waves = [number % 9, number / 9 % 9, number / 81].map(wave_regs);
        for place in 0..3 {
            config
                .put_wave(IDS[place], waves[place])
                .expect(rt, "a node");
        }
        let is_wave = is_wave(&config, &waves);
        assert_equal(rt, no_mending_row(rt, alloc, &config), is_wave);
        pictures = pictures.saturating_add(u32::from(is_wave));
    }
    pictures
}

#[test]
fn no_mending_row_is_enabled_in_a_wave_alone(rt: HostRuntime) {
    for modulus in [2, 3, MAX_MODULUS] {
        assert!(rt; wave_pictures(&rt, rt.alloc(), &LINE, modulus) > 0);
        assert!(rt; wave_pictures(&rt, rt.alloc(), &TRIANGLE, modulus) > 0);
    }
}

// Of the rows of the tree table these are enabled at the node or not.
fn has_tree_rows(
    rt: &impl Abort,
    alloc: Global,
    config: &Config<Idle>,
    id: u32,
    rows: &[(u8, bool)],
) {
    let enabled = config.enabled(alloc, id).expect(rt, "a node").tree;
    for &(row, is_enabled) in rows {
        assert_eq!(rt; enabled.has(row), is_enabled, "node {id}, row {row}");
    }
}

// So many rows of the tree table are enabled at the node.
fn counts_tree_rows(rt: &impl Abort, alloc: Global, config: &Config<Idle>, id: u32, count: u32) {
    let enabled = config.enabled(alloc, id).expect(rt, "a node").tree;
    assert_equal(rt, enabled.count(), count);
}

#[test]
fn each_repair_leads_on(rt: HostRuntime) {
    // The registers of node 2 are torn; a claim and an adoption mend them.
    let mut config = LINE.boot(&rt, rt.alloc(), MAX_MODULUS);
    let torn = TreeRegs {
        root: 3,
        father: 3,
        dist: 4_294_967_295,
    };
    puts_tree(&rt, &mut config, 2, torn, Ok(()));
    has_tree_rows(&rt, rt.alloc(), &config, 2, &[(4, true), (8, true)]);
    counts_tree_rows(&rt, rt.alloc(), &config, 2, 2);
    let repairs = [Event::Claim { at: 2 }, Event::Adopt { at: 2, from: 3 }];
    applies(&rt, rt.alloc(), &mut config, &repairs);
    have_trees(&rt, &config, &[(2, 3, 3, 1)]);
    drop(config);
}

#[test]
fn an_impossible_root_is_followed_and_adopted(rt: HostRuntime) {
    let mut config = LINE.boot(&rt, rt.alloc(), MAX_MODULUS);
    let impossible = TreeRegs {
        root: 65535,
        father: 3,
        dist: 0,
    };
    puts_tree(&rt, &mut config, 2, impossible, Ok(()));
    for (id, follows, adopts) in [(1, true, true), (2, true, false), (3, false, true)] {
        let rows = [
            (5, follows),
            (7, adopts),
            (1, false),
            (4, false),
            (8, false),
        ];
        has_tree_rows(&rt, rt.alloc(), &config, id, &rows);
    }
    drop(config);
}
