// The number of nodes that are in without their turns.
ghost use Rattle.std.specs.Prelude.{◌≡◌, ℕ, ◌<◌, ◌≤◌, All, length, map, slice_index};
ghost use Rattle.std.specs.List.{count_by};
ghost use Rattle.app_mutex.specs.declared.local.MutexLocal.{MutexLocal};
ghost use Rattle.app_invariants.specs.Counts.{turns_lacked};
ghost use Rattle.app_invariants.specs.LackedTurns.{holds_all_turns, in_without_count, is_in_without};
ghost use Rattle.app_invariants.specs.LawsOfCounts.{turns_held};
ghost use Rattle.app_invariants.specs.States.{AreStates};

use crate::invariant::Invariant;
use crate::members::members_of;
use app_mutex::{EdgeReversal, MutexLocal, holds_turn};
use std::alloc::{AllocError, Global};
use topology::Topology;

impl Invariant for EdgeReversal {
    ghost counts = { turns_lacked };

    ghost decides = { turns_held };

    fn words() -> &'static str {
        "in without its turn"
    }

    fn right_count() -> u64 {
        0
    }

    fn count(
        alloc: Global,
        topology: &Topology,
        at: u32,
        states: &[MutexLocal],
    ) -> Result<u64, AllocError> {
        topology.lemma_is_graph();
        let members = members_of(alloc, topology, at)?;
        Ok(in_without(topology, members.as_slice(), states))
    }
}

// How many of the nodes at these indexes are in and lack a turn.
fn in_without(topology: &Topology, members: &[usize], states: &[MutexLocal]) -> u64
    requires members { All (λ k. k < length topology.now.ids) members.now }
    requires few { length members.now ≤ length topology.now.ids }
    requires states { length states.now ≡ length topology.now.ids }
    ensures { (v : ℕ → MutexLocal) → AreStates topology.now v states.now
        → result ≡ count_by (is_in_without topology.now v) (map (λ k. slice_index topology.now.ids k) members.now) }
{
    topology.lemma_is_graph();
    let mut count = 0;
    for index in members {
        if states[*index].inside && !holds_all_turns(topology, *index, states) {
            count += 1;
        }
    }
    count
}

// Whether the node at this index holds the turn of each of its links.
fn holds_all_turns(topology: &Topology, index: usize, states: &[MutexLocal]) -> bool
    requires index { index < length topology.now.ids }
    requires states { length states.now ≡ length topology.now.ids }
    ensures { (v : ℕ → MutexLocal) → AreStates topology.now v states.now
        → result ≡ holds_all_turns topology.now v (slice_index topology.now.ids index) }
{
    topology.lemma_is_graph();
    let ids = topology.ids();
    let bit = states[index].bit;
    for near in topology.neighbours(index) {
        if !holds_turn(ids[index], bit, ids[*near], states[*near].bit) {
            return false;
        }
    }
    true
}
