// The number of tokens.
ghost use Rattle.std.specs.Prelude.{◌≡◌, ℕ, ◌+◌, ◌<◌, ◌≤◌, All, length, map, slice_index};
ghost use Rattle.std.specs.List.{count_by, sum_by};
ghost use Rattle.topology.specs.Graph.{neighbours_of};
ghost use Rattle.app_token.specs.TokenLinks.{is_in_flight};
ghost use Rattle.app_token.specs.declared.local.TokenLocal.{TokenLocal};
ghost use Rattle.app_invariants.specs.Counts.{tokens};
ghost use Rattle.app_invariants.specs.LawsOfCounts.{one_token};
ghost use Rattle.app_invariants.specs.States.{AreStates};
ghost use Rattle.app_invariants.specs.Tokens.{token_count, tokens_at};

use crate::invariant::Invariant;
use crate::members::members_of;
use app_token::{Token, TokenLocal, is_in_flight};
use std::alloc::{AllocError, Global};
use topology::Topology;

impl Invariant for Token {
    ghost counts = { tokens };

    ghost decides = { one_token };

    fn words() -> &'static str {
        "tokens"
    }

    fn right_count() -> u64 {
        1
    }

    fn count(
        alloc: Global,
        topology: &Topology,
        at: u32,
        states: &[TokenLocal],
    ) -> Result<u64, AllocError> {
        topology.lemma_is_graph();
        let members = members_of(alloc, topology, at)?;
        Ok(tokens_of(topology, members.as_slice(), states))
    }
}

// The tokens of the nodes at these indexes.
fn tokens_of(topology: &Topology, members: &[usize], states: &[TokenLocal]) -> u64
    requires members { All (λ k. k < length topology.now.ids) members.now }
    requires few { length members.now ≤ length topology.now.ids }
    requires states { length states.now ≡ length topology.now.ids }
    ensures { (v : ℕ → TokenLocal) → AreStates topology.now v states.now
        → result ≡ sum_by (tokens_at topology.now v) (map (λ k. slice_index topology.now.ids k) members.now) }
{
    topology.lemma_is_graph();
    let mut count = 0;
    for index in members {
        count += tokens_at(topology, *index, states);
    }
    count
}

// The tokens of the node at this index: the one that it holds, and those that are in flight to it.
fn tokens_at(topology: &Topology, index: usize, states: &[TokenLocal]) -> u64
    requires index { index < length topology.now.ids }
    requires states { length states.now ≡ length topology.now.ids }
    ensures count { (v : ℕ → TokenLocal) → AreStates topology.now v states.now
        → result ≡ tokens_at topology.now v (slice_index topology.now.ids index) }
    ensures small { result ≤ length topology.now.ids + 1 }
{
    topology.lemma_is_graph();
    let flights = flights_to(topology, index, states);
    if states[index].hold {
        flights + 1
    } else {
        flights
    }
}

// How many tokens are in flight to the node at this index.
fn flights_to(topology: &Topology, index: usize, states: &[TokenLocal]) -> u64
    requires index { index < length topology.now.ids }
    requires states { length states.now ≡ length topology.now.ids }
    ensures count { (v : ℕ → TokenLocal) → AreStates topology.now v states.now
        → result ≡ count_by (λ a. is_in_flight a (slice_index topology.now.ids index) (v a)
        (v (slice_index topology.now.ids index))) (neighbours_of topology.now (slice_index topology.now.ids index)) }
    ensures small { result ≤ length topology.now.ids }
{
    topology.lemma_is_graph();
    let ids = topology.ids();
    let mut count = 0;
    for near in topology.neighbours(index) {
        if is_in_flight(ids[*near], ids[index], &states[*near], &states[index]) {
            count += 1;
        }
    }
    count
}
