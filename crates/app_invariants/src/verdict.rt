// Whether the application's invariant holds in each component of a configuration.
ghost use Rattle.std.specs.Prelude.{◌≡◌, ℕ, ◌<◌, ◌==◌, IfOk, length, map, slice_index};
ghost use Rattle.topology.specs.Components.{component};
ghost use Rattle.topology.specs.Graph.{IsNode};
ghost use Rattle.app_invariants.specs.States.{AreStates};
ghost use Rattle.app_invariants.specs.Verdicts.{newest_of, verdict_of, verdicts_of, wrong_of};

use crate::invariant::{Invariant, find_violation};
use crate::members::leader_of;
use crate::violation::Violation;
use reset_machine::Config;
use std::alloc::{AllocError, Global};
use std::marker::Model;
use topology::Topology;

/// A component, and what is wrong with the application's invariant there.
#[derive(Drop)]
pub struct Verdict {
    /// The leader of the component: its greatest identifier.
    pub leader: u32,
    /// What is wrong, or None where the invariant holds.
    pub violation: Option<Violation>,
}

impl Model for Verdict {
    ghost use Rattle.std.specs.Prelude.{ℕ, List, Option, option_map};

    ghost Value = { ℕ × Option (List ℕ × ℕ) };

    ghost view = { λ v. (v.leader, option_map (λ w. (w.words.now, w.count)) v.violation) };
}

/// Decides the application's invariant in each component, by ascending leader: of the newest states there, where a node
/// that hasn't joined counts as started. It fails only if an allocation fails.
pub fn judge_components<P: Invariant>(
    alloc: Global,
    config: &Config<P>,
) -> Result<Vec<Verdict>, AllocError>
    ensures { IfOk result (λ verdicts. verdicts.items
        ≡ verdicts_of P.counts P.app config.now) }
{
    config.lemma_is_graph();
    let topology = config.topology();
    let states = newest_states(alloc, config)?;
    let mut verdicts = Vec::new(alloc);
    for id in topology.nodes() {
        if leader_of(topology, *id) == *id {
            verdicts.push(judge::<P>(alloc, topology, *id, &states)?)?;
        }
    }
    Ok(verdicts)
}

// Decides the invariant in the component of a node, of these states of all identifiers.
fn judge<P: Invariant>(
    alloc: Global,
    topology: &Topology,
    leader: u32,
    states: &[P::Local],
) -> Result<Verdict, AllocError>
    requires node { IsNode topology.now leader }
    requires states { length states.now ≡ length topology.now.ids }
    ensures { IfOk result (λ verdict. (v : ℕ → P.Local) → AreStates topology.now v states.now
        → verdict ≡ (
          leader,
          wrong_of P.counts (component topology.now leader) v,
        )) }
{
    let violation = find_violation::<P>(alloc, topology, leader, states)?;
    Ok(Verdict { leader, violation })
}

// The newest states of all identifiers, in their order.
fn newest_states<P: Invariant>(
    alloc: Global,
    config: &Config<P>,
) -> Result<Vec<P::Local>, AllocError>
    ensures { IfOk result (λ states. states.items ≡ map (newest_of P.app config.now) config.now.graph.ids) }
{
    let topology = config.topology();
    let mut states = Vec::new(alloc);
    for index in 0..topology.len() {
        states.push(newest_state(alloc, config, index)?)?;
    }
    Ok(states)
}

// The newest state of the identifier at this index.
fn newest_state<P: Invariant>(
    alloc: Global,
    config: &Config<P>,
    index: usize,
) -> Result<P::Local, AllocError>
    requires { index < length config.now.graph.ids }
    ensures { IfOk result (λ state. state ≡ newest_of P.app config.now (slice_index config.now.graph.ids index)) }
{
    let topology = config.topology();
    match config.newest_local(topology.ids()[index]) {
        Some(local) => P::copy(alloc, local),
        None => P::on_start(alloc, topology, index),
    }
}
