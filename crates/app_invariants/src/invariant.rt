// The trait of applications whose invariant is decided.
ghost use Rattle.std.specs.Prelude.{◌≡◌, ◌↔◌, ℕ, IfOk, length, option_map};
ghost use Rattle.topology.specs.Components.{component};
ghost use Rattle.topology.specs.Graph.{Graph, IsGraph, IsNode};
ghost use Rattle.app_invariants.specs.States.{AreStates};
ghost use Rattle.app_invariants.specs.Verdicts.{Count, wrong_of};

use crate::violation::Violation;
use app_interface::Application;
use std::alloc::{AllocError, Global};
use topology::Topology;

/// An application whose invariant is decided, by a number that the states of a component's nodes have.
pub trait Invariant: Application {
    // What is counted.
    ghost counts: { Count Self.Local };

    /// What is counted, in words.
    fn words() -> &'static str
        ensures { result.now ≡ counts.words };

    /// The number where the invariant holds.
    fn right_count() -> u64
        ensures { result ≡ counts.right };

    /// The number of a node's component, where `states` are those of all identifiers, in their order. It fails only if
    /// an allocation fails.
    fn count(
        alloc: Global,
        topology: &Topology,
        at: u32,
        states: &[Self::Local],
    ) -> Result<u64, AllocError>
        requires node { IsNode topology.now at }
        requires states { length states.now ≡ length topology.now.ids }
        ensures { IfOk result (λ n. (v : ℕ → Self.Local) → AreStates topology.now v states.now
            → n ≡ counts.number (component topology.now at) v) };

    // The invariant holds exactly where the number is the right one.
    ghost decides: { (g : Graph) (v : ℕ → Self.Local) → IsGraph g → (counts.number g v ≡ counts.right ↔ Self.Inv g v) };
}

/// Decides whether the invariant holds of the component of the node `at`, where `states` are those of all
/// identifiers, in their order. None exactly where it holds, and else the number that is wrong. It fails only if an
/// allocation fails.
pub fn find_violation<P: Invariant>(
    alloc: Global,
    topology: &Topology,
    at: u32,
    states: &[P::Local],
) -> Result<Option<Violation>, AllocError>
    requires node { IsNode topology.now at }
    requires states { length states.now ≡ length topology.now.ids }
    ensures { IfOk result (λ violation. (v : ℕ → P.Local) → AreStates topology.now v states.now
        → option_map (λ wrong. (wrong.words.now, wrong.count)) violation
        ≡ wrong_of P.counts (component topology.now at) v) }
{
    let count = P::count(alloc, topology, at, states)?;
    if count == P::right_count() {
        Ok(None)
    } else {
        let words = P::words();
        Ok(Some(Violation { words, count }))
    }
}
