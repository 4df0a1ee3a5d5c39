// What a verdict means.
ghost use Rattle.std.specs.Prelude.{◌≡◌, ◌↔◌, ℕ, None};
ghost use Rattle.topology.specs.Graph.{Graph, IsGraph, IsNode};
ghost use Rattle.reset_model.specs.Configuration.{Configuration};
ghost use Rattle.reset_model.specs.SoundSteps.{HoldsAt};
ghost use Rattle.app_invariants.specs.Verdicts.{verdict_of, wrong_of};

use crate::invariant::Invariant;

/// Nothing is wrong exactly where the application's invariant holds of the graph with these states.
pub fn violations_tell<P: Invariant>()
    ensures { (g : Graph) (v : ℕ → P.Local) → IsGraph g → (wrong_of P.counts g v ≡ None ↔ P.Inv g v) }
{}

/// The verdict on the component of a node finds nothing wrong exactly where the application's invariant holds of the
/// abstract states there, as the headline has it.
pub fn verdicts_tell<P: Invariant>()
    ensures { (c : Configuration P.Local) (i : ℕ) → IsGraph c.graph → IsNode c.graph i
        → ((verdict_of P.counts P.app c i).1 ≡ None ↔ HoldsAt P.app P.Inv c i) }
{}
