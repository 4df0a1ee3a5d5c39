// Laws of what a run writes, and of what its lines leave.

ghost use Rattle.std.specs.Prelude.{◌≡◌, ℕ, List};
ghost use Rattle.action_tables.specs.Modulus.{IsModulus};
ghost use Rattle.topology.specs.Graph.{Graph, IsGraph};
ghost use Rattle.reset_model.specs.Configuration.{Configuration, IsShaped};
ghost use Rattle.reset_model.specs.Outcome.{IsBoot};
ghost use Rattle.reset_model.specs.Sound.{IsSound};
ghost use Rattle.applications.specs.Meaning.{meaning_of};
ghost use Rattle.script_replay.specs.Output.{IsJoinedOutput, IsOutput};
ghost use Rattle.script_replay.specs.Recorded.{IsRecorded};
ghost use Rattle.script_replay.specs.Stretches.{AreUndisturbed, MakeRun, MakeSteps};
ghost use Rattle.script_replay.specs.declared.status.Purpose.{Purpose};
ghost use Rattle.script_replay.specs.declared.status.Status.{Status};

use app_invariants::Invariant;
use reset_machine::runs_are_steps;

/// A topology and a script have at most one output, status included.
pub fn one_output()
    ensures { (purpose : Purpose) (topology script : List ℕ) (o p : List ℕ × Status)
        → IsOutput purpose topology script o → IsOutput purpose topology script p → o ≡ p }
{}

/// A joined text has at most one output, status included.
pub fn one_joined_output()
    ensures { (joined : List ℕ) (o p : List ℕ × Status) → IsJoinedOutput joined o → IsJoinedOutput joined p → o ≡ p }
{}

/// The same topology and script leave one history and one output, status included.
pub fn one_record()
    ensures { (topology script h k : List ℕ) (o p : List ℕ × Status)
        → IsRecorded topology script h o → IsRecorded topology script k p → (h ≡ k) × (o ≡ p) }
{}

/// What a recording writes, and its status, are those of a replay.
pub fn recordings_are_replays()
    ensures { (topology script history : List ℕ) (output : List ℕ × Status)
        → IsRecorded topology script history output → IsOutput Purpose.Replay topology script output }
{}

/// Between two faults the lines of a script make a run happen: whatever the configuration of a graph, lines of which
/// none asks for a fault leave what a run of their events leaves, each event answered by its outcome. The event of a line is its own, or the request of a node that watches and has an alarm. So,
/// from a sound configuration on, the events that are applied are steps, of which the headline holds.
pub fn stretches_are_runs<P: Invariant>()
    ensures run { (c : Configuration P.Local) (n : ℕ) (lines : List (List ℕ)) → AreUndisturbed P.names lines
        → IsGraph c.graph → IsShaped c
        → MakeRun (meaning_of P.app P.text P.from_text P.names P.counts) c n lines }
    ensures lawful { (c : Configuration P.Local) (n : ℕ) (lines : List (List ℕ)) → AreUndisturbed P.names lines
        → IsGraph c.graph → IsShaped c → IsSound c
        → MakeSteps (meaning_of P.app P.text P.from_text P.names P.counts) P.Inv c n lines }
{
    runs_are_steps::<P>();
}

/// From the booted configuration of a graph, the lines of a script of which none asks for a fault make steps happen:
/// what they leave is what steps of their events leave that were taken in turn, but for those that were refused; and the
/// headline holds of these steps.
pub fn scripts_are_steps<P: Invariant>()
    ensures { (g : Graph) (modulus : ℕ) (c : Configuration P.Local) (lines : List (List ℕ)) → IsGraph g
        → IsModulus modulus → IsBoot P.app g modulus c → AreUndisturbed P.names lines
        → MakeSteps (meaning_of P.app P.text P.from_text P.names P.counts) P.Inv c 1 lines }
{
    runs_are_steps::<P>();
}
