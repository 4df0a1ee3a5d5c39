// Laws of verifications, of recordings, and of runs of node threads and of the scheduler.

ghost use Rattle.std.specs.Prelude.{◌≡◌, ◌≤◌, ℕ, List, length};
ghost use Rattle.topology.specs.Graph.{Graph, IsGraph, IsNode};
ghost use Rattle.topology.specs.declared.text.AppName.{AppName};
ghost use Rattle.reset_model.specs.Configuration.{Configuration};
ghost use Rattle.reset_model.specs.Outcome.{IsBoot};
ghost use Rattle.reset_model.specs.SoundSteps.{HoldsAt};
ghost use Rattle.applications.specs.Meaning.{meaning_of};
ghost use Rattle.reset_service.specs.Drove.{IsDroveText};
ghost use Rattle.script_replay.specs.Output.{Describes};
ghost use Rattle.script_replay.specs.Recorded.{IsRecorded};
ghost use Rattle.reset_service.specs.Stepped.{TellsStepsOf};
ghost use Rattle.reset_service.specs.Threaded.{IsKeptFrom, IsThreaded, TellsRun, TellsRunOf};
ghost use Rattle.reset_service.specs.Verified.{IsVerification, TellsTrueReportsOf};
ghost use Rattle.script_replay.specs.declared.status.Status.{Status};

use app_interface::Application;
use app_invariants::Invariant;
use applications::{EdgeReversal, Idle, Routes, Token};
use history::{one_reading_a_text, reports_are_completions, reports_are_true, stretches_are_steps};

/// A topology and a history are answered with one thing at most, status included.
pub fn one_verification()
    ensures { (topology history : List ℕ) (o p : List ℕ × Status)
        → IsVerification topology history o → IsVerification topology history p → o ≡ p }
{
    one_reading_a_text();
}

/// What a verification that ends well means. Its topology describes a graph, and names an application and the
/// number modulo which sessions are counted; its history names the same number, and is that of entries each of
/// which is allowed where it stands, from the booted configuration on; and it writes the reports of these
/// entries. The booted registers are sound, so that the stretch before the first fault begins in sound
/// registers. Each report of a stretch that does is true.
pub fn verified_reports_are_true()
    ensures { (topology history written : List ℕ) → IsVerification topology history (written, Status.Good)
        → (g : Graph) × (app : AppName) × (modulus : ℕ) × Describes topology g app modulus
        × TellsTrueReportsOf app g modulus history written }
{
    reports_are_true::<Idle>();
    reports_are_true::<Token>();
    reports_are_true::<EdgeReversal>();
    reports_are_true::<Routes>();
}

/// The history of a verification that ends well consists of steps: it is that of entries each of which is allowed where it
/// stands, from the booted configuration on, and each undisturbed stretch of it that begins in sound registers is steps
/// that were taken in turn, of which the headline holds, and their waves end. The booted registers are sound.
pub fn verified_histories_tell_steps()
    ensures { (topology history written : List ℕ) → IsVerification topology history (written, Status.Good)
        → (g : Graph) × (app : AppName) × (modulus : ℕ) × Describes topology g app modulus
        × TellsStepsOf app g modulus history }
{
    stretches_are_steps::<Idle>();
    stretches_are_steps::<Token>();
    stretches_are_steps::<EdgeReversal>();
    stretches_are_steps::<Routes>();
}

/// In a booted configuration the application's invariant holds in each component, of all nodes as they are.
pub fn booted_invariants_hold<P: Application>()
    ensures { (g : Graph) (modulus : ℕ) (c : Configuration P.Local) → IsGraph g → IsBoot P.app g modulus c
        → (i : ℕ) → IsNode c.graph i → HoldsAt P.app P.Inv c i }
{}

/// What node threads keep from the booted configuration of a graph, where it is written, is a run.
pub fn kept_histories_are_runs<P: Invariant>()
    ensures { (g : Graph) (modulus : ℕ) (history line : List ℕ) → IsGraph g
        → IsKeptFrom (meaning_of P.app P.text P.from_text P.names P.counts) g modulus history (line, Status.Good)
        → TellsRun (meaning_of P.app P.text P.from_text P.names P.counts) P.Inv g modulus history line }
{
    booted_invariants_hold::<P>();
    reports_are_completions::<P>();
    reports_are_true::<P>();
    stretches_are_steps::<P>();
}

/// What a run of node threads that ends well means. Its topology describes a graph, and names an application and the
/// number modulo which sessions are counted; its history names the same number, and is that of steps alone, one
/// undisturbed stretch from the booted configuration on, whose registers are sound. So they are steps that were taken in
/// turn, of which the headline holds, and their waves end; at their end the application's invariant holds in each
/// component, and each report is true. The line counts the nodes, the entries and the reports.
pub fn threads_keep_a_run()
    ensures { (topology history line : List ℕ) → IsThreaded topology history (line, Status.Good)
        → (g : Graph) × (app : AppName) × (modulus : ℕ) × Describes topology g app modulus
        × TellsRunOf app g modulus history line }
{
    kept_histories_are_runs::<Idle>();
    kept_histories_are_runs::<Token>();
    kept_histories_are_runs::<EdgeReversal>();
    kept_histories_are_runs::<Routes>();
}

/// A verification takes the history of a run of node threads that ends well.
pub fn threads_are_verified()
    ensures { (topology history line : List ℕ) → IsThreaded topology history (line, Status.Good)
        → (written : List ℕ) × IsVerification topology history (written, Status.Good) }
{}

/// A verification takes the history of a run of the seeded scheduler that ends well.
pub fn driven_runs_are_verified()
    ensures { (steps seed faults : ℕ) (topology history line : List ℕ)
        → IsDroveText steps seed faults topology history (line, Status.Good)
        → (written : List ℕ) × IsVerification topology history (written, Status.Good) }
{}

/// A verification takes the history of a recorded script, whatever its answers and also where it ends at a bad line, if
/// the topology is good and the script isn't too long.
pub fn recordings_are_verified()
    ensures { (topology script history : List ℕ) (output : List ℕ × Status) (g : Graph) (app : AppName) (modulus : ℕ)
        → Describes topology g app modulus → length script ≤ 1048576 → IsRecorded topology script history output
        → (written : List ℕ) × IsVerification topology history (written, Status.Good) }
{}

/// The same topology, number of steps, seed and rate of faults give the same history and the same output.
pub fn one_driven_run()
    ensures { (steps seed faults : ℕ) (topology h k : List ℕ) (o p : List ℕ × Status)
        → IsDroveText steps seed faults topology h o → IsDroveText steps seed faults topology k p
        → (h ≡ k) × (o ≡ p) }
{}
