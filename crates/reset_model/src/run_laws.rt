// The two theorems, and that runs are what they are about.

ghost use Rattle.std.specs.Prelude.{◌≡◌, ℕ, List};
ghost use Rattle.action_tables.specs.Modulus.{IsModulus};
ghost use Rattle.topology.specs.Graph.{IsGraph, IsNode};
ghost use Rattle.reset_model.specs.declared.event.Event.{Event};
ghost use Rattle.reset_model.specs.declared.step.Done.{Done};
ghost use Rattle.reset_model.specs.Completion.{applied};
ghost use Rattle.reset_model.specs.Configuration.{Configuration};
ghost use Rattle.reset_model.specs.BySteps.{IsBySteps};
ghost use Rattle.reset_model.specs.Headline.{Headline, Steps, Transition};
ghost use Rattle.reset_model.specs.Progress.{WavesEnd};
ghost use Rattle.reset_model.specs.Runs.{IsRun};
ghost use Rattle.reset_model.specs.Sound.{IsSound};

use crate::program::{Program, ProgramOf};
use app_interface::Application;

/// The headline. Whatever steps are taken in turn from sound registers on, the registers stay sound; the local
/// states of the newest sessions are those of the abstract machine, which resets a whole component at once; each reset
/// that is reported complete is complete; and the application's invariant is kept, and holds where a session was opened.
pub fn headline<P: Program>()
    ensures { (c c' : Configuration P.Local) (ss : List (Transition P.Local)) → IsGraph c.graph → IsModulus c.modulus
        → IsSound c → Steps P.app c ss c' → Headline P.app P.Inv c ss c' }
{}

/// The waves end. From sound registers on, whatever steps are taken in turn, those of waves at the nodes of a component,
/// requests included, are at most 6 for each of its nodes, and 3 for each at each request there. And they don't stop
/// before: a component rests, or a step of the wave can be taken there, and it doesn't come to rest without a completion.
pub fn waves_end<P: Program>()
    ensures { (c c' : Configuration P.Local) (ss : List (Transition P.Local)) (i : ℕ) → IsGraph c.graph
        → IsModulus c.modulus → IsSound c → IsNode c.graph i → Steps P.app c ss c' → WavesEnd P.app c ss c' i }
{}

/// Whatever events are tried and whatever comes of them, the graph stays, sessions are counted on modulo such a
/// number, and sound registers stay sound.
pub fn runs_stay_sound<P: Application>()
    ensures { (c c' : Configuration P.Local) (es : List Event) (ds : List Done) → IsGraph c.graph
        → IsModulus c.modulus → IsSound c → IsRun P.app c es ds c'
        → (c'.graph ≡ c.graph) × IsModulus c'.modulus × IsSound c' }
{}

/// Runs are steps: whatever events are tried and whatever comes of them, what was applied are steps that were taken in
/// turn, of which the headline holds, and their waves end. What was refused changed nothing.
pub fn runs_are_steps<P: Application>()
    ensures { (c c' : Configuration P.Local) (es : List Event) (ds : List Done) → IsGraph c.graph
        → IsModulus c.modulus → IsSound c → IsRun P.app c es ds c' → IsBySteps P.app P.Inv c (applied es ds) c' }
{
    headline::<ProgramOf<P>>();
    waves_end::<ProgramOf<P>>();
}
