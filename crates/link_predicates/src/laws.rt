// Laws of the checker and of the alarm.

ghost use Rattle.std.specs.Prelude.{◌≡◌, ◌↔◌, ℕ, All, IfSome, List, None, Contains};
ghost use Rattle.action_tables.specs.Modulus.{IsModulus};
ghost use Rattle.topology.specs.Graph.{IsGraph, IsReached, node_bound};
ghost use Rattle.tree_layer.specs.TreePicture.{TreePicture};
ghost use Rattle.reset_model.specs.Completion.{applied};
ghost use Rattle.reset_model.specs.Configuration.{Configuration, tree_of, wave_of};
ghost use Rattle.reset_model.specs.Runs.{IsRun};
ghost use Rattle.reset_model.specs.Sound.{IsSound};
ghost use Rattle.reset_model.specs.SoundSteps.{HoldsAt};
ghost use Rattle.reset_model.specs.Steps.{IsEnabled};
ghost use Rattle.reset_model.specs.WavePicture.{HasJoined, WavePicture};
ghost use Rattle.reset_model.specs.declared.event.Event.{Event};
ghost use Rattle.reset_model.specs.declared.event.Event.TheVariants.{Open};
ghost use Rattle.reset_model.specs.declared.step.Done.{Done};
ghost use Rattle.link_predicates.specs.Faults.{AreOfApp, alarm_of, faults, repair_of};

use app_interface::Application;
use reset_machine::{runs_are_steps, runs_stay_sound, wave_pictures};
use tree_layer::tree_pictures;

/// No fault of the tree or of the wave is reported exactly where every link passes the predicates of both
/// layers.
pub fn faultless_is_sound<P: Application>()
    ensures { (c : Configuration P.Local) → IsGraph c.graph → (AreOfApp (faults P.app c) ↔ IsSound c) }
{}

/// No fault of the tree or of the wave is reported exactly where both pictures hold.
pub fn faultless_is_pictured<P: Application>()
    ensures { (c : Configuration P.Local) → IsGraph c.graph
        → (AreOfApp (faults P.app c)
        ↔ (TreePicture c.graph (tree_of c) × WavePicture c.graph c.modulus (tree_of c) (wave_of c))) }
{
    faultless_is_sound::<P>();
    tree_pictures();
    wave_pictures();
}

/// The event that repairs a fault of the tree or of the wave is enabled there.
pub fn repairs_are_enabled<P: Application>()
    ensures { (c : Configuration P.Local) → IsGraph c.graph
        → All (λ fault. IfSome (repair_of fault)
        (IsEnabled c.graph (node_bound c.graph) c.modulus (tree_of c) (wave_of c))) (faults P.app c) }
{}

/// Wherever the application's invariant holds of the abstract state of a component, no node of it that has
/// joined has an alarm. So it is, from a sound configuration on, once a session was opened there.
pub fn joined_are_silent<P: Application>()
    ensures invariant { (c : Configuration P.Local) (i : ℕ) → IsGraph c.graph → HoldsAt P.app P.Inv c i
        → HasJoined c.graph (wave_of c) i → alarm_of P.app c i ≡ None }
    ensures opened { (c c' : Configuration P.Local) (es : List Event) (ds : List Done) (i o : ℕ) → IsGraph c.graph
        → IsModulus c.modulus → IsSound c → IsRun P.app c es ds c'
        → IsReached c.graph i o → Contains (applied es ds) (Open o)
        → HasJoined c'.graph (wave_of c') i → alarm_of P.app c' i ≡ None }
{
    runs_are_steps::<P>();
    runs_stay_sound::<P>();
}
