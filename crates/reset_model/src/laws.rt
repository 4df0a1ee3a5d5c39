// Laws of the definitions.

ghost use Rattle.std.specs.Prelude.{◌≡◌, ◌↔◌, ℕ, true, false, Contains, MatchResult};
ghost use Rattle.topology.specs.Graph.{Graph, IsGraph, IsNode, IsReached};
ghost use Rattle.tree_layer.specs.declared.regs.TreeRegs.{TreeRegs};
ghost use Rattle.tree_layer.specs.TreePicture.{TreePicture};
ghost use Rattle.wave_layer.specs.declared.regs.WaveRegs.{WaveRegs};
ghost use Rattle.reset_model.specs.declared.event.Event.{Event};
ghost use Rattle.reset_model.specs.declared.step.StepRefusal.{StepRefusal};
ghost use Rattle.reset_model.specs.Configuration.{Configuration, IsShaped, local_of, tree_of, wave_of};
ghost use Rattle.reset_model.specs.Steps.{event_node, IsEnabled, Mends, RegsStep, reply_of, reset_at};
ghost use Rattle.reset_model.specs.MachineSteps.{IsStep, IsRefused};
ghost use Rattle.reset_model.specs.Outcome.{IsBoot, map_outcome};
ghost use Rattle.reset_model.specs.Planned.{outcome_of};
ghost use Rattle.reset_model.specs.Sound.{Repairs, Sound};
ghost use Rattle.reset_model.specs.Topologies.{comes_up, with_topology};
ghost use Rattle.reset_model.specs.WavePicture.{WavePicture, WaveSound};
ghost use Rattle.tree_layer.specs.TreeRows.{claimed};
ghost use Rattle.wave_layer.specs.declared.regs.Phase.TheVariants.{Normal};
ghost use Rattle.reset_model.specs.declared.event.Event.TheVariants.{Finish};

use app_interface::Application;

/// A graph has at most one booted configuration with sessions modulo a number.
pub fn one_boot<P: Application>()
    ensures { (g : Graph) (m : ℕ) (c d : Configuration P.Local) → IsBoot P.app g m c → IsBoot P.app g m d
        → c ≡ d }
{}

/// With another graph of the same identifiers a configuration has the registers and the local states that it
/// had, but for the nodes that come up, which start anew.
pub fn states_stay<P: Application>()
    ensures kept { (c : Configuration P.Local) (g : Graph) (i : ℕ) → IsShaped c → g.ids ≡ c.graph.ids
        → Contains c.graph.ids i → comes_up c.graph g i ≡ false
        → (tree_of (with_topology P.app c g) i ≡ tree_of c i) × (wave_of (with_topology P.app c g) i ≡ wave_of c i)
        × (local_of P.app (with_topology P.app c g) i ≡ local_of P.app c i) }
    ensures anew { (c : Configuration P.Local) (g : Graph) (i : ℕ) → IsShaped c → g.ids ≡ c.graph.ids
        → Contains c.graph.ids i → comes_up c.graph g i ≡ true
        → (tree_of (with_topology P.app c g) i ≡ claimed i)
        × (wave_of (with_topology P.app c g) i ≡ record { phase = Normal; session = 0 })
        × (local_of P.app (with_topology P.app c g) i ≡ P.app.start g i) }
{}

/// The outcome of an event, as a function, is a step with its reply, or the first refusal.
pub fn outcomes_are_steps<P: Application>()
    ensures { (c : Configuration P.Local) (e : Event) → IsGraph c.graph → IsShaped c
        → MatchResult (outcome_of P.app c e)
        (λ after. IsStep P.app c e after.0 × (after.1 ≡ reply_of (tree_of c) (wave_of c) e))
        (IsRefused P.app c e) }
{}

/// No event is both a step and refused; by its outcome it is one of the two.
pub fn no_step_is_refused<P: Application>()
    ensures { (c c' : Configuration P.Local) (e : Event) (f : StepRefusal) → IsGraph c.graph → IsStep P.app c e c'
        → IsRefused P.app c e f → ⊥ }
{}

/// The outcome of an event, which is what its node's view says of it, written at the node, is what the
/// maps of all registers and local states say of it.
pub fn views_decide<P: Application>()
    ensures { (c : Configuration P.Local) (e : Event) → IsGraph c.graph → outcome_of P.app c e ≡ map_outcome P.app c e }
{}

/// No mending row is enabled at any node exactly where the predicate holds at every father link.
pub fn mends_rest()
    ensures { (g : Graph) (m : ℕ) (t : ℕ → TreeRegs) (w : ℕ → WaveRegs)
        → (((i : ℕ) → Mends g m t w i → ⊥) ↔ WaveSound g m t w) }
{}

/// Where the tree picture holds, the predicate holds at every father link exactly where the wave
/// picture holds.
pub fn wave_pictures()
    ensures { (g : Graph) (m : ℕ) (t : ℕ → TreeRegs) (w : ℕ → WaveRegs) → IsGraph g → TreePicture g t
        → (WaveSound g m t w ↔ WavePicture g m t w) }
{}

/// Each step leaves sound registers sound, whatever the bound `K`.
pub fn steps_stay_sound()
    ensures { (g : Graph) (K m : ℕ) (t t' : ℕ → TreeRegs) (w w' : ℕ → WaveRegs) (e : Event) → IsGraph g
        → Sound g K m t w → RegsStep g K m t w e t' w' → Sound g K m t' w' }
{}

/// Where registers are sound no node claims, follows, adopts or mends.
pub fn sound_is_quiet()
    ensures { (g : Graph) (K m : ℕ) (t : ℕ → TreeRegs) (w : ℕ → WaveRegs) (e : Event) → IsNode g (event_node e)
        → Sound g K m t w → Repairs e → IsEnabled g K m t w e → ⊥ }
{}

/// Right after a node that is its own father finishes, from sound registers, every node of its component
/// has its session and none is reset.
pub fn completions_are_true()
    ensures { (g : Graph) (K m : ℕ) (t t' : ℕ → TreeRegs) (w w' : ℕ → WaveRegs) (i : ℕ) → IsGraph g
        → Sound g K m t w → (t i).father ≡ i → RegsStep g K m t w (Finish i) t' w'
        → (j : ℕ) → IsReached g i j → (reset_at w' j ≡ false) × ((w' j).session ≡ (w i).session) }
{}
