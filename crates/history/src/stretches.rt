// What a history says where no fault was done.

ghost use Rattle.std.specs.Prelude.{◌≡◌, ◌↔◌, ◌++◌, ℕ, List, All, Contains, IsSome, Some, map};
ghost use Rattle.std.specs.List.Sorted.{IsStrictlyIncreasing};
ghost use Rattle.topology.specs.Graph.{IsGraph};
ghost use Rattle.reset_model.specs.declared.event.Event.{Event};
ghost use Rattle.reset_model.specs.declared.step.Reply.TheVariants.{Complete};
ghost use Rattle.reset_model.specs.Configuration.{Configuration, IsShaped};
ghost use Rattle.reset_model.specs.BySteps.{IsBySteps};
ghost use Rattle.reset_model.specs.Sound.{IsSound};
ghost use Rattle.history.specs.declared.entry.Entry.{Entry};
ghost use Rattle.history.specs.declared.entry.Report.{Report};
ghost use Rattle.history.specs.Book.{BookView, IsBook};
ghost use Rattle.history.specs.Entries.{replayed};
ghost use Rattle.history.specs.Reports.{reports_of};
ghost use Rattle.history.specs.Stretches.{IsApplied, IsIn, IsReport, IsStretch, IsTrueReport};
ghost use Rattle.history.specs.Stretches.{Stretch, steps};

use app_interface::Application;
use reset_model::{ProgramOf, headline, waves_end};

/// The reports of entries are exactly the completions in them, in the order in which they came,
/// each with its position and that of the latest opening at the same node that no fault came after.
pub fn reports_are_completions<P: Application>()
    ensures exactly { (opening : Configuration P.Local) (es : List Entry) (r : Report)
        → (Contains (reports_of P.app P.from_text opening es) r ↔ IsReport P.app P.from_text opening es r) }
    ensures each { (opening left : Configuration P.Local) (es : List Entry) (position session : ℕ) (event : Event)
        → IsApplied P.app P.from_text opening es position event (Complete session) left
        → (r : Report) × Contains (reports_of P.app P.from_text opening es) r
        × (r.number ≡ session) × (r.finished ≡ position) }
    ensures in_turn { (opening : Configuration P.Local) (es : List Entry)
        → IsStrictlyIncreasing (map (λ r. r.finished) (reports_of P.app P.from_text opening es)) }
{}

/// Whatever entries are allowed, faults among them, a graph stays one, and no node loses its registers or
/// its local state.
pub fn replays_stay_shaped<P: Application>()
    ensures { (c left : Configuration P.Local) (es : List Entry) → IsGraph c.graph → IsShaped c
        → replayed P.app P.from_text c es ≡ Some left → IsGraph left.graph × IsShaped left }
{}

/// Where all entries are allowed, the events between two faults are an undisturbed stretch, and so is each
/// part of them.
pub fn undisturbed_parts_are_stretches<P: Application>()
    ensures { (opening : Configuration P.Local) (es before rest : List Entry) (events : List Event)
        → es ≡ before ++ (steps events ++ rest) → IsSome (replayed P.app P.from_text opening es)
        → (s : Stretch P.Local) × IsStretch P.app P.from_text opening es s
        × (s.before ≡ before) × (s.events ≡ events) }
{}

/// An undisturbed stretch from sound registers on is steps: its events were taken in turn, the headline holds of them,
/// and their waves end.
pub fn stretches_are_steps<P: Application>()
    ensures { (opening : Configuration P.Local) (es : List Entry) (s : Stretch P.Local)
        → IsGraph opening.graph → IsShaped opening
        → IsStretch P.app P.from_text opening es s → IsSound s.here → IsBySteps P.app P.Inv s.here s.events s.left }
{
    headline::<ProgramOf<P>>();
    waves_end::<ProgramOf<P>>();
}

/// Each report of an undisturbed stretch that begins in sound registers is true: right after it every node
/// of its component is in its session and none is reset. Where the stretch has the opening, nobody there
/// opened another session in between, and each other node there joined exactly once and had its start state
/// right after it joined.
pub fn reports_are_true<P: Application>()
    ensures { (opening : Configuration P.Local) (es : List Entry) (s : Stretch P.Local)
        → IsGraph opening.graph → IsShaped opening
        → IsStretch P.app P.from_text opening es s → IsSound s.here
        → All (λ r. IsIn s r.finished → IsTrueReport P.app P.from_text opening es s r)
        (reports_of P.app P.from_text opening es) }
{}

/// What a book says of each undisturbed stretch of its entries that begins in sound registers: it is steps, of which the
/// headline holds and whose waves end, and each report of it is true.
pub fn books_tell_steps<P: Application>()
    ensures steps { (b : BookView P.Local) (s : Stretch P.Local) → IsBook P.app P.from_text b
        → IsStretch P.app P.from_text b.opening b.entries s → IsSound s.here
        → IsBySteps P.app P.Inv s.here s.events s.left }
    ensures reports { (b : BookView P.Local) (s : Stretch P.Local) → IsBook P.app P.from_text b
        → IsStretch P.app P.from_text b.opening b.entries s → IsSound s.here
        → All (λ r. IsIn s r.finished → IsTrueReport P.app P.from_text b.opening b.entries s r)
        (reports_of P.app P.from_text b.opening b.entries) }
{
    stretches_are_steps::<P>();
    reports_are_true::<P>();
}
