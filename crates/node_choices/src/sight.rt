// What a node sees, by layers, so that all its events are tried on what is gathered once.

ghost use Rattle.action_tables.specs.Numbers.{is_among};
ghost use Rattle.std.specs.Prelude.{if◌then◌else◌, ◌≡◌, ◌≢◌, ◌↔◌, ◌&&◌, [], Err, IfOk, IsTrue, MatchResult, Ok, is_ok};
ghost use Rattle.node_choices.specs.Sight.{IsOfLayer, enabled_in, none_but_request, some_among};
ghost use Rattle.reset_model.specs.LocalSteps.{cases_of, first_fired};
ghost use Rattle.reset_model.specs.Planned.{row_planned, sees};
ghost use Rattle.reset_model.specs.Steps.{named_node};
ghost use Rattle.reset_model.specs.View.{children_of, near_trees, near_waves, tree_view, wave_view};
ghost use Rattle.reset_model.specs.declared.plan.Seen.TheVariants.{Tree, Wave};

use crate::case::is_taken;
use action_tables::CaseSet;
use app_interface::Application;
use reset_machine::{Event, Near, Reply, StepRefusal, View};
use reset_model::Arguments;
use reset_model::decide::{case_taken, row_effect};
use reset_model::neighbourhood::{sees, tree_seen, wave_seen};
use reset_model::plan::{Effect, Seen, first_fired};
use std::alloc::{AllocError, Global};
use std::marker::Model;
use tree_layer::{TreeRegs, tree_enabled};
use wave_layer::{WaveRegs, wave_enabled};

// The request, the one row of the wave table that a node doesn't take by itself.
const REQUEST: u8 = 1;

/// A view, with what it says of the tree and of the wave, and the rows that are enabled in each: so an event of which no
/// row is enabled isn't tried.
#[derive(Drop)]
pub struct Sight<'a, P: Application> {
    view: &'a View<P>,
    tree: Seen<'a>,
    wave: Seen<'a>,
    tree_rows: CaseSet,
    wave_rows: CaseSet,
}

impl<'a, P: Application> Model for Sight<'a, P> {
    ghost use Rattle.reset_model.specs.View.{NodeView};
    ghost use Rattle.node_choices.specs.Sight.{IsSight};

    ghost Value = { NodeView P.Local };

    ghost view = { λ s. s.view.now };

    ghost invariant = { λ s. IsSight s.view.now s.tree s.wave s.tree_rows s.wave_rows };
}

impl<'a, P: Application> Sight<'a, P> {
    ghost use Rattle.node_choices.specs.Choice.{is_allowed};

    /// The sight of a view, of whose neighbours these are the tree registers, and of whose children the wave registers.
    pub fn new(
        view: &'a View<P>,
        trees: &'a [(u32, TreeRegs)],
        children: &'a [(u32, WaveRegs)],
    ) -> Sight<'a, P>
        requires trees { trees.now ≡ near_trees view.now.near }
        requires children { children.now ≡ near_waves (children_of view.now) }
        ensures { result ≡ view.now }
    {
        let tree = tree_seen(view, trees);
        let wave = wave_seen(view, children);
        let tree_rows = enabled_in(&tree);
        let wave_rows = enabled_in(&wave);
        Sight {
            view,
            tree,
            wave,
            tree_rows,
            wave_rows,
        }
    }

    /// The node's identifier.
    pub fn id(&self) -> u32
        ensures { result ≡ self.now.id }
    {
        self.view.id()
    }

    /// The neighbours, ascending.
    pub fn neighbours(&self) -> &'a [Near<P>]
        ensures { result.now ≡ self.now.near }
    {
        self.view.neighbours()
    }

    /// Whether no row of the tree table is enabled.
    pub fn tree_rests(&self) -> bool
        ensures { IsTrue result ↔ enabled_in (Tree (tree_view self.now)) ≡ [] }
    {
        self.tree_rows.count() == 0
    }

    /// Whether no row of the wave table is enabled but the request, row 1.
    pub fn wave_rests(&self) -> bool
        ensures { result ≡ none_but_request (enabled_in (Wave (wave_view self.now))) }
    {
        self.wave_rows.count() == count_requests(self.wave_rows)
    }

    /// Whether the view allows the event.
    pub fn allows(&self, alloc: Global, event: Event) -> Result<bool, AllocError>
        ensures { IfOk result (λ is. is ≡ is_allowed P.app self.now event) }
    {
        if self.view.id() != event.node() {
            return Ok(false);
        }
        match event {
            Event::Claim { .. } | Event::Follow { .. } | Event::Adopt { .. } => {
                Ok(fires(self.view, &self.tree, self.tree_rows, event))
            }
            Event::Request { .. }
            | Event::Relay { .. }
            | Event::Open { .. }
            | Event::Join { .. }
            | Event::Finish { .. }
            | Event::Mend { .. } => Ok(fires(self.view, &self.wave, self.wave_rows, event)),
            Event::Act { case, with, .. } => {
                if !sees(self.view, with) {
                    return Ok(false);
                }
                is_taken(alloc, self.view, Arguments { case, with })
            }
        }
    }
}

impl<'a, P: Application> Sight<'a, P> {
    ghost use Rattle.reset_model.specs.Planned.{planned};

    /// What the event does at the node, with its reply, or the first refusal.
    pub fn does(
        &self,
        alloc: Global,
        event: Event,
    ) -> Result<(Effect<P::Local>, Reply), StepRefusal>
        ensures exact { MatchResult result (λ does. planned P.app self.now event ≡ Ok does)
            (λ f. f ≢ StepRefusal.NoMemory → planned P.app self.now event ≡ Err f) }
    {
        if self.view.id() != event.node() {
            return Err(StepRefusal::StrangeNode);
        }
        if !sees(self.view, event.named()) {
            return Err(StepRefusal::StrangeNeighbour);
        }
        match event {
            Event::Act { case, with, .. } => {
                let local = case_taken(alloc, self.view, Arguments { case, with })?;
                Ok((Effect::Local(local), Reply::Applied))
            }
            Event::Claim { .. } | Event::Follow { .. } | Event::Adopt { .. } => {
                row_does(alloc, self.view, &self.tree, event)
            }
            Event::Request { .. }
            | Event::Relay { .. }
            | Event::Open { .. }
            | Event::Join { .. }
            | Event::Finish { .. }
            | Event::Mend { .. } => row_does(alloc, self.view, &self.wave, event),
        }
    }
}

// What a row of the event does, by what the node sees of its layer.
fn row_does<P: Application>(
    alloc: Global,
    view: &View<P>,
    seen: &Seen<'_>,
    event: Event,
) -> Result<(Effect<P::Local>, Reply), StepRefusal>
    ensures exact { MatchResult result
        (λ does. row_planned view.now (first_fired seen.now (named_node event) (cases_of event)) ≡ Ok does)
        (λ f. f ≢ StepRefusal.NoMemory
        → row_planned view.now (first_fired seen.now (named_node event) (cases_of event)) ≡ Err f) }
{
    let fired = first_fired(seen, event.named(), event.cases())?;
    Ok(row_effect(alloc, view, fired)?)
}

// The rows that are enabled in what is seen.
fn enabled_in(seen: &Seen<'_>) -> CaseSet
    ensures { result ≡ enabled_in seen.now }
{
    match seen {
        Seen::Tree(view) => tree_enabled(view),
        Seen::Wave(view) => wave_enabled(view),
    }
}

// Whether the node that the event names, if any, is a neighbour, and the guard of a row of the event holds. These rows are
// enabled.
fn fires<P: Application>(view: &View<P>, seen: &Seen<'_>, rows: CaseSet, event: Event) -> bool
    requires layer { IsOfLayer seen.now event }
    requires rows { rows ≡ enabled_in seen.now }
    ensures { result ≡ (sees view.now (named_node event)
        && is_ok (first_fired seen.now (named_node event) (cases_of event))) }
{
    if !some_among(rows, event.cases()) {
        return false;
    }
    if !sees(view, event.named()) {
        return false;
    }
    first_fired(seen, event.named(), event.cases()).is_ok()
}

// How many of the rows of the wave table are the request: one or none.
fn count_requests(rows: CaseSet) -> u32
    ensures { result ≡ (if is_among 1 rows then 1 else 0) }
{
    if rows.has(REQUEST) { 1 } else { 0 }
}

// Whether some of the cases is one of the rows.
fn some_among(rows: CaseSet, cases: &[u8]) -> bool
    ensures { result ≡ some_among rows cases.now }
{
    cases.iter().any(|case| rows.has(*case))
}
