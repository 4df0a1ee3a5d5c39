// What an event does at the node of a view, by the view alone.

ghost use Rattle.std.specs.Prelude.{◌≡◌, ◌≢◌, if◌then◌else◌, true, false, IfOk, MatchResult, Ok, Err, Some, None};
ghost use Rattle.reset_model.specs.Planned.{case_taken, planned, row_fired, row_planned};
ghost use Rattle.reset_model.specs.Steps.{is_of_tree};

use crate::action::{Arguments, misfit, on_clock};
use crate::event::Event;
use crate::neighbourhood::{
    child_waves, first_apart, near_trees, read_states, sees, tree_seen, wave_seen,
};
use crate::node_view::View;
use crate::plan::{Effect, Fired, first_fired};
use crate::step::{Reply, StepRefusal, reply_to};
use app_interface::{Application, Here};
use std::alloc::{AllocError, Global};

/// What the event does at the view's node, with its reply, or the first refusal.
pub fn decided<P: Application>(
    alloc: Global,
    view: &View<P>,
    event: Event,
) -> Result<(Effect<P::Local>, Reply), StepRefusal>
    ensures exact { MatchResult result (λ does. planned P.app view.now event ≡ Ok does)
        (λ f. f ≢ StepRefusal.NoMemory → planned P.app view.now event ≡ Err f) }
{
    if view.id() != event.node() {
        return Err(StepRefusal::StrangeNode);
    }
    if !sees(view, event.named()) {
        return Err(StepRefusal::StrangeNeighbour);
    }
    match event {
        Event::Act { case, with, .. } => {
            let local = case_taken(alloc, view, Arguments { case, with })?;
            Ok((Effect::Local(local), Reply::Applied))
        }
        _ => row_planned(alloc, view, event),
    }
}

// What a row of one of the two tables does, with its reply.
fn row_planned<P: Application>(
    alloc: Global,
    view: &View<P>,
    event: Event,
) -> Result<(Effect<P::Local>, Reply), StepRefusal>
    ensures exact { MatchResult result (λ does. row_planned view.now (row_fired view.now event) ≡ Ok does)
        (λ f. f ≢ StepRefusal.NoMemory → row_planned view.now (row_fired view.now event) ≡ Err f) }
{
    let fired = row_fired(alloc, view, event)?;
    Ok(row_effect(alloc, view, fired)?)
}

/// What a row does that left this, with its reply.
pub fn row_effect<P: Application>(
    alloc: Global,
    view: &View<P>,
    fired: Fired,
) -> Result<(Effect<P::Local>, Reply), AllocError>
    ensures { IfOk result (λ does. row_planned view.now (Ok fired) ≡ Ok does) }
{
    match fired {
        Fired::Tree(regs) => Ok((Effect::Tree(regs), Reply::Applied)),
        Fired::Wave(fired) => {
            let start = restarted(alloc, view, fired.restarts)?;
            Ok((Effect::Wave(fired.regs, start), reply_to(fired)))
        }
    }
}

// The start state, where the node restarts.
fn restarted<P: Application>(
    alloc: Global,
    view: &View<P>,
    restarts: bool,
) -> Result<Option<P::Local>, AllocError>
    ensures { IfOk result (λ local. local ≡ (if restarts then Some view.now.start else None)) }
{
    if restarts {
        Ok(Some(P::copy(alloc, view.start())?))
    } else {
        Ok(None)
    }
}

// What the first of the event's rows whose guard holds leaves.
fn row_fired<P: Application>(
    alloc: Global,
    view: &View<P>,
    event: Event,
) -> Result<Fired, StepRefusal>
    ensures exact { MatchResult result (λ does. row_fired view.now event ≡ Ok does)
        (λ f. f ≢ StepRefusal.NoMemory → row_fired view.now event ≡ Err f) }
{
    match event {
        Event::Claim { .. } | Event::Follow { .. } | Event::Adopt { .. } => {
            tree_row(alloc, view, event)
        }
        _ => wave_row(alloc, view, event),
    }
}

// What the rows of an event of the tree do.
fn tree_row<P: Application>(
    alloc: Global,
    view: &View<P>,
    event: Event,
) -> Result<Fired, StepRefusal>
    requires { is_of_tree event ≡ true }
    ensures exact { MatchResult result (λ does. row_fired view.now event ≡ Ok does)
        (λ f. f ≢ StepRefusal.NoMemory → row_fired view.now event ≡ Err f) }
{
    let trees = near_trees(alloc, view.neighbours())?;
    first_fired(&tree_seen(view, &trees), event.named(), event.cases())
}

// What the rows of an event of the wave do.
fn wave_row<P: Application>(
    alloc: Global,
    view: &View<P>,
    event: Event,
) -> Result<Fired, StepRefusal>
    requires { is_of_tree event ≡ false }
    ensures exact { MatchResult result (λ does. row_fired view.now event ≡ Ok does)
        (λ f. f ≢ StepRefusal.NoMemory → row_fired view.now event ≡ Err f) }
{
    let children = child_waves(alloc, view.neighbours(), view.id())?;
    first_fired(&wave_seen(view, &children), event.named(), event.cases())
}

/// The local state that a case of the application leaves, or the first refusal. The neighbour that is named, if any, is one.
pub fn case_taken<P: Application>(
    alloc: Global,
    view: &View<P>,
    arguments: Arguments,
) -> Result<P::Local, StepRefusal>
    ensures exact { MatchResult result (λ local. case_taken P.app view.now arguments.case arguments.with ≡ Ok local)
        (λ f. f ≢ StepRefusal.NoMemory → case_taken P.app view.now arguments.case arguments.with ≡ Err f) }
{
    let reads = P::reads(arguments.case);
    if let Some(refusal) = misfit(reads, arguments.with) {
        return Err(refusal);
    }
    let near = view.neighbours();
    if let Some(id) = first_apart(near, view.wave().session, reads, arguments.with) {
        return Err(StepRefusal::Disagrees(id));
    }
    let seen = read_states(alloc, near, reads, arguments.with)?;
    let here = Here {
        id: view.id(),
        k: view.k(),
    };
    on_clock::<P>(alloc, here, arguments, view.local(), &seen)
}
