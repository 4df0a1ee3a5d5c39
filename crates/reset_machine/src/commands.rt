// What the five commands of a wave do at their nodes. Each looks at the registers that its rows need, and gathers none.

ghost use Rattle.std.specs.Prelude.{◌≡◌, true, false};
ghost use Rattle.action_tables.specs.Nodes.{regs_of};
ghost use Rattle.wave_layer.specs.WaveTable.{children_done, is_root};
ghost use Rattle.reset_model.specs.declared.event.Event.{Event};
ghost use Rattle.reset_model.specs.declared.event.Event.TheVariants.{Finish, Join, Mend, Open, Relay, Request};
ghost use Rattle.reset_model.specs.declared.plan.Seen.TheVariants.{Wave};
ghost use Rattle.reset_model.specs.LocalSteps.{cases_of, first_fired, fired_wave, is_neighbour};
ghost use Rattle.reset_model.specs.Steps.{event_node, is_of_tree, named_node};
ghost use Rattle.reset_machine.specs.Commands.{IsFired};
ghost use Rattle.reset_machine.specs.Place.{IsNear, rows_fired_at, wave_seen};

use crate::nodes::Nodes;
use crate::place::Place;
use crate::view::father_seen;
use app_interface::Application;
use reset_model::plan::{Fired, Seen, fired_wave, first_fired};
use reset_model::{Event, StepRefusal};
use wave_layer::{WaveMove, WaveRefusal, WaveRegs, WaveView, finish, join, open, relay, request};

/// What a request does: the index of its node and what a row leaves there, or the first refusal.
#[inline(always)]
pub fn request_fired<P: Application>(
    nodes: &Nodes<P>,
    at: u32,
) -> Result<(usize, WaveMove), StepRefusal>
    ensures { IsFired nodes.now (Request at) result }
{
    let Some(place) = Place::of(nodes, at) else {
        return Err(StepRefusal::StrangeNode);
    };
    fired_at(&place, request(place.wave()))
}

/// The same of a relay of what this child asks.
#[inline(always)]
pub fn relay_fired<P: Application>(
    nodes: &Nodes<P>,
    at: u32,
    child: u32,
) -> Result<(usize, WaveMove), StepRefusal>
    ensures { IsFired nodes.now (Relay at child) result }
{
    let Some(place) = Place::of(nodes, at) else {
        return Err(StepRefusal::StrangeNode);
    };
    let Some(index) = place.neighbour(child) else {
        return Err(StepRefusal::StrangeNeighbour);
    };
    fired_at(
        &place,
        relay(place.wave(), asked_child(&place, child, index)),
    )
}

/// The same of an opening.
#[inline(always)]
pub fn open_fired<P: Application>(
    nodes: &Nodes<P>,
    at: u32,
) -> Result<(usize, WaveMove), StepRefusal>
    ensures { IsFired nodes.now (Open at) result }
{
    let Some(place) = Place::of(nodes, at) else {
        return Err(StepRefusal::StrangeNode);
    };
    fired_at(&place, open(place.wave(), is_root(&place), place.modulus()))
}

/// The same of a join.
#[inline(always)]
pub fn join_fired<P: Application>(
    nodes: &Nodes<P>,
    at: u32,
) -> Result<(usize, WaveMove), StepRefusal>
    ensures { IsFired nodes.now (Join at) result }
{
    let Some(place) = Place::of(nodes, at) else {
        return Err(StepRefusal::StrangeNode);
    };
    fired_at(
        &place,
        join(place.wave(), father_seen(&place), place.modulus()),
    )
}

/// The same of a finish.
#[inline(always)]
pub fn finish_fired<P: Application>(
    nodes: &Nodes<P>,
    at: u32,
) -> Result<(usize, WaveMove), StepRefusal>
    ensures { IsFired nodes.now (Finish at) result }
{
    let Some(place) = Place::of(nodes, at) else {
        return Err(StepRefusal::StrangeNode);
    };
    let done = are_children_done(&place);
    fired_at(&place, finish(place.wave(), is_root(&place), done))
}

/// What the rows of a mend do at their node. They look at the father alone.
pub fn mend_fired<P: Application>(place: &Place<'_, P>) -> Result<Fired, StepRefusal>
    ensures { result ≡ rows_fired_at place.now (Mend place.now.id) }
{
    let event = Event::Mend { at: place.id() };
    match WaveView::new(place.wave(), father_seen(place), &[], place.modulus()) {
        Some(view) => first_fired(&Seen::Wave(view), event.named(), event.cases()),
        None => unreachable!(),
    }
}

// What the rows of an event do, that did this at its node.
#[inline(always)]
fn fired_at<P: Application>(
    place: &Place<'_, P>,
    fired: Result<WaveMove, WaveRefusal>,
) -> Result<(usize, WaveMove), StepRefusal>
    ensures { (e : Event) → is_of_tree e ≡ false → event_node e ≡ place.now.id
        → is_neighbour place.now.config.graph place.now.id (named_node e) ≡ true
        → first_fired (Wave (wave_seen place.now)) (named_node e) (cases_of e) ≡ fired_wave fired
        → IsFired place.now.config e result }
{
    place.lemma_is_place();
    match fired_wave(fired) {
        Ok(fired) => Ok((place.index(), fired)),
        Err(refusal) => Err(refusal),
    }
}

// Whether the node is its own father.
#[inline(always)]
fn is_root<P: Application>(place: &Place<'_, P>) -> bool
    ensures { result ≡ is_root (wave_seen place.now).father }
{
    place.tree().father == place.id()
}

// The registers of the neighbour with this identifier and index, where it is a child.
#[inline(always)]
fn asked_child<P: Application>(place: &Place<'_, P>, child: u32, index: usize) -> Option<WaveRegs>
    requires { IsNear place.now child index }
    ensures { result ≡ regs_of child (wave_seen place.now).children }
{
    if place.tree_at(index).father == place.id() {
        Some(place.wave_at(index))
    } else {
        None
    }
}

// Whether all children have the node's session and are not reset.
#[inline(always)]
fn are_children_done<P: Application>(place: &Place<'_, P>) -> bool
    ensures { result ≡ children_done (wave_seen place.now).own.session (wave_seen place.now).children }
{
    let session = place.wave().session;
    for near in place.neighbours() {
        if place.tree_at(*near).father == place.id() && !place.wave_at(*near).is_done(session) {
            return false;
        }
    }
    true
}
