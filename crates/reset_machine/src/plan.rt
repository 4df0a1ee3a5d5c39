// What an event's node does, from what it sees.

ghost use Rattle.std.specs.Prelude.{◌≡◌, ◌≢◌, true, false, ◌==◌, position, Err, Ok, Some, MatchResult, IfOk};
ghost use Rattle.topology.specs.Graph.{node_bound};
ghost use Rattle.reset_model.specs.Configuration.{tree_of, wave_of};
ghost use Rattle.reset_model.specs.LocalSteps.{event_fired};
ghost use Rattle.reset_machine.specs.Place.{rows_fired_at};
ghost use Rattle.reset_model.specs.Steps.{event_node, is_of_a_wave, is_of_tree};

use crate::commands::mend_fired;
use crate::nodes::Nodes;
use crate::place::Place;
use crate::view::{read_near_trees, tree_view};
use app_interface::Application;
use reset_model::plan::{Fired, Seen, first_fired};
use reset_model::{Event, StepRefusal};
use std::alloc::Global;

/// The index of the event's node and what it does, or the first refusal, of all events but the five commands of a
/// wave.
pub fn event_fired<P: Application>(
    alloc: Global,
    nodes: &Nodes<P>,
    event: Event,
) -> Result<(usize, Fired), StepRefusal>
    requires { is_of_a_wave event ≡ false }
    ensures place { IfOk result (λ p. position (λ i. i == event_node event) nodes.now.graph.ids ≡ Some p.0) }
    ensures exact { let c = nodes.now in
        let plan = event_fired c.graph (node_bound c.graph) c.modulus (tree_of c) (wave_of c) event in
        MatchResult result (λ p. plan ≡ Ok p.1) (λ f. f ≢ StepRefusal.NoMemory → plan ≡ Err f) }
{
    let Some(place) = Place::of(nodes, event.node()) else {
        return Err(StepRefusal::StrangeNode);
    };
    place.named(event.named())?;
    match rows_fired(alloc, &place, event) {
        Ok(fired) => Ok((place.index(), fired)),
        Err(refusal) => Err(refusal),
    }
}

// What the rows of the event do at its node.
fn rows_fired<P: Application>(
    alloc: Global,
    place: &Place<'_, P>,
    event: Event,
) -> Result<Fired, StepRefusal>
    requires apart { is_of_a_wave event ≡ false }
    requires node { place.now.id ≡ event_node event }
    ensures exact { MatchResult result (λ does. rows_fired_at place.now event ≡ Ok does)
        (λ f. f ≢ StepRefusal.NoMemory → rows_fired_at place.now event ≡ Err f) }
{
    match event {
        Event::Claim { .. } | Event::Follow { .. } | Event::Adopt { .. } => {
            tree_rows_fired(alloc, place, event)
        }
        Event::Mend { .. } => mend_fired(place),
        Event::Act { .. } => Err(StepRefusal::NotEnabled),
        Event::Request { .. }
        | Event::Relay { .. }
        | Event::Open { .. }
        | Event::Join { .. }
        | Event::Finish { .. } => unreachable!(),
    }
}

// What the rows of an event of the tree do.
fn tree_rows_fired<P: Application>(
    alloc: Global,
    place: &Place<'_, P>,
    event: Event,
) -> Result<Fired, StepRefusal>
    requires tree { is_of_tree event ≡ true }
    requires node { place.now.id ≡ event_node event }
    ensures exact { MatchResult result (λ does. rows_fired_at place.now event ≡ Ok does)
        (λ f. f ≢ StepRefusal.NoMemory → rows_fired_at place.now event ≡ Err f) }
{
    let mut near = Vec::new(alloc);
    read_near_trees(place, &mut near)?;
    let view = tree_view(place, &near);
    first_fired(&Seen::Tree(view), event.named(), event.cases())
}
