// What an action of the application does, from what its node reads.

ghost use Rattle.std.specs.Prelude.{◌≡◌, ◌≢◌, ◌==◌, IfOk, MatchResult, filter, is_ok, map, position};
ghost use Rattle.std.specs.Prelude.{Err, Ok, Some};
ghost use Rattle.app_interface.specs.Views.{seen_values};
ghost use Rattle.topology.specs.Graph.{node_bound};
ghost use Rattle.reset_model.specs.Actions.{acted_of, first_apart, reads_near};
ghost use Rattle.reset_model.specs.Configuration.{local_of, wave_of};
ghost use Rattle.reset_machine.specs.Place.{case_outcome_at, near_ids};

use crate::nodes::Nodes;
use crate::place::Place;
use app_interface::{Application, Here, Reads, Seen};
use reset_model::{Arguments, StepRefusal, misfit, on_clock, reads_near};
use std::alloc::{AllocError, Global};

/// The index of the node and the local state that the action leaves it, or the first refusal.
pub fn acted<P: Application>(
    alloc: Global,
    nodes: &Nodes<P>,
    at: u32,
    arguments: Arguments,
) -> Result<(usize, P::Local), StepRefusal>
    ensures place { IfOk result (λ p. position (λ i. i == at) nodes.now.graph.ids ≡ Some p.0) }
    ensures exact { let c = nodes.now in
        let act = acted_of P.app c.graph (node_bound c.graph) (wave_of c) (local_of P.app c)
        at arguments.case arguments.with in
        MatchResult result (λ p. act ≡ Ok p.1) (λ f. f ≢ StepRefusal.NoMemory → act ≡ Err f) }
{
    let Some(place) = Place::of(nodes, at) else {
        return Err(StepRefusal::StrangeNode);
    };
    if let Err(refusal) = place.named(arguments.with) {
        return Err(refusal);
    }
    match case_outcome(alloc, &place, arguments) {
        Ok(local) => Ok((place.index(), local)),
        Err(refusal) => Err(refusal),
    }
}

/// The local state that the action leaves the node, or the first refusal, where the neighbour that is
/// named, if any, is one.
pub fn case_outcome<P: Application>(
    alloc: Global,
    place: &Place<'_, P>,
    arguments: Arguments,
) -> Result<P::Local, StepRefusal>
    ensures exact { MatchResult result
        (λ local. case_outcome_at P.app place.now arguments.case arguments.with ≡ Ok local)
        (λ f. f ≢ StepRefusal.NoMemory → case_outcome_at P.app place.now arguments.case arguments.with ≡ Err f) }
{
    let reads = P::reads(arguments.case);
    if let Some(refusal) = misfit(reads, arguments.with) {
        return Err(refusal);
    }
    if let Some(near) = first_apart(place, reads, arguments.with) {
        return Err(StepRefusal::Disagrees(near));
    }
    let seen = match seen(alloc, place, reads, arguments.with) {
        Ok(seen) => seen,
        Err(AllocError) => return Err(StepRefusal::NoMemory),
    };
    on_clock::<P>(alloc, here(place), arguments, place.local(), &seen)
}

/// Whether the action of the node isn't refused, where the neighbour that is named, if any, is one.
pub fn is_taken<P: Application>(
    alloc: Global,
    place: &Place<'_, P>,
    arguments: Arguments,
) -> Result<bool, AllocError>
    ensures { IfOk result (λ taken. taken ≡ is_ok (case_outcome_at P.app place.now arguments.case arguments.with)) }
{
    let reads = P::reads(arguments.case);
    if misfit(reads, arguments.with).is_some() {
        return Ok(false);
    }
    if first_apart(place, reads, arguments.with).is_some() {
        return Ok(false);
    }
    let seen = seen(alloc, place, reads, arguments.with)?;
    Ok(P::can(
        here(place),
        arguments.case,
        arguments.with,
        place.local(),
        &seen,
    ))
}

// The node, with the bound K.
fn here<P: Application>(place: &Place<'_, P>) -> Here
    ensures id { result.id ≡ place.now.id }
    ensures bound { result.k ≡ node_bound place.now.config.graph }
{
    Here {
        id: place.id(),
        k: place.bound(),
    }
}

// The first neighbour that is read, by ascending id, that is in another session.
fn first_apart<P: Application>(
    place: &Place<'_, P>,
    reads: Option<Reads>,
    with: Option<u32>,
) -> Option<u32>
    ensures { result ≡ first_apart (wave_of place.now.config) place.now.id
        (filter (reads_near reads with) (near_ids place.now)) }
{
    let session = place.wave().session;
    for near in place.neighbours() {
        let id = place.id_at(*near);
        if reads_near(reads, with, id) && place.wave_at(*near).session != session {
            return Some(id);
        }
    }
    None
}

// The neighbours that are read, by ascending id, with their local states.
fn seen<'a, P: Application>(
    alloc: Global,
    place: &Place<'a, P>,
    reads: Option<Reads>,
    with: Option<u32>,
) -> Result<Vec<Seen<'a, P::Local>>, AllocError>
    ensures { IfOk result (λ seen. seen_values seen.items
        ≡ map (λ j. (j, local_of P.app place.now.config j)) (filter (reads_near reads with) (near_ids place.now))) }
{
    let mut seen = Vec::new(alloc);
    for near in place.neighbours() {
        let id = place.id_at(*near);
        if reads_near(reads, with, id) {
            seen.push(Seen {
                id,
                local: place.local_at(*near),
            })?;
        }
    }
    Ok(seen)
}
