// What a node does by itself, and all that may happen at it.

ghost use Rattle.std.specs.Prelude.{◌≡◌, ◌==◌, ◌++◌, ◌∷◌, [], IfOk, OnOk, None, Some, filter, find, map};
ghost use Rattle.std.specs.List.{flat_map};
ghost use Rattle.action_tables.specs.Numbers.{all_cases};
ghost use Rattle.node_choices.specs.Choice.{allowed_events, case_events, is_allowed, next_of};
ghost use Rattle.reset_model.specs.View.{children_of};
ghost use Rattle.reset_model.specs.declared.event.Event.TheVariants.{Act, Adopt, Claim, Finish, Follow, Join, Mend, Open, Relay};

use crate::sight::Sight;
use action_tables::MOST_CASES;
use app_interface::{Application, Reads};
use reset_machine::{Event, View};
use reset_model::neighbourhood::{child_waves, near_trees};
use std::alloc::{AllocError, Global};

/// The first event that the view allows, of `Claim`, `Follow`, `Adopt` (neighbours ascending), `Mend`, `Join`,
/// `Finish`, `Open`, `Relay` (children ascending) and `Act` (cases ascending, each by itself and then toward the
/// neighbours ascending). None where it allows none of them. It takes no lock.
pub fn next_event<P: Application>(
    alloc: Global,
    view: &View<P>,
) -> Result<Option<Event>, AllocError>
    ensures { IfOk result (λ event. event ≡ next_of P.app view.now) }
{
    let trees = near_trees(alloc, view.neighbours())?;
    let children = child_waves(alloc, view.neighbours(), view.id())?;
    next_in(alloc, &Sight::new(view, &trees, &children))
}

/// All events that the view allows, in the order of [`next_event`], with the request after `Open`. It takes no lock.
pub fn allowed_events<P: Application>(
    alloc: Global,
    view: &View<P>,
) -> Result<Vec<Event>, AllocError>
    ensures { IfOk result (λ events. events.items ≡ allowed_events P.app view.now) }
{
    let trees = near_trees(alloc, view.neighbours())?;
    let children = child_waves(alloc, view.neighbours(), view.id())?;
    allowed_in(alloc, &Sight::new(view, &trees, &children))
}

/// The first event that is allowed.
pub fn next_in<P: Application>(
    alloc: Global,
    sight: &Sight<'_, P>,
) -> Result<Option<Event>, AllocError>
    ensures { IfOk result (λ event. event ≡ next_of P.app sight.now) }
{
    if let Some(event) = first_of_tree(alloc, sight)? {
        return Ok(Some(event));
    }
    if let Some(event) = first_of_wave(alloc, sight)? {
        return Ok(Some(event));
    }
    action(alloc, sight)
}

// The first event of the tree that is allowed.
fn first_of_tree<P: Application>(
    alloc: Global,
    sight: &Sight<'_, P>,
) -> Result<Option<Event>, AllocError>
    ensures { IfOk result (λ event. event ≡ find (is_allowed P.app sight.now)
        (Claim sight.now.id ∷ Follow sight.now.id ∷ map (λ n. Adopt sight.now.id n.id) sight.now.near)) }
{
    if sight.tree_rests() {
        return Ok(None);
    }
    let at = sight.id();
    let own = [Event::Claim { at }, Event::Follow { at }];
    if let Some(event) = first_allowed(alloc, sight, &own)? {
        return Ok(Some(event));
    }
    first_adoption(alloc, sight)
}

// The first event of the wave that is allowed, but the request.
fn first_of_wave<P: Application>(
    alloc: Global,
    sight: &Sight<'_, P>,
) -> Result<Option<Event>, AllocError>
    ensures { IfOk result (λ event. event ≡ find (is_allowed P.app sight.now)
        (Mend sight.now.id ∷ Join sight.now.id ∷ Finish sight.now.id ∷ Open sight.now.id
        ∷ map (λ n. Relay sight.now.id n.id) (children_of sight.now))) }
{
    if sight.wave_rests() {
        return Ok(None);
    }
    let at = sight.id();
    let own = [
        Event::Mend { at },
        Event::Join { at },
        Event::Finish { at },
        Event::Open { at },
    ];
    if let Some(event) = first_allowed(alloc, sight, &own)? {
        return Ok(Some(event));
    }
    first_relay(alloc, sight)
}

// All events that are allowed.
fn allowed_in<P: Application>(alloc: Global, sight: &Sight<'_, P>) -> Result<Vec<Event>, AllocError>
    ensures { IfOk result (λ events. events.items ≡ allowed_events P.app sight.now) }
{
    let at = sight.id();
    let mut allowed = Vec::new(alloc);
    let own_first = [Event::Claim { at }, Event::Follow { at }];
    add_allowed(alloc, sight, &own_first, &mut allowed)?;
    add_adoptions(alloc, sight, &mut allowed)?;
    let own_next = [
        Event::Mend { at },
        Event::Join { at },
        Event::Finish { at },
        Event::Open { at },
        Event::Request { at },
    ];
    add_allowed(alloc, sight, &own_next, &mut allowed)?;
    add_relays(alloc, sight, &mut allowed)?;
    add_actions(alloc, sight, &mut allowed)?;
    Ok(allowed)
}

// The first of the events that is allowed.
fn first_allowed<P: Application>(
    alloc: Global,
    sight: &Sight<'_, P>,
    events: &[Event],
) -> Result<Option<Event>, AllocError>
    ensures { IfOk result (λ event. event ≡ find (is_allowed P.app sight.now) events.now) }
{
    for event in events {
        if sight.allows(alloc, *event)? {
            return Ok(Some(*event));
        }
    }
    Ok(None)
}

// The first adoption of a neighbour that is allowed.
fn first_adoption<P: Application>(
    alloc: Global,
    sight: &Sight<'_, P>,
) -> Result<Option<Event>, AllocError>
    ensures { IfOk result (λ event. event
        ≡ find (is_allowed P.app sight.now) (map (λ n. Adopt sight.now.id n.id) sight.now.near)) }
{
    let at = sight.id();
    for other in sight.neighbours() {
        let event = Event::Adopt { at, from: other.id };
        if sight.allows(alloc, event)? {
            return Ok(Some(event));
        }
    }
    Ok(None)
}

// The first relay of a child's request that is allowed.
fn first_relay<P: Application>(
    alloc: Global,
    sight: &Sight<'_, P>,
) -> Result<Option<Event>, AllocError>
    ensures { IfOk result (λ event. event
        ≡ find (is_allowed P.app sight.now) (map (λ n. Relay sight.now.id n.id) (children_of sight.now))) }
{
    let at = sight.id();
    for other in sight.neighbours() {
        if other.tree.father == at {
            let event = Event::Relay {
                at,
                child: other.id,
            };
            if sight.allows(alloc, event)? {
                return Ok(Some(event));
            }
        }
    }
    Ok(None)
}

// Adds those of the events that are allowed.
fn add_allowed<P: Application>(
    alloc: Global,
    sight: &Sight<'_, P>,
    events: &[Event],
    allowed: &mut Vec<Event>,
) -> Result<(), AllocError>
    ensures { OnOk result
        (allowed.new.items ≡ allowed.old.items ++ filter (is_allowed P.app sight.now) events.now) }
{
    for event in events {
        add_if_allowed(alloc, sight, *event, allowed)?;
    }
    Ok(())
}

// Adds the event, if it is allowed.
fn add_if_allowed<P: Application>(
    alloc: Global,
    sight: &Sight<'_, P>,
    event: Event,
    allowed: &mut Vec<Event>,
) -> Result<(), AllocError>
    ensures { OnOk result
        (allowed.new.items ≡ allowed.old.items ++ filter (is_allowed P.app sight.now) (event ∷ [])) }
{
    if sight.allows(alloc, event)? {
        allowed.push(event)?;
    }
    Ok(())
}

// Adds the adoptions of neighbours that are allowed.
fn add_adoptions<P: Application>(
    alloc: Global,
    sight: &Sight<'_, P>,
    allowed: &mut Vec<Event>,
) -> Result<(), AllocError>
    ensures { OnOk result (allowed.new.items ≡ allowed.old.items
        ++ filter (is_allowed P.app sight.now) (map (λ n. Adopt sight.now.id n.id) sight.now.near)) }
{
    let at = sight.id();
    for other in sight.neighbours() {
        let event = Event::Adopt { at, from: other.id };
        add_if_allowed(alloc, sight, event, allowed)?;
    }
    Ok(())
}

// Adds the relays of the children's requests that are allowed.
fn add_relays<P: Application>(
    alloc: Global,
    sight: &Sight<'_, P>,
    allowed: &mut Vec<Event>,
) -> Result<(), AllocError>
    ensures { OnOk result (allowed.new.items ≡ allowed.old.items
        ++ filter (is_allowed P.app sight.now) (map (λ n. Relay sight.now.id n.id) (children_of sight.now))) }
{
    let at = sight.id();
    for other in sight.neighbours() {
        if other.tree.father == at {
            let event = Event::Relay {
                at,
                child: other.id,
            };
            add_if_allowed(alloc, sight, event, allowed)?;
        }
    }
    Ok(())
}

// The first way in which the node may take a case of the application.
fn action<P: Application>(alloc: Global, sight: &Sight<'_, P>) -> Result<Option<Event>, AllocError>
    ensures { IfOk result (λ event. event
        ≡ find (is_allowed P.app sight.now) (flat_map (case_events sight.now) all_cases)) }
{
    for case in 1..=MOST_CASES {
        if let Some(event) = first_of_case(alloc, sight, case)? {
            return Ok(Some(event));
        }
    }
    Ok(None)
}

// The first way in which the node may take this case. Only the choices of a neighbour that fit what the case reads are
// tried.
fn first_of_case<P: Application>(
    alloc: Global,
    sight: &Sight<'_, P>,
    case: u8,
) -> Result<Option<Event>, AllocError>
    ensures { IfOk result (λ event. event ≡ find (is_allowed P.app sight.now) (case_events sight.now case)) }
{
    match P::reads(case) {
        None => Ok(None),
        Some(Reads::Alone) => first_alone(alloc, sight, case),
        Some(Reads::All) => first_alone(alloc, sight, case),
        Some(Reads::Toward) => first_toward(alloc, sight, case),
        Some(Reads::One) => first_toward(alloc, sight, case),
    }
}

// The case by itself, where the node may take it so.
fn first_alone<P: Application>(
    alloc: Global,
    sight: &Sight<'_, P>,
    case: u8,
) -> Result<Option<Event>, AllocError>
    ensures { IfOk result (λ event. event ≡ find (is_allowed P.app sight.now) (Act sight.now.id case None ∷ [])) }
{
    let event = Event::Act {
        at: sight.id(),
        case,
        with: None,
    };
    if sight.allows(alloc, event)? {
        Ok(Some(event))
    } else {
        Ok(None)
    }
}

// The first neighbour toward which the node may take this case.
fn first_toward<P: Application>(
    alloc: Global,
    sight: &Sight<'_, P>,
    case: u8,
) -> Result<Option<Event>, AllocError>
    ensures { IfOk result (λ event. event
        ≡ find (is_allowed P.app sight.now) (map (λ n. Act sight.now.id case (Some n.id)) sight.now.near)) }
{
    let at = sight.id();
    for other in sight.neighbours() {
        let with = Some(other.id);
        let event = Event::Act { at, case, with };
        if sight.allows(alloc, event)? {
            return Ok(Some(event));
        }
    }
    Ok(None)
}

// Adds the ways in which the node may take a case of the application.
fn add_actions<P: Application>(
    alloc: Global,
    sight: &Sight<'_, P>,
    allowed: &mut Vec<Event>,
) -> Result<(), AllocError>
    ensures { OnOk result (allowed.new.items
        ≡ allowed.old.items ++ filter (is_allowed P.app sight.now) (flat_map (case_events sight.now) all_cases)) }
{
    for case in 1..=MOST_CASES {
        add_case(alloc, sight, case, allowed)?;
    }
    Ok(())
}

// Adds the ways in which the node may take this case, of those whose choice of a neighbour fits what the case reads.
fn add_case<P: Application>(
    alloc: Global,
    sight: &Sight<'_, P>,
    case: u8,
    allowed: &mut Vec<Event>,
) -> Result<(), AllocError>
    ensures { OnOk result (allowed.new.items
        ≡ allowed.old.items ++ filter (is_allowed P.app sight.now) (case_events sight.now case)) }
{
    match P::reads(case) {
        None => Ok(()),
        Some(Reads::Alone) => add_alone(alloc, sight, case, allowed),
        Some(Reads::All) => add_alone(alloc, sight, case, allowed),
        Some(Reads::Toward) => add_toward(alloc, sight, case, allowed),
        Some(Reads::One) => add_toward(alloc, sight, case, allowed),
    }
}

// Adds the case by itself, where the node may take it so.
fn add_alone<P: Application>(
    alloc: Global,
    sight: &Sight<'_, P>,
    case: u8,
    allowed: &mut Vec<Event>,
) -> Result<(), AllocError>
    ensures { OnOk result (allowed.new.items
        ≡ allowed.old.items ++ filter (is_allowed P.app sight.now) (Act sight.now.id case None ∷ [])) }
{
    let event = Event::Act {
        at: sight.id(),
        case,
        with: None,
    };
    add_if_allowed(alloc, sight, event, allowed)
}

// Adds the ways in which the node may take this case toward a neighbour.
fn add_toward<P: Application>(
    alloc: Global,
    sight: &Sight<'_, P>,
    case: u8,
    allowed: &mut Vec<Event>,
) -> Result<(), AllocError>
    ensures { OnOk result (allowed.new.items ≡ allowed.old.items
        ++ filter (is_allowed P.app sight.now) (map (λ n. Act sight.now.id case (Some n.id)) sight.now.near)) }
{
    let at = sight.id();
    for other in sight.neighbours() {
        let with = Some(other.id);
        add_if_allowed(alloc, sight, Event::Act { at, case, with }, allowed)?;
    }
    Ok(())
}
