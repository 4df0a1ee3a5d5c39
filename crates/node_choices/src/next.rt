// The plan of what a node does by itself.

ghost use Rattle.std.specs.Prelude.{◌≡◌, IfOk, MatchOption, MatchResult, None, Ok, Some};
ghost use Rattle.node_choices.specs.Choice.{next_of};
ghost use Rattle.reset_model.specs.Planned.{planned};

use crate::choice::next_in;
use crate::sight::Sight;
use app_interface::Application;
use reset_machine::{Event, Plan, Reply, View};
use reset_model::neighbourhood::{read_child_waves, read_near_trees};
use reset_model::plan::Effect;
use std::alloc::{AllocError, Global};
use tree_layer::TreeRegs;
use wave_layer::WaveRegs;

/// Room for what the events of a node are tried on: the tree registers of its neighbours, and the wave registers of its
/// children. The room of one view serves the next.
#[derive(Drop)]
pub struct Room {
    trees: Vec<(u32, TreeRegs)>,
    children: Vec<(u32, WaveRegs)>,
}

impl Room {
    /// Room that takes no memory yet.
    pub fn new(alloc: Global) -> Room {
        Room {
            trees: Vec::new(alloc),
            children: Vec::new(alloc),
        }
    }
}

/// The plan of the first event that the view allows, which is that of [`next_event`](crate::next_event); or the view,
/// where it allows none. It takes no lock.
pub fn next_plan<P: Application>(
    alloc: Global,
    view: View<P>,
    room: &mut Room,
) -> Result<Result<Plan<P>, View<P>>, AllocError>
    ensures { IfOk result (λ found. MatchResult found
        (λ plan. (plan.view ≡ view) × (next_of P.app view ≡ Some plan.event))
        (λ back. (back ≡ view) × (next_of P.app view ≡ None))) }
{
    match next_does(alloc, &view, room)? {
        None => Ok(Err(view)),
        Some((event, effect, reply)) => Ok(Ok(Plan::new(view, event, effect, reply))),
    }
}

// The first event that the view allows, with what it does and what it replies.
fn next_does<P: Application>(
    alloc: Global,
    view: &View<P>,
    room: &mut Room,
) -> Result<Option<(Event, Effect<P::Local>, Reply)>, AllocError>
    ensures { IfOk result (λ found. MatchOption found
        (next_of P.app view.now ≡ None)
        (λ does. (next_of P.app view.now ≡ Some does.0) × (planned P.app view.now does.0 ≡ Ok (does.1, does.2)))) }
{
    let Room { trees, children } = room;
    read_near_trees(view.neighbours(), trees)?;
    read_child_waves(view.neighbours(), view.id(), children)?;
    let sight = Sight::new(view, trees, children);
    let Some(event) = next_in(alloc, &sight)? else {
        return Ok(None);
    };
    match sight.does(alloc, event) {
        Ok((effect, reply)) => Ok(Some((event, effect, reply))),
        // The view allows the event: so it is refused only where an allocation fails.
        Err(_) => Err(AllocError),
    }
}
