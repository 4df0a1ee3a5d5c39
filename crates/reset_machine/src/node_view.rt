// How what a node sees is read of a configuration, and compared with it.

ghost use Rattle.std.specs.Prelude.{◌≡◌, ◌<◌, ◌↔◌, IfOk, IsTrue, length, map, slice_index};
ghost use Rattle.reset_machine.specs.Place.{near_ids};
ghost use Rattle.reset_model.specs.View.{near_of, view_of};

use crate::place::Place;
use app_interface::Application;
use reset_model::{Near, View};
use std::alloc::{AllocError, Global};

/// What the node sees, in this room for its neighbours: what is in it is dropped.
pub(crate) fn read_view<P: Application>(
    alloc: Global,
    place: &Place<'_, P>,
    room: Vec<Near<P>>,
) -> Result<View<P>, AllocError>
    ensures { IfOk result (λ view. view ≡ view_of P.app place.now.config place.now.id) }
{
    place.lemma_is_place();
    let local = P::copy(alloc, place.local())?;
    let start = P::on_start(alloc, place.topology(), place.index())?;
    let near = read_near::<P>(alloc, place, room)?;
    let own = Near {
        id: place.id(),
        tree: place.tree(),
        wave: place.wave(),
        local,
    };
    Ok(View::new(own, place.bound(), place.modulus(), start, near))
}

// The neighbours of the node, as it sees them, in place of what is in the vector.
fn read_near<P: Application>(
    alloc: Global,
    place: &Place<'_, P>,
    mut near: Vec<Near<P>>,
) -> Result<Vec<Near<P>>, AllocError>
    ensures { IfOk result (λ near. near.items ≡ map (near_of P.app place.now.config) (near_ids place.now)) }
{
    near.clear();
    near.reserve(place.neighbours().len())?;
    for index in place.neighbours() {
        let local = P::copy(alloc, place.local_at(*index))?;
        near.push(Near {
            id: place.id_at(*index),
            tree: place.tree_at(*index),
            wave: place.wave_at(*index),
            local,
        })?;
    }
    Ok(near)
}

/// Whether the node, which has the view's identifier, sees this.
pub(crate) fn is_of<P: Application>(view: &View<P>, place: &Place<'_, P>) -> bool
    requires { place.now.id ≡ view.now.id }
    ensures { IsTrue result ↔ view.now ≡ view_of P.app place.now.config view.now.id }
{
    view.has_limits(place.bound(), place.modulus())
        && view.has_regs(place.tree(), place.wave())
        && view.has_states(place.local(), place.start())
        && are_near::<P>(view.neighbours(), place)
}

// Whether the node has these neighbours.
fn are_near<P: Application>(near: &[Near<P>], place: &Place<'_, P>) -> bool
    ensures { IsTrue result ↔ near.now ≡ map (near_of P.app place.now.config) (near_ids place.now) }
{
    let indexes = place.neighbours();
    if near.len() != indexes.len() {
        return false;
    }
    for number in 0..near.len() {
        if !is_at(&near[number], place, indexes[number]) {
            return false;
        }
    }
    true
}

// Whether the node at this index is this neighbour.
fn is_at<P: Application>(near: &Near<P>, place: &Place<'_, P>, index: usize) -> bool
    requires { index < length place.now.config.graph.ids }
    ensures { IsTrue result ↔ near.now
        ≡ near_of P.app place.now.config (slice_index place.now.config.graph.ids index) }
{
    near.is(
        place.id_at(index),
        place.tree_at(index),
        place.wave_at(index),
        place.local_at(index),
    )
}
