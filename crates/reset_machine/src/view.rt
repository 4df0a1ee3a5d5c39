// What one node sees of the tree and of the wave.

ghost use Rattle.std.specs.Prelude.{◌≡◌, OnOk, map};
ghost use Rattle.reset_model.specs.Configuration.{tree_of};
ghost use Rattle.reset_machine.specs.Place.{near_ids, tree_seen, wave_seen};

use crate::place::Place;
use app_interface::Application;
use std::alloc::AllocError;
use tree_layer::{TreeRegs, TreeView};
use wave_layer::{FatherSeen, WaveRegs};

/// Reads the node's neighbours, and their tree registers, by ascending id, in place of what is in the
/// vector. The room of one node serves the next.
pub fn read_near_trees<P: Application>(
    place: &Place<'_, P>,
    near_trees: &mut Vec<(u32, TreeRegs)>,
) -> Result<(), AllocError>
    ensures { OnOk result (near_trees.new.items ≡ map (λ j. (j, tree_of place.now.config j)) (near_ids place.now)) }
{
    near_trees.clear();
    for near in place.neighbours() {
        near_trees.push((place.id_at(*near), place.tree_at(*near)))?;
    }
    Ok(())
}

/// What the node sees of the tree, from its neighbours' registers.
pub fn tree_view<'a, P: Application>(
    place: &Place<'_, P>,
    near: &'a [(u32, TreeRegs)],
) -> TreeView<'a>
    requires { near.now ≡ map (λ j. (j, tree_of place.now.config j)) (near_ids place.now) }
    ensures { result ≡ tree_seen place.now }
{
    place.lemma_is_place();
    match TreeView::new(place.id(), place.bound(), place.tree(), near) {
        Some(view) => view,
        None => unreachable!(),
    }
}

/// Reads the node's children, and their wave registers, by ascending id, in place of what is in the
/// vector.
pub fn read_children<P: Application>(
    place: &Place<'_, P>,
    children: &mut Vec<(u32, WaveRegs)>,
) -> Result<(), AllocError>
    ensures { OnOk result (children.new.items ≡ (wave_seen place.now).children) }
{
    children.clear();
    for near in place.neighbours() {
        if place.tree_at(*near).father == place.id() {
            children.push((place.id_at(*near), place.wave_at(*near)))?;
        }
    }
    Ok(())
}

/// What the node's father register names.
#[inline(always)]
pub fn father_seen<P: Application>(place: &Place<'_, P>) -> FatherSeen
    ensures { result ≡ (wave_seen place.now).father }
{
    let father = place.tree().father;
    if father == place.id() {
        return FatherSeen::Itself;
    }
    match place.neighbour(father) {
        Some(index) => FatherSeen::Is(place.wave_at(index)),
        None => FatherSeen::Lost,
    }
}
