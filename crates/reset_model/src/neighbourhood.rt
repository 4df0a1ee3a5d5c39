// What a view says of the neighbours: to the rows of the two tables, and to a case of the application.

ghost use Rattle.std.specs.Prelude.{◌≡◌, ◌==◌, not, IfOk, OnOk, filter, find, map, option_map};
ghost use Rattle.std.specs.List.{list_any};
ghost use Rattle.app_interface.specs.Views.{seen_values};
ghost use Rattle.reset_model.specs.Actions.{reads_near};
ghost use Rattle.reset_model.specs.Planned.{sees};
ghost use Rattle.reset_model.specs.View.{children_of, father_of, near_trees, near_waves, tree_view, wave_view};
ghost use Rattle.reset_model.specs.declared.plan.Seen.TheVariants.{Tree, Wave};

use crate::action::reads_near;
use crate::node_view::{Near, View};
use crate::plan::Seen;
use app_interface::{Application, Reads};
use std::alloc::{AllocError, Global};
use tree_layer::{TreeRegs, TreeView};
use wave_layer::{FatherSeen, WaveRegs, WaveView};

/// Whether the identifier, if there is one, is that of a neighbour.
pub fn sees<P: Application>(view: &View<P>, named: Option<u32>) -> bool
    ensures { result ≡ sees view.now named }
{
    match named {
        None => true,
        Some(id) => has_id(view.neighbours(), id),
    }
}

// Whether a neighbour has this identifier.
fn has_id<P: Application>(near: &[Near<P>], id: u32) -> bool
    ensures { result ≡ list_any (λ n. n.id == id) near.now }
{
    near.iter().any(|other| other.id == id)
}

/// What the node sees of the tree, where these are the tree registers of its neighbours.
pub fn tree_seen<'a, P: Application>(view: &View<P>, trees: &'a [(u32, TreeRegs)]) -> Seen<'a>
    requires { trees.now ≡ near_trees view.now.near }
    ensures { result ≡ Tree (tree_view view.now) }
{
    // The call has that the neighbours ascend.
    let _near = view.neighbours();
    match TreeView::new(view.id(), view.k(), view.tree(), trees) {
        Some(tree) => Seen::Tree(tree),
        None => unreachable!(),
    }
}

/// What the node sees of the wave, where these are the wave registers of its children.
pub fn wave_seen<'a, P: Application>(view: &View<P>, children: &'a [(u32, WaveRegs)]) -> Seen<'a>
    requires { children.now ≡ near_waves (children_of view.now) }
    ensures { result ≡ Wave (wave_view view.now) }
{
    // The call has that the neighbours ascend.
    let _near = view.neighbours();
    match WaveView::new(view.wave(), father(view), children, view.modulus()) {
        Some(wave) => Seen::Wave(wave),
        None => unreachable!(),
    }
}

/// The tree registers of these neighbours.
pub fn near_trees<P: Application>(
    alloc: Global,
    near: &[Near<P>],
) -> Result<Vec<(u32, TreeRegs)>, AllocError>
    ensures { IfOk result (λ trees. trees.items ≡ near_trees near.now) }
{
    let mut trees = Vec::new(alloc);
    read_near_trees(near, &mut trees)?;
    Ok(trees)
}

/// Reads the tree registers of these neighbours in place of what is in the vector. The room of one view serves the next.
pub fn read_near_trees<P: Application>(
    near: &[Near<P>],
    trees: &mut Vec<(u32, TreeRegs)>,
) -> Result<(), AllocError>
    ensures { OnOk result (trees.new.items ≡ near_trees near.now) }
{
    trees.clear();
    trees.reserve(near.len())?;
    for other in near {
        trees.push((other.id, other.tree))?;
    }
    Ok(())
}

/// The wave registers of those neighbours that are children of the node with this identifier.
pub fn child_waves<P: Application>(
    alloc: Global,
    near: &[Near<P>],
    id: u32,
) -> Result<Vec<(u32, WaveRegs)>, AllocError>
    ensures { IfOk result (λ children. children.items ≡ near_waves (filter (λ n. n.tree.father == id) near.now)) }
{
    let mut children = Vec::new(alloc);
    read_child_waves(near, id, &mut children)?;
    Ok(children)
}

/// Reads the wave registers of those neighbours that are children of the node with this identifier, in place of what is
/// in the vector.
pub fn read_child_waves<P: Application>(
    near: &[Near<P>],
    id: u32,
    children: &mut Vec<(u32, WaveRegs)>,
) -> Result<(), AllocError>
    ensures { OnOk result (children.new.items ≡ near_waves (filter (λ n. n.tree.father == id) near.now)) }
{
    children.clear();
    for other in near {
        if other.tree.father == id {
            children.push((other.id, other.wave))?;
        }
    }
    Ok(())
}

// What the father register names.
fn father<P: Application>(view: &View<P>) -> FatherSeen
    ensures { result ≡ father_of view.now }
{
    let named = view.tree().father;
    if named == view.id() {
        return FatherSeen::Itself;
    }
    match neighbour(view.neighbours(), named) {
        Some(father) => FatherSeen::Is(father.wave),
        None => FatherSeen::Lost,
    }
}

// The neighbour with this identifier.
fn neighbour<P: Application>(near: &[Near<P>], id: u32) -> Option<&Near<P>>
    ensures { option_map (λ found. found.now) result ≡ find (λ n. n.id == id) near.now }
{
    for other in near {
        if other.id == id {
            return Some(other);
        }
    }
    None
}

/// Of the neighbours that a case reads, the first one that is in another session than this.
pub fn first_apart<P: Application>(
    near: &[Near<P>],
    session: u32,
    reads: Option<Reads>,
    with: Option<u32>,
) -> Option<u32>
    ensures { result
        ≡ option_map (λ n. n.id)
        (find (λ n. not (n.wave.session == session)) (filter (λ n. reads_near reads with n.id) near.now)) }
{
    for other in near {
        if reads_near(reads, with, other.id) && other.wave.session != session {
            return Some(other.id);
        }
    }
    None
}

/// The neighbours that a case reads, with their local states.
pub fn read_states<'a, P: Application>(
    alloc: Global,
    near: &'a [Near<P>],
    reads: Option<Reads>,
    with: Option<u32>,
) -> Result<Vec<app_interface::Seen<'a, P::Local>>, AllocError>
    ensures { IfOk result
        (λ seen. seen_values seen.items
        ≡ map (λ n. (n.id, n.local)) (filter (λ n. reads_near reads with n.id) near.now)) }
{
    let mut seen = Vec::new(alloc);
    for other in near {
        if reads_near(reads, with, other.id) {
            seen.push(app_interface::Seen {
                id: other.id,
                local: &other.local,
            })?;
        }
    }
    Ok(seen)
}
