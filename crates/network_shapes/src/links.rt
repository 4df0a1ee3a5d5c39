// The links of the standard shapes.

ghost use Rattle.std.specs.Prelude.{◌≡◌, ◌<◌, ◌≤◌, ◌∷◌, ◌++◌, IfOk, OnOk};
ghost use Rattle.std.specs.Option.{option_to_list};
ghost use Rattle.network_shapes.specs.Shapes.{both, drawn_nodes, grid_neighbours, grid_width, lesser_nodes};
ghost use Rattle.network_shapes.specs.Shapes.{links_to, node_numbers, shape_links, word_at};

use crate::shape::Shape;
use rand_core::SeedableRng;
use rand_core::utils::NextWord;
use rand_pcg::Lcg64Xsh32;
use std::alloc::{AllocError, Global};

/// The nodes 1, 2, .. count.
pub(crate) fn node_numbers(alloc: Global, count: u32) -> Result<Vec<u32>, AllocError>
    requires { count ≤ 1024 }
    ensures { IfOk result (λ nodes. nodes.items ≡ node_numbers count) }
{
    let mut nodes = Vec::new(alloc);
    for node in 1..count + 1 {
        nodes.push(node)?;
    }
    Ok(nodes)
}

/// The links of a shape, each with its lesser end first.
pub(crate) fn shape_links(
    alloc: Global,
    shape: Shape,
    count: u32,
    seed: u32,
) -> Result<Vec<(u32, u32)>, AllocError>
    requires some { 0 < count }
    requires few { count ≤ 1024 }
    ensures { IfOk result (λ links. links.items ≡ shape_links shape count seed) }
{
    let mut links = Vec::new(alloc);
    for node in 2..count + 1 {
        let lesser = lesser_nodes(shape, count, seed, node);
        push_links(&mut links, node, lesser)?;
    }
    Ok(links)
}

// Puts the links of a node with its lesser nodes at the end.
fn push_links(
    links: &mut Vec<(u32, u32)>,
    node: u32,
    lesser: (u32, Option<u32>),
) -> Result<(), AllocError>
    ensures { OnOk result
        (links.new.items ≡ links.old.items ++ links_to node (lesser.0 ∷ option_to_list lesser.1)) }
{
    let (first, second) = lesser;
    links.push((first, node))?;
    match second {
        Some(second) => Ok(links.push((second, node))?),
        None => Ok(()),
    }
}

// The one or two lesser nodes that a node is linked with, ascending.
fn lesser_nodes(shape: Shape, count: u32, seed: u32, node: u32) -> (u32, Option<u32>)
    requires from_two { 2 ≤ node }
    requires to_count { node ≤ count }
    requires few { count ≤ 1024 }
    ensures { result.0 ∷ option_to_list result.1 ≡ lesser_nodes shape count seed node }
{
    match shape {
        Shape::Ring if node == count => both(1, node - 1),
        Shape::Ring | Shape::Path => (node - 1, None),
        Shape::Star => (1, None),
        Shape::Grid => grid_neighbours(grid_width(count), node),
        Shape::Tree => (node / 2, None),
        Shape::Random => drawn_nodes(seed, node),
    }
}

// The nodes above a node and before it, in a grid with rows of this width.
fn grid_neighbours(width: u32, node: u32) -> (u32, Option<u32>)
    requires wide { 0 < width }
    requires from_two { 2 ≤ node }
    ensures { result.0 ∷ option_to_list result.1 ≡ grid_neighbours width node }
{
    if node <= width {
        (node - 1, None)
    } else if (node - 1) % width == 0 {
        (node - width, None)
    } else {
        (node - width, Some(node - 1))
    }
}

// The least number whose square is at least count.
fn grid_width(count: u32) -> u32
    requires some { 0 < count }
    requires few { count ≤ 1024 }
    ensures width { result ≡ grid_width count }
    ensures wide { 0 < result }
{
    (count - 1).isqrt() + 1
}

// The lesser nodes that the two words of a node draw. Each node has words of its own, whatever was
// drawn for those before it.
fn drawn_nodes(seed: u32, node: u32) -> (u32, Option<u32>)
    requires from_two { 2 ≤ node }
    requires few { node ≤ 1024 }
    ensures { result.0 ∷ option_to_list result.1 ≡ drawn_nodes seed node }
{
    let index = 2 * (node - 2);
    let first = 1 + word_at(seed, index) % (node - 1);
    let second = 1 + word_at(seed, index + 1) % (node - 1);
    both(first, second)
}

// The word at this index of those that a seed gives.
#[tactic(auto, unfolding(crate::specs::Shapes::word_at))]
fn word_at(seed: u32, index: u32) -> u32
    ensures { result ≡ word_at seed index }
{
    let mut random = Lcg64Xsh32::seed_from_u64(u64::from(seed));
    random.advance(u64::from(index));
    random.next_word()
}

// Two nodes in ascending order, or the one that they are.
fn both(a: u32, b: u32) -> (u32, Option<u32>)
    ensures { result.0 ∷ option_to_list result.1 ≡ both a b }
{
    if a == b {
        (a, None)
    } else {
        (a.min(b), Some(a.max(b)))
    }
}
