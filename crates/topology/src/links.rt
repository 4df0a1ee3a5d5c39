ghost use Rattle.std.specs.Prelude.{◌≡◌, ◌≢◌, ℕ, ◌<◌, ◌≤◌, List, [], true, All, None, Some, IfErr, IfOk, MatchOption};
ghost use Rattle.std.specs.Prelude.{OnOk, length, map, slice_index};
ghost use Rattle.topology.specs.Graph.{has};
ghost use Rattle.topology.specs.Building.{AreApart, AreJoined, AreSorted};
ghost use Rattle.topology.specs.Changing.{IsIndexOf, first_of, strange_ends};
ghost use Rattle.topology.specs.Faults.{IsFirst, IsFirstFault, IsFirstRepeat, ends_of, ordered_links};

use crate::fault::{MAX_LINKS, TopoFault};
use crate::ids::Ids;
use crate::rows::{empty_rows, link};
use std::alloc::Global;

/// The first end of a link that isn't one of the ids.
fn first_strange_end(ids: &Ids, links: &[(u32, u32)]) -> Option<u32>
    requires all_up { ids.now.nodes ≡ ids.now.ids }
    ensures { MatchOption result (All (λ x. has ids.now.ids x ≡ true) (ends_of links.now))
        (IsFirst (λ x. has ids.now.ids x ≡ true → ⊥) (ends_of links.now)) }
{
    for (a, b) in links {
        if !ids.is_up(*a) {
            return Some(*a);
        }
        if !ids.is_up(*b) {
            return Some(*b);
        }
    }
    None
}

/// The node of the first link that leads from a node to itself.
fn first_self_link(links: &[(u32, u32)]) -> Option<u32>
    ensures { MatchOption result (All (λ l. l.0 ≢ l.1) links.now)
        (λ n. IsFirst (λ l. l.0 ≡ l.1) links.now (n, n)) }
{
    for (a, b) in links {
        if a == b {
            return Some(*a);
        }
    }
    None
}

/// The index of one of the ids.
fn index_among(ids: &Ids, id: u32) -> usize
    requires all_up { ids.now.nodes ≡ ids.now.ids }
    requires known { has ids.now.ids id ≡ true }
    ensures within { result < length ids.now.ids }
    ensures value { slice_index ids.now.ids result ≡ id }
{
    ids.node_at(id).unwrap()
}

/// The indexes of two of the nodes, or `StrangeNode` of the first that is none of them.
pub fn end_indexes(ids: &Ids, a: u32, b: u32) -> Result<(usize, usize), TopoFault>
    ensures ok { IfOk result (λ ends. IsIndexOf ids.now.ids a ends.0 × IsIndexOf ids.now.ids b ends.1) }
    ensures up { OnOk result (has ids.now.nodes a ≡ true × has ids.now.nodes b ≡ true) }
    ensures known { OnOk result (first_of (strange_ends ids.now.nodes a b) ≡ None) }
    ensures err { IfErr result (λ f. first_of (strange_ends ids.now.nodes a b) ≡ Some f) }
{
    ids.lemma_are_ids();
    match (ids.node_at(a), ids.node_at(b)) {
        (Some(i), Some(j)) => Ok((i, j)),
        (Some(_), None) => Err(TopoFault::StrangeNode(b)),
        (None, _) => Err(TopoFault::StrangeNode(a)),
    }
}

/// Puts each link into the rows, or answers `TwiceLink` of the first that repeats an earlier one.
fn link_all(ids: &Ids, links: &[(u32, u32)], near: &mut [Vec<usize>]) -> Result<(), TopoFault>
    requires all_up { ids.now.nodes ≡ ids.now.ids }
    requires apart { AreApart ids.now.ids links.now }
    requires empty { AreJoined ids.now.ids [] (map (λ row. row.items) near.old) }
    ensures ok { OnOk result (AreJoined ids.now.ids links.now (map (λ row. row.items) near.new)) }
    ensures err { IfErr result (λ f. f ≢ TopoFault.NoMemory → (p : ℕ × ℕ)
        × (f ≡ TopoFault.TwiceLink p.0 p.1) × IsFirstRepeat (ordered_links links.now) p) }
{
    ids.lemma_are_ids();
    for (a, b) in links {
        let i = index_among(ids, *a);
        let j = index_among(ids, *b);
        if !link(near, i, j)? {
            return Err(TopoFault::TwiceLink((*a).min(*b), (*a).max(*b)));
        }
    }
    Ok(())
}

/// The rows of these links of the ids, or `TwiceLink` of the first that repeats an earlier one.
fn linked_rows(alloc: Global, ids: &Ids, links: &[(u32, u32)]) -> Result<Vec<Vec<usize>>, TopoFault>
    requires all_up { ids.now.nodes ≡ ids.now.ids }
    requires apart { AreApart ids.now.ids links.now }
    ensures ok { IfOk result (λ near. AreJoined ids.now.ids links.now (map (λ row. row.items) near.items)) }
    ensures err { IfErr result (λ f. f ≢ TopoFault.NoMemory → (p : ℕ × ℕ)
        × (f ≡ TopoFault.TwiceLink p.0 p.1) × IsFirstRepeat (ordered_links links.now) p) }
{
    let mut near = empty_rows(alloc, ids.as_slice().len())?;
    match link_all(ids, links, &mut near) {
        Ok(()) => Ok(near),
        Err(fault) => Err(fault),
    }
}

/// The rows of these links of the ids, or the first fault of the links.
pub fn checked_rows(
    alloc: Global,
    ids: &Ids,
    links: &[(u32, u32)],
) -> Result<Vec<Vec<usize>>, TopoFault>
    requires all_up { ids.now.nodes ≡ ids.now.ids }
    ensures few { OnOk result (length links.now ≤ MAX_LINKS) }
    ensures apart { OnOk result (AreApart ids.now.ids links.now) }
    ensures joined { IfOk result (λ near.
        AreJoined ids.now.ids links.now (map (λ row. row.items) near.items)) }
    ensures err { IfErr result (λ f. f ≢ TopoFault.NoMemory → (nodes : List ℕ)
        → AreSorted nodes ids.now.ids → IsFirstFault nodes links.now f) }
{
    ids.lemma_are_ids();
    if links.len() > MAX_LINKS {
        return Err(TopoFault::TooManyLinks);
    }
    if let Some(end) = first_strange_end(ids, links) {
        return Err(TopoFault::StrangeNode(end));
    }
    if let Some(node) = first_self_link(links) {
        return Err(TopoFault::SelfLink(node));
    }
    linked_rows(alloc, ids, links)
}
