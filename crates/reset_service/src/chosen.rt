// The rows and the nodes that texts name.

ghost use Rattle.std.specs.Prelude.{◌≡◌, ◌∷◌, ◌↔◌, ℕ, All, Contains, IfNone, IfOk, IfSome, IsTrue, List, filter};
ghost use Rattle.std.specs.Prelude.{MatchOption};
ghost use Rattle.topology.specs.Faults.{IsFirst};
ghost use Rattle.topology.specs.Graph.{has};
ghost use Rattle.reset_service.specs.Chosen.{AreRows, NamesNodes, NamesRows};

use action_tables::{read_number, split_number};
use app_interface::read_id;
use history::MAX_ENTRIES;
use std::alloc::{AllocError, Global};
use topology::NodeId;

// The first and the last row that a text names, if it names any.
pub fn read_rows(text: &[u8]) -> Option<(u32, u32)>
    ensures found { IfSome result (λ rows. NamesRows text.now rows) }
    ensures only { IfNone result ((rows : ℕ × ℕ) → NamesRows text.now rows → ⊥) }
{
    let (first, rest) = split_number(text, b'.')?;
    let last = read_number(after_dot(rest)?)?;
    if are_rows(first, last) {
        Some((first, last))
    } else {
        None
    }
}

// What follows the dot that a text begins with.
fn after_dot(text: &[u8]) -> Option<&[u8]>
    ensures found { IfSome result (λ rest. text.now ≡ 46 ∷ rest.now) }
    ensures only { IfNone result ((rest : List ℕ) → text.now ≡ 46 ∷ rest → ⊥) }
{
    match text {
        [first, rest @ ..] if *first == b'.' => Some(rest),
        _ => None,
    }
}

// Whether these are rows that may be asked for.
fn are_rows(first: u32, last: u32) -> bool
    ensures { IsTrue result ↔ AreRows (first, last) }
{
    1 <= first && first <= last && last as usize <= MAX_ENTRIES
}

// The identifiers that a text names, if it names any.
pub fn read_ids(alloc: Global, text: &[u8]) -> Result<Option<Vec<u32>>, AllocError>
    ensures found { IfOk result (λ read. IfSome read (λ ids. NamesNodes text.now ids.items)) }
    ensures only { IfOk result (λ read. IfNone read ((ids : List ℕ) → NamesNodes text.now ids → ⊥)) }
{
    let mut ids = Vec::new(alloc);
    let mut rest = text;
    while let Some((number, after)) = split_number(rest, b',') {
        match NodeId::new(number) {
            Some(id) => ids.push(id.get())?,
            None => return Ok(None),
        }
        rest = after;
    }
    match read_id(rest) {
        Some(last) => {
            ids.push(last.get())?;
            Ok(Some(ids))
        }
        None => Ok(None),
    }
}

// The first of the identifiers that are named which isn't one of these.
pub fn first_strange(ids: &[u32], named: &[u32]) -> Option<u32>
    ensures { MatchOption result (All (λ id. Contains ids.now id) named.now)
        (IsFirst (λ id. Contains ids.now id → ⊥) named.now) }
{
    for id in named {
        if !ids.contains(id) {
            return Some(*id);
        }
    }
    None
}

// Those of the identifiers that are named.
pub fn named_lanes(alloc: Global, ids: &[u32], named: &[u32]) -> Result<Vec<u32>, AllocError>
    ensures { IfOk result (λ lanes. lanes.items ≡ filter (λ id. has named.now id) ids.now) }
{
    let mut lanes = Vec::new(alloc);
    for id in ids {
        if named.contains(id) {
            lanes.push(*id)?;
        }
    }
    Ok(lanes)
}
