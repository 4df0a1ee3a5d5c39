// Taking better entries of a neighbour.
ghost use Rattle.std.specs.Prelude.{◌≡◌, IfOk, OnOk};
ghost use Rattle.topology.specs.Id.{IsId};
ghost use Rattle.app_routes.specs.Entries.{AreRoutes, IsEntry, is_better, pulled, set_route, some_better};

use crate::entry::Entry;
use crate::local::{RoutesLocal, place_of};
use smallvec::SmallVec;
use std::alloc::{AllocError, Global};

/// Whether some entry of a neighbour is better than what the node has for its destination.
pub fn some_better(bound: u32, own: &RoutesLocal, theirs: &[Entry]) -> bool
    ensures { result ≡ some_better bound own.now theirs.now }
{
    theirs.iter().any(|entry| is_better(bound, own, entry))
}

/// The node's entries after each better one of the neighbour is taken.
pub fn pulled(
    alloc: Global,
    bound: u32,
    neighbour: u32,
    own: &RoutesLocal,
    theirs: &[Entry],
) -> Result<RoutesLocal, AllocError>
    requires neighbour { IsId neighbour }
    requires theirs { AreRoutes theirs.now }
    ensures { IfOk result (λ local. local ≡ pulled bound neighbour own.now theirs.now) }
{
    let mut entries = SmallVec::from_slice(alloc, own.entries())?;
    for entry in theirs {
        if is_better(bound, own, entry) {
            let over = Entry {
                destination: entry.destination,
                hops: entry.hops + 1,
                next: neighbour,
            };
            put(&mut entries, over)?;
        }
    }
    Ok(RoutesLocal::from_ascending(entries))
}

// Whether the way over a neighbour with this entry is better than what the node has for the destination.
fn is_better(bound: u32, own: &RoutesLocal, entry: &Entry) -> bool
    ensures { result ≡ is_better bound own.now entry.now }
{
    let hops = u64::from(entry.hops) + 1;
    let is_shorter = match own.hops_to(entry.destination) {
        Some(own_hops) => hops < u64::from(own_hops),
        None => true,
    };
    hops < u64::from(bound) && is_shorter
}

// Puts an entry in its place, where it replaces one for the same destination.
fn put(entries: &mut SmallVec<Entry, 4>, entry: Entry) -> Result<(), AllocError>
    requires routes { AreRoutes entries.old.items }
    requires entry { IsEntry entry }
    ensures { OnOk result (entries.new.items ≡ set_route entries.old.items entry) }
{
    match place_of(entries.as_slice(), entry.destination) {
        Ok(place) => {
            entries.as_mut_slice()[place] = entry;
            Ok(())
        }
        Err(place) => {
            entries.insert(place, entry)?;
            Ok(())
        }
    }
}
