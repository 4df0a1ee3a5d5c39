// What a node keeps.
ghost use Rattle.std.specs.Prelude.{◌≡◌, ◌↔◌, [], ◌∷◌, IfOk, IsTrue, option_map};
ghost use Rattle.app_routes.specs.Entries.{AreRoutes, IsAscending, IsPlaceOf, route_of};

use crate::entry::Entry;
use smallvec::SmallVec;
use std::alloc::{AllocError, Global};
use std::marker::Model;
use topology::NodeId;

/// What a node keeps: an entry for each destination that it knows a way to. A contract sees the list
/// of the entries, in ascending order of their destinations.
#[derive(Drop)]
pub struct RoutesLocal {
    // A node of a small graph needs no allocation.
    entries: SmallVec<Entry, 4>,
}

impl Model for RoutesLocal {
    ghost use Rattle.std.specs.Prelude.{List};
    ghost use Rattle.app_routes.specs.Entries.{AreRoutes};
    ghost use Rattle.app_routes.specs.declared.entry.Entry.{Entry};

    ghost Value = { List Entry };

    ghost view = { λ local. local.entries.items };

    ghost invariant = { λ local. AreRoutes local.entries.items };
}

impl RoutesLocal {
    /// No entry.
    pub(crate) fn none(alloc: Global) -> RoutesLocal
        ensures { result ≡ [] }
    {
        RoutesLocal {
            entries: SmallVec::new(alloc),
        }
    }

    /// The start state of a node: the way to itself.
    pub(crate) fn start(alloc: Global, id: NodeId) -> Result<RoutesLocal, AllocError>
        ensures { IfOk result (λ local. local ≡ record { destination = id; hops = 0; next = id } ∷ []) }
    {
        let mut entries = SmallVec::new(alloc);
        entries.push(Entry {
            destination: id.get(),
            hops: 0,
            next: id.get(),
        })?;
        Ok(RoutesLocal { entries })
    }

    /// These entries.
    pub(crate) fn from_ascending(entries: SmallVec<Entry, 4>) -> RoutesLocal
        requires { AreRoutes entries.items }
        ensures { result ≡ entries.items }
    {
        RoutesLocal { entries }
    }

    /// The entries, in ascending order of their destinations.
    pub fn entries(&self) -> &[Entry]
        ensures value { result.now ≡ self.now }
        ensures routes { AreRoutes self.now }
    {
        let entries = &self.entries;
        entries.as_slice()
    }

    /// How many hops the entry for this destination has.
    pub(crate) fn hops_to(&self, destination: u32) -> Option<u32>
        ensures { result ≡ option_map (λ e. e.hops) (route_of self.now destination) }
    {
        let entries = self.entries();
        match place_of(entries, destination) {
            Ok(place) => Some(entries[place].hops),
            Err(_) => None,
        }
    }

    /// Whether the two are equal.
    pub(crate) fn same(&self, other: &RoutesLocal) -> bool
        ensures { IsTrue result ↔ self.now ≡ other.now }
    {
        self.entries() == other.entries()
    }

    /// A copy.
    pub(crate) fn copy(&self, alloc: Global) -> Result<RoutesLocal, AllocError>
        ensures { IfOk result (λ copy. copy ≡ self.now) }
    {
        Ok(RoutesLocal {
            entries: SmallVec::from_slice(alloc, self.entries())?,
        })
    }
}

/// The place of the entry for this destination, or else the place where one would stand.
pub fn place_of(entries: &[Entry], destination: u32) -> Result<usize, usize>
    requires { IsAscending entries.now }
    ensures { IsPlaceOf entries.now destination result }
{
    entries.binary_search_by_key(&destination, |entry| entry.destination)
}
