// The number of entries that are no routes.
ghost use Rattle.std.specs.Prelude.{◌≡◌, ℕ, ◌<◌, ◌≤◌, List, Contains, IfNone, IfSome, length, map};
ghost use Rattle.std.specs.Prelude.{slice_index};
ghost use Rattle.std.specs.List.{sum_by};
ghost use Rattle.app_routes.specs.Entries.{IsAscending};
ghost use Rattle.app_routes.specs.declared.entry.Entry.{Entry};
ghost use Rattle.app_invariants.specs.Counts.{ways_lacked};
ghost use Rattle.app_invariants.specs.LawsOfWrongEntries.{routes_right};
ghost use Rattle.app_invariants.specs.Parities.{AreTables};
ghost use Rattle.app_invariants.specs.Prepared.{AreMembers, ArePrepared};
ghost use Rattle.app_invariants.specs.States.{AreStates};
ghost use Rattle.app_invariants.specs.WrongEntries.{has_nearer, is_route, is_walked, leads_nearer};
ghost use Rattle.app_invariants.specs.WrongEntries.{wrong_at, wrong_entries};

use crate::invariant::Invariant;
use crate::members::members_of;
use crate::parities::{has_walk, tables_of};
use app_routes::{Entry, Routes, RoutesLocal};
use std::alloc::{AllocError, Global};
use topology::Topology;

impl Invariant for Routes {
    ghost counts = { ways_lacked };

    ghost decides = { routes_right };

    fn words() -> &'static str {
        "routes without a way"
    }

    fn right_count() -> u64 {
        0
    }

    fn count(
        alloc: Global,
        topology: &Topology,
        at: u32,
        states: &[RoutesLocal],
    ) -> Result<u64, AllocError> {
        topology.lemma_is_graph();
        let members = members_of(alloc, topology, at)?;
        let tables = tables_of(alloc, topology, members.as_slice())?;
        Ok(wrong_entries(topology, members.as_slice(), tables.as_slice(), states))
    }
}

// How many entries of the nodes at these indexes are no routes.
fn wrong_entries(
    topology: &Topology,
    members: &[usize],
    tables: &[Vec<usize>],
    states: &[RoutesLocal],
) -> u64
    requires { ArePrepared topology.now members.now (map (λ marks. marks.items) tables.now) states.now }
    ensures { (v : ℕ → List Entry) → AreStates topology.now v states.now
        → result ≡ sum_by (wrong_at topology.now v) (map (λ k. slice_index topology.now.ids k) members.now) }
{
    topology.lemma_is_graph();
    let mut count = 0;
    for index in members {
        count += wrong_at(topology, members, tables, states, *index);
    }
    count
}

// How many entries of the node at this index are no routes.
fn wrong_at(
    topology: &Topology,
    members: &[usize],
    tables: &[Vec<usize>],
    states: &[RoutesLocal],
    index: usize,
) -> u64
    requires prepared { ArePrepared topology.now members.now (map (λ marks. marks.items) tables.now) states.now }
    requires index { Contains members.now index }
    ensures count { (v : ℕ → List Entry) → AreStates topology.now v states.now
        → result ≡ wrong_at topology.now v (slice_index topology.now.ids index) }
    ensures small { result ≤ 65535 }
{
    topology.lemma_is_graph();
    let mut count = 0;
    for entry in states[index].entries() {
        if !is_route(topology, members, tables, states, index, entry) {
            count += 1;
        }
    }
    count
}

// Whether an entry of the node at this index is a route.
fn is_route(
    topology: &Topology,
    members: &[usize],
    tables: &[Vec<usize>],
    states: &[RoutesLocal],
    index: usize,
    entry: &Entry,
) -> bool
    requires prepared { ArePrepared topology.now members.now (map (λ marks. marks.items) tables.now) states.now }
    requires index { Contains members.now index }
    ensures { (v : ℕ → List Entry) → AreStates topology.now v states.now
        → result ≡ is_route topology.now v (slice_index topology.now.ids index) entry.now }
{
    if !is_walked(topology, members, tables, index, entry) {
        return false;
    }
    entry.hops == 0 || leads_nearer(topology, states, index, entry)
}

// Whether a walk of as many links as the entry has hops leads from the node at this index to the destination.
fn is_walked(
    topology: &Topology,
    members: &[usize],
    tables: &[Vec<usize>],
    index: usize,
    entry: &Entry,
) -> bool
    requires members { AreMembers topology.now members.now }
    requires tables { AreTables topology.now members.now (map (λ marks. marks.items) tables.now) }
    requires index { Contains members.now index }
    ensures { result ≡ is_walked topology.now (slice_index topology.now.ids index) entry.now.destination
        entry.now.hops }
{
    topology.lemma_is_graph();
    match place_of(topology, members, entry.destination) {
        Some(place) => has_walk(topology, tables[place].as_slice(), index, entry.hops),
        None => false,
    }
}

// The place of this identifier's index among these. None where it isn't among them.
fn place_of(topology: &Topology, members: &[usize], id: u32) -> Option<usize>
    requires { AreMembers topology.now members.now }
    ensures found { IfSome result (λ place. (place < length members.now)
        × (slice_index topology.now.ids (slice_index members.now place) ≡ id)) }
    ensures none { IfNone result ((k : ℕ) → k < length topology.now.ids → slice_index topology.now.ids k ≡ id
        → Contains members.now k → ⊥) }
{
    topology.lemma_is_graph();
    match topology.index_of(id) {
        Some(index) => members.binary_search(&index).ok(),
        None => None,
    }
}

// Whether the next node of an entry of the node at this index is a neighbour that is nearer to the destination.
fn leads_nearer(topology: &Topology, states: &[RoutesLocal], index: usize, entry: &Entry) -> bool
    requires index { index < length topology.now.ids }
    requires count { length states.now ≡ length topology.now.ids }
    ensures { (v : ℕ → List Entry) → AreStates topology.now v states.now
        → result ≡ leads_nearer topology.now v (slice_index topology.now.ids index) entry.now }
{
    topology.lemma_is_graph();
    match topology.neighbour_at(index, entry.next) {
        Some(near) => has_nearer(states[near].entries(), entry.destination, entry.hops),
        None => false,
    }
}

// Whether one of the entries leads to the destination in fewer links.
fn has_nearer(entries: &[Entry], destination: u32, hops: u32) -> bool
    requires { IsAscending entries.now }
    ensures { result ≡ has_nearer entries.now destination hops }
{
    match entries.binary_search_by_key(&destination, |entry| entry.destination) {
        Ok(place) => entries[place].hops < hops,
        Err(_) => false,
    }
}
