// Laws of the definitions.
ghost use Rattle.std.specs.Prelude.{◌≡◌, ℕ, List, Some, Contains};
ghost use Rattle.topology.specs.Graph.{Graph, IsGraph, IsNode};
ghost use Rattle.app_routes.specs.Entries.{AreRoutes, pulled, route_of};
ghost use Rattle.app_routes.specs.Pulled.{route_after};
ghost use Rattle.app_routes.specs.Ways.{ArrivesWithin, HasRoutes};
ghost use Rattle.app_routes.specs.declared.entry.Entry.{Entry};

/// Where the invariant holds, an entry leads to its destination: from its node to the next node that
/// it names, from there to the one that the entry of that node names, and so on. The way has at most
/// as many links as the entry has hops, and no node comes twice.
pub fn routes_arrive()
    ensures { (g : Graph) (v : ℕ → List Entry) (i : ℕ) (e : Entry) → IsGraph g → HasRoutes g v → IsNode g i
        → Contains (v i) e → ArrivesWithin g v i e.destination e.hops }
{}

/// Each entry of a node is its entry for the destination.
pub fn entries_are_found()
    ensures { (es : List Entry) (e : Entry) → AreRoutes es → Contains es e → route_of es e.destination ≡ Some e }
{}

/// After a pull the entry for a destination is the way over the neighbour, where that has a better
/// entry for it, and else the one from before.
pub fn pulls_take_better_entries()
    ensures { (K j d : ℕ) (own theirs : List Entry) → AreRoutes theirs
        → route_of (pulled K j own theirs) d ≡ route_after K j own d (route_of theirs d) }
{}
