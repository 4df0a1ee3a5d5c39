// Laws of the definitions.
ghost use Rattle.std.specs.Prelude.{◌≡◌, ◌≢◌, ◌↔◌, ℕ, Bool, true, false, not, None, IsSome};
ghost use Rattle.app_interface.specs.Application.{seen};
ghost use Rattle.topology.specs.Graph.{AreLinked, Graph, IsGraph, are_linked};
ghost use Rattle.app_mutex.specs.Mutex.{mutex_next};
ghost use Rattle.app_mutex.specs.Turns.{HoldsTurns, holds_turn};
ghost use Rattle.app_mutex.specs.declared.local.MutexLocal.{MutexLocal};

/// Of two nodes exactly one holds the turn of their link, whatever their bits are.
pub fn one_end_holds_the_turn()
    ensures { (i j : ℕ) (b c : Bool) → i ≢ j → holds_turn j c i b ≡ not (holds_turn i b j c) }
{}

/// A node that turns its bit over reverses each of its links: it gives the turns that it held, and
/// gets those that it lacked.
pub fn bits_reverse_links()
    ensures { (i j : ℕ) (b c : Bool) → holds_turn i (not b) j c ≡ not (holds_turn i b j c) }
{}

/// A node enters exactly where it isn't in and holds the turn of each of its links.
pub fn enters_with_its_turns()
    ensures { (g : Graph) (v : ℕ → MutexLocal) (i : ℕ) → IsGraph g
        → (IsSome (mutex_next i 1 None (v i) (seen (are_linked g i) v g.ids))
        ↔ ((v i).inside ≡ false) × ((j : ℕ) → AreLinked g i j → holds_turn i (v i).bit j (v j).bit ≡ true)) }
{}

/// Where each node that is in holds the turns of its links, no two neighbours are in at once.
pub fn neighbours_exclude()
    ensures { (g : Graph) (v : ℕ → MutexLocal) (i j : ℕ) → IsGraph g → HoldsTurns g v → AreLinked g i j
        → (v i).inside ≡ true → (v j).inside ≡ true → ⊥ }
{}
