ghost use Rattle.std.specs.Prelude.{◌≡◌, ◌↔◌, ℕ, List, filter, length, true};
ghost use Rattle.topology.specs.declared.fault.TopoFault.{TopoFault};
ghost use Rattle.topology.specs.Faults.{IsFirstFault, IsTopologyOf};
ghost use Rattle.topology.specs.Components.{component, IsComponent, leader, reaches};
ghost use Rattle.topology.specs.Graph.{Graph, IsConnected, IsDistance, IsGraph, IsLeader, IsNode, IsReached, IsWalk, is_node};

/// The nodes of a graph are its identifiers that are up, in their order.
pub fn nodes_are_up()
    ensures { (g : Graph) → IsGraph g → filter (is_node g) g.ids ≡ g.nodes }
{}

/// A walk of a graph leads back over as many links.
pub fn walks_back()
    ensures { (g : Graph) (a b : ℕ) (cs : List ℕ) → IsGraph g → IsWalk g a cs b
        → (ds : List ℕ) × IsWalk g b ds a × (length ds ≡ length cs) }
{}

/// Two nodes have one distance.
pub fn one_distance()
    ensures { (g : Graph) (a b d e : ℕ) → IsDistance g a b d → IsDistance g a b e → d ≡ e }
{}

/// The distance of two nodes of a graph is the same in both directions.
pub fn distance_back()
    ensures { (g : Graph) (a b d : ℕ) → IsGraph g → IsDistance g a b d → IsDistance g b a d }
{}

/// The test of what walks from a node lead to is exact.
pub fn reached_is_tested()
    ensures { (g : Graph) (a b : ℕ) → IsGraph g → IsNode g a → (reaches g a b ≡ true ↔ IsReached g a b) }
{}

/// The component of a node is a connected graph of the nodes that walks from the node lead to.
pub fn components_are_parts()
    ensures { (g : Graph) (i : ℕ) → IsGraph g → IsNode g i → IsComponent g i (component g i) }
{}

/// Two nodes with a walk between them have one component, and so one leader.
pub fn one_component()
    ensures { (g : Graph) (i j : ℕ) → IsGraph g → IsNode g i → IsReached g i j → component g j ≡ component g i }
{}

/// A connected graph has one component, which is the whole graph.
pub fn connected_is_whole()
    ensures { (g : Graph) (i : ℕ) → IsGraph g → IsConnected g → IsNode g i → component g i ≡ g }
{}

/// Each node has one leader.
pub fn leaders_lead()
    ensures leads { (g : Graph) (i : ℕ) → IsGraph g → IsNode g i → IsLeader g i (leader g i) }
    ensures one { (g : Graph) (i a b : ℕ) → IsLeader g i a → IsLeader g i b → a ≡ b }
{}

/// Two lists describe at most one topology.
pub fn one_topology()
    ensures { (nodes : List ℕ) (links : List (ℕ × ℕ)) (g h : Graph) → IsTopologyOf nodes links g
        → IsTopologyOf nodes links h → g ≡ h }
{}

/// Two lists have at most one first fault.
pub fn one_first_fault()
    ensures { (nodes : List ℕ) (links : List (ℕ × ℕ)) (f e : TopoFault) → IsFirstFault nodes links f
        → IsFirstFault nodes links e → f ≡ e }
{}
