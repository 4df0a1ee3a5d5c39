// Laws of the tree rows.

ghost use Rattle.std.specs.Prelude.{◌≡◌, ◌↔◌, ◌≤◌, ℕ, List, length};
ghost use Rattle.topology.specs.Graph.{Graph, IsGraph, IsNode};
ghost use Rattle.tree_layer.specs.declared.regs.TreeRegs.{TreeRegs};
ghost use Rattle.tree_layer.specs.BootTree.{AreBooted, IsBooted};
ghost use Rattle.tree_layer.specs.TreePicture.{TreePicture, TreeRests};

/// No row is enabled at any node exactly where the tree picture holds, for every bound `K` of at
/// least the number of nodes.
pub fn tree_pictures()
    ensures { (g : Graph) (K : ℕ) (t : ℕ → TreeRegs) → IsGraph g → length g.ids ≤ K
        → (((i : ℕ) → IsNode g i → TreeRests g K t i) ↔ TreePicture g t) }
{}

/// Of the booted registers the tree picture holds.
pub fn boot_is_picture()
    ensures { (g : Graph) (t : ℕ → TreeRegs) → IsGraph g → ((i : ℕ) → IsNode g i → IsBooted g i (t i))
        → TreePicture g t }
{}

/// The nodes of a graph are booted with one list of registers.
pub fn one_boot()
    ensures { (g : Graph) (trees others : List TreeRegs) → AreBooted g trees → AreBooted g others → trees ≡ others }
{}
