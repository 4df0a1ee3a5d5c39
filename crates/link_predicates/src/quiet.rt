// The quick tests at a node's end of a link, and at a node. They ask the registers themselves; which row
// fails, where one does, the tables say.

ghost use Rattle.std.specs.Prelude.{◌≡◌, ◌+◌, ◌<◌, ◌≤◌, [], ◌∷◌, None, IsTrue};
ghost use Rattle.action_tables.specs.Table.{enabled_of};
ghost use Rattle.tree_layer.specs.declared.regs.TreeRegs.{TreeRegs};
ghost use Rattle.tree_layer.specs.TreeTable.{LocalView, tree_table};
ghost use Rattle.link_predicates.specs.Faults.{first_enabled, link_faults, mending_row, tree_row, wave_row};

use crate::end::{End, Limits};
use crate::rows;
use app_interface::Application;
use tree_layer::TreeRegs;
use wave_layer::{FatherSeen, Modulus, WaveRegs, WaveView, wave_good};

// Whether no row fails at a node's end of a link.
pub(crate) fn is_quiet<P: Application>(
    limits: &Limits,
    own: &End<'_, P>,
    other: &End<'_, P>,
) -> bool
    ensures { IsTrue result → link_faults P.app limits.now.k limits.now.modulus own.now other.now ≡ [] }
{
    rests(limits, own, other) && rows::app_row(limits.k, own, other).is_none()
}

// Whether no row of the tree or of the wave fails at a node's end of a link.
fn rests<P: Application>(limits: &Limits, own: &End<'_, P>, other: &End<'_, P>) -> bool
    ensures tree { IsTrue result → tree_row limits.now.k own.now other.now ≡ None }
    ensures wave { IsTrue result → wave_row limits.now.modulus own.now other.now ≡ None }
{
    let k = limits.k;
    stays(k, own.tree, other.tree)
        && (own.tree.father != other.id
            || (follows(k, own.tree, other.tree) && fits(limits.modulus, own.wave, other.wave)))
}

// Rows 7 and 8 of the tree table fail nowhere: the neighbour, where its distance is below the bound,
// has no greater root, and no shorter way to the node's own.
fn stays(k: u32, own: TreeRegs, other: TreeRegs) -> bool
    ensures { IsTrue result → other.dist < k
        → (other.root ≤ own.root) × (own.root ≡ other.root → own.dist ≤ other.dist + 1) }
{
    other.dist >= k
        || own.root > other.root
        || (own.root == other.root && own.dist <= other.dist + 1)
}

// Rows 5 and 6 of the tree table fail nowhere: the node, where its distance is below the bound, has
// its father's root, and is one further from it.
fn follows(k: u32, own: TreeRegs, up: TreeRegs) -> bool
    ensures { IsTrue result → own.dist < k → (own.root ≡ up.root) × (own.dist ≡ up.dist + 1) }
{
    own.dist >= k || (own.root == up.root && u64::from(own.dist) == u64::from(up.dist) + 1)
}

// Whether none of the mending rows is enabled where the father has these registers.
fn fits(modulus: Modulus, own: WaveRegs, up: WaveRegs) -> bool
    ensures { IsTrue result → mending_row modulus own up ≡ None }
{
    let view = WaveView::new(own, FatherSeen::Is(up), &[], modulus).unwrap();
    wave_good(&view)
}

// Whether none of rows 1 to 4 of the tree table fails at a node whose father is a neighbour.
pub(crate) fn is_settled(k: u32, id: u32, own: TreeRegs) -> bool
    ensures { IsTrue result → (up : TreeRegs) → let near = (own.father, up) ∷ [] in
        let seen : LocalView = record { id = id; bound = k; own = own; near = near } in
        first_enabled (1 ∷ 2 ∷ 3 ∷ 4 ∷ []) (enabled_of (tree_table seen near)) ≡ None }
{
    own.root >= id && own.father != id && own.dist < k
}
