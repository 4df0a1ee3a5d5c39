// The guards of the tree table.
//
// The conjunctions are strict: each operand is cheap, and none depends on another.

ghost use Rattle.std.specs.Prelude.{◌≡◌, ◌+◌, true, not, ◌&&◌, ◌||◌, ◌==◌, nat_lt, nat_le};
ghost use Rattle.action_tables.specs.Nodes.{regs_of};
ghost use Rattle.tree_layer.specs.TreeTable.{asked_passes, father_passes};

use crate::regs::TreeRegs;
use crate::view::TreeView;
use action_tables::regs_of;

// Row 1: the root is less than the node's id.
pub(crate) fn is_low(view: &TreeView) -> bool
    ensures { result ≡ nat_lt view.now.own.root view.now.id }
{
    view.own().root < view.id()
}

// Row 2: the node is its own father, and not as a root is.
pub(crate) fn is_odd_root(view: &TreeView) -> bool
    ensures { result
        ≡ (view.now.own.father == view.now.id
        && (not (view.now.own.root == view.now.id) || not (view.now.own.dist == 0))) }
{
    let own = view.own();
    (own.father == view.id()) & ((own.root != view.id()) | (own.dist != 0))
}

// Row 3: the father is neither the node nor a neighbour.
pub(crate) fn is_stray(view: &TreeView) -> bool
    ensures { result ≡ (not (view.now.own.father == view.now.id) && not (father_passes (λ _. true) view.now)) }
{
    (view.own().father != view.id()) & father(view).is_none()
}

// Row 4: the distance isn't below the bound.
pub(crate) fn is_far(view: &TreeView) -> bool
    ensures { result ≡ nat_le view.now.bound view.now.own.dist }
{
    view.own().dist >= view.k()
}

// Row 5: the father, a neighbour, has another root.
pub(crate) fn has_other_root(view: &TreeView) -> bool
    ensures { result
        ≡ father_passes (λ up. nat_lt view.now.own.dist view.now.bound && not (view.now.own.root == up.root)) view.now }
{
    let own = view.own();
    match father(view) {
        Some(up) => (own.dist < view.k()) & (own.root != up.root),
        None => false,
    }
}

// Row 6: the father, a neighbour, has the root, and isn't one nearer to it.
pub(crate) fn has_other_dist(view: &TreeView) -> bool
    ensures { result
        ≡ father_passes
        (λ up. nat_lt view.now.own.dist view.now.bound && view.now.own.root == up.root
        && not (view.now.own.dist == up.dist + 1)) view.now }
{
    let own = view.own();
    match father(view) {
        Some(up) => {
            (own.dist < view.k())
                & (own.root == up.root)
                & (u64::from(own.dist) != one_more(up.dist))
        }
        None => false,
    }
}

// Row 7: a neighbour that is asked has a greater root, and a distance below the bound.
pub(crate) fn some_greater_root(view: &TreeView, asked: &[(u32, TreeRegs)]) -> bool
    ensures { result ≡ asked_passes (λ j. nat_lt j.dist view.now.bound && nat_lt view.now.own.root j.root) asked.now }
{
    let own = view.own();
    let k = view.k();
    asked
        .iter()
        .any(|(_, j)| (j.dist < k) & (own.root < j.root))
}

// Row 8: a neighbour that is asked has a shorter way to the root, and a distance below the bound.
pub(crate) fn some_shorter_way(view: &TreeView, asked: &[(u32, TreeRegs)]) -> bool
    ensures { result
        ≡ asked_passes
        (λ j. nat_lt j.dist view.now.bound && view.now.own.root == j.root && nat_lt (j.dist + 1) view.now.own.dist)
        asked.now }
{
    let own = view.own();
    let k = view.k();
    asked.iter().any(|(_, j)| {
        (j.dist < k) & (own.root == j.root) & (one_more(j.dist) < u64::from(own.dist))
    })
}

// The registers of the father, where it is a neighbour.
pub(crate) fn father(view: &TreeView) -> Option<TreeRegs>
    ensures { result ≡ regs_of view.now.own.father view.now.near }
{
    regs_of(view.near(), view.own().father)
}

// One more than the distance. It is wide enough for one more than the greatest.
fn one_more(dist: u32) -> u64
    ensures { result ≡ dist + 1 }
{
    u64::from(dist) + 1
}
