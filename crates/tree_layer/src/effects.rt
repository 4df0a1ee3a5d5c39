// The effects of the tree table.

ghost use Rattle.std.specs.Prelude.{◌≡◌};
ghost use Rattle.tree_layer.specs.TreeRows.{claimed, followed};
ghost use Rattle.tree_layer.specs.TreeTable.{adopts, AreBelow, father_regs};

use crate::guards::father;
use crate::regs::TreeRegs;
use crate::view::TreeView;

// Rows 1 to 4: the node is a root.
pub(crate) fn claimed(view: &TreeView) -> TreeRegs
    ensures { result ≡ claimed view.now.id }
{
    TreeRegs {
        root: view.id(),
        father: view.id(),
        dist: 0,
    }
}

// Rows 5 and 6: the node has its father's root and is one further from it, at most at the bound.
pub(crate) fn followed(view: &TreeView) -> TreeRegs
    ensures { result ≡ followed view.now.bound view.now.own.father (father_regs view.now) }
{
    let up = father(view).unwrap_or(view.own());
    TreeRegs {
        root: up.root,
        father: view.own().father,
        dist: up.dist.saturating_add(1).min(view.k()),
    }
}

// Rows 7 and 8: the first neighbour that is asked is the node's father.
pub(crate) fn adopted(view: &TreeView, asked: &[(u32, TreeRegs)]) -> TreeRegs
    requires { AreBelow view.now.bound asked.now }
    ensures { result ≡ adopts view.now.own asked.now }
{
    let _bound = view.k();
    match asked {
        [(id, regs), ..] => TreeRegs {
            root: regs.root,
            father: *id,
            dist: regs.dist + 1,
        },
        [] => view.own(),
    }
}
