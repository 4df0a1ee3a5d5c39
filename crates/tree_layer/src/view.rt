// What one node sees of the tree: its own registers and its neighbours'.

ghost use Rattle.std.specs.Prelude.{◌≡◌, ◌↔◌, ◌<◌, IsSome, IfSome};
ghost use Rattle.std.specs.List.{list_any};
ghost use Rattle.std.specs.List.Sorted.{IsStrictlyIncreasing};
ghost use Rattle.std.specs.Prelude.{◌==◌};
ghost use Rattle.action_tables.specs.Nodes.{ids_of};
ghost use Rattle.tree_layer.specs.TreeTable.{IsView};

use crate::regs::TreeRegs;
use action_tables::ids_ascend;
use std::marker::Model;

/// What one node sees: its id, the bound of the distances, its registers, and those of its
/// neighbours with their ids.
///
/// The bound is at least 1. The ids of the neighbours ascend strictly, and none is the node's own.
#[derive(Drop)]
pub struct TreeView<'a> {
    id: u32,
    k: u32,
    own: TreeRegs,
    near: &'a [(u32, TreeRegs)],
}

impl<'a> Model for TreeView<'a> {
    ghost use Rattle.tree_layer.specs.TreeTable.{IsView, LocalView};

    ghost Value = { LocalView };

    ghost view = { λ v. record { id = v.id; bound = v.k; own = v.own; near = v.near.now } };

    ghost invariant = { λ v. IsView v.id v.k v.near.now };
}

impl<'a> TreeView<'a> {
    /// The view of these registers, or `None` where the bound is 0, the ids of the neighbours do not
    /// ascend strictly, or the node is among its neighbours.
    pub fn new(id: u32, k: u32, own: TreeRegs, near: &'a [(u32, TreeRegs)]) -> Option<TreeView<'a>>
        ensures made { IsSome result ↔ IsView id k near.now }
        ensures value { IfSome result (λ v. v ≡ record { id = id; bound = k; own = own; near = near.now }) }
    {
        if k > 0 && ids_ascend(near) && !holds_id(near, id) {
            Some(TreeView { id, k, own, near })
        } else {
            None
        }
    }

    /// The node's id.
    pub(crate) fn id(&self) -> u32
        ensures { result ≡ self.now.id }
    {
        self.id
    }

    /// The bound of the distances.
    pub(crate) fn k(&self) -> u32
        ensures value { result ≡ self.now.bound }
        ensures bounded { 0 < result }
    {
        self.k
    }

    /// The node's own registers.
    pub(crate) fn own(&self) -> TreeRegs
        ensures { result ≡ self.now.own }
    {
        self.own
    }

    /// The neighbours' ids and registers, by strictly ascending id.
    pub(crate) fn near(&self) -> &[(u32, TreeRegs)]
        ensures value { result.now ≡ self.now.near }
        ensures ascending { IsStrictlyIncreasing (ids_of self.now.near) }
    {
        self.near
    }
}

// Whether a neighbour has this id.
fn holds_id(near: &[(u32, TreeRegs)], id: u32) -> bool
    ensures { result ≡ list_any (λ j. j.0 == id) near.now }
{
    near.iter().any(|(other, _)| *other == id)
}
