// What one node sees of the wave: its own registers, its father's and its children's.

ghost use Rattle.std.specs.Prelude.{◌≡◌, ◌↔◌, IsSome, IfSome};
ghost use Rattle.std.specs.List.Sorted.{IsStrictlyIncreasing};
ghost use Rattle.action_tables.specs.Nodes.{ids_of};

use crate::modulus::Modulus;
use crate::regs::{FatherSeen, WaveRegs};
use action_tables::ids_ascend;
use std::marker::Model;

/// What one node sees: its registers, its father's, and those of its children with their ids; and
/// the number modulo which sessions are counted.
///
/// The ids of the children ascend strictly.
#[derive(Drop)]
pub struct WaveView<'a> {
    own: WaveRegs,
    father: FatherSeen,
    children: &'a [(u32, WaveRegs)],
    modulus: Modulus,
}

impl<'a> Model for WaveView<'a> {
    ghost use Rattle.std.specs.List.Sorted.{IsStrictlyIncreasing};
    ghost use Rattle.action_tables.specs.Nodes.{ids_of};
    ghost use Rattle.wave_layer.specs.WaveTable.{LocalView};

    ghost Value = { LocalView };

    ghost view = { λ v. record { own = v.own; father = v.father; children = v.children.now; modulus = v.modulus } };

    ghost invariant = { λ v. IsStrictlyIncreasing (ids_of v.children.now) };
}

impl<'a> WaveView<'a> {
    /// The view of these registers, or `None` where the ids of the children do not ascend strictly.
    pub fn new(
        own: WaveRegs,
        father: FatherSeen,
        children: &'a [(u32, WaveRegs)],
        modulus: Modulus,
    ) -> Option<WaveView<'a>>
        ensures ascending { IsSome result ↔ IsStrictlyIncreasing (ids_of children.now) }
        ensures value { IfSome result (λ v. v ≡ record {
          own = own;
          father = father;
          children = children.now;
          modulus = modulus;
        }) }
    {
        if ids_ascend(children) {
            Some(WaveView {
                own,
                father,
                children,
                modulus,
            })
        } else {
            None
        }
    }

    /// The node's own registers.
    pub(crate) fn own(&self) -> WaveRegs
        ensures { result ≡ self.now.own }
    {
        self.own
    }

    /// What the node's father register names.
    pub(crate) fn father(&self) -> FatherSeen
        ensures { result ≡ self.now.father }
    {
        self.father
    }

    /// The number modulo which sessions are counted.
    pub(crate) fn modulus(&self) -> Modulus
        ensures { result ≡ self.now.modulus }
    {
        self.modulus
    }

    /// The children's ids and registers, by strictly ascending id.
    pub(crate) fn children(&self) -> &[(u32, WaveRegs)]
        ensures value { result.now ≡ self.now.children }
        ensures ascending { IsStrictlyIncreasing (ids_of self.now.children) }
    {
        self.children
    }
}
