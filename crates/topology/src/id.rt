ghost use Rattle.std.specs.Prelude.{◌≡◌, ℕ, ◌<◌, ◌↔◌, IsSome, IfSome};

use std::marker::Model;

/// The identifier of a node: a number from 1 to 65535.
#[derive(Clone, Copy, Debug, PartialEq, Eq, PartialOrd, Ord, Hash)]
pub struct NodeId {
    number: u32,
}

impl Model for NodeId {
    ghost use Rattle.std.specs.Prelude.{ℕ};
    ghost use Rattle.topology.specs.Id.{IsId};

    ghost Value = { ℕ };

    ghost view = { λ id. id.number };

    ghost invariant = { λ id. IsId id.number };

    ghost inverse = { λ n. record { number = n } };
}

impl NodeId {
    ghost use Rattle.topology.specs.Id.{IsId};

    /// The identifier with this number. None outside 1 to 65535.
    pub fn new(number: u32) -> Option<Self>
        ensures valid { IsSome result ↔ IsId number }
        ensures value { IfSome result (λ id. id ≡ number) }
    {
        if number >= 1 && number <= 65535 {
            Some(NodeId { number })
        } else {
            None
        }
    }

    /// The number, from 1 to 65535.
    pub fn get(self) -> u32
        ensures number { result ≡ self }
        ensures valid { IsId result }
    {
        self.number
    }
}
