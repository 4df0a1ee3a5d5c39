// Seats.

ghost use Rattle.std.specs.Prelude.{◌≡◌, [], Contains, length};
ghost use Rattle.node_threads.specs.Seats.{empty_seat};

use crate::round::Round;
use history::Receipt;
use std::alloc::Global;
use std::marker::Model;
use std::sync::ledger::Share;

/// A node's place in one sharing: what its thread was told of the entries that it made, and its share of
/// the count of all entries.
#[derive(Drop)]
pub struct Seat<L: Round> {
    pub(crate) node: u32,
    pub(crate) share: Share<L>,
    pub(crate) receipts: Vec<Receipt>,
}

impl<L: Round> Model for Seat<L> {
    ghost use Rattle.std.specs.Prelude.{◌≡◌, Contains, length};
    ghost use Rattle.node_threads.specs.Seats.{SeatView};

    ghost Value = { SeatView };

    ghost view = { λ s. record { node = s.node; receipts = s.receipts.items; amount = s.share.amount } };

    // One part of the ledger, and a unit for each receipt; and the node is one of the round's.
    ghost invariant = { λ s. (s.share.parts ≡ 1) × (s.share.amount ≡ length s.receipts.items)
        × Contains L.nodes s.node };
}

impl<L: Round> Seat<L> {
    // The seat of the node, with its part of the ledger.
    pub(crate) fn new(alloc: Global, node: u32, share: Share<L>) -> Seat<L>
        requires node { Contains L.nodes node }
        requires part { share.parts ≡ 1 }
        requires nothing { share.amount ≡ 0 }
        ensures { result ≡ empty_seat node }
    {
        Seat {
            node,
            share,
            receipts: Vec::new(alloc),
        }
    }

    /// The identifier of its node.
    pub fn node(&self) -> u32
        ensures { result ≡ self.now.node }
    {
        self.node
    }

    /// Its node is one of the round's.
    pub fn lemma_is_node(&self)
        ensures { Contains L.nodes self.now.node }
    {
        let _ = &self.node;
    }

    /// What it was told, in turn. Its share has a unit for each.
    pub fn receipts(&self) -> &[Receipt]
        ensures value { result.now ≡ self.now.receipts }
        ensures counted { self.now.amount ≡ length self.now.receipts }
    {
        &self.receipts
    }
}
