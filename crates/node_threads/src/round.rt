// The name of one sharing.

ghost use Rattle.std.specs.Prelude.{ℕ, List, [], length, ◌≡◌, ◌+◌};
ghost use Rattle.history.specs.Book.{BookView};
ghost use Rattle.node_threads.specs.NoBook.{no_book};

use std::marker::{Brand, PhantomData};
use std::sync::ledger::Ledger;

/// Names one sharing of a book: the nodes that have a seat in it. It has no functions. A [`Seat`](crate::Seat) fits its
/// own [`Shared`](crate::Shared) alone, since both are of one name.
pub trait Round: Ledger {
    ghost nodes: { List ℕ };
}

/// Names also the book that was shared, as it was then, where local states are of this type.
pub trait Sharing<X>: Round {
    ghost book: { BookView X };
}

impl Round for Brand {
    ghost nodes = { [] };
}

impl<X> Sharing<X> for Brand {
    ghost book = { no_book };
}

// That the ledger is cut into one part for each seat, and a last one. It has no bytes.
#[derive(Drop)]
pub struct Cut<L: Round> {
    of: PhantomData<L>,
    ghost one_more: { L.parts ≡ length L.nodes + 1 },
}

impl<L: Round> Cut<L> {
    pub(crate) fn new() -> Cut<L>
        requires { L.parts ≡ length L.nodes + 1 }
    {
        Cut { of: PhantomData }
    }

    pub(crate) fn lemma_one_more(&self)
        ensures { L.parts ≡ length L.nodes + 1 }
    {}
}
