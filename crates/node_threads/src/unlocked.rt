// What is shared, out of the lock.

ghost use Rattle.std.specs.Prelude.{◌≡◌, ◌+◌, ◌<◌, ◌≤◌, None, length};
ghost use Rattle.node_threads.specs.Closed.{IsCounted, first_missing, receipt_count};
ghost use Rattle.node_threads.specs.Locked.{IsContinued};

use crate::attendance::Attendance;
use crate::guarded::Guarded;
use crate::locked::Locked;
use crate::round::{Cut, Round, Sharing};
use crate::seat::Seat;
use crate::sharing::Shared;
use app_interface::Application;
use history::Book;
use std::sync::ledger::{Book as Tally, Share};
use std::sync::{Condvar, Mutex};
use topology::Topology;

// What is shared, out of the lock: contracts see its book, which no other thread has.
#[derive(Drop)]
pub(crate) struct Unlocked<L: Sharing<P::Local>, P: Application> {
    pub(crate) locked: Locked<L, P>,
    pub(crate) attendance: Attendance,
    pub(crate) topology: Topology,
    pub(crate) wakeups: Vec<Condvar>,
    pub(crate) last: Share<L>,
    pub(crate) cut: Cut<L>,
    ghost last_part: { last.parts ≡ 1 },
    ghost last_empty: { last.amount ≡ 0 },
}

impl<L: Sharing<P::Local>, P: Application> Unlocked<L, P> {
    // Takes the lock away.
    pub(crate) fn new(shared: Shared<L, P>) -> Unlocked<L, P> {
        let Shared {
            guarded,
            topology,
            wakeups,
            last,
            cut,
        } = shared;
        let Guarded { locked, attendance } = guarded.into_inner();
        Unlocked {
            locked,
            attendance,
            topology,
            wakeups,
            last,
            cut,
        }
    }

    // Puts a lock on it again.
    pub(crate) fn lock(self) -> Shared<L, P> {
        let Unlocked {
            locked,
            attendance,
            topology,
            wakeups,
            last,
            cut,
        } = self;
        Shared {
            guarded: Mutex::new(Guarded { locked, attendance }),
            topology,
            wakeups,
            last,
            cut,
        }
    }

    // The book as it is.
    pub(crate) fn into_book(self) -> Book<P>
        ensures same { result ≡ self.locked.book }
        ensures continued { IsContinued P.app P.from_text L.book result }
    {
        let Unlocked {
            locked,
            attendance: _,
            topology: _,
            wakeups: _,
            last: _,
            cut: _,
        } = self;
        locked.lemma_is_locked();
        let Locked {
            book,
            mark: _,
            tally: _,
        } = locked;
        book
    }

    // Where no seat is missing, they have as many receipts as the book has entries since the mark: the ledger is cut into
    // as many parts, and its total is the number of these entries.
    pub(crate) fn audit(&mut self, seats: &mut [Seat<L>])
        ensures counted { first_missing self.old.locked.book.config.graph.nodes seats.old ≡ None
            → IsCounted L.book self.old.locked.book seats.old }
        ensures book { self.new.locked.book ≡ self.old.locked.book }
        ensures seats { seats.new ≡ seats.old }
    {
        self.cut.lemma_one_more();
        self.locked.lemma_is_locked();
        self.locked.book.config().lemma_is_graph();
        let Unlocked {
            locked,
            attendance: _,
            topology: _,
            wakeups: _,
            last,
            cut: _,
        } = self;
        let Locked {
            book: _,
            mark: _,
            tally,
        } = locked;
        audit_all(tally, last, seats);
    }
}

// Lends the shares of the seats to this one, for an audit, and takes them back.
fn audit_all<L: Round>(tally: &mut Tally<L>, all: &mut Share<L>, seats: &mut [Seat<L>])
    requires some { 0 < all.old.parts }
    requires parts { all.old.parts ≤ L.parts }
    ensures apart { all.old.parts + length seats.old ≤ L.parts }
    ensures counted { all.old.parts + length seats.old ≡ L.parts
        → all.old.amount + receipt_count seats.old ≡ tally.old.total }
    ensures total { tally.new.total ≡ tally.old.total }
    ensures share { (all.new.parts ≡ all.old.parts) × (all.new.amount ≡ all.old.amount) }
    ensures seats { seats.new ≡ seats.old }
{
    match seats.split_first_mut() {
        Some((seat, rest)) => {
            let Seat {
                node: _,
                share,
                receipts,
            } = seat;
            let count = receipts.len() as u64;
            share.give(all, 1, count);
            audit_all(tally, all, rest);
            all.give(share, 1, count);
        }
        None => tally.audit(all),
    }
}
