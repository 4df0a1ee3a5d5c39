// What lies under the lock.

ghost use Rattle.std.specs.Prelude.{◌≡◌, ◌+◌, Ok, IfOk, IfErr, OnOk, OnErr, true, drop, length, take};
ghost use Rattle.std.specs.List.{list_all};
ghost use Rattle.std.specs.Coded.{codes};
ghost use Rattle.topology.specs.Graph.{graph_code};
ghost use Rattle.reset_model.specs.Steps.{event_node};
ghost use Rattle.reset_model.specs.View.{IsSeen, view_of};
ghost use Rattle.history.specs.Book.{booked};
ghost use Rattle.node_threads.specs.Locked.{IsContinued, IsPlanOf, IsUncommitted, IsUndone, is_step};
ghost use Rattle.node_threads.specs.Seats.{with_receipt};

use crate::refusal::{CommitRefusal, LookRefusal, SeatRefusal};
use crate::round::Sharing;
use crate::seat::Seat;
use app_interface::Application;
use history::{ApplyRefusal, Book, BookRefusal, Receipt};
use reset_machine::{Event, Near, Plan, StepRefusal, View};
use std::alloc::{AllocError, Global};
use std::sync::ledger::Book as Tally;

/// What lies under the lock: a book, its mark, and the count of the entries since. Whenever the lock is
/// got these facts hold of it.
#[derive(Drop)]
pub struct Locked<L: Sharing<P::Local>, P: Application> {
    pub(crate) book: Book<P>,
    pub(crate) mark: usize,
    pub(crate) tally: Tally<L>,
    ghost mark_is: { mark ≡ length L.book.entries },
    ghost seats: { L.book.config.graph.nodes ≡ L.nodes },
    ghost opening: { book.opening ≡ L.book.opening } by { Prim.hlevel (codes, graph_code) },
    ghost limit: { book.limit ≡ L.book.limit },
    ghost nodes: { book.config.graph.nodes ≡ L.nodes },
    ghost before: { take mark book.entries ≡ L.book.entries },
    ghost counted: { mark + tally.total ≡ length book.entries },
    ghost steps: { list_all is_step (drop mark book.entries) ≡ true },
}

impl<L: Sharing<P::Local>, P: Application> Locked<L, P> {
    /// What holds of it: its book is what steps alone have made of the one that was shared, with the round's nodes; its
    /// mark is the number of entries that were shared, and its ledger's total that of the entries since.
    pub fn lemma_is_locked(&self)
        ensures mark { self.now.mark ≡ length L.book.entries }
        ensures continued { IsContinued P.app P.from_text L.book self.now.book }
        ensures nodes { self.now.book.config.graph.nodes ≡ L.nodes }
        ensures counted { length L.book.entries + self.now.tally.total ≡ length self.now.book.entries }
    {
        self.book.lemma_is_book();
    }

    /// What the seat's node sees now, in this room for its neighbours. Its node is one of the book.
    pub fn look_in(
        &self,
        alloc: Global,
        seat: &Seat<L>,
        room: Vec<Near<P>>,
    ) -> Result<View<P>, LookRefusal>
        ensures ok { IfOk result (λ view. view ≡ view_of P.app self.now.book.config seat.now.node) }
        ensures err { IfErr result (λ f. f ≡ LookRefusal.NoMemory) }
    {
        seat.lemma_is_node();
        match self.book.config().refill_view(alloc, seat.node(), room) {
            Ok(view) => Ok(view),
            Err(StepRefusal::NoMemory) => Err(LookRefusal::NoMemory),
            Err(_) => Err(LookRefusal::StrangeNode),
        }
    }

    /// Commits the plan: the book carries it out, and the seat gets the receipt, which comes with the view that the plan was
    /// made on; or the plan comes back with the first refusal. A refused plan changes nothing.
    pub fn commit_in(
        &mut self,
        alloc: Global,
        seat: &mut Seat<L>,
        plan: Plan<P>,
    ) -> Result<(Receipt, View<P>), (CommitRefusal<P>, Plan<P>)>
        ensures ok { IfOk result (λ done. (booked P.app self.old.book plan.event ≡ Ok (self.new.book, done.0))
            × (done.0.reply ≡ plan.reply) × (seat.new ≡ with_receipt seat.old done.0)) }
        ensures yours { OnOk result (IsPlanOf seat.old.node plan × IsSeen P.app self.old.book.config plan.view) }
        ensures unit { OnOk result (self.new.tally.total ≡ self.old.tally.total + 1) }
        ensures err { IfErr result (λ e. IsUncommitted P.app self.old.book seat.old.node plan e.0 × (e.1 ≡ plan)) }
        ensures kept { OnErr result ((self.new.book ≡ self.old.book) × (self.new.tally.total ≡ self.old.tally.total)
            × (seat.new ≡ seat.old)) }
    {
        if plan.seen_view().id() != seat.node() || plan.event().node() != seat.node() {
            return Err((CommitRefusal::NotYours, plan));
        }
        match seat.receipts.reserve(1) {
            Ok(()) => {}
            Err(AllocError) => {
                return Err((CommitRefusal::Refused(ApplyRefusal::NoMemory), plan));
            }
        }
        let Locked {
            book,
            mark: _,
            tally,
        } = self;
        match book.carry_out(alloc, plan) {
            Ok((receipt, view)) => {
                tally.add(&mut seat.share, 1);
                seat.receipts.push_reserved(receipt);
                Ok((receipt, view))
            }
            Err((refusal, plan)) => Err((CommitRefusal::Refused(refusal), plan)),
        }
    }

    /// Does the event: the book's step, and the seat gets the receipt, or names the first refusal. A refused
    /// event changes nothing.
    pub fn step_in(
        &mut self,
        alloc: Global,
        seat: &mut Seat<L>,
        event: Event,
    ) -> Result<Receipt, SeatRefusal>
        ensures ok { IfOk result (λ receipt. (booked P.app self.old.book event ≡ Ok (self.new.book, receipt))
            × (seat.new ≡ with_receipt seat.old receipt)) }
        ensures yours { OnOk result (event_node event ≡ seat.old.node) }
        ensures unit { OnOk result (self.new.tally.total ≡ self.old.tally.total + 1) }
        ensures err { IfErr result (IsUndone P.app self.old.book seat.old.node event) }
        ensures kept { OnErr result ((self.new.book ≡ self.old.book) × (self.new.tally.total ≡ self.old.tally.total)
            × (seat.new ≡ seat.old)) }
    {
        if event.node() != seat.node() {
            return Err(SeatRefusal::NotYours);
        }
        match seat.receipts.reserve(1) {
            Ok(()) => {}
            Err(AllocError) => return Err(SeatRefusal::Refused(BookRefusal::NoMemory)),
        }
        let Locked {
            book,
            mark: _,
            tally,
        } = self;
        match book.step(alloc, event) {
            Ok(receipt) => {
                tally.add(&mut seat.share, 1);
                seat.receipts.push_reserved(receipt);
                Ok(receipt)
            }
            Err(refusal) => Err(SeatRefusal::Refused(refusal)),
        }
    }
}
