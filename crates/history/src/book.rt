// Books: configurations with the entries that led to them.

ghost use Rattle.std.specs.Prelude.{◌≡◌, ◌≢◌, ◌+◌, ◌≤◌, [], length, option_map, Ok, Err, OnErr, OnOk, IfOk, IfErr};
ghost use Rattle.std.specs.Prelude.{◌<◌, ◌∷◌, ◌↔◌, take, Some, MatchResult};

use crate::entry::{Entry, Receipt, Report};
use crate::line::lemma_fault_has_line;
use crate::log::Log;
use crate::player::Player;
use crate::refusal::{
    ApplyRefusal, AtFault, BookRefusal, DisturbRefusal, fault_refused, step_refused,
};
use crate::segments::Segments;
use app_interface::Application;
use fault_inject::{Fault, inject};
use reset_machine::{Config, Event, Plan, StepRefusal, View};
use std::alloc::{AllocError, Global};
use std::marker::Model;

/// The most entries that a book may have.
pub const MAX_ENTRIES: usize = 1_000_000;

/// A configuration with the entries that led to it from its opening, and their completions.
#[derive(Drop)]
pub struct Book<P: Application> {
    player: Player<P>,
    log: Log<P>,
    limit: usize,
}

impl<P: Application> Model for Book<P> {
    ghost use Rattle.history.specs.Book.{BookView, IsKept};
    ghost use Rattle.history.specs.Segments.{entries_of};

    ghost Value = { BookView P.Local };

    ghost use Rattle.std.specs.Coded.{codes};
    ghost use Rattle.topology.specs.Graph.{graph_code};

    ghost coded = { Prim.hlevel (codes, graph_code) };

    ghost view = { λ b. record {
      opening = b.log.opening.value;
      entries = entries_of b.log.segments;
      config = b.player.config;
      limit = b.limit;
    } };

    ghost invariant = { λ b. IsKept P.app P.from_text b.player b.log b.limit };
}

impl<P: Application> Book<P> {
    ghost use Rattle.reset_model.specs.View.{IsSeen};
    ghost use Rattle.reset_model.specs.Sound.{IsSound};
    ghost use Rattle.reset_model.specs.BySteps.{IsBySteps};
    ghost use Rattle.fault_inject.specs.Effects.{injected};
    ghost use Rattle.reset_machine.specs.Enabled.{ready_of};
    ghost use Rattle.history.specs.Book.{IsBook, IsUnapplied, booked, disturbed_book, entry_at};
    ghost use Rattle.history.specs.Entries.{replayed};
    ghost use Rattle.history.specs.Reports.{reports_of};
    ghost use Rattle.history.specs.Segments.{IsSegmented, entries_of};

    /// A book without entries that opens with this configuration. It takes no memory.
    pub fn open_book(alloc: Global, config: Config<P>, limit: usize) -> Book<P>
        requires { limit ≤ 1000000 }
        ensures { result ≡ record { opening = config; entries = []; config = config; limit = limit } }
    {
        config.lemma_is_graph();
        Book {
            log: Log::new(alloc, &config),
            player: Player::new(alloc, config),
            limit,
        }
    }

    /// Does what the event says, and enters it, or names the first refusal. A refused event changes
    /// nothing.
    pub fn step(&mut self, alloc: Global, event: Event) -> Result<Receipt, BookRefusal>
        ensures outcome { MatchResult result (λ receipt. booked P.app self.old event ≡ Ok (self.new, receipt))
            (λ f. f ≢ BookRefusal.NoMemory → booked P.app self.old event ≡ Err f) }
        ensures kept { OnErr result (self.new ≡ self.old) }

        // As of a step of the configuration.
        ensures lawful { IfOk result (λ receipt. IsSound self.old.config
            → IsBySteps P.app P.Inv self.old.config (event ∷ []) self.new.config) }
    {
        let count = self.log.segments.len();
        if count >= self.limit {
            return Err(self.full_step(alloc, event));
        }
        if self.log.make_room(alloc, &self.player.config).is_err() {
            return Err(BookRefusal::NoMemory);
        }
        let position = count + 1;
        match self.player.enter_step(alloc, position, event) {
            Ok(reply) => Ok(self.log.enter(position, event, reply)),
            Err(refusal) => Err(step_refused(refusal)),
        }
    }

    // Why a full book doesn't take the event: it would be refused, or there is no room.
    fn full_step(&self, alloc: Global, event: Event) -> BookRefusal
        requires { self.now.limit ≤ length self.now.entries }
        ensures { result ≢ BookRefusal.NoMemory → booked P.app self.now event ≡ Err result }
    {
        let Ok(mut copy) = self.player.config.copy(alloc) else {
            return BookRefusal::NoMemory;
        };
        let stepped = copy.step(alloc, event);
        drop(copy);
        match stepped {
            Ok(_) => BookRefusal::BookFull,
            Err(refusal) => step_refused(refusal),
        }
    }

    /// Does the fault, and enters it, or names the first refusal and hands the fault back. A refused fault
    /// changes nothing. It returns the position of the entry.
    pub fn disturb(&mut self, alloc: Global, fault: Fault) -> Result<usize, (DisturbRefusal, Fault)>
        ensures outcome { MatchResult result (λ position.
            disturbed_book P.app P.from_text self.old fault ≡ Ok (self.new, position))
            (λ e. e.0 ≢ DisturbRefusal.NoMemory → disturbed_book P.app P.from_text self.old fault ≡ Err e.0) }
        ensures returned { IfErr result (λ e. e.1 ≡ fault) }
        ensures kept { OnErr result (self.new ≡ self.old) }
    {
        let count = self.log.segments.len();
        if count >= self.limit {
            return Err((self.full_disturb(alloc, &fault), fault));
        }
        if self.log.make_room(alloc, &self.player.config).is_err() {
            return Err((DisturbRefusal::NoMemory, fault));
        }
        let position = count + 1;
        match self.player.enter_fault(alloc, position, &fault) {
            Ok(()) => {
                lemma_fault_has_line::<P>(&fault);
                self.log.push(Entry::Disturbed(fault));
                Ok(position)
            }
            Err(refusal) => Err((fault_refused(refusal), fault)),
        }
    }

    // Why a full book doesn't take the fault: it would be refused, or there is no room.
    fn full_disturb(&self, alloc: Global, fault: &Fault) -> DisturbRefusal
        requires { self.now.limit ≤ length self.now.entries }
        ensures { result ≢ DisturbRefusal.NoMemory → disturbed_book P.app P.from_text self.now fault.now ≡ Err result }
    {
        let Ok(mut copy) = self.player.config.copy(alloc) else {
            return DisturbRefusal::NoMemory;
        };
        let injected = inject(alloc, &mut copy, fault);
        drop(copy);
        match injected {
            Ok(()) => DisturbRefusal::BookFull,
            Err(refusal) => fault_refused(refusal),
        }
    }

    /// Does what the plan says, where its node sees now what the plan was made on, and enters it, or names
    /// the first refusal and hands the plan back. A refused plan changes nothing.
    pub fn apply(
        &mut self,
        alloc: Global,
        plan: Plan<P>,
    ) -> Result<Receipt, (ApplyRefusal<P>, Plan<P>)>
        ensures ok { IfOk result (λ receipt. (booked P.app self.old plan.event ≡ Ok (self.new, receipt))
            × (receipt.reply ≡ plan.reply)) }
        ensures seen { OnOk result (IsSeen P.app self.old.config plan.view) }
        ensures err { IfErr result (λ e. IsUnapplied P.app self.old plan.view e.0) }
        ensures returned { IfErr result (λ e. e.1 ≡ plan) }
        ensures kept { OnErr result (self.new ≡ self.old) }

        // As of a step of the configuration.
        ensures lawful { IfOk result (λ receipt. IsSound self.old.config
            → IsBySteps P.app P.Inv self.old.config (plan.event ∷ []) self.new.config) }
    {
        let (receipt, _view) = self.carry_out(alloc, plan)?;
        Ok(receipt)
    }

    /// The same, where the view that the plan was made on comes back, whose room the next one may have.
    pub fn carry_out(
        &mut self,
        alloc: Global,
        plan: Plan<P>,
    ) -> Result<(Receipt, View<P>), (ApplyRefusal<P>, Plan<P>)>
        ensures ok { IfOk result (λ done. (booked P.app self.old plan.event ≡ Ok (self.new, done.0))
            × (done.0.reply ≡ plan.reply)) }
        ensures view { IfOk result (λ done. done.1 ≡ plan.view) }
        ensures seen { OnOk result (IsSeen P.app self.old.config plan.view) }
        ensures err { IfErr result (λ e. IsUnapplied P.app self.old plan.view e.0) }
        ensures returned { IfErr result (λ e. e.1 ≡ plan) }
        ensures kept { OnErr result (self.new ≡ self.old) }

        // As of a step of the configuration.
        ensures lawful { IfOk result (λ done. IsSound self.old.config
            → IsBySteps P.app P.Inv self.old.config (plan.event ∷ []) self.new.config) }
    {
        let count = self.log.segments.len();
        if count >= self.limit {
            return Err((self.full_apply(alloc, plan.seen_view()), plan));
        }
        match self.log.make_room(alloc, &self.player.config) {
            Ok(()) => {}
            Err(AllocError) => return Err((ApplyRefusal::NoMemory, plan)),
        }
        match self.player.make_room() {
            Ok(()) => {}
            Err(AllocError) => return Err((ApplyRefusal::NoMemory, plan)),
        }
        let position = count + 1;
        let event = plan.event();
        match self.player.enter_plan(position, plan) {
            Ok((reply, view)) => Ok((self.log.enter(position, event, reply), view)),
            Err(plan) => Err((self.unseen(alloc, plan.seen_view()), plan)),
        }
    }

    // Why a full book doesn't take a plan that was made on this view.
    fn full_apply(&self, alloc: Global, view: &View<P>) -> ApplyRefusal<P>
        requires { self.now.limit ≤ length self.now.entries }
        ensures { IsUnapplied P.app self.now view.now result }
    {
        if self.player.config.view_is(view) {
            ApplyRefusal::BookFull
        } else {
            self.unseen(alloc, view)
        }
    }

    // Why a plan isn't taken that was made on this view, which its node doesn't see now.
    fn unseen(&self, alloc: Global, view: &View<P>) -> ApplyRefusal<P>
        requires { IsSeen P.app self.now.config view.now → ⊥ }
        ensures { IsUnapplied P.app self.now view.now result }
    {
        match self.player.config.view(alloc, view.id()) {
            Ok(now) => ApplyRefusal::Stale(now),
            Err(StepRefusal::NoMemory) => ApplyRefusal::NoMemory,
            Err(_) => ApplyRefusal::StrangeNode,
        }
    }

    /// It opened with a graph, whose nodes have each its registers and its local state; its configuration is what its
    /// entries leave from its opening, which are within its limit, and which a history may have; and its modulus is one.
    pub fn lemma_is_book(&self)
        ensures { IsBook P.app P.from_text self.now }
    {
        self.player.config.lemma_is_graph();
    }

    /// How many entries it has.
    pub fn len(&self) -> usize
        ensures { result ≡ length self.now.entries }
    {
        self.log.segments.len()
    }

    /// How many entries it may have.
    pub fn limit(&self) -> usize
        ensures { result ≡ self.now.limit }
    {
        self.limit
    }

    // Its entries, in segments.
    pub(crate) fn segments(&self) -> &Segments
        ensures segmented { IsSegmented result.now }
        ensures same { entries_of result.now ≡ self.now.entries }
    {
        &self.log.segments
    }

    /// The entry at this position. Positions count from 1. None outside 1 to [`len`](Book::len).
    pub fn entry(&self, position: usize) -> Option<&Entry>
        ensures { option_map (λ entry. entry.now) result ≡ entry_at self.now.entries position }
    {
        match position.checked_sub(1) {
            Some(index) => self.log.segments.get(index),
            None => None,
        }
    }

    /// Its configuration.
    pub fn config(&self) -> &Config<P>
        ensures { result.now ≡ self.now.config }
    {
        &self.player.config
    }

    /// The identifiers of the nodes of its configuration that have something to do, ascending: what
    /// `Config::ready` answers. It changes nothing, even if an allocation fails.
    pub fn ready(&mut self, alloc: Global) -> Result<Vec<u32>, AllocError>
        ensures ok { IfOk result (λ ids. ids.items ≡ ready_of P.app self.old.config) }
        ensures kept { self.new ≡ self.old }
    {
        self.player.config.ready(alloc)
    }

    /// The configuration after its first entries: that of the opening at position 0, and its own at
    /// [`len`](Book::len). Fewer than 1,024 entries are played for it, from a checkpoint before the position.
    pub fn config_at(&self, alloc: Global, position: usize) -> Result<Config<P>, AtFault>
        ensures ok { IfOk result (λ config. replayed P.app P.from_text self.now.opening
            (take position self.now.entries) ≡ Some config) }
        ensures beyond { result ≡ Err AtFault.NoPosition ↔ length self.now.entries < position }
    {
        if position > self.len() {
            return Err(AtFault::NoPosition);
        }
        match self.config_after(alloc, position) {
            Ok(config) => Ok(config),
            Err(AllocError) => Err(AtFault::NoMemory),
        }
    }

    // The configuration after this many entries.
    fn config_after(&self, alloc: Global, count: usize) -> Result<Config<P>, AllocError>
        requires { count ≤ length self.now.entries }
        ensures { IfOk result (λ config. replayed P.app P.from_text self.now.opening
            (take count self.now.entries) ≡ Some config) }
    {
        if count == self.len() {
            return self.player.config.copy(alloc);
        }
        self.log.config_before(alloc, count)
    }

    /// The completions that its entries report, in turn.
    pub fn reports(&self) -> &[Report]
        ensures { result.now ≡ reports_of P.app P.from_text self.now.opening self.now.entries }
    {
        &self.player.reports
    }
}
