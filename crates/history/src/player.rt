// A configuration that entries happen to, with what they report.

ghost use Rattle.std.specs.Prelude.{◌≡◌, ◌≢◌, ℕ, ◌+◌, ◌<◌, ◌≤◌, ◌==◌, ◌^◌, ◌++◌, ◌∷◌, [], List, length};
ghost use Rattle.std.specs.Prelude.{if◌then◌else◌, OnOk, OnErr, IfOk, IfErr, MatchResult, Ok, Err, Some, None};
ghost use Rattle.std.specs.Prelude.{position as position_of};
ghost use Rattle.std.specs.Vec.{vec_len, vec_capacity};
ghost use Rattle.reset_model.specs.Configuration.{Configuration};
ghost use Rattle.reset_model.specs.Planned.{outcome_of};
ghost use Rattle.fault_inject.specs.Effects.{injected};
ghost use Rattle.reset_model.specs.View.{IsSeen};
ghost use Rattle.reset_model.specs.Sound.{IsSound};
ghost use Rattle.reset_model.specs.BySteps.{IsBySteps};
ghost use Rattle.history.specs.declared.entry.Entry.{Entry};
ghost use Rattle.history.specs.declared.entry.Entry.TheVariants.{Step, Disturbed};
ghost use Rattle.history.specs.Entries.{entered};
ghost use Rattle.history.specs.Played.{HasPlayed, IsStoppedBy, IsWithin, opened_by, told, told_of};
ghost use Rattle.history.specs.Reports.{reported};
ghost use Rattle.reset_model.specs.Steps.{event_node};

use crate::entry::{Entry, Report};
use crate::openings::Openings;
use app_interface::Application;
use fault_inject::{Fault, FaultRefusal, inject};
use reset_machine::{Config, Event, Plan, Reply, StepRefusal, View};
use std::alloc::{AllocError, Global};

// A configuration that entries happen to, and what they report.
#[derive(Drop)]
pub struct Player<P: Application> {
    pub config: Config<P>,
    pub openings: Openings,
    pub reports: Vec<Report>,
}

// Why entries are played no further.
#[derive(Clone, Copy)]
pub enum PlayFault<'e> {
    // This one isn't allowed where it stands, at this position.
    Refused { position: usize, entry: &'e Entry },
    NoMemory,
}

impl<P: Application> Player<P> {
    // Before the first entry.
    pub fn new(alloc: Global, config: Config<P>) -> Player<P>
        ensures same { result.config ≡ config }
        ensures played { HasPlayed P.app P.from_text config [] result }
    {
        Player {
            config,
            openings: Openings::new(alloc),
            reports: Vec::new(alloc),
        }
    }

    // What the entries reported.
    pub fn into_reports(self) -> Vec<Report>
        ensures { result ≡ self.reports }
    {
        let (config, reports) = self.into_parts();
        drop(config);
        reports
    }

    // What the entries left, and what they reported.
    pub fn into_parts(self) -> (Config<P>, Vec<Report>)
        ensures { result ≡ (self.config, self.reports) }
    {
        let Player {
            config,
            openings,
            reports,
        } = self;
        drop(openings);
        (config, reports)
    }

    // Does the event, which is entered at this position.
    #[inline(always)]
    pub fn enter_step(
        &mut self,
        alloc: Global,
        position: usize,
        event: Event,
    ) -> Result<Reply, StepRefusal>
        ensures outcome { MatchResult result (λ reply.
            outcome_of P.app self.old.config event ≡ Ok (self.new.config, reply))
            (λ f. f ≢ StepRefusal.NoMemory → outcome_of P.app self.old.config event ≡ Err f) }
        ensures kept { OnErr result (self.new.config ≡ self.old.config) }
        ensures played { (c : Configuration P.Local) (es : List Entry) → HasPlayed P.app P.from_text c es self.old
            → MatchResult result (λ reply. position ≡ length es + 1
            → HasPlayed P.app P.from_text c (es ++ Step event ∷ []) self.new)
            (λ f. HasPlayed P.app P.from_text c es self.new) }
        ensures lawful { IfOk result (λ reply. IsSound self.old.config
            → IsBySteps P.app P.Inv self.old.config (event ∷ []) self.new.config) }
    {
        match self.make_room() {
            Ok(()) => {}
            Err(AllocError) => return Err(StepRefusal::NoMemory),
        }
        match self.config.step(alloc, event) {
            Ok(reply) => {
                self.config.lemma_is_graph();
                self.note(position, event, reply);
                Ok(reply)
            }
            Err(refusal) => Err(refusal),
        }
    }

    // Does the fault, which is entered at this position.
    pub fn enter_fault(
        &mut self,
        alloc: Global,
        position: usize,
        fault: &Fault,
    ) -> Result<(), FaultRefusal>
        ensures outcome { MatchResult result (λ _. injected P.app P.from_text self.old.config fault.now ≡ Ok self.new.config)
            (λ f. f ≢ FaultRefusal.NoMemory → injected P.app P.from_text self.old.config fault.now ≡ Err f) }
        ensures kept { OnErr result (self.new.config ≡ self.old.config) }
        ensures played { (c : Configuration P.Local) (es : List Entry) → HasPlayed P.app P.from_text c es self.old
            → MatchResult result (λ _. position ≡ length es + 1
            → HasPlayed P.app P.from_text c (es ++ Disturbed fault.now ∷ []) self.new)
            (λ f. HasPlayed P.app P.from_text c es self.new) }
    {
        match inject(alloc, &mut self.config, fault) {
            Ok(()) => {
                self.openings.disturb(position);
                Ok(())
            }
            Err(refusal) => Err(refusal),
        }
    }

    // Plays an entry, which has this position.
    #[inline(always)]
    fn enter<'e>(
        &mut self,
        alloc: Global,
        position: usize,
        entry: &'e Entry,
    ) -> Result<(), PlayFault<'e>>
        ensures played { OnOk result ((c : Configuration P.Local) (es : List Entry)
            → HasPlayed P.app P.from_text c es self.old
            → position ≡ length es + 1 → HasPlayed P.app P.from_text c (es ++ entry.now ∷ []) self.new) }
        ensures err { IfErr result (λ f. f ≢ PlayFault.NoMemory → (f ≡ PlayFault.Refused position entry.entry)
            × (entered P.app P.from_text self.old.config entry.now ≡ None)) }
        ensures kept { OnErr result (self.new.config ≡ self.old.config) }
    {
        match entry {
            Entry::Step(event) => match self.enter_step(alloc, position, *event) {
                Ok(_) => Ok(()),
                Err(StepRefusal::NoMemory) => Err(PlayFault::NoMemory),
                Err(_) => Err(PlayFault::Refused { position, entry }),
            },
            Entry::Disturbed(fault) => match self.enter_fault(alloc, position, fault) {
                Ok(()) => Ok(()),
                Err(FaultRefusal::NoMemory) => Err(PlayFault::NoMemory),
                Err(_) => Err(PlayFault::Refused { position, entry }),
            },
        }
    }

    // Plays the entries in turn, after so many others, up to the first that isn't allowed where it stands.
    pub fn play<'e>(
        &mut self,
        alloc: Global,
        before: usize,
        entries: &'e [Entry],
    ) -> Result<(), PlayFault<'e>>
        requires { before + length entries.now < 2 ^ 64 }
        ensures played { OnOk result ((c : Configuration P.Local) (es : List Entry)
            → HasPlayed P.app P.from_text c es self.old
            → before ≡ length es → HasPlayed P.app P.from_text c (es ++ entries.now) self.new) }
        ensures err { IfErr result (λ f. (c : Configuration P.Local) (es : List Entry)
            → HasPlayed P.app P.from_text c es self.old → before ≡ length es
            → IsStoppedBy P.app P.from_text c (es ++ entries.now) self.new.config f) }
    {
        let mut position = before;
        for entry in entries {
            position += 1;
            match self.enter(alloc, position, entry) {
                Ok(()) => {}
                Err(fault) => return Err(fault),
            }
        }
        Ok(())
    }

    // Does what the plan says, where its node sees what it was made on, and enters it at this position. The view that it was
    // made on comes back.
    pub fn enter_plan(
        &mut self,
        position: usize,
        plan: Plan<P>,
    ) -> Result<(Reply, View<P>), Plan<P>>
        requires openings { length self.old.config.graph.ids ≤ length self.old.openings.positions.items }
        requires reports { vec_len self.old.reports < vec_capacity self.old.reports }
        ensures outcome { IfOk result (λ done.
            outcome_of P.app self.old.config plan.event ≡ Ok (self.new.config, done.0)) }
        ensures reply { IfOk result (λ done. done.0 ≡ plan.reply) }
        ensures view { IfOk result (λ done. done.1 ≡ plan.view) }
        ensures seen { OnOk result (IsSeen P.app self.old.config plan.view) }
        ensures err { IfErr result (λ back. (back ≡ plan) × (IsSeen P.app self.old.config plan.view → ⊥)) }
        ensures kept { OnErr result (self.new ≡ self.old) }
        ensures played { OnOk result ((c : Configuration P.Local) (es : List Entry)
            → HasPlayed P.app P.from_text c es self.old
            → position ≡ length es + 1 → HasPlayed P.app P.from_text c (es ++ Step plan.event ∷ []) self.new) }
        ensures lawful { IfOk result (λ reply. IsSound self.old.config
            → IsBySteps P.app P.Inv self.old.config (plan.event ∷ []) self.new.config) }
    {
        let event = plan.event();
        match self.config.carry_out(plan) {
            Ok((reply, view)) => {
                self.config.lemma_is_graph();
                self.note(position, event, reply);
                Ok((reply, view))
            }
            Err(plan) => Err(plan),
        }
    }

    // Makes room for what an entry reports.
    #[inline(always)]
    pub fn make_room(&mut self) -> Result<(), AllocError>
        ensures same { self.new.config ≡ self.old.config }
        ensures openings { OnOk result (length self.old.config.graph.ids ≤ length self.new.openings.positions.items) }
        ensures reports { OnOk result (vec_len self.new.reports < vec_capacity self.new.reports) }
        ensures played { (c : Configuration P.Local) (es : List Entry) → HasPlayed P.app P.from_text c es self.old
            → HasPlayed P.app P.from_text c es self.new }
    {
        self.openings.make_room(self.config.topology().len())?;
        self.reports.reserve(1)
    }

    // Keeps that an event was answered so, at this position.
    #[inline(always)]
    fn note(&mut self, position: usize, event: Event, reply: Reply)
        requires openings { length self.old.config.graph.ids ≤ length self.old.openings.positions.items }
        requires reports { vec_len self.old.reports < vec_capacity self.old.reports }
        ensures same { self.new.config ≡ self.old.config }
        ensures reports { self.new.reports.items ≡ self.old.reports.items
            ++ reported reply (told_of self.old.openings self.old.config.graph.ids (event_node event)) position }
        ensures openings { (n i k : ℕ) → IsWithin self.old.openings n → n < position
            → position_of (λ j. j == i) self.old.config.graph.ids ≡ Some k
            → told self.new.openings k ≡ opened_by event i position (told self.old.openings k) }
        ensures within { (n : ℕ) → IsWithin self.old.openings n → n ≤ position → IsWithin self.new.openings position }
    {
        self.report(position, event, reply);
        match event {
            Event::Open { at } => self.open(position, at),
            _ => {}
        }
    }

    // Keeps the report of a reply.
    #[inline(always)]
    fn report(&mut self, position: usize, event: Event, reply: Reply)
        requires { vec_len self.old.reports < vec_capacity self.old.reports }
        ensures same { self.new.config ≡ self.old.config }
        ensures openings { self.new.openings ≡ self.old.openings }
        ensures reports { self.new.reports.items ≡ self.old.reports.items
            ++ reported reply (told_of self.old.openings self.old.config.graph.ids (event_node event)) position }
    {
        match reply {
            Reply::Applied => {}
            Reply::Complete(number) => {
                let opened = self.latest(event.node());
                self.reports.push_reserved(Report {
                    number,
                    opened,
                    finished: position,
                });
            }
        }
    }

    // The latest opening at the node with this identifier.
    fn latest(&self, at: u32) -> Option<usize>
        ensures { result ≡ told_of self.now.openings self.now.config.graph.ids at }
    {
        match self.config.topology().index_of(at) {
            Some(index) => self.openings.latest(index),
            None => None,
        }
    }

    // Keeps that the node with this identifier opened a session at this position.
    fn open(&mut self, position: usize, at: u32)
        requires { length self.old.config.graph.ids ≤ length self.old.openings.positions.items }
        ensures same { self.new.config ≡ self.old.config }
        ensures reports { self.new.reports ≡ self.old.reports }
        ensures openings { (n i k : ℕ) → IsWithin self.old.openings n → n < position
            → position_of (λ j. j == i) self.old.config.graph.ids ≡ Some k
            → told self.new.openings k ≡ (if at == i then Some position else told self.old.openings k) }
        ensures within { (n : ℕ) → IsWithin self.old.openings n → n ≤ position → IsWithin self.new.openings position }
    {
        match self.config.topology().index_of(at) {
            Some(index) => self.openings.open(index, position),
            None => {}
        }
    }
}
