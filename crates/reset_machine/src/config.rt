// Configurations, and what they do.

mod puts;
mod registers;

ghost use Rattle.std.specs.Prelude.{◌≡◌, ◌≢◌, ◌↔◌, IsTrue, ◌<◌, true, ◌==◌, position, Some, IfOk, IfErr, IfSome, false};
ghost use Rattle.std.specs.Prelude.{length, slice_index, ◌∷◌, []};
ghost use Rattle.std.specs.Prelude.{IfNone, OnOk, OnErr, MatchResult, Ok, Err};
ghost use Rattle.topology.specs.Graph.{IsGraph, IsNode};
ghost use Rattle.reset_model.specs.Configuration.{IsShaped};
ghost use Rattle.reset_model.specs.Outcome.{after_fired, fired_reply};
ghost use Rattle.reset_model.specs.declared.plan.Fired.TheVariants.{Wave};

use crate::action::acted;
use crate::commands::{finish_fired, join_fired, open_fired, relay_fired, request_fired};
use crate::enabled::{Enabled, enabled_at};
use crate::node_view::{is_of, read_view};
use crate::nodes::Nodes;
use crate::place::Place;
use crate::plan::event_fired;
use crate::ready::{ready_ids, settle_all};
use crate::ready_set::{ReadySet, doubt_around};
use app_interface::Application;
use reset_model::plan::{Effect, Fired};
use reset_model::{
    Arguments, Done, Event, Near, Plan, Reply, StepRefusal, View, reply_to, runs_are_steps,
};
use std::alloc::{AllocError, AllocFailed, Global};
use std::marker::Model;
use topology::Topology;
use tree_layer::TreeRegs;
use wave_layer::{Modulus, WaveMove, WaveRegs};

/// A configuration of the service: a topology, the number modulo which sessions are counted, and of each
/// node its tree registers, its wave registers, and the local state and the declared start state of the
/// application `P`.
#[derive(Drop)]
pub struct Config<P: Application> {
    nodes: Nodes<P>,
    // Which nodes have something to do, as far as it is known: nothing is before someone asks. A write puts its node
    // and the neighbours into doubt, and the next one who asks tests those alone.
    known: Option<ReadySet>,
}

impl<P: Application> Model for Config<P> {
    ghost use Rattle.reset_model.specs.Configuration.{Configuration};

    ghost Value = { Configuration P.Local };

    ghost use Rattle.std.specs.Coded.{codes};
    ghost use Rattle.topology.specs.Graph.{graph_code};

    ghost coded = { Prim.hlevel (codes, graph_code) };

    // A contract doesn't see what is known of the nodes: it is true of the configuration.
    ghost view = { λ c. c.nodes };

    ghost use Rattle.std.specs.Prelude.{IfSome};
    ghost use Rattle.reset_machine.specs.Known.{IsKnown};

    ghost invariant = { λ c. IfSome c.known (IsKnown P.app c.nodes) };
}

impl<P: Application> Config<P> {
    ghost use Rattle.reset_model.specs.Configuration.{tree_of, wave_of};
    ghost use Rattle.reset_model.specs.Configuration.{with_local, with_tree};
    ghost use Rattle.reset_machine.specs.Commands.{IsFired};
    ghost use Rattle.reset_machine.specs.Enabled.{enabled_rows, ready_of};
    ghost use Rattle.reset_model.specs.MachineSteps.{IsStep, IsRefused};
    ghost use Rattle.reset_model.specs.Runs.{IsDone, IsRun};
    ghost use Rattle.reset_model.specs.Steps.{is_of_a_wave, reply_of};
    ghost use Rattle.reset_model.specs.Outcome.{IsBoot, act_outcome, row_outcome};
    ghost use Rattle.reset_model.specs.Planned.{after_effect, outcome_of};
    ghost use Rattle.reset_model.specs.View.{IsSeen, view_of};
    ghost use Rattle.reset_model.specs.Sound.{IsSound};
    ghost use Rattle.reset_model.specs.Completion.{applied};
    ghost use Rattle.reset_model.specs.BySteps.{IsBySteps};
    ghost use Rattle.reset_model.specs.WavePicture.{WavePicture};
    ghost use Rattle.tree_layer.specs.TreePicture.{TreePicture};

    /// The configuration in which each node has its place in the tree of shortest ways to the
    /// greatest id of its component, and no reset has begun: every node is normal, in session 0, and has its declared
    /// start state. Sessions are counted modulo this number from then on. If an allocation fails the
    /// topology comes back.
    pub fn boot(
        alloc: Global,
        topology: Topology,
        modulus: Modulus,
    ) -> Result<Config<P>, AllocFailed<Topology>>
        ensures ok { IfOk result (IsBoot P.app topology modulus) }

        // Of it both pictures hold, and so do both predicates everywhere.
        ensures tree_picture { IfOk result (λ c. TreePicture c.graph (tree_of c)) }
        ensures wave_picture { IfOk result (λ c. WavePicture c.graph c.modulus (tree_of c) (wave_of c)) }
        ensures sound { IfOk result IsSound }
        ensures value_returned { IfErr result (λ e. e.value ≡ topology) }
    {
        topology.lemma_is_graph();
        let nodes = Nodes::boot(alloc, topology, modulus)?;
        Ok(Config { nodes, known: None })
    }

    /// Does what the event says at its node, or names the first refusal. A refused event changes
    /// nothing. It reads the node and its neighbours, and writes that node alone.
    #[inline(always)]
    pub fn step(&mut self, alloc: Global, event: Event) -> Result<Reply, StepRefusal>
        // It is a step, with its reply.
        ensures ok { IfOk result (λ reply. IsStep P.app self.old event self.new) }
        ensures reply { IfOk result (λ reply. reply ≡ reply_of (tree_of self.old) (wave_of self.old) event) }

        // Or it is none, for the first of the reasons.
        ensures err { IfErr result (λ f. f ≢ StepRefusal.NoMemory → IsRefused P.app self.old event f) }
        ensures kept { OnErr result (self.new ≡ self.old) }

        // From a sound configuration the headline holds of it.
        ensures lawful { IfOk result
            (λ reply. IsSound self.old → IsBySteps P.app P.Inv self.old (event ∷ []) self.new) }

        // The same as a function.
        ensures outcome { MatchResult result (λ reply. outcome_of P.app self.old event ≡ Ok (self.new, reply))
            (λ f. f ≢ StepRefusal.NoMemory → outcome_of P.app self.old event ≡ Err f) }
    {
        self.lemma_is_graph();
        runs_are_steps::<P>();
        self.perform(alloc, event)
    }

    // Does what an event says. The commands of a wave have arms of their own, so that each is compiled with its rows.
    // What the call apart replies is named before it is answered: passed on as it comes, it would keep all answers in
    // memory.
    #[inline(always)]
    fn perform(&mut self, alloc: Global, event: Event) -> Result<Reply, StepRefusal>
        ensures kept { OnErr result (self.new ≡ self.old) }
        ensures outcome { MatchResult result (λ reply. outcome_of P.app self.old event ≡ Ok (self.new, reply))
            (λ f. f ≢ StepRefusal.NoMemory → outcome_of P.app self.old event ≡ Err f) }
    {
        self.lemma_is_graph();
        match event {
            Event::Request { at } => {
                let fired = request_fired(&self.nodes, at);
                self.write_fired(alloc, fired)
            }
            Event::Relay { at, child } => {
                let fired = relay_fired(&self.nodes, at, child);
                self.write_fired(alloc, fired)
            }
            Event::Open { at } => {
                let fired = open_fired(&self.nodes, at);
                self.write_fired(alloc, fired)
            }
            Event::Join { at } => {
                let fired = join_fired(&self.nodes, at);
                self.write_fired(alloc, fired)
            }
            Event::Finish { at } => {
                let fired = finish_fired(&self.nodes, at);
                self.write_fired(alloc, fired)
            }
            Event::Claim { .. }
            | Event::Follow { .. }
            | Event::Adopt { .. }
            | Event::Mend { .. }
            | Event::Act { .. } => {
                let reply = self.step_apart(alloc, event)?;
                Ok(reply)
            }
        }
    }

    // Does what an event says that is no command of a wave. It stands apart so that these, which are inlined where they
    // are called, stay short.
    #[inline(never)]
    fn step_apart(&mut self, alloc: Global, event: Event) -> Result<Reply, StepRefusal>
        requires { is_of_a_wave event ≡ false }
        ensures kept { OnErr result (self.new ≡ self.old) }
        ensures outcome { MatchResult result (λ reply. outcome_of P.app self.old event ≡ Ok (self.new, reply))
            (λ f. f ≢ StepRefusal.NoMemory → outcome_of P.app self.old event ≡ Err f) }
    {
        self.lemma_is_graph();
        match event {
            Event::Act { at, case, with } => self.act(alloc, at, Arguments { case, with }),
            _ => self.fire(alloc, event),
        }
    }

    // Writes what a command of a wave does, if it does something.
    #[inline(always)]
    fn write_fired(
        &mut self,
        alloc: Global,
        fired: Result<(usize, WaveMove), StepRefusal>,
    ) -> Result<Reply, StepRefusal>
        requires { IfOk fired (λ p. p.0 < length self.old.graph.ids) }
        ensures kept { OnErr result (self.new ≡ self.old) }
        ensures outcome { (e : Event) → IsFired self.old e fired
            → MatchResult result (λ reply. row_outcome P.app self.old e ≡ Ok (self.new, reply))
            (λ f. f ≢ StepRefusal.NoMemory → row_outcome P.app self.old e ≡ Err f) }
    {
        match fired {
            Ok((ix, fired)) => self.write_wave(alloc, ix, fired),
            Err(refusal) => Err(refusal),
        }
    }

    // Takes a case of the application.
    fn act(&mut self, alloc: Global, at: u32, arguments: Arguments) -> Result<Reply, StepRefusal>
        ensures kept { OnErr result (self.new ≡ self.old) }
        ensures outcome { MatchResult result
            (λ reply. act_outcome P.app self.old at arguments.case arguments.with ≡ Ok (self.new, reply))
            (λ f. f ≢ StepRefusal.NoMemory → act_outcome P.app self.old at arguments.case arguments.with ≡ Err f) }
    {
        match acted(alloc, &self.nodes, at, arguments) {
            Ok((ix, after)) => {
                self.set_local(ix, after);
                Ok(Reply::Applied)
            }
            Err(refusal) => Err(refusal),
        }
    }

    // Fires a row of the tree table, or one of the wave table that mends.
    fn fire(&mut self, alloc: Global, event: Event) -> Result<Reply, StepRefusal>
        requires { is_of_a_wave event ≡ false }
        ensures kept { OnErr result (self.new ≡ self.old) }
        ensures outcome { MatchResult result (λ reply. row_outcome P.app self.old event ≡ Ok (self.new, reply))
            (λ f. f ≢ StepRefusal.NoMemory → row_outcome P.app self.old event ≡ Err f) }
    {
        match event_fired(alloc, &self.nodes, event) {
            Ok((ix, effect)) => match effect {
                Fired::Tree(after) => {
                    self.set_tree(ix, after);
                    Ok(Reply::Applied)
                }
                Fired::Wave(fired) => self.write_wave(alloc, ix, fired),
            },
            Err(refusal) => Err(refusal),
        }
    }

    // Writes what a row of the wave table leaves at the node with this index. The start state is copied
    // before the first change, since there may be no memory for it.
    #[inline(always)]
    fn write_wave(
        &mut self,
        alloc: Global,
        ix: usize,
        fired: WaveMove,
    ) -> Result<Reply, StepRefusal>
        requires { ix < length self.old.graph.ids }
        ensures ok { let at = slice_index self.old.graph.ids ix in IfOk result
            (λ reply. (reply ≡ fired_reply (Wave fired)) × (self.new ≡ after_fired P.app self.old at (Wave fired))) }
        ensures memory { IfErr result (λ f. f ≡ StepRefusal.NoMemory) }
        ensures kept { OnErr result (self.new ≡ self.old) }
    {
        let restarted = if fired.restarts {
            match P::copy(alloc, &self.nodes.starts()[ix]) {
                Ok(start) => Some(start),
                Err(AllocError) => return Err(StepRefusal::NoMemory),
            }
        } else {
            None
        };
        self.set_wave(ix, fired.regs, restarted);
        Ok(reply_to(fired))
    }

    // Puts tree registers at the node with this index. As with each write, nothing is known of the node
    // and of its neighbours from now on.
    fn set_tree(&mut self, index: usize, regs: TreeRegs)
        requires { index < length self.old.graph.ids }
        ensures { self.new ≡ with_tree self.old (slice_index self.old.graph.ids index) regs }
    {
        self.nodes.lemma_is_graph();
        doubt_around(&mut self.known, self.nodes.topology(), index);
        self.nodes.set_tree(index, regs);
    }

    // Puts wave registers at the node with this index, and the local state that it restarts with, if it does.
    #[inline(always)]
    fn set_wave(&mut self, index: usize, regs: WaveRegs, restarted: Option<P::Local>)
        requires { index < length self.old.graph.ids }
        ensures { self.new ≡ after_effect self.old (slice_index self.old.graph.ids index) (Effect.Wave regs restarted) }
    {
        self.nodes.lemma_is_graph();
        doubt_around(&mut self.known, self.nodes.topology(), index);
        if let Some(local) = restarted {
            self.nodes.set_local(index, local);
        }
        self.nodes.set_wave(index, regs);
    }

    // Puts a local state at the node with this index.
    fn set_local(&mut self, index: usize, local: P::Local)
        requires { index < length self.old.graph.ids }
        ensures { self.new ≡ with_local self.old (slice_index self.old.graph.ids index) local }
    {
        self.nodes.lemma_is_graph();
        doubt_around(&mut self.known, self.nodes.topology(), index);
        self.nodes.set_local(index, local);
    }

    /// Its topology is a graph, its sessions are counted modulo a number from 2 to 4294967296, and
    /// each node has its registers and its local state.
    pub fn lemma_is_graph(&self)
        ensures graph { IsGraph self.now.graph }
        ensures shaped { IsShaped self.now }
    {
        self.nodes.lemma_is_graph();
    }

    /// Does what the events say, in turn, and returns what came of each. A refused event changes nothing,
    /// and the next one follows it. Where there is no memory for that nothing is done.
    pub fn run(&mut self, alloc: Global, events: &[Event]) -> Result<Vec<Done>, AllocError>
        ensures ok { IfOk result (λ done. IsRun P.app self.old events.now done.items self.new) }
        ensures kept { OnErr result (self.new ≡ self.old) }

        // From a sound configuration what was applied are steps, of which the headline holds.
        ensures lawful { IfOk result
            (λ done. IsSound self.old
            → IsBySteps P.app P.Inv self.old (applied events.now done.items) self.new) }
    {
        self.lemma_is_graph();
        runs_are_steps::<P>();
        self.run_all(alloc, events)
    }

    // Does what the events say, in turn.
    fn run_all(&mut self, alloc: Global, events: &[Event]) -> Result<Vec<Done>, AllocError>
        ensures ok { IfOk result (λ done. IsRun P.app self.old events.now done.items self.new) }
        ensures sound { IsSound self.old → IsSound self.new }
        ensures kept { OnErr result (self.new ≡ self.old) }
    {
        let mut done = Vec::with_capacity(alloc, events.len())?;
        for event in events {
            done.push(self.attempt(alloc, *event)).unwrap();
        }
        Ok(done)
    }

    // Does what the event says, and returns what came of it.
    fn attempt(&mut self, alloc: Global, event: Event) -> Done
        ensures done { IsDone P.app self.old event result self.new }
        ensures sound { IsSound self.old → IsSound self.new }
    {
        match self.step(alloc, event) {
            Ok(reply) => Done::Did(reply),
            Err(refusal) => Done::Refused(refusal),
        }
    }

    /// A configuration that equals this one.
    pub fn copy(&self, alloc: Global) -> Result<Config<P>, AllocError>
        ensures { IfOk result (λ copy. copy ≡ self.now) }
    {
        let nodes = self.nodes.copy(alloc)?;
        Ok(Config { nodes, known: None })
    }

    /// What the node with this identifier sees now, or a refusal: `StrangeNode`, or `NoMemory`.
    pub fn view(&self, alloc: Global, at: u32) -> Result<View<P>, StepRefusal>
        ensures ok { IfOk result (λ view. IsNode self.now.graph at × (view ≡ view_of P.app self.now at)) }
        ensures err { IfErr result
            (λ f. f ≢ StepRefusal.NoMemory → (f ≡ StepRefusal.StrangeNode) × (IsNode self.now.graph at → ⊥)) }
    {
        self.refill_view(alloc, at, Vec::new(alloc))
    }

    /// The same, in the room that a view had for its neighbours, which [`View::into_near`] gives back: so whoever looks
    /// again and again needs no memory for that. What is in it is dropped.
    pub fn refill_view(
        &self,
        alloc: Global,
        at: u32,
        room: Vec<Near<P>>,
    ) -> Result<View<P>, StepRefusal>
        ensures ok { IfOk result (λ view. IsNode self.now.graph at × (view ≡ view_of P.app self.now at)) }
        ensures err { IfErr result
            (λ f. f ≢ StepRefusal.NoMemory → (f ≡ StepRefusal.StrangeNode) × (IsNode self.now.graph at → ⊥)) }
    {
        match Place::of(&self.nodes, at) {
            Some(place) => Ok(read_view(alloc, &place, room)?),
            None => Err(StepRefusal::StrangeNode),
        }
    }

    /// Whether the view is what its node sees now.
    pub fn view_is(&self, view: &View<P>) -> bool
        ensures { IsTrue result ↔ IsSeen P.app self.now view.now }
    {
        self.index_seeing(view).is_some()
    }

    // The index of the view's node, where the view is what it sees now.
    fn index_seeing(&self, view: &View<P>) -> Option<usize>
        ensures place { IfSome result (λ ix. position (λ i. i == view.now.id) self.now.graph.ids ≡ Some ix) }
        ensures seen { IfSome result (λ _. IsSeen P.app self.now view.now) }
        ensures unseen { IfNone result (IsSeen P.app self.now view.now → ⊥) }
    {
        let place = Place::of(&self.nodes, view.id())?;
        if is_of(view, &place) {
            Some(place.index())
        } else {
            None
        }
    }

    /// Does what the plan says, where its node sees now what the plan was made on. Elsewhere the plan
    /// comes back and nothing is changed. It takes no memory.
    pub fn put_plan(&mut self, plan: Plan<P>) -> Result<Reply, Plan<P>>
        ensures ok { IfOk result (λ reply. IsStep P.app self.old plan.event self.new × (reply ≡ plan.reply)) }
        ensures seen { OnOk result (IsSeen P.app self.old plan.view) }
        ensures err { IfErr result (λ back. (back ≡ plan) × (IsSeen P.app self.old plan.view → ⊥)) }
        ensures kept { OnErr result (self.new ≡ self.old) }

        // As of a step.
        ensures lawful { IfOk result
            (λ reply. IsSound self.old → IsBySteps P.app P.Inv self.old (plan.event ∷ []) self.new) }
        ensures outcome { IfOk result (λ reply. outcome_of P.app self.old plan.event ≡ Ok (self.new, reply)) }
    {
        let (reply, _view) = self.carry_out(plan)?;
        Ok(reply)
    }

    /// The same, where the view that the plan was made on comes back, whose room the next one may have.
    pub fn carry_out(&mut self, plan: Plan<P>) -> Result<(Reply, View<P>), Plan<P>>
        ensures ok { IfOk result (λ done. IsStep P.app self.old plan.event self.new × (done.0 ≡ plan.reply)) }
        ensures view { IfOk result (λ done. done.1 ≡ plan.view) }
        ensures seen { OnOk result (IsSeen P.app self.old plan.view) }
        ensures err { IfErr result (λ back. (back ≡ plan) × (IsSeen P.app self.old plan.view → ⊥)) }
        ensures kept { OnErr result (self.new ≡ self.old) }

        // As of a step.
        ensures lawful { IfOk result
            (λ done. IsSound self.old → IsBySteps P.app P.Inv self.old (plan.event ∷ []) self.new) }
        ensures outcome { IfOk result (λ done. outcome_of P.app self.old plan.event ≡ Ok (self.new, done.0)) }
    {
        self.lemma_is_graph();
        runs_are_steps::<P>();
        let Some(ix) = self.index_seeing(plan.seen_view()) else {
            return Err(plan);
        };
        let reply = plan.reply();
        let (view, effect) = plan.into_parts();
        self.write(ix, effect);
        Ok((reply, view))
    }

    // Writes what is done at the node with this index.
    fn write(&mut self, ix: usize, effect: Effect<P::Local>)
        requires { ix < length self.old.graph.ids }
        ensures { self.new ≡ after_effect self.old (slice_index self.old.graph.ids ix) effect }
    {
        match effect {
            Effect::Tree(after) => self.set_tree(ix, after),
            Effect::Wave(after, restarted) => self.set_wave(ix, after, restarted),
            Effect::Local(after) => self.set_local(ix, after),
        }
    }

    /// The rows and cases that are enabled at the node with this identifier, or a refusal:
    /// `StrangeNode`, or `NoMemory`. A case is enabled where some choice of a neighbour is.
    pub fn enabled(&self, alloc: Global, at: u32) -> Result<Enabled, StepRefusal>
        ensures ok { IfOk result (λ rows. IsNode self.now.graph at × (rows ≡ enabled_rows P.app self.now at)) }
        ensures err { IfErr result
            (λ f. f ≢ StepRefusal.NoMemory → (f ≡ StepRefusal.StrangeNode) × (IsNode self.now.graph at → ⊥)) }
    {
        match Place::of(&self.nodes, at) {
            Some(place) => Ok(enabled_at(alloc, &place)?),
            None => Err(StepRefusal::StrangeNode),
        }
    }

    /// The identifiers of the nodes at which a case is enabled, or a row other than the request, row 1
    /// of the wave table, ascending. It changes no node.
    pub fn ready(&mut self, alloc: Global) -> Result<Vec<u32>, AllocError>
        ensures ok { IfOk result (λ ids. ids.items ≡ ready_of P.app self.old) }
        ensures kept { self.new ≡ self.old }
    {
        self.nodes.lemma_is_graph();
        if self.known.is_none() {
            self.known = Some(ReadySet::new(alloc, self.nodes.topology().len())?);
        }
        let Some(known) = &mut self.known else {
            unreachable!()
        };
        settle_all(alloc, &self.nodes, known)?;
        known.lemma_is_standing();
        ready_ids(alloc, self.nodes.topology(), known.ready())
    }
}
