// Drafts of plans: a configuration with the events that led to it.

ghost use Rattle.std.specs.Prelude.{◌≡◌, ◌++◌, ◌∷◌, ◌≤◌, ◌+◌, [], Bool, None, false, true, length, IfOk, OnOk};
ghost use Rattle.reset_model.specs.Steps.{is_of_a_wave};
ghost use Rattle.reset_model.specs.declared.event.Event.{Event};
ghost use Rattle.recovery.specs.Drafts.{is_memory, is_repair};

use app_interface::Application;
use reset_machine::{Config, Event, StepRefusal};
use std::alloc::{AllocError, Global};
use std::marker::{Model, PhantomData};
use std::snapshot::Snapshot;

// Whether allocation failed.
fn is_memory(refusal: StepRefusal) -> bool
    ensures { result ≡ is_memory refusal }
{
    match refusal {
        StepRefusal::NoMemory => true,
        _ => false,
    }
}

/// Which events a draft takes. It has no functions.
pub(crate) trait Kind {
    ghost takes: { Event → Bool };
}

/// Those that repair registers.
pub(crate) struct Repairs {}

impl Kind for Repairs {
    ghost takes = { is_repair };
}

/// Those of a wave.
pub(crate) struct Resets {}

impl Kind for Resets {
    ghost takes = { is_of_a_wave };
}

/// A configuration with the events that led to it from its opening, each of which was a step and is of this kind.
#[derive(Drop)]
pub(crate) struct Draft<P: Application, K: Kind> {
    config: Config<P>,
    events: Vec<Event>,
    opening: Snapshot<Config<P>>,
    kind: PhantomData<K>,
}

impl<P: Application, K: Kind> Model for Draft<P, K> {
    ghost use Rattle.std.specs.List.{list_all};
    ghost use Rattle.std.specs.Prelude.{◌≡◌, true};
    ghost use Rattle.recovery.specs.Drafts.{DraftView, Leads};

    ghost Value = { DraftView P.Local };

    ghost use Rattle.std.specs.Coded.{codes};
    ghost use Rattle.topology.specs.Graph.{graph_code};

    ghost coded = { Prim.hlevel (codes, graph_code) };

    ghost view = { λ d. record { opening = d.opening.value; events = d.events.items; config = d.config } };

    ghost invariant = { λ d. Leads P.app d.opening.value d.events.items d.config
        × (list_all K.takes d.events.items ≡ true) };
}

impl<P: Application, K: Kind> Draft<P, K> {
    ghost use Rattle.reset_model.specs.declared.step.StepRefusal.{StepRefusal};
    ghost use Rattle.reset_model.specs.MachineSteps.{IsRefused, IsStep};
    ghost use Rattle.std.specs.List.{list_all};
    ghost use Rattle.topology.specs.Graph.{IsNode};
    ghost use Rattle.reset_model.specs.Steps.{event_node, is_act, named_node};
    ghost use Rattle.recovery.specs.Drafts.{Leads, Tried};

    /// A draft without events.
    pub fn open(alloc: Global, config: Config<P>) -> Draft<P, K>
        ensures { result ≡ record { opening = config; events = []; config = config } }
    {
        let opening = Snapshot::of(&config);
        Draft {
            config,
            events: Vec::new(alloc),
            opening,
            kind: PhantomData,
        }
    }

    /// Takes the event, if it is a step, and says whether it was.
    pub fn attempt(&mut self, alloc: Global, event: Event) -> Result<bool, AllocError>
        requires { K.takes event ≡ true }
        ensures opening { self.new.opening ≡ self.old.opening }
        ensures done { IfOk result (λ did. did ≡ true → IsStep P.app self.old.config event self.new.config
            × (self.new.events ≡ self.old.events ++ event ∷ [])) }
        ensures refused { IfOk result (λ did. did ≡ false → (self.new ≡ self.old)
            × ((f : StepRefusal) × IsRefused P.app self.old.config event f)) }
    {
        self.events.reserve(1)?;
        match self.config.step(alloc, event) {
            Ok(_) => {
                self.events.push_reserved(event);
                Ok(true)
            }
            Err(refusal) => {
                if is_memory(refusal) {
                    return Err(AllocError);
                }
                Ok(false)
            }
        }
    }

    /// Takes the event, which names no other node, if it is enabled at its node.
    pub fn take_if_enabled(&mut self, alloc: Global, event: Event) -> Result<(), AllocError>
        requires kind { K.takes event ≡ true }
        requires node { IsNode self.old.config.graph (event_node event) }
        requires alone { named_node event ≡ None }
        requires row { is_act event ≡ false }
        ensures opening { self.new.opening ≡ self.old.opening }
        ensures tried { OnOk result (Tried P.app self.old event self.new) }
        ensures count { OnOk result (length self.new.events ≤ length self.old.events + 1) }
    {
        if self.attempt(alloc, event)? {
            return Ok(());
        }
        Ok(())
    }

    /// The configuration now.
    pub fn config(&self) -> &Config<P>
        ensures { result.now ≡ self.now.config }
    {
        &self.config
    }

    /// The events so far.
    pub fn events(&self) -> &[Event]
        ensures { result.now ≡ self.now.events }
    {
        self.events.as_slice()
    }

    /// The events and the configuration to which they led.
    pub fn into_parts(self) -> (Vec<Event>, Config<P>)
        ensures leads { Leads P.app self.opening (result.0).items result.1 }
        ensures only { list_all K.takes (result.0).items ≡ true }
        ensures events { (result.0).items ≡ self.events }
        ensures config { result.1 ≡ self.config }
    {
        let Draft {
            config,
            events,
            opening,
            kind: _,
        } = self;
        drop(opening);
        (events, config)
    }
}
