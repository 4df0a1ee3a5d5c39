// What an event would do at the node of a view, made outside of the configuration.

ghost use Rattle.std.specs.Prelude.{◌≡◌, ◌≢◌, IfErr, IfOk, Err, Ok};
ghost use Rattle.reset_model.specs.Planned.{planned};

use crate::decide::decided;
use crate::event::Event;
use crate::node_view::View;
use crate::plan::Effect;
use crate::step::{Reply, StepRefusal};
use app_interface::Application;
use std::alloc::Global;
use std::marker::Model;

/// What an event would do at the node of a view. It is made from the view alone, and
/// `Config::put_plan` does it where the node still sees the same.
#[derive(Drop)]
pub struct Plan<P: Application> {
    view: View<P>,
    event: Event,
    effect: Effect<P::Local>,
    reply: Reply,
}

impl<P: Application> Model for Plan<P> {
    ghost use Rattle.reset_model.specs.Planned.{IsPlan, NodePlan};

    ghost Value = { NodePlan P.Local };

    ghost view = { λ p. record { view = p.view; event = p.event; effect = p.effect; reply = p.reply } };

    ghost invariant = { λ p. IsPlan P.app
        (record { view = p.view; event = p.event; effect = p.effect; reply = p.reply }) };
}

impl<P: Application> View<P> {
    /// What the event would do at the view's node, with its reply: what `Config::step` would do in each
    /// configuration in which the node sees this. Or the first of that step's refusals; an event of
    /// another node is a `StrangeNode`.
    pub fn plan(&self, alloc: Global, event: Event) -> Result<Plan<P>, StepRefusal>
        ensures ok { IfOk result (λ plan. (plan.view ≡ self.now) × (plan.event ≡ event)) }
        ensures decided { IfOk result (λ plan. planned P.app self.now event ≡ Ok (plan.effect, plan.reply)) }
        ensures err { IfErr result (λ f. f ≢ StepRefusal.NoMemory → planned P.app self.now event ≡ Err f) }
    {
        let (effect, reply) = decided(alloc, self, event)?;
        let view = self.copy(alloc)?;
        Ok(Plan {
            view,
            event,
            effect,
            reply,
        })
    }

    /// The same of a view that isn't used any more: it isn't copied, and comes back with a refusal.
    pub fn into_plan(self, alloc: Global, event: Event) -> Result<Plan<P>, (StepRefusal, View<P>)>
        ensures ok { IfOk result (λ plan. (plan.view ≡ self) × (plan.event ≡ event)) }
        ensures decided { IfOk result (λ plan. planned P.app self event ≡ Ok (plan.effect, plan.reply)) }
        ensures err { IfErr result (λ e. e.0 ≢ StepRefusal.NoMemory → planned P.app self event ≡ Err e.0) }
        ensures returned { IfErr result (λ e. e.1 ≡ self) }
    {
        match decided(alloc, &self, event) {
            Ok((effect, reply)) => Ok(Plan {
                view: self,
                event,
                effect,
                reply,
            }),
            Err(refusal) => Err((refusal, self)),
        }
    }
}

impl<P: Application> Plan<P> {
    /// The plan of an event, of which these are what it does at the view's node and what it replies.
    pub fn new(view: View<P>, event: Event, effect: Effect<P::Local>, reply: Reply) -> Plan<P>
        requires { planned P.app view event ≡ Ok (effect, reply) }
        ensures { result ≡ record { view = view; event = event; effect = effect; reply = reply } }
    {
        Plan {
            view,
            event,
            effect,
            reply,
        }
    }

    /// The event.
    pub fn event(&self) -> Event
        ensures { result ≡ self.now.event }
    {
        self.event
    }

    /// What the step replies.
    pub fn reply(&self) -> Reply
        ensures { result ≡ self.now.reply }
    {
        self.reply
    }

    /// The view that it was made on.
    pub fn seen_view(&self) -> &View<P>
        ensures { result.now ≡ self.now.view }
    {
        &self.view
    }

    /// The view that it was made on, and what it does at the view's node.
    pub fn into_parts(self) -> (View<P>, Effect<P::Local>)
        ensures view { result.0 ≡ self.view }
        ensures effect { planned P.app self.view self.event ≡ Ok (result.1, self.reply) }
    {
        (self.view, self.effect)
    }
}
