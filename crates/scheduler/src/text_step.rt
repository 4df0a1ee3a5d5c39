// A step of a drawn run of which no book is kept.

ghost use Rattle.std.specs.Prelude.{◌≡◌, IfOk, OnOk};
ghost use Rattle.scheduler.specs.Driven.{drawn_by};
ghost use Rattle.scheduler.specs.Told.{IsAfterEvent, IsAfterEventStep, IsAfterFault, IsAfterStep};

use crate::drawn::drawn_event;
use crate::history_text::DrivenHistory;
use app_interface::Application;
use fault_inject::{Fault, FaultRefusal, draw_fault, inject};
use history::{lemma_fault_has_line, lemma_step_has_line};
use rand_core::utils::NextWord;
use rand_pcg::Lcg64Xsh32;
use reset_machine::{Config, Event, StepRefusal};
use std::alloc::{AllocError, Global};

/// Draws a fault in so many of a thousand cases, and else an event, does it, and writes its line. What is refused
/// changes nothing.
pub fn told_step<P: Application>(
    alloc: Global,
    config: &mut Config<P>,
    told: &mut DrivenHistory,
    faults: u32,
    random: &mut Lcg64Xsh32,
) -> Result<(), AllocError>
    ensures { OnOk result (IsAfterStep P.app P.from_text faults config.old told.old random.old config.new told.new random.new) }
{
    if random.next_word() % 1000 < faults {
        let fault = draw_fault(random, config);
        disturb(alloc, config, told, &fault)
    } else {
        event_step(alloc, config, told, random)
    }
}

// Does the fault, unless it is refused, and writes its line.
fn disturb<P: Application>(
    alloc: Global,
    config: &mut Config<P>,
    told: &mut DrivenHistory,
    fault: &Fault,
) -> Result<(), AllocError>
    ensures { OnOk result (IsAfterFault P.app P.from_text fault.now config.old told.old config.new told.new) }
{
    if told.is_full() {
        return Ok(());
    }
    match inject(alloc, config, fault) {
        Ok(()) => {
            config.lemma_is_graph();
            lemma_fault_has_line::<P>(fault);
            told.enter_fault(fault)
        }
        Err(FaultRefusal::NoMemory) => Err(AllocError),
        Err(_) => Ok(()),
    }
}

// Draws an event, does it, and writes its line.
fn event_step<P: Application>(
    alloc: Global,
    config: &mut Config<P>,
    told: &mut DrivenHistory,
    random: &mut Lcg64Xsh32,
) -> Result<(), AllocError>
    ensures { OnOk result (IsAfterEventStep P.app P.from_text config.old told.old random.old config.new told.new random.new) }
{
    let for_node = random.next_word();
    let for_event = random.next_word();
    match drawn_by(alloc, config, for_node, for_event)? {
        Some(event) => happen(alloc, config, told, event),
        None => Ok(()),
    }
}

// The event that two words draw: the first its node, the second which of those that are enabled there.
fn drawn_by<P: Application>(
    alloc: Global,
    config: &mut Config<P>,
    for_node: u32,
    for_event: u32,
) -> Result<Option<Event>, AllocError>
    ensures drawn { IfOk result (λ event. event ≡ drawn_by P.app config.old for_node for_event) }
    ensures kept { config.new ≡ config.old }
{
    let ready = config.ready(alloc)?;
    drawn_event(alloc, config, &ready, for_node, for_event)
}

// Does the event, unless it is refused, and writes its line.
fn happen<P: Application>(
    alloc: Global,
    config: &mut Config<P>,
    told: &mut DrivenHistory,
    event: Event,
) -> Result<(), AllocError>
    ensures { OnOk result (IsAfterEvent P.app P.from_text event config.old told.old config.new told.new) }
{
    if told.is_full() {
        return Ok(());
    }
    match config.step(alloc, event) {
        Ok(reply) => {
            config.lemma_is_graph();
            lemma_step_has_line(event);
            told.enter_event(event, reply)
        }
        Err(StepRefusal::NoMemory) => Err(AllocError),
        Err(_) => Ok(()),
    }
}
