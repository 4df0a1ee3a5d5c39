// A step of a drawn run.

ghost use Rattle.std.specs.Prelude.{◌≡◌, ◌<◌, IfOk, OnErr, OnOk};
ghost use Rattle.scheduler.specs.Driven.{after_event, after_fault, drawn_by, drawn_step, event_step, fault_step};

use crate::drawn::drawn_event;
use app_interface::Application;
use fault_inject::{Fault, draw_fault};
use history::{Book, BookRefusal, DisturbRefusal};
use rand_core::utils::NextWord;
use rand_pcg::Lcg64Xsh32;
use reset_machine::Event;
use std::alloc::{AllocError, Global};

/// Draws a fault in so many of a thousand cases, and else an event, and does it. What is refused changes nothing.
/// If an allocation fails the book stays as it was.
pub fn drawn_step<P: Application>(
    alloc: Global,
    book: &mut Book<P>,
    faults: u32,
    random: &mut Lcg64Xsh32,
) -> Result<(), AllocError>
    ensures ok { OnOk result
        ((book.new, random.new) ≡ drawn_step P.app P.from_text faults book.old random.old) }
    ensures kept { OnErr result (book.new ≡ book.old) }
{
    if random.next_word() % 1000 < faults {
        fault_step(alloc, book, random)
    } else {
        event_step(alloc, book, random)
    }
}

// Draws a fault and does it.
fn fault_step<P: Application>(
    alloc: Global,
    book: &mut Book<P>,
    random: &mut Lcg64Xsh32,
) -> Result<(), AllocError>
    ensures ok { OnOk result ((book.new, random.new) ≡ fault_step P.app P.from_text book.old random.old) }
    ensures kept { OnErr result (book.new ≡ book.old) }
{
    let fault = draw_fault(random, book.config());
    disturb(alloc, book, fault)
}

// Does the fault, unless it is refused.
fn disturb<P: Application>(
    alloc: Global,
    book: &mut Book<P>,
    fault: Fault,
) -> Result<(), AllocError>
    ensures ok { OnOk result (book.new ≡ after_fault P.app P.from_text book.old fault) }
    ensures kept { OnErr result (book.new ≡ book.old) }
{
    match book.disturb(alloc, fault) {
        Ok(_) => Ok(()),
        Err((DisturbRefusal::NoMemory, _)) => Err(AllocError),
        Err(_) => Ok(()),
    }
}

// Draws an event and does it.
fn event_step<P: Application>(
    alloc: Global,
    book: &mut Book<P>,
    random: &mut Lcg64Xsh32,
) -> Result<(), AllocError>
    ensures ok { OnOk result ((book.new, random.new) ≡ event_step P.app book.old random.old) }
    ensures kept { OnErr result (book.new ≡ book.old) }
{
    let for_node = random.next_word();
    let for_event = random.next_word();
    match drawn_by(alloc, book, for_node, for_event)? {
        Some(event) => happen(alloc, book, event),
        None => Ok(()),
    }
}

// Does the event, unless it is refused.
fn happen<P: Application>(alloc: Global, book: &mut Book<P>, event: Event) -> Result<(), AllocError>
    ensures ok { OnOk result (book.new ≡ after_event P.app book.old (Some event)) }
    ensures kept { OnErr result (book.new ≡ book.old) }
{
    match book.step(alloc, event) {
        Ok(_) => Ok(()),
        Err(BookRefusal::NoMemory) => Err(AllocError),
        Err(_) => Ok(()),
    }
}

// The event that two words draw: the first its node, the second which of those that are enabled there.
fn drawn_by<P: Application>(
    alloc: Global,
    book: &mut Book<P>,
    for_node: u32,
    for_event: u32,
) -> Result<Option<Event>, AllocError>
    ensures drawn { IfOk result (λ event. event ≡ drawn_by P.app book.old.config for_node for_event) }
    ensures kept { book.new ≡ book.old }
{
    let ready = book.ready(alloc)?;
    drawn_event(alloc, book.config(), &ready, for_node, for_event)
}
