// The lines of what a book enters.

ghost use Rattle.std.specs.Prelude.{◌≡◌, ◌<◌, ◌^◌, Ok};
ghost use Rattle.reset_model.specs.Configuration.{Configuration};
ghost use Rattle.reset_model.specs.declared.event.Event.TheVariants.{Act};
ghost use Rattle.fault_inject.specs.Effects.{injected};
ghost use Rattle.fault_inject.specs.declared.fault.Fault.TheVariants.{SetTree, SetWave};
ghost use Rattle.history.specs.declared.entry.Entry.TheVariants.{Step, Disturbed};
ghost use Rattle.history.specs.HistoryText.{HasLine};

use app_interface::Application;
use fault_inject::Fault;
use reset_machine::Event;
use tree_layer::TreeRegs;
use wave_layer::WaveRegs;

/// A history may have the line of any event, since its numbers have 32 bits, and that of a case has 8.
pub fn lemma_step_has_line(event: Event)
    ensures { HasLine (Step event) }
{
    match event {
        Event::Claim { at } => lemma_is_number(at),
        Event::Follow { at } => lemma_is_number(at),
        Event::Adopt { at, from } => lemma_are_numbers(at, from),
        Event::Request { at } => lemma_is_number(at),
        Event::Relay { at, child } => lemma_are_numbers(at, child),
        Event::Open { at } => lemma_is_number(at),
        Event::Join { at } => lemma_is_number(at),
        Event::Finish { at } => lemma_is_number(at),
        Event::Mend { at } => lemma_is_number(at),
        Event::Act { at, case, with } => lemma_act_has_line(at, case, with),
    }
}

// So it may that of an action.
fn lemma_act_has_line(at: u32, case: u8, with: Option<u32>)
    ensures { HasLine (Step (Act at case with)) }
{
    match with {
        Some(neighbour) => lemma_is_number(neighbour),
        None => {}
    }
}

/// A history may have the line of any fault that is done. The text of a local state, which could spoil a
/// line, is then one printable word of at most 200 bytes.
pub fn lemma_fault_has_line<P: Application>(fault: &Fault)
    ensures { (c left : Configuration P.Local) → injected P.app P.from_text c fault.now ≡ Ok left
        → HasLine (Disturbed fault.now) }
{
    match fault {
        Fault::SetTree { at, regs } => lemma_tree_has_line(*at, *regs),
        Fault::SetWave { at, regs } => lemma_wave_has_line(*at, *regs),
        Fault::SetLocal { at, .. } => lemma_is_number(*at),
        Fault::LinkDown { a, b } => lemma_are_numbers(*a, *b),
        Fault::LinkUp { a, b } => lemma_are_numbers(*a, *b),
        Fault::NodeDown { at } => lemma_is_number(*at),
        Fault::NodeUp { at } => lemma_is_number(*at),
    }
}

// Whatever the tree registers are.
fn lemma_tree_has_line(at: u32, regs: TreeRegs)
    ensures { HasLine (Disturbed (SetTree at regs)) }
{
    lemma_are_numbers(regs.root, regs.father);
    lemma_is_number(regs.dist);
}

// Whatever the wave registers are.
fn lemma_wave_has_line(at: u32, regs: WaveRegs)
    ensures { HasLine (Disturbed (SetWave at regs)) }
{
    lemma_is_number(regs.session);
}

// A number of 32 bits.
fn lemma_is_number(n: u32)
    ensures { n < 2 ^ 32 }
{}

// Two of them.
fn lemma_are_numbers(m: u32, n: u32)
    ensures first { m < 2 ^ 32 }
    ensures second { n < 2 ^ 32 }
{}
