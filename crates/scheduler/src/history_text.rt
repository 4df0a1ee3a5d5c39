// The history of a drawn run as a text, to which each entry adds its line.

ghost use Rattle.std.specs.Prelude.{◌≡◌, ◌+◌, ◌<◌, ◌≤◌, ◌++◌, IfOk, OnOk, nat_le};
ghost use Rattle.reset_model.specs.EventText.{event_line};
ghost use Rattle.fault_inject.specs.FaultText.{fault_line};
ghost use Rattle.history.specs.HistoryText.{ended, first_line};
ghost use Rattle.scheduler.specs.Completions.{completions};

use action_tables::put_bytes;
use fault_inject::{Fault, write_fault};
use history::{MAX_ENTRIES, put_first_line};
use reset_machine::{Event, Reply, write_event};
use std::alloc::{AllocError, Global};

/// The history of a drawn run, as a text, and what it has.
#[derive(Drop)]
pub struct DrivenHistory {
    /// The text, as `write_book` writes it.
    pub text: Vec<u8>,
    /// How many entries it has, at most 1,000,000.
    pub entries: usize,
    /// How many completions they report.
    pub reports: usize,
    ghost few: { entries ≤ 1000000 },
    ghost fewer: { reports ≤ entries },
}

impl DrivenHistory {
    /// The history without entries, with sessions modulo this number.
    pub(crate) fn new(alloc: Global, modulus: u64) -> Result<DrivenHistory, AllocError>
        ensures text { IfOk result (λ h. h.text.items ≡ ended (first_line modulus)) }
        ensures entries { IfOk result (λ h. h.entries ≡ 0) }
        ensures reports { IfOk result (λ h. h.reports ≡ 0) }
    {
        let mut text = Vec::new(alloc);
        match put_first_line(&mut text, modulus) {
            Ok(()) => {}
            Err(_) => return Err(AllocError),
        }
        Ok(DrivenHistory {
            text,
            entries: 0,
            reports: 0,
        })
    }

    /// Whether there is no room for an entry more.
    pub(crate) fn is_full(&self) -> bool
        ensures { result ≡ nat_le 1000000 self.now.entries }
    {
        self.entries >= MAX_ENTRIES
    }

    /// Adds the entry of an event that was answered so.
    pub(crate) fn enter_event(&mut self, event: Event, reply: Reply) -> Result<(), AllocError>
        requires { self.old.entries < 1000000 }
        ensures text { OnOk result (self.new.text.items ≡ self.old.text.items ++ ended (event_line event)) }
        ensures entries { OnOk result (self.new.entries ≡ self.old.entries + 1) }
        ensures reports { OnOk result (self.new.reports ≡ self.old.reports + completions reply) }
    {
        put_event(&mut self.text, event)?;
        self.entries += 1;
        match reply {
            Reply::Applied => {}
            Reply::Complete(_) => self.reports += 1,
        }
        Ok(())
    }

    /// Adds the entry of a fault.
    pub(crate) fn enter_fault(&mut self, fault: &Fault) -> Result<(), AllocError>
        requires { self.old.entries < 1000000 }
        ensures text { OnOk result (self.new.text.items ≡ self.old.text.items ++ ended (fault_line fault.now)) }
        ensures entries { OnOk result (self.new.entries ≡ self.old.entries + 1) }
        ensures reports { OnOk result (self.new.reports ≡ self.old.reports) }
    {
        put_fault(&mut self.text, fault)?;
        self.entries += 1;
        Ok(())
    }
}

// Adds the line of an event.
fn put_event(text: &mut Vec<u8>, event: Event) -> Result<(), AllocError>
    ensures { OnOk result (text.new.items ≡ text.old.items ++ ended (event_line event)) }
{
    match write_event(&event, text) {
        Ok(()) => {}
        Err(_) => return Err(AllocError),
    }
    match put_bytes(text, b"\n") {
        Ok(()) => Ok(()),
        Err(_) => Err(AllocError),
    }
}

// Adds the line of a fault.
fn put_fault(text: &mut Vec<u8>, fault: &Fault) -> Result<(), AllocError>
    ensures { OnOk result (text.new.items ≡ text.old.items ++ ended (fault_line fault.now)) }
{
    match write_fault(fault, text) {
        Ok(()) => {}
        Err(_) => return Err(AllocError),
    }
    match put_bytes(text, b"\n") {
        Ok(()) => Ok(()),
        Err(_) => Err(AllocError),
    }
}
