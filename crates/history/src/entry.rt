// What a history consists of, and what it comes to.

ghost use Rattle.std.specs.Prelude.{◌≡◌, IfOk};

use fault_inject::Fault;
use reset_machine::{Event, Reply};
use std::alloc::{AllocError, Global};

/// What happened to a configuration.
#[derive(Debug, PartialEq, Eq, Drop)]
pub enum Entry {
    /// The event was applied.
    Step(Event),
    /// The fault was done.
    Disturbed(Fault),
}

impl Entry {
    /// The same entry.
    pub fn copy(&self, alloc: Global) -> Result<Entry, AllocError>
        ensures { IfOk result (λ copy. copy ≡ self.now) }
    {
        match self {
            Entry::Step(event) => Ok(Entry::Step(*event)),
            Entry::Disturbed(fault) => Ok(Entry::Disturbed(fault.copy(alloc)?)),
        }
    }
}

/// That an event was applied, and how its node replied. Positions count from 1.
#[derive(Clone, Copy, Debug, PartialEq, Eq)]
pub struct Receipt {
    pub position: usize,
    pub event: Event,
    pub reply: Reply,
}

/// That the reset of a session was reported complete.
#[derive(Clone, Copy, Debug, PartialEq, Eq)]
pub struct Report {
    /// The number of the session.
    pub number: u32,
    /// The position of the latest opening at the same node, where no fault came after it.
    pub opened: Option<usize>,
    /// The position of the step that completed it.
    pub finished: usize,
}

/// What a history comes to.
#[derive(Debug, PartialEq, Eq, Drop)]
pub struct Summary {
    /// How many entries it has.
    pub entries: usize,
    /// Its completions, in turn.
    pub reports: Vec<Report>,
}

/// Why a history isn't one.
#[derive(Clone, Copy, Debug, PartialEq, Eq)]
pub enum VerifyFault {
    /// The entry at this position isn't allowed where it stands. It is the first such one.
    NotEnabledAt(usize),
    /// An allocation failed.
    NoMemory,
}
