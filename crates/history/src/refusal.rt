// Why a book refuses.

ghost use Rattle.std.specs.Prelude.{◌≡◌, ◌≢◌};

use app_interface::Application;
use fault_inject::FaultRefusal;
use reset_machine::{StepRefusal, View};

/// Why a book doesn't take an event, in the order in which refusals are given.
#[derive(Clone, Copy, Debug, PartialEq, Eq)]
pub enum BookRefusal {
    /// The configuration refuses the event.
    Refused(StepRefusal),
    /// The book has as many entries as it may have.
    BookFull,
    /// An allocation failed.
    NoMemory,
}

/// Why a book doesn't take a fault, in the order in which refusals are given.
#[derive(Clone, Copy, Debug, PartialEq, Eq)]
pub enum DisturbRefusal {
    /// The configuration can't have the fault.
    Refused(FaultRefusal),
    /// The book has as many entries as it may have.
    BookFull,
    /// An allocation failed.
    NoMemory,
}

/// Why a book doesn't take a plan, in the order in which refusals are given.
#[derive(Drop)]
pub enum ApplyRefusal<P: Application> {
    /// The plan's node isn't a node of the topology.
    StrangeNode,
    /// The node sees this now, and not what the plan was made on.
    Stale(View<P>),
    /// The book has as many entries as it may have.
    BookFull,
    /// An allocation failed.
    NoMemory,
}

/// Why a book doesn't give the configuration at a position, in the order in which refusals are given.
#[derive(Clone, Copy, Debug, PartialEq, Eq)]
pub enum AtFault {
    /// The book has fewer entries. Positions go from 0, the opening, to [`len`](crate::Book::len).
    NoPosition,
    /// An allocation failed.
    NoMemory,
}

// A refused step as a book reports it.
pub(crate) fn step_refused(refusal: StepRefusal) -> BookRefusal
    ensures memory { refusal ≡ StepRefusal.NoMemory → result ≡ BookRefusal.NoMemory }
    ensures refused { refusal ≢ StepRefusal.NoMemory → result ≡ BookRefusal.Refused refusal }
{
    match refusal {
        StepRefusal::NoMemory => BookRefusal::NoMemory,
        _ => BookRefusal::Refused(refusal),
    }
}

// A refused fault as a book reports it.
pub(crate) fn fault_refused(refusal: FaultRefusal) -> DisturbRefusal
    ensures memory { refusal ≡ FaultRefusal.NoMemory → result ≡ DisturbRefusal.NoMemory }
    ensures refused { refusal ≢ FaultRefusal.NoMemory → result ≡ DisturbRefusal.Refused refusal }
{
    match refusal {
        FaultRefusal::NoMemory => DisturbRefusal::NoMemory,
        _ => DisturbRefusal::Refused(refusal),
    }
}
