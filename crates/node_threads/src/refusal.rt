// Why a call on what is shared is refused.

use app_interface::Application;
use history::{ApplyRefusal, BookRefusal};

/// Why a book isn't shared, in the order in which faults are given.
#[derive(Clone, Copy, Debug, PartialEq, Eq)]
pub enum ShareFault {
    /// Its configuration has over 64 nodes.
    TooManyForThreads,
    /// An allocation failed.
    NoMemory,
}

/// Why a seat's node can't be looked at, in the order in which refusals are given.
#[derive(Clone, Copy, Debug, PartialEq, Eq)]
pub enum LookRefusal {
    /// The seat's node isn't a node of the topology.
    StrangeNode,
    /// An allocation failed.
    NoMemory,
}

/// Why a plan isn't committed at a seat, in the order in which refusals are given.
#[derive(Drop)]
pub enum CommitRefusal<P: Application> {
    /// The plan is of another node than the seat.
    NotYours,
    /// The book doesn't take the plan.
    Refused(ApplyRefusal<P>),
}

/// Why an event isn't done at a seat, in the order in which refusals are given.
#[derive(Clone, Copy, Debug, PartialEq, Eq)]
pub enum SeatRefusal {
    /// The event is of another node than the seat.
    NotYours,
    /// The book doesn't take the event.
    Refused(BookRefusal),
}
