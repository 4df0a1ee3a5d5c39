// What comes of a step.

ghost use Rattle.std.specs.Prelude.{◌≡◌};
ghost use Rattle.reset_model.specs.declared.step.StepRefusal.TheVariants.{NoMemory};
ghost use Rattle.reset_model.specs.declared.plan.Fired.TheVariants.{Wave};
ghost use Rattle.reset_model.specs.Outcome.{fired_reply};

use std::alloc::{AllocError, AllocFailed};
use wave_layer::WaveMove;

/// What a step did.
#[derive(Clone, Copy, Debug, PartialEq, Eq)]
pub enum Reply {
    /// The event was applied.
    Applied,
    /// The event was applied, and completes the reset of this session.
    Complete(u32),
}

/// Why an event was refused, in the order in which refusals are given.
#[derive(Clone, Copy, Debug, PartialEq, Eq)]
pub enum StepRefusal {
    /// The event's node isn't a node of the topology.
    StrangeNode,
    /// The other node that the event names isn't a neighbour of the event's node.
    StrangeNeighbour,
    /// The application has no case with this number.
    NoSuchCase,
    /// The case names a neighbour, and none is named.
    WantsNeighbour,
    /// The case names no neighbour, and one is named.
    TakesNoNeighbour,
    /// The case reads this neighbour, which is in another session. It is the first such one.
    Disagrees(u32),
    /// No row of the event is enabled, or the case isn't.
    NotEnabled,
    /// A growth was refused.
    NoMemory,
}

/// What came of an event of a list.
#[derive(Clone, Copy, Debug, PartialEq, Eq)]
pub enum Done {
    /// It was applied, with this reply.
    Did(Reply),
    /// It was refused, and changed nothing.
    Refused(StepRefusal),
}

impl From<AllocError> for StepRefusal {
    ghost from_gives = { λ _ f. f ≡ NoMemory };

    fn from(_error: AllocError) -> StepRefusal {
        StepRefusal::NoMemory
    }
}

impl<T: Drop> From<AllocFailed<T>> for StepRefusal {
    ghost from_gives = { λ _ f. f ≡ NoMemory };

    fn from(_error: AllocFailed<T>) -> StepRefusal {
        StepRefusal::NoMemory
    }
}

/// What a node that fired this row of the wave table replies.
pub fn reply_to(fired: WaveMove) -> Reply
    ensures { result ≡ fired_reply (Wave fired) }
{
    if fired.completes {
        Reply::Complete(fired.regs.session)
    } else {
        Reply::Applied
    }
}
