// Why a text is no snapshot.

ghost use Rattle.std.specs.Prelude.{◌≡◌};
ghost use Rattle.snapshots.specs.declared.fault.SnapshotFault.TheVariants.{NoMemory};

use std::alloc::{AllocError, AllocFailed};

/// Why a text is no snapshot of a topology: the first fault in the order of its lines. Within a line the faults are in
/// this order.
#[derive(Clone, Copy, Debug, PartialEq, Eq)]
pub enum SnapshotFault {
    /// The line with this number is none that a snapshot may have there, or has more than 65,536 bytes. Lines count
    /// from 1.
    BadLine(usize),
    /// The first line names another version than 1.
    BadVersion,
    /// No identifier of the topology is this one, which a line of a node names or that of a link as an end; or, after
    /// all lines, this end of a link is down.
    StrangeNode(u32),
    /// An earlier line names this node too.
    TwiceNode(u32),
    /// A link leads from this node to itself.
    SelfLink(u32),
    /// An earlier line names the link between these two nodes too, the lesser first.
    TwiceLink(u32, u32),
    /// There are more than 8,192 links.
    TooManyLinks,
    /// Allocation failed.
    NoMemory,
}

impl From<AllocError> for SnapshotFault {
    ghost from_gives = { λ _ f. f ≡ NoMemory };

    fn from(_error: AllocError) -> SnapshotFault {
        SnapshotFault::NoMemory
    }
}

impl<T: Drop> From<AllocFailed<T>> for SnapshotFault {
    ghost from_gives = { λ _ f. f ≡ NoMemory };

    fn from(_error: AllocFailed<T>) -> SnapshotFault {
        SnapshotFault::NoMemory
    }
}
