ghost use Rattle.topology.specs.declared.fault.TopoFault.TheVariants.{NoMemory};
ghost use Rattle.std.specs.Prelude.{◌≡◌, Some};
ghost use Rattle.topology.specs.FaultText.{fault_text};

use std::alloc::{AllocError, AllocFailed};
use std::fmt;

/// The most nodes of a topology.
pub const MAX_NODES: usize = 1024;

/// The most links of a topology.
pub const MAX_LINKS: usize = 8192;

/// Why a list of nodes and a list of links are no topology, in the order in which faults are
/// named, and why a link or a node can't be put in or taken out. Within one fault the first item of the list
/// is named, and of a link its first end first.
#[derive(Clone, Copy, Debug, PartialEq, Eq)]
pub enum TopoFault {
    /// There are no nodes.
    NoNodes,
    /// There are more than 1,024 nodes.
    TooManyNodes,
    /// This number isn't from 1 to 65535.
    BadId(u32),
    /// This node repeats an earlier one.
    TwiceNode(u32),
    /// There are more than 8,192 links, or there would be with one more.
    TooManyLinks,
    /// This end of a link isn't a node.
    StrangeNode(u32),
    /// A link leads from this node to itself.
    SelfLink(u32),
    /// The link between these two nodes, the lesser first, repeats an earlier one or its reverse.
    TwiceLink(u32, u32),
    /// A growth was refused.
    NoMemory,
    /// There is no such link that could be taken out.
    NoSuchLink,
    /// The link that was to be put in is there.
    LinkIsThere,
    /// The node that was to be put in is up.
    NodeIsUp,
}

impl From<AllocError> for TopoFault {
    ghost from_gives = { λ _ f. f ≡ NoMemory };

    fn from(_error: AllocError) -> TopoFault {
        TopoFault::NoMemory
    }
}

impl<T: Drop> From<AllocFailed<T>> for TopoFault {
    ghost from_gives = { λ _ f. f ≡ NoMemory };

    fn from(_error: AllocFailed<T>) -> TopoFault {
        TopoFault::NoMemory
    }
}

impl fmt::Display for TopoFault {
    ghost output = { λ f. Some (fault_text f) };

    fn fmt<W: fmt::Write>(&self, f: &mut fmt::Formatter<W>) -> fmt::Result {
        match self {
            TopoFault::NoNodes => write!(f, "NoNodes"),
            TopoFault::TooManyNodes => write!(f, "TooManyNodes"),
            TopoFault::BadId(id) => write!(f, "BadId {id}"),
            TopoFault::TwiceNode(id) => write!(f, "TwiceNode {id}"),
            TopoFault::TooManyLinks => write!(f, "TooManyLinks"),
            TopoFault::StrangeNode(id) => write!(f, "StrangeNode {id}"),
            TopoFault::SelfLink(id) => write!(f, "SelfLink {id}"),
            TopoFault::TwiceLink(lesser, greater) => write!(f, "TwiceLink {lesser} {greater}"),
            TopoFault::NoMemory => write!(f, "NoMemory"),
            TopoFault::NoSuchLink => write!(f, "NoSuchLink"),
            TopoFault::LinkIsThere => write!(f, "LinkIsThere"),
            TopoFault::NodeIsUp => write!(f, "NodeIsUp"),
        }
    }
}
