// Why a configuration can't have a fault.

/// The first reason, in this order, why a configuration can't have a fault.
#[derive(Clone, Copy, Debug, PartialEq, Eq)]
pub enum FaultRefusal {
    /// The node, or an end of the link, isn't there or is down; or no identifier is that of the node to come up.
    StrangeNode,
    /// A root or a father isn't from 1 to 65,535, or a link can't come up: it would lead from a node to
    /// itself, or be one more than 8,192.
    BadValue,
    /// The text has more than 200 bytes, or no local state has it.
    BadLocal,
    /// There is no such link to go down.
    NoSuchLink,
    /// The link that would come up is there.
    LinkIsThere,
    /// The node that would come up is up.
    NodeIsUp,
    /// An allocation failed.
    NoMemory,
}
