// What the lines of a snapshot say.

use tree_layer::TreeRegs;
use wave_layer::WaveRegs;

/// A node that is up, with its registers and its local state.
#[derive(Drop)]
pub struct NodeState<L> {
    /// Its identifier.
    pub id: u32,
    /// Its tree registers, whatever they are.
    pub tree: TreeRegs,
    /// Its wave registers, whatever they are.
    pub wave: WaveRegs,
    /// Its local state.
    pub local: L,
}

/// What a line of a snapshot says.
#[derive(Drop)]
pub enum Item<L> {
    /// The snapshot has this version.
    Version(u32),
    /// A node is up, in this state.
    Node(NodeState<L>),
    /// There is a link between these two nodes.
    Link(u32, u32),
    /// There are no links.
    NoLink,
}
