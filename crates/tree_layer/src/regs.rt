/// The tree registers of a node: the root that it knows, its father, and its distance to the root.
#[derive(Clone, Copy, Debug, PartialEq, Eq)]
pub struct TreeRegs {
    pub root: u32,
    pub father: u32,
    pub dist: u32,
}

/// Why a row wasn't fired, in the order in which refusals are given.
#[derive(Clone, Copy, Debug, PartialEq, Eq)]
pub enum TreeRefusal {
    /// The number isn't from 1 to 8.
    NoSuchCase,
    /// Row 7 or 8 names no neighbour, or another row names one.
    StrangeNeighbour,
    /// The row's guard is false.
    NotEnabled,
}
