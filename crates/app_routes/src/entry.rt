// One entry of a routing table.

/// A way to a destination: how many links it has, and the neighbour that it leads over.
///
/// `Default` is no node's entry: it fills the free places of a `SmallVec`.
#[derive(Clone, Copy, Debug, Default, PartialEq, Eq)]
pub struct Entry {
    pub destination: u32,
    pub hops: u32,
    pub next: u32,
}
