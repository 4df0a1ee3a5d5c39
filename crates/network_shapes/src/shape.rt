// The standard shapes.

/// A shape of a network of the nodes 1 to N. Each node from 2 on is linked with one or two lesser
/// nodes, so that every shape is connected.
#[derive(Clone, Copy, Debug, PartialEq, Eq)]
pub enum Shape {
    /// A path whose last node is linked with node 1 too, from 3 nodes on.
    Ring,
    /// Each node is linked with the node before it.
    Path,
    /// Each node is linked with node 1.
    Star,
    /// Rows as wide as there are rows or one more, each node linked with those above it and before
    /// it.
    Grid,
    /// A binary tree: node i is linked with node i / 2.
    Tree,
    /// Each node is linked with one or two lesser nodes that a seed draws.
    Random,
}
