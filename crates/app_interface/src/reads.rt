// What a case reads of the node's neighbours.

/// What a case names and reads of the node's neighbours. A case that names a neighbour can be taken
/// toward each of them.
#[derive(Clone, Copy, Debug, PartialEq, Eq)]
pub enum Reads {
    /// The case names no neighbour and reads none.
    Alone,
    /// The case names a neighbour and reads none.
    Toward,
    /// The case names a neighbour and reads this one.
    One,
    /// The case names no neighbour and reads every one.
    All,
}
