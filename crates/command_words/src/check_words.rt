// What the words of a check give.

/// The words of a check of the network that a script leaves.
#[derive(Clone, Copy, Debug, PartialEq, Eq)]
pub struct CheckWords<'a> {
    /// The path of the topology.
    pub topology: &'a str,
    /// The path of the script.
    pub script: &'a str,
    /// The path of the snapshot that it starts from, if one is given.
    pub from: Option<&'a str>,
    /// Whether each line of a failing row of tree and wave ends with the command that repairs it.
    pub repair: bool,
    /// Whether it prints for each component whether the application's invariant holds there.
    pub whole: bool,
}
