// What the words of a replay give.

/// The words of a replay of a script.
#[derive(Clone, Copy, Debug, PartialEq, Eq)]
pub struct ReplayWords<'a> {
    /// The path of the topology.
    pub topology: &'a str,
    /// The path of the script.
    pub script: &'a str,
    /// The path of the snapshot that it starts from, if one is given.
    pub from: Option<&'a str>,
    /// Whether each answer has the number of its line.
    pub number: bool,
    /// Whether the first refusal ends the run.
    pub strict: bool,
}
