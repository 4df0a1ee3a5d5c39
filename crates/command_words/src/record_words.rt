// What the words of a replay give whose history is kept.

/// The words of a replay whose history is kept.
#[derive(Clone, Copy, Debug, PartialEq, Eq)]
pub struct RecordWords<'a> {
    /// The path of the topology.
    pub topology: &'a str,
    /// The path of the script.
    pub script: &'a str,
    /// The path of the file for the history.
    pub history: &'a str,
    /// The path of the snapshot that it starts from, if one is given.
    pub from: Option<&'a str>,
}
