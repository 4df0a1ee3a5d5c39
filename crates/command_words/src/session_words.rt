// What the words of a session give.

/// The words of a session, which answers commands as they come.
#[derive(Clone, Copy, Debug, PartialEq, Eq)]
pub struct SessionWords<'a> {
    /// The path of the topology.
    pub topology: &'a str,
    /// The path of the snapshot that it starts from, if one is given.
    pub from: Option<&'a str>,
    /// The path of the file that each entry is appended to, if one is given.
    pub history: Option<&'a str>,
    /// Whether each entry is synced to the disk before its answer is written.
    pub sync: bool,
}
