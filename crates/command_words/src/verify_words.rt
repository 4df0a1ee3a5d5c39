// What the words of a verification give.

/// The words of a verification of a history.
#[derive(Clone, Copy, Debug, PartialEq, Eq)]
pub struct VerifyWords<'a> {
    /// The path of the topology.
    pub topology: &'a str,
    /// The path of the history.
    pub history: &'a str,
    /// The path of the snapshot that it starts from, if one is given.
    pub from: Option<&'a str>,
    /// Whether to say why an entry isn't allowed.
    pub why: bool,
    /// How many entries are verified, at most 1,000,000, if it is asked what they leave.
    pub at: Option<u32>,
}
