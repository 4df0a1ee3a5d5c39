// What the words of a picture give.

/// The words of a picture of a history.
#[derive(Clone, Copy, Debug, PartialEq, Eq)]
pub struct PictureWords<'a> {
    /// The path of the topology.
    pub topology: &'a str,
    /// The path of the history.
    pub history: &'a str,
    /// The path of the snapshot that it starts from, if one is given.
    pub from: Option<&'a str>,
    /// The first and the last entry that are drawn, as `17..40`, if they are given.
    pub rows: Option<&'a str>,
    /// The identifiers of the nodes that are drawn, as `1,2,5`, if they are given.
    pub nodes: Option<&'a str>,
}
