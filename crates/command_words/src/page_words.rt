// What the words of a page give.

/// The words of a page that plays a history.
#[derive(Clone, Copy, Debug, PartialEq, Eq)]
pub struct PageWords<'a> {
    /// The path of the topology.
    pub topology: &'a str,
    /// The path of the history.
    pub history: &'a str,
    /// The path of the snapshot that it starts from, if one is given.
    pub from: Option<&'a str>,
    /// The title of the page, if one is given.
    pub title: Option<&'a str>,
}
