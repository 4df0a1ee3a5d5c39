// What the words of an exploration give.

/// The words of an exploration.
#[derive(Clone, Copy, Debug, PartialEq, Eq)]
pub struct ExploreWords<'a> {
    /// The path of the topology.
    pub topology: &'a str,
    /// The path of the script that is run before, if one is.
    pub script: Option<&'a str>,
    /// The path of the snapshot that it starts from, if one is given.
    pub from: Option<&'a str>,
    /// Whether the application's actions are explored too.
    pub acts: bool,
    /// How many configurations are visited at most, from 1 to 100,000,000.
    pub most: u32,
    /// What the search stops at, if it is to look for something.
    pub until: Option<&'a str>,
    /// The path of the file for the history that shows what was found, if one is to be written.
    pub history: Option<&'a str>,
}
