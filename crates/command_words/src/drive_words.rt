// What the words of a run of the seeded scheduler give.

/// The words of a run of the seeded scheduler.
#[derive(Clone, Copy, Debug, PartialEq, Eq)]
pub struct DriveWords<'a> {
    /// The path of the topology.
    pub topology: &'a str,
    /// How many steps it takes, from 1 to 1,000,000.
    pub steps: u32,
    /// What its random words are drawn by.
    pub seed: u32,
    /// How many of a thousand steps are faults, about: from 0 to 1,000.
    pub faults: u32,
    /// The path of the file for the history.
    pub history: &'a str,
    /// The path of the snapshot that it starts from, if one is given.
    pub from: Option<&'a str>,
}
