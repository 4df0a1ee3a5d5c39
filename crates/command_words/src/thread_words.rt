// What the words of a run of node threads give.

ghost use Rattle.std.specs.Prelude.{◌≤◌};
ghost use Rattle.std.specs.Option.{ForSome};

/// The words of a run of node threads, one for each node of the topology.
#[derive(Clone, Copy, Debug, PartialEq, Eq)]
pub struct ThreadWords<'a> {
    /// The path of the topology.
    pub topology: &'a str,
    /// How many turns each node takes at most, from 1 to 100,000, if that is given.
    pub turns: Option<u32>,
    /// What ends the run in place of a number of turns, if that is given.
    pub until: Option<&'a str>,
    /// The node that asks for resets, from 1 to 65,535, if one is given.
    pub select: Option<u32>,
    /// For how many resets it asks, from 1 to 100,000.
    pub resets: u32,
    /// The path of the file for the history.
    pub history: &'a str,
    /// The path of the snapshot that it starts from, if one is given.
    pub from: Option<&'a str>,
    ghost few: { ForSome turns (λ n. n ≤ 100000) },
}
