// What the words of a plan give.

/// The words of a plan.
#[derive(Clone, Copy, Debug, PartialEq, Eq)]
pub struct PlanWords<'a> {
    /// The path of the topology.
    pub topology: &'a str,
    /// The path of the script that is run before, if one is.
    pub script: Option<&'a str>,
    /// The path of the snapshot that it starts from, if one is given.
    pub from: Option<&'a str>,
}
