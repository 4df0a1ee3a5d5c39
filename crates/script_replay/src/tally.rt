// How the commands of a script were answered.

ghost use Rattle.std.specs.Prelude.{◌≡◌, ◌∷◌, ◌<◌, ◌≤◌, []};
ghost use Rattle.script_replay.specs.Tallies.{counted, no_answers};

/// How the commands of a script were answered.
#[derive(Clone, Copy, Debug, PartialEq, Eq)]
pub struct Tally {
    /// How many were answered.
    pub commands: u64,
    /// How many of these were refused.
    pub refused: u64,
    /// The number of the line in which the first of these is, from 1 on.
    pub first_refused: Option<u64>,
}

impl Tally {
    /// No command was answered.
    pub fn new() -> Tally
        ensures { result ≡ no_answers }
    {
        Tally {
            commands: 0,
            refused: 0,
            first_refused: None,
        }
    }

    // Counts the command in the line of this number.
    pub(crate) fn count(&mut self, line: u64, is_refused: bool)
        requires room { self.old.commands < line }
        requires few { self.old.refused ≤ self.old.commands }
        ensures { self.new ≡ counted self.old (record { line = line; refused = is_refused } ∷ []) }
    {
        self.commands += 1;
        if is_refused {
            self.refused += 1;
            self.first_refused = self.first_refused.or(Some(line));
        }
    }
}
