// What is wrong where an invariant fails.
ghost use Rattle.std.specs.Prelude.{OnOk, OnErr};
ghost use Rattle.std.specs.Io.KnownBytes.{Appends};
ghost use Rattle.action_tables.specs.Written.{AppendsPrefix};
ghost use Rattle.app_invariants.specs.Violations.{violation_text};

use action_tables::{Part, WriteFault, put_parts};
use std::io::Write;

/// What is counted, and the number that is wrong.
#[derive(Clone, Copy, Debug, PartialEq, Eq)]
pub struct Violation {
    pub words: &'static str,
    pub count: u64,
}

impl Violation {
    /// Writes the words, a space and the number, as in `tokens 2`.
    pub fn show<W: Write>(&self, out: &mut W) -> Result<(), WriteFault>
        ensures ok { OnOk result (Appends (W.contents out.old) (W.contents out.new)
            (violation_text self.now.words.now self.now.count)) }
        ensures err { OnErr result (AppendsPrefix (W.contents out.old) (W.contents out.new)
            (violation_text self.now.words.now self.now.count)) }
    {
        put_parts(
            out,
            &[
                Part::Text(self.words.as_bytes()),
                Part::Text(b" "),
                Part::Number(self.count),
            ],
        )
    }
}
