// The line that is said of a file.

ghost use Rattle.std.specs.Prelude.{OnErr, OnOk, codes};
ghost use Rattle.std.specs.Io.KnownBytes.{Appends};
ghost use Rattle.action_tables.specs.Written.{AppendsPrefix};
ghost use Rattle.diagnoses.specs.Said.{head_text, line_number_text, said_text};

use action_tables::{Part, WriteFault, put_bytes, put_parts};
use std::io::Write;

/// A text of a run.
#[derive(Clone, Copy)]
pub struct Source<'t> {
    /// The name of the file that has it, as the command line gives it.
    pub name: &'t str,
    /// What was read of it.
    pub text: &'t [u8],
}

/// Writes what is said of the file of this name: `reset-service: NAME: REASON`.
pub fn put_said<W: Write>(out: &mut W, name: &str, reason: &[u8]) -> Result<(), WriteFault>
    ensures ok { OnOk result (Appends (W.contents out.old) (W.contents out.new) (said_text name.now reason.now)) }
    ensures err { OnErr result
        (AppendsPrefix (W.contents out.old) (W.contents out.new) (said_text name.now reason.now)) }
{
    put_head(out, name)?;
    put_bytes(out, reason)?;
    put_end(out)
}

/// Writes how a line begins that says something of the file of this name.
pub fn put_head<W: Write>(out: &mut W, name: &str) -> Result<(), WriteFault>
    ensures ok { OnOk result (Appends (W.contents out.old) (W.contents out.new) (head_text name.now)) }
    ensures err { OnErr result (AppendsPrefix (W.contents out.old) (W.contents out.new) (head_text name.now)) }
{
    put_parts(
        out,
        &[
            Part::Text(b"reset-service: "),
            Part::Text(name.as_bytes()),
            Part::Text(b": "),
        ],
    )
}

/// Ends the line.
pub fn put_end<W: Write>(out: &mut W) -> Result<(), WriteFault>
    ensures ok { OnOk result (Appends (W.contents out.old) (W.contents out.new) (codes "\n")) }
    ensures err { OnErr result (AppendsPrefix (W.contents out.old) (W.contents out.new) (codes "\n")) }
{
    put_bytes(out, b"\n")
}

/// Writes the number of the line that is bad.
pub fn put_line_number<W: Write>(out: &mut W, number: u64) -> Result<(), WriteFault>
    ensures ok { OnOk result (Appends (W.contents out.old) (W.contents out.new) (line_number_text number)) }
    ensures err { OnErr result (AppendsPrefix (W.contents out.old) (W.contents out.new) (line_number_text number)) }
{
    put_parts(
        out,
        &[
            Part::Text(b"line "),
            Part::Number(number),
            Part::Text(b": "),
        ],
    )
}
