// Lines that count what a history has.

ghost use Rattle.std.specs.Prelude.{OnErr, OnOk};
ghost use Rattle.std.specs.Io.KnownBytes.{Appends};
ghost use Rattle.action_tables.specs.Written.{AppendsPrefix};
ghost use Rattle.reset_service.specs.Counts.{counts_line};

use action_tables::{Part, WriteFault, put_parts};
use std::io::Write;

// Writes the numbers of entries and of reports behind these words.
pub fn put_counts<W: Write>(
    out: &mut W,
    words: &[u8],
    entries: usize,
    reports: usize,
) -> Result<(), WriteFault>
    ensures ok { OnOk result (Appends (W.contents out.old) (W.contents out.new) (counts_line words.now entries reports)) }
    ensures err { OnErr result
        (AppendsPrefix (W.contents out.old) (W.contents out.new) (counts_line words.now entries reports)) }
{
    put_parts(
        out,
        &[
            Part::Text(words),
            Part::Number(entries as u64),
            Part::Text(b" entries "),
            Part::Number(reports as u64),
            Part::Text(b" reports\n"),
        ],
    )
}
