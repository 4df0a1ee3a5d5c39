// The rows of a table in print.
ghost use Rattle.std.specs.Prelude.{OnOk, OnErr, map};
ghost use Rattle.std.specs.Io.KnownBytes.{Appends};
ghost use Rattle.action_tables.specs.Written.{AppendsPrefix};
ghost use Rattle.action_tables.specs.RowText.{as_printed};
ghost use Rattle.action_tables.specs.Table.{row_line, table_text, title_line};

use crate::part::{Part, put_parts};
use crate::put::WriteFault;
use std::io::Write;

/// A row of a table as it is printed: its number, and what it is called, asks and does.
#[derive(Clone, Copy, Debug, PartialEq, Eq)]
pub struct CaseRow<'a> {
    pub number: u8,
    pub name: &'a str,
    pub guard: &'a str,
    pub effect: &'a str,
}

/// Writes a line `table TITLE`, and then for each row a line `NUMBER NAME | GUARD | EFFECT`.
pub fn print_rows<W: Write>(
    title: &str,
    rows: &[CaseRow<'_>],
    out: &mut W,
) -> Result<(), WriteFault>
    ensures ok { OnOk result
        (Appends (W.contents out.old) (W.contents out.new) (table_text title.now (map as_printed rows.now))) }
    ensures err { OnErr result
        (AppendsPrefix (W.contents out.old) (W.contents out.new) (table_text title.now (map as_printed rows.now))) }
{
    print_title(title, out)?;
    for row in rows {
        print_row(row, out)?;
    }
    Ok(())
}

fn print_title<W: Write>(title: &str, out: &mut W) -> Result<(), WriteFault>
    ensures ok { OnOk result (Appends (W.contents out.old) (W.contents out.new) (title_line title.now)) }
    ensures err { OnErr result (AppendsPrefix (W.contents out.old) (W.contents out.new) (title_line title.now)) }
{
    put_parts(
        out,
        &[
            Part::Text(b"table "),
            Part::Text(title.as_bytes()),
            Part::Text(b"\n"),
        ],
    )
}

fn print_row<W: Write>(row: &CaseRow<'_>, out: &mut W) -> Result<(), WriteFault>
    ensures ok { OnOk result (Appends (W.contents out.old) (W.contents out.new) (row_line (as_printed row.now))) }
    ensures err { OnErr result
        (AppendsPrefix (W.contents out.old) (W.contents out.new) (row_line (as_printed row.now))) }
{
    put_parts(
        out,
        &[
            Part::Number(u64::from(row.number)),
            Part::Text(b" "),
            Part::Text(row.name.as_bytes()),
            Part::Text(b" | "),
            Part::Text(row.guard.as_bytes()),
            Part::Text(b" | "),
            Part::Text(row.effect.as_bytes()),
            Part::Text(b"\n"),
        ],
    )
}
