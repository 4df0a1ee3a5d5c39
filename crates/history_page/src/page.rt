// Pages that play histories.

ghost use Rattle.std.specs.Prelude.{◌≡◌, [], IfOk, IsSome, OnErr, OnOk, length};
ghost use Rattle.std.specs.Io.KnownBytes.{Appends};
ghost use Rattle.action_tables.specs.Written.{AppendsPrefix};
ghost use Rattle.history.specs.Entries.{replayed};
ghost use Rattle.history.specs.Reports.{reports_of};
ghost use Rattle.history_page.specs.Lines.{line_text};
ghost use Rattle.history_page.specs.Entries.{entries_text};
ghost use Rattle.history_page.specs.Page.{data_text, end_data, page_text};
ghost use Rattle.history_page.specs.declared.page.PageStop.TheVariants.{NoMemory, WriteFailed};

use crate::boot::{put_boot_lines, put_first_lines};
use crate::changes::note_all;
use crate::entry::put_entries;
use crate::frame::HEAD;
use crate::line::{add_parts, put_line};
use crate::moments::MOMENTS;
use crate::views::VIEWS;
use action_tables::{Part, WriteFault, put_bytes};
use app_interface::Application;
use history::{Entry, Report};
use reset_machine::Config;
use std::alloc::{AllocError, Global};
use std::io::Write;

/// What cut a page short. What was written until then is a prefix of it.
#[derive(Clone, Copy, Debug, PartialEq, Eq)]
pub enum PageStop {
    /// The writer failed.
    WriteFailed,
    /// An allocation failed.
    NoMemory,
}

impl From<WriteFault> for PageStop {
    ghost from_gives = { λ _ s. s ≡ WriteFailed };

    fn from(_fault: WriteFault) -> PageStop {
        PageStop::WriteFailed
    }
}

impl From<AllocError> for PageStop {
    ghost from_gives = { λ _ s. s ≡ NoMemory };

    fn from(_error: AllocError) -> PageStop {
        PageStop::NoMemory
    }
}

/// Writes the page that plays entries which are a run from the opening, and what they report: HTML by itself, with its
/// script, and without references to anything outside of it. It names the application, and has this title, in UTF-8, or
/// none where that is empty.
///
/// What it holds at a time is a configuration, what fails at its nodes, and the line of one entry.
pub fn put_page<P: Application, W: Write>(
    alloc: Global,
    opening: &Config<P>,
    app: &[u8],
    title: &[u8],
    entries: &[Entry],
    reports: &[Report],
    out: &mut W,
) -> Result<(), PageStop>
    requires run { IsSome (replayed P.app P.from_text opening.now entries.now) }
    requires reports { reports.now ≡ reports_of P.app P.from_text opening.now entries.now }
    ensures ok { OnOk result (Appends (W.contents out.old) (W.contents out.new)
        (page_text HEAD.now MOMENTS.now VIEWS.now
        (data_text P.app P.text P.from_text title.now app.now opening.now entries.now))) }
    ensures err { OnErr result (AppendsPrefix (W.contents out.old) (W.contents out.new)
        (page_text HEAD.now MOMENTS.now VIEWS.now
        (data_text P.app P.text P.from_text title.now app.now opening.now entries.now))) }
{
    put_framed(
        alloc, opening, app, title, entries, reports, HEAD, MOMENTS, VIEWS, out,
    )
}

// Writes the page with these parts around its data.
fn put_framed<P: Application, W: Write>(
    alloc: Global,
    opening: &Config<P>,
    app: &[u8],
    title: &[u8],
    entries: &[Entry],
    reports: &[Report],
    head: &[u8],
    moments: &[u8],
    views: &[u8],
    out: &mut W,
) -> Result<(), PageStop>
    requires run { IsSome (replayed P.app P.from_text opening.now entries.now) }
    requires reports { reports.now ≡ reports_of P.app P.from_text opening.now entries.now }
    ensures ok { OnOk result (Appends (W.contents out.old) (W.contents out.new)
        (page_text head.now moments.now views.now
        (data_text P.app P.text P.from_text title.now app.now opening.now entries.now))) }
    ensures err { OnErr result (AppendsPrefix (W.contents out.old) (W.contents out.new)
        (page_text head.now moments.now views.now
        (data_text P.app P.text P.from_text title.now app.now opening.now entries.now))) }
{
    put_bytes(out, head)?;
    put_data(alloc, opening, app, title, entries, reports, out)?;
    put_bytes(out, moments)?;
    put_bytes(out, views)?;
    Ok(())
}

// Writes the data of the entries and of what they report.
fn put_data<P: Application, W: Write>(
    alloc: Global,
    opening: &Config<P>,
    app: &[u8],
    title: &[u8],
    entries: &[Entry],
    reports: &[Report],
    out: &mut W,
) -> Result<(), PageStop>
    requires run { IsSome (replayed P.app P.from_text opening.now entries.now) }
    requires reports { reports.now ≡ reports_of P.app P.from_text opening.now entries.now }
    ensures ok { OnOk result (Appends (W.contents out.old) (W.contents out.new)
        (data_text P.app P.text P.from_text title.now app.now opening.now entries.now)) }
    ensures err { OnErr result (AppendsPrefix (W.contents out.old) (W.contents out.new)
        (data_text P.app P.text P.from_text title.now app.now opening.now entries.now)) }
{
    put_first_lines(alloc, app, title, opening, out)?;
    put_boot_lines(alloc, opening, opening.topology().ids(), out)?;
    put_copied(alloc, opening, entries, reports, out)?;
    put_end(alloc, entries, reports, out)
}

// Writes the lines of the entries.
fn put_copied<P: Application, W: Write>(
    alloc: Global,
    opening: &Config<P>,
    entries: &[Entry],
    reports: &[Report],
    out: &mut W,
) -> Result<(), PageStop>
    requires run { IsSome (replayed P.app P.from_text opening.now entries.now) }
    requires reports { reports.now ≡ reports_of P.app P.from_text opening.now entries.now }
    ensures ok { OnOk result (Appends (W.contents out.old) (W.contents out.new)
        (entries_text P.app P.text P.from_text opening.now [] entries.now)) }
    ensures err { OnErr result (AppendsPrefix (W.contents out.old) (W.contents out.new)
        (entries_text P.app P.text P.from_text opening.now [] entries.now)) }
{
    let mut known = note_all(alloc, opening)?;
    let mut config = opening.copy(alloc)?;
    let put = put_entries(alloc, &mut config, &mut known, entries, reports, out);
    drop(config);
    put
}

// Writes the last line: how many entries and reports there are.
fn put_end<W: Write>(
    alloc: Global,
    entries: &[Entry],
    reports: &[Report],
    out: &mut W,
) -> Result<(), PageStop>
    ensures ok { OnOk result (Appends (W.contents out.old) (W.contents out.new)
        (line_text (end_data (length entries.now) (length reports.now)))) }
    ensures err { OnErr result (AppendsPrefix (W.contents out.old) (W.contents out.new)
        (line_text (end_data (length entries.now) (length reports.now)))) }
{
    let line = end_data(alloc, entries.len(), reports.len())?;
    put_line(out, &line)?;
    Ok(())
}

// The last line.
fn end_data(alloc: Global, entries: usize, reports: usize) -> Result<Vec<u8>, AllocError>
    ensures { IfOk result (λ line. line.items ≡ end_data entries reports) }
{
    let mut line = Vec::new(alloc);
    add_parts(
        &mut line,
        &[
            Part::Text(b"end "),
            Part::Number(entries as u64),
            Part::Text(b" "),
            Part::Number(reports as u64),
        ],
    )?;
    Ok(line)
}
