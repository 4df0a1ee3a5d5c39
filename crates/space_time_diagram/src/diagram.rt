// Space-time diagrams of histories.

ghost use Rattle.std.specs.Prelude.{◌≡◌, ◌≤◌, IsSome, OnErr, OnOk, length};
ghost use Rattle.std.specs.Io.KnownBytes.{Appends};
ghost use Rattle.action_tables.specs.Written.{AppendsPrefix};
ghost use Rattle.history.specs.Entries.{replayed};
ghost use Rattle.history.specs.Reports.{reports_of};
ghost use Rattle.space_time_diagram.specs.Completions.{AreInTurn, completions};
ghost use Rattle.space_time_diagram.specs.Diagram.{diagram_text, page_text};
ghost use Rattle.space_time_diagram.specs.Lanes.{lane_of, own_lane};
ghost use Rattle.space_time_diagram.specs.Marks.{marks_from};
ghost use Rattle.space_time_diagram.specs.declared.diagram.DiagramStop.TheVariants.{NoMemory, WriteFailed};

use crate::band::{Band, bands_of, put_bands};
use crate::completion::put_completions;
use crate::frame::put_head;
use crate::heading::put_foot;
use crate::mark::put_marks;
use crate::page::{MAX_BEFORE, MAX_LANES, MAX_MARKS};
use action_tables::WriteFault;
use app_interface::Application;
use history::{Entry, Report};
use reset_machine::Config;
use std::alloc::{AllocError, Global};
use std::io::Write;

/// What cut a picture short. What was written until then is a prefix of it.
#[derive(Clone, Copy, Debug, PartialEq, Eq)]
pub enum DiagramStop {
    /// The writer failed.
    WriteFailed,
    /// An allocation failed.
    NoMemory,
}

impl From<WriteFault> for DiagramStop {
    ghost from_gives = { λ _ s. s ≡ WriteFailed };

    fn from(_fault: WriteFault) -> DiagramStop {
        DiagramStop::WriteFailed
    }
}

impl From<AllocError> for DiagramStop {
    ghost from_gives = { λ _ s. s ≡ NoMemory };

    fn from(_error: AllocError) -> DiagramStop {
        DiagramStop::NoMemory
    }
}

/// Writes the picture of entries that are a run from the opening, and of what they report: an SVG by itself, without
/// scripts and without references to anything outside of it.
///
/// It has lanes for these nodes only, and no mark, no link and no completion of others. The numbers of the entries go
/// on from those of the entries that came before. It is of at most `MAX_LANES` nodes and `MAX_MARKS` entries, and at
/// most `MAX_BEFORE` came before these. What it holds at a time is a band an entry, a copy of the opening, and no text
/// but the line of one entry.
pub fn put_diagram<P: Application, W: Write>(
    alloc: Global,
    opening: &Config<P>,
    nodes: &[u32],
    before: u64,
    entries: &[Entry],
    reports: &[Report],
    out: &mut W,
) -> Result<(), DiagramStop>
    requires lanes { length nodes.now ≤ MAX_LANES }
    requires marks { length entries.now ≤ MAX_MARKS }
    requires early { before ≤ MAX_BEFORE }
    requires run { IsSome (replayed P.app P.from_text opening.now entries.now) }
    requires reports { reports.now ≡ reports_of P.app P.from_text opening.now entries.now }
    ensures ok { OnOk result
        (Appends (W.contents out.old) (W.contents out.new)
        (diagram_text P.app P.from_text nodes.now before opening.now entries.now reports.now)) }
    ensures err { OnErr result
        (AppendsPrefix (W.contents out.old) (W.contents out.new)
        (diagram_text P.app P.from_text nodes.now before opening.now entries.now reports.now)) }
{
    let bands = bands_of(alloc, opening, nodes, entries)?;
    put_page(alloc, opening, nodes, before, &bands, entries, reports, out)
}

// Writes the picture of these nodes, with these bands, and of these entries and reports.
fn put_page<P: Application, W: Write>(
    alloc: Global,
    opening: &Config<P>,
    nodes: &[u32],
    before: u64,
    bands: &[Band],
    entries: &[Entry],
    reports: &[Report],
    out: &mut W,
) -> Result<(), DiagramStop>
    requires lanes { length nodes.now ≤ MAX_LANES }
    requires marks { length entries.now ≤ MAX_MARKS }
    requires early { before ≤ MAX_BEFORE }
    requires run { IsSome (replayed P.app P.from_text opening.now entries.now) }
    requires in_turn { AreInTurn 0 (length entries.now) reports.now }
    ensures ok { OnOk result
        (Appends (W.contents out.old) (W.contents out.new)
        (page_text (lane_of nodes.now opening.now) nodes.now (length entries.now) bands.now
        (marks_from (own_lane nodes.now opening.now) before 1 entries.now)
        (completions P.app P.from_text nodes.now before opening.now entries.now reports.now))) }
    ensures err { OnErr result
        (AppendsPrefix (W.contents out.old) (W.contents out.new)
        (page_text (lane_of nodes.now opening.now) nodes.now (length entries.now) bands.now
        (marks_from (own_lane nodes.now opening.now) before 1 entries.now)
        (completions P.app P.from_text nodes.now before opening.now entries.now reports.now))) }
{
    put_head(out, nodes.len(), entries.len())?;
    put_bands(out, bands)?;
    put_marks(alloc, opening, nodes, before, entries, out)?;
    put_completions(alloc, opening, nodes, before, entries, reports, out)?;
    put_foot(out, opening, nodes, entries.len())?;
    Ok(())
}
