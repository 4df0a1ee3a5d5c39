// The lines of completions.

ghost use Rattle.std.specs.Prelude.{◌≡◌, ◌+◌, ◌<◌, ◌≤◌, IfSome, IsSome, OnErr, OnOk, Some, length, take};
ghost use Rattle.std.specs.Io.KnownBytes.{Appends};
ghost use Rattle.std.specs.Option.{option_map};
ghost use Rattle.action_tables.specs.Written.{AppendsPrefix};
ghost use Rattle.history.specs.Entries.{replayed};
ghost use Rattle.space_time_diagram.specs.Completions.{AreInTurn, IsOpenedBefore, completion, completion_end};
ghost use Rattle.space_time_diagram.specs.Completions.{completion_line, completion_tag, completion_words, completions};
ghost use Rattle.space_time_diagram.specs.Completions.{members, report_words, told_completion};
ghost use Rattle.space_time_diagram.specs.Lanes.{lane_of};

use crate::band::entry_node;
use crate::component::{has_member, put_pieces};
use crate::diagram::DiagramStop;
use crate::page::{MAX_BEFORE, MAX_LANES, MAX_MARKS, right_end, row_y};
use action_tables::{Part, WriteFault, put_parts};
use app_interface::Application;
use history::{Entry, Report, play_all};
use reset_machine::Config;
use std::alloc::Global;
use std::io::Write;
use topology::Topology;

// Writes a line for each of the reports, across the lanes of the component that completed its session, if it has one.
pub fn put_completions<P: Application, W: Write>(
    alloc: Global,
    opening: &Config<P>,
    nodes: &[u32],
    before: u64,
    entries: &[Entry],
    reports: &[Report],
    out: &mut W,
) -> Result<(), DiagramStop>
    requires lanes { length nodes.now ≤ MAX_LANES }
    requires marks { length entries.now ≤ MAX_MARKS }
    requires early { before ≤ MAX_BEFORE }
    requires run { IsSome (replayed P.app P.from_text opening.now entries.now) }
    requires in_turn { AreInTurn 0 (length entries.now) reports.now }
    ensures ok { OnOk result (Appends (W.contents out.old) (W.contents out.new)
        (completions P.app P.from_text nodes.now before opening.now entries.now reports.now)) }
    ensures err { OnErr result (AppendsPrefix (W.contents out.old) (W.contents out.new)
        (completions P.app P.from_text nodes.now before opening.now entries.now reports.now)) }
{
    let mut config = opening.copy(alloc)?;
    let put = put_each(
        alloc,
        opening,
        nodes,
        before,
        entries,
        reports,
        &mut config,
        out,
    );
    drop(config);
    put
}

// Plays the entries from this configuration on, which is the opening, and writes the lines on the way.
fn put_each<P: Application, W: Write>(
    alloc: Global,
    opening: &Config<P>,
    nodes: &[u32],
    before: u64,
    entries: &[Entry],
    reports: &[Report],
    config: &mut Config<P>,
    out: &mut W,
) -> Result<(), DiagramStop>
    requires opening { config.old ≡ opening.now }
    requires lanes { length nodes.now ≤ MAX_LANES }
    requires marks { length entries.now ≤ MAX_MARKS }
    requires early { before ≤ MAX_BEFORE }
    requires run { IsSome (replayed P.app P.from_text opening.now entries.now) }
    requires in_turn { AreInTurn 0 (length entries.now) reports.now }
    ensures ok { OnOk result (Appends (W.contents out.old) (W.contents out.new)
        (completions P.app P.from_text nodes.now before opening.now entries.now reports.now)) }
    ensures err { OnErr result (AppendsPrefix (W.contents out.old) (W.contents out.new)
        (completions P.app P.from_text nodes.now before opening.now entries.now reports.now)) }
{
    let mut played = 0;
    for report in reports {
        put_next(
            alloc, opening, nodes, before, entries, played, *report, config, out,
        )?;
        played = report.finished;
    }
    Ok(())
}

// Plays the entries from so many on to that of the report, and writes its line.
fn put_next<P: Application, W: Write>(
    alloc: Global,
    opening: &Config<P>,
    nodes: &[u32],
    before: u64,
    entries: &[Entry],
    played: usize,
    report: Report,
    config: &mut Config<P>,
    out: &mut W,
) -> Result<(), DiagramStop>
    requires lanes { length nodes.now ≤ MAX_LANES }
    requires marks { length entries.now ≤ MAX_MARKS }
    requires early { before ≤ MAX_BEFORE }
    requires run { IsSome (replayed P.app P.from_text opening.now entries.now) }
    requires here { replayed P.app P.from_text opening.now (take played entries.now) ≡ Some config.old }
    requires later { played < report.finished }
    requires within { report.finished ≤ length entries.now }
    requires opened { IsOpenedBefore report }
    ensures played { OnOk result
        (replayed P.app P.from_text opening.now (take report.finished entries.now) ≡ Some config.new) }
    ensures ok { OnOk result (Appends (W.contents out.old) (W.contents out.new)
        (told_completion P.app P.from_text nodes.now before opening.now entries.now report)) }
    ensures err { OnErr result (AppendsPrefix (W.contents out.old) (W.contents out.new)
        (told_completion P.app P.from_text nodes.now before opening.now entries.now report)) }
{
    play_all(alloc, config, &entries[played..report.finished])?;
    let node = entry_node(&entries[report.finished - 1]);
    put_completion(out, opening, nodes, before, config.topology(), node, report)?;
    Ok(())
}

// Writes where the session of a report was told complete, by this node in this topology, if one of the nodes that have
// a lane is in its component.
fn put_completion<P: Application, W: Write>(
    out: &mut W,
    opening: &Config<P>,
    nodes: &[u32],
    before: u64,
    topology: &Topology,
    node: u32,
    report: Report,
) -> Result<(), WriteFault>
    requires lanes { length nodes.now ≤ MAX_LANES }
    requires early { before ≤ MAX_BEFORE }
    requires within { report.finished ≤ MAX_MARKS }
    requires opened { IsOpenedBefore report }
    ensures ok { OnOk result (Appends (W.contents out.old) (W.contents out.new)
        (completion (lane_of nodes.now opening.now) (length nodes.now) before
        (members nodes.now topology.now node) report)) }
    ensures err { OnErr result (AppendsPrefix (W.contents out.old) (W.contents out.new)
        (completion (lane_of nodes.now opening.now) (length nodes.now) before
        (members nodes.now topology.now node) report)) }
{
    if has_member(topology, node, nodes) {
        put_completion_line(out, opening, nodes, before, topology, node, report)
    } else {
        Ok(())
    }
}

// Writes a line across the lanes of those nodes that are in the component of this one.
fn put_completion_line<P: Application, W: Write>(
    out: &mut W,
    opening: &Config<P>,
    nodes: &[u32],
    before: u64,
    topology: &Topology,
    node: u32,
    report: Report,
) -> Result<(), WriteFault>
    requires lanes { length nodes.now ≤ MAX_LANES }
    requires early { before ≤ MAX_BEFORE }
    requires within { report.finished ≤ MAX_MARKS }
    requires opened { IsOpenedBefore report }
    ensures ok { OnOk result (Appends (W.contents out.old) (W.contents out.new)
        (completion_line (lane_of nodes.now opening.now) (length nodes.now) before
        (members nodes.now topology.now node) report)) }
    ensures err { OnErr result (AppendsPrefix (W.contents out.old) (W.contents out.new)
        (completion_line (lane_of nodes.now opening.now) (length nodes.now) before
        (members nodes.now topology.now node) report)) }
{
    let number = report.number as u64;
    put_tag(out, row_y(report.finished))?;
    put_title(out, before, report)?;
    put_pieces(out, opening, nodes, topology, node)?;
    put_end(out, right_end(nodes.len()), number)
}

// Writes the words of the completion of a report.
fn put_title<W: Write>(out: &mut W, before: u64, report: Report) -> Result<(), WriteFault>
    requires early { before ≤ MAX_BEFORE }
    requires within { report.finished ≤ MAX_MARKS }
    requires opened { IsOpenedBefore report }
    ensures ok { OnOk result (Appends (W.contents out.old) (W.contents out.new) (report_words before report)) }
    ensures err { OnErr result (AppendsPrefix (W.contents out.old) (W.contents out.new) (report_words before report)) }
{
    let opened = opening_number(before, report.opened);
    put_words(
        out,
        report.number as u64,
        opened,
        before + report.finished as u64,
    )
}

// The number of the entry at a position, where so many entries came before the first.
fn opening_number(before: u64, opened: Option<usize>) -> Option<u64>
    requires early { before ≤ MAX_BEFORE }
    requires within { IfSome opened (λ opened. opened ≤ MAX_MARKS) }
    ensures { result ≡ option_map (λ opened. before + opened) opened }
{
    match opened {
        Some(opened) => Some(before + opened as u64),
        None => None,
    }
}

// Writes the tag of a completion, whose row is at y.
#[tactic(auto, unfolding(crate::specs::Completions::completion_tag))]
fn put_tag<W: Write>(out: &mut W, y: u64) -> Result<(), WriteFault>
    ensures ok { OnOk result (Appends (W.contents out.old) (W.contents out.new) (completion_tag y)) }
    ensures err { OnErr result (AppendsPrefix (W.contents out.old) (W.contents out.new) (completion_tag y)) }
{
    put_parts(
        out,
        &[
            Part::Text(b"<g class='completion' transform='translate(0 "),
            Part::Number(y),
            Part::Text(b")'>"),
        ],
    )
}

// Writes the words of a completion, to be read at its line.
#[tactic(auto, unfolding(crate::specs::Completions::completion_words))]
fn put_words<W: Write>(
    out: &mut W,
    session: u64,
    opened: Option<u64>,
    finished: u64,
) -> Result<(), WriteFault>
    ensures ok { OnOk result
        (Appends (W.contents out.old) (W.contents out.new) (completion_words session opened finished)) }
    ensures err { OnErr result
        (AppendsPrefix (W.contents out.old) (W.contents out.new) (completion_words session opened finished)) }
{
    match opened {
        Some(opened) => put_parts(
            out,
            &[
                Part::Text(b"<title>session "),
                Part::Number(session),
                Part::Text(b": opened at "),
                Part::Number(opened),
                Part::Text(b", complete at "),
                Part::Number(finished),
                Part::Text(b"</title>"),
            ],
        ),
        None => put_parts(
            out,
            &[
                Part::Text(b"<title>session "),
                Part::Number(session),
                Part::Text(b": complete at "),
                Part::Number(finished),
                Part::Text(b"</title>"),
            ],
        ),
    }
}

// Writes the session of a completion, right of all lanes, which end at x.
#[tactic(auto, unfolding(crate::specs::Completions::completion_end))]
fn put_end<W: Write>(out: &mut W, x: u64, session: u64) -> Result<(), WriteFault>
    ensures ok { OnOk result (Appends (W.contents out.old) (W.contents out.new) (completion_end x session)) }
    ensures err { OnErr result (AppendsPrefix (W.contents out.old) (W.contents out.new) (completion_end x session)) }
{
    put_parts(
        out,
        &[
            Part::Text(b"<text dx='6' y='15' x='"),
            Part::Number(x),
            Part::Text(b"'>session "),
            Part::Number(session),
            Part::Text(b" complete</text></g>\n"),
        ],
    )
}
