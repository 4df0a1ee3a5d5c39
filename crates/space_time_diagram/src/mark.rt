// The marks of entries.

ghost use Rattle.std.specs.Prelude.{◌≡◌, ◌≤◌, IfSome, OnErr, OnOk, Some, length};
ghost use Rattle.std.specs.Io.KnownBytes.{Appends};
ghost use Rattle.std.specs.Option.{option_and_then};
ghost use Rattle.action_tables.specs.Written.{AppendsPrefix};
ghost use Rattle.space_time_diagram.specs.Lanes.{own_lane};
ghost use Rattle.space_time_diagram.specs.Marks.{entry_end, entry_kind, event_kind, fault_end, link_between, link_text};
ghost use Rattle.space_time_diagram.specs.Marks.{mark, mark_on, mark_text, marks_from, number_text, row_text};

use crate::band::entry_node;
use crate::diagram::DiagramStop;
use crate::escape::escaped_line;
use crate::lane::own_lane;
use crate::page::{MAX_BEFORE, MAX_LANES, MAX_MARKS, lane_x, row_y};
use action_tables::{Part, WriteFault, put_parts};
use app_interface::Application;
use fault_inject::Fault;
use history::Entry;
use reset_machine::{Config, Event};
use std::alloc::Global;
use std::io::Write;

// Writes the marks of the entries, before which so many came.
pub fn put_marks<P: Application, W: Write>(
    alloc: Global,
    opening: &Config<P>,
    nodes: &[u32],
    before: u64,
    entries: &[Entry],
    out: &mut W,
) -> Result<(), DiagramStop>
    requires lanes { length nodes.now ≤ MAX_LANES }
    requires marks { length entries.now ≤ MAX_MARKS }
    requires early { before ≤ MAX_BEFORE }
    ensures ok { OnOk result (Appends (W.contents out.old) (W.contents out.new)
        (marks_from (own_lane nodes.now opening.now) before 1 entries.now)) }
    ensures err { OnErr result (AppendsPrefix (W.contents out.old) (W.contents out.new)
        (marks_from (own_lane nodes.now opening.now) before 1 entries.now)) }
{
    let mut place = 0;
    for entry in entries {
        place += 1;
        put_mark(alloc, opening, nodes, before, place, entry, out)?;
    }
    Ok(())
}

// Writes the mark of the entry at this position, and its number.
fn put_mark<P: Application, W: Write>(
    alloc: Global,
    opening: &Config<P>,
    nodes: &[u32],
    before: u64,
    place: usize,
    entry: &Entry,
    out: &mut W,
) -> Result<(), DiagramStop>
    requires lanes { length nodes.now ≤ MAX_LANES }
    requires early { before ≤ MAX_BEFORE }
    requires within { place ≤ MAX_MARKS }
    ensures ok { OnOk result (Appends (W.contents out.old) (W.contents out.new)
        (mark (own_lane nodes.now opening.now) before place entry.now)) }
    ensures err { OnErr result (AppendsPrefix (W.contents out.old) (W.contents out.new)
        (mark (own_lane nodes.now opening.now) before place entry.now)) }
{
    let line = escaped_line(alloc, entry)?;
    let kind = entry_kind(entry).as_bytes();
    let lane = own_lane(opening, nodes, entry_node(entry));
    let end = end_lane(opening, nodes, entry);
    let number = before + place as u64;
    put_row(out, kind, lane, end, row_y(place), number, &line)?;
    Ok(())
}

// The lane of the other end of the link that an entry takes out or puts in, if that has one.
fn end_lane<P: Application>(opening: &Config<P>, nodes: &[u32], entry: &Entry) -> Option<usize>
    ensures lane { result ≡ option_and_then (own_lane nodes.now opening.now) (entry_end entry.now) }
    ensures within { IfSome result (λ lane. lane ≤ length nodes.now) }
{
    match entry_end(entry) {
        Some(end) => own_lane(opening, nodes, end),
        None => None,
    }
}

// Writes what the row at y of an entry has, of this kind and number and with this line.
fn put_row<'t, W: Write>(
    out: &mut W,
    kind: &'t [u8],
    lane: Option<usize>,
    end: Option<usize>,
    y: u64,
    number: u64,
    line: &'t [u8],
) -> Result<(), WriteFault>
    requires lane { IfSome lane (λ lane. lane ≤ MAX_LANES) }
    requires end { IfSome end (λ end. end ≤ MAX_LANES) }
    ensures ok { OnOk result
        (Appends (W.contents out.old) (W.contents out.new) (row_text kind.now lane end y number line.now)) }
    ensures err { OnErr result
        (AppendsPrefix (W.contents out.old) (W.contents out.new) (row_text kind.now lane end y number line.now)) }
{
    put_link(out, lane, end, y, number, line)?;
    put_mark_on(out, lane, kind, y, number, line)?;
    put_number_text(out, y, number)
}

// Writes a line at y between two lanes, if there are both, with the line of its entry.
fn put_link<'t, W: Write>(
    out: &mut W,
    lane: Option<usize>,
    end: Option<usize>,
    y: u64,
    number: u64,
    line: &'t [u8],
) -> Result<(), WriteFault>
    requires lane { IfSome lane (λ lane. lane ≤ MAX_LANES) }
    requires end { IfSome end (λ end. end ≤ MAX_LANES) }
    ensures ok { OnOk result
        (Appends (W.contents out.old) (W.contents out.new) (link_between lane end y number line.now)) }
    ensures err { OnErr result
        (AppendsPrefix (W.contents out.old) (W.contents out.new) (link_between lane end y number line.now)) }
{
    match lane {
        Some(lane) => put_link_from(out, lane, end, y, number, line),
        None => Ok(()),
    }
}

// Writes a line at y from this lane to the other one, if there is one.
fn put_link_from<'t, W: Write>(
    out: &mut W,
    lane: usize,
    end: Option<usize>,
    y: u64,
    number: u64,
    line: &'t [u8],
) -> Result<(), WriteFault>
    requires lane { lane ≤ MAX_LANES }
    requires end { IfSome end (λ end. end ≤ MAX_LANES) }
    ensures ok { OnOk result
        (Appends (W.contents out.old) (W.contents out.new) (link_between (Some lane) end y number line.now)) }
    ensures err { OnErr result
        (AppendsPrefix (W.contents out.old) (W.contents out.new) (link_between (Some lane) end y number line.now)) }
{
    match end {
        Some(end) => put_link_text(out, lane_x(lane), lane_x(end), y, number, line),
        None => Ok(()),
    }
}

// Writes a line at y from x to the other end, where it has a small mark.
#[tactic(auto, unfolding(crate::specs::Marks::link_text))]
fn put_link_text<'t, W: Write>(
    out: &mut W,
    x: u64,
    end: u64,
    y: u64,
    number: u64,
    line: &'t [u8],
) -> Result<(), WriteFault>
    ensures ok { OnOk result (Appends (W.contents out.old) (W.contents out.new) (link_text x end y number line.now)) }
    ensures err { OnErr result
        (AppendsPrefix (W.contents out.old) (W.contents out.new) (link_text x end y number line.now)) }
{
    put_parts(
        out,
        &[
            Part::Text(b"<g class='link'><title>"),
            Part::Number(number),
            Part::Text(b": "),
            Part::Text(line),
            Part::Text(b"</title><path d='M"),
            Part::Number(x),
            Part::Text(b" "),
            Part::Number(y),
            Part::Text(b"H"),
            Part::Number(end),
            Part::Text(b"'/><circle class='form bad' cx='"),
            Part::Number(end),
            Part::Text(b"' cy='"),
            Part::Number(y),
            Part::Text(b"' r='4'/></g>\n"),
        ],
    )
}

// The other end of the link that an entry takes out or puts in.
fn entry_end(entry: &Entry) -> Option<u32>
    ensures { result ≡ entry_end entry.now }
{
    match entry {
        Entry::Step(_) => None,
        Entry::Disturbed(fault) => fault_end(fault),
    }
}

// The other end of the link of a fault: the one that it names last.
fn fault_end(fault: &Fault) -> Option<u32>
    ensures { result ≡ fault_end fault.now }
{
    match fault {
        Fault::LinkDown { b, .. } | Fault::LinkUp { b, .. } => Some(*b),
        _ => None,
    }
}

// Writes a mark at y on a lane, if there is one, of this kind, with the line of its entry.
fn put_mark_on<'t, W: Write>(
    out: &mut W,
    lane: Option<usize>,
    kind: &'t [u8],
    y: u64,
    number: u64,
    line: &'t [u8],
) -> Result<(), WriteFault>
    requires { IfSome lane (λ lane. lane ≤ MAX_LANES) }
    ensures ok { OnOk result
        (Appends (W.contents out.old) (W.contents out.new) (mark_on lane kind.now y number line.now)) }
    ensures err { OnErr result
        (AppendsPrefix (W.contents out.old) (W.contents out.new) (mark_on lane kind.now y number line.now)) }
{
    match lane {
        Some(lane) => put_mark_text(out, kind, lane_x(lane), y, number, line),
        None => Ok(()),
    }
}

// Writes a mark at x and y, of this kind, with the number and the line of its entry.
#[tactic(auto, unfolding(crate::specs::Marks::mark_text))]
fn put_mark_text<'t, W: Write>(
    out: &mut W,
    kind: &'t [u8],
    x: u64,
    y: u64,
    number: u64,
    line: &'t [u8],
) -> Result<(), WriteFault>
    ensures ok { OnOk result
        (Appends (W.contents out.old) (W.contents out.new) (mark_text kind.now x y number line.now)) }
    ensures err { OnErr result
        (AppendsPrefix (W.contents out.old) (W.contents out.new) (mark_text kind.now x y number line.now)) }
{
    put_parts(
        out,
        &[
            Part::Text(b"<g class='mark "),
            Part::Text(kind),
            Part::Text(b"' transform='translate("),
            Part::Number(x),
            Part::Text(b" "),
            Part::Number(y),
            Part::Text(b")'><title>"),
            Part::Number(number),
            Part::Text(b": "),
            Part::Text(line),
            Part::Text(b"</title><use href='#"),
            Part::Text(kind),
            Part::Text(b"'/></g>\n"),
        ],
    )
}

// Writes the number of an entry at y, left of all lanes.
#[tactic(auto, unfolding(crate::specs::Marks::number_text))]
fn put_number_text<W: Write>(out: &mut W, y: u64, number: u64) -> Result<(), WriteFault>
    ensures ok { OnOk result (Appends (W.contents out.old) (W.contents out.new) (number_text y number)) }
    ensures err { OnErr result (AppendsPrefix (W.contents out.old) (W.contents out.new) (number_text y number)) }
{
    put_parts(
        out,
        &[
            Part::Text(b"<text class='place' x='36' dy='3' y='"),
            Part::Number(y),
            Part::Text(b"'>"),
            Part::Number(number),
            Part::Text(b"</text>\n"),
        ],
    )
}

// The kind of an entry, by which its mark has its colour, its form and its letter.
fn entry_kind(entry: &Entry) -> &'static str
    ensures { result.now ≡ entry_kind entry.now }
{
    match entry {
        Entry::Step(event) => event_kind(*event),
        Entry::Disturbed(_) => "fault",
    }
}

// The kind of an event.
fn event_kind(event: Event) -> &'static str
    ensures { result.now ≡ event_kind event }
{
    match event {
        Event::Claim { .. } | Event::Follow { .. } | Event::Adopt { .. } => "tree",
        Event::Request { .. } => "request",
        Event::Relay { .. } => "relay",
        Event::Open { .. } => "open",
        Event::Join { .. } => "join",
        Event::Finish { .. } => "finish",
        Event::Mend { .. } => "mend",
        Event::Act { .. } => "action",
    }
}
