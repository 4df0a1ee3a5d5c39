// The numbers of the nodes, above the first row and above each fortieth.

ghost use Rattle.std.specs.Prelude.{◌≤◌, ◌+◌, ◌/◌, OnErr, OnOk, length};
ghost use Rattle.std.specs.Io.KnownBytes.{Appends};
ghost use Rattle.action_tables.specs.Written.{AppendsPrefix};
ghost use Rattle.space_time_diagram.specs.Headings.{foot_text, heading_text, headings, lane_heading, lane_headings};
ghost use Rattle.space_time_diagram.specs.Lanes.{lane_of};

use crate::lane::lane_of;
use crate::page::{HEADED, MAX_LANES, MAX_MARKS, heading_y, lane_x};
use action_tables::{Part, WriteFault, put_bytes, put_parts};
use app_interface::Application;
use reset_machine::Config;
use std::io::Write;

// Writes what is painted last, over so many rows: the numbers of these nodes, and the last tag.
pub fn put_foot<P: Application, W: Write>(
    out: &mut W,
    opening: &Config<P>,
    nodes: &[u32],
    count: usize,
) -> Result<(), WriteFault>
    requires lanes { length nodes.now ≤ MAX_LANES }
    requires marks { count ≤ MAX_MARKS }
    ensures ok { OnOk result (Appends (W.contents out.old) (W.contents out.new)
        (foot_text (lane_of nodes.now opening.now) nodes.now count)) }
    ensures err { OnErr result (AppendsPrefix (W.contents out.old) (W.contents out.new)
        (foot_text (lane_of nodes.now opening.now) nodes.now count)) }
{
    put_headings(out, opening, nodes, count / HEADED + 1)?;
    put_bytes(out, b"</svg>\n")
}

// Writes the numbers of these nodes so many times, from above row 0 on.
fn put_headings<P: Application, W: Write>(
    out: &mut W,
    opening: &Config<P>,
    nodes: &[u32],
    times: usize,
) -> Result<(), WriteFault>
    requires lanes { length nodes.now ≤ MAX_LANES }
    requires few { times ≤ MAX_MARKS / HEADED + 1 }
    ensures ok { OnOk result (Appends (W.contents out.old) (W.contents out.new)
        (headings (lane_of nodes.now opening.now) nodes.now times)) }
    ensures err { OnErr result (AppendsPrefix (W.contents out.old) (W.contents out.new)
        (headings (lane_of nodes.now opening.now) nodes.now times)) }
{
    for number in 0..times {
        put_lane_headings(out, opening, nodes, heading_y(number))?;
    }
    Ok(())
}

// Writes the numbers of these nodes at y, on their lanes.
fn put_lane_headings<P: Application, W: Write>(
    out: &mut W,
    opening: &Config<P>,
    nodes: &[u32],
    y: u64,
) -> Result<(), WriteFault>
    requires { length nodes.now ≤ MAX_LANES }
    ensures ok { OnOk result (Appends (W.contents out.old) (W.contents out.new)
        (lane_headings (lane_of nodes.now opening.now) nodes.now y)) }
    ensures err { OnErr result (AppendsPrefix (W.contents out.old) (W.contents out.new)
        (lane_headings (lane_of nodes.now opening.now) nodes.now y)) }
{
    for id in nodes {
        put_lane_heading(out, opening, nodes, y, *id)?;
    }
    Ok(())
}

// Writes the number of a node at y, on its lane.
fn put_lane_heading<P: Application, W: Write>(
    out: &mut W,
    opening: &Config<P>,
    nodes: &[u32],
    y: u64,
    id: u32,
) -> Result<(), WriteFault>
    requires { length nodes.now ≤ MAX_LANES }
    ensures ok { OnOk result (Appends (W.contents out.old) (W.contents out.new)
        (lane_heading (lane_of nodes.now opening.now) y id)) }
    ensures err { OnErr result (AppendsPrefix (W.contents out.old) (W.contents out.new)
        (lane_heading (lane_of nodes.now opening.now) y id)) }
{
    put_heading(out, lane_x(lane_of(opening, nodes, id)), y, id as u64)
}

// Writes the number of a node at x and y.
#[tactic(auto, unfolding(crate::specs::Headings::heading_text))]
fn put_heading<W: Write>(out: &mut W, x: u64, y: u64, id: u64) -> Result<(), WriteFault>
    ensures ok { OnOk result (Appends (W.contents out.old) (W.contents out.new) (heading_text x y id)) }
    ensures err { OnErr result (AppendsPrefix (W.contents out.old) (W.contents out.new) (heading_text x y id)) }
{
    put_parts(
        out,
        &[
            Part::Text(b"<text class='lane' x='"),
            Part::Number(x),
            Part::Text(b"' y='"),
            Part::Number(y),
            Part::Text(b"'>"),
            Part::Number(id),
            Part::Text(b"</text>\n"),
        ],
    )
}
