// The parts above the lanes.

ghost use Rattle.std.specs.Prelude.{◌≤◌, OnErr, OnOk};
ghost use Rattle.std.specs.Io.KnownBytes.{Appends};
ghost use Rattle.action_tables.specs.Written.{AppendsPrefix};
ghost use Rattle.space_time_diagram.specs.Frame.{first_tag, first_tag_text, head_text, legend, shapes, style};

use crate::page::{MAX_LANES, MAX_MARKS, page_height, page_width};
use action_tables::{Part, WriteFault, put_bytes, put_parts};
use std::io::Write;

// The colours, for light and for dark.
const STYLE: &[u8] = b"\
    <style>\n\
    svg{color:#1f2328;font:11px system-ui,sans-serif}text{fill:currentColor}.ground{fill:#fff}\n\
    .title{font-size:13px;font-weight:600}.lane{font-size:10px;font-weight:600;text-anchor:middle}\n\
    .lane{stroke:#fff;stroke-width:4px;paint-order:stroke}\n\
    .place{font-size:9px;text-anchor:end}.session{font-size:8px;text-anchor:end}\n\
    .s0{fill:#e9ecef}.s1{fill:#cfe5f5}.s2{fill:#fae3b4}\n\
    .s3{fill:#c9ebdd}.s4{fill:#f3d3e4}.s5{fill:#f3efb0}\n\
    .normal{fill:#9aa3ad}.initiate{fill:#e69f00}.reset{fill:#0072b2}\n\
    .form{stroke:#1f2328}.letter{font-size:9px;font-weight:700;text-anchor:middle;fill:#1f2328}\n\
    .ask{fill:#e69f00}.wave{fill:#56b4e9}.done{fill:#009e73}\n\
    .mended{fill:#cc79a7}.bad{fill:#d55e00}.plain{fill:#fff}\n\
    .down{fill:url(#hatch)}.stripe{stroke:#8b949e;stroke-width:2}.link path{stroke:#d55e00;stroke-width:1.5}\n\
    .completion path{stroke:#009e73;stroke-width:2;stroke-dasharray:5 3}\n\
    .completion text{font-weight:600}\n\
    @media(prefers-color-scheme:dark){svg{color:#e6edf3}.ground{fill:#14171c}\n\
    .s0{fill:#262b33}.s1{fill:#14344f}.s2{fill:#4a3a12}\n\
    .s3{fill:#124030}.s4{fill:#49293e}.s5{fill:#42401a}\n\
    .normal{fill:#6e7681}.form{stroke:#e6edf3}.lane{stroke:#14171c}}\n\
    </style>\n\
";

// The forms of the marks, by their kinds.
const SHAPES: &[u8] = b"\
    <defs>\n\
    <g id='tree'><rect x='-6' y='-6' width='12' height='12' class='form plain'/>\n\
    <text class='letter' y='3'>T</text></g>\n\
    <g id='request'><path d='M0-9L9 6H-9Z' class='form ask'/>\n\
    <text class='letter' y='4'>Q</text></g>\n\
    <g id='relay'><path d='M0-9L9 6H-9Z' class='form ask'/>\n\
    <text class='letter' y='4'>L</text></g>\n\
    <g id='open'><circle r='9' class='form wave'/>\n\
    <text class='letter' y='3'>O</text></g>\n\
    <g id='join'><circle r='7' class='form wave'/>\n\
    <text class='letter' y='3'>J</text></g>\n\
    <g id='finish'><circle r='7' class='form done'/>\n\
    <text class='letter' y='3'>F</text></g>\n\
    <g id='mend'><circle r='7' class='form mended'/>\n\
    <text class='letter' y='3'>M</text></g>\n\
    <g id='action'><circle r='6' class='form plain'/>\n\
    <text class='letter' y='3'>A</text></g>\n\
    <g id='fault'><path d='M0-9L9 0L0 9L-9 0Z' class='form bad'/>\n\
    <text class='letter' y='3'>!</text></g>\n\
    <pattern id='hatch' width='8' height='8' patternUnits='userSpaceOnUse'>\n\
    <rect class='ground' width='8' height='8'/><path d='M-2 2L2-2M0 8L8 0M6 10L10 6' class='stripe'/></pattern>\n\
    </defs>\n\
";

// What the bands and the marks stand for, above the lanes.
const LEGEND: &[u8] = b"\
    <g class='legend' transform='translate(16 48)'>\n\
    <rect class='normal' x='3' y='-8' width='10' height='16'/>\n\
    <text x='26' y='4'>normal: knows of no reset</text>\n\
    <rect class='initiate' x='3' y='12' width='10' height='16'/>\n\
    <text x='26' y='24'>initiate: has asked for a reset</text>\n\
    <rect class='reset' x='3' y='32' width='10' height='16'/>\n\
    <text x='26' y='44'>reset: waits for its children</text>\n\
    <rect class='s0' y='52' width='8' height='16'/>\n\
    <rect class='s1' x='8' y='52' width='8' height='16'/>\n\
    <text x='26' y='64'>its session, a colour behind it</text>\n\
    <rect class='down' y='72' width='16' height='16'/>\n\
    <text x='26' y='84'>the node is down</text>\n\
    <g class='completion'><path d='M-4 100H20'/></g>\n\
    <text x='26' y='104'>a session is told complete</text>\n\
    <g class='link'><path d='M-4 120H18'/><circle class='form bad' cx='16' cy='120' r='4'/></g>\n\
    <text x='26' y='124'>other end of a link's fault</text>\n\
    <use href='#request' x='228' y='0'/><text x='246' y='4'>request</text>\n\
    <use href='#relay' x='228' y='20'/><text x='246' y='24'>relay of a request</text>\n\
    <use href='#open' x='228' y='40'/><text x='246' y='44'>open a session</text>\n\
    <use href='#join' x='228' y='60'/><text x='246' y='64'>join a session</text>\n\
    <use href='#finish' x='228' y='80'/><text x='246' y='84'>finish</text>\n\
    <use href='#mend' x='228' y='100'/><text x='246' y='104'>mend the wave registers</text>\n\
    <use href='#tree' x='228' y='120'/><text x='246' y='124'>claim, follow or adopt</text>\n\
    <use href='#action' x='228' y='140'/><text x='246' y='144'>action of the application</text>\n\
    <use href='#fault' x='228' y='160'/><text x='246' y='164'>fault</text>\n\
    </g>\n\
";

// Writes the parts above so many lanes.
pub fn put_head<W: Write>(out: &mut W, lanes: usize, count: usize) -> Result<(), WriteFault>
    requires lanes { lanes ≤ MAX_LANES }
    requires marks { count ≤ MAX_MARKS }
    ensures ok { OnOk result (Appends (W.contents out.old) (W.contents out.new) (head_text lanes count)) }
    ensures err { OnErr result (AppendsPrefix (W.contents out.old) (W.contents out.new) (head_text lanes count)) }
{
    put_first_tag(out, lanes, count)?;
    put_style(out)?;
    put_shapes(out)?;
    put_legend(out)
}

// Writes the first tag, with the size of the page of so many lanes and entries.
fn put_first_tag<W: Write>(out: &mut W, lanes: usize, count: usize) -> Result<(), WriteFault>
    requires lanes { lanes ≤ MAX_LANES }
    requires marks { count ≤ MAX_MARKS }
    ensures ok { OnOk result (Appends (W.contents out.old) (W.contents out.new) (first_tag lanes count)) }
    ensures err { OnErr result (AppendsPrefix (W.contents out.old) (W.contents out.new) (first_tag lanes count)) }
{
    put_first_tag_text(
        out,
        page_width(lanes),
        page_height(count),
        lanes as u64,
        count as u64,
    )
}

// Writes the first tag, with the size of the page, its ground, and what is on it in words.
#[tactic(auto, unfolding(crate::specs::Frame::first_tag_text))]
fn put_first_tag_text<W: Write>(
    out: &mut W,
    width: u64,
    height: u64,
    lanes: u64,
    count: u64,
) -> Result<(), WriteFault>
    ensures ok { OnOk result
        (Appends (W.contents out.old) (W.contents out.new) (first_tag_text width height lanes count)) }
    ensures err { OnErr result
        (AppendsPrefix (W.contents out.old) (W.contents out.new) (first_tag_text width height lanes count)) }
{
    put_parts(
        out,
        &[
            Part::Text(b"<svg xmlns='http://www.w3.org/2000/svg' viewBox='0 0 "),
            Part::Number(width),
            Part::Text(b" "),
            Part::Number(height),
            Part::Text(b"' width='"),
            Part::Number(width),
            Part::Text(b"' height='"),
            Part::Number(height),
            Part::Text(b"' role='img' aria-label='space-time diagram of a history'>\n"),
            Part::Text(
                b"<rect class='ground' width='100%' height='100%'/>\n<text class='title' x='16' y='24'>entries: ",
            ),
            Part::Number(count),
            Part::Text(b", nodes: "),
            Part::Number(lanes),
            Part::Text(b"</text>\n"),
        ],
    )
}

// Writes the colours, for light and for dark.
#[tactic(auto, unfolding(crate::specs::Frame::style))]
fn put_style<W: Write>(out: &mut W) -> Result<(), WriteFault>
    ensures ok { OnOk result (Appends (W.contents out.old) (W.contents out.new) style) }
    ensures err { OnErr result (AppendsPrefix (W.contents out.old) (W.contents out.new) style) }
{
    put_bytes(out, STYLE)
}

// Writes the forms of the marks, by their kinds.
#[tactic(auto, unfolding(crate::specs::Frame::shapes))]
fn put_shapes<W: Write>(out: &mut W) -> Result<(), WriteFault>
    ensures ok { OnOk result (Appends (W.contents out.old) (W.contents out.new) shapes) }
    ensures err { OnErr result (AppendsPrefix (W.contents out.old) (W.contents out.new) shapes) }
{
    put_bytes(out, SHAPES)
}

// Writes what the bands and the marks stand for.
#[tactic(auto, unfolding(crate::specs::Frame::legend))]
fn put_legend<W: Write>(out: &mut W) -> Result<(), WriteFault>
    ensures ok { OnOk result (Appends (W.contents out.old) (W.contents out.new) legend) }
    ensures err { OnErr result (AppendsPrefix (W.contents out.old) (W.contents out.new) legend) }
{
    put_bytes(out, LEGEND)
}
