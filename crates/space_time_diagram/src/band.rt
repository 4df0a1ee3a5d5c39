// The bands: what the wave registers of a node are, from the entry that left them on, or that it is down.

ghost use Rattle.std.specs.Prelude.{◌≡◌, ◌++◌, ◌≤◌, IfOk, IfSome, IsSome, OnErr, OnOk, length, map};
ghost use Rattle.std.specs.Io.KnownBytes.{Appends};
ghost use Rattle.action_tables.specs.Written.{AppendsPrefix};
ghost use Rattle.history.specs.Entries.{replayed};
ghost use Rattle.space_time_diagram.specs.Bands.{band, band_text, bands_from, bands_of, bands_text, begun_band};
ghost use Rattle.space_time_diagram.specs.Bands.{down_text, entry_node, fault_node, opening_band, phase_band_text};
ghost use Rattle.space_time_diagram.specs.Bands.{shown_of};
ghost use Rattle.space_time_diagram.specs.Lanes.{lane_of, own_lane};

use crate::lane::{lane_of, own_lane};
use crate::page::{MAX_LANES, MAX_MARKS, height_below, lane_x, row_y};
use action_tables::{Part, WriteFault, put_parts};
use app_interface::Application;
use fault_inject::Fault;
use history::{Entry, play};
use reset_machine::Config;
use std::alloc::{AllocError, Global};
use std::io::Write;
use wave_layer::WaveRegs;

// A band: where it is on the page, and what it shows, which is nothing of a node that is down. It reaches to below the
// last entry, and a later band of its node is painted over it.
#[derive(Clone, Copy)]
pub struct Band {
    pub x: u64,
    pub y: u64,
    pub height: u64,
    pub node: u32,
    pub shown: Option<WaveRegs>,
}

// The node on whose lane an entry stands.
pub fn entry_node(entry: &Entry) -> u32
    ensures { result ≡ entry_node entry.now }
{
    match entry {
        Entry::Step(event) => event.node(),
        Entry::Disturbed(fault) => fault_node(fault),
    }
}

// The node on whose lane a fault stands: its own, and of a link the first end that it names.
fn fault_node(fault: &Fault) -> u32
    ensures { result ≡ fault_node fault.now }
{
    match fault {
        Fault::SetTree { at, .. } | Fault::SetWave { at, .. } | Fault::SetLocal { at, .. } => *at,
        Fault::NodeDown { at } | Fault::NodeUp { at } => *at,
        Fault::LinkDown { a, .. } | Fault::LinkUp { a, .. } => *a,
    }
}

// The bands of a picture of these nodes, in the order in which they are painted.
pub fn bands_of<P: Application>(
    alloc: Global,
    opening: &Config<P>,
    nodes: &[u32],
    entries: &[Entry],
) -> Result<Vec<Band>, AllocError>
    requires lanes { length nodes.now ≤ MAX_LANES }
    requires marks { length entries.now ≤ MAX_MARKS }
    requires run { IsSome (replayed P.app P.from_text opening.now entries.now) }
    ensures { IfOk result (λ bands. bands.items ≡ bands_of P.app P.from_text nodes.now opening.now entries.now) }
{
    let mut bands = opening_bands(alloc, opening, nodes, entries.len())?;
    let mut config = opening.copy(alloc)?;
    let added = add_bands(alloc, opening, nodes, entries, &mut config, &mut bands);
    drop(config);
    added?;
    Ok(bands)
}

// Plays the entries from this configuration on, and adds the band of each whose node has a lane.
fn add_bands<P: Application>(
    alloc: Global,
    opening: &Config<P>,
    nodes: &[u32],
    entries: &[Entry],
    config: &mut Config<P>,
    bands: &mut Vec<Band>,
) -> Result<(), AllocError>
    requires lanes { length nodes.now ≤ MAX_LANES }
    requires marks { length entries.now ≤ MAX_MARKS }
    requires run { IsSome (replayed P.app P.from_text config.old entries.now) }
    ensures { OnOk result (bands.new.items ≡ bands.old.items
        ++ bands_from P.app P.from_text (own_lane nodes.now opening.now) (length entries.now) config.old 1
        entries.now) }
{
    let mut place = 0;
    for entry in entries {
        place += 1;
        play(alloc, config, entry)?;
        let node = entry_node(entry);
        let lane = own_lane(opening, nodes, node);
        add_band(config, lane, entries.len(), place, node, bands)?;
    }
    Ok(())
}

// Adds the band that an entry begins at its node, if that has a lane.
fn add_band<P: Application>(
    config: &Config<P>,
    lane: Option<usize>,
    count: usize,
    place: usize,
    node: u32,
    bands: &mut Vec<Band>,
) -> Result<(), AllocError>
    requires lanes { IfSome lane (λ lane. lane ≤ MAX_LANES) }
    requires marks { count ≤ MAX_MARKS }
    requires within { place ≤ count }
    ensures { OnOk result
        (bands.new.items ≡ bands.old.items ++ begun_band lane count place node (shown_of config.now node)) }
{
    match lane {
        Some(lane) => {
            bands.push(band_at(config, lane, count, place, node))?;
            Ok(())
        }
        None => Ok(()),
    }
}

// The bands of these nodes in the opening.
fn opening_bands<P: Application>(
    alloc: Global,
    opening: &Config<P>,
    nodes: &[u32],
    count: usize,
) -> Result<Vec<Band>, AllocError>
    requires lanes { length nodes.now ≤ MAX_LANES }
    requires marks { count ≤ MAX_MARKS }
    ensures { IfOk result (λ bands. bands.items ≡ map (opening_band nodes.now opening.now count) nodes.now) }
{
    let mut bands = Vec::new(alloc);
    for id in nodes {
        let lane = lane_of(opening, nodes, *id);
        bands.push(band_at(opening, lane, count, 0, *id))?;
    }
    Ok(bands)
}

// The band of a node on this lane, from the row of a position on, with what it shows in this configuration.
fn band_at<P: Application>(
    config: &Config<P>,
    lane: usize,
    count: usize,
    place: usize,
    node: u32,
) -> Band
    requires lanes { lane ≤ MAX_LANES }
    requires marks { count ≤ MAX_MARKS }
    requires within { place ≤ count }
    ensures { result ≡ band lane count place node (shown_of config.now node) }
{
    Band {
        x: lane_x(lane),
        y: row_y(place),
        height: height_below(count, place),
        node,
        shown: shown_of(config, node),
    }
}

// The wave registers of a node, and None while it is down.
fn shown_of<P: Application>(config: &Config<P>, node: u32) -> Option<WaveRegs>
    ensures { result ≡ shown_of config.now node }
{
    config.wave_at(node)
}

// Writes the bands.
pub fn put_bands<W: Write>(out: &mut W, bands: &[Band]) -> Result<(), WriteFault>
    ensures ok { OnOk result (Appends (W.contents out.old) (W.contents out.new) (bands_text bands.now)) }
    ensures err { OnErr result (AppendsPrefix (W.contents out.old) (W.contents out.new) (bands_text bands.now)) }
{
    for band in bands {
        put_band(out, *band)?;
    }
    Ok(())
}

// Writes a band.
fn put_band<W: Write>(out: &mut W, band: Band) -> Result<(), WriteFault>
    ensures ok { OnOk result (Appends (W.contents out.old) (W.contents out.new) (band_text band)) }
    ensures err { OnErr result (AppendsPrefix (W.contents out.old) (W.contents out.new) (band_text band)) }
{
    match band.shown {
        Some(regs) => put_band_of_phase(out, band, regs, regs.phase.name().as_bytes()),
        None => put_band_of_down(out, band),
    }
}

// Writes a band of these registers, whose phase has this name.
#[tactic(auto, unfolding(crate::specs::Bands::phase_band_text))]
fn put_band_of_phase<W: Write>(
    out: &mut W,
    band: Band,
    regs: WaveRegs,
    phase: &[u8],
) -> Result<(), WriteFault>
    ensures ok { OnOk result
        (Appends (W.contents out.old) (W.contents out.new) (phase_band_text band regs phase.now)) }
    ensures err { OnErr result
        (AppendsPrefix (W.contents out.old) (W.contents out.new) (phase_band_text band regs phase.now)) }
{
    let session = regs.session as u64;
    put_parts(
        out,
        &[
            Part::Text(b"<g transform='translate("),
            Part::Number(band.x),
            Part::Text(b" "),
            Part::Number(band.y),
            Part::Text(b")'><title>node "),
            Part::Number(band.node as u64),
            Part::Text(b": "),
            Part::Text(phase),
            Part::Text(b", session "),
            Part::Number(session),
            Part::Text(b"</title><rect class='s"),
            Part::Number(session % 6),
            Part::Text(b"' x='-26' width='52' height='"),
            Part::Number(band.height),
            Part::Text(b"'/><rect class='"),
            Part::Text(phase),
            Part::Text(b"' x='-5' width='10' height='"),
            Part::Number(band.height),
            Part::Text(b"'/><text class='session' x='24' y='8'>"),
            Part::Number(session),
            Part::Text(b"</text></g>\n"),
        ],
    )
}

// Writes a band of a node that is down.
#[tactic(auto, unfolding(crate::specs::Bands::down_text))]
fn put_band_of_down<W: Write>(out: &mut W, band: Band) -> Result<(), WriteFault>
    ensures ok { OnOk result (Appends (W.contents out.old) (W.contents out.new) (down_text band)) }
    ensures err { OnErr result (AppendsPrefix (W.contents out.old) (W.contents out.new) (down_text band)) }
{
    put_parts(
        out,
        &[
            Part::Text(b"<g transform='translate("),
            Part::Number(band.x),
            Part::Text(b" "),
            Part::Number(band.y),
            Part::Text(b")'><title>node "),
            Part::Number(band.node as u64),
            Part::Text(b": down</title><rect class='down' x='-26' width='52' height='"),
            Part::Number(band.height),
            Part::Text(b"'/></g>\n"),
        ],
    )
}
