// The picture of a part of a history.

ghost use Rattle.std.specs.Prelude.{◌≡◌, IfErr, IfSome, Some, option_map};
ghost use Rattle.topology.specs.TopologyText.{IsReadFault};
ghost use Rattle.applications.specs.Choice.{ForApp};
ghost use Rattle.applications.specs.Meaning.{meaning_of};
ghost use Rattle.script_replay.specs.Output.{Leaves};
ghost use Rattle.script_replay.specs.Stops.{IsOutputStop};
ghost use Rattle.reset_service.specs.Chosen.{AreRows, IsNamed, NamesRows};
ghost use Rattle.reset_service.specs.Opened.{IsOpenedFrom, IsOpenedText};
ghost use Rattle.reset_service.specs.Parted.{DrawsPart, IsPartDrawn, IsSelectionDrawn, strange_text};
ghost use Rattle.reset_service.specs.Verified.{LeavesOfReader};

use crate::chosen::{first_strange, named_lanes, read_ids, read_rows};
use crate::drawn::{draw_all, draw_history};
use crate::started::{open_network, refuse_start};
use app_invariants::Invariant;
use applications::with_application;
use reset_machine::Config;
use script_replay::{
    Network, RunStop, Status, put_numbered, read_network, refuse_input, refuse_topology,
};
use space_time_diagram::MAX_LANES;
use std::alloc::Global;
use std::io::{Read, Write};
use topology::ReadFault;

/// The part of a history that a picture shows.
#[derive(Clone, Copy)]
pub struct Part<'a> {
    /// The first and the last entry, as `17..40`, or all.
    pub rows: Option<&'a str>,
    /// The identifiers of nodes, as `1,2,5`, or all.
    pub nodes: Option<&'a str>,
}

/// Draws as `picture_text` or, where a snapshot is given, `picture_from` does, but only the entries that are named,
/// from the configuration that those before them leave, and only the nodes that are named, in the topology's order.
///
/// The topology is judged first, then the snapshot, then the text of the rows, and then that of the nodes. The whole
/// history is judged, and a last row behind its end stands for its last entry.
pub fn picture_part<R: Read, W: Write>(
    alloc: Global,
    topology: &[u8],
    snapshot: Option<&[u8]>,
    history: &mut R,
    part: Part<'_>,
    out: &mut W,
) -> Result<Status, RunStop>
    ensures leaves { LeavesOfReader (R.remaining history.old)
        (λ text. IsOpenedText
        (DrawsPart (option_map (λ t. t.now) part.entry.rows) (option_map (λ t. t.now) part.entry.nodes) text)
        topology.now (option_map (λ s. s.now) snapshot.entry))
        (W.contents out.old) (W.contents out.new) result }
    ensures untouched { (f : ReadFault) → IsReadFault topology.now f → history.new ≡ history.old }
{
    match read_network(alloc, topology) {
        Ok(network) => draw_app(alloc, network, snapshot, history, part, out),
        Err(fault) => refuse_topology(fault, out),
    }
}

// Draws a part of a history on a network, with the application that it names.
#[tactic(auto, using(applications::proofs::Choosing::by_name))]
fn draw_app<R: Read, W: Write>(
    alloc: Global,
    network: Network,
    snapshot: Option<&[u8]>,
    history: &mut R,
    part: Part<'_>,
    out: &mut W,
) -> Result<Status, RunStop>
    requires { network.topology.nodes ≡ network.topology.ids }
    ensures leaves { ForApp (λ L m. LeavesOfReader (R.remaining history.old)
        (λ text. IsOpenedFrom m network.topology network.modulus (option_map (λ s. s.now) snapshot.entry)
        (DrawsPart (option_map (λ t. t.now) part.entry.rows) (option_map (λ t. t.now) part.entry.nodes) text L m))
        (W.contents out.old) (W.contents out.new) result) network.app }
{
    with_application!(
        network.app,
        P => draw_opened::<P, R, W>(alloc, network, snapshot, history, part, out)
    )
}

fn draw_opened<P: Invariant, R: Read, W: Write>(
    alloc: Global,
    network: Network,
    snapshot: Option<&[u8]>,
    history: &mut R,
    part: Part<'_>,
    out: &mut W,
) -> Result<Status, RunStop>
    requires { network.topology.nodes ≡ network.topology.ids }
    ensures leaves { LeavesOfReader (R.remaining history.old)
        (λ text. IsOpenedFrom (meaning_of P.app P.text P.from_text P.names P.counts) network.topology network.modulus
        (option_map (λ s. s.now) snapshot.entry)
        (DrawsPart (option_map (λ t. t.now) part.entry.rows) (option_map (λ t. t.now) part.entry.nodes) text P.Local
        (meaning_of P.app P.text P.from_text P.names P.counts)))
        (W.contents out.old) (W.contents out.new) result }
{
    match open_network::<P>(alloc, network, snapshot) {
        Ok(opening) => draw_part(alloc, &opening, part, history, out),
        Err(fault) => refuse_start(fault, out),
    }
}

// Draws a part of a history from this configuration on.
fn draw_part<P: Invariant, R: Read, W: Write>(
    alloc: Global,
    opening: &Config<P>,
    part: Part<'_>,
    history: &mut R,
    out: &mut W,
) -> Result<Status, RunStop>
    ensures leaves { LeavesOfReader (R.remaining history.old)
        (IsPartDrawn (meaning_of P.app P.text P.from_text P.names P.counts) (option_map (λ t. t.now) part.entry.rows)
        (option_map (λ t. t.now) part.entry.nodes) opening.now)
        (W.contents out.old) (W.contents out.new) result }
{
    let Some(text) = part.rows else {
        return draw_nodes(alloc, opening, part, None, history, out);
    };
    match read_rows(text.as_bytes()) {
        Some(rows) => draw_nodes(alloc, opening, part, Some(rows), history, out),
        None => refuse_input(out, b"bad rows BadRange\n"),
    }
}

// Draws a part of a history whose rows are these, or all.
fn draw_nodes<P: Invariant, R: Read, W: Write>(
    alloc: Global,
    opening: &Config<P>,
    part: Part<'_>,
    rows: Option<(u32, u32)>,
    history: &mut R,
    out: &mut W,
) -> Result<Status, RunStop>
    requires { IsNamed NamesRows (option_map (λ t. t.now) part.rows) rows }
    ensures leaves { LeavesOfReader (R.remaining history.old)
        (IsPartDrawn (meaning_of P.app P.text P.from_text P.names P.counts) (option_map (λ t. t.now) part.entry.rows)
        (option_map (λ t. t.now) part.entry.nodes) opening.now)
        (W.contents out.old) (W.contents out.new) result }
{
    let Some(text) = part.nodes else {
        return draw_all(alloc, opening, rows, history, out);
    };
    match read_ids(alloc, text.as_bytes()) {
        Ok(Some(ids)) => draw_named(alloc, opening, &ids, rows, history, out),
        Ok(None) => refuse_input(out, b"bad nodes BadId\n"),
        Err(_) => Err(RunStop::NoMemory),
    }
}

// Draws rows of a history with lanes for the nodes with these identifiers.
fn draw_named<P: Invariant, R: Read, W: Write>(
    alloc: Global,
    opening: &Config<P>,
    ids: &[u32],
    rows: Option<(u32, u32)>,
    history: &mut R,
    out: &mut W,
) -> Result<Status, RunStop>
    requires { IfSome rows (λ rows. AreRows rows) }
    ensures leaves { LeavesOfReader (R.remaining history.old)
        (IsSelectionDrawn (meaning_of P.app P.text P.from_text P.names P.counts) rows (Some ids.now) opening.now)
        (W.contents out.old) (W.contents out.new) result }
{
    let all = opening.topology().ids();
    if let Some(id) = first_strange(all, ids) {
        return refuse_strange(id, out);
    }
    let nodes = named_lanes(alloc, all, ids)?;
    if nodes.len() > MAX_LANES {
        return refuse_input(out, b"bad nodes TooManyForPicture\n");
    }
    draw_history(alloc, opening, &nodes, rows, history, out)
}

// Answers an identifier that is named, and that the topology doesn't have.
fn refuse_strange<W: Write>(id: u32, out: &mut W) -> Result<Status, RunStop>
    ensures leaves { Leaves (λ output. output ≡ (strange_text id, Status.BadInput)) (W.contents out.old)
        (W.contents out.new) result }
    ensures stop { IfErr result IsOutputStop }
{
    put_numbered(out, b"bad nodes StrangeNode ", u64::from(id))?;
    Ok(Status::BadInput)
}
