// The lanes of a component.

ghost use Rattle.std.specs.Prelude.{◌≡◌, ◌≤◌, IfNone, IfSome, OnErr, OnOk, length};
ghost use Rattle.std.specs.Io.KnownBytes.{Appends};
ghost use Rattle.std.specs.List.{flat_map, list_any};
ghost use Rattle.action_tables.specs.Written.{AppendsPrefix};
ghost use Rattle.topology.specs.Components.{component, leader};
ghost use Rattle.topology.specs.Graph.{IsNode, is_node};
ghost use Rattle.space_time_diagram.specs.Completions.{members, piece, piece_text};
ghost use Rattle.space_time_diagram.specs.Lanes.{lane_of};
ghost use Rattle.space_time_diagram.specs.Members.{member_piece};

use crate::lane::lane_of;
use crate::page::{MAX_LANES, lane_left};
use action_tables::{Part, WriteFault, put_parts};
use app_interface::Application;
use reset_machine::Config;
use std::io::Write;
use topology::Topology;

// Whether one of these nodes is in the component of a node.
pub fn has_member(topology: &Topology, node: u32, nodes: &[u32]) -> bool
    ensures { result ≡ list_any (is_node (component topology.now node)) nodes.now }
{
    nodes.iter().any(|other| is_member(topology, node, *other))
}

// Writes the pieces of a line across the lanes of those of these nodes that are in the component of a node.
pub fn put_pieces<P: Application, W: Write>(
    out: &mut W,
    opening: &Config<P>,
    nodes: &[u32],
    topology: &Topology,
    node: u32,
) -> Result<(), WriteFault>
    requires { length nodes.now ≤ MAX_LANES }
    ensures ok { OnOk result (Appends (W.contents out.old) (W.contents out.new)
        (flat_map (piece (lane_of nodes.now opening.now)) (members nodes.now topology.now node))) }
    ensures err { OnErr result (AppendsPrefix (W.contents out.old) (W.contents out.new)
        (flat_map (piece (lane_of nodes.now opening.now)) (members nodes.now topology.now node))) }
{
    put_member_pieces(out, opening, nodes, topology, node)
}

// Writes for each of the nodes the piece on its lane, if it is in the component of the first one.
fn put_member_pieces<P: Application, W: Write>(
    out: &mut W,
    opening: &Config<P>,
    nodes: &[u32],
    topology: &Topology,
    node: u32,
) -> Result<(), WriteFault>
    requires { length nodes.now ≤ MAX_LANES }
    ensures ok { OnOk result (Appends (W.contents out.old) (W.contents out.new)
        (flat_map (member_piece (lane_of nodes.now opening.now) topology.now node) nodes.now)) }
    ensures err { OnErr result (AppendsPrefix (W.contents out.old) (W.contents out.new)
        (flat_map (member_piece (lane_of nodes.now opening.now) topology.now node) nodes.now)) }
{
    for other in nodes {
        put_member_piece(out, opening, nodes, topology, node, *other)?;
    }
    Ok(())
}

// Writes the piece on the lane of the other node, if it is in the component of the first one.
fn put_member_piece<P: Application, W: Write>(
    out: &mut W,
    opening: &Config<P>,
    nodes: &[u32],
    topology: &Topology,
    node: u32,
    other: u32,
) -> Result<(), WriteFault>
    requires { length nodes.now ≤ MAX_LANES }
    ensures ok { OnOk result (Appends (W.contents out.old) (W.contents out.new)
        (member_piece (lane_of nodes.now opening.now) topology.now node other)) }
    ensures err { OnErr result (AppendsPrefix (W.contents out.old) (W.contents out.new)
        (member_piece (lane_of nodes.now opening.now) topology.now node other)) }
{
    if is_member(topology, node, other) {
        put_piece(out, lane_left(lane_of(opening, nodes, other)))
    } else {
        Ok(())
    }
}

// Writes a piece across the lane that begins at x.
#[tactic(auto, unfolding(crate::specs::Completions::piece_text))]
fn put_piece<W: Write>(out: &mut W, x: u64) -> Result<(), WriteFault>
    ensures ok { OnOk result (Appends (W.contents out.old) (W.contents out.new) (piece_text x)) }
    ensures err { OnErr result (AppendsPrefix (W.contents out.old) (W.contents out.new) (piece_text x)) }
{
    put_parts(
        out,
        &[
            Part::Text(b"<path d='M"),
            Part::Number(x),
            Part::Text(b" 11h56'/>"),
        ],
    )
}

// Whether the other is a node of the component of the first one.
fn is_member(topology: &Topology, node: u32, other: u32) -> bool
    ensures { result ≡ is_node (component topology.now node) other }
{
    topology.lemma_is_graph();
    match (leader_of(topology, node), leader_of(topology, other)) {
        (Some(first), Some(second)) => first == second,
        _ => false,
    }
}

// The leader of a node. None where there is no such node.
fn leader_of(topology: &Topology, node: u32) -> Option<u32>
    ensures found { IfSome result (λ l. IsNode topology.now node × (l ≡ leader topology.now node)) }
    ensures none { IfNone result (IsNode topology.now node → ⊥) }
{
    topology.lemma_is_graph();
    match topology.node_at(node) {
        Some(index) => Some(topology.greatest_of(index).get()),
        None => None,
    }
}
