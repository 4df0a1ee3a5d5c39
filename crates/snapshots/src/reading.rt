// What the lines of a snapshot have said so far.

ghost use Rattle.std.specs.Prelude.{◌≡◌, ◌≢◌, ◌==◌, List, [], ◌∷◌, ◌++◌, Option, None, Some, IfErr, OnOk};
ghost use Rattle.std.specs.List.{list_any};
ghost use Rattle.topology.specs.Building.{joins};
ghost use Rattle.topology.specs.Changing.{first_of};
ghost use Rattle.topology.specs.Graph.{has};
ghost use Rattle.applications.specs.Meaning.{meaning_of};
ghost use Rattle.script_replay.specs.Lines.{lines_of};
ghost use Rattle.snapshots.specs.Items.{has_node};
ghost use Rattle.snapshots.specs.Parts.{AreKept};
ghost use Rattle.snapshots.specs.Reading.{IsFirstFault, IsLineFault, Say, Says, link_refusals, node_refusals};
ghost use Rattle.snapshots.specs.Reading.{refusals, said_refusals, with_said};
ghost use Rattle.snapshots.specs.declared.item.Item.{Item};

use crate::fault::SnapshotFault;
use crate::item::{Item, NodeState};
use crate::line::read_line;
use app_invariants::Invariant;
use script_replay::split_line;
use std::alloc::Global;
use topology::{MAX_LINKS, Topology};

// The version of the format.
const VERSION: u32 = 1;

/// The nodes and the links that the lines of a snapshot have named so far, in their order.
#[derive(Drop)]
pub(crate) struct Reading<L> {
    pub(crate) nodes: Vec<NodeState<L>>,
    pub(crate) links: Vec<(u32, u32)>,
    // Whether a line has said which links there are.
    pub(crate) lists_links: bool,
}

/// Before the first line.
pub(crate) fn no_lines<L>(alloc: Global) -> Reading<L>
    ensures { AreKept [] result }
{
    Reading {
        nodes: Vec::new(alloc),
        links: Vec::new(alloc),
        lists_links: false,
    }
}

/// Takes the lines of a text, or names their first fault.
pub(crate) fn take_lines<P: Invariant>(
    alloc: Global,
    topology: &Topology,
    reading: &mut Reading<P::Local>,
    text: &[u8],
) -> Result<(), SnapshotFault>
    requires { AreKept [] reading.old }
    ensures ok { OnOk result ((items : List (Item P.Local)) × AreKept items reading.new
        × Say (meaning_of P.app P.text P.from_text P.names P.counts) topology.now 1 [] (lines_of text.now) items) }
    ensures err { IfErr result (λ f. f ≢ SnapshotFault.NoMemory
        → IsFirstFault (meaning_of P.app P.text P.from_text P.names P.counts) topology.now text.now f) }
{
    let mut rest = text;
    let mut number = 1;
    while let Some((line, after)) = split_line(rest) {
        match take_line::<P>(alloc, topology, reading, number, line) {
            Ok(()) => {}
            Err(fault) => return Err(fault),
        }
        rest = after;
        number += 1;
    }
    take_line::<P>(alloc, topology, reading, number, rest)
}

// Takes the line with this number.
fn take_line<P: Invariant>(
    alloc: Global,
    topology: &Topology,
    reading: &mut Reading<P::Local>,
    number: usize,
    line: &[u8],
) -> Result<(), SnapshotFault>
    ensures ok { OnOk result ((items : List (Item P.Local)) → AreKept items reading.old
        → (said : Option (Item P.Local)) × Says (meaning_of P.app P.text P.from_text P.names P.counts)
        number line.now said
        × (first_of (said_refusals topology.now items said) ≡ None) × AreKept (with_said items said) reading.new) }
    ensures err { IfErr result (λ f. f ≢ SnapshotFault.NoMemory
        → (items : List (Item P.Local)) → AreKept items reading.old
        → IsLineFault (meaning_of P.app P.text P.from_text P.names P.counts) topology.now number items line.now f) }
{
    match read_line::<P>(alloc, number, line)? {
        Some(item) => take_item(topology, reading, item),
        None => Ok(()),
    }
}

// Takes an item after those before it, or names the first refusal.
fn take_item<L: Drop>(
    topology: &Topology,
    reading: &mut Reading<L>,
    item: Item<L>,
) -> Result<(), SnapshotFault>
    ensures ok { OnOk result ((items : List (Item L)) → AreKept items reading.old
        → (first_of (refusals topology.now items item) ≡ None) × AreKept (items ++ item ∷ []) reading.new) }
    ensures err { IfErr result (λ f. f ≢ SnapshotFault.NoMemory → (items : List (Item L)) → AreKept items reading.old
        → first_of (refusals topology.now items item) ≡ Some f) }
{
    match item {
        Item::Version(version) => {
            if version != VERSION {
                return Err(SnapshotFault::BadVersion);
            }
            Ok(())
        }
        Item::Node(node) => take_node(topology, &mut reading.nodes, node),
        Item::Link(a, b) => {
            reading.lists_links = true;
            take_link(topology, &mut reading.links, a, b)
        }
        Item::NoLink => {
            reading.lists_links = true;
            Ok(())
        }
    }
}

// Takes a node after those before it.
fn take_node<L: Drop>(
    topology: &Topology,
    nodes: &mut Vec<NodeState<L>>,
    node: NodeState<L>,
) -> Result<(), SnapshotFault>
    ensures ok { OnOk result ((first_of (node_refusals topology.now nodes.old.items node.id) ≡ None)
        × (nodes.new.items ≡ nodes.old.items ++ node ∷ [])) }
    ensures err { IfErr result (λ f. f ≢ SnapshotFault.NoMemory
        → first_of (node_refusals topology.now nodes.old.items node.id) ≡ Some f) }
{
    if !is_known(topology, node.id) {
        return Err(SnapshotFault::StrangeNode(node.id));
    }
    if has_node(nodes, node.id) {
        return Err(SnapshotFault::TwiceNode(node.id));
    }
    nodes.push(node)?;
    Ok(())
}

// Takes a link after those before it.
fn take_link(
    topology: &Topology,
    links: &mut Vec<(u32, u32)>,
    a: u32,
    b: u32,
) -> Result<(), SnapshotFault>
    ensures ok { OnOk result ((first_of (link_refusals topology.now links.old.items a b) ≡ None)
        × (links.new.items ≡ links.old.items ++ (a, b) ∷ [])) }
    ensures err { IfErr result (λ f. f ≢ SnapshotFault.NoMemory
        → first_of (link_refusals topology.now links.old.items a b) ≡ Some f) }
{
    if !is_known(topology, a) {
        return Err(SnapshotFault::StrangeNode(a));
    }
    if !is_known(topology, b) {
        return Err(SnapshotFault::StrangeNode(b));
    }
    if a == b {
        return Err(SnapshotFault::SelfLink(a));
    }
    if has_link(links, a, b) {
        return Err(SnapshotFault::TwiceLink(a.min(b), a.max(b)));
    }
    if links.len() >= MAX_LINKS {
        return Err(SnapshotFault::TooManyLinks);
    }
    links.push((a, b))?;
    Ok(())
}

// Whether this is an identifier of the topology.
fn is_known(topology: &Topology, id: u32) -> bool
    ensures { result ≡ has topology.now.ids id }
{
    topology.index_of(id).is_some()
}

/// Whether one of the nodes has this identifier.
pub(crate) fn has_node<L>(nodes: &[NodeState<L>], id: u32) -> bool
    ensures { result ≡ has_node nodes.now id }
{
    nodes.iter().any(|node| node.id == id)
}

// Whether one of the links joins these two, in either direction.
fn has_link(links: &[(u32, u32)], a: u32, b: u32) -> bool
    ensures { result ≡ list_any (joins a b) links.now }
{
    links.iter().any(|link| *link == (a, b) || *link == (b, a))
}
