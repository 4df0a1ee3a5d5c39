// The text of a configuration, which can be read back.

ghost use Rattle.std.specs.Prelude.{◌≡◌, ◌<◌, All, OnErr, OnOk, length, map, slice_index};
ghost use Rattle.std.specs.List.{flat_map};
ghost use Rattle.std.specs.Io.KnownBytes.{Appends};
ghost use Rattle.action_tables.specs.Written.{AppendsPrefix};
ghost use Rattle.topology.specs.Graph.{neighbours_of};
ghost use Rattle.applications.specs.Meaning.{meaning_of};
ghost use Rattle.script_replay.specs.Output.{link_line, links_of, links_text, snapshot_text};
ghost use Rattle.script_replay.specs.Parts.{line_from, links_from};

use crate::show::show_all;
use action_tables::{Part, WriteFault, put_bytes, put_parts};
use app_invariants::Invariant;
use reset_machine::Config;
use std::io::Write;
use topology::Topology;

/// Writes the configuration as a text that can be read back: a first line, the lines of its nodes and those of its
/// links. It requests no memory.
pub fn put_snapshot<P: Invariant, W: Write>(
    config: &Config<P>,
    out: &mut W,
) -> Result<(), WriteFault>
    ensures ok { OnOk result (Appends (W.contents out.old) (W.contents out.new)
        (snapshot_text (meaning_of P.app P.text P.from_text P.names P.counts) config.now)) }
    ensures err { OnErr result (AppendsPrefix (W.contents out.old) (W.contents out.new)
        (snapshot_text (meaning_of P.app P.text P.from_text P.names P.counts) config.now)) }
{
    put_bytes(out, b"reset-snapshot 1\n")?;
    show_all(config, out)?;
    put_links(out, config.topology())
}

// Writes the links, each from its lesser end, or that there is none.
fn put_links<W: Write>(out: &mut W, topology: &Topology) -> Result<(), WriteFault>
    ensures ok { OnOk result (Appends (W.contents out.old) (W.contents out.new) (links_text (links_of topology.now))) }
    ensures err { OnErr result
        (AppendsPrefix (W.contents out.old) (W.contents out.new) (links_text (links_of topology.now))) }
{
    topology.lemma_is_graph();
    if topology.link_count() == 0 {
        return put_bytes(out, b"link -\n");
    }
    put_all_links(out, topology)
}

// Writes the lines of all links.
fn put_all_links<W: Write>(out: &mut W, topology: &Topology) -> Result<(), WriteFault>
    ensures ok { OnOk result
        (Appends (W.contents out.old) (W.contents out.new) (flat_map link_line (links_of topology.now))) }
    ensures err { OnErr result
        (AppendsPrefix (W.contents out.old) (W.contents out.new) (flat_map link_line (links_of topology.now))) }
{
    for at in topology.nodes() {
        put_links_from(out, topology, *at)?;
    }
    Ok(())
}

// Writes the links of a node with greater ones.
fn put_links_from<W: Write>(out: &mut W, topology: &Topology, at: u32) -> Result<(), WriteFault>
    ensures ok { OnOk result
        (Appends (W.contents out.old) (W.contents out.new) (flat_map link_line (links_from topology.now at))) }
    ensures err { OnErr result
        (AppendsPrefix (W.contents out.old) (W.contents out.new) (flat_map link_line (links_from topology.now at))) }
{
    let ids = topology.ids();
    for near in neighbours_at(topology, at) {
        put_link(out, at, ids[*near])?;
    }
    Ok(())
}

// The neighbours of a node, by their indexes. What is no node has none.
fn neighbours_at(topology: &Topology, at: u32) -> &[usize]
    ensures ids { map (λ n. slice_index topology.now.ids n) result.now ≡ neighbours_of topology.now at }
    ensures within { All (λ n. n < length topology.now.ids) result.now }
{
    topology.lemma_is_graph();
    match topology.node_at(at) {
        Some(index) => topology.neighbours(index),
        None => &[],
    }
}

// Writes a link from its lesser end, and nothing from its greater one.
fn put_link<W: Write>(out: &mut W, at: u32, other: u32) -> Result<(), WriteFault>
    ensures ok { OnOk result (Appends (W.contents out.old) (W.contents out.new) (line_from at other)) }
    ensures err { OnErr result (AppendsPrefix (W.contents out.old) (W.contents out.new) (line_from at other)) }
{
    if other <= at {
        return Ok(());
    }
    let first = Part::Number(u64::from(at));
    let second = Part::Number(u64::from(other));
    put_parts(
        out,
        &[
            Part::Text(b"link "),
            first,
            Part::Text(b" "),
            second,
            Part::Text(b"\n"),
        ],
    )
}
