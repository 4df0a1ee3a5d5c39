// The answers that show the nodes.

ghost use Rattle.std.specs.Prelude.{◌≡◌, IfSome, IfNone, OnOk, OnErr};
ghost use Rattle.std.specs.List.{flat_map};
ghost use Rattle.std.specs.Io.KnownBytes.{Appends};
ghost use Rattle.action_tables.specs.Written.{AppendsPrefix};
ghost use Rattle.topology.specs.Graph.{IsNode};
ghost use Rattle.reset_model.specs.Configuration.{local_of, tree_of, wave_of};
ghost use Rattle.applications.specs.Meaning.{meaning_of};
ghost use Rattle.history.specs.HistoryText.{ended};
ghost use Rattle.script_replay.specs.Output.{at_node, newest_head, newest_line, node_head, shown};

use crate::answer::put_refusal;
use action_tables::{Part, WriteFault, put_bytes, put_parts};
use app_interface::Application;
use app_invariants::Invariant;
use reset_machine::{Config, StepRefusal};
use std::io::Write;
use tree_layer::TreeRegs;
use wave_layer::WaveRegs;

/// Writes the line of each node that is up, ascending.
pub fn show_all<P: Invariant, W: Write>(config: &Config<P>, out: &mut W) -> Result<(), WriteFault>
    ensures ok { OnOk result
        (Appends (W.contents out.old) (W.contents out.new)
        (flat_map (shown (meaning_of P.app P.text P.from_text P.names P.counts) config.now) config.now.graph.nodes)) }
    ensures err { OnErr result
        (AppendsPrefix (W.contents out.old) (W.contents out.new)
        (flat_map (shown (meaning_of P.app P.text P.from_text P.names P.counts) config.now) config.now.graph.nodes)) }
{
    for id in config.topology().nodes() {
        show_node(config, *id, out)?;
    }
    Ok(())
}

/// Writes the line of a node, or that there is no such node.
pub fn show_node<P: Invariant, W: Write>(
    config: &Config<P>,
    id: u32,
    out: &mut W,
) -> Result<(), WriteFault>
    ensures ok { OnOk result
        (Appends (W.contents out.old) (W.contents out.new)
        (at_node config.now id (shown (meaning_of P.app P.text P.from_text P.names P.counts) config.now id))) }
    ensures err { OnErr result
        (AppendsPrefix (W.contents out.old) (W.contents out.new)
        (at_node config.now id (shown (meaning_of P.app P.text P.from_text P.names P.counts) config.now id))) }
{
    match node_at(config, id) {
        Some((tree, wave, local)) => {
            put_head(out, id, tree, wave)?;
            put_local::<P, W>(local, out)
        }
        None => put_refusal(out, StepRefusal::StrangeNode),
    }
}

// What stands at a node.
fn node_at<P: Application>(config: &Config<P>, id: u32) -> Option<(TreeRegs, WaveRegs, &P::Local)>
    ensures found { IfSome result
        (λ at. IsNode config.now.graph id × (at.0 ≡ tree_of config.now id) × (at.1 ≡ wave_of config.now id)
        × (at.2.now ≡ local_of P.app config.now id)) }
    ensures none { IfNone result (IsNode config.now.graph id → ⊥) }
{
    let tree = config.tree_at(id)?;
    let wave = config.wave_at(id)?;
    let local = config.local_at(id)?;
    Some((tree, wave, local))
}

// Writes the registers of a node, up to its local state.
fn put_head<W: Write>(
    out: &mut W,
    id: u32,
    tree: TreeRegs,
    wave: WaveRegs,
) -> Result<(), WriteFault>
    ensures ok { OnOk result (Appends (W.contents out.old) (W.contents out.new) (node_head id tree wave)) }
    ensures err { OnErr result (AppendsPrefix (W.contents out.old) (W.contents out.new) (node_head id tree wave)) }
{
    put_parts(
        out,
        &[
            Part::Text(b"node "),
            Part::Number(u64::from(id)),
            Part::Text(b" tree "),
            Part::Number(u64::from(tree.root)),
            Part::Text(b" "),
            Part::Number(u64::from(tree.father)),
            Part::Text(b" "),
            Part::Number(u64::from(tree.dist)),
            Part::Text(b" wave "),
            Part::Text(wave.phase.name().as_bytes()),
            Part::Text(b" "),
            Part::Number(u64::from(wave.session)),
            Part::Text(b" local "),
        ],
    )
}

// Writes the text of a local state and ends the line.
fn put_local<P: Application, W: Write>(local: &P::Local, out: &mut W) -> Result<(), WriteFault>
    ensures ok { OnOk result (Appends (W.contents out.old) (W.contents out.new) (ended (P.text local.now))) }
    ensures err { OnErr result (AppendsPrefix (W.contents out.old) (W.contents out.new) (ended (P.text local.now))) }
{
    P::show(local, out)?;
    put_bytes(out, b"\n")
}

/// Writes the local state of each node that is up, in the newest session, ascending.
pub fn show_newest<P: Invariant, W: Write>(
    config: &Config<P>,
    out: &mut W,
) -> Result<(), WriteFault>
    ensures ok { OnOk result
        (Appends (W.contents out.old) (W.contents out.new)
        (flat_map (newest_line (meaning_of P.app P.text P.from_text P.names P.counts)
        config.now) config.now.graph.nodes)) }
    ensures err { OnErr result
        (AppendsPrefix (W.contents out.old) (W.contents out.new)
        (flat_map (newest_line (meaning_of P.app P.text P.from_text P.names P.counts)
        config.now) config.now.graph.nodes)) }
{
    for node in config.topology().nodes() {
        newest_of(config, *node, out)?;
    }
    Ok(())
}

// Writes the local state of a node in the newest session.
fn newest_of<P: Invariant, W: Write>(
    config: &Config<P>,
    id: u32,
    out: &mut W,
) -> Result<(), WriteFault>
    requires { IsNode config.now.graph id }
    ensures ok { OnOk result
        (Appends (W.contents out.old) (W.contents out.new)
        (newest_line (meaning_of P.app P.text P.from_text P.names P.counts) config.now id)) }
    ensures err { OnErr result
        (AppendsPrefix (W.contents out.old) (W.contents out.new)
        (newest_line (meaning_of P.app P.text P.from_text P.names P.counts) config.now id)) }
{
    put_newest_head(out, id)?;
    match config.newest_local(id) {
        Some(local) => put_local::<P, W>(local, out),
        None => put_bytes(out, b"unjoined\n"),
    }
}

// Writes what stands before a local state in the newest session.
fn put_newest_head<W: Write>(out: &mut W, id: u32) -> Result<(), WriteFault>
    ensures ok { OnOk result (Appends (W.contents out.old) (W.contents out.new) (newest_head id)) }
    ensures err { OnErr result (AppendsPrefix (W.contents out.old) (W.contents out.new) (newest_head id)) }
{
    put_parts(
        out,
        &[
            Part::Text(b"newest "),
            Part::Number(u64::from(id)),
            Part::Text(b" "),
        ],
    )
}
