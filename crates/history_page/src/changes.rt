// What fails at nodes: noted, kept from one entry to the next, and written where it changes.

ghost use Rattle.std.specs.Prelude.{◌≡◌, ◌≢◌, ◌++◌, [], All, IfOk, IsTrue, OnOk, length};
ghost use Rattle.reset_model.specs.Configuration.{put_at};
ghost use Rattle.history_page.specs.Entries.{concerned};
ghost use Rattle.history_page.specs.Failing.{changes_text, failing, failing_first, failing_other};
ghost use Rattle.history_page.specs.Failing.{family_letter, noted, row_text, rows_text};
ghost use Rattle.history_page.specs.Known.{IsKnown, StaysQuiet, kept, known_at};

use crate::concerned::concerned;
use crate::line::add_parts;
use action_tables::Part;
use app_interface::Application;
use history::Entry;
use link_predicates::{Family, LinkFault, check_link, check_node};
use reset_machine::{Config, StepRefusal};
use std::alloc::{AllocError, Global};
use std::marker::Model;
use topology::Topology;

// A node, and the rows that fail there.
#[derive(Drop)]
pub struct Noted {
    id: u32,
    rows: Vec<u8>,
}

impl Model for Noted {
    ghost use Rattle.std.specs.Prelude.{ℕ, List};

    ghost Value = { ℕ × List ℕ };

    ghost view = { λ n. (n.id, n.rows.items) };
}

// All identifiers, in their order, with the rows that fail there.
pub fn note_all<P: Application>(alloc: Global, config: &Config<P>) -> Result<Vec<Noted>, AllocError>
    ensures { IfOk result (λ nodes. IsKnown P.app config.now nodes.items) }
{
    config.lemma_is_graph();
    let nodes = note_each(alloc, config, config.topology().ids())?;
    Ok(nodes)
}

// These nodes, with the rows that fail there.
fn note_each<P: Application>(
    alloc: Global,
    config: &Config<P>,
    ids: &[u32],
) -> Result<Vec<Noted>, AllocError>
    ensures { IfOk result (λ nodes. nodes.items ≡ noted P.app config.now ids.now) }
{
    let mut nodes = Vec::new(alloc);
    for id in ids {
        nodes.push(note_node(alloc, config, *id)?)?;
    }
    Ok(nodes)
}

// A node with the rows that fail there.
fn note_node<P: Application>(
    alloc: Global,
    config: &Config<P>,
    id: u32,
) -> Result<Noted, AllocError>
    ensures { IfOk result (λ node. node ≡ (id, rows_text (failing P.app config.now id))) }
{
    let rows = rows_at(alloc, config, id)?;
    Ok(Noted { id, rows })
}

// The nodes that an entry concerns, with the rows that fail there before it.
pub fn note<P: Application>(
    alloc: Global,
    config: &Config<P>,
    known: &[Noted],
    entry: &Entry,
) -> Result<Vec<Noted>, AllocError>
    requires { IsKnown P.app config.now known.now }
    ensures { IfOk result (λ nodes. nodes.items ≡ noted P.app config.now (concerned config.now.graph entry.now)) }
{
    let ids = concerned(alloc, config.topology(), entry)?;
    recall(alloc, config, known, &ids)
}

// These nodes, with the rows that fail there, from what is known of all identifiers.
fn recall<P: Application>(
    alloc: Global,
    config: &Config<P>,
    known: &[Noted],
    ids: &[u32],
) -> Result<Vec<Noted>, AllocError>
    requires { IsKnown P.app config.now known.now }
    ensures { IfOk result (λ nodes. nodes.items ≡ noted P.app config.now ids.now) }
{
    let mut nodes = Vec::new(alloc);
    for id in ids {
        nodes.push(recall_node(alloc, config.topology(), known, *id)?)?;
    }
    Ok(nodes)
}

// A node, with the rows that are known of it.
fn recall_node(
    alloc: Global,
    topology: &Topology,
    known: &[Noted],
    id: u32,
) -> Result<Noted, AllocError>
    requires { length known.now ≡ length topology.now.ids }
    ensures { IfOk result (λ node. node ≡ (id, known_at topology.now.ids known.now id)) }
{
    let mut rows = Vec::new(alloc);
    rows.extend_from_slice(known_rows(topology, known, id))?;
    Ok(Noted { id, rows })
}

// The rows that are known of a node.
fn known_rows<'a>(topology: &Topology, known: &'a [Noted], id: u32) -> &'a [u8]
    requires { length known.now ≡ length topology.now.ids }
    ensures { result.now ≡ known_at topology.now.ids known.now id }
{
    match topology.index_of(id) {
        Some(index) => {
            let noted = &known[index];
            &noted.rows
        }
        None => &[],
    }
}

// Adds the fields of the nodes at which other rows fail in this configuration than were noted, and keeps what fails
// there now.
pub fn add_changes<P: Application>(
    alloc: Global,
    line: &mut Vec<u8>,
    config: &Config<P>,
    at: Option<u32>,
    nodes: &[Noted],
    known: &mut [Noted],
) -> Result<(), AllocError>
    requires quiet { All (StaysQuiet P.app config.now at) nodes.now }
    requires count { length known.old ≡ length config.now.graph.ids }
    ensures text { OnOk result (line.new.items ≡ line.old.items ++ changes_text P.app config.now nodes.now) }
    ensures known { OnOk result (known.new ≡ kept P.app config.now nodes.now known.old) }
{
    for node in nodes {
        let rows = rows_now(alloc, config, at, node)?;
        add_other(line, node.id, &node.rows, &rows)?;
        keep(config.topology(), known, node.id, rows);
    }
    Ok(())
}

// Keeps that these rows fail at a node.
fn keep(topology: &Topology, known: &mut [Noted], id: u32, rows: Vec<u8>)
    requires { length known.old ≡ length topology.now.ids }
    ensures { known.new ≡ put_at topology.now.ids known.old id (id, rows.items) }
{
    match topology.index_of(id) {
        Some(index) => known[index] = Noted { id, rows },
        None => {}
    }
}

// The rows that fail at a node now, where the entry wrote at this node alone, or at any.
fn rows_now<P: Application>(
    alloc: Global,
    config: &Config<P>,
    at: Option<u32>,
    node: &Noted,
) -> Result<Vec<u8>, AllocError>
    requires { StaysQuiet P.app config.now at node.now }
    ensures { IfOk result (λ rows. rows.items ≡ rows_text (failing P.app config.now node.now.0)) }
{
    if is_quiet(alloc, config, at, node)? {
        return Ok(Vec::new(alloc));
    }
    rows_at(alloc, config, node.id)
}

// Whether nothing failed at a node, which isn't the one at which the entry wrote, and nothing fails at its end of its
// link to that one. Its other links and itself are as they were, and their rows, of which a table may be long, aren't
// tried.
fn is_quiet<P: Application>(
    alloc: Global,
    config: &Config<P>,
    at: Option<u32>,
    node: &Noted,
) -> Result<bool, AllocError>
    requires { StaysQuiet P.app config.now at node.now }
    ensures { IfOk result (λ quiet. IsTrue quiet → failing P.app config.now node.now.0 ≡ []) }
{
    let Some(at) = at else {
        return Ok(false);
    };
    if !was_quiet(node, at) {
        return Ok(false);
    }
    let faults = check_link(alloc, config, node.id, at)?;
    Ok(is_none(&faults))
}

// Whether there is no fault.
fn is_none(faults: &[LinkFault]) -> bool
    ensures { IsTrue result → faults.now ≡ [] }
{
    faults.is_empty()
}

// Whether nothing failed at a node, and it is another than this one.
fn was_quiet(node: &Noted, at: u32) -> bool
    ensures rows { IsTrue result → node.now.1 ≡ [] }
    ensures other { IsTrue result → node.now.0 ≢ at }
{
    node.rows.is_empty() && node.id != at
}

// Adds the field of a node in the opening, if something fails there.
pub fn add_first<P: Application>(
    alloc: Global,
    line: &mut Vec<u8>,
    config: &Config<P>,
    id: u32,
) -> Result<(), AllocError>
    ensures { OnOk result (line.new.items ≡ line.old.items ++ failing_first P.app config.now id) }
{
    let rows = rows_at(alloc, config, id)?;
    add_other(line, id, &[], &rows)
}

// Adds the field of a node, if it isn't the same rows that fail there as before.
#[tactic(auto, unfolding(crate::specs::Failing::failing_other))]
fn add_other(line: &mut Vec<u8>, id: u32, before: &[u8], rows: &[u8]) -> Result<(), AllocError>
    ensures { OnOk result (line.new.items ≡ line.old.items ++ failing_other id before.now rows.now) }
{
    if before == rows {
        return Ok(());
    }
    add_parts(
        line,
        &[Part::Text(b";!"), Part::Number(id as u64), Part::Text(rows)],
    )
}

// The rows that fail at a node, as a field has them.
fn rows_at<P: Application>(
    alloc: Global,
    config: &Config<P>,
    id: u32,
) -> Result<Vec<u8>, AllocError>
    ensures { IfOk result (λ rows. rows.items ≡ rows_text (failing P.app config.now id)) }
{
    let faults = failing(alloc, config, id)?;
    let mut rows = Vec::new(alloc);
    add_rows(&mut rows, &faults)?;
    Ok(rows)
}

// What fails at a node, and nothing where it is down.
#[tactic(auto, unfolding(crate::specs::Failing::failing))]
fn failing<P: Application>(
    alloc: Global,
    config: &Config<P>,
    id: u32,
) -> Result<Vec<LinkFault>, AllocError>
    ensures { IfOk result (λ faults. faults.items ≡ failing P.app config.now id) }
{
    match check_node(alloc, config, id) {
        Ok(faults) => Ok(faults),
        Err(StepRefusal::NoMemory) => Err(AllocError),
        Err(_) => Ok(Vec::new(alloc)),
    }
}

// Adds the rows that fail.
fn add_rows(rows: &mut Vec<u8>, faults: &[LinkFault]) -> Result<(), AllocError>
    ensures { OnOk result (rows.new.items ≡ rows.old.items ++ rows_text faults.now) }
{
    for fault in faults {
        add_row(rows, *fault)?;
    }
    Ok(())
}

// Adds a row that fails.
#[tactic(auto, unfolding(crate::specs::Failing::row_text))]
fn add_row(rows: &mut Vec<u8>, fault: LinkFault) -> Result<(), AllocError>
    ensures { OnOk result (rows.new.items ≡ rows.old.items ++ row_text fault) }
{
    let letter = family_letter(fault.family).as_bytes();
    add_parts(
        rows,
        &[
            Part::Text(b" "),
            Part::Number(fault.other as u64),
            Part::Text(letter),
            Part::Number(fault.row as u64),
        ],
    )
}

// The letter of a family.
fn family_letter(family: Family) -> &'static str
    ensures { result.now ≡ family_letter family }
{
    match family {
        Family::Tree => "t",
        Family::Wave => "w",
        Family::App => "a",
    }
}
