// What is wrong with a topology's text.

ghost use Rattle.std.specs.Prelude.{◌≤◌, length};

use crate::graph_faults::{put_of_link, put_of_node};
use crate::near_names::nearest;
use crate::place::{column_at, line_at};
use crate::said::{Source, put_end, put_head};
use crate::table::{missing_key, unknown_key, wrong_kind};
use action_tables::{Part, put_bytes, put_parts};
use history::is_graphic;
use script_replay::RunStop;
use std::alloc::Global;
use std::io::Write;
use toml::Table;
use toml::de::Error;
use topology::{ReadFault, TopoFault, read_topology};

const KEYS: [&[u8]; 4] = [b"nodes", b"links", b"app", b"modulus"];

const APPLICATIONS: [&[u8]; 4] = [b"idle", b"token", b"mutex", b"routes"];

// The most bytes of a name that is printed.
const LONGEST_NAME: usize = 100;

/// Writes what is wrong with the text of a topology, and where; returns whether it wrote.
pub fn put_topology_fault<W: Write>(
    alloc: Global,
    topology: Source<'_>,
    out: &mut W,
) -> Result<bool, RunStop> {
    let fault = match read_topology(alloc, topology.text) {
        Ok(_) => return Ok(false),
        Err(ReadFault::NoMemory) => return Err(RunStop::NoMemory),
        Err(fault) => fault,
    };
    put_head(out, topology.name)?;
    put_fault(alloc, topology.text, fault, out)?;
    put_end(out)?;
    Ok(true)
}

fn put_fault<W: Write>(
    alloc: Global,
    text: &[u8],
    fault: ReadFault,
    out: &mut W,
) -> Result<(), RunStop> {
    match fault {
        ReadFault::TextTooLong => put_bytes(out, b"it has more than 1048576 bytes")?,
        ReadFault::Topology(fault) => put_graph_fault(fault, out)?,
        _ => put_document_fault(alloc, text, out)?,
    }
    Ok(())
}

// Writes what is wrong with a text that is no TOML, or that has other keys or values than a topology.
fn put_document_fault<W: Write>(alloc: Global, text: &[u8], out: &mut W) -> Result<(), RunStop> {
    match toml::table_from_slice(alloc, text) {
        Ok(table) => put_table_fault(alloc, &table, out),
        Err(error) if error.is_memory() => Err(RunStop::NoMemory),
        Err(error) => put_toml_fault(text, &error, out),
    }
}

// Writes where a text stops to be TOML, and why.
fn put_toml_fault<W: Write>(text: &[u8], error: &Error, out: &mut W) -> Result<(), RunStop> {
    let at = place_of(text, error);
    put_parts(
        out,
        &[
            Part::Text(b"line "),
            Part::Number(line_at(text, at) as u64),
            Part::Text(b", column "),
            Part::Number(column_at(text, at) as u64),
            Part::Text(b": "),
            Part::Text(error.message().as_bytes()),
        ],
    )?;
    Ok(())
}

// The place of a text that an error is about.
fn place_of(text: &[u8], error: &Error) -> usize
    ensures { result ≤ length text.now }
{
    match error.span() {
        Some(span) => span.start.min(text.len()),
        None => 0,
    }
}

// Writes the first thing that is wrong with the keys and the values of a document.
fn put_table_fault<W: Write>(alloc: Global, table: &Table, out: &mut W) -> Result<(), RunStop> {
    if let Some(key) = missing_key(table) {
        put_parts(
            out,
            &[
                Part::Text(b"key '"),
                Part::Text(key.as_bytes()),
                Part::Text(b"' is missing"),
            ],
        )?;
        return Ok(());
    }
    if let Some(key) = unknown_key(table) {
        return put_unknown(alloc, b"key", key.as_bytes(), &KEYS, out);
    }
    if let Some(kind) = wrong_kind(table) {
        put_bytes(out, kind.as_bytes())?;
        return Ok(());
    }
    match table.get("app").and_then(|app| app.as_str()) {
        Some(app) => put_unknown(alloc, b"application", app.as_bytes(), &APPLICATIONS, out),
        None => Ok(()),
    }
}

// Writes that a name is none of these, and which may be meant. One that a terminal couldn't show isn't told.
fn put_unknown<'t, W: Write>(
    alloc: Global,
    kind: &'t [u8],
    name: &'t [u8],
    names: &[&'static [u8]],
    out: &mut W,
) -> Result<(), RunStop> {
    if name.len() > LONGEST_NAME || !is_graphic(name) {
        put_parts(out, &[Part::Text(kind), Part::Text(b" is unknown")])?;
        return Ok(());
    }
    put_parts(
        out,
        &[
            Part::Text(kind),
            Part::Text(b" '"),
            Part::Text(name),
            Part::Text(b"' is unknown"),
        ],
    )?;
    if let Some(near) = nearest(alloc, name, names)? {
        put_parts(
            out,
            &[
                Part::Text(b"; '"),
                Part::Text(near),
                Part::Text(b"' is one"),
            ],
        )?;
    }
    Ok(())
}

// Writes what is wrong with the lists of nodes and of links.
fn put_graph_fault<W: Write>(fault: TopoFault, out: &mut W) -> Result<(), RunStop> {
    match fault {
        TopoFault::NoNodes => put_bytes(out, b"'nodes' is empty")?,
        TopoFault::TooManyNodes => put_bytes(out, b"'nodes' has more than 1024 numbers")?,
        TopoFault::BadId(id) => put_of_node(out, b"", id, b" in 'nodes' isn't from 1 to 65535")?,
        TopoFault::TwiceNode(id) => put_of_node(out, b"", id, b" is twice in 'nodes'")?,
        TopoFault::TooManyLinks => put_bytes(out, b"'links' has more than 8192 links")?,
        TopoFault::StrangeNode(id) => {
            put_of_node(out, b"", id, b" in 'links' isn't in 'nodes'")?
        }
        TopoFault::SelfLink(id) => put_of_node(
            out,
            b"a link in 'links' joins ",
            id,
            b" with itself",
        )?,
        TopoFault::TwiceLink(a, b) => put_of_link(out, a, b, b" is twice in 'links'")?,
        TopoFault::NoMemory => return Err(RunStop::NoMemory),
        // No text has one of these.
        TopoFault::NoSuchLink | TopoFault::LinkIsThere | TopoFault::NodeIsUp => {}
    }
    Ok(())
}
