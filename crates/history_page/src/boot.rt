// The lines that stand before those of the entries.

ghost use Rattle.std.specs.Prelude.{◌≡◌, ◌++◌, IfOk, OnErr, OnOk, codes};
ghost use Rattle.std.specs.Fmt.{decimal};
ghost use Rattle.std.specs.List.{flat_map};
ghost use Rattle.std.specs.Io.KnownBytes.{Appends};
ghost use Rattle.action_tables.specs.Written.{AppendsPrefix};
ghost use Rattle.action_tables.specs.RowText.{part_text};
ghost use Rattle.history_page.specs.Lines.{line_text, lines_text};
ghost use Rattle.history_page.specs.Opening.{boot_data, boot_line, down_text, first_lines, link_from, links_from};
ghost use Rattle.history_page.specs.Opening.{links_line, nodes_line, spaced};

use crate::changes::add_first;
use crate::concerned::add_neighbours;
use crate::field::{Field, add_fields};
use crate::line::{add_parts, put_line};
use crate::page::PageStop;
use action_tables::{Part, WriteFault};
use app_interface::Application;
use reset_machine::Config;
use std::alloc::{AllocError, Global};
use std::io::Write;
use topology::Topology;

// Writes the first lines: the title, the application's name, the modulus, the identifiers and the links.
pub fn put_first_lines<P: Application, W: Write>(
    alloc: Global,
    app: &[u8],
    title: &[u8],
    opening: &Config<P>,
    out: &mut W,
) -> Result<(), PageStop>
    ensures ok { OnOk result (Appends (W.contents out.old) (W.contents out.new)
        (lines_text (first_lines title.now app.now opening.now))) }
    ensures err { OnErr result (AppendsPrefix (W.contents out.old) (W.contents out.new)
        (lines_text (first_lines title.now app.now opening.now))) }
{
    let title = title_line(alloc, title)?;
    let app = app_line(alloc, app)?;
    let modulus = modulus_line(alloc, opening)?;
    let nodes = nodes_line(alloc, opening.topology())?;
    let links = links_line(alloc, opening.topology())?;
    let lines: [&[u8]; 6] = [b"reset-page 1", &title, &app, &modulus, &nodes, &links];
    put_lines(out, &lines)?;
    Ok(())
}

// Writes lines.
fn put_lines<W: Write>(out: &mut W, lines: &[&[u8]]) -> Result<(), WriteFault>
    ensures ok { OnOk result (Appends (W.contents out.old) (W.contents out.new)
        (flat_map (λ line. line_text line.now) lines.now)) }
    ensures err { OnErr result (AppendsPrefix (W.contents out.old) (W.contents out.new)
        (flat_map (λ line. line_text line.now) lines.now)) }
{
    for line in lines {
        put_line(out, line)?;
    }
    Ok(())
}

// The line of the title.
fn title_line(alloc: Global, title: &[u8]) -> Result<Vec<u8>, AllocError>
    ensures { IfOk result (λ line. line.items ≡ codes "title " ++ title.now) }
{
    parts_line(alloc, &[Part::Text(b"title "), Part::Text(title)])
}

// The line of the application's name.
fn app_line(alloc: Global, app: &[u8]) -> Result<Vec<u8>, AllocError>
    ensures { IfOk result (λ line. line.items ≡ codes "app " ++ app.now) }
{
    parts_line(alloc, &[Part::Text(b"app "), Part::Text(app)])
}

// The line of the modulus.
fn modulus_line<P: Application>(alloc: Global, opening: &Config<P>) -> Result<Vec<u8>, AllocError>
    ensures { IfOk result (λ line. line.items ≡ codes "modulus " ++ decimal opening.now.modulus) }
{
    let modulus = opening.modulus().get();
    parts_line(alloc, &[Part::Text(b"modulus "), Part::Number(modulus)])
}

// A line of these parts.
fn parts_line(alloc: Global, parts: &[Part<'_>]) -> Result<Vec<u8>, AllocError>
    ensures { IfOk result (λ line. line.items ≡ flat_map part_text parts.now) }
{
    let mut line = Vec::new(alloc);
    add_parts(&mut line, parts)?;
    Ok(line)
}

// The line of all identifiers.
fn nodes_line(alloc: Global, topology: &Topology) -> Result<Vec<u8>, AllocError>
    ensures { IfOk result (λ line. line.items ≡ nodes_line topology.now) }
{
    let mut line = parts_line(alloc, &[Part::Text(b"nodes")])?;
    add_ids(&mut line, topology.ids())?;
    Ok(line)
}

// Adds identifiers, each after a space.
fn add_ids(line: &mut Vec<u8>, ids: &[u32]) -> Result<(), AllocError>
    ensures { OnOk result (line.new.items ≡ line.old.items ++ flat_map spaced ids.now) }
{
    for id in ids {
        add_parts(line, &[Part::Text(b" "), Part::Number(*id as u64)])?;
    }
    Ok(())
}

// The line of all links.
fn links_line(alloc: Global, topology: &Topology) -> Result<Vec<u8>, AllocError>
    ensures { IfOk result (λ line. line.items ≡ links_line topology.now) }
{
    let mut line = parts_line(alloc, &[Part::Text(b"links")])?;
    add_links(alloc, &mut line, topology, topology.ids())?;
    Ok(line)
}

// Adds the links of these nodes with greater ones.
fn add_links(
    alloc: Global,
    line: &mut Vec<u8>,
    topology: &Topology,
    ids: &[u32],
) -> Result<(), AllocError>
    ensures { OnOk result (line.new.items ≡ line.old.items ++ flat_map (links_from topology.now) ids.now) }
{
    for id in ids {
        add_links_from(alloc, line, topology, *id)?;
    }
    Ok(())
}

// Adds the links of a node with greater ones.
fn add_links_from(
    alloc: Global,
    line: &mut Vec<u8>,
    topology: &Topology,
    id: u32,
) -> Result<(), AllocError>
    ensures { OnOk result (line.new.items ≡ line.old.items ++ links_from topology.now id) }
{
    let mut near = Vec::new(alloc);
    add_neighbours(&mut near, topology, id)?;
    add_links_to(line, id, &near)
}

// Adds the links of a node with those of these that are greater.
fn add_links_to(line: &mut Vec<u8>, id: u32, near: &[u32]) -> Result<(), AllocError>
    ensures { OnOk result (line.new.items ≡ line.old.items ++ flat_map (link_from id) near.now) }
{
    for other in near {
        add_link(line, id, *other)?;
    }
    Ok(())
}

// Adds a link at its lesser end, and nothing at its greater one.
fn add_link(line: &mut Vec<u8>, id: u32, other: u32) -> Result<(), AllocError>
    ensures { OnOk result (line.new.items ≡ line.old.items ++ link_from id other) }
{
    if other <= id {
        return Ok(());
    }
    add_parts(
        line,
        &[
            Part::Text(b" "),
            Part::Number(id as u64),
            Part::Text(b"-"),
            Part::Number(other as u64),
        ],
    )
}

// Writes the lines of these identifiers in the opening.
pub fn put_boot_lines<P: Application, W: Write>(
    alloc: Global,
    opening: &Config<P>,
    ids: &[u32],
    out: &mut W,
) -> Result<(), PageStop>
    ensures ok { OnOk result (Appends (W.contents out.old) (W.contents out.new)
        (flat_map (boot_line P.app P.text opening.now) ids.now)) }
    ensures err { OnErr result (AppendsPrefix (W.contents out.old) (W.contents out.new)
        (flat_map (boot_line P.app P.text opening.now) ids.now)) }
{
    for id in ids {
        put_boot_line(alloc, opening, *id, out)?;
    }
    Ok(())
}

// Writes the line of an identifier in the opening.
fn put_boot_line<P: Application, W: Write>(
    alloc: Global,
    opening: &Config<P>,
    id: u32,
    out: &mut W,
) -> Result<(), PageStop>
    ensures ok { OnOk result (Appends (W.contents out.old) (W.contents out.new)
        (boot_line P.app P.text opening.now id)) }
    ensures err { OnErr result (AppendsPrefix (W.contents out.old) (W.contents out.new)
        (boot_line P.app P.text opening.now id)) }
{
    let line = boot_data(alloc, opening, id)?;
    put_line(out, &line)?;
    Ok(())
}

// The line of an identifier in the opening: its registers and what fails there, or that it is down.
fn boot_data<P: Application>(
    alloc: Global,
    opening: &Config<P>,
    id: u32,
) -> Result<Vec<u8>, AllocError>
    ensures { IfOk result (λ line. line.items ≡ boot_data P.app P.text opening.now id) }
{
    let mut line = parts_line(alloc, &[Part::Text(b"boot "), Part::Number(id as u64)])?;
    add_fields(
        &mut line,
        opening,
        id,
        &[Field::Tree, Field::Wave, Field::Local],
    )?;
    add_down(&mut line, opening.topology(), id)?;
    add_first(alloc, &mut line, opening, id)?;
    Ok(line)
}

// Adds that a node is down.
fn add_down(line: &mut Vec<u8>, topology: &Topology, id: u32) -> Result<(), AllocError>
    ensures { OnOk result (line.new.items ≡ line.old.items ++ down_text topology.now id) }
{
    topology.lemma_is_graph();
    match topology.node_at(id) {
        Some(_) => Ok(()),
        None => add_parts(line, &[Part::Text(b";down")]),
    }
}
