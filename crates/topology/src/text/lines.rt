// Topology texts of three plain lines, as they are printed and as most are written: no comment, no blank line, and one
// space where one may stand. They are read as they stand; of any other text a TOML document is made first, which
// costs several times as much.

ghost use Rattle.std.specs.Prelude.{◌≡◌, ◌≢◌, ◌≤◌, ◌++◌, ℕ, List, All, IfSome, MatchOption, codes, decimal, length};
ghost use Rattle.std.specs.List.{join_by};
ghost use Rattle.topology.specs.Reading.{HasMaxModulus, IfRead, IsSmallReading, reading_view};
ghost use Rattle.topology.specs.TopologyTable.{IsSmall, IsSmallLink, app_line, description_text, link_text, links_line};
ghost use Rattle.topology.specs.TopologyTable.{documented_text, nodes_line};
ghost use Rattle.topology.specs.TopologyText.{description_of};

use super::{AppName, Reading, app_named};
use action_tables::{MAX_MODULUS, cut, split_number};
use std::alloc::{AllocError, Global};

/// What a text says that has a line for each key, in the order of the documentation or as it is printed. None of any
/// other text.
pub(super) fn read_lines(alloc: Global, text: &[u8]) -> Result<Option<Reading>, AllocError>
    requires { length text.now ≤ 1048576 }
    ensures { IfRead result (λ r. description_of text.now ≡ Ok (reading_view r)) }
{
    if let Some(reading) = documented(alloc, text)? {
        return Ok(Some(reading));
    }
    printed(alloc, text)
}

// The lines of `nodes`, `links` and `app`.
fn documented(alloc: Global, text: &[u8]) -> Result<Option<Reading>, AllocError>
    ensures text { IfRead result (λ r. text.now ≡ documented_text (reading_view r)) }
    ensures small { IfRead result IsSmallReading }
    ensures modulus { IfRead result HasMaxModulus }
{
    let Some((nodes, rest)) = nodes_line(alloc, text)? else {
        return Ok(None);
    };
    let Some((links, rest)) = links_line(alloc, rest)? else {
        return Ok(None);
    };
    match app_line(rest) {
        Some((app, [])) => Ok(Some(Reading {
            nodes,
            links,
            app,
            modulus: MAX_MODULUS,
        })),
        _ => Ok(None),
    }
}

// The lines of `app`, `links` and `nodes`.
fn printed(alloc: Global, text: &[u8]) -> Result<Option<Reading>, AllocError>
    ensures text { IfRead result (λ r. text.now ≡ description_text (reading_view r)) }
    ensures small { IfRead result IsSmallReading }
    ensures modulus { IfRead result HasMaxModulus }
{
    let Some((app, rest)) = app_line(text) else {
        return Ok(None);
    };
    let Some((links, rest)) = links_line(alloc, rest)? else {
        return Ok(None);
    };
    match nodes_line(alloc, rest)? {
        Some((nodes, [])) => Ok(Some(Reading {
            nodes,
            links,
            app,
            modulus: MAX_MODULUS,
        })),
        _ => Ok(None),
    }
}

// The nodes of the line that a text begins with, and what follows it.
fn nodes_line(alloc: Global, text: &[u8]) -> Result<Option<(Vec<u32>, &[u8])>, AllocError>
    ensures line { IfRead result (λ r. text.now ≡ nodes_line r.0.items ++ r.1.now) }
    ensures small { IfRead result (λ r. All IsSmall r.0.items) }
{
    match after(text, b"nodes = [") {
        Some(values) => numbers(alloc, values),
        None => Ok(None),
    }
}

// The links of the line that a text begins with, and what follows it.
fn links_line(alloc: Global, text: &[u8]) -> Result<Option<(Vec<(u32, u32)>, &[u8])>, AllocError>
    ensures line { IfRead result (λ r. text.now ≡ links_line r.0.items ++ r.1.now) }
    ensures small { IfRead result (λ r. All IsSmallLink r.0.items) }
{
    match after(text, b"links = [") {
        Some(values) => links(alloc, values),
        None => Ok(None),
    }
}

// The application of the line that a text begins with, and what follows it.
fn app_line(text: &[u8]) -> Option<(AppName, &[u8])>
    ensures { IfSome result (λ r. text.now ≡ app_line r.0 ++ r.1.now) }
{
    let (word, rest) = cut(after(text, b"app = \"")?, b'"')?;
    let app = app_named(std::str::from_utf8(word).ok()?).ok()?;
    Some((app, after(rest, b"\n")?))
}

// The numbers of an array behind its bracket, which another and a line feed end, and what follows them.
fn numbers(alloc: Global, text: &[u8]) -> Result<Option<(Vec<u32>, &[u8])>, AllocError>
    ensures items { IfRead result
        (λ r. text.now ≡ join_by decimal (codes ", ") r.0.items ++ (codes "]\n" ++ r.1.now)) }
    ensures small { IfRead result (λ r. All IsSmall r.0.items) }
{
    let mut numbers = Vec::new(alloc);
    let mut rest = text;
    while let Some((number, behind)) = split_number(rest, b',') {
        let [b' ', next @ ..] = behind else {
            return Ok(None);
        };
        numbers.push(number)?;
        rest = next;
    }
    match split_number(rest, b']') {
        Some((last, [b'\n', next @ ..])) => {
            numbers.push(last)?;
            Ok(Some((numbers, next)))
        }
        _ => Ok(None),
    }
}

// The links of an array behind its bracket, which another and a line feed end, and what follows them.
fn links(alloc: Global, text: &[u8]) -> Result<Option<(Vec<(u32, u32)>, &[u8])>, AllocError>
    ensures items { IfRead result
        (λ r. text.now ≡ join_by link_text (codes ", ") r.0.items ++ (codes "]\n" ++ r.1.now)) }
    ensures small { IfRead result (λ r. All IsSmallLink r.0.items) }
{
    let mut links = Vec::new(alloc);
    let mut rest = text;
    while let Some((ends, behind)) = link(rest) {
        links.push(ends)?;
        match behind {
            [b',', b' ', next @ ..] => rest = next,
            [b']', b'\n', next @ ..] => return Ok(Some((links, next))),
            _ => return Ok(None),
        }
    }
    Ok(None)
}

// The link that a text begins with, and what follows it.
fn link(text: &[u8]) -> Option<((u32, u32), &[u8])>
    ensures text { IfSome result (λ r. text.now ≡ link_text r.0 ++ r.1.now) }
    ensures small { IfSome result (λ r. IsSmallLink r.0) }
{
    let [b'[', ends @ ..] = text else {
        return None;
    };
    let (from, rest) = split_number(ends, b',')?;
    let [b' ', rest @ ..] = rest else {
        return None;
    };
    let (to, rest) = split_number(rest, b']')?;
    Some(((from, to), rest))
}

// What follows these bytes, where a text begins with them.
fn after<'t>(text: &'t [u8], bytes: &[u8]) -> Option<&'t [u8]>
    ensures { MatchOption result ((rest : List ℕ) → text.now ≢ bytes.now ++ rest)
        (λ rest. text.now ≡ bytes.now ++ rest.now) }
{
    text.strip_prefix(bytes)
}
