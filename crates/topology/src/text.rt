//! Topology texts: TOML documents with a list of nodes, a list of links, an application's name and, if they name one,
//! the number modulo which sessions are counted.
ghost use Rattle.action_tables.specs.Modulus.{IsModulus};
ghost use Rattle.std.specs.Prelude.{◌≡◌, ◌≢◌, ◌≤◌, IfOk, IfErr, Some, length, vec_items};
ghost use Rattle.std.specs.Result.{result_map_both};
ghost use Rattle.toml.specs.View.{view, table_view};
ghost use Rattle.topology.specs.Faults.{IsTopologyOf};
ghost use Rattle.topology.specs.ReadFaultText.{read_fault_text};
ghost use Rattle.topology.specs.Reading.{Gives, reading_view};
ghost use Rattle.topology.specs.TopologyText.{Description, IsReadFault, app_named, described, description_of, is_known};
ghost use Rattle.topology.specs.TopologyText.{modulus_at, modulus_of, no_other_key, number_of, numbers_of, pair_of, pairs_of, string_of};
ghost use Rattle.topology.specs.TopologyText.{table_of, value_at};
ghost use Rattle.topology.specs.declared.text.ReadFault.TheVariants.{NoMemory, Topology as TopologyFault};
ghost use Rattle.topology.specs.declared.fault.TopoFault.TheVariants as topo;

mod lines;

use crate::fault::TopoFault;
use crate::topology::Topology;
use action_tables::{MAX_MODULUS, MIN_MODULUS};
use lines::read_lines;
use std::alloc::{AllocError, AllocFailed, Global};
use std::error::Error;
use std::fmt;
use toml::{Table, Value};

/// The most bytes of a topology text.
pub const MAX_TEXT: usize = 1_048_576;

/// The applications that a topology text can name.
#[derive(Clone, Copy, Debug, PartialEq, Eq)]
pub enum AppName {
    /// `idle`, which has nothing to do.
    Idle,
    /// `token`, in which one node at a time holds a token.
    Token,
    /// `mutex`, in which no two neighbours are in at once.
    Mutex,
    /// `routes`, in which each node learns a way to every other.
    Routes,
}

/// Why a text is no topology, in the order in which faults are named.
#[derive(Clone, Copy, Debug, PartialEq, Eq)]
pub enum ReadFault {
    /// The text has more than 1,048,576 bytes.
    TextTooLong,
    /// The bytes aren't UTF-8, or no TOML document.
    NotToml,
    /// One of the keys `nodes`, `links` and `app` isn't there.
    MissingKey,
    /// A key beyond these three and `modulus` is there.
    UnknownKey,
    /// A value has another shape than its key asks for, a number of the lists isn't from 0 to 4294967295, or the
    /// modulus isn't from 2 to 4294967296.
    WrongKind,
    /// No application has this name.
    UnknownApp,
    /// The nodes and the links are no topology. Never `TopoFault::NoMemory`.
    Topology(TopoFault),
    /// A growth was refused.
    NoMemory,
}

impl From<AllocError> for ReadFault {
    ghost from_gives = { λ _ f. f ≡ NoMemory };

    fn from(_error: AllocError) -> ReadFault {
        ReadFault::NoMemory
    }
}

impl<T: Drop> From<AllocFailed<T>> for ReadFault {
    ghost from_gives = { λ _ f. f ≡ NoMemory };

    fn from(_error: AllocFailed<T>) -> ReadFault {
        ReadFault::NoMemory
    }
}

impl fmt::Display for ReadFault {
    ghost output = { λ f. Some (read_fault_text f) };

    fn fmt<W: fmt::Write>(&self, f: &mut fmt::Formatter<W>) -> fmt::Result {
        match self {
            ReadFault::TextTooLong => write!(f, "TextTooLong"),
            ReadFault::NotToml => write!(f, "NotToml"),
            ReadFault::MissingKey => write!(f, "MissingKey"),
            ReadFault::UnknownKey => write!(f, "UnknownKey"),
            ReadFault::WrongKind => write!(f, "WrongKind"),
            ReadFault::UnknownApp => write!(f, "UnknownApp"),
            ReadFault::Topology(fault) => write!(f, "{fault}"),
            ReadFault::NoMemory => write!(f, "NoMemory"),
        }
    }
}

impl Error for ReadFault {}

/// What a topology text says.
#[derive(Drop)]
pub struct TopologyText {
    /// The graph of its nodes and links.
    pub topology: Topology,
    /// The application that its nodes run.
    pub app: AppName,
    /// The number modulo which sessions are counted, from 2 to `MAX_MODULUS`.
    pub modulus: u64,
}

/// What a text of the right shape gives.
#[derive(Drop)]
struct Reading {
    nodes: Vec<u32>,
    links: Vec<(u32, u32)>,
    app: AppName,
    modulus: u64,
}

/// Reads a topology, the name of its application and its modulus from a TOML document whose top level has the three keys
/// `nodes`, an array of numbers, `links`, an array of pairs of numbers, and `app`, a string, and may have a fourth,
/// `modulus`, an integer from 2 to 4294967296. Without it the modulus is `MAX_MODULUS`.
///
/// Of several faults the first in the order of `ReadFault` is answered, and of those of the lists
/// the first in the order of `TopoFault`.
#[tactic(auto, using(crate::proofs::TopologyTexts::own_fault, crate::proofs::TopologyTexts::never_memory, crate::proofs::Moduli::described_modulus))]
pub fn read_topology(alloc: Global, text: &[u8]) -> Result<TopologyText, ReadFault>
    ensures ok { IfOk result
        (λ r. (d : Description) × (description_of text.now ≡ Ok d) × IsTopologyOf d.nodes d.links r.topology
        × (r.app ≡ d.app) × (r.modulus ≡ d.modulus)) }
    ensures modulus { IfOk result (λ r. IsModulus r.modulus) }
    ensures err { IfErr result (λ f. f ≢ NoMemory → IsReadFault text.now f) }
    ensures memory { IfErr result (λ f. f ≢ TopologyFault topo.NoMemory) }
{
    let reading = read_text(alloc, text)?;
    match Topology::build(alloc, &reading.nodes, &reading.links) {
        Ok(topology) => Ok(TopologyText {
            topology,
            app: reading.app,
            modulus: reading.modulus,
        }),
        Err(TopoFault::NoMemory) => Err(ReadFault::NoMemory),
        Err(fault) => Err(ReadFault::Topology(fault)),
    }
}

#[tactic(auto, unfolding(crate::specs::TopologyText::description_of, crate::specs::TopologyText::table_of))]
fn read_text(alloc: Global, text: &[u8]) -> Result<Reading, ReadFault>
    ensures { Gives reading_view result (description_of text.now) }
{
    if text.len() > MAX_TEXT {
        return Err(ReadFault::TextTooLong);
    }
    if let Some(reading) = read_lines(alloc, text)? {
        return Ok(reading);
    }
    let table = read_table(alloc, text)?;
    read_members(alloc, &table)
}

#[tactic(auto, unfolding(crate::specs::TopologyText::described))]
fn read_members(alloc: Global, table: &Table) -> Result<Reading, ReadFault>
    ensures { Gives reading_view result (described (table_view table.now)) }
{
    let nodes = value_at(table, "nodes")?;
    let links = value_at(table, "links")?;
    let app = value_at(table, "app")?;
    no_other_key(table)?;
    let nodes = numbers(alloc, nodes)?;
    let links = pairs(alloc, links)?;
    let name = string(app)?;
    let modulus = modulus_at(table)?;
    let app = app_named(name)?;
    Ok(Reading {
        nodes,
        links,
        app,
        modulus,
    })
}

#[tactic(auto, unfolding(crate::specs::TopologyText::table_of, crate::specs::TopologyText::toml_of))]
fn read_table(alloc: Global, text: &[u8]) -> Result<Table, ReadFault>
    requires { length text.now ≤ 1048576 }
    ensures { Gives table_view result (table_of text.now) }
{
    match toml::table_from_slice(alloc, text) {
        Ok(table) => Ok(table),
        Err(error) if error.is_memory() => Err(ReadFault::NoMemory),
        Err(_) => Err(ReadFault::NotToml),
    }
}

#[tactic(auto, unfolding(crate::specs::TopologyText::value_at))]
fn value_at<'t>(table: &'t Table, key: &str) -> Result<&'t Value, ReadFault>
    ensures { result_map_both (λ v. view v.now) (λ f. f) result ≡ value_at (table_view table.now) key.now }
{
    table.get(key).ok_or(ReadFault::MissingKey)
}

#[tactic(auto, unfolding(crate::specs::TopologyText::no_other_key))]
fn no_other_key(table: &Table) -> Result<(), ReadFault>
    ensures { result ≡ no_other_key (table_view table.now) }
{
    for key in table.keys() {
        if !is_known(key.as_str()) {
            return Err(ReadFault::UnknownKey);
        }
    }
    Ok(())
}

fn is_known(key: &str) -> bool
    ensures { result ≡ is_known key.now }
{
    key == "nodes" || key == "links" || key == "app" || key == "modulus"
}

#[tactic(auto, unfolding(crate::specs::TopologyText::numbers_of))]
fn numbers(alloc: Global, value: &Value) -> Result<Vec<u32>, ReadFault>
    ensures { Gives vec_items result (numbers_of (view value.now)) }
{
    let Some(items) = value.as_array() else {
        return Err(ReadFault::WrongKind);
    };
    let mut numbers = Vec::new(alloc);
    for item in items {
        match number(item) {
            Some(number) => numbers.push(number)?,
            None => return Err(ReadFault::WrongKind),
        }
    }
    Ok(numbers)
}

#[tactic(auto, unfolding(crate::specs::TopologyText::pairs_of))]
fn pairs(alloc: Global, value: &Value) -> Result<Vec<(u32, u32)>, ReadFault>
    ensures { Gives vec_items result (pairs_of (view value.now)) }
{
    let Some(items) = value.as_array() else {
        return Err(ReadFault::WrongKind);
    };
    let mut pairs = Vec::new(alloc);
    for item in items {
        match pair(item) {
            Some(pair) => pairs.push(pair)?,
            None => return Err(ReadFault::WrongKind),
        }
    }
    Ok(pairs)
}

#[tactic(auto, using(crate::proofs::TopologyTexts::pair_none), unfolding(crate::specs::TopologyText::pair_of))]
fn pair(value: &Value) -> Option<(u32, u32)>
    ensures { result ≡ pair_of (view value.now) }
{
    match value.as_array()?.as_slice() {
        [from, to] => Some((number(from)?, number(to)?)),
        _ => None,
    }
}

#[tactic(auto, unfolding(crate::specs::TopologyText::number_of))]
fn number(value: &Value) -> Option<u32>
    ensures { result ≡ number_of (view value.now) }
{
    u32::try_from(value.as_integer()?).ok()
}

#[tactic(auto, unfolding(crate::specs::TopologyText::string_of))]
fn string(value: &Value) -> Result<&str, ReadFault>
    ensures { result_map_both (λ s. s.now) (λ f. f) result ≡ string_of (view value.now) }
{
    value.as_str().ok_or(ReadFault::WrongKind)
}

#[tactic(auto, unfolding(crate::specs::TopologyText::modulus_at))]
fn modulus_at(table: &Table) -> Result<u64, ReadFault>
    ensures { result ≡ modulus_at (table_view table.now) }
{
    match table.get("modulus") {
        Some(value) => modulus(value).ok_or(ReadFault::WrongKind),
        None => Ok(MAX_MODULUS),
    }
}

#[tactic(auto, unfolding(crate::specs::TopologyText::modulus_of))]
fn modulus(value: &Value) -> Option<u64>
    ensures { result ≡ modulus_of (view value.now) }
{
    let modulus = u64::try_from(value.as_integer()?).ok()?;
    if MIN_MODULUS <= modulus && modulus <= MAX_MODULUS {
        Some(modulus)
    } else {
        None
    }
}

/// The application with this name, or `UnknownApp`.
#[tactic(auto, unfolding(crate::specs::TopologyText::app_named))]
pub fn app_named(name: &str) -> Result<AppName, ReadFault>
    ensures { result ≡ app_named name.now }
{
    match name {
        "idle" => Ok(AppName::Idle),
        "token" => Ok(AppName::Token),
        "mutex" => Ok(AppName::Mutex),
        "routes" => Ok(AppName::Routes),
        _ => Err(ReadFault::UnknownApp),
    }
}
