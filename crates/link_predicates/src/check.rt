// The checker, and the alarm of an application.

ghost use Rattle.std.specs.Prelude.{◌≡◌, ◌≢◌, ◌<◌, ◌++◌, None, Some, IfErr, IfNone, IfOk, IfSome, OnOk, find, flat_map};
ghost use Rattle.std.specs.Prelude.{false, length, map, slice_index};
ghost use Rattle.topology.specs.Graph.{AreLinked, IsNode, are_linked, neighbours_of, node_bound};
ghost use Rattle.reset_model.specs.View.{near_of};
ghost use Rattle.link_predicates.specs.Ends.{AreEnds};
ghost use Rattle.link_predicates.specs.Faults.{alarm_of, app_row, end_faults, fault_of, faults, is_of_app};
ghost use Rattle.link_predicates.specs.Faults.{link_faults, node_faults, own_row};
ghost use Rattle.link_predicates.specs.declared.fault.Family.TheVariants.{Tree};

use crate::end::{End, Limits, end_at};
use crate::fault::{Family, LinkFault};
use crate::quiet::{is_quiet, is_settled};
use crate::rows;
use app_interface::Application;
use reset_machine::{Config, StepRefusal};
use std::alloc::{AllocError, Global};
use topology::nodes_are_up;

/// The faults at the node with this identifier: first that of the node itself, then those of its
/// links, by ascending neighbour. Or a refusal: `StrangeNode`, or `NoMemory`.
pub fn check_node<P: Application>(
    alloc: Global,
    config: &Config<P>,
    at: u32,
) -> Result<Vec<LinkFault>, StepRefusal>
    ensures ok { IfOk result (λ found. IsNode config.now.graph at × (found.items ≡ node_faults P.app config.now at)) }
    ensures err { IfErr result
        (λ f. f ≢ StepRefusal.NoMemory → (f ≡ StepRefusal.StrangeNode) × (IsNode config.now.graph at → ⊥)) }
{
    let Some(index) = index_of(config, at) else {
        return Err(StepRefusal::StrangeNode);
    };
    let mut found = Vec::new(alloc);
    add_node(&mut found, config, index)?;
    Ok(found)
}

/// The faults of all nodes, node by node ascending.
pub fn check_all<P: Application>(
    alloc: Global,
    config: &Config<P>,
) -> Result<Vec<LinkFault>, AllocError>
    ensures { IfOk result (λ found. found.items ≡ faults P.app config.now) }
{
    let mut found = Vec::new(alloc);
    let topology = config.topology();
    topology.lemma_is_graph();
    for index in 0..topology.len() {
        if topology.is_up(index) {
            add_node(&mut found, config, index)?;
        }
    }
    nodes_are_up();
    Ok(found)
}

/// The faults at a node's end of its link to another. None where there is no such link.
pub fn check_link<P: Application>(
    alloc: Global,
    config: &Config<P>,
    at: u32,
    other: u32,
) -> Result<Vec<LinkFault>, AllocError>
    ensures { IfOk result (λ found. found.items ≡ end_faults P.app config.now at other) }
{
    let Some((index, near)) = ends_of(config, at, other) else {
        return Ok(Vec::new(alloc));
    };
    let mut found = Vec::new(alloc);
    add_end(&mut found, config, index, near)?;
    Ok(found)
}

/// The first fault of the application at the node with this identifier. None where there is none,
/// and where there is no such node.
pub fn alarm<P: Application>(config: &Config<P>, at: u32) -> Option<LinkFault>
    ensures found { IfSome result (λ fault. IsNode config.now.graph at × (alarm_of P.app config.now at ≡ Some fault)) }
    ensures none { IfNone result (IsNode config.now.graph at → alarm_of P.app config.now at ≡ None) }
{
    match index_of(config, at) {
        Some(index) => alarm_at(config, index),
        None => None,
    }
}

// The index of the node with this identifier. None where there is no such node.
fn index_of<P: Application>(config: &Config<P>, at: u32) -> Option<usize>
    ensures found { let ids = config.now.graph.ids in
        IfSome result (λ index. IsNode config.now.graph at × (index < length ids) × (slice_index ids index ≡ at)) }
    ensures none { IfNone result (IsNode config.now.graph at → ⊥) }
{
    config.lemma_is_graph();
    config.topology().node_at(at)
}

// The indexes of two linked nodes. None where there is no such link.
fn ends_of<P: Application>(config: &Config<P>, at: u32, other: u32) -> Option<(usize, usize)>
    ensures found { IfSome result (λ ends. AreEnds config.now.graph at other ends.0 ends.1) }
    ensures none { IfNone result (are_linked config.now.graph at other ≡ false) }
{
    let topology = config.topology();
    config.lemma_is_graph();
    match topology.node_at(at) {
        Some(index) => match topology.neighbour_at(index, other) {
            Some(near) => Some((index, near)),
            None => None,
        },
        None => None,
    }
}

// The first fault of the application at the node with this index.
fn alarm_at<P: Application>(config: &Config<P>, index: usize) -> Option<LinkFault>
    requires { index < length config.now.graph.ids }
    ensures { result ≡ alarm_of P.app config.now (slice_index config.now.graph.ids index) }
{
    let limits = limits_of(config);
    let own = end_at(config, index);
    for near in config.topology().neighbours(index) {
        let fault = link_alarm(&limits, &own, &end_at(config, *near));
        if fault.is_some() {
            return fault;
        }
    }
    None
}

// The first fault of the application at a node's end of a link.
fn link_alarm<P: Application>(
    limits: &Limits,
    own: &End<'_, P>,
    other: &End<'_, P>,
) -> Option<LinkFault>
    ensures { result ≡ find is_of_app (link_faults P.app limits.now.k limits.now.modulus own.now other.now) }
{
    let row = rows::app_row(limits.k, own, other)?;
    Some(LinkFault {
        at: own.id,
        other: other.id,
        family: Family::App,
        row,
    })
}

// The bound K of the distances, and the modulus of the sessions.
fn limits_of<P: Application>(config: &Config<P>) -> Limits
    ensures bound { result.k ≡ node_bound config.now.graph }
    ensures modulus { result.modulus ≡ config.now.modulus }
    ensures some { 0 < result.k }
{
    let topology = config.topology();
    topology.lemma_is_graph();
    Limits {
        k: topology.len() as u32,
        modulus: config.modulus(),
    }
}

// Adds the faults at the node with this index.
fn add_node<P: Application>(
    found: &mut Vec<LinkFault>,
    config: &Config<P>,
    index: usize,
) -> Result<(), AllocError>
    requires { index < length config.now.graph.ids }
    ensures { OnOk result
        (found.new.items ≡ found.old.items ++ node_faults P.app config.now (slice_index config.now.graph.ids index)) }
{
    let own = end_at(config, index);
    let row = own_row(config, index, &own);
    add(found, own.id, own.id, Family::Tree, row)?;
    add_links(found, config, index, &own)
}

// Of rows 1 to 4 of the tree table the first that fails at the node with this index.
fn own_row<P: Application>(config: &Config<P>, index: usize, own: &End<'_, P>) -> Option<u8>
    requires within { index < length config.now.graph.ids }
    requires there { own.now ≡ near_of P.app config.now (slice_index config.now.graph.ids index) }
    ensures { result ≡ own_row config.now (slice_index config.now.graph.ids index) }
{
    let topology = config.topology();
    config.lemma_is_graph();
    let k = limits_of(config).k;
    let father = own.tree.father;
    match topology.neighbour_at(index, father) {
        Some(_) if is_settled(k, own.id, own.tree) => None,
        Some(up) => rows::own_row(k, own.id, own.tree, &[(father, config.trees()[up])]),
        None => rows::own_row(k, own.id, own.tree, &[]),
    }
}

// Adds the faults of all links of the node with this index.
fn add_links<P: Application>(
    found: &mut Vec<LinkFault>,
    config: &Config<P>,
    index: usize,
    own: &End<'_, P>,
) -> Result<(), AllocError>
    requires within { index < length config.now.graph.ids }
    requires there { own.now ≡ near_of P.app config.now (slice_index config.now.graph.ids index) }
    ensures { OnOk result
        (found.new.items
        ≡ found.old.items ++ flat_map (link_faults P.app (node_bound config.now.graph) config.now.modulus own.now)
        (map (near_of P.app config.now) (neighbours_of config.now.graph (slice_index config.now.graph.ids index)))) }
{
    config.lemma_is_graph();
    let limits = limits_of(config);
    for near in config.topology().neighbours(index) {
        if !is_quiet(&limits, &*own, &end_at(config, *near)) {
            add_link(found, &limits, &*own, &end_at(config, *near))?;
        }
    }
    Ok(())
}

// Adds the faults at an end of the link between the nodes with these indexes.
fn add_end<P: Application>(
    found: &mut Vec<LinkFault>,
    config: &Config<P>,
    index: usize,
    near: usize,
) -> Result<(), AllocError>
    requires within { index < length config.now.graph.ids }
    requires near { near < length config.now.graph.ids }
    requires linked { let ids = config.now.graph.ids in
        AreLinked config.now.graph (slice_index ids index) (slice_index ids near) }
    ensures { OnOk result
        (found.new.items
        ≡ found.old.items ++ link_faults P.app (node_bound config.now.graph) config.now.modulus
        (near_of P.app config.now (slice_index config.now.graph.ids index))
        (near_of P.app config.now (slice_index config.now.graph.ids near))) }
{
    config.lemma_is_graph();
    let limits = limits_of(config);
    let own = end_at(config, index);
    let other = end_at(config, near);
    if is_quiet(&limits, &own, &other) {
        return Ok(());
    }
    add_link(found, &limits, &own, &other)
}

// Adds the faults at a node's end of a link. It is seldom called: most ends are quiet.
#[inline(never)]
fn add_link<P: Application>(
    found: &mut Vec<LinkFault>,
    limits: &Limits,
    own: &End<'_, P>,
    other: &End<'_, P>,
) -> Result<(), AllocError>
    requires bounded { 0 < limits.now.k }
    requires others { other.now.id ≢ own.now.id }
    ensures { OnOk result (found.new.items ≡ found.old.items ++ link_faults P.app limits.now.k limits.now.modulus own.now other.now) }
{
    let tree = rows::tree_row(limits.k, own, other);
    let wave = rows::wave_row(limits.modulus, own, other);
    let app = rows::app_row(limits.k, own, other);
    add(found, own.id, other.id, Family::Tree, tree)?;
    add(found, own.id, other.id, Family::Wave, wave)?;
    add(found, own.id, other.id, Family::App, app)
}

// Adds the fault of a row, if one fails.
fn add(
    found: &mut Vec<LinkFault>,
    at: u32,
    other: u32,
    family: Family,
    row: Option<u8>,
) -> Result<(), AllocError>
    ensures { OnOk result (found.new.items ≡ found.old.items ++ fault_of at other family row) }
{
    if let Some(row) = row {
        found.push(LinkFault {
            at,
            other,
            family,
            row,
        })?;
    }
    Ok(())
}
