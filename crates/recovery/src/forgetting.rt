// Roots that are none, and ways that there aren't: the nodes that know such forget them.

ghost use Rattle.std.specs.Prelude.{◌≡◌, ◌<◌, ◌≤◌, ◌+◌, ℕ, true, false, length, OnOk, IfOk, IfSome, IfNone};
ghost use Rattle.topology.specs.Graph.{IsNode};
ghost use Rattle.reset_model.specs.Configuration.{tree_of};
ghost use Rattle.recovery.specs.FalseNodes.{AllTrue, AtMost, Forgets, IsFalseNode, IsLowest, IsTarget};
ghost use Rattle.recovery.specs.FalseNodes.{far_of, is_claimed, is_false, potential_of, top_of};

use crate::draft::{Draft, Repairs};
use app_interface::Application;
use reset_machine::{Config, Event};
use std::alloc::{AllocError, Global};
use tree_layer::TreeRegs;

/// Takes steps at false nodes of least distance, as long as there are some.
pub(crate) fn forget_all<P: Application>(
    alloc: Global,
    draft: &mut Draft<P, Repairs>,
    target: &Config<P>,
) -> Result<(), AllocError>
    requires { IsTarget draft.old.config target.now }
    ensures opening { draft.new.opening ≡ draft.old.opening }
    ensures target { OnOk result (IsTarget draft.new.config target.now) }
    ensures graph { OnOk result (draft.new.config.graph ≡ draft.old.config.graph) }
    ensures few { OnOk result (length draft.new.events + potential_of draft.new.config target.now
        ≤ length draft.old.events + potential_of draft.old.config target.now) }
    ensures all_true { OnOk result (AllTrue draft.new.config target.now) }
{
    let mut more = true;
    while more {
        more = forget_one(alloc, draft, target)?;
    }
    Ok(())
}

// Takes a step at a false node of least distance, and says whether there was one.
fn forget_one<P: Application>(
    alloc: Global,
    draft: &mut Draft<P, Repairs>,
    target: &Config<P>,
) -> Result<bool, AllocError>
    requires { IsTarget draft.old.config target.now }
    ensures opening { draft.new.opening ≡ draft.old.opening }
    ensures done { IfOk result (λ did. did ≡ true → Forgets draft.old.config target.now draft.new.config
        × (length draft.new.events ≡ length draft.old.events + 1)) }
    ensures none { IfOk result (λ did. did ≡ false
        → (draft.new ≡ draft.old) × AllTrue draft.old.config target.now) }
{
    draft.config().lemma_is_graph();
    match lowest_false(draft.config(), target) {
        Some(at) => {
            step_false(alloc, draft, target, at)?;
            Ok(true)
        }
        None => Ok(false),
    }
}

// Claims or follows at a false node of least distance.
fn step_false<P: Application>(
    alloc: Global,
    draft: &mut Draft<P, Repairs>,
    target: &Config<P>,
    at: u32,
) -> Result<(), AllocError>
    requires target { IsTarget draft.old.config target.now }
    requires lowest { IsLowest draft.old.config target.now at }
    ensures opening { draft.new.opening ≡ draft.old.opening }
    ensures done { OnOk result (Forgets draft.old.config target.now draft.new.config
        × (length draft.new.events ≡ length draft.old.events + 1)) }
{
    draft.config().lemma_is_graph();
    if draft.attempt(alloc, Event::Claim { at })? {
        return Ok(());
    }
    if draft.attempt(alloc, Event::Follow { at })? {
        return Ok(());
    }
    unreachable!()
}

// A false node of least distance.
fn lowest_false<P: Application>(config: &Config<P>, target: &Config<P>) -> Option<u32>
    requires { IsTarget config.now target.now }
    ensures found { IfSome result (λ i. IsLowest config.now target.now i) }
    ensures none { IfNone result (AllTrue config.now target.now) }
{
    let nodes = config.topology().nodes();
    let mut lowest = None;
    for id in nodes {
        lowest = next_lowest(config, target, lowest, *id);
    }
    lowest
}

// The lowest of those before and this one, if it is false.
fn next_lowest<P: Application>(
    config: &Config<P>,
    target: &Config<P>,
    lowest: Option<u32>,
    id: u32,
) -> Option<u32>
    requires target { IsTarget config.now target.now }
    requires lowest { IfSome lowest (λ i. IsFalseNode config.now target.now i) }
    requires node { IsNode config.now.graph id }
    ensures found { IfSome result (λ i. IsFalseNode config.now target.now i) }
    ensures here { is_false (top_of target.now) (far_of target.now) (tree_of config.now) id ≡ true
        → AtMost config.now result id }
    ensures there { (x : ℕ) → AtMost config.now lowest x → AtMost config.now result x }
{
    if is_false(config, target, id) {
        Some(lower_of(config, target, lowest, id))
    } else {
        lowest
    }
}

// The one of lesser distance.
fn lower_of<P: Application>(
    config: &Config<P>,
    target: &Config<P>,
    lowest: Option<u32>,
    id: u32,
) -> u32
    requires lowest { IfSome lowest (λ i. IsFalseNode config.now target.now i) }
    requires node { IsFalseNode config.now target.now id }
    ensures found { IsFalseNode config.now target.now result }
    ensures here { (tree_of config.now result).dist ≤ (tree_of config.now id).dist }
    ensures there { (x : ℕ) → AtMost config.now lowest x
        → (tree_of config.now result).dist ≤ (tree_of config.now x).dist }
{
    let _ = target;
    match lowest {
        Some(other) => {
            if regs_at(config, id).dist < regs_at(config, other).dist {
                id
            } else {
                other
            }
        }
        None => id,
    }
}

// Whether a node knows a root that is none, or a way to its leader that there isn't.
fn is_false<P: Application>(config: &Config<P>, target: &Config<P>, id: u32) -> bool
    requires target { IsTarget config.now target.now }
    requires node { IsNode config.now.graph id }
    ensures { result ≡ is_false (top_of target.now) (far_of target.now) (tree_of config.now) id }
{
    config.lemma_is_graph();
    let regs = regs_at(config, id);
    let place = regs_at(target, id);
    let up = regs_at(config, place.root);
    (regs.root > place.root)
        | ((regs.root == place.root) & (!is_claimed(up, place.root) | (regs.dist < place.dist)))
}

// Whether a node is its own root.
fn is_claimed(regs: TreeRegs, id: u32) -> bool
    ensures { result ≡ is_claimed regs id }
{
    (regs.root == id) & (regs.father == id) & (regs.dist == 0)
}

/// The tree registers of a node.
pub(crate) fn regs_at<P: Application>(config: &Config<P>, id: u32) -> TreeRegs
    requires { IsNode config.now.graph id }
    ensures { result ≡ tree_of config.now id }
{
    config.tree_at(id).unwrap()
}
