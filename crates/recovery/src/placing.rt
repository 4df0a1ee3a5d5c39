// Places: each node gets its own in the tree of shortest ways, from the leaders out.

ghost use Rattle.std.specs.Prelude.{◌≡◌, ◌≢◌, ◌≤◌, ◌+◌, ◌*◌, length, OnOk};
ghost use Rattle.topology.specs.Graph.{IsNode};
ghost use Rattle.reset_model.specs.Configuration.{tree_of};
ghost use Rattle.recovery.specs.FalseNodes.{AllTrue, IsNext, IsTarget, Places, top_of};
ghost use Rattle.recovery.specs.Outward.{AllPlaced, IsOutward};

use crate::draft::{Draft, Repairs};
use crate::forgetting::regs_at;
use app_interface::Application;
use reset_machine::{Config, Event};
use std::alloc::{AllocError, Global};
use tree_layer::TreeRegs;

/// Gives each node its place, nearer ones first. No node may be false.
pub(crate) fn place_all<P: Application>(
    alloc: Global,
    draft: &mut Draft<P, Repairs>,
    target: &Config<P>,
    order: &[u32],
) -> Result<(), AllocError>
    requires target { IsTarget draft.old.config target.now }
    requires all_true { AllTrue draft.old.config target.now }
    requires order { IsOutward target.now order.now }
    ensures opening { draft.new.opening ≡ draft.old.opening }
    ensures placed { OnOk result (AllPlaced draft.old.config target.now draft.new.config) }
    ensures count { OnOk result (length draft.new.events ≤ length draft.old.events + 2 * length order.now) }
{
    for at in order {
        place_node(alloc, draft, target, *at)?;
    }
    Ok(())
}

// Gives a node its place: a leader claims, and another one adopts a nearer neighbour.
fn place_node<P: Application>(
    alloc: Global,
    draft: &mut Draft<P, Repairs>,
    target: &Config<P>,
    at: u32,
) -> Result<(), AllocError>
    requires target { IsTarget draft.old.config target.now }
    requires next { IsNext draft.old.config target.now at }
    ensures opening { draft.new.opening ≡ draft.old.opening }
    ensures places { OnOk result (Places draft.old.config target.now draft.new.config at) }
    ensures count { OnOk result (length draft.new.events ≤ length draft.old.events + 2) }
{
    let place = place_of(draft.config(), target, at);
    if place.root == at {
        place_leader(alloc, draft, target, at)
    } else {
        place_below(alloc, draft, target, at, place.father)
    }
}

// The place of a node.
fn place_of<P: Application>(config: &Config<P>, target: &Config<P>, at: u32) -> TreeRegs
    requires target { IsTarget config.now target.now }
    requires node { IsNode config.now.graph at }
    ensures { result ≡ tree_of target.now at }
{
    let _ = config;
    regs_at(target, at)
}

// Lets a leader claim, where it isn't its own root.
fn place_leader<P: Application>(
    alloc: Global,
    draft: &mut Draft<P, Repairs>,
    target: &Config<P>,
    at: u32,
) -> Result<(), AllocError>
    requires target { IsTarget draft.old.config target.now }
    requires next { IsNext draft.old.config target.now at }
    requires leads { top_of target.now at ≡ at }
    ensures opening { draft.new.opening ≡ draft.old.opening }
    ensures places { OnOk result (Places draft.old.config target.now draft.new.config at) }
    ensures count { OnOk result (length draft.new.events ≤ length draft.old.events + 2) }
{
    draft.config().lemma_is_graph();
    if draft.attempt(alloc, Event::Claim { at })? {
        return Ok(());
    }
    Ok(())
}

// Lets a node adopt a nearer neighbour, after it claimed or followed where it can't at once. Where neither is enabled it
// has its place.
fn place_below<P: Application>(
    alloc: Global,
    draft: &mut Draft<P, Repairs>,
    target: &Config<P>,
    at: u32,
    from: u32,
) -> Result<(), AllocError>
    requires target { IsTarget draft.old.config target.now }
    requires next { IsNext draft.old.config target.now at }
    requires below { top_of target.now at ≢ at }
    requires from { from ≡ (tree_of target.now at).father }
    ensures opening { draft.new.opening ≡ draft.old.opening }
    ensures places { OnOk result (Places draft.old.config target.now draft.new.config at) }
    ensures count { OnOk result (length draft.new.events ≤ length draft.old.events + 2) }
{
    draft.config().lemma_is_graph();
    if draft.attempt(alloc, Event::Adopt { at, from })? {
        return Ok(());
    }
    if draft.attempt(alloc, Event::Claim { at })? {
        if draft.attempt(alloc, Event::Adopt { at, from })? {
            return Ok(());
        }
        unreachable!()
    }
    if draft.attempt(alloc, Event::Follow { at })? {
        if draft.attempt(alloc, Event::Adopt { at, from })? {
            return Ok(());
        }
        unreachable!()
    }
    Ok(())
}
