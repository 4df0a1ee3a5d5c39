// A reset of each component of sound registers, after what resets are under way has ended.

ghost use Rattle.std.specs.Prelude.{◌≡◌, ◌≢◌, ℕ, ◌≤◌, ◌+◌, ◌*◌, length, OnOk};
ghost use Rattle.topology.specs.Graph.{IsNode};
ghost use Rattle.reset_model.specs.Configuration.{tree_of};
ghost use Rattle.reset_model.specs.Sound.{IsSound};
ghost use Rattle.reset_model.specs.declared.event.Event.TheVariants.{Join};
ghost use Rattle.recovery.specs.Drafts.{Tried, TriedToOpen};
ghost use Rattle.recovery.specs.Mended.{KeepsTree};
ghost use Rattle.recovery.specs.Outward.{IsOutward};
ghost use Rattle.recovery.specs.Recovered.{IsRenewed};
ghost use Rattle.recovery.specs.Resetting.{AllJoined, EndsBy, HasFinished, IsAnew, IsInward, NoneReset};

use crate::draft::{Draft, Resets};
use crate::forgetting::regs_at;
use app_interface::Application;
use reset_machine::Event;
use std::alloc::{AllocError, Global};

/// Resets each component of a sound draft: what resets are under way end first, and then each leader opens a session, which
/// all join and finish.
pub(crate) fn reset_all<P: Application>(
    alloc: Global,
    draft: &mut Draft<P, Resets>,
    outward: &[u32],
    inward: &[u32],
) -> Result<(), AllocError>
    requires sound { IsSound draft.old.config }
    requires outward { IsOutward draft.old.config outward.now }
    requires inward { IsInward draft.old.config inward.now }
    ensures opening { draft.new.opening ≡ draft.old.opening }
    ensures sound { OnOk result (IsSound draft.new.config) }
    ensures renewed { OnOk result ((i : ℕ) → IsNode draft.new.config.graph i
        → IsRenewed P.app draft.new.events draft.new.config i) }
    ensures count { OnOk result (length draft.new.events ≤ length draft.old.events
        + 5 * length draft.old.config.graph.nodes) }
{
    draft.config().lemma_is_graph();
    join_all(alloc, draft, outward)?;
    finish_all(alloc, draft, inward)?;
    restart_all(alloc, draft, outward)?;
    finish_all(alloc, draft, inward)
}

/// Lets each node join its father's session where it may, nearer ones first. Then all are in their leaders' sessions.
pub(crate) fn join_all<P: Application>(
    alloc: Global,
    draft: &mut Draft<P, Resets>,
    order: &[u32],
) -> Result<(), AllocError>
    requires sound { IsSound draft.old.config }
    requires order { IsOutward draft.old.config order.now }
    ensures opening { draft.new.opening ≡ draft.old.opening }
    ensures keeps { OnOk result (KeepsTree draft.old.config draft.new.config) }
    ensures sound { OnOk result (IsSound draft.new.config) }
    ensures joined { OnOk result (AllJoined draft.new.config) }
    ensures count { OnOk result (length draft.new.events ≤ length draft.old.events + length order.now) }
{
    draft.config().lemma_is_graph();
    for at in order {
        draft.take_if_enabled(alloc, Event::Join { at: *at })?;
    }
    Ok(())
}

/// Lets each node finish where it may, farther ones first, where all have joined. Then none is reset.
pub(crate) fn finish_all<P: Application>(
    alloc: Global,
    draft: &mut Draft<P, Resets>,
    order: &[u32],
) -> Result<(), AllocError>
    requires sound { IsSound draft.old.config }
    requires joined { AllJoined draft.old.config }
    requires order { IsInward draft.old.config order.now }
    ensures opening { draft.new.opening ≡ draft.old.opening }
    ensures finished { OnOk result (HasFinished P.app draft.old.config draft.new.config) }
    ensures sound { OnOk result (IsSound draft.new.config) }
    ensures joined { OnOk result (AllJoined draft.new.config) }
    ensures none { OnOk result (NoneReset draft.new.config) }
    ensures ended { OnOk result
        (EndsBy draft.old.config draft.new.config draft.old.events draft.new.events) }
    ensures count { OnOk result (length draft.new.events ≤ length draft.old.events + length order.now) }
{
    draft.config().lemma_is_graph();
    for at in order {
        draft.take_if_enabled(alloc, Event::Finish { at: *at })?;
    }
    Ok(())
}

// Restarts each node, nearer ones first, where all have joined and none is reset.
fn restart_all<P: Application>(
    alloc: Global,
    draft: &mut Draft<P, Resets>,
    order: &[u32],
) -> Result<(), AllocError>
    requires sound { IsSound draft.old.config }
    requires joined { AllJoined draft.old.config }
    requires none { NoneReset draft.old.config }
    requires order { IsOutward draft.old.config order.now }
    ensures opening { draft.new.opening ≡ draft.old.opening }
    ensures keeps { OnOk result (KeepsTree draft.old.config draft.new.config) }
    ensures sound { OnOk result (IsSound draft.new.config) }
    ensures anew { OnOk result ((i : ℕ) → IsNode draft.old.config.graph i
        → IsAnew P.app draft.old.config draft.new.config draft.new.events i) }
    ensures count { OnOk result (length draft.new.events ≤ length draft.old.events + 2 * length order.now) }
{
    draft.config().lemma_is_graph();
    for at in order {
        restart_one(alloc, draft, *at)?;
    }
    Ok(())
}

// Restarts a node: a leader asks and opens a session, another node joins its father's.
fn restart_one<P: Application>(
    alloc: Global,
    draft: &mut Draft<P, Resets>,
    at: u32,
) -> Result<(), AllocError>
    requires { IsNode draft.old.config.graph at }
    ensures opening { draft.new.opening ≡ draft.old.opening }
    ensures leader { OnOk result ((tree_of draft.old.config at).father ≡ at
        → TriedToOpen P.app draft.old at draft.new) }
    ensures below { OnOk result ((tree_of draft.old.config at).father ≢ at
        → Tried P.app draft.old (Join at) draft.new) }
    ensures count { OnOk result (length draft.new.events ≤ length draft.old.events + 2) }
{
    if regs_at(draft.config(), at).father == at {
        open_at(alloc, draft, at)
    } else {
        draft.take_if_enabled(alloc, Event::Join { at })
    }
}

// Asks for a reset at a node, and opens it.
fn open_at<P: Application>(
    alloc: Global,
    draft: &mut Draft<P, Resets>,
    at: u32,
) -> Result<(), AllocError>
    requires { IsNode draft.old.config.graph at }
    ensures opening { draft.new.opening ≡ draft.old.opening }
    ensures tried { OnOk result (TriedToOpen P.app draft.old at draft.new) }
    ensures count { OnOk result (length draft.new.events ≤ length draft.old.events + 2) }
{
    draft.take_if_enabled(alloc, Event::Request { at })?;
    draft.take_if_enabled(alloc, Event::Open { at })
}
