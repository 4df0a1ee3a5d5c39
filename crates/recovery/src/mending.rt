// Mends: each node takes over its father's wave registers where the two contradict the wave, from the leaders out.

ghost use Rattle.std.specs.Prelude.{◌≡◌, ◌≤◌, ◌+◌, length, OnOk};
ghost use Rattle.topology.specs.Graph.{IsNode};
ghost use Rattle.reset_model.specs.Sound.{IsSound};
ghost use Rattle.recovery.specs.FalseNodes.{IsTarget};
ghost use Rattle.recovery.specs.Mended.{MendsAt};
ghost use Rattle.recovery.specs.Outward.{AllPlaced, IsOutward};

use crate::draft::{Draft, Repairs};
use app_interface::Application;
use reset_machine::{Config, Event};
use std::alloc::{AllocError, Global};

/// Mends the wave at each node, nearer ones first, where each has its place in the tree. Then the configuration is sound.
pub(crate) fn mend_all<P: Application>(
    alloc: Global,
    draft: &mut Draft<P, Repairs>,
    target: &Config<P>,
    order: &[u32],
) -> Result<(), AllocError>
    requires target { IsTarget draft.old.config target.now }
    requires placed { AllPlaced draft.old.config target.now draft.old.config }
    requires order { IsOutward target.now order.now }
    ensures opening { draft.new.opening ≡ draft.old.opening }
    ensures sound { OnOk result (IsSound draft.new.config) }
    ensures count { OnOk result (length draft.new.events ≤ length draft.old.events + length order.now) }
{
    let _ = target;
    draft.config().lemma_is_graph();
    for at in order {
        mend_one(alloc, draft, *at)?;
    }
    Ok(())
}

// Mends at one node, where it may.
fn mend_one<P: Application>(
    alloc: Global,
    draft: &mut Draft<P, Repairs>,
    at: u32,
) -> Result<(), AllocError>
    requires { IsNode draft.old.config.graph at }
    ensures opening { draft.new.opening ≡ draft.old.opening }
    ensures mended { OnOk result (MendsAt draft.old.config draft.new.config at) }
    ensures count { OnOk result (length draft.new.events ≤ length draft.old.events + 1) }
{
    draft.config().lemma_is_graph();
    if draft.attempt(alloc, Event::Mend { at })? {
        return Ok(());
    }
    Ok(())
}
