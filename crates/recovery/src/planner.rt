// Plans.

ghost use Rattle.std.specs.Prelude.{◌≡◌, ◌≤◌, ◌+◌, ◌*◌, IfOk, OnOk, length};
ghost use Rattle.topology.specs.Graph.{node_bound};
ghost use Rattle.reset_model.specs.Sound.{IsSound};
ghost use Rattle.recovery.specs.FalseNodes.{IsTarget};
ghost use Rattle.recovery.specs.Outward.{IsOutward};
ghost use Rattle.recovery.specs.Recovered.{Heals, Recovers, Renews};

use crate::draft::{Draft, Repairs, Resets};
use crate::forgetting::forget_all;
use crate::mending::mend_all;
use crate::order::{inward, outward};
use crate::placing::place_all;
use crate::resetting::reset_all;
use app_interface::Application;
use reset_machine::{Config, Event};
use std::alloc::{AllocError, Global};

/// What recovers a configuration.
#[derive(Drop)]
pub struct Recovery {
    /// Repairs, after which it is sound: claims, follows, adoptions and mends, at most K + 4 for each node that is up.
    pub repairs: Vec<Event>,
    /// A reset of each component, after it: at most 5 events of waves for each node that is up.
    pub reset: Vec<Event>,
}

/// A plan that recovers the configuration, whatever its registers and local states are, unless allocation fails. Each event
/// is allowed where it is in the lists. The repairs lead to a sound configuration, and there are none where the
/// configuration is sound. After the reset each node is normal, in one session of its component, which its leader opened
/// in the plan, and at its start state.
///
/// First the nodes forget roots that are none, then each takes its place in the tree of shortest ways, from the leaders
/// out, and then each mends its wave registers in the same order. What resets are under way end, and then each leader opens
/// a session, which all join and finish.
pub fn plan<P: Application>(alloc: Global, config: &Config<P>) -> Result<Recovery, AllocError>
    ensures { IfOk result (λ plan. Recovers P.app config.now plan.repairs.items plan.reset.items) }
{
    let (repairs, healed) = heal(alloc, config)?;
    let (reset, renewed) = renew(alloc, healed)?;
    drop(renewed);
    Ok(Recovery { repairs, reset })
}

// The repairs, and the configuration to which they lead.
fn heal<P: Application>(
    alloc: Global,
    config: &Config<P>,
) -> Result<(Vec<Event>, Config<P>), AllocError>
    ensures { IfOk result (λ healed. Heals P.app config.now (healed.0).items healed.1) }
{
    config.lemma_is_graph();
    let topology = config.topology().copy(alloc)?;
    let Ok(target) = Config::<P>::boot(alloc, topology, config.modulus()) else {
        return Err(AllocError);
    };
    let order = outward(alloc, &target)?;
    let mut draft = Draft::<P, Repairs>::open(alloc, config.copy(alloc)?);
    heal_draft(alloc, &mut draft, &target, &order)?;
    drop(target);
    Ok(draft.into_parts())
}

// Repairs the tree and then the wave of a draft.
fn heal_draft<P: Application>(
    alloc: Global,
    draft: &mut Draft<P, Repairs>,
    target: &Config<P>,
    order: &[u32],
) -> Result<(), AllocError>
    requires target { IsTarget draft.old.config target.now }
    requires order { IsOutward target.now order.now }
    ensures opening { draft.new.opening ≡ draft.old.opening }
    ensures sound { OnOk result (IsSound draft.new.config) }
    ensures few { OnOk result (length draft.new.events ≤ length draft.old.events
        + length draft.old.config.graph.nodes * (node_bound draft.old.config.graph + 4)) }
{
    forget_all(alloc, draft, target)?;
    place_all(alloc, draft, target, order)?;
    mend_all(alloc, draft, target, order)
}

// The events of the reset, and the configuration to which they lead.
fn renew<P: Application>(
    alloc: Global,
    healed: Config<P>,
) -> Result<(Vec<Event>, Config<P>), AllocError>
    requires { IsSound healed }
    ensures { IfOk result (λ renewed. Renews P.app healed (renewed.0).items renewed.1) }
{
    let nearer_first = outward(alloc, &healed)?;
    let farther_first = inward(alloc, &healed)?;
    let mut draft = Draft::<P, Resets>::open(alloc, healed);
    reset_all(alloc, &mut draft, &nearer_first, &farther_first)?;
    Ok(draft.into_parts())
}
