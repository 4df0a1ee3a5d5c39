// What random words draw.

ghost use Rattle.std.specs.Prelude.{◌≡◌, IfOk};
ghost use Rattle.std.specs.Option.{option_and_then};
ghost use Rattle.scheduler.specs.Driven.{drawn_of, enabled_events, or_all};

use crate::events::enabled_events;
use app_interface::Application;
use reset_machine::{Config, Event};
use std::alloc::{AllocError, Global};
use topology::Topology;

/// The event that two words draw, where these nodes are ready: the first word its node, the second which of those that
/// are enabled there.
pub fn drawn_event<P: Application>(
    alloc: Global,
    config: &Config<P>,
    ready: &[u32],
    for_node: u32,
    for_event: u32,
) -> Result<Option<Event>, AllocError>
    ensures { IfOk result (λ event. event
        ≡ option_and_then (λ node. drawn_of (enabled_events P.app config.now node) for_event)
        (drawn_of (or_all config.now.graph.nodes ready.now) for_node)) }
{
    match drawn_node(config.topology(), ready, for_node) {
        Some(at) => {
            let events = enabled_events(alloc, config, at)?;
            Ok(drawn_of(&events, for_event))
        }
        None => Ok(None),
    }
}

// The node that a word draws: of those that are ready, or of all that are up where none is, if any is.
fn drawn_node(topology: &Topology, ready: &[u32], word: u32) -> Option<u32>
    ensures { result ≡ drawn_of (or_all topology.now.nodes ready.now) word }
{
    if ready.is_empty() {
        drawn_of(topology.nodes(), word)
    } else {
        drawn_of(ready, word)
    }
}

// What a word draws of a list, if there is anything in it.
fn drawn_of<T: Copy>(items: &[T], word: u32) -> Option<T>
    ensures { result ≡ drawn_of items.now word }
{
    if items.is_empty() {
        return None;
    }
    Some(items[word as usize % items.len()])
}
