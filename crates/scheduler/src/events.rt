// What is enabled at a node of a configuration.

ghost use Rattle.std.specs.Prelude.{◌≡◌, IfOk};
ghost use Rattle.scheduler.specs.Driven.{enabled_events};

use app_interface::Application;
use node_choices::allowed_events;
use reset_machine::{Config, Event, StepRefusal};
use std::alloc::{AllocError, Global};

/// The events that are enabled at the node with this identifier, in the order in which they are drawn: of `Claim`,
/// `Follow`, `Adopt` (neighbours ascending), `Mend`, `Join`, `Finish`, `Open`, `Request`, `Relay` (children ascending)
/// and `Act` (cases ascending, each by itself and then toward the neighbours ascending) those that `Config::step` does
/// not refuse. None where there is no such node.
pub fn enabled_events<P: Application>(
    alloc: Global,
    config: &Config<P>,
    at: u32,
) -> Result<Vec<Event>, AllocError>
    ensures { IfOk result (λ events. events.items ≡ enabled_events P.app config.now at) }
{
    match config.view(alloc, at) {
        Ok(view) => allowed_events(alloc, &view),
        Err(StepRefusal::NoMemory) => Err(AllocError),
        Err(_) => Ok(Vec::new(alloc)),
    }
}
