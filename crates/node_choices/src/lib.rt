//! What a node of the distributed reset service might do: its events in a fixed order, and which of them what it
//! sees allows. Node threads take the first, a scheduler draws among all.
#![tactic(auto)]

mod case;
mod choice;
mod next;
mod sight;

pub use choice::{allowed_events, next_event};
pub use next::{Room, next_plan};
