//! Plans that recover a configuration of the distributed reset service, whatever its registers are: repairs that lead
//! to a sound one, and a reset of each component after them.
#![tactic(auto)]

mod draft;
mod forgetting;
mod mending;
mod order;
mod placing;
mod planner;
mod resetting;

pub use planner::{Recovery, plan};
