//! Local predicates of the distributed reset service: which row of which table fails at which end of
//! which link, and the alarm of an application.
#![tactic(auto)]

mod check;
mod end;
mod fault;
mod laws;
mod quiet;
mod rows;

pub use check::{alarm, check_all, check_link, check_node};
pub use fault::{Family, LinkFault};
pub use laws::{faultless_is_pictured, faultless_is_sound, joined_are_silent, repairs_are_enabled};
