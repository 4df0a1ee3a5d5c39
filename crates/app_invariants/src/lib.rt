//! Deciding the invariants of the applications: whether the invariant of an application holds of the nodes of
//! a component, and what is wrong where it fails.
//!
//! Each application counts something: the tokens, the nodes that are in without their turns, the entries of routing
//! tables without a way. The invariant holds exactly where there is one token, and none of the others. Counting changes
//! neither the topology nor the states.
#![tactic(auto)]

mod idle;
mod invariant;
mod laws;
mod members;
mod parities;
mod routes;
mod tokens;
mod turns;
mod verdict;
mod violation;

pub use invariant::{Invariant, find_violation};
pub use laws::{verdicts_tell, violations_tell};
pub use verdict::{Verdict, judge_components};
pub use violation::Violation;
