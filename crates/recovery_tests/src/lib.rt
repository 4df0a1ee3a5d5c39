//! Tests of plans by their public call.
#![tactic(auto)]

#[cfg(test)]
mod plans;
