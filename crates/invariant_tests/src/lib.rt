//! Tests of the decided invariants by their public calls.
#![tactic(auto)]

#[cfg(test)]
mod idle;
#[cfg(test)]
mod routes;
#[cfg(test)]
mod tokens;
#[cfg(test)]
mod told;
#[cfg(test)]
mod turns;
