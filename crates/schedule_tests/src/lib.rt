//! Tests of `explore` and `search` of `schedules`.
#![tactic(auto)]

#[cfg(test)]
mod orders;
#[cfg(test)]
mod searches;
