//! Tests of the checker and of the alarm by their public calls.
#![tactic(auto)]

#[cfg(test)]
mod alarms;
#[cfg(test)]
mod components;
#[cfg(test)]
mod networks;
#[cfg(test)]
mod rows;
