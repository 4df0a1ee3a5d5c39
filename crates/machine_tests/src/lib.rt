//! Tests of the reset machine by its public calls: its configurations and pictures, and the lines of
//! its events. Its runs are tested from outside, by `tests/cli/runs.py`.
#![tactic(auto)]

#[cfg(test)]
use std::fmt::Debug;
#[cfg(test)]
use std::process::Abort;

#[cfg(test)]
mod components;
#[cfg(test)]
mod event_lines;
#[cfg(test)]
mod leader_link;
#[cfg(test)]
mod machine;
#[cfg(test)]
mod moduli;
#[cfg(test)]
mod nodes_down;
#[cfg(test)]
mod pictures;
#[cfg(test)]
mod plans;
#[cfg(test)]
mod puts;
#[cfg(test)]
mod steps;
#[cfg(test)]
mod told;
#[cfg(test)]
mod topologies;

// `assert_eq!` in a function of its own, which is proved once: where the macro stands, it is proved each time anew,
// with all that the test holds there.
#[cfg(test)]
fn assert_equal<T: PartialEq + Debug + Drop>(rt: &impl Abort, left: T, right: T) {
    assert_eq!(rt; left, right);
}
