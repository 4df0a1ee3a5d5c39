//! Tests of the lowest layers by their public calls: topologies, sets and tables of cases, reading and
//! writing, the tables of the tree and of the wave.
//!
//! Tests stand in crates of their own, since a crate that has some is proved again with them.
#![tactic(auto)]

#[cfg(test)]
use std::fmt::Debug;
#[cfg(test)]
use std::process::Abort;

#[cfg(test)]
mod reading;
#[cfg(test)]
mod topologies;
#[cfg(test)]
mod tree;
#[cfg(test)]
mod wave;
#[cfg(test)]
mod writing;

// `assert_eq!` in a function of its own, which is proved once: where the macro stands, it is proved each time anew,
// with all that the test holds there.
#[cfg(test)]
fn assert_equal<T: PartialEq + Debug + Drop>(rt: &impl Abort, left: T, right: T) {
    assert_eq!(rt; left, right);
}
