//! Tests of node threads by their public calls: seats of a sharing, what a node does by itself, its turns,
//! and runs with a thread for each node.
#![tactic(auto)]

#[cfg(test)]
use std::fmt::Debug;
#[cfg(test)]
use std::process::Abort;

#[cfg(test)]
mod choice;
#[cfg(test)]
mod gates;
#[cfg(test)]
mod repairs;
#[cfg(test)]
mod requests;
#[cfg(test)]
mod rounds;
#[cfg(test)]
mod runs;
#[cfg(test)]
mod seats;
#[cfg(test)]
mod starts;
#[cfg(test)]
mod steps;
#[cfg(test)]
mod topologies;
#[cfg(test)]
mod turns;

// `assert_eq!` in a function of its own, which is proved once: where the macro stands, it is proved each time anew,
// with all that the test holds there.
#[cfg(test)]
fn assert_equal<T: PartialEq + Debug + Drop>(rt: &impl Abort, left: T, right: T) {
    assert_eq!(rt; left, right);
}
