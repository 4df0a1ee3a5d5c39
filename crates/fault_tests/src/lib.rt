//! Tests of the faults: their lines, how they are drawn, and what they do.
#![tactic(auto)]

#[cfg(test)]
use std::fmt::Debug;
#[cfg(test)]
use std::process::Abort;

#[cfg(test)]
mod drawn;
#[cfg(test)]
mod effects;
#[cfg(test)]
mod lines;

// `assert_eq!` in a function of its own, which is proved once: where the macro stands, it is proved each time anew,
// with all that the test holds there.
#[cfg(test)]
fn assert_equal<T: PartialEq + Debug + Drop>(rt: &impl Abort, left: T, right: T) {
    assert_eq!(rt; left, right);
}
