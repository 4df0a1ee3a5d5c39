//! Tests of histories: what verifying them tells, and what books keep.
#![tactic(auto)]

#[cfg(test)]
use std::fmt::Debug;
#[cfg(test)]
use std::process::Abort;

#[cfg(test)]
mod books;
#[cfg(test)]
mod histories;
#[cfg(test)]
mod line;
#[cfg(test)]
mod nodes;
#[cfg(test)]
mod positions;
#[cfg(test)]
mod texts;
#[cfg(test)]
mod writes;

// `assert_eq!` in a function of its own, which is proved once: where the macro stands, it is proved each time anew,
// with all that the test holds there.
#[cfg(test)]
fn assert_equal<T: PartialEq + Debug + Drop>(rt: &impl Abort, left: T, right: T) {
    assert_eq!(rt; left, right);
}
