//! Tests of the service's library by its public calls, over readers and writers that fail. What it answers to texts is
//! shown on the program itself.
#![tactic(auto)]

#[cfg(test)]
use std::fmt::Debug;
#[cfg(test)]
use std::process::Abort;

#[cfg(test)]
mod buffer;
#[cfg(test)]
mod calls;
#[cfg(test)]
mod histories;
#[cfg(test)]
mod replays;
#[cfg(test)]
mod threads;
#[cfg(test)]
mod words;

// `assert_eq!` in a function of its own, which is proved once: where the macro stands, it is proved each time anew,
// with all that the test holds there.
#[cfg(test)]
fn assert_equal<T: PartialEq + Debug + Drop>(rt: &impl Abort, left: T, right: T) {
    assert_eq!(rt; left, right);
}
