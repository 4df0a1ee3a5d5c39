//! Tests of calls to which memory is refused once: what a call was given is then as before, and the call again
//! answers as it should. `tests/hostile/refused-calls.py` refuses each request of each test in turn; with ample memory
//! none is refused. Those of the module `none` call what asks for no memory.
#![tactic(auto)]

// The answer of the call. Where memory was refused, what is said to be kept has to hold, and it is called again.
#[cfg(test)]
macro_rules! again {
    ($rt:expr; $call:expr, $refused:pat, $kept:expr) => {
        match $call {
            Err($refused) => {
                assert!($rt; $kept);
                $call
            }
            answer => answer,
        }
    };
}

#[cfg(test)]
use std::fmt::Debug;
#[cfg(test)]
use std::process::Abort;

#[cfg(test)]
mod books;
#[cfg(test)]
mod faults;
#[cfg(test)]
mod machine;
#[cfg(test)]
mod networks;
#[cfg(test)]
mod none;
#[cfg(test)]
mod page;
#[cfg(test)]
mod seats;
#[cfg(test)]
mod texts;
#[cfg(test)]
mod topologies;

// `assert_eq!` in a function of its own, which is proved once: where the macro stands, it is proved each time anew,
// with all that the test holds there.
#[cfg(test)]
fn assert_equal<T: PartialEq + Debug + Drop>(rt: &impl Abort, left: T, right: T) {
    assert_eq!(rt; left, right);
}
