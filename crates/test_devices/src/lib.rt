//! Readers and writers for tests: they move few bytes at a call, and one call goes wrong.
#![tactic(auto)]

mod reading;
mod writing;

pub use reading::{Endless, FailingReader};
pub use writing::{FailingWriter, Fault};
