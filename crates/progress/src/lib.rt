//! How far long work has come. Who does the work says so as it goes on, and another thread may look. It informs, and nothing
//! depends on it.
#![tactic(auto)]

mod progress;

pub use progress::Progress;
