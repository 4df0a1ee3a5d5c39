//! What the words mean that the program prints and reads, and the help that a line of a session asks for.
#![tactic(auto)]

mod answers;
mod applications;
mod explained;
mod help;
mod refusals;
mod rows;
mod topics;
mod words;

pub use explained::{NO_SUCH_WORD, explanation_of};
pub use help::{command_lines, help_for};
pub use topics::TOPICS;
