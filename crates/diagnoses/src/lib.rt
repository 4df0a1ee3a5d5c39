//! What was wrong with the texts of a run, and where: a line for the file that was bad, as a person reads it.
#![tactic(auto)]

mod bad_line;
mod commands;
mod graph_faults;
mod history_text;
mod misuse;
mod near_names;
mod place;
mod said;
mod script_text;
mod snapshot_text;
mod table;
mod topology_text;

pub use bad_line::{NumberedLine, first_bad_line};
pub use history_text::put_history_fault;
pub use near_names::nearest;
pub use said::{Source, put_said};
pub use script_text::put_script_fault;
pub use snapshot_text::put_snapshot_fault;
pub use topology_text::put_topology_fault;
