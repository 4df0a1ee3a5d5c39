//! Faults of the distributed reset service: the disturbances of a configuration, the lines that name
//! them, and how they are drawn from random words.
#![tactic(auto)]

mod draw;
mod effects;
mod fault;
mod local_text;
mod refusal;
mod text;

pub use draw::draw_fault;
pub use effects::{inject, is_node};
pub use fault::Fault;
pub use local_text::LocalText;
pub use refusal::FaultRefusal;
pub use text::{one_fault_a_line, read_fault, write_fault};
