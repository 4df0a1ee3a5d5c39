//! The scheduler of the distributed reset service: runs of a book on one thread, whose events and faults are drawn
//! from random words that a number seeds.
#![tactic(auto)]

mod drawn;
mod events;
mod history_text;
mod run;
mod step;
mod text_run;
mod text_step;

pub use events::enabled_events;
pub use history_text::DrivenHistory;
pub use run::drive;
pub use text_run::driven_history;
