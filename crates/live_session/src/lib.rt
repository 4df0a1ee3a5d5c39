//! Sessions: commands that are answered as they come, with a history to which what they did goes before it is answered.
#![tactic(auto)]

mod acting;
mod answering;
mod batch;
mod kept;
mod laws;
mod partial;
mod session;

pub use kept::{ResumeStop, begin_history, resume_history};
pub use laws::sessions_are_histories;
pub use session::run_session;
